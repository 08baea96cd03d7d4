//! From an image to an archive.

use super::failing::FailingDisk;
use super::{Item, assert_made, assert_same, bytes_at};
use crate::images::laying::{Row, image, kept, metadata, open_at};
use crate::surveys::failing::{FailingFolders, ShortSink};
use crate::surveys::room::uuid;
use std::alloc::Global;
use std::process::Abort;
use tr_export::MemoryDisk;
use tr_folders::MemoryFolders;
use tr_record::MemorySink;
use tr_recover::{RecoverFault, Recovered, recover};

/// Packets by their places: of stream 0 the numbers 5 and 2, by whose ends 4 records and 1 were discarded, and number 0 of stream 3.
static LAID: [(usize, Row); 3] = [
    (3_000, (0, 5, 4, &[9, 9])),
    (3_400, (3, 0, 0, &[9])),
    (3_700, (0, 2, 1, &[1])),
];

/// What is said of them.
const SAID: &str = "\
gap 0 0 2
gap 0 3 2
stream 0 packets 2 records 3 absent 4 lost 4
stream 3 packets 1 records 1 absent 0 lost 0
";

/// What is made of them. The first packet of stream 0 has 105 bytes, the second one 146; streams 1 and 2 have none.
fn made(size: usize) -> [Item<'static>; 6] {
    [
        (
            "folder",
            0,
            "d/recovered/archives/19700101T000000+0000-19700101T000000+0000-0",
        ),
        (
            "file",
            251,
            "d/recovered/archives/19700101T000000+0000-19700101T000000+0000-0/ring_0",
        ),
        (
            "file",
            0,
            "d/recovered/archives/19700101T000000+0000-19700101T000000+0000-0/ring_1",
        ),
        (
            "file",
            0,
            "d/recovered/archives/19700101T000000+0000-19700101T000000+0000-0/ring_2",
        ),
        (
            "file",
            113,
            "d/recovered/archives/19700101T000000+0000-19700101T000000+0000-0/ring_3",
        ),
        (
            "file",
            size,
            "d/recovered/archives/19700101T000000+0000-19700101T000000+0000-0/metadata",
        ),
    ]
}

/// An image with these packets, and with the beginning of a file of rings of their trace, if that is there.
fn rings(rt: &impl Abort, alloc: Global, is_begun: bool) -> MemoryFolders {
    let mut image = image(rt, alloc, 4_000, &LAID);
    if is_begun {
        open_at(rt, alloc, &mut image, 9, 32, 1);
    }
    kept(rt, alloc, &image, 64)
}

/// Asserts what is said and made of an image, of a trace if one is wanted.
fn assert_recovered(
    rt: &impl Abort,
    alloc: Global,
    mut folders: MemoryFolders,
    wanted: Option<u8>,
    came_to: Recovered,
) {
    let uuid = match wanted {
        Some(last) => Some(uuid(last)),
        None => None,
    };
    let (mut disk, mut out) = (MemoryDisk::new(alloc, 64), MemorySink::new(alloc, 7));
    let answer = recover(
        alloc,
        &mut folders,
        &mut disk,
        &mut out,
        uuid.as_ref(),
        "ring",
        "d",
    );
    assert_same(rt, (wanted, answer), (wanted, Ok(came_to)));
    let said = out.into_bytes();
    if came_to == Recovered::Done {
        let text = metadata(rt, alloc, 1);
        assert_same(rt, said.as_slice(), SAID.as_bytes());
        assert_made(rt, &disk, &made(text.len()));
        assert_same(rt, bytes_at(&disk, 5), text.as_bytes());
    } else {
        assert_same(rt, said.as_slice(), b"".as_slice());
        assert_made(rt, &disk, &[]);
    }
}

#[test]
fn the_trace_that_an_image_names(rt: HostRuntime) {
    let alloc = rt.alloc();
    assert_recovered(&rt, alloc, rings(&rt, alloc, true), None, Recovered::Done);
    assert_recovered(
        &rt,
        alloc,
        rings(&rt, alloc, false),
        None,
        Recovered::Nothing,
    );
}

#[test]
fn the_trace_that_is_wanted(rt: HostRuntime) {
    let alloc = rt.alloc();
    for is_begun in [true, false] {
        let folders = rings(&rt, alloc, is_begun);
        assert_recovered(&rt, alloc, folders, Some(1), Recovered::Done);
        let folders = rings(&rt, alloc, is_begun);
        assert_recovered(&rt, alloc, folders, Some(2), Recovered::Nothing);
    }
}

#[test]
fn no_image(rt: HostRuntime) {
    let alloc = rt.alloc();
    for wanted in [None, Some(1)] {
        let none = MemoryFolders::new(alloc, Vec::new(alloc), Vec::new(alloc), 64);
        assert_recovered(&rt, alloc, none, wanted, Recovered::Unreadable);
    }
}

/// Whichever byte the output refuses, nothing is made.
#[test]
fn an_output_that_fails(rt: HostRuntime) {
    let alloc = rt.alloc();
    for room in 0..SAID.len() {
        let mut folders = rings(&rt, alloc, true);
        let mut disk = MemoryDisk::new(alloc, 64);
        let mut out = ShortSink::new(alloc, room);
        let answer = recover(alloc, &mut folders, &mut disk, &mut out, None, "ring", "d");
        assert_same(&rt, (answer, out.failures()), (Err(RecoverFault::Write), 1));
        let said = out.into_bytes();
        assert_same(&rt, (room, said.len()), (room, room));
        assert_made(&rt, &disk, &[]);
    }
}

/// There are eleven calls of a disk: a folder, and the beginning and the end of five files. Whichever fails, all was said before.
#[test]
fn a_disk_that_fails(rt: HostRuntime) {
    let alloc = rt.alloc();
    for calls in 0..12 {
        let mut folders = rings(&rt, alloc, true);
        let mut disk = FailingDisk::new(calls, 4_096, 4_096);
        let mut out = MemorySink::new(alloc, 7);
        let answer = recover(alloc, &mut folders, &mut disk, &mut out, None, "ring", "d");
        let (wanted, failures) = if calls < 11 {
            (Err(RecoverFault::Write), 1)
        } else {
            (Ok(Recovered::Done), 0)
        };
        assert_same(&rt, (calls, answer), (calls, wanted));
        assert_same(&rt, (calls, disk.failures()), (calls, Some(failures)));
        assert_same(&rt, out.into_bytes().as_slice(), SAID.as_bytes());
    }
}

/// The image is opened twice: to find the trace, and to find its packets. Whichever call fails, nothing is said or made.
#[test]
fn an_image_whose_reading_fails(rt: HostRuntime) {
    let alloc = rt.alloc();
    for calls in 0..200 {
        let mut folders = FailingFolders::new(rings(&rt, alloc, true), calls);
        let (mut disk, mut out) = (MemoryDisk::new(alloc, 64), MemorySink::new(alloc, 7));
        let answer = recover(alloc, &mut folders, &mut disk, &mut out, None, "ring", "d");
        if answer == Ok(Recovered::Done) {
            assert_same(&rt, folders.failures(), 0);
            return;
        }
        assert_same(
            &rt,
            (answer, folders.failures()),
            (Err(RecoverFault::TooMuch), 1),
        );
        assert_same(&rt, out.into_bytes().as_slice(), b"".as_slice());
        assert_made(&rt, &disk, &[]);
    }
    panic!(&rt; "no end");
}
