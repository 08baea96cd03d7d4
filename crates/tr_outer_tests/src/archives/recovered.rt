//! An archive of packets that were found in an image.

use super::{Item, assert_made, assert_same, bytes_at};
use crate::images::laying::{kept, lay, recovered, zeros};
use crate::surveys::room::uuid;
use std::alloc::Global;
use std::process::Abort;
use tr_export::MemoryDisk;
use tr_packet::{Head, Packet, encode_packet};
use tr_record::Rec;
use tr_recover::write_recovered;
use tr_testing::moment;

/// A packet of one record, of 105 bytes: its stream, its number, and the seconds at which it begins and ends.
type Row = (u64, u64, u64, u64);

static ROWS: [Row; 3] = [(2, 0, 1, 2), (0, 5, 3, 60), (0, 4, 2, 3)];

/// What is made of them: stream 1 has no packets.
static MADE: [Item<'static>; 5] = [
    (
        "folder",
        0,
        "d/recovered/archives/19700101T000001+0000-19700101T000100+0000-0",
    ),
    (
        "file",
        210,
        "d/recovered/archives/19700101T000001+0000-19700101T000100+0000-0/ring_0",
    ),
    (
        "file",
        0,
        "d/recovered/archives/19700101T000001+0000-19700101T000100+0000-0/ring_1",
    ),
    (
        "file",
        105,
        "d/recovered/archives/19700101T000001+0000-19700101T000100+0000-0/ring_2",
    ),
    (
        "file",
        5,
        "d/recovered/archives/19700101T000001+0000-19700101T000100+0000-0/metadata",
    ),
];

/// A second, in nanoseconds.
const SECOND: u64 = 1_000_000_000;

fn written(rt: &impl Abort, alloc: Global, row: &Row) -> Vec<u8> {
    let (stream, seq, begin, end) = *row;
    let head = Head {
        uuid: uuid(1),
        stream,
        begin: moment(begin.wrapping_mul(SECOND)),
        end: moment(end.wrapping_mul(SECOND)),
        seq,
        lost: 0,
    };
    let payload = vec![in alloc; 0x41; 1].expect(rt, "memory");
    let mut records = Vec::new(alloc);
    records
        .push(Rec::new(seq, head.begin, 7, payload))
        .expect(rt, "memory");
    let packet = Packet::checked(head, records).expect(rt, "a packet");
    encode_packet(alloc, &packet).expect(rt, "memory")
}

#[test]
fn packets_of_an_image_are_an_archive(rt: HostRuntime) {
    let alloc = rt.alloc();
    let mut image = zeros(&rt, alloc, 600);
    for (place, row) in [3, 200, 400].into_iter().zip(&ROWS) {
        lay(&rt, &mut image, place, &written(&rt, alloc, row));
    }
    let Ok(Some(packets)) = recovered(alloc, 1, &mut kept(&rt, alloc, &image, 64)) else {
        panic!(&rt; "it isn't read")
    };
    let mut disk = MemoryDisk::new(alloc, 64);
    let answer = write_recovered(alloc, &mut disk, "d", b"text\n", &packets);
    assert_same(&rt, answer, Ok(()));
    assert_made(&rt, &disk, &MADE);
    let (first, second) = (
        written(&rt, alloc, &(0, 4, 2, 3)),
        written(&rt, alloc, &(0, 5, 3, 60)),
    );
    assert_same(&rt, bytes_at(&disk, 1).get(..105), Some(first.as_slice()));
    assert_same(&rt, bytes_at(&disk, 1).get(105..), Some(second.as_slice()));
    assert_same(&rt, bytes_at(&disk, 4), b"text\n".as_slice());
}

/// Of a stream that no session can have it isn't known that there were others below it.
#[test]
fn a_stream_that_no_session_has(rt: HostRuntime) {
    let alloc = rt.alloc();
    let mut image = zeros(&rt, alloc, 300);
    lay(&rt, &mut image, 5, &written(&rt, alloc, &(1_024, 0, 1, 2)));
    let Ok(Some(packets)) = recovered(alloc, 1, &mut kept(&rt, alloc, &image, 64)) else {
        panic!(&rt; "it isn't read")
    };
    let mut disk = MemoryDisk::new(alloc, 64);
    let answer = write_recovered(alloc, &mut disk, "d", b"text\n", &packets);
    assert_same(&rt, answer, Ok(()));
    assert_made(
        &rt,
        &disk,
        &[
            (
                "folder",
                0,
                "d/recovered/archives/19700101T000001+0000-19700101T000002+0000-0",
            ),
            (
                "file",
                105,
                "d/recovered/archives/19700101T000001+0000-19700101T000002+0000-0/ring_1024",
            ),
            (
                "file",
                5,
                "d/recovered/archives/19700101T000001+0000-19700101T000002+0000-0/metadata",
            ),
        ],
    );
}

#[test]
fn no_packets_are_no_archive(rt: HostRuntime) {
    let alloc = rt.alloc();
    let image = zeros(&rt, alloc, 600);
    let Ok(Some(packets)) = recovered(alloc, 1, &mut kept(&rt, alloc, &image, 64)) else {
        panic!(&rt; "it isn't read")
    };
    let mut disk = MemoryDisk::new(alloc, 64);
    let answer = write_recovered(alloc, &mut disk, "d", b"text\n", &packets);
    assert_same(&rt, answer, Ok(()));
    assert_made(&rt, &disk, &[]);
}
