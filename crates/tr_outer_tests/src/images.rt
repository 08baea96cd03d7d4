//! What is recovered of images: files of rings, dumps of memory, any bytes.

mod damage;
pub(crate) mod laying;
mod names;
mod reading;
mod windows;

use crate::asserting::assert_same;
use laying::{Row, around, assert_found, image, kept, lay, recovered, written, written_by, zeros};
use std::alloc::Global;
use std::process::Abort;
use tr_folders::MemoryFolders;
use tr_terms::Moment;
use tr_testing::moment;

/// A packet of one record, as it stands in memory: the trace 1, stream 2, moments 5 to 9, number 3, nothing discarded, and the
/// record of id 7, moment 5 and serial 4 with the payload `A`. Its content_size is 840; its packet_size wasn't written yet.
static ONE: [u8; 105] = [
    0xc1, 0x1f, 0xfc, 0xc1, 0, 0, 0, 0, 0, 0, 0, 0, 0, 0, 0, 0, 0, 0, 0, 1, 0, 0, 0, 0, 2, 0, 0, 0,
    0, 0, 0, 0, 5, 0, 0, 0, 0, 0, 0, 0, 9, 0, 0, 0, 0, 0, 0, 0, 0x48, 3, 0, 0, 0, 0, 0, 0, 0, 0, 0,
    0, 0, 0, 0, 0, 3, 0, 0, 0, 0, 0, 0, 0, 0, 0, 0, 0, 0, 0, 0, 0, 7, 0, 0, 0, 5, 0, 0, 0, 0, 0, 0,
    0, 4, 0, 0, 0, 0, 0, 0, 0, 1, 0, 0, 0, 0x41,
];

/// Its size in bits.
static ITS_SIZE: [u8; 8] = [0x48, 3, 0, 0, 0, 0, 0, 0];

#[test]
fn a_worked_example(rt: HostRuntime) {
    let alloc = rt.alloc();
    let mut image = zeros(&rt, alloc, 200);
    lay(&rt, &mut image, 61, &ONE);
    let Ok(Some(found)) = recovered(alloc, 1, &mut kept(&rt, alloc, &image, 64)) else {
        panic!(&rt; "it isn't read")
    };
    assert_same(&rt, found.len(), 1);
    let text = found.first().expect(&rt, "a packet");
    let mut whole = ONE.to_vec(alloc).expect(&rt, "memory");
    lay(&rt, &mut whole, 56, &ITS_SIZE);
    assert_same(&rt, text.text(), whole.as_slice());
    let head = text.head();
    assert_same(&rt, (head.stream, head.seq, head.lost), (2, 3, 0));
    assert_same(&rt, (head.begin, head.end), (moment(5), moment(9)));
    assert_same(&rt, text.count(), 1);
}

#[test]
fn no_file(rt: HostRuntime) {
    let alloc = rt.alloc();
    let mut folders = MemoryFolders::new(alloc, Vec::new(alloc), Vec::new(alloc), 64);
    let Ok(found) = recovered(alloc, 1, &mut folders) else {
        panic!(&rt; "it isn't read")
    };
    assert_same(&rt, found.is_none(), true);
}

#[test]
fn files_without_a_packet(rt: HostRuntime) {
    let alloc = rt.alloc();
    for size in [0, 1, 79, 80, 104, 1000] {
        assert_found(&rt, alloc, &zeros(&rt, alloc, size), &[]);
    }
}

/// A packet of 228 bytes.
const TWO: Row = (3, 4, 5, &[50, 50]);

/// Packets of 228 bytes in an image of 1000: at its front, at an odd place, and at its end.
static PLACES: [(usize, Row); 4] = [
    (0, (0, 0, 5, &[50, 50])),
    (229, (0, 1, 5, &[50, 50])),
    (486, (0, 2, 5, &[50, 50])),
    (772, (0, 3, 5, &[50, 50])),
];

static AT_PLACES: [Row; 4] = [
    (0, 0, 5, &[50, 50]),
    (0, 1, 5, &[50, 50]),
    (0, 2, 5, &[50, 50]),
    (0, 3, 5, &[50, 50]),
];

/// How many bytes of the image there are, and how many packets stand in them: none of which a byte is missing.
static CUTS: [(usize, usize); 9] = [
    (79, 0),
    (227, 0),
    (228, 1),
    (456, 1),
    (457, 2),
    (713, 2),
    (714, 3),
    (999, 3),
    (1000, 4),
];

#[test]
fn at_any_place(rt: HostRuntime) {
    let alloc = rt.alloc();
    let image = image(&rt, alloc, 1000, &PLACES);
    for (len, count) in &CUTS {
        let cut = image.get(..*len).expect(&rt, "a shorter image");
        let rows = AT_PLACES.get(..*count).expect(&rt, "fewer packets");
        assert_found(&rt, alloc, cut, rows);
    }
}

/// Each packet counts for its own trace alone.
#[test]
fn of_one_trace_alone(rt: HostRuntime) {
    let alloc = rt.alloc();
    let mut image = image(&rt, alloc, 1000, &[(600, (0, 1, 0, &[7]))]);
    lay(&rt, &mut image, 100, &written_by(&rt, alloc, 2, &TWO));
    assert_found(&rt, alloc, &image, &[(0, 1, 0, &[7])]);
    for (trace, wanted) in [(1, Some((0, 1))), (2, Some((3, 4))), (3, None)] {
        let Ok(Some(found)) = recovered(alloc, trace, &mut kept(&rt, alloc, &image, 64)) else {
            panic!(&rt; "it isn't read")
        };
        let first = found.first().map(|it| (it.head().stream, it.head().seq));
        assert_same(&rt, (trace, first), (trace, wanted));
    }
}

/// Packets by their places in an image of 2000 bytes, and those that are recovered.
type Case = (&'static [(usize, Row)], &'static [Row]);

fn assert_cases(rt: &impl Abort, alloc: Global, cases: &[Case]) {
    for (laid, found) in cases {
        assert_found(rt, alloc, &image(rt, alloc, 2000, laid), found);
    }
}

/// Of one stream and number there are several packets. How many records were discarded by the end tells which one it is.
static KEPT: [Case; 7] = [
    (
        &[(0, (3, 4, 0, &[9])), (500, (3, 4, 1, &[1, 1]))],
        &[(3, 4, 1, &[1, 1])],
    ),
    (
        &[(0, (3, 4, 1, &[1, 1])), (500, (3, 4, 0, &[9]))],
        &[(3, 4, 1, &[1, 1])],
    ),
    // more bytes, but fewer records
    (
        &[(0, (3, 4, 0, &[1, 1])), (500, (3, 4, 1, &[400]))],
        &[(3, 4, 0, &[1, 1])],
    ),
    // as many
    (
        &[(0, (3, 4, 0, &[1, 1])), (500, (3, 4, 1, &[9, 9]))],
        &[(3, 4, 0, &[1, 1])],
    ),
    (
        &[
            (0, (3, 4, 0, &[1])),
            (500, (3, 4, 1, &[1, 2, 3])),
            (900, (3, 4, 2, &[1, 2])),
            (1300, (3, 4, 3, &[3, 2, 1])),
        ],
        &[(3, 4, 1, &[1, 2, 3])],
    ),
    // of another stream, or of another number
    (
        &[(0, (3, 4, 0, &[1])), (500, (2, 4, 0, &[1, 1]))],
        &[(2, 4, 0, &[1, 1]), (3, 4, 0, &[1])],
    ),
    (
        &[(0, (3, 4, 0, &[1])), (500, (3, 3, 0, &[1, 1]))],
        &[(3, 3, 0, &[1, 1]), (3, 4, 0, &[1])],
    ),
];

#[test]
fn the_one_with_the_most_records(rt: HostRuntime) {
    assert_cases(&rt, rt.alloc(), &KEPT);
}

static ORDER: [Case; 2] = [
    (
        &[
            (0, (2, 1, 0, &[0])),
            (200, (0, 300, 0, &[0])),
            (400, (u64::MAX, 0, 0, &[0])),
            (600, (2, 0, 0, &[0])),
            (800, (0, 2, 0, &[0])),
            (1000, (1, u64::MAX, 0, &[0])),
            (1200, (2, 256, 0, &[0])),
            (1400, (256, 0, 0, &[0])),
        ],
        &[
            (0, 2, 0, &[0]),
            (0, 300, 0, &[0]),
            (1, u64::MAX, 0, &[0]),
            (2, 0, 0, &[0]),
            (2, 1, 0, &[0]),
            (2, 256, 0, &[0]),
            (256, 0, 0, &[0]),
            (u64::MAX, 0, 0, &[0]),
        ],
    ),
    // one behind another, without a byte between them
    (
        &[
            (0, (1, 2, 0, &[0])),
            (104, (1, 1, 0, &[0])),
            (208, (1, 0, 0, &[0])),
        ],
        &[(1, 0, 0, &[0]), (1, 1, 0, &[0]), (1, 2, 0, &[0])],
    ),
];

/// They are in the order of streams and numbers, wherever they stand.
#[test]
fn in_order(rt: HostRuntime) {
    assert_cases(&rt, rt.alloc(), &ORDER);
}

/// A packet that is the payload of another one's record stands in the image too.
#[test]
fn a_packet_in_another_one(rt: HostRuntime) {
    let alloc = rt.alloc();
    let mut image = zeros(&rt, alloc, 1000);
    let inner = written(&rt, alloc, &TWO);
    let outer = around(&rt, alloc, &(0, 7, 0, &[]), inner);
    lay(&rt, &mut image, 10, &outer);
    let Ok(Some(found)) = recovered(alloc, 1, &mut kept(&rt, alloc, &image, 64)) else {
        panic!(&rt; "it isn't read")
    };
    assert_same(&rt, found.len(), 2);
    let texts = (
        found.first().map(|it| it.text()),
        found.get(1).map(|it| it.text()),
    );
    assert_same(&rt, texts.0, Some(outer.as_slice()));
    assert_same(&rt, texts.1, Some(written(&rt, alloc, &TWO).as_slice()));
    // the outer one is damaged
    lay(&rt, &mut image, 10, &[0]);
    assert_found(&rt, alloc, &image, &[TWO]);
}

/// Records of an older packet, which lie behind a newer one's content, aren't of it. In their place they would be: their serials
/// rise, and their moments don't fall.
#[test]
fn what_lies_behind_the_content(rt: HostRuntime) {
    let alloc = rt.alloc();
    let mut image = image(&rt, alloc, 1000, &[(300, (3, 4, 0, &[50, 50, 50]))]);
    lay(
        &rt,
        &mut image,
        300,
        &written(&rt, alloc, &(3, 5, 1, &[50, 50])),
    );
    assert_found(&rt, alloc, &image, &[(3, 5, 1, &[50, 50])]);
    lay(
        &rt,
        &mut image,
        300,
        &written(&rt, alloc, &(3, 6, 2, &[50])),
    );
    assert_found(&rt, alloc, &image, &[(3, 6, 2, &[50])]);
}
