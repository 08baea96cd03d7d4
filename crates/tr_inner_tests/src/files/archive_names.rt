//! Names of archives, against the calendars of Python and of `date`.

use super::assert_same;
use std::alloc::Global;
use std::process::Abort;
use tr_chunk::archive_name;
use tr_terms::{Moment, OffsetMinutes};

const SECOND: u64 = 1_000_000_000;

/// The last nanosecond of a second, which is still in it.
const END: u64 = 999_999_999;

/// An archive's begin and end, the offset's minutes, and the archive's number.
type Archive = (u64, u64, i32, u64);

/// Asserts the name of an archive.
fn assert_name(rt: &impl Abort, alloc: Global, (begin, end, minutes, id): Archive, want: &str) {
    let first = Moment::new(begin).expect(rt, "a moment");
    let last = Moment::new(end).expect(rt, "a moment");
    let offset = OffsetMinutes::new(minutes).expect(rt, "an offset");
    let name = archive_name(alloc, first, last, offset, id).expect(rt, "memory");
    assert_same(
        rt,
        (begin, end, minutes, id, name.as_str()),
        (begin, end, minutes, id, want),
    );
}

static NAMES: [(Archive, &str); 15] = [
    // worked examples
    (
        (1_700_000_000 * SECOND, 1_700_000_060 * SECOND, -300, 0),
        "20231114T171320-0500-20231114T171420-0500-0",
    ),
    (
        (0, 0, -30, 3),
        "19691231T233000-0030-19691231T233000-0030-3",
    ),
    // ends of the range
    ((0, 0, 0, 0), "19700101T000000+0000-19700101T000000+0000-0"),
    (
        (0, 0, -1439, 7),
        "19691231T000100-2359-19691231T000100-2359-7",
    ),
    (
        (0, 0, 1439, 7),
        "19700101T235900+2359-19700101T235900+2359-7",
    ),
    (
        (Moment::LAST, Moment::LAST, 0, u64::MAX),
        "22550314T160000+0000-22550314T160000+0000-18446744073709551615",
    ),
    (
        (Moment::LAST, Moment::LAST, -1439, 1),
        "22550313T160100-2359-22550313T160100-2359-1",
    ),
    (
        (Moment::LAST, Moment::LAST, 1439, 1),
        "22550315T155900+2359-22550315T155900+2359-1",
    ),
    // leap days and years
    (
        (951_782_399 * SECOND + END, 951_782_400 * SECOND, 0, 9),
        "20000228T235959+0000-20000229T000000+0000-9",
    ),
    (
        (951_868_799 * SECOND + END, 951_868_800 * SECOND, 0, 9),
        "20000229T235959+0000-20000301T000000+0000-9",
    ),
    (
        (4_107_542_399 * SECOND + END, 4_107_542_400 * SECOND, 0, 9),
        "21000228T235959+0000-21000301T000000+0000-9",
    ),
    (
        (1_709_164_800 * SECOND + END, 1_709_251_199 * SECOND, -1, 9),
        "20240228T235900-0001-20240229T235859-0001-9",
    ),
    (
        (946_684_799 * SECOND + END, 946_684_800 * SECOND, 1, 9),
        "20000101T000059+0001-20000101T000100+0001-9",
    ),
    (
        (1_735_689_599 * SECOND + END, 1_735_689_600 * SECOND, -1, 9),
        "20241231T235859-0001-20241231T235900-0001-9",
    ),
    (
        (1_483_228_799 * SECOND + END, 1_483_228_800 * SECOND, 60, 9),
        "20170101T005959+0100-20170101T010000+0100-9",
    ),
];

/// Asserts the names of archives.
fn assert_names(rt: &impl Abort, alloc: Global, rows: &[(Archive, &str)]) {
    for (archive, want) in rows {
        assert_name(rt, alloc, *archive, want);
    }
}

#[test]
fn archives_have_names(rt: HostRuntime) {
    assert_names(&rt, rt.alloc(), &NAMES);
}

#[test]
fn ends_of_the_offsets(rt: HostRuntime) {
    assert!(rt; OffsetMinutes::new(-1_440).is_none());
    assert!(rt; OffsetMinutes::new(1_440).is_none());
    let first = OffsetMinutes::new(-1_439).expect(&rt, "an offset");
    assert_same(&rt, first.get(), -1_439);
}
