//! Where a survey says that records were discarded. The expected lines are worked out by hand from the serials.

use crate::surveys::room::{Thing, furnished};
use std::alloc::Global;
use std::process::Abort;

/// A session of two archives, each with a file of stream 0, says this of the stream.
fn says<R: Abort>(rt: &R, alloc: Global, things: &[Thing], expected: &str, faults: u64) {
    says_in(rt, alloc, &SESSION, things, expected, faults);
}

/// The same of a session with this metadata.
fn says_in<R: Abort>(
    rt: &R,
    alloc: Global,
    session: &[Thing],
    things: &[Thing],
    expected: &str,
    faults: u64,
) {
    let mut room = furnished(rt, alloc, session);
    for thing in things {
        room.thing(thing);
    }
    room.says(64, expected, faults);
}

static SESSION: [Thing; 5] = [
    Thing::Session(&["0", "1"]),
    Thing::Metadata("0", 1),
    Thing::Metadata("1", 1),
    Thing::Archive("0", &["c_0"]),
    Thing::Archive("1", &["c_0"]),
];

/// Serials 0 and 1 are missing before the first record, 4, 5 and 6 and then 8 among records, and 11 and 12 between those of two
/// packets.
static MISSING: [Thing; 2] = [
    Thing::Timed(
        "0",
        "c_0",
        0,
        &[(0, 6, 9, &[(2, 3), (3, 4), (7, 6), (9, 7), (10, 8)])],
    ),
    Thing::Timed("1", "c_0", 0, &[(1, 8, 20, &[(13, 15), (14, 16)])]),
];

#[test]
fn between_records(rt: HostRuntime) {
    let expected = "session s uuid 00000000-0000-0000-0000-000000000001 archives 2
lost 0 2 before 0 3
lost 0 3 between 0 4 and 0 6
lost 0 1 between 0 6 and 0 7
lost 0 2 between 0 8 and 1 15
stream 0 c packets 2 records 7 absent 0 lost 8 last 1 14 from 3 to 20
whole
";
    says(&rt, rt.alloc(), &MISSING, expected, 0);
}

/// Serials 2 and 3 were discarded between the first packet's last record and its end, so they aren't told again at the next one,
/// after whose last record 6, 7 and 8 were. Serial 10 was discarded between two packets.
static AT_ENDS: [Thing; 2] = [
    Thing::Timed(
        "0",
        "c_0",
        0,
        &[
            (0, 2, 10, &[(0, 1), (1, 2)]),
            (1, 5, 20, &[(4, 11), (5, 12)]),
        ],
    ),
    Thing::Timed(
        "1",
        "c_0",
        0,
        &[(2, 5, 30, &[(9, 21)]), (3, 6, 40, &[(11, 31)])],
    ),
];

#[test]
fn at_the_ends_of_packets(rt: HostRuntime) {
    let expected = "session s uuid 00000000-0000-0000-0000-000000000001 archives 2
lost 0 2 between 0 2 and 0 10
lost 0 3 between 0 12 and 0 20
lost 0 1 between 1 21 and 1 31
stream 0 c packets 4 records 6 absent 0 lost 6 last 3 11 from 1 to 40
whole
";
    says(&rt, rt.alloc(), &AT_ENDS, expected, 0);
}

/// One was discarded after the first packet's last record, and two more before the next packet's first one, two among its
/// records, and four after them.
static EVERYWHERE: [Thing; 2] = [
    Thing::Timed("0", "c_0", 0, &[(0, 1, 5, &[(0, 3)])]),
    Thing::Timed("1", "c_0", 0, &[(1, 9, 50, &[(4, 10), (7, 20), (8, 30)])]),
];

#[test]
fn before_among_and_after_records(rt: HostRuntime) {
    let expected = "session s uuid 00000000-0000-0000-0000-000000000001 archives 2
lost 0 1 between 0 3 and 0 5
lost 0 2 between 0 3 and 1 10
lost 0 2 between 1 10 and 1 20
lost 0 4 between 1 30 and 1 50
stream 0 c packets 2 records 4 absent 0 lost 9 last 1 8 from 3 to 50
whole
";
    says(&rt, rt.alloc(), &EVERYWHERE, expected, 0);
}

/// The first archive declares an event of the records' id, the second one none.
static NAMED: [Thing; 5] = [
    Thing::Session(&["0", "1"]),
    Thing::Typed("0", 1, "log 7 bytes:bytes"),
    Thing::Metadata("1", 1),
    Thing::Archive("0", &["c_0"]),
    Thing::Archive("1", &["c_0"]),
];

#[test]
fn records_have_their_events_names(rt: HostRuntime) {
    let expected = "session s uuid 00000000-0000-0000-0000-000000000001 archives 2
lost 0 1 between 0 3 log and 0 5
lost 0 2 between 0 3 log and 1 10 log
lost 0 2 between 1 10 log and 1 20 log
lost 0 4 between 1 30 log and 1 50
stream 0 c packets 2 records 4 absent 0 lost 9 last 1 8 from 3 to 50
whole
";
    says_in(&rt, rt.alloc(), &NAMED, &EVERYWHERE, expected, 0);
}

/// The first archive's metadata are another trace's, so that they don't count; the second ones declare events, but none of the
/// records' id.
static UNDECLARED: [Thing; 8] = [
    Thing::Session(&["0", "1", "2"]),
    Thing::Typed("0", 2, "log 7 bytes:bytes"),
    Thing::Typed("1", 1, "queue 3 depth:u8\nstate 9 at:x64"),
    Thing::Typed("2", 1, "log 7 bytes:bytes"),
    Thing::Archive("0", &["c_0"]),
    Thing::Archive("1", &["c_0"]),
    Thing::Archive("2", &["c_0"]),
    Thing::Timed("2", "c_0", 0, &[(2, 11, 60, &[(15, 60)])]),
];

#[test]
fn records_of_undeclared_ids_have_none(rt: HostRuntime) {
    let expected = "session s uuid 00000000-0000-0000-0000-000000000001 archives 3
fault 19700101T000000+0000-19700101T000000+0000-0 another uuid
lost 0 1 between 0 3 - and 0 5
lost 0 2 between 0 3 - and 1 10 -
lost 0 2 between 1 10 - and 1 20 -
lost 0 4 between 1 30 - and 1 50
lost 0 2 between 1 30 - and 2 60 -
stream 0 c packets 3 records 5 absent 0 lost 11 last 2 15 from 3 to 60
faulty 1
";
    says_in(&rt, rt.alloc(), &UNDECLARED, &EVERYWHERE, expected, 1);
}

/// Where numbers are absent, other records took serials too. How many were discarded after the last record of packet 2 isn't
/// known, so packet 3 is told by ends as well; after packet 4, up to whose end no more were, serials tell it again.
static ABSENT: [Thing; 2] = [
    Thing::Timed(
        "0",
        "c_0",
        0,
        &[(0, 0, 2, &[(0, 1)]), (2, 3, 12, &[(5, 10), (7, 11)])],
    ),
    Thing::Timed(
        "1",
        "c_0",
        0,
        &[
            (3, 4, 22, &[(9, 20)]),
            (4, 4, 32, &[(11, 30)]),
            (5, 5, 42, &[(12, 40), (14, 41)]),
        ],
    ),
];

#[test]
fn where_numbers_are_absent(rt: HostRuntime) {
    let expected = "session s uuid 00000000-0000-0000-0000-000000000001 archives 2
gap 0 1 1 between 0 2 and 0 10
lost 0 3 between 0 2 and 0 12
lost 0 1 between 0 12 and 1 22
lost 0 1 between 1 40 and 1 41
stream 0 c packets 5 records 7 absent 1 lost 5 last 5 14 from 1 to 42
cleared or missing 0 1
whole
";
    says(&rt, rt.alloc(), &ABSENT, expected, 0);
}

/// More serials are missing than records were discarded; and a serial that was to be a discarded record's is a record's.
static UNFIT: [Thing; 2] = [
    Thing::Timed(
        "0",
        "c_0",
        0,
        &[(0, 1, 4, &[(0, 1), (3, 3)]), (1, 1, 5, &[(4, 5)])],
    ),
    Thing::Timed(
        "1",
        "c_0",
        0,
        &[(2, 3, 15, &[(5, 10)]), (3, 5, 25, &[(6, 20), (9, 22)])],
    ),
];

#[test]
fn serials_that_do_not_fit(rt: HostRuntime) {
    let expected = "session s uuid 00000000-0000-0000-0000-000000000001 archives 2
lost 0 1 before 0 4
lost 0 2 between 1 10 and 1 15
lost 0 2 between 1 15 and 1 25
stream 0 c packets 4 records 6 absent 0 lost 5 last 3 9 from 1 to 25
whole
";
    says(&rt, rt.alloc(), &UNFIT, expected, 0);
}

/// After a fault nothing is compared, and it isn't known which serials were taken; after a packet up to whose end none were
/// discarded it is.
static AFTER_A_FAULT: [Thing; 2] = [
    Thing::Timed("0", "c_0", 0, &[(0, 0, 2, &[(0, 1)]), (0, 0, 3, &[(1, 3)])]),
    Thing::Timed(
        "1",
        "c_0",
        0,
        &[
            (1, 4, 12, &[(5, 11)]),
            (2, 5, 22, &[(7, 21)]),
            (3, 5, 32, &[(8, 31)]),
            (4, 7, 42, &[(9, 40), (11, 41)]),
        ],
    ),
];

#[test]
fn after_a_fault(rt: HostRuntime) {
    let expected = "session s uuid 00000000-0000-0000-0000-000000000001 archives 2
fault 0 19700101T000000+0000-19700101T000000+0000-0 154 A2 NumberRepeat
lost 0 1 between 1 12 and 1 22
lost 0 1 between 1 40 and 1 41
lost 0 1 between 1 41 and 1 42
stream 0 c packets 5 records 6 absent 0 lost 7 last 4 11 from 1 to 42
faulty 1
";
    says(&rt, rt.alloc(), &AFTER_A_FAULT, expected, 1);
}
