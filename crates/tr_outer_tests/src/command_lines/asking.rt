//! Lines that ask.

use super::{Asks, assert_each_asks};
use tr_command::Request;

const LAST: u64 = 9_000_000_000_000_000_000;

const MOST: u64 = 18_446_744_073_709_551_615;

/// A line, and the session, the stream and the serial that it asks about.
macro_rules! fate {
    ($line:expr, $session:expr, $stream:expr, $serial:expr $(,)?) => {
        (
            $line,
            Request::Fate {
                session: $session,
                stream: $stream,
                serial: $serial,
            },
        )
    };
}

static FATES: [Asks<'static>; 7] = [
    fate!("fate s 0 5", "s", 0, 5),
    fate!("fate s 18446744073709551615 5", "s", MOST, 5),
    fate!("fate s 1 18446744073709551615", "s", 1, MOST),
    fate!("fate s 007 003", "s", 7, 3),
    fate!("fate fate 2 1", "fate", 2, 1),
    fate!("fate -- -x 2 1", "-x", 2, 1),
    fate!("fate 1x 2 1", "1x", 2, 1),
];

/// A line, and the session whose status it asks for.
macro_rules! status {
    ($line:expr, $session:expr $(,)?) => {
        (
            $line,
            Request::Status {
                session: $session,
            },
        )
    };
}

static STATUSES: [Asks<'static>; 5] = [
    status!("status s", "s"),
    status!("status help", "help"),
    status!("status -- -x", "-x"),
    status!("status #", "#"),
    status!("status status", "status"),
];

/// A line, and the session whose archives it asks for.
macro_rules! archives {
    ($line:expr, $session:expr $(,)?) => {
        (
            $line,
            Request::Archives {
                session: $session,
            },
        )
    };
}

static ARCHIVES: [Asks<'static>; 3] = [
    archives!("archives s", "s"),
    archives!("archives status", "status"),
    archives!("archives -- -x", "-x"),
];

/// A line, and the session and the moment of a snapshot.
macro_rules! snapshot {
    ($line:expr, $session:expr, $moment:expr $(,)?) => {
        (
            $line,
            Request::Snapshot {
                session: $session,
                moment: $moment,
            },
        )
    };
}

static SNAPSHOTS: [Asks<'static>; 6] = [
    snapshot!("snapshot s 1", "s", 1),
    snapshot!("snapshot s 0", "s", 0),
    snapshot!("snapshot s 9000000000000000000", "s", LAST),
    snapshot!("snapshot s 0017", "s", 17),
    snapshot!("snapshot snapshot 5", "snapshot", 5),
    snapshot!("snapshot -- -s 5", "-s", 5),
];

#[test]
fn reads_fates_statuses_archives_and_snapshots(rt: HostRuntime) {
    assert_each_asks(&rt, rt.alloc(), &FATES);
    assert_each_asks(&rt, rt.alloc(), &STATUSES);
    assert_each_asks(&rt, rt.alloc(), &ARCHIVES);
    assert_each_asks(&rt, rt.alloc(), &SNAPSHOTS);
}
