//! Lines of rotations by a schedule.

use super::{Asks, assert_each_asks};
use tr_command::Request;

const LAST: u64 = 9_000_000_000_000_000_000;

const MOST: u64 = 18_446_744_073_709_551_615;

/// A line, and the period and the size of a schedule of `s`.
macro_rules! schedule {
    ($line:expr, $every:expr, $size:expr $(,)?) => {
        (
            $line,
            Request::Schedule {
                session: "s",
                every: $every,
                size: $size,
            },
        )
    };
}

static SCHEDULES: [Asks<'static>; 13] = [
    schedule!("schedule s", None, None),
    schedule!("schedule s --every 5", Some(5), None),
    schedule!("schedule s --size 7", None, Some(7)),
    schedule!("schedule s --every 5 --size 7", Some(5), Some(7)),
    schedule!("schedule s --size 7 --every 5", Some(5), Some(7)),
    schedule!("schedule --every=5 s --size=7", Some(5), Some(7)),
    schedule!("schedule --size 7 -- s", None, Some(7)),
    // numbers
    schedule!("schedule s --every 0", Some(0), None),
    schedule!("schedule s --size 0", None, Some(0)),
    schedule!("schedule s --every 0060", Some(60), None),
    schedule!("schedule s --size 007", None, Some(7)),
    schedule!("schedule s --every 18446744073709551615", Some(MOST), None),
    schedule!("schedule s --size 18446744073709551615", None, Some(MOST)),
];

/// A line, and the session and the moment of a tick.
macro_rules! tick {
    ($line:expr, $session:expr, $moment:expr $(,)?) => {
        (
            $line,
            Request::Tick {
                session: $session,
                moment: $moment,
            },
        )
    };
}

static TICKS: [Asks<'static>; 6] = [
    tick!("tick s 1", "s", 1),
    tick!("tick s 0", "s", 0),
    tick!("tick s 9000000000000000000", "s", LAST),
    tick!("tick s 0017", "s", 17),
    tick!("tick tick 5", "tick", 5),
    tick!("tick -- -s 5", "-s", 5),
];

#[test]
fn reads_schedules_and_ticks(rt: HostRuntime) {
    assert_each_asks(&rt, rt.alloc(), &SCHEDULES);
    assert_each_asks(&rt, rt.alloc(), &TICKS);
}
