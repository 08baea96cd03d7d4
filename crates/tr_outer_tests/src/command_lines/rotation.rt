//! Lines that rotate a session, at once, step by step or by a schedule.

use super::{Asks, assert_each_asks};
use tr_command::Request;

const LAST: u64 = 9_000_000_000_000_000_000;

/// A line, and the session and the moment of a rotation.
macro_rules! rotate {
    ($line:expr, $session:expr, $moment:expr $(,)?) => {
        (
            $line,
            Request::Rotate {
                session: $session,
                moment: $moment,
            },
        )
    };
}

static ROTATIONS: [Asks<'static>; 4] = [
    rotate!("rotate s 1", "s", 1),
    rotate!("rotate s 9000000000000000000", "s", LAST),
    rotate!("rotate rotate-begin 7", "rotate-begin", 7),
    rotate!("rotate -- -s 007", "-s", 7),
];

/// A line, and the session and the moment at which a rotation begins.
macro_rules! begin {
    ($line:expr, $session:expr, $moment:expr $(,)?) => {
        (
            $line,
            Request::RotateBegin {
                session: $session,
                moment: $moment,
            },
        )
    };
}

static BEGINS: [Asks<'static>; 5] = [
    begin!("rotate-begin s 9000000000000000000", "s", LAST),
    begin!("rotate-begin s 0", "s", 0),
    begin!("rotate-begin s 0017", "s", 17),
    begin!("rotate-begin -- -s 5", "-s", 5),
    begin!("rotate-begin rotate 5", "rotate", 5),
];

/// A line, and the session whose rotation goes on.
macro_rules! next {
    ($line:expr, $session:expr $(,)?) => {
        (
            $line,
            Request::RotateNext {
                session: $session,
            },
        )
    };
}

static NEXTS: [Asks<'static>; 2] = [
    next!("rotate-next s", "s"),
    next!("rotate-next help", "help"),
];

/// A line, and the session whose rotation ends.
macro_rules! finish {
    ($line:expr, $session:expr $(,)?) => {
        (
            $line,
            Request::RotateFinish {
                session: $session,
            },
        )
    };
}

static FINISHES: [Asks<'static>; 2] = [
    finish!("rotate-finish s", "s"),
    finish!("rotate-finish -- -x", "-x"),
];

#[test]
fn reads_rotations_and_their_steps(rt: HostRuntime) {
    assert_each_asks(&rt, rt.alloc(), &ROTATIONS);
    assert_each_asks(&rt, rt.alloc(), &BEGINS);
    assert_each_asks(&rt, rt.alloc(), &NEXTS);
    assert_each_asks(&rt, rt.alloc(), &FINISHES);
}
