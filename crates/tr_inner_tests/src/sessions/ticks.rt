//! Ticks of a session's schedule.

use super::Step::{
    self, Archives, Begin, Channel, Finish, Last, Next, Offers, Schedule, Start, Stop, Take,
    Threads, Tick,
};
use super::assert_lists;
use tr_schedule::Cause::{Size, Timer};
use tr_session::Next::Cut;
use tr_stream::Taken;
use tr_terms::{Mode, SessionMode};

/// A session of one stream with two sub-buffers of 256 bytes, with a rotation every 100 nanoseconds and at 200 bytes.
static SCHEDULED: [Step; 4] = [
    Channel("c", (256, 2, Mode::Discard), Ok(())),
    Threads("c", 0, 1),
    Schedule(Some((100, Some(200))), Ok(())),
    Start(0, Ok(())),
];

/// The first packet, of 228 bytes: two of its records of 50 bytes fill a sub-buffer.
const TAKEN: Taken = Taken {
    seq: 0,
    count: 2,
    chunk: 1,
};

/// What follows the start of that session.
static DUE: [&[Step]; 3] = [
    // a period, and then a size
    &[
        Tick(99, None),
        Last(0),
        Tick(100, Some((Timer, (0, 0, 100)))),
        Offers(101, 104, 50),
        Tick(140, None),
        Take(0, Ok(TAKEN)),
        Tick(150, Some((Size, (1, 100, 150)))),
    ],
    // a tick before the last moment: the timer isn't over before its beginning, but the size is reached
    &[
        Tick(100, Some((Timer, (0, 0, 100)))),
        Offers(101, 104, 50),
        Take(0, Ok(TAKEN)),
        Tick(50, Some((Size, (1, 100, 100)))),
        Last(100),
    ],
    // a period that is over comes before a size that is reached
    &[
        Tick(100, Some((Timer, (0, 0, 100)))),
        Offers(101, 104, 50),
        Take(0, Ok(TAKEN)),
        Tick(200, Some((Timer, (1, 100, 200)))),
    ],
];

#[test]
fn ticks_rotate_when_it_is_due(rt: HostRuntime) {
    assert_lists(&rt, rt.alloc(), SessionMode::Local, &SCHEDULED, &DUE);
}

/// Ticks of a session before its start, and of one without a schedule.
static UNSCHEDULED: [Step; 8] = [
    Channel("c", (256, 2, Mode::Discard), Ok(())),
    Threads("c", 0, 1),
    Schedule(Some((100, None)), Ok(())),
    Tick(500, None),
    Start(0, Ok(())),
    Schedule(None, Ok(())),
    Tick(500, None),
    Last(0),
];

/// Ticks of a scheduled session while a rotation is pending, and while the session is stopped.
static HELD: [Step; 14] = [
    Tick(100, Some((Timer, (0, 0, 100)))),
    Offers(101, 104, 50),
    Take(0, Ok(TAKEN)),
    Begin(110, Ok(1)),
    Tick(500, None),
    Last(110),
    Next(Ok(Cut {
        stream: 0,
        records: 1,
    })),
    Finish(Ok((1, 100, 110))),
    Stop(Ok(())),
    Tick(500, None),
    Last(110),
    Archives(2),
    Start(120, Ok(())),
    Tick(500, Some((Timer, (2, 110, 500)))),
];

#[test]
fn ticks_that_are_idle(rt: HostRuntime) {
    assert_lists(&rt, rt.alloc(), SessionMode::Local, &[], &[&UNSCHEDULED]);
    assert_lists(&rt, rt.alloc(), SessionMode::Local, &SCHEDULED, &[&HELD]);
}
