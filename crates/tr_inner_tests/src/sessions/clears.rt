//! Clears of a session and of its streams: what they answer, what they leave, and what is refused.

use super::Step::{
    self, Begin, Channel, ChunkBegin, Clear, ClearAll, Fate, Finish, Kept, Last, Next, Offer,
    Offers, Rotate, Schedule, Size, Start, Stop, Take, Threads, Tick,
};
use super::assert_lists;
use tr_schedule::Cause::Timer;
use tr_session::Next::Cut;
use tr_session_book::SessionFault::{
    AlreadyRotated, NeverStarted, NoStream, RotationPending, SnapshotMode,
};
use tr_stream::Fate::{Cleared as WasCleared, InChunk, InRing, Overwritten};
use tr_stream::{Cleared, Offered, Taken};
use tr_terms::{Mode, SessionMode};

/// Two streams, each with two sub-buffers of 256 bytes: two records of 50 bytes fill one.
static TWO: [Step; 2] = [
    Channel("c", (256, 2, Mode::Discard), Ok(())),
    Threads("c", 0, 2),
];

const NOTHING: Cleared = Cleared {
    packets: 0,
    records: 0,
};

const FIRST: Offered = Offered::Stored { serial: 0, seq: 0 };

const SECOND: Offered = Offered::Stored { serial: 1, seq: 0 };

/// A session of one stream with records in its ring and in its current chunk.
static OVERWRITTEN: [Step; 15] = [
    Channel("c", (256, 2, Mode::Overwrite), Ok(())),
    Threads("c", 0, 1),
    Start(0, Ok(())),
    Offers(1, 7, 64),
    Take(
        0,
        Ok(Taken {
            seq: 1,
            count: 2,
            chunk: 0,
        }),
    ),
    Offers(7, 11, 64),
    ClearAll(Ok(6)),
    Kept(0, (6, 0)),
    Fate(0, 2, Ok(Some(WasCleared { seq: 1 }))),
    Fate(0, 4, Ok(Some(Overwritten))),
    Fate(0, 9, Ok(Some(WasCleared { seq: 4 }))),
    Offer((0, 11, 64), Ok(Offered::Stored { serial: 10, seq: 5 })),
    Rotate(20, Ok((0, 0, 20))),
    Size(0, (1, 1, 168)),
    Kept(0, (6, 1)),
];

#[test]
fn what_is_cleared_is_in_no_archive(rt: HostRuntime) {
    assert_lists(&rt, rt.alloc(), SessionMode::Local, &[], &[&OVERWRITTEN]);
}

/// What becomes of two streams.
static CLEARED: [&[Step]; 3] = [
    // one stream is cleared and then both, also while the session is stopped; a clear is no rotation and stores no moment
    &[
        Start(0, Ok(())),
        Offer((0, 1, 50), Ok(FIRST)),
        Offer((1, 2, 50), Ok(FIRST)),
        Offer((1, 3, 50), Ok(SECOND)),
        Clear(
            1,
            Ok(Cleared {
                packets: 1,
                records: 2,
            }),
        ),
        Kept(0, (0, 0)),
        Kept(1, (2, 0)),
        Fate(0, 0, Ok(Some(InRing { seq: 0 }))),
        Fate(1, 0, Ok(Some(WasCleared { seq: 0 }))),
        Stop(Ok(())),
        ClearAll(Ok(1)),
        Fate(0, 0, Ok(Some(WasCleared { seq: 0 }))),
        ClearAll(Ok(0)),
        Last(0),
        ChunkBegin(0),
        Rotate(10, Ok((0, 0, 10))),
        Size(0, (0, 0, 0)),
        ClearAll(Ok(0)),
        Rotate(11, Err(AlreadyRotated)),
    ],
    // an archived chunk stays
    &[
        Start(0, Ok(())),
        Offers(1, 3, 50),
        Rotate(10, Ok((0, 0, 10))),
        Offers(11, 13, 50),
        ClearAll(Ok(2)),
        Kept(0, (2, 2)),
        Size(0, (1, 2, 228)),
        Fate(0, 0, Ok(Some(InChunk { chunk: 0, seq: 0 }))),
        Fate(0, 2, Ok(Some(WasCleared { seq: 1 }))),
        Rotate(20, Ok((1, 10, 20))),
        Size(1, (0, 0, 0)),
        ClearAll(Ok(0)),
        Size(0, (1, 2, 228)),
    ],
    // a schedule's size counts from the clear on, and its timer goes on
    &[
        Schedule(Some((100, Some(200))), Ok(())),
        Start(0, Ok(())),
        Offers(1, 4, 50),
        Take(
            0,
            Ok(Taken {
                seq: 0,
                count: 2,
                chunk: 0,
            }),
        ),
        ClearAll(Ok(3)),
        Tick(50, None),
        Last(0),
        Tick(100, Some((Timer, (0, 0, 100)))),
    ],
];

#[test]
fn clears_leave_the_book_as_it_is(rt: HostRuntime) {
    assert_lists(&rt, rt.alloc(), SessionMode::Local, &TWO, &CLEARED);
}

/// The first reason against a clear counts: no such stream, then no start, then a pending rotation.
static REFUSED: [Step; 20] = [
    Clear(2, Err(NoStream)),
    Clear(1, Err(NeverStarted)),
    ClearAll(Err(NeverStarted)),
    Start(0, Ok(())),
    Clear(2, Err(NoStream)),
    Clear(1, Ok(NOTHING)),
    Offer((0, 1, 50), Ok(FIRST)),
    Offer((1, 1, 50), Ok(FIRST)),
    Begin(5, Ok(0)),
    Clear(2, Err(NoStream)),
    Clear(1, Err(RotationPending)),
    ClearAll(Err(RotationPending)),
    Next(Ok(Cut {
        stream: 0,
        records: 1,
    })),
    ClearAll(Err(RotationPending)),
    Next(Ok(Cut {
        stream: 1,
        records: 1,
    })),
    ClearAll(Err(RotationPending)),
    Kept(1, (0, 1)),
    Finish(Ok((0, 0, 5))),
    ClearAll(Ok(0)),
    Size(0, (2, 2, 308)),
];

/// In a snapshot session a stream that isn't there is the first reason, and then the mode.
static IN_A_SNAPSHOT: [Step; 10] = [
    Channel("c", (256, 2, Mode::Overwrite), Ok(())),
    Threads("c", 0, 1),
    Clear(1, Err(NoStream)),
    Clear(0, Err(SnapshotMode)),
    ClearAll(Err(SnapshotMode)),
    Start(0, Ok(())),
    Offers(1, 3, 50),
    Clear(0, Err(SnapshotMode)),
    ClearAll(Err(SnapshotMode)),
    Fate(0, 1, Ok(Some(InRing { seq: 0 }))),
];

#[test]
fn refusals_of_a_clear(rt: HostRuntime) {
    assert_lists(&rt, rt.alloc(), SessionMode::Local, &TWO, &[&REFUSED]);
    assert_lists(
        &rt,
        rt.alloc(),
        SessionMode::Snapshot,
        &[],
        &[&IN_A_SNAPSHOT],
    );
}
