//! Releases of archives and of streams' parts of them: what they answer, what they leave, and what is refused.

use super::Step::{
    self, Begin, Channel, ChunkBegin, ClearAll, Fate, Finish, Kept, Last, Left, Next, Offer,
    Offers, Release, ReleaseAll, Rotate, Size, Start, Stop, Threads,
};
use super::assert_lists;
use tr_session::Next::{AllCut, Cut};
use tr_session_book::SessionFault::{
    self, NoArchive, NoStream, Released as AlreadyReleased, RotationPending,
};
use tr_stream::Fate::{Cleared as WasCleared, Discarded, InChunk, InRing};
use tr_stream::{Offered, Released};
use tr_terms::{Mode, SessionMode};

/// Two streams, each with two sub-buffers of 256 bytes: two records of 50 bytes fill one.
static TWO: [Step; 2] = [
    Channel("c", (256, 2, Mode::Discard), Ok(())),
    Threads("c", 0, 2),
];

const NO_ARCHIVE: Result<Released, SessionFault> = Err(NoArchive);

const NO_STREAM: Result<Released, SessionFault> = Err(NoStream);

const AGAIN: Result<Released, SessionFault> = Err(AlreadyReleased);

const NOTHING: Released = Released {
    packets: 0,
    records: 0,
    bytes: 0,
};

/// A packet of one record of 50 bytes.
const ONE: Released = Released {
    packets: 1,
    records: 1,
    bytes: 154,
};

/// A packet of two such records.
const TWO_RECORDS: Released = Released {
    packets: 1,
    records: 2,
    bytes: 228,
};

static RELEASED: [&[Step]; 3] = [
    // what became of records is answered as before, and so is how much an archive held; a released part isn't released again
    &[
        Start(0, Ok(())),
        Offers(1, 6, 50),
        Offer((0, 6, 4), Ok(Offered::Stored { serial: 5, seq: 1 })),
        Offer((1, 6, 50), Ok(Offered::Stored { serial: 0, seq: 0 })),
        Rotate(10, Ok((0, 0, 10))),
        // 228 bytes, 256 and 154
        Size(0, (3, 6, 638)),
        ReleaseAll(0, Ok(())),
        Left(0, (3, 6, 638), 2),
        Kept(0, (0, 5)),
        Fate(0, 0, Ok(Some(InChunk { chunk: 0, seq: 0 }))),
        Fate(0, 4, Ok(Some(Discarded))),
        Fate(0, 5, Ok(Some(InChunk { chunk: 0, seq: 1 }))),
        Fate(1, 0, Ok(Some(InChunk { chunk: 0, seq: 0 }))),
        ReleaseAll(0, Err(AlreadyReleased)),
        Release(0, 0, AGAIN),
        Release(1, 0, AGAIN),
        Last(10),
        ChunkBegin(10),
        Offers(11, 13, 50),
        Rotate(20, Ok((1, 10, 20))),
        // one stream's part, and then what is left: the other stream's, which has no packets
        Size(1, (1, 2, 228)),
        Release(0, 1, Ok(TWO_RECORDS)),
        Left(1, (1, 2, 228), 1),
        ReleaseAll(1, Ok(())),
        Left(1, (1, 2, 228), 2),
        ReleaseAll(1, Err(AlreadyReleased)),
        Fate(0, 6, Ok(Some(InChunk { chunk: 1, seq: 2 }))),
    ],
    // while a rotation is pending, the archives before it are released, also of a stream that is cut; what is pending is no
    // archive yet
    &[
        Start(0, Ok(())),
        Offers(1, 3, 50),
        Rotate(10, Ok((0, 0, 10))),
        Offers(11, 12, 50),
        Begin(20, Ok(1)),
        Release(0, 1, NO_ARCHIVE),
        Next(Ok(Cut {
            stream: 0,
            records: 1,
        })),
        Release(0, 1, NO_ARCHIVE),
        ReleaseAll(1, Err(NoArchive)),
        Release(0, 0, Ok(TWO_RECORDS)),
        Release(0, 0, AGAIN),
        ReleaseAll(0, Ok(())),
        ReleaseAll(0, Err(AlreadyReleased)),
        Rotate(21, Err(RotationPending)),
        Next(Ok(Cut {
            stream: 1,
            records: 0,
        })),
        Next(Ok(AllCut)),
        Release(1, 1, NO_ARCHIVE),
        Finish(Ok((1, 10, 20))),
        Left(0, (1, 2, 228), 2),
        Size(1, (1, 1, 154)),
        Release(1, 1, Ok(NOTHING)),
        Release(0, 1, Ok(ONE)),
        ReleaseAll(1, Err(AlreadyReleased)),
    ],
    // a stopped session releases, and clears afterwards take nothing of what was released
    &[
        Start(0, Ok(())),
        Offers(1, 3, 50),
        Rotate(10, Ok((0, 0, 10))),
        Offers(11, 12, 50),
        Stop(Ok(())),
        ReleaseAll(0, Ok(())),
        Fate(0, 2, Ok(Some(InRing { seq: 1 }))),
        ClearAll(Ok(1)),
        Fate(0, 1, Ok(Some(InChunk { chunk: 0, seq: 0 }))),
        Fate(0, 2, Ok(Some(WasCleared { seq: 1 }))),
        Kept(0, (1, 2)),
        Left(0, (1, 2, 228), 2),
    ],
];

#[test]
fn releases_leave_the_book_as_it_is(rt: HostRuntime) {
    assert_lists(&rt, rt.alloc(), SessionMode::Local, &TWO, &RELEASED);
}

/// The first reason against a release counts: no such stream, then no such archive, then that it is released.
static REFUSED: [&[Step]; 2] = [
    // before the start, and after it
    &[
        Channel("c", (256, 2, Mode::Discard), Ok(())),
        Threads("c", 0, 1),
        Release(1, 0, NO_STREAM),
        Release(0, 0, NO_ARCHIVE),
        ReleaseAll(0, Err(NoArchive)),
        Start(0, Ok(())),
        Release(0, 0, NO_ARCHIVE),
        ReleaseAll(u64::MAX, Err(NoArchive)),
        Rotate(10, Ok((0, 0, 10))),
        ReleaseAll(0, Ok(())),
        Release(1, 0, NO_STREAM),
        Release(1, 1, NO_STREAM),
        Release(0, 1, NO_ARCHIVE),
        Release(0, 0, AGAIN),
    ],
    // a session without streams has no part that is left
    &[
        Start(0, Ok(())),
        Rotate(10, Ok((0, 0, 10))),
        Release(0, 0, NO_STREAM),
        ReleaseAll(0, Err(AlreadyReleased)),
        ReleaseAll(1, Err(NoArchive)),
        Size(0, (0, 0, 0)),
    ],
];

/// A snapshot session has no archives.
static IN_A_SNAPSHOT: [&[Step]; 1] = [&[
    Channel("c", (256, 2, Mode::Overwrite), Ok(())),
    Threads("c", 0, 1),
    Start(0, Ok(())),
    Offers(1, 3, 50),
    Release(1, 0, NO_STREAM),
    Release(0, 0, NO_ARCHIVE),
    ReleaseAll(0, Err(NoArchive)),
    Fate(0, 1, Ok(Some(InRing { seq: 0 }))),
]];

#[test]
fn refusals_of_a_release(rt: HostRuntime) {
    assert_lists(&rt, rt.alloc(), SessionMode::Local, &[], &REFUSED);
    assert_lists(&rt, rt.alloc(), SessionMode::Snapshot, &[], &IN_A_SNAPSHOT);
}
