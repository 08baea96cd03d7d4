//! Rotations of a session, whole and by single cuts, and what is refused meanwhile.

use super::Step::{
    self, Begin, Channel, ChunkBegin, Cut, Fate, Finish, Last, Next, Offer, Offers, Rotate, Size,
    Start, Stop, Take, Threads,
};
use super::{after, assert_archives, assert_lists, assert_same, assert_steps};
use std::process::Abort;
use tr_session::Next::{AllCut, Cut as NextCut};
use tr_session::{Session, StepFault};
use tr_session_book::SessionFault::{
    AlreadyRotated, CutMissing, NeverStarted, NoStream, NotActive, NotPending, RotationPending,
};
use tr_stream::Fate::{InChunk, Overwritten};
use tr_stream::{CutDone, OfferFault, Offered, Taken};
use tr_terms::{Mode, OffsetMinutes, SessionMode};
use uuid::Uuid;

/// A session of no stream.
static EMPTY: [Step; 6] = [
    Start(0, Ok(())),
    Begin(5, Ok(0)),
    Next(Ok(AllCut)),
    Finish(Ok((0, 0, 5))),
    Rotate(7, Ok((1, 5, 7))),
    Size(0, (0, 0, 0)),
];

/// A channel with two sub-buffers of 256 bytes.
const DISCARD: Step = Channel("c", (256, 2, Mode::Discard), Ok(()));

/// Chunks that follow each other: a rotation's moment is never before the session's last one.
static CHUNKS: [Step; 9] = [
    DISCARD,
    Threads("c", 0, 1),
    Start(0, Ok(())),
    Rotate(9, Ok((0, 0, 9))),
    Rotate(4, Ok((1, 9, 9))),
    ChunkBegin(9),
    Last(9),
    Offer((0, 10, 64), Ok(Offered::Stored { serial: 0, seq: 0 })),
    Rotate(12, Ok((2, 9, 12))),
];

/// Asserts the moments of the only packet of the third chunk.
fn assert_third_chunk(rt: &impl Abort, session: &Session) {
    let stream = session.stream(0).expect(rt, "a stream");
    let mut packets = stream.part(2).expect(rt, "a part").packets();
    assert_same(rt, packets.len(), 1);
    let head = packets.next().expect(rt, "a packet").head();
    assert_same(rt, (head.begin.get(), head.end.get()), (10, 12));
}

#[test]
fn chunks_follow_each_other(rt: HostRuntime) {
    let empty = after(&rt, rt.alloc(), SessionMode::Local, &EMPTY);
    assert_archives(&rt, empty.book().archives(), &[(0, 0, 5), (1, 5, 7)]);
    let session = after(&rt, rt.alloc(), SessionMode::Local, &CHUNKS);
    assert_third_chunk(&rt, &session);
    drop(session);
}

/// Refusals before a rotation, while it is pending, and after it.
static REFUSALS: [Step; 16] = [
    DISCARD,
    Threads("c", 0, 1),
    Start(0, Ok(())),
    Next(Err(StepFault::Session(NotPending))),
    Cut(0, Err(StepFault::Session(NotPending))),
    Finish(Err(NotPending)),
    Begin(10, Ok(0)),
    Begin(11, Err(RotationPending)),
    Rotate(11, Err(RotationPending)),
    Start(11, Err(RotationPending)),
    Stop(Err(RotationPending)),
    Finish(Err(CutMissing)),
    Next(Ok(NextCut {
        stream: 0,
        records: 0,
    })),
    Next(Ok(AllCut)),
    Finish(Ok((0, 0, 10))),
    Finish(Err(NotPending)),
];

const NOTHING: CutDone = CutDone {
    chunk: 0,
    packets: 0,
    records: 0,
};

/// Streams are cut in order, each once.
static CUTS: [Step; 10] = [
    DISCARD,
    Threads("c", 0, 2),
    Start(0, Ok(())),
    Begin(10, Ok(0)),
    Cut(2, Err(StepFault::Session(NoStream))),
    Cut(1, Err(StepFault::Session(CutMissing))),
    Cut(0, Ok(NOTHING)),
    Cut(0, Err(StepFault::Session(NotPending))),
    Cut(1, Ok(NOTHING)),
    Cut(2, Err(StepFault::Session(NoStream))),
];

/// A stopped session rotates once.
static STOPPED: [Step; 12] = [
    DISCARD,
    Threads("c", 0, 1),
    Start(0, Ok(())),
    Stop(Ok(())),
    Stop(Err(NotActive)),
    Offer((0, 1, 64), Err(StepFault::Offer(OfferFault::Inactive))),
    Rotate(1, Ok((0, 0, 1))),
    Rotate(2, Err(AlreadyRotated)),
    Start(3, Ok(())),
    Rotate(4, Ok((1, 1, 4))),
    Stop(Ok(())),
    Rotate(5, Ok((2, 4, 5))),
];

#[test]
fn refusals_of_a_rotation(rt: HostRuntime) {
    assert_lists(
        &rt,
        rt.alloc(),
        SessionMode::Local,
        &[],
        &[&REFUSALS, &CUTS, &STOPPED],
    );
}

/// A new session has no chunk, and its first begins with its first start.
static NEW: [Step; 2] = [Rotate(1, Err(NeverStarted)), Stop(Err(NotActive))];

static BEGINS: [Step; 5] = [
    Start(20, Ok(())),
    Stop(Ok(())),
    Start(30, Ok(())),
    ChunkBegin(20),
    Rotate(40, Ok((0, 20, 40))),
];

#[test]
fn a_new_session_has_no_chunk(rt: HostRuntime) {
    let offset = OffsetMinutes::new(-30).expect(&rt, "an offset");
    let mut session = Session::new(rt.alloc(), Uuid::nil(), offset, SessionMode::Local);
    assert_steps(&rt, &mut session, 0, &NEW);
    assert_same(&rt, session.book().offset().get(), -30);
    assert_same(&rt, session.book().pending(), None);
    assert_steps(&rt, &mut session, 1, &BEGINS);
    drop(session);
}

/// Of six records of 88 bytes the first two were overwritten; two of the next four overwrite two others.
static OVERWRITTEN: [Step; 11] = [
    Channel("c", (256, 2, Mode::Overwrite), Ok(())),
    Threads("c", 0, 1),
    Start(0, Ok(())),
    Offers(1, 7, 64),
    Take(
        0,
        Ok(Taken {
            seq: 1,
            count: 2,
            chunk: 0,
        }),
    ),
    Offers(7, 11, 64),
    Rotate(20, Ok((0, 0, 20))),
    Size(0, (3, 6, 768)),
    Size(1, (0, 0, 0)),
    Fate(0, 4, Ok(Some(Overwritten))),
    Fate(0, 9, Ok(Some(InChunk { chunk: 0, seq: 4 }))),
];

#[test]
fn an_overwritten_packet_is_in_no_archive(rt: HostRuntime) {
    assert_lists(&rt, rt.alloc(), SessionMode::Local, &[], &[&OVERWRITTEN]);
}
