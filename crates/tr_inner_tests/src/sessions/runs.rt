//! Runs of a session over a configuration and a list of events.

use super::{Place, Row, Step, assert_archives, assert_at, assert_same, assert_steps, row};
use Call::{
    Clear, Cut, Offer, Release, RotateBegin, RotateFinish, SessionStart, SessionStop, Snap, Start,
    Stop, Take,
};
use std::alloc::Global;
use std::process::Abort;
use tr_events::Events;
use tr_session::{Answer, ChannelConfig, Config, Event, Session, StepFault, run_session};
use tr_session_book::SessionFault;
use tr_snapshot::{count, oldest_serial};
use tr_stream::{Cleared, CutDone, Fate, Offered, Payload, Released, Taken};
use tr_terms::{Mode, Name, OffsetMinutes, SessionMode};
use tr_testing::moment;
use uuid::Uuid;

/// One channel, with this mode, size of a sub-buffer and number of threads.
fn config<'a>(
    rt: &impl Abort,
    alloc: Global,
    (session, rings): (SessionMode, Mode),
    size: u64,
    threads: u64,
) -> Config<'a> {
    let offset = OffsetMinutes::new(0).expect(rt, "an offset");
    let name = Name::new("c").expect(rt, "a name");
    let channel = ChannelConfig {
        name,
        size,
        count: 2,
        mode: rings,
        threads,
    };
    let mut channels = Vec::new(alloc);
    channels.push(channel).expect(rt, "memory");
    Config {
        uuid: Uuid::nil(),
        offset,
        mode: session,
        events: Events::none(alloc),
        channels,
    }
}

/// A local session's mode, and its ring's.
const LOCAL: (SessionMode, Mode) = (SessionMode::Local, Mode::Discard);

/// The same of a snapshot session.
const SNAPSHOT: (SessionMode, Mode) = (SessionMode::Snapshot, Mode::Overwrite);

/// An event, and what it answers.
#[derive(Clone, Copy)]
enum Call {
    SessionStart(u64, Result<(), SessionFault>),
    SessionStop(Result<(), SessionFault>),
    Start(u64, Result<(), SessionFault>),
    Stop(u64, Result<(), SessionFault>),
    /// An offer to a stream at this moment of 50 bytes: two of them fit a sub-buffer of 256 bytes, and no third.
    Offer(u64, u64, Result<Offered, StepFault>),
    Take(u64, Result<Taken, StepFault>),
    Cut(u64, Result<CutDone, StepFault>),
    Clear(u64, Result<Cleared, SessionFault>),
    /// A release of a stream's part of an archive.
    Release(u64, u64, Result<Released, SessionFault>),
    RotateBegin(u64, Result<u64, SessionFault>),
    RotateFinish(Result<Row, SessionFault>),
    /// A look at a stream at this moment. It shows the offers, the discarded records, the oldest serial, and how many
    /// records.
    Snap(u64, u64, Result<(u64, u64, Option<u64>, u64), SessionFault>),
}

/// The event of a call.
fn event(rt: &impl Abort, alloc: Global, call: &Call) -> Event {
    match *call {
        SessionStart(at, _) => Event::SessionStart(moment(at)),
        SessionStop(_) => Event::SessionStop,
        Start(i, _) => Event::Start(i),
        Stop(i, _) => Event::Stop(i),
        Offer(i, at, _) => {
            let payload = Payload::copy_of(alloc, &[b'a'; 50]).expect(rt, "memory");
            Event::Offer(i, moment(at), 1, payload)
        }
        Take(i, _) => Event::Take(i),
        Cut(i, _) => Event::Cut(i),
        Clear(i, _) => Event::Clear(i),
        Release(i, k, _) => Event::Release(i, k),
        RotateBegin(at, _) => Event::RotateBegin(moment(at)),
        RotateFinish(_) => Event::RotateFinish,
        Snap(i, at, _) => Event::Snap(i, moment(at)),
    }
}

/// Asserts the answer to the call at this place.
fn assert_answer(rt: &impl Abort, place: Place, answer: &Answer, call: &Call) {
    match (answer, *call) {
        (Answer::Offer(found), Offer(_, _, want)) => assert_at(rt, place, *found, want),
        (Answer::Take(found), Take(_, want)) => assert_at(rt, place, *found, want),
        (Answer::Cut(found), Cut(_, want)) => assert_at(rt, place, *found, want),
        (Answer::Clear(found), Clear(_, want)) => assert_at(rt, place, *found, want),
        (Answer::Release(found), Release(_, _, want)) => assert_at(rt, place, *found, want),
        (Answer::Start(found), Start(_, want)) => assert_at(rt, place, *found, want),
        (Answer::Stop(found), Stop(_, want)) => assert_at(rt, place, *found, want),
        (Answer::SessionStart(found), SessionStart(_, want)) => assert_at(rt, place, *found, want),
        (Answer::SessionStop(found), SessionStop(want)) => assert_at(rt, place, *found, want),
        (Answer::RotateBegin(found), RotateBegin(_, want)) => assert_at(rt, place, *found, want),
        (Answer::RotateFinish(found), RotateFinish(want)) => assert_at(
            rt,
            place,
            row(*found),
            want,
        ),
        (Answer::Snap(Ok(snap)), Snap(i, _, want)) => {
            assert_at(rt, place, snap.stream(), i);
            let found = (
                snap.offered(),
                snap.lost(),
                oldest_serial(snap),
                count(snap),
            );
            assert_at(rt, place, Ok(found), want);
        }
        (Answer::Snap(Err(found)), Snap(_, _, want)) => assert_at(rt, place, Err(*found), want),
        _ => panic!(rt; "an answer of another kind, {place:?}"),
    }
}

/// Runs a session of `threads` streams over these calls, and asserts what each answers.
fn run(
    rt: &impl Abort,
    alloc: Global,
    modes: (SessionMode, Mode),
    threads: u64,
    calls: &[Call],
) -> Session {
    let mut events = Vec::new(alloc);
    for call in calls {
        events.push(event(rt, alloc, call)).expect(rt, "memory");
    }
    let config = config(rt, alloc, modes, 256, threads);
    let (session, answers) = run_session(alloc, &config, &events).expect(rt, "a run");
    assert_same(rt, answers.len(), calls.len());
    for (place, call) in calls.iter().enumerate() {
        let answer = answers.get(place).expect(rt, "an answer");
        assert_answer(rt, (calls.len(), place), answer, call);
    }
    session
}

/// A cut of one record, in one packet.
const ONE_CUT: CutDone = CutDone {
    chunk: 0,
    packets: 1,
    records: 1,
};

/// A packet of two records that goes to this chunk.
const TAKEN_BEHIND: Taken = Taken {
    seq: 1,
    count: 2,
    chunk: 1,
};

const TAKEN_BEFORE: Taken = Taken {
    seq: 0,
    count: 2,
    chunk: 0,
};

/// A rotation of two streams. The first is cut, and takes from both go on: what each takes goes to its own chunk.
static ROTATION: [Call; 17] = [
    SessionStart(0, Ok(())),
    Start(0, Ok(())),
    Start(1, Ok(())),
    Offer(0, 1, Ok(Offered::Stored { serial: 0, seq: 0 })),
    Offer(1, 1, Ok(Offered::Stored { serial: 0, seq: 0 })),
    RotateBegin(10, Ok(0)),
    Cut(0, Ok(ONE_CUT)),
    Offer(0, 11, Ok(Offered::Stored { serial: 1, seq: 1 })),
    Offer(0, 12, Ok(Offered::Stored { serial: 2, seq: 1 })),
    Offer(0, 13, Ok(Offered::Stored { serial: 3, seq: 2 })),
    Take(0, Ok(TAKEN_BEHIND)),
    Offer(1, 11, Ok(Offered::Stored { serial: 1, seq: 0 })),
    Offer(1, 12, Ok(Offered::Stored { serial: 2, seq: 1 })),
    Take(1, Ok(TAKEN_BEFORE)),
    RotateFinish(Err(SessionFault::CutMissing)),
    Cut(1, Ok(ONE_CUT)),
    RotateFinish(Ok((0, 0, 10))),
];

/// Where records are before the second cut.
static BEFORE: [Step; 3] = [
    Step::Fate(0, 1, Ok(Some(Fate::InChunk { chunk: 1, seq: 1 }))),
    Step::Fate(0, 3, Ok(Some(Fate::InRing { seq: 2 }))),
    Step::Fate(1, 2, Ok(Some(Fate::InRing { seq: 1 }))),
];

/// Where they are after it: it moved the record that was offered after the rotation's begin.
static BEHIND: [Step; 3] = [
    Step::Fate(0, 1, Ok(Some(Fate::InChunk { chunk: 1, seq: 1 }))),
    Step::Fate(0, 3, Ok(Some(Fate::InRing { seq: 2 }))),
    Step::Fate(1, 2, Ok(Some(Fate::InChunk { chunk: 0, seq: 1 }))),
];

/// Runs the first `len` calls of that rotation, and asserts the fates.
fn assert_fates(rt: &impl Abort, alloc: Global, len: usize, calls: &[Call], fates: &[Step]) {
    let calls = calls.get(..len).expect(rt, "more calls");
    let mut session = run(rt, alloc, LOCAL, 2, calls);
    assert_steps(rt, &mut session, len, fates);
    drop(session);
}

#[test]
fn takes_during_a_rotation(rt: HostRuntime) {
    assert_fates(&rt, rt.alloc(), 15, &ROTATION, &BEFORE);
    assert_fates(&rt, rt.alloc(), 17, &ROTATION, &BEHIND);
}

/// A rotation that ends, and what follows it.
static ENDED: [Call; 13] = [
    SessionStart(0, Ok(())),
    Start(0, Ok(())),
    Start(1, Ok(())),
    Offer(0, 1, Ok(Offered::Stored { serial: 0, seq: 0 })),
    Offer(1, 1, Ok(Offered::Stored { serial: 0, seq: 0 })),
    RotateBegin(10, Ok(0)),
    Cut(0, Ok(ONE_CUT)),
    Cut(1, Ok(ONE_CUT)),
    Cut(2, Err(StepFault::Session(SessionFault::NoStream))),
    RotateFinish(Ok((0, 0, 10))),
    SessionStop(Ok(())),
    Start(0, Err(SessionFault::NotActive)),
    Stop(1, Ok(())),
];

/// Runs the first `len` of these calls, and asserts that one stream is cut.
fn assert_pending(rt: &impl Abort, alloc: Global, len: usize, calls: &[Call]) {
    let calls = calls.get(..len).expect(rt, "more calls");
    let session = run(rt, alloc, LOCAL, 2, calls);
    let pending = session.book().pending().expect(rt, "a rotation");
    assert_same(rt, pending.cut, 1);
    drop(session);
}

#[test]
fn a_rotation_begins_and_ends(rt: HostRuntime) {
    assert_pending(&rt, rt.alloc(), 7, &ENDED);
    let session = run(&rt, rt.alloc(), LOCAL, 2, &ENDED);
    assert_archives(&rt, session.book().archives(), &[(0, 0, 10)]);
    drop(session);
}

/// Clears of streams between other events, and those that are refused.
static CLEARED: [Call; 15] = [
    Clear(0, Err(SessionFault::NeverStarted)),
    SessionStart(0, Ok(())),
    Start(0, Ok(())),
    Start(1, Ok(())),
    Offer(0, 1, Ok(Offered::Stored { serial: 0, seq: 0 })),
    Offer(1, 1, Ok(Offered::Stored { serial: 0, seq: 0 })),
    Clear(2, Err(SessionFault::NoStream)),
    Clear(
        1,
        Ok(Cleared {
            packets: 1,
            records: 1,
        }),
    ),
    RotateBegin(10, Ok(0)),
    Clear(0, Err(SessionFault::RotationPending)),
    Cut(0, Ok(ONE_CUT)),
    Clear(0, Err(SessionFault::RotationPending)),
    Cut(
        1,
        Ok(CutDone {
            chunk: 0,
            packets: 0,
            records: 0,
        }),
    ),
    RotateFinish(Ok((0, 0, 10))),
    Clear(
        0,
        Ok(Cleared {
            packets: 0,
            records: 0,
        }),
    ),
];

/// Where their records are at the end.
static CLEARED_FATES: [Step; 2] = [
    Step::Fate(0, 0, Ok(Some(Fate::InChunk { chunk: 0, seq: 0 }))),
    Step::Fate(1, 0, Ok(Some(Fate::Cleared { seq: 0 }))),
];

#[test]
fn clears_of_streams(rt: HostRuntime) {
    assert_fates(&rt, rt.alloc(), 15, &CLEARED, &CLEARED_FATES);
}

/// What a release of a packet of one record gives up.
const ONE_RELEASED: Released = Released {
    packets: 1,
    records: 1,
    bytes: 154,
};

/// Releases of parts between other events, and those that are refused.
static RELEASED: [Call; 17] = [
    Release(0, 0, Err(SessionFault::NoArchive)),
    SessionStart(0, Ok(())),
    Start(0, Ok(())),
    Start(1, Ok(())),
    Offer(0, 1, Ok(Offered::Stored { serial: 0, seq: 0 })),
    Offer(1, 1, Ok(Offered::Stored { serial: 0, seq: 0 })),
    RotateBegin(10, Ok(0)),
    Cut(0, Ok(ONE_CUT)),
    Release(0, 0, Err(SessionFault::NoArchive)),
    Cut(1, Ok(ONE_CUT)),
    RotateFinish(Ok((0, 0, 10))),
    Release(2, 0, Err(SessionFault::NoStream)),
    Release(1, 1, Err(SessionFault::NoArchive)),
    Release(1, 0, Ok(ONE_RELEASED)),
    Release(1, 0, Err(SessionFault::Released)),
    Offer(1, 11, Ok(Offered::Stored { serial: 1, seq: 1 })),
    Release(0, 0, Ok(ONE_RELEASED)),
];

/// Where their records are at the end.
static RELEASED_FATES: [Step; 3] = [
    Step::Fate(0, 0, Ok(Some(Fate::InChunk { chunk: 0, seq: 0 }))),
    Step::Fate(1, 0, Ok(Some(Fate::InChunk { chunk: 0, seq: 0 }))),
    Step::Left(0, (2, 2, 308), 2),
];

#[test]
fn releases_of_parts(rt: HostRuntime) {
    assert_fates(&rt, rt.alloc(), 17, &RELEASED, &RELEASED_FATES);
}

/// Two looks, after six offers and after a seventh.
static LOOKS: [Call; 11] = [
    SessionStart(0, Ok(())),
    Start(0, Ok(())),
    Offer(0, 1, Ok(Offered::Stored { serial: 0, seq: 0 })),
    Offer(0, 2, Ok(Offered::Stored { serial: 1, seq: 0 })),
    Offer(0, 3, Ok(Offered::Stored { serial: 2, seq: 1 })),
    Offer(0, 4, Ok(Offered::Stored { serial: 3, seq: 1 })),
    Offer(
        0,
        5,
        Ok(Offered::StoredOver {
            serial: 4,
            seq: 2,
            gone_seq: 0,
            gone_count: 2,
        }),
    ),
    Offer(0, 6, Ok(Offered::Stored { serial: 5, seq: 2 })),
    Snap(0, 10, Ok((6, 0, Some(2), 4))),
    Offer(
        0,
        11,
        Ok(Offered::StoredOver {
            serial: 6,
            seq: 3,
            gone_seq: 1,
            gone_count: 2,
        }),
    ),
    Snap(0, 12, Ok((7, 0, Some(4), 3))),
];

/// Looks that are refused.
static REFUSED: [Call; 4] = [
    Snap(0, 5, Err(SessionFault::NeverStarted)),
    SessionStart(0, Ok(())),
    Snap(1, 5, Err(SessionFault::NoStream)),
    Snap(0, 5, Ok((0, 0, None, 0))),
];

#[test]
fn looks_at_a_stream(rt: HostRuntime) {
    let session = run(&rt, rt.alloc(), SNAPSHOT, 1, &LOOKS);
    assert_same(&rt, session.book().last().get(), 0);
    let _ = run(&rt, rt.alloc(), SNAPSHOT, 1, &REFUSED);
    drop(session);
}

#[test]
fn a_configuration_is_refused(rt: HostRuntime) {
    for (size, threads, fault) in [
        (255, 1, SessionFault::BadGeometry),
        (256, 1_025, SessionFault::TooMany),
    ] {
        let bad = config(&rt, rt.alloc(), LOCAL, size, threads);
        let answer = run_session(rt.alloc(), &bad, &[]).err();
        assert_same(&rt, (size, threads, answer), (size, threads, Some(fault)));
    }
    let session = run(&rt, rt.alloc(), LOCAL, 1_024, &[]);
    assert_same(&rt, session.streams(), 1_024);
    drop(session);
}
