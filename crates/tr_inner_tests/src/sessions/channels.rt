//! Sessions: their channels and streams, offers and fates, what is refused, and how faults print.

use super::Step::{self, Channel, Fate, Last, NoThread, Offer, Start, State, Take, Threads};
use super::{after, assert_lists, assert_same, assert_steps};
use std::alloc::Global;
use std::fmt::Display;
use std::process::Abort;
use tr_session::{Session, StepFault};
use tr_session_book::SessionFault::{
    self, AlreadyActive, AlreadyStarted, BadGeometry, NameTaken, NoChannel, NoStream, TooMany,
};
use tr_session_book::State::{Active, New};
use tr_stream::Fate::{Discarded, InChunk, InRing, Overwritten};
use tr_stream::{CutFault, OfferFault, Offered, TakeFault, Taken};
use tr_terms::{Mode, SessionMode};

/// One stream from the start to a packet. Beside a packet's 80 bytes there are 176: two records of 74 leave room for one of
/// 28 and for no third of 74.
static ONE_STREAM: [Step; 13] = [
    Channel("c", (256, 2, Mode::Discard), Ok(())),
    Threads("c", 0, 1),
    State(New),
    Start(0, Ok(())),
    State(Active),
    Offer((0, 1, 50), Ok(Offered::Stored { serial: 0, seq: 0 })),
    Offer((0, 2, 50), Ok(Offered::Stored { serial: 1, seq: 0 })),
    Offer((0, 3, 50), Ok(Offered::Stored { serial: 2, seq: 1 })),
    Offer((0, 4, 50), Ok(Offered::Stored { serial: 3, seq: 1 })),
    Offer((0, 5, 50), Ok(Offered::Discarded { serial: 4 })),
    Offer((0, 6, 4), Ok(Offered::Stored { serial: 5, seq: 1 })),
    Take(0, Ok(TAKEN)),
    Take(0, Err(StepFault::Take(TakeFault::Nothing))),
];

/// The first packet, of two records.
const TAKEN: Taken = Taken {
    seq: 0,
    count: 2,
    chunk: 0,
};

#[test]
fn one_stream_from_the_start_to_a_packet(rt: HostRuntime) {
    let session = after(&rt, rt.alloc(), SessionMode::Local, &ONE_STREAM);
    let counts = session.stream(0).expect(&rt, "a stream").counts();
    assert_same(&rt, (counts.offered, counts.discarded), (6, 1));
    assert_same(
        &rt,
        (counts.overwritten, counts.in_ring, counts.consumed),
        (0, 3, 2),
    );
    drop(session);
}

/// Each stream has its own ring, mode and counts. Two records of 88 bytes fill a sub-buffer.
static THREE_STREAMS: [Step; 13] = [
    Channel("small", (256, 2, Mode::Overwrite), Ok(())),
    Channel("large", (512, 4, Mode::Discard), Ok(())),
    Threads("large", 0, 1),
    Threads("small", 1, 2),
    Threads("large", 2, 3),
    Start(100, Ok(())),
    Last(100),
    Offer((1, 200, 64), Ok(Offered::Stored { serial: 0, seq: 0 })),
    Offer((1, 200, 64), Ok(Offered::Stored { serial: 1, seq: 0 })),
    Offer((1, 200, 64), Ok(Offered::Stored { serial: 2, seq: 1 })),
    Offer((1, 200, 64), Ok(Offered::Stored { serial: 3, seq: 1 })),
    Offer(
        (1, 200, 64),
        Ok(Offered::StoredOver {
            serial: 4,
            seq: 2,
            gone_seq: 0,
            gone_count: 2,
        }),
    ),
    Offer((2, 200, 64), Ok(Offered::Stored { serial: 0, seq: 0 })),
];

/// Asserts the number of a stream and how many offers it accepted, and that its identifier is the session's.
fn assert_stream(rt: &impl Abort, session: &Session, i: u64, offered: u64) {
    let stream = session.stream(i).expect(rt, "a stream");
    let found = (stream.config().number, stream.counts().offered);
    assert_same(rt, found, (i, offered));
    assert_same(rt, stream.config().uuid, session.book().uuid());
}

/// Asserts the sub-buffers of a stream and its mode.
fn assert_made(rt: &impl Abort, session: &Session, i: u64, size: usize, count: usize, mode: Mode) {
    let config = session.stream(i).expect(rt, "a stream").config();
    let found = (config.geometry.size(), config.geometry.count(), config.mode);
    assert_same(rt, found, (size, count, mode));
}

#[test]
fn streams_stand_apart(rt: HostRuntime) {
    let session = after(&rt, rt.alloc(), SessionMode::Local, &THREE_STREAMS);
    assert_same(&rt, session.book().channels(), 2);
    assert_same(&rt, session.streams(), 3);
    for (i, offered) in [(0, 0), (1, 5), (2, 1)] {
        assert_stream(&rt, &session, i, offered);
    }
    assert_made(&rt, &session, 1, 256, 2, Mode::Overwrite);
    assert_same(&rt, session.stream(3).is_none(), true);
    drop(session);
}

/// Fates say where records are. Two records of 88 bytes fill a sub-buffer, and the fifth overwrites the first two.
static FATES: [Step; 30] = [
    Channel("c", (256, 2, Mode::Overwrite), Ok(())),
    Channel("d", (256, 2, Mode::Discard), Ok(())),
    Threads("c", 0, 1),
    Threads("d", 1, 2),
    Fate(0, 0, Ok(None)),
    Start(0, Ok(())),
    Offer((0, 1, 64), Ok(Offered::Stored { serial: 0, seq: 0 })),
    Offer((1, 1, 64), Ok(Offered::Stored { serial: 0, seq: 0 })),
    Offer((0, 2, 64), Ok(Offered::Stored { serial: 1, seq: 0 })),
    Offer((1, 2, 64), Ok(Offered::Stored { serial: 1, seq: 0 })),
    Offer((0, 3, 64), Ok(Offered::Stored { serial: 2, seq: 1 })),
    Offer((1, 3, 64), Ok(Offered::Stored { serial: 2, seq: 1 })),
    Offer((0, 4, 64), Ok(Offered::Stored { serial: 3, seq: 1 })),
    Offer((1, 4, 64), Ok(Offered::Stored { serial: 3, seq: 1 })),
    Offer(
        (0, 5, 64),
        Ok(Offered::StoredOver {
            serial: 4,
            seq: 2,
            gone_seq: 0,
            gone_count: 2,
        }),
    ),
    Offer((1, 5, 64), Ok(Offered::Discarded { serial: 4 })),
    Offer((0, 6, 64), Ok(Offered::Stored { serial: 5, seq: 2 })),
    Offer((1, 6, 64), Ok(Offered::Discarded { serial: 5 })),
    Fate(0, 0, Ok(Some(Overwritten))),
    Fate(0, 1, Ok(Some(Overwritten))),
    Fate(0, 2, Ok(Some(InRing { seq: 1 }))),
    Fate(0, 5, Ok(Some(InRing { seq: 2 }))),
    Fate(0, 6, Ok(None)),
    Fate(1, 1, Ok(Some(InRing { seq: 0 }))),
    Fate(1, 4, Ok(Some(Discarded))),
    Fate(1, 6, Ok(None)),
    Take(1, Ok(TAKEN)),
    Fate(1, 1, Ok(Some(InChunk { chunk: 0, seq: 0 }))),
    Fate(2, 0, Err(StepFault::Session(NoStream))),
    Fate(u64::MAX, 0, Err(StepFault::Session(NoStream))),
];

#[test]
fn fates_tell_where_records_are(rt: HostRuntime) {
    assert_lists(&rt, rt.alloc(), SessionMode::Local, &[], &[&FATES]);
}

/// A geometry as good as any.
const SMALL: (u64, u64, Mode) = (256, 2, Mode::Discard);

/// Channels are refused in order: a count or a size that no ring has; then a name that is taken, and a ninth channel,
/// whatever its geometry.
static CHANNELS: [Step; 15] = [
    Channel("c", (255, 2, Mode::Discard), Err(BadGeometry)),
    Channel("c", (256, 3, Mode::Discard), Err(BadGeometry)),
    Channel("c", (2_097_152, 2, Mode::Discard), Err(BadGeometry)),
    Channel("c", (256, 128, Mode::Discard), Err(BadGeometry)),
    Channel("a", SMALL, Ok(())),
    Channel("b", SMALL, Ok(())),
    Channel("c", SMALL, Ok(())),
    Channel("d", SMALL, Ok(())),
    Channel("e", SMALL, Ok(())),
    Channel("f", SMALL, Ok(())),
    Channel("g", SMALL, Ok(())),
    Channel("a", (255, 2, Mode::Discard), Err(NameTaken)),
    Channel("h", (1_048_576, 64, Mode::Overwrite), Ok(())),
    Channel("h", SMALL, Err(NameTaken)),
    Channel("i", (255, 2, Mode::Discard), Err(TooMany)),
];

/// What is refused of a session that was started.
static STARTED: [Step; 4] = [
    Start(0, Ok(())),
    Channel("a", (255, 2, Mode::Discard), Err(AlreadyStarted)),
    NoThread("x", AlreadyStarted),
    Start(1, Err(AlreadyActive)),
];

#[test]
fn channels_are_refused_in_order(rt: HostRuntime) {
    let mut session = after(&rt, rt.alloc(), SessionMode::Local, &CHANNELS);
    assert_same(&rt, session.book().channels(), 8);
    let channel = session.book().channel("h").expect(&rt, "a channel");
    let geometry = (channel.geometry.size(), channel.geometry.count());
    assert_same(
        &rt,
        (geometry, channel.mode),
        ((1_048_576, 64), Mode::Overwrite),
    );
    assert_same(&rt, session.book().channel("i").is_none(), true);
    assert_steps(&rt, &mut session, 1, &STARTED);
    drop(session);
}

/// Streams are refused in order.
static STREAMS: [Step; 12] = [
    NoThread("c", NoChannel),
    Channel("c", SMALL, Ok(())),
    Threads("c", 0, 1_024),
    NoThread("x", NoChannel),
    NoThread("c", TooMany),
    Offer((1_023, 1, 4), Err(StepFault::Offer(OfferFault::Inactive))),
    Start(0, Ok(())),
    Offer((1_023, 1, 152), Ok(Offered::Stored { serial: 0, seq: 0 })),
    Offer((1_023, 1, 153), Err(StepFault::Offer(OfferFault::TooBig))),
    Offer((1_024, 1, 4), Err(StepFault::Session(NoStream))),
    Take(1_024, Err(StepFault::Session(NoStream))),
    Take(u64::MAX, Err(StepFault::Session(NoStream))),
];

#[test]
fn streams_are_refused_in_order(rt: HostRuntime) {
    let session = after(&rt, rt.alloc(), SessionMode::Local, &STREAMS);
    assert_same(&rt, session.streams(), 1_024);
    drop(session);
}

/// The channel that the book has for each stream.
static CHANNEL_OF: [Step; 4] = [
    Channel("c", (256, 2, Mode::Discard), Ok(())),
    Channel("d", (512, 2, Mode::Overwrite), Ok(())),
    Threads("d", 0, 1),
    Threads("c", 1, 2),
];

#[test]
fn the_book_tells_each_stream_s_channel(rt: HostRuntime) {
    let session = after(&rt, rt.alloc(), SessionMode::Local, &CHANNEL_OF);
    for (i, channel) in [(0, "d"), (1, "c")] {
        let name = session.book().channel_of(i).expect(&rt, "a channel");
        assert_same(&rt, (i, name.as_str()), (i, channel));
    }
    assert_same(&rt, session.book().channel_of(2).is_none(), true);
    drop(session);
}

/// Asserts what a fault prints.
fn assert_printed(rt: &impl Abort, alloc: Global, fault: &impl Display, text: &str) {
    let printed = format!(in alloc; "{fault}").expect(rt, "memory");
    assert_same(rt, printed.as_str(), text);
}

/// Asserts what a fault prints, and its code and its name.
fn assert_named(rt: &impl Abort, alloc: Global, fault: StepFault, text: &str) {
    assert_printed(rt, alloc, &fault, text);
    let words = format!(in alloc; "{} {}", fault.code(), fault.name()).expect(rt, "memory");
    assert_same(rt, words.as_str(), text);
}

/// The faults of a session, and what they print.
static FAULTS: [(SessionFault, &str); 20] = [
    (SessionFault::SnapshotMode, "S1 SnapshotMode"),
    (SessionFault::NotSnapshotMode, "S2 NotSnapshotMode"),
    (SessionFault::NeverStarted, "S3 NeverStarted"),
    (SessionFault::RotationPending, "S4 RotationPending"),
    (SessionFault::AlreadyRotated, "S5 AlreadyRotated"),
    (SessionFault::AlreadyActive, "S6 AlreadyActive"),
    (SessionFault::NotActive, "S7 NotActive"),
    (SessionFault::NoStream, "S8 NoStream"),
    (SessionFault::DiscardInSnapshot, "S9 DiscardInSnapshot"),
    (SessionFault::AlreadyStarted, "S10 AlreadyStarted"),
    (SessionFault::BadGeometry, "S11 BadGeometry"),
    (SessionFault::TooMany, "S12 TooMany"),
    (SessionFault::NotPending, "S13 NotPending"),
    (SessionFault::CutMissing, "S14 CutMissing"),
    (SessionFault::NameTaken, "S15 NameTaken"),
    (SessionFault::NoMemory, "S16 NoMemory"),
    (SessionFault::NoChannel, "S17 NoChannel"),
    (SessionFault::NoArchive, "S18 NoArchive"),
    (SessionFault::Released, "S19 Released"),
    (SessionFault::Misplaced, "S20 Misplaced"),
];

/// Asserts what each fault of a session prints, and each as the fault of a step.
fn assert_all_named(rt: &impl Abort, alloc: Global, faults: &[(SessionFault, &str)]) {
    for (fault, want) in faults {
        assert_printed(rt, alloc, fault, want);
        assert_named(rt, alloc, StepFault::from(*fault), want);
    }
}

#[test]
fn faults_are_printed_by_code_and_name(rt: HostRuntime) {
    assert_all_named(&rt, rt.alloc(), &FAULTS);
    let nothing = StepFault::from(TakeFault::Nothing);
    let memory = StepFault::from(CutFault::NoMemory);
    let large = StepFault::from(OfferFault::TooBig);
    assert_named(&rt, rt.alloc(), large, "O2 TooBig");
    assert_named(&rt, rt.alloc(), nothing, "T1 Nothing");
    assert_named(&rt, rt.alloc(), memory, "C2 NoMemory");
    assert!(rt; memory.wants_memory() && !nothing.wants_memory());
}
