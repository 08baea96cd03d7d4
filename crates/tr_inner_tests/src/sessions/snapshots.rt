//! Snapshots of a session, and what a snapshot session refuses.

use super::Step::{
    self, Begin, Channel, Last, NoShow, Offers, Rotate, Schedule, Show, Start, Stop, Take, Threads,
};
use super::{Place, after, assert_at, assert_same, assert_steps, new_session};
use linked_list_allocator::LocalHeap;
use std::alloc::{Allocator, Global};
use std::process::Abort;
use tr_book::StreamSnap;
use tr_record::MemorySink;
use tr_session::{Session, StepFault};
use tr_session_book::SessionFault::{
    BadGeometry, DiscardInSnapshot, NameTaken, NeverStarted, NoMemory, NoStream, NotSnapshotMode,
    SnapshotMode,
};
use tr_snapshot::{Snapshot, count, oldest_serial, write_snap};
use tr_stream::TakeFault;
use tr_terms::{Mode, SessionMode};
use tr_testing::{fill, moment};

/// What a snapshot shows of its only stream.
#[derive(Clone, Copy)]
pub(super) struct Shown {
    moment: u64,
    offered: u64,
    discarded: u64,
    oldest: Option<u64>,
    count: u64,
    /// Each record, as the number of its packet and its serial.
    records: &'static [(u64, u64)],
}

/// What is shown of the only stream.
fn only<'a, A: Allocator>(rt: &impl Abort, snapshot: &'a Snapshot<A>) -> &'a StreamSnap<A> {
    let [snap] = snapshot.streams() else {
        panic!(rt; "one stream")
    };
    assert_same(rt, snap.stream(), 0);
    snap
}

/// Asserts each record that is shown.
fn assert_records<A: Allocator>(
    rt: &impl Abort,
    place: Place,
    snap: &StreamSnap<A>,
    records: &[(u64, u64)],
) {
    let mut wanted = records.iter();
    for packet in snap.packets() {
        for record in packet.records() {
            let found = (packet.head().seq, record.serial());
            assert_at(rt, place, Some(&found), wanted.next());
        }
    }
    assert_at(rt, place, wanted.next(), None);
}

/// Takes a snapshot at this moment, and asserts what it shows.
pub(super) fn assert_shown<A: Allocator + Copy>(
    rt: &impl Abort,
    session: &mut Session<A>,
    place: Place,
    at: u64,
    shown: &Shown,
) {
    let snapshot = session.snapshot(moment(at)).expect(rt, "a snapshot");
    assert_at(rt, place, snapshot.moment().get(), shown.moment);
    let snap = only(rt, &snapshot);
    let counts = (snap.offered(), snap.lost(), count(snap));
    assert_at(
        rt,
        place,
        counts,
        (shown.offered, shown.discarded, shown.count),
    );
    assert_at(rt, place, oldest_serial(snap), shown.oldest);
    assert_records(rt, place, snap, shown.records);
    drop(snapshot);
}

/// Channels of a snapshot session overwrite.
static CHANNELS: [Step; 4] = [
    Channel("c", (255, 2, Mode::Discard), Err(BadGeometry)),
    Channel("c", (256, 2, Mode::Discard), Err(DiscardInSnapshot)),
    Channel("c", (256, 2, Mode::Overwrite), Ok(())),
    Channel("c", (256, 2, Mode::Discard), Err(NameTaken)),
];

#[test]
fn channels_of_a_snapshot_session_overwrite(rt: HostRuntime) {
    let session = after(&rt, rt.alloc(), SessionMode::Snapshot, &CHANNELS);
    assert_same(&rt, session.book().mode(), SessionMode::Snapshot);
    assert_same(&rt, session.book().channels(), 1);
    drop(session);
}

/// A stream of two sub-buffers of 256 bytes.
static UNSTARTED: [Step; 2] = [
    Channel("c", (256, 2, Mode::Overwrite), Ok(())),
    Threads("c", 0, 1),
];

/// Offers of 64 bytes at 1 to 6: two of them fill a sub-buffer.
static OFFERED: [Step; 2] = [Start(0, Ok(())), Offers(1, 7, 64)];

/// A session that made these steps.
fn filled<A: Allocator + Copy>(rt: &impl Abort, alloc: A) -> Session<A> {
    let mut session = new_session(rt, alloc, SessionMode::Snapshot);
    assert_steps(rt, &mut session, 0, &UNSTARTED);
    assert_steps(rt, &mut session, 1, &OFFERED);
    session
}

/// What it shows at 10.
const SIX: Shown = Shown {
    moment: 10,
    offered: 6,
    discarded: 0,
    oldest: Some(2),
    count: 4,
    records: &[(1, 2), (1, 3), (2, 4), (2, 5)],
};

/// What it shows of a seventh record, which begins a sub-buffer and overwrites the oldest packet.
const SEVEN: Shown = Shown {
    moment: 12,
    offered: 7,
    discarded: 0,
    oldest: Some(4),
    count: 3,
    records: &[(2, 4), (2, 5), (3, 6)],
};

/// Snapshots change nothing but the last moment, and never go back in time.
static LOOKS: [Step; 6] = [
    Show(10, SIX),
    Show(10, SIX),
    Last(10),
    Offers(11, 12, 64),
    Show(12, SEVEN),
    Show(3, SEVEN),
];

/// What is shown of a stream without offers.
const NONE: Shown = Shown {
    moment: 5,
    offered: 0,
    discarded: 0,
    oldest: None,
    count: 0,
    records: &[],
};

static WITHOUT_OFFERS: [Step; 6] = [
    NoShow(5, NeverStarted),
    Last(0),
    Start(2, Ok(())),
    Show(5, NONE),
    Stop(Ok(())),
    Show(4, NONE),
];

#[test]
fn a_snapshot_shows_what_the_ring_holds(rt: HostRuntime) {
    let mut session = filled(&rt, rt.alloc());
    assert_steps(&rt, &mut session, 2, &LOOKS);
    drop(session);
    let mut session = after(&rt, rt.alloc(), SessionMode::Snapshot, &UNSTARTED);
    assert_steps(&rt, &mut session, 3, &WITHOUT_OFFERS);
    drop(session);
}

/// The bytes of what is shown of a stream.
fn bytes_of(rt: &impl Abort, alloc: Global, snap: &StreamSnap) -> Vec<u8> {
    let mut sink = MemorySink::new(alloc, 512);
    write_snap(&mut sink, snap).expect(rt, "the bytes");
    sink.into_bytes()
}

#[test]
fn a_snapshot_of_two_full_packets_has_512_bytes(rt: HostRuntime) {
    let mut session = filled(&rt, rt.alloc());
    let snapshot = session.snapshot(moment(10)).expect(&rt, "a snapshot");
    let bytes = bytes_of(&rt, rt.alloc(), only(&rt, &snapshot));
    assert_same(&rt, bytes.len(), 512);
    drop(snapshot);
    drop(session);
}

/// A snapshot session has no chunks.
static NO_CHUNKS: [Step; 6] = [
    Take(1, Err(StepFault::Session(NoStream))),
    Take(0, Err(StepFault::Take(TakeFault::SnapshotMode))),
    Rotate(6, Err(SnapshotMode)),
    Begin(6, Err(SnapshotMode)),
    Schedule(Some((1, None)), Err(SnapshotMode)),
    Last(0),
];

/// A local session has no snapshots.
static NO_SNAPSHOTS: [Step; 6] = [
    Channel("c", (256, 2, Mode::Overwrite), Ok(())),
    Threads("c", 0, 1),
    NoShow(5, NotSnapshotMode),
    Start(0, Ok(())),
    NoShow(5, NotSnapshotMode),
    Last(0),
];

#[test]
fn what_a_session_s_mode_refuses(rt: HostRuntime) {
    let mut session = filled(&rt, rt.alloc());
    assert_steps(&rt, &mut session, 2, &NO_CHUNKS);
    assert_same(&rt, session.book().schedule(), None);
    drop(session);
    let session = after(&rt, rt.alloc(), SessionMode::Local, &NO_SNAPSHOTS);
    assert_same(&rt, session.snap(0, moment(5)).err(), Some(NotSnapshotMode));
    assert_same(&rt, session.book().last().get(), 0);
    drop(session);
}

#[test]
fn a_snapshot_that_is_refused_memory(rt: HostRuntime) {
    let heap = LocalHeap::new(rt.alloc(), 16_384).expect(&rt, "memory");
    let mut session = filled(&rt, &heap);
    let blocks = fill(rt.alloc(), &heap).expect(&rt, "memory");
    assert_steps(&rt, &mut session, 2, &[NoShow(10, NoMemory), Last(0)]);
    drop(blocks);
    assert_steps(&rt, &mut session, 3, &[Show(10, SIX), Last(10)]);
    drop(session);
}
