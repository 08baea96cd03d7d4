//! Clears of a shared session, step by step.

ghost use Rattle.std.specs.Prelude.{◌≡◌};

use super::rotating::{
    archive, assert_begun, assert_finished, assert_next, assert_rotated, cut, taken,
};
use super::{assert_offered, assert_started, assert_taken, built, drainer_of, settled, stored};
use crate::plans::{assert_same, last, plan_of, plan_with, push};
use std::alloc::Global;
use std::marker::Brand;
use std::process::Abort;
use std::sync::Wait;
use std::test::*;
use tr_chunk::{audit_stream, write_part};
use tr_record::MemorySink;
use tr_session::ArchiveSize;
use tr_session_book::SessionFault;
use tr_shared::{Drainer, Names, Plan, Producer, Settled, Shared, Totals};
use tr_stream::{Fate, Offered};
use tr_terms::{Mode, SessionMode};
use uuid::Uuid;

/// Asserts what a clear answers.
fn assert_cleared<N: Names>(
    rt: &(impl Abort + Wait),
    shared: &Shared<N>,
    want: Result<u128, SessionFault>,
) {
    assert_same(rt, shared.clear(rt), want);
}

/// An offer: its moment, how many bytes it has, and what is answered.
type Offer = (u64, usize, Offered);

static TO_A_RING_THAT_DISCARDS: [Offer; 6] = [
    (1, 50, Offered::Stored { serial: 0, seq: 0 }),
    (2, 50, Offered::Stored { serial: 1, seq: 0 }),
    (3, 50, Offered::Stored { serial: 2, seq: 1 }),
    (4, 50, Offered::Stored { serial: 3, seq: 1 }),
    (5, 50, Offered::Discarded { serial: 4 }),
    (6, 4, Offered::Stored { serial: 5, seq: 1 }),
];

static TO_A_RING_THAT_OVERWRITES: [Offer; 6] = [
    (1, 64, Offered::Stored { serial: 0, seq: 0 }),
    (2, 64, Offered::Stored { serial: 1, seq: 0 }),
    (3, 64, Offered::Stored { serial: 2, seq: 1 }),
    (4, 64, Offered::Stored { serial: 3, seq: 1 }),
    (
        5,
        64,
        Offered::StoredOver {
            serial: 4,
            seq: 2,
            gone_seq: 0,
            gone_count: 2,
        },
    ),
    (6, 64, Offered::Stored { serial: 5, seq: 2 }),
];

static AFTER_A_TAKE: [Offer; 4] = [
    (7, 64, Offered::Stored { serial: 6, seq: 3 }),
    (8, 64, Offered::Stored { serial: 7, seq: 3 }),
    (
        9,
        64,
        Offered::StoredOver {
            serial: 8,
            seq: 4,
            gone_seq: 2,
            gone_count: 2,
        },
    ),
    (10, 64, Offered::Stored { serial: 9, seq: 4 }),
];

/// Where some records are in the end, by serial.
static AFTER_DISCARDING: [(u64, Fate); 4] = [
    (0, Fate::Cleared { seq: 0 }),
    (4, Fate::Discarded),
    (5, Fate::Cleared { seq: 1 }),
    (6, Fate::InChunk { chunk: 0, seq: 2 }),
];

static AFTER_OVERWRITING: [(u64, Fate); 4] = [
    (2, Fate::Cleared { seq: 1 }),
    (4, Fate::Overwritten),
    (9, Fate::Cleared { seq: 4 }),
    (10, Fate::InChunk { chunk: 0, seq: 5 }),
];

/// Makes offers one after another, and asserts what each answers.
fn assert_all_offered<N: Names>(
    rt: &(impl Abort + Wait),
    shared: &Shared<N>,
    producer: &mut Producer<N>,
    offers: &[Offer],
) {
    for (at, len, want) in offers {
        assert_offered(rt, shared, producer, *at, *len, Ok(*want));
    }
}

/// Asserts where some records of the first stream are, once the session is settled.
fn assert_fates(rt: &impl Abort, settled: &Settled, wanted: &[(u64, Fate)]) {
    for (serial, fate) in wanted {
        let found = settled.session().stream(0).expect(rt, "a stream");
        assert_same(
            rt,
            (*serial, found.fate_of(*serial)),
            (*serial, Some(*fate)),
        );
    }
}

/// The size of an archive of one record.
fn sized(bytes: u128) -> ArchiveSize {
    ArchiveSize {
        packets: 1,
        records: 1,
        bytes,
        released: 0,
    }
}

/// Asserts how many packets, records and bytes the first archive has, once the session is settled, and what an audit finds of
/// its file: absent numbers, the last number and serial, and how many records were discarded.
fn assert_archived(
    rt: &impl Abort,
    alloc: Global,
    settled: &Settled,
    size: ArchiveSize,
    (gap, seq, serial, lost): ((u64, u64), u64, u64, u64),
) {
    assert_same(rt, settled.session().archive_size(0), size);
    let stream = settled.session().stream(0).expect(rt, "a stream");
    let part = stream.part(0).expect(rt, "a part");
    assert!(rt; !part.is_released());
    let mut sink = MemorySink::new(alloc, 65_536);
    write_part(&mut sink, part).expect(rt, "a file");
    let file = sink.into_bytes();
    let audit = audit_stream(alloc, &Uuid::nil(), 0, &[file.as_slice()]).expect(rt, "an audit");
    assert_same(rt, audit.gaps.as_slice(), [gap].as_slice());
    let last = (audit.last_seq, audit.last_serial, audit.last_lost);
    assert_same(rt, last, (Some(seq), Some(serial), lost));
}

/// Settles a session of one producer and one drainer.
fn end<N: Names>(
    rt: &impl Abort,
    alloc: Global,
    shared: Shared<N>,
    producer: Producer<N>,
    drainer: Drainer<N>,
) -> (Settled, Totals) {
    let mut producers = Vec::new(alloc);
    push(rt, &mut producers, producer);
    let mut drainers = Vec::new(alloc);
    push(rt, &mut drainers, drainer);
    settled(rt, shared, producers, drainers)
}

/// Seven offers to a ring that discards, a take and a clear: what was taken into the current chunk goes, and what the ring
/// holds; what was discarded stays so. Then a rotation, during which a clear is refused, and one more of what isn't there.
fn clears_discarding<N: Names>(rt: &(impl Abort + Wait), alloc: Global, plan: Plan)
    requires { plan ≡ N.plan }
{
    let (shared, mut producers) = built::<N>(rt, plan);
    let mut producer = last(rt, &mut producers);
    let mut drainer = drainer_of(rt, &shared);
    assert_cleared(rt, &shared, Err(SessionFault::NeverStarted));
    assert_started(rt, &shared, 0, Ok(()));
    assert_all_offered(rt, &shared, &mut producer, &TO_A_RING_THAT_DISCARDS);
    assert_taken(rt, &shared, &mut drainer, 0, taken(0, 2, 0));
    assert_cleared(rt, &shared, Ok(5));
    assert_cleared(rt, &shared, Ok(0));
    assert_offered(rt, &shared, &mut producer, 7, 4, stored(6, 2));
    assert_begun(rt, &shared, 10, Ok(0));
    assert_cleared(rt, &shared, Err(SessionFault::RotationPending));
    assert_next(rt, &shared, cut(0, 1));
    assert_finished(rt, &shared, Ok(archive(0, 0, 10)));
    assert_cleared(rt, &shared, Ok(0));
    let (session, totals) = end(rt, alloc, shared, producer, drainer);
    let wanted = Totals {
        offered: 7,
        discarded: 1,
        overwritten: 0,
        overwritten_packets: 0,
        consumed: 3,
        cuts: 1,
        cleared: 5,
    };
    assert_same(rt, totals, wanted);
    assert_fates(rt, &session, &AFTER_DISCARDING);
    assert_archived(rt, alloc, &session, sized(108), ((0, 2), 2, 6, 1));
    drop(session);
}

#[test]
fn a_clear_leaves_what_was_discarded_and_what_is_archived(rt: HostRuntime) {
    let plan = plan_of(&rt, rt.alloc(), Mode::Discard, 1);
    clears_discarding::<Brand>(&rt, rt.alloc(), plan);
}

/// Ten offers to a ring that overwrites, with a take between, and a clear: what was overwritten stays so.
fn clears_overwriting<N: Names>(rt: &(impl Abort + Wait), alloc: Global, plan: Plan)
    requires { plan ≡ N.plan }
{
    let (shared, mut producers) = built::<N>(rt, plan);
    let mut producer = last(rt, &mut producers);
    let mut drainer = drainer_of(rt, &shared);
    assert_started(rt, &shared, 0, Ok(()));
    assert_all_offered(rt, &shared, &mut producer, &TO_A_RING_THAT_OVERWRITES);
    assert_taken(rt, &shared, &mut drainer, 0, taken(1, 2, 0));
    assert_all_offered(rt, &shared, &mut producer, &AFTER_A_TAKE);
    assert_cleared(rt, &shared, Ok(6));
    assert_offered(rt, &shared, &mut producer, 11, 64, stored(10, 5));
    assert_rotated(rt, &shared, 20, Ok(archive(0, 0, 20)));
    let (session, totals) = end(rt, alloc, shared, producer, drainer);
    let wanted = Totals {
        offered: 11,
        discarded: 0,
        overwritten: 4,
        overwritten_packets: 2,
        consumed: 3,
        cuts: 1,
        cleared: 6,
    };
    assert_same(rt, totals, wanted);
    assert_fates(rt, &session, &AFTER_OVERWRITING);
    assert_archived(rt, alloc, &session, sized(168), ((0, 5), 5, 10, 0));
    drop(session);
}

#[test]
fn a_clear_leaves_what_was_overwritten(rt: HostRuntime) {
    let plan = plan_of(&rt, rt.alloc(), Mode::Overwrite, 1);
    clears_overwriting::<Brand>(&rt, rt.alloc(), plan);
}

/// A snapshot session isn't cleared, whether it was started or not.
fn refuses<N: Names>(rt: &(impl Abort + Wait), plan: Plan)
    requires { plan ≡ N.plan }
{
    let (shared, producers) = built::<N>(rt, plan);
    assert_cleared(rt, &shared, Err(SessionFault::SnapshotMode));
    assert_started(rt, &shared, 0, Ok(()));
    assert_cleared(rt, &shared, Err(SessionFault::SnapshotMode));
    drop(producers);
}

#[test]
fn a_snapshot_session_refuses_a_clear(rt: HostRuntime) {
    let (session, mode) = (SessionMode::Snapshot, Mode::Overwrite);
    let plan = plan_with(&rt, rt.alloc(), session, mode, 256, 1).expect(&rt, "a plan");
    refuses::<Brand>(&rt, plan);
}
