//! Threads that share a session which operators rotate meanwhile.

ghost use Rattle.std.specs.Prelude.{◌≡◌};

use super::threads::{ROTATIONS, Worked, work};
use super::{assert_started, built, settled};
use crate::plans::{assert_same, plan_of};
use std::alloc::Global;
use std::marker::Brand;
use std::process::Abort;
use std::sync::Wait;
use std::test::*;
use std::thread::Threads;
use tr_chunk::{audit_stream, write_part};
use tr_record::MemorySink;
use tr_schedule::Schedule;
use tr_session::Session;
use tr_shared::{Names, Plan, Shared, Totals};
use tr_stream::Stream;
use tr_terms::Mode;
use tr_testing::moment;
use uuid::Uuid;

/// Ends a rotation that an operator left pending, if there is one, and rotates once more: how many archives this made.
fn end_rotations<N: Names>(rt: &(impl Abort + Wait), shared: &Shared<N>) -> u64 {
    for _ in 0..shared.streams() {
        let _ = shared.rotate_next(rt);
    }
    let left = u64::from(shared.rotate_finish(rt).is_ok());
    assert_same(rt, shared.rotate(rt, moment(ROTATIONS)).is_ok(), true);
    left.wrapping_add(1)
}

/// Four producers, two drainers and two operators work on a session; what is settled is what they counted.
fn run<N: Names + Send + Sync, R: Threads + Wait + Abort + Sync>(rt: &R, alloc: Global, plan: Plan)
    requires { plan ≡ N.plan }
{
    let (shared, producers) = built::<N>(rt, plan);
    let schedule = Schedule::new(None, Some(1)).expect(rt, "a schedule");
    assert_same(rt, shared.set_schedule(rt, Some(schedule)), Ok(()));
    assert_started(rt, &shared, 0, Ok(()));
    let Worked {
        producers,
        drainers,
        told,
        archives,
    } = work(rt, alloc, &shared, producers, 2);
    let archives = archives.wrapping_add(end_rotations(rt, &shared));
    let (settled, totals) = settled(rt, shared, producers, drainers);
    assert_totals(rt, totals, told, archives);
    assert_archives(rt, settled.session(), totals, archives);
    'streams: for i in 0..settled.session().streams() {
        let stream = settled.session().stream(i).expect(rt, "a stream");
        assert_audited(rt, alloc, stream, i, archives);
    }
    drop(settled);
}

/// The totals are what the producers counted, and the records that drainers took are among the consumed ones; each rotation
/// cut all four streams.
fn assert_totals(rt: &impl Abort, totals: Totals, told: Totals, archives: u64) {
    assert_same(
        rt,
        (totals.offered, totals.discarded, totals.overwritten),
        (told.offered, told.discarded, told.overwritten),
    );
    assert_same(rt, totals.overwritten_packets, told.overwritten_packets);
    assert_same(rt, told.consumed <= totals.consumed, true);
    assert_same(rt, totals.cuts, u128::from(archives.wrapping_mul(4)));
}

/// The archives are numbered one after another, and hold all records that were consumed; the rings are empty.
fn assert_archives(rt: &impl Abort, session: &Session, totals: Totals, archives: u64) {
    let mut number: u64 = 0;
    let mut records: u128 = 0;
    'archives: for archive in session.book().archives() {
        assert_same(rt, archive.id, number);
        records = records.wrapping_add(session.archive_size(number).records);
        number = number.wrapping_add(1);
    }
    assert_same(rt, number, archives);
    assert_same(rt, records, totals.consumed);
    let gone = totals.discarded.wrapping_add(totals.overwritten);
    assert_same(rt, records.wrapping_add(gone), totals.offered);
}

/// The files of a stream pass their audit, which finds just the packets that were overwritten absent.
fn assert_audited(rt: &impl Abort, alloc: Global, stream: &Stream, number: u64, archives: u64) {
    let mut sink = MemorySink::new(alloc, 65_536);
    for id in 0..archives {
        let part = stream.part(id).expect(rt, "a part");
        assert!(rt; !part.is_released());
        write_part(&mut sink, part).expect(rt, "a file");
    }
    let file = sink.into_bytes();
    let audit = audit_stream(alloc, &Uuid::nil(), number, &[file.as_slice()]).expect(
        rt, "an audit",
    );
    let counts = stream.counts();
    assert_same(rt, (audit.records, counts.in_ring), (counts.consumed, 0));
    let mut absent: u64 = 0;
    'gaps: for (_, packets) in audit.gaps.as_slice() {
        absent = absent.wrapping_add(*packets);
    }
    assert_same(rt, absent, counts.overwritten_packets);
}

#[test]
fn operators_rotate_while_threads_offer_and_take(rt: HostRuntime) {
    run::<Brand, HostRuntime>(&rt, rt.alloc(), plan_of(&rt, rt.alloc(), Mode::Discard, 4));
}

#[test]
fn operators_rotate_while_rings_overwrite(rt: HostRuntime) {
    run::<Brand, HostRuntime>(
        &rt,
        rt.alloc(),
        plan_of(&rt, rt.alloc(), Mode::Overwrite, 4),
    );
}
