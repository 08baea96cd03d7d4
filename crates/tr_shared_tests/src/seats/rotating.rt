//! Rotations at a desk, stream after stream, and the settling of what they moved.

ghost use Rattle.std.specs.Prelude.{◌≡◌, length};

use super::{activate, assert_offered, assert_started, built, settled, stored};
use crate::plans::{assert_same, last, plan_of, push};
use std::alloc::Global;
use std::marker::Brand;
use std::process::Abort;
use std::test::*;
use tr_schedule::Schedule;
use tr_seats::{Desk, Names, Opened, Plan, Settled, Slot, Totals};
use tr_session::StepFault;
use tr_session_book::{Archive, SessionFault};
use tr_stream::CutDone;
use tr_terms::Mode;
use tr_testing::moment;

/// Asserts what the cut of the slot at a place, as of the stream of number `i`, answers: how many records the stream had.
fn assert_cut<N: Names>(
    rt: &impl Abort,
    desk: &mut Desk<N>,
    slots: &mut Vec<Slot<N>>,
    place: usize,
    i: usize,
    want: Result<u64, SessionFault>,
)
    ensures { length slots.new.items ≡ length slots.old.items }
{
    assert!(rt; place < slots.len());
    desk.audit(&mut slots[place]);
    let found = match desk.cut(&mut slots[place], i) {
        Ok(CutDone { records, .. }) => Ok(records),
        Err(StepFault::Session(fault)) => Err(fault),
        Err(_) => panic!(rt; "a stream refused its cut"),
    };
    assert_same(rt, (place, i, found), (place, i, want));
}

/// Asserts what the beginning of a rotation at a moment answers.
fn assert_begun<N: Names>(
    rt: &impl Abort,
    desk: &mut Desk<N>,
    at: u64,
    want: Result<u64, SessionFault>,
) {
    assert_same(rt, (at, desk.rotate_begin(moment(at))), (at, want));
}

/// Asserts what a rotation's end answers.
fn assert_finished<N: Names>(
    rt: &impl Abort,
    desk: &mut Desk<N>,
    want: Result<Archive, SessionFault>,
) {
    assert_same(rt, desk.rotate_finish(), want);
}

/// One rotation of two streams, with what is refused on its way.
fn rotate<N: Names>(rt: &impl Abort, desk: &mut Desk<N>, slots: &mut Vec<Slot<N>>)
    ensures { length slots.new.items ≡ length slots.old.items }
{
    let none = SessionFault::NotPending;
    let missing = SessionFault::CutMissing;
    assert_cut(rt, desk, slots, 0, 0, Err(none));
    assert_finished(rt, desk, Err(none));
    assert_begun(rt, desk, 10, Ok(0));
    assert_begun(rt, desk, 11, Err(SessionFault::RotationPending));
    assert_cut(rt, desk, slots, 1, 1, Err(missing));
    assert_cut(rt, desk, slots, 1, 0, Err(SessionFault::Misplaced));
    assert_cut(rt, desk, slots, 0, 0, Ok(3));
    assert_cut(rt, desk, slots, 0, 0, Err(none));
    assert_finished(rt, desk, Err(missing));
    assert_cut(rt, desk, slots, 1, 1, Ok(1));
    let archive = Archive {
        id: 0,
        begin: moment(0),
        end: moment(10),
    };
    assert_finished(rt, desk, Ok(archive));
}

/// A schedule is taken, and a snapshot is refused.
fn assert_operated<N: Names>(rt: &impl Abort, desk: &mut Desk<N>) {
    let schedule = Schedule::new(Some(100), None).expect(rt, "a schedule");
    assert_same(rt, desk.set_schedule(Some(schedule)), Ok(()));
    let refused = Err(SessionFault::NotSnapshotMode);
    assert_same(rt, desk.snapshot_begin(moment(13)), refused);
}

/// Three records in the first stream and one in the second are archived, and one more comes after that.
fn rotates<N: Names>(rt: &impl Abort, alloc: Global, plan: Plan)
    requires { plan ≡ N.plan }
{
    let (opened, mut producers) = built::<N>(rt, plan);
    let (_, mut desk, mut slots, room) = opened.into_parts();
    let mut second = last(rt, &mut producers);
    let mut first = last(rt, &mut producers);
    assert_started(rt, &mut desk, 0, Ok(()));
    activate(rt, &mut desk, &mut slots, 0);
    activate(rt, &mut desk, &mut slots, 1);
    assert_offered(rt, &mut slots, 0, &mut first, 1, 64, stored(0, 0));
    assert_offered(rt, &mut slots, 0, &mut first, 2, 64, stored(1, 0));
    assert_offered(rt, &mut slots, 0, &mut first, 3, 64, stored(2, 1));
    assert_offered(rt, &mut slots, 1, &mut second, 4, 0, stored(0, 0));
    rotate(rt, &mut desk, &mut slots);
    assert_offered(rt, &mut slots, 1, &mut second, 12, 0, stored(1, 1));
    assert_operated(rt, &mut desk);
    let opened = Opened::from_parts(alloc, desk, slots, room);
    push(rt, &mut producers, first);
    push(rt, &mut producers, second);
    let (settled, totals) = settled(rt, opened, producers, Vec::new(alloc));
    assert_settled(rt, &settled, totals);
    drop(settled);
}

/// The records that the rotation moved are part of the sums.
fn assert_settled(rt: &impl Abort, settled: &Settled, totals: Totals) {
    let sums = (totals.offered, totals.consumed, totals.cuts);
    assert_same(rt, sums, (5, 4, 2));
    let session = settled.session();
    assert_same(rt, session.book().archives().len(), 1);
    let first = session.stream(0).expect(rt, "a stream");
    let part = first.part(0).expect(rt, "a part");
    assert_same(rt, part.packets().len(), 2);
}

#[test]
fn what_a_rotation_moves_is_settled(rt: HostRuntime) {
    let plan = plan_of(&rt, rt.alloc(), Mode::Discard, 2);
    rotates::<Brand>(&rt, rt.alloc(), plan);
}
