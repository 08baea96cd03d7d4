//! Rotations and ticks of a shared session, step by step.

ghost use Rattle.std.specs.Prelude.{◌≡◌};

use super::{
    assert_offered, assert_started, assert_stopped, assert_taken, built, drainer_of, settled,
    stored,
};
use crate::plans::{assert_same, granted, last, plan_of, push};
use std::alloc::Global;
use std::marker::Brand;
use std::process::Abort;
use std::sync::Wait;
use std::test::*;
use tr_schedule::{Cause, Schedule};
use tr_session::{Next, Ticked};
use tr_session_book::{Archive, SessionFault, State};
use tr_shared::{Drainer, Names, Plan, Producer, Settled, Shared, Totals};
use tr_stream::{Fate, OfferFault, TakeFault, Taken};
use tr_terms::Mode;
use tr_testing::moment;

/// What a take answers: the number of the packet, how many records it has, and its chunk.
pub(super) fn taken(seq: u64, count: u64, chunk: u64) -> Result<Taken, TakeFault> {
    Ok(Taken { seq, count, chunk })
}

/// What a rotation's cut of a stream answers.
pub(super) fn cut(stream: u64, records: u64) -> Result<Next, SessionFault> {
    Ok(Next::Cut { stream, records })
}

pub(super) fn archive(id: u64, begin: u64, end: u64) -> Archive {
    Archive {
        id,
        begin: moment(begin),
        end: moment(end),
    }
}

/// Asserts what a whole rotation at a moment answers.
pub(super) fn assert_rotated<N: Names>(
    rt: &(impl Abort + Wait),
    shared: &Shared<N>,
    at: u64,
    want: Result<Archive, SessionFault>,
) {
    assert_same(rt, (at, shared.rotate(rt, moment(at))), (at, want));
}

/// Asserts what the beginning of a rotation at a moment answers.
pub(super) fn assert_begun<N: Names>(
    rt: &(impl Abort + Wait),
    shared: &Shared<N>,
    at: u64,
    want: Result<u64, SessionFault>,
) {
    assert_same(rt, (at, shared.rotate_begin(rt, moment(at))), (at, want));
}

/// Asserts what a rotation's next step answers.
pub(super) fn assert_next<N: Names>(
    rt: &(impl Abort + Wait),
    shared: &Shared<N>,
    want: Result<Next, SessionFault>,
) {
    assert_same(rt, shared.rotate_next(rt), want);
}

/// Asserts what a rotation's end answers.
pub(super) fn assert_finished<N: Names>(
    rt: &(impl Abort + Wait),
    shared: &Shared<N>,
    want: Result<Archive, SessionFault>,
) {
    assert_same(rt, shared.rotate_finish(rt), want);
}

/// Offers and takes on both streams while the rotation has cut the first one alone: two records of 50 bytes fill a sub-buffer.
fn work_between<N: Names>(
    rt: &(impl Abort + Wait),
    shared: &Shared<N>,
    first: &mut Producer<N>,
    second: &mut Producer<N>,
    drainer: &mut Drainer<N>,
) {
    assert_offered(rt, shared, first, 11, 50, stored(1, 1));
    assert_offered(rt, shared, first, 12, 50, stored(2, 1));
    assert_offered(rt, shared, first, 13, 50, stored(3, 2));
    assert_taken(rt, shared, drainer, 0, taken(1, 2, 1));
    assert_offered(rt, shared, second, 11, 50, stored(1, 0));
    assert_offered(rt, shared, second, 12, 50, stored(2, 1));
    assert_taken(rt, shared, drainer, 1, taken(0, 2, 0));
}

/// A rotation between whose cuts records are offered and taken: each is in the chunk of its stream's cut.
fn rotates_between<N: Names>(rt: &(impl Abort + Wait), alloc: Global, plan: Plan)
    requires { plan ≡ N.plan }
{
    let (shared, mut producers) = built::<N>(rt, plan);
    let mut second = last(rt, &mut producers);
    let mut first = last(rt, &mut producers);
    let mut drainer = drainer_of(rt, &shared);
    assert_started(rt, &shared, 0, Ok(()));
    assert_offered(rt, &shared, &mut first, 1, 50, stored(0, 0));
    assert_offered(rt, &shared, &mut second, 1, 50, stored(0, 0));
    assert_begun(rt, &shared, 10, Ok(0));
    assert_next(rt, &shared, cut(0, 1));
    work_between(rt, &shared, &mut first, &mut second, &mut drainer);
    assert_finished(rt, &shared, Err(SessionFault::CutMissing));
    assert_next(rt, &shared, cut(1, 1));
    assert_next(rt, &shared, Ok(Next::AllCut));
    assert_finished(rt, &shared, Ok(archive(0, 0, 10)));
    push(rt, &mut producers, second);
    push(rt, &mut producers, first);
    let mut drainers = Vec::new(alloc);
    push(rt, &mut drainers, drainer);
    let (settled, totals) = settled(rt, shared, producers, drainers);
    assert_fates(rt, &settled, totals);
    drop(settled);
}

/// A stream, a serial, and what became of that record.
static FATES: [(u64, u64, Fate); 3] = [
    (0, 1, Fate::InChunk { chunk: 1, seq: 1 }),
    (0, 3, Fate::InRing { seq: 2 }),
    (1, 2, Fate::InChunk { chunk: 0, seq: 1 }),
];

/// Asserts what became of some records, and what all threads did together.
fn assert_fates(rt: &impl Abort, settled: &Settled, totals: Totals) {
    let session = settled.session();
    for (i, serial, fate) in &FATES {
        let found = (*i, *serial, session.fate_of(*i, *serial));
        assert_same(rt, found, (*i, *serial, Ok(Some(*fate))));
    }
    let sums = (totals.offered, totals.consumed, totals.cuts);
    assert_same(rt, sums, (7, 6, 2));
}

#[test]
fn a_rotation_cuts_each_stream_at_its_own_step(rt: HostRuntime) {
    let plan = plan_of(&rt, rt.alloc(), Mode::Discard, 2);
    rotates_between::<Brand>(&rt, rt.alloc(), plan);
}

/// Rotations of a stopped session and of one that goes on, and what is refused while one is pending.
fn rotates_whole<N: Names>(rt: &(impl Abort + Wait), plan: Plan)
    requires { plan ≡ N.plan }
{
    let (shared, mut producers) = built::<N>(rt, plan);
    let mut producer = last(rt, &mut producers);
    assert_rotated(rt, &shared, 0, Err(SessionFault::NeverStarted));
    assert_started(rt, &shared, 0, Ok(()));
    assert_stopped(rt, &shared, Ok(()));
    let inactive = Err(OfferFault::Inactive);
    assert_offered(rt, &shared, &mut producer, 1, 50, inactive);
    assert_rotated(rt, &shared, 1, Ok(archive(0, 0, 1)));
    assert_rotated(rt, &shared, 2, Err(SessionFault::AlreadyRotated));
    assert_started(rt, &shared, 3, Ok(()));
    assert_rotated(rt, &shared, 4, Ok(archive(1, 1, 4)));
    assert_pending(rt, &shared);
    drop(producer);
    drop(producers);
    drop(shared);
}

/// A third rotation, step by step.
fn assert_pending<N: Names>(rt: &(impl Abort + Wait), shared: &Shared<N>) {
    let pending = SessionFault::RotationPending;
    assert_begun(rt, shared, 5, Ok(2));
    assert_begun(rt, shared, 6, Err(pending));
    assert_rotated(rt, shared, 6, Err(pending));
    assert_ticked(rt, shared, 6, Ticked::Idle);
    assert_stopped(rt, shared, Err(pending));
    assert_next(rt, shared, cut(0, 0));
    assert_finished(rt, shared, Ok(archive(2, 4, 5)));
    assert_finished(rt, shared, Err(SessionFault::NotPending));
    assert_next(rt, shared, Err(SessionFault::NotPending));
}

#[test]
fn a_stopped_session_rotates_once(rt: HostRuntime) {
    rotates_whole::<Brand>(&rt, plan_of(&rt, rt.alloc(), Mode::Discard, 1));
}

/// A start and a stop that are refused for a pending rotation switch no stream. The first archive begins at the first start.
fn refuses_to_switch<N: Names>(rt: &(impl Abort + Wait), plan: Plan)
    requires { plan ≡ N.plan }
{
    let (shared, mut producers) = built::<N>(rt, plan);
    let mut producer = last(rt, &mut producers);
    let pending = Err(SessionFault::RotationPending);
    assert_started(rt, &shared, 4, Ok(()));
    assert_begun(rt, &shared, 5, Ok(0));
    assert_stopped(rt, &shared, pending);
    assert_offered(rt, &shared, &mut producer, 6, 1, stored(0, 0));
    assert_next(rt, &shared, cut(0, 1));
    assert_finished(rt, &shared, Ok(archive(0, 4, 5)));
    assert_stopped(rt, &shared, Ok(()));
    assert_begun(rt, &shared, 7, Ok(1));
    assert_started(rt, &shared, 8, pending);
    let inactive = Err(OfferFault::Inactive);
    assert_offered(rt, &shared, &mut producer, 9, 1, inactive);
    drop(producer);
    drop(producers);
    drop(shared);
}

#[test]
fn a_refused_start_and_a_refused_stop_switch_no_stream(rt: HostRuntime) {
    refuses_to_switch::<Brand>(&rt, plan_of(&rt, rt.alloc(), Mode::Discard, 1));
}

/// Asserts what a tick at this moment did.
pub(super) fn assert_ticked<N: Names>(
    rt: &(impl Abort + Wait),
    shared: &Shared<N>,
    at: u64,
    want: Ticked,
) {
    let answer = shared.tick(rt, moment(at));
    assert_same(rt, (at, answer), (at, Ok(want)));
}

/// A rotation that is due by its period, and one by its size.
fn ticks<N: Names>(rt: &(impl Abort + Wait), plan: Plan)
    requires { plan ≡ N.plan }
{
    let (shared, mut producers) = built::<N>(rt, plan);
    let mut producer = last(rt, &mut producers);
    let mut drainer = drainer_of(rt, &shared);
    let schedule = Schedule::new(Some(100), Some(200)).expect(rt, "a schedule");
    assert_ticked(rt, &shared, 100, Ticked::Idle);
    assert_same(rt, shared.set_schedule(rt, Some(schedule)), Ok(()));
    assert_ticked(rt, &shared, 100, Ticked::Idle);
    assert_started(rt, &shared, 0, Ok(()));
    assert_ticked(rt, &shared, 99, Ticked::Idle);
    let timer = Ticked::Rotated {
        cause: Cause::Timer,
        archive: archive(0, 0, 100),
    };
    assert_ticked(rt, &shared, 100, timer);
    assert_offered(rt, &shared, &mut producer, 101, 50, stored(0, 0));
    assert_offered(rt, &shared, &mut producer, 102, 50, stored(1, 0));
    assert_offered(rt, &shared, &mut producer, 103, 50, stored(2, 1));
    assert_ticked(rt, &shared, 140, Ticked::Idle);
    assert_taken(rt, &shared, &mut drainer, 0, taken(0, 2, 1));
    let size = Ticked::Rotated {
        cause: Cause::Size,
        archive: archive(1, 100, 150),
    };
    assert_ticked(rt, &shared, 150, size);
    assert_same(rt, shared.set_schedule(rt, None), Ok(()));
    assert_ticked(rt, &shared, 1_000, Ticked::Idle);
    drop(drainer);
    drop(producer);
    drop(producers);
    drop(shared);
}

#[test]
fn a_tick_rotates_by_period_and_by_size(rt: HostRuntime) {
    ticks::<Brand>(&rt, plan_of(&rt, rt.alloc(), Mode::Discard, 1));
}

/// A rotation is due by the size of the second of two streams alone, and isn't once a clear lowered that.
fn ticks_by_the_second<N: Names>(rt: &(impl Abort + Wait), plan: Plan)
    requires { plan ≡ N.plan }
{
    let (shared, mut producers) = built::<N>(rt, plan);
    let mut second = last(rt, &mut producers);
    let mut drainer = drainer_of(rt, &shared);
    let schedule = Schedule::new(None, Some(200)).expect(rt, "a schedule");
    assert_same(rt, shared.set_schedule(rt, Some(schedule)), Ok(()));
    assert_started(rt, &shared, 0, Ok(()));
    assert_offered(rt, &shared, &mut second, 1, 50, stored(0, 0));
    assert_offered(rt, &shared, &mut second, 2, 50, stored(1, 0));
    assert_offered(rt, &shared, &mut second, 3, 50, stored(2, 1));
    assert_taken(rt, &shared, &mut drainer, 1, taken(0, 2, 0));
    assert_same(rt, shared.clear(rt), Ok(3));
    assert_ticked(rt, &shared, 10, Ticked::Idle);
    assert_offered(rt, &shared, &mut second, 11, 50, stored(3, 2));
    assert_offered(rt, &shared, &mut second, 12, 50, stored(4, 2));
    assert_offered(rt, &shared, &mut second, 13, 50, stored(5, 3));
    assert_ticked(rt, &shared, 14, Ticked::Idle);
    assert_taken(rt, &shared, &mut drainer, 1, taken(2, 2, 0));
    let size = Ticked::Rotated {
        cause: Cause::Size,
        archive: archive(0, 0, 20),
    };
    assert_ticked(rt, &shared, 20, size);
    drop(drainer);
    drop(second);
    drop(producers);
    drop(shared);
}

#[test]
fn a_tick_asks_for_the_size_of_each_stream(rt: HostRuntime) {
    ticks_by_the_second::<Brand>(&rt, plan_of(&rt, rt.alloc(), Mode::Discard, 2));
}

/// What two operators do in names of their own is answered as without one, and settled with them. A third one starts the session
/// again unless they are all, and isn't lent.
fn operates<N: Names>(rt: &(impl Abort + Wait), alloc: Global, plan: Plan, all: bool)
    requires { plan ≡ N.plan }
{
    let (shared, mut producers) = built::<N>(rt, plan);
    let mut producer = last(rt, &mut producers);
    let mut first = shared.operator(rt);
    let mut second = shared.operator(rt);
    let not_active = Err(SessionFault::NotActive);
    assert_same(rt, shared.stop_by(rt, &mut first), not_active);
    assert_same(rt, shared.start_by(rt, &mut first, moment(1)), Ok(()));
    assert_offered(rt, &shared, &mut producer, 2, 50, stored(0, 0));
    let begun = shared.rotate_begin_by(rt, &mut second, moment(3));
    assert_same(rt, begun, Ok(0));
    assert_same(rt, shared.rotate_next_by(rt, &mut first), cut(0, 1));
    let ended = shared.rotate_finish_by(rt, &mut second);
    assert_same(rt, ended, Ok(archive(0, 1, 3)));
    assert_offered(rt, &shared, &mut producer, 4, 50, stored(1, 1));
    assert_same(rt, shared.clear_by(rt, &mut first), Ok(1));
    let rotated = shared.rotate_by(rt, &mut second, moment(5));
    assert_same(rt, rotated, Ok(archive(1, 3, 5)));
    assert_same(rt, shared.set_schedule_by(rt, &mut first, None), Ok(()));
    let ticked = shared.tick_by(rt, &mut second, moment(9));
    assert_same(rt, ticked, Ok(Ticked::Idle));
    assert_same(rt, shared.stop_by(rt, &mut first), Ok(()));
    if all {
        assert_same(rt, shared.start_by(rt, &mut first, moment(10)), Ok(()));
    } else {
        let mut third = shared.operator(rt);
        assert_same(rt, shared.start_by(rt, &mut third, moment(10)), Ok(()));
        drop(third);
    }
    push(rt, &mut producers, producer);
    let mut operators = Vec::new(alloc);
    push(rt, &mut operators, first);
    push(rt, &mut operators, second);
    let answer = shared.settle_with(operators.as_mut_slice(), producers, Vec::new(alloc));
    let (settled, totals, are_all) = granted(rt, answer, "settled session");
    assert_operated(rt, &settled, totals);
    assert_same(rt, are_all, all);
    drop(settled);
    drop(operators);
}

/// Asserts that the session is active with its two archives, and what became of its two records.
fn assert_operated(rt: &impl Abort, settled: &Settled, totals: Totals) {
    let book = settled.session().book();
    assert_same(rt, book.state(), State::Active);
    let mut archives = book.archives().iter();
    assert_same(rt, archives.next().copied(), Some(archive(0, 1, 3)));
    assert_same(rt, archives.next().copied(), Some(archive(1, 3, 5)));
    assert_same(rt, archives.next().is_none(), true);
    let sums = (totals.offered, totals.consumed, totals.cleared, totals.cuts);
    assert_same(rt, sums, (2, 1, 1, 2));
}

#[test]
fn an_operator_is_answered_as_without_one(rt: HostRuntime) {
    operates::<Brand>(
        &rt,
        rt.alloc(),
        plan_of(&rt, rt.alloc(), Mode::Discard, 1),
        true,
    );
}

#[test]
fn two_of_three_operators_are_not_all(rt: HostRuntime) {
    operates::<Brand>(
        &rt,
        rt.alloc(),
        plan_of(&rt, rt.alloc(), Mode::Discard, 1),
        false,
    );
}
