//! What goes on while a stream is held.

ghost use Rattle.std.specs.Prelude.{◌≡◌};

use super::{Gathered, Job, TURNS, assert_archives, gather, offer_one, raise, reached, take_one};
use crate::plans::{assert_same, last, plan_of, push};
use crate::shared::{assert_started, built, drainer_of, settled};
use std::alloc::Global;
use std::marker::Brand;
use std::process::Abort;
use std::sync::Wait;
use std::sync::atomic::{AtomicU64, Ordering};
use std::test::*;
use std::thread;
use std::thread::Threads;
use tr_session_book::{Archive, SessionFault};
use tr_shared::{Drainer, Names, Plan, Producer, Shared};
use tr_terms::Mode;
use tr_testing::moment;

/// How many turns a hold lasts at most while calls on another stream are made.
const HELD_TURNS: u64 = 1_000_000;

/// How many turns calls are left to come to a lock that is held.
const PAUSE: u64 = 1_000;

/// How many offers, and how many takes, are made while another stream is held.
const CALLS: u64 = 100;

/// What threads tell each other of a hold, each by a count.
#[derive(Drop)]
struct Hold {
    /// The hold began.
    held: AtomicU64,
    /// A call that wants the held stream is begun.
    begun: AtomicU64,
    /// Calls on the other stream may begin.
    open: AtomicU64,
    /// A call on the other stream was answered.
    beside: AtomicU64,
    /// The take from the held stream was answered.
    taken: AtomicU64,
    /// The rotation was answered.
    rotated: AtomicU64,
    /// A start or a stop was answered.
    switched: AtomicU64,
}

impl Hold {
    /// Nothing was said yet.
    fn new() -> Hold {
        Hold {
            held: AtomicU64::new(0),
            begun: AtomicU64::new(0),
            open: AtomicU64::new(0),
            beside: AtomicU64::new(0),
            taken: AtomicU64::new(0),
            rotated: AtomicU64::new(0),
            switched: AtomicU64::new(0),
        }
    }
}

/// What is done while the first stream is held: the calls that want it are left to come to its lock, the calls on the second
/// one are awaited, and none that wants the first was answered.
fn wait_beside(rt: &impl Abort, hold: &Hold) {
    raise(&hold.held);
    assert!(rt;
        reached(&hold.begun, 2, TURNS),
        "no calls that want the held stream are begun"
    );
    for _ in 0..PAUSE {
        thread::yield_now();
    }
    raise(&hold.open);
    let answered = reached(&hold.beside, 2 * CALLS, HELD_TURNS);
    assert!(rt; answered, "calls on another stream wait for the held one");
    let taken = hold.taken.load(Ordering::SeqCst);
    assert!(rt; taken == 0, "a take from the held stream is answered");
    let rotated = hold.rotated.load(Ordering::SeqCst);
    assert!(rt;
        rotated == 0,
        "a rotation is answered, which cuts the held stream"
    );
}

/// Holds the first stream.
fn hold_first<N: Names>(rt: &(impl Abort + Wait), shared: &Shared<N>, hold: &Hold) {
    assert!(rt; 0 < shared.streams());
    shared.hold_stream(rt, 0, || wait_beside(rt, hold))
}

/// Waits until the first stream is held, and says that a call which wants it is begun.
fn begin_waiting(rt: &impl Abort, hold: &Hold) {
    assert!(rt; reached(&hold.held, 1, TURNS), "the hold doesn't begin");
    raise(&hold.begun);
}

/// Waits until calls on the second stream may begin.
fn await_open(rt: &impl Abort, hold: &Hold) {
    assert!(rt;
        reached(&hold.open, 1, TURNS),
        "the hold doesn't let calls begin"
    );
}

/// Rotates once, while the first stream is held.
fn rotate_held<N: Names>(
    rt: &(impl Abort + Wait),
    shared: &Shared<N>,
    hold: &Hold,
    archives: &mut Vec<Archive>,
) {
    begin_waiting(rt, hold);
    let answer = shared.rotate(rt, moment(CALLS));
    raise(&hold.rotated);
    push(rt, archives, answer.expect(rt, "an archive"));
}

/// Offers to the second stream while the first is held.
fn offer_beside<N: Names>(
    rt: &(impl Abort + Wait),
    shared: &Shared<N>,
    hold: &Hold,
    producer: &mut Producer<N>,
) {
    await_open(rt, hold);
    for k in 0..CALLS {
        offer_one(rt, shared, producer, k);
        raise(&hold.beside);
    }
}

/// Takes once from the first stream, or again and again from another, while the first is held.
fn take_held<N: Names>(
    rt: &(impl Abort + Wait),
    shared: &Shared<N>,
    hold: &Hold,
    drainer: &mut Drainer<N>,
    i: usize,
) {
    if i == 0 {
        begin_waiting(rt, hold);
        take_one(rt, shared, drainer, i);
        raise(&hold.taken);
        return;
    }
    await_open(rt, hold);
    for _ in 0..CALLS {
        take_one(rt, shared, drainer, i);
        raise(&hold.beside);
    }
}

/// What a thread does while the first stream is held.
fn done_beside<N: Names>(
    rt: &(impl Abort + Wait),
    shared: &Shared<N>,
    hold: &Hold,
    mut job: Job<N>,
) -> Job<N> {
    match &mut job {
        Job::Feed(producer) => offer_beside(rt, shared, hold, producer),
        Job::Drain(drainer, i) => take_held(rt, shared, hold, drainer, *i),
        Job::Rotate(archives) => rotate_held(rt, shared, hold, archives),
    }
    job
}

/// A thread holds the first stream, and others do their jobs meanwhile.
fn work_beside<N: Names + Send + Sync, R: Threads + Wait + Abort + Sync>(
    rt: &R,
    shared: &Shared<N>,
    jobs: Vec<Job<N>>,
) -> Vec<Job<N>> {
    let hold = Hold::new();
    let (_, given_back) = thread::join(
        rt,
        || hold_first(rt, shared, &hold),
        || thread::map_vec(rt, jobs, &|job| done_beside(rt, shared, &hold, job)),
    );
    given_back.expect(rt, "memory")
}

/// While the first stream is held, a rotation and a take wait for it, and offers to the second and takes from it are answered.
/// The rotation cuts the second stream after them, so that its ring is empty in the end.
fn holds<N: Names + Send + Sync, R: Threads + Wait + Abort + Sync>(
    rt: &R,
    alloc: Global,
    plan: Plan,
)
    requires { plan ≡ N.plan }
{
    let (shared, mut kept) = built::<N>(rt, plan);
    assert_started(rt, &shared, 0, Ok(()));
    kept.reverse();
    let mut first = last(rt, &mut kept);
    for k in 0..3 {
        offer_one(rt, &shared, &mut first, k);
    }
    let mut jobs = Vec::new(alloc);
    push(rt, &mut jobs, Job::Rotate(Vec::new(alloc)));
    push(rt, &mut jobs, Job::Drain(drainer_of(rt, &shared), 0));
    push(rt, &mut jobs, Job::Feed(last(rt, &mut kept)));
    push(rt, &mut jobs, Job::Drain(drainer_of(rt, &shared), 1));
    let Gathered {
        mut producers,
        drainers,
        archives,
    } = gather(rt, alloc, work_beside(rt, &shared, jobs));
    push(rt, &mut producers, first);
    producers.append(&mut kept).expect(rt, "memory");
    let (settled, totals) = settled(rt, shared, producers, drainers);
    assert_archives(rt, &settled, totals, archives.as_slice());
    assert_same(rt, totals.offered, 103);
    assert_same(rt, totals.discarded.wrapping_add(totals.consumed), 103);
    drop(settled);
    drop(archives);
    drop(kept);
}

#[test]
fn a_held_stream_stops_a_rotation_and_no_other_stream(rt: HostRuntime) {
    let plan = plan_of(&rt, rt.alloc(), Mode::Discard, 4);
    holds::<Brand, HostRuntime>(&rt, rt.alloc(), plan);
}

/// How many turns a start or a stop is left to be answered while its last stream is held.
const SWITCH_TURNS: u64 = 10_000;

/// What is done while the last stream is held: of two starts or two stops, one waits for that stream and the other for the
/// desk, so neither is answered.
fn wait_unanswered(rt: &impl Abort, hold: &Hold) {
    raise(&hold.held);
    assert!(rt;
        reached(&hold.begun, 2, TURNS),
        "no calls that switch the held stream are begun"
    );
    let answered = reached(&hold.switched, 1, SWITCH_TURNS);
    assert!(rt; !answered, "a start or a stop lets another one in between");
}

/// Holds the second stream, which is the last one.
fn hold_last<N: Names>(rt: &(impl Abort + Wait), shared: &Shared<N>, hold: &Hold) {
    assert!(rt; 1 < shared.streams());
    shared.hold_stream(rt, 1, || wait_unanswered(rt, hold))
}

/// Starts or stops while the last stream is held.
fn switch_held<N: Names>(
    rt: &(impl Abort + Wait),
    shared: &Shared<N>,
    hold: &Hold,
    active: bool,
) -> Result<(), SessionFault> {
    begin_waiting(rt, hold);
    let answer = if active {
        shared.start(rt, moment(1))
    } else {
        shared.stop(rt)
    };
    raise(&hold.switched);
    answer
}

/// A thread holds the last stream, and two others start the session, or stop it, meanwhile: one of them is refused as the
/// book refuses it after the other one.
fn switch_twice<N: Names + Send + Sync, R: Threads + Wait + Abort + Sync>(
    rt: &R,
    alloc: Global,
    shared: &Shared<N>,
    active: bool,
    refused: SessionFault,
) {
    let hold = Hold::new();
    let jobs = vec![in alloc; active; 2].expect(rt, "memory");
    let (_, answers) = thread::join(
        rt,
        || hold_last(rt, shared, &hold),
        || thread::map_vec(rt, jobs, &|active| switch_held(rt, shared, &hold, active)),
    );
    let answers = answers.expect(rt, "memory");
    assert_same(rt, answers.contains(&Ok(())), true);
    assert_same(rt, answers.contains(&Err(refused)), true);
}

/// A start holds the desk until all streams are switched, and so does a stop.
fn switches<N: Names + Send + Sync, R: Threads + Wait + Abort + Sync>(
    rt: &R,
    alloc: Global,
    plan: Plan,
)
    requires { plan ≡ N.plan }
{
    let (shared, producers) = built::<N>(rt, plan);
    switch_twice(rt, alloc, &shared, true, SessionFault::AlreadyActive);
    switch_twice(rt, alloc, &shared, false, SessionFault::NotActive);
    drop(producers);
    drop(shared);
}

#[test]
fn a_start_and_a_stop_let_no_other_in_between(rt: HostRuntime) {
    let plan = plan_of(&rt, rt.alloc(), Mode::Discard, 2);
    switches::<Brand, HostRuntime>(&rt, rt.alloc(), plan);
}
