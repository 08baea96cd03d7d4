//! Two operators that rotate one session, each on its own or together.

ghost use Rattle.std.specs.Prelude.{◌≡◌};

use super::{Gathered, Job, assert_archives, gather, meet, offer_one, raise, take_one};
use crate::plans::{assert_same, plan_of, push};
use crate::shared::{assert_started, built, drainer_of, settled};
use std::alloc::Global;
use std::marker::Brand;
use std::process::Abort;
use std::sync::Wait;
use std::sync::atomic::{AtomicU64, Ordering};
use std::test::*;
use std::thread;
use std::thread::Threads;
use tr_session::Next;
use tr_session_book::{Archive, SessionFault};
use tr_shared::{Drainer, Names, Plan, Producer, Shared};
use tr_terms::Mode;
use tr_testing::moment;

/// How many offers a producer's thread makes at most, and how many takes a drainer's.
const MOST_CALLS: u64 = 1_000_000;

/// How often each of two operators rotates.
const ROTATIONS: u64 = 100;

/// How many rotations two operators cut together, one after another.
const SHARED_ROTATIONS: u64 = 100;

/// What the threads of producers, of a drainer and of operators tell each other: how many have come, and how many operators
/// have ended.
#[derive(Drop)]
struct Shift {
    come: AtomicU64,
    ended: AtomicU64,
}

impl Shift {
    /// Whether both operators have ended.
    fn is_over(&self) -> bool {
        self.ended.load(Ordering::SeqCst) == 2
    }
}

/// Offers until both operators have ended.
fn feed<N: Names>(
    rt: &(impl Abort + Wait),
    shared: &Shared<N>,
    shift: &Shift,
    producer: &mut Producer<N>,
) {
    for k in 0..MOST_CALLS {
        if shift.is_over() {
            return;
        }
        offer_one(rt, shared, producer, k);
    }
}

/// Takes until both operators have ended.
fn drain<N: Names>(
    rt: &(impl Abort + Wait),
    shared: &Shared<N>,
    shift: &Shift,
    drainer: &mut Drainer<N>,
    i: usize,
) {
    for _ in 0..MOST_CALLS {
        if shift.is_over() {
            return;
        }
        take_one(rt, shared, drainer, i);
    }
}

/// Rotates again and again, and adds the archives. What is refused, is refused for a rotation that is pending.
fn rotate<N: Names>(
    rt: &(impl Abort + Wait),
    shared: &Shared<N>,
    shift: &Shift,
    archives: &mut Vec<Archive>,
) {
    for k in 0..ROTATIONS {
        match shared.rotate(rt, moment(k)) {
            Ok(archive) => push(rt, archives, archive),
            Err(fault) => {
                assert_same(rt, fault, SessionFault::RotationPending);
                thread::yield_now();
            }
        }
    }
    raise(&shift.ended);
}

/// What a thread does, once all seven have come.
fn done_by<N: Names>(
    rt: &(impl Abort + Wait),
    shared: &Shared<N>,
    shift: &Shift,
    mut job: Job<N>,
) -> Job<N> {
    meet(rt, &shift.come, 7);
    match &mut job {
        Job::Feed(producer) => feed(rt, shared, shift, producer),
        Job::Drain(drainer, i) => drain(rt, shared, shift, drainer, *i),
        Job::Rotate(archives) => rotate(rt, shared, shift, archives),
    }
    job
}

/// Four producers offer and a drainer takes for as long as two operators rotate.
fn rotates<N: Names + Send + Sync, R: Threads + Wait + Abort + Sync>(
    rt: &R,
    alloc: Global,
    plan: Plan,
)
    requires { plan ≡ N.plan }
{
    let (shared, producers) = built::<N>(rt, plan);
    assert_started(rt, &shared, 0, Ok(()));
    let mut jobs = Vec::new(alloc);
    'producers: for producer in producers {
        push(rt, &mut jobs, Job::Feed(producer));
    }
    push(rt, &mut jobs, Job::Drain(drainer_of(rt, &shared), 0));
    push(rt, &mut jobs, Job::Rotate(Vec::new(alloc)));
    push(rt, &mut jobs, Job::Rotate(Vec::new(alloc)));
    let shift = Shift {
        come: AtomicU64::new(0),
        ended: AtomicU64::new(0),
    };
    let given_back = thread::map_vec(rt, jobs, &|job| done_by(rt, &shared, &shift, job));
    let Gathered {
        producers,
        drainers,
        archives,
    } = gather(rt, alloc, given_back.expect(rt, "memory"));
    let (settled, totals) = settled(rt, shared, producers, drainers);
    assert_archives(rt, &settled, totals, archives.as_slice());
    drop(settled);
    drop(archives);
}

#[test]
fn two_operators_make_each_archive_once(rt: HostRuntime) {
    let plan = plan_of(&rt, rt.alloc(), Mode::Discard, 4);
    rotates::<Brand, HostRuntime>(&rt, rt.alloc(), plan);
}

/// Once both operators have come, cuts streams until the pending rotation has cut all, and answers with the numbers of those
/// that were cut.
fn cut_on<N: Names>(
    rt: &(impl Abort + Wait),
    alloc: Global,
    shared: &Shared<N>,
    come: &AtomicU64,
) -> Vec<u64> {
    meet(rt, come, 2);
    let mut streams = Vec::new(alloc);
    for _ in 0..5 {
        match shared.rotate_next(rt) {
            Ok(Next::Cut { stream, .. }) => push(rt, &mut streams, stream),
            Ok(Next::AllCut) => return streams,
            Err(_) => panic!(rt; "a cut is refused"),
        }
        thread::yield_now();
    }
    panic!(rt; "one operator cut more streams than there are")
}

/// Two operators, each in a thread of its own, cut the streams of the pending rotation: each stream is cut once.
fn cut_together<N: Names + Send + Sync, R: Threads + Wait + Abort + Sync>(
    rt: &R,
    alloc: Global,
    shared: &Shared<N>,
) {
    let come = AtomicU64::new(0);
    let (mut streams, mut others) = thread::join(
        rt,
        || cut_on(rt, alloc, shared, &come),
        || cut_on(rt, alloc, shared, &come),
    );
    streams.append(&mut others).expect(rt, "memory");
    streams.sort_unstable();
    let each = [0, 1, 2, 3];
    assert!(rt;
        streams.as_slice() == each.as_slice(),
        "not each stream was cut once"
    );
}

/// Rotations that two operators cut together, one after another.
fn cuts<N: Names + Send + Sync, R: Threads + Wait + Abort + Sync>(rt: &R, alloc: Global, plan: Plan)
    requires { plan ≡ N.plan }
{
    let (shared, _) = built::<N>(rt, plan);
    assert_started(rt, &shared, 0, Ok(()));
    for k in 0..SHARED_ROTATIONS {
        assert_same(rt, shared.rotate_begin(rt, moment(k)), Ok(k));
        cut_together(rt, alloc, &shared);
        let finished = shared.rotate_finish(rt).map(|archive| archive.id);
        assert_same(rt, finished, Ok(k));
    }
}

#[test]
fn two_operators_cut_each_stream_once(rt: HostRuntime) {
    let plan = plan_of(&rt, rt.alloc(), Mode::Discard, 4);
    cuts::<Brand, HostRuntime>(&rt, rt.alloc(), plan);
}
