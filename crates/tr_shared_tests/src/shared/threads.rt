//! Threads that share a session.

ghost use Rattle.std.specs.Prelude.{◌≡◌};

use super::{assert_started, built, drainer_of, settled};
use crate::plans::{PAYLOAD, assert_same, last, plan_of, push};
use std::alloc::Global;
use std::marker::Brand;
use std::process::Abort;
use std::sync::Wait;
use std::test::*;
use std::thread;
use std::thread::Threads;
use tr_session::Ticked;
use tr_shared::{Drainer, Names, Offers, Plan, Producer, Shared, Takes, Totals};
use tr_stream::{OfferFault, Offered};
use tr_terms::Mode;
use tr_testing::moment;

/// How many offers a producer's thread makes, and how often a drainer's thread goes through all streams.
const OFFERS: u64 = 10_000;

const TURNS: u64 = 2_000;

/// How often an operator's thread rotates, and ticks.
pub(super) const ROTATIONS: u64 = 100;

/// What a thread works with.
#[derive(Drop)]
enum Job<N: Names> {
    Feed(Producer<N>),
    Drain(Drainer<N>),
    Operate,
}

/// What a thread gives back: its seat with what it counted, or how many archives were answered to it.
#[derive(Drop)]
enum Done<N: Names> {
    Fed(Producer<N>, Totals),
    Drained(Drainer<N>, Totals),
    Operated(u64),
}

/// What all threads gave back: their seats, the sum of what they counted, and how many archives were made.
#[derive(Drop)]
pub(super) struct Worked<N: Names> {
    pub(super) producers: Vec<Producer<N>>,
    pub(super) drainers: Vec<Drainer<N>>,
    pub(super) told: Totals,
    pub(super) archives: u64,
}

/// Nothing was counted.
fn nothing() -> Totals {
    Totals {
        offered: 0,
        discarded: 0,
        overwritten: 0,
        overwritten_packets: 0,
        consumed: 0,
        cuts: 0,
        cleared: 0,
    }
}

/// What two threads counted together.
fn sum(a: Totals, b: Totals) -> Totals {
    Totals {
        offered: a.offered.wrapping_add(b.offered),
        discarded: a.discarded.wrapping_add(b.discarded),
        overwritten: a.overwritten.wrapping_add(b.overwritten),
        overwritten_packets: a.overwritten_packets.wrapping_add(b.overwritten_packets),
        consumed: a.consumed.wrapping_add(b.consumed),
        cuts: 0,
        cleared: 0,
    }
}

/// What an offer's answer counts.
fn counted(answer: Result<Offered, OfferFault>) -> Totals {
    let mut totals = nothing();
    if let Ok(offered) = answer {
        totals.offered = 1;
        match offered {
            Offered::Stored { .. } => {}
            Offered::StoredOver { gone_count, .. } => {
                totals.overwritten = u128::from(gone_count);
                totals.overwritten_packets = 1;
            }
            Offered::Discarded { .. } => totals.discarded = 1,
        }
    }
    totals
}

/// Offers again and again, and counts what is answered.
fn feed<N: Names>(rt: &impl Wait, shared: &Shared<N>, producer: &mut Producer<N>) -> Totals {
    let mut totals = nothing();
    for k in 0..OFFERS {
        let answer = producer.offer(rt, shared, moment(k), 7, &PAYLOAD[..50]);
        totals = sum(totals, counted(answer));
    }
    totals
}

/// Takes from all streams again and again, and counts what is taken.
fn drain<N: Names>(rt: &impl Wait, shared: &Shared<N>, drainer: &mut Drainer<N>) -> Totals {
    let mut totals = nothing();
    for _ in 0..TURNS {
        for i in 0..shared.streams() {
            if let Ok(taken) = drainer.take(rt, shared, i) {
                totals.consumed = totals.consumed.wrapping_add(u128::from(taken.count));
            }
        }
    }
    totals
}

/// Rotates and ticks again and again, and counts the archives that were answered.
fn operate<N: Names>(rt: &impl Wait, shared: &Shared<N>) -> u64 {
    let mut archives: u64 = 0;
    for k in 0..ROTATIONS {
        if shared.rotate(rt, moment(k)).is_ok() {
            archives = archives.wrapping_add(1);
        }
        if let Ok(Ticked::Rotated { .. }) = shared.tick(rt, moment(k)) {
            archives = archives.wrapping_add(1);
        }
    }
    archives
}

/// What a thread does.
fn done_by<N: Names>(rt: &impl Wait, shared: &Shared<N>, job: Job<N>) -> Done<N> {
    match job {
        Job::Feed(mut producer) => {
            let told = feed(rt, shared, &mut producer);
            Done::Fed(producer, told)
        }
        Job::Drain(mut drainer) => {
            let told = drain(rt, shared, &mut drainer);
            Done::Drained(drainer, told)
        }
        Job::Operate => Done::Operated(operate(rt, shared)),
    }
}

/// The seats that the threads gave back, and the sum of what they counted.
fn gather<N: Names>(rt: &impl Abort, alloc: Global, given_back: Vec<Done<N>>) -> Worked<N> {
    let mut producers = Vec::new(alloc);
    let mut drainers = Vec::new(alloc);
    let mut told = nothing();
    let mut archives: u64 = 0;
    'threads: for done in given_back {
        match done {
            Done::Fed(producer, counted) => {
                push(rt, &mut producers, producer);
                told = sum(told, counted);
            }
            Done::Drained(drainer, counted) => {
                push(rt, &mut drainers, drainer);
                told = sum(told, counted);
            }
            Done::Operated(count) => archives = archives.wrapping_add(count),
        }
    }
    Worked {
        producers,
        drainers,
        told,
        archives,
    }
}

/// A thread for each producer, for each of two drainers, and for each of `operators` operators.
pub(super) fn work<N: Names + Send + Sync, R: Threads + Wait + Abort + Sync>(
    rt: &R,
    alloc: Global,
    shared: &Shared<N>,
    mut producers: Vec<Producer<N>>,
    operators: usize,
) -> Worked<N> {
    let mut jobs = Vec::new(alloc);
    for _ in 0..producers.len() {
        push(rt, &mut jobs, Job::Feed(last(rt, &mut producers)));
    }
    for _ in 0..2 {
        push(rt, &mut jobs, Job::Drain(drainer_of(rt, shared)));
    }
    for _ in 0..operators {
        push(rt, &mut jobs, Job::Operate);
    }
    let given_back = thread::map_vec(rt, jobs, &|job| done_by(rt, shared, job));
    gather(rt, alloc, given_back.expect(rt, "memory"))
}

/// A producer's thread for each stream, and a drainer's thread each of two, on one session: what they count together is what
/// the session is settled with.
fn run<N: Names + Send + Sync, R: Threads + Wait + Abort + Sync>(rt: &R, alloc: Global, plan: Plan)
    requires { plan ≡ N.plan }
{
    let (shared, producers) = built::<N>(rt, plan);
    assert_started(rt, &shared, 0, Ok(()));
    let worked = work(rt, alloc, &shared, producers, 0);
    assert_same(rt, worked.told.offered, 40_000);
    let told = worked.told;
    let (settled, totals) = settled(rt, shared, worked.producers, worked.drainers);
    assert_same(rt, totals, told);
    drop(settled);
}

#[test]
fn what_is_settled_is_what_the_threads_counted(rt: HostRuntime) {
    run::<Brand, HostRuntime>(&rt, rt.alloc(), plan_of(&rt, rt.alloc(), Mode::Discard, 4));
}

#[test]
fn what_is_overwritten_is_what_the_producers_were_told(rt: HostRuntime) {
    run::<Brand, HostRuntime>(
        &rt,
        rt.alloc(),
        plan_of(&rt, rt.alloc(), Mode::Overwrite, 4),
    );
}
