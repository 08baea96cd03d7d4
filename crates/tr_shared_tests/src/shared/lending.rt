//! Producers that are lent to threads that come and go.

ghost use Rattle.std.specs.Prelude.{◌≡◌};

use super::{assert_offered, assert_started, built, settled, stored};
use crate::plans::{PAYLOAD, assert_same, granted, plan_of, push};
use std::alloc::Global;
use std::marker::Brand;
use std::process::Abort;
use std::sync::Wait;
use std::test::*;
use std::thread::{self, Threads};
use tr_lends::ProducerPool;
use tr_shared::{Names, Offers, Plan, Producer, Shared};
use tr_terms::Mode;
use tr_testing::moment;

/// How many threads come, and how many records each offers.
const THREADS: u64 = 16;

const OFFERS: u64 = 1_000;

/// Gives a pool a producer, which it takes.
fn give<N: Names>(rt: &(impl Abort + Wait), pool: &ProducerPool<N>, producer: Producer<N>) {
    granted(rt, pool.give(rt, producer), "place");
}

/// A pool of these producers.
fn pool_of<N: Names>(
    rt: &(impl Abort + Wait),
    alloc: Global,
    shared: &Shared<N>,
    producers: Vec<Producer<N>>,
) -> ProducerPool<N> {
    let pool = ProducerPool::new(alloc, shared).expect(rt, "memory");
    'producers: for producer in producers {
        give(rt, &pool, producer);
    }
    pool
}

/// The producer that is lent next, which is the one of this stream.
fn lent<N: Names>(rt: &(impl Abort + Wait), pool: &ProducerPool<N>, i: usize) -> Producer<N> {
    let producer = pool.lend(rt).expect(rt, "a producer");
    assert_same(rt, producer.stream(), i);
    producer
}

/// A pool has what was given to it; the one is lent that has been free longest, with all that it offered.
fn lends_in_order<N: Names>(rt: &(impl Abort + Wait), alloc: Global, plan: Plan)
    requires { plan ≡ N.plan }
{
    let (shared, producers) = built::<N>(rt, plan);
    assert_started(rt, &shared, 0, Ok(()));
    let none = ProducerPool::new(alloc, &shared).expect(rt, "memory");
    assert_same(rt, none.lend(rt).is_none(), true);
    assert_same(rt, none.into_producers().is_err(), true);
    let pool = pool_of(rt, alloc, &shared, producers);
    let mut first = lent(rt, &pool, 0);
    let second = lent(rt, &pool, 1);
    assert_same(rt, pool.lend(rt).is_none(), true);
    give(rt, &pool, second);
    assert_offered(rt, &shared, &mut first, 1, 3, stored(0, 0));
    give(rt, &pool, first);
    give(rt, &pool, lent(rt, &pool, 1));
    let mut first = lent(rt, &pool, 0);
    assert_offered(rt, &shared, &mut first, 2, 3, stored(1, 0));
    let Err(pool) = pool.into_producers() else {
        panic!(rt; "a producer is away")
    };
    give(rt, &pool, first);
    let producers = granted(rt, pool.into_producers(), "producer of each stream");
    let (settled, totals) = settled(rt, shared, producers, Vec::new(alloc));
    assert_same(rt, totals.offered, 2);
    drop(settled);
}

#[test]
fn the_one_is_lent_that_has_been_free_longest(rt: HostRuntime) {
    lends_in_order::<Brand>(&rt, rt.alloc(), plan_of(&rt, rt.alloc(), Mode::Discard, 2));
}

/// A thread's records, by the producer that is lent to it once one is free: how many were accepted.
fn record<N: Names>(rt: &impl Wait, shared: &Shared<N>, pool: &ProducerPool<N>) -> u64 {
    for _ in rt.forever() {
        if let Some(mut producer) = pool.lend(rt) {
            let before = producer.offered();
            for k in 0..OFFERS {
                let _ = producer.offer(rt, shared, moment(k), 7, &PAYLOAD[..8]);
            }
            let accepted = producer.offered().wrapping_sub(before);
            let _ = pool.give(rt, producer);
            return accepted;
        }
        thread::yield_now();
    }
    unreachable!()
}

/// Sixteen threads by three producers: all that they offered is settled.
fn lends_to_many<N: Names + Send + Sync, R: Threads + Wait + Abort + Sync>(
    rt: &R,
    alloc: Global,
    plan: Plan,
)
    requires { plan ≡ N.plan }
{
    let (shared, producers) = built::<N>(rt, plan);
    assert_started(rt, &shared, 0, Ok(()));
    let pool = pool_of(rt, alloc, &shared, producers);
    let mut jobs = Vec::new(alloc);
    for k in 0..THREADS {
        push(rt, &mut jobs, k);
    }
    let accepted = thread::map_vec(rt, jobs, &|_| record(rt, &shared, &pool)).expect(rt, "memory");
    'threads: for offers in accepted {
        assert_same(rt, offers, OFFERS);
    }
    let producers = granted(rt, pool.into_producers(), "producer of each stream");
    let (settled, totals) = settled(rt, shared, producers, Vec::new(alloc));
    assert_same(rt, totals.offered, u128::from(THREADS.wrapping_mul(OFFERS)));
    drop(settled);
}

#[test]
fn more_threads_than_producers(rt: HostRuntime) {
    lends_to_many::<Brand, HostRuntime>(
        &rt,
        rt.alloc(),
        plan_of(&rt, rt.alloc(), Mode::Overwrite, 3),
    );
}
