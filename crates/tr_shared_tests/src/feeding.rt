//! Feeders and workers in threads.

ghost use Rattle.std.specs.Prelude.{◌≡◌};

use crate::plans::{assert_same, granted, plan_with};
use std::alloc::Global;
use std::marker::Brand;
use std::process::Abort;
use std::sync::Wait;
use std::sync::atomic::{AtomicU64, Ordering};
use std::test::*;
use std::thread;
use std::thread::Threads;
use tr_pool::{Gate, Item, Logged, Report, drain_all, feed, reconcile};
use tr_shared::{Drainer, Names, Offers, Plan, Producer, Settled, Shared};
use tr_stream::{Fate, Payload};
use tr_terms::{Mode, SessionMode};
use tr_testing::moment;

/// A plan of `threads` streams, each with two sub-buffers of `size` bytes, in discard mode.
fn plan_of(rt: &impl Abort, alloc: Global, size: u64, threads: u64) -> Plan {
    plan_with(rt, alloc, SessionMode::Local, Mode::Discard, size, threads).expect(rt, "a plan")
}

/// The item of number `k`: `k` bytes of value `k` at moment `2k`, with an id that falls.
pub(crate) fn item(rt: &impl Abort, alloc: Global, k: u8) -> Item {
    let payload = vec![in alloc; k; usize::from(k)].expect(rt, "memory");
    Item {
        moment: moment(2 * u64::from(k)),
        id: u32::MAX - u32::from(k),
        payload: Payload::new(payload),
    }
}

/// The items of the first numbers.
pub(crate) fn items(rt: &impl Abort, alloc: Global, count: u8) -> Vec<Item> {
    let mut items = Vec::new(alloc);
    for k in 0..count {
        items.push(item(rt, alloc, k)).expect(rt, "memory");
    }
    items
}

/// Asserts that this is the item of number `k`.
pub(crate) fn assert_item(rt: &impl Abort, alloc: Global, found: &Item, k: u8) {
    let item = item(rt, alloc, k);
    assert_same(rt, found.moment.get(), item.moment.get());
    assert_same(rt, found.id, item.id);
    assert_same(
        rt,
        found.payload.as_slice() == item.payload.as_slice(),
        true,
    );
}

/// Asserts that the ring of the first stream has exactly these items, one at least, in one packet, the first one.
fn assert_in_ring(rt: &impl Abort, alloc: Global, settled: &Settled, count: u8) {
    let stream = settled.session().stream(0).expect(rt, "a stream");
    'records: for k in 0..count {
        let record = stream.ring_at(u64::from(k)).expect(rt, "a record");
        let item = item(rt, alloc, k);
        assert_same(rt, record.moment().get(), item.moment.get());
        assert_same(rt, record.id(), item.id);
        assert_same(rt, record.payload() == item.payload.as_slice(), true);
    }
    assert_same(rt, stream.counts().in_ring, u64::from(count));
    let last = stream.fate_of(u64::from(count.saturating_sub(1)));
    assert_same(rt, last, Some(Fate::InRing { seq: 0 }));
}

/// All 153 records are in the ring.
const ALL_IN_RING: Report = Report {
    offered: 153,
    discarded: 0,
    overwritten: 0,
    in_ring: 153,
    in_chunks: 0,
    cleared: 0,
};

/// Feeds one stream, and settles: all items were offered, and the log and the ring have them and agree.
fn feeds<N: Names + Send + Sync, R: Threads + Wait + Abort + Sync>(
    rt: &R,
    alloc: Global,
    plan: Plan,
)
    requires { plan ≡ N.plan }
{
    let (shared, producers) = Shared::<N>::build(plan).expect(rt, "memory");
    assert_same(rt, shared.start(rt, moment(0)), Ok(()));
    let works = vec![in alloc; items(rt, alloc, 153)].expect(rt, "memory");
    assert!(rt; works.len() == producers.len());
    let fed = granted(rt, feed(rt, alloc, &shared, producers, works), "feeders");
    let mut producers = Vec::new(alloc);
    let mut logs = Vec::new(alloc);
    'fed: for logged in fed {
        let (producer, log) = logged.into_parts();
        let items = log.items.as_slice();
        assert_same(rt, (log.stream, items.len()), (0, 153));
        'items: for (found, k) in items.iter().zip(0..153) {
            assert_item(rt, alloc, found, k);
        }
        producers.push(producer).expect(rt, "memory");
        logs.push(log).expect(rt, "memory");
    }
    let answer = shared.settle(producers, Vec::new(alloc));
    let (settled, totals) = granted(rt, answer, "settled session");
    assert_same(rt, totals.offered, 153);
    assert_same(rt, reconcile(&settled, &logs), Ok(ALL_IN_RING));
    assert_in_ring(rt, alloc, &settled, 153);
    drop(logs);
    drop(settled);
}

#[test]
fn records_of_all_lengths_come_through(rt: HostRuntime) {
    feeds::<Brand, HostRuntime>(&rt, rt.alloc(), plan_of(&rt, rt.alloc(), 65_536, 1));
}

/// How often a worker looks whether what it waits for has come.
pub(crate) const TRIES: u64 = 1_000_000;

/// A gate that holds each worker at its first turn until both have come.
#[derive(Drop)]
struct Meeting<'a, R: Wait + Abort> {
    rt: &'a R,
    come: AtomicU64,
}

impl<'a, R: Wait + Abort> Gate for Meeting<'a, R> {
    ghost use Rattle.std.specs.Prelude.{⊤};

    ghost lets = { λ _ _ _ _. ⊤ };

    fn before(&self, _worker: usize, turn: u64) -> bool {
        if turn > 0 {
            return false;
        }
        self.come.fetch_add(1, Ordering::SeqCst);
        'tries: for _ in 0..TRIES {
            if self.come.load(Ordering::SeqCst) == 2 {
                return true;
            }
            thread::yield_now();
        }
        panic!(self.rt; "the workers don't run at once")
    }

    fn after(&self, _worker: usize, _turn: u64) {}
}

/// Puts a waiting packet into the producer's stream, which has one record a sub-buffer.
fn fill<N: Names>(rt: &(impl Abort + Wait), shared: &Shared<N>, producer: &mut Producer<N>) {
    let payload = [0x61; 150];
    for k in 0..2 {
        let offered = producer.offer(rt, shared, moment(k), 1, &payload);
        assert_same(rt, offered.is_ok(), true);
    }
}

/// Two workers, each held at its first turn until both have come, take the packets that wait in two streams.
fn meets<N: Names + Send + Sync, R: Threads + Wait + Abort + Sync>(
    rt: &R,
    alloc: Global,
    plan: Plan,
)
    requires { plan ≡ N.plan }
{
    let (shared, mut producers) = Shared::<N>::build(plan).expect(rt, "memory");
    assert_same(rt, shared.start(rt, moment(0)), Ok(()));
    'producers: for producer in &mut producers {
        fill(rt, &shared, producer);
    }
    let first = shared.drainer(rt).expect(rt, "a drainer");
    let second = shared.drainer(rt).expect(rt, "a drainer");
    let drainers: Vec<Drainer<N>> = vec![in alloc; first, second].expect(rt, "memory");
    let gate = Meeting {
        rt,
        come: AtomicU64::new(0),
    };
    let answer = drain_all(rt, alloc, &shared, drainers, &gate);
    let drainers = granted(rt, answer, "workers");
    let (settled, totals) = granted(rt, shared.settle(producers, drainers), "settled session");
    assert_same(rt, totals.consumed, 2);
    'streams: for i in 0..2 {
        let stream = settled.session().stream(i).expect(rt, "a stream");
        assert_same(rt, stream.counts().consumed, 1);
    }
    drop(settled);
}

#[test]
fn two_workers_run_at_once(rt: HostRuntime) {
    meets::<Brand, HostRuntime>(&rt, rt.alloc(), plan_of(&rt, rt.alloc(), 256, 2));
}
