//! Watchers of a shared session: they read how many records its streams are offered, and wait for nobody.

ghost use Rattle.std.specs.Prelude.{◌≡◌, ◌<◌, length};

use super::{assert_offered, assert_started, stored};
use crate::plans::{PAYLOAD, assert_same, last, plan_of_watched};
use std::alloc::Global;
use std::marker::Brand;
use std::process::Abort;
use std::sync::Wait;
use std::sync::atomic::{AtomicBool, Ordering};
use std::test::*;
use std::thread;
use std::thread::{Threads, join};
use tr_shared::{Names, OfferFault, Offers, Plan, Producer, Shared, Watcher};
use tr_testing::moment;

/// How many records each producer offers.
const OFFERS: u64 = 20_000;

/// How often a watcher reads, or a thread looks at a flag, before the test is given up.
const TRIES: u64 = 100_000_000;

/// The session that was planned, its producers, and its one watcher.
fn built_watched<N: Names>(rt: &impl Abort, plan: Plan) -> (Shared<N>, Vec<Producer<N>>, Watcher)
    requires { plan ≡ N.plan }
    ensures { result.2.table ≡ N.plan.tally.table }
{
    let (shared, producers, mut watchers) = Shared::<N>::build_watched(plan).expect(rt, "memory");
    assert_same(rt, watchers.len(), 1);
    let watcher = watchers.pop().expect(rt, "a watcher");
    (shared, producers, watcher)
}

/// What a watcher reads of a stream.
fn read_of(rt: &impl Abort, watcher: &mut Watcher, i: usize) -> u64
    ensures { watcher.new.table ≡ watcher.old.table }
{
    assert!(rt; i < watcher.streams());
    watcher.read(i)
}

/// Three offers to the first of two streams, one of them refused, and what a watcher learns of them and reads while the
/// stream's lock is held.
fn reads<N: Names>(rt: &(impl Abort + Wait), plan: Plan)
    requires { plan ≡ N.plan }
{
    let (shared, mut producers, mut watcher) = built_watched::<N>(rt, plan);
    assert_same(rt, (producers.len(), watcher.streams()), (2, 2));
    let second = last(rt, &mut producers);
    let mut first = last(rt, &mut producers);
    assert_offered(rt, &shared, &mut first, 1, 3, Err(OfferFault::Inactive));
    assert_same(rt, read_of(rt, &mut watcher, 0), 0);
    assert_started(rt, &shared, 0, Ok(()));
    assert_offered(rt, &shared, &mut first, 1, 3, stored(0, 0));
    assert_same(rt, read_of(rt, &mut watcher, 0), 1);
    assert_offered(rt, &shared, &mut first, 2, 3, stored(1, 0));
    // what is too big was no offer: it is published after the others, and counts for nothing
    assert_offered(rt, &shared, &mut first, 2, 153, Err(OfferFault::TooBig));
    assert_same(rt, read_of(rt, &mut watcher, 0), 2);
    assert_offered(rt, &shared, &mut first, 3, 3, stored(2, 0));
    let note = first.note();
    assert_same(
        rt,
        (note.stream(), note.count(), first.offered()),
        (0, 3, 3),
    );
    assert_same(rt, watcher.learn(note), 3);
    assert!(rt; 0 < shared.streams());
    let read = shared.hold_stream(rt, 0, || read_of(rt, &mut watcher, 0));
    assert_same(rt, read, 3);
    drop(second);
    drop(first);
    drop(producers);
    drop(shared);
    assert_same(rt, read_of(rt, &mut watcher, 0), 3);
    assert_same(rt, read_of(rt, &mut watcher, 1), 0);
}

#[test]
fn a_watcher_reads_what_was_offered(rt: HostRuntime) {
    reads::<Brand>(&rt, plan_of_watched(&rt, rt.alloc(), 1));
}

/// Offers `OFFERS` records.
fn offer_all<N: Names>(
    rt: &(impl Abort + Wait),
    shared: &Shared<N>,
    mut producer: Producer<N>,
) -> Producer<N> {
    let payload = PAYLOAD.get(..3).expect(rt, "a payload");
    'offers: for k in 0..OFFERS {
        let answer = producer.offer(rt, shared, moment(k), 1, payload);
        assert!(rt; answer.is_ok());
    }
    producer
}

/// Reads a stream again, which was read as `last` before: the answer is no less, and no more than what its producer offers.
fn read_on(rt: &impl Abort, watcher: &mut Watcher, i: usize, last: u64) -> u64
    ensures { watcher.new.table ≡ watcher.old.table }
{
    let count = read_of(rt, watcher, i);
    assert!(rt; last <= count && count <= OFFERS, "{count} after {last}");
    count
}

/// Reads two streams until all that is offered to each was read.
fn watch(rt: &impl Abort, mut watcher: Watcher) -> Watcher
    ensures { result.table ≡ watcher.table }
{
    let mut first = 0;
    let mut second = 0;
    'tries: for _ in 0..TRIES {
        first = read_on(rt, &mut watcher, 0, first);
        second = read_on(rt, &mut watcher, 1, second);
        if first == OFFERS && second == OFFERS {
            return watcher;
        }
        thread::yield_now();
    }
    panic!(rt; "the last counts aren't read")
}

/// Two producers offer while a watcher reads, each in a thread of its own; and the watcher outlives the settled session.
fn shares<N: Names + Send + Sync, R: Threads + Wait + Abort + Sync>(
    rt: &R,
    alloc: Global,
    plan: Plan,
)
    requires { plan ≡ N.plan }
{
    let (shared, mut producers, watcher) = built_watched::<N>(rt, plan);
    assert_started(rt, &shared, 0, Ok(()));
    let second = last(rt, &mut producers);
    let first = last(rt, &mut producers);
    let ((mut first, second), mut watcher) = join(
        rt,
        || join(
            rt,
            || offer_all(rt, &shared, first),
            || offer_all(rt, &shared, second),
        ),
        || watch(rt, watcher),
    );
    let note = first.note();
    assert_same(rt, note.count(), OFFERS);
    producers.push(first).expect(rt, "memory");
    producers.push(second).expect(rt, "memory");
    let Ok((settled, totals)) = shared.settle(producers, Vec::new(alloc)) else {
        panic!(rt; "it isn't settled")
    };
    drop(settled);
    assert_same(rt, totals.offered, u128::from(OFFERS + OFFERS));
    assert_same(rt, watcher.learn(note), OFFERS);
    assert_same(rt, read_of(rt, &mut watcher, 1), OFFERS);
}

#[test]
fn a_watcher_reads_while_producers_offer(rt: HostRuntime) {
    shares::<Brand, HostRuntime>(&rt, rt.alloc(), plan_of_watched(&rt, rt.alloc(), 1));
}

/// Waits until a flag is set.
fn await_set(rt: &impl Abort, flag: &AtomicBool) {
    'tries: for _ in 0..TRIES {
        if flag.load(Ordering::SeqCst) {
            return;
        }
        thread::yield_now();
    }
    panic!(rt; "the flag isn't set")
}

/// A thread holds the first stream's lock until a watcher in another one has read that stream.
fn reads_beside<N: Names + Send + Sync, R: Threads + Wait + Abort + Sync>(rt: &R, plan: Plan)
    requires { plan ≡ N.plan }
{
    let (shared, mut producers, watcher) = built_watched::<N>(rt, plan);
    assert_started(rt, &shared, 0, Ok(()));
    let second = last(rt, &mut producers);
    let mut first = last(rt, &mut producers);
    assert_offered(rt, &shared, &mut first, 1, 3, stored(0, 0));
    let is_held = AtomicBool::new(false);
    let is_read = AtomicBool::new(false);
    let (_, read) = join(
        rt,
        || hold_first(rt, &shared, &is_held, &is_read),
        || read_held(rt, watcher, &is_held, &is_read),
    );
    assert_same(rt, read, 1);
    drop(first);
    drop(second);
    drop(producers);
    drop(shared);
}

/// Holds the first stream until it was read.
fn hold_first<N: Names>(
    rt: &(impl Abort + Wait),
    shared: &Shared<N>,
    is_held: &AtomicBool,
    is_read: &AtomicBool,
) {
    assert!(rt; 0 < shared.streams());
    shared.hold_stream(rt, 0, || {
        is_held.store(true, Ordering::SeqCst);
        await_set(rt, is_read);
    });
}

/// Reads the first stream while it is held.
fn read_held(
    rt: &impl Abort,
    mut watcher: Watcher,
    is_held: &AtomicBool,
    is_read: &AtomicBool,
) -> u64 {
    await_set(rt, is_held);
    let read = read_of(rt, &mut watcher, 0);
    is_read.store(true, Ordering::SeqCst);
    read
}

#[test]
fn a_watcher_waits_for_no_lock(rt: HostRuntime) {
    reads_beside::<Brand, HostRuntime>(&rt, plan_of_watched(&rt, rt.alloc(), 1));
}
