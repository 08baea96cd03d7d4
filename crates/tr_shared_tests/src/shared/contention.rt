//! Operators that meet at one session, what goes on while a stream is held, and the seats that settling needs.

mod clearing;
mod holding;
mod rotations;
mod settling;

use crate::plans::{PAYLOAD, assert_same, push};
use std::alloc::Global;
use std::process::Abort;
use std::sync::Wait;
use std::sync::atomic::{AtomicU64, Ordering};
use std::test::*;
use std::thread;
use tr_session_book::Archive;
use tr_shared::{Drainer, Names, Offers, Producer, Settled, Shared, Takes, Totals};
use tr_stream::TakeFault;
use tr_testing::moment;

/// How many turns a thread waits for others at most.
const TURNS: u64 = 20_000_000;

/// Waits at most `turns` turns for others to raise a count, and says whether they did.
fn reached(count: &AtomicU64, wanted: u64, turns: u64) -> bool {
    for _ in 0..turns {
        if count.load(Ordering::SeqCst) >= wanted {
            return true;
        }
        thread::yield_now();
    }
    false
}

/// Raises a count by one.
fn raise(count: &AtomicU64) {
    count.fetch_add(1, Ordering::SeqCst);
}

/// Comes to a meeting of `threads` threads, and waits for the others.
fn meet(rt: &impl Abort, come: &AtomicU64, threads: u64) {
    raise(come);
    assert!(rt;
        reached(come, threads, TURNS),
        "the threads don't run at once"
    );
}

/// What a thread works with, and gives back.
#[derive(Drop)]
enum Job<N: Names> {
    /// To offer to a producer's stream.
    Feed(Producer<N>),
    /// To take from the stream of this number.
    Drain(Drainer<N>, usize),
    /// To rotate, with the archives that were answered.
    Rotate(Vec<Archive>),
}

/// Offers a record of 50 bytes, which is accepted.
fn offer_one<N: Names>(
    rt: &(impl Abort + Wait),
    shared: &Shared<N>,
    producer: &mut Producer<N>,
    at: u64,
) {
    let answer = producer.offer(rt, shared, moment(at), 7, &PAYLOAD[..50]);
    assert!(rt; answer.is_ok(), "an offer is refused");
}

/// Takes from a stream, which has a packet or none.
fn take_one<N: Names>(
    rt: &(impl Abort + Wait),
    shared: &Shared<N>,
    drainer: &mut Drainer<N>,
    i: usize,
) {
    assert!(rt; i < shared.streams());
    match drainer.take(rt, shared, i) {
        Ok(_) | Err(TakeFault::Nothing) => {}
        Err(_) => panic!(rt; "a take is refused"),
    }
}

/// The seats that threads gave back, and all archives that were answered to operators, in order of number.
#[derive(Drop)]
struct Gathered<N: Names> {
    producers: Vec<Producer<N>>,
    drainers: Vec<Drainer<N>>,
    archives: Vec<Archive>,
}

/// What threads gave back.
fn gather<N: Names>(rt: &impl Abort, alloc: Global, given_back: Vec<Job<N>>) -> Gathered<N> {
    let mut producers = Vec::new(alloc);
    let mut drainers = Vec::new(alloc);
    let mut archives = Vec::new(alloc);
    'threads: for job in given_back {
        match job {
            Job::Feed(producer) => push(rt, &mut producers, producer),
            Job::Drain(drainer, _) => push(rt, &mut drainers, drainer),
            Job::Rotate(mut more) => archives.append(&mut more).expect(rt, "memory"),
        }
    }
    archives.sort_unstable_by_key(|archive| archive.id);
    Gathered {
        producers,
        drainers,
        archives,
    }
}

/// The archives that were answered are those of the settled book, which are numbered one after another, and each cut all four
/// streams.
fn assert_archives(rt: &impl Abort, settled: &Settled, totals: Totals, answered: &[Archive]) {
    let kept = settled.session().book().archives();
    assert_same(rt, answered.len(), kept.len());
    assert!(rt; 0 < kept.len(), "no rotation was finished");
    assert!(rt;
        answered == kept,
        "the archives that were answered aren't those of the book"
    );
    assert_same(rt, totals.cuts, 4 * kept.len() as u128);
}
