//! What a watched load shows while it runs, and that its watcher learns of its end.

use crate::asserting::assert_same;
use std::alloc::Global;
use std::process::Abort;
use std::sync::Wait;
use std::sync::atomic::{AtomicBool, AtomicU64, Ordering};
use std::test::*;
use std::thread::Threads;
use std::time::{Clock, Duration};
use std::{io, thread};
use tr_load::{Progress, load};

/// How many threads the load has.
const THREADS: usize = 2;

/// How many records each of them offers.
const RECORDS: u64 = 100_000;

/// All the records of the load.
const ALL: u64 = 200_000;

/// How many milliseconds a worker waits at most. The watcher looks at most twice as often.
const MOST: u64 = 10_000;

/// How often a load is run until one of its workers found nothing to take while records were offered.
const RUNS: u64 = 20;

/// What a load has shown.
#[derive(Drop)]
struct Shown {
    /// The last number.
    last: AtomicU64,
    /// How often its watcher looked whether the load has ended.
    looks: AtomicU64,
    /// Whether a worker waited until all records were shown.
    is_awaited: AtomicBool,
}

impl Progress for Shown {
    fn is_shown(&self) -> bool {
        true
    }

    fn show(&self, offered: u128) {
        let offered = u64::try_from(offered).unwrap_or(u64::MAX);
        self.last.store(offered, Ordering::SeqCst);
    }
}

/// A runtime in which a watcher looks each millisecond, and a worker that finds nothing goes on once all records were shown.
#[derive(Drop)]
struct Paced<'a, R> {
    rt: &'a R,
    shown: &'a Shown,
}

impl<R: Wait> Wait for Paced<'_, R> {}

impl<R: Threads> Threads for Paced<'_, R> {}

impl<R: Clock + Abort> Paced<'_, R> {
    /// A watcher's look, a millisecond after the one before.
    fn look(&self) {
        let looks = self.shown.looks.fetch_add(1, Ordering::SeqCst);
        assert!(self.rt; looks < 2 * MOST, "the load has no end");
        thread::sleep(self.rt, Duration::from_millis(1));
    }

    /// Waits until all records were shown, so that the load doesn't end before.
    fn wait(&self) {
        self.shown.is_awaited.store(true, Ordering::SeqCst);
        for _ in 0..MOST {
            if self.shown.last.load(Ordering::SeqCst) == ALL {
                break;
            }
            thread::sleep(self.rt, Duration::from_millis(1));
        }
    }
}

impl<R: Clock + Abort> Clock for Paced<'_, R> {
    fn monotonic(&self) -> io::Result<Duration> {
        self.rt.monotonic()
    }

    fn since_1970(&self) -> io::Result<Duration> {
        self.rt.since_1970()
    }

    /// A worker sleeps for less than a millisecond, a watcher for more.
    fn sleep(&self, duration: Duration) {
        if duration < Duration::from_millis(1) {
            self.wait();
        } else {
            self.look();
        }
    }
}

/// The last number that a load has shown, and what its watcher learned. None if no worker waited for it.
fn shown_last<R: Threads + Wait + Clock + Abort + Sync>(
    rt: &R,
    alloc: Global,
) -> Option<(u64, Option<u128>)> {
    let shown = Shown {
        last: AtomicU64::new(0),
        looks: AtomicU64::new(0),
        is_awaited: AtomicBool::new(false),
    };
    let paced = Paced { rt, shown: &shown };
    let loaded = load(&paced, alloc, THREADS, RECORDS, 2, true, &shown).expect(rt, "a load");
    let watched = loaded.watched;
    drop(loaded);
    if shown.is_awaited.load(Ordering::SeqCst) {
        Some((shown.last.load(Ordering::SeqCst), watched))
    } else {
        None
    }
}

#[test]
fn a_watched_load_shows_all_that_is_offered(rt: HostRuntime) {
    for _ in 0..RUNS {
        if let Some(found) = shown_last(&rt, rt.alloc()) {
            assert_same(&rt, found, (ALL, Some(200_000)));
            return;
        }
    }
    panic!(rt; "the workers find something to take all the time")
}
