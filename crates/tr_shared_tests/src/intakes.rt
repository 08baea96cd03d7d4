//! Feeders on an intake that is no session, and a worker beside them on a target that is none.

use crate::feeding::{TRIES, assert_item, items};
use crate::plans::{assert_same, granted};
use std::alloc::Global;
use std::process::Abort;
use std::sync::Wait;
use std::sync::atomic::{AtomicUsize, Ordering};
use std::test::*;
use std::thread;
use tr_pool::{
    Feeders, Gate, Intake, Item, Items, LoggedProducer, Target, Workers, feed, feed_and_drain,
};
use tr_stream::{OfferFault, Offered, TakeFault, Taken};
use tr_terms::Moment;

/// What was offered with a seat: how often, and the sums of the moments and of the lengths of the payloads.
#[derive(Clone, Copy, PartialEq, Debug)]
struct Told {
    offers: u64,
    moments: u64,
    bytes: u64,
}

/// An intake that refuses a record at a moment that 4 divides.
#[derive(Drop)]
struct Picky;

impl Intake for Picky {
    ghost use Rattle.std.specs.Prelude.{⊤};

    type Seat = Told;

    ghost offers = { λ _ _ _ _ _ _ _. ⊤ };

    fn offer_with<R: Wait>(
        &self,
        _rt: &R,
        seat: &mut Told,
        moment: Moment,
        _id: u32,
        payload: &[u8],
    ) -> Result<Offered, OfferFault> {
        seat.offers = seat.offers.wrapping_add(1);
        seat.moments = seat.moments.wrapping_add(moment.get());
        seat.bytes = seat.bytes.wrapping_add(payload.len() as u64);
        if moment.get() % 4 == 0 {
            return Err(OfferFault::Inactive);
        }
        Ok(Offered::Discarded { serial: 0 })
    }
}

/// Asserts what was offered with a seat, and that its log has the items of these numbers.
fn assert_fed(
    rt: &impl Abort,
    alloc: Global,
    fed: LoggedProducer<Told>,
    offered: Told,
    logged: &[u8],
) {
    let (told, log): (Told, Items) = fed.into_items();
    assert_same(rt, told, offered);
    let log = log.into_vec();
    assert_same(rt, log.len(), logged.len());
    'items: for (found, k) in log.iter().zip(logged) {
        assert_item(rt, alloc, found, *k);
    }
}

/// Two producers with which nothing was offered yet.
fn producers(rt: &impl Abort, alloc: Global) -> Vec<Told> {
    let none = Told {
        offers: 0,
        moments: 0,
        bytes: 0,
    };
    vec![in alloc; none, none].expect(rt, "memory")
}

/// What they are to offer: the first 6 items, and the first 3.
fn works(rt: &impl Abort, alloc: Global) -> Vec<Vec<Item>> {
    vec![in alloc; items(rt, alloc, 6), items(rt, alloc, 3)].expect(rt, "memory")
}

/// Asserts that they have offered it.
fn assert_both_fed(rt: &impl Abort, alloc: Global, mut fed: Vec<LoggedProducer<Told>>) {
    // the moments 0, 2, 4 of 0, 1, 2 bytes
    let three = Told {
        offers: 3,
        moments: 6,
        bytes: 3,
    };
    // and the moments 6, 8, 10 of 3, 4, 5 bytes
    let six = Told {
        offers: 6,
        moments: 30,
        bytes: 15,
    };
    let last = fed.pop().expect(rt, "a feeder");
    assert_fed(rt, alloc, last, three, &[1]);
    let first = fed.pop().expect(rt, "a feeder");
    assert_fed(rt, alloc, first, six, &[1, 3, 5]);
    assert_same(rt, fed.len(), 0);
}

#[test]
fn a_log_has_what_was_accepted(rt: HostRuntime) {
    let alloc = rt.alloc();
    let producers = producers(&rt, alloc);
    let works = works(&rt, alloc);
    assert!(&rt; works.len() == producers.len());
    let fed = granted(&rt, feed(&rt, alloc, &Picky, producers, works), "feeders");
    assert_both_fed(&rt, alloc, fed);
}

/// A target with one stream in which nothing waits. A seat counts the takes.
#[derive(Drop)]
struct Still;

impl Target for Still {
    ghost use Rattle.std.specs.Prelude.{⊤};

    type Seat = u64;

    ghost stream_count = { λ _. 1 };

    ghost takes = { λ _ _ _ _ _. ⊤ };

    fn streams(&self) -> usize {
        1
    }

    fn take_at<R: Wait>(&self, _rt: &R, seat: &mut u64, _i: usize) -> Result<Taken, TakeFault> {
        *seat = seat.wrapping_add(1);
        Err(TakeFault::Nothing)
    }
}

/// An intake and a gate that wait for each other. The intake answers as `Picky`, and each offer waits until the gate was asked.
/// The gate waits until both feeders are at their first offer, and then until none is at work; it lets a worker make one turn.
#[derive(Drop)]
struct Beside<'a, R: Abort> {
    rt: &'a R,
    /// How many offers were begun.
    begun: AtomicUsize,
    /// How many were made.
    made: AtomicUsize,
    /// How often the gate was asked.
    asked: AtomicUsize,
    /// How many feeders are at work.
    left: &'a AtomicUsize,
}

/// Looks until a count is between these two.
fn wait_for(rt: &impl Abort, count: &AtomicUsize, least: usize, most: usize, what: &str) {
    'tries: for _ in 0..TRIES {
        let now = count.load(Ordering::SeqCst);
        if least <= now && now <= most {
            return;
        }
        thread::yield_now();
    }
    panic!(rt; "no {what}")
}

impl<'a, R: Abort> Intake for Beside<'a, R> {
    ghost use Rattle.std.specs.Prelude.{⊤};

    type Seat = Told;

    ghost offers = { λ _ _ _ _ _ _ _. ⊤ };

    fn offer_with<W: Wait>(
        &self,
        rt: &W,
        seat: &mut Told,
        moment: Moment,
        id: u32,
        payload: &[u8],
    ) -> Result<Offered, OfferFault> {
        self.begun.fetch_add(1, Ordering::SeqCst);
        wait_for(self.rt, &self.asked, 1, 1, "worker beside the feeders");
        let answer = Picky.offer_with(rt, seat, moment, id, payload);
        self.made.fetch_add(1, Ordering::SeqCst);
        answer
    }
}

impl<'a, R: Abort> Gate for Beside<'a, R> {
    ghost use Rattle.std.specs.Prelude.{⊤};

    ghost lets = { λ _ _ _ _. ⊤ };

    fn before(&self, _worker: usize, turn: u64) -> bool {
        if turn > 0 {
            return false;
        }
        wait_for(self.rt, &self.begun, 2, 2, "feeders beside the worker");
        assert_same(self.rt, self.left.load(Ordering::SeqCst), 2);
        self.asked.store(1, Ordering::SeqCst);
        wait_for(self.rt, self.left, 0, 0, "end of the feeders");
        assert_same(self.rt, self.made.load(Ordering::SeqCst), 9);
        true
    }

    fn after(&self, _worker: usize, _turn: u64) {}
}

#[test]
fn feeders_and_a_worker_run_at_once(rt: HostRuntime) {
    let alloc = rt.alloc();
    let left = AtomicUsize::new(0);
    let beside = Beside {
        rt: &rt,
        begun: AtomicUsize::new(0),
        made: AtomicUsize::new(0),
        asked: AtomicUsize::new(0),
        left: &left,
    };
    let feeders = Feeders {
        intake: &beside,
        producers: producers(&rt, alloc),
        works: works(&rt, alloc),
        left: &left,
    };
    let workers = Workers {
        target: &Still,
        gate: &beside,
        drainers: vec![in alloc; 0].expect(&rt, "memory"),
    };
    assert!(&rt; feeders.works.len() == feeders.producers.len());
    let answer = feed_and_drain(&rt, alloc, feeders, workers);
    let (fed, takes) = granted(&rt, answer, "feeders and workers");
    assert_same(&rt, takes.as_slice() == [1].as_slice(), true);
    assert_same(&rt, left.load(Ordering::SeqCst), 0);
    assert_both_fed(&rt, alloc, fed);
}
