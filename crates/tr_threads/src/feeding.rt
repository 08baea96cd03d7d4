//! Feeders in threads of their own.

ghost use Rattle.std.specs.Prelude.{◌≡◌, ◌+◌, ◌++◌, ◌<◌, ◌≤◌, ℕ, [], map, reverse, slice_index_or, vec_len, vec_capacity, IfOk, IfErr};
ghost use Rattle.std.specs.List.{AllByRecursion};
ghost use Rattle.tr_threads.specs.Feeding.{IsFed, WasFed};
ghost use Rattle.tr_threads.specs.Pools.{EachCame, IsKeptOr};

use crate::faults::{PoolError, PoolFault};
use crate::intake::Intake;
use crate::items::{Item, Items};
use crate::threads::set_to_work;
use crate::work::Work;
use std::alloc::Global;
use std::sync::Wait;
use std::sync::atomic::{AtomicUsize, Ordering};
use std::thread::Threads;

/// A producer, the items that it is still to offer, and the log of those that were accepted. The producer is the seat of an
/// intake: of a shared session it is a `Producer`.
#[derive(Drop)]
pub struct LoggedProducer<S: Drop> {
    producer: S,
    work: Vec<Item>,
    log: Vec<Item>,
    // the log has room for the work
    ghost room: { vec_len work + vec_len log ≤ vec_capacity log },
}

impl<S: Drop> LoggedProducer<S> {
    /// The producer, and the items of its log. It takes no memory.
    pub fn into_items(self) -> (S, Items)
        ensures producer { result.0 ≡ self.producer }
        ensures items { result.1 ≡ self.log.items }
    {
        let LoggedProducer {
            producer,
            work: _,
            log,
        } = self;
        (producer, Items::new(log))
    }
}

/// Offers a producer's work, in order, and logs what is accepted.
fn feed_one<T: Intake, R: Wait>(
    rt: &R,
    intake: &T,
    mut producer: T::Seat,
    work: Vec<Item>,
    mut log: Vec<Item>,
) -> (T::Seat, Vec<Item>)
    requires { vec_len work + vec_len log ≤ vec_capacity log }
    ensures { log.items ≡ [] → IsFed (T.offers intake.now) producer work.items result.0 result.1.items }
{
    'offering: for item in work {
        let answer = intake.offer_with(
            rt,
            &mut producer,
            item.moment,
            item.id,
            item.payload.as_slice(),
        );
        if answer.is_ok() {
            log.push_reserved(item);
        }
    }
    (producer, log)
}

/// Each producer with the work at its place, and an empty log that has room for all of it; and room for the producers, for
/// when they come back without their logs.
///
/// # Errors
///
/// Out of memory: all producers come back, in order.
pub(crate) fn prepared<S: Drop>(
    alloc: Global,
    producers: Vec<S>,
    works: Vec<Vec<Item>>,
) -> Result<(Vec<LoggedProducer<S>>, Vec<S>), Vec<S>>
    requires { vec_len works ≡ vec_len producers }
    ensures producers { IfOk result (λ r. map (λ s. s.producer) r.0.items ≡ producers.items) }
    ensures works { IfOk result (λ r. map (λ s. s.work) r.0.items ≡ works.items) }
    ensures logs { IfOk result (λ r. AllByRecursion (λ s. s.log.items ≡ []) r.0.items) }
    ensures room { IfOk result (λ r. (r.1.items ≡ []) × (vec_len r.0 ≤ vec_capacity r.1)) }
    ensures back { IfErr result (λ back. back.items ≡ producers.items) }
{
    let Ok(room) = Vec::with_capacity(alloc, producers.len()) else {
        return Err(producers);
    };
    let feeders = pair(alloc, producers, works)?;
    Ok((feeders, room))
}

/// Each producer with the work at its place, and an empty log that has room for all of it.
///
/// # Errors
///
/// Out of memory: all producers come back, in order.
fn pair<S: Drop>(
    alloc: Global,
    mut producers: Vec<S>,
    mut works: Vec<Vec<Item>>,
) -> Result<Vec<LoggedProducer<S>>, Vec<S>>
    requires { vec_len works ≡ vec_len producers }
    ensures producers { IfOk result (λ seats. map (λ s. s.producer) seats.items ≡ producers.items) }
    ensures works { IfOk result (λ seats. map (λ s. s.work) seats.items ≡ works.items) }
    ensures logs { IfOk result (λ seats. AllByRecursion (λ s. s.log.items ≡ []) seats.items) }
    ensures back { IfErr result (λ back. back.items ≡ producers.items) }
{
    let Ok(mut seats) = Vec::with_capacity(alloc, producers.len()) else {
        return Err(producers);
    };
    'pairs: while let Some(producer) = producers.pop() {
        let Some(work) = works.pop() else {
            unreachable!()
        };
        let Ok(log) = Vec::with_capacity(alloc, work.len()) else {
            producers.push_reserved(producer);
            return Err(unpair(seats, producers));
        };
        seats.push_reserved(LoggedProducer {
            producer,
            work,
            log,
        });
    }
    seats.reverse();
    Ok(seats)
}

/// The producers of these seats, the last first, after those that are there.
fn unpair<S: Drop>(mut seats: Vec<LoggedProducer<S>>, mut producers: Vec<S>) -> Vec<S>
    requires { vec_len producers + vec_len seats ≤ vec_capacity producers }
    ensures { result.items ≡ producers.items ++ reverse (map (λ s. s.producer) seats.items) }
{
    'seats: while let Some(seat) = seats.pop() {
        let LoggedProducer {
            producer,
            work: _,
            log: _,
        } = seat;
        producers.push_reserved(producer);
    }
    producers
}

/// The producers of these seats, in order, in what has room for them.
pub(crate) fn given_back<S: Drop>(seats: Vec<LoggedProducer<S>>, room: Vec<S>) -> Vec<S>
    requires { (room.items ≡ []) × (vec_len seats ≤ vec_capacity room) }
    ensures { result.items ≡ map (λ s. s.producer) seats.items }
{
    let mut producers = unpair(seats, room);
    producers.reverse();
    producers
}

/// The work of feeders on an intake.
#[derive(Drop)]
pub(crate) struct Feeding<'a, T: Intake> {
    pub(crate) intake: &'a T,
    pub(crate) alloc: Global,
    /// How many feeders are still at work, for whoever waits for them.
    pub(crate) left: Option<&'a AtomicUsize>,
}

impl<'a, T: Intake> Work for Feeding<'a, T> {
    ghost use Rattle.std.specs.Prelude.{◌≡◌, []};
    ghost use Rattle.tr_threads.specs.Feeding.{IsFed};

    type Seat = LoggedProducer<T::Seat>;

    ghost did = { λ d _ before after. before.log.items ≡ []
        → IsFed (T.offers d.intake.now) before.producer before.work.items after.producer after.log.items };

    fn run<R: Wait>(
        &self,
        rt: &R,
        _worker: usize,
        seat: LoggedProducer<T::Seat>,
    ) -> LoggedProducer<T::Seat> {
        let LoggedProducer {
            producer,
            work,
            log,
        } = seat;
        let (producer, log) = feed_one(rt, self.intake, producer, work, log);
        if let Some(left) = self.left {
            left.fetch_sub(1, Ordering::SeqCst);
        }
        LoggedProducer {
            producer,
            work: Vec::new(self.alloc),
            log,
        }
    }
}

/// Lets each producer offer the work at its place, in order, in a thread of its own, and answers with the producers and their
/// logs, in order. All logs are made before a thread is started, and no feeder begins before all threads are started.
///
/// # Errors
///
/// `NoMemory`: no thread was started, and the producers are as they were. `NoThread`: all threads have ended, and each
/// producer is as it was, or has offered all its work, which stays, and its log is gone. All producers come back, in order.
pub fn feed<T: Intake + Sync, R: Threads + Wait + Sync>(
    rt: &R,
    alloc: Global,
    intake: &T,
    producers: Vec<T::Seat>,
    works: Vec<Vec<Item>>,
) -> Result<Vec<LoggedProducer<T::Seat>>, PoolFault<T::Seat>>
where
    T::Seat: Send,
    requires { vec_len works ≡ vec_len producers }
    ensures len { IfOk result (λ back. vec_len back ≡ vec_len producers) }
    ensures fed { IfOk result
        (λ back. (i : ℕ) (p : _) (w : _) (b : _) → i < vec_len producers
        → IsFed (T.offers intake.now) (slice_index_or producers.items i p) (slice_index_or works.items i w).items
        (slice_index_or back.items i b).producer (slice_index_or back.items i b).log.items) }
    ensures came { IfErr result
        (λ f. EachCame
        (λ i. IsKeptOr (WasFed (T.offers intake.now) (slice_index_or (map (λ w. w.items) works.items) i [])))
        producers.items f.seats.items) }
    ensures memory { IfErr result (λ f. f.fault ≡ PoolError.NoMemory → f.seats.items ≡ producers.items) }
{
    let (feeders, room) = match prepared(alloc, producers, works) {
        Ok(prepared) => prepared,
        Err(seats) => {
            return Err(PoolFault {
                fault: PoolError::NoMemory,
                seats,
            });
        }
    };
    let feeding = Feeding {
        intake,
        alloc,
        left: None,
    };
    match set_to_work(rt, alloc, &feeding, feeders) {
        Ok(fed) => Ok(fed),
        Err(PoolFault { fault, seats }) => Err(PoolFault {
            fault,
            seats: given_back(seats, room),
        }),
    }
}
