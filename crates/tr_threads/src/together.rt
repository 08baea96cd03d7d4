//! Feeders and workers in threads of one pool.

ghost use Rattle.std.specs.Prelude.{◌≡◌, ◌<◌, ℕ, [], map, slice_index_or, vec_len, IfOk, IfErr};
ghost use Rattle.tr_threads.specs.Feeding.{IsFed, WasFed};
ghost use Rattle.tr_threads.specs.Pools.{EachCame, IsKeptOr};
ghost use Rattle.tr_threads.specs.Turns.{IsWorked};

use crate::draining::Draining;
use crate::faults::PoolError;
use crate::feeding::{Feeding, LoggedProducer, given_back, prepared};
use crate::gate::Gate;
use crate::intake::Intake;
use crate::items::Item;
use crate::sides::{SidesFault, set_sides_to_work};
use crate::target::Target;
use std::alloc::Global;
use std::sync::Wait;
use std::sync::atomic::{AtomicUsize, Ordering};
use std::thread::Threads;

/// Feeders: where they offer, and the seat of each with its work.
#[derive(Drop)]
pub struct Feeders<'a, I: Intake> {
    /// Where they offer.
    pub intake: &'a I,
    /// Their seats.
    pub producers: Vec<I::Seat>,
    /// What each offers.
    pub works: Vec<Vec<Item>>,
    /// How many of them are still at work: all, from before a thread is started, and one less after each that has offered all
    /// its work. A gate may read it; no promise rests on it.
    pub left: &'a AtomicUsize,
}

/// Workers: what they take from, what lets them, and the seat of each.
#[derive(Drop)]
pub struct Workers<'a, T: Target, G: Gate> {
    /// What they take from.
    pub target: &'a T,
    /// What lets them.
    pub gate: &'a G,
    /// Their seats.
    pub drainers: Vec<T::Seat>,
}

/// Lets feeders offer their work, as `feed` does, and meanwhile workers take from a target, as `drain_all` does: each in a
/// thread of its own, and no feeder and no worker begins before all threads are started. Answers with the producers and their
/// logs, and with the workers' seats, in order.
///
/// # Errors
///
/// `NoMemory`: no thread was started, and the seats are as they were. `NoThread`: all threads have ended, and each seat is as
/// it was, or its feeder has offered all its work, which stays, and its log is gone, or its worker has made all its turns. All
/// seats come back, in order.
pub fn feed_and_drain<I: Intake + Sync, T: Target + Sync, G: Gate + Sync, R: Threads + Wait + Sync>(
    rt: &R,
    alloc: Global,
    feeders: Feeders<I>,
    workers: Workers<T, G>,
) -> Result<(Vec<LoggedProducer<I::Seat>>, Vec<T::Seat>), SidesFault<I::Seat, T::Seat>>
where
    I::Seat: Send,
    T::Seat: Send,
    requires { vec_len feeders.works ≡ vec_len feeders.producers }
    ensures len { IfOk result (λ back. vec_len back.0 ≡ vec_len feeders.entry.producers) }
    ensures fed { IfOk result
        (λ back. (i : ℕ) (p : _) (w : _) (b : _) → i < vec_len feeders.entry.producers
        → IsFed (I.offers feeders.entry.intake.now) (slice_index_or feeders.entry.producers.items i p)
        (slice_index_or feeders.entry.works.items i w).items
        (slice_index_or back.0.items i b).producer (slice_index_or back.0.items i b).log.items) }
    ensures worked { IfOk result
        (λ back. EachCame
        (IsWorked (T.takes workers.entry.target.now) (G.lets workers.entry.gate.now) (T.stream_count workers.entry.target.now)
        (vec_len workers.entry.drainers))
        workers.entry.drainers.items back.1.items) }
    ensures producers { IfErr result
        (λ f. EachCame
        (λ i. IsKeptOr
        (WasFed (I.offers feeders.entry.intake.now) (slice_index_or (map (λ w. w.items) feeders.entry.works.items) i [])))
        feeders.entry.producers.items f.producers.items) }
    ensures drainers { IfErr result
        (λ f. EachCame
        (λ worker. IsKeptOr
        (IsWorked (T.takes workers.entry.target.now) (G.lets workers.entry.gate.now)
        (T.stream_count workers.entry.target.now) (vec_len workers.entry.drainers) worker))
        workers.entry.drainers.items f.drainers.items) }
    ensures memory { IfErr result
        (λ f. f.fault ≡ PoolError.NoMemory
        → (f.producers.items ≡ feeders.entry.producers.items) × (f.drainers.items ≡ workers.entry.drainers.items)) }
{
    let Feeders {
        intake,
        producers,
        works,
        left,
    } = feeders;
    let Workers {
        target,
        gate,
        drainers,
    } = workers;
    let (feeders, room) = match prepared(alloc, producers, works) {
        Ok(prepared) => prepared,
        Err(producers) => {
            return Err(SidesFault {
                fault: PoolError::NoMemory,
                producers,
                drainers,
            });
        }
    };
    left.store(feeders.len(), Ordering::SeqCst);
    let feeding = Feeding {
        intake,
        alloc,
        left: Some(left),
    };
    let draining = Draining {
        target,
        gate,
        workers: drainers.len(),
    };
    match set_sides_to_work(rt, alloc, &feeding, feeders, &draining, drainers) {
        Ok(back) => Ok(back),
        Err(
            SidesFault {
                fault,
                producers,
                drainers,
            },
        ) => Err(SidesFault {
            fault,
            producers: given_back(producers, room),
            drainers,
        }),
    }
}
