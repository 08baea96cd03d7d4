//! Feeders and workers side by side, in threads that begin together.

ghost use Rattle.std.specs.Prelude.{◌≡◌, ◌+◌, ◌++◌, ◌≤◌, [], flat_map, map, length, vec_len, vec_capacity, IfOk, IfErr};
ghost use Rattle.tr_threads.specs.Pools.{EachCame, IsKeptOr};
ghost use Rattle.tr_threads.specs.Sides.{as_producer, as_drainer};
ghost use Rattle.tr_threads.specs.declared.sides.Side.TheVariants.{Producer, Drainer};

use crate::faults::{PoolError, PoolFault};
use crate::threads::set_to_work;
use crate::work::Work;
use std::alloc::Global;
use std::sync::Wait;
use std::thread::Threads;

/// The seat of a feeder, or that of a worker.
#[derive(Drop)]
enum Side<S: Drop, U: Drop> {
    Producer(S),
    Drainer(U),
}

/// What feeders do, and what workers do. The feeders' numbers come first, so that workers are started first.
#[derive(Drop)]
struct Sides<'a, V: Work, W: Work> {
    feeding: &'a V,
    draining: &'a W,
    feeders: usize,
}

impl<'a, V: Work, W: Work> Work for Sides<'a, V, W> {
    ghost use Rattle.std.specs.Prelude.{◌-◌};
    ghost use Rattle.tr_threads.specs.Sides.{DidAside};

    type Seat = Side<V::Seat, W::Seat>;

    ghost did = { λ w worker. DidAside (V.did w.feeding.now worker) (W.did w.draining.now (worker - w.feeders)) };

    fn run<R: Wait>(
        &self,
        rt: &R,
        worker: usize,
        seat: Side<V::Seat, W::Seat>,
    ) -> Side<V::Seat, W::Seat> {
        match seat {
            Side::Producer(seat) => Side::Producer(self.feeding.run(rt, worker, seat)),
            Side::Drainer(seat) => {
                let worker = worker.saturating_sub(self.feeders);
                Side::Drainer(self.draining.run(rt, worker, seat))
            }
        }
    }
}

/// Why feeders and workers were not set to work, and the seats that were given, in their order.
#[derive(Drop)]
pub struct SidesFault<S: Drop, U: Drop> {
    /// What was missing.
    pub fault: PoolError,
    /// All the feeders' seats.
    pub producers: Vec<S>,
    /// All the workers' seats.
    pub drainers: Vec<U>,
}

/// All the seats in one row, the feeders' in front; and the two that they were in, now empty.
fn lined_up<S: Drop, U: Drop>(
    mut seats: Vec<Side<S, U>>,
    mut producers: Vec<S>,
    mut drainers: Vec<U>,
) -> (Vec<Side<S, U>>, Vec<S>, Vec<U>)
    requires empty { seats.items ≡ [] }
    requires room { vec_len producers + vec_len drainers ≤ vec_capacity seats }
    ensures line { result.0.items ≡ map Producer producers.items ++ map Drainer drainers.items }
    ensures producers { (result.1.items ≡ []) × (vec_len producers ≤ vec_capacity result.1) }
    ensures drainers { (result.2.items ≡ []) × (vec_len drainers ≤ vec_capacity result.2) }
{
    'drainers: while let Some(seat) = drainers.pop() {
        seats.push_reserved(Side::Drainer(seat));
    }
    'producers: while let Some(seat) = producers.pop() {
        seats.push_reserved(Side::Producer(seat));
    }
    seats.reverse();
    (seats, producers, drainers)
}

/// The seats of each side, in order, in the two that have room for them.
fn told_apart<S: Drop, U: Drop>(
    mut seats: Vec<Side<S, U>>,
    mut producers: Vec<S>,
    mut drainers: Vec<U>,
) -> (Vec<S>, Vec<U>)
    requires empty { (producers.items ≡ []) × (drainers.items ≡ []) }
    requires room { (length (flat_map as_producer seats.items) ≤ vec_capacity producers)
        × (length (flat_map as_drainer seats.items) ≤ vec_capacity drainers) }
    ensures producers { result.0.items ≡ flat_map as_producer seats.items }
    ensures drainers { result.1.items ≡ flat_map as_drainer seats.items }
{
    'seats: while let Some(seat) = seats.pop() {
        match seat {
            Side::Producer(seat) => producers.push_reserved(seat),
            Side::Drainer(seat) => drainers.push_reserved(seat),
        }
    }
    producers.reverse();
    drainers.reverse();
    (producers, drainers)
}

/// Lets a thread of its own do the feeders' work with each of the producers, and one the workers' with each of the drainers:
/// none begins before all are started.
pub(crate) fn set_sides_to_work<V: Work + Sync, W: Work + Sync, R: Threads + Wait + Sync>(
    rt: &R,
    alloc: Global,
    feeding: &V,
    producers: Vec<V::Seat>,
    draining: &W,
    drainers: Vec<W::Seat>,
) -> Result<(Vec<V::Seat>, Vec<W::Seat>), SidesFault<V::Seat, W::Seat>>
where
    V::Seat: Send,
    W::Seat: Send,
    ensures worked { IfOk result
        (λ back. EachCame (V.did feeding.now) producers.items back.0.items
        × EachCame (W.did draining.now) drainers.items back.1.items) }
    ensures came { IfErr result
        (λ f. EachCame (λ feeder. IsKeptOr (V.did feeding.now feeder)) producers.items f.producers.items
        × EachCame (λ worker. IsKeptOr (W.did draining.now worker)) drainers.items f.drainers.items) }
    ensures memory { IfErr result
        (λ f. f.fault ≡ PoolError.NoMemory
        → (f.producers.items ≡ producers.items) × (f.drainers.items ≡ drainers.items)) }
{
    let count = producers.len().saturating_add(drainers.len());
    let Ok(line) = Vec::with_capacity(alloc, count) else {
        return Err(SidesFault {
            fault: PoolError::NoMemory,
            producers,
            drainers,
        });
    };
    let sides = Sides {
        feeding,
        draining,
        feeders: producers.len(),
    };
    let (line, producers, drainers) = lined_up(line, producers, drainers);
    match set_to_work(rt, alloc, &sides, line) {
        Ok(line) => Ok(told_apart(line, producers, drainers)),
        Err(PoolFault { fault, seats }) => {
            let (producers, drainers) = told_apart(seats, producers, drainers);
            Err(SidesFault {
                fault,
                producers,
                drainers,
            })
        }
    }
}
