//! Workers in threads of their own.

ghost use Rattle.std.specs.Prelude.{◌≡◌, IfOk, IfErr, vec_len};
ghost use Rattle.tr_threads.specs.Pools.{EachCame, IsKeptOr};
ghost use Rattle.tr_threads.specs.Turns.{IsWorked};

use crate::faults::{PoolError, PoolFault};
use crate::gate::Gate;
use crate::target::Target;
use crate::threads::set_to_work;
use crate::work::Work;
use crate::worker::work;
use std::alloc::Global;
use std::sync::Wait;
use std::thread::Threads;

/// The work of so many workers on a target, by a gate.
#[derive(Drop)]
pub(crate) struct Draining<'a, T: Target, G: Gate> {
    pub(crate) target: &'a T,
    pub(crate) gate: &'a G,
    pub(crate) workers: usize,
}

impl<'a, T: Target, G: Gate> Work for Draining<'a, T, G> {
    ghost use Rattle.tr_threads.specs.Turns.{IsWorked};

    type Seat = T::Seat;

    ghost did = { λ d worker before after. IsWorked (T.takes d.target.now) (G.lets d.gate.now)
        (T.stream_count d.target.now) d.workers worker before after };

    fn run<R: Wait>(&self, rt: &R, worker: usize, seat: T::Seat) -> T::Seat {
        work(rt, self.target, self.gate, self.workers, worker, seat)
    }
}

/// Lets a worker with each of these seats take from a target, in a thread of its own, and answers with their seats in order.
///
/// Of W workers, the one of number w takes from the streams w, w + W, .. in rounds. A turn is one take, between the gate's
/// `before` and `after`; each worker counts its turns from 0. A refused take is passed over. A worker ends where `before`
/// answers false, and after 2^62 turns; one that has no stream ends at once, and the gate isn't asked. No worker begins before
/// all threads are started.
///
/// # Errors
///
/// `NoMemory`: no thread was started, and the seats are as they were. `NoThread`: all threads have ended, and each seat is as
/// it was, or its worker has made all its turns. All seats come back, in order.
pub fn drain_all<T: Target + Sync, G: Gate + Sync, R: Threads + Wait + Sync>(
    rt: &R,
    alloc: Global,
    target: &T,
    seats: Vec<T::Seat>,
    gate: &G,
) -> Result<Vec<T::Seat>, PoolFault<T::Seat>>
where
    T::Seat: Send,
    ensures worked { IfOk result
        (λ back. EachCame (IsWorked (T.takes target.now) (G.lets gate.now) (T.stream_count target.now) (vec_len seats))
        seats.items back.items) }
    ensures came { IfErr result
        (λ f. EachCame
        (λ worker. IsKeptOr
        (IsWorked (T.takes target.now) (G.lets gate.now) (T.stream_count target.now) (vec_len seats) worker))
        seats.items f.seats.items) }
    ensures memory { IfErr result (λ f. f.fault ≡ PoolError.NoMemory → f.seats ≡ seats) }
{
    let draining = Draining {
        target,
        gate,
        workers: seats.len(),
    };
    set_to_work(rt, alloc, &draining, seats)
}
