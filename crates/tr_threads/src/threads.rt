//! Work in threads, which begin together: if one of them can't be started, none does anything.

ghost use Rattle.std.specs.Prelude.{◌≡◌, ◌+◌, ◌-◌, ◌<◌, ◌≤◌, ℕ, true, slice_index_or, vec_len, vec_capacity, IfOk, IfErr};
ghost use Rattle.tr_threads.specs.Pools.{EachCame, IsKeptOr};
ghost use Rattle.std.specs.Thread.{IsSend, IsSync};
ghost use Rattle.tr_threads.specs.Threads.{DidIfBegun};

use crate::faults::{PoolError, PoolFault};
use crate::work::Work;
use std::alloc::Global;
use std::snapshot::Snapshot;
use std::sync::{RwLock, Wait};
use std::thread;
use std::thread::{Promise, PromisedHandle, Threads};

/// A seat when its thread ended, and whether the thread began its work.
#[derive(Drop)]
struct Ended<S: Drop> {
    seat: S,
    began: bool,
}

/// What a thread was given.
#[derive(Drop)]
struct Task<W: Work> {
    work: Snapshot<W>,
    worker: usize,
    seat: Snapshot<W::Seat>,
}

impl<W: Work> Promise<Ended<W::Seat>> for Task<W> {
    ghost use Rattle.tr_threads.specs.Threads.{DidIfBegun};

    ghost kept_by = { λ p r. DidIfBegun (W.did p.work.value p.worker) r.began p.seat.value r.seat };
}

/// Waits for the word, and works if it is given; else the seat comes back as it was.
fn begin<W: Work, R: Wait>(
    rt: &R,
    word: &RwLock<bool>,
    work: &W,
    worker: usize,
    seat: W::Seat,
) -> Ended<W::Seat>
    ensures { DidIfBegun (W.did work.now worker) result.began seat result.seat }
{
    let began = *word.read(rt);
    let seat = if began {
        work.run(rt, worker, seat)
    } else {
        seat
    };
    Ended { seat, began }
}

/// Joins the threads, the last first, and adds their seats at the end. Also answers whether all of them began.
fn join_all<W: Work, R: Threads>(
    rt: &R,
    mut handles: Vec<PromisedHandle<Ended<W::Seat>, Task<W>>>,
    mut seats: Vec<W::Seat>,
) -> (Vec<W::Seat>, bool)
    requires { vec_len seats + vec_len handles ≤ vec_capacity seats }
    ensures len { vec_len result.0 ≡ vec_len seats + vec_len handles }
    ensures front { (i : ℕ) (s : _) → i < vec_len seats
        → slice_index_or result.0.items i s ≡ slice_index_or seats.items i s }
    ensures back { (j : ℕ) (h : _) (s : _) → j < vec_len handles
        → let p = (slice_index_or handles.items j h).promise in
        let after = slice_index_or result.0.items (vec_len seats + (vec_len handles - 1 - j)) s in
        (result.1 ≡ true → W.did p.work.value p.worker p.seat.value after)
        × IsKeptOr (W.did p.work.value p.worker) p.seat.value after }
{
    let mut all = true;
    'joining: while let Some(handle) = handles.pop() {
        let ended = handle.join(rt);
        all &= ended.began;
        seats.push_reserved(ended.seat);
    }
    (seats, all)
}

/// Lets a thread of its own work with each seat: none begins before all are started.
pub(crate) fn set_to_work<W: Work + Sync, R: Threads + Wait + Sync>(
    rt: &R,
    alloc: Global,
    work: &W,
    mut seats: Vec<W::Seat>,
) -> Result<Vec<W::Seat>, PoolFault<W::Seat>>
where
    W::Seat: Send,
    ensures worked { IfOk result (λ back. EachCame (W.did work.now) seats.items back.items) }
    ensures came { IfErr result
        (λ f. EachCame (λ worker. IsKeptOr (W.did work.now worker)) seats.items f.seats.items) }
    ensures memory { IfErr result (λ f. f.fault ≡ PoolError.NoMemory → f.seats ≡ seats) }
{
    let Ok(mut handles) = Vec::with_capacity(alloc, seats.len()) else {
        return Err(PoolFault {
            fault: PoolError::NoMemory,
            seats,
        });
    };
    let word = RwLock::new(false);
    let word = &word;
    thread::scope(
        thread::scope_env(),
        rt,
        |scope| -> Result<Vec<W::Seat>, PoolFault<W::Seat>>
            requires room { (vec_len handles ≡ 0) × (vec_len seats ≤ vec_capacity handles) }
            requires shared { IsSend W.Seat.row × IsSync W.row × IsSync R.row }
            ensures worked { IfOk result (λ back. EachCame (W.did work.entry.now) seats.items back.items) }
            ensures came { IfErr result
                (λ f. EachCame (λ worker. IsKeptOr (W.did work.entry.now worker)) seats.items f.seats.items) }
            ensures memory { IfErr result (λ f. f.fault ≡ PoolError.NoThread) }
        {
            let mut said = word.write(rt);
            'starting: while let Some(seat) = seats.pop() {
                let worker = seats.len();
                let task = Task {
                    work: Snapshot::of(work),
                    worker,
                    seat: Snapshot::of(&seat),
                };
                match scope.spawn_with(task, move || begin(rt, word, work, worker, seat)) {
                    Ok(handle) => handles.push_reserved(handle),
                    Err(refused) => {
                        drop(said);
                        seats.push_reserved((refused.value)().seat);
                        let (seats, _) = join_all(rt, handles, seats);
                        return Err(no_thread(seats));
                    }
                }
            }
            *said = true;
            drop(said);
            match join_all(rt, handles, seats) {
                (seats, true) => Ok(seats),
                (seats, false) => Err(no_thread(seats)),
            }
        },
    )
}

/// A thread was missing.
fn no_thread<S: Drop>(seats: Vec<S>) -> PoolFault<S>
    ensures { result ≡ record { fault = PoolError.NoThread; seats = seats } }
{
    PoolFault {
        fault: PoolError::NoThread,
        seats,
    }
}
