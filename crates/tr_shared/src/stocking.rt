//! Pages that are made, and copies that are made ahead, while nobody waits for them.

use std::alloc::Allocator;
use std::sync::{Mutex, MutexGuard, Wait};
use std::thread;
use tr_seats::{Names, Slot};

/// How often pages are made for one cut or one snapshot: while some are made, a traced thread may fill others.
const MOST_ROUNDS: usize = 4;

/// How many bytes are copied while a slot's lock is held once: what an offer may wait for.
const PIECE: usize = 16_384;

/// How many pieces are copied ahead of one look at most: if offers fill the ring faster than it is copied, there is no end to it.
const MOST_PIECES: usize = 65_536;

/// Gives the slot pages that are made, and written to, while its lock isn't held. Without memory they may be fewer.
fn stock<N: Names, A: Allocator + Copy>(
    rt: &impl Wait,
    lock: &Mutex<Slot<N, A>>,
    slot: MutexGuard<'_, Slot<N, A>>,
    count: usize,
) {
    let mut more = slot.no_spares();
    drop(slot);
    more.make_touched(count);
    lock.lock(rt).keep_spares(more);
}

/// Has the slot be given the page that a take would have to make itself, if it lacks one. Without memory it may lack it still.
pub(crate) fn stock_for_take<N: Names, A: Allocator + Copy>(
    rt: &impl Wait,
    lock: &Mutex<Slot<N, A>>,
) {
    let slot = lock.lock(rt);
    let count = slot.lacking_for_take();
    if count > 0 {
        stock(rt, lock, slot, count);
    }
}

/// The same for a cut, which needs a page for each that has records.
pub(crate) fn stock_for_cut<N: Names, A: Allocator + Copy>(
    rt: &impl Wait,
    lock: &Mutex<Slot<N, A>>,
) {
    for _ in 0..MOST_ROUNDS {
        let slot = lock.lock(rt);
        let count = slot.lacking_for_cut();
        if count == 0 {
            return;
        }
        stock(rt, lock, slot, count);
    }
}

/// Has copies of all that the slot's ring holds be begun, in pages that are made while its lock isn't held. Without memory they
/// may be fewer.
fn begin_copies<N: Names, A: Allocator + Copy>(rt: &impl Wait, lock: &Mutex<Slot<N, A>>) {
    for _ in 0..MOST_ROUNDS {
        let slot = lock.lock(rt);
        let count = slot.lacking_copies();
        let mut pages = slot.no_spares();
        drop(slot);
        if count == 0 {
            return;
        }
        pages.make_touched(count);
        lock.lock(rt).begin_copies(&mut pages);
    }
}

/// Copies what the slot's ring holds, ahead of a look and a piece at a time, so that under the lock of the look little is left.
pub(crate) fn copy_ahead<N: Names, A: Allocator + Copy>(rt: &impl Wait, lock: &Mutex<Slot<N, A>>) {
    begin_copies(rt, lock);
    for _ in 0..MOST_PIECES {
        if lock.lock(rt).copy_more(PIECE) < PIECE {
            return;
        }
        thread::yield_now();
    }
}
