//! What the owner of a seat does with a shared session: producers offer to it, and drainers take from it.

ghost use Rattle.std.specs.Prelude.{◌<◌, length};

use crate::shared::Shared;
use crate::stocking::stock_for_take;
use std::alloc::Allocator;
use std::sync::Wait;
use tr_seats::{Drainer, Names, Producer};
use tr_stream::{OfferFault, Offered, TakeFault, Taken};
use tr_terms::Moment;

/// Seats that offer records to a shared session.
pub trait Offers<N: Names, A: Allocator> {
    ghost use Rattle.std.specs.Prelude.{ℕ, List, Result};
    ghost use Rattle.tr_stream.specs.declared.answers.OfferFault.{OfferFault};
    ghost use Rattle.tr_stream.specs.declared.answers.Offered.{Offered};

    // what an offer of a record may answer, by its moment, its id and its payload, and make of the seat
    ghost offered: { Self → ℕ → ℕ → List ℕ → Result Offered OfferFault → Self → Type 0 };

    /// Offers a record to the seat's stream, as `Slot::offer` does, under that stream's lock alone: when its event happened,
    /// the kind of the event, and its bytes. When the lock is given back, a producer publishes how many of its offers were
    /// accepted.
    ///
    /// # Errors
    ///
    /// `OtherLayout` if the record's id is declared and its payload doesn't fit: no lock is taken, and the seat has no such offer.
    /// Those of `Slot::offer`: nothing changed.
    fn offer<R: Wait>(
        &mut self,
        rt: &R,
        shared: &Shared<N, A>,
        moment: Moment,
        id: u32,
        payload: &[u8],
    ) -> Result<Offered, OfferFault>
        ensures { offered self.old moment id payload.now result self.new };
}

/// Seats that take packets from a shared session.
pub trait Takes<N: Names, A: Allocator> {
    ghost use Rattle.std.specs.Prelude.{ℕ, Result};
    ghost use Rattle.tr_stream.specs.declared.answers.TakeFault.{TakeFault};
    ghost use Rattle.tr_stream.specs.declared.answers.Taken.{Taken};

    // what a take from the stream of this number may answer, and make of the seat
    ghost taken: { Self → ℕ → Result Taken TakeFault → Self → Type 0 };

    /// Takes a packet from the stream of number `i`, as `Slot::take` does, under that stream's lock alone.
    ///
    /// # Errors
    ///
    /// Those of `Slot::take`: nothing changed.
    fn take<R: Wait>(&mut self, rt: &R, shared: &Shared<N, A>, i: usize) -> Result<Taken, TakeFault>
        requires { i < length N.plan.books }
        ensures { taken self.old i result self.new };
}

impl<N: Names, A: Allocator + Copy> Offers<N, A> for Producer<N, A> {
    ghost use Rattle.tr_shared.specs.Calls.{IsOfferTo};

    ghost offered = { IsOfferTo N.plan };

    fn offer<R: Wait>(
        &mut self,
        rt: &R,
        shared: &Shared<N, A>,
        moment: Moment,
        id: u32,
        payload: &[u8],
    ) -> Result<Offered, OfferFault> {
        let answer = if shared.events.fits(id, payload) {
            let lock = &shared.slots[self.stream()];
            // this is put into the caller, where `lock` stays a call
            let mut slot = match lock.try_lock() {
                Some(slot) => slot,
                None => lock.lock(rt),
            };
            let answer = slot.offer(self, moment, id, payload);
            // watchers may read the count once others may take the lock
            drop(slot);
            answer
        } else {
            Err(OfferFault::OtherLayout)
        };
        self.publish();
        answer
    }
}

impl<N: Names, A: Allocator + Copy> Takes<N, A> for Drainer<N, A> {
    ghost use Rattle.tr_shared.specs.Calls.{IsTakeFrom};

    ghost taken = { IsTakeFrom N.plan };

    fn take<R: Wait>(
        &mut self,
        rt: &R,
        shared: &Shared<N, A>,
        i: usize,
    ) -> Result<Taken, TakeFault> {
        let lock = &shared.slots[i];
        stock_for_take(rt, lock);
        let mut slot = lock.lock(rt);
        slot.shows_planned();
        slot.take(self, i)
    }
}
