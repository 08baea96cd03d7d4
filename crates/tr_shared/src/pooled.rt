//! What the threads of a pool do with a shared session: feeders offer to it, and workers take from it.

use crate::seats::{Offers, Takes};
use crate::shared::Shared;
use std::sync::Wait;
use tr_seats::{Drainer, Names, Producer};
use tr_stream::{OfferFault, Offered, TakeFault, Taken};
use tr_terms::Moment;
use tr_threads::{Intake, Target};

impl<N: Names> Intake for Shared<N> {
    ghost use Rattle.tr_shared.specs.Calls.{IsOffered};

    type Seat = Producer<N>;

    ghost offers = { λ _. IsOffered };

    fn offer_with<R: Wait>(
        &self,
        rt: &R,
        seat: &mut Producer<N>,
        moment: Moment,
        id: u32,
        payload: &[u8],
    ) -> Result<Offered, OfferFault> {
        seat.offer(rt, self, moment, id, payload)
    }
}

impl<N: Names> Target for Shared<N> {
    ghost use Rattle.std.specs.Prelude.{length};
    ghost use Rattle.tr_shared.specs.Calls.{IsTaken};

    type Seat = Drainer<N>;

    ghost stream_count = { λ _. length N.plan.books };

    ghost takes = { λ _. IsTaken };

    fn streams(&self) -> usize {
        self.streams()
    }

    fn take_at<R: Wait>(
        &self,
        rt: &R,
        seat: &mut Drainer<N>,
        i: usize,
    ) -> Result<Taken, TakeFault> {
        seat.take(rt, self, i)
    }
}
