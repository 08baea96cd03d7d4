//! What feeders offer to.

use std::sync::Wait;
use tr_stream::{OfferFault, Offered};
use tr_terms::Moment;

/// Streams to which feeders offer records, each with a seat of its own.
pub trait Intake {
    ghost use Rattle.std.specs.Prelude.{ℕ, List, Result};
    ghost use Rattle.tr_stream.specs.declared.answers.OfferFault.{OfferFault};
    ghost use Rattle.tr_stream.specs.declared.answers.Offered.{Offered};

    /// What a feeder has.
    type Seat: Drop;

    // what an offer of a record may answer, by its moment, its id and its payload, and make of the seat
    ghost offers: { Self → Self.Seat → ℕ → ℕ → List ℕ → Result Offered OfferFault → Self.Seat → Type 0 };

    /// Offers a record with this seat: when its event happened, the kind of the event, and its bytes.
    ///
    /// # Errors
    ///
    /// Those of the stream's offer.
    fn offer_with<R: Wait>(
        &self,
        rt: &R,
        seat: &mut Self::Seat,
        moment: Moment,
        id: u32,
        payload: &[u8],
    ) -> Result<Offered, OfferFault>
        ensures { offers self.now seat.old moment id payload.now result seat.new };
}
