//! What workers take from.

ghost use Rattle.std.specs.Prelude.{◌≡◌, ◌<◌};

use std::sync::Wait;
use tr_stream::{TakeFault, Taken};

/// Streams from which workers take packets, each with a seat of its own.
pub trait Target {
    ghost use Rattle.std.specs.Prelude.{ℕ, Result};
    ghost use Rattle.tr_stream.specs.declared.answers.TakeFault.{TakeFault};
    ghost use Rattle.tr_stream.specs.declared.answers.Taken.{Taken};

    /// What a worker has.
    type Seat: Drop;

    // how many streams there are
    ghost stream_count: { Self → ℕ };

    // what a take from the stream of this number may answer, and make of the seat
    ghost takes: { Self → ℕ → Self.Seat → Result Taken TakeFault → Self.Seat → Type 0 };

    /// How many streams there are: their numbers are those below.
    fn streams(&self) -> usize
        ensures { result ≡ stream_count self.now };

    /// Takes a packet from the stream of number `i`.
    ///
    /// # Errors
    ///
    /// Those of the stream's take.
    fn take_at<R: Wait>(&self, rt: &R, seat: &mut Self::Seat, i: usize) -> Result<Taken, TakeFault>
        requires { i < stream_count self.now }
        ensures { takes self.now i seat.old result seat.new };
}
