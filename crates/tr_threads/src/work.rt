//! The work of one thread among several.

use std::sync::Wait;

/// What each of several threads does with a seat of its own.
pub(crate) trait Work {
    ghost use Rattle.std.specs.Prelude.{ℕ};

    /// What a thread has.
    type Seat: Drop;

    // what the thread of this number may make of its seat
    ghost did: { Self → ℕ → Self.Seat → Self.Seat → Type 0 };

    /// The work of the thread of this number.
    fn run<R: Wait>(&self, rt: &R, worker: usize, seat: Self::Seat) -> Self::Seat
        ensures { did self.now worker seat result };
}
