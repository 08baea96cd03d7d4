//! What lets workers take.

use std::marker::Model;

/// What is asked before each turn of a worker, and hears of it after it.
pub trait Gate {
    ghost use Rattle.std.specs.Prelude.{ℕ, Bool};

    // what it may answer before the turn of this number of the worker of this number
    ghost lets: { Self → ℕ → ℕ → Bool → Type 0 };

    /// Whether a worker may make a turn, both by their numbers, from 0 on. It ends where it may not.
    fn before(&self, worker: usize, turn: u64) -> bool
        ensures { lets self.now worker turn result };

    /// The worker made that turn.
    fn after(&self, worker: usize, turn: u64);
}
