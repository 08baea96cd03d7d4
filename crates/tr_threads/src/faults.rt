//! Why threads were not set to work.

ghost use Rattle.std.specs.Prelude.{◌≡◌};
ghost use Rattle.tr_threads.specs.Faults.{pool_error_code, pool_error_name};

use thiserror::Error;

/// What was missing.
#[derive(Clone, Copy, PartialEq, Eq, Debug, Error)]
#[error("{} {}", self.code(), self.name())]
pub enum PoolError {
    /// The system gave fewer threads than were asked for.
    NoThread,
    /// An allocation failed.
    NoMemory,
}

impl PoolError {
    /// The code that documents call it by.
    pub fn code(&self) -> &'static str
        ensures { result.now ≡ pool_error_code self.now }
    {
        match self {
            PoolError::NoThread => "U1",
            PoolError::NoMemory => "U2",
        }
    }

    /// Its name.
    pub fn name(&self) -> &'static str
        ensures { result.now ≡ pool_error_name self.now }
    {
        match self {
            PoolError::NoThread => "NoThread",
            PoolError::NoMemory => "NoMemory",
        }
    }
}

/// Why threads were not set to work, and the seats that were given, in their order.
#[derive(Drop)]
pub struct PoolFault<S: Drop> {
    /// What was missing.
    pub fault: PoolError,
    /// All the seats.
    pub seats: Vec<S>,
}
