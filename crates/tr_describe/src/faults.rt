//! Why archives aren't described, or not all of them.

use std::alloc::AllocError;
use thiserror::Error;

/// Why archives aren't described, or not all of them.
#[derive(Clone, Copy, Debug, PartialEq, Eq, Error)]
pub enum DescribeFault {
    /// No more bytes of files are given: their limit in all is reached.
    #[error("too much was read")]
    TooMuch,
    /// An archive's metadata can't be written.
    #[error("metadata can't be written")]
    Write,
    /// An allocation failed.
    #[error("no memory")]
    NoMemory,
}

impl From<AllocError> for DescribeFault {
    ghost use Rattle.std.specs.Prelude.{◌≡◌};
    ghost use Rattle.tr_describe.specs.declared.faults.DescribeFault.TheVariants.{NoMemory};

    ghost from_gives = { λ _ fault. fault ≡ NoMemory };

    fn from(_error: AllocError) -> DescribeFault {
        DescribeFault::NoMemory
    }
}
