//! How recovering ends.

use std::alloc::AllocError;
use thiserror::Error;
use tr_export::ExportFault;

/// Why what stands in an image isn't recovered, or not all of it.
#[derive(Clone, Copy, Debug, PartialEq, Eq, Error)]
pub enum RecoverFault {
    /// No more bytes of files are given: their limit in all is reached.
    #[error("too much was read")]
    TooMuch,
    /// What is said can't be written, or the archive can't.
    #[error("a text, a folder or a file can't be written")]
    Write,
    /// An allocation failed.
    #[error("no memory")]
    NoMemory,
}

impl From<AllocError> for RecoverFault {
    ghost use Rattle.std.specs.Prelude.{◌≡◌};
    ghost use Rattle.tr_recover.specs.declared.faults.RecoverFault.TheVariants.{NoMemory};

    ghost from_gives = { λ _ fault. fault ≡ NoMemory };

    fn from(_error: AllocError) -> RecoverFault {
        RecoverFault::NoMemory
    }
}

impl From<ExportFault> for RecoverFault {
    ghost use Rattle.std.specs.Prelude.{◌≡◌};
    ghost use Rattle.tr_recover.specs.Recovering.{fault_of};

    ghost from_gives = { λ given fault. fault ≡ fault_of given };

    fn from(fault: ExportFault) -> RecoverFault {
        match fault {
            ExportFault::Write => RecoverFault::Write,
            ExportFault::NoMemory => RecoverFault::NoMemory,
        }
    }
}

/// What recovering came to.
#[derive(Clone, Copy, Debug, PartialEq, Eq)]
pub enum Recovered {
    /// There is no image, or it can't be read.
    Unreadable,
    /// No packet of a trace stands there, or none of the trace that is wanted.
    Nothing,
    /// The archive is written.
    Done,
}
