//! Why a text isn't written.

ghost use Rattle.std.specs.Prelude.{◌≡◌};
ghost use Rattle.tr_chunk.specs.Faults.{write_fault_code, write_fault_name};

use std::alloc::AllocError;
use thiserror::Error;
use tr_record::Failed;

/// Why a text isn't written, or not all of it.
#[derive(Clone, Copy, Debug, PartialEq, Eq, Error)]
#[error("{} {}", self.code(), self.name())]
pub enum WriteFault {
    /// The sink failed.
    Write,
    /// An allocation failed.
    NoMemory,
}

impl WriteFault {
    /// The code that documents call it by.
    pub fn code(&self) -> &'static str
        ensures { result.now ≡ write_fault_code self.now }
    {
        match self {
            WriteFault::Write => "W1",
            WriteFault::NoMemory => "W2",
        }
    }

    /// Its name in documents.
    pub fn name(&self) -> &'static str
        ensures { result.now ≡ write_fault_name self.now }
    {
        match self {
            WriteFault::Write => "Write",
            WriteFault::NoMemory => "NoMemory",
        }
    }
}

impl From<AllocError> for WriteFault {
    ghost use Rattle.std.specs.Prelude.{◌≡◌};
    ghost use Rattle.tr_chunk.specs.declared.faults.WriteFault.TheVariants.{NoMemory};

    ghost from_gives = { λ _ fault. fault ≡ NoMemory };

    fn from(_error: AllocError) -> WriteFault {
        WriteFault::NoMemory
    }
}

impl From<Failed> for WriteFault {
    ghost use Rattle.std.specs.Prelude.{◌≡◌};
    ghost use Rattle.tr_chunk.specs.declared.faults.WriteFault.TheVariants.{Write};

    ghost from_gives = { λ _ fault. fault ≡ Write };

    fn from(_error: Failed) -> WriteFault {
        WriteFault::Write
    }
}
