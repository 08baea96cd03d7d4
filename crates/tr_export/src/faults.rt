//! Why archives aren't written, or not all of them.

use std::alloc::AllocError;
use thiserror::Error;
use tr_chunk::WriteFault;
use tr_record::Failed;

/// Why archives aren't written, or not all of them.
#[derive(Clone, Copy, Debug, PartialEq, Eq, Error)]
pub enum ExportFault {
    /// A folder or a file couldn't be made, or a file couldn't be written.
    #[error("a folder or a file can't be written")]
    Write,
    /// An allocation failed.
    #[error("no memory")]
    NoMemory,
}

impl From<AllocError> for ExportFault {
    ghost use Rattle.std.specs.Prelude.{◌≡◌};
    ghost use Rattle.tr_export.specs.declared.faults.ExportFault.TheVariants.{NoMemory};

    ghost from_gives = { λ _ fault. fault ≡ NoMemory };

    fn from(_error: AllocError) -> ExportFault {
        ExportFault::NoMemory
    }
}

impl From<Failed> for ExportFault {
    ghost use Rattle.std.specs.Prelude.{◌≡◌};
    ghost use Rattle.tr_export.specs.declared.faults.ExportFault.TheVariants.{Write};

    ghost from_gives = { λ _ fault. fault ≡ Write };

    fn from(_error: Failed) -> ExportFault {
        ExportFault::Write
    }
}

impl From<WriteFault> for ExportFault {
    ghost use Rattle.std.specs.Prelude.{◌≡◌};
    ghost use Rattle.tr_export.specs.Faults.{export_fault_of};

    ghost from_gives = { λ given fault. fault ≡ export_fault_of given };

    fn from(fault: WriteFault) -> ExportFault {
        match fault {
            WriteFault::Write => ExportFault::Write,
            WriteFault::NoMemory => ExportFault::NoMemory,
        }
    }
}
