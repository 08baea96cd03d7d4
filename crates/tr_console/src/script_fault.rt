//! Why a run of a script ends early.

ghost use Rattle.std.specs.Prelude.{◌≡◌};
ghost use Rattle.tr_console.specs.ScriptFaults.{script_fault_code, script_fault_name};

use std::alloc::AllocError;
use thiserror::Error;
use tr_lines::ReadFault;
use tr_record::Failed;

/// Why a run of a script ended early. No line was run after it.
#[derive(Clone, Copy, Debug, PartialEq, Eq, Error)]
#[error("{} {}", self.code(), self.name())]
pub enum ScriptFault {
    /// The source failed. All whole lines before are answered, and the one that broke off isn't.
    Read,
    /// The script has more than `LONGEST_SCRIPT` bytes. All whole lines within these are answered.
    TooLong,
    /// The sink failed. A prefix of the answer went out.
    Write,
    /// An allocation failed. A prefix of the lines that were read whole is answered, each of them whole: at least all but one
    /// of those that end before the last `LONGEST_PIECE` bytes that were read.
    NoMemory,
}

impl ScriptFault {
    /// The code that documents call it by.
    pub fn code(&self) -> &'static str
        ensures { result.now ≡ script_fault_code self.now }
    {
        match self {
            ScriptFault::Read => "Q1",
            ScriptFault::TooLong => "Q2",
            ScriptFault::Write => "Q3",
            ScriptFault::NoMemory => "Q4",
        }
    }

    /// Its name: `Read`, `TooLong`, `Write` or `NoMemory`.
    pub fn name(&self) -> &'static str
        ensures { result.now ≡ script_fault_name self.now }
    {
        match self {
            ScriptFault::Read => "Read",
            ScriptFault::TooLong => "TooLong",
            ScriptFault::Write => "Write",
            ScriptFault::NoMemory => "NoMemory",
        }
    }
}

impl From<ReadFault> for ScriptFault {
    ghost use Rattle.tr_console.specs.ScriptFaults.{reading_fault};

    ghost from_gives = { λ read fault. fault ≡ reading_fault read };

    fn from(fault: ReadFault) -> ScriptFault {
        match fault {
            ReadFault::Read => ScriptFault::Read,
            ReadFault::TooLong => ScriptFault::TooLong,
            ReadFault::NoMemory => ScriptFault::NoMemory,
        }
    }
}

impl From<Failed> for ScriptFault {
    ghost use Rattle.tr_console.specs.declared.script_fault.ScriptFault.TheVariants.{Write};

    ghost from_gives = { λ _ fault. fault ≡ Write };

    fn from(_failed: Failed) -> ScriptFault {
        ScriptFault::Write
    }
}

impl From<AllocError> for ScriptFault {
    ghost use Rattle.tr_console.specs.declared.script_fault.ScriptFault.TheVariants.{NoMemory};

    ghost from_gives = { λ _ fault. fault ≡ NoMemory };

    fn from(_error: AllocError) -> ScriptFault {
        ScriptFault::NoMemory
    }
}
