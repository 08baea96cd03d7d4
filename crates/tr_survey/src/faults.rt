//! Why a survey ends before its text.

use std::alloc::{AllocError, AllocFailed};
use thiserror::Error;

/// Why a survey ends before its text is whole.
#[derive(Clone, Copy, Debug, PartialEq, Eq, Error)]
pub enum SurveyFault {
    /// No more bytes of files are given: their limit in all is reached.
    #[error("too much was read")]
    TooMuch,
    /// The text can't be written.
    #[error("the text can't be written")]
    Write,
    /// An allocation failed.
    #[error("no memory")]
    NoMemory,
}

impl From<AllocError> for SurveyFault {
    ghost use Rattle.std.specs.Prelude.{◌≡◌};
    ghost use Rattle.tr_survey.specs.declared.faults.SurveyFault.TheVariants.{NoMemory};

    ghost from_gives = { λ _ fault. fault ≡ NoMemory };

    fn from(_error: AllocError) -> SurveyFault {
        SurveyFault::NoMemory
    }
}

impl<T: Drop> From<AllocFailed<T>> for SurveyFault {
    ghost use Rattle.std.specs.Prelude.{◌≡◌};
    ghost use Rattle.tr_survey.specs.declared.faults.SurveyFault.TheVariants.{NoMemory};

    ghost from_gives = { λ _ fault. fault ≡ NoMemory };

    fn from(_error: AllocFailed<T>) -> SurveyFault {
        SurveyFault::NoMemory
    }
}

/// What a survey that came to its end says.
#[derive(Clone, Copy, Debug, PartialEq, Eq)]
pub enum Surveyed {
    /// The folder can't be read.
    Unlisted,
    /// It has no session.
    NoSession,
    /// It has sessions, and this is how many faults were reported.
    Faults(u64),
}
