//! Why steps of a session's streams are refused.

ghost use Rattle.std.specs.Prelude.{◌≡◌, Err};
ghost use Rattle.tr_session.specs.Faults.{step_fault_code, step_fault_name, step_wants_memory};
ghost use Rattle.tr_session.specs.Steps.{clear_as_session, release_as_session};

use thiserror::Error;
use tr_session_book::SessionFault;
use tr_stream::{ClearFault, CutFault, OfferFault, ReleaseFault, TakeFault};

/// Why a step of a stream was refused: by the session, or by the stream. Nothing changed.
#[derive(Clone, Copy, Debug, PartialEq, Eq, Error)]
#[error("{} {}", self.code(), self.name())]
pub enum StepFault {
    /// The session refused the step.
    Session(SessionFault),
    /// The stream refused an offer.
    Offer(OfferFault),
    /// The stream refused a take.
    Take(TakeFault),
    /// The stream refused a cut.
    Cut(CutFault),
}

impl StepFault {
    /// Whether an allocation failed.
    pub fn wants_memory(&self) -> bool
        ensures { result ≡ step_wants_memory self.now }
    {
        match self {
            StepFault::Session(fault) => fault.wants_memory(),
            StepFault::Offer(_) => false,
            StepFault::Take(fault) => *fault == TakeFault::NoMemory,
            StepFault::Cut(fault) => *fault == CutFault::NoMemory,
        }
    }

    /// The code that answers and documents call it by.
    pub fn code(&self) -> &'static str
        ensures { result.now ≡ step_fault_code self.now }
    {
        match self {
            StepFault::Session(fault) => fault.code(),
            StepFault::Offer(fault) => fault.code(),
            StepFault::Take(fault) => fault.code(),
            StepFault::Cut(fault) => fault.code(),
        }
    }

    /// Its name, as answers print it.
    pub fn name(&self) -> &'static str
        ensures { result.now ≡ step_fault_name self.now }
    {
        match self {
            StepFault::Session(fault) => fault.name(),
            StepFault::Offer(fault) => fault.name(),
            StepFault::Take(fault) => fault.name(),
            StepFault::Cut(fault) => fault.name(),
        }
    }
}

/// Why a session's stream isn't cleared, as the session answers it.
pub fn clear_fault(fault: ClearFault) -> SessionFault
    ensures { clear_as_session (Err fault) ≡ Err result }
{
    match fault {
        ClearFault::SnapshotMode => SessionFault::SnapshotMode,
        ClearFault::NoMemory => SessionFault::NoMemory,
    }
}

/// Why a session's stream doesn't release a part, as the session answers it.
pub fn release_fault(fault: ReleaseFault) -> SessionFault
    ensures { release_as_session (Err fault) ≡ Err result }
{
    match fault {
        ReleaseFault::NoPart => SessionFault::NoArchive,
        ReleaseFault::Released => SessionFault::Released,
        ReleaseFault::NoMemory => SessionFault::NoMemory,
    }
}

impl From<SessionFault> for StepFault {
    ghost use Rattle.std.specs.Prelude.{◌≡◌};
    ghost use Rattle.tr_session.specs.declared.faults.StepFault.TheVariants.{Session};

    ghost from_gives = { λ reason fault. fault ≡ Session reason };

    fn from(reason: SessionFault) -> StepFault {
        StepFault::Session(reason)
    }
}

impl From<OfferFault> for StepFault {
    ghost use Rattle.std.specs.Prelude.{◌≡◌};
    ghost use Rattle.tr_session.specs.declared.faults.StepFault.TheVariants.{Offer};

    ghost from_gives = { λ reason fault. fault ≡ Offer reason };

    fn from(reason: OfferFault) -> StepFault {
        StepFault::Offer(reason)
    }
}

impl From<TakeFault> for StepFault {
    ghost use Rattle.std.specs.Prelude.{◌≡◌};
    ghost use Rattle.tr_session.specs.declared.faults.StepFault.TheVariants.{Take};

    ghost from_gives = { λ reason fault. fault ≡ Take reason };

    fn from(reason: TakeFault) -> StepFault {
        StepFault::Take(reason)
    }
}

impl From<CutFault> for StepFault {
    ghost use Rattle.std.specs.Prelude.{◌≡◌};
    ghost use Rattle.tr_session.specs.declared.faults.StepFault.TheVariants.{Cut};

    ghost from_gives = { λ reason fault. fault ≡ Cut reason };

    fn from(reason: CutFault) -> StepFault {
        StepFault::Cut(reason)
    }
}
