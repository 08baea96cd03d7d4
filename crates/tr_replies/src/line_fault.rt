//! Why a line is refused.

ghost use Rattle.std.specs.Prelude.{◌≡◌};
ghost use Rattle.tr_replies.specs.LineFaults.{from_session, from_step, line_fault_code, line_fault_name, wants_memory};

use thiserror::Error;
use tr_schedule::ScheduleFault;
use tr_session::StepFault;
use tr_session_book::SessionFault;

/// Why a line is refused: by the console, by a session, or by a stream. Nothing changed, unless an allocation failed: then a
/// rotation may be pending, a clear may have cleared the first streams, and a release may have released some parts.
#[derive(Clone, Copy, Debug, PartialEq, Eq, Error)]
#[error("{} {}", self.code(), self.name())]
pub enum LineFault {
    /// There is no session of this name.
    NoSession,
    /// The text is no UUID.
    BadUuid,
    /// What is to be created can't have this name.
    BadName,
    /// There is no such schedule.
    Schedule(ScheduleFault),
    /// The session refused, or the console did with a session's fault.
    Session(SessionFault),
    /// The session or the stream refused a step.
    Step(StepFault),
}

impl LineFault {
    /// The code that answers and documents call it by.
    pub fn code(&self) -> &'static str
        ensures { result.now ≡ line_fault_code self.now }
    {
        match self {
            LineFault::NoSession => "K1",
            LineFault::BadUuid => "K2",
            LineFault::BadName => "K3",
            LineFault::Schedule(fault) => fault.code(),
            LineFault::Session(fault) => fault.code(),
            LineFault::Step(fault) => fault.code(),
        }
    }

    /// Its name, as answers print it.
    pub fn name(&self) -> &'static str
        ensures { result.now ≡ line_fault_name self.now }
    {
        match self {
            LineFault::NoSession => "NoSession",
            LineFault::BadUuid => "BadUuid",
            LineFault::BadName => "BadName",
            LineFault::Schedule(fault) => fault.name(),
            LineFault::Session(fault) => fault.name(),
            LineFault::Step(fault) => fault.name(),
        }
    }

    /// Whether an allocation failed, which ends the run.
    pub fn wants_memory(&self) -> bool
        ensures { result ≡ wants_memory self.now }
    {
        match self {
            LineFault::Session(fault) => fault.wants_memory(),
            LineFault::Step(fault) => fault.wants_memory(),
            _ => false,
        }
    }
}

/// What a session answered, as the line's call does.
pub fn from_session<R>(answer: Result<R, SessionFault>) -> Result<R, LineFault>
    ensures { result ≡ from_session answer }
{
    match answer {
        Ok(done) => Ok(done),
        Err(fault) => Err(LineFault::Session(fault)),
    }
}

/// What a step answered, as the line's call does.
pub fn from_step<R>(answer: Result<R, StepFault>) -> Result<R, LineFault>
    ensures { result ≡ from_step answer }
{
    match answer {
        Ok(done) => Ok(done),
        Err(fault) => Err(LineFault::Step(fault)),
    }
}
