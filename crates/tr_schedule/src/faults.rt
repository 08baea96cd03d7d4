//! Why a period and a size limit make no schedule.

ghost use Rattle.std.specs.Prelude.{◌≡◌};
ghost use Rattle.tr_schedule.specs.Schedules.{schedule_fault_code, schedule_fault_name};

use thiserror::Error;

/// Why a period and a size limit make no schedule.
#[derive(Clone, Copy, Debug, PartialEq, Eq, Error)]
#[error("{} {}", self.code(), self.name())]
pub enum ScheduleFault {
    /// The period is zero.
    ZeroPeriod,
    /// The size limit is zero.
    ZeroSize,
}

impl ScheduleFault {
    /// Its code in answers: `D1` or `D2`.
    pub fn code(self) -> &'static str
        ensures { result.now ≡ schedule_fault_code self }
    {
        match self {
            ScheduleFault::ZeroPeriod => "D1",
            ScheduleFault::ZeroSize => "D2",
        }
    }

    /// Its name in answers: `ZeroPeriod` or `ZeroSize`.
    pub fn name(self) -> &'static str
        ensures { result.now ≡ schedule_fault_name self }
    {
        match self {
            ScheduleFault::ZeroPeriod => "ZeroPeriod",
            ScheduleFault::ZeroSize => "ZeroSize",
        }
    }
}
