//! The schedule of a session's rotations.

ghost use Rattle.std.specs.Prelude.{◌≡◌, ◌≢◌, Some};
ghost use Rattle.tr_schedule.specs.Due.{total_of, is_elapsed, is_filled, due_cause};
ghost use Rattle.tr_schedule.specs.Schedules.{schedule_of};

use crate::cause::Cause;
use crate::faults::ScheduleFault;
use std::marker::Model;
use tr_terms::Moment;

/// The period and the size limit at which a rotation is due: either of them, both or none. Contracts see a `ScheduleState`.
#[derive(Clone, Copy, Debug, PartialEq, Eq)]
pub struct Schedule {
    every: Option<u64>,
    size: Option<u64>,
}

impl Model for Schedule {
    ghost use Rattle.std.specs.Prelude.{◌≢◌, Some};
    ghost use Rattle.tr_schedule.specs.Schedules.{ScheduleState, schedule_state};

    ghost Value = { ScheduleState };

    ghost view = { λ s. schedule_state s.every s.size };

    ghost invariant = { λ s. (s.every ≢ Some 0) × (s.size ≢ Some 0) };

    ghost inverse = { λ s. record { every = s.every; size = s.size } };
}

impl Schedule {
    /// A rotation every `every` nanoseconds, and at `size` bytes; without either number, it is never due for that cause.
    /// D1 ZeroPeriod: the period is zero, which is judged first. D2 ZeroSize: the size limit is zero.
    pub fn new(every: Option<u64>, size: Option<u64>) -> Result<Schedule, ScheduleFault>
        ensures { result ≡ schedule_of every size }
    {
        if every == Some(0) {
            return Err(ScheduleFault::ZeroPeriod);
        }
        if size == Some(0) {
            return Err(ScheduleFault::ZeroSize);
        }
        Ok(Schedule { every, size })
    }

    /// The period in nanoseconds, if there is one. It isn't zero.
    pub fn every(self) -> Option<u64>
        ensures value { result ≡ self.every }
        ensures positive { result ≢ Some 0 }
    {
        self.every
    }

    /// The size limit in bytes, if there is one. It isn't zero.
    pub fn size(self) -> Option<u64>
        ensures value { result ≡ self.size }
        ensures positive { result ≢ Some 0 }
    {
        self.size
    }

    /// Why a rotation is due now, if it is, for a chunk that began at `begin` and whose streams have these sizes in bytes.
    /// The period is judged first. The sum of the sizes stops at the greatest u64. It takes no memory.
    pub fn due(&self, begin: Moment, now: Moment, sizes: &[u64]) -> Option<Cause>
        ensures { result ≡ due_cause self.now begin now sizes.now }
    {
        if has_elapsed(self.every, begin, now) {
            return Some(Cause::Timer);
        }
        if has_filled(self.size, sizes) {
            return Some(Cause::Size);
        }
        None
    }
}

/// Whether a period that began at `begin` is over.
fn has_elapsed(every: Option<u64>, begin: Moment, now: Moment) -> bool
    ensures { result ≡ is_elapsed every begin now }
{
    let Some(period) = every else {
        return false;
    };
    let Some(elapsed) = now.get().checked_sub(begin.get()) else {
        return false;
    };
    period <= elapsed
}

/// Whether the sum of the sizes reaches the limit.
fn has_filled(limit: Option<u64>, sizes: &[u64]) -> bool
    ensures { result ≡ is_filled limit sizes.now }
{
    match limit {
        Some(limit) => limit <= total(sizes),
        None => false,
    }
}

/// The sum of the sizes, or the greatest u64 if it is more.
fn total(sizes: &[u64]) -> u64
    ensures { result ≡ total_of sizes.now }
{
    sizes
        .iter()
        .fold(0, |sum: u64, size| sum.saturating_add(*size))
}
