//! Schedules: when a rotation of a session is due.
//!
//! # Example
//!
//! ```
//! let schedule = Schedule::new(Some(100), Some(4_096))?;       // after 100 nanoseconds, or at 4,096 bytes
//! let cause = schedule.due(chunk_begin, now, &current_sizes);  // the timer, the size, or none
//! ```
//!
//! # What is proved
//!
//! - A rotation is due by the timer if the chunk is as old as the period or older; else by size if the sum of the sizes is at
//!   the limit or above; else it isn't due. The sum stops at the greatest 64-bit number (`Schedule::due` (`due_cause`)).
//! - A period of zero is refused (D1), or else a limit of zero (D2) (`Schedule::new` (`schedule_of`); `every`, `size`: `value`,
//!   `positive`).
//!
//! # What is only tested
//!
//! Nothing. Tests add a period and a limit one below and at their numbers, a moment before the chunk's beginning, and sums
//! beyond the greatest number.
#![tactic(auto)]

mod cause;
mod faults;
mod schedule;

pub use cause::Cause;
pub use faults::ScheduleFault;
pub use schedule::Schedule;
