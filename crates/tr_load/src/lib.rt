//! The load: feeders that offer the same records in each run, and workers that drain them meanwhile, on one session; and the
//! text that says where the records are.
//!
//! # Example
//!
//! ```
//! let loaded = load(rt, alloc, threads, records, workers, watch, &NoProgress)?;  // settled, and judged by its feeders' logs
//! ```
//!
//! # What is proved
//!
//! - A load's plan, and what each feeder is to offer, is its definition's, item for item (`load_plan`: `session`, `books`,
//!   `watched`; `load_work`).
//! - A load that was settled is judged by its feeders' logs, each of which is that feeder's whole work, since its stream
//!   accepted every offer. They agree, the report has the sums over the streams, and as many records were offered as the load
//!   was asked for (`load`: `loaded` (`IsLoaded.are_logs`, `IsLoaded.judged`, `IsLoaded.agree`, `IsLoaded.offered`,
//!   `IsLoaded.own`)).
//! - Its session is stopped, was rotated once, at the moment that is the number of records, and nothing of it was cleared. No
//!   clause says whether it was rotated or stopped first (`load`: `loaded` (`IsLoaded.ended`, `IsLoaded.uncleared`)).
//! - If it is watched, a watcher learned of as many records as were offered (`load`: `watched`, `loaded` (`IsLoaded.learned`)).
//! - The report is exactly the text that its definition gives. Put to an output, it is written first; the archives of the
//!   session, or a prefix of them, follow even if the logs don't agree; or it failed, and nothing was made (`outcome_text`,
//!   `tell_load`).
//! - A gate ends a worker only between rounds, not before the first (within the crate `Rounds::before` (`IsLet`),
//!   `Paced::take_at` (`IsTaken`)).
//!
//! # What is only tested
//!
//! That threads run at once, and that a load's workers take anything. That a load ends isn't claimed, since it waits for locks.
//! Not promised by `load` are how many workers there are, when they end, how fast they go, and that anything was taken before
//! the rotation; whether the session was stopped before it was rotated; that a watcher says anything meanwhile; and which fault
//! it answers. So a `load` or a `load_plan` that always answers a fault would pass, and, within the crate, a gate that never
//! ends a worker, and a take that isn't made and answers that nothing waits.
//!
//! Examples show loads with their whole text, and an archive's files. Tests show 100,000 records of one feeder, of which the
//! worker takes more than the last rotation has; what a load shows meanwhile, up to the last record; the texts of both
//! mismatches; a load that is reported and archived, and an output that fails, after which nothing is made.
#![tactic(auto)]

mod ending;
mod gate;
mod loaded;
mod pace;
mod plan;
mod progress;
mod running;
mod sides;
mod target;
mod telling;
mod texts;
mod watching;
mod works;

pub use loaded::{LoadFault, Loaded};
pub use plan::load_plan;
pub use progress::{NoProgress, Progress};
pub use running::load;
pub use telling::tell_load;
pub use texts::{outcome_text, progress_text};
pub use works::load_work;
