//! A pool of feeders and workers on a shared session: feeders offer records and log what is accepted, workers take packets,
//! and what was logged is reconciled with what the settled session holds.
//!
//! # Example
//!
//! ```
//! match reconcile(&settled, &logs) {
//!     Ok(report) => {}     // each record that the session holds is the one that its feeder logged
//!     Err(mismatch) => {}  // the first stream at fault, and its least serial that is wrong
//! }
//! ```
//!
//! # What is proved
//!
//! - A settled session and the logs agree if and only if each stream's first log has an item for each of its offers, and each
//!   record that the stream holds has the id and the payload of the item at its serial, and no lesser moment. Otherwise the
//!   first stream at fault is named: its log's length, or else the least wrong serial. The report has the streams' sums. It
//!   takes no memory (`reconcile`: `agree` (`AgreeBelow`), `wrong` (`IsFirstWrong`), `report` (`report_of`)).
//! - The logs of producers that were fed agree with the session that these settle (`every_reconciling`: `agree`,
//!   `nothing_wrong`; `Logged::into_parts`: `producer`, `stream`, `items`).
//!
//! That a producer of a shared session has offered as many records more as its feeder's log has items is `every_feed` of
//! tr_shared.
//!
//! # What is only tested
//!
//! Nothing. Tests add a log that agrees, one with another id, a shorter one, and no log.
#![tactic(auto)]

mod judging;
mod laws;
mod log;
mod reconciling;
mod report;

pub use laws::every_reconciling;
pub use log::{Log, Logged};
pub use reconciling::reconcile;
pub use report::{Mismatch, Report};
// Feeders and workers in threads, whatever they offer to and take from.
pub use tr_threads::{
    Feeders, Gate, Intake, Item, Items, LoggedProducer, PoolError, PoolFault, SidesFault, Target,
    Workers, drain_all, feed, feed_and_drain,
};
