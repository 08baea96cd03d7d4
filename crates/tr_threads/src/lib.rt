//! Threads at work: workers that take packets from streams, and feeders that offer records to them and log what is accepted.
//!
//! Threads begin together: each waits to read the word, which is given once all are started. If one can't be started, it
//! isn't given, and the others give their seats back unused. A contract promises less: each seat comes back as it was, or with
//! all of its own work done.
//!
//! # Example
//!
//! ```
//! let (fed, drainers) = feed_and_drain(rt, alloc, feeders, workers)?;  // all seats come back, in order
//! ```
//!
//! # What is proved
//!
//! - Each worker takes from its streams in rounds, each time after a gate let it, and ends when the gate doesn't, or after 2^62
//!   turns. All seats come back, in order (`drain_all`, `feed_and_drain`: `worked`).
//! - Each feeder offers its work in order, every item with its moment, its id and its payload; its log has the items that were
//!   accepted, and no others. All producers come back, in order (`feed`, `feed_and_drain`: `len`, `fed`;
//!   `LoggedProducer::into_items`: `producer`, `items`).
//! - If a thread or memory is missing, all seats come back too, in order: each as it was, or with its own work done; if an
//!   allocation failed, as it was (`drain_all`, `feed`: `came`, `memory`; `feed_and_drain`: `drainers`, `producers`, `memory`).
//! - What a target or an intake may answer is a relation of its own, which none of these calls knows
//!   (`Target::take_at`, `Intake::offer_with`).
//!
//! The same holds of workers and feeders side by side in one pool, as in a load. All this is proved for everything that can be
//! taken from and offered to (`Target`, `Intake`), of which a shared session is one instance. So an answer can only be that of
//! a call that was made with these values.
//!
//! # What is only tested
//!
//! That a shared session's offers and takes reach the stream under its lock; that threads run at once. Not promised are:
//!
//! - when a thread or memory is missing: a call that always answers so, and gives all seats back, meets its contract;
//! - that no thread did its work if another was missing;
//! - that a gate is called after a turn, and with which; how many feeders are at work, which `feed_and_drain` counts for its
//!   gate;
//! - that an offer or a take is accepted.
//!
//! Tests (tr_shared_tests: `feeding.rt`, `gates.rt`, `intakes.rt`) show records of all lengths, an intake that refuses some,
//! workers that wait for each other, each turn asked of its gate and reported to it, and feeders that are counted as at work.
//! In no test does an allocation of a pool fail, since it takes its memory from the C library alone: what comes back then is
//! proved (`memory`), and `.ci/under-fire` runs the program with too little.
#![tactic(auto)]

mod draining;
mod faults;
mod feeding;
mod gate;
mod intake;
mod items;
mod sides;
mod target;
mod threads;
mod together;
mod turns;
mod work;
mod worker;

pub use draining::drain_all;
pub use faults::{PoolError, PoolFault};
pub use feeding::{LoggedProducer, feed};
pub use gate::Gate;
pub use intake::Intake;
pub use items::{Item, Items};
pub use sides::SidesFault;
pub use target::Target;
pub use together::{Feeders, Workers, feed_and_drain};
