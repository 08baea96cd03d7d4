//! Tallies: for each stream a count that its teller publishes, and that watchers read while it does. No call waits.
//!
//! # Example
//!
//! ```
//! let (_, mut tellers, mut watchers) = Tally::new(alloc, 2, 1)?;  // two streams, one watcher
//! tellers[0].publish(7);
//! let count = watchers[0].read(0);                                // a count that was published on stream 0
//! ```
//!
//! # What is proved
//!
//! - What a watcher answers for a stream is a count that was published there, or 0, and never less than what it answered
//!   before. Its answers for other streams stay (`Watcher::read`: `rises`, `kept`; `Tells`: rule (`IsTold`)).
//! - A publish sets the last count of its teller alone. A note has what its teller had published last, and a watcher that
//!   learns of it answers no less, for one of the streams (`Teller::publish`; `note`: `note`, `teller`; `Teller`: invariant
//!   (`IsListed`); `Watcher::learn`: `noted`, `stream`, `rises`, `kept`).
//! - If a stream's teller is at hand, a watcher's last answer for it is no more than its count (`Watcher::audit`: `within`,
//!   `same`).
//! - A new tally's tellers are at 0, and so are its watchers' answers. Only this takes memory, and no call waits: none has a
//!   handle by which it could (`Tally::new`: `tally`, `tellers`, `watchers`).
//!
//! # What is only tested
//!
//! That a watcher reads what was published last: one that keeps a copy of its last answers and gives these for ever meets the
//! clauses of `read`. Tests show it alone and in threads, until each watcher has seen the last counts. No clause says how far
//! apart words lie in memory, or that nothing is stored where nobody watches or the count is the last one again.
#![tactic(auto)]

mod note;
mod opener;
mod rule;
mod tally;
mod teller;
mod watcher;
mod words;

pub use note::Note;
pub use tally::Tally;
pub use teller::Teller;
pub use watcher::Watcher;
