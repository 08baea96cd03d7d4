//! Ledgers and seats: a total under a lock, and the amounts that make it up, each in the hands of one holder.
//!
//! # Example
//!
//! ```
//! let (mut ledger, mut seat) = Ledger::open(alloc)?;  // total 0, and the whole seat
//! let mut other = ledger.split();                     // a seat with nothing yet
//! ledger.raise(&mut other, 3);                        // the total and that seat, by 3
//! ledger.join(&mut seat, other);                      // one seat with both amounts
//! ```
//!
//! # What is proved
//!
//! - A seat's amount is at most the total. If all seats of a ledger are joined in one, its amount is the total
//!   (`Ledger::raise`, `raise_by_one`, `join`, `audit`: `share` (`IsSeatOf`); `audit`: `same`; `AddsUp`: rule (`AreCounted`)).
//! - Only with the ledger at hand can a seat be changed: a raise moves its amount and the total alike, and a join or a new seat
//!   leaves the total as it is (`Ledger::raise`, `raise_by_one`, `split`, `join`: `ledger`, `seat`).
//! - A new ledger has total 0 and one whole seat. Only this takes memory. Each call asks for a seat of its own ledger, and that
//!   a count fits, so a caller that can't show it isn't proved (`Ledger::open`).
#![tactic(auto)]

mod ledger;
mod rule;
mod seating;

pub use ledger::{Ledger, Seat};
