//! Journals: what was done under a lock, one thing after another, and seats that know what their own holders did. It is all
//! known to contracts alone: no entry is ever made, and a seat has no bytes.
//!
//! # Example
//!
//! ```
//! let (mut journal, mut producer) = Journal::<E, A>::open(alloc)?;  // its first seat, of number 0
//! let mut desk = journal.split();                                   // the next one
//! journal.note::<K>(&mut desk);                                     // its holder did what K says
//! ```
//!
//! # What is proved
//!
//! - A note adds one line to the journal, with the seat's number, and its entry to the seat's own list, and nothing else. New
//!   seats are numbered on, and a joined one brings its lists (`Journal::note`, `split`, `join`: `journal`, `seat`).
//! - A seat's list is all that the journal has of its number. If all seats are joined in one, each line is in one of their
//!   lists, and in one alone; what only one seat notes is all in its list, in order (`Journal::note`, `join`, `audit`: `own`
//!   (`IsSeatOf`); `audit`: `same`; `every_journal`: `whole`, `among` (`AreAllOf`), `alone`; `Agrees`: rule (`AreOne`)).
//! - A new journal has no line, and seat 0. Only this takes memory (`Journal::open`).
//!
//! # What is only tested
//!
//! Nothing. That a note costs three plain loads is in no clause.
#![tactic(auto)]

mod journal;
mod laws;
mod rule;
mod seating;

pub use journal::{Journal, Seat};
pub use laws::every_journal;
pub use rule::{Line, Log, Noted, Part, View};
