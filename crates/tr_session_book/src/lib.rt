//! The book of a recording session: what it keeps beside its streams. Its channels and threads, what it allows, its moments,
//! its rotations, archives and schedule; each call is proved to be a rule of the session.
//!
//! # Example
//!
//! ```
//! book.add_channel(&name, 4_096, 4, Mode::Discard)?;  // before the first start alone
//! let chunk = book.rotate_begin(moment)?;             // the chunk that this rotation closes
//! ```
//!
//! # What is proved
//!
//! - Each call is a rule of the session, with the refusals in their order. A refused call changes nothing, and "out of memory"
//!   comes only if the rule would go on (`SessionBook::add_channel`, `add_thread`, `declare`: `ok`, `refused`, `memory`,
//!   `unchanged`; `add_thread`: `number`; `thread_channel`: `named`, `placed`, `err`; `rotate_begin`: `value`, `no_memory`,
//!   `memory`; `clear_allowed`: `value`, `local`; `fits`, `events`).
//! - These take no memory (`SessionBook::start`, `stop`, `rotate_finish`, `snapshot_begin`, `set_schedule`, `note_cut`:
//!   `answer`, `after`).
//! - Only a local session has a pending rotation, with a place for its archive, and its end takes no memory
//!   (`SessionBook::cut_moment`: `local`, `room`; `pending`, `rotate_finish`: `local`).
//! - Archives are numbered by their places, from 0 on (`SessionBook::archives`, `pending`: `numbered` (`AreNumbered`)).
//! - No archive ends before it begins. Each ends when the next one begins, and the last one when the chunk of a pending
//!   rotation began, or else the current chunk; before the first start there is neither (`SessionBook::every_book_obeys`:
//!   `book` (`FollowInTime`), `within`; `thread_channel`: `bare`).
//! - Only `new` chooses the mode, and only `add_thread` adds a stream; there are at most `MOST_CHANNELS` channels and
//!   `MOST_STREAMS` streams (`SessionBook::add_channel`, `declare`, `start`, `stop`, `rotate_begin`, `rotate_finish`,
//!   `snapshot_begin`, `set_schedule`: `mode`, `streams`; `channels`, `streams`: `value`, `within`).
#![tactic(auto)]

mod archive;
mod book;
mod channel;
mod faults;
mod state;

pub use archive::{Archive, Pending};
pub use book::SessionBook;
pub use channel::Channel;
pub use faults::SessionFault;
pub use state::State;
