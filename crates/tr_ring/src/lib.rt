//! A ring of sub-buffers: the current one takes records, the closed ones wait to be consumed, and the pages of those that
//! are gone are used again.
//! If none is free, either the newest record is discarded or the oldest closed sub-buffer is overwritten.
//!
//! # Example
//!
//! ```
//! let mut ring = Ring::new(alloc, 4_096, 4, false)?;       // discards when it is full
//! let pushed = ring.push(moment, id, serial, payload);     // takes no memory
//! ```
//!
//! # What is proved
//!
//! - A push is one of four cases and nothing else: the record joins the current sub-buffer; it begins a new one, which follows
//!   the current one; the oldest sub-buffer is overwritten; or the record is discarded (`Ring::push`: `answer`, `after`).
//! - The ring takes all its pages when it is made. It uses each again once its records are overwritten or cleared, and hands
//!   one out only for an empty one. So a push takes no memory, and has no answer for a failed allocation (`Ring::take_front`,
//!   `take_current`: `page`, `after`; `Ring`: invariant (`ArePages`)).
//! - After each call every page that has a record is, in memory, the text of the packet that it becomes, with its number and
//!   what was discarded, the current one's ending with its last record: so who finds the memory of a program that was killed
//!   finds its packets. In a free page there is no packet (`Ring::image`: `waiting`, `current`).
//! - The oldest goes, the current one is closed, all is cleared, a page's copy is handed out, and a record is found by its
//!   place, oldest first, or its packet by its serial, each as defined; so is how many wait, and of how many bytes each is
//!   (`Ring::size`: `value`, `sound`; `waiting`: `count`, `sound`; `drop_front`, `close_current`, `clear`, `record`, `seq_of`;
//!   `copied_out`, `current_copied_out`: `packet`, `same`).
//! - A copy that is begun, or goes on, changes nothing that contracts see (`Ring::begin_copy`, `copy_more`).
#![tactic(auto)]

mod closed;
mod items;
mod origin;
mod pushed;
mod ring;
mod sealed;

pub use closed::ClosedSubBuf;
pub use items::RingItems;
pub use origin::Origin;
pub use pushed::Pushed;
pub use ring::Ring;
