//! What a C program holds across calls: a handle of a stream, of pages in reserve, of packets that were
//! removed, of a session's book, of declared events, a look or an audit.
//!
//! A handle is an address and a flag, and has a value on the heap or nothing. All zeros are a handle of nothing. Contracts see
//! what it has.
//!
//! # Example
//!
//! ```
//! let Some(mut stream) = handle.take(alloc) else {  // the handle has nothing now
//!     return CLOSED;
//! };
//! stream.set_active(true);
//! handle.put(stream);
//! ```
//!
//! # What is proved
//!
//! - What is taken out of a handle is what was put in, and the handle has nothing then. Its memory is freed with it
//!   (`StreamCell::put`, `BookCell::put`, `SnapCell::put`, `AuditCell::put`, `SparesCell::put`, `RemovedCell::put`,
//!   `EventsCell::put`; `StreamCell::take`, `BookCell::take`, `SnapCell::take`, `AuditCell::take`, `SparesCell::take`,
//!   `RemovedCell::take`, `EventsCell::take`: `value`, `closed`).
//! - `Held` is the same of any value and any heap. It is taken apart and put together in one place, and a handle is its three
//!   fields: no struct of C's may have a type parameter (`Held::nothing`, `of`, `into_box`).
//!
//! Each handle may pass between threads, since what it owns names no thread: its type is `Send`.
//!
//! # What the caller owes
//!
//! One call at a time is given a handle. C never copies one, and writes none but as zeros.
#![tactic(auto)]

mod audit_cell;
mod book_cell;
mod events_cell;
mod held;
mod removed_cell;
mod snap_cell;
mod spares_cell;
mod stream_cell;

pub use audit_cell::AuditCell;
pub use book_cell::BookCell;
pub use events_cell::EventsCell;
pub use held::Held;
pub use removed_cell::RemovedCell;
pub use snap_cell::SnapCell;
pub use spares_cell::SparesCell;
pub use stream_cell::StreamCell;
