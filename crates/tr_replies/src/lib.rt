//! What a script's lines are answered, as texts: by the console of a script, and by the listener of a C program.
//!
//! # Example
//!
//! ```
//! let text = cleared_line(alloc, 5)?;                                  // "cleared 5\n"
//! let line = refusal_line(alloc, LineFault::NoSession)?;               // "refused K1 NoSession\n"
//! ```
//!
//! # What is proved
//!
//! Each is said of an answer; a failed allocation is answered as itself.
//!
//! - Each text is its definition's, byte for byte: of a refusal, of what a rotation, a clear and a release did, of a fate, and
//!   the lines of a status, of archives and of a snapshot (`refusal_line`, `archived_line`, `cleared_line`, `released_line`,
//!   `fate_line`, `status_begun`, `push_row`, `push_archive`, `snapshot_begun`, `push_stream`).
#![tactic(auto)]

mod archives;
mod line_fault;
mod one_line;
mod snapshots;
mod status;
mod texts;

pub use archives::push_archive;
pub use line_fault::{LineFault, from_session, from_step};
pub use one_line::{
    NamedArchive, ReplyText, archived_line, cleared_line, fate_line, released_line,
};
pub use snapshots::{push_stream, snapshot_begun};
pub use status::{push_row, status_begun};
pub use texts::{refusal_line, words_and_numbers};
