//! Records of a trace and their bytes, and the traits by which bytes come in and go out.
//!
//! The text of a record is its bytes, as `docs/FORMATS.md` lays them out.
//!
//! # Example
//!
//! ```
//! put_rec(&mut bytes, &record)?;             // appends the record's text
//! let found = read_rec(&bytes);  // the record and its length, or None
//! ```
//!
//! # What is proved
//!
//! - A record's bytes are exactly its text. A record is read if and only if the input begins with such a text; by `read_raw`
//!   whatever its moment (`put_rec`, `put_bytes`: `items`; `read_rec`: `found`, `only`; `read_raw`: `found`, `only`, `exact`).
//! - Bytes are read as records exactly if they are these records' texts, end to end (`Records::new`, `has`; `checked`: `exact`,
//!   `value`; `text`: `text`, `whole`, `records`; `whole_records_are_read`: `found`, `only`).
//! - A record has what it was made of, and fits (`Rec::new`, `copy_of`, `view`, `serial`, `moment`, `id`, `payload`, `size`:
//!   `value`, `fits`; `RecView::new`, `serial`, `moment`, `id`, `payload`, `size`: `value`, `fits`).
//! - Sources and sinks say what they gave and took. They give what was read and take what is written, if the standard library
//!   knows the bytes; in memory in pieces of a size (`ByteSource::get`: `given`, `content`, `count`, `end`, `ok`, `err`,
//!   `failed`; `ByteSink::put`: `taken`, `some`, `count`, `ok`, `err`, `failed`; `ReaderSource::new`: `reader`, `failures`;
//!   `get`: `read`; `WriterSink::new`: `writer`, `failures`; `put`: `written`; `flush`: `kept`; `MemorySource::new`, `get`:
//!   `piece`; `MemorySink::new`, `put`: `piece`).
//! - `put_all` gives all bytes to a sink, which didn't fail then, or a prefix of them to a sink that failed in that call
//!   (`put_all`: `ok`, `err`, `failed`, `no_failure`).
//!
//! # What is only tested
//!
//! That a read or a write that is interrupted is a failure and isn't tried again, and that no failure is made up: the standard
//! library's readers and writers report none, so a `get` or `put` that tries again, or fails without having asked, meets its
//! contract. So does a `flush` that does nothing or passes over a failure, and a `MemorySink::put` that fails though memory is
//! there. Tests show each of these. Of real files and terminals nothing is known.
#![tactic(auto)]

mod bytes;
pub mod laws;
mod memory;
mod raw;
mod reading;
mod rec_views;
mod record;
mod records;
mod streams;
mod view;
mod writing;

pub use bytes::{ByteSink, ByteSource, Failed, put_all};
pub use memory::{MemorySink, MemorySource};
pub use raw::RawRec;
pub use reading::{read_raw, read_rec, u32_at, u64_at};
pub use rec_views::RecViews;
pub use record::Rec;
pub use records::Records;
pub use streams::{ReaderSource, WriterSink};
pub use tr_terms::Moment;
pub use view::RecView;
pub use writing::{put_bytes, put_rec, rec_size};
