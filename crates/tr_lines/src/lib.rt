//! The lines of a script and their words, however its source cuts them into pieces.
//! A [`LineReader`] takes the same memory for every script. Up to 16 words of a line take none ([`Words`]).
//!
//! # Example
//!
//! ```
//! let mut reader = LineReader::new(alloc)?;
//! let is_whole = reader.take_line()?;           // a line, if the whole of it came
//! let found = reader.read_on(&mut source)?;     // if not: a line, a broken one, or the end
//! ```
//!
//! # What is proved
//!
//! - Lines are read whole, however the source cuts them. A script that is too long is refused, so reading ends over every
//!   source. `take_line` asks no source, so whoever reads can answer all that came before more is asked for
//!   (`LineReader::take_line`: `whole`, `shrinks`, `begun`, `held`, `err`; `read_on`: `whole`, `shrinks`, `last`, `content`,
//!   `read`, `too_long`, `memory`, `no_failure`, `held`).
//! - The words of a line are the parts between spaces that aren't empty; a line that is empty or a comment is skipped; the text
//!   of a line that is there as a whole is found by the same rule (`push_words`: `ok`, `err`; `is_skipped_line`,
//!   `text_of_line`).
#![tactic(auto)]

mod line;
mod reader;
mod words;

pub use line::{has_only_printable, text_of_line};
pub use reader::{Found, LineReader, ReadFault};
pub use words::{Words, is_skipped_line, push_words};
