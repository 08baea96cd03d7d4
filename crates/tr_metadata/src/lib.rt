//! The metadata of a session with declared events, and what a reader of CTF reads by it.
//!
//! # Example
//!
//! ```
//! let text = metadata_text(alloc, &events, &uuid)?;
//! ```
//!
//! # What is proved
//!
//! - By typed metadata a short model of a reader of CTF reads every packet as exactly its records, in order, each with its
//!   values; records of undeclared ids with all their bytes
//!   (`packets_are_read`, `files_are_read`).
//! - The metadata text is byte for byte the defined one, and without declared events the one of records alone
//!   (`metadata_text`, `nothing_declared`).
//! - The events that a metadata text declares are those that it was made of, and a text is known to be of its own events, or
//!   not (`declared_in`, `declarations_stand`, `is_text_of`).
//!
//! # What is only tested
//!
//! That readers of CTF read as the model does.
#![tactic(auto)]

mod classes;
mod env;
pub mod laws;
mod metadata;
mod ranges;
mod recovery;

pub use metadata::{LONGEST_METADATA, metadata_text};
pub use ranges::Range;
pub use recovery::{declared_in, is_text_of};
