//! What is in an image (tr_image), as an archive, so that readers read it and an audit says what is absent.
//!
//! Of their session nothing is known but what the packets say: the archive is `DIR/recovered/archives/BEGIN-END-0`, by when the
//! first of them began and the last one ended, in UTC. Each stream has the file `ring_NUMBER`, empty if it has no packets and one
//! after it has some.
//!
//! # Example
//!
//! ```
//! let came_to = recover(alloc, &mut folders, &mut disk, &mut out, None, "app.rings", "DIR")?;
//! write_recovered(alloc, &mut disk, "DIR", metadata, &packets)?;  // the archive alone
//! ```
//!
//! # What is proved
//!
//! - Of any image that is there, and for all folders that report what is in them: what is said, what goes out and what is made
//!   are a function of its bytes: of the wanted trace, or else of the first that the image names, the packets that tr_image
//!   finds, with the metadata that the image has of it. Each absent number, and how many packets and records a stream has, go
//!   out before anything is made. If it fails, a prefix of the text went out and nothing was made, or all of the text and a
//!   prefix of the archive. It answers `Unreadable` if and only if there is no image or it can't be read to its end (`recover`:
//!   `recovers` (`Recovers`, `found_in`, `recovered_text`), `tree`).
//! - It answers `TooMuch` if and only if the folders failed, and `Write` if and only if the output or the disk did (`recover`:
//!   `reads`, `failures`).
//! - For every disk that reports what it makes: just the archive's folder is made, in it a file for each stream up to the last
//!   one that has packets, with exactly the texts of its packets in their order, and last the metadata, which are the caller's.
//!   Without packets nothing is made. On failure a prefix of this is made, and then at most one broken file: the one that comes next (`write_recovered`: `ok`
//!   (`recovered_made`, `streams_found`), `err`).
//! - A write fault is answered if and only if the disk failed in that call (`write_recovered`: `failures`).
//!
//! # What is only tested
//!
//! That there is an archive if memory is there: a call that always answered `NoMemory`, and made nothing, would be proved too.
#![tactic(auto)]

mod faults;
mod lines;
mod parting;
mod recovering;
mod spans;
mod writing;

pub use faults::{RecoverFault, Recovered};
pub use recovering::recover;
pub use writing::write_recovered;
