//! Snapshots: what a session shows of its streams at one step, and how that is written.
//!
//! # Example
//!
//! ```
//! for shown in snapshot.streams() {
//!     write_snap(&mut sink, shown)?;  // the texts of the packets that the stream's ring would make
//! }
//! ```
//!
//! # What is proved
//!
//! - A look says which record is the oldest that it shows, and how many records it shows (`Snapshot::new`, `oldest_serial`
//!   (`oldest_in`); `count`: `shown`, `counted`).
//! - It is written as exactly the texts of its packets, without memory. If the sink fails (W1, and nothing else), what is
//!   written is a prefix of them (`write_snap`).
//!
//! # What is only tested
//!
//! Nothing. Tests add the 512 bytes of a look with two packets, which are read again, a look without packets, and a sink that
//! fails after N bytes.
#![tactic(auto)]

mod shown;
mod snapshot;
mod writing;

pub use shown::{count, oldest_serial};
pub use snapshot::Snapshot;
pub use writing::write_snap;
