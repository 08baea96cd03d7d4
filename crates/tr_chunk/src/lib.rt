//! The files of trace chunks: their names, what is written to them, and the audit of what they hold.
//!
//! # Example
//!
//! ```
//! write_part(&mut sink, part)?;                            // a stream's file: the texts of the part's packets
//! let found = audit_stream(alloc, &uuid, 0, &[&file])?;    // whole packets with rising numbers, or the first fault
//! ```
//!
//! # What is proved
//!
//! - A stream's file is the texts of a part's packets; a part that was released isn't written. Writing it takes no memory. If
//!   the sink fails (W1), what is written is a prefix of them (`write_part`, `write_texts`).
//! - So is the metadata written, and if an allocation fails (W2) nothing is (`write_metadata`).
//! - An archive's name has the civil date and time of its moments, at the session's offset, and a stream's file its channel's
//!   name and its number (`archive_name`, `stream_file_name`).
//! - An audit of anyone's bytes succeeds if and only if they are whole packets of the stream with rising numbers and serials,
//!   and no allocation fails. Otherwise it names the first packet at fault and its first cause, A5 last and only after absent
//!   numbers (`audit_stream`: `found`, `only`, `fault`).
//! - The same holds if the bytes come in feeds of any sizes. Then a bad header is reported once its 80 bytes are there, and all
//!   else once the packet is whole; each later call answers a fault again, and changes nothing. An allocation may fail only
//!   where numbers are absent or at a packet of more than 65,536 bytes (`FIRST_ROOM`) (`AuditReader::new`: `read` (`HasRead`),
//!   `counts`; `feed`, `next_piece`: `read`, `answer`, `again`, `counts`; `finish`: `found`, `only`, `fault`, `again`;
//!   `audit_feeds`: `found`, `only`, `fault`).
//! - It holds less than a packet, with room for `FIRST_ROOM` bytes (`AuditReader`: invariant (`Keeps`)).
//! - Gaps are exactly the absent numbers below the last one, in longest runs (`laws::gaps_are_the_absent_numbers`: `absent`,
//!   `longest`).
//!
//! # What is only tested
//!
//! Nothing. Tests add a file of two packets, cut to each shorter length and with each byte inverted, read whole and in feeds of
//! three sizes, and a sink that fails after N bytes.
#![tactic(auto)]

mod archive_names;
mod audit;
mod audit_fault;
mod audit_reader;
mod faults;
mod feeds;
pub mod laws;
mod names;
mod stream_audit;
mod writing;

pub use archive_names::archive_name;
pub use audit::audit_stream;
pub use audit_fault::{AuditCause, AuditFault};
pub use audit_reader::{AuditReader, FIRST_ROOM};
pub use faults::WriteFault;
pub use feeds::audit_feeds;
pub use names::stream_file_name;
pub use stream_audit::{Gaps, StreamAudit};
pub use tr_terms::OffsetMinutes;
pub use writing::{write_metadata, write_part, write_texts};
