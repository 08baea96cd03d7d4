//! What a stream keeps beside its ring: counters, and the packets of its parts. And what a snapshot shows of a stream.
//!
//! A part is what one stream adds to one trace chunk. Of packets that were cleared or released only runs are kept: the
//! packet's number, and which serials it had.
//!
//! # Example
//!
//! ```
//! let ready = parts.ready(packets.len())?;   // has room for them, or the parts come back
//! let parts = ready.cut(packets, accepted);  // closes the current part with these packets, and begins the next
//! parts.release(0)?;                         // part 0 gives up its packets, and keeps their runs
//! ```
//!
//! # What is proved
//!
//! - Parts are lists of packets with their sums. A clear keeps the closed parts, and runs of the current part's packets, and is
//!   counted. A released part has no packets, and the runs and sums that it had (`Parts::put_back`, `ReadyParts::push`, `cut`,
//!   `into_parts`, `OpenPart::push`, `Book::note_cleared`; `Parts::clear`: `ok`, `err`; `clear_out`: `packets`, `ok`, `err`;
//!   `release`: `ok`, `err`, `memory`; `release_out`: `packets`, `ok`, `err`, `memory`; `current`, `cuts`: `value`, `numbered`;
//!   `Part::bytes`: `value`, `small`).
//! - Closed parts that were released can be forgotten, the first ones: then `part` has none of them, and it is known how many
//!   they are and where the part after them began; contracts go on to see them (`Parts::forget`: `ok`; `forgotten`: `value`,
//!   `released` (`IsForgetful`); `known_from`; `part` (`part_known`)).
//! - A packet's runs are as long as they can be and in order, and none goes over two packets. Of a packet that says no more was
//!   lost than the one before it, they are known by its first record and its count (`Runs::push_records`, `push_packets`;
//!   `push_known`, `push_by_lost`; `append`: `ok`, `err`; `of_packets`, `of_packets_by_lost`: `value`, `memory`).
//! - By runs and parts it is known where a serial's record is or was, and which part was current at its offer (`Part::seq_of`,
//!   `Run::has`, `Runs::seq_of`, `search` (`RunsRise`), `Parts::seq_cleared`, `place_of`).
//! - A call for which an allocation fails, of a release only if the part has packets, of a forget only if more parts are
//!   forgotten than before, leaves the parts as they were. Once parts are ready (`ReadyParts`), adding packets and closing the
//!   current part take no memory; nor does adding one to a part that was taken out for it (`Parts::forget`: `err`, `memory`;
//!   `ready`: `ok`, `err`; `take_current`: `part`, `ok`, `err`).
//! - The counters note what is offered, overwritten, consumed and cleared, and its moment (`Book::note_offer`,
//!   `note_overwritten`, `note_consumed`, `note_moment`, `note_cleared`).
//! - What a stream is seen to have has its packets, fewer than 2^64 records (`StreamSnap::new`; `packets`: `value`, `few`).
#![tactic(auto)]

mod book;
mod closed;
mod counts;
mod open;
mod part;
mod parts;
mod runs;
mod seen;
mod snap;

pub use book::Book;
pub use counts::Counts;
pub use open::OpenPart;
pub use part::{Part, records_in};
pub use parts::{Parts, ReadyParts};
pub use runs::{Run, Runs, has_known};
pub use snap::StreamSnap;
pub use tr_terms::{Geometry, GeometryFault, Mode};
