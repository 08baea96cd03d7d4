//! What is in an image: in a file of rings that outlives its program, a dump of a program's memory, a copy of a disk, or any
//! other bytes.
//!
//! A sub-buffer's page is its packet's text after each call, and its size is stored last (tr_subbuf). So whatever became of the
//! program, its packets are found by their bytes alone: at each place of the image, by the decoder's rules, but that a packet
//! is as large as its content_size says, whatever is there as its packet_size (both can't be stored at once).
//!
//! # Example
//!
//! ```
//! let trace = named_trace(alloc, None, &mut folders, "app.rings")?;  // None if the image names no trace
//! let packets = recovered_packets(alloc, &uuid, &mut folders, "app.rings")?;  // None if there is no such file
//! ```
//!
//! # What is proved
//!
//! - Of a file that is read to its end just the packets of a trace are answered that its bytes have as an image, however it is
//!   read, and for any image; of each stream and number the one with the most records. It is gone through once, by windows of
//!   twice the largest packet (`recovered_packets`: `found` (`recovered_from`), `broken`, `tree`, `failures`).
//! - Each of them is in the image, as a packet of the trace; for each packet of the trace that is there, one of its stream and
//!   number is answered that has as many records, or more; they are in the order of streams and numbers
//!   (`laws::what_is_recovered_stands_there`, `what_stands_there_is_recovered`, `what_is_recovered_is_in_order`).
//! - The first trace that the image names is answered, or the first of an identifier: where a file of rings begins (`tracerd
//!   rings 1`, a zero byte, and how far from there its metadata is, and how many bytes it has), and that is the recorder's
//!   metadata of the identifier that it names (`named_trace`: `found` (`trace_in`), `broken`, `tree`, `failures`).
//!
//! # What is only tested
//!
//! That a packet in a copy of a page's memory is what the program had offered: programs that record are killed at any moment
//! (the C library's tests). That packets are answered if memory is there: a call that always answered `NoMemory` would be
//! proved too. That the memory which is taken is that of the packets which are kept, and of one window.
#![tactic(auto)]

mod image;
mod kept;
pub mod laws;
mod scanning;
mod traces;

pub use scanning::recovered_packets;
pub use traces::{Trace, named_trace};
