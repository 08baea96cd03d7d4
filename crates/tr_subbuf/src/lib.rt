//! A sub-buffer: the records that are to make one packet, within its size in bytes.
//! It keeps their texts, end to end, in a page whose memory is taken once, after the packet's header and context: so the page is
//! the packet's text after each call, and becomes it. Contracts see the records, and what the packet says beside them.
//!
//! # Example
//!
//! ```
//! let mut page = SubBuf::new(alloc, 4_096)?;
//! if page.joins(payload.len()) {
//!     page.put(&record);  // takes no memory, and refuses nothing
//! } else if page.is_empty() {
//!     page.begin(head, &record);
//! }
//! ```
//!
//! # What is proved
//!
//! - A record is added at the end of a sub-buffer that has room for it. This takes no memory (`SubBuf::begin`, `put`, `fits`,
//!   `joins`, `at`, `has`).
//! - The records are within the sub-buffer's size, as a packet (`SubBuf::used`: `value`, `within`).
//! - The packet that the page becomes has just these records, and so has a copy of it (`SubBuf::end`, `note_lost`, `reset`,
//!   `into_packet`, `copied`).
//! - What is in memory after a call is that packet's text, or, without a record, no packet (`SubBuf::image` (`IsShownBy`);
//!   `SubBuf`: invariant (`IsPage`)).
//! - While a call is under way it is so too, by the list of its stores: the packet before or after, or none before its first
//!   record, and never a part of a record, whatever bytes follow (`laws::a_first_record_is_whole_at_each_store`
//!   (`begin_stores`), `a_put_is_whole_at_each_store` (`put_stores`, `Stands`), `an_end_is_one_store`,
//!   `a_loss_is_noted_by_one_store`, `an_empty_page_shows_nothing`).
//! - A copy that was begun has the page's first records, whatever is added meanwhile, and there is no packet in it; with the
//!   rest it is the packet (`SubBuf::begin_copy`, `copy_more`; `copied_out`: `packet`, `same`; `SubBuf`: invariant
//!   (`IsBegun`)).
//!
//! # What is only tested
//!
//! That the code makes the stores of that list, in its order: programs that record are killed at any moment.
#![tactic(auto)]

pub mod laws;
mod sub_buffer;

pub use sub_buffer::SubBuf;
