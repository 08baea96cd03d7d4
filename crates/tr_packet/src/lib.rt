//! Packets of one stream: what they hold, the bytes that they are written as, and how these are read again.
//!
//! The text of a packet is its bytes, as `docs/FORMATS.md` lays them out.
//!
//! # Example
//!
//! ```
//! let (packet, length) = decode_packet(bytes)?;  // borrows the bytes, and takes no memory
//! for record in packet.records() {}
//! ```
//!
//! # What is proved
//!
//! - A packet's bytes are exactly its text. A packet is read if and only if the input begins with such a text, whatever
//!   follows, and is shown as what it is. Otherwise the first fault of a fixed order is named (`encode_packet`: `text`;
//!   `decode_packet`: `found`, `only`, `fault`; `size_by_fields`: `size`, `fault`; `PacketView::head`, `count`, `last_serial`,
//!   `records`: `value`, `packet`).
//! - A page of records, with room before them, becomes the text of their packet, and nothing is copied; or a packet's text is
//!   copied, or shown (`PacketText::seal`, `copy_of`; `text`: `text`, `size`; `view`, `count`, `head`: `value`, `packet`;
//!   `Packets::new`; `PacketText`: invariant (`IsTextOf`)).
//! - A packet is made exactly if its records make one (`Packet::checked`: `exact`, `value`; `new`, `size`, `head`, `records`:
//!   `value`, `packet`).
//! - No packet's text begins another, so bytes begin with one packet at most (`laws::texts_are_prefix_free`: `prefix_free`,
//!   `one_packet`).
//! - A packet's header and context, a number, and its end with its size are written over bytes at their places (`write_head`,
//!   `write_number`, `write_extent`).
//! - The metadata text is byte for byte the documented one (`metadata_text`).
//!
//! # What is only tested
//!
//! Nothing. Tests add the 105 bytes of a worked packet, a damaged byte at each place of a packet of two records, and each fault
//! before the later ones. The gate compares an archive's metadata with `docs/FORMATS.md`.
#![tactic(auto)]

mod decoding;
mod encoding;
mod faults;
mod fields;
mod head;
pub mod laws;
pub mod layout;
mod metadata;
mod order;
mod packet;
mod packets;
mod seen;
mod text;
mod view;

pub use decoding::decode_packet;
pub use encoding::{encode_packet, write_extent, write_head, write_number};
pub use faults::PacketFault;
pub use fields::size_by_fields;
pub use head::Head;
pub use metadata::metadata_text;
pub use order::may_follow;
pub use packet::Packet;
pub use packets::Packets;
pub use text::PacketText;
pub use view::PacketView;
