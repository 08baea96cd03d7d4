//! The text of one packet, in memory of its own.

ghost use Rattle.std.specs.Prelude.{◌≡◌, ◌≤◌, ◌++◌, IfOk, drop, length};
ghost use Rattle.tr_record.specs.Whole.{AreWhole, entries_of};
ghost use Rattle.tr_packet.specs.Packets.{IsPacket, contents, header_text, context_text, packet_size, packet_text};
ghost use Rattle.tr_packet.specs.Texts.{body_of};
ghost use Rattle.tr_terms.specs.declared.limits.TheConstants.{PACKET_HEADER};

use crate::encoding::write_head;
use crate::head::Head;
use crate::view::PacketView;
use std::alloc::{AllocError, Allocator, Global};
use std::marker::Model;
use tr_record::{Records, put_bytes};
use tr_terms::limits::PACKET_HEADER;

/// A packet as its text, with what is known of it without a look at the text: its head, and how many records it has. Its memory
/// may have more room than the text needs. Contracts see it as `Contents`.
#[derive(Drop)]
pub struct PacketText<A: Allocator = Global> {
    head: Head,
    count: usize,
    bytes: Vec<u8, A>,
}

impl<A: Allocator> Model for PacketText<A> {
    ghost use Rattle.tr_packet.specs.Packets.{Contents};
    ghost use Rattle.tr_packet.specs.Texts.{IsTextOf, packet_in};

    ghost Value = { Contents };

    ghost view = { λ t. packet_in t.head t.bytes.items };

    ghost invariant = { λ t. IsTextOf t.head t.count t.bytes.items };
}

impl<A: Allocator> PacketText<A> {
    /// The packet of this head and these `count` records, whose texts are in these bytes after the room for a packet's header
    /// and context. These are written into that room, and nothing is copied.
    pub fn seal(head: Head, count: usize, mut bytes: Vec<u8, A>) -> PacketText<A>
        requires room { PACKET_HEADER ≤ length bytes.items }
        requires packet { IsPacket (contents head (entries_of (body_of bytes.items))) }
        requires whole { AreWhole (body_of bytes.items) }
        requires count { count ≡ length (entries_of (body_of bytes.items)) }
        ensures { result ≡ contents head (entries_of (body_of bytes.items)) }
    {
        let size = bytes.len();
        write_head(&mut bytes, &head, 8 * size as u64);
        PacketText { head, count, bytes }
    }

    /// A copy of the packet of this head and these `count` records, in memory of just its size. Its head is written last: until
    /// then nobody who looks at the memory finds a packet there. Fails if an allocation fails.
    pub fn copy_of(
        alloc: A,
        head: Head,
        count: usize,
        records: &Records<'_>,
    ) -> Result<PacketText<A>, AllocError>
        requires packet { IsPacket (contents head records.now) }
        requires count { count ≡ length records.now }
        ensures { IfOk result (λ t. t ≡ contents head records.now) }
    {
        let text = records.text();
        let mut bytes = Vec::with_capacity(alloc, PACKET_HEADER + text.len())?;
        put_bytes(&mut bytes, &[0; PACKET_HEADER]);
        put_bytes(&mut bytes, text);
        Ok(PacketText::seal(head, count, bytes))
    }

    /// What it says beside its records.
    pub fn head(&self) -> Head
        ensures value { result ≡ self.now.head }
        ensures packet { IsPacket self.now }
    {
        self.head
    }

    /// How many records it has.
    pub fn count(&self) -> usize
        ensures value { result ≡ length self.now.records }
        ensures packet { IsPacket self.now }
    {
        self.count
    }

    /// Its text.
    pub fn text(&self) -> &[u8]
        ensures packet { IsPacket self.now }
        ensures text { result.now ≡ packet_text self.now }
        ensures size { length result.now ≡ packet_size self.now }
    {
        self.bytes.as_slice()
    }

    /// The packet, shown by a view.
    pub fn view(&self) -> PacketView<'_>
        ensures value { result ≡ self.now }
        ensures packet { IsPacket self.now }
    {
        let (_, body) = self.bytes.split_at(PACKET_HEADER);
        PacketView::new(self.head, self.count, None, body)
    }
}
