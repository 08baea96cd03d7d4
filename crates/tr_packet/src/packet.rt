//! A packet with its records.

ghost use Rattle.std.specs.Prelude.{◌≡◌, ◌↔◌, IsSome, IfSome};
ghost use Rattle.tr_packet.specs.Packets.{IsPacket, MakePacket, packet_size, contents};

use crate::head::Head;
use crate::order::{make_packet, size_of};
use std::alloc::{Allocator, Global};
use std::marker::Model;
use tr_record::{Rec, RecViews};

/// A packet: a head, and at least one record. The serials rise strictly, the moments don't fall from `begin`, the
/// first record's, to `end`, and the text has at most `LARGEST_PACKET` bytes. Contracts see it as `Contents`.
#[derive(Drop, Debug)]
pub struct Packet<A: Allocator = Global> {
    head: Head,
    records: Vec<Rec<A>, A>,
}

impl<A: Allocator> Model for Packet<A> {
    ghost use Rattle.tr_packet.specs.Packets.{Contents, IsPacket, contents};

    ghost Value = { Contents };

    ghost view = { λ p. contents p.head p.records.items };

    ghost invariant = { λ p. IsPacket (contents p.head p.records.items) };
}

impl<A: Allocator> Packet<A> {
    /// A packet of these records, which make one. It takes no memory.
    pub fn new(head: Head, records: Vec<Rec<A>, A>) -> Packet<A>
        requires { MakePacket head.begin head.end records.items }
        ensures value { result ≡ contents head records.items }
        ensures packet { IsPacket result }
    {
        // A uuid has 16 bytes.
        let _ = head.uuid.into_bytes();
        Packet { head, records }
    }

    /// A packet of these records. None if they make no packet. It takes no memory.
    pub fn checked(head: Head, records: Vec<Rec<A>, A>) -> Option<Packet<A>>
        ensures exact { IsSome result ↔ MakePacket head.begin head.end records.items }
        ensures value { IfSome result (λ p. p ≡ contents head records.items) }
    {
        if !make_packet(head.begin, head.end, &records) {
            return None;
        }
        Some(Packet::new(head, records))
    }

    /// What it says beside its records.
    pub fn head(&self) -> Head
        ensures value { result ≡ self.now.head }
        ensures packet { IsPacket self.now }
    {
        self.head
    }

    /// Its records, in order.
    pub fn records(&self) -> RecViews<'_, A>
        ensures value { result ≡ self.now.records }
        ensures packet { IsPacket self.now }
    {
        RecViews::new(self.records.as_slice())
    }

    /// How many bytes its text has, at most `LARGEST_PACKET`.
    pub fn size(&self) -> usize
        ensures value { result ≡ packet_size self.now }
        ensures packet { IsPacket self.now }
    {
        size_of(&self.records)
    }
}
