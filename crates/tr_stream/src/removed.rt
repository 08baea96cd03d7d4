//! Packets that a stream no longer has.

ghost use Rattle.std.specs.Prelude.{◌≡◌};

use std::alloc::{Allocator, Global};
use tr_packet::PacketText;

/// Packets that a stream no longer has. Their memory is freed when this is dropped, and nobody need wait for that.
#[derive(Drop)]
pub struct Removed<A: Allocator = Global> {
    packets: Vec<PacketText<A>, A>,
}

impl<A: Allocator> Removed<A> {
    /// These packets.
    pub(crate) fn new(packets: Vec<PacketText<A>, A>) -> Removed<A>
        ensures { result.packets.items ≡ packets.items }
    {
        Removed { packets }
    }
}
