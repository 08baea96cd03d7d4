//! Packets whose texts lie in memory, one after another.

ghost use Rattle.std.specs.Prelude.{◌≡◌, [], length};
ghost use Rattle.std.specs.Iterator.{YieldsFirst, item_count};

use crate::text::PacketText;
use crate::view::PacketView;
use std::alloc::{Allocator, Global};
use std::marker::Model;

/// Packets in order, each shown by a view. Contracts see the list of those that are left, as `Contents`.
#[derive(Drop)]
pub struct Packets<'a, A: Allocator = Global> {
    texts: &'a [PacketText<A>],
}

impl<'a, A: Allocator> Model for Packets<'a, A> {
    ghost use Rattle.std.specs.Prelude.{List};
    ghost use Rattle.tr_packet.specs.Packets.{Contents};

    ghost Value = { List Contents };

    ghost view = { λ p. p.texts.now };
}

impl<'a, A: Allocator> Packets<'a, A> {
    /// The packets with these texts.
    pub fn new(texts: &'a [PacketText<A>]) -> Packets<'a, A>
        ensures { result ≡ texts.entry.now }
    {
        Packets { texts }
    }

    /// How many packets are left.
    pub fn len(&self) -> usize
        ensures { result ≡ length self.now }
    {
        self.texts.len()
    }
}

impl<'a, A: Allocator> Iterator for Packets<'a, A> {
    type Item = PacketView<'a>;

    ghost next_gives = { YieldsFirst (λ left. left) };

    ghost remaining = { item_count (λ left. left) };

    fn next(&mut self) -> Option<PacketView<'a>> {
        let (first, rest) = self.texts.split_first()?;
        self.texts = rest;
        Some(first.view())
    }
}
