//! A part while a packet is added to it.

ghost use Rattle.std.specs.Prelude.{◌≡◌, ◌≤◌, ◌+◌, ◌<◌, ◌^◌, None, OnOk, length};
ghost use Rattle.tr_book.specs.Parts.{part_with, records_of};

use crate::part::Part;
use std::alloc::{AllocError, Allocator, Global};
use std::marker::Model;
use tr_packet::PacketText;

/// The current part of a stream while it is taken out of its parts. Where it has room, adding a packet can't fail. Contracts see
/// an `OpenState`.
#[derive(Drop)]
pub struct OpenPart<A: Allocator = Global> {
    id: u64,
    records: u64,
    bytes: u128,
    texts: Vec<PacketText<A>, A>,
}

impl<A: Allocator> Model for OpenPart<A> {
    ghost use Rattle.std.specs.Prelude.{◌-◌, vec_capacity, vec_len};
    ghost use Rattle.tr_book.specs.Parts.{AreCounted, OpenState, part_state};

    ghost Value = { OpenState };

    ghost view = { λ o. record {
      part = part_state o.id o.texts.items;
      room = vec_capacity o.texts - vec_len o.texts;
    } };

    ghost invariant = { λ o. AreCounted o.records o.bytes o.texts.items };
}

impl<A: Allocator> OpenPart<A> {
    /// A part that isn't released.
    pub(crate) fn of(part: Part<A>) -> OpenPart<A>
    where
        A: Copy,
        requires { part.released ≡ None }
        ensures { result.part ≡ part }
    {
        OpenPart {
            id: part.id(),
            records: part.records(),
            bytes: part.bytes(),
            texts: part.into_texts(),
        }
    }

    /// Takes care that it has room for so many more packets.
    pub(crate) fn reserve(&mut self, count: usize) -> Result<(), AllocError>
        ensures part { self.new.part ≡ self.old.part }
        ensures room { OnOk result (count ≤ self.new.room) }
    {
        self.texts.reserve(count)?;
        Ok(())
    }

    /// Adds a packet at the end. It takes no memory.
    pub fn push(&mut self, text: PacketText<A>)
        requires room { 1 ≤ self.old.room }
        requires few { records_of self.old.part.packets + length text.records < 2 ^ 64 }
        ensures { self.new.part ≡ part_with text self.old.part }
    {
        self.records += text.count() as u64;
        self.bytes += text.text().len() as u128;
        self.texts.push_reserved(text);
    }

    /// The part as it is now.
    pub(crate) fn into_part(self) -> Part<A>
        ensures value { result ≡ self.part }
        ensures held { result.released ≡ None }
    {
        Part::held(self.id, self.records, self.bytes, self.texts)
    }
}
