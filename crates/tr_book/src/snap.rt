//! What a snapshot shows of one stream.

ghost use Rattle.std.specs.Prelude.{◌≡◌, ◌<◌, ◌^◌};
ghost use Rattle.tr_book.specs.Parts.{records_of};
ghost use Rattle.tr_book.specs.Snaps.{snap_state};

use std::alloc::{Allocator, Global};
use std::marker::Model;
use tr_packet::{PacketText, Packets};

/// One stream at one step: how many offers it had accepted, how many of their records it had discarded, and the
/// packets that its ring held, the oldest first, as their texts. Contracts see a `SnapState`.
#[derive(Drop)]
pub struct StreamSnap<A: Allocator = Global> {
    stream: u64,
    offered: u64,
    lost: u64,
    texts: Vec<PacketText<A>, A>,
}

impl<A: Allocator> Model for StreamSnap<A> {
    ghost use Rattle.tr_book.specs.Snaps.{SnapState, snap_state};

    ghost Value = { SnapState };

    ghost view = { λ s. snap_state s.stream s.offered s.lost s.texts.items };

    ghost use Rattle.std.specs.Prelude.{◌<◌, ◌^◌};
    ghost use Rattle.tr_book.specs.Parts.{records_of};

    ghost invariant = { λ s. records_of s.texts.items < 2 ^ 64 };
}

impl<A: Allocator> StreamSnap<A> {
    /// What is shown of the stream with this number. It takes no memory.
    pub fn new(stream: u64, offered: u64, lost: u64, texts: Vec<PacketText<A>, A>) -> StreamSnap<A>
        requires { records_of texts.items < 2 ^ 64 }
        ensures { result ≡ snap_state stream offered lost texts.items }
    {
        StreamSnap {
            stream,
            offered,
            lost,
            texts,
        }
    }

    /// The stream's number in its session.
    pub fn stream(&self) -> u64
        ensures { result ≡ self.now.stream }
    {
        self.stream
    }

    /// How many offers the stream had accepted.
    pub fn offered(&self) -> u64
        ensures { result ≡ self.now.offered }
    {
        self.offered
    }

    /// How many records it had discarded.
    pub fn lost(&self) -> u64
        ensures { result ≡ self.now.lost }
    {
        self.lost
    }

    /// The packets of its ring, the oldest first.
    pub fn packets(&self) -> Packets<'_, A>
        ensures value { result ≡ self.now.packets }
        ensures few { records_of self.now.packets < 2 ^ 64 }
    {
        Packets::new(&self.texts)
    }

    /// The texts of these packets.
    pub fn texts(&self) -> &[PacketText<A>]
        ensures { result.now ≡ self.now.packets }
    {
        self.texts.as_slice()
    }
}
