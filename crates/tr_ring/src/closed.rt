//! A sub-buffer that takes no more records.

ghost use Rattle.std.specs.Prelude.{◌≡◌, IfOk, length, slice_get};
ghost use Rattle.tr_packet.specs.Packets.{IsPacket, contents};
ghost use Rattle.tr_ring.specs.ClosedBuffer.{closed_buffer};

use std::alloc::{AllocError, Allocator, Global};
use std::marker::Model;
use tr_packet::{Head, PacketText};
use tr_record::{RecView, Records};
use tr_subbuf::SubBuf;
use tr_terms::Moment;

/// A closed sub-buffer, which waits to be consumed, as its ring lends it. Contracts see a `ClosedBuffer`.
#[derive(Drop)]
pub struct ClosedSubBuf<'a, A: Allocator = Global> {
    buffer: &'a SubBuf<A>,
    seq: u64,
    end: Moment,
    discarded: u64,
}

impl<'a, A: Allocator> Model for ClosedSubBuf<'a, A> {
    ghost use Rattle.tr_ring.specs.ClosedBuffer.{ClosedBuffer, closed_buffer};

    ghost Value = { ClosedBuffer };

    ghost view = { λ c. closed_buffer c.seq c.end c.discarded c.buffer.now.records };
}

impl<'a, A: Allocator> ClosedSubBuf<'a, A> {
    pub(crate) fn new(
        buffer: &'a SubBuf<A>,
        seq: u64,
        end: Moment,
        discarded: u64,
    ) -> ClosedSubBuf<'a, A>
        ensures { result ≡ closed_buffer seq end discarded buffer.entry.now.records }
    {
        ClosedSubBuf {
            buffer,
            seq,
            end,
            discarded,
        }
    }

    /// The number of its packet.
    pub fn seq(&self) -> u64
        ensures { result ≡ self.now.seq }
    {
        self.seq
    }

    /// When it was closed.
    pub fn end(&self) -> Moment
        ensures { result ≡ self.now.end }
    {
        self.end
    }

    /// How many records its ring had discarded by then.
    pub fn discarded(&self) -> u64
        ensures { result ≡ self.now.discarded }
    {
        self.discarded
    }

    /// How many records it has.
    pub fn count(&self) -> usize
        ensures { result ≡ length self.now.records }
    {
        self.buffer.count()
    }

    /// Its records, in order.
    pub fn records(&self) -> Records<'a>
        ensures { result ≡ self.now.records }
    {
        self.buffer.records()
    }

    /// The record number `i`, from 0 on. It passes over the records before.
    pub fn at(&self, i: usize) -> Option<RecView<'a>>
        ensures { result ≡ slice_get self.now.records i }
    {
        self.buffer.at(i)
    }

    /// Whether its packet has fewer bytes than a quarter of its page.
    pub fn is_mostly_empty(&self) -> bool {
        self.buffer.is_mostly_empty()
    }

    /// A copy of the packet of this head and its records, in memory of just its size. Fails if an allocation fails.
    pub fn copied(&self, alloc: A, head: Head) -> Result<PacketText<A>, AllocError>
        requires { IsPacket (contents head self.now.records) }
        ensures { IfOk result (λ t. t ≡ contents head self.now.records) }
    {
        self.buffer.copied(alloc, head)
    }
}
