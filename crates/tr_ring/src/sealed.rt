//! A page that waits.

ghost use Rattle.std.specs.Prelude.{◌≡◌, IfOk};
ghost use Rattle.tr_packet.specs.Packets.{IsPacket, contents};
ghost use Rattle.tr_record.specs.Records.{has_serial};
ghost use Rattle.tr_subbuf.specs.SubBuffer.{IsShownBy, empty_buffer, sub_buffer};
ghost use Rattle.tr_ring.specs.ClosedBuffer.{closed_buffer};
ghost use Rattle.tr_ring.specs.Pages.{sealed_page};

use crate::closed::ClosedSubBuf;
use std::alloc::{AllocError, Allocator};
use std::marker::Model;
use tr_packet::{Head, PacketText};
use tr_subbuf::SubBuf;
use tr_terms::Moment;

/// The page of a closed sub-buffer, with what its ring notes of it. Contracts see a `SealedPage`.
#[derive(Drop)]
pub struct Sealed<A: Allocator> {
    buffer: SubBuf<A>,
    seq: u64,
    end: Moment,
    discarded: u64,
}

impl<A: Allocator> Model for Sealed<A> {
    ghost use Rattle.tr_ring.specs.ClosedBuffer.{closed_buffer};
    ghost use Rattle.tr_ring.specs.Pages.{SealedPage, sealed_page};

    ghost Value = { SealedPage };

    ghost view = { λ p. sealed_page (closed_buffer p.seq p.end p.discarded p.buffer.records) p.buffer.size p.buffer.head };
}

impl<A: Allocator> Sealed<A> {
    pub fn new(buffer: SubBuf<A>, seq: u64, end: Moment, discarded: u64) -> Sealed<A>
        ensures { result ≡ sealed_page (closed_buffer seq end discarded buffer.records) buffer.size buffer.head }
    {
        Sealed {
            buffer,
            seq,
            end,
            discarded,
        }
    }

    /// What others see of it.
    pub fn lent(&self) -> ClosedSubBuf<'_, A>
        ensures { result ≡ self.now.closed }
    {
        ClosedSubBuf::new(&self.buffer, self.seq, self.end, self.discarded)
    }

    pub fn seq(&self) -> u64
        ensures { result ≡ self.now.closed.seq }
    {
        self.seq
    }

    pub fn has(&self, serial: u64) -> bool
        ensures { result ≡ has_serial serial self.now.closed.records }
    {
        self.buffer.has(serial)
    }

    /// What is in its memory.
    pub fn image(&self) -> &[u8]
        ensures { IsShownBy self.now.head self.now.closed.records result.now }
    {
        self.buffer.image()
    }

    pub fn warm(&self) -> u32 {
        self.buffer.warm()
    }

    /// Whether no copy of it was begun.
    pub fn lacks_copy(&self) -> bool {
        self.buffer.lacks_copy()
    }

    pub fn begin_copy(&mut self, page: SubBuf<A>)
        requires { page ≡ empty_buffer self.old.size }
        ensures { self.new ≡ self.old }
    {
        self.buffer.begin_copy(page);
    }

    pub fn uncopied(&self) -> usize {
        self.buffer.uncopied()
    }

    pub fn copy_more(&mut self, most: usize)
        ensures { self.new ≡ self.old }
    {
        self.buffer.copy_more(most);
    }

    pub fn copied_out(&mut self, alloc: A, head: Head) -> Result<PacketText<A>, AllocError>
        requires { IsPacket (contents head self.old.closed.records) }
        ensures packet { IfOk result (λ t. t ≡ contents head self.old.closed.records) }
        ensures same { self.new ≡ self.old }
    {
        self.buffer.copied_out(alloc, head)
    }

    /// The page, with its records.
    pub fn into_page(self) -> SubBuf<A>
        ensures { result ≡ sub_buffer self.closed.records self.size self.head }
    {
        self.buffer
    }

    /// The page, without records.
    pub fn into_free(self) -> SubBuf<A>
        ensures { result ≡ empty_buffer self.size }
    {
        let mut page = self.buffer;
        page.reset();
        page
    }
}
