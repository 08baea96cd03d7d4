//! `Ring`, closed sub-buffers and the current one.

ghost use Rattle.std.specs.Prelude.{◌≡◌, ◌+◌, ◌≤◌, ◌<◌, ◌^◌, [], ◌∷◌, ◌++◌, IfOk, Some, false, length, slice_get};
ghost use Rattle.std.specs.Option.{option_map};
ghost use Rattle.circular_buffer.specs.Buffer.{buffer};
ghost use Rattle.tr_packet.specs.Packets.{IsPacket, contents, packet_text};
ghost use Rattle.tr_record.specs.Records.{entry};
ghost use Rattle.tr_subbuf.specs.SubBuffer.{IsShownBy, empty_buffer, ending, joins};
ghost use Rattle.tr_ring.specs.Heads.{packet_from, page_from};
ghost use Rattle.tr_ring.specs.ClosedBuffer.{ClosedBuffer, closed_buffer};
ghost use Rattle.tr_ring.specs.Pages.{ArePages, sealed_page, seq_in_pages};
ghost use Rattle.tr_ring.specs.declared.origin.Origin.{Origin};
ghost use Rattle.tr_ring.specs.Ring.{IsRing, empty_ring, current_buffer, current_head, after_push, push_answer, discard_newest, follow_current, join_current, drop_front, close_current, take_current, clear_ring, seq_waiting, seq_of, ring_records};
ghost use Rattle.tr_terms.specs.declared.limits.TheConstants.{FEWEST_SUB_BUFFERS, LARGEST_PACKET, SMALLEST_PACKET};

use crate::closed::ClosedSubBuf;
use crate::items::RingItems;
use crate::origin::Origin;
use crate::pushed::Pushed;
use crate::sealed::Sealed;
use circular_buffer::HeapCircularBuffer;
use std::alloc::{AllocError, Allocator, Global};
use std::marker::Model;
use std::mem;
use tr_packet::{Head, PacketText};
use tr_record::RecView;
use tr_subbuf::SubBuf;
use tr_terms::Moment;

/// The closed sub-buffers that wait, the current one, and those that are free. Their pages go round, and no call but `new`
/// takes memory. Contracts see a `RingState`.
#[derive(Drop)]
pub struct Ring<A: Allocator = Global> {
    origin: Origin,
    overwrite: bool,
    seq: u64,
    discarded: u64,
    current: SubBuf<A>,
    waiting: HeapCircularBuffer<Sealed<A>, A>,
    free: HeapCircularBuffer<SubBuf<A>, A>,
}

impl<A: Allocator> Model for Ring<A> {
    ghost use Rattle.std.specs.Prelude.{◌≡◌, ◌+◌};
    ghost use Rattle.tr_ring.specs.Pages.{ArePages, closed_in};
    ghost use Rattle.tr_ring.specs.Ring.{RingState, IsRing, current_head, ring_state};

    ghost Value = { RingState };

    ghost view = { λ r. ring_state (closed_in r.waiting.items) r.current.records r.seq r.discarded r.current.size
        (r.waiting.capacity + 1) r.overwrite r.origin };

    ghost invariant = { λ r. IsRing
        (ring_state (closed_in r.waiting.items) r.current.records r.seq r.discarded r.current.size
        (r.waiting.capacity + 1) r.overwrite r.origin)
        × (ArePages r.origin r.current.size r.waiting.items r.free r.waiting.capacity
        × (r.current.head ≡ current_head r.origin r.seq r.discarded r.current.records)) };
}

/// Closes the current sub-buffer, and puts the next one in its place.
fn close<A: Allocator>(
    current: &mut SubBuf<A>,
    waiting: &mut HeapCircularBuffer<Sealed<A>, A>,
    next: SubBuf<A>,
    seq: u64,
    end: Moment,
    discarded: u64,
)
    requires room { length waiting.old.items < waiting.old.capacity }
    requires some { 1 ≤ length current.old.records }
    ensures waiting { waiting.new
        ≡ buffer (waiting.old.items
        ++ sealed_page (closed_buffer seq end discarded current.old.records) current.old.size
        (option_map (ending end) current.old.head) ∷ [])
        waiting.old.capacity }
    ensures current { current.new ≡ next }
{
    let mut buffer = mem::replace(current, next);
    buffer.end(end);
    let _ = waiting.push_back(Sealed::new(buffer, seq, end, discarded));
}

/// `count` empty pages of this size.
fn free_pages<A: Allocator + Copy>(
    alloc: A,
    size: usize,
    count: usize,
) -> Result<HeapCircularBuffer<SubBuf<A>, A>, AllocError>
    ensures { (o : Origin) → IfOk result (λ pages. ArePages o size [] pages count) }
{
    let mut pages = HeapCircularBuffer::with_capacity(alloc, count)?;
    for _ in 0..count {
        let _ = pages.push_back(SubBuf::new(alloc, size)?);
    }
    Ok(pages)
}

/// The number of the closed sub-buffer that has the record of this serial.
fn seq_waiting<A: Allocator>(waiting: &HeapCircularBuffer<Sealed<A>, A>, serial: u64) -> Option<u64>
    ensures { result ≡ seq_in_pages serial waiting.now.items }
{
    waiting
        .iter()
        .find(|page| page.has(serial))
        .map(|page| page.seq())
}

impl<A: Allocator + Copy> Ring<A> {
    /// An empty ring of `n` sub-buffers of `size` bytes each, for packets of this origin. `overwrite`: whether a full ring
    /// overwrites the oldest. All memory that the ring ever has is taken here.
    pub fn new(
        alloc: A,
        origin: Origin,
        size: usize,
        n: usize,
        overwrite: bool,
    ) -> Result<Ring<A>, AllocError>
        requires size { (SMALLEST_PACKET ≤ size) × (size ≤ LARGEST_PACKET) }
        requires n { FEWEST_SUB_BUFFERS ≤ n }
        ensures { IfOk result (λ r. r ≡ empty_ring origin size n overwrite) }
    {
        let current = SubBuf::new(alloc, size)?;
        let waiting = HeapCircularBuffer::with_capacity(alloc, n - 1)?;
        let free = free_pages(alloc, size, n - 1)?;
        Ok(Ring {
            origin,
            overwrite,
            seq: 0,
            discarded: 0,
            current,
            waiting,
            free,
        })
    }
}

impl<A: Allocator> Ring<A> {
    /// Stores a record whose text fits an empty sub-buffer, or discards it. It takes no memory.
    // It has one caller, which calls it for each offer.
    #[inline(always)]
    pub fn push(&mut self, moment: Moment, id: u32, serial: u64, payload: &[u8]) -> Pushed
        requires fits { SMALLEST_PACKET + length payload.now ≤ self.old.size }
        requires numbers { self.old.seq + 1 < 2 ^ 64 }
        requires discards { self.old.discarded + 1 < 2 ^ 64 }
        ensures answer { result ≡ push_answer (entry serial moment id payload.now) self.old }
        ensures after { self.new ≡ after_push (entry serial moment id payload.now) self.old }
    {
        if self.current.joins(payload.len()) {
            self.current.put(&RecView::new(serial, moment, id, payload));
            return Pushed::Stored { seq: self.seq };
        }
        self.push_apart(moment, id, serial, payload)
    }

    /// The same of a record that doesn't join others.
    fn push_apart(&mut self, moment: Moment, id: u32, serial: u64, payload: &[u8]) -> Pushed
        requires fits { SMALLEST_PACKET + length payload.now ≤ self.old.size }
        requires apart { joins (current_buffer self.old) (length payload.now) ≡ false }
        requires numbers { self.old.seq + 1 < 2 ^ 64 }
        requires discards { self.old.discarded + 1 < 2 ^ 64 }
        ensures answer { result ≡ push_answer (entry serial moment id payload.now) self.old }
        ensures after { self.new ≡ after_push (entry serial moment id payload.now) self.old }
    {
        if self.current.is_empty() {
            self.begin(moment, id, serial, payload);
            return Pushed::Stored { seq: self.seq };
        }
        if !self.waiting.is_full() {
            self.follow(moment, id, serial, payload);
            return Pushed::Stored { seq: self.seq };
        }
        if !self.overwrite {
            self.discard();
            return Pushed::Refused;
        }
        let Some(oldest) = self.front() else {
            unreachable!()
        };
        let (gone_seq, gone_count) = (oldest.seq(), oldest.count() as u64);
        self.drop_front();
        self.follow(moment, id, serial, payload);
        Pushed::StoredOver {
            seq: self.seq,
            gone_seq,
            gone_count,
        }
    }

    /// Begins the current sub-buffer, which has no record, with this one.
    // It takes a record's parts: a view would have to lie in memory at each push.
    fn begin(&mut self, moment: Moment, id: u32, serial: u64, payload: &[u8])
        requires fits { SMALLEST_PACKET + length payload.now ≤ self.old.size }
        requires none { self.old.current ≡ [] }
        ensures { self.new ≡ join_current (entry serial moment id payload.now) self.old }
    {
        let head = Head {
            uuid: self.origin.uuid,
            stream: self.origin.stream,
            begin: moment,
            end: moment,
            seq: self.seq,
            lost: self.discarded,
        };
        self.current
            .begin(head, &RecView::new(serial, moment, id, payload));
    }

    /// Discards a record. The current sub-buffer has one.
    fn discard(&mut self)
        requires some { 1 ≤ length self.old.current }
        requires discards { self.old.discarded + 1 < 2 ^ 64 }
        ensures { self.new ≡ discard_newest self.old }
    {
        self.discarded += 1;
        self.current.note_lost(self.discarded);
    }

    /// Closes the current sub-buffer, which has a record, and begins the next one with this record.
    fn follow(&mut self, moment: Moment, id: u32, serial: u64, payload: &[u8])
        requires fits { SMALLEST_PACKET + length payload.now ≤ self.old.size }
        requires room { length self.old.waiting + 1 < self.old.count }
        requires some { 1 ≤ length self.old.current }
        requires numbers { self.old.seq + 1 < 2 ^ 64 }
        ensures { self.new ≡ follow_current (entry serial moment id payload.now) self.old }
    {
        self.close_current(moment);
        self.begin(moment, id, serial, payload);
    }

    /// Closes the current sub-buffer, which has a record, and begins an empty one. It takes no memory.
    pub fn close_current(&mut self, end: Moment)
        requires room { length self.old.waiting + 1 < self.old.count }
        requires some { 1 ≤ length self.old.current }
        requires numbers { self.old.seq + 1 < 2 ^ 64 }
        ensures { self.new ≡ close_current end self.old }
    {
        let Some(next) = self.free.pop_front() else {
            unreachable!()
        };
        close(
            &mut self.current,
            &mut self.waiting,
            next,
            self.seq,
            end,
            self.discarded,
        );
        self.seq += 1;
    }

    /// Removes the oldest closed sub-buffer, whose page is free then. It takes no memory.
    pub fn drop_front(&mut self)
        requires { 1 ≤ length self.old.waiting }
        ensures { self.new ≡ drop_front self.old }
    {
        let Some(oldest) = self.waiting.pop_front() else {
            unreachable!()
        };
        let _ = self.free.push_back(oldest.into_free());
    }

    /// Hands out the page of the oldest closed sub-buffer, and keeps the spare one in its place. It takes no memory.
    pub fn take_front(&mut self, spare: SubBuf<A>) -> SubBuf<A>
        requires some { 1 ≤ length self.old.waiting }
        requires spare { spare ≡ empty_buffer self.old.size }
        ensures page { Some result ≡ option_map (page_from self.old.origin self.old.size) (slice_get self.old.waiting 0) }
        ensures after { self.new ≡ drop_front self.old }
    {
        let Some(oldest) = self.waiting.pop_front() else {
            unreachable!()
        };
        let _ = self.free.push_back(spare);
        oldest.into_page()
    }

    /// Hands out the current sub-buffer, which has a record, and begins the next one in the spare page. It takes no memory.
    pub fn take_current(&mut self, spare: SubBuf<A>) -> SubBuf<A>
        requires some { 1 ≤ length self.old.current }
        requires spare { spare ≡ empty_buffer self.old.size }
        requires numbers { self.old.seq + 1 < 2 ^ 64 }
        ensures page { result ≡ current_buffer self.old }
        ensures after { self.new ≡ take_current self.old }
    {
        self.seq += 1;
        mem::replace(&mut self.current, spare)
    }

    /// Removes all records. The next sub-buffer gets the lowest number that no sub-buffer with a record has used. It takes no memory.
    pub fn clear(&mut self)
        requires { self.old.seq + 1 < 2 ^ 64 }
        ensures { self.new ≡ clear_ring self.old }
    {
        for _ in 0..self.waiting() {
            self.drop_front();
        }
        self.seq += u64::from(!self.current.is_empty());
        self.current.reset();
    }

    /// Reads the first bytes of the sub-buffer number `i` of those that wait, the oldest first, or of the current one after them:
    /// `SubBuf::warm`.
    pub fn warm(&self, i: usize) -> u32 {
        match self.waiting.get(i) {
            Some(page) => page.warm(),
            None => self.current.warm(),
        }
    }

    /// What is in the memory of the sub-buffer number `i` of those that wait, the oldest first, or of the current one after
    /// them: once it has a record, the text of the packet that it becomes. The current one's ends with its last record.
    pub fn image(&self, i: usize) -> &[u8]
        ensures waiting { (b : ClosedBuffer) → slice_get self.now.waiting i ≡ Some b
            → result.now ≡ packet_text (packet_from self.now.origin b) }
        ensures current { length self.now.waiting ≤ i → IsShownBy (current_buffer self.now).head self.now.current result.now }
    {
        match self.waiting.get(i) {
            Some(page) => page.image(),
            None => self.current.image(),
        }
    }

    /// How many of the sub-buffers no copy was begun of, the current one among them.
    pub fn lacking_copies(&self) -> usize {
        let mut lacking = usize::from(self.current.lacks_copy());
        for page in self.waiting.iter() {
            lacking = lacking.saturating_add(usize::from(page.lacks_copy()));
        }
        lacking
    }

    /// Whether no copy was begun of the sub-buffer number `i` of those that wait, the oldest first, or of the current one after
    /// them.
    pub fn lacks_copy(&self, i: usize) -> bool {
        match self.waiting.get(i) {
            Some(page) => page.lacks_copy(),
            None => self.current.lacks_copy(),
        }
    }

    /// Begins a copy of that one in a page of the same size, if none was begun. Nothing is copied yet.
    pub fn begin_copy(&mut self, i: usize, page: SubBuf<A>)
        requires { page ≡ empty_buffer self.old.size }
        ensures { self.new ≡ self.old }
    {
        match self.waiting.get_mut(i) {
            Some(sealed) => sealed.begin_copy(page),
            None => self.current.begin_copy(page),
        }
    }

    /// How many of its bytes are still to be copied, if a copy was begun.
    pub fn uncopied(&self, i: usize) -> usize {
        match self.waiting.get(i) {
            Some(page) => page.uncopied(),
            None => self.current.uncopied(),
        }
    }

    /// Copies the next of its bytes, at most so many, if a copy was begun. It takes no memory.
    pub fn copy_more(&mut self, i: usize, most: usize)
        ensures { self.new ≡ self.old }
    {
        match self.waiting.get_mut(i) {
            Some(sealed) => sealed.copy_more(most),
            None => self.current.copy_more(most),
        }
    }

    /// A copy of the packet of this head and the records of closed sub-buffer `i`, the oldest being 0. If one was begun, the rest
    /// of it is copied, and no memory is taken.
    pub fn copied_out(
        &mut self,
        alloc: A,
        i: usize,
        head: Head,
    ) -> Result<PacketText<A>, AllocError>
        requires there { i < length self.old.waiting }
        requires packet { (b : ClosedBuffer) → slice_get self.old.waiting i ≡ Some b → IsPacket (contents head b.records) }
        ensures packet { IfOk result (λ t. (b : ClosedBuffer) → slice_get self.old.waiting i ≡ Some b
            → t ≡ contents head b.records) }
        ensures same { self.new ≡ self.old }
    {
        let Some(sealed) = self.waiting.get_mut(i) else {
            unreachable!()
        };
        sealed.copied_out(alloc, head)
    }

    /// The same of the current sub-buffer.
    pub fn current_copied_out(&mut self, alloc: A, head: Head) -> Result<PacketText<A>, AllocError>
        requires { IsPacket (contents head self.old.current) }
        ensures packet { IfOk result (λ t. t ≡ contents head self.old.current) }
        ensures same { self.new ≡ self.old }
    {
        self.current.copied_out(alloc, head)
    }

    /// The closed sub-buffer number `i` of those that wait, the oldest being 0.
    pub fn item(&self, i: usize) -> Option<ClosedSubBuf<'_, A>>
        ensures { result ≡ slice_get self.now.waiting i }
    {
        let page = self.waiting.get(i)?;
        Some(page.lent())
    }

    /// The oldest closed sub-buffer, if any.
    pub fn front(&self) -> Option<ClosedSubBuf<'_, A>>
        ensures { result ≡ slice_get self.now.waiting 0 }
    {
        self.items().next()
    }

    /// The closed sub-buffers that wait, the oldest first.
    pub fn items(&self) -> RingItems<'_, A>
        ensures { result ≡ self.now.waiting }
    {
        RingItems::new(self.waiting.iter())
    }

    /// The current sub-buffer.
    pub fn current(&self) -> &SubBuf<A>
        ensures { result.now ≡ current_buffer self.now }
    {
        &self.current
    }

    /// How many closed sub-buffers wait.
    pub fn waiting(&self) -> usize
        ensures count { result ≡ length self.now.waiting }
        ensures sound { IsRing self.now }
    {
        self.waiting.len()
    }

    /// The number of the sub-buffer that has the record of this serial. It looks at each record until then.
    #[tactic(auto, using(crate::proofs::PageLemmas::seq_of_pages))]
    pub fn seq_of(&self, serial: u64) -> Option<u64>
        ensures { result ≡ seq_of serial self.now }
    {
        if let Some(seq) = seq_waiting(&self.waiting, serial) {
            return Some(seq);
        }
        if self.current.has(serial) {
            return Some(self.seq);
        }
        None
    }

    /// The record number `k` of those that the ring holds, the oldest first, from 0 on.
    pub fn record(&self, k: u64) -> Option<RecView<'_>>
        ensures { result ≡ slice_get (ring_records self.now) k }
    {
        let mut left = k;
        for buffer in self.items() {
            let count = buffer.count() as u64;
            if left < count {
                return buffer.at(left as usize);
            }
            left -= count;
        }
        self.current.at(left as usize)
    }

    /// The number of the current sub-buffer.
    pub fn seq(&self) -> u64
        ensures { result ≡ self.now.seq }
    {
        self.seq
    }

    /// How many records were discarded so far.
    pub fn discarded(&self) -> u64
        ensures { result ≡ self.now.discarded }
    {
        self.discarded
    }

    /// The bytes of each sub-buffer.
    pub fn size(&self) -> usize
        ensures value { result ≡ self.now.size }
        ensures sound { IsRing self.now }
    {
        self.current.size()
    }

    /// How many sub-buffers there are, the current one among them.
    pub fn count(&self) -> usize
        ensures { result ≡ self.now.count }
    {
        self.waiting.capacity() + 1
    }

    /// Whether a record that has no room overwrites the oldest closed sub-buffer.
    pub fn overwrites(&self) -> bool
        ensures { result ≡ self.now.overwrite }
    {
        self.overwrite
    }
}
