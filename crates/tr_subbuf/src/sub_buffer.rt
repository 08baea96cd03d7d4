//! `SubBuf`, a page of records within a size.

ghost use Rattle.std.specs.Prelude.{◌≡◌, ◌==◌, ◌+◌, ◌*◌, ◌≤◌, ◌/◌, ◌++◌, ℕ, List, IsTrue, IfOk, IfSome, drop, length, nat_lt, slice_get, take, vec_capacity, vec_len};
ghost use Rattle.tr_packet.specs.Decoding.{content_bits_in};
ghost use Rattle.tr_packet.specs.Packets.{IsPacket, contents, context_text, header_text};
ghost use Rattle.tr_packet.specs.Stores.{with_extent, with_number};
ghost use Rattle.tr_packet.specs.Texts.{body_of};
ghost use Rattle.tr_record.specs.Records.{Fits, has_serial, record_text};
ghost use Rattle.tr_record.specs.Weight.{record_weight, weight_of};
ghost use Rattle.tr_subbuf.specs.Page.{IsBegun};
ghost use Rattle.tr_subbuf.specs.SubBuffer.{IsShownBy, IsWithin, empty_buffer, ended, first_record, has_room, joins, with_lost, with_record};
ghost use Rattle.tr_terms.specs.declared.limits.TheConstants.{LARGEST_PACKET, PACKET_HEADER};

use std::alloc::{AllocError, Allocator, Global};
use std::marker::Model;
use tr_packet::layout::{CONTENT_SIZE_AT, END_AT, LOST_AT};
use tr_packet::{Head, PacketText, write_extent, write_head, write_number};
use tr_record::{RecView, Records, put_bytes, put_rec};
use tr_terms::Moment;
use tr_terms::limits::{LARGEST_PACKET, PACKET_HEADER, RECORD_HEADER};

/// The texts of records, in the order in which they came, after a packet's header and context, and the most bytes that they may
/// have as a packet. Its memory is taken once, for all of its size: so the page can become the packet's text. Once it has a
/// record, the bytes are that text after each call. Contracts see a `SubBuffer`.
#[derive(Drop)]
pub struct SubBuf<A: Allocator = Global> {
    bytes: Vec<u8, A>,
    count: usize,
    // the size, or 0 as long as there is no record
    limit: usize,
    size: usize,
    // a copy of the first records, in a page of its own, if one was begun
    begun: Option<Vec<u8, A>>,
}

impl<A: Allocator> Model for SubBuf<A> {
    ghost use Rattle.std.specs.Prelude.{IfSome, vec_capacity};
    ghost use Rattle.tr_subbuf.specs.SubBuffer.{SubBuffer};
    ghost use Rattle.tr_subbuf.specs.Page.{IsBegun, IsPage, buffer_in};

    ghost Value = { SubBuffer };

    ghost view = { λ b. buffer_in b.bytes.items b.size };

    ghost invariant = { λ b. IsPage b.bytes.items b.count b.limit b.size (vec_capacity b.bytes)
        × IfSome b.begun (λ copy. IsBegun copy.items b.bytes.items b.size (vec_capacity copy)) };
}

/// The longest payload that any page could have room for: no page has more than `isize::MAX` bytes. With it no sum of lengths
/// overflows, and where a payload's length is known to the compiler, the test for it is gone.
const LONGEST_PAYLOAD: usize = usize::MAX / 2 - RECORD_HEADER;

/// A sum of two bytes, one where a packet's header is and one where its first record does.
fn first_bytes(bytes: &[u8]) -> u16 {
    match (bytes.first(), bytes.get(PACKET_HEADER)) {
        (Some(&header), Some(&record)) => u16::from(header) + u16::from(record),
        _ => 0,
    }
}

/// Empties a copy that was begun, and keeps its memory: it may be one of any page.
fn begin_anew<A: Allocator>(begun: &mut Option<Vec<u8, A>>)
    ensures { (before after : List ℕ) (size : ℕ) → PACKET_HEADER ≤ length after
        → IfSome begun.old (λ copy. IsBegun copy.items before size (vec_capacity copy))
        → IfSome begun.new (λ copy. IsBegun copy.items after size (vec_capacity copy)) }
{
    if let Some(mut copy) = begun.take() {
        copy.truncate(PACKET_HEADER);
        *begun = Some(copy);
    }
}

/// Copies the records after those that were copied already, at most so many bytes.
fn copy_on<A: Allocator>(copy: &mut Vec<u8, A>, bytes: &[u8], most: usize)
    requires header { PACKET_HEADER ≤ length copy.old.items }
    requires long { PACKET_HEADER ≤ length bytes.now }
    requires first { take (length (body_of copy.old.items)) (body_of bytes.now) ≡ body_of copy.old.items }
    requires room { length bytes.now ≤ vec_capacity copy.old }
    ensures header { take PACKET_HEADER copy.new.items ≡ take PACKET_HEADER copy.old.items }
    ensures long { length copy.old.items ≤ length copy.new.items }
    ensures first { take (length (body_of copy.new.items)) (body_of bytes.now) ≡ body_of copy.new.items }
    ensures all { length bytes.now ≤ most → body_of copy.new.items ≡ body_of bytes.now }
    ensures capacity { vec_capacity copy.old ≤ vec_capacity copy.new }
{
    let (_, left) = bytes.split_at(copy.len());
    let (next, _) = left.split_at(most.min(left.len()));
    put_bytes(copy, next);
}

/// Appends a record's text to a packet's, and has the packet end at its moment and be as large as all bytes are: this is stored
/// last, together. It takes no memory.
#[inline(always)]
fn append<A: Allocator>(bytes: &mut Vec<u8, A>, entry: &RecView<'_>)
    requires header { PACKET_HEADER ≤ length bytes.old.items }
    requires room { vec_len bytes.old + record_weight entry.now ≤ vec_capacity bytes.old }
    requires small { vec_len bytes.old + record_weight entry.now ≤ LARGEST_PACKET }
    ensures items { bytes.new.items ≡ with_extent entry.now.moment (8 * length (bytes.old.items ++ record_text entry.now))
        (bytes.old.items ++ record_text entry.now) }
    ensures capacity { vec_capacity bytes.old ≤ vec_capacity bytes.new }
    ensures fits { Fits entry.now }
{
    put_rec(bytes, entry);
    let bits = 8 * bytes.len() as u64;
    write_extent(bytes, entry.moment(), bits);
}

/// Writes a number over the eight bytes from this place on.
fn renumber<A: Allocator>(bytes: &mut Vec<u8, A>, at: usize, number: u64)
    requires { at + 8 ≤ length bytes.old.items }
    ensures items { bytes.new.items ≡ with_number at number bytes.old.items }
    ensures capacity { vec_capacity bytes.new ≡ vec_capacity bytes.old }
{
    write_number(bytes, at, number);
}

/// Writes a packet's header and context over those that are there, with a size of 0.
fn write_front<A: Allocator>(bytes: &mut Vec<u8, A>, head: &Head)
    requires header { PACKET_HEADER ≤ length bytes.old.items }
    requires uuid { length head.now.uuid ≡ 16 }
    ensures items { bytes.new.items ≡ (header_text head.now ++ context_text head.now 0) ++ drop PACKET_HEADER bytes.old.items }
    ensures capacity { vec_capacity bytes.new ≡ vec_capacity bytes.old }
{
    write_head(bytes, head, 0);
}

impl<A: Allocator> SubBuf<A> {
    /// An empty sub-buffer of `size` bytes. It takes the memory for all of them, and for a packet's header at least. It fails also
    /// if no packet may have so many bytes.
    pub fn new(alloc: A, size: usize) -> Result<SubBuf<A>, AllocError>
        ensures { IfOk result (λ b. b ≡ empty_buffer size) }
    {
        if size > LARGEST_PACKET {
            return Err(AllocError);
        }
        let mut bytes = Vec::with_capacity(alloc, size.max(PACKET_HEADER))?;
        put_bytes(&mut bytes, &[0; PACKET_HEADER]);
        Ok(SubBuf {
            bytes,
            count: 0,
            limit: 0,
            size,
            begun: None,
        })
    }

    /// The same, with all of its memory written to. So who fills it won't wait for the system to give the memory.
    pub fn touched(alloc: A, size: usize) -> Result<SubBuf<A>, AllocError>
        ensures { IfOk result (λ b. b ≡ empty_buffer size) }
    {
        if size > LARGEST_PACKET {
            return Err(AllocError);
        }
        let room = size.max(PACKET_HEADER);
        let mut bytes = Vec::with_capacity(alloc, room)?;
        let _ = bytes.resize(room, 0);
        bytes.truncate(PACKET_HEADER);
        // (it is 0 already, which `resize` doesn't say)
        renumber(&mut bytes, CONTENT_SIZE_AT, 0);
        Ok(SubBuf {
            bytes,
            count: 0,
            limit: 0,
            size,
            begun: None,
        })
    }

    /// The most bytes that its packet may have.
    pub fn size(&self) -> usize
        ensures { result ≡ self.now.size }
    {
        self.size
    }

    /// How many records it has.
    pub fn count(&self) -> usize
        ensures { result ≡ length self.now.records }
    {
        self.count
    }

    /// Whether it has no record.
    pub fn is_empty(&self) -> bool
        ensures { result ≡ (length self.now.records == 0) }
    {
        self.count == 0
    }

    /// The bytes that its packet would have now: those of its header, and those of the records.
    pub fn used(&self) -> usize
        ensures value { result ≡ weight_of self.now.records }
        ensures within { IsWithin self.now }
    {
        self.bytes.len()
    }

    /// Whether its packet would have fewer bytes than a quarter of its size.
    pub fn is_mostly_empty(&self) -> bool
        ensures { result ≡ nat_lt (weight_of self.now.records) (self.now.size / 4) }
    {
        self.bytes.len() < self.size / 4
    }

    /// Whether there is room for a record with a payload of `len` bytes.
    pub fn fits(&self, len: usize) -> bool
        ensures { result ≡ has_room self.now len }
    {
        len <= LONGEST_PAYLOAD && self.bytes.len() + RECORD_HEADER + len <= self.size
    }

    /// Whether it has a record already, and there is room for one more with a payload of `len` bytes.
    pub fn joins(&self, len: usize) -> bool
        ensures { result ≡ joins self.now len }
    {
        len <= LONGEST_PAYLOAD && self.bytes.len() + RECORD_HEADER + len <= self.limit
    }

    /// Its records, in order.
    pub fn records(&self) -> Records<'_>
        ensures { result ≡ self.now.records }
    {
        let (_, texts) = self.bytes.split_at(PACKET_HEADER);
        Records::new(texts)
    }

    /// The record number `i`, from 0 on. It passes over the records before.
    pub fn at(&self, i: usize) -> Option<RecView<'_>>
        ensures { result ≡ slice_get self.now.records i }
    {
        self.records().nth(i)
    }

    /// Whether one of its records has this serial. It looks at each until then.
    pub fn has(&self, serial: u64) -> bool
        ensures { result ≡ has_serial serial self.now.records }
    {
        self.records().any(|r| r.serial() == serial)
    }

    /// What is in its memory: once it has a record, the text of the packet of its head and its records, and before, bytes in
    /// which no packet is. While a call is under way, the size there is that before or after it.
    pub fn image(&self) -> &[u8]
        ensures { IsShownBy self.now.head self.now.records result.now }
    {
        self.bytes.as_slice()
    }

    /// Adds a copy of the first record, and writes what its packet says beside the records. It takes no memory.
    pub fn begin(&mut self, head: Head, entry: &RecView<'_>)
        requires none { self.old ≡ empty_buffer self.old.size }
        requires room { IsTrue (has_room self.old (length entry.now.payload)) }
        ensures { self.new ≡ first_record head entry.now self.old }
    {
        // (read for the proof, which learns that an identifier has 16 bytes)
        let _ = head.uuid.into_bytes();
        write_front(&mut self.bytes, &head);
        append(&mut self.bytes, entry);
        self.count = 1;
        self.limit = self.size;
    }

    /// Adds a copy of a record, of which there are some already. The size of the packet is stored last, so that no one who looks
    /// at the memory meanwhile finds a record that isn't whole. It takes no memory.
    pub fn put(&mut self, entry: &RecView<'_>)
        requires { IsTrue (joins self.old (length entry.now.payload)) }
        ensures { self.new ≡ with_record entry.now self.old }
    {
        append(&mut self.bytes, entry);
        self.count += 1;
    }

    /// Has its packet end at this moment. It has a record.
    pub fn end(&mut self, end: Moment)
        requires { 1 ≤ length self.old.records }
        ensures { self.new ≡ ended end self.old }
    {
        renumber(&mut self.bytes, END_AT, end.get());
    }

    /// Has its packet say that so many records were discarded. It has a record.
    pub fn note_lost(&mut self, lost: u64)
        requires { 1 ≤ length self.old.records }
        ensures { self.new ≡ with_lost lost self.old }
    {
        renumber(&mut self.bytes, LOST_AT, lost);
    }

    /// Removes all records, and keeps the memory, in which no packet is then.
    pub fn reset(&mut self)
        ensures { self.new ≡ empty_buffer self.old.size }
    {
        begin_anew(&mut self.begun);
        renumber(&mut self.bytes, CONTENT_SIZE_AT, 0);
        self.bytes.truncate(PACKET_HEADER);
        self.count = 0;
        self.limit = 0;
    }

    /// Reads the first bytes of its page, and of a copy that was begun, so that they are in the processor's cache for the call
    /// that makes a packet of them. Answers with a sum of some of them.
    pub fn warm(&self) -> u32 {
        let of_copy = match &self.begun {
            Some(copy) => first_bytes(copy),
            None => 0,
        };
        u32::from(first_bytes(&self.bytes)) + u32::from(of_copy)
    }

    /// Whether no copy of it was begun.
    pub fn lacks_copy(&self) -> bool {
        self.begun.is_none()
    }

    /// Begins a copy of its packet in a page of the same size, unless there is one. Nothing is copied yet.
    pub fn begin_copy(&mut self, page: SubBuf<A>)
        requires { page ≡ empty_buffer self.old.size }
        ensures { self.new ≡ self.old }
    {
        if self.begun.is_none() {
            self.begun = Some(page.bytes);
        }
    }

    /// How many bytes are still to be copied, if a copy was begun.
    pub fn uncopied(&self) -> usize {
        match &self.begun {
            Some(copy) => self.bytes.len() - copy.len(),
            None => 0,
        }
    }

    /// Copies the next of its bytes, at most so many, if a copy was begun. It takes no memory.
    pub fn copy_more(&mut self, most: usize)
        ensures { self.new ≡ self.old }
    {
        if let Some(mut copy) = self.begun.take() {
            copy_on(&mut copy, &self.bytes, most);
            self.begun = Some(copy);
        }
    }

    /// The packet of this head and its records. The page itself becomes the packet's text: nothing is copied.
    pub fn into_packet(self, head: Head) -> PacketText<A>
        requires { IsPacket (contents head self.records) }
        ensures { result ≡ contents head self.records }
    {
        PacketText::seal(head, self.count, self.bytes)
    }

    /// A copy of that packet. If one was begun, the rest of it is copied, and no memory is taken; else it is `copied`.
    pub fn copied_out(&mut self, alloc: A, head: Head) -> Result<PacketText<A>, AllocError>
        requires { IsPacket (contents head self.old.records) }
        ensures packet { IfOk result (λ t. t ≡ contents head self.old.records) }
        ensures same { self.new ≡ self.old }
    {
        let Some(mut copy) = self.begun.take() else {
            return self.copied(alloc, head);
        };
        copy_on(&mut copy, &self.bytes, self.bytes.len());
        Ok(PacketText::seal(head, self.count, copy))
    }

    /// A copy of that packet, in memory of just its size. Fails if an allocation fails.
    pub fn copied(&self, alloc: A, head: Head) -> Result<PacketText<A>, AllocError>
        requires { IsPacket (contents head self.now.records) }
        ensures { IfOk result (λ t. t ≡ contents head self.now.records) }
    {
        PacketText::copy_of(alloc, head, self.count, &self.records())
    }
}
