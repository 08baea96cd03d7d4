//! The parts of a stream.

ghost use Rattle.std.specs.Prelude.{◌≡◌, ◌≢◌, ◌+◌, ◌≤◌, ◌<◌, ◌^◌, [], Some, None, IfOk, IfErr, OnOk, OnErr, length, option_copied, slice_get, take, vec_capacity, vec_len};
ghost use Rattle.std.specs.List.Sorted.{IsNonDecreasing};
ghost use Rattle.tr_book.specs.Closed.{HasRoom, IsClosed, closed_of, forgotten_of, starts_of};
ghost use Rattle.tr_book.specs.Parts.{AreReleased, IsForgetful, IsNumbered, PartState, empty_part, forget_parts, known_from, records_of, no_parts, with_packet, with_packets, with_part, close_part, clear_part, part_known, place_in, release_part};
ghost use Rattle.tr_book.specs.Runs.{GapsShow, RunsRise, packet_runs, seq_in_runs};

use crate::closed::ClosedParts;
use crate::open::OpenPart;
use crate::part::{Part, bytes_in, records_in};
use crate::runs::Runs;
use std::alloc::{AllocError, Allocator, Global};
use std::marker::Model;
use std::mem;
use tr_packet::{PacketText, Packets};

/// The closed parts of a stream in order, the current one, and which records were cleared. Contracts see a `PartsState`.
#[derive(Drop)]
pub struct Parts<A: Allocator = Global> {
    alloc: A,
    closed: ClosedParts<A>,
    current: Part<A>,
    cleared: Runs<A>,
}

impl<A: Allocator> Model for Parts<A> {
    ghost use Rattle.std.specs.Prelude.{◌≡◌, None};
    ghost use Rattle.tr_book.specs.Closed.{IsClosed, parts_of};
    ghost use Rattle.tr_book.specs.Parts.{PartsState, IsNumbered};

    ghost Value = { PartsState };

    ghost view = { λ s. parts_of s.closed s.current s.cleared };

    ghost invariant = { λ s. IsNumbered (parts_of s.closed s.current s.cleared) × (s.current.released ≡ None)
        × IsClosed s.closed };
}

impl<A: Allocator> Parts<A> {
    /// The part number `k`: a closed one that isn't forgotten, or the current one after them.
    pub fn part(&self, k: u64) -> Option<&Part<A>>
        ensures { option_copied result ≡ part_known k self.now }
    {
        if k == self.cuts() {
            return Some(&self.current);
        }
        self.closed.part(k)
    }

    /// The part to which packets are added.
    pub fn current(&self) -> &Part<A>
        ensures value { result.now ≡ self.now.current }
        ensures numbered { IsNumbered self.now }
    {
        &self.current
    }

    /// How many of the closed parts are forgotten: the first ones. All of these were released.
    pub fn forgotten(&self) -> u64
        ensures value { result ≡ self.now.forgotten }
        ensures released { IsForgetful self.now }
    {
        self.closed.forgotten()
    }

    /// The serial at which the first part began that isn't forgotten.
    pub fn known_from(&self) -> u64
        ensures { result ≡ known_from self.now }
    {
        self.closed.begin()
    }

    /// The number of the cleared packet that had the record of this serial, if the runs of cleared packets rise. It looks at
    /// few of them.
    pub fn seq_cleared(&self, serial: u64) -> Option<u64>
        ensures { RunsRise 0 self.now.cleared → result ≡ seq_in_runs serial self.now.cleared }
    {
        self.cleared.search(serial)
    }

    /// The place of the part that has the record of this serial, if one has it and it isn't one of a forgotten part: the last
    /// part that began at this serial or before. It looks at few of them, if serials rise.
    pub fn place_of(&self, serial: u64) -> u64
        ensures { IsNonDecreasing self.now.starts → known_from self.now ≤ serial → result ≡ place_in serial self.now.starts }
    {
        self.closed.place_of(serial)
    }

    /// How many parts are closed.
    pub fn cuts(&self) -> u64
        ensures value { result ≡ length self.now.closed }
        ensures numbered { IsNumbered self.now }
    {
        self.closed.count()
    }
}

/// Takes care that there is room for one more closed part and its end, and for so many more packets.
fn reserve_all<A: Allocator>(
    closed: &mut ClosedParts<A>,
    texts: &mut Vec<PacketText<A>, A>,
    count: usize,
) -> Result<(), AllocError>
    requires { IsClosed closed.old }
    ensures closed { IsClosed closed.new }
    ensures same { (closed_of closed.new ≡ closed_of closed.old) × (starts_of closed.new ≡ starts_of closed.old)
        × (forgotten_of closed.new ≡ forgotten_of closed.old) }
    ensures texts { texts.new.items ≡ texts.old.items }
    ensures one_more { OnOk result (HasRoom closed.new) }
    ensures room { OnOk result (vec_len texts.new + count ≤ vec_capacity texts.new) }
{
    closed.reserve()?;
    texts.reserve(count)?;
    Ok(())
}

impl<A: Allocator + Copy> Parts<A> {
    /// No closed part, and an empty current one with the number 0. It takes no memory.
    pub fn new(alloc: A) -> Parts<A>
        ensures { result ≡ no_parts }
    {
        Parts {
            alloc,
            closed: ClosedParts::new(alloc),
            current: Part::new(alloc, 0),
            cleared: Runs::new(alloc),
        }
    }

    /// The same parts with room for so many more packets in the current one, and for one more closed part. If an allocation
    /// fails, they come back.
    pub fn ready(self, count: usize) -> Result<ReadyParts<A>, Parts<A>>
        ensures ok { IfOk result (λ r. (r.parts ≡ self) × (count ≤ r.room)) }
        ensures err { IfErr result (λ p. p ≡ self) }
    {
        let Parts {
            alloc,
            mut closed,
            current,
            cleared,
        } = self;
        let (id, records, bytes) = (current.id(), current.records(), current.bytes());
        let mut texts = current.into_texts();
        match reserve_all(&mut closed, &mut texts, count) {
            Ok(()) => Ok(ReadyParts {
                alloc,
                closed,
                id,
                records,
                bytes,
                texts,
                cleared,
            }),
            Err(_) => Err(Parts {
                alloc,
                closed,
                current: Part::held(id, records, bytes, texts),
                cleared,
            }),
        }
    }

    /// Takes the current part out, with room for so many more packets. Until `put_back` an empty one with its number is in its
    /// place. If an allocation fails, nothing changes.
    pub fn take_current(&mut self, count: usize) -> Result<OpenPart<A>, AllocError>
        ensures part { IfOk result (λ o. (o.part ≡ self.old.current) × (count ≤ o.room)) }
        ensures ok { OnOk result (self.new ≡ with_part (empty_part self.old.current.id) self.old) }
        ensures err { OnErr result (self.new ≡ self.old) }
    {
        let next = Part::new(self.alloc, self.current.id());
        let mut open = OpenPart::of(mem::replace(&mut self.current, next));
        match open.reserve(count) {
            Ok(()) => Ok(open),
            Err(fault) => {
                self.put_back(open);
                Err(fault)
            }
        }
    }

    /// Puts a part that was taken out in the place of the current one. It takes no memory.
    pub fn put_back(&mut self, part: OpenPart<A>)
        requires { part.part.id ≡ self.old.current.id }
        ensures { self.new ≡ with_part part.part self.old }
    {
        self.current = part.into_part();
    }

    /// Gives up the packets of closed part `k`, and keeps what fates and sizes need. It takes memory only if the part has
    /// packets. If an allocation fails, nothing changes.
    pub fn release(&mut self, k: u64) -> Result<(), AllocError>
        requires closed { k < length self.old.closed }
        requires held { (part : PartState) → slice_get self.old.closed k ≡ Some part → part.released ≡ None }
        ensures ok { OnOk result (self.new ≡ release_part k self.old) }
        ensures err { OnErr result (self.new ≡ self.old) }
        ensures memory { OnErr result ((part : PartState) → slice_get self.old.closed k ≡ Some part → part.packets ≢ []) }
    {
        self.closed.release(self.alloc, k)?;
        Ok(())
    }

    /// The same for packets of one stream in order: it looks at each record only where `lost` has grown, and the packets come
    /// out.
    pub fn release_out(&mut self, k: u64) -> Result<Vec<PacketText<A>, A>, AllocError>
        requires closed { k < length self.old.closed }
        requires held { (part : PartState) → slice_get self.old.closed k ≡ Some part → part.released ≡ None }
        requires gaps { (part : PartState) → slice_get self.old.closed k ≡ Some part → GapsShow 0 part.packets }
        ensures packets { IfOk result (λ t. (part : PartState) → slice_get self.old.closed k ≡ Some part → t.items ≡ part.packets) }
        ensures ok { OnOk result (self.new ≡ release_part k self.old) }
        ensures err { OnErr result (self.new ≡ self.old) }
        ensures memory { OnErr result ((part : PartState) → slice_get self.old.closed k ≡ Some part → part.packets ≢ []) }
    {
        let texts = self.closed.release_out(self.alloc, k)?;
        Ok(texts)
    }

    /// Forgets the closed parts below `k`, which are released: nothing is kept of them but their number, and where the part
    /// after them began. If an allocation fails, nothing changes; but what is asked for has no bytes.
    pub fn forget(&mut self, k: u64) -> Result<(), AllocError>
        requires closed { k ≤ length self.old.closed }
        requires released { AreReleased (take k self.old.closed) }
        ensures ok { OnOk result (self.new ≡ forget_parts k self.old) }
        ensures err { OnErr result (self.new ≡ self.old) }
        ensures memory { OnErr result (self.old.forgotten < k) }
    {
        self.closed.forget(k)?;
        Ok(())
    }

    /// Removes the packets of the current part, and keeps their runs, and then these. If an allocation fails, nothing changes.
    pub fn clear(&mut self, more: Runs<A>) -> Result<(), AllocError>
        ensures ok { OnOk result (self.new ≡ clear_part more self.old) }
        ensures err { OnErr result (self.new ≡ self.old) }
    {
        let mut gone = Runs::new(self.alloc);
        gone.push_packets(self.current.packets())?;
        self.clear_current(gone, more)?;
        Ok(())
    }

    /// The same for packets of one stream in order: it looks at each record only where `lost` has grown, and the packets come
    /// out.
    pub fn clear_out(&mut self, more: Runs<A>) -> Result<Vec<PacketText<A>, A>, AllocError>
        requires { GapsShow 0 self.old.current.packets }
        ensures packets { IfOk result (λ t. t.items ≡ self.old.current.packets) }
        ensures ok { OnOk result (self.new ≡ clear_part more self.old) }
        ensures err { OnErr result (self.new ≡ self.old) }
    {
        let mut gone = Runs::new(self.alloc);
        gone.push_by_lost(self.current.packets())?;
        self.clear_current(gone, more)
    }

    /// Moves the packets of the current part out, and keeps their runs, which are these, and then more.
    fn clear_current(
        &mut self,
        mut gone: Runs<A>,
        more: Runs<A>,
    ) -> Result<Vec<PacketText<A>, A>, AllocError>
        requires { gone ≡ packet_runs self.old.current.packets }
        ensures packets { IfOk result (λ t. t.items ≡ self.old.current.packets) }
        ensures ok { OnOk result (self.new ≡ clear_part more self.old) }
        ensures err { OnErr result (self.new ≡ self.old) }
    {
        gone.append(more)?;
        self.cleared.append(gone)?;
        let next = Part::new(self.alloc, self.current.id());
        Ok(mem::replace(&mut self.current, next).into_texts())
    }
}

/// Parts with room for more packets in the current one, and for one more closed part: what is done with them can't fail.
/// Contracts see a `ReadyState`.
#[derive(Drop)]
pub struct ReadyParts<A: Allocator = Global> {
    alloc: A,
    closed: ClosedParts<A>,
    id: u64,
    records: u64,
    bytes: u128,
    texts: Vec<PacketText<A>, A>,
    cleared: Runs<A>,
}

impl<A: Allocator> Model for ReadyParts<A> {
    ghost use Rattle.std.specs.Prelude.{◌≡◌, ◌-◌, length, vec_capacity, vec_len};
    ghost use Rattle.tr_book.specs.Closed.{HasRoom, IsClosed, closed_of, parts_of};
    ghost use Rattle.tr_book.specs.Parts.{AreCounted, ReadyState, part_state};

    ghost Value = { ReadyState };

    ghost view = { λ r. record {
      parts = parts_of r.closed (part_state r.id r.texts.items) r.cleared;
      room = vec_capacity r.texts - vec_len r.texts;
    } };

    ghost invariant = { λ r. (r.id ≡ length (closed_of r.closed)) × AreCounted r.records r.bytes r.texts.items
        × IsClosed r.closed × HasRoom r.closed };
}

impl<A: Allocator + Copy> ReadyParts<A> {
    /// The parts, as they were.
    pub fn into_parts(self) -> Parts<A>
        ensures { result ≡ self.parts }
    {
        let ReadyParts {
            alloc,
            closed,
            id,
            records,
            bytes,
            texts,
            cleared,
        } = self;
        Parts {
            alloc,
            closed,
            current: Part::held(id, records, bytes, texts),
            cleared,
        }
    }

    /// Adds a packet at the end of the current part.
    pub fn push(self, text: PacketText<A>) -> Parts<A>
        requires room { 1 ≤ self.room }
        requires few { records_of self.parts.current.packets + length text.records < 2 ^ 64 }
        ensures { result ≡ with_packet text self.parts }
    {
        let ReadyParts {
            alloc,
            closed,
            id,
            records,
            bytes,
            mut texts,
            cleared,
        } = self;
        let records = records + text.count() as u64;
        let bytes = bytes + text.text().len() as u128;
        texts.push_reserved(text);
        Parts {
            alloc,
            closed,
            current: Part::held(id, records, bytes, texts),
            cleared,
        }
    }

    /// Moves packets to the end of the current part, in order, closes it and begins the next one, at serial `next`.
    pub fn cut(self, mut packets: Vec<PacketText<A>, A>, next: u64) -> Parts<A>
        requires room { length packets.items ≤ self.room }
        requires few { records_of self.parts.current.packets + records_of packets.items < 2 ^ 64 }
        ensures { result ≡ close_part next (with_packets packets.items self.parts) }
    {
        let ReadyParts {
            alloc,
            mut closed,
            id,
            records,
            bytes,
            mut texts,
            cleared,
        } = self;
        let records = records + records_in(Packets::new(&packets));
        let bytes = bytes + bytes_in(&packets);
        let _ = texts.append(&mut packets);
        closed.push_reserved(Part::held(id, records, bytes, texts), next);
        Parts {
            alloc,
            closed,
            current: Part::new(alloc, id + 1),
            cleared,
        }
    }
}
