//! A part: what a stream's ring gave to one trace chunk.

ghost use Rattle.std.specs.Prelude.{◌≡◌, ◌≢◌, ◌≤◌, ◌*◌, ◌<◌, ◌^◌, [], None, IfOk, OnOk, OnErr, is_some, length};
ghost use Rattle.tr_book.specs.Parts.{IsOrdered, bytes_of, records_of, empty_part, part_bytes, part_packets, part_records, part_state, release, seq_among, seq_in_part};
ghost use Rattle.tr_book.specs.Runs.{GapsShow, PacketsRise, first_in, lost_before, packet_runs};
ghost use Rattle.tr_terms.specs.declared.limits.TheConstants.{LARGEST_PACKET};

use crate::runs::{Runs, has_known};
use std::alloc::{AllocError, Allocator, Global};
use std::marker::Model;
use std::mem;
use tr_packet::{PacketText, Packets};

/// What a part has of its packets.
#[derive(Drop)]
pub(crate) enum Body<A: Allocator> {
    /// The packets, as their texts.
    Held(Vec<PacketText<A>, A>),
    /// What is kept of them after a release.
    Released {
        /// Which serials each had.
        runs: Runs<A>,
        /// How many there were.
        packets: usize,
    },
}

/// The packets of one trace chunk, in order, as their texts, and how many records and bytes they have; or what is kept of them
/// once they are released. Contracts see a `PartState`.
#[derive(Drop)]
pub struct Part<A: Allocator = Global> {
    id: u64,
    records: u64,
    bytes: u128,
    body: Body<A>,
}

impl<A: Allocator> Model for Part<A> {
    ghost use Rattle.tr_book.specs.Parts.{PartState};

    ghost Value = { PartState };

    ghost use Rattle.tr_book.specs.Bodies.{IsBodyOf, part_of_body};

    ghost view = { λ p. part_of_body p.id p.records p.bytes p.body };

    ghost invariant = { λ p. IsBodyOf p.records p.bytes p.body };
}

/// How many records packets have.
pub fn records_in<A: Allocator>(packets: Packets<'_, A>) -> u64
    requires { records_of packets < 2 ^ 64 }
    ensures { result ≡ records_of packets.entry }
{
    let mut count = 0;
    for packet in packets {
        count += packet.count() as u64;
    }
    count
}

/// How many bytes the texts of packets have.
pub(crate) fn bytes_in<A: Allocator>(texts: &[PacketText<A>]) -> u128
    requires { records_of texts.now < 2 ^ 64 }
    ensures value { result ≡ bytes_of texts.now }
    ensures small { result ≤ LARGEST_PACKET * records_of texts.now }
{
    let mut bytes = 0;
    for text in texts {
        bytes += text.text().len() as u128;
    }
    bytes
}

/// The serial of its first record.
fn first_serial<A: Allocator>(text: &PacketText<A>) -> u64
    ensures { result ≡ first_in text.now.records 0 }
{
    match text.view().records().next() {
        Some(first) => first.serial(),
        None => 0,
    }
}

/// The number of the packet that has the record of this serial, among packets that rise. It looks at few of them, and at all
/// records of at most one.
fn search_among<A: Allocator>(texts: &[PacketText<A>], serial: u64) -> Option<u64>
    requires rise { PacketsRise 0 texts.now }
    requires gaps { GapsShow 0 texts.now }
    ensures { result ≡ seq_among serial texts.now }
{
    let after = texts.partition_point(|text| first_serial(text) <= serial);
    if after == 0 {
        return None;
    }
    let lost = lost_before(texts, after - 1);
    let text = &texts[after - 1];
    let head = text.head();
    if has_known(
        serial,
        text.count(),
        text.view().records(),
        head.lost == lost,
    ) {
        Some(head.seq)
    } else {
        None
    }
}

/// How much was lost when the packet before this one was closed: nothing if it is the first.
fn lost_before<A: Allocator>(texts: &[PacketText<A>], place: usize) -> u64
    requires { place < length texts.now }
    ensures { result ≡ lost_before 0 place texts.now }
{
    if place == 0 {
        return 0;
    }
    texts[place - 1].head().lost
}

/// The number of the packet that has the record of this serial.
fn seq_among<A: Allocator>(packets: Packets<'_, A>, serial: u64) -> Option<u64>
    ensures { result ≡ seq_among serial packets.entry }
{
    for packet in packets {
        if packet.records().has(serial) {
            return Some(packet.head().seq);
        }
    }
    None
}

impl<A: Allocator + Copy> Part<A> {
    /// A part without packets. It takes no memory.
    pub(crate) fn new(alloc: A, id: u64) -> Part<A>
        ensures { result ≡ empty_part id }
    {
        Part {
            id,
            records: 0,
            bytes: 0,
            body: Body::Held(Vec::new(alloc)),
        }
    }

    /// Gives up its packets, and keeps which serials each had, and how many packets, records and bytes these were. It takes
    /// memory only if it has packets. If an allocation fails, the part is as it was.
    pub(crate) fn release(&mut self, alloc: A) -> Result<(), AllocError>
        requires { self.old.released ≡ None }
        ensures ok { OnOk result (self.new ≡ release self.old) }
        ensures err { OnErr result (self.new ≡ self.old) }
        ensures memory { OnErr result (self.old.packets ≢ []) }
    {
        let runs = Runs::of_packets(alloc, self.packets())?;
        let _ = self.give_up(runs);
        Ok(())
    }

    /// The same for packets of one stream in order: it looks at each record only where `lost` has grown, and the packets come
    /// out.
    pub(crate) fn release_out(&mut self, alloc: A) -> Result<Vec<PacketText<A>, A>, AllocError>
        requires held { self.old.released ≡ None }
        requires gaps { GapsShow 0 self.old.packets }
        ensures packets { IfOk result (λ t. t.items ≡ self.old.packets) }
        ensures ok { OnOk result (self.new ≡ release self.old) }
        ensures err { OnErr result (self.new ≡ self.old) }
        ensures memory { OnErr result (self.old.packets ≢ []) }
    {
        let runs = Runs::of_packets_by_lost(alloc, self.packets())?;
        Ok(self.give_up(runs))
    }

    /// Moves its packets out, and keeps their runs, which are these.
    fn give_up(&mut self, runs: Runs<A>) -> Vec<PacketText<A>, A>
        requires held { self.old.released ≡ None }
        requires runs { runs ≡ packet_runs self.old.packets }
        ensures packets { result.items ≡ self.old.packets }
        ensures after { self.new ≡ release self.old }
    {
        let Body::Held(texts) = &self.body else {
            unreachable!()
        };
        let packets = texts.len();
        match mem::replace(&mut self.body, Body::Released { runs, packets }) {
            Body::Held(texts) => texts,
            Body::Released { .. } => unreachable!(),
        }
    }
}

impl<A: Allocator> Part<A> {
    /// The number of its trace chunk.
    pub fn id(&self) -> u64
        ensures { result ≡ self.now.id }
    {
        self.id
    }

    /// The texts of its packets, in order. A released part has none.
    pub fn texts(&self) -> &[PacketText<A>]
        ensures { result.now ≡ self.now.packets }
    {
        match &self.body {
            Body::Held(texts) => texts.as_slice(),
            Body::Released { .. } => &[],
        }
    }

    /// Its packets, in order. A released part has none.
    pub fn packets(&self) -> Packets<'_, A>
        ensures { result ≡ self.now.packets }
    {
        Packets::new(self.texts())
    }

    /// Whether its packets were released.
    pub fn is_released(&self) -> bool
        ensures { result ≡ is_some self.now.released }
    {
        match &self.body {
            Body::Held(_) => false,
            Body::Released { .. } => true,
        }
    }

    /// How many packets it has, or had before they were released.
    pub fn packet_count(&self) -> u64
        ensures { result ≡ part_packets self.now }
    {
        match &self.body {
            Body::Held(texts) => texts.len() as u64,
            Body::Released { packets, .. } => *packets as u64,
        }
    }

    /// The bytes of all its packets, or of those that it had before they were released.
    pub fn bytes(&self) -> u128
        ensures value { result ≡ part_bytes self.now }
        ensures small { result ≤ LARGEST_PACKET * part_records self.now }
    {
        self.bytes
    }

    /// How many records its packets have, or had before they were released.
    pub fn records(&self) -> u64
        ensures { result ≡ part_records self.now }
    {
        self.records
    }

    /// The number of its packet that has the record of this serial, or had it before it was released.
    pub fn seq_of(&self, serial: u64) -> Option<u64>
        ensures { result ≡ seq_in_part serial self.now }
    {
        match &self.body {
            Body::Held(texts) => seq_among(Packets::new(texts), serial),
            Body::Released { runs, .. } => runs.seq_of(serial),
        }
    }

    /// The same for a part whose serials rise. It looks at few of its packets, and at all records of at most one.
    pub fn search(&self, serial: u64) -> Option<u64>
        requires { IsOrdered self.now }
        ensures { result ≡ seq_in_part serial self.now }
    {
        match &self.body {
            Body::Held(texts) => search_among(texts, serial),
            Body::Released { runs, .. } => runs.search(serial),
        }
    }

    /// The part with these packets, which have so many records and bytes.
    pub(crate) fn held(id: u64, records: u64, bytes: u128, texts: Vec<PacketText<A>, A>) -> Part<A>
        requires records { records ≡ records_of texts.items }
        requires bytes { bytes ≡ bytes_of texts.items }
        requires small { bytes ≤ LARGEST_PACKET * records }
        ensures { result ≡ part_state id texts.items }
    {
        Part {
            id,
            records,
            bytes,
            body: Body::Held(texts),
        }
    }

    /// The texts of its packets, moved out.
    pub(crate) fn into_texts(self) -> Vec<PacketText<A>, A>
        requires { self.released ≡ None }
        ensures { result.items ≡ self.packets }
    {
        match self.body {
            Body::Held(texts) => texts,
            Body::Released { .. } => unreachable!(),
        }
    }
}
