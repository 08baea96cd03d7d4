//! What is counted of a stream, packet by packet.

ghost use Rattle.std.specs.Prelude.{◌≡◌, ℕ, List, option_map};
ghost use Rattle.tr_chunk.specs.Audit.{starts_above};
ghost use Rattle.tr_packet.specs.Packets.{packet_size};
ghost use Rattle.tr_survey.specs.Listing.{key_of};
ghost use Rattle.tr_survey.specs.declared.tally.Last as value;
ghost use Rattle.tr_survey.specs.Streams.{absent_at, absent_before, and_one, before, below_at, broken, cause_of, discarded, falls, last_of, lost_by, next_number, no_tally, place, taken_at, taken_before, taken_by, taken_then, tally_after, unexplained};

use crate::losses::{Taken, taken_after, unplaced};
use crate::names::Numbered;
use tr_chunk::AuditCause;
use tr_packet::{PacketView, may_follow};
use uuid::Uuid;

/// A packet, by what the next one is judged by: its archive's number, its number, its last serial, when it ended, and of its
/// stream by then how many records were discarded and, if that is known, which serials were taken.
#[derive(Clone, Copy, Debug, PartialEq, Eq)]
pub struct Last {
    pub archive: u64,
    pub seq: u64,
    pub serial: u64,
    pub end: u64,
    pub lost: u64,
    pub taken: Option<Taken>,
}

/// The counts of a stream so far, each up to the greatest u64.
#[derive(Clone, Copy, Debug, PartialEq, Eq)]
pub struct Tally {
    /// Its packets, but for those at fault.
    pub packets: u64,
    /// Their records.
    pub records: u64,
    /// Their bytes.
    pub bytes: u64,
    /// The numbers that no packet has, as far as this is known.
    pub absent: u64,
    /// Those of them that are below the first packet.
    pub below: u64,
    /// When the first packet began.
    pub first: Option<u64>,
    /// The last packet.
    pub last: Option<Last>,
    /// A fault came after it: what lies between it and the next packet isn't known.
    pub is_broken: bool,
    /// The faults of the survey.
    pub faults: u64,
}

/// The first number after a packet.
pub fn next_number(last: Option<Last>) -> u64
    ensures { result ≡ next_number last }
{
    match last {
        None => 0,
        Some(last) => last.seq.saturating_add(1),
    }
}

/// How many numbers are absent right before one.
pub fn absent_before(last: Option<Last>, seq: u64) -> u64
    ensures { result ≡ absent_before last seq }
{
    seq.saturating_sub(next_number(last))
}

/// How many records were discarded by the end of a packet.
pub fn lost_by(last: Option<Last>) -> u64
    ensures { result ≡ lost_by last }
{
    match last {
        None => 0,
        Some(last) => last.lost,
    }
}

/// How many records were discarded since the packet before.
pub fn discarded(last: Option<Last>, packet: &PacketView<'_>) -> u64
    ensures { result ≡ discarded last packet.now }
{
    packet.head().lost.saturating_sub(lost_by(last))
}

/// The serials that were taken by the end of a packet, if they are known.
fn taken_by(last: Option<Last>) -> Option<Taken>
    ensures { result ≡ taken_by last }
{
    match last {
        None => Some(Taken::none()),
        Some(last) => last.taken,
    }
}

/// The same, if no number is absent right before the next packet.
pub fn taken_before(last: Option<Last>, packet: &PacketView<'_>) -> Option<Taken>
    ensures { result ≡ taken_before last packet.now }
{
    if absent_before(last, packet.head().seq) == 0 {
        taken_by(last)
    } else {
        None
    }
}

/// The serials that are taken by the end of the next packet, of an archive of this number.
fn taken_at(archive: u64, last: Option<Last>, packet: &PacketView<'_>) -> Option<Taken>
    ensures { result ≡ taken_at archive last packet.now }
{
    let count = discarded(last, packet);
    if count == 0 {
        return Some(taken_after(archive, Taken::none(), packet));
    }
    let taken = taken_before(last, packet)?;
    let rest = unplaced(count, taken.next, packet)?;
    Some(taken_after(archive, taken, packet).and_more(rest))
}

/// Whether a packet says that fewer records were discarded than the one before says.
pub fn falls(last: Option<Last>, packet: &PacketView<'_>) -> bool
    ensures { result ≡ falls last packet.now }
{
    packet.head().lost < lost_by(last)
}

/// Whether a packet's first serial may come after one, if any.
fn may_start(before: Option<u64>, packet: &PacketView<'_>) -> bool
    ensures { result ≡ starts_above before packet.now.records }
{
    match packet.records().next() {
        None => true,
        Some(record) => may_follow(before, record.serial()),
    }
}

fn seq_of(last: Option<Last>) -> Option<u64>
    ensures { result ≡ option_map (λ (l : value.Last). l.seq) last }
{
    match last {
        None => None,
        Some(last) => Some(last.seq),
    }
}

fn serial_of(last: Option<Last>) -> Option<u64>
    ensures { result ≡ option_map (λ (l : value.Last). l.serial) last }
{
    match last {
        None => None,
        Some(last) => Some(last.serial),
    }
}

/// What is wrong with a packet of this trace and stream after another one, if anything.
pub fn cause_of(
    uuid: &Uuid,
    stream: u64,
    last: Option<Last>,
    packet: &PacketView<'_>,
) -> Option<AuditCause>
    ensures { result ≡ cause_of uuid.now stream last packet.now }
{
    let head = packet.head();
    if head.uuid != *uuid || head.stream != stream {
        return Some(AuditCause::Foreign);
    }
    if !may_follow(seq_of(last), head.seq) {
        return Some(AuditCause::NumberRepeat);
    }
    if !may_start(serial_of(last), packet) {
        return Some(AuditCause::SerialRepeat);
    }
    None
}

/// One fault more, if this is one.
fn and_one(faults: u64, is_fault: bool) -> u64
    ensures { result ≡ and_one faults is_fault }
{
    if is_fault {
        faults.saturating_add(1)
    } else {
        faults
    }
}

/// What the next packet is judged by.
fn last_of(archive: u64, taken: Option<Taken>, packet: &PacketView<'_>) -> Last
    ensures { result ≡ last_of archive taken packet.now }
{
    let head = packet.head();
    Last {
        archive,
        seq: head.seq,
        serial: packet.last_serial(),
        end: head.end.get(),
        lost: head.lost,
        taken,
    }
}

impl Tally {
    /// Before the first file, after this number of faults.
    pub fn new(faults: u64) -> Tally
        ensures { result ≡ no_tally faults }
    {
        Tally {
            packets: 0,
            records: 0,
            bytes: 0,
            absent: 0,
            below: 0,
            first: None,
            last: None,
            is_broken: false,
            faults,
        }
    }

    /// The packet right before the next one, if it is known.
    pub fn before(&self) -> Option<Last>
        ensures { result ≡ before self.now }
    {
        if self.is_broken { None } else { self.last }
    }

    /// After a fault.
    pub fn broken(&self) -> Tally
        ensures { result ≡ broken self.now }
    {
        Tally {
            is_broken: true,
            faults: self.faults.saturating_add(1),
            ..*self
        }
    }

    /// The numbers absent right before a packet, as far as this is known.
    fn absent_at(&self, seq: u64) -> u64
        ensures { result ≡ absent_at self.now seq }
    {
        if self.is_broken {
            0
        } else {
            absent_before(self.last, seq)
        }
    }

    /// The same, of the first packet alone.
    fn below_at(&self, seq: u64) -> u64
        ensures { result ≡ below_at self.now seq }
    {
        if self.packets == 0 {
            self.absent_at(seq)
        } else {
            0
        }
    }

    /// The serials that are taken after a packet of an archive, if they are known.
    fn taken_then(&self, archive: u64, packet: &PacketView<'_>) -> Option<Taken>
        ensures { result ≡ taken_then archive self.now packet.now }
    {
        if self.is_broken {
            None
        } else {
            taken_at(archive, self.last, packet)
        }
    }

    /// The counts after a packet of an archive, which has `size` bytes.
    pub fn after(&self, archive: &Numbered, packet: &PacketView<'_>, size: usize) -> Tally
        requires { size ≡ packet_size packet.now }
        ensures { (uuid : List ℕ) (stream : ℕ) → result ≡ tally_after (place uuid stream (key_of archive.now)) self.now packet.now }
    {
        let head = packet.head();
        let falls = falls(self.before(), packet);
        let taken = self.taken_then(archive.number, packet);
        Tally {
            packets: self.packets.saturating_add(1),
            records: self.records.saturating_add(packet.count() as u64),
            bytes: self.bytes.saturating_add(size as u64),
            absent: self.absent.saturating_add(self.absent_at(head.seq)),
            below: self.below.saturating_add(self.below_at(head.seq)),
            first: Some(self.first.unwrap_or(head.begin.get())),
            last: Some(last_of(archive.number, taken, packet)),
            is_broken: false,
            faults: and_one(self.faults, falls),
        }
    }

    /// The numbers that only a clear or damage takes.
    pub(crate) fn unexplained(&self, are_deleted: bool) -> u64
        ensures { result ≡ unexplained are_deleted self.now }
    {
        if lost_by(self.last) == 0 {
            0
        } else if are_deleted {
            self.absent.saturating_sub(self.below)
        } else {
            self.absent
        }
    }
}
