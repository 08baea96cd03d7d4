//! What is wrong with the packet at the front of bytes.

ghost use Rattle.std.specs.Prelude.{◌≡◌, option_map};
ghost use Rattle.tr_chunk.specs.Audit.{belongs};
ghost use Rattle.tr_describe.specs.Flaws.{first_unfit};
ghost use Rattle.tr_describe.specs.Steps.{IsStep, step_of};
ghost use Rattle.tr_record.specs.Records.{Entry};

use tr_events::Events;
use tr_packet::{PacketFault, PacketView, decode_packet};
use tr_record::Records;
use uuid::Uuid;

/// What is wrong with a stream's file.
#[derive(Clone, Copy, Debug, PartialEq, Eq, Drop)]
pub(crate) enum Flaw {
    /// It can't be read, or isn't packets of the trace and the stream, end to end.
    Unsound,
    /// The record of this serial doesn't fit as declared.
    Unfit(u64),
}

/// By what a stream's file is judged: the declared events, the trace's identifier, and the stream's number.
#[derive(Drop)]
pub(crate) struct Rule<'a> {
    pub(crate) events: &'a Events,
    pub(crate) uuid: &'a Uuid,
    pub(crate) stream: u64,
}

/// What came of the bytes at the front of what is there.
pub(crate) enum Step {
    /// They are a packet of so many bytes, and nothing is wrong with it.
    Packet(usize),
    /// They are too few for a packet.
    Waits,
    /// This is wrong.
    Wrong(Flaw),
}

/// Whether a packet is of the trace and the stream.
fn belongs(rule: &Rule<'_>, packet: &PacketView<'_>) -> bool
    ensures { result ≡ belongs rule.now.uuid.now rule.now.stream packet.now }
{
    let head = packet.head();
    head.uuid == *rule.uuid && head.stream == rule.stream
}

/// The serial of the first record of a declared id that doesn't fit.
fn first_unfit(events: &Events, records: Records<'_>) -> Option<u64>
    ensures { result ≡ option_map (λ (e : Entry). e.serial) (first_unfit events.now records.entry) }
{
    for one in records {
        if !events.fits(one.id(), one.payload()) {
            return Some(one.serial());
        }
    }
    None
}

/// What comes of bytes that don't start with a packet, for this reason.
fn step_of(fault: PacketFault) -> Step
    ensures { result ≡ step_of fault }
{
    match fault {
        PacketFault::Short => Step::Waits,
        PacketFault::BadMagic
        | PacketFault::BadStreamId
        | PacketFault::BadSize
        | PacketFault::BadRecord
        | PacketFault::SerialOrder
        | PacketFault::MomentOrder => Step::Wrong(Flaw::Unsound),
    }
}

/// Judges the packet that bytes start with.
pub(crate) fn judge_front(rule: &Rule<'_>, bytes: &[u8]) -> Step
    ensures { IsStep rule.now.events.now rule.now.uuid.now rule.now.stream bytes.now result }
{
    let (packet, size) = match decode_packet(bytes) {
        Ok(front) => front,
        Err(fault) => return step_of(fault),
    };
    if !belongs(rule, &packet) {
        return Step::Wrong(Flaw::Unsound);
    }
    match first_unfit(rule.events, packet.records()) {
        Some(serial) => Step::Wrong(Flaw::Unfit(serial)),
        None => Step::Packet(size),
    }
}
