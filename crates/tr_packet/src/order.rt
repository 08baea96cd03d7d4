//! Tests of a packet's records: their order, and what they weigh.

ghost use Rattle.std.specs.Prelude.{◌≡◌, ◌≤◌, ◌↔◌, IsTrue};
ghost use Rattle.std.specs.List.{AllByRecursion};
ghost use Rattle.tr_record.specs.Records.{Fits};
ghost use Rattle.tr_record.specs.Weight.{weight_of};
ghost use Rattle.tr_packet.specs.Order.{follows, serials_rise, in_order, moments_hold};
ghost use Rattle.tr_packet.specs.Packets.{MakePacket};
ghost use Rattle.tr_terms.specs.declared.limits.TheConstants.{LARGEST_PACKET};

use std::alloc::Allocator;
use tr_record::Rec;
use tr_terms::Moment;
use tr_terms::limits::{LARGEST_PACKET, PACKET_HEADER};

/// The bytes of a packet of these records.
pub(crate) fn size_of<A: Allocator>(records: &[Rec<A>]) -> usize
    requires { weight_of records.now ≤ LARGEST_PACKET }
    ensures { result ≡ weight_of records.now }
{
    let mut size = PACKET_HEADER;
    for r in records {
        size += r.size();
    }
    size
}

/// Whether a packet of these records has at most `LARGEST_PACKET` bytes.
fn are_small<A: Allocator>(records: &[Rec<A>]) -> bool
    ensures small { IsTrue result ↔ (weight_of records.now ≤ LARGEST_PACKET) }
    ensures fits { IsTrue result → AllByRecursion Fits records.now }
{
    let mut weight = PACKET_HEADER;
    for r in records {
        weight += r.size();
        if weight > LARGEST_PACKET {
            return false;
        }
    }
    true
}

/// Whether a serial, or a packet's number, may come after the one before it, if any.
pub fn may_follow(before: Option<u64>, next: u64) -> bool
    ensures { result ≡ follows before next }
{
    match before {
        None => true,
        Some(before) => before < next,
    }
}

/// Whether the serials rise strictly.
fn do_serials_rise<A: Allocator>(records: &[Rec<A>]) -> bool
    ensures { result ≡ serials_rise records.now }
{
    let mut before = None;
    for r in records {
        if !may_follow(before, r.serial()) {
            return false;
        }
        before = Some(r.serial());
    }
    true
}

/// Whether the moments don't fall, from the first bound to the last one.
fn are_in_order<A: Allocator>(from: Moment, to: Moment, records: &[Rec<A>]) -> bool
    ensures { result ≡ in_order from to records.now }
{
    let mut before = from;
    for r in records {
        if r.moment().get() < before.get() {
            return false;
        }
        before = r.moment();
    }
    before.get() <= to.get()
}

/// Whether `begin` is the first record's moment, and the moments don't fall up to `end`.
fn do_moments_hold<A: Allocator>(begin: Moment, end: Moment, records: &[Rec<A>]) -> bool
    ensures { result ≡ moments_hold begin end records.now }
{
    match records.first() {
        None => false,
        Some(first) => first.moment().get() == begin.get() && are_in_order(begin, end, records),
    }
}

/// Whether these records make a packet that begins and ends at these moments.
pub(crate) fn make_packet<A: Allocator>(begin: Moment, end: Moment, records: &[Rec<A>]) -> bool
    ensures { IsTrue result ↔ MakePacket begin end records.now }
{
    if !are_small(records) {
        return false;
    }
    if !do_serials_rise(records) {
        return false;
    }
    do_moments_hold(begin, end, records)
}
