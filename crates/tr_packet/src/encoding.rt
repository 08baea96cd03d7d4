//! Writing a packet's text.

ghost use Rattle.std.specs.Prelude.{◌≡◌, ◌+◌, ◌*◌, ◌≤◌, ◌++◌, IfOk, drop, length, sum_by, vec_len, vec_capacity};
ghost use Rattle.tr_packet.specs.Stores.{with_extent, with_number};
ghost use Rattle.tr_packet.specs.declared.layout.TheConstants.{END_AT, SEQ_AT};
ghost use Rattle.std.specs.Int.{w32, w64, to_le_bytes};
ghost use Rattle.tr_record.specs.Records.{records_text};
ghost use Rattle.tr_record.specs.Weight.{record_weight};
ghost use Rattle.tr_packet.specs.Packets.{header_text, context_text, packet_text, packet_size};
ghost use Rattle.tr_terms.specs.declared.limits.TheConstants.{PACKET_HEADER};

use crate::fields::MAGIC;
use crate::head::Head;
use crate::layout::{END_AT, SEQ_AT};
use crate::packet::Packet;
use std::alloc::{AllocError, Allocator};
use tr_record::{RecViews, put_bytes, put_rec};
use tr_terms::Moment;
use tr_terms::limits::PACKET_HEADER;

/// The text of a packet's header and context after the trace's identifier.
#[inline(always)]
fn numbers_of(head: &Head, bits: u64) -> [u8; 60]
    ensures { result ≡ to_le_bytes w32 0 ++ (to_le_bytes w64 head.now.stream ++ context_text head.now bits) }
{
    let stream = head.stream.to_le_bytes();
    let begin = head.begin.get().to_le_bytes();
    let end = head.end.get().to_le_bytes();
    let bits = bits.to_le_bytes();
    let seq = head.seq.to_le_bytes();
    let lost = head.lost.to_le_bytes();
    [
        0, 0, 0, 0, stream[0], stream[1], stream[2], stream[3], stream[4], stream[5], stream[6],
        stream[7], begin[0], begin[1], begin[2], begin[3], begin[4], begin[5], begin[6], begin[7],
        end[0], end[1], end[2], end[3], end[4], end[5], end[6], end[7], bits[0], bits[1], bits[2],
        bits[3], bits[4], bits[5], bits[6], bits[7], bits[0], bits[1], bits[2], bits[3], bits[4],
        bits[5], bits[6], bits[7], seq[0], seq[1], seq[2], seq[3], seq[4], seq[5], seq[6], seq[7],
        lost[0], lost[1], lost[2], lost[3], lost[4], lost[5], lost[6], lost[7],
    ]
}

/// Writes a packet's header and context, which state its size in bits, into room that is reserved.
pub(crate) fn put_head<A: Allocator>(out: &mut Vec<u8, A>, head: &Head, bits: u64)
    requires uuid { length head.now.uuid ≡ 16 }
    requires room { vec_len out.old + PACKET_HEADER ≤ vec_capacity out.old }
    ensures items { out.new.items ≡ (out.old.items ++ header_text head.now) ++ context_text head.now bits }
    ensures len { vec_len out.new ≡ vec_len out.old + PACKET_HEADER }
    ensures capacity { vec_capacity out.old ≤ vec_capacity out.new }
{
    put_bytes(out, &MAGIC);
    put_bytes(out, head.uuid.as_bytes());
    put_bytes(out, &numbers_of(head, bits));
}

/// Writes a packet's header and context, which state its size in bits, over the bytes at the front.
pub fn write_head(bytes: &mut [u8], head: &Head, bits: u64)
    requires uuid { length head.now.uuid ≡ 16 }
    requires room { PACKET_HEADER ≤ length bytes.old }
    ensures { bytes.new ≡ (header_text head.now ++ context_text head.now bits) ++ drop PACKET_HEADER bytes.old }
{
    let (magic, rest) = bytes.split_at_mut(4);
    magic.copy_from_slice(&MAGIC);
    let (uuid, rest) = rest.split_at_mut(16);
    uuid.copy_from_slice(head.uuid.as_bytes());
    let (numbers, _) = rest.split_at_mut(60);
    numbers.copy_from_slice(&numbers_of(head, bits));
}

/// Writes a number over the eight bytes from this place on, lowest byte first.
#[inline(always)]
pub fn write_number(bytes: &mut [u8], at: usize, number: u64)
    requires { at + 8 ≤ length bytes.old }
    ensures { bytes.new ≡ with_number at number bytes.old }
{
    let (_, rest) = bytes.split_at_mut(at);
    let (field, _) = rest.split_at_mut(8);
    field.copy_from_slice(&number.to_le_bytes());
}

/// Writes the moment at which a packet ends, and its size in bits, over those in its header and context: three numbers side by
/// side, which the compiler stores together.
#[inline(always)]
pub fn write_extent(bytes: &mut [u8], end: Moment, bits: u64)
    requires { PACKET_HEADER ≤ length bytes.old }
    ensures { bytes.new ≡ with_extent end bits bytes.old }
{
    // Callers prove this. A branch that ends here lets the compiler leave out the tests of the places below.
    let Some(_) = bytes.len().checked_sub(PACKET_HEADER) else {
        unreachable!()
    };
    let end = end.get().to_le_bytes();
    let bits = bits.to_le_bytes();
    let (_, rest) = bytes.split_at_mut(END_AT);
    let (fields, _) = rest.split_at_mut(SEQ_AT - END_AT);
    fields.copy_from_slice(&[
        end[0], end[1], end[2], end[3], end[4], end[5], end[6], end[7], bits[0], bits[1], bits[2],
        bits[3], bits[4], bits[5], bits[6], bits[7], bits[0], bits[1], bits[2], bits[3], bits[4],
        bits[5], bits[6], bits[7],
    ]);
}

fn put_records<A: Allocator, B: Allocator>(out: &mut Vec<u8, B>, records: RecViews<'_, A>)
    requires { vec_len out.old + sum_by record_weight records ≤ vec_capacity out.old }
    ensures items { out.new.items ≡ out.old.items ++ records_text records.entry }
    ensures len { vec_len out.new ≡ vec_len out.old + sum_by record_weight records.entry }
{
    for r in records {
        put_rec(out, &r);
    }
}

/// The bytes of a packet, in memory of their own. Fails if an allocation fails.
pub fn encode_packet<A: Allocator, B: Allocator>(
    alloc: B,
    packet: &Packet<A>,
) -> Result<Vec<u8, B>, AllocError>
    ensures text { IfOk result (λ v. v.items ≡ packet_text packet.now) }
    ensures size { IfOk result (λ v. vec_len v ≡ packet_size packet.now) }
{
    let head = packet.head();
    let size = packet.size();
    let mut out = Vec::with_capacity(alloc, size)?;
    put_head(&mut out, &head, 8 * size as u64);
    put_records(&mut out, packet.records());
    Ok(out)
}
