//! The fields of a packet's header and context, by their places.

ghost use Rattle.std.specs.Prelude.{◌≡◌, ◌+◌, ◌≤◌, ◌/◌, ◌<◌, ◌⊎◌, length, IfSome, IfNone, IfOk, IfErr, Some, None, true, false};
ghost use Rattle.std.specs.Int.{w32, w64};
ghost use Rattle.tr_terms.specs.declared.limits.TheConstants.{LAST_MOMENT, PACKET_HEADER};
ghost use Rattle.tr_packet.specs.Decoding.{number_from, bytes_from, packet_bits_in, sizes_hold, fields_fault, front_fault, begin_in, end_in, contents_in};

use crate::faults::PacketFault;
use crate::head::Head;
use crate::layout::{
    BEGIN_AT, CONTENT_SIZE_AT, END_AT, LOST_AT, PACKET_SIZE_AT, SEQ_AT, STREAM_AT, STREAM_ID_AT,
};
use tr_record::{u32_at, u64_at};
use tr_terms::Moment;
use tr_terms::limits::{LARGEST_PACKET, PACKET_HEADER, SMALLEST_PACKET};
use uuid::Uuid;

/// The number 0xC1FC1FC1, lowest byte first.
pub(crate) const MAGIC: [u8; 4] = [0xC1, 0x1F, 0xFC, 0xC1];

/// The number in the four bytes from `at` on, lowest byte first.
fn u32_from(bytes: &[u8], at: usize) -> u32
    requires { at + 4 ≤ length bytes.now }
    ensures { result ≡ number_from w32 at bytes.now }
{
    let (_, rest) = bytes.split_at(at);
    match u32_at(rest) {
        Some((number, _)) => number,
        None => unreachable!(),
    }
}

/// The number in the eight bytes from `at` on, lowest byte first.
pub(crate) fn u64_from(bytes: &[u8], at: usize) -> u64
    requires { at + 8 ≤ length bytes.now }
    ensures { result ≡ number_from w64 at bytes.now }
{
    let (_, rest) = bytes.split_at(at);
    match u64_at(rest) {
        Some((number, _)) => number,
        None => unreachable!(),
    }
}

/// The trace's identifier.
fn uuid_in(bytes: &[u8]) -> Uuid
    requires { 20 ≤ length bytes.now }
    ensures value { result ≡ bytes_from 16 4 bytes.now }
    ensures len { length result ≡ 16 }
{
    let (_, rest) = bytes.split_at(4);
    match rest.split_first_chunk::<16>() {
        Some((uuid, _)) => Uuid::from_bytes(*uuid),
        None => unreachable!(),
    }
}

/// The number of bytes that these sizes, in bits, say. None unless they are equal, a multiple of 8, and a packet may have as
/// many bytes.
fn bytes_of(content: u64, size: u64) -> Option<usize>
    ensures some { IfSome result (λ n. (sizes_hold content size ≡ true) × (n ≡ size / 8)) }
    ensures none { IfNone result (sizes_hold content size ≡ false) }
{
    if content != size || size % 8 != 0 {
        return None;
    }
    let bytes = size / 8;
    if !(SMALLEST_PACKET as u64..=LARGEST_PACKET as u64).contains(&bytes) {
        return None;
    }
    Some(bytes as usize)
}

/// The size of the packet at the front, by its header and context, or the first fault of these. It doesn't look whether that
/// many bytes are there.
#[tactic(auto, unfolding(crate::specs::Decoding::fields_fault))]
pub fn size_by_fields(bytes: &[u8]) -> Result<usize, PacketFault>
    ensures size { IfOk result (λ n. (fields_fault bytes.now ≡ None) × (n ≡ packet_bits_in bytes.now / 8)) }
    ensures fault { IfErr result (λ f. fields_fault bytes.now ≡ Some f) }
{
    if bytes.len() < PACKET_HEADER {
        return Err(PacketFault::Short);
    }
    if !bytes.starts_with(&MAGIC) {
        return Err(PacketFault::BadMagic);
    }
    if u32_from(bytes, STREAM_ID_AT) != 0 {
        return Err(PacketFault::BadStreamId);
    }
    let Some(size) = bytes_of(
        u64_from(bytes, CONTENT_SIZE_AT),
        u64_from(bytes, PACKET_SIZE_AT),
    ) else {
        return Err(PacketFault::BadSize);
    };
    Ok(size)
}

/// The size of the packet at the front, if that many bytes are there, or the first fault of its fields and of that.
#[tactic(auto, unfolding(crate::specs::Decoding::front_fault))]
pub(crate) fn size_of_front(bytes: &[u8]) -> Result<usize, PacketFault>
    ensures size { IfOk result (λ n. (front_fault bytes.now ≡ None) × (n ≡ packet_bits_in bytes.now / 8)) }
    ensures fault { IfErr result (λ f. front_fault bytes.now ≡ Some f) }
{
    let size = size_by_fields(bytes)?;
    if bytes.len() < size {
        return Err(PacketFault::Short);
    }
    Ok(size)
}

/// What the packet at the front says beside its records. None if a moment is above the limit.
pub(crate) fn head_in(bytes: &[u8]) -> Option<Head>
    requires { PACKET_HEADER ≤ length bytes.now }
    ensures some { IfSome result (λ h. h ≡ (contents_in bytes.now).head) }
    ensures limits { IfSome result (λ h. (begin_in bytes.now ≤ LAST_MOMENT) × (end_in bytes.now ≤ LAST_MOMENT)) }
    ensures none { IfNone result ((LAST_MOMENT < begin_in bytes.now) ⊎ (LAST_MOMENT < end_in bytes.now)) }
{
    let begin = Moment::new(u64_from(bytes, BEGIN_AT))?;
    let end = Moment::new(u64_from(bytes, END_AT))?;
    Some(Head {
        uuid: uuid_in(bytes),
        stream: u64_from(bytes, STREAM_AT),
        begin,
        end,
        seq: u64_from(bytes, SEQ_AT),
        lost: u64_from(bytes, LOST_AT),
    })
}
