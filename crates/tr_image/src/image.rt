//! The packets that stand in memory.

ghost use Rattle.std.specs.Prelude.{◌≡◌, ◌≤◌, ◌*◌, ◌/◌, ◌%◌, IfOk, IfSome, IfNone, length};
ghost use Rattle.tr_packet.specs.Decoding.{content_bits_in, packet_bits_in};
ghost use Rattle.tr_packet.specs.Stores.{with_number};
ghost use Rattle.tr_packet.specs.declared.layout.TheConstants.{PACKET_SIZE_AT};
ghost use Rattle.tr_record.specs.Whole.{AreBytes};
ghost use Rattle.tr_image.specs.Image.{packet_at, packet_of};
ghost use Rattle.tr_subbuf.specs.Stores.{NoneStands};
ghost use Rattle.tr_terms.specs.declared.limits.TheConstants.{LARGEST_PACKET, PACKET_HEADER};

use std::alloc::{AllocError, Global};
use tr_packet::layout::{CONTENT_SIZE_AT, PACKET_SIZE_AT};
use tr_packet::{PacketText, decode_packet, write_number};
use tr_record::u64_at;
use tr_terms::limits::{LARGEST_PACKET, PACKET_HEADER};
use uuid::Uuid;

/// The number 0xC1FC1FC1, lowest byte first, with which a packet begins.
const MAGIC: [u8; 4] = [0xC1, 0x1F, 0xFC, 0xC1];

/// The number that is in memory as a packet's content_size.
fn content_bits(memory: &[u8]) -> u64
    requires { PACKET_HEADER ≤ length memory.now }
    ensures { result ≡ content_bits_in memory.now }
{
    let (_, rest) = memory.split_at(CONTENT_SIZE_AT);
    match u64_at(rest) {
        Some((bits, _)) => bits,
        None => unreachable!(),
    }
}

/// The number that is in memory as a packet's content_size, if memory begins as a packet does, and a packet of that size may
/// be there; the decoder judges the rest.
fn content_at(memory: &[u8]) -> Option<u64>
    ensures bits { IfSome result (λ bits. bits ≡ content_bits_in memory.now) }
    ensures whole { IfSome result (λ bits. bits % 8 ≡ 0) }
    ensures low { IfSome result (λ bits. PACKET_HEADER ≤ bits / 8) }
    ensures there { IfSome result (λ bits. bits / 8 ≤ length memory.now) }
    ensures none { IfNone result (NoneStands memory.now) }
{
    if memory.len() < PACKET_HEADER || !memory.starts_with(&MAGIC) {
        return None;
    }
    let bits = content_bits(memory);
    let size = bits / 8;
    if bits % 8 != 0 || size < PACKET_HEADER as u64 || size > LARGEST_PACKET as u64 {
        return None;
    }
    if size > memory.len() as u64 {
        return None;
    }
    Some(bits)
}

/// Has a packet be as large as its content.
fn commit(bytes: &mut Vec<u8>, bits: u64)
    requires { PACKET_HEADER ≤ length bytes.old.items }
    ensures { bytes.new.items ≡ with_number PACKET_SIZE_AT bits bytes.old.items }
{
    write_number(bytes, PACKET_SIZE_AT, bits);
}

/// The packet whose text these bytes are, if they are one of this trace.
fn packet_of(uuid: &Uuid, bytes: Vec<u8>) -> Option<PacketText>
    requires size { packet_bits_in bytes.items / 8 ≡ length bytes.items }
    requires small { AreBytes bytes.items }
    ensures { result ≡ packet_of uuid.now bytes.items }
{
    let (head, count) = match decode_packet(&bytes) {
        Ok((packet, _)) => (packet.head(), packet.count()),
        Err(_) => return None,
    };
    if head.uuid != *uuid {
        return None;
    }
    Some(PacketText::seal(head, count, bytes))
}

/// A copy of the packet of this trace that is at the front of memory, if one is: it is as large as its content says,
/// whatever is there as its packet_size, and whatever follows.
pub(crate) fn packet_at(
    alloc: Global,
    uuid: &Uuid,
    memory: &[u8],
) -> Result<Option<PacketText>, AllocError>
    ensures { IfOk result (λ found. found ≡ packet_at uuid.now memory.now) }
{
    let Some(bits) = content_at(memory) else {
        return Ok(None);
    };
    let (content, _) = memory.split_at(bits as usize / 8);
    let mut bytes = content.to_vec(alloc)?;
    commit(&mut bytes, bits);
    Ok(packet_of(uuid, bytes))
}
