//! Packets read again: decoded one after another, and audited whole or in feeds.

use crate::sums::mix;
use std::alloc::Global;
use tr_chunk::{AuditCause, AuditFault, AuditReader, StreamAudit, audit_stream};
use tr_packet::{PacketFault, PacketView, decode_packet};
use uuid::Uuid;

/// How many packets and records were read in all rounds, and a sum over the records.
#[derive(Clone, Copy, Debug)]
pub struct Decoded {
    pub packets: u64,
    pub records: u64,
    pub sum: u64,
}

/// What the audits of all rounds found.
#[derive(Clone, Copy, Debug)]
pub struct Audited {
    pub packets: u64,
    pub records: u64,
    /// How many runs of numbers are absent, and how many numbers they are.
    pub gaps: u64,
    pub absent: u64,
    /// A sum over the last number, the last serial and the last count of discarded records.
    pub sum: u64,
}

/// The sum with each record of a packet.
fn mix_records(packet: &PacketView<'_>, before: u64) -> u64 {
    let mut sum = before;
    for r in packet.records() {
        let numbers = r.serial().wrapping_add(r.moment().get());
        let rest = u64::from(r.id()).wrapping_add(r.payload().len() as u64);
        sum = mix(sum, numbers.wrapping_add(rest));
    }
    sum
}

/// One round: the packets that the bytes are.
fn decode_round(bytes: &[u8], total: Decoded) -> Result<Decoded, PacketFault> {
    let mut total = total;
    let mut rest = bytes;
    for _ in 0..u64::MAX {
        if rest.is_empty() {
            break;
        }
        let (packet, size) = decode_packet(rest)?;
        total.packets = total.packets.wrapping_add(1);
        total.records = total.records.wrapping_add(packet.count() as u64);
        total.sum = mix_records(&packet, total.sum);
        match rest.split_at_checked(size) {
            Some((_, after)) => rest = after,
            None => break,
        }
    }
    Ok(total)
}

/// Decodes the packets `rounds` times.
pub fn decode_rounds(bytes: &[u8], rounds: u64) -> Result<Decoded, PacketFault> {
    let mut total = Decoded {
        packets: 0,
        records: 0,
        sum: 0,
    };
    for _ in 0..rounds {
        total = decode_round(bytes, total)?;
    }
    Ok(total)
}

/// The counts with one more audit.
fn add_audit(audit: &StreamAudit, total: Audited) -> Audited {
    let mut absent = total.absent;
    for (_, count) in audit.gaps.as_slice() {
        absent = absent.wrapping_add(*count);
    }
    let gaps = audit.gaps.as_slice().len() as u64;
    let seq = mix(total.sum, audit.last_seq.unwrap_or(0));
    let serial = mix(seq, audit.last_serial.unwrap_or(0));
    Audited {
        packets: total.packets.wrapping_add(audit.packets),
        records: total.records.wrapping_add(audit.records),
        gaps: total.gaps.wrapping_add(gaps),
        absent,
        sum: mix(serial, audit.last_lost),
    }
}

/// How an audit gets its bytes: whole, or in feeds.
#[derive(Clone, Copy, Debug, PartialEq)]
pub enum Given {
    Whole,
    InFeeds,
}

/// The bytes of a feed.
const FEED: usize = 65_536;

/// More bytes aren't fed.
const MOST_BYTES: u64 = 1 << 61;

/// The audit of bytes that come in feeds, as one piece of the trace's stream 0.
fn audit_in_feeds(alloc: Global, uuid: &Uuid, bytes: &[u8]) -> Result<StreamAudit, AuditFault> {
    let Ok(mut reader) = AuditReader::new(alloc, uuid, 0) else {
        return Err(AuditFault {
            piece: 0,
            offset: 0,
            cause: AuditCause::NoMemory,
        });
    };
    for feed in bytes.chunks(FEED) {
        if reader.bytes() >= MOST_BYTES {
            break;
        }
        reader.feed(feed)?;
    }
    reader.finish()
}

/// Audits the bytes `rounds` times, as one piece of stream 0 of the trace 1.
pub fn audit_rounds(
    alloc: Global,
    bytes: &[u8],
    given: Given,
    rounds: u64,
) -> Result<Audited, AuditFault> {
    let mut total = Audited {
        packets: 0,
        records: 0,
        gaps: 0,
        absent: 0,
        sum: 0,
    };
    let uuid = Uuid::from_u128(1);
    for _ in 0..rounds {
        let audit = match given {
            Given::Whole => audit_stream(alloc, &uuid, 0, &[bytes])?,
            Given::InFeeds => audit_in_feeds(alloc, &uuid, bytes)?,
        };
        total = add_audit(&audit, total);
    }
    Ok(total)
}
