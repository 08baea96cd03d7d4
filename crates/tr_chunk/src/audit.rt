//! The audit of a stream's files.

ghost use Rattle.std.specs.Prelude.{◌≡◌, ◌++◌, ◌<◌, ◌≤◌, length, List, map, drop, Option, Some, None, IfOk, IfErr, MatchResult, OnErr};
ghost use Rattle.tr_packet.specs.Decoding.{Begins};
ghost use Rattle.tr_packet.specs.Packets.{Contents, packet_size};
ghost use Rattle.tr_chunk.specs.Audit.{audit_of, after_packet, packet_cause, starts_above, last_serial, IsCause, StopsIn, StopsAt, AreAudited, Tells, all_of};
ghost use Rattle.tr_chunk.specs.Files.{packets_text};
ghost use Rattle.tr_chunk.specs.declared.audit_fault.AuditCause.TheVariants.{NoMemory};
ghost use Rattle.tr_terms.specs.declared.limits.TheConstants.{LARGEST_PACKET};

use crate::audit_fault::{AuditCause, AuditFault};
use crate::stream_audit::StreamAudit;
use std::alloc::Allocator;
use tr_packet::{PacketView, decode_packet, may_follow};
use uuid::Uuid;

/// Whether a packet's first serial may come after the one before it, if any.
fn may_start(before: Option<u64>, packet: &PacketView<'_>) -> bool
    ensures { result ≡ starts_above before packet.now.records }
{
    match packet.records().next() {
        None => true,
        Some(r) => may_follow(before, r.serial()),
    }
}

/// What is wrong with a packet that follows those that were audited, if anything.
fn cause_of<A: Allocator>(
    audit: &StreamAudit<A>,
    uuid: &Uuid,
    stream: u64,
    packet: &PacketView<'_>,
) -> Option<AuditCause>
    ensures { result ≡ packet_cause uuid.now stream audit.now.last_seq audit.now.last_serial packet.now }
{
    let head = packet.head();
    if head.uuid != *uuid || head.stream != stream {
        return Some(AuditCause::Foreign);
    }
    if !may_follow(audit.last_seq, head.seq) {
        return Some(AuditCause::NumberRepeat);
    }
    if !may_start(audit.last_serial, packet) {
        return Some(AuditCause::SerialRepeat);
    }
    None
}

/// Audits the packet that bytes start with, and returns how many bytes it has.
pub(crate) fn add_front<A: Allocator>(
    audit: &mut StreamAudit<A>,
    uuid: &Uuid,
    stream: u64,
    bytes: &[u8],
) -> Result<usize, AuditCause>
    ensures ok { IfOk result (λ n. (p : Contents) × Begins p (drop n bytes.now) bytes.now × (n ≡ packet_size p)
        × (packet_cause uuid.now stream audit.old.last_seq audit.old.last_serial p ≡ None)
        × (audit.new ≡ after_packet audit.old p)) }
    ensures err { IfErr result (λ c. IsCause LARGEST_PACKET uuid.now stream audit.old.last_seq audit.old.last_serial c bytes.now) }
    ensures same { OnErr result (audit.new ≡ audit.old) }
    ensures within { IfOk result (λ n. (0 < n) × (n ≤ length bytes.now)) }
{
    let (packet, size) = match decode_packet(bytes) {
        Ok(front) => front,
        Err(fault) => return Err(AuditCause::Packet(fault)),
    };
    if let Some(cause) = cause_of(audit, uuid, stream, &packet) {
        return Err(cause);
    }
    if audit.add(&packet).is_err() {
        return Err(AuditCause::NoMemory);
    }
    Ok(size)
}

/// Where an audit stops within a piece, and why.
#[derive(Clone, Copy)]
struct Stop {
    offset: usize,
    cause: AuditCause,
}

/// Audits the packets of a piece.
fn add_piece<A: Allocator>(
    audit: &mut StreamAudit<A>,
    uuid: &Uuid,
    stream: u64,
    bytes: &[u8],
) -> Result<(), Stop>
    ensures ok { IfOk result (λ _. (before : List Contents) → Tells uuid.now stream before audit.old
        → (here : List Contents) × (bytes.now ≡ packets_text here)
        × Tells uuid.now stream (before ++ here) audit.new) }
    ensures err { IfErr result
        (λ s. (before : List Contents) → Tells uuid.now stream before audit.old
        → StopsIn LARGEST_PACKET uuid.now stream before bytes.now s.offset s.cause) }
{
    let mut at = 0;
    while at < bytes.len() {
        let (_, rest) = bytes.split_at(at);
        match add_front(audit, uuid, stream, rest) {
            Ok(size) => at += size,
            Err(cause) => return Err(Stop { offset: at, cause }),
        }
    }
    Ok(())
}

/// The audit of the packets whose texts are the pieces, each piece a number of whole packets, if all are of this trace and
/// this stream, with rising numbers and rising serials. Otherwise the first packet at fault, with its place and what is
/// wrong.
pub fn audit_stream<A: Allocator>(
    alloc: A,
    uuid: &Uuid,
    stream: u64,
    pieces: &[&[u8]],
) -> Result<StreamAudit<A>, AuditFault>
    ensures found { IfOk result
        (λ a. (pss : List (List Contents)) × AreAudited uuid.now stream (map (λ b. b.now) pieces.now) pss
        × (a ≡ audit_of (all_of pss))) }
    ensures only { (pss : List (List Contents)) → AreAudited uuid.now stream (map (λ b. b.now) pieces.now) pss
        → MatchResult result (λ a. a ≡ audit_of (all_of pss)) (λ f. f.cause ≡ NoMemory) }
    ensures fault { IfErr result (λ f. StopsAt LARGEST_PACKET uuid.now stream (map (λ b. b.now) pieces.now) f) }
{
    let mut audit = StreamAudit::new(alloc);
    'pieces: for piece in 0..pieces.len() {
        if let Err(stop) = add_piece(&mut audit, uuid, stream, pieces[piece]) {
            return Err(AuditFault {
                piece: piece as u64,
                offset: stop.offset as u64,
                cause: stop.cause,
            });
        }
    }
    Ok(audit)
}
