//! What an audit of one stream's files finds, and its steps.

ghost use Rattle.std.specs.Prelude.{◌≡◌, ◌≢◌, ◌≤◌, ◌<◌, ◌+◌, ◌^◌, ◌∷◌, ◌++◌, [], ℕ, List, true, false, Some, None, Err, MatchOption, IfOk, IfErr, IfSome, length};
ghost use Rattle.tr_border.specs.Audits.{HasReadOn, HasReadPiece, IsFound, StopsAtEnd, absent_of, audited_out, fault_code, flaw_given, flaw_out, packet_out};
ghost use Rattle.tr_border.specs.Codes.{code_number, code_of};
ghost use Rattle.tr_border.specs.declared.codes.TheConstants.{BAD_UUID, CLOSED, DONE, IN_USE, NO_MEMORY, TOO_MUCH};
ghost use Rattle.tr_chunk.specs.Reading.{HasRead, answer_at};
ghost use Rattle.tr_chunk.specs.declared.audit_fault.AuditFault.{AuditFault};

use crate::codes::packet_code;
use std::alloc::Global;
use tr_chunk::{AuditCause, AuditFault, AuditReader, StreamAudit};

/// What an audit found in a stream's files, or where it stopped.
#[repr(C)]
#[derive(Drop, Clone, Copy)]
pub struct AuditedOut {
    /// How many packets there are. After a fault this and the next five are 0.
    pub packets: u64,
    /// How many records they have.
    pub records: u64,
    /// How many numbers below the last one no packet has, or the greatest u64 if they are more.
    pub absent: u64,
    /// How many records the stream had discarded by the last packet.
    pub last_lost: u64,
    /// The last packet's number, or 0.
    pub last_seq: u64,
    /// The last record's serial, or 0.
    pub last_serial: u64,
    /// The file in which the packet at fault begins, from 0 on. Without a fault this and the next two are 0.
    pub piece: u64,
    /// The byte of that file at which it begins.
    pub offset: u64,
    /// What is wrong with the packet, if that is the cause, as the digits of its code; else 0.
    pub packet: u32,
}

/// The greatest number of bytes that an audit is fed, and of files, and one more.
pub const MOST: u64 = 1 << 62;

/// Where and why an audit stops.
pub fn flaw_out(fault: AuditFault) -> AuditedOut
    ensures { result ≡ flaw_out fault }
{
    let packet = match fault.cause {
        AuditCause::Packet(wrong) => packet_code(wrong),
        _ => 0,
    };
    AuditedOut {
        packets: 0,
        records: 0,
        absent: 0,
        last_lost: 0,
        last_seq: 0,
        last_serial: 0,
        piece: fault.piece,
        offset: fault.offset,
        packet,
    }
}

/// How many numbers are absent in all.
pub fn absent_of(gaps: &[(u64, u64)]) -> u64
    ensures { result ≡ absent_of gaps.now }
{
    gaps.iter()
        .fold(0, |sum: u64, gap| sum.saturating_add(gap.1))
}

/// What an audit found.
pub fn audited_out(audit: &StreamAudit<Global>) -> AuditedOut
    ensures { result ≡ audited_out audit.now }
{
    AuditedOut {
        packets: audit.packets,
        records: audit.records,
        absent: absent_of(audit.gaps.as_slice()),
        last_lost: audit.last_lost,
        last_seq: audit.last_seq.unwrap_or(0),
        last_serial: audit.last_serial.unwrap_or(0),
        piece: 0,
        offset: 0,
        packet: 0,
    }
}

/// Whether a reader can be fed so many bytes more.
pub fn has_room(reader: &AuditReader<Global>, more: usize) -> bool
    ensures room { result ≡ true → reader.now.bytes + more < 2 ^ 62 }
    ensures none { result ≡ false → 2 ^ 62 ≤ reader.now.bytes + more }
{
    match reader.bytes().checked_add(more as u64) {
        Some(total) => total < MOST,
        None => false,
    }
}

/// Feeds a reader.
pub fn feed_on(reader: &mut AuditReader<Global>, bytes: &[u8]) -> Result<(), AuditFault>
    requires { reader.old.bytes + length bytes.now < 2 ^ 62 }
    ensures read { HasReadOn bytes.now reader.old reader.new }
    ensures answer { result ≡ answer_at reader.new.fault }
    ensures again { IfSome reader.old.fault (λ _. reader.new ≡ reader.old) }
{
    reader.feed(bytes)
}

/// Ends a reader's piece, and begins the next one.
pub fn end_piece(reader: &mut AuditReader<Global>) -> Result<(), AuditFault>
    requires { reader.old.pieces + 1 < 2 ^ 62 }
    ensures read { HasReadPiece reader.old reader.new }
    ensures answer { result ≡ answer_at reader.new.fault }
    ensures again { IfSome reader.old.fault (λ _. reader.new ≡ reader.old) }
{
    reader.next_piece()
}

/// What a reader found, once all is read.
pub fn end_of(reader: AuditReader<Global>) -> Result<AuditedOut, AuditFault>
    ensures found { IfOk result (λ out. IsFound reader out) }
    ensures fault { IfErr result (λ f. StopsAtEnd reader f) }
    ensures again { IfSome reader.fault (λ f. result ≡ Err f) }
{
    match reader.finish() {
        Ok(audit) => Ok(audited_out(&audit)),
        Err(fault) => Err(fault),
    }
}
