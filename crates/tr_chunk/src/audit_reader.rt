//! The audit of a stream's files as their bytes come.

ghost use Rattle.std.specs.Prelude.{◌≡◌, ◌≢◌, ◌+◌, ◌-◌, ◌/◌, ◌++◌, ◌<◌, ◌≤◌, ◌^◌, ◌∷◌, [], ℕ, List, length, drop, Ok, Some, None, IfOk, IfErr, IfNone, IfSome, MatchResult, Err};
ghost use Rattle.tr_packet.specs.Decoding.{Begins, fields_fault, packet_bits_in};
ghost use Rattle.tr_packet.specs.Packets.{Contents, packet_size};
ghost use Rattle.tr_packet.specs.declared.faults.PacketFault.TheVariants.{Short};
ghost use Rattle.tr_chunk.specs.Audit.{AreAudited, IsCause, after_packet, all_of, audit_of, packet_cause};
ghost use Rattle.tr_chunk.specs.Reading.{Finds, HasRead, ReaderStopsAt, Takes, Waits, answer_at, with_front};
ghost use Rattle.tr_chunk.specs.declared.audit_fault.AuditCause.TheVariants.{NoMemory, Packet};
ghost use Rattle.tr_terms.specs.declared.limits.TheConstants.{LARGEST_PACKET, PACKET_HEADER};

use crate::audit::add_front;
use crate::audit_fault::{AuditCause, AuditFault};
use crate::stream_audit::StreamAudit;
use std::alloc::{AllocError, Allocator, Global};
use std::marker::Model;
use tr_packet::{PacketFault, size_by_fields};
use tr_terms::limits::PACKET_HEADER;
use uuid::Uuid;

/// The bytes of a packet for which a reader has memory from the beginning.
pub const FIRST_ROOM: usize = 65_536;

/// Audits the packet that bytes start with. Its size; or None if they are too few.
fn judge_front<A: Allocator>(
    audit: &mut StreamAudit<A>,
    uuid: &Uuid,
    stream: u64,
    bytes: &[u8],
) -> Result<Option<usize>, AuditCause>
    ensures whole { (n : ℕ) → result ≡ Ok (Some n) → (p : Contents) × Begins p (drop n bytes.now) bytes.now × (n ≡ packet_size p)
        × (packet_cause uuid.now stream audit.old.last_seq audit.old.last_serial p ≡ None)
        × (audit.new ≡ after_packet audit.old p) }
    ensures part { result ≡ Ok None → Waits bytes.now × (audit.new ≡ audit.old) }
    ensures fault { IfErr result (λ c. IsCause FIRST_ROOM uuid.now stream audit.old.last_seq audit.old.last_serial c bytes.now × (c ≢ Packet Short)) }
{
    match add_front(audit, uuid, stream, bytes) {
        Ok(size) => Ok(Some(size)),
        Err(AuditCause::Packet(PacketFault::Short)) => Ok(None),
        Err(cause) => Err(cause),
    }
}

/// How many bytes are wanted after these, which are too few: up to the end of the context, or else to the packet's own.
fn wanted(bytes: &[u8]) -> usize
    requires { Waits bytes.now }
    ensures some { 0 < result }
    ensures within { length bytes.now + result ≤ LARGEST_PACKET }
    ensures whole { PACKET_HEADER < length bytes.now + result → (fields_fault bytes.now ≡ None)
        × (length bytes.now + result ≡ packet_bits_in bytes.now / 8) }
{
    match size_by_fields(bytes) {
        Ok(size) => size - bytes.len(),
        Err(_) => PACKET_HEADER - bytes.len(),
    }
}

/// An audit of one stream's files whose bytes come in any pieces: what `audit_stream` says of them whole. It holds the bytes
/// of one packet at most. For one of more than `FIRST_ROOM` bytes it asks for memory as its bytes come, and stops at that
/// packet, with `NoMemory`, if it gets none. After a fault every call answers that fault. Contracts see a `Reading`.
#[derive(Drop)]
pub struct AuditReader<A: Allocator = Global> {
    uuid: Uuid,
    stream: u64,
    audit: StreamAudit<A>,
    held: Vec<u8, A>,
    offset: u64,
    bytes: u64,
    pieces: u64,
    fault: Option<AuditFault>,
}

impl<A: Allocator> Model for AuditReader<A> {
    ghost use Rattle.std.specs.Prelude.{vec_capacity};
    ghost use Rattle.tr_chunk.specs.Reading.{Keeps, Reading, reading};

    ghost Value = { Reading A };

    ghost view = { λ r. reading r.uuid r.stream r.audit r.held.items r.offset r.bytes r.pieces r.fault };

    ghost invariant = { λ r. Keeps (reading r.uuid r.stream r.audit r.held.items r.offset r.bytes r.pieces r.fault) (vec_capacity r.held) };
}

impl<A: Allocator> AuditReader<A> {
    /// A reader at the start of piece 0. It takes the memory for a packet of `FIRST_ROOM` bytes.
    pub fn new(alloc: A, uuid: &Uuid, stream: u64) -> Result<AuditReader<A>, AllocError>
    where
        A: Copy,
        ensures read { IfOk result (λ r. HasRead uuid.now stream [] [] r) }
        ensures fault { IfOk result (λ r. r.fault ≡ None) }
        ensures counts { IfOk result (λ r. (r.bytes ≡ 0) × (r.pieces ≡ 1)) }
    {
        let held = Vec::with_capacity(alloc, FIRST_ROOM)?;
        Ok(AuditReader {
            uuid: *uuid,
            stream,
            audit: StreamAudit::new(alloc),
            held,
            offset: 0,
            bytes: 0,
            pieces: 1,
            fault: None,
        })
    }

    /// How many bytes it was fed, up to the feed that met a fault.
    pub fn bytes(&self) -> u64
        ensures { result ≡ self.now.bytes }
    {
        self.bytes
    }

    /// How many pieces were begun.
    pub fn pieces(&self) -> u64
        ensures { result ≡ self.now.pieces }
    {
        self.pieces
    }

    /// Takes the packet at the front of these bytes; or, if they are too few, holds them. How many bytes it took.
    fn take_free(&mut self, bytes: &[u8]) -> Result<usize, AuditCause>
        requires free { self.old.held ≡ [] }
        requires some { 0 < length bytes.now }
        requires fed { self.old.offset + length self.old.held + length bytes.now ≤ self.old.bytes }
        ensures ok { IfOk result (λ n. Takes self.old self.new bytes.now n) }
        ensures err { IfErr result (λ c. Finds self.old bytes.now c × (self.new.offset ≡ self.old.offset)) }
        ensures others { self.new ≡ with_front self.old self.new.audit self.new.held self.new.offset }
    {
        match judge_front(&mut self.audit, &self.uuid, self.stream, bytes) {
            Ok(Some(size)) => {
                self.offset += size as u64;
                Ok(size)
            }
            Ok(None) => {
                if self.held.extend_from_slice(bytes).is_err() {
                    return Err(AuditCause::NoMemory);
                }
                Ok(bytes.len())
            }
            Err(cause) => Err(cause),
        }
    }

    /// Takes from these bytes what the packet that is held in part still lacks, or as much of that as is there. How many bytes
    /// it took.
    fn take_more(&mut self, bytes: &[u8]) -> Result<usize, AuditCause>
        requires some { 0 < length bytes.now }
        requires fed { self.old.offset + length self.old.held + length bytes.now ≤ self.old.bytes }
        ensures ok { IfOk result (λ n. Takes self.old self.new bytes.now n) }
        ensures err { IfErr result (λ c. Finds self.old bytes.now c × (self.new.offset ≡ self.old.offset)) }
        ensures others { self.new ≡ with_front self.old self.new.audit self.new.held self.new.offset }
    {
        let before = self.held.len();
        let count = bytes.len().min(wanted(&self.held));
        let (front, _) = bytes.split_at(count);
        if self.held.extend_from_slice(front).is_err() {
            return Err(AuditCause::NoMemory);
        }
        match judge_front(&mut self.audit, &self.uuid, self.stream, &self.held) {
            Ok(None) => Ok(count),
            Ok(Some(size)) => {
                self.held.clear();
                self.offset += size as u64;
                Ok(size - before)
            }
            Err(cause) => {
                self.held.clear();
                Err(cause)
            }
        }
    }

    /// Takes bytes from the front of these: at least one, and none after the packet's end.
    fn take_front(&mut self, bytes: &[u8]) -> Result<usize, AuditCause>
        requires some { 0 < length bytes.now }
        requires fed { self.old.offset + length self.old.held + length bytes.now ≤ self.old.bytes }
        ensures ok { IfOk result (λ n. Takes self.old self.new bytes.now n) }
        ensures err { IfErr result (λ c. Finds self.old bytes.now c × (self.new.offset ≡ self.old.offset)) }
        ensures others { self.new ≡ with_front self.old self.new.audit self.new.held self.new.offset }
    {
        if self.held.is_empty() {
            self.take_free(bytes)
        } else {
            self.take_more(bytes)
        }
    }

    /// Stops at the packet that is the next.
    fn stop(&mut self, cause: AuditCause) -> AuditFault
        ensures fault { result ≡ record { piece = self.old.pieces - 1; offset = self.old.offset; cause = cause } }
        ensures met { self.new ≡ record self.old { fault = Some result } }
    {
        let fault = AuditFault {
            piece: self.pieces - 1,
            offset: self.offset,
            cause,
        };
        self.fault = Some(fault);
        fault
    }

    /// Audits bytes that follow those before in this piece. A packet is judged as soon as it is whole, and its header and context as
    /// soon as these are.
    pub fn feed(&mut self, bytes: &[u8]) -> Result<(), AuditFault>
        requires { self.old.bytes + length bytes.now < 2 ^ 62 }
        ensures read { (uuid : List ℕ) (stream : ℕ) (done : List (List ℕ)) (piece : List ℕ) → HasRead uuid stream done piece self.old
            → HasRead uuid stream done (piece ++ bytes.now) self.new }
        ensures answer { result ≡ answer_at self.new.fault }
        ensures again { IfSome self.old.fault (λ _. self.new ≡ self.old) }
        ensures counts { IfNone self.old.fault ((self.new.bytes ≡ self.old.bytes + length bytes.now) × (self.new.pieces ≡ self.old.pieces)) }
    {
        if let Some(fault) = self.fault {
            return Err(fault);
        }
        self.bytes += bytes.len() as u64;
        let mut at = 0;
        while at < bytes.len() {
            let (_, rest) = bytes.split_at(at);
            match self.take_front(rest) {
                Ok(count) => at += count,
                Err(cause) => return Err(self.stop(cause)),
            }
        }
        Ok(())
    }

    /// Ends this piece and begins the next one. A packet that isn't whole is a fault.
    pub fn next_piece(&mut self) -> Result<(), AuditFault>
        requires { self.old.pieces + 1 < 2 ^ 62 }
        ensures read { (uuid : List ℕ) (stream : ℕ) (done : List (List ℕ)) (piece : List ℕ) → HasRead uuid stream done piece self.old
            → HasRead uuid stream (done ++ piece ∷ []) [] self.new }
        ensures answer { result ≡ answer_at self.new.fault }
        ensures again { IfSome self.old.fault (λ _. self.new ≡ self.old) }
        ensures counts { MatchResult result
            (λ _. (self.new.bytes ≡ self.old.bytes) × (self.new.pieces ≡ self.old.pieces + 1))
            (λ _. (self.new.bytes ≡ self.old.bytes) × (self.new.pieces ≡ self.old.pieces)) }
    {
        if let Some(fault) = self.fault {
            return Err(fault);
        }
        if !self.held.is_empty() {
            return Err(self.stop(AuditCause::Packet(PacketFault::Short)));
        }
        self.pieces += 1;
        self.offset = 0;
        Ok(())
    }

    /// The audit of all pieces, the last of which ends here. A packet that isn't whole is a fault.
    pub fn finish(mut self) -> Result<StreamAudit<A>, AuditFault>
        ensures found { (uuid : List ℕ) (stream : ℕ) (done : List (List ℕ)) (piece : List ℕ) → HasRead uuid stream done piece self
            → IfOk result (λ a. (pss : List (List Contents)) × AreAudited uuid stream (done ++ piece ∷ []) pss × (a ≡ audit_of (all_of pss))) }
        ensures only { (uuid : List ℕ) (stream : ℕ) (done : List (List ℕ)) (piece : List ℕ) → HasRead uuid stream done piece self
            → (pss : List (List Contents)) → AreAudited uuid stream (done ++ piece ∷ []) pss
            → MatchResult result (λ a. a ≡ audit_of (all_of pss)) (λ f. f.cause ≡ NoMemory) }
        ensures fault { (uuid : List ℕ) (stream : ℕ) (done : List (List ℕ)) (piece : List ℕ) → HasRead uuid stream done piece self
            → IfErr result (λ f. ReaderStopsAt uuid stream (done ++ piece ∷ []) f) }
        ensures again { IfSome self.fault (λ f. result ≡ Err f) }
    {
        if let Some(fault) = self.fault {
            return Err(fault);
        }
        match self.held.len() {
            0 => Ok(self.audit),
            _ => Err(self.stop(AuditCause::Packet(PacketFault::Short))),
        }
    }
}
