//! The audit of one stream's files: one caller at a time.

ghost use Rattle.std.specs.Prelude.{◌≡◌, ◌≢◌, ◌≤◌, ◌<◌, ◌+◌, ◌^◌, ◌∷◌, ◌++◌, [], ℕ, List, true, false, Some, None, MatchOption, IfOk, IfErr, IfSome, length};
ghost use Rattle.tr_border.specs.Audits.{HasReadOn, HasReadPiece, IsFound, StopsAtEnd, absent_of, audited_out, fault_code, flaw_given, flaw_out, packet_out};
ghost use Rattle.tr_border.specs.Codes.{code_number, code_of};
ghost use Rattle.tr_border.specs.declared.codes.TheConstants.{BAD_NAME, BAD_UUID, CLOSED, DONE, IN_USE, NO_MEMORY, TOO_MUCH};
ghost use Rattle.tr_chunk.specs.Reading.{HasRead, answer_at};
ghost use Rattle.tr_chunk.specs.declared.audit_fault.AuditFault.{AuditFault};
ghost use Rattle.tr_survey.specs.Names.{archive_number};

use std::alloc::Global;
use tr_border::audits::{AuditedOut, MOST, end_of, end_piece, feed_on, flaw_out, has_room};
use tr_border::codes::{BAD_NAME, BAD_UUID, CLOSED, DONE, IN_USE, NO_MEMORY, TOO_MUCH, audit_code};
use tr_border::inputs::uuid_of;
use tr_chunk::AuditReader;
use tr_held::AuditCell;
use tr_survey::archive_number;

/// The number of an archive, by the name of its folder.
#[unsafe(no_mangle)]
pub extern "C" fn trc_archive_number(name: &[u8], number: &mut u64) -> u32
    ensures { MatchOption (archive_number name.now) ((result ≡ BAD_NAME) × (number.new ≡ number.old))
        (λ n. (result ≡ DONE) × (number.new ≡ n)) }
{
    match archive_number(name) {
        Some(found) => {
            *number = found;
            DONE
        }
        None => BAD_NAME,
    }
}

/// Begins the audit of a stream's files.
#[unsafe(no_mangle)]
pub extern "C" fn trc_audit_new(
    alloc: Global,
    handle: &mut AuditCell,
    uuid: &[u8],
    stream: u64,
) -> u32
    ensures in_use { handle.old.value ≢ None → result ≡ IN_USE }
    ensures bad_uuid { handle.old.value ≡ None → length uuid.now ≢ 16 → result ≡ BAD_UUID }
    ensures done { handle.old.value ≡ None → length uuid.now ≡ 16 → result ≢ NO_MEMORY → result ≡ DONE }
    ensures read { result ≡ DONE → MatchOption handle.new.value ⊥
        (λ r. HasRead uuid.now stream [] [] r × (r.fault ≡ None)) }
    ensures refused { result ≢ DONE → handle.new.value ≡ handle.old.value }
{
    if let Some(open) = handle.take(alloc) {
        handle.put(open);
        return IN_USE;
    }
    let Some(uuid) = uuid_of(uuid) else {
        return BAD_UUID;
    };
    let Ok(reader) = AuditReader::new(alloc, &uuid, stream) else {
        return NO_MEMORY;
    };
    match Box::new(alloc, reader) {
        Ok(kept) => {
            handle.put(kept);
            DONE
        }
        Err(_) => NO_MEMORY,
    }
}

/// Audits the next bytes of this file.
#[unsafe(no_mangle)]
pub extern "C" fn trc_audit_feed(
    alloc: Global,
    handle: &mut AuditCell,
    bytes: &[u8],
    found: &mut AuditedOut,
) -> u32
    ensures closed { handle.old.value ≡ None → (result ≡ CLOSED) × (handle.new.value ≡ None) × (found.new ≡ found.old) }
    ensures read { result ≢ TOO_MUCH → MatchOption handle.old.value (result ≡ CLOSED)
        (λ r. MatchOption handle.new.value ⊥ (λ after. HasReadOn bytes.now r after)) }
    ensures answer { result ≢ TOO_MUCH → MatchOption handle.new.value (result ≡ CLOSED)
        (λ after. (result ≡ code_of fault_code (answer_at after.fault)) × (found.new ≡ flaw_given after.fault found.old)) }
    ensures again { IfSome handle.old.value (λ r. IfSome r.fault (λ _. handle.new.value ≡ handle.old.value)) }
    ensures too_much { result ≡ TOO_MUCH → (handle.new.value ≡ handle.old.value) × (found.new ≡ found.old)
        × MatchOption handle.old.value ⊥ (λ r. 2 ^ 62 ≤ r.bytes + length bytes.now) }
{
    let Some(mut reader) = handle.take(alloc) else {
        return CLOSED;
    };
    if !has_room(&reader, bytes.len()) {
        handle.put(reader);
        return TOO_MUCH;
    }
    let answer = feed_on(&mut reader, bytes);
    handle.put(reader);
    match answer {
        Ok(()) => DONE,
        Err(fault) => {
            *found = flaw_out(fault);
            audit_code(fault.cause)
        }
    }
}

/// Ends this file, and begins the next one.
#[unsafe(no_mangle)]
pub extern "C" fn trc_audit_next(
    alloc: Global,
    handle: &mut AuditCell,
    found: &mut AuditedOut,
) -> u32
    ensures closed { handle.old.value ≡ None → (result ≡ CLOSED) × (handle.new.value ≡ None) × (found.new ≡ found.old) }
    ensures read { result ≢ TOO_MUCH → MatchOption handle.old.value (result ≡ CLOSED)
        (λ r. MatchOption handle.new.value ⊥ (λ after. HasReadPiece r after)) }
    ensures answer { result ≢ TOO_MUCH → MatchOption handle.new.value (result ≡ CLOSED)
        (λ after. (result ≡ code_of fault_code (answer_at after.fault)) × (found.new ≡ flaw_given after.fault found.old)) }
    ensures again { IfSome handle.old.value (λ r. IfSome r.fault (λ _. handle.new.value ≡ handle.old.value)) }
    ensures too_much { result ≡ TOO_MUCH → (handle.new.value ≡ handle.old.value) × (found.new ≡ found.old)
        × MatchOption handle.old.value ⊥ (λ r. 2 ^ 62 ≤ r.pieces + 1) }
{
    let Some(mut reader) = handle.take(alloc) else {
        return CLOSED;
    };
    if reader.pieces() >= MOST - 1 {
        handle.put(reader);
        return TOO_MUCH;
    }
    let answer = end_piece(&mut reader);
    handle.put(reader);
    match answer {
        Ok(()) => DONE,
        Err(fault) => {
            *found = flaw_out(fault);
            audit_code(fault.cause)
        }
    }
}

/// Ends the last file, and closes the handle.
#[unsafe(no_mangle)]
pub extern "C" fn trc_audit_end(
    alloc: Global,
    handle: &mut AuditCell,
    found: &mut AuditedOut,
) -> u32
    ensures closed { handle.new.value ≡ None }
    ensures none { handle.old.value ≡ None → (result ≡ CLOSED) × (found.new ≡ found.old) }
    ensures found { result ≡ DONE → MatchOption handle.old.value ⊥ (λ r. IsFound r found.new) }
    ensures why { result ≢ DONE → handle.old.value ≢ None → MatchOption handle.old.value ⊥
        (λ r. (f : AuditFault) × StopsAtEnd r f × (result ≡ code_number (fault_code f)) × (found.new ≡ flaw_out f)) }
    ensures again { IfSome handle.old.value (λ r. IfSome r.fault
        (λ f. (result ≡ code_number (fault_code f)) × (found.new ≡ flaw_out f))) }
{
    let Some(reader) = handle.take(alloc) else {
        return CLOSED;
    };
    match end_of(Box::into_inner(reader)) {
        Ok(audited) => {
            *found = audited;
            DONE
        }
        Err(fault) => {
            *found = flaw_out(fault);
            audit_code(fault.cause)
        }
    }
}

/// Gives up the audit.
#[unsafe(no_mangle)]
pub extern "C" fn trc_audit_free(alloc: Global, handle: &mut AuditCell)
    ensures { handle.new.value ≡ None }
{
    *handle = AuditCell::closed(alloc);
}
