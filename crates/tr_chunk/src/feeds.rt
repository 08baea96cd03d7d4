//! The audit of pieces that come in feeds.

ghost use Rattle.std.specs.Prelude.{◌≡◌, ◌+◌, ◌++◌, ◌<◌, ◌^◌, [], ℕ, List, length, IfOk, IfErr, None, MatchResult};
ghost use Rattle.tr_packet.specs.Packets.{Contents};
ghost use Rattle.tr_chunk.specs.Audit.{AreAudited, all_of, audit_of};
ghost use Rattle.tr_chunk.specs.Reading.{HasRead, ReaderStopsAt, answer_at, bytes_fed, bytes_of_pieces, pieces_fed};
ghost use Rattle.tr_chunk.specs.declared.audit_fault.AuditCause.TheVariants.{NoMemory};

use crate::audit_fault::AuditFault;
use crate::audit_reader::AuditReader;
use crate::stream_audit::StreamAudit;
use std::alloc::Allocator;

/// Feeds a reader these bytes one after another, up to a fault.
fn feed_all<A: Allocator>(reader: &mut AuditReader<A>, feeds: &[&[u8]]) -> Result<(), AuditFault>
    requires none { reader.old.fault ≡ None }
    requires few { reader.old.bytes + length (bytes_fed feeds.now) < 2 ^ 62 }
    ensures read { (uuid : List ℕ) (stream : ℕ) (done : List (List ℕ)) (piece : List ℕ) → HasRead uuid stream done piece reader.old
        → HasRead uuid stream done (piece ++ bytes_fed feeds.now) reader.new }
    ensures answer { result ≡ answer_at reader.new.fault }
{
    for at in 0..feeds.len() {
        reader.feed(feeds[at])?;
    }
    Ok(())
}

/// What a reader that was fed nothing says of pieces, each of which comes in these feeds: what `audit_stream` says of the
/// pieces whole.
pub fn audit_feeds<A: Allocator>(
    mut reader: AuditReader<A>,
    pieces: &[&[&[u8]]],
) -> Result<StreamAudit<A>, AuditFault>
    requires new { HasRead reader.uuid reader.stream [] [] reader }
    requires none { reader.fault ≡ None }
    requires few { bytes_of_pieces (pieces_fed pieces.now) < 2 ^ 62 }
    requires begun { length pieces.now + 1 < 2 ^ 62 }
    ensures found { IfOk result
        (λ a. (pss : List (List Contents)) × AreAudited reader.uuid reader.stream (pieces_fed pieces.now) pss
        × (a ≡ audit_of (all_of pss))) }
    ensures only { (pss : List (List Contents)) → AreAudited reader.uuid reader.stream (pieces_fed pieces.now) pss
        → MatchResult result (λ a. a ≡ audit_of (all_of pss)) (λ f. f.cause ≡ NoMemory) }
    ensures fault { IfErr result (λ f. ReaderStopsAt reader.uuid reader.stream (pieces_fed pieces.now) f) }
{
    for at in 0..pieces.len() {
        feed_all(&mut reader, pieces[at])?;
        reader.next_piece()?;
    }
    reader.finish()
}
