//! The lines of a survey, each with its newline.

ghost use Rattle.std.specs.Prelude.{◌≡◌, IfOk, option_copied};
ghost use Rattle.std.specs.String.{string_bytes};
ghost use Rattle.tr_survey.specs.Lines.{archive_text, cause_text, cleared_text, counts_text, deleted_text, end_text, file_fault_text, gap_text, last_text, lost_text, missing_text, no_streams_text, packet_fault_text, passed_text, session_text, shown, stream_text, sums_text};
ghost use Rattle.tr_survey.specs.Listing.{key_of};

use crate::names::Numbered;
use crate::sums::Sums;
use std::alloc::{AllocError, Global};
use tr_chunk::AuditCause;
use uuid::Uuid;

/// The line that begins a session.
pub(crate) fn session_line(
    alloc: Global,
    session: &str,
    uuid: Option<&Uuid>,
    archives: usize,
) -> Result<String, AllocError>
    ensures { IfOk result (λ s. string_bytes s ≡ session_text session.now (option_copied uuid.entry) archives) }
{
    let Some(uuid) = uuid else {
        return format!(in alloc; "session {session} uuid none archives {archives}\n");
    };
    let mut buffer = Uuid::encode_buffer();
    let text = uuid.hyphenated().encode_lower(&mut buffer);
    format!(in alloc; "session {session} uuid {text} archives {archives}\n")
}

/// A byte of any name, as lines show it.
fn shown(byte: u8) -> u8
    ensures { result ≡ shown byte }
{
    if byte < 32 || byte == 127 { b'?' } else { byte }
}

/// The line of a folder that is passed over.
pub(crate) fn passed_line(alloc: Global, name: &str) -> Result<Vec<u8>, AllocError>
    ensures { IfOk result (λ line. line.items ≡ passed_text name.now) }
{
    let mut line = b"passed over ".to_vec(alloc)?;
    let bytes = name.as_bytes();
    for byte in bytes {
        line.push(shown(*byte))?;
    }
    line.push(b'\n')?;
    Ok(line)
}

/// The line of numbers below the least archive's.
pub(crate) fn deleted_line(alloc: Global, count: u64) -> Result<String, AllocError>
    ensures { IfOk result (λ s. string_bytes s ≡ deleted_text count) }
{
    format!(in alloc; "deleted archives 0 {count}\n")
}

/// The line of a run of numbers that no archive has.
pub(crate) fn missing_line(alloc: Global, first: u64, count: u64) -> Result<String, AllocError>
    ensures { IfOk result (λ s. string_bytes s ≡ missing_text first count) }
{
    format!(in alloc; "fault archives {first} {count} missing\n")
}

/// The line of a run of numbers that no stream has.
pub(crate) fn no_streams_line(alloc: Global, first: u64, count: u64) -> Result<String, AllocError>
    ensures { IfOk result (λ s. string_bytes s ≡ no_streams_text first count) }
{
    format!(in alloc; "fault streams {first} {count} missing\n")
}

/// The line of an archive with which something is wrong.
pub(crate) fn archive_line(alloc: Global, archive: &str, wrong: &str) -> Result<String, AllocError>
    ensures { IfOk result (λ s. string_bytes s ≡ archive_text archive.now wrong.now) }
{
    format!(in alloc; "fault {archive} {wrong}\n")
}

/// What begins the line of a run of absent numbers.
pub(crate) fn gap_text(
    alloc: Global,
    stream: u64,
    first: u64,
    count: u64,
) -> Result<String, AllocError>
    ensures { IfOk result (λ s. string_bytes s ≡ gap_text stream first count) }
{
    format!(in alloc; "gap {stream} {first} {count}")
}

/// What begins the line of discarded records.
pub(crate) fn lost_text(alloc: Global, stream: u64, count: u64) -> Result<String, AllocError>
    ensures { IfOk result (λ s. string_bytes s ≡ lost_text stream count) }
{
    format!(in alloc; "lost {stream} {count}")
}

/// The cause, as documents call it.
pub(crate) fn cause_text(alloc: Global, cause: &AuditCause) -> Result<String, AllocError>
    ensures { IfOk result (λ s. string_bytes s ≡ cause_text cause.now) }
{
    let code = cause.code();
    let name = cause.name();
    let AuditCause::Packet(fault) = cause else {
        return format!(in alloc; "{code} {name}");
    };
    let packet_code = fault.code();
    let packet_name = fault.name();
    format!(in alloc; "{code} {name} {packet_code} {packet_name}")
}

/// The line of a packet with which something is wrong.
pub(crate) fn packet_fault_line(
    alloc: Global,
    stream: u64,
    archive: &str,
    offset: u64,
    wrong: &str,
) -> Result<String, AllocError>
    ensures { IfOk result (λ s. string_bytes s ≡ packet_fault_text stream archive.now offset wrong.now) }
{
    format!(in alloc; "fault {stream} {archive} {offset} {wrong}\n")
}

/// The line of a stream's file with which something is wrong.
pub(crate) fn file_fault_line(
    alloc: Global,
    stream: u64,
    archive: &str,
    wrong: &str,
) -> Result<String, AllocError>
    ensures { IfOk result (λ s. string_bytes s ≡ file_fault_text stream archive.now wrong.now) }
{
    format!(in alloc; "fault {stream} {archive} {wrong}\n")
}

/// A stream's counts.
pub(crate) fn counts_text(
    alloc: Global,
    packets: u64,
    records: u64,
    absent: u64,
    lost: u64,
) -> Result<String, AllocError>
    ensures { IfOk result (λ s. string_bytes s ≡ counts_text packets records absent lost) }
{
    format!(in alloc; " packets {packets} records {records} absent {absent} lost {lost}")
}

/// Where a stream ends, and between which moments its packets lie.
pub(crate) fn last_text(
    alloc: Global,
    seq: u64,
    serial: u64,
    from: u64,
    to: u64,
) -> Result<String, AllocError>
    ensures { IfOk result (λ s. string_bytes s ≡ last_text seq serial from to) }
{
    format!(in alloc; " last {seq} {serial} from {from} to {to}")
}

/// A stream's line.
pub(crate) fn stream_line(
    alloc: Global,
    stream: &Numbered,
    counts: &str,
    last: &str,
) -> Result<String, AllocError>
    ensures { IfOk result (λ s. string_bytes s ≡ stream_text (key_of stream.now) counts.now last.now) }
{
    let number = stream.number;
    let channel = stream.name.as_str();
    format!(in alloc; "stream {number} {channel}{counts}{last}\n")
}

/// The line of numbers that only a clear or damage takes.
pub(crate) fn cleared_line(alloc: Global, stream: u64, count: u64) -> Result<String, AllocError>
    ensures { IfOk result (λ s. string_bytes s ≡ cleared_text stream count) }
{
    format!(in alloc; "cleared or missing {stream} {count}\n")
}

/// The line of an archive.
pub(crate) fn sums_line(
    alloc: Global,
    archive: &Numbered,
    sums: &Sums,
) -> Result<String, AllocError>
    ensures { IfOk result (λ s. string_bytes s ≡ sums_text (key_of archive.now) sums.now) }
{
    let counts = counts_text(alloc, sums.packets, sums.records, sums.absent, sums.lost)?;
    let number = archive.number;
    let name = archive.name.as_str();
    let counts = counts.as_str();
    let bytes = sums.bytes;
    format!(in alloc; "archive {number} {name}{counts} bytes {bytes}\n")
}

/// The last line: how many faults there are in all.
pub(crate) fn last_line(alloc: Global, faults: u64) -> Result<String, AllocError>
    ensures { IfOk result (λ s. string_bytes s ≡ end_text faults) }
{
    if faults == 0 {
        return String::from_str(alloc, "whole\n");
    }
    format!(in alloc; "faulty {faults}\n")
}
