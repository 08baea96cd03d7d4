//! What is reported of a stream's file in an archive.

ghost use Rattle.std.specs.Prelude.{◌≡◌, ◌≢◌, ◌++◌, ◌<◌, ℕ, Bool, List, Some, IfOk, OnOk, OnErr, length, suc};
ghost use Rattle.tr_chunk.specs.declared.audit_fault.AuditCause.TheVariants as cause;
ghost use Rattle.tr_folders.specs.Tree.{File};
ghost use Rattle.tr_packet.specs.declared.faults.PacketFault.TheVariants.{Short};
ghost use Rattle.tr_survey.specs.Failures.{reads_after, writes_after};
ghost use Rattle.tr_survey.specs.Listing.{key_of};
ghost use Rattle.tr_survey.specs.Prefix.{IsPrefixOut, IsTold};
ghost use Rattle.tr_survey.specs.Steps.{IsBad, IsHeld, IsStep};
ghost use Rattle.tr_survey.specs.Streams.{bytes_told, fault_told, file_told, left_told, no_file_told, place_of, unreadable_told, TraceState};

use crate::declaring::Trace;
use crate::faults::SurveyFault;
use crate::lines::{cause_text, file_fault_line, packet_fault_line};
use crate::names::Numbered;
use crate::packets::packet_told;
use crate::tally::{Tally, cause_of};
use crate::writing::{put_fault, put_line};
use std::alloc::{AllocError, Global};
use tr_chunk::AuditCause;
use tr_folders::{Folders, MOST_BYTES, ReadFault};
use tr_packet::{PacketFault, decode_packet};
use tr_record::ByteSink;

/// What came of the bytes at the front of what is there.
pub(crate) enum Step {
    /// A packet of so many bytes was reported.
    Packet(usize),
    /// They are too few for a packet.
    Waits,
    /// They don't start with a packet, or not with one of the stream. Nothing more of the file is judged.
    Stopped,
}

/// Reports that something is wrong with a packet.
fn tell_cause<K: ByteSink>(
    alloc: Global,
    sink: &mut K,
    stream: u64,
    archive: &Numbered,
    tally: &mut Tally,
    offset: u64,
    cause: AuditCause,
) -> Result<(), SurveyFault>
    ensures ok { OnOk result ((from : TraceState)
        → IsTold (fault_told (place_of from stream (key_of archive.now)) tally.old offset cause) (K.taken sink.old) (K.taken sink.new) tally.new) }
    ensures err { OnErr result ((from : TraceState)
        → IsPrefixOut (fault_told (place_of from stream (key_of archive.now)) tally.old offset cause).text (K.taken sink.old) (K.taken sink.new)) }
    ensures writes { K.failures sink.new ≡ writes_after result (K.failures sink.old) }
    ensures reads { (n : ℕ) → reads_after result n ≡ n }
{
    let wrong = cause_text(alloc, &cause)?;
    let line = packet_fault_line(alloc, stream, archive.name.as_str(), offset, wrong.as_str())?;
    put_fault(sink, line.as_str(), tally)
}

/// Reports that a file can't be read, or not any further.
pub(crate) fn tell_unreadable<K: ByteSink>(
    alloc: Global,
    sink: &mut K,
    stream: u64,
    archive: &Numbered,
    tally: &mut Tally,
) -> Result<(), SurveyFault>
    ensures ok { OnOk result ((from : TraceState)
        → IsTold (unreadable_told (place_of from stream (key_of archive.now)) tally.old) (K.taken sink.old) (K.taken sink.new) tally.new) }
    ensures err { OnErr result ((from : TraceState)
        → IsPrefixOut (unreadable_told (place_of from stream (key_of archive.now)) tally.old).text (K.taken sink.old) (K.taken sink.new)) }
    ensures writes { K.failures sink.new ≡ writes_after result (K.failures sink.old) }
    ensures reads { (n : ℕ) → reads_after result n ≡ n }
{
    let line = file_fault_line(alloc, stream, archive.name.as_str(), "unreadable")?;
    put_fault(sink, line.as_str(), tally)
}

/// Reports that an archive lacks a stream's file.
pub(crate) fn tell_no_file<K: ByteSink>(
    alloc: Global,
    sink: &mut K,
    stream: u64,
    archive: &Numbered,
    tally: &mut Tally,
) -> Result<(), SurveyFault>
    ensures ok { OnOk result ((from : TraceState)
        → IsTold (no_file_told (place_of from stream (key_of archive.now)) tally.old) (K.taken sink.old) (K.taken sink.new) tally.new) }
    ensures err { OnErr result ((from : TraceState)
        → IsPrefixOut (no_file_told (place_of from stream (key_of archive.now)) tally.old).text (K.taken sink.old) (K.taken sink.new)) }
    ensures writes { K.failures sink.new ≡ writes_after result (K.failures sink.old) }
    ensures reads { (n : ℕ) → reads_after result n ≡ n }
{
    let line = file_fault_line(alloc, stream, archive.name.as_str(), "no file")?;
    put_fault(sink, line.as_str(), tally)
}

/// Reports the bytes at a file's end, which are too few for a packet.
fn tell_left<K: ByteSink>(
    alloc: Global,
    sink: &mut K,
    stream: u64,
    archive: &Numbered,
    tally: &mut Tally,
    offset: u64,
    held: &[u8],
) -> Result<(), SurveyFault>
    ensures ok { OnOk result ((from : TraceState)
        → IsTold (left_told (place_of from stream (key_of archive.now)) tally.old offset held.now) (K.taken sink.old) (K.taken sink.new) tally.new) }
    ensures err { OnErr result ((from : TraceState)
        → IsPrefixOut (left_told (place_of from stream (key_of archive.now)) tally.old offset held.now).text (K.taken sink.old) (K.taken sink.new)) }
    ensures writes { K.failures sink.new ≡ writes_after result (K.failures sink.old) }
    ensures reads { (n : ℕ) → reads_after result n ≡ n }
{
    match held {
        [] => Ok(()),
        [_, ..] => tell_cause(
            alloc,
            sink,
            stream,
            archive,
            tally,
            offset,
            AuditCause::Packet(PacketFault::Short),
        ),
    }
}

/// Reports bytes that don't start with a packet, for this reason, unless they are only too few.
fn tell_bad<K: ByteSink>(
    alloc: Global,
    sink: &mut K,
    stream: u64,
    archive: &Numbered,
    tally: &mut Tally,
    offset: u64,
    fault: PacketFault,
) -> Result<Step, SurveyFault>
    ensures ok { IfOk result (λ step. (from : TraceState) → IsBad (place_of from stream (key_of archive.now)) tally.old offset fault step
        (K.taken sink.old) (K.taken sink.new) tally.new) }
    ensures err { OnErr result ((from : TraceState) → (fault ≢ Short)
        × IsPrefixOut (fault_told (place_of from stream (key_of archive.now)) tally.old offset (cause.Packet fault)).text
        (K.taken sink.old) (K.taken sink.new)) }
    ensures writes { K.failures sink.new ≡ writes_after result (K.failures sink.old) }
    ensures reads { (n : ℕ) → reads_after result n ≡ n }
{
    match fault {
        PacketFault::Short => Ok(Step::Waits),
        _ => {
            let cause = AuditCause::Packet(fault);
            tell_cause(alloc, sink, stream, archive, tally, offset, cause)?;
            Ok(Step::Stopped)
        }
    }
}

/// Reports the packet that bytes start with, or why they don't start with one.
fn tell_front<K: ByteSink>(
    alloc: Global,
    sink: &mut K,
    trace: &Trace,
    stream: u64,
    archive: &Numbered,
    tally: &mut Tally,
    offset: u64,
    bytes: &[u8],
) -> Result<Step, SurveyFault>
    ensures ok { IfOk result (λ step. IsStep (place_of trace.now stream (key_of archive.now)) tally.old offset bytes.now step
        (K.taken sink.old) (K.taken sink.new) tally.new) }
    ensures err { OnErr result ((n : ℕ) (rest : List ℕ) (breaks : Bool)
        → IsPrefixOut (bytes_told (suc n) (place_of trace.now stream (key_of archive.now)) tally.old offset (bytes.now ++ rest) breaks).text
        (K.taken sink.old) (K.taken sink.new)) }
    ensures writes { K.failures sink.new ≡ writes_after result (K.failures sink.old) }
    ensures reads { (n : ℕ) → reads_after result n ≡ n }
{
    let (packet, size) = match decode_packet(bytes) {
        Ok(front) => front,
        Err(fault) => return tell_bad(alloc, sink, stream, archive, tally, offset, fault),
    };
    if let Some(cause) = cause_of(trace.uuid(), stream, tally.before(), &packet) {
        tell_cause(alloc, sink, stream, archive, tally, offset, cause)?;
        return Ok(Step::Stopped);
    }
    let lines = packet_told(alloc, trace, stream, archive, tally, offset, &packet)?;
    put_line(sink, lines.as_str())?;
    *tally = tally.after(archive, &packet, size);
    Ok(Step::Packet(size))
}

/// The bytes, copied.
fn bytes_of(alloc: Global, bytes: &[u8]) -> Result<Vec<u8>, AllocError>
    ensures { IfOk result (λ copy. copy.items ≡ bytes.now) }
{
    bytes.to_vec(alloc)
}

/// Reports the packets that are held whole, and holds what comes after them. Whether nothing more of the file is judged.
fn tell_held<K: ByteSink>(
    alloc: Global,
    sink: &mut K,
    trace: &Trace,
    stream: u64,
    archive: &Numbered,
    tally: &mut Tally,
    offset: &mut u64,
    held: &mut Vec<u8>,
) -> Result<bool, SurveyFault>
    ensures ok { IfOk result (λ stopped. IsHeld (place_of trace.now stream (key_of archive.now)) tally.old offset.old held.old.items stopped
        (K.taken sink.old) (K.taken sink.new) tally.new offset.new held.new.items) }
    ensures err { OnErr result ((n : ℕ) (rest : List ℕ) (breaks : Bool) → length (held.old.items ++ rest) < n
        → IsPrefixOut (bytes_told n (place_of trace.now stream (key_of archive.now)) tally.old offset.old (held.old.items ++ rest) breaks).text
        (K.taken sink.old) (K.taken sink.new)) }
    ensures writes { K.failures sink.new ≡ writes_after result (K.failures sink.old) }
    ensures reads { (n : ℕ) → reads_after result n ≡ n }
{
    let mut at = 0;
    'packets: loop {
        let (_, bytes) = held.split_at(at);
        match tell_front(alloc, sink, trace, stream, archive, tally, *offset, bytes)? {
            Step::Packet(size) => {
                at += size;
                *offset = offset.saturating_add(size as u64);
            }
            Step::Waits => break,
            Step::Stopped => return Ok(true),
        }
    }
    let (_, left) = held.split_at(at);
    *held = bytes_of(alloc, left)?;
    Ok(false)
}

/// Reports the open file, which is a stream's in an archive.
pub(crate) fn tell_file<F: Folders, K: ByteSink>(
    alloc: Global,
    folders: &mut F,
    sink: &mut K,
    trace: &Trace,
    stream: u64,
    archive: &Numbered,
    tally: &mut Tally,
    buffer: &mut [u8],
) -> Result<(), SurveyFault>
    requires { 0 < length buffer.old }
    ensures ok { OnOk result ((file : File) → F.left folders.old ≡ Some file
        → IsTold (file_told (place_of trace.now stream (key_of archive.now)) tally.old (Some file)) (K.taken sink.old) (K.taken sink.new) tally.new) }
    ensures err { OnErr result ((file : File) → F.left folders.old ≡ Some file
        → IsPrefixOut (file_told (place_of trace.now stream (key_of archive.now)) tally.old (Some file)).text (K.taken sink.old) (K.taken sink.new)) }
    ensures tree { F.tree folders.new ≡ F.tree folders.old }
    ensures reads { F.failures folders.new ≡ reads_after result (F.failures folders.old) }
    ensures writes { K.failures sink.new ≡ writes_after result (K.failures sink.old) }
    ensures room { length buffer.new ≡ length buffer.old }
{
    let mut held = Vec::new(alloc);
    let mut offset = 0;
    'pieces: for _ in 0..MOST_BYTES {
        match folders.read(buffer) {
            Ok(0) => return tell_left(alloc, sink, stream, archive, tally, offset, &held),
            Ok(count) => {
                let (bytes, _) = buffer.split_at(count);
                held.extend_from_slice(bytes)?;
                let stopped = tell_held(
                    alloc,
                    sink,
                    trace,
                    stream,
                    archive,
                    tally,
                    &mut offset,
                    &mut held,
                )?;
                if stopped {
                    return Ok(());
                }
            }
            Err(ReadFault::Unreadable) => {
                return tell_unreadable(alloc, sink, stream, archive, tally);
            }
            Err(ReadFault::TooMuch) => return Err(SurveyFault::TooMuch),
            Err(ReadFault::NoMemory) => return Err(SurveyFault::NoMemory),
        }
    }
    unreachable!()
}
