//! What is reported of streams.

ghost use Rattle.std.specs.Prelude.{◌≡◌, ◌<◌, Some, IfOk, OnOk, OnErr, length, map, ℕ, List};
ghost use Rattle.std.specs.String.{string_bytes};
ghost use Rattle.tr_folders.specs.Tree.{Tree};
ghost use Rattle.tr_survey.specs.Failures.{reads_after, writes_after};
ghost use Rattle.tr_survey.specs.Listing.{key_of};
ghost use Rattle.tr_survey.specs.Paths.{file_in};
ghost use Rattle.tr_survey.specs.Prefix.{IsPrefixOut, IsTold};
ghost use Rattle.tr_survey.specs.Streams.{are_deleted, ended_told, file_told, files_told, no_tally, place_of, span_text, stream_told, streams_told};
ghost use Rattle.tr_survey.specs.Sums.{sums_after_files, sums_after_streams};

use crate::declaring::Trace;
use crate::faults::SurveyFault;
use crate::files::{tell_file, tell_no_file, tell_unreadable};
use crate::lines::{cleared_line, counts_text, last_text, stream_line};
use crate::names::Numbered;
use crate::paths::stream_path;
use crate::sums::Sums;
use crate::tally::{Last, Tally, lost_by};
use crate::writing::put_line;
use std::alloc::{AllocError, Global};
use tr_folders::{Folders, ReadFault};
use tr_record::ByteSink;

/// Reports a stream's file in an archive of a folder.
fn tell_archive<F: Folders, K: ByteSink>(
    alloc: Global,
    folders: &mut F,
    sink: &mut K,
    trace: &Trace,
    folder: &str,
    archive: &Numbered,
    stream: &Numbered,
    tally: &mut Tally,
    buffer: &mut [u8],
) -> Result<(), SurveyFault>
    requires { 0 < length buffer.old }
    ensures ok { OnOk result ((t : Tree) → F.tree folders.old ≡ Some t
        → IsTold (file_told (place_of trace.now stream.now.number (key_of archive.now)) tally.old
        (file_in t folder.now (key_of stream.now) (key_of archive.now))) (K.taken sink.old) (K.taken sink.new) tally.new) }
    ensures err { OnErr result ((t : Tree) → F.tree folders.old ≡ Some t
        → IsPrefixOut (file_told (place_of trace.now stream.now.number (key_of archive.now)) tally.old
        (file_in t folder.now (key_of stream.now) (key_of archive.now))).text (K.taken sink.old) (K.taken sink.new)) }
    ensures tree { F.tree folders.new ≡ F.tree folders.old }
    ensures reads { F.failures folders.new ≡ reads_after result (F.failures folders.old) }
    ensures writes { K.failures sink.new ≡ writes_after result (K.failures sink.old) }
    ensures room { length buffer.new ≡ length buffer.old }
{
    let path = stream_path(alloc, folder, archive, stream)?;
    match folders.open(path.as_str()) {
        Ok(true) => tell_file(
            alloc,
            folders,
            sink,
            trace,
            stream.number,
            archive,
            tally,
            buffer,
        ),
        Ok(false) => tell_no_file(alloc, sink, stream.number, archive, tally),
        Err(ReadFault::Unreadable) => tell_unreadable(alloc, sink, stream.number, archive, tally),
        Err(ReadFault::TooMuch) => Err(SurveyFault::TooMuch),
        Err(ReadFault::NoMemory) => Err(SurveyFault::NoMemory),
    }
}

/// Reports a stream's files in the archives of a folder. What each file adds to the stream's counts is added to the sums of its
/// archive.
fn tell_files<F: Folders, K: ByteSink>(
    alloc: Global,
    folders: &mut F,
    sink: &mut K,
    trace: &Trace,
    folder: &str,
    archives: &[Numbered],
    stream: &Numbered,
    tally: &mut Tally,
    sums: &mut [Sums],
    buffer: &mut [u8],
) -> Result<(), SurveyFault>
    requires room { 0 < length buffer.old }
    requires sums { length sums.old ≡ length archives.now }
    ensures sums { OnOk result ((t : Tree) → F.tree folders.old ≡ Some t
        → sums.new ≡ sums_after_files t folder.now trace.now (key_of stream.now) tally.old (map key_of archives.now) sums.old) }
    ensures len { length sums.new ≡ length sums.old }
    ensures ok { OnOk result ((t : Tree) → F.tree folders.old ≡ Some t
        → IsTold (files_told t folder.now trace.now (key_of stream.now) tally.old (map key_of archives.now))
        (K.taken sink.old) (K.taken sink.new) tally.new) }
    ensures err { OnErr result ((t : Tree) → F.tree folders.old ≡ Some t
        → IsPrefixOut (files_told t folder.now trace.now (key_of stream.now) tally.old (map key_of archives.now)).text
        (K.taken sink.old) (K.taken sink.new)) }
    ensures tree { F.tree folders.new ≡ F.tree folders.old }
    ensures reads { F.failures folders.new ≡ reads_after result (F.failures folders.old) }
    ensures writes { K.failures sink.new ≡ writes_after result (K.failures sink.old) }
    ensures room { length buffer.new ≡ length buffer.old }
{
    for at in 0..archives.len() {
        let before = *tally;
        tell_archive(
            alloc,
            folders,
            sink,
            trace,
            folder,
            &archives[at],
            stream,
            tally,
            buffer,
        )?;
        sums[at] = sums[at].with_rises(&before, tally);
    }
    Ok(())
}

/// Where a stream ends, and between which moments its packets lie.
fn span_text(alloc: Global, first: Option<u64>, last: Option<Last>) -> Result<String, AllocError>
    ensures { IfOk result (λ s. string_bytes s ≡ span_text first last) }
{
    match last {
        None => String::from_str(alloc, " last none"),
        Some(last) => last_text(alloc, last.seq, last.serial, first.unwrap_or(0), last.end),
    }
}

/// The lines after a stream's files.
fn end_lines(
    alloc: Global,
    stream: &Numbered,
    deleted: bool,
    tally: &Tally,
) -> Result<String, AllocError>
    ensures { IfOk result (λ s. string_bytes s ≡ (ended_told (key_of stream.now) deleted tally.now).text) }
{
    let lost = lost_by(tally.last);
    let counts = counts_text(alloc, tally.packets, tally.records, tally.absent, lost)?;
    let last = span_text(alloc, tally.first, tally.last)?;
    let mut lines = stream_line(alloc, stream, counts.as_str(), last.as_str())?;
    let count = tally.unexplained(deleted);
    if count != 0 {
        let line = cleared_line(alloc, stream.number, count)?;
        lines.push_str(line.as_str())?;
    }
    Ok(lines)
}

/// Whether there are numbers below the least archive's.
fn are_deleted(archives: &[Numbered]) -> bool
    ensures { result ≡ are_deleted (map key_of archives.now) }
{
    match archives {
        [] => false,
        [archive, ..] => archive.number > 0,
    }
}

/// Reports a stream, after this number of faults. How many there are then.
fn tell_stream<F: Folders, K: ByteSink>(
    alloc: Global,
    folders: &mut F,
    sink: &mut K,
    trace: &Trace,
    folder: &str,
    archives: &[Numbered],
    stream: &Numbered,
    sums: &mut [Sums],
    faults: u64,
    buffer: &mut [u8],
) -> Result<u64, SurveyFault>
    requires room { 0 < length buffer.old }
    requires sums { length sums.old ≡ length archives.now }
    ensures sums { OnOk result ((t : Tree) → F.tree folders.old ≡ Some t
        → sums.new ≡ sums_after_files t folder.now trace.now (key_of stream.now) (no_tally faults) (map key_of archives.now) sums.old) }
    ensures len { length sums.new ≡ length sums.old }
    ensures ok { IfOk result (λ n. (t : Tree) → F.tree folders.old ≡ Some t
        → IsTold (stream_told t folder.now trace.now (map key_of archives.now) faults (key_of stream.now))
        (K.taken sink.old) (K.taken sink.new) n) }
    ensures err { OnErr result ((t : Tree) → F.tree folders.old ≡ Some t
        → IsPrefixOut (stream_told t folder.now trace.now (map key_of archives.now) faults (key_of stream.now)).text
        (K.taken sink.old) (K.taken sink.new)) }
    ensures tree { F.tree folders.new ≡ F.tree folders.old }
    ensures reads { F.failures folders.new ≡ reads_after result (F.failures folders.old) }
    ensures writes { K.failures sink.new ≡ writes_after result (K.failures sink.old) }
    ensures room { length buffer.new ≡ length buffer.old }
{
    let mut tally = Tally::new(faults);
    tell_files(
        alloc, folders, sink, trace, folder, archives, stream, &mut tally, sums, buffer,
    )?;
    let lines = end_lines(alloc, stream, are_deleted(archives), &tally)?;
    put_line(sink, lines.as_str())?;
    Ok(tally.faults)
}

/// Reports streams, after this number of faults, and adds to the sums of each archive. How many faults there are then.
pub(crate) fn tell_streams<F: Folders, K: ByteSink>(
    alloc: Global,
    folders: &mut F,
    sink: &mut K,
    trace: &Trace,
    folder: &str,
    archives: &[Numbered],
    streams: &[Numbered],
    sums: &mut [Sums],
    faults: u64,
    buffer: &mut [u8],
) -> Result<u64, SurveyFault>
    requires room { 0 < length buffer.old }
    requires sums { length sums.old ≡ length archives.now }
    ensures sums { OnOk result ((t : Tree) → F.tree folders.old ≡ Some t
        → sums.new ≡ sums_after_streams t folder.now trace.now (map key_of archives.now) faults (map key_of streams.now) sums.old) }
    ensures len { length sums.new ≡ length sums.old }
    ensures ok { IfOk result (λ n. (t : Tree) → F.tree folders.old ≡ Some t
        → IsTold (streams_told t folder.now trace.now (map key_of archives.now) faults (map key_of streams.now))
        (K.taken sink.old) (K.taken sink.new) n) }
    ensures err { OnErr result ((t : Tree) → F.tree folders.old ≡ Some t
        → IsPrefixOut (streams_told t folder.now trace.now (map key_of archives.now) faults (map key_of streams.now)).text
        (K.taken sink.old) (K.taken sink.new)) }
    ensures tree { F.tree folders.new ≡ F.tree folders.old }
    ensures reads { F.failures folders.new ≡ reads_after result (F.failures folders.old) }
    ensures writes { K.failures sink.new ≡ writes_after result (K.failures sink.old) }
    ensures room { length buffer.new ≡ length buffer.old }
{
    let mut count = faults;
    for stream in streams {
        count = tell_stream(
            alloc, folders, sink, trace, folder, archives, stream, sums, count, buffer,
        )?;
    }
    Ok(count)
}
