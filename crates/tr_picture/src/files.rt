//! What is drawn of a stream's file in an archive.

ghost use Rattle.std.specs.Prelude.{◌≡◌, ◌<◌, ℕ, Some, IfOk, OnOk, length, map};
ghost use Rattle.tr_folders.specs.Tree.{File, Tree};
ghost use Rattle.tr_picture.specs.Rows.{file_row, left_row, stream_row};
ghost use Rattle.tr_picture.specs.Steps.{IsBad, IsHeld, IsStep};
ghost use Rattle.tr_survey.specs.Failures.{reads_after, writes_after};
ghost use Rattle.tr_survey.specs.Listing.{key_of};
ghost use Rattle.tr_survey.specs.Paths.{file_in};
ghost use Rattle.tr_survey.specs.Streams.{place};

use crate::frame::Frame;
use crate::rows::Row;
use std::alloc::{AllocError, Global};
use tr_folders::{Folders, MOST_BYTES, ReadFault};
use tr_packet::{PacketFault, decode_packet};
use tr_survey::{Numbered, SurveyFault, cause_of, stream_path};
use uuid::Uuid;

/// By what a stream's file is drawn: the frame, the trace and the stream that its packets are to be of, and the archive.
#[derive(Drop)]
pub(crate) struct Rule<'a> {
    pub(crate) frame: &'a Frame,
    pub(crate) uuid: &'a Uuid,
    pub(crate) stream: u64,
    pub(crate) archive: &'a Numbered,
}

/// What came of the bytes at the front of what is there.
pub(crate) enum Step {
    /// A packet of so many bytes was taken.
    Packet(usize),
    /// They are too few for a packet.
    Waits,
    /// They don't start with a packet, or not with one of the stream. Nothing more of the file is taken.
    Stopped,
}

/// What comes of bytes that don't start with a packet, for this reason.
fn take_bad(rule: &Rule<'_>, row: &mut Row, fault: PacketFault) -> Result<Step, AllocError>
    ensures { IfOk result (λ step. IsBad rule.now.frame.now
        (place rule.now.uuid.now rule.now.stream (key_of rule.now.archive.now)) row.old fault step row.new) }
{
    match fault {
        PacketFault::Short => Ok(Step::Waits),
        _ => {
            row.add_fault(rule.frame, rule.archive)?;
            Ok(Step::Stopped)
        }
    }
}

/// Takes the packet that bytes start with.
fn take_front(
    alloc: Global,
    rule: &Rule<'_>,
    row: &mut Row,
    bytes: &[u8],
) -> Result<Step, AllocError>
    ensures { IfOk result (λ step. IsStep rule.now.frame.now
        (place rule.now.uuid.now rule.now.stream (key_of rule.now.archive.now)) row.old bytes.now step row.new) }
{
    let (packet, size) = match decode_packet(bytes) {
        Ok(front) => front,
        Err(fault) => return take_bad(rule, row, fault),
    };
    let cause = cause_of(rule.uuid, rule.stream, row.tally.before(), &packet);
    if cause.is_some() {
        row.add_fault(rule.frame, rule.archive)?;
        return Ok(Step::Stopped);
    }
    row.add_packet(alloc, rule.frame, rule.archive, &packet, size)?;
    Ok(Step::Packet(size))
}

/// The bytes, copied.
pub(crate) fn bytes_of(alloc: Global, bytes: &[u8]) -> Result<Vec<u8>, AllocError>
    ensures { IfOk result (λ copy. copy.items ≡ bytes.now) }
{
    bytes.to_vec(alloc)
}

/// Takes the packets that are held whole, and holds what comes after them. Whether nothing more of the file is taken.
fn take_held(
    alloc: Global,
    rule: &Rule<'_>,
    row: &mut Row,
    held: &mut Vec<u8>,
) -> Result<bool, AllocError>
    ensures { IfOk result (λ stopped. IsHeld rule.now.frame.now
        (place rule.now.uuid.now rule.now.stream (key_of rule.now.archive.now)) row.old held.old.items stopped row.new held.new.items) }
{
    let mut at = 0;
    'packets: loop {
        let (_, bytes) = held.split_at(at);
        match take_front(alloc, rule, row, bytes)? {
            Step::Packet(size) => at += size,
            Step::Waits => break,
            Step::Stopped => return Ok(true),
        }
    }
    let (_, left) = held.split_at(at);
    *held = bytes_of(alloc, left)?;
    Ok(false)
}

/// Takes the bytes at a file's end, which are too few for a packet.
fn take_left(rule: &Rule<'_>, row: &mut Row, held: &[u8]) -> Result<(), AllocError>
    ensures { OnOk result (row.new ≡ left_row rule.now.frame.now
        (place rule.now.uuid.now rule.now.stream (key_of rule.now.archive.now)) row.old held.now) }
{
    match held {
        [] => Ok(()),
        [_, ..] => row.add_fault(rule.frame, rule.archive),
    }
}

/// Takes the open file. It holds a piece and the packet that it reads, however long the file is.
fn take_file<F: Folders>(
    alloc: Global,
    folders: &mut F,
    rule: &Rule<'_>,
    row: &mut Row,
    buffer: &mut [u8],
) -> Result<(), SurveyFault>
    requires { 0 < length buffer.old }
    ensures row { OnOk result ((file : File) → F.left folders.old ≡ Some file → row.new ≡ file_row rule.now.frame.now
        (place rule.now.uuid.now rule.now.stream (key_of rule.now.archive.now)) row.old (Some file)) }
    ensures tree { F.tree folders.new ≡ F.tree folders.old }
    ensures failures { F.failures folders.new ≡ reads_after result (F.failures folders.old) }
    ensures writes { (n : ℕ) → writes_after result n ≡ n }
    ensures room { length buffer.new ≡ length buffer.old }
{
    let mut held = Vec::new(alloc);
    'pieces: for _ in 0..MOST_BYTES {
        match folders.read(buffer) {
            Ok(0) => return Ok(take_left(rule, row, &held)?),
            Ok(count) => {
                let (bytes, _) = buffer.split_at(count);
                held.extend_from_slice(bytes)?;
                if take_held(alloc, rule, row, &mut held)? {
                    return Ok(());
                }
            }
            Err(ReadFault::Unreadable) => return Ok(row.add_fault(rule.frame, rule.archive)?),
            Err(ReadFault::TooMuch) => return Err(SurveyFault::TooMuch),
            Err(ReadFault::NoMemory) => return Err(SurveyFault::NoMemory),
        }
    }
    unreachable!()
}

/// Takes a stream's file in an archive of a folder.
fn take_archive<F: Folders>(
    alloc: Global,
    folders: &mut F,
    frame: &Frame,
    uuid: &Uuid,
    folder: &str,
    archive: &Numbered,
    stream: &Numbered,
    row: &mut Row,
    buffer: &mut [u8],
) -> Result<(), SurveyFault>
    requires { 0 < length buffer.old }
    ensures row { OnOk result ((t : Tree) → F.tree folders.old ≡ Some t
        → row.new ≡ file_row frame.now (place uuid.now stream.now.number (key_of archive.now)) row.old
        (file_in t folder.now (key_of stream.now) (key_of archive.now))) }
    ensures tree { F.tree folders.new ≡ F.tree folders.old }
    ensures failures { F.failures folders.new ≡ reads_after result (F.failures folders.old) }
    ensures writes { (n : ℕ) → writes_after result n ≡ n }
    ensures room { length buffer.new ≡ length buffer.old }
{
    let rule = Rule {
        frame,
        uuid,
        stream: stream.number,
        archive,
    };
    let path = stream_path(alloc, folder, archive, stream)?;
    match folders.open(path.as_str()) {
        Ok(true) => take_file(alloc, folders, &rule, row, buffer),
        Ok(false) => Ok(row.add_fault(frame, archive)?),
        Err(ReadFault::Unreadable) => Ok(row.add_fault(frame, archive)?),
        Err(ReadFault::TooMuch) => Err(SurveyFault::TooMuch),
        Err(ReadFault::NoMemory) => Err(SurveyFault::NoMemory),
    }
}

/// The row of a stream: its files in these archives of a folder.
pub(crate) fn stream_row<F: Folders>(
    alloc: Global,
    folders: &mut F,
    frame: &Frame,
    uuid: &Uuid,
    folder: &str,
    archives: &[Numbered],
    stream: &Numbered,
    buffer: &mut [u8],
) -> Result<Row, SurveyFault>
    requires { 0 < length buffer.old }
    ensures row { IfOk result (λ row. (t : Tree) → F.tree folders.old ≡ Some t
        → row ≡ stream_row frame.now t folder.now uuid.now (map key_of archives.now) (key_of stream.now)) }
    ensures tree { F.tree folders.new ≡ F.tree folders.old }
    ensures failures { F.failures folders.new ≡ reads_after result (F.failures folders.old) }
    ensures writes { (n : ℕ) → writes_after result n ≡ n }
    ensures room { length buffer.new ≡ length buffer.old }
{
    let mut row = Row::new(alloc);
    for archive in archives {
        take_archive(
            alloc, folders, frame, uuid, folder, archive, stream, &mut row, buffer,
        )?;
    }
    Ok(row)
}
