//! The rows of sessions.

ghost use Rattle.std.specs.Prelude.{◌≡◌, ◌<◌, ◌++◌, ℕ, Some, IfOk, OnOk, length, map};
ghost use Rattle.std.specs.List.{flat_map};
ghost use Rattle.tr_folders.specs.Tree.{Tree, by_text};
ghost use Rattle.tr_metadata.specs.declared.metadata.TheConstants.{LONGEST_METADATA};
ghost use Rattle.tr_picture.specs.Sessions.{archives_lines, extent_of, faults_in, first_offset, line, line_of, lines_of, marks_of, name_lines, seen};
ghost use Rattle.tr_survey.specs.Failures.{reads_after, writes_after};
ghost use Rattle.tr_survey.specs.Listing.{key_of};

use crate::files::stream_row;
use crate::frame::{Extent, Frame};
use crate::offsets::{offset_of, utc};
use crate::rows::Row;
use std::alloc::{AllocError, Global};
use tr_folders::{Folders, buffer_of};
use tr_metadata::LONGEST_METADATA;
use tr_survey::{
    Listing, Numbered, SurveyFault, archives_among, archives_path, identity_of, listing_at,
    names_in_order, namings_of, streams_among,
};
use tr_terms::{Name, OffsetMinutes};
use uuid::Uuid;

/// A stream of a session, how far its clock is from UTC, and its row.
#[derive(Drop)]
pub(crate) struct Line {
    pub(crate) session: String,
    pub(crate) stream: Numbered,
    pub(crate) offset: OffsetMinutes,
    pub(crate) row: Row,
}

/// A line of a stream.
fn made_line(
    alloc: Global,
    session: &str,
    stream: &Numbered,
    offset: OffsetMinutes,
    row: Row,
) -> Result<Line, AllocError>
    ensures { IfOk result (λ made. seen made ≡ line session.now (key_of stream.now) offset row) }
{
    let session = String::from_str(alloc, session)?;
    let name = String::from_str(alloc, stream.name.as_str())?;
    let number = stream.number;
    let stream = Numbered { number, name };
    Ok(Line {
        session,
        stream,
        offset,
        row,
    })
}

/// Adds the lines of these streams of a session, which has these archives in a folder.
fn add_streams<F: Folders>(
    alloc: Global,
    folders: &mut F,
    frame: &Frame,
    uuid: &Uuid,
    session: &str,
    folder: &str,
    archives: &[Numbered],
    streams: &[Numbered],
    found: &mut Vec<Line>,
    buffer: &mut [u8],
) -> Result<(), SurveyFault>
    requires { 0 < length buffer.old }
    ensures found { OnOk result ((t : Tree) → F.tree folders.old ≡ Some t → map seen found.new.items ≡ map seen found.old.items
        ++ map (line_of frame.now t session.now folder.now uuid.now (map key_of archives.now)) (map key_of streams.now)) }
    ensures tree { F.tree folders.new ≡ F.tree folders.old }
    ensures failures { F.failures folders.new ≡ reads_after result (F.failures folders.old) }
    ensures writes { (n : ℕ) → writes_after result n ≡ n }
    ensures room { length buffer.new ≡ length buffer.old }
{
    let offset = offset_of(archives);
    for stream in streams {
        let row = stream_row(
            alloc, folders, frame, uuid, folder, archives, stream, buffer,
        )?;
        let made = made_line(alloc, session, stream, offset, row)?;
        found.push(made)?;
    }
    Ok(())
}

/// Adds the lines of a session, which has these archives in a folder.
fn add_archives<F: Folders>(
    alloc: Global,
    folders: &mut F,
    frame: &Frame,
    session: &str,
    folder: &str,
    archives: &[Numbered],
    found: &mut Vec<Line>,
    buffer: &mut [u8],
) -> Result<(), SurveyFault>
    requires { length buffer.old ≡ LONGEST_METADATA }
    ensures found { OnOk result ((t : Tree) → F.tree folders.old ≡ Some t → map seen found.new.items ≡ map seen found.old.items
        ++ archives_lines frame.now t session.now folder.now (map key_of archives.now)) }
    ensures tree { F.tree folders.new ≡ F.tree folders.old }
    ensures failures { F.failures folders.new ≡ reads_after result (F.failures folders.old) }
    ensures writes { (n : ℕ) → writes_after result n ≡ n }
    ensures room { length buffer.new ≡ length buffer.old }
{
    let namings = namings_of(alloc, folders, folder, archives, buffer)?;
    let streams = streams_among(alloc, folders, folder, archives)?;
    let identity = identity_of(alloc, folders, folder, archives, &namings, &streams)?;
    let uuid = identity.judged_by();
    add_streams(
        alloc, folders, frame, &uuid, session, folder, archives, &streams, found, buffer,
    )
}

/// Adds the lines of what has this name below a folder, if it is a session.
fn add_name<F: Folders>(
    alloc: Global,
    folders: &mut F,
    frame: &Frame,
    dir: &str,
    name: &str,
    found: &mut Vec<Line>,
    buffer: &mut [u8],
) -> Result<(), SurveyFault>
    requires { length buffer.old ≡ LONGEST_METADATA }
    ensures found { OnOk result ((t : Tree) → F.tree folders.old ≡ Some t
        → map seen found.new.items ≡ map seen found.old.items ++ name_lines frame.now t dir.now name.now) }
    ensures tree { F.tree folders.new ≡ F.tree folders.old }
    ensures failures { F.failures folders.new ≡ reads_after result (F.failures folders.old) }
    ensures writes { (n : ℕ) → writes_after result n ≡ n }
    ensures room { length buffer.new ≡ length buffer.old }
{
    if Name::new(name).is_none() {
        return Ok(());
    }
    let folder = archives_path(alloc, dir, name)?;
    let folder = folder.as_str();
    let names = match listing_at(alloc, folders, folder)? {
        Listing::Absent => return Ok(()),
        Listing::Unreadable => return Ok(()),
        Listing::Names(names) => names,
    };
    let archives = archives_among(alloc, folders, folder, &names)?;
    add_archives(
        alloc, folders, frame, name, folder, &archives, found, buffer,
    )
}

/// The lines of what has these names below a folder, in this order.
fn lines_among<F: Folders>(
    alloc: Global,
    folders: &mut F,
    frame: &Frame,
    dir: &str,
    names: &[String],
) -> Result<Vec<Line>, SurveyFault>
    ensures lines { IfOk result (λ found. (t : Tree) → F.tree folders.old ≡ Some t
        → map seen found.items ≡ flat_map (name_lines frame.now t dir.now) (by_text names.now)) }
    ensures tree { F.tree folders.new ≡ F.tree folders.old }
    ensures failures { F.failures folders.new ≡ reads_after result (F.failures folders.old) }
    ensures writes { (n : ℕ) → writes_after result n ≡ n }
{
    let mut buffer = buffer_of(alloc, LONGEST_METADATA)?;
    let buffer = buffer.as_mut_slice();
    let mut found = Vec::new(alloc);
    for name in names {
        add_name(
            alloc,
            folders,
            frame,
            dir,
            name.as_str(),
            &mut found,
            buffer,
        )?;
    }
    Ok(found)
}

/// The lines of the streams below a folder.
pub(crate) fn lines_of<F: Folders>(
    alloc: Global,
    folders: &mut F,
    frame: &Frame,
    dir: &str,
) -> Result<Vec<Line>, SurveyFault>
    ensures lines { IfOk result (λ found. (t : Tree) → F.tree folders.old ≡ Some t
        → map seen found.items ≡ lines_of frame.now t dir.now) }
    ensures tree { F.tree folders.new ≡ F.tree folders.old }
    ensures failures { F.failures folders.new ≡ reads_after result (F.failures folders.old) }
    ensures writes { (n : ℕ) → writes_after result n ≡ n }
{
    let names = match listing_at(alloc, folders, dir)? {
        Listing::Absent => return Ok(Vec::new(alloc)),
        Listing::Unreadable => return Ok(Vec::new(alloc)),
        Listing::Names(names) => names_in_order(alloc, &names)?,
    };
    lines_among(alloc, folders, frame, dir, &names)
}

/// The extent of the packets of all lines.
pub(crate) fn extent_of(lines: &[Line]) -> Extent
    ensures { result ≡ extent_of (map seen lines.now) }
{
    let mut extent = Extent::none();
    for line in lines {
        extent = extent.both(&line.row.extent);
    }
    extent
}

/// How many marks all lines have, before neighbours are one.
pub(crate) fn marks_of(lines: &[Line]) -> u64
    ensures { result ≡ marks_of (map seen lines.now) }
{
    let mut marks: u64 = 0;
    for line in lines {
        let packets = line.row.packets.added();
        let losses = line.row.losses.added();
        marks = marks.saturating_add(packets).saturating_add(losses);
    }
    marks
}

/// How many faults all lines have.
pub(crate) fn faults_in(lines: &[Line]) -> u64
    ensures { result ≡ faults_in (map seen lines.now) }
{
    let mut faults: u64 = 0;
    for line in lines {
        faults = faults.saturating_add(line.row.tally.faults);
    }
    faults
}

/// The first line's offset; UTC if there are no lines.
pub(crate) fn first_offset(lines: &[Line]) -> OffsetMinutes
    ensures { result ≡ first_offset (map seen lines.now) }
{
    match lines {
        [] => utc(),
        [first, ..] => first.offset,
    }
}
