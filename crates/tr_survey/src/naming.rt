//! The identifier that metadata name.

ghost use Rattle.std.specs.Prelude.{◌≡◌, ℕ, ◌<◌, List, Some, None, IfOk, length};
ghost use Rattle.std.specs.List.{position};
ghost use Rattle.std.specs.Option.{option_map};
ghost use Rattle.tr_survey.specs.Failures.{reads_after, writes_after};
ghost use Rattle.tr_folders.specs.Tree.{File, Tree};
ghost use Rattle.tr_metadata.specs.declared.metadata.TheConstants.{LONGEST_METADATA};
ghost use Rattle.tr_survey.specs.Metadata.{ends_line, most_named, naming_by, naming_in, quoted, uuid_in, uuid_in_line, uuid_named, without_indent};

use crate::faults::SurveyFault;
use crate::identifiers::most_often;
use std::alloc::{AllocError, Global};
use tr_folders::{Folders, ReadFault, read_front};
use tr_metadata::is_text_of;
use uuid::Uuid;

/// What an archive's metadata say of the trace.
#[derive(Clone, Copy, Debug, PartialEq, Eq)]
pub enum Naming {
    /// There is no file `metadata`, or an empty one: the recorder writes it last.
    Unfinished,
    /// It can't be read, or the archive's folder can't.
    Unreadable,
    /// It has no line that names an identifier.
    NoUuid,
    /// The first such line names this one, but the text isn't the recorder's.
    Other(Uuid),
    /// It is the recorder's text of this identifier, and of the events that it declares itself.
    Named(Uuid),
}

/// The line without the spaces in front of it.
fn without_indent(line: &[u8]) -> &[u8]
    ensures { result.now ≡ without_indent line.entry.now }
{
    let mut rest = line;
    while let [b' ', more @ ..] = rest {
        rest = more;
    }
    rest
}

/// What is between the quotes in a line `uuid = "..";`.
fn quoted(text: &[u8]) -> Option<&[u8]>
    ensures { option_map (λ found. found.now) result ≡ quoted text.entry.now }
{
    text.strip_prefix(b"uuid = \"")?.strip_suffix(b"\";")
}

/// The identifier that such a line names, indented or not.
fn uuid_in_line(line: &[u8]) -> Option<Uuid>
    ensures { result ≡ uuid_in_line line.now }
{
    let Some(text) = quoted(without_indent(line)) else {
        return None;
    };
    match Uuid::try_parse_ascii(text) {
        Ok(uuid) => Some(uuid),
        Err(_) => None,
    }
}

/// Where the first line ends, if a newline ends it.
fn line_end(bytes: &[u8]) -> Option<usize>
    ensures { result ≡ position ends_line bytes.now }
{
    bytes.iter().position(|b| *b == b'\n')
}

/// The identifier that the first such line names.
fn uuid_in(bytes: &[u8]) -> Option<Uuid>
    ensures { result ≡ uuid_in bytes.now }
{
    let mut rest = bytes;
    while let Some(end) = line_end(rest) {
        let (line, more) = rest.split_at(end);
        if let Some(uuid) = uuid_in_line(line) {
            return Some(uuid);
        }
        (_, rest) = more.split_at(1);
    }
    uuid_in_line(rest)
}

/// What these first bytes of metadata name. Fails if an allocation fails.
pub fn naming_by(alloc: Global, bytes: &[u8]) -> Result<Naming, AllocError>
    ensures { IfOk result (λ naming. naming ≡ naming_by bytes.now) }
{
    if bytes.is_empty() {
        return Ok(Naming::Unfinished);
    }
    let Some(uuid) = uuid_in(bytes) else {
        return Ok(Naming::NoUuid);
    };
    if is_text_of(alloc, &uuid, bytes)? {
        Ok(Naming::Named(uuid))
    } else {
        Ok(Naming::Other(uuid))
    }
}

/// What the open file names, if it is metadata, by as many bytes as the buffer holds.
fn naming_read<F: Folders>(
    alloc: Global,
    folders: &mut F,
    buffer: &mut [u8],
) -> Result<Naming, SurveyFault>
    requires { length buffer.old ≡ LONGEST_METADATA }
    ensures naming { IfOk result (λ naming. (file : File) → F.left folders.old ≡ Some file → naming ≡ naming_in (Some file)) }
    ensures tree { F.tree folders.new ≡ F.tree folders.old }
    ensures failures { F.failures folders.new ≡ reads_after result (F.failures folders.old) }
    ensures writes { (n : ℕ) → writes_after result n ≡ n }
    ensures room { length buffer.new ≡ length buffer.old }
{
    match read_front(folders, buffer) {
        Ok(count) => {
            let (bytes, _) = buffer.split_at(count);
            Ok(naming_by(alloc, bytes)?)
        }
        Err(ReadFault::Unreadable) => Ok(Naming::Unreadable),
        Err(ReadFault::TooMuch) => Err(SurveyFault::TooMuch),
        Err(ReadFault::NoMemory) => Err(SurveyFault::NoMemory),
    }
}

/// What the metadata of this path name.
pub(crate) fn naming_at<F: Folders>(
    alloc: Global,
    folders: &mut F,
    path: &str,
    buffer: &mut [u8],
) -> Result<Naming, SurveyFault>
    requires { length buffer.old ≡ LONGEST_METADATA }
    ensures naming { IfOk result (λ naming. (t : Tree) → F.tree folders.old ≡ Some t → naming ≡ naming_in (t.file path.now)) }
    ensures tree { F.tree folders.new ≡ F.tree folders.old }
    ensures failures { F.failures folders.new ≡ reads_after result (F.failures folders.old) }
    ensures writes { (n : ℕ) → writes_after result n ≡ n }
    ensures room { length buffer.new ≡ length buffer.old }
{
    match folders.open(path) {
        Ok(true) => naming_read(alloc, folders, buffer),
        Ok(false) => Ok(Naming::Unfinished),
        Err(ReadFault::Unreadable) => Ok(Naming::Unreadable),
        Err(ReadFault::TooMuch) => Err(SurveyFault::TooMuch),
        Err(ReadFault::NoMemory) => Err(SurveyFault::NoMemory),
    }
}

/// The identifier that is named, if one is.
fn uuid_named(naming: &Naming) -> Option<Uuid>
    ensures { result ≡ uuid_named naming.now }
{
    match naming {
        Naming::Unfinished | Naming::Unreadable | Naming::NoUuid => None,
        Naming::Other(uuid) | Naming::Named(uuid) => Some(*uuid),
    }
}

/// The identifier that metadata name most often; of several the first.
pub(crate) fn most_named(alloc: Global, namings: &[Naming]) -> Result<Option<Uuid>, AllocError>
    ensures { IfOk result (λ uuid. uuid ≡ most_named namings.now) }
{
    let mut uuids = Vec::with_capacity(alloc, namings.len())?;
    for naming in namings {
        uuids.push(uuid_named(naming))?;
    }
    Ok(most_often(&uuids))
}
