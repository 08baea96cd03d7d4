//! The identifier of a session, among several, and those that packets have.

ghost use Rattle.std.specs.Prelude.{◌≡◌, ◌++◌, ℕ, Some, IfOk, OnOk, map, option_copied};
ghost use Rattle.std.specs.List.{flat_map};
ghost use Rattle.tr_folders.specs.Tree.{File, Tree};
ghost use Rattle.tr_survey.specs.Failures.{reads_after, writes_after};
ghost use Rattle.tr_survey.specs.Identifiers.{is_uuid, judged_by, most_often, of_two, times, uuid_in_file, uuid_in_header, uuid_of, uuid_of_packets, uuids_of_stream};
ghost use Rattle.tr_survey.specs.Lines.{source_text};
ghost use Rattle.tr_survey.specs.Listing.{key_of};
ghost use Rattle.tr_survey.specs.Paths.{file_in};

use crate::faults::SurveyFault;
use crate::names::Numbered;
use crate::paths::stream_path;
use std::alloc::Global;
use tr_folders::{Folders, ReadFault, read_front};
use tr_packet::layout::UUID_AT;
use tr_packet::size_by_fields;
use tr_terms::limits::PACKET_HEADER;
use uuid::Uuid;

/// A session's identifier, and what it is known by.
#[derive(Clone, Copy, Debug, PartialEq, Eq)]
pub enum Identity {
    /// Nothing names one.
    Unknown,
    /// More metadata name this one than any other.
    OfMetadata(Uuid),
    /// No metadata name one, and more files begin with a packet of this one than of any other.
    OfPackets(Uuid),
}

impl Identity {
    /// The identifier, if one is known.
    pub(crate) fn uuid(&self) -> Option<Uuid>
        ensures { result ≡ uuid_of self.now }
    {
        match self {
            Identity::Unknown => None,
            Identity::OfMetadata(uuid) | Identity::OfPackets(uuid) => Some(*uuid),
        }
    }

    /// The one that packets are judged by.
    pub fn judged_by(&self) -> Uuid
        ensures { result ≡ judged_by self.now }
    {
        match self {
            Identity::Unknown => Uuid::from_bytes([0; 16]),
            Identity::OfMetadata(uuid) | Identity::OfPackets(uuid) => *uuid,
        }
    }

    /// The line that says where it is from, if that isn't metadata.
    pub(crate) fn source_line(&self) -> &'static str
        ensures { result.now ≡ source_text self.now }
    {
        match self {
            Identity::Unknown | Identity::OfMetadata(_) => "",
            Identity::OfPackets(_) => "uuid of packets\n",
        }
    }
}

/// Whether an identifier is this one.
pub(crate) fn is_uuid(one: Option<&Uuid>, own: &Uuid) -> bool
    ensures { result ≡ is_uuid (option_copied one.entry) own.now }
{
    match one {
        None => false,
        Some(uuid) => *uuid == *own,
    }
}

/// How often an identifier is among these.
fn times(uuids: &[Option<Uuid>], uuid: &Uuid) -> usize
    ensures { result ≡ times uuids.now uuid.now }
{
    let mut count = 0;
    for own in uuids {
        if is_uuid(own.as_ref(), uuid) {
            count += 1;
        }
    }
    count
}

/// Of two identifiers the one that is there more often, or the first.
fn of_two(uuids: &[Option<Uuid>], first: Option<Uuid>, other: Option<Uuid>) -> Option<Uuid>
    ensures { result ≡ of_two uuids.now first other }
{
    let Some(uuid) = other else {
        return first;
    };
    let Some(own) = first else {
        return other;
    };
    if own != uuid && times(uuids, &own) < times(uuids, &uuid) {
        Some(uuid)
    } else {
        Some(own)
    }
}

/// The identifier that is there most often; of several the first.
pub(crate) fn most_often(uuids: &[Option<Uuid>]) -> Option<Uuid>
    ensures { result ≡ most_often uuids.now }
{
    let mut first = None;
    for other in uuids {
        first = of_two(uuids, first, *other);
    }
    first
}

/// The identifier in the header that bytes start with, if they start with one.
fn uuid_in_header(bytes: &[u8]) -> Option<Uuid>
    ensures { result ≡ uuid_in_header bytes.now }
{
    if bytes.len() < PACKET_HEADER {
        return None;
    }
    if size_by_fields(bytes).is_err() {
        return None;
    }
    let (_, rest) = bytes.split_at(UUID_AT);
    match rest.split_first_chunk::<16>() {
        Some((uuid, _)) => Some(Uuid::from_bytes(*uuid)),
        None => unreachable!(),
    }
}

/// The identifier in the header that the open file begins with, if it begins with one.
fn uuid_read<F: Folders>(folders: &mut F) -> Result<Option<Uuid>, SurveyFault>
    ensures uuid { IfOk result (λ uuid. (file : File) → F.left folders.old ≡ Some file → uuid ≡ uuid_in_file (Some file)) }
    ensures tree { F.tree folders.new ≡ F.tree folders.old }
    ensures failures { F.failures folders.new ≡ reads_after result (F.failures folders.old) }
    ensures writes { (n : ℕ) → writes_after result n ≡ n }
{
    let mut header = [0u8; PACKET_HEADER];
    match read_front(folders, &mut header) {
        Ok(count) => {
            let (bytes, _) = header.split_at(count);
            Ok(uuid_in_header(bytes))
        }
        Err(ReadFault::Unreadable) => Ok(None),
        Err(ReadFault::TooMuch) => Err(SurveyFault::TooMuch),
        Err(ReadFault::NoMemory) => Err(SurveyFault::NoMemory),
    }
}

/// The identifier that a stream's file in an archive of a folder begins with, if it begins with a header.
fn uuid_in_file<F: Folders>(
    alloc: Global,
    folders: &mut F,
    folder: &str,
    archive: &Numbered,
    stream: &Numbered,
) -> Result<Option<Uuid>, SurveyFault>
    ensures uuid { IfOk result (λ uuid. (t : Tree) → F.tree folders.old ≡ Some t
        → uuid ≡ uuid_in_file (file_in t folder.now (key_of stream.now) (key_of archive.now))) }
    ensures tree { F.tree folders.new ≡ F.tree folders.old }
    ensures failures { F.failures folders.new ≡ reads_after result (F.failures folders.old) }
    ensures writes { (n : ℕ) → writes_after result n ≡ n }
{
    let path = stream_path(alloc, folder, archive, stream)?;
    match folders.open(path.as_str()) {
        Ok(true) => uuid_read(folders),
        Ok(false) => Ok(None),
        Err(ReadFault::Unreadable) => Ok(None),
        Err(ReadFault::TooMuch) => Err(SurveyFault::TooMuch),
        Err(ReadFault::NoMemory) => Err(SurveyFault::NoMemory),
    }
}

/// Adds the identifiers that a stream's files in the archives of a folder begin with.
fn push_uuids<F: Folders>(
    alloc: Global,
    folders: &mut F,
    uuids: &mut Vec<Option<Uuid>>,
    folder: &str,
    archives: &[Numbered],
    stream: &Numbered,
) -> Result<(), SurveyFault>
    ensures uuids { OnOk result ((t : Tree) → F.tree folders.old ≡ Some t → uuids.new.items
        ≡ uuids.old.items ++ uuids_of_stream t folder.now (map key_of archives.now) (key_of stream.now)) }
    ensures tree { F.tree folders.new ≡ F.tree folders.old }
    ensures failures { F.failures folders.new ≡ reads_after result (F.failures folders.old) }
    ensures writes { (n : ℕ) → writes_after result n ≡ n }
{
    for archive in archives {
        let uuid = uuid_in_file(alloc, folders, folder, archive, stream)?;
        uuids.push(uuid)?;
    }
    Ok(())
}

/// The identifier that most files of these streams in the archives of a folder begin with, if one does.
pub(crate) fn uuid_of_packets<F: Folders>(
    alloc: Global,
    folders: &mut F,
    folder: &str,
    archives: &[Numbered],
    streams: &[Numbered],
) -> Result<Option<Uuid>, SurveyFault>
    ensures uuid { IfOk result (λ uuid. (t : Tree) → F.tree folders.old ≡ Some t
        → uuid ≡ uuid_of_packets t folder.now (map key_of archives.now) (map key_of streams.now)) }
    ensures tree { F.tree folders.new ≡ F.tree folders.old }
    ensures failures { F.failures folders.new ≡ reads_after result (F.failures folders.old) }
    ensures writes { (n : ℕ) → writes_after result n ≡ n }
{
    let mut uuids = Vec::new(alloc);
    for stream in streams {
        push_uuids(alloc, folders, &mut uuids, folder, archives, stream)?;
    }
    Ok(most_often(&uuids))
}
