//! What is wrong with an archive.

ghost use Rattle.std.specs.Prelude.{◌≡◌, ◌∷◌, [], ◌++◌, ◌<◌, ℕ, List, Some, None, IfOk, length, map, option_map};
ghost use Rattle.std.specs.List.{filter_map};
ghost use Rattle.std.specs.String.{string_bytes};
ghost use Rattle.tr_describe.specs.Answers.{archive_wrong, archive_wrong_by, by_text, first_of, flawed, stream_wrong};
ghost use Rattle.tr_describe.specs.Homes.{metadata_in, own_uuid, seen};
ghost use Rattle.tr_describe.specs.declared.described.Wrong.TheVariants.{Foreign};
ghost use Rattle.tr_folders.specs.Tree.{Tree};
ghost use Rattle.tr_survey.specs.Failures.{reads_after, writes_after};
ghost use Rattle.tr_survey.specs.Listing.{key_of};
ghost use Rattle.tr_metadata.specs.declared.metadata.TheConstants.{LONGEST_METADATA};

use crate::described::Wrong;
use crate::files::judge_path;
use crate::flaws::{Flaw, Rule};
use std::alloc::{AllocError, Global};
use std::slice;
use tr_events::Events;
use tr_folders::{Folders, buffer_of};
use tr_metadata::LONGEST_METADATA;
use tr_survey::{Naming, Numbered, SurveyFault, file_path, naming_of, stream_path, streams_among};
use uuid::Uuid;

/// A session: its name, the folder of its archives, and the declared events.
#[derive(Drop)]
pub(crate) struct Session<'a> {
    pub(crate) name: &'a str,
    pub(crate) folder: &'a str,
    pub(crate) events: &'a Events,
}

/// An archive of a session.
#[derive(Drop)]
struct Place<'a> {
    session: &'a Session<'a>,
    archive: &'a Numbered,
}

/// An archive's metadata: the path of the file, and the trace's identifier.
#[derive(Drop)]
pub(crate) struct Metadata {
    pub(crate) path: String,
    pub(crate) uuid: Uuid,
}

/// What is wrong with a stream's file in an archive.
fn flawed(
    alloc: Global,
    place: &Place<'_>,
    stream: &Numbered,
    flaw: Flaw,
) -> Result<Wrong, AllocError>
    ensures { IfOk result (λ wrong. by_text wrong
        ≡ flawed place.now.session.now.name.now (string_bytes place.now.archive.now.name) (key_of stream.now) flaw) }
{
    let session = String::from_str(alloc, place.session.name)?;
    let archive = String::from_str(alloc, place.archive.name.as_str())?;
    let channel = String::from_str(alloc, stream.name.as_str())?;
    let stream = stream.number;
    match flaw {
        Flaw::Unsound => Ok(Wrong::Unsound {
            session,
            archive,
            channel,
            stream,
        }),
        Flaw::Unfit(serial) => Ok(Wrong::Unfit {
            session,
            archive,
            channel,
            stream,
            serial,
        }),
    }
}

/// An archive's metadata aren't the recorder's.
fn foreign(alloc: Global, session: &str, archive: &Numbered) -> Result<Wrong, AllocError>
    ensures { IfOk result (λ wrong. by_text wrong ≡ Foreign session.now (string_bytes archive.now.name)) }
{
    let session = String::from_str(alloc, session)?;
    let archive = String::from_str(alloc, archive.name.as_str())?;
    Ok(Wrong::Foreign { session, archive })
}

/// What is wrong with a stream's file in an archive of this identifier.
fn judge_stream<F: Folders>(
    alloc: Global,
    folders: &mut F,
    place: &Place<'_>,
    uuid: &Uuid,
    stream: &Numbered,
    buffer: &mut [u8],
) -> Result<Option<Wrong>, SurveyFault>
    requires { 0 < length buffer.old }
    ensures wrong { IfOk result (λ wrong. (t : Tree) → F.tree folders.old ≡ Some t
        → option_map by_text wrong ≡ stream_wrong t place.now.session.now.events.now place.now.session.now.name.now
        place.now.session.now.folder.now (key_of place.now.archive.now) uuid.now (key_of stream.now)) }
    ensures tree { F.tree folders.new ≡ F.tree folders.old }
    ensures failures { F.failures folders.new ≡ reads_after result (F.failures folders.old) }
    ensures writes { (n : ℕ) → writes_after result n ≡ n }
    ensures room { length buffer.new ≡ length buffer.old }
{
    let rule = Rule {
        events: place.session.events,
        uuid,
        stream: stream.number,
    };
    let path = stream_path(alloc, place.session.folder, place.archive, stream)?;
    match judge_path(alloc, folders, &rule, path.as_str(), buffer)? {
        Some(flaw) => Ok(Some(flawed(alloc, place, stream, flaw)?)),
        None => Ok(None),
    }
}

/// What is wrong with these streams of an archive of this identifier.
fn judge_streams<F: Folders>(
    alloc: Global,
    folders: &mut F,
    place: &Place<'_>,
    uuid: &Uuid,
    streams: &[Numbered],
    buffer: &mut [u8],
) -> Result<Option<Wrong>, SurveyFault>
    requires { 0 < length buffer.old }
    ensures wrong { IfOk result (λ wrong. (t : Tree) → F.tree folders.old ≡ Some t
        → option_map by_text wrong ≡ first_of (stream_wrong t place.now.session.now.events.now place.now.session.now.name.now
        place.now.session.now.folder.now (key_of place.now.archive.now) uuid.now) (map key_of streams.now)) }
    ensures tree { F.tree folders.new ≡ F.tree folders.old }
    ensures failures { F.failures folders.new ≡ reads_after result (F.failures folders.old) }
    ensures writes { (n : ℕ) → writes_after result n ≡ n }
    ensures room { length buffer.new ≡ length buffer.old }
{
    for stream in streams {
        let wrong = judge_stream(alloc, folders, place, uuid, stream, buffer)?;
        if wrong.is_some() {
            return Ok(wrong);
        }
    }
    Ok(None)
}

/// What is wrong with an archive of this identifier.
fn judge_named<F: Folders>(
    alloc: Global,
    folders: &mut F,
    place: &Place<'_>,
    uuid: &Uuid,
    buffer: &mut [u8],
) -> Result<Option<Wrong>, SurveyFault>
    requires { 0 < length buffer.old }
    ensures wrong { IfOk result (λ wrong. (t : Tree) → F.tree folders.old ≡ Some t
        → option_map by_text wrong ≡ archive_wrong_by t place.now.session.now.events.now place.now.session.now.name.now
        place.now.session.now.folder.now (key_of place.now.archive.now) (Some uuid.now)) }
    ensures tree { F.tree folders.new ≡ F.tree folders.old }
    ensures failures { F.failures folders.new ≡ reads_after result (F.failures folders.old) }
    ensures writes { (n : ℕ) → writes_after result n ≡ n }
    ensures room { length buffer.new ≡ length buffer.old }
{
    let archives = slice::from_ref(place.archive);
    let streams = streams_among(alloc, folders, place.session.folder, archives)?;
    judge_streams(alloc, folders, place, uuid, &streams, buffer)
}

/// The identifier, if metadata are the recorder's.
fn own_uuid(naming: &Naming) -> Option<Uuid>
    ensures { result ≡ own_uuid naming.now }
{
    match naming {
        Naming::Named(uuid) => Some(*uuid),
        Naming::Unfinished | Naming::Unreadable | Naming::NoUuid | Naming::Other(_) => None,
    }
}

/// What is wrong with an archive. If nothing is, its metadata are added to those that were found.
fn judge_archive<F: Folders>(
    alloc: Global,
    folders: &mut F,
    place: &Place<'_>,
    found: &mut Vec<Metadata>,
    buffer: &mut [u8],
) -> Result<Option<Wrong>, SurveyFault>
    requires { length buffer.old ≡ LONGEST_METADATA }
    ensures wrong { IfOk result (λ wrong. (t : Tree) → F.tree folders.old ≡ Some t
        → option_map by_text wrong ≡ archive_wrong t place.now.session.now.events.now place.now.session.now.name.now
        place.now.session.now.folder.now (key_of place.now.archive.now)) }
    ensures found { IfOk result (λ wrong. (t : Tree) → F.tree folders.old ≡ Some t → wrong ≡ None
        → map seen found.new.items ≡ map seen found.old.items
        ++ filter_map (metadata_in t place.now.session.now.folder.now) (key_of place.now.archive.now ∷ [])) }
    ensures tree { F.tree folders.new ≡ F.tree folders.old }
    ensures failures { F.failures folders.new ≡ reads_after result (F.failures folders.old) }
    ensures writes { (n : ℕ) → writes_after result n ≡ n }
    ensures room { length buffer.new ≡ length buffer.old }
{
    let session = place.session;
    let naming = naming_of(alloc, folders, session.folder, place.archive, buffer)?;
    let Some(uuid) = own_uuid(&naming) else {
        return Ok(Some(foreign(alloc, session.name, place.archive)?));
    };
    let wrong = judge_named(alloc, folders, place, &uuid, buffer)?;
    if wrong.is_some() {
        return Ok(wrong);
    }
    let name = place.archive.name.as_str();
    let path = file_path(alloc, session.folder, name, "metadata")?;
    found.push(Metadata { path, uuid })?;
    Ok(None)
}

/// What is wrong with these archives of a session. If nothing is, their metadata are added to those that were found.
pub(crate) fn judge_archives<'a, F: Folders>(
    alloc: Global,
    folders: &mut F,
    session: &'a Session<'a>,
    archives: &'a [Numbered],
    found: &mut Vec<Metadata>,
) -> Result<Option<Wrong>, SurveyFault>
    ensures wrong { IfOk result (λ wrong. (t : Tree) → F.tree folders.old ≡ Some t
        → option_map by_text wrong ≡ first_of (archive_wrong t session.now.events.now session.now.name.now session.now.folder.now)
        (map key_of archives.now)) }
    ensures found { IfOk result (λ wrong. (t : Tree) → F.tree folders.old ≡ Some t → wrong ≡ None
        → map seen found.new.items ≡ map seen found.old.items
        ++ filter_map (metadata_in t session.now.folder.now) (map key_of archives.now)) }
    ensures tree { F.tree folders.new ≡ F.tree folders.old }
    ensures failures { F.failures folders.new ≡ reads_after result (F.failures folders.old) }
    ensures writes { (n : ℕ) → writes_after result n ≡ n }
{
    let mut buffer = buffer_of(alloc, LONGEST_METADATA)?;
    let buffer = buffer.as_mut_slice();
    for archive in archives {
        let place = Place { session, archive };
        let wrong = judge_archive(alloc, folders, &place, found, buffer)?;
        if wrong.is_some() {
            return Ok(wrong);
        }
    }
    Ok(None)
}
