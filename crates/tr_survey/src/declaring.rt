//! Which events are declared of a session.

ghost use Rattle.std.specs.Prelude.{◌≡◌, ℕ, Some, IfOk, length, map, option_map};
ghost use Rattle.tr_folders.specs.Tree.{File, Tree};
ghost use Rattle.tr_metadata.specs.declared.metadata.TheConstants.{LONGEST_METADATA};
ghost use Rattle.tr_survey.specs.Declaring.{declaring, events_at, events_in, events_in_text, is_named, trace_of};
ghost use Rattle.tr_survey.specs.Failures.{reads_after, writes_after};
ghost use Rattle.tr_survey.specs.Listing.{key_of};

use crate::faults::SurveyFault;
use crate::names::Numbered;
use crate::naming::Naming;
use crate::paths::file_path;
use std::alloc::{AllocError, Global};
use std::marker::Model;
use tr_events::Events;
use tr_folders::{Folders, ReadFault, read_front};
use tr_metadata::declared_in;
use uuid::Uuid;

/// What a session's packets are read by: the identifier of their trace, and the events that are declared of it.
#[derive(Drop)]
pub(crate) struct Trace {
    uuid: Uuid,
    pub(crate) events: Events,
}

impl Model for Trace {
    ghost use Rattle.tr_survey.specs.Streams.{TraceState, trace_state};

    ghost Value = { TraceState };

    ghost view = { λ t. trace_state t.uuid t.events.events };
}

impl Trace {
    /// The identifier that its packets have.
    pub(crate) fn uuid(&self) -> &Uuid
        ensures { result.now ≡ self.now.uuid }
    {
        &self.uuid
    }
}

/// Whether these metadata are the recorder's text of this identifier.
fn is_named(uuid: &Uuid, naming: &Naming) -> bool
    ensures { result ≡ is_named uuid.now naming.now }
{
    match naming {
        Naming::Unfinished | Naming::Unreadable | Naming::NoUuid | Naming::Other(_) => false,
        Naming::Named(own) => own == uuid,
    }
}

/// The first of these archives whose metadata, which are these, are that.
fn declaring<'a>(uuid: &Uuid, archives: &'a [Numbered], namings: &[Naming]) -> Option<&'a Numbered>
    requires { length namings.now ≡ length archives.now }
    ensures { option_map (λ a. key_of a.now) result ≡ declaring uuid.now (map key_of archives.entry.now) namings.now }
{
    for at in 0..archives.len() {
        if is_named(uuid, &namings[at]) {
            return Some(&archives[at]);
        }
    }
    None
}

/// The events that a text declares.
fn events_in_text(alloc: Global, text: &[u8]) -> Result<Events, AllocError>
    ensures { IfOk result (λ events. events.events ≡ events_in_text text.now) }
{
    match declared_in(alloc, text)? {
        Some(events) => Ok(events),
        None => Ok(Events::none(alloc)),
    }
}

/// The events that the open file declares, if it is metadata, by as many bytes as the buffer holds.
fn events_read<F: Folders>(
    alloc: Global,
    folders: &mut F,
    buffer: &mut [u8],
) -> Result<Events, SurveyFault>
    requires { length buffer.old ≡ LONGEST_METADATA }
    ensures events { IfOk result (λ events. (file : File) → F.left folders.old ≡ Some file → events.events ≡ events_in (Some file)) }
    ensures tree { F.tree folders.new ≡ F.tree folders.old }
    ensures failures { F.failures folders.new ≡ reads_after result (F.failures folders.old) }
    ensures writes { (n : ℕ) → writes_after result n ≡ n }
    ensures room { length buffer.new ≡ length buffer.old }
{
    match read_front(folders, buffer) {
        Ok(count) => {
            let (bytes, _) = buffer.split_at(count);
            Ok(events_in_text(alloc, bytes)?)
        }
        Err(ReadFault::Unreadable) => Ok(Events::none(alloc)),
        Err(ReadFault::TooMuch) => Err(SurveyFault::TooMuch),
        Err(ReadFault::NoMemory) => Err(SurveyFault::NoMemory),
    }
}

/// The events that the metadata of this path declare.
fn events_at<F: Folders>(
    alloc: Global,
    folders: &mut F,
    path: &str,
    buffer: &mut [u8],
) -> Result<Events, SurveyFault>
    requires { length buffer.old ≡ LONGEST_METADATA }
    ensures events { IfOk result (λ events. (t : Tree) → F.tree folders.old ≡ Some t → events.events ≡ events_in (t.file path.now)) }
    ensures tree { F.tree folders.new ≡ F.tree folders.old }
    ensures failures { F.failures folders.new ≡ reads_after result (F.failures folders.old) }
    ensures writes { (n : ℕ) → writes_after result n ≡ n }
    ensures room { length buffer.new ≡ length buffer.old }
{
    match folders.open(path) {
        Ok(true) => events_read(alloc, folders, buffer),
        Ok(false) => Ok(Events::none(alloc)),
        Err(ReadFault::Unreadable) => Ok(Events::none(alloc)),
        Err(ReadFault::TooMuch) => Err(SurveyFault::TooMuch),
        Err(ReadFault::NoMemory) => Err(SurveyFault::NoMemory),
    }
}

/// The events that an archive's metadata declare.
fn events_of<F: Folders>(
    alloc: Global,
    folders: &mut F,
    folder: &str,
    archive: &Numbered,
    buffer: &mut [u8],
) -> Result<Events, SurveyFault>
    requires { length buffer.old ≡ LONGEST_METADATA }
    ensures events { IfOk result (λ events. (t : Tree) → F.tree folders.old ≡ Some t
        → events.events ≡ events_at t folder.now (Some (key_of archive.now))) }
    ensures tree { F.tree folders.new ≡ F.tree folders.old }
    ensures failures { F.failures folders.new ≡ reads_after result (F.failures folders.old) }
    ensures writes { (n : ℕ) → writes_after result n ≡ n }
    ensures room { length buffer.new ≡ length buffer.old }
{
    let path = file_path(alloc, folder, archive.name.as_str(), "metadata")?;
    events_at(alloc, folders, path.as_str(), buffer)
}

/// The trace of this identifier, by the archives of a folder and their metadata.
pub(crate) fn trace_of<F: Folders>(
    alloc: Global,
    folders: &mut F,
    folder: &str,
    uuid: Uuid,
    archives: &[Numbered],
    namings: &[Naming],
    buffer: &mut [u8],
) -> Result<Trace, SurveyFault>
    requires room { length buffer.old ≡ LONGEST_METADATA }
    requires namings { length namings.now ≡ length archives.now }
    ensures trace { IfOk result (λ trace. (t : Tree) → F.tree folders.old ≡ Some t
        → trace ≡ trace_of t folder.now uuid (map key_of archives.now) namings.now) }
    ensures tree { F.tree folders.new ≡ F.tree folders.old }
    ensures failures { F.failures folders.new ≡ reads_after result (F.failures folders.old) }
    ensures writes { (n : ℕ) → writes_after result n ≡ n }
    ensures room { length buffer.new ≡ length buffer.old }
{
    let events = match declaring(&uuid, archives, namings) {
        Some(archive) => events_of(alloc, folders, folder, archive, buffer)?,
        None => Events::none(alloc),
    };
    Ok(Trace { uuid, events })
}
