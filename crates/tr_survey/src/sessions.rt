//! The survey of one session.

ghost use Rattle.std.specs.Prelude.{◌≡◌, ℕ, IfOk, OnErr, Some, length, map, option_copied};
ghost use Rattle.tr_folders.specs.Tree.{Tree, by_text};
ghost use Rattle.tr_survey.specs.Failures.{reads_after, writes_after};
ghost use Rattle.tr_survey.specs.Heads.{head_told};
ghost use Rattle.tr_survey.specs.Listing.{archives_of, key_of};
ghost use Rattle.tr_survey.specs.Prefix.{IsPrefixOut, IsTold};
ghost use Rattle.tr_survey.specs.Sessions.{archives_told, closed_told, identity_of, named_told, naming_of, namings_of, streams_and_sums_told};
ghost use Rattle.tr_metadata.specs.declared.metadata.TheConstants.{LONGEST_METADATA};

use crate::declaring::{Trace, trace_of};
use crate::faults::SurveyFault;
use crate::heads::{deleted_of, wrong_lines};
use crate::identifiers::{Identity, uuid_of_packets};
use crate::lines::session_line;
use crate::listing::{Listing, archives_among, listing_at, streams_among};
use crate::names::Numbered;
use crate::naming::{Naming, most_named, naming_at};
use crate::paths::{file_path, path_in};
use crate::streams::tell_streams;
use crate::sums::{Sums, put_sums_asked};
use crate::writing::{put_faults, put_line};
use std::alloc::Global;
use tr_folders::Folders;
use tr_record::ByteSink;

/// What the metadata of an archive of a folder name.
pub fn naming_of<F: Folders>(
    alloc: Global,
    folders: &mut F,
    folder: &str,
    archive: &Numbered,
    buffer: &mut [u8],
) -> Result<Naming, SurveyFault>
    requires { length buffer.old ≡ LONGEST_METADATA }
    ensures naming { IfOk result (λ naming. (t : Tree) → F.tree folders.old ≡ Some t
        → naming ≡ naming_of t folder.now (key_of archive.now)) }
    ensures tree { F.tree folders.new ≡ F.tree folders.old }
    ensures failures { F.failures folders.new ≡ reads_after result (F.failures folders.old) }
    ensures writes { (n : ℕ) → writes_after result n ≡ n }
    ensures room { length buffer.new ≡ length buffer.old }
{
    let home = path_in(alloc, folder, archive.name.as_str())?;
    let listing = listing_at(alloc, folders, home.as_str())?;
    if matches!(listing, Listing::Unreadable) {
        return Ok(Naming::Unreadable);
    }
    let path = file_path(alloc, folder, archive.name.as_str(), "metadata")?;
    naming_at(alloc, folders, path.as_str(), buffer)
}

/// What the metadata of each archive of a folder name.
pub fn namings_of<F: Folders>(
    alloc: Global,
    folders: &mut F,
    folder: &str,
    archives: &[Numbered],
    buffer: &mut [u8],
) -> Result<Vec<Naming>, SurveyFault>
    requires { length buffer.old ≡ LONGEST_METADATA }
    ensures namings { IfOk result (λ namings. (t : Tree) → F.tree folders.old ≡ Some t
        → namings.items ≡ namings_of t folder.now (map key_of archives.now)) }
    ensures len { IfOk result (λ namings. length namings.items ≡ length archives.now) }
    ensures tree { F.tree folders.new ≡ F.tree folders.old }
    ensures failures { F.failures folders.new ≡ reads_after result (F.failures folders.old) }
    ensures writes { (n : ℕ) → writes_after result n ≡ n }
    ensures room { length buffer.new ≡ length buffer.old }
{
    let mut namings = Vec::with_capacity(alloc, archives.len())?;
    for archive in archives {
        let naming = naming_of(alloc, folders, folder, archive, buffer)?;
        namings.push(naming)?;
    }
    Ok(namings)
}

/// Writes what begins a session. How many faults there are then.
fn put_head<K: ByteSink>(
    alloc: Global,
    sink: &mut K,
    session: &str,
    identity: &Identity,
    archives: &[Numbered],
    namings: &[Naming],
    streams: &[Numbered],
    faults: u64,
) -> Result<u64, SurveyFault>
    requires { length namings.now ≡ length archives.now }
    ensures ok { IfOk result (λ n. IsTold (head_told session.now identity.now (map key_of archives.now) namings.now
        (map key_of streams.now) faults) (K.taken sink.old) (K.taken sink.new) n) }
    ensures err { OnErr result (IsPrefixOut (head_told session.now identity.now (map key_of archives.now) namings.now
        (map key_of streams.now) faults).text (K.taken sink.old) (K.taken sink.new)) }
    ensures writes { K.failures sink.new ≡ writes_after result (K.failures sink.old) }
    ensures reads { (n : ℕ) → reads_after result n ≡ n }
{
    let uuid = identity.uuid();
    let lines = wrong_lines(alloc, uuid.as_ref(), archives, namings, streams)?;
    let mut head = session_line(alloc, session, uuid.as_ref(), archives.len())?;
    head.push_str(identity.source_line())?;
    let deleted = deleted_of(alloc, archives)?;
    head.push_str(deleted.as_str())?;
    put_line(sink, head.as_str())?;
    put_faults(sink, faults, &lines)
}

/// Reports streams, after this number of faults, and then each archive, if that is asked for. How many faults there are then.
fn tell_streams_and_sums<F: Folders, K: ByteSink>(
    alloc: Global,
    folders: &mut F,
    sink: &mut K,
    trace: &Trace,
    folder: &str,
    archives: &[Numbered],
    streams: &[Numbered],
    asked: bool,
    faults: u64,
    buffer: &mut [u8],
) -> Result<u64, SurveyFault>
    requires { length buffer.old ≡ LONGEST_METADATA }
    ensures ok { IfOk result (λ n. (t : Tree) → F.tree folders.old ≡ Some t
        → IsTold (streams_and_sums_told asked t folder.now trace.now (map key_of archives.now) (map key_of streams.now) faults)
        (K.taken sink.old) (K.taken sink.new) n) }
    ensures err { OnErr result ((t : Tree) → F.tree folders.old ≡ Some t
        → IsPrefixOut (streams_and_sums_told asked t folder.now trace.now (map key_of archives.now) (map key_of streams.now) faults).text
        (K.taken sink.old) (K.taken sink.new)) }
    ensures tree { F.tree folders.new ≡ F.tree folders.old }
    ensures reads { F.failures folders.new ≡ reads_after result (F.failures folders.old) }
    ensures writes { K.failures sink.new ≡ writes_after result (K.failures sink.old) }
    ensures room { length buffer.new ≡ length buffer.old }
{
    let mut sums = vec![in alloc; Sums::new(); archives.len()]?;
    let sums = sums.as_mut_slice();
    let count = tell_streams(
        alloc, folders, sink, trace, folder, archives, streams, sums, faults, buffer,
    )?;
    put_sums_asked(alloc, sink, archives, sums, asked)?;
    Ok(count)
}

/// The identifier of a session that has these archives and streams in a folder, whose metadata name these.
pub fn identity_of<F: Folders>(
    alloc: Global,
    folders: &mut F,
    folder: &str,
    archives: &[Numbered],
    namings: &[Naming],
    streams: &[Numbered],
) -> Result<Identity, SurveyFault>
    ensures identity { IfOk result (λ identity. (t : Tree) → F.tree folders.old ≡ Some t
        → identity ≡ identity_of t folder.now (map key_of archives.now) namings.now (map key_of streams.now)) }
    ensures tree { F.tree folders.new ≡ F.tree folders.old }
    ensures failures { F.failures folders.new ≡ reads_after result (F.failures folders.old) }
    ensures writes { (n : ℕ) → writes_after result n ≡ n }
{
    if let Some(uuid) = most_named(alloc, namings)? {
        return Ok(Identity::OfMetadata(uuid));
    }
    match uuid_of_packets(alloc, folders, folder, archives, streams)? {
        None => Ok(Identity::Unknown),
        Some(uuid) => Ok(Identity::OfPackets(uuid)),
    }
}

/// Reports a session of this identifier that has these archives and streams in a folder, whose metadata name these, after this
/// number of faults. How many there are then.
fn tell_named<F: Folders, K: ByteSink>(
    alloc: Global,
    folders: &mut F,
    sink: &mut K,
    session: &str,
    folder: &str,
    identity: &Identity,
    archives: &[Numbered],
    namings: &[Naming],
    streams: &[Numbered],
    asked: bool,
    faults: u64,
    buffer: &mut [u8],
) -> Result<u64, SurveyFault>
    requires room { length buffer.old ≡ LONGEST_METADATA }
    requires namings { length namings.now ≡ length archives.now }
    ensures ok { IfOk result (λ n. (t : Tree) → F.tree folders.old ≡ Some t
        → IsTold (named_told asked t session.now folder.now identity.now (map key_of archives.now) namings.now (map key_of streams.now) faults)
        (K.taken sink.old) (K.taken sink.new) n) }
    ensures err { OnErr result ((t : Tree) → F.tree folders.old ≡ Some t
        → IsPrefixOut (named_told asked t session.now folder.now identity.now (map key_of archives.now) namings.now
        (map key_of streams.now) faults).text (K.taken sink.old) (K.taken sink.new)) }
    ensures tree { F.tree folders.new ≡ F.tree folders.old }
    ensures reads { F.failures folders.new ≡ reads_after result (F.failures folders.old) }
    ensures writes { K.failures sink.new ≡ writes_after result (K.failures sink.old) }
    ensures room { length buffer.new ≡ length buffer.old }
{
    let count = put_head(
        alloc, sink, session, identity, archives, namings, streams, faults,
    )?;
    let uuid = identity.judged_by();
    let trace = trace_of(alloc, folders, folder, uuid, archives, namings, buffer)?;
    tell_streams_and_sums(
        alloc, folders, sink, &trace, folder, archives, streams, asked, count, buffer,
    )
}

/// Reports a session that has these archives in a folder, after this number of faults. How many there are then.
pub(crate) fn tell_archives<F: Folders, K: ByteSink>(
    alloc: Global,
    folders: &mut F,
    sink: &mut K,
    session: &str,
    folder: &str,
    archives: &[Numbered],
    asked: bool,
    faults: u64,
    buffer: &mut [u8],
) -> Result<u64, SurveyFault>
    requires { length buffer.old ≡ LONGEST_METADATA }
    ensures ok { IfOk result (λ n. (t : Tree) → F.tree folders.old ≡ Some t
        → IsTold (archives_told asked t session.now folder.now (map key_of archives.now) faults) (K.taken sink.old) (K.taken sink.new) n) }
    ensures err { OnErr result ((t : Tree) → F.tree folders.old ≡ Some t
        → IsPrefixOut (archives_told asked t session.now folder.now (map key_of archives.now) faults).text
        (K.taken sink.old) (K.taken sink.new)) }
    ensures tree { F.tree folders.new ≡ F.tree folders.old }
    ensures reads { F.failures folders.new ≡ reads_after result (F.failures folders.old) }
    ensures writes { K.failures sink.new ≡ writes_after result (K.failures sink.old) }
    ensures room { length buffer.new ≡ length buffer.old }
{
    let namings = namings_of(alloc, folders, folder, archives, buffer)?;
    let streams = streams_among(alloc, folders, folder, archives)?;
    let identity = identity_of(alloc, folders, folder, archives, &namings, &streams)?;
    tell_named(
        alloc, folders, sink, session, folder, &identity, archives, &namings, &streams, asked,
        faults, buffer,
    )
}
