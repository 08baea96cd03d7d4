//! The survey of a folder.

ghost use Rattle.std.specs.Prelude.{◌≡◌, ℕ, Option, Some, None, IfOk, OnOk, OnErr, length};
ghost use Rattle.tr_folders.specs.Tree.{Tree, by_text};
ghost use Rattle.tr_record.specs.Bytes.{and_then_bytes};
ghost use Rattle.tr_survey.specs.Failures.{reads_after, writes_after};
ghost use Rattle.tr_survey.specs.Prefix.{IsPrefixOut, IsTold};
ghost use Rattle.tr_survey.specs.Sessions.{HasToldPrefix, TellsFolder, able_told, closed_told, end_of, faults_of, has_archives, name_told, names_told, passed_told, surveyed_of};
ghost use Rattle.tr_survey.specs.Told.{told};
ghost use Rattle.tr_metadata.specs.declared.metadata.TheConstants.{LONGEST_METADATA};

use crate::faults::{SurveyFault, Surveyed};
use crate::lines::{last_line, passed_line, session_line};
use crate::listing::{Listing, archives_among, listing_at, names_in_order};
use crate::paths::archives_path;
use crate::sessions::tell_archives;
use crate::writing::{put_bytes, put_line};
use std::alloc::Global;
use tr_folders::{Folders, buffer_of};
use tr_metadata::LONGEST_METADATA;
use tr_record::ByteSink;
use tr_terms::Name;

/// Reports a session whose folder of archives can't be read.
fn tell_closed<K: ByteSink>(
    alloc: Global,
    sink: &mut K,
    session: &str,
    faults: u64,
) -> Result<u64, SurveyFault>
    ensures ok { IfOk result (λ n. IsTold (closed_told session.now faults) (K.taken sink.old) (K.taken sink.new) n) }
    ensures err { OnErr result (IsPrefixOut (closed_told session.now faults).text (K.taken sink.old) (K.taken sink.new)) }
    ensures writes { K.failures sink.new ≡ writes_after result (K.failures sink.old) }
    ensures reads { (n : ℕ) → reads_after result n ≡ n }
{
    let mut lines = session_line(alloc, session, None, 0)?;
    lines.push_str("fault archives unreadable\n")?;
    put_line(sink, lines.as_str())?;
    Ok(faults.saturating_add(1))
}

/// The faults so far.
fn faults_of(faults: Option<u64>) -> u64
    ensures { result ≡ faults_of faults }
{
    faults.unwrap_or(0)
}

/// Whether there is a folder of archives below the folder of this name, whether it can be read or not.
pub fn has_archives<F: Folders>(
    alloc: Global,
    folders: &mut F,
    dir: &str,
    name: &str,
) -> Result<bool, SurveyFault>
    ensures is { IfOk result (λ there. (t : Tree) → F.tree folders.old ≡ Some t → there ≡ has_archives t dir.now name.now) }
    ensures tree { F.tree folders.new ≡ F.tree folders.old }
    ensures failures { F.failures folders.new ≡ reads_after result (F.failures folders.old) }
    ensures writes { (n : ℕ) → writes_after result n ≡ n }
{
    let folder = archives_path(alloc, dir, name)?;
    match listing_at(alloc, folders, folder.as_str())? {
        Listing::Absent => Ok(false),
        Listing::Unreadable => Ok(true),
        Listing::Names(_) => Ok(true),
    }
}

/// Reports that a name is passed over, if it has a folder of archives.
fn tell_passed<F: Folders, K: ByteSink>(
    alloc: Global,
    folders: &mut F,
    sink: &mut K,
    dir: &str,
    name: &str,
) -> Result<(), SurveyFault>
    ensures ok { OnOk result ((t : Tree) → F.tree folders.old ≡ Some t
        → K.taken sink.new ≡ and_then_bytes (K.taken sink.old) (passed_told t dir.now name.now)) }
    ensures err { OnErr result ((t : Tree) → F.tree folders.old ≡ Some t
        → IsPrefixOut (passed_told t dir.now name.now) (K.taken sink.old) (K.taken sink.new)) }
    ensures tree { F.tree folders.new ≡ F.tree folders.old }
    ensures reads { F.failures folders.new ≡ reads_after result (F.failures folders.old) }
    ensures writes { K.failures sink.new ≡ writes_after result (K.failures sink.old) }
{
    if !has_archives(alloc, folders, dir, name)? {
        return Ok(());
    }
    let line = passed_line(alloc, name)?;
    put_bytes(sink, &line)
}

/// Reports the session of this name, if there is one. How many faults there are then; None if there was
/// no session yet.
fn tell_able<F: Folders, K: ByteSink>(
    alloc: Global,
    folders: &mut F,
    sink: &mut K,
    dir: &str,
    name: &str,
    asked: bool,
    faults: Option<u64>,
    buffer: &mut [u8],
) -> Result<Option<u64>, SurveyFault>
    requires { length buffer.old ≡ LONGEST_METADATA }
    ensures ok { IfOk result (λ n. (t : Tree) → F.tree folders.old ≡ Some t
        → IsTold (able_told asked t dir.now faults name.now) (K.taken sink.old) (K.taken sink.new) n) }
    ensures err { OnErr result ((t : Tree) → F.tree folders.old ≡ Some t
        → IsPrefixOut (able_told asked t dir.now faults name.now).text (K.taken sink.old) (K.taken sink.new)) }
    ensures tree { F.tree folders.new ≡ F.tree folders.old }
    ensures reads { F.failures folders.new ≡ reads_after result (F.failures folders.old) }
    ensures writes { K.failures sink.new ≡ writes_after result (K.failures sink.old) }
    ensures room { length buffer.new ≡ length buffer.old }
{
    let folder = archives_path(alloc, dir, name)?;
    let names = match listing_at(alloc, folders, folder.as_str())? {
        Listing::Absent => return Ok(faults),
        Listing::Unreadable => {
            let count = tell_closed(alloc, sink, name, faults_of(faults))?;
            return Ok(Some(count));
        }
        Listing::Names(names) => names,
    };
    let archives = archives_among(alloc, folders, folder.as_str(), &names)?;
    let count = tell_archives(
        alloc,
        folders,
        sink,
        name,
        folder.as_str(),
        &archives,
        asked,
        faults_of(faults),
        buffer,
    )?;
    Ok(Some(count))
}

/// Reports what has this name. How many faults there are then; None if there was no session yet.
fn tell_name<F: Folders, K: ByteSink>(
    alloc: Global,
    folders: &mut F,
    sink: &mut K,
    dir: &str,
    name: &str,
    asked: bool,
    faults: Option<u64>,
    buffer: &mut [u8],
) -> Result<Option<u64>, SurveyFault>
    requires { length buffer.old ≡ LONGEST_METADATA }
    ensures ok { IfOk result (λ n. (t : Tree) → F.tree folders.old ≡ Some t
        → IsTold (name_told asked t dir.now faults name.now) (K.taken sink.old) (K.taken sink.new) n) }
    ensures err { OnErr result ((t : Tree) → F.tree folders.old ≡ Some t
        → IsPrefixOut (name_told asked t dir.now faults name.now).text (K.taken sink.old) (K.taken sink.new)) }
    ensures tree { F.tree folders.new ≡ F.tree folders.old }
    ensures reads { F.failures folders.new ≡ reads_after result (F.failures folders.old) }
    ensures writes { K.failures sink.new ≡ writes_after result (K.failures sink.old) }
    ensures room { length buffer.new ≡ length buffer.old }
{
    if Name::new(name).is_none() {
        tell_passed(alloc, folders, sink, dir, name)?;
        return Ok(faults);
    }
    tell_able(alloc, folders, sink, dir, name, asked, faults, buffer)
}

/// Reports what has these names, in order. How many faults there are; None if none is a session.
fn tell_names<F: Folders, K: ByteSink>(
    alloc: Global,
    folders: &mut F,
    sink: &mut K,
    dir: &str,
    names: &[String],
    asked: bool,
    buffer: &mut [u8],
) -> Result<Option<u64>, SurveyFault>
    requires { length buffer.old ≡ LONGEST_METADATA }
    ensures ok { IfOk result (λ n. (t : Tree) → F.tree folders.old ≡ Some t
        → IsTold (names_told asked t dir.now None (by_text names.now)) (K.taken sink.old) (K.taken sink.new) n) }
    ensures err { OnErr result ((t : Tree) → F.tree folders.old ≡ Some t
        → IsPrefixOut (names_told asked t dir.now None (by_text names.now)).text (K.taken sink.old) (K.taken sink.new)) }
    ensures tree { F.tree folders.new ≡ F.tree folders.old }
    ensures reads { F.failures folders.new ≡ reads_after result (F.failures folders.old) }
    ensures writes { K.failures sink.new ≡ writes_after result (K.failures sink.old) }
{
    let mut faults = None;
    for name in names {
        faults = tell_name(
            alloc,
            folders,
            sink,
            dir,
            name.as_str(),
            asked,
            faults,
            buffer,
        )?;
    }
    Ok(faults)
}

/// Writes the end of the text, if there was a session, and says how it ended.
fn put_end<K: ByteSink>(
    alloc: Global,
    sink: &mut K,
    faults: Option<u64>,
) -> Result<Surveyed, SurveyFault>
    ensures ok { IfOk result (λ said. IsTold (told (end_of faults) (surveyed_of faults)) (K.taken sink.old) (K.taken sink.new) said) }
    ensures err { OnErr result (IsPrefixOut (end_of faults) (K.taken sink.old) (K.taken sink.new)) }
    ensures writes { K.failures sink.new ≡ writes_after result (K.failures sink.old) }
    ensures reads { (n : ℕ) → reads_after result n ≡ n }
{
    let Some(count) = faults else {
        return Ok(Surveyed::NoSession);
    };
    let line = last_line(alloc, count)?;
    put_line(sink, line.as_str())?;
    Ok(Surveyed::Faults(count))
}

/// Reports what is below a folder, session by session, and what is wrong with it, as the crate's front page says, with a line
/// for each archive if that is asked for. If the folder can't be read, nothing goes out. It holds the names of what it reads,
/// the counts of each archive of a session, a piece of a file and the packet that it reads, however long the files are. What
/// can't be read below the folder is reported, and the survey goes on.
///
/// # Errors
///
/// `TooMuch` once 2^62 bytes of files were read, `Write` if the text can't be written, `NoMemory` if an allocation fails. A front
/// of the text went out, and nothing else.
pub fn survey<F: Folders, K: ByteSink>(
    alloc: Global,
    folders: &mut F,
    sink: &mut K,
    dir: &str,
    archives: bool,
) -> Result<Surveyed, SurveyFault>
    ensures tells { IfOk result (λ said. (t : Tree) → F.tree folders.old ≡ Some t
        → TellsFolder archives t dir.now said (K.taken sink.old) (K.taken sink.new)) }
    ensures err { OnErr result ((t : Tree) → F.tree folders.old ≡ Some t
        → HasToldPrefix archives t dir.now (K.taken sink.old) (K.taken sink.new)) }
    ensures tree { F.tree folders.new ≡ F.tree folders.old }
    ensures reads { F.failures folders.new ≡ reads_after result (F.failures folders.old) }
    ensures writes { K.failures sink.new ≡ writes_after result (K.failures sink.old) }
{
    let mut buffer = buffer_of(alloc, LONGEST_METADATA)?;
    let names = match listing_at(alloc, folders, dir)? {
        Listing::Absent => return Ok(Surveyed::NoSession),
        Listing::Unreadable => return Ok(Surveyed::Unlisted),
        Listing::Names(names) => names_in_order(alloc, &names)?,
    };
    let buffer = buffer.as_mut_slice();
    let faults = tell_names(alloc, folders, sink, dir, &names, archives, buffer)?;
    put_end(alloc, sink, faults)
}
