//! Describing the archives below a folder.

ghost use Rattle.std.specs.Prelude.{◌≡◌, ℕ, [], ◌∷◌, Some, IfOk, IfErr, OnOk, OnErr, map};
ghost use Rattle.tr_describe.specs.Answers.{IsFound, IsPutIfDone, described_of, said_by_text, said_of, texts_found, texts_of};
ghost use Rattle.tr_describe.specs.Failures.{fault_of, reads_after, writes_after};
ghost use Rattle.tr_describe.specs.Homes.{seen, text_of};
ghost use Rattle.tr_describe.specs.Put.{IsFrontPut, and_then_put};
ghost use Rattle.tr_describe.specs.declared.faults.DescribeFault.TheVariants.{TooMuch};
ghost use Rattle.tr_folders.specs.Tree.{Tree};
ghost use Rattle.tr_survey.specs.Failures as survey;

use crate::archives::Metadata;
use crate::described::{Described, Wrong};
use crate::faults::DescribeFault;
use crate::sessions::{judge_sessions, sessions_among};
use crate::texts::Texts;
use std::alloc::Global;
use tr_events::Events;
use tr_folders::Folders;
use tr_metadata::metadata_text;
use tr_survey::{Listing, SurveyFault, listing_at, names_in_order};

/// Puts an archive's metadata, as these events declare them.
fn put_metadata<T: Texts>(
    alloc: Global,
    texts: &mut T,
    events: &Events,
    metadata: &Metadata,
) -> Result<(), SurveyFault>
    ensures ok { OnOk result (T.written texts.new ≡ and_then_put (T.written texts.old) (text_of events.now (seen metadata.now) ∷ [])) }
    ensures err { OnErr result (T.written texts.new ≡ T.written texts.old) }
    ensures writes { T.failures texts.new ≡ survey.writes_after result (T.failures texts.old) }
    ensures reads { (n : ℕ) → survey.reads_after result n ≡ n }
{
    let text = metadata_text(alloc, events, &metadata.uuid)?;
    match texts.put(metadata.path.as_str(), text.as_str()) {
        Ok(()) => Ok(()),
        Err(_) => Err(SurveyFault::Write),
    }
}

/// Puts the metadata of archives, in order.
fn put_all<T: Texts>(
    alloc: Global,
    texts: &mut T,
    events: &Events,
    found: &[Metadata],
) -> Result<(), SurveyFault>
    ensures ok { OnOk result (T.written texts.new ≡ and_then_put (T.written texts.old) (map (text_of events.now) (map seen found.now))) }
    ensures err { OnErr result (IsFrontPut (map (text_of events.now) (map seen found.now)) (T.written texts.old) (T.written texts.new)) }
    ensures writes { T.failures texts.new ≡ survey.writes_after result (T.failures texts.old) }
    ensures reads { (n : ℕ) → survey.reads_after result n ≡ n }
{
    for metadata in found {
        put_metadata(alloc, texts, events, metadata)?;
    }
    Ok(())
}

/// What is found below a folder.
#[derive(Drop)]
enum Found {
    Unlisted,
    NoSession,
    Wrong(Wrong),
    /// Archives with which nothing is wrong, by their metadata.
    Archives(Vec<Metadata>),
}

/// What is found below a folder.
fn find_all<F: Folders>(
    alloc: Global,
    folders: &mut F,
    dir: &str,
    events: &Events,
) -> Result<Found, SurveyFault>
    ensures found { IfOk result (λ found. (t : Tree) → F.tree folders.old ≡ Some t → IsFound t dir.now events.now found) }
    ensures tree { F.tree folders.new ≡ F.tree folders.old }
    ensures reads { F.failures folders.new ≡ survey.reads_after result (F.failures folders.old) }
    ensures writes { (n : ℕ) → survey.writes_after result n ≡ n }
{
    let names = match listing_at(alloc, folders, dir)? {
        Listing::Absent => return Ok(Found::NoSession),
        Listing::Unreadable => return Ok(Found::Unlisted),
        Listing::Names(names) => names_in_order(alloc, &names)?,
    };
    let sessions = sessions_among(alloc, folders, dir, &names)?;
    if sessions.is_empty() {
        return Ok(Found::NoSession);
    }
    let mut found = Vec::new(alloc);
    match judge_sessions(alloc, folders, events, dir, &sessions, &mut found)? {
        Some(wrong) => Ok(Found::Wrong(wrong)),
        None => Ok(Found::Archives(found)),
    }
}

/// A survey's fault, as one of describing.
pub(crate) fn fault_of(fault: SurveyFault) -> DescribeFault
    ensures { result ≡ fault_of fault }
{
    match fault {
        SurveyFault::TooMuch => DescribeFault::TooMuch,
        SurveyFault::Write => DescribeFault::Write,
        SurveyFault::NoMemory => DescribeFault::NoMemory,
    }
}

/// Puts the metadata of what was found, if nothing is wrong.
fn put_found<T: Texts>(
    alloc: Global,
    texts: &mut T,
    events: &Events,
    found: Found,
) -> Result<Described, SurveyFault>
    ensures said { IfOk result (λ said. said_by_text said ≡ said_of found) }
    ensures put { IfOk result (λ said. T.written texts.new ≡ and_then_put (T.written texts.old) (texts_found events.now found)) }
    ensures done { IfOk result (λ said. IsPutIfDone said (T.written texts.old) (T.written texts.new)) }
    ensures err { OnErr result (IsFrontPut (texts_found events.now found) (T.written texts.old) (T.written texts.new)) }
    ensures writes { T.failures texts.new ≡ survey.writes_after result (T.failures texts.old) }
    ensures reads { (n : ℕ) → survey.reads_after result n ≡ n }
{
    let found = match found {
        Found::Unlisted => return Ok(Described::Unlisted),
        Found::NoSession => return Ok(Described::NoSession),
        Found::Wrong(wrong) => return Ok(Described::Wrong(wrong)),
        Found::Archives(found) => found,
    };
    put_all(alloc, texts, events, &found)?;
    Ok(Described::Done {
        archives: found.len() as u64,
    })
}

/// Gives the archives below a folder the metadata of declared events, if every record of a declared id in them fits. What is
/// there is judged first: sessions and archives in order, of each archive its metadata and then its streams in order, of each
/// file its records in order. If something is wrong, the first such thing is answered, and nothing is written. Archives may be
/// of any origin; those that were described before are described anew. It holds the names of what it reads, the path of each
/// archive, a piece of a file and the packet that it reads, however long the files are.
///
/// # Errors
///
/// `TooMuch` once 2^62 bytes of files were read: nothing was written. `Write` if metadata can't be written, `NoMemory` if an
/// allocation fails: the archives before, in order, are described, and the others have what they had. A second call describes
/// them all.
pub fn describe<F: Folders, T: Texts>(
    alloc: Global,
    folders: &mut F,
    texts: &mut T,
    dir: &str,
    events: &Events,
) -> Result<Described, DescribeFault>
    ensures said { IfOk result (λ said. (t : Tree) → F.tree folders.old ≡ Some t → said_by_text said ≡ described_of t dir.now events.now) }
    ensures put { OnOk result ((t : Tree) → F.tree folders.old ≡ Some t
        → T.written texts.new ≡ and_then_put (T.written texts.old) (texts_of t dir.now events.now)) }
    ensures done { IfOk result (λ said. IsPutIfDone said (T.written texts.old) (T.written texts.new)) }
    ensures err { OnErr result ((t : Tree) → F.tree folders.old ≡ Some t
        → IsFrontPut (texts_of t dir.now events.now) (T.written texts.old) (T.written texts.new)) }
    ensures too_much { IfErr result (λ fault. fault ≡ TooMuch → T.written texts.new ≡ T.written texts.old) }
    ensures tree { F.tree folders.new ≡ F.tree folders.old }
    ensures reads { F.failures folders.new ≡ reads_after result (F.failures folders.old) }
    ensures writes { T.failures texts.new ≡ writes_after result (T.failures texts.old) }
{
    let found = match find_all(alloc, folders, dir, events) {
        Ok(found) => found,
        Err(fault) => return Err(fault_of(fault)),
    };
    match put_found(alloc, texts, events, found) {
        Ok(said) => Ok(said),
        Err(fault) => Err(fault_of(fault)),
    }
}
