//! What is wrong with sessions.

ghost use Rattle.std.specs.Prelude.{◌≡◌, ◌++◌, ℕ, Some, None, IfOk, filter, map, option_map};
ghost use Rattle.std.specs.List.{flat_map};
ghost use Rattle.tr_describe.specs.Answers.{by_text, first_of, session_wrong};
ghost use Rattle.tr_describe.specs.Homes.{metadata_of_session, seen};
ghost use Rattle.tr_describe.specs.declared.described.Wrong.TheVariants.{Closed};
ghost use Rattle.tr_folders.specs.Tree as tree;
ghost use Rattle.tr_folders.specs.Tree.{Tree};
ghost use Rattle.tr_survey.specs.Failures.{reads_after, writes_after};
ghost use Rattle.tr_survey.specs.Sessions.{is_session};

use crate::archives::{Metadata, Session, judge_archives};
use crate::described::Wrong;
use std::alloc::{AllocError, Global};
use tr_events::Events;
use tr_folders::Folders;
use tr_survey::{Listing, SurveyFault, archives_among, archives_path, has_archives, listing_at};
use tr_terms::Name;

/// Whether what has this name below a folder is a session.
fn is_session<F: Folders>(
    alloc: Global,
    folders: &mut F,
    dir: &str,
    name: &str,
) -> Result<bool, SurveyFault>
    ensures is { IfOk result (λ is. (t : Tree) → F.tree folders.old ≡ Some t → is ≡ is_session t dir.now name.now) }
    ensures tree { F.tree folders.new ≡ F.tree folders.old }
    ensures failures { F.failures folders.new ≡ reads_after result (F.failures folders.old) }
    ensures writes { (n : ℕ) → writes_after result n ≡ n }
{
    if Name::new(name).is_none() {
        return Ok(false);
    }
    has_archives(alloc, folders, dir, name)
}

/// The sessions among what has these names below a folder.
pub(crate) fn sessions_among<F: Folders>(
    alloc: Global,
    folders: &mut F,
    dir: &str,
    names: &[String],
) -> Result<Vec<String>, SurveyFault>
    ensures sessions { IfOk result (λ found. (t : Tree) → F.tree folders.old ≡ Some t
        → tree.by_text found.items ≡ filter (is_session t dir.now) (tree.by_text names.now)) }
    ensures tree { F.tree folders.new ≡ F.tree folders.old }
    ensures failures { F.failures folders.new ≡ reads_after result (F.failures folders.old) }
    ensures writes { (n : ℕ) → writes_after result n ≡ n }
{
    let mut found = Vec::new(alloc);
    for name in names {
        if is_session(alloc, folders, dir, name.as_str())? {
            found.push(String::from_str(alloc, name.as_str())?)?;
        }
    }
    Ok(found)
}

/// The folder of a session's archives can't be read.
fn closed(alloc: Global, session: &str) -> Result<Wrong, AllocError>
    ensures { IfOk result (λ wrong. by_text wrong ≡ Closed session.now) }
{
    let session = String::from_str(alloc, session)?;
    Ok(Wrong::Closed { session })
}

/// What is wrong with a session below a folder. If nothing is, the metadata of its archives are added to those that were found.
fn judge_session<F: Folders>(
    alloc: Global,
    folders: &mut F,
    events: &Events,
    dir: &str,
    name: &str,
    found: &mut Vec<Metadata>,
) -> Result<Option<Wrong>, SurveyFault>
    ensures wrong { IfOk result (λ wrong. (t : Tree) → F.tree folders.old ≡ Some t
        → option_map by_text wrong ≡ session_wrong t events.now dir.now name.now) }
    ensures found { IfOk result (λ wrong. (t : Tree) → F.tree folders.old ≡ Some t → wrong ≡ None
        → map seen found.new.items ≡ map seen found.old.items ++ metadata_of_session t dir.now name.now) }
    ensures tree { F.tree folders.new ≡ F.tree folders.old }
    ensures failures { F.failures folders.new ≡ reads_after result (F.failures folders.old) }
    ensures writes { (n : ℕ) → writes_after result n ≡ n }
{
    let folder = archives_path(alloc, dir, name)?;
    let folder = folder.as_str();
    let names = match listing_at(alloc, folders, folder)? {
        Listing::Absent => return Ok(None),
        Listing::Unreadable => return Ok(Some(closed(alloc, name)?)),
        Listing::Names(names) => names,
    };
    let archives = archives_among(alloc, folders, folder, &names)?;
    let session = Session {
        name,
        folder,
        events,
    };
    judge_archives(alloc, folders, &session, &archives, found)
}

/// What is wrong with these sessions below a folder. If nothing is, the metadata of their archives are added to those that were
/// found.
pub(crate) fn judge_sessions<F: Folders>(
    alloc: Global,
    folders: &mut F,
    events: &Events,
    dir: &str,
    sessions: &[String],
    found: &mut Vec<Metadata>,
) -> Result<Option<Wrong>, SurveyFault>
    ensures wrong { IfOk result (λ wrong. (t : Tree) → F.tree folders.old ≡ Some t
        → option_map by_text wrong ≡ first_of (session_wrong t events.now dir.now) (tree.by_text sessions.now)) }
    ensures found { IfOk result (λ wrong. (t : Tree) → F.tree folders.old ≡ Some t → wrong ≡ None
        → map seen found.new.items ≡ map seen found.old.items ++ flat_map (metadata_of_session t dir.now) (tree.by_text sessions.now)) }
    ensures tree { F.tree folders.new ≡ F.tree folders.old }
    ensures failures { F.failures folders.new ≡ reads_after result (F.failures folders.old) }
    ensures writes { (n : ℕ) → writes_after result n ≡ n }
{
    for session in sessions {
        let wrong = judge_session(alloc, folders, events, dir, session.as_str(), found)?;
        if wrong.is_some() {
            return Ok(wrong);
        }
    }
    Ok(None)
}
