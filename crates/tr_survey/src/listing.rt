//! Which sessions, archives and streams there are.

ghost use Rattle.std.specs.Prelude.{◌≡◌, ℕ, List, Some, None, IfOk, OnOk, map};
ghost use Rattle.std.specs.BTreeSet.{insert_key};
ghost use Rattle.std.specs.List.{filter_map};
ghost use Rattle.std.specs.Option.{option_map};
ghost use Rattle.tr_survey.specs.Failures.{reads_after, writes_after};
ghost use Rattle.tr_folders.specs.Tree.{Tree, by_text};
ghost use Rattle.tr_survey.specs.Listing.{IsListing, archive_at, archives_of, key_of, names_in_order, streams_of, with_keys};
ghost use Rattle.tr_survey.specs.Names.{stream_named};
ghost use Rattle.tr_survey.specs.Order.{name_cmp, number_cmp};

use crate::faults::SurveyFault;
use crate::names::{Numbered, archive_number, stream_parts};
use crate::paths::path_in;
use std::alloc::{AllocError, Global};
use std::collections::BTreeSet;
use tr_folders::{Folders, ReadFault};

/// What is at a path where a folder is looked for.
#[derive(Drop)]
pub enum Listing {
    /// No folder.
    Absent,
    /// A folder that can't be read.
    Unreadable,
    /// One with these names.
    Names(Vec<String>),
}

/// What is at a path where a folder is looked for.
pub fn listing_at<F: Folders>(
    alloc: Global,
    folders: &mut F,
    path: &str,
) -> Result<Listing, SurveyFault>
    ensures is { IfOk result (λ listing. (t : Tree) → F.tree folders.old ≡ Some t → IsListing t path.now listing) }
    ensures tree { F.tree folders.new ≡ F.tree folders.old }
    ensures failures { F.failures folders.new ≡ reads_after result (F.failures folders.old) }
    ensures writes { (n : ℕ) → writes_after result n ≡ n }
{
    match folders.names_in(alloc, path) {
        Ok(None) => Ok(Listing::Absent),
        Ok(Some(names)) => Ok(Listing::Names(names)),
        Err(ReadFault::Unreadable) => Ok(Listing::Unreadable),
        Err(ReadFault::TooMuch) => Err(SurveyFault::TooMuch),
        Err(ReadFault::NoMemory) => Err(SurveyFault::NoMemory),
    }
}

/// Adds an archive or a stream, unless it is there.
fn add(found: &mut BTreeSet<Numbered>, one: Numbered) -> Result<(), AllocError>
    ensures { OnOk result (map key_of found.new.keys ≡ insert_key number_cmp (map key_of found.old.keys) (key_of one)) }
{
    found.insert(one)?;
    Ok(())
}

/// The archives or streams in order.
fn in_order(alloc: Global, found: BTreeSet<Numbered>) -> Result<Vec<Numbered>, AllocError>
    ensures { IfOk result (λ all. map key_of all.items ≡ map key_of found.keys) }
{
    found.into_iter().collect(alloc)
}

/// Adds a name, unless it is there.
fn add_name(alloc: Global, found: &mut BTreeSet<String>, name: &str) -> Result<(), AllocError>
    ensures { OnOk result (by_text found.new.keys ≡ insert_key name_cmp (by_text found.old.keys) name.now) }
{
    found.insert(String::from_str(alloc, name)?)?;
    Ok(())
}

/// These names, each once and in order.
pub fn names_in_order(alloc: Global, names: &[String]) -> Result<Vec<String>, AllocError>
    ensures { IfOk result (λ found. by_text found.items ≡ names_in_order (by_text names.now)) }
{
    let mut found = BTreeSet::new(alloc);
    for name in names {
        add_name(alloc, &mut found, name.as_str())?;
    }
    found.into_iter().collect(alloc)
}

/// The archive of this name in a folder. None if there is no folder of this name, or it is no archive's name.
fn archive_at<F: Folders>(
    alloc: Global,
    folders: &mut F,
    folder: &str,
    name: &str,
) -> Result<Option<Numbered>, SurveyFault>
    ensures archive { IfOk result (λ found. (t : Tree) → F.tree folders.old ≡ Some t
        → option_map key_of found ≡ archive_at t folder.now name.now) }
    ensures tree { F.tree folders.new ≡ F.tree folders.old }
    ensures failures { F.failures folders.new ≡ reads_after result (F.failures folders.old) }
    ensures writes { (n : ℕ) → writes_after result n ≡ n }
{
    let Some(number) = archive_number(name.as_bytes()) else {
        return Ok(None);
    };
    let path = path_in(alloc, folder, name)?;
    match listing_at(alloc, folders, path.as_str())? {
        Listing::Absent => Ok(None),
        Listing::Unreadable | Listing::Names(_) => {
            let name = String::from_str(alloc, name)?;
            Ok(Some(Numbered { number, name }))
        }
    }
}

/// The archives among what has these names in a folder, in order.
pub fn archives_among<F: Folders>(
    alloc: Global,
    folders: &mut F,
    folder: &str,
    names: &[String],
) -> Result<Vec<Numbered>, SurveyFault>
    ensures archives { IfOk result (λ found. (t : Tree) → F.tree folders.old ≡ Some t
        → map key_of found.items ≡ archives_of t folder.now (by_text names.now)) }
    ensures tree { F.tree folders.new ≡ F.tree folders.old }
    ensures failures { F.failures folders.new ≡ reads_after result (F.failures folders.old) }
    ensures writes { (n : ℕ) → writes_after result n ≡ n }
{
    let mut found = BTreeSet::new(alloc);
    for name in names {
        if let Some(archive) = archive_at(alloc, folders, folder, name.as_str())? {
            add(&mut found, archive)?;
        }
    }
    Ok(in_order(alloc, found)?)
}

/// Adds the streams whose files have these names.
fn add_streams(
    alloc: Global,
    found: &mut BTreeSet<Numbered>,
    names: &[String],
) -> Result<(), AllocError>
    ensures { OnOk result (map key_of found.new.keys ≡ with_keys (map key_of found.old.keys) (filter_map stream_named (by_text names.now))) }
{
    for name in names {
        if let Some((channel, number)) = stream_parts(name.as_str()) {
            let name = String::from_str(alloc, channel)?;
            add(found, Numbered { number, name })?;
        }
    }
    Ok(())
}

/// The streams that have a file in one of these archives of a folder, in order.
pub fn streams_among<F: Folders>(
    alloc: Global,
    folders: &mut F,
    folder: &str,
    archives: &[Numbered],
) -> Result<Vec<Numbered>, SurveyFault>
    ensures streams { IfOk result (λ found. (t : Tree) → F.tree folders.old ≡ Some t
        → map key_of found.items ≡ streams_of t folder.now (map key_of archives.now)) }
    ensures tree { F.tree folders.new ≡ F.tree folders.old }
    ensures failures { F.failures folders.new ≡ reads_after result (F.failures folders.old) }
    ensures writes { (n : ℕ) → writes_after result n ≡ n }
{
    let mut found = BTreeSet::new(alloc);
    for archive in archives {
        let path = path_in(alloc, folder, archive.name.as_str())?;
        if let Listing::Names(names) = listing_at(alloc, folders, path.as_str())? {
            add_streams(alloc, &mut found, &names)?;
        }
    }
    Ok(in_order(alloc, found)?)
}
