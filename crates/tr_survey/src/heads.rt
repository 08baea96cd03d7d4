//! What is wrong with a session's archives as they are there, before their files are read.

ghost use Rattle.std.specs.Prelude.{◌≡◌, ◌∷◌, ◌++◌, ◌-◌, [], IfOk, OnOk, length, map, take, drop, option_copied};
ghost use Rattle.std.specs.String.{string_bytes};
ghost use Rattle.std.specs.List.{zip};
ghost use Rattle.std.specs.Option.{option_map};
ghost use Rattle.tr_folders.specs.Tree.{by_text};
ghost use Rattle.tr_survey.specs.Heads.{deleted_of, is_next, line_of_wrong, missing_below, wrong_between, wrong_in_order, wrong_lines, wrong_metadata, wrong_streams, wrong_with};
ghost use Rattle.tr_survey.specs.Listing.{key_of};
ghost use Rattle.tr_survey.specs.Names.{begin_stamp, end_stamp};

use crate::identifiers::is_uuid;
use crate::lines::{archive_line, deleted_line, missing_line, no_streams_line};
use crate::names::Numbered;
use crate::naming::Naming;
use std::alloc::{AllocError, Global};
use uuid::Uuid;

/// The line of numbers below the least archive's; empty if there are none.
pub(crate) fn deleted_of(alloc: Global, archives: &[Numbered]) -> Result<String, AllocError>
    ensures { IfOk result (λ s. string_bytes s ≡ deleted_of (map key_of archives.now)) }
{
    match archives {
        [archive, ..] if archive.number > 0 => deleted_line(alloc, archive.number),
        _ => Ok(String::new(alloc)),
    }
}

/// Whether an archive begins when the one before it ends, as their names say.
fn is_next(before: &Numbered, archive: &Numbered) -> bool
    ensures { result ≡ is_next (key_of before.now) (key_of archive.now) }
{
    end_stamp(before.name.as_bytes()) == begin_stamp(archive.name.as_bytes())
}

/// The first bytes, or all if they are fewer.
fn front(bytes: &[u8], count: usize) -> &[u8]
    ensures { result.now ≡ take count bytes.entry.now }
{
    if count < bytes.len() {
        &bytes[..count]
    } else {
        bytes
    }
}

/// The bytes after the first ones, or none if there are no more.
fn after(bytes: &[u8], count: usize) -> &[u8]
    ensures { result.now ≡ drop count bytes.entry.now }
{
    if count < bytes.len() {
        &bytes[count..]
    } else {
        &[]
    }
}

/// When an archive of this name began.
fn begin_stamp(name: &[u8]) -> &[u8]
    ensures { result.now ≡ begin_stamp name.entry.now }
{
    front(name, 20)
}

/// When it ended.
fn end_stamp(name: &[u8]) -> &[u8]
    ensures { result.now ≡ end_stamp name.entry.now }
{
    front(after(name, 21), 20)
}

/// Adds a line.
fn push_line(lines: &mut Vec<String>, line: String) -> Result<(), AllocError>
    ensures { OnOk result (by_text lines.new.items ≡ by_text lines.old.items ++ string_bytes line ∷ []) }
{
    lines.push(line)?;
    Ok(())
}

/// Adds the line of what is wrong between an archive and the next one that is there, if anything.
fn push_between(
    alloc: Global,
    lines: &mut Vec<String>,
    before: &Numbered,
    archive: &Numbered,
) -> Result<(), AllocError>
    ensures { OnOk result (by_text lines.new.items ≡ by_text lines.old.items
        ++ wrong_between (key_of before.now) (key_of archive.now) (archive.now.number - before.now.number)) }
{
    let name = archive.name.as_str();
    match archive.number.saturating_sub(before.number) {
        0 => push_line(lines, archive_line(alloc, name, "number twice")?),
        1 if is_next(before, archive) => Ok(()),
        1 => push_line(lines, archive_line(alloc, name, "begins elsewhere")?),
        distance => push_line(lines, missing_line(alloc, before.number + 1, distance - 1)?),
    }
}

/// Adds the lines of what is wrong between archives in order.
fn push_in_order(
    alloc: Global,
    lines: &mut Vec<String>,
    archives: &[Numbered],
) -> Result<(), AllocError>
    ensures { OnOk result (by_text lines.new.items ≡ by_text lines.old.items ++ wrong_in_order (map key_of archives.now)) }
{
    for at in 1..archives.len() {
        push_between(alloc, lines, &archives[at - 1], &archives[at])?;
    }
    Ok(())
}

/// What is wrong with an archive's metadata in a session of this identifier, if anything.
fn wrong_with(session: Option<&Uuid>, naming: &Naming) -> Option<&'static str>
    ensures { option_map (λ wrong. wrong.now) result ≡ wrong_with (option_copied session.entry) naming.now }
{
    match naming {
        Naming::Unfinished => Some("unfinished"),
        Naming::Unreadable => Some("unreadable"),
        Naming::NoUuid => Some("no uuid"),
        Naming::Other(own) if is_uuid(session, own) => Some("other metadata"),
        Naming::Named(own) if is_uuid(session, own) => None,
        _ => Some("another uuid"),
    }
}

/// Adds the line of an archive, if something is wrong with its metadata.
fn push_wrong(
    alloc: Global,
    lines: &mut Vec<String>,
    uuid: Option<&Uuid>,
    archive: &Numbered,
    naming: &Naming,
) -> Result<(), AllocError>
    ensures { OnOk result (by_text lines.new.items ≡ by_text lines.old.items
        ++ line_of_wrong (key_of archive.now).name (wrong_with (option_copied uuid.entry) naming.now)) }
{
    match wrong_with(uuid, naming) {
        None => Ok(()),
        Some(wrong) => push_line(lines, archive_line(alloc, archive.name.as_str(), wrong)?),
    }
}

/// Adds the lines of archives whose metadata have something wrong.
fn push_metadata(
    alloc: Global,
    lines: &mut Vec<String>,
    uuid: Option<&Uuid>,
    archives: &[Numbered],
    namings: &[Naming],
) -> Result<(), AllocError>
    requires { length namings.now ≡ length archives.now }
    ensures { OnOk result (by_text lines.new.items ≡ by_text lines.old.items
        ++ wrong_metadata (option_copied uuid.entry) (zip (map key_of archives.now) namings.now)) }
{
    for at in 0..archives.len() {
        push_wrong(alloc, lines, uuid, &archives[at], &namings[at])?;
    }
    Ok(())
}

/// Adds the line of the numbers from one on and below another, if there are any, which no stream has.
fn push_below(
    alloc: Global,
    lines: &mut Vec<String>,
    next: u64,
    number: u64,
) -> Result<(), AllocError>
    ensures { OnOk result (by_text lines.new.items ≡ by_text lines.old.items ++ missing_below next number) }
{
    if next < number {
        push_line(lines, no_streams_line(alloc, next, number - next)?)
    } else {
        Ok(())
    }
}

/// Adds the lines of numbers that none of these streams has, which are in order.
fn push_streams(
    alloc: Global,
    lines: &mut Vec<String>,
    streams: &[Numbered],
) -> Result<(), AllocError>
    ensures { OnOk result (by_text lines.new.items ≡ by_text lines.old.items ++ wrong_streams 0 (map key_of streams.now)) }
{
    let mut next = 0u64;
    for stream in streams {
        push_below(alloc, lines, next, stream.number)?;
        next = stream.number.saturating_add(1);
    }
    Ok(())
}

/// The lines of all that is wrong with a session of this identifier as it is there.
pub(crate) fn wrong_lines(
    alloc: Global,
    uuid: Option<&Uuid>,
    archives: &[Numbered],
    namings: &[Naming],
    streams: &[Numbered],
) -> Result<Vec<String>, AllocError>
    requires { length namings.now ≡ length archives.now }
    ensures { IfOk result (λ lines. by_text lines.items
        ≡ wrong_lines (option_copied uuid.entry) (map key_of archives.now) namings.now (map key_of streams.now)) }
{
    let mut lines = Vec::new(alloc);
    push_in_order(alloc, &mut lines, archives)?;
    push_metadata(alloc, &mut lines, uuid, archives, namings)?;
    push_streams(alloc, &mut lines, streams)?;
    Ok(lines)
}
