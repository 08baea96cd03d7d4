//! Where discarded records are reported: between records, with the names of their events.

ghost use Rattle.std.specs.Prelude.{◌≡◌, ◌≢◌, IfOk, find, option_copied, ◌==◌};
ghost use Rattle.std.specs.String.{string_bytes};
ghost use Rattle.tr_events.specs.Events as declared;
ghost use Rattle.tr_survey.specs.Losses.{kept_in, kept_text, lost_line, moment_text, name_text, placed_told, places_told, since_text};

use crate::lines::lost_text;
use crate::losses::{Kept, Taken, kept_in, taken_after, taken_with};
use std::alloc::{AllocError, Global};
use tr_events::{Event, Events};
use tr_packet::PacketView;

/// The event of this id, if one is declared.
fn event_of(events: &Events, id: u32) -> Option<&Event>
    ensures { option_copied result ≡ find (λ (e : declared.Event). e.id == id) events.now.events }
{
    events.list().iter().find(|event| event.id() == id)
}

/// The name of a record's event, if any events are declared: `-` if the record's isn't.
fn name_text(alloc: Global, events: &Events, id: u32) -> Result<String, AllocError>
    ensures { IfOk result (λ s. string_bytes s ≡ name_text events.now.events id) }
{
    if events.list().is_empty() {
        return Ok(String::new(alloc));
    }
    match event_of(events, id) {
        None => String::from_str(alloc, " -"),
        Some(event) => {
            let name = event.name();
            format!(in alloc; " {name}")
        }
    }
}

/// A record: its moment, and its event's name.
fn kept_text(alloc: Global, events: &Events, kept: Kept) -> Result<String, AllocError>
    ensures { IfOk result (λ s. string_bytes s ≡ kept_text events.now.events kept) }
{
    let name = name_text(alloc, events, kept.id)?;
    let archive = kept.archive;
    let moment = kept.moment;
    let name = name.as_str();
    format!(in alloc; "{archive} {moment}{name}")
}

/// A moment of an archive.
fn moment_text(alloc: Global, archive: u64, moment: u64) -> Result<String, AllocError>
    ensures { IfOk result (λ s. string_bytes s ≡ moment_text archive moment) }
{
    format!(in alloc; "{archive} {moment}")
}

/// Before this moment or record, or between a record and it.
fn since_text(
    alloc: Global,
    events: &Events,
    since: Option<Kept>,
    until: &str,
) -> Result<String, AllocError>
    ensures { IfOk result (λ s. string_bytes s ≡ since_text events.now.events since until.now) }
{
    let Some(kept) = since else {
        return format!(in alloc; " before {until}\n");
    };
    let from = kept_text(alloc, events, kept)?;
    let from = from.as_str();
    format!(in alloc; " between {from} and {until}\n")
}

/// The line of so many records that were discarded then, which are some.
fn lost_then(
    alloc: Global,
    events: &Events,
    stream: u64,
    count: u64,
    since: Option<Kept>,
    until: &str,
) -> Result<String, AllocError>
    requires { count ≢ 0 }
    ensures { IfOk result (λ s. string_bytes s ≡ lost_line events.now.events stream count since until.now) }
{
    let mut line = lost_text(alloc, stream, count)?;
    let place = since_text(alloc, events, since, until)?;
    line.push_str(place.as_str())?;
    Ok(line)
}

/// The line of so many records that were discarded before a record; empty if none were.
fn lost_before(
    alloc: Global,
    events: &Events,
    stream: u64,
    count: u64,
    since: Option<Kept>,
    kept: Kept,
) -> Result<String, AllocError>
    ensures { IfOk result (λ s. string_bytes s ≡ lost_line events.now.events stream count since (kept_text events.now.events kept)) }
{
    if count == 0 {
        return Ok(String::new(alloc));
    }
    let until = kept_text(alloc, events, kept)?;
    lost_then(alloc, events, stream, count, since, until.as_str())
}

/// The line of so many records that were discarded by a moment of an archive; empty if none were.
fn lost_by(
    alloc: Global,
    events: &Events,
    stream: u64,
    count: u64,
    since: Option<Kept>,
    archive: u64,
    moment: u64,
) -> Result<String, AllocError>
    ensures { IfOk result (λ s. string_bytes s ≡ lost_line events.now.events stream count since (moment_text archive moment)) }
{
    if count == 0 {
        return Ok(String::new(alloc));
    }
    let until = moment_text(alloc, archive, moment)?;
    lost_then(alloc, events, stream, count, since, until.as_str())
}

/// A line for each place before and among a packet's records where serials are missing.
fn places_told(
    alloc: Global,
    events: &Events,
    stream: u64,
    archive: u64,
    before: Taken,
    packet: &PacketView<'_>,
) -> Result<String, AllocError>
    ensures { IfOk result (λ s. string_bytes s ≡ places_told events.now.events stream archive before packet.now.records) }
{
    let mut lines = String::new(alloc);
    let mut taken: Taken = before;
    for event in packet.records() {
        let count = event.serial().saturating_sub(taken.next);
        let kept = kept_in(archive, &event);
        let line = lost_before(alloc, events, stream, count, taken.last, kept)?;
        lines.push_str(line.as_str())?;
        taken = taken_with(archive, &event);
    }
    Ok(lines)
}

/// The same, and a line of those that were discarded between the packet's last record and its end.
pub(crate) fn placed_told(
    alloc: Global,
    events: &Events,
    stream: u64,
    archive: u64,
    before: Taken,
    packet: &PacketView<'_>,
    rest: u64,
) -> Result<String, AllocError>
    ensures { IfOk result (λ s. string_bytes s
        ≡ placed_told events.now.events stream archive before packet.now.records rest packet.now.head.end) }
{
    let mut lines = places_told(alloc, events, stream, archive, before, packet)?;
    let taken = taken_after(archive, before, packet);
    let end = packet.head().end.get();
    let line = lost_by(alloc, events, stream, rest, taken.last, archive, end)?;
    lines.push_str(line.as_str())?;
    Ok(lines)
}
