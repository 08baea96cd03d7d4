//! What is reported at a packet.

ghost use Rattle.std.specs.Prelude.{◌≡◌, IfOk};
ghost use Rattle.std.specs.String.{string_bytes};
ghost use Rattle.tr_survey.specs.Lines.{between_text, before_text};
ghost use Rattle.tr_survey.specs.Listing.{key_of};
ghost use Rattle.tr_survey.specs.Streams.{ends_told, fall_told, gap_told, lost_told, packet_told, place_of, where_text, TraceState};

use crate::declaring::Trace;
use crate::lines::{gap_text, lost_text, packet_fault_line};
use crate::losses::unplaced;
use crate::names::Numbered;
use crate::places::placed_told;
use crate::tally::{Last, Tally, absent_before, discarded, falls, next_number, taken_before};
use std::alloc::{AllocError, Global};
use tr_packet::PacketView;

/// Where numbers are absent, or records were discarded: before a packet of this archive, or between it and the one before.
fn where_text(
    alloc: Global,
    last: Option<Last>,
    archive: u64,
    moment: u64,
) -> Result<String, AllocError>
    ensures { IfOk result (λ s. string_bytes s ≡ where_text last archive moment) }
{
    match last {
        None => format!(in alloc; " before {archive} {moment}\n"),
        Some(last) => {
            let before = last.archive;
            let end = last.end;
            format!(in alloc; " between {before} {end} and {archive} {moment}\n")
        }
    }
}

/// The line of numbers that are absent right before a packet; empty if none are.
fn gap_told(
    alloc: Global,
    stream: u64,
    archive: &Numbered,
    last: Option<Last>,
    packet: &PacketView<'_>,
) -> Result<String, AllocError>
    ensures { IfOk result (λ s. (from : TraceState) → string_bytes s ≡ gap_told (place_of from stream (key_of archive.now)) last packet.now) }
{
    let head = packet.head();
    let count = absent_before(last, head.seq);
    if count == 0 {
        return Ok(String::new(alloc));
    }
    let mut line = gap_text(alloc, stream, next_number(last), count)?;
    let place = where_text(alloc, last, archive.number, head.begin.get())?;
    line.push_str(place.as_str())?;
    Ok(line)
}

/// The line of records that were discarded between the ends of two packets, or by the end of the first.
fn ends_told(
    alloc: Global,
    stream: u64,
    archive: &Numbered,
    last: Option<Last>,
    packet: &PacketView<'_>,
) -> Result<String, AllocError>
    ensures { IfOk result (λ s. (from : TraceState) → string_bytes s ≡ ends_told (place_of from stream (key_of archive.now)) last packet.now) }
{
    let mut line = lost_text(alloc, stream, discarded(last, packet))?;
    let place = where_text(alloc, last, archive.number, packet.head().end.get())?;
    line.push_str(place.as_str())?;
    Ok(line)
}

/// The lines of records that were discarded since the packet before; empty if none were.
fn lost_told(
    alloc: Global,
    trace: &Trace,
    stream: u64,
    archive: &Numbered,
    last: Option<Last>,
    packet: &PacketView<'_>,
) -> Result<String, AllocError>
    ensures { IfOk result (λ s. string_bytes s ≡ lost_told (place_of trace.now stream (key_of archive.now)) last packet.now) }
{
    let count = discarded(last, packet);
    if count == 0 {
        return Ok(String::new(alloc));
    }
    let Some(taken) = taken_before(last, packet) else {
        return ends_told(alloc, stream, archive, last, packet);
    };
    match unplaced(count, taken.next, packet) {
        None => ends_told(alloc, stream, archive, last, packet),
        Some(rest) => placed_told(
            alloc,
            &trace.events,
            stream,
            archive.number,
            taken,
            packet,
            rest,
        ),
    }
}

/// The line of a packet that says that fewer records were discarded than the one before says; empty if it doesn't.
fn fall_told(
    alloc: Global,
    stream: u64,
    archive: &Numbered,
    last: Option<Last>,
    offset: u64,
    packet: &PacketView<'_>,
) -> Result<String, AllocError>
    ensures { IfOk result (λ s. (from : TraceState)
        → string_bytes s ≡ fall_told (place_of from stream (key_of archive.now)) last offset packet.now) }
{
    if !falls(last, packet) {
        return Ok(String::new(alloc));
    }
    packet_fault_line(alloc, stream, archive.name.as_str(), offset, "lost falls")
}

/// What is reported at a packet.
pub(crate) fn packet_told(
    alloc: Global,
    trace: &Trace,
    stream: u64,
    archive: &Numbered,
    tally: &Tally,
    offset: u64,
    packet: &PacketView<'_>,
) -> Result<String, AllocError>
    ensures { IfOk result (λ s. string_bytes s
        ≡ packet_told (place_of trace.now stream (key_of archive.now)) tally.now offset packet.now) }
{
    if tally.is_broken {
        return Ok(String::new(alloc));
    }
    let last = tally.last;
    let mut lines = gap_told(alloc, stream, archive, last, packet)?;
    let lost = lost_told(alloc, trace, stream, archive, last, packet)?;
    lines.push_str(lost.as_str())?;
    let fall = fall_told(alloc, stream, archive, last, offset, packet)?;
    lines.push_str(fall.as_str())?;
    Ok(lines)
}
