//! Where discarded records are drawn.

ghost use Rattle.std.specs.Prelude.{◌≡◌, OnOk};
ghost use Rattle.tr_picture.specs.Losses.{since, since_end, with_discarded, with_ends, with_lost, with_placed, with_places};

use crate::bars::Bar;
use crate::frame::Frame;
use crate::lanes::Lane;
use std::alloc::AllocError;
use tr_packet::PacketView;
use tr_survey::{Kept, Last, Taken, discarded, taken_after, taken_before, taken_with, unplaced};

/// From the last record's moment on, or from the packet's begin.
fn since(begin: u64, kept: Option<Kept>) -> u64
    ensures { result ≡ since begin kept }
{
    match kept {
        None => begin,
        Some(kept) => kept.moment,
    }
}

/// From the packet's end on, or from the next one's begin.
pub(crate) fn since_end(begin: u64, last: Option<Last>) -> u64
    ensures { result ≡ since_end begin last }
{
    match last {
        None => begin,
        Some(last) => last.end,
    }
}

/// Adds so many records that were discarded between two moments, if any.
fn add_lost(
    frame: &Frame,
    archive: u64,
    lane: &mut Lane,
    begin: u64,
    end: u64,
    count: u64,
) -> Result<(), AllocError>
    ensures { OnOk result (lane.new ≡ with_lost frame.now archive lane.old begin end count) }
{
    if count == 0 {
        return Ok(());
    }
    lane.add(Bar::of_lost(frame, archive, begin, end, count))
}

/// Adds those that are missing before and among a packet's records.
fn add_places(
    frame: &Frame,
    archive: u64,
    lane: &mut Lane,
    before: Taken,
    packet: &PacketView<'_>,
) -> Result<(), AllocError>
    ensures { OnOk result (lane.new
        ≡ with_places frame.now archive packet.now.head.begin lane.old before packet.now.records) }
{
    let begin = packet.head().begin.get();
    let mut taken = before;
    for event in packet.records() {
        let count = event.serial().saturating_sub(taken.next);
        let from = since(begin, taken.last);
        add_lost(frame, archive, lane, from, event.moment().get(), count)?;
        taken = taken_with(archive, &event);
    }
    Ok(())
}

/// The same, and so many more after the packet's last record.
fn add_placed(
    frame: &Frame,
    archive: u64,
    lane: &mut Lane,
    before: Taken,
    rest: u64,
    packet: &PacketView<'_>,
) -> Result<(), AllocError>
    ensures { OnOk result (lane.new ≡ with_placed frame.now archive lane.old before rest packet.now) }
{
    add_places(frame, archive, lane, before, packet)?;
    let head = packet.head();
    let from = since(head.begin.get(), taken_after(archive, before, packet).last);
    add_lost(frame, archive, lane, from, head.end.get(), rest)
}

/// Adds those that were discarded between the ends of two packets.
fn add_ends(
    frame: &Frame,
    archive: u64,
    lane: &mut Lane,
    last: Option<Last>,
    packet: &PacketView<'_>,
) -> Result<(), AllocError>
    ensures { OnOk result (lane.new ≡ with_ends frame.now archive lane.old last packet.now) }
{
    let head = packet.head();
    let from = since_end(head.begin.get(), last);
    add_lost(
        frame,
        archive,
        lane,
        from,
        head.end.get(),
        discarded(last, packet),
    )
}

/// Adds the records that were discarded since the packet before.
pub(crate) fn add_discarded(
    frame: &Frame,
    archive: u64,
    lane: &mut Lane,
    last: Option<Last>,
    packet: &PacketView<'_>,
) -> Result<(), AllocError>
    ensures { OnOk result (lane.new ≡ with_discarded frame.now archive lane.old last packet.now) }
{
    let count = discarded(last, packet);
    if count == 0 {
        return Ok(());
    }
    let Some(taken) = taken_before(last, packet) else {
        return add_ends(frame, archive, lane, last, packet);
    };
    match unplaced(count, taken.next, packet) {
        None => add_ends(frame, archive, lane, last, packet),
        Some(rest) => add_placed(frame, archive, lane, taken, rest, packet),
    }
}
