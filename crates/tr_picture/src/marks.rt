//! The texts of bars.

ghost use Rattle.std.specs.Prelude.{◌≡◌, ◌++◌, IfOk, OnOk, ℕ, Option, Some, None};
ghost use Rattle.std.specs.String.{string_bytes};
ghost use Rattle.tr_picture.specs.Drawing.{absent_path, bar_text, bars_text, border_after, border_text, fault_path, height_of, loss_text, losses_text, losses_title, lost_path, packets_path, packets_title, place_text, width_of};
ghost use Rattle.tr_picture.specs.Lanes.{bars_of};

use crate::bars::Bar;
use crate::frame::{Frame, greater, lesser};
use crate::lanes::Lane;
use crate::page::push;
use std::alloc::{AllocError, Global};

/// Of which archives a bar is, and between which moments it lies.
fn place_text(alloc: Global, bar: &Bar) -> Result<String, AllocError>
    ensures { IfOk result (λ s. string_bytes s ≡ place_text bar.now) }
{
    let archive = bar.archive;
    let until = bar.until;
    let begin = bar.begin;
    let end = bar.end;
    format!(in alloc; "; archives {archive}-{until}; {begin}-{end}")
}

/// What a pointer shows of packets and absent numbers.
fn packets_title(alloc: Global, bar: &Bar) -> Result<String, AllocError>
    ensures { IfOk result (λ s. string_bytes s ≡ packets_title bar.now) }
{
    let first = bar.first;
    let last = bar.last;
    let packets = bar.packets;
    let records = bar.records;
    let absent = bar.absent;
    format!(in alloc;
        "<title>{first}-{last}: {packets} packets, {records} records, {absent} absent"
    )
}

/// What it shows of discarded records and faults.
fn losses_title(alloc: Global, bar: &Bar) -> Result<String, AllocError>
    ensures { IfOk result (λ s. string_bytes s ≡ losses_title bar.now) }
{
    let lost = bar.lost;
    let faults = bar.faults;
    format!(in alloc; "<title>{lost} discarded, {faults} faults")
}

/// How high a bar's packets are drawn.
fn height_of(frame: &Frame, bar: &Bar) -> u64
    ensures { result ≡ height_of frame.now bar.now }
{
    let mean = bar.bytes / greater(1, bar.packets);
    let largest = frame.largest;
    let step = (largest / 10).saturating_add(1);
    2 + lesser(10, mean / step)
}

/// How many pixels wide a bar is.
fn width_of(frame: &Frame, bar: &Bar) -> u64
    ensures { result ≡ width_of frame.now bar.now }
{
    frame
        .pixel_of(bar.to)
        .saturating_sub(frame.pixel_of(bar.from))
}

/// A bar's packets.
fn packets_path(alloc: Global, frame: &Frame, bar: &Bar) -> Result<String, AllocError>
    ensures { IfOk result (λ s. string_bytes s ≡ packets_path frame.now bar.now) }
{
    if bar.packets == 0 {
        return Ok(String::new(alloc));
    }
    let colour = bar.archive % 4;
    let from = frame.pixel_of(bar.from);
    let width = width_of(frame, bar);
    let height = height_of(frame, bar);
    format!(in alloc; "<path class=\"a{colour}\" d=\"M{from} 12v-{height}h{width}v{height}z\"/>")
}

/// A bar's absent numbers.
fn absent_path(alloc: Global, frame: &Frame, bar: &Bar) -> Result<String, AllocError>
    ensures { IfOk result (λ s. string_bytes s ≡ absent_path frame.now bar.now) }
{
    if bar.absent == 0 {
        return Ok(String::new(alloc));
    }
    let from = frame.pixel_of(bar.from);
    let width = width_of(frame, bar);
    let height = if bar.packets == 0 { 12 } else { 4 };
    format!(in alloc; "<path class=\"r\" d=\"M{from} 0h{width}v{height}h-{width}z\"/>")
}

/// A bar's discarded records.
fn lost_path(alloc: Global, frame: &Frame, bar: &Bar) -> Result<String, AllocError>
    ensures { IfOk result (λ s. string_bytes s ≡ lost_path frame.now bar.now) }
{
    if bar.lost == 0 {
        return Ok(String::new(alloc));
    }
    let from = frame.pixel_of(bar.from);
    let width = width_of(frame, bar);
    format!(in alloc; "<path class=\"o\" d=\"M{from} 13h{width}v4h-{width}z\"/>")
}

/// A bar's faults.
fn fault_path(alloc: Global, frame: &Frame, bar: &Bar) -> Result<String, AllocError>
    ensures { IfOk result (λ s. string_bytes s ≡ fault_path frame.now bar.now) }
{
    if bar.faults == 0 {
        return Ok(String::new(alloc));
    }
    let from = frame.pixel_of(bar.from);
    format!(in alloc; "<path class=\"f\" d=\"M{from} 0v17\"/>")
}

/// A line where an archive begins.
fn border_text(alloc: Global, frame: &Frame, bar: &Bar) -> Result<String, AllocError>
    ensures { IfOk result (λ s. string_bytes s ≡ border_text frame.now bar.now) }
{
    let from = frame.pixel_of(bar.from);
    let archive = bar.archive;
    format!(in alloc;
        "<path class=\"b\" d=\"M{from} -2v20\"><title>archive {archive}</title></path>"
    )
}

/// The same, unless the bar before is of that archive too.
fn border_after(
    alloc: Global,
    frame: &Frame,
    before: Option<u64>,
    bar: &Bar,
) -> Result<String, AllocError>
    ensures { IfOk result (λ s. string_bytes s ≡ border_after frame.now before bar.now) }
{
    match before {
        None => border_text(alloc, frame, bar),
        Some(archive) => {
            if archive == bar.archive {
                Ok(String::new(alloc))
            } else {
                border_text(alloc, frame, bar)
            }
        }
    }
}

/// Adds a bar of packets and absent numbers.
fn push_bar(alloc: Global, page: &mut Vec<u8>, frame: &Frame, bar: &Bar) -> Result<(), AllocError>
    ensures { OnOk result (page.new.items ≡ page.old.items ++ bar_text frame.now bar.now) }
{
    let title = packets_title(alloc, bar)?;
    let place = place_text(alloc, bar)?;
    let packets = packets_path(alloc, frame, bar)?;
    let absent = absent_path(alloc, frame, bar)?;
    push(page, "<g>")?;
    push(page, title.as_str())?;
    push(page, place.as_str())?;
    push(page, "</title>")?;
    push(page, packets.as_str())?;
    push(page, absent.as_str())?;
    push(page, "</g>")
}

/// Adds a bar of discarded records and faults.
fn push_loss(alloc: Global, page: &mut Vec<u8>, frame: &Frame, bar: &Bar) -> Result<(), AllocError>
    ensures { OnOk result (page.new.items ≡ page.old.items ++ loss_text frame.now bar.now) }
{
    let title = losses_title(alloc, bar)?;
    let place = place_text(alloc, bar)?;
    let lost = lost_path(alloc, frame, bar)?;
    let faults = fault_path(alloc, frame, bar)?;
    push(page, "<g>")?;
    push(page, title.as_str())?;
    push(page, place.as_str())?;
    push(page, "</title>")?;
    push(page, lost.as_str())?;
    push(page, faults.as_str())?;
    push(page, "</g>")
}

/// Adds bars of packets and absent numbers, and where archives begin.
pub(crate) fn push_bars(
    alloc: Global,
    page: &mut Vec<u8>,
    frame: &Frame,
    bars: &[Bar],
) -> Result<(), AllocError>
    ensures { OnOk result (page.new.items ≡ page.old.items ++ bars_text frame.now None bars.now) }
{
    let mut before = None;
    for bar in bars {
        let border = border_after(alloc, frame, before, bar)?;
        push(page, border.as_str())?;
        push_bar(alloc, page, frame, bar)?;
        before = Some(bar.until);
    }
    Ok(())
}

/// Adds bars of discarded records and faults.
pub(crate) fn push_losses(
    alloc: Global,
    page: &mut Vec<u8>,
    frame: &Frame,
    bars: &[Bar],
) -> Result<(), AllocError>
    ensures { OnOk result (page.new.items ≡ page.old.items ++ losses_text frame.now bars.now) }
{
    for bar in bars {
        push_loss(alloc, page, frame, bar)?;
    }
    Ok(())
}

/// The bars of a lane.
pub(crate) fn bars_of(alloc: Global, lane: &Lane) -> Result<Vec<Bar>, AllocError>
    ensures { IfOk result (λ bars. bars.items ≡ bars_of lane.now) }
{
    let mut bars = lane.done().to_vec(alloc)?;
    if let Some(last) = lane.pending() {
        bars.push(last)?;
    }
    Ok(bars)
}
