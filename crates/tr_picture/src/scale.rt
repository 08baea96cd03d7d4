//! The scale of a picture.

ghost use Rattle.std.specs.Prelude.{◌≡◌, ◌≤◌, ◌++◌, IfOk, OnOk};
ghost use Rattle.std.specs.String.{string_bytes};
ghost use Rattle.tr_picture.specs.Drawing.{civil_text, elapsed_text, mark_end, mark_front, mark_text, scale_text};
ghost use Rattle.tr_survey.specs.Names.{begin_stamp};

use crate::frame::Frame;
use crate::page::push;
use std::alloc::{AllocError, Global};
use tr_chunk::archive_name;
use tr_terms::{Moment, OffsetMinutes};

/// The bytes of a moment in an archive's name.
const STAMP: usize = 20;

/// The stamp that an archive's name begins with.
fn stamp_in(name: &[u8]) -> &[u8]
    ensures { result.now ≡ begin_stamp name.now }
{
    if name.len() < STAMP {
        return name;
    }
    let (stamp, _) = name.split_at(STAMP);
    stamp
}

/// Adds a moment's civil time at an offset.
fn push_civil(
    alloc: Global,
    page: &mut Vec<u8>,
    offset: OffsetMinutes,
    moment: u64,
) -> Result<(), AllocError>
    ensures { OnOk result (page.new.items ≡ page.old.items ++ civil_text offset moment) }
{
    let Some(moment) = Moment::new(moment) else {
        return Ok(());
    };
    let name = archive_name(alloc, moment, moment, offset, 0)?;
    let stamp = stamp_in(name.as_bytes());
    page.extend_from_slice(stamp)
}

/// A number of nanoseconds in the unit that suits a span.
fn elapsed_text(alloc: Global, span: u64, elapsed: u64) -> Result<String, AllocError>
    ensures { IfOk result (λ s. string_bytes s ≡ elapsed_text span elapsed) }
{
    if span < 100_000 {
        return format!(in alloc; "{elapsed} ns");
    }
    if span < 100_000_000 {
        let us = elapsed / 1_000;
        return format!(in alloc; "{us} us");
    }
    if span < 100_000_000_000 {
        let ms = elapsed / 1_000_000;
        return format!(in alloc; "{ms} ms");
    }
    let s = elapsed / 1_000_000_000;
    format!(in alloc; "{s} s")
}

/// What comes before the text of a mark of the scale at this pixel.
fn mark_front(alloc: Global, x: u64) -> Result<String, AllocError>
    ensures { IfOk result (λ s. string_bytes s ≡ mark_front x) }
{
    format!(in alloc; "<text text-anchor=\"middle\" x=\"{x}\" y=\"28\">+")
}

/// What comes after it.
fn mark_end(alloc: Global, x: u64) -> Result<String, AllocError>
    ensures { IfOk result (λ s. string_bytes s ≡ mark_end x) }
{
    format!(in alloc; "</text><path class=\"t\" d=\"M{x} 32v6\"/>\n")
}

/// Adds a mark of the scale after so many quarters of the span.
fn push_mark(alloc: Global, page: &mut Vec<u8>, span: u64, quarters: u64) -> Result<(), AllocError>
    requires { quarters ≤ 4 }
    ensures { OnOk result (page.new.items ≡ page.old.items ++ mark_text span quarters) }
{
    let front = mark_front(alloc, 160 + 200 * quarters)?;
    let elapsed = elapsed_text(alloc, span, span / 4 * quarters)?;
    let end = mark_end(alloc, 160 + 200 * quarters)?;
    push(page, front.as_str())?;
    push(page, elapsed.as_str())?;
    push(page, end.as_str())
}

/// Adds the scale, by a clock at an offset.
pub(crate) fn push_scale(
    alloc: Global,
    page: &mut Vec<u8>,
    offset: OffsetMinutes,
    frame: &Frame,
) -> Result<(), AllocError>
    ensures { OnOk result (page.new.items ≡ page.old.items ++ scale_text offset frame.now) }
{
    let last = frame.last_moment();
    push(page, "<text x=\"160\" y=\"14\">")?;
    push_civil(alloc, page, offset, frame.least)?;
    push(page, "</text><text text-anchor=\"end\" x=\"960\" y=\"14\">")?;
    push_civil(alloc, page, offset, last)?;
    push(page, "</text>\n")?;
    push_mark(alloc, page, frame.span, 0)?;
    push_mark(alloc, page, frame.span, 1)?;
    push_mark(alloc, page, frame.span, 2)?;
    push_mark(alloc, page, frame.span, 3)?;
    push_mark(alloc, page, frame.span, 4)
}
