//! How much is lost, in digits below its marks.

ghost use Rattle.std.specs.Prelude.{◌≡◌, ◌++◌, IfOk, OnOk};
ghost use Rattle.std.specs.String.{string_bytes};
ghost use Rattle.tr_picture.specs.Counts.{colour_of, count_after, count_in, count_text, counts_text, depth_of, is_counted, room_past};

use crate::bars::Bar;
use crate::frame::{Frame, MOST_COLUMNS};
use crate::page::push;
use std::alloc::{AllocError, Global};

/// What is counted below the marks of a lane.
#[derive(Clone, Copy)]
pub(crate) enum Counted {
    /// Numbers that are absent.
    Absent,
    /// Records that were discarded.
    Discarded,
}

impl Counted {
    /// How many a bar has.
    fn count_in(&self, bar: &Bar) -> u64
        ensures { result ≡ count_in self.now bar.now }
    {
        match self {
            Counted::Absent => bar.absent,
            Counted::Discarded => bar.lost,
        }
    }

    /// The class of its colour.
    fn colour(&self) -> &'static str
        ensures { result.now ≡ colour_of self.now }
    {
        match self {
            Counted::Absent => "tr",
            Counted::Discarded => "to",
        }
    }
}

/// How far below a row's top it is.
fn depth_of(what: Counted) -> u64
    ensures { result ≡ depth_of what }
{
    match what {
        Counted::Absent => 23,
        Counted::Discarded => 29,
    }
}

/// Whether a bar's count is shown, if there is room from this pixel on.
fn is_counted(what: Counted, frame: &Frame, room: u64, bar: &Bar) -> bool
    ensures { result ≡ is_counted what frame.now room bar.now }
{
    frame.columns == MOST_COLUMNS && 0 < what.count_in(bar) && room <= frame.pixel_of(bar.from)
}

/// A bar's count.
fn count_text(alloc: Global, what: Counted, frame: &Frame, bar: &Bar) -> Result<String, AllocError>
    ensures { IfOk result (λ s. string_bytes s ≡ count_text what frame.now bar.now) }
{
    let colour = what.colour();
    let x = frame.pixel_of(bar.from);
    let count = what.count_in(bar);
    let y = depth_of(what);
    format!(in alloc; "<text class=\"n {colour}\" x=\"{x}\" y=\"{y}\">{count}</text>")
}

/// Adds a bar's count, if there is room from this pixel on. Where the next one has room.
fn push_count(
    alloc: Global,
    page: &mut Vec<u8>,
    what: Counted,
    frame: &Frame,
    room: u64,
    bar: &Bar,
) -> Result<u64, AllocError>
    ensures page { OnOk result (page.new.items ≡ page.old.items ++ count_after what frame.now room bar.now) }
    ensures room { IfOk result (λ after. after ≡ room_past what frame.now room bar.now) }
{
    if !is_counted(what, frame, room, bar) {
        return Ok(room);
    }
    let count = count_text(alloc, what, frame, bar)?;
    push(page, count.as_str())?;
    Ok(frame.pixel_of(bar.from) + 48)
}

/// Adds the counts of a lane's bars, as far as they have room.
pub(crate) fn push_counts(
    alloc: Global,
    page: &mut Vec<u8>,
    what: Counted,
    frame: &Frame,
    bars: &[Bar],
) -> Result<(), AllocError>
    ensures { OnOk result (page.new.items ≡ page.old.items ++ counts_text what frame.now 0 bars.now) }
{
    let mut room = 0;
    for bar in bars {
        room = push_count(alloc, page, what, frame, room, bar)?;
    }
    Ok(())
}
