//! The numbers of archives, above where they begin.

ghost use Rattle.std.specs.Prelude.{◌≡◌, ◌++◌, IfOk, OnOk, None};
ghost use Rattle.std.specs.String.{string_bytes};
ghost use Rattle.tr_picture.specs.Drawing.{begins, is_shown, number_text, numbers_text};

use crate::bars::Bar;
use crate::frame::Frame;
use crate::page::push;
use std::alloc::{AllocError, Global};

/// Whether an archive begins with a bar.
fn begins(before: Option<u64>, bar: &Bar) -> bool
    ensures { result ≡ begins before bar.now }
{
    match before {
        None => true,
        Some(archive) => archive != bar.archive,
    }
}

/// Whether its number is shown, if there is room from this pixel on.
fn is_shown(frame: &Frame, room: u64, before: Option<u64>, bar: &Bar) -> bool
    ensures { result ≡ is_shown frame.now room before bar.now }
{
    begins(before, bar) && room <= frame.pixel_of(bar.from)
}

/// The number of the archive that a bar begins with.
fn number_text(alloc: Global, frame: &Frame, bar: &Bar) -> Result<String, AllocError>
    ensures { IfOk result (λ s. string_bytes s ≡ number_text frame.now bar.now) }
{
    let x = 160 + frame.pixel_of(bar.from);
    let archive = bar.archive;
    format!(in alloc; "<text x=\"{x}\" y=\"48\">archive {archive}</text>\n")
}

/// Adds the numbers of a row's archives, as far as they have room.
pub(crate) fn push_numbers(
    alloc: Global,
    page: &mut Vec<u8>,
    frame: &Frame,
    bars: &[Bar],
) -> Result<(), AllocError>
    ensures { OnOk result (page.new.items ≡ page.old.items ++ numbers_text frame.now 0 None bars.now) }
{
    let mut before = None;
    let mut room = 0;
    for bar in bars {
        if is_shown(frame, room, before, bar) {
            let number = number_text(alloc, frame, bar)?;
            push(page, number.as_str())?;
            room = frame.pixel_of(bar.from) + 90;
        }
        before = Some(bar.until);
    }
    Ok(())
}
