//! The text of a picture.

ghost use Rattle.std.specs.Prelude.{◌≡◌, ◌++◌, length, map, IfOk, OnOk};
ghost use Rattle.std.specs.String.{string_bytes};
ghost use Rattle.tr_picture.specs.Drawing.{all_totals_text, back_text, counted_text, drawing, faults_text, first_numbers, front_text, full_height, head_text, label_text, labels_part, labels_text, legend_front, legend_height, legend_part, names_text, next_row, part_text, plot_part, plural, row_front, row_text, rows_height, rows_text, totals_front, totals_part, totals_text};
ghost use Rattle.tr_picture.specs.Sessions.{seen};

use crate::counts::{Counted, push_counts};
use crate::frame::Frame;
use crate::marks::{bars_of, push_bars, push_losses};
use crate::numbers::push_numbers;
use crate::page::{push, push_escaped};
use crate::rows::Row;
use crate::scale::push_scale;
use crate::sessions::{Line, faults_in, first_offset};
use crate::threads::push_threads;
use std::alloc::{AllocError, Global};
use tr_survey::{Tally, lost_by};

/// How each kind of mark looks, in light and in dark.
const STYLE: &str =
    "<style>svg{font:10px monospace}.w{fill:#fff}text{fill:#222}.n{font-size:7px}.a0{fill:#47a}.a1{fill:#7ac}.a2{fill:#586}.a3{fill:#9b7}.r{fill:#d22;stroke:#d22}.o{fill:#e80;stroke:#e80}.f{stroke:#000;stroke-width:3}.b{stroke:#666;stroke-width:1}.l,.t{stroke:#bbb;stroke-width:1}.tr{fill:#b00}.to{fill:#a50}@media(prefers-color-scheme:dark){.w{fill:#161616}text{fill:#ddd}.l,.t{stroke:#555}.b{stroke:#aaa}.f{stroke:#fff}.tr{fill:#f77}.to{fill:#fa4}}</style>";

/// What each kind of mark says.
const LEGEND: &str =
    "<path class=\"a0\" d=\"M0 0h8v12h-8z\"/><path class=\"a1\" d=\"M8 0h8v12h-8z\"/><path class=\"a2\" d=\"M16 0h8v12h-8z\"/><path class=\"a3\" d=\"M24 0h8v12h-8z\"/><text x=\"40\" y=\"10\">packets, a colour for each archive, as high as their bytes</text><path class=\"r\" d=\"M410 0h16v12h-16z\"/><text x=\"434\" y=\"10\">numbers absent</text><path class=\"o\" d=\"M544 5h16v4h-16z\"/><text x=\"568\" y=\"10\">records discarded</text><path class=\"f\" d=\"M694 -3v17\"/><text x=\"704\" y=\"10\">fault</text><path class=\"b\" d=\"M754 -4v20\"/><text x=\"764\" y=\"10\">archive begins</text></g></svg>\n";

/// What begins a row at this height.
fn row_front(alloc: Global, y: u64) -> Result<String, AllocError>
    ensures { IfOk result (λ s. string_bytes s ≡ row_front y) }
{
    format!(in alloc; "<g transform=\"translate(0 {y})\"><path class=\"l\" d=\"M0 12h800\"/>")
}

/// Adds a row's packets and losses, at this height, and how much is lost.
fn push_row(
    alloc: Global,
    page: &mut Vec<u8>,
    frame: &Frame,
    y: u64,
    row: &Row,
) -> Result<(), AllocError>
    ensures { OnOk result (page.new.items ≡ page.old.items ++ row_text frame.now y row.now) }
{
    let front = row_front(alloc, y)?;
    let packets = bars_of(alloc, &row.packets)?;
    let losses = bars_of(alloc, &row.losses)?;
    push(page, front.as_str())?;
    push_bars(alloc, page, frame, &packets)?;
    push_losses(alloc, page, frame, &losses)?;
    push_counts(alloc, page, Counted::Absent, frame, &packets)?;
    push_counts(alloc, page, Counted::Discarded, frame, &losses)?;
    push(page, "</g>\n")
}

/// Adds a stream's names.
fn push_names(alloc: Global, page: &mut Vec<u8>, line: &Line) -> Result<(), AllocError>
    ensures { OnOk result (page.new.items ≡ page.old.items ++ names_text (seen line.now)) }
{
    push_escaped(page, line.stream.name.as_str())?;
    let number = line.stream.number;
    let middle = format!(in alloc; " {number} ")?;
    push(page, middle.as_str())?;
    push_escaped(page, line.session.as_str())?;
    push_threads(alloc, page, &line.row.threads)
}

/// Adds a stream's label, at this height.
fn push_label(alloc: Global, page: &mut Vec<u8>, y: u64, line: &Line) -> Result<(), AllocError>
    ensures { OnOk result (page.new.items ≡ page.old.items ++ label_text y (seen line.now)) }
{
    let front = format!(in alloc; "<text x=\"4\" y=\"{y}\"><title>")?;
    push(page, front.as_str())?;
    push_names(alloc, page, line)?;
    push(page, "</title>")?;
    push_names(alloc, page, line)?;
    push(page, "</text>\n")
}

/// A count in its colour, if there is one.
fn counted_text(alloc: Global, colour: &str, count: u64, what: &str) -> Result<String, AllocError>
    ensures { IfOk result (λ s. string_bytes s ≡ counted_text colour.now count what.now) }
{
    if count == 0 {
        return Ok(String::new(alloc));
    }
    format!(in alloc; "<tspan class=\"{colour}\">, {count} {what}</tspan>")
}

/// What begins a stream's totals at this height.
fn totals_front(alloc: Global, y: u64, packets: u64, records: u64) -> Result<String, AllocError>
    ensures { IfOk result (λ s. string_bytes s ≡ totals_front y packets records) }
{
    format!(in alloc; "<text x=\"6\" y=\"{y}\">{packets} packets, {records} records")
}

/// Adds a stream's totals, at this height.
fn push_totals(alloc: Global, page: &mut Vec<u8>, y: u64, tally: &Tally) -> Result<(), AllocError>
    ensures { OnOk result (page.new.items ≡ page.old.items ++ totals_text y tally.now) }
{
    let discarded = lost_by(tally.last);
    let front = totals_front(alloc, y, tally.packets, tally.records)?;
    let absent = counted_text(alloc, "tr", tally.absent, "absent")?;
    let lost = counted_text(alloc, "to", discarded, "lost")?;
    push(page, front.as_str())?;
    push(page, absent.as_str())?;
    push(page, lost.as_str())?;
    push(page, "</text>\n")
}

/// The height of the next row.
fn next_row(y: u64) -> u64
    ensures { result ≡ next_row y }
{
    y.saturating_add(32)
}

/// Adds the rows, from this height on.
fn push_rows(
    alloc: Global,
    page: &mut Vec<u8>,
    frame: &Frame,
    top: u64,
    lines: &[Line],
) -> Result<(), AllocError>
    ensures { OnOk result (page.new.items ≡ page.old.items ++ rows_text frame.now top (map seen lines.now)) }
{
    let mut y = top;
    for line in lines {
        let below = next_row(y);
        push_row(alloc, page, frame, y, &line.row)?;
        y = below;
    }
    Ok(())
}

/// Adds the labels, from this height on.
fn push_labels(
    alloc: Global,
    page: &mut Vec<u8>,
    top: u64,
    lines: &[Line],
) -> Result<(), AllocError>
    ensures { OnOk result (page.new.items ≡ page.old.items ++ labels_text top (map seen lines.now)) }
{
    let mut y = top;
    for line in lines {
        let below = next_row(y);
        push_label(alloc, page, y, line)?;
        y = below;
    }
    Ok(())
}

/// Adds the totals, from this height on.
fn push_all_totals(
    alloc: Global,
    page: &mut Vec<u8>,
    top: u64,
    lines: &[Line],
) -> Result<(), AllocError>
    ensures { OnOk result (page.new.items ≡ page.old.items ++ all_totals_text top (map seen lines.now)) }
{
    let mut y = top;
    for line in lines {
        let below = next_row(y);
        push_totals(alloc, page, y, &line.row.tally)?;
        y = below;
    }
    Ok(())
}

/// The pixels of so many rows.
fn rows_height(rows: u64) -> u64
    ensures { result ≡ rows_height rows }
{
    rows.saturating_mul(32)
}

/// The pixels of so many rows, with what is above and below them.
fn full_height(rows: u64) -> u64
    ensures { result ≡ full_height rows }
{
    rows_height(rows).saturating_add(92)
}

/// What begins a picture of this height, before its style.
fn front_text(alloc: Global, height: u64) -> Result<String, AllocError>
    ensures { IfOk result (λ s. string_bytes s ≡ front_text height) }
{
    format!(in alloc;
        "<svg xmlns=\"http://www.w3.org/2000/svg\" width=\"1280\" height=\"{height}\" viewBox=\"0 0 1280 {height}\"><title>what archives hold and what is lost</title>"
    )
}

/// What follows the name of so many things.
fn plural(count: u64) -> &'static str
    ensures { result.now ≡ plural count }
{
    if count == 1 { "" } else { "s" }
}

/// What comes after the style.
fn back_text(alloc: Global, height: u64, rows: u64) -> Result<String, AllocError>
    ensures { IfOk result (λ s. string_bytes s ≡ back_text height rows) }
{
    let end = plural(rows);
    format!(in alloc;
        "<rect class=\"w\" width=\"1280\" height=\"{height}\"/>\n<text x=\"4\" y=\"14\">{rows} stream{end}</text><text x=\"972\" y=\"14\">"
    )
}

/// So many faults, of which so many are of streams.
fn faults_text(alloc: Global, faults: u64, placed: u64) -> Result<String, AllocError>
    ensures { IfOk result (λ s. string_bytes s ≡ faults_text faults placed) }
{
    let end = plural(faults);
    if faults <= placed {
        return format!(in alloc; "{faults} fault{end}");
    }
    let others = faults - placed;
    format!(in alloc; "{faults} fault{end}, {others} of no stream")
}

/// Adds what begins the picture.
fn push_head(
    alloc: Global,
    page: &mut Vec<u8>,
    rows: u64,
    faults: u64,
    placed: u64,
) -> Result<(), AllocError>
    ensures { OnOk result (page.new.items ≡ page.old.items ++ head_text rows faults placed) }
{
    let height = full_height(rows);
    let front = front_text(alloc, height)?;
    let back = back_text(alloc, height, rows)?;
    let counted = faults_text(alloc, faults, placed)?;
    push(page, front.as_str())?;
    push(page, STYLE)?;
    push(page, back.as_str())?;
    push(page, counted.as_str())?;
    push(page, "</text>\n")
}

/// Adds the numbers of the first row's archives.
fn push_first_numbers(
    alloc: Global,
    page: &mut Vec<u8>,
    frame: &Frame,
    lines: &[Line],
) -> Result<(), AllocError>
    ensures { OnOk result (page.new.items ≡ page.old.items ++ first_numbers frame.now (map seen lines.now)) }
{
    match lines {
        [] => Ok(()),
        [line, ..] => {
            let bars = bars_of(alloc, &line.row.packets)?;
            push_numbers(alloc, page, frame, &bars)
        }
    }
}

/// A part of the picture, whose text doesn't leave it.
fn part_text(alloc: Global, x: u64, width: u64, height: u64) -> Result<String, AllocError>
    ensures { IfOk result (λ s. string_bytes s ≡ part_text x width height) }
{
    format!(in alloc; "<svg x=\"{x}\" y=\"52\" width=\"{width}\" height=\"{height}\">\n")
}

/// Where the legend begins, below so many rows.
fn legend_height(rows: u64) -> u64
    ensures { result ≡ legend_height rows }
{
    rows_height(rows).saturating_add(68)
}

/// What begins the legend.
fn legend_front(alloc: Global, y: u64) -> Result<String, AllocError>
    ensures { IfOk result (λ s. string_bytes s ≡ legend_front y) }
{
    format!(in alloc; "<g transform=\"translate(160 {y})\">")
}

/// Adds what each kind of mark says, below so many rows.
fn push_legend(alloc: Global, page: &mut Vec<u8>, rows: u64) -> Result<(), AllocError>
    ensures { OnOk result (page.new.items ≡ page.old.items ++ legend_part rows) }
{
    let y = legend_height(rows);
    let front = legend_front(alloc, y)?;
    push(page, front.as_str())?;
    push(page, LEGEND)
}

/// How many lines there are.
pub(crate) fn rows_in(lines: &[Line]) -> u64
    ensures { result ≡ length (map seen lines.now) }
{
    lines.len() as u64
}

/// How many pixels lines are high.
fn height_of_lines(lines: &[Line]) -> u64
    ensures { result ≡ rows_height (length (map seen lines.now)) }
{
    rows_height(rows_in(lines))
}

/// Adds the labels of all lines.
fn push_labels_part(alloc: Global, page: &mut Vec<u8>, lines: &[Line]) -> Result<(), AllocError>
    ensures { OnOk result (page.new.items ≡ page.old.items ++ labels_part (map seen lines.now)) }
{
    let height = height_of_lines(lines);
    let part = part_text(alloc, 0, 156, height)?;
    push(page, part.as_str())?;
    push_labels(alloc, page, 11, lines)?;
    push(page, "</svg>")
}

/// Adds the packets and losses of all lines.
fn push_plot_part(
    alloc: Global,
    page: &mut Vec<u8>,
    frame: &Frame,
    lines: &[Line],
) -> Result<(), AllocError>
    ensures { OnOk result (page.new.items ≡ page.old.items ++ plot_part frame.now (map seen lines.now)) }
{
    let height = height_of_lines(lines);
    let part = part_text(alloc, 160, 800, height)?;
    push(page, part.as_str())?;
    push_rows(alloc, page, frame, 2, lines)?;
    push(page, "</svg>")
}

/// Adds the totals of all lines.
fn push_totals_part(alloc: Global, page: &mut Vec<u8>, lines: &[Line]) -> Result<(), AllocError>
    ensures { OnOk result (page.new.items ≡ page.old.items ++ totals_part (map seen lines.now)) }
{
    let height = height_of_lines(lines);
    let part = part_text(alloc, 966, 314, height)?;
    push(page, part.as_str())?;
    push_all_totals(alloc, page, 11, lines)?;
    push(page, "</svg>")
}

/// The text of lines in a frame, with so many faults.
pub(crate) fn drawing(
    alloc: Global,
    frame: &Frame,
    faults: u64,
    lines: &[Line],
) -> Result<Vec<u8>, AllocError>
    ensures { IfOk result (λ page. page.items ≡ drawing frame.now faults (map seen lines.now)) }
{
    let rows = rows_in(lines);
    let mut page = Vec::new(alloc);
    push_head(alloc, &mut page, rows, faults, faults_in(lines))?;
    push_scale(alloc, &mut page, first_offset(lines), frame)?;
    push_first_numbers(alloc, &mut page, frame, lines)?;
    push_labels_part(alloc, &mut page, lines)?;
    push_plot_part(alloc, &mut page, frame, lines)?;
    push_totals_part(alloc, &mut page, lines)?;
    push_legend(alloc, &mut page, rows)?;
    Ok(page)
}
