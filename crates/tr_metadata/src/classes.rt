//! The classes of declared events, and the ids that they have.

ghost use Rattle.std.specs.Prelude.{◌≡◌, ◌++◌, ◌∷◌, [], codes, IfOk, OnOk};
ghost use Rattle.std.specs.List.{flat_map};
ghost use Rattle.std.specs.String.{string_bytes};
ghost use Rattle.tr_metadata.specs.Metadata.{comment_text, label_text, label_text_rest, scalar_text, field_text, class_begin_text, class_text, range_text, range_rest, ranges_text};
ghost use Rattle.tr_metadata.specs.Reader.{gap, ranges_from};

use crate::ranges::Range;
use crate::recovery::COMMENT;
use std::alloc::{AllocError, Allocator};
use tr_events::{
    Event, Events, Field, Form, Label, Layout, MOST_ID, number_word, push_declarations,
};

pub(crate) fn push<A: Allocator>(text: &mut String<A>, more: &str) -> Result<(), AllocError>
    ensures { OnOk result (string_bytes text.new ≡ string_bytes text.old ++ more.now) }
{
    text.push_str(more)
}

/// Adds the comment that has the declarations.
pub(crate) fn push_comment<A: Allocator, B: Allocator>(
    text: &mut String<B>,
    events: &Events<A>,
) -> Result<(), AllocError>
    ensures { OnOk result (string_bytes text.new ≡ string_bytes text.old ++ comment_text events.now) }
{
    push(text, COMMENT)?;
    push_declarations(text, events)?;
    push(text, "*/\n\n")
}

/// Adds the range of ids from `from` on and below `to`, if there are any.
fn add_gap<A: Allocator>(ranges: &mut Vec<Range, A>, from: u64, to: u64) -> Result<(), AllocError>
    ensures { OnOk result (ranges.new.items ≡ ranges.old.items ++ gap from to) }
{
    if to <= from {
        return Ok(());
    }
    ranges.push(Range {
        declared: false,
        low: from,
        high: to - 1,
    })?;
    Ok(())
}

/// The ranges of declared ids and of others.
pub(crate) fn ranges_of<A: Allocator, B: Allocator>(
    alloc: B,
    events: &[Event<A>],
) -> Result<Vec<Range, B>, AllocError>
    ensures { IfOk result (λ r. r.items ≡ ranges_from 0 events.now) }
{
    let mut ranges = Vec::new(alloc);
    let mut from = 0;
    for event in events {
        let id = event.id() as u64;
        add_gap(&mut ranges, from, id)?;
        ranges.push(Range {
            declared: true,
            low: id,
            high: id,
        })?;
        from = id + 1;
    }
    add_gap(&mut ranges, from, MOST_ID as u64 + 1)?;
    Ok(ranges)
}

/// Adds a range.
fn push_range<A: Allocator>(text: &mut String<A>, range: Range) -> Result<(), AllocError>
    ensures { OnOk result (string_bytes text.new ≡ string_bytes text.old ++ range_text range) }
{
    if range.declared {
        write!(text, "      declared = {} ... {}", range.low, range.high)
    } else {
        write!(text, "      other = {} ... {}", range.low, range.high)
    }
}

/// Adds a range after another one.
fn push_range_rest<A: Allocator>(text: &mut String<A>, range: Range) -> Result<(), AllocError>
    ensures { OnOk result (string_bytes text.new ≡ string_bytes text.old ++ range_rest range) }
{
    push(text, ",\n")?;
    push_range(text, range)
}

/// Adds ranges after another one.
fn push_range_rests<A: Allocator>(text: &mut String<A>, ranges: &[Range]) -> Result<(), AllocError>
    ensures { OnOk result (string_bytes text.new ≡ string_bytes text.old ++ flat_map range_rest ranges.now) }
{
    for range in ranges {
        push_range_rest(text, *range)?;
    }
    Ok(())
}

/// Adds these ranges.
fn push_some_ranges<A: Allocator>(
    text: &mut String<A>,
    first: Range,
    rest: &[Range],
) -> Result<(), AllocError>
    ensures { OnOk result (string_bytes text.new ≡ string_bytes text.old ++ ranges_text (first ∷ rest.now)) }
{
    push_range(text, first)?;
    push_range_rests(text, rest)?;
    push(text, "\n")
}

/// Adds all ranges.
pub(crate) fn push_ranges<A: Allocator>(
    text: &mut String<A>,
    ranges: &[Range],
) -> Result<(), AllocError>
    ensures { OnOk result (string_bytes text.new ≡ string_bytes text.old ++ ranges_text ranges.now) }
{
    match ranges {
        [] => Ok(()),
        [first, rest @ ..] => push_some_ranges(text, *first, rest),
    }
}

/// Adds a label of an enum.
fn push_label_text<A: Allocator, B: Allocator>(
    text: &mut String<B>,
    label: &Label<A>,
) -> Result<(), AllocError>
    ensures { OnOk result (string_bytes text.new ≡ string_bytes text.old ++ label_text label.now) }
{
    write!(text, "\"{}\" = {}", label.name(), label.value())
}

/// Adds a label of an enum after another one.
fn push_label_text_rest<A: Allocator, B: Allocator>(
    text: &mut String<B>,
    label: &Label<A>,
) -> Result<(), AllocError>
    ensures { OnOk result (string_bytes text.new ≡ string_bytes text.old ++ label_text_rest label.now) }
{
    write!(text, ", \"{}\" = {}", label.name(), label.value())
}

/// Adds labels of an enum after another one.
fn push_label_text_rests<A: Allocator, B: Allocator>(
    text: &mut String<B>,
    labels: &[Label<A>],
) -> Result<(), AllocError>
    ensures { OnOk result (string_bytes text.new ≡ string_bytes text.old ++ flat_map label_text_rest labels.now) }
{
    for label in labels {
        push_label_text_rest(text, label)?;
    }
    Ok(())
}

/// Adds the labels of an enum, up to its closing brace.
fn push_enum<A: Allocator, B: Allocator>(
    text: &mut String<B>,
    first: &Label<A>,
    rest: &[Label<A>],
) -> Result<(), AllocError>
    ensures { OnOk result (string_bytes text.new
        ≡ string_bytes text.old ++ (label_text first.now ++ (flat_map label_text_rest rest.now ++ codes " }"))) }
{
    push_label_text(text, first)?;
    push_label_text_rests(text, rest)?;
    push(text, " }")
}

/// Adds an enum's type.
fn push_named<A: Allocator, B: Allocator>(
    text: &mut String<B>,
    word: &str,
    first: &Label<A>,
    rest: &[Label<A>],
) -> Result<(), AllocError>
    ensures { OnOk result (string_bytes text.new ≡ string_bytes text.old ++ scalar_text word.now (first.now ∷ rest.now)) }
{
    write!(text, "enum : {word}_t {{ ")?;
    push_enum(text, first, rest)
}

/// Adds a number's type.
fn push_scalar<A: Allocator, B: Allocator>(
    text: &mut String<B>,
    word: &str,
    labels: &[Label<A>],
) -> Result<(), AllocError>
    ensures { OnOk result (string_bytes text.new ≡ string_bytes text.old ++ scalar_text word.now labels.now) }
{
    match labels {
        [] => write!(text, "{word}_t"),
        [first, rest @ ..] => push_named(text, word, first, rest),
    }
}

/// Adds a field that is a number.
fn push_one<A: Allocator, B: Allocator>(
    text: &mut String<B>,
    word: &str,
    name: &str,
    labels: &[Label<A>],
) -> Result<(), AllocError>
    ensures { OnOk result (string_bytes text.new
        ≡ string_bytes text.old ++ (codes "    " ++ (scalar_text word.now labels.now ++ (codes " _" ++ (name.now ++ codes ";\n"))))) }
{
    push(text, "    ")?;
    push_scalar(text, word, labels)?;
    write!(text, " _{name};\n")
}

/// Adds the members of a sequence.
fn push_sequence<A: Allocator>(
    text: &mut String<A>,
    name: &str,
    word: &str,
) -> Result<(), AllocError>
    ensures { OnOk result (string_bytes text.new ≡ string_bytes text.old ++ (codes "    u32_t _" ++ (name.now
        ++ (codes "_length;\n    " ++ (word.now ++ (codes "_t _" ++ (name.now ++ (codes "[_" ++ (name.now ++ codes "_length];\n"))))))))) }
{
    write!(
        text,
        "    u32_t _{name}_length;\n    {word}_t _{name}[_{name}_length];\n"
    )
}

/// Adds the members of a field.
fn push_field<A: Allocator, B: Allocator>(
    text: &mut String<B>,
    field: &Field<A>,
) -> Result<(), AllocError>
    ensures { OnOk result (string_bytes text.new ≡ string_bytes text.old ++ field_text field.now) }
{
    let name = field.name();
    match field.layout() {
        Layout::One(number) => push_one(text, number_word(number), name, field.labels()),
        Layout::Array(number, count) => {
            write!(text, "    {}_t _{name}[{count}];\n", number_word(number))
        }
        Layout::Sequence(number) => push_sequence(text, name, number_word(number)),
        Layout::Text => write!(text, "    text_t _{name};\n"),
        Layout::All(Form::AsText) => write!(text, "    char_t _{name}[len];\n"),
        Layout::All(Form::AsBytes) => write!(text, "    x8_t _{name}[len];\n"),
    }
}

/// Adds the members of fields.
fn push_fields<A: Allocator, B: Allocator>(
    text: &mut String<B>,
    fields: &[Field<A>],
) -> Result<(), AllocError>
    ensures { OnOk result (string_bytes text.new ≡ string_bytes text.old ++ flat_map field_text fields.now) }
{
    for field in fields {
        push_field(text, field)?;
    }
    Ok(())
}

/// Adds a class up to its fields.
fn push_class_begin<A: Allocator, B: Allocator>(
    text: &mut String<B>,
    event: &Event<A>,
) -> Result<(), AllocError>
    ensures { OnOk result (string_bytes text.new ≡ string_bytes text.old ++ class_begin_text event.now) }
{
    write!(
        text,
        "\nevent {{\n  name = \"{}\";\n  id = {};\n  stream_id = 0;\n  fields := struct {{\n    uint64_t serial;\n    uint32_t len;\n",
        event.name(),
        event.id()
    )
}

/// Adds the class of a declared event.
fn push_class<A: Allocator, B: Allocator>(
    text: &mut String<B>,
    event: &Event<A>,
) -> Result<(), AllocError>
    ensures { OnOk result (string_bytes text.new ≡ string_bytes text.old ++ class_text event.now) }
{
    push_class_begin(text, event)?;
    push_fields(text, event.fields())?;
    push(text, "  };\n};\n")
}

/// Adds the classes of declared events.
pub(crate) fn push_classes<A: Allocator, B: Allocator>(
    text: &mut String<B>,
    events: &[Event<A>],
) -> Result<(), AllocError>
    ensures { OnOk result (string_bytes text.new ≡ string_bytes text.old ++ flat_map class_text events.now) }
{
    for event in events {
        push_class(text, event)?;
    }
    Ok(())
}
