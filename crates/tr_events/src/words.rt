//! Declarations as text.

ghost use Rattle.std.specs.Prelude.{◌≡◌, ◌++◌, ◌∷◌, OnOk};
ghost use Rattle.std.specs.List.{flat_map};
ghost use Rattle.std.specs.String.{string_bytes};
ghost use Rattle.tr_events.specs.Words.{number_word, label_word, labels_word, layout_word, field_word, event_word, event_line, label_rest, env_line, declarations_text};

use crate::event::{Event, Field, Label};
use crate::events::Events;
use crate::layouts::{Form, Layout, Number, Size, Sort};
use crate::variables::Variable;
use std::alloc::{AllocError, Allocator};

pub(crate) fn push<A: Allocator>(text: &mut String<A>, more: &str) -> Result<(), AllocError>
    ensures { OnOk result (string_bytes text.new ≡ string_bytes text.old ++ more.now) }
{
    text.push_str(more)
}

/// A number's type in a declaration.
pub fn number_word(number: Number) -> &'static str
    ensures { result.now ≡ number_word number }
{
    match (number.sort, number.size) {
        (Sort::Unsigned, Size::Bits8) => "u8",
        (Sort::Unsigned, Size::Bits16) => "u16",
        (Sort::Unsigned, Size::Bits32) => "u32",
        (Sort::Unsigned, Size::Bits64) => "u64",
        (Sort::Signed, Size::Bits8) => "i8",
        (Sort::Signed, Size::Bits16) => "i16",
        (Sort::Signed, Size::Bits32) => "i32",
        (Sort::Signed, Size::Bits64) => "i64",
        (Sort::Hexadecimal, Size::Bits8) => "x8",
        (Sort::Hexadecimal, Size::Bits16) => "x16",
        (Sort::Hexadecimal, Size::Bits32) => "x32",
        (Sort::Hexadecimal, Size::Bits64) => "x64",
        (Sort::Floating, Size::Bits8) => "f8",
        (Sort::Floating, Size::Bits16) => "f16",
        (Sort::Floating, Size::Bits32) => "f32",
        (Sort::Floating, Size::Bits64) => "f64",
        (Sort::Flag, _) => "flag",
    }
}

/// Adds a label after another one.
fn push_label_rest<A: Allocator, B: Allocator>(
    text: &mut String<B>,
    label: &Label<A>,
) -> Result<(), AllocError>
    ensures { OnOk result (string_bytes text.new ≡ string_bytes text.old ++ label_rest label.now) }
{
    write!(text, ",{}={}", label.name(), label.value())
}

/// Adds the labels after another one.
fn push_label_rests<A: Allocator, B: Allocator>(
    text: &mut String<B>,
    labels: &[Label<A>],
) -> Result<(), AllocError>
    ensures { OnOk result (string_bytes text.new ≡ string_bytes text.old ++ flat_map label_rest labels.now) }
{
    for label in labels {
        push_label_rest(text, label)?;
    }
    Ok(())
}

/// Adds the first label, after a brace.
fn push_label_first<A: Allocator, B: Allocator>(
    text: &mut String<B>,
    label: &Label<A>,
) -> Result<(), AllocError>
    ensures { OnOk result (string_bytes text.new ≡ string_bytes text.old ++ (123 ∷ label_word label.now)) }
{
    write!(text, "{{{}={}", label.name(), label.value())
}

/// Adds these labels, in braces.
fn push_labels<A: Allocator, B: Allocator>(
    text: &mut String<B>,
    first: &Label<A>,
    rest: &[Label<A>],
) -> Result<(), AllocError>
    ensures { OnOk result (string_bytes text.new ≡ string_bytes text.old ++ labels_word (first.now ∷ rest.now)) }
{
    push_label_first(text, first)?;
    push_label_rests(text, rest)?;
    push(text, "}")
}

/// Adds the labels of a field, in braces, if there are any.
fn push_labels_word<A: Allocator, B: Allocator>(
    text: &mut String<B>,
    labels: &[Label<A>],
) -> Result<(), AllocError>
    ensures { OnOk result (string_bytes text.new ≡ string_bytes text.old ++ labels_word labels.now) }
{
    match labels {
        [] => Ok(()),
        [first, rest @ ..] => push_labels(text, first, rest),
    }
}

/// Adds the type of a field.
fn push_layout_word<A: Allocator, B: Allocator>(
    text: &mut String<B>,
    layout: Layout,
    labels: &[Label<A>],
) -> Result<(), AllocError>
    ensures { OnOk result (string_bytes text.new ≡ string_bytes text.old ++ layout_word layout labels.now) }
{
    match layout {
        Layout::One(number) => {
            push(text, number_word(number))?;
            push_labels_word(text, labels)
        }
        Layout::Array(number, count) => write!(text, "{}[{}]", number_word(number), count),
        Layout::Sequence(number) => write!(text, "{}[]", number_word(number)),
        Layout::Text => push(text, "str"),
        Layout::All(Form::AsText) => push(text, "text"),
        Layout::All(Form::AsBytes) => push(text, "bytes"),
    }
}

/// Adds a space, a field's name, a colon and its type.
fn push_field_word<A: Allocator, B: Allocator>(
    text: &mut String<B>,
    field: &Field<A>,
) -> Result<(), AllocError>
    ensures { OnOk result (string_bytes text.new ≡ string_bytes text.old ++ field_word field.now) }
{
    write!(text, " {}:", field.name())?;
    push_layout_word(text, field.layout(), field.labels())
}

/// Adds the fields of a declaration.
fn push_field_words<A: Allocator, B: Allocator>(
    text: &mut String<B>,
    fields: &[Field<A>],
) -> Result<(), AllocError>
    ensures { OnOk result (string_bytes text.new ≡ string_bytes text.old ++ flat_map field_word fields.now) }
{
    for field in fields {
        push_field_word(text, field)?;
    }
    Ok(())
}

/// Adds the name and the id of a declaration.
fn push_event_word<A: Allocator, B: Allocator>(
    text: &mut String<B>,
    event: &Event<A>,
) -> Result<(), AllocError>
    ensures { OnOk result (string_bytes text.new ≡ string_bytes text.old ++ event_word event.now) }
{
    write!(text, "{} {}", event.name(), event.id())
}

/// Adds a declaration.
fn push_event_line<A: Allocator, B: Allocator>(
    text: &mut String<B>,
    event: &Event<A>,
) -> Result<(), AllocError>
    ensures { OnOk result (string_bytes text.new ≡ string_bytes text.old ++ event_line event.now) }
{
    push_event_word(text, event)?;
    push_field_words(text, event.fields())?;
    push(text, "\n")
}

/// Adds the declarations of events.
pub fn push_event_lines<A: Allocator, B: Allocator>(
    text: &mut String<B>,
    events: &[Event<A>],
) -> Result<(), AllocError>
    ensures { OnOk result (string_bytes text.new ≡ string_bytes text.old ++ flat_map event_line events.now) }
{
    for event in events {
        push_event_line(text, event)?;
    }
    Ok(())
}

/// Adds the declaration of a variable.
fn push_env_line<A: Allocator, B: Allocator>(
    text: &mut String<B>,
    variable: &Variable<A>,
) -> Result<(), AllocError>
    ensures { OnOk result (string_bytes text.new ≡ string_bytes text.old ++ env_line variable.now) }
{
    write!(text, "env {} {}\n", variable.name(), variable.value())
}

/// Adds the declarations of variables.
fn push_env_lines<A: Allocator, B: Allocator>(
    text: &mut String<B>,
    env: &[Variable<A>],
) -> Result<(), AllocError>
    ensures { OnOk result (string_bytes text.new ≡ string_bytes text.old ++ flat_map env_line env.now) }
{
    for variable in env {
        push_env_line(text, variable)?;
    }
    Ok(())
}

/// Adds all declarations: a line for each variable, and then one for each event. By them the same is declared again.
pub fn push_declarations<A: Allocator, B: Allocator>(
    text: &mut String<B>,
    events: &Events<A>,
) -> Result<(), AllocError>
    ensures { OnOk result (string_bytes text.new ≡ string_bytes text.old ++ declarations_text events.now) }
{
    push_env_lines(text, events.env())?;
    push_event_lines(text, events.list())
}
