//! What a word of a declaration says of a field.

ghost use Rattle.std.specs.Prelude.{◌≡◌, ◌<◌, [], IfOk, map, option_map, pos};
ghost use Rattle.std.specs.List.{list_any, slice_split};
ghost use Rattle.tr_events.specs.Types.{are_labels_apart, counted, counted_by, is_byte, is_same_label, is_signed, is_value, is_whole, label_in, labelled, labels_among, labels_in, most_named, named_whole, number_named, parted_at, type_in, without_end};

use crate::event::Label;
use crate::layouts::{Form, Layout, MOST_COUNT, Number, Size, Sort};
use crate::numbers::{integer_in, number_in};
use std::alloc::{AllocError, Global};
use tr_terms::Name;

/// A layout, and the names of its values.
type Named = (Layout, Vec<Label>);

/// What is before the first such byte, and what is after it.
pub(crate) fn parted_at(text: &str, byte: char) -> Option<(&str, &str)>
    requires { byte < 128 }
    ensures { option_map (λ p. (p.0.now, p.1.now)) result ≡ parted_at byte text.now }
{
    text.split_once(byte)
}

/// The number's type of this name.
fn number_named(word: &str) -> Option<Number>
    ensures { result ≡ number_named word.now }
{
    let (sort, size) = match word {
        "u8" => (Sort::Unsigned, Size::Bits8),
        "u16" => (Sort::Unsigned, Size::Bits16),
        "u32" => (Sort::Unsigned, Size::Bits32),
        "u64" => (Sort::Unsigned, Size::Bits64),
        "i8" => (Sort::Signed, Size::Bits8),
        "i16" => (Sort::Signed, Size::Bits16),
        "i32" => (Sort::Signed, Size::Bits32),
        "i64" => (Sort::Signed, Size::Bits64),
        "x8" => (Sort::Hexadecimal, Size::Bits8),
        "x16" => (Sort::Hexadecimal, Size::Bits16),
        "x32" => (Sort::Hexadecimal, Size::Bits32),
        "x64" => (Sort::Hexadecimal, Size::Bits64),
        "f32" => (Sort::Floating, Size::Bits32),
        "f64" => (Sort::Floating, Size::Bits64),
        "flag" => (Sort::Flag, Size::Bits8),
        _ => return None,
    };
    Some(Number { sort, size })
}

/// Whether values of a number may have names.
fn is_whole(sort: Sort) -> bool
    ensures { result ≡ is_whole sort }
{
    match sort {
        Sort::Unsigned | Sort::Signed | Sort::Hexadecimal => true,
        Sort::Floating | Sort::Flag => false,
    }
}

/// The greatest value that may have a name.
fn most_named(sort: Sort, size: Size) -> i64
    ensures { result ≡ pos (most_named sort size) }
{
    match (sort, size) {
        (Sort::Signed, Size::Bits8) => i8::MAX as i64,
        (Sort::Signed, Size::Bits16) => i16::MAX as i64,
        (Sort::Signed, Size::Bits32) => i32::MAX as i64,
        (_, Size::Bits8) => u8::MAX as i64,
        (_, Size::Bits16) => u16::MAX as i64,
        (_, Size::Bits32) => u32::MAX as i64,
        (_, Size::Bits64) => i64::MAX,
    }
}

/// Whether a value of this type may have a name.
fn is_value(number: Number, value: i64) -> bool
    ensures { result ≡ is_value number value }
{
    let most = most_named(number.sort, number.size);
    if value >= 0 {
        value <= most
    } else {
        matches!(number.sort, Sort::Signed) && -1 - value <= most
    }
}

/// `NAME=VALUE`: the name of a value.
fn label_in(alloc: Global, number: Number, word: &str) -> Result<Option<Label>, AllocError>
    ensures { IfOk result (λ l. l ≡ label_in number word.now) }
{
    let Some((name, value)) = parted_at(word, '=') else {
        return Ok(None);
    };
    if Name::new(name).is_none() {
        return Ok(None);
    }
    let Some(value) = integer_in(value.as_bytes()) else {
        return Ok(None);
    };
    if !is_value(number, value) {
        return Ok(None);
    }
    Ok(Some(Label::new(String::from_str(alloc, name)?, value)))
}

/// Whether two labels can't stand together.
fn is_same_label(one: &Label, other: &Label) -> bool
    ensures { result ≡ is_same_label one.now other.now }
{
    one.name() == other.name() || one.value() == other.value()
}

/// Whether one of the labels can't stand with this one.
fn has_same(label: &Label, labels: &[Label]) -> bool
    ensures { result ≡ list_any (is_same_label label.now) labels.now }
{
    labels.iter().any(|other| is_same_label(label, other))
}

/// Whether no two labels have a name or a value in common.
fn are_labels_apart(labels: &[Label]) -> bool
    ensures { result ≡ are_labels_apart labels.now }
{
    let mut rest = labels;
    while let [first, others @ ..] = rest {
        if has_same(first, others) {
            return false;
        }
        rest = others;
    }
    true
}

/// The labels of these words.
fn labels_among(
    alloc: Global,
    number: Number,
    words: &[&str],
) -> Result<Option<Vec<Label>>, AllocError>
    ensures { IfOk result (λ ls. option_map (λ l. l.items) ls ≡ labels_among number (map (λ w. w.now) words.now)) }
{
    let mut labels = Vec::with_capacity(alloc, words.len())?;
    for word in words {
        let Some(label) = label_in(alloc, number, word)? else {
            return Ok(None);
        };
        labels.push(label)?;
    }
    Ok(Some(labels))
}

/// The parts of a text between commas.
fn between_commas<'a>(alloc: Global, text: &'a str) -> Result<Vec<&'a str>, AllocError>
    ensures { IfOk result (λ v. map (λ w. w.now) v.items ≡ slice_split (is_byte 44) text.entry.now) }
{
    text.split(',').collect(alloc)
}

/// `NAME=VALUE,NAME=VALUE`: the names of values.
fn labels_in(alloc: Global, number: Number, text: &str) -> Result<Option<Vec<Label>>, AllocError>
    ensures { IfOk result (λ ls. option_map (λ l. l.items) ls ≡ labels_in number text.now) }
{
    let words = between_commas(alloc, text)?;
    let Some(labels) = labels_among(alloc, number, &words)? else {
        return Ok(None);
    };
    if are_labels_apart(&labels) {
        Ok(Some(labels))
    } else {
        Ok(None)
    }
}

/// A number whose values have names: its type, a brace, and labels up to the closing one.
fn labelled(alloc: Global, word: &str, rest: &str) -> Result<Option<Named>, AllocError>
    ensures { IfOk result (λ t. option_map (λ t. (t.0, t.1.items)) t ≡ labelled word.now rest.now) }
{
    let Some(number) = number_named(word) else {
        return Ok(None);
    };
    if !is_whole(number.sort) {
        return Ok(None);
    }
    let Some(text) = rest.strip_suffix('}') else {
        return Ok(None);
    };
    let Some(labels) = labels_in(alloc, number, text)? else {
        return Ok(None);
    };
    Ok(Some((Layout::One(number), labels)))
}

/// As many numbers as the text between brackets says, or as a length before them.
fn counted_by(number: Number, text: &str) -> Option<Layout>
    ensures { option_map (λ l. (l, [])) result ≡ counted_by number text.now }
{
    if text.is_empty() {
        return Some(Layout::Sequence(number));
    }
    let count = u32::try_from(number_in(text.as_bytes())?).ok()?;
    if count == 0 {
        return None;
    }
    Some(Layout::Array(number, count))
}

/// Several numbers: their type, a bracket, and a count up to the closing one.
fn counted(word: &str, rest: &str) -> Option<Layout>
    ensures { option_map (λ l. (l, [])) result ≡ counted word.now rest.now }
{
    let number = number_named(word)?;
    counted_by(number, rest.strip_suffix(']')?)
}

/// A type in one word.
fn named_whole(word: &str) -> Option<Layout>
    ensures { option_map (λ l. (l, [])) result ≡ named_whole word.now }
{
    match word {
        "str" => Some(Layout::Text),
        "text" => Some(Layout::All(Form::AsText)),
        "bytes" => Some(Layout::All(Form::AsBytes)),
        _ => Some(Layout::One(number_named(word)?)),
    }
}

/// The type that a word names, with the names of its values. None if it names none.
pub(crate) fn type_in(alloc: Global, word: &str) -> Result<Option<Named>, AllocError>
    ensures { IfOk result (λ t. option_map (λ t. (t.0, t.1.items)) t ≡ type_in word.now) }
{
    if let Some((name, rest)) = parted_at(word, '{') {
        return labelled(alloc, name, rest);
    }
    let layout = match parted_at(word, '[') {
        Some((name, rest)) => counted(name, rest),
        None => named_whole(word),
    };
    Ok(layout.map(|layout| (layout, Vec::new(alloc))))
}
