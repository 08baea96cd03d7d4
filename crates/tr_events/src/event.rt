//! A declared event.

ghost use Rattle.std.specs.Prelude.{◌≡◌, ◌≤◌, IfOk, IfSome, Some, length};
ghost use Rattle.std.specs.Int.{byte_len};
ghost use Rattle.std.specs.String.{string_bytes};
ghost use Rattle.tr_record.specs.Reading.{Gives};
ghost use Rattle.tr_events.specs.Events.{atoms_behind, string_behind, behind, end_there, event, field, fits, label, exact, fixed, width_of};

use crate::layouts::{Layout, Number, Size};
use std::alloc::{AllocError, Allocator, Global};
use std::marker::Model;
use tr_record::u32_at;

/// A name for a value of a field. Contracts see it as a `Label`.
#[derive(Drop, Debug)]
pub struct Label<A: Allocator = Global> {
    text: String<A>,
    value: i64,
}

impl<A: Allocator> Model for Label<A> {
    ghost use Rattle.std.specs.String.{string_bytes};
    ghost use Rattle.tr_events.specs.Events.{Label, label};

    ghost Value = { Label };

    ghost view = { λ l. label (string_bytes l.text) l.value };
}

impl<A: Allocator> Label<A> {
    /// A name for this value. It takes no memory.
    pub(crate) fn new(text: String<A>, value: i64) -> Label<A>
        ensures { result ≡ label (string_bytes text) value }
    {
        Label { text, value }
    }

    /// The name.
    pub fn name(&self) -> &str
        ensures { result.now ≡ self.now.name }
    {
        self.text.as_str()
    }

    /// The value.
    pub fn value(&self) -> i64
        ensures { result ≡ self.now.value }
    {
        self.value
    }

    /// The same in other memory.
    pub(crate) fn copy<B: Allocator + Copy>(&self, alloc: B) -> Result<Label<B>, AllocError>
        ensures { IfOk result (λ label. label ≡ self.now) }
    {
        Ok(Label::new(String::from_str(alloc, &self.text)?, self.value))
    }
}

/// The same labels in other memory.
fn labels_copied<A: Allocator, B: Allocator + Copy>(
    alloc: B,
    labels: &[Label<A>],
) -> Result<Vec<Label<B>, B>, AllocError>
    ensures { IfOk result (λ copies. copies.items ≡ labels.now) }
{
    let mut copies = Vec::with_capacity(alloc, labels.len())?;
    for label in labels {
        copies.push(label.copy(alloc)?)?;
    }
    Ok(copies)
}

/// A field. Contracts see it as a `Field`.
#[derive(Drop, Debug)]
pub struct Field<A: Allocator = Global> {
    name: String<A>,
    layout: Layout,
    labels: Vec<Label<A>, A>,
}

impl<A: Allocator> Model for Field<A> {
    ghost use Rattle.std.specs.String.{string_bytes};
    ghost use Rattle.tr_events.specs.Events.{Field, field};

    ghost Value = { Field };

    ghost view = { λ f. field (string_bytes f.name) f.layout f.labels.items };
}

impl<A: Allocator> Field<A> {
    /// A field with names for its values, if it is a number. It takes no memory.
    pub(crate) fn new(name: String<A>, layout: Layout, labels: Vec<Label<A>, A>) -> Field<A>
        ensures { result ≡ field (string_bytes name) layout labels.items }
    {
        Field {
            name,
            layout,
            labels,
        }
    }

    /// The name.
    pub fn name(&self) -> &str
        ensures { result.now ≡ self.now.name }
    {
        &self.name
    }

    /// How it is laid out.
    pub fn layout(&self) -> Layout
        ensures { result ≡ self.now.layout }
    {
        self.layout
    }

    /// The names of its values.
    pub fn labels(&self) -> &[Label<A>]
        ensures { result.now ≡ self.now.labels }
    {
        self.labels.as_slice()
    }

    /// The same in other memory.
    pub(crate) fn copy<B: Allocator + Copy>(&self, alloc: B) -> Result<Field<B>, AllocError>
        ensures { IfOk result (λ field. field ≡ self.now) }
    {
        let labels = labels_copied(alloc, &self.labels)?;
        Ok(Field::new(String::from_str(alloc, &self.name)?, self.layout, labels))
    }
}

/// The same fields in other memory.
fn fields_copied<A: Allocator, B: Allocator + Copy>(
    alloc: B,
    fields: &[Field<A>],
) -> Result<Vec<Field<B>, B>, AllocError>
    ensures { IfOk result (λ copies. copies.items ≡ fields.now) }
{
    let mut copies = Vec::with_capacity(alloc, fields.len())?;
    for field in fields {
        copies.push(field.copy(alloc)?)?;
    }
    Ok(copies)
}

/// A declared event: its fields stand one after another, without padding. Contracts see it as an `Event`.
#[derive(Drop, Debug)]
pub struct Event<A: Allocator = Global> {
    name: String<A>,
    id: u32,
    fields: Vec<Field<A>, A>,
    // How many bytes the fields have, if that is known.
    size: Option<u64>,
}

impl<A: Allocator> Model for Event<A> {
    ghost use Rattle.std.specs.Prelude.{◌≡◌, IfSome, Some};
    ghost use Rattle.std.specs.String.{string_bytes};
    ghost use Rattle.tr_events.specs.Events.{Event, event, exact};

    ghost Value = { Event };

    ghost view = { λ e. event (string_bytes e.name) e.id e.fields.items };

    ghost invariant = { λ e. IfSome e.size (λ n. exact e.fields.items ≡ Some n) };
}

/// The bytes of a number.
pub(crate) fn size_of(number: Number) -> u64
    ensures value { result ≡ byte_len (width_of number.size) }
    ensures most { result ≤ 8 }
{
    match number.size {
        Size::Bits8 => 1,
        Size::Bits16 => 2,
        Size::Bits32 => 4,
        Size::Bits64 => 8,
    }
}

/// The bytes behind so many numbers of this type. None if there are fewer.
fn numbers_behind(number: Number, count: u32, bytes: &[u8]) -> Option<&[u8]>
    ensures { Gives (λ r. r.now) result (atoms_behind number count bytes.now) }
{
    let size = count as u64 * size_of(number);
    let (_, rest) = bytes.split_at_checked(size as usize)?;
    Some(rest)
}

/// The bytes behind the first zero byte. None if there is none.
fn text_behind(bytes: &[u8]) -> Option<&[u8]>
    ensures { Gives (λ r. r.now) result (string_behind bytes.now) }
{
    let mut rest = bytes;
    while let Some((first, after)) = rest.split_first() {
        if *first == 0 {
            return Some(after);
        }
        rest = after;
    }
    None
}

/// The bytes behind a field that begins with these. None if they are too few.
fn field_behind(layout: Layout, bytes: &[u8]) -> Option<&[u8]>
    ensures { Gives (λ r. r.now) result (behind layout bytes.now) }
{
    match layout {
        Layout::One(number) => numbers_behind(number, 1, bytes),
        Layout::Array(number, count) => numbers_behind(number, count, bytes),
        Layout::Sequence(number) => {
            let (count, rest) = u32_at(bytes)?;
            numbers_behind(number, count, rest)
        }
        Layout::Text => text_behind(bytes),
        Layout::All(_) => Some(&bytes[bytes.len()..]),
    }
}

/// The size of a field that has but one.
fn fixed_size(layout: Layout) -> Option<u64>
    ensures { result ≡ fixed layout }
{
    match layout {
        Layout::One(number) => Some(size_of(number)),
        Layout::Array(number, count) => Some(count as u64 * size_of(number)),
        Layout::Sequence(_) | Layout::Text | Layout::All(_) => None,
    }
}

/// The size of fields, if each has but one, and the sum is below 2^64.
fn exact_size<A: Allocator>(fields: &[Field<A>]) -> Option<u64>
    ensures { IfSome result (λ n. exact fields.now ≡ Some n) }
{
    let mut total: u64 = 0;
    for field in fields {
        let size = fixed_size(field.layout)?;
        total = total.checked_add(size)?;
    }
    Some(total)
}

/// Whether the fields end where the payload ends.
fn end_there<A: Allocator>(fields: &[Field<A>], payload: &[u8]) -> bool
    ensures { result ≡ end_there fields.now payload.now }
{
    let mut rest = payload;
    for field in fields {
        let Some(after) = field_behind(field.layout, rest) else {
            return false;
        };
        rest = after;
    }
    rest.is_empty()
}

impl<A: Allocator> Event<A> {
    /// An event with these fields. It takes no memory.
    pub(crate) fn new(name: String<A>, id: u32, fields: Vec<Field<A>, A>) -> Event<A>
        ensures { result ≡ event (string_bytes name) id fields.items }
    {
        let size = exact_size(&fields);
        Event {
            name,
            id,
            fields,
            size,
        }
    }

    /// The name.
    pub fn name(&self) -> &str
        ensures { result.now ≡ self.now.name }
    {
        self.name.as_str()
    }

    /// The fields, in order.
    pub fn fields(&self) -> &[Field<A>]
        ensures { result.now ≡ self.now.fields }
    {
        self.fields.as_slice()
    }

    /// The id of its records.
    pub fn id(&self) -> u32
        ensures { result ≡ self.now.id }
    {
        self.id
    }

    /// The size of its payloads, if they have but one and it is known.
    pub(crate) fn size(&self) -> Option<u64>
        ensures { IfSome result (λ n. exact self.now.fields ≡ Some n) }
    {
        self.size
    }

    /// Whether the fields are all of the payload. It takes no memory.
    pub fn fits(&self, payload: &[u8]) -> bool
        ensures { result ≡ fits self.now payload.now }
    {
        match self.size {
            Some(size) => payload.len() as u64 == size,
            None => end_there(&self.fields, payload),
        }
    }

    /// The same in other memory.
    pub(crate) fn copy<B: Allocator + Copy>(&self, alloc: B) -> Result<Event<B>, AllocError>
        ensures { IfOk result (λ event. event ≡ self.now) }
    {
        let fields = fields_copied(alloc, &self.fields)?;
        Ok(Event::new(String::from_str(alloc, &self.name)?, self.id, fields))
    }
}
