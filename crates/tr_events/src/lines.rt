//! What the lines of a text declare.

ghost use Rattle.std.specs.Prelude.{◌≡◌, ◌++◌, [], IfOk, OnOk, Ok, map, nat_le};
ghost use Rattle.std.specs.List.{flat_map};
ghost use Rattle.std.specs.Option.{option_and_then};
ghost use Rattle.std.specs.String.{string_bytes};
ghost use Rattle.tr_events.specs.Numbers.{number_of};
ghost use Rattle.tr_events.specs.Lines.{added, env_in, given, after_line, after_lines, are_names_apart, checked, event_by, event_in, field_in, fields_in, id_if, is_among_names, is_event_name, is_field_name, is_taken, least, least_of, listed, names_of, placed, unless, with_env, with_events};
ghost use Rattle.tr_events.specs.Events.{declarations, nothing};
ghost use Rattle.tr_events.specs.declared.layouts.TheConstants.{MOST_PAYLOAD};

use crate::env::{env_in, give, is_env};
use crate::event::{Event, Field, size_of};
use crate::events::is_apart;
use crate::faults::{EventFault, LineFault};
use crate::layouts::{Layout, MOST_EVENTS, MOST_FIELDS, MOST_PAYLOAD};
use crate::numbers::number_in;
use crate::types::{parted_at, type_in};
use crate::variables::Variable;
use std::alloc::{AllocError, Global};
use std::marker::Model;
use tr_lines::{Words, has_only_printable, is_skipped_line, push_words};
use tr_terms::Name;

/// Whether a field may have this name.
fn is_field_name(name: &str) -> bool
    ensures { result ≡ is_field_name name.now }
{
    Name::new(name).is_some() && name != "serial" && name != "len"
}

/// The field that a word declares.
fn field_in(alloc: Global, word: &str) -> Result<Result<Field, EventFault>, AllocError>
    ensures { IfOk result (λ f. f ≡ field_in word.now) }
{
    let Some((name, kind)) = parted_at(word, ':') else {
        return Ok(Err(EventFault::BadField));
    };
    if !is_field_name(name) {
        return Ok(Err(EventFault::BadField));
    }
    let Some((layout, labels)) = type_in(alloc, kind)? else {
        return Ok(Err(EventFault::BadType));
    };
    Ok(Ok(Field::new(String::from_str(alloc, name)?, layout, labels)))
}

/// The fields that words declare.
fn fields_in(alloc: Global, words: &[&str]) -> Result<Result<Vec<Field>, EventFault>, AllocError>
    ensures { IfOk result (λ fs. listed fs ≡ fields_in (map (λ w. w.now) words.now)) }
{
    let mut fields = Vec::with_capacity(alloc, words.len())?;
    for word in words {
        match field_in(alloc, word)? {
            Ok(field) => fields.push(field)?,
            Err(fault) => return Ok(Err(fault)),
        }
    }
    Ok(Ok(fields))
}

/// Adds the names that readers see of a field.
fn add_names(alloc: Global, names: &mut Vec<String>, field: &Field) -> Result<(), AllocError>
    ensures { OnOk result (map string_bytes names.new.items ≡ map string_bytes names.old.items ++ names_of field.now) }
{
    names.push(String::from_str(alloc, field.name())?)?;
    if let Layout::Sequence(_) = field.layout() {
        let mut length = String::from_str(alloc, field.name())?;
        length.push_str("_length")?;
        names.push(length)?;
    }
    Ok(())
}

/// The names that readers see of fields.
fn names_seen(alloc: Global, fields: &[Field]) -> Result<Vec<String>, AllocError>
    ensures { IfOk result (λ names. map string_bytes names.items ≡ flat_map names_of fields.now) }
{
    let mut names = Vec::new(alloc);
    for field in fields {
        add_names(alloc, &mut names, field)?;
    }
    Ok(names)
}

/// Whether one of the names is this one.
fn is_among(names: &[String], name: &str) -> bool
    ensures { result ≡ is_among_names (map string_bytes names.now) name.now }
{
    for other in names {
        if name == other.as_str() {
            return true;
        }
    }
    false
}

/// Whether each name is there once.
fn are_names_apart(names: &[String]) -> bool
    ensures { result ≡ are_names_apart (map string_bytes names.now) }
{
    let mut rest = names;
    while let [first, others @ ..] = rest {
        if is_among(others, first.as_str()) {
            return false;
        }
        rest = others;
    }
    true
}

/// The fewest bytes of a field.
fn least_of(layout: Layout) -> u64
    ensures { result ≡ least_of layout }
{
    match layout {
        Layout::One(number) => size_of(number),
        Layout::Array(number, count) => count as u64 * size_of(number),
        Layout::Sequence(_) => 4,
        Layout::Text => 1,
        Layout::All(_) => 0,
    }
}

/// Whether a record of these fields fits into a packet.
fn is_small(fields: &[Field]) -> bool
    ensures { result ≡ nat_le (least fields.now) MOST_PAYLOAD }
{
    let mut left = MOST_PAYLOAD;
    for field in fields {
        let least = least_of(field.layout());
        if least > left {
            return false;
        }
        left -= least;
    }
    true
}

/// Why an event can't have its fields, if it can't.
fn fault_of(alloc: Global, event: &Event) -> Result<Option<EventFault>, AllocError>
    ensures { IfOk result (λ fault. unless fault event.now ≡ checked event.now) }
{
    let names = names_seen(alloc, event.fields())?;
    if !are_names_apart(&names) {
        return Ok(Some(EventFault::FieldTwice));
    }
    if !is_apart(event.fields()) {
        return Ok(Some(EventFault::NotAlone));
    }
    if event.fields().len() > MOST_FIELDS || !is_small(event.fields()) {
        return Ok(Some(EventFault::TooMany));
    }
    Ok(None)
}

/// Whether an event may have this name.
fn is_event_name(name: &str) -> bool
    ensures { result ≡ is_event_name name.now }
{
    Name::new(name).is_some() && name != "record"
}

/// The event of this name and id with the fields that words declare.
fn event_with(
    alloc: Global,
    name: &str,
    id: u32,
    words: &[&str],
) -> Result<Result<Event, EventFault>, AllocError>
    ensures { IfOk result (λ e. e ≡ event_by name.now id (fields_in (map (λ w. w.now) words.now))) }
{
    let fields = match fields_in(alloc, words)? {
        Ok(fields) => fields,
        Err(fault) => return Ok(Err(fault)),
    };
    let event = Event::new(String::from_str(alloc, name)?, id, fields);
    match fault_of(alloc, &event)? {
        Some(fault) => Ok(Err(fault)),
        None => Ok(Ok(event)),
    }
}

/// The id that a word writes.
fn id_in(word: &str) -> Option<u32>
    ensures { result ≡ option_and_then id_if (number_of word.now) }
{
    match u32::try_from(number_in(word.as_bytes())?) {
        Ok(id) if id > 0 => Some(id),
        _ => None,
    }
}

/// The event that the words of a line declare.
fn event_in(alloc: Global, words: &[&str]) -> Result<Result<Event, EventFault>, AllocError>
    ensures { IfOk result (λ e. e ≡ event_in (map (λ w. w.now) words.now)) }
{
    match words {
        [] | [_] => Ok(Err(EventFault::BadEvent)),
        [name, id, fields @ ..] => match id_in(id) {
            Some(id) if is_event_name(name) => event_with(alloc, name, id, fields),
            _ => Ok(Err(EventFault::BadEvent)),
        },
    }
}

/// Whether one of the events has this one's id or its name.
fn is_taken(event: &Event, events: &[Event]) -> bool
    ensures { result ≡ is_taken event.now events.now }
{
    events.iter().any(|other| other.id() == event.id() || other.name() == event.name())
}

/// Adds an event, in the order of ids.
fn place(event: Event, events: &mut Vec<Event>) -> Result<(), AllocError>
    ensures { OnOk result (events.new.items ≡ placed event events.old.items) }
{
    let mut at = 0;
    while at < events.len() && events[at].id() <= event.id() {
        at += 1;
    }
    events.insert(at, event)?;
    Ok(())
}

/// Adds an event, unless it can't be added.
fn add(event: Event, events: &mut Vec<Event>) -> Result<Option<EventFault>, AllocError>
    ensures { IfOk result (λ fault. unless fault events.new.items ≡ added events.old.items (Ok event)) }
{
    if is_taken(&event, events) {
        return Ok(Some(EventFault::EventTaken));
    }
    if events.len() >= MOST_EVENTS {
        return Ok(Some(EventFault::TooMany));
    }
    place(event, events)?;
    Ok(None)
}

/// What the lines so far declare. Contracts see it as `Declarations`.
#[derive(Drop)]
pub(crate) struct Draft {
    pub(crate) env: Vec<Variable>,
    pub(crate) events: Vec<Event>,
}

impl Model for Draft {
    ghost use Rattle.tr_events.specs.Events.{Declarations, declarations};

    ghost Value = { Declarations };

    ghost view = { λ d. declarations d.env.items d.events.items };
}

impl Draft {
    /// Adds the variable that words declare.
    fn add_variable(
        &mut self,
        alloc: Global,
        words: &[&str],
    ) -> Result<Option<EventFault>, AllocError>
        ensures { IfOk result
            (λ fault. unless fault self.new ≡ with_env self.old (given self.old.env (env_in (map (λ w. w.now) words.now)))) }
    {
        match env_in(alloc, words)? {
            Ok(variable) => give(variable, &mut self.env),
            Err(fault) => Ok(Some(fault)),
        }
    }

    /// Adds the event that words declare.
    fn add_event(&mut self, alloc: Global, words: &[&str]) -> Result<Option<EventFault>, AllocError>
        ensures { IfOk result
            (λ fault. unless fault self.new ≡ with_events self.old (added self.old.events (event_in (map (λ w. w.now) words.now)))) }
    {
        match event_in(alloc, words)? {
            Ok(event) => add(event, &mut self.events),
            Err(fault) => Ok(Some(fault)),
        }
    }

    /// Adds what a line declares, if it declares anything.
    fn add_line(&mut self, alloc: Global, line: &[u8]) -> Result<Option<EventFault>, AllocError>
        ensures { IfOk result (λ fault. unless fault self.new ≡ after_line self.old line.now) }
    {
        if !has_only_printable(line) {
            return Ok(Some(EventFault::BadEvent));
        }
        let Ok(text) = str::from_utf8(line) else {
            return Ok(Some(EventFault::BadEvent));
        };
        if is_skipped_line(text) {
            return Ok(None);
        }
        let mut words = Words::new(alloc);
        push_words(&mut words, text)?;
        if is_env(words.as_slice()) {
            self.add_variable(alloc, words.as_slice())
        } else {
            self.add_event(alloc, words.as_slice())
        }
    }
}

/// What lines declare, events in the order of ids, or the first line that is refused.
pub(crate) fn drafted(
    alloc: Global,
    lines: &[&[u8]],
) -> Result<Result<Draft, LineFault>, AllocError>
    ensures { IfOk result (λ d. d ≡ after_lines 1 nothing (map (λ l. l.now) lines.now)) }
{
    let mut draft = Draft {
        env: Vec::new(alloc),
        events: Vec::new(alloc),
    };
    for at in 0..lines.len() {
        if let Some(fault) = draft.add_line(alloc, lines[at])? {
            let line = at as u64 + 1;
            return Ok(Err(LineFault { line, fault }));
        }
    }
    Ok(Ok(draft))
}
