//! What a session declares: variables of its environment, and events.

ghost use Rattle.std.specs.Prelude.{◌≡◌, Ok, Err, IfErr, IfOk, map};
ghost use Rattle.tr_events.specs.Declarations.{AreDeclared};
ghost use Rattle.tr_events.specs.Events.{declarations, fits_declared, has_all, is_apart, is_nothing, nothing};
ghost use Rattle.std.specs.List.{slice_split};
ghost use Rattle.tr_lines.specs.Lines.{is_feed};
ghost use Rattle.tr_events.specs.Lines.{after_lines, declared};
ghost use Rattle.tr_events.specs.declared.faults.LineFault.{LineFault};
ghost use Rattle.tr_events.specs.declared.faults.ParseFault.TheVariants.{Line};

use crate::event::{Event, Field};
use crate::faults::{EventFault, LineFault, ParseFault};
use crate::ids::{Known, bound_of, fits_found, known_ids};
use crate::layouts::{LONGEST_DECLARATIONS, Layout};
use crate::lines::{Draft, drafted};
use crate::variables::Variable;
use std::alloc::{AllocError, Allocator, Global};
use std::marker::Model;

/// What a session declares: variables of its environment, each name once, in the order of their lines; and events, each id and
/// each name once, in the order of ids. Contracts see it as `Declarations`.
#[derive(Drop, Debug)]
pub struct Events<A: Allocator = Global> {
    // Lists are left out if nothing is declared.
    env: Option<Vec<Variable<A>, A>>,
    events: Option<Vec<Event<A>, A>>,
    // No id from this one on is declared.
    bound: u64,
    // What is known of the smallest ids.
    known: Vec<Known, A>,
}

impl<A: Allocator> Model for Events<A> {
    ghost use Rattle.tr_events.specs.Events.{Declarations, declarations};
    ghost use Rattle.tr_events.specs.Ids.{AreKnown, kept};

    ghost Value = { Declarations };

    ghost view = { λ e. declarations (kept e.env) (kept e.events) };

    ghost invariant = { λ e. AreKnown (declarations (kept e.env) (kept e.events)) e.bound e.known.items };
}

/// Whether a field is all of the payload.
fn has_all<A: Allocator>(fields: &[Field<A>]) -> bool
    ensures { result ≡ has_all fields.now }
{
    for field in fields {
        if let Layout::All(_) = field.layout() {
            return true;
        }
    }
    false
}

/// Whether what is all of the payload stands alone.
pub(crate) fn is_apart<A: Allocator>(fields: &[Field<A>]) -> bool
    ensures { result ≡ is_apart fields.now }
{
    match fields {
        [] | [_] => true,
        _ => !has_all(fields),
    }
}

/// The lines of a text. The last one has no newline after it.
pub fn lines_of<'a>(alloc: Global, text: &'a [u8]) -> Result<Vec<&'a [u8]>, AllocError>
    ensures { IfOk result (λ v. map (λ l. l.now) v.items ≡ slice_split is_feed text.entry.now) }
{
    text.split(|b| *b == b'\n').collect(alloc)
}

/// The same events in other memory.
fn events_copied<A: Allocator, B: Allocator + Copy>(
    alloc: B,
    events: &[Event<A>],
) -> Result<Vec<Event<B>, B>, AllocError>
    ensures { IfOk result (λ copies. copies.items ≡ events.now) }
{
    let mut copies = Vec::with_capacity(alloc, events.len())?;
    for event in events {
        copies.push(event.copy(alloc)?)?;
    }
    Ok(copies)
}

/// The same variables in other memory.
fn env_copied<A: Allocator, B: Allocator + Copy>(
    alloc: B,
    env: &[Variable<A>],
) -> Result<Vec<Variable<B>, B>, AllocError>
    ensures { IfOk result (λ copies. copies.items ≡ env.now) }
{
    let mut copies = Vec::with_capacity(alloc, env.len())?;
    for variable in env {
        copies.push(variable.copy(alloc)?)?;
    }
    Ok(copies)
}

impl Events {
    /// What these lines declare, events in the order of ids, or the first line that is refused.
    ///
    /// # Errors
    ///
    /// An allocation failed.
    pub fn of_lines(alloc: Global, lines: &[&[u8]]) -> Result<Result<Events, LineFault>, AllocError>
        ensures { IfOk result (λ events. events ≡ after_lines 1 nothing (map (λ l. l.now) lines.now)) }
    {
        match drafted(alloc, lines)? {
            Ok(draft) => Ok(Ok(Events::drafted(alloc, draft)?)),
            Err(fault) => Ok(Err(fault)),
        }
    }

    /// What the lines of a text declare, events in the order of ids: a line for each event, `NAME ID FIELD:TYPE ..`, and for each
    /// variable, `env NAME VALUE`. A line without words declares nothing, nor does one that begins with `#`.
    ///
    /// # Errors
    ///
    /// The first line that is refused, and why; or an allocation failed.
    pub fn parse(alloc: Global, text: &[u8]) -> Result<Events, ParseFault>
        ensures events { IfOk result (λ events. declared text.now ≡ Ok events) }
        ensures fault { IfErr result (λ fault. (at : LineFault) → fault ≡ Line at → declared text.now ≡ Err at) }
    {
        if text.len() > LONGEST_DECLARATIONS {
            let line = 1;
            let fault = EventFault::TooMany;
            return Err(ParseFault::Line(LineFault { line, fault }));
        }
        let lines = lines_of(alloc, text)?;
        match Events::of_lines(alloc, &lines)? {
            Ok(events) => Ok(events),
            Err(fault) => Err(ParseFault::Line(fault)),
        }
    }

    /// What was drafted, with what is known of its ids.
    fn drafted(alloc: Global, draft: Draft) -> Result<Events, AllocError>
        requires { AreDeclared draft }
        ensures { IfOk result (λ all. all ≡ draft) }
    {
        let Draft { env, events } = draft;
        Events::of(alloc, env, events)
    }
}

impl<A: Allocator + Copy> Events<A> {
    /// These variables and events, with what is known of the events' ids.
    fn of(
        alloc: A,
        env: Vec<Variable<A>, A>,
        events: Vec<Event<A>, A>,
    ) -> Result<Events<A>, AllocError>
        requires { AreDeclared (declarations env.items events.items) }
        ensures { IfOk result (λ all. all ≡ declarations env.items events.items) }
    {
        let bound = bound_of(&events);
        let known = known_ids(alloc, &events)?;
        Ok(Events {
            env: Some(env),
            events: Some(events),
            bound,
            known,
        })
    }
}

impl<A: Allocator> Events<A> {
    /// Nothing declared. It takes no memory.
    pub fn none(alloc: A) -> Events<A>
        ensures { result ≡ nothing }
    {
        Events {
            env: None,
            events: None,
            bound: 0,
            known: Vec::new(alloc),
        }
    }

    /// The same in memory of this allocator: names and values, ids, fields and labels.
    ///
    /// # Errors
    ///
    /// An allocation failed. What was allocated is given back.
    pub fn copy<B: Allocator + Copy>(&self, alloc: B) -> Result<Events<B>, AllocError>
        ensures { IfOk result (λ events. events ≡ self.now) }
    {
        let env = env_copied(alloc, self.env())?;
        Events::of(alloc, env, events_copied(alloc, self.list())?)
    }

    /// The variables of the environment, in the order in which they were declared.
    pub fn env(&self) -> &[Variable<A>]
        ensures { result.now ≡ self.now.env }
    {
        match &self.env {
            Some(env) => env.as_slice(),
            None => &[],
        }
    }

    /// The events, in the order of ids.
    pub fn list(&self) -> &[Event<A>]
        ensures value { result.now ≡ self.now.events }
        ensures stand { AreDeclared self.now }
    {
        match &self.events {
            Some(events) => events.as_slice(),
            None => &[],
        }
    }

    /// Whether nothing is declared.
    pub fn is_empty(&self) -> bool
        ensures { result ≡ is_nothing self.now }
    {
        self.env().is_empty() && self.list().is_empty()
    }

    /// Whether a record of this id and payload fits as declared; one whose id isn't declared does. It takes no memory.
    #[inline(always)]
    pub fn fits(&self, id: u32, payload: &[u8]) -> bool
        ensures { result ≡ fits_declared self.now id payload.now }
    {
        if id as u64 >= self.bound {
            return true;
        }
        match self.known.get(id as usize) {
            Some(Known::Free) => true,
            Some(Known::Exact(size)) => payload.len() == *size as usize,
            _ => self.fits_event(id, payload),
        }
    }

    /// The same for an id of which the table has no size.
    #[inline(never)]
    fn fits_event(&self, id: u32, payload: &[u8]) -> bool
        ensures { result ≡ fits_declared self.now id payload.now }
    {
        fits_found(self.list(), id, payload)
    }
}
