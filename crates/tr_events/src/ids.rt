//! What is known of the ids of events, so that few payloads have to be held against the fields of an event.

ghost use Rattle.std.specs.Prelude.{◌≡◌, IfOk, IsTrue, option_map};
ghost use Rattle.tr_events.specs.Events.{event_with, fits_among, ids_rise};
ghost use Rattle.tr_events.specs.Ids.{AreSo, IsBound, Says};

use crate::event::Event;
use std::alloc::{AllocError, Allocator};

/// Ids from this one on have no entry.
const MOST_ENTRIES: u32 = 4_096;

/// What is known of an id.
#[derive(Clone, Copy, Debug)]
pub(crate) enum Known {
    /// It isn't declared.
    Free,
    /// A payload fits if it has this many bytes.
    Exact(u32),
    /// The event has to be asked whether a payload fits.
    Ask,
}

/// An id from which on none is declared: one more than the largest.
pub(crate) fn bound_of<A: Allocator>(events: &[Event<A>]) -> u64
    ensures { IsBound events.now result }
{
    let mut bound: u64 = 0;
    for event in events {
        bound = bound.max(event.id() as u64 + 1);
    }
    bound
}

/// How many entries there are: one more than the largest id that has one.
fn count_entries<A: Allocator>(events: &[Event<A>]) -> u32 {
    let mut count: u32 = 0;
    for event in events {
        if event.id() < MOST_ENTRIES {
            count = count.max(event.id() + 1);
        }
    }
    count
}

/// The event of this id, if one of these has it. Their ids rise.
fn found<A: Allocator>(events: &[Event<A>], id: u32) -> Option<&Event<A>>
    requires { IsTrue (ids_rise 0 events.now) }
    ensures { option_map (λ e. e.now) result ≡ event_with id events.now }
{
    let mut rest = events;
    loop {
        let (below, others) = rest.split_at(rest.len() / 2);
        let Some((middle, above)) = others.split_first() else {
            return None;
        };
        if middle.id() == id {
            return Some(middle);
        }
        if middle.id() < id {
            rest = above;
        } else {
            rest = below;
        }
    }
}

/// Whether a payload of this id fits, as the event of these says that has it. Their ids rise.
pub(crate) fn fits_found<A: Allocator>(events: &[Event<A>], id: u32, payload: &[u8]) -> bool
    requires { IsTrue (ids_rise 0 events.now) }
    ensures { result ≡ fits_among events.now id payload.now }
{
    match found(events, id) {
        Some(event) => event.fits(payload),
        None => true,
    }
}

/// What is known of an id. The ids of the events rise.
fn known_of<A: Allocator>(events: &[Event<A>], id: u32) -> Known
    requires { IsTrue (ids_rise 0 events.now) }
    ensures { Says events.now id result }
{
    let Some(event) = found(events, id) else {
        return Known::Free;
    };
    match event.size() {
        Some(size) if size <= u32::MAX as u64 => Known::Exact(size as u32),
        _ => Known::Ask,
    }
}

/// What is known of the small ids. The ids of the events rise.
pub(crate) fn known_ids<A: Allocator>(
    alloc: A,
    events: &[Event<A>],
) -> Result<Vec<Known, A>, AllocError>
    requires { IsTrue (ids_rise 0 events.now) }
    ensures { IfOk result (λ known. AreSo events.now known.items) }
{
    let count = count_entries(events);
    let mut known = Vec::with_capacity(alloc, count as usize)?;
    for id in 0..count {
        known.push(known_of(events, id))?;
    }
    Ok(known)
}
