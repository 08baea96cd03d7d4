//! The handle of declared events.

ghost use Rattle.std.specs.Prelude.{◌≡◌, Some, None, MatchOption, Option};
ghost use Rattle.std.specs.Coded.{coded_option};
ghost use Rattle.std.specs.contracts.impls.GlobalAllocator.TheImpl.{ghosts};
ghost use Rattle.tr_held.specs.Holding.{holds};
ghost use Rattle.tr_held.specs.Kept.{events_row};

use crate::held::Held;
use std::alloc::Global;
use std::marker::Model;
use std::mem::replace;
use std::sync::Arc;
use tr_events::Events;

/// Declared events that C holds, or nothing. Several handles may have the same ones. All zeros are a handle of nothing.
#[repr(C)]
pub struct EventsCell {
    at: *mut u8,
    live: bool,
    alloc: Global,
    pub ghost value: { Option events_row.Denot } by { coded_option events_row.coded },
}

impl Model for EventsCell {
    ghost also_owns = { λ h. holds events_row (ghosts.dealloc_token h.alloc) h.at h.live h.value };
}

unsafe impl Send for EventsCell {}

impl Drop for EventsCell {
    fn drop(self) {
        if let Ok(kept) = self.into_held().into_box() {
            drop(kept);
        }
    }
}

impl EventsCell {
    /// What C holds of this.
    fn from_held(held: Held<Arc<Events<Global>, Global>, Global>) -> EventsCell
        ensures { result.value ≡ held.value }
    {
        let Held { at, live, alloc } = held;
        EventsCell {
            at: at as *mut u8,
            live,
            alloc,
        }
    }

    /// What C held.
    fn into_held(self) -> Held<Arc<Events<Global>, Global>, Global>
        ensures { result.value ≡ self.value }
    {
        let EventsCell { at, live, alloc } = self;
        Held {
            at: at as *mut Arc<Events<Global>, Global>,
            live,
            alloc,
        }
    }

    /// A handle of nothing.
    pub fn closed(alloc: Global) -> EventsCell
        ensures { result.value ≡ None }
    {
        EventsCell::from_held(Held::nothing(alloc))
    }

    /// What the handle had, which has nothing now.
    pub fn take(&mut self, alloc: Global) -> Option<Box<Arc<Events<Global>, Global>>>
        ensures value { MatchOption result (self.old.value ≡ None) (λ kept. self.old.value ≡ Some kept.value) }
        ensures closed { self.new.value ≡ None }
    {
        let whole = replace(self, EventsCell::closed(alloc));
        match whole.into_held().into_box() {
            Ok(kept) => Some(kept),
            Err(_) => None,
        }
    }

    /// Gives the handle events. What it had is gone.
    pub fn put(&mut self, kept: Box<Arc<Events<Global>, Global>>)
        ensures { self.new.value ≡ Some kept.value }
    {
        *self = EventsCell::from_held(Held::of(kept));
    }
}
