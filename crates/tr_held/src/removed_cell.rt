//! The handle of packets that a stream no longer has.

ghost use Rattle.std.specs.Prelude.{◌≡◌, Some, None, MatchOption, Option};
ghost use Rattle.std.specs.Coded.{coded_option};
ghost use Rattle.std.specs.contracts.impls.GlobalAllocator.TheImpl.{ghosts};
ghost use Rattle.tr_held.specs.Holding.{holds};
ghost use Rattle.tr_held.specs.Kept.{removed_row};

use crate::held::Held;
use std::alloc::Global;
use std::marker::Model;
use std::mem::replace;
use tr_stream::Removed;

/// Packets that a stream no longer has, and C holds, or nothing. All zeros are a handle of nothing.
#[repr(C)]
pub struct RemovedCell {
    at: *mut u8,
    live: bool,
    alloc: Global,
    pub ghost value: { Option removed_row.Denot } by { coded_option removed_row.coded },
}

impl Model for RemovedCell {
    ghost also_owns = { λ h. holds removed_row (ghosts.dealloc_token h.alloc) h.at h.live h.value };
}

unsafe impl Send for RemovedCell {}

impl Drop for RemovedCell {
    fn drop(self) {
        if let Ok(kept) = self.into_held().into_box() {
            drop(kept);
        }
    }
}

impl RemovedCell {
    /// What C holds of this.
    fn from_held(held: Held<Removed<Global>, Global>) -> RemovedCell
        ensures { result.value ≡ held.value }
    {
        let Held { at, live, alloc } = held;
        RemovedCell {
            at: at as *mut u8,
            live,
            alloc,
        }
    }

    /// What C held.
    fn into_held(self) -> Held<Removed<Global>, Global>
        ensures { result.value ≡ self.value }
    {
        let RemovedCell { at, live, alloc } = self;
        Held {
            at: at as *mut Removed<Global>,
            live,
            alloc,
        }
    }

    /// A handle of nothing.
    pub fn closed(alloc: Global) -> RemovedCell
        ensures { result.value ≡ None }
    {
        RemovedCell::from_held(Held::nothing(alloc))
    }

    /// What the handle had, which has nothing now.
    pub fn take(&mut self, alloc: Global) -> Option<Box<Removed<Global>>>
        ensures value { MatchOption result (self.old.value ≡ None) (λ kept. self.old.value ≡ Some kept.value) }
        ensures closed { self.new.value ≡ None }
    {
        let whole = replace(self, RemovedCell::closed(alloc));
        match whole.into_held().into_box() {
            Ok(kept) => Some(kept),
            Err(_) => None,
        }
    }

    /// Gives the handle packets. What it had is gone.
    pub fn put(&mut self, kept: Box<Removed<Global>>)
        ensures { self.new.value ≡ Some kept.value }
    {
        *self = RemovedCell::from_held(Held::of(kept));
    }
}
