//! The handle of what a stream shows.

ghost use Rattle.std.specs.Prelude.{◌≡◌, Some, None, MatchOption, Option};
ghost use Rattle.std.specs.Coded.{coded_option};
ghost use Rattle.std.specs.contracts.impls.GlobalAllocator.TheImpl.{ghosts};
ghost use Rattle.tr_held.specs.Holding.{holds};
ghost use Rattle.tr_held.specs.Kept.{snap_row};

use crate::held::Held;
use std::alloc::Global;
use std::marker::Model;
use std::mem::replace;
use tr_book::StreamSnap;

/// What a stream shows that C holds, or nothing. All zeros are a handle of nothing.
#[repr(C)]
pub struct SnapCell {
    at: *mut u8,
    live: bool,
    alloc: Global,
    pub ghost value: { Option snap_row.Denot } by { coded_option snap_row.coded },
}

impl Model for SnapCell {
    ghost also_owns = { λ h. holds snap_row (ghosts.dealloc_token h.alloc) h.at h.live h.value };
}

unsafe impl Send for SnapCell {}

impl Drop for SnapCell {
    fn drop(self) {
        if let Ok(kept) = self.into_held().into_box() {
            drop(kept);
        }
    }
}

impl SnapCell {
    /// What C holds of this.
    fn from_held(held: Held<StreamSnap<Global>, Global>) -> SnapCell
        ensures { result.value ≡ held.value }
    {
        let Held { at, live, alloc } = held;
        SnapCell {
            at: at as *mut u8,
            live,
            alloc,
        }
    }

    /// What C held.
    fn into_held(self) -> Held<StreamSnap<Global>, Global>
        ensures { result.value ≡ self.value }
    {
        let SnapCell { at, live, alloc } = self;
        Held {
            at: at as *mut StreamSnap<Global>,
            live,
            alloc,
        }
    }

    /// A handle of nothing.
    pub fn closed(alloc: Global) -> SnapCell
        ensures { result.value ≡ None }
    {
        SnapCell::from_held(Held::nothing(alloc))
    }

    /// What the handle had, which has nothing now.
    pub fn take(&mut self, alloc: Global) -> Option<Box<StreamSnap<Global>>>
        ensures value { MatchOption result (self.old.value ≡ None) (λ kept. self.old.value ≡ Some kept.value) }
        ensures closed { self.new.value ≡ None }
    {
        let whole = replace(self, SnapCell::closed(alloc));
        match whole.into_held().into_box() {
            Ok(kept) => Some(kept),
            Err(_) => None,
        }
    }

    /// Gives the handle what a stream shows. What it had is gone.
    pub fn put(&mut self, kept: Box<StreamSnap<Global>>)
        ensures { self.new.value ≡ Some kept.value }
    {
        *self = SnapCell::from_held(Held::of(kept));
    }
}
