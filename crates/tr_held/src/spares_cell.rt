//! The handle of pages in reserve.

ghost use Rattle.std.specs.Prelude.{◌≡◌, Some, None, MatchOption, Option};
ghost use Rattle.std.specs.Coded.{coded_option};
ghost use Rattle.std.specs.contracts.impls.GlobalAllocator.TheImpl.{ghosts};
ghost use Rattle.tr_held.specs.Holding.{holds};
ghost use Rattle.tr_held.specs.Kept.{spares_row};

use crate::held::Held;
use std::alloc::Global;
use std::marker::Model;
use std::mem::replace;
use tr_stream::Spares;

/// Pages in reserve that C holds, or nothing. All zeros are a handle of nothing.
#[repr(C)]
pub struct SparesCell {
    at: *mut u8,
    live: bool,
    alloc: Global,
    pub ghost value: { Option spares_row.Denot } by { coded_option spares_row.coded },
}

impl Model for SparesCell {
    ghost also_owns = { λ h. holds spares_row (ghosts.dealloc_token h.alloc) h.at h.live h.value };
}

unsafe impl Send for SparesCell {}

impl Drop for SparesCell {
    fn drop(self) {
        if let Ok(kept) = self.into_held().into_box() {
            drop(kept);
        }
    }
}

impl SparesCell {
    /// What C holds of this.
    fn from_held(held: Held<Spares<Global>, Global>) -> SparesCell
        ensures { result.value ≡ held.value }
    {
        let Held { at, live, alloc } = held;
        SparesCell {
            at: at as *mut u8,
            live,
            alloc,
        }
    }

    /// What C held.
    fn into_held(self) -> Held<Spares<Global>, Global>
        ensures { result.value ≡ self.value }
    {
        let SparesCell { at, live, alloc } = self;
        Held {
            at: at as *mut Spares<Global>,
            live,
            alloc,
        }
    }

    /// A handle of nothing.
    pub fn closed(alloc: Global) -> SparesCell
        ensures { result.value ≡ None }
    {
        SparesCell::from_held(Held::nothing(alloc))
    }

    /// What the handle had, which has nothing now.
    pub fn take(&mut self, alloc: Global) -> Option<Box<Spares<Global>>>
        ensures value { MatchOption result (self.old.value ≡ None) (λ kept. self.old.value ≡ Some kept.value) }
        ensures closed { self.new.value ≡ None }
    {
        let whole = replace(self, SparesCell::closed(alloc));
        match whole.into_held().into_box() {
            Ok(kept) => Some(kept),
            Err(_) => None,
        }
    }

    /// Gives the handle pages. What it had is gone.
    pub fn put(&mut self, kept: Box<Spares<Global>>)
        ensures { self.new.value ≡ Some kept.value }
    {
        *self = SparesCell::from_held(Held::of(kept));
    }
}
