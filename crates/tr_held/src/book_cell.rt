//! The handle of a session's book.

ghost use Rattle.std.specs.Prelude.{◌≡◌, Some, None, MatchOption, Option};
ghost use Rattle.std.specs.Coded.{coded_option};
ghost use Rattle.std.specs.contracts.impls.GlobalAllocator.TheImpl.{ghosts};
ghost use Rattle.tr_held.specs.Holding.{holds};
ghost use Rattle.tr_held.specs.Kept.{book_row};

use crate::held::Held;
use std::alloc::Global;
use std::marker::Model;
use std::mem::replace;
use tr_session_book::SessionBook;

/// A session's book that C holds, or nothing. All zeros are a handle of nothing.
#[repr(C)]
pub struct BookCell {
    at: *mut u8,
    live: bool,
    alloc: Global,
    pub ghost value: { Option book_row.Denot } by { coded_option book_row.coded },
}

impl Model for BookCell {
    ghost also_owns = { λ h. holds book_row (ghosts.dealloc_token h.alloc) h.at h.live h.value };
}

unsafe impl Send for BookCell {}

impl Drop for BookCell {
    fn drop(self) {
        if let Ok(kept) = self.into_held().into_box() {
            drop(kept);
        }
    }
}

impl BookCell {
    /// What C holds of this.
    fn from_held(held: Held<SessionBook<Global>, Global>) -> BookCell
        ensures { result.value ≡ held.value }
    {
        let Held { at, live, alloc } = held;
        BookCell {
            at: at as *mut u8,
            live,
            alloc,
        }
    }

    /// What C held.
    fn into_held(self) -> Held<SessionBook<Global>, Global>
        ensures { result.value ≡ self.value }
    {
        let BookCell { at, live, alloc } = self;
        Held {
            at: at as *mut SessionBook<Global>,
            live,
            alloc,
        }
    }

    /// A handle of nothing.
    pub fn closed(alloc: Global) -> BookCell
        ensures { result.value ≡ None }
    {
        BookCell::from_held(Held::nothing(alloc))
    }

    /// What the handle had, which has nothing now.
    pub fn take(&mut self, alloc: Global) -> Option<Box<SessionBook<Global>>>
        ensures value { MatchOption result (self.old.value ≡ None) (λ kept. self.old.value ≡ Some kept.value) }
        ensures closed { self.new.value ≡ None }
    {
        let whole = replace(self, BookCell::closed(alloc));
        match whole.into_held().into_box() {
            Ok(kept) => Some(kept),
            Err(_) => None,
        }
    }

    /// Gives the handle a session's book. What it had is gone.
    pub fn put(&mut self, kept: Box<SessionBook<Global>>)
        ensures { self.new.value ≡ Some kept.value }
    {
        *self = BookCell::from_held(Held::of(kept));
    }
}
