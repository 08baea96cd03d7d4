//! A value on the heap that can be held by its address, or nothing.

ghost use Rattle.std.specs.Prelude.{◌≡◌, Some, None, MatchResult, Option};
ghost use Rattle.std.specs.Coded.{coded_option};
ghost use Rattle.tr_held.specs.Holding.{holds};

use std::alloc::Allocator;
use std::marker::Model;
use std::ptr::null_mut;

/// A value on the heap, held by its address, or nothing.
pub struct Held<T, A: Allocator> {
    pub at: *mut T,
    pub live: bool,
    pub alloc: A,
    pub ghost value: { Option T } by { coded_option T.code },
}

impl<T, A: Allocator> Model for Held<T, A> {
    ghost also_owns = { λ h. holds T.row (A.dealloc_token h.alloc) h.at h.live h.value };
}

impl<T: Drop, A: Allocator> Held<T, A> {
    /// Nothing.
    pub fn nothing(alloc: A) -> Held<T, A>
        ensures { result.value ≡ None }
    {
        Held {
            at: null_mut(),
            live: false,
            alloc,
        }
    }

    /// The value of a box.
    pub fn of(kept: Box<T, A>) -> Held<T, A>
        ensures { result.value ≡ Some kept.value }
    {
        let (at, alloc) = Box::into_raw_with_allocator(kept);
        Held {
            at,
            live: true,
            alloc,
        }
    }

    /// The box of the value; or the handle of the heap, if there is none.
    pub fn into_box(self) -> Result<Box<T, A>, A>
        ensures { MatchResult result (λ kept. self.value ≡ Some kept.value) (λ _. self.value ≡ None) }
    {
        let Held { at, live, alloc } = self;
        if !live {
            return Err(alloc);
        }
        let kept = unsafe { Box::from_raw(alloc, at) };
        Ok(kept)
    }
}
