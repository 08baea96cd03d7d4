//! The handle of a stream.

ghost use Rattle.std.specs.Prelude.{◌≡◌, Some, None, MatchOption, Option};
ghost use Rattle.std.specs.Coded.{coded_option};
ghost use Rattle.std.specs.contracts.impls.GlobalAllocator.TheImpl.{ghosts};
ghost use Rattle.tr_held.specs.Holding.{holds};
ghost use Rattle.tr_held.specs.Kept.{stream_row};

use crate::held::Held;
use std::alloc::Global;
use std::marker::Model;
use std::mem::replace;
use tr_stream::Stream;

/// A stream that C holds, or nothing. All zeros are a handle of nothing.
#[repr(C)]
pub struct StreamCell {
    at: *mut u8,
    live: bool,
    alloc: Global,
    pub ghost value: { Option stream_row.Denot } by { coded_option stream_row.coded },
}

impl Model for StreamCell {
    ghost also_owns = { λ h. holds stream_row (ghosts.dealloc_token h.alloc) h.at h.live h.value };
}

unsafe impl Send for StreamCell {}

impl Drop for StreamCell {
    fn drop(self) {
        if let Ok(kept) = self.into_held().into_box() {
            drop(kept);
        }
    }
}

impl StreamCell {
    /// What C holds of this.
    fn from_held(held: Held<Stream<Global>, Global>) -> StreamCell
        ensures { result.value ≡ held.value }
    {
        let Held { at, live, alloc } = held;
        StreamCell {
            at: at as *mut u8,
            live,
            alloc,
        }
    }

    /// What C held.
    fn into_held(self) -> Held<Stream<Global>, Global>
        ensures { result.value ≡ self.value }
    {
        let StreamCell { at, live, alloc } = self;
        Held {
            at: at as *mut Stream<Global>,
            live,
            alloc,
        }
    }

    /// A handle of nothing.
    pub fn closed(alloc: Global) -> StreamCell
        ensures { result.value ≡ None }
    {
        StreamCell::from_held(Held::nothing(alloc))
    }

    /// What the handle had, which has nothing now.
    pub fn take(&mut self, alloc: Global) -> Option<Box<Stream<Global>>>
        ensures value { MatchOption result (self.old.value ≡ None) (λ kept. self.old.value ≡ Some kept.value) }
        ensures closed { self.new.value ≡ None }
    {
        let whole = replace(self, StreamCell::closed(alloc));
        match whole.into_held().into_box() {
            Ok(kept) => Some(kept),
            Err(_) => None,
        }
    }

    /// Gives the handle a stream. What it had is gone.
    pub fn put(&mut self, kept: Box<Stream<Global>>)
        ensures { self.new.value ≡ Some kept.value }
    {
        *self = StreamCell::from_held(Held::of(kept));
    }
}
