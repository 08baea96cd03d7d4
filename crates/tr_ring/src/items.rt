//! The closed sub-buffers of a ring, one after another.

ghost use Rattle.std.specs.Iterator.{YieldsFirst, item_count};
ghost use Rattle.std.specs.Prelude.{◌≡◌};
ghost use Rattle.tr_ring.specs.Pages.{closed_in};

use crate::closed::ClosedSubBuf;
use crate::sealed::Sealed;
use circular_buffer::Iter;
use std::alloc::{Allocator, Global};
use std::marker::Model;

/// The closed sub-buffers of a ring, the oldest first. Contracts see the list of those that are left.
#[derive(Drop)]
pub struct RingItems<'a, A: Allocator = Global> {
    pages: Iter<'a, Sealed<A>>,
}

impl<'a, A: Allocator> Model for RingItems<'a, A> {
    ghost use Rattle.std.specs.Prelude.{List};
    ghost use Rattle.tr_ring.specs.ClosedBuffer.{ClosedBuffer};
    ghost use Rattle.tr_ring.specs.Pages.{closed_in};

    ghost Value = { List ClosedBuffer };

    ghost view = { λ i. closed_in i.pages };
}

impl<'a, A: Allocator> RingItems<'a, A> {
    /// What waits in these pages.
    pub(crate) fn new(pages: Iter<'a, Sealed<A>>) -> RingItems<'a, A>
        ensures { result ≡ closed_in pages.entry }
    {
        RingItems { pages }
    }
}

impl<'a, A: Allocator> Iterator for RingItems<'a, A> {
    type Item = ClosedSubBuf<'a, A>;

    ghost next_gives = { YieldsFirst (λ left. left) };

    ghost remaining = { item_count (λ left. left) };

    fn next(&mut self) -> Option<ClosedSubBuf<'a, A>> {
        let page = self.pages.next()?;
        Some(page.lent())
    }
}
