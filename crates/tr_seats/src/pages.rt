//! Memory that a slot is given before it is needed, and gives away before it is freed.

ghost use Rattle.std.specs.Prelude.{◌≡◌, ◌≢◌, [], IfOk, OnErr};
ghost use Rattle.tr_stream.specs.Spares.{spares_state};
ghost use Rattle.tr_stream.specs.StateSteps.{state_snap};

use crate::names::Names;
use crate::slot::Slot;
use std::alloc::{AllocError, Allocator};
use tr_book::StreamSnap;
use tr_stream::{Removed, Spares};
use tr_terms::Moment;

impl<N: Names, A: Allocator + Copy> Slot<N, A> {
    /// How many pages a take would have to make itself now: none or one.
    pub fn lacking_for_take(&self) -> usize {
        self.stream.lacking_for_take()
    }

    /// How many pages a cut would have to make itself now, at most.
    pub fn lacking_for_cut(&self) -> usize {
        self.stream.lacking_for_cut()
    }

    /// No pages yet, of the size of those in the stream's ring: to be made while the slot's lock isn't held.
    pub fn no_spares(&self) -> Spares<A>
        ensures { result ≡ spares_state self.now.stream.ring.size 0 }
    {
        self.stream.no_spares()
    }

    /// Keeps pages for a take or a cut, so that it takes no memory for them. What is shown doesn't change.
    pub fn keep_spares(&mut self, more: Spares<A>)
        ensures { self.new ≡ self.old }
    {
        self.stream.keep_spares(more);
    }

    /// How many pages `begin_copies` has a use for.
    pub fn lacking_copies(&self) -> usize {
        self.stream.lacking_copies()
    }

    /// Begins copies of what the ring holds in these pages, as far as they go. Nothing is copied yet, and what is shown doesn't
    /// change.
    pub fn begin_copies(&mut self, pages: &mut Spares<A>)
        ensures { self.new ≡ self.old }
    {
        self.stream.begin_copies(pages);
    }

    /// Copies the next bytes, at most so many, for `peek_out`, and answers how many it copied. What is shown doesn't change.
    pub fn copy_more(&mut self, most: usize) -> usize
        ensures { self.new ≡ self.old }
    {
        self.stream.copy_more(most)
    }

    /// What `peek` shows. What was copied before isn't copied again, but handed out.
    pub fn peek_out(&mut self, moment: Moment) -> Result<StreamSnap<A>, AllocError>
        ensures value { IfOk result (λ snap. snap ≡ state_snap moment self.old.stream) }
        ensures same { self.new ≡ self.old }
        ensures memory { OnErr result ((state_snap moment self.old.stream).packets ≢ []) }
    {
        self.stream.peek_out(moment)
    }
}

impl<N: Names, A: Allocator> Slot<N, A> {
    /// The packets that the last clear removed, if nobody took them out. Their memory is freed when they are dropped, which is
    /// for after the slot's lock was given back.
    pub fn take_removed(&mut self) -> Option<Removed<A>>
        ensures { self.new ≡ self.old }
    {
        self.removed.take()
    }
}
