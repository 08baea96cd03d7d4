//! The seats of what one worker consumes.

ghost use Rattle.std.specs.Prelude.{◌≡◌, ◌+◌, ◌<◌, Ok, Err, IfOk, IfErr, length, slice_index};
ghost use Rattle.tr_seats.specs.Accounts.{IsTakenFrom};
ghost use Rattle.tr_seats.specs.Drainers.{new_drainer, taken_at};
ghost use Rattle.tr_seats.specs.Slots.{slot_after_split, slot_split_answer};

use crate::account::StreamSeat;
use crate::both::both;
use crate::names::Names;
use crate::slot::Slot;
use std::alloc::{AllocError, Allocator, Global};
use std::marker::{Model, PhantomData};
use tr_ledger::Seat;
use tr_session_book::SessionFault;

/// A worker's seats, two for each stream, in order of the streams' numbers: of the records consumed from it, and of the takes.
/// Contracts see a `DrainerState`.
#[derive(Drop)]
pub struct Drainer<N: Names, A: Allocator = Global> {
    pub(crate) seats: Vec<Seat, A>,
    pub(crate) takes: Vec<StreamSeat, A>,
    pub(crate) of: PhantomData<N>,
}

impl<N: Names, A: Allocator> Model for Drainer<N, A> {
    ghost use Rattle.std.specs.Prelude.{length};
    ghost use Rattle.tr_seats.specs.Accounts.{AreTakeSeats, taken_by};
    ghost use Rattle.tr_seats.specs.Books.{consumed_books};
    ghost use Rattle.tr_seats.specs.Drainers.{DrainerState, drainer_state};
    ghost use Rattle.tr_seats.specs.Slots.{AreSeatsOf, amounts_of};

    ghost Value = { DrainerState };

    ghost view = { λ d. drainer_state (amounts_of d.seats.items) (taken_by d.takes.items) };

    ghost invariant = { λ d. AreSeatsOf (consumed_books N.plan.books) d.seats.items
        × AreTakeSeats (length N.plan.books) N.plan.books d.takes.items };
}

impl<N: Names, A: Allocator> Drainer<N, A> {
    /// How many records it took from the stream of number `i`.
    pub fn consumed(&self, i: usize) -> u64
        requires { i < length N.plan.books }
        ensures { result ≡ slice_index self.now.amounts i }
    {
        self.seats[i].amount()
    }

    /// Changes nothing, and shows that the packets that it took from the stream in a slot, which is that of number `i`, are what
    /// the stream has.
    pub(crate) fn audit(&mut self, slot: &mut Slot<N, A>, i: usize)
        requires here { i ≡ slot.old.number }
        requires there { i < length N.plan.books }
        ensures same { (slot.new ≡ slot.old) × (self.new ≡ self.old) }
        ensures taken { IsTakenFrom (taken_at self.old i) slot.old.stream }
    {
        slot.audit_takes(&mut self.takes[i]);
    }
}

/// A drainer that was begun at its desk: it has the seats of the first streams. Contracts see how many. One that is dropped is
/// missing when the session is settled.
#[derive(Drop)]
pub struct DrainerBegun<N: Names, A: Allocator = Global> {
    seats: Vec<Seat, A>,
    takes: Vec<StreamSeat, A>,
    of: PhantomData<N>,
}

impl<N: Names, A: Allocator> Model for DrainerBegun<N, A> {
    ghost use Rattle.tr_seats.specs.Drainers.{AreFirst};
    ghost use Rattle.std.specs.Prelude.{ℕ, ◌≤◌, length, vec_capacity};

    ghost Value = { ℕ };

    ghost view = { λ d. length d.seats.items };

    // room for the seats of all streams is reserved
    ghost invariant = { λ d. AreFirst N.plan.books d.seats.items d.takes.items
        × (length N.plan.books ≤ vec_capacity d.seats) × (length N.plan.books ≤ vec_capacity d.takes) };
}

impl<N: Names, A: Allocator> DrainerBegun<N, A> {
    /// A drainer with room for the seats of all `streams`, and none of them yet.
    pub(crate) fn new(alloc: A, streams: usize) -> Result<DrainerBegun<N, A>, AllocError>
    where
        A: Copy,
        requires { streams ≡ length N.plan.books }
        ensures { IfOk result (λ d. d ≡ 0) }
    {
        let seats = Vec::with_capacity(alloc, streams)?;
        let (seats, takes) = both(seats, Vec::with_capacity(alloc, streams))?;
        Ok(DrainerBegun {
            seats,
            takes,
            of: PhantomData,
        })
    }

    /// The same with a seat of the next stream too, which is in this slot.
    ///
    /// # Errors
    ///
    /// Those of `Slot::split`: the slot is as it was, and the drainer is gone.
    pub fn with(mut self, slot: &mut Slot<N, A>) -> Result<DrainerBegun<N, A>, SessionFault>
        requires { self < length N.plan.books }
        ensures ok { IfOk result (λ d. d ≡ self + 1) }
        ensures refused { IfErr result (λ fault. slot_split_answer N.plan.books self slot.old ≡ Err fault) }
        ensures slot { slot.new ≡ slot_after_split self slot.old }
    {
        let i = self.seats.len();
        let (seat, takes) = slot.split_both(i)?;
        self.seats.push_reserved(seat);
        self.takes.push_reserved(takes);
        Ok(self)
    }

    /// The drainer, if it has the seats of all streams: it took nothing yet.
    pub fn finish(self) -> Drainer<N, A>
        requires { self ≡ length N.plan.books }
        ensures { result ≡ new_drainer (length N.plan.books) }
    {
        let DrainerBegun { seats, takes, of } = self;
        Drainer { seats, takes, of }
    }
}
