//! The seats in a stream's journal, joined in one: they have all that was noted of the stream.

ghost use Rattle.std.specs.Prelude.{◌≡◌, ◌<◌, ℕ, length, slice_index_or, slice_set};
ghost use Rattle.tr_accounts.specs.Seats.{desk_seat};
ghost use Rattle.tr_accounts.specs.declared.step.StreamStep.{StreamStep};
ghost use Rattle.tr_journal.specs.Journals.{SeatState, seat_with};
ghost use Rattle.tr_seats.specs.Accounts.{AreTakeSeats, IsOperatedBy, IsSeatAt};
ghost use Rattle.tr_seats.specs.Books.{books_at};
ghost use Rattle.tr_seats.specs.Histories.{IsDeskWith, IsHistoryOf, takes_joined};
ghost use Rattle.tr_seats.specs.Settling.{AreInPlace, IsOneEach};
ghost use Rattle.tr_seats.specs.Slots.{ProducerState, SlotState};

use crate::account::StreamSeat;
use crate::names::Names;
use crate::producer::Producer;
use crate::slot::Slot;
use std::alloc::Allocator;

impl<N: Names, A: Allocator> Slot<N, A> {
    /// Joins another seat in this stream's journal to the desk's. It takes no memory.
    fn join_takes(&mut self, desk: &mut StreamSeat, other: StreamSeat)
        requires desk { desk.old.table ≡ (books_at N.plan.books self.old.number).journal }
        requires other { other.table ≡ (books_at N.plan.books self.old.number).journal }
        ensures slot { self.new ≡ self.old }
        ensures seat { desk.new ≡ seat_with other desk.old }
    {
        self.account.join(desk, other.into_seat());
    }

    /// Joins the producer's seat to the desk's, to which those of all drainers are joined, and shows that one history has what
    /// all of them did. It takes no memory.
    fn join_producer(&mut self, desk: &mut StreamSeat, producer: Producer<N, A>)
        requires here { producer.number ≡ self.old.number }
        requires desk { IsDeskWith (books_at N.plan.books self.old.number).journal desk.old }
        requires all { length desk.old.joined ≡ self.old.made }
        ensures slot { self.new ≡ self.old }
        ensures history { IsHistoryOf producer.steps (takes_joined desk.old) desk.old.own self.old.stream }
    {
        let Producer {
            number: _,
            offered: _,
            discarded: _,
            overwritten: _,
            overwritten_packets: _,
            teller: _,
            account,
            of: _,
        } = producer;
        self.account.join(desk, account);
    }
}

/// Joins a drainer's seat of its takes to the desk's at place `i`.
fn join_takes_at<N: Names, A: Allocator>(
    slots: &mut [Slot<N, A>],
    desk: &mut [StreamSeat],
    i: usize,
    other: StreamSeat,
)
    requires there { (i < length slots.old) × (i < length desk.old) }
    requires desk { (d : SeatState StreamStep) (s : SlotState) → (slice_index_or desk.old i d).table
        ≡ (books_at N.plan.books (slice_index_or slots.old i s).number).journal }
    requires other { (s : SlotState) → other.table ≡ (books_at N.plan.books (slice_index_or slots.old i s).number).journal }
    ensures slots { slots.new ≡ slots.old }
    ensures desk { (d : SeatState StreamStep) → desk.new ≡ slice_set desk.old i (seat_with other (slice_index_or desk.old i d)) }
{
    slots[i].join_takes(&mut desk[i], other);
}

/// Joins a drainer's seats of its takes to the desk's, stream by stream. It takes no memory.
pub(crate) fn join_takes<N: Names, A: Allocator>(
    slots: &mut [Slot<N, A>],
    desk: &mut [StreamSeat],
    theirs: Vec<StreamSeat, A>,
)
    requires slots { (length slots.old ≡ length N.plan.books) × AreInPlace slots.old }
    requires many { length desk.old ≡ length N.plan.books }
    requires desk { (i : ℕ) (d : SeatState StreamStep) → i < length N.plan.books
        → (slice_index_or desk.old i d).table ≡ (books_at N.plan.books i).journal }
    requires theirs { AreTakeSeats (length N.plan.books) N.plan.books theirs.items }
    ensures slots { slots.new ≡ slots.old }
    ensures many { length desk.new ≡ length desk.old }
    ensures joined { (i : ℕ) (d e : SeatState StreamStep) → i < length N.plan.books
        → slice_index_or desk.new i d ≡ seat_with (slice_index_or theirs.items i e) (slice_index_or desk.old i d) }
{
    let mut i = 0;
    for seat in theirs {
        join_takes_at(slots, desk, i, seat);
        i += 1;
    }
}

/// Joins each producer's seat to the desk's of its stream, to which those of all drainers are joined, and shows that one
/// history of each stream has what all of them did. It takes no memory.
pub(crate) fn join_producers<N: Names, A: Allocator>(
    slots: &mut [Slot<N, A>],
    desk: &mut [StreamSeat],
    producers: Vec<Producer<N, A>, A>,
)
    requires slots { (length slots.old ≡ length N.plan.books) × AreInPlace slots.old }
    requires many { length desk.old ≡ length N.plan.books }
    requires desk { (i : ℕ) (d : SeatState StreamStep) → i < length N.plan.books
        → IsDeskWith (books_at N.plan.books i).journal (slice_index_or desk.old i d) }
    requires all { (i : ℕ) (d : SeatState StreamStep) (s : SlotState) → i < length N.plan.books
        → length (slice_index_or desk.old i d).joined ≡ (slice_index_or slots.old i s).made }
    requires once { IsOneEach (length slots.old) producers.items }
    ensures slots { slots.new ≡ slots.old }
    ensures histories { (k : ℕ) (p : ProducerState) (d : SeatState StreamStep) (s : SlotState) → k < length producers.items
        → IsHistoryOf (slice_index_or producers.items k p).steps
        (takes_joined (slice_index_or desk.old (slice_index_or producers.items k p).number d))
        (slice_index_or desk.old (slice_index_or producers.items k p).number d).own
        (slice_index_or slots.old (slice_index_or producers.items k p).number s).stream }
{
    for producer in producers {
        let i = producer.stream();
        slots[i].join_producer(&mut desk[i], producer);
    }
}

/// Changes nothing, and shows that what the desk's seats noted of the streams' operations is what the streams have.
pub(crate) fn audit_operations<N: Names, A: Allocator>(
    slots: &mut [Slot<N, A>],
    seats: &mut [StreamSeat],
)
    requires slots { (length slots.old ≡ length N.plan.books) × AreInPlace slots.old }
    requires many { length seats.old ≡ length N.plan.books }
    requires seats { (i : ℕ) (d : SeatState StreamStep) → i < length N.plan.books
        → IsSeatAt (books_at N.plan.books i).journal desk_seat (slice_index_or seats.old i d) }
    ensures same { (slots.new ≡ slots.old) × (seats.new ≡ seats.old) }
    ensures operated { (i : ℕ) (d : SeatState StreamStep) (s : SlotState) → i < length slots.old
        → IsOperatedBy (slice_index_or seats.old i d).own (slice_index_or slots.old i s).stream }
{
    for i in 0..slots.len() {
        slots[i].audit_operations(&mut seats[i]);
    }
}
