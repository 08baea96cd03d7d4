//! The settling of all seats, and why a session isn't settled.

ghost use Rattle.std.specs.List.{AllByRecursion};
ghost use Rattle.std.specs.Prelude.{◌≡◌, ◌+◌, ◌<◌, ◌≤◌, ◌==◌, ◌↔◌, ℕ, [], IsTrue, MatchOption, count_by, length, map, slice_index_or, slice_set, sum, sum_by, vec_capacity, vec_len};
ghost use Rattle.tr_accounts.specs.declared.step.StreamStep.{StreamStep};
ghost use Rattle.tr_journal.specs.Journals as journal;
ghost use Rattle.tr_ledger.specs.Ledgers.{SeatState, seat_state};
ghost use Rattle.tr_seats.specs.Accounts.{IsAccountOf, IsTakenFrom};
ghost use Rattle.tr_seats.specs.Books.{IsPlanned, books_at, cleared_books, consumed_books, cut_books};
ghost use Rattle.tr_seats.specs.Desks.{DeskState};
ghost use Rattle.tr_seats.specs.Drainers.{DrainerState, taken_at};
ghost use Rattle.tr_seats.specs.Faults.{settle_error_code, settle_error_name};
ghost use Rattle.tr_seats.specs.Histories.{AreDeskWith};
ghost use Rattle.tr_seats.specs.Operators.{AreAllOperators};
ghost use Rattle.tr_seats.specs.Settling.{AddUp, AreAccountsOf, AreAllMade, AreInPlace, ArePacketsOf, AreTheirs, AreWhole, CanSettle, HaveCleared, HaveConsumed, HaveOneHistory, IsOneEach, IsSessionOf, IsWhy, WereConsumed, opened_state, streams_of, taken_of, totals_of_seats};
ghost use Rattle.tr_seats.specs.Slots.{AreJoined, AreSeatsOf, IsOwn, ProducerState, SlotState, amounts_of};
ghost use Rattle.tr_seats.specs.Sums.{totals_in, totals_of};
ghost use Rattle.tr_session.specs.Session.{session_of};
ghost use Rattle.tr_session.specs.Sizes.{HoldsItsParts};

use crate::account::StreamSeat;
use crate::desk::Desk;
use crate::drainer::Drainer;
use crate::histories::{join_producers, join_takes};
use crate::names::Names;
use crate::operator::Operator;
use crate::producer::Producer;
use crate::settled::Settled;
use crate::slot::Slot;
use crate::totals::Totals;
use std::alloc::Allocator;
use thiserror::Error;
use tr_ledger::Seat;
use tr_session::Session;
use tr_stream::Stream;
use tr_terms::SessionMode;

/// Why a session was not settled.
#[derive(Clone, Copy, Debug, PartialEq, Eq, Error)]
#[error("{} {}", self.code(), self.name())]
pub enum SettleError {
    /// There isn't one producer for each stream.
    ProducerMissing,
    /// A drainer that was made, or begun, is missing.
    DrainerMissing,
    /// A stream isn't where its number says, or gave a seat to another number of drainers than there are.
    Misplaced,
}

impl SettleError {
    /// The code that answers and documents call it by.
    pub fn code(&self) -> &'static str
        ensures { result.now ≡ settle_error_code self.now }
    {
        match self {
            SettleError::ProducerMissing => "E1",
            SettleError::DrainerMissing => "E2",
            SettleError::Misplaced => "E3",
        }
    }

    /// Its name, as answers print it.
    pub fn name(&self) -> &'static str
        ensures { result.now ≡ settle_error_name self.now }
    {
        match self {
            SettleError::ProducerMissing => "ProducerMissing",
            SettleError::DrainerMissing => "DrainerMissing",
            SettleError::Misplaced => "Misplaced",
        }
    }
}

/// How many of the producers are of this stream.
fn count_of<N: Names, A: Allocator>(producers: &[Producer<N, A>], i: usize) -> usize
    ensures { result ≡ count_by (λ (p : ProducerState). p.number == i) producers.now }
{
    producers.iter().filter(|p| p.stream() == i).count()
}

/// Whether there is one producer for each stream.
fn has_one_each<N: Names, A: Allocator>(producers: &[Producer<N, A>], streams: usize) -> bool
    ensures { IsTrue result ↔ IsOneEach streams producers.now }
{
    for i in 0..streams {
        if count_of(producers, i) != 1 {
            return false;
        }
    }
    true
}

/// Whether each stream made `made` seats beside the first.
fn have_all_made<N: Names, A: Allocator>(slots: &[Slot<N, A>], made: u64) -> bool
    ensures { IsTrue result ↔ AreAllMade made slots.now }
{
    for i in 0..slots.len() {
        if slots[i].made() != made {
            return false;
        }
    }
    true
}

/// Whether each stream is where its number says.
pub(crate) fn are_in_place<N: Names, A: Allocator>(slots: &[Slot<N, A>]) -> bool
    ensures { IsTrue result ↔ AreInPlace slots.now }
{
    for i in 0..slots.len() {
        if slots[i].number() != i {
            return false;
        }
    }
    true
}

/// Whether and why the session can't be settled.
pub(crate) fn why_not<N: Names, A: Allocator>(
    desk: &Desk<N, A>,
    slots: &[Slot<N, A>],
    producers: &[Producer<N, A>],
    drainers: usize,
) -> Option<SettleError>
    ensures { MatchOption result
        (CanSettle producers.now drainers (opened_state desk.now slots.now))
        (λ error. IsWhy error producers.now drainers (opened_state desk.now slots.now)) }
{
    if !has_one_each(producers, slots.len()) {
        return Some(SettleError::ProducerMissing);
    }
    if drainers as u64 != desk.drainers() {
        return Some(SettleError::DrainerMissing);
    }
    if !have_all_made(slots, drainers as u64) {
        return Some(SettleError::Misplaced);
    }
    if !are_in_place(slots) {
        return Some(SettleError::Misplaced);
    }
    None
}

/// The sums of the streams' counts.
fn sums<N: Names, A: Allocator>(slots: &[Slot<N, A>]) -> Totals
    ensures value { result ≡ totals_of (streams_of slots.now) }
    ensures places { AddUp result (streams_of slots.now) }
    ensures consumed { WereConsumed result (streams_of slots.now) }
    ensures snapshot_session { ((k : ℕ) (s : SlotState) → k < length slots.now
        → (slice_index_or slots.now k s).stream.config.session ≡ SessionMode.Snapshot)
        → (result.consumed ≡ 0) × (result.cleared ≡ 0) }
{
    let mut totals = Totals {
        offered: 0,
        discarded: 0,
        overwritten: 0,
        overwritten_packets: 0,
        consumed: 0,
        cuts: 0,
        cleared: 0,
    };
    for slot in slots {
        let counts = slot.counts();
        totals.offered += u128::from(counts.offered);
        totals.discarded += u128::from(counts.discarded);
        totals.overwritten += u128::from(counts.overwritten);
        totals.overwritten_packets += u128::from(counts.overwritten_packets);
        totals.consumed += u128::from(counts.consumed);
        totals.cuts += u128::from(counts.cuts);
        totals.cleared += u128::from(counts.cleared);
    }
    totals
}

/// Changes nothing, and shows that each producer's numbers are its stream's own, and that what it offered is what its stream
/// has.
fn audit_producers<N: Names, A: Allocator>(
    slots: &mut [Slot<N, A>],
    producers: &mut [Producer<N, A>],
)
    requires { (length slots.old ≡ length N.plan.books) × AreInPlace slots.old }
    ensures same { (slots.new ≡ slots.old) × (producers.new ≡ producers.old) }
    ensures there { (k : ℕ) (p : ProducerState) → k < length producers.old
        → (slice_index_or producers.old k p).number < length N.plan.books }
    ensures own { (k : ℕ) (p : ProducerState) (s : SlotState) → k < length producers.old
        → IsOwn (slice_index_or producers.old k p)
        (totals_in (slice_index_or slots.old (slice_index_or producers.old k p).number s).stream) }
    ensures accounts { (k : ℕ) (p : ProducerState) (s : SlotState) → k < length producers.old
        → IsAccountOf (slice_index_or producers.old k p).steps
        (slice_index_or slots.old (slice_index_or producers.old k p).number s).stream }
{
    for k in 0..producers.len() {
        let i = producers[k].stream();
        slots[i].audit(&mut producers[k]);
    }
}

/// Changes nothing, and shows that the packets that a drainer took are what the streams have.
fn audit_takes<N: Names, A: Allocator>(slots: &mut [Slot<N, A>], drainer: &mut Drainer<N, A>)
    requires { (length slots.old ≡ length N.plan.books) × AreInPlace slots.old }
    ensures same { (slots.new ≡ slots.old) × (drainer.new ≡ drainer.old) }
    ensures taken { (i : ℕ) (s : SlotState) → i < length slots.old
        → IsTakenFrom (taken_at drainer.old i) (slice_index_or slots.old i s).stream }
{
    for i in 0..slots.len() {
        drainer.audit(&mut slots[i], i);
    }
}

/// Changes nothing, and shows that whole seats have what the streams consumed.
fn audit_consumed<N: Names, A: Allocator>(slots: &mut [Slot<N, A>], seats: &mut [Seat])
    requires slots { (length slots.old ≡ length N.plan.books) × AreInPlace slots.old }
    requires seats { map (λ (s : SeatState). s.table) seats.old ≡ consumed_books N.plan.books }
    ensures same { (slots.new ≡ slots.old) × (seats.new ≡ seats.old) }
    ensures whole { (k : ℕ) (d : SeatState) (s : SlotState) → k < length slots.old
        → (slice_index_or seats.old k d).mark ≡ (slice_index_or slots.old k s).made + 1
        → (slice_index_or seats.old k d).amount ≡ (totals_in (slice_index_or slots.old k s).stream).consumed }
{
    for i in 0..slots.len() {
        slots[i].audit_consumed(&mut seats[i]);
    }
}

/// The same of the cuts, and that the plan made the streams.
fn audit_cuts<N: Names, A: Allocator>(slots: &mut [Slot<N, A>], seats: &mut [Seat])
    requires slots { (length slots.old ≡ length N.plan.books) × AreInPlace slots.old }
    requires seats { map (λ (s : SeatState). s.table) seats.old ≡ cut_books N.plan.books }
    ensures same { (slots.new ≡ slots.old) × (seats.new ≡ seats.old) }
    ensures whole { (k : ℕ) (d : SeatState) (s : SlotState) → k < length slots.old
        → (slice_index_or seats.old k d).mark ≡ 1
        → (slice_index_or seats.old k d).amount ≡ (totals_in (slice_index_or slots.old k s).stream).cuts }
    ensures planned { (k : ℕ) (s : SlotState) → k < length slots.old
        → IsPlanned N.plan k (slice_index_or slots.old k s).stream.config }
{
    for i in 0..slots.len() {
        slots[i].audit_cuts(&mut seats[i]);
    }
}

/// Changes nothing, and shows that whole seats have what was cleared of the streams.
fn audit_cleared<N: Names, A: Allocator>(slots: &mut [Slot<N, A>], seats: &mut [Seat])
    requires slots { (length slots.old ≡ length N.plan.books) × AreInPlace slots.old }
    requires seats { map (λ (s : SeatState). s.table) seats.old ≡ cleared_books N.plan.books }
    ensures same { (slots.new ≡ slots.old) × (seats.new ≡ seats.old) }
    ensures whole { (k : ℕ) (d : SeatState) (s : SlotState) → k < length slots.old
        → (slice_index_or seats.old k d).mark ≡ 1
        → (slice_index_or seats.old k d).amount ≡ (totals_in (slice_index_or slots.old k s).stream).cleared }
{
    for i in 0..slots.len() {
        slots[i].audit_cleared(&mut seats[i]);
    }
}

/// Joins a seat into that at place `i`.
fn join_at<N: Names, A: Allocator>(
    slots: &mut [Slot<N, A>],
    seats: &mut [Seat],
    i: usize,
    other: Seat,
)
    requires there { (i < length slots.old) × (i < length seats.old) }
    requires mine { (d : SeatState) (s : SlotState) → (slice_index_or seats.old i d).table
        ≡ (books_at N.plan.books (slice_index_or slots.old i s).number).consumed }
    requires other { (s : SlotState) → other.table
        ≡ (books_at N.plan.books (slice_index_or slots.old i s).number).consumed }
    ensures slots { slots.new ≡ slots.old }
    ensures seats { (d : SeatState) → seats.new
        ≡ slice_set seats.old i (seat_state (slice_index_or seats.old i d).table
        ((slice_index_or seats.old i d).amount + other.amount) ((slice_index_or seats.old i d).mark + other.mark)) }
{
    slots[i].join(&mut seats[i], other);
}

/// Joins a row of seats into another.
fn join_row<N: Names, A: Allocator>(
    slots: &mut [Slot<N, A>],
    seats: &mut [Seat],
    theirs: Vec<Seat, A>,
)
    requires slots { (length slots.old ≡ length N.plan.books) × AreInPlace slots.old }
    requires seats { map (λ (s : SeatState). s.table) seats.old ≡ consumed_books N.plan.books }
    requires theirs { AreSeatsOf (consumed_books N.plan.books) theirs.items }
    ensures slots { slots.new ≡ slots.old }
    ensures tables { map (λ (s : SeatState). s.table) seats.new ≡ consumed_books N.plan.books }
    ensures marks { (k : ℕ) (d : SeatState) → k < length N.plan.books
        → (slice_index_or seats.new k d).mark ≡ (slice_index_or seats.old k d).mark + 1 }
    ensures amounts { sum (amounts_of seats.new) ≡ sum (amounts_of seats.old) + sum (amounts_of theirs.items) }
    ensures each { (k : ℕ) (d e : SeatState) → k < length N.plan.books
        → (slice_index_or seats.new k d).amount
        ≡ (slice_index_or seats.old k d).amount + (slice_index_or theirs.items k e).amount }
{
    let mut i = 0;
    for seat in theirs {
        join_at(slots, seats, i, seat);
        i += 1;
    }
}

/// Joins the seats of all drainers into two rows, and shows that the packets that they took are what the streams have.
fn join_drainers<N: Names, A: Allocator>(
    slots: &mut [Slot<N, A>],
    seats: &mut [Seat],
    noted: &mut [StreamSeat],
    drainers: Vec<Drainer<N, A>, A>,
)
    requires slots { (length slots.old ≡ length N.plan.books) × AreInPlace slots.old }
    requires seats { AreSeatsOf (consumed_books N.plan.books) seats.old }
    requires noted { AreDeskWith N.plan.books [] noted.old }
    ensures slots { slots.new ≡ slots.old }
    ensures seats { AreJoined (length drainers.items + 1) (consumed_books N.plan.books) seats.new }
    ensures amounts { sum (amounts_of seats.new)
        ≡ sum (amounts_of seats.old) + sum_by (λ (d : DrainerState). sum d.amounts) drainers.items }
    ensures each { (k : ℕ) (d : SeatState) → k < length N.plan.books
        → (slice_index_or seats.new k d).amount ≡ (slice_index_or seats.old k d).amount + taken_of drainers.items k }
    ensures packets { (k i : ℕ) (d : DrainerState) (s : SlotState) → k < length drainers.items → i < length slots.old
        → IsTakenFrom (taken_at (slice_index_or drainers.items k d) i) (slice_index_or slots.old i s).stream }
    ensures noted { AreDeskWith N.plan.books drainers.items noted.new }
    ensures operations { (i : ℕ) (d : journal.SeatState StreamStep) → i < length N.plan.books
        → (slice_index_or noted.new i d).own ≡ (slice_index_or noted.old i d).own }
{
    for mut drainer in drainers {
        audit_takes(slots, &mut drainer);
        let Drainer {
            seats: theirs,
            takes,
            of: _,
        } = drainer;
        join_row(slots, seats, theirs);
        join_takes(slots, noted, takes);
    }
}

/// Joins all seats. What they have is what the streams count.
fn join_all<N: Names, A: Allocator>(
    slots: &mut [Slot<N, A>],
    producers: &mut [Producer<N, A>],
    mine: &mut [Seat],
    cuts: &mut [Seat],
    cleared: &mut [Seat],
    noted: &mut [StreamSeat],
    drainers: Vec<Drainer<N, A>, A>,
)
    requires slots { length slots.old ≡ length N.plan.books }
    requires whole { AreWhole (length drainers.items) slots.old }
    requires producers { IsOneEach (length slots.old) producers.old }
    requires mine { AreSeatsOf (consumed_books N.plan.books) mine.old }
    requires cuts { AreSeatsOf (cut_books N.plan.books) cuts.old }
    requires cleared { AreSeatsOf (cleared_books N.plan.books) cleared.old }
    requires noted { AreDeskWith N.plan.books [] noted.old }
    ensures slots { slots.new ≡ slots.old }
    ensures producers { producers.new ≡ producers.old }
    ensures add_up { (desk : DeskState) → desk.consumed ≡ amounts_of mine.old → desk.cuts ≡ amounts_of cuts.old
        → desk.cleared ≡ amounts_of cleared.old
        → totals_of (streams_of slots.old) ≡ totals_of_seats producers.old drainers.items desk }
    ensures cut { (k : ℕ) (d : SeatState) (s : SlotState) → k < length slots.old
        → (slice_index_or cuts.old k d).amount ≡ (totals_in (slice_index_or slots.old k s).stream).cuts }
    ensures clear { (k : ℕ) (d : SeatState) (s : SlotState) → k < length slots.old
        → (slice_index_or cleared.old k d).amount ≡ (totals_in (slice_index_or slots.old k s).stream).cleared }
    ensures there { (k : ℕ) (p : ProducerState) → k < length producers.old
        → (slice_index_or producers.old k p).number < length N.plan.books }
    ensures own { (k : ℕ) (p : ProducerState) (s : SlotState) → k < length producers.old
        → IsOwn (slice_index_or producers.old k p)
        (totals_in (slice_index_or slots.old (slice_index_or producers.old k p).number s).stream) }
    ensures accounts { (k : ℕ) (p : ProducerState) (s : SlotState) → k < length producers.old
        → IsAccountOf (slice_index_or producers.old k p).steps
        (slice_index_or slots.old (slice_index_or producers.old k p).number s).stream }
    ensures taken { (k : ℕ) (d : SeatState) (s : SlotState) → k < length slots.old
        → (totals_in (slice_index_or slots.old k s).stream).consumed
        ≡ (slice_index_or mine.old k d).amount + taken_of drainers.items k }
    ensures packets { (k i : ℕ) (d : DrainerState) (s : SlotState) → k < length drainers.items → i < length slots.old
        → IsTakenFrom (taken_at (slice_index_or drainers.items k d) i) (slice_index_or slots.old i s).stream }
    ensures planned { (k : ℕ) (s : SlotState) → k < length slots.old
        → IsPlanned N.plan k (slice_index_or slots.old k s).stream.config }
    ensures noted { AreDeskWith N.plan.books drainers.items noted.new }
    ensures operations { (i : ℕ) (d : journal.SeatState StreamStep) → i < length N.plan.books
        → (slice_index_or noted.new i d).own ≡ (slice_index_or noted.old i d).own }
{
    audit_producers(slots, producers);
    join_drainers(slots, mine, noted, drainers);
    audit_consumed(slots, mine);
    audit_cuts(slots, cuts);
    audit_cleared(slots, cleared);
}

/// The streams out of their slots, in order, in the room that was reserved.
fn streams_out<N: Names, A: Allocator>(
    slots: Vec<Slot<N, A>, A>,
    mut room: Vec<Stream<A>, A>,
) -> Vec<Stream<A>, A>
    requires { (vec_len room ≡ 0) × (length slots.items ≤ vec_capacity room) }
    ensures streams { result.items ≡ streams_of slots.items }
    ensures held { AllByRecursion HoldsItsParts result.items }
{
    for slot in slots {
        room.push_reserved(slot.into_stream());
    }
    room
}

/// Settles what can be settled, and answers whether these are all operators that were made, in that order.
pub(crate) fn settle_all<N: Names, A: Allocator + Copy>(
    alloc: A,
    desk: Desk<N, A>,
    mut slots: Vec<Slot<N, A>, A>,
    mut producers: Vec<Producer<N, A>, A>,
    drainers: Vec<Drainer<N, A>, A>,
    room: Vec<Stream<A>, A>,
    operators: &mut [Operator<N>],
) -> (Settled<A>, Totals, bool)
    requires slots { length slots.items ≡ length N.plan.books }
    requires may { CanSettle producers.items (length drainers.items) (opened_state desk slots.items) }
    requires room { (vec_len room ≡ 0) × (length N.plan.books ≤ vec_capacity room) }
    ensures session { result.0 ≡ session_of desk.book (streams_of slots.items) }
    ensures planned { IsSessionOf N.plan result.0 }
    ensures totals { result.1 ≡ totals_of (streams_of slots.items) }
    ensures seats { result.1 ≡ totals_of_seats producers.items drainers.items desk }
    ensures own { AreTheirs producers.items (streams_of slots.items) }
    ensures accounts { AreAccountsOf producers.items (streams_of slots.items) }
    ensures taken { HaveConsumed desk.consumed drainers.items (streams_of slots.items) }
    ensures packets { ArePacketsOf drainers.items (streams_of slots.items) }
    ensures same { operators.new ≡ operators.old }
    ensures lent { IsTrue result.2 ↔ AreAllOperators desk.operators operators.old }
    ensures histories { HaveOneHistory N.plan.session.book operators.old result.2 producers.items drainers.items desk.book
        (streams_of slots.items) }
    ensures cleared { HaveCleared desk.cleared (streams_of slots.items) }
    ensures places { AddUp result.1 (streams_of slots.items) }
    ensures consumed { WereConsumed result.1 (streams_of slots.items) }
    ensures snapshot_session { N.plan.session.book.mode ≡ SessionMode.Snapshot
        → (result.1.consumed ≡ 0) × (result.1.cleared ≡ 0) }
{
    let Desk {
        book,
        drainers: _,
        mut consumed,
        mut cuts,
        mut cleared,
        of: _,
    } = desk;
    let totals = sums(&slots);
    let (book, mut noted, all) = book.into_parts(operators);
    join_all(
        slots.as_mut_slice(),
        producers.as_mut_slice(),
        consumed.as_mut_slice(),
        cuts.as_mut_slice(),
        cleared.as_mut_slice(),
        noted.as_mut_slice(),
        drainers,
    );
    join_producers(slots.as_mut_slice(), noted.as_mut_slice(), producers);
    let streams = streams_out(slots, room);
    (
        Settled::of(Session::from_parts(alloc, book, streams)),
        totals,
        all,
    )
}
