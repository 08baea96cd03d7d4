//! What is noted of a stream's calls under its lock.

ghost use Rattle.std.specs.Prelude.{◌≡◌, ◌<◌, IfOk};
ghost use Rattle.tr_accounts.specs.Seats.{desk_seat, producer_seat};
ghost use Rattle.tr_accounts.specs.StreamSteps.{clear_step, cut_step, offer_step, switch_step, take_step};
ghost use Rattle.tr_journal.specs.Journals.{IsSeatOf, journal_after, journal_with_seat, new_seat, seat_after, seat_with};
ghost use Rattle.tr_seats.specs.Accounts.{IsNewAccount};

use std::alloc::{AllocError, Allocator, Global};
use std::marker::Model;
use tr_accounts::{StreamStep, note_clear, note_cut, note_offer, note_switch, note_take};
use tr_journal::{Journal, Seat};
use tr_stream::{ClearFault, Cleared, CutDone, CutFault, OfferFault, Offered, TakeFault, Taken};
use tr_terms::Moment;

/// A stream's journal. Its producer has the seat of its offers, the desk that of its operations, and each drainer one of its
/// takes. Contracts see a `JournalState`.
#[derive(Drop)]
pub(crate) struct Account<A: Allocator = Global> {
    journal: Journal<StreamStep, A>,
}

impl<A: Allocator> Model for Account<A> {
    ghost use Rattle.tr_accounts.specs.declared.step.StreamStep.{StreamStep};
    ghost use Rattle.std.specs.Prelude.{◌<◌};
    ghost use Rattle.tr_accounts.specs.Seats.{desk_seat};
    ghost use Rattle.tr_journal.specs.Journals.{JournalState};

    ghost Value = { JournalState StreamStep };

    ghost view = { λ a. a.journal };

    // the seats of the producer and of the desk were made
    ghost invariant = { λ a. desk_seat < a.journal.made };
}

/// A seat in the journal of a stream, with that stream's number: a seat without bytes can't be lent by its place in a row.
/// Contracts see a `SeatState`.
#[derive(Drop)]
pub(crate) struct StreamSeat {
    stream: usize,
    noted: Seat<StreamStep>,
}

impl Model for StreamSeat {
    ghost use Rattle.tr_accounts.specs.declared.step.StreamStep.{StreamStep};
    ghost use Rattle.tr_journal.specs.Journals.{SeatState};

    ghost Value = { SeatState StreamStep };

    ghost view = { λ s. s.noted };
}

impl StreamSeat {
    /// A seat in the journal of the stream of this number.
    pub(crate) fn of(stream: usize, noted: Seat<StreamStep>) -> StreamSeat
        ensures { result ≡ noted }
    {
        StreamSeat { stream, noted }
    }

    /// The seat itself.
    pub(crate) fn into_seat(self) -> Seat<StreamStep>
        ensures { result ≡ self }
    {
        let StreamSeat { stream: _, noted } = self;
        noted
    }
}

impl<A: Allocator> Account<A> {
    /// The account of a stream that no call was made of, its producer's seat, and the desk's. Only this call takes memory.
    pub(crate) fn open(
        alloc: A,
    ) -> Result<(Account<A>, Seat<StreamStep>, Seat<StreamStep>), AllocError>
        ensures { IfOk result (λ r. IsNewAccount r.0 × (r.1 ≡ new_seat r.0.table producer_seat)
            × (r.2 ≡ new_seat r.0.table desk_seat)) }
    {
        let (mut journal, producer) = Journal::open(alloc)?;
        let desk = journal.split();
        Ok((Account { journal }, producer, desk))
    }

    /// A new seat for the takes of one drainer from the stream of this number. It takes no memory.
    pub(crate) fn split(&mut self, stream: usize) -> StreamSeat
        ensures account { self.new ≡ journal_with_seat self.old }
        ensures seat { result ≡ new_seat self.old.table self.old.made }
        ensures drainer { desk_seat < result.who }
    {
        let noted = self.journal.split();
        StreamSeat { stream, noted }
    }

    /// The producer offered a record, and this was answered.
    #[inline(always)]
    pub(crate) fn note_offer(
        &mut self,
        producer: &mut Seat<StreamStep>,
        moment: Moment,
        id: u32,
        payload: &[u8],
        answer: Result<Offered, OfferFault>,
    )
        requires { producer.old.table ≡ self.old.table }
        ensures account { self.new
            ≡ journal_after producer.old.who (offer_step moment id payload.now answer) self.old }
        ensures seat { producer.new ≡ seat_after (offer_step moment id payload.now answer) producer.old }
    {
        note_offer(&mut self.journal, producer, moment, id, payload, answer);
    }

    /// A drainer took a packet, or this was answered.
    pub(crate) fn note_take(&mut self, drainer: &mut StreamSeat, answer: Result<Taken, TakeFault>)
        requires { drainer.old.table ≡ self.old.table }
        ensures account { self.new ≡ journal_after drainer.old.who (take_step answer) self.old }
        ensures seat { drainer.new ≡ seat_after (take_step answer) drainer.old }
    {
        note_take(&mut self.journal, &mut drainer.noted, answer);
    }

    /// The desk cut the stream, and this was answered.
    pub(crate) fn note_cut(
        &mut self,
        desk: &mut StreamSeat,
        moment: Moment,
        answer: Result<CutDone, CutFault>,
    )
        requires { desk.old.table ≡ self.old.table }
        ensures account { self.new ≡ journal_after desk.old.who (cut_step moment answer) self.old }
        ensures seat { desk.new ≡ seat_after (cut_step moment answer) desk.old }
    {
        note_cut(&mut self.journal, &mut desk.noted, moment, answer);
    }

    /// The desk cleared the stream, and this was answered.
    pub(crate) fn note_clear(&mut self, desk: &mut StreamSeat, answer: Result<Cleared, ClearFault>)
        requires { desk.old.table ≡ self.old.table }
        ensures account { self.new ≡ journal_after desk.old.who (clear_step answer) self.old }
        ensures seat { desk.new ≡ seat_after (clear_step answer) desk.old }
    {
        note_clear(&mut self.journal, &mut desk.noted, answer);
    }

    /// The desk let the stream take offers, or made it refuse them.
    pub(crate) fn note_switch(&mut self, desk: &mut StreamSeat, active: bool)
        requires { desk.old.table ≡ self.old.table }
        ensures account { self.new ≡ journal_after desk.old.who (switch_step active) self.old }
        ensures seat { desk.new ≡ seat_after (switch_step active) desk.old }
    {
        note_switch(&mut self.journal, &mut desk.noted, active);
    }

    /// Changes nothing, and shows that what the producer noted is all that is noted in its seat's name.
    pub(crate) fn audit(&mut self, producer: &mut Seat<StreamStep>)
        requires { producer.old.table ≡ self.old.table }
        ensures same { (self.new ≡ self.old) × (producer.new ≡ producer.old) }
        ensures own { IsSeatOf self.old producer.old }
    {
        self.journal.audit(producer);
    }

    /// The same of a drainer, or of the desk.
    pub(crate) fn audit_of_stream(&mut self, seat: &mut StreamSeat)
        requires { seat.old.table ≡ self.old.table }
        ensures same { (self.new ≡ self.old) × (seat.new ≡ seat.old) }
        ensures own { IsSeatOf self.old seat.old }
    {
        self.journal.audit(&mut seat.noted);
    }
    /// Joins another seat to the desk's, and shows that what is noted in all their names is what they have. It takes no memory.
    pub(crate) fn join(&mut self, desk: &mut StreamSeat, other: Seat<StreamStep>)
        requires desk { desk.old.table ≡ self.old.table }
        requires other { other.table ≡ self.old.table }
        ensures account { self.new ≡ self.old }
        ensures seat { desk.new ≡ seat_with other desk.old }
        ensures own { IsSeatOf self.old desk.new }
    {
        self.journal.join(&mut desk.noted, other);
    }
}
