//! A stream under a lock of its own.

ghost use Rattle.std.specs.Prelude.{◌≡◌, ◌≢◌, ◌≤◌, ◌<◌, ◌+◌, ◌^◌, Ok, Err, IsOk, IfOk, IfErr, OnErr, [], length};
ghost use Rattle.tr_accounts.specs.StreamSteps.{switch_step, taken_in};
ghost use Rattle.tr_accounts.specs.Seats.{desk_seat};
ghost use Rattle.tr_journal.specs.Journals.{seat_after};
ghost use Rattle.tr_seats.specs.Accounts.{IsAccountOf, IsOperatedBy, IsSeatAt, IsTakeSeat, IsTakenFrom, seat_noting_clear, seat_noting_cut};
ghost use Rattle.tr_seats.specs.Clears.{seat_after_clear};
ghost use Rattle.tr_seats.specs.Cuts.{seat_after_cut, seat_of_cuts_after};
ghost use Rattle.tr_seats.specs.Desks.{with_operator};
ghost use Rattle.tr_seats.specs.Drainers.{drainer_after};
ghost use Rattle.tr_seats.specs.Slots.{IsOwn, producer_after, slot_after_offer, slot_after_split, slot_after_take, slot_offer_answer, slot_split_answer, slot_take_answer, serial_of};
ghost use Rattle.tr_ledger.specs.Ledgers.{seat_state};
ghost use Rattle.tr_seats.specs.Books.{IsPlanned, IsTooBig, books_at};
ghost use Rattle.tr_seats.specs.Sums.{totals_in};
ghost use Rattle.tr_session.specs.Sizes.{HoldsItsParts};
ghost use Rattle.tr_session_book.specs.BookSteps.{is_active};
ghost use Rattle.tr_terms.specs.declared.limits.TheConstants.{MOST_OFFERS};
ghost use Rattle.tr_stream.specs.Consistent.{IsConsistent};
ghost use Rattle.tr_stream.specs.Kept.{IsKept};
ghost use Rattle.tr_stream.specs.Steps.{ClearsSome};
ghost use Rattle.tr_stream.specs.StateSteps.{state_after_clear, state_after_cut, state_after_switch, state_clear_answer, state_counts, state_cut_answer, state_snap};

use crate::account::{Account, StreamSeat};
use crate::desk::Desk;
use crate::drainer::Drainer;
use crate::names::Names;
use crate::producer::Producer;
use std::alloc::{AllocError, Allocator, Global};
use std::marker::{Model, PhantomData};
use tr_book::{Counts, StreamSnap};
use tr_ledger::{Ledger, Seat};
use tr_session_book::SessionFault;
use tr_stream::{
    ClearFault, Cleared, CutDone, CutFault, OfferFault, Offered, Removed, Spares, Stream,
    TakeFault, Taken,
};
use tr_terms::limits::MOST_DRAINERS;
use tr_terms::{Moment, SessionMode};

/// A stream with its number, its books and its account, which its lock guards. Contracts see a `SlotState`.
#[derive(Drop)]
pub struct Slot<N: Names, A: Allocator = Global> {
    pub(crate) number: usize,
    pub(crate) stream: Stream<A>,
    pub(crate) offered: Ledger<A>,
    pub(crate) discarded: Ledger<A>,
    pub(crate) overwritten: Ledger<A>,
    pub(crate) overwritten_packets: Ledger<A>,
    pub(crate) consumed: Ledger<A>,
    pub(crate) cuts: Ledger<A>,
    pub(crate) cleared: Ledger<A>,
    pub(crate) account: Account<A>,
    // the packets that the last clear removed, until they are taken out
    pub(crate) removed: Option<Removed<A>>,
    pub(crate) of: PhantomData<N>,
}

impl<N: Names, A: Allocator> Model for Slot<N, A> {
    ghost use Rattle.std.specs.Prelude.{◌<◌, length};
    ghost use Rattle.tr_seats.specs.Accounts.{IsKeptAccount};
    ghost use Rattle.tr_seats.specs.Books.{AreBooksOf, IsPlanned, books_at};
    ghost use Rattle.tr_seats.specs.Slots.{SlotState, slot_state};

    ghost Value = { SlotState };

    ghost view = { λ s. slot_state s.number s.stream s.consumed.made };

    // the totals of its books are the stream's counts, it is the stream that the plan made for its number, and what is noted of
    // it leads to it
    ghost invariant = { λ s. (s.number < length N.plan.books)
        × AreBooksOf (books_at N.plan.books s.number) s.stream s.consumed.made s.offered s.discarded s.overwritten
        s.overwritten_packets s.consumed s.cuts s.cleared
        × IsPlanned N.plan s.number s.stream.config
        × IsKeptAccount (books_at N.plan.books s.number).journal s.stream s.consumed.made s.account };
}

impl<N: Names, A: Allocator + Copy> Slot<N, A> {
    /// Offers a record as the stream does, moves the producer's seats by what was answered, and notes the offer with its
    /// answer. An offer by the producer of another stream is `Misplaced`, and isn't noted. An offer that is refused changes
    /// nothing else. No offer takes memory.
    #[inline(always)]
    pub fn offer(
        &mut self,
        producer: &mut Producer<N, A>,
        moment: Moment,
        id: u32,
        payload: &[u8],
    ) -> Result<Offered, OfferFault>
        ensures value { (result ≡ slot_offer_answer producer.old.number moment id payload.now self.old)
            × (self.new ≡ slot_after_offer producer.old.number moment id payload.now self.old) }
        ensures seats { producer.new ≡ producer_after moment id payload.now result producer.old }
        ensures serial { IfOk result (λ offered. serial_of offered ≡ producer.old.offered) }
        ensures too_big { result ≡ Err OfferFault.TooBig
            → IsTooBig N.plan producer.old.number (length payload.now) }
        ensures spent { result ≡ Err OfferFault.Spent → MOST_OFFERS ≤ producer.old.offered }
    {
        if producer.number != self.number {
            return Err(OfferFault::Misplaced);
        }
        self.stream.shows_kept();
        let answer = self.stream.offer(moment, id, payload);
        self.account
            .note_offer(&mut producer.account, moment, id, payload, answer);
        let offered = match answer {
            Ok(offered) => offered,
            Err(fault) => {
                // the producer has offered what the stream was offered, so it knows whether the stream is spent
                self.audit(producer);
                return Err(fault);
            }
        };
        // a stream is sound, so there is room for what its books are raised by
        self.stream.shows_kept();
        self.offered.raise_by_one(&mut producer.offered);
        match offered {
            Offered::Stored { .. } => {}
            Offered::StoredOver { gone_count, .. } => {
                self.overwritten
                    .raise(&mut producer.overwritten, gone_count);
                self.overwritten_packets
                    .raise_by_one(&mut producer.overwritten_packets);
            }
            Offered::Discarded { .. } => {
                self.discarded.raise_by_one(&mut producer.discarded);
            }
        }
        Ok(offered)
    }

    /// Takes a packet as the stream does, raises the drainer's seat of this stream by the packet's records (at least one), and
    /// notes the packet in its name. A take from another stream than that of number `i` is `Misplaced`. A take that is refused
    /// changes nothing, and isn't noted.
    pub fn take(&mut self, drainer: &mut Drainer<N, A>, i: usize) -> Result<Taken, TakeFault>
        ensures value { result ≢ Err TakeFault.NoMemory →
            (result ≡ slot_take_answer i self.old) × (self.new ≡ slot_after_take i self.old) }
        ensures seats { drainer.new ≡ drainer_after result i drainer.old }
        ensures some { IfOk result (λ taken. 1 ≤ taken.count) }
        ensures no_memory { result ≡ Err TakeFault.NoMemory → self.new ≡ self.old }
        ensures memory { result ≡ Err TakeFault.NoMemory → IsOk (slot_take_answer i self.old) }
    {
        if i != self.number {
            return Err(TakeFault::Misplaced);
        }
        self.stream.shows_kept();
        let taken = self.stream.take()?;
        self.account.note_take(&mut drainer.takes[i], Ok(taken));
        self.stream.shows_kept();
        self.consumed.raise(&mut drainer.seats[i], taken.count);
        Ok(taken)
    }

    /// What the stream has now, as `Stream::peek` shows it. Nothing changes.
    pub fn peek(&self, moment: Moment) -> Result<StreamSnap<A>, AllocError>
        ensures value { IfOk result (λ snap. snap ≡ state_snap moment self.now.stream) }
        ensures memory { OnErr result ((state_snap moment self.now.stream).packets ≢ []) }
    {
        self.stream.peek(moment)
    }
}

impl<N: Names, A: Allocator> Slot<N, A> {
    /// The stream's number.
    pub fn number(&self) -> usize
        ensures number { result ≡ self.now.number }
        ensures there { result < length N.plan.books }
    {
        self.number
    }

    /// Does nothing, and shows what the stream keeps, and that the plan made it for this number.
    pub fn shows_planned(&self)
        ensures kept { IsKept self.now.stream }
        ensures consistent { IsConsistent self.now.stream }
        ensures planned { IsPlanned N.plan self.now.number self.now.stream.config }
    {
        self.stream.shows_kept();
    }

    /// The stream itself, to read: the one that the plan made for this number. None of its parts was released.
    pub fn stream(&self) -> &Stream<A>
        ensures value { result.now ≡ self.now.stream }
        ensures planned { IsPlanned N.plan self.now.number self.now.stream.config }
        ensures held { HoldsItsParts self.now.stream }
    {
        &self.stream
    }

    /// How many seats of the consumed records were made beside the first.
    pub fn made(&self) -> u64
        ensures { result ≡ self.now.made }
    {
        self.consumed.made()
    }

    /// How many records were offered, and where they are.
    pub fn counts(&self) -> Counts
        ensures value { result ≡ state_counts self.now.stream }
        ensures total { result.discarded + result.overwritten + result.cleared + result.in_ring + result.in_chunks
            ≡ result.offered }
        ensures consumed { result.consumed ≡ result.in_chunks + result.withdrawn }
        ensures withdrawn { result.withdrawn ≤ result.cleared }
        ensures snapshot_session { self.now.stream.config.session ≡ SessionMode.Snapshot
            → (result.consumed ≡ 0) × (result.cleared ≡ 0) }
    {
        self.stream.counts()
    }

    /// Lets the stream take offers if the session is active at its desk, or makes it refuse them, by an operator of its own.
    pub fn set_active(&mut self, desk: &mut Desk<N, A>)
        ensures value { self.new ≡ record self.old {
          stream = state_after_switch (is_active desk.old.book.state) self.old.stream;
        } }
        ensures after { desk.new ≡ with_operator desk.old }
    {
        let mut operator = desk.operator();
        let number = self.number;
        // the stream is that of its own number, so this isn't refused
        let _ = desk.switch_by(&mut operator, self, number);
    }

    /// Lets the stream take offers, or makes it refuse them, and notes it in the desk's name.
    pub(crate) fn switch(&mut self, desk: &mut StreamSeat, active: bool)
        requires { IsSeatAt (books_at N.plan.books self.old.number).journal desk_seat desk.old }
        ensures value { self.new ≡ record self.old { stream = state_after_switch active self.old.stream } }
        ensures seat { desk.new ≡ seat_after (switch_step active) desk.old }
    {
        self.stream.set_active(active);
        self.account.note_switch(desk, active);
    }

    /// A new seat of the records consumed from this stream. It takes no memory.
    ///
    /// # Errors
    ///
    /// `Misplaced` if the stream isn't that of number `i`, `TooMany`: nothing changed.
    pub fn split(&mut self, i: usize) -> Result<Seat, SessionFault>
        ensures answer { result ≡ slot_split_answer N.plan.books i self.old }
        ensures after { self.new ≡ slot_after_split i self.old }
    {
        match self.split_both(i) {
            Ok((seat, _)) => Ok(seat),
            Err(fault) => Err(fault),
        }
    }

    /// The same with a new seat of the takes from this stream, of which nothing was noted: a stream has as many of each.
    ///
    /// # Errors
    ///
    /// Those of `split`.
    pub(crate) fn split_both(&mut self, i: usize) -> Result<(Seat, StreamSeat), SessionFault>
        ensures answer { IfOk result (λ b. Ok b.0 ≡ slot_split_answer N.plan.books i self.old) }
        ensures refused { IfErr result (λ fault. Err fault ≡ slot_split_answer N.plan.books i self.old) }
        ensures after { self.new ≡ slot_after_split i self.old }
        ensures takes { IfOk result (λ b. IsTakeSeat (books_at N.plan.books self.old.number).journal b.1 × (b.1.own ≡ [])) }
    {
        if i != self.number {
            return Err(SessionFault::Misplaced);
        }
        if self.consumed.made() >= MOST_DRAINERS {
            return Err(SessionFault::TooMany);
        }
        let takes = self.account.split(self.number);
        let seat = self.consumed.split();
        Ok((seat, takes))
    }

    /// Changes nothing, and shows that what a drainer's seat noted of its takes is what the stream has.
    pub(crate) fn audit_takes(&mut self, seat: &mut StreamSeat)
        requires { IsTakeSeat (books_at N.plan.books self.old.number).journal seat.old }
        ensures same { (self.new ≡ self.old) × (seat.new ≡ seat.old) }
        ensures taken { IsTakenFrom (taken_in seat.old.own) self.old.stream }
    {
        self.stream.shows_kept();
        self.account.audit_of_stream(seat);
    }

    /// Changes nothing, and shows that what the desk's seat noted of the stream's operations is what the stream has.
    pub(crate) fn audit_operations(&mut self, seat: &mut StreamSeat)
        requires { IsSeatAt (books_at N.plan.books self.old.number).journal desk_seat seat.old }
        ensures same { (self.new ≡ self.old) × (seat.new ≡ seat.old) }
        ensures operated { IsOperatedBy seat.old.own self.old.stream }
    {
        self.account.audit_of_stream(seat);
    }

    /// Changes nothing, and shows that the numbers of the stream's producer are the stream's own, and that what it offered is
    /// what the stream has.
    pub fn audit(&mut self, producer: &mut Producer<N, A>)
        requires { producer.old.number ≡ self.old.number }
        ensures same { (self.new ≡ self.old) × (producer.new ≡ producer.old) }
        ensures own { IsOwn producer.old (totals_in self.old.stream) }
        ensures accounts { IsAccountOf producer.old.steps self.old.stream }
    {
        self.offered.audit(&mut producer.offered);
        self.discarded.audit(&mut producer.discarded);
        self.overwritten.audit(&mut producer.overwritten);
        self.overwritten_packets
            .audit(&mut producer.overwritten_packets);
        self.account.audit(&mut producer.account);
    }

    /// Joins a seat of this stream's consumed records into another. It takes no memory.
    pub(crate) fn join(&mut self, mine: &mut Seat, other: Seat)
        requires mine { mine.old.table ≡ (books_at N.plan.books self.old.number).consumed }
        requires other { other.table ≡ (books_at N.plan.books self.old.number).consumed }
        ensures slot { self.new ≡ self.old }
        ensures seat { mine.new
            ≡ seat_state mine.old.table (mine.old.amount + other.amount) (mine.old.mark + other.mark) }
    {
        self.consumed.join(mine, other);
    }

    /// Cuts the stream as it does itself, raises the desk's seats of it, that of its records by those that the cut moved and
    /// that of its cuts by one, and notes the cut in the desk's name.
    ///
    /// # Errors
    ///
    /// Those of `Stream::cut`: nothing changed.
    pub(crate) fn cut(
        &mut self,
        consumed: &mut Seat,
        cuts: &mut Seat,
        desk: &mut StreamSeat,
        moment: Moment,
    ) -> Result<CutDone, CutFault>
    where
        A: Copy,
        requires consumed { consumed.old.table ≡ (books_at N.plan.books self.old.number).consumed }
        requires cuts { cuts.old.table ≡ (books_at N.plan.books self.old.number).cuts }
        requires desk { IsSeatAt (books_at N.plan.books self.old.number).journal desk_seat desk.old }
        requires room { (totals_in self.old.stream).cuts + 1 < 2 ^ 64 }
        ensures value { result ≢ Err CutFault.NoMemory → (result ≡ state_cut_answer moment self.old.stream)
            × (self.new ≡ record self.old { stream = state_after_cut moment self.old.stream }) }
        ensures consumed { consumed.new ≡ seat_after_cut result consumed.old }
        ensures cuts { cuts.new ≡ seat_of_cuts_after result cuts.old }
        ensures desk { desk.new ≡ seat_noting_cut moment result desk.old }
        ensures no_memory { result ≡ Err CutFault.NoMemory → self.new ≡ self.old }
        ensures memory { result ≡ Err CutFault.NoMemory → IsOk (state_cut_answer moment self.old.stream) }
    {
        self.stream.shows_kept();
        let done = self.stream.cut(moment)?;
        self.account.note_cut(desk, moment, Ok(done));
        self.stream.shows_kept();
        self.consumed.raise(consumed, done.records);
        self.cuts.raise_by_one(cuts);
        Ok(done)
    }

    /// Changes nothing, and shows that a whole seat of the consumed records has the stream's count of them.
    pub(crate) fn audit_consumed(&mut self, mine: &mut Seat)
        requires { mine.old.table ≡ (books_at N.plan.books self.old.number).consumed }
        ensures same { (self.new ≡ self.old) × (mine.new ≡ mine.old) }
        ensures whole { mine.old.mark ≡ self.old.made + 1 → mine.old.amount ≡ (totals_in self.old.stream).consumed }
    {
        self.consumed.audit(mine);
    }

    /// Changes nothing, and shows that the whole seat of the cuts has the stream's count of them, and that the plan made
    /// this stream.
    pub(crate) fn audit_cuts(&mut self, mine: &mut Seat)
        requires { mine.old.table ≡ (books_at N.plan.books self.old.number).cuts }
        ensures same { (self.new ≡ self.old) × (mine.new ≡ mine.old) }
        ensures whole { mine.old.mark ≡ 1 → mine.old.amount ≡ (totals_in self.old.stream).cuts }
        ensures planned { IsPlanned N.plan self.old.number self.old.stream.config }
    {
        self.cuts.audit(mine);
    }

    /// Clears the stream as it does itself, raises the desk's seat of its cleared records by those that were removed, and notes
    /// the clear in the desk's name. It is the stream that the plan made for its number.
    ///
    /// # Errors
    ///
    /// Those of `Stream::clear`: nothing changed.
    pub(crate) fn clear(
        &mut self,
        cleared: &mut Seat,
        desk: &mut StreamSeat,
    ) -> Result<Cleared, ClearFault>
    where
        A: Copy,
        requires cleared { cleared.old.table ≡ (books_at N.plan.books self.old.number).cleared }
        requires desk { IsSeatAt (books_at N.plan.books self.old.number).journal desk_seat desk.old }
        ensures value { result ≢ Err ClearFault.NoMemory → (result ≡ state_clear_answer self.old.stream)
            × (self.new ≡ record self.old { stream = state_after_clear self.old.stream }) }
        ensures seat { cleared.new ≡ seat_after_clear result cleared.old }
        ensures desk { desk.new ≡ seat_noting_clear result desk.old }
        ensures no_memory { result ≡ Err ClearFault.NoMemory → self.new ≡ self.old }
        ensures memory { result ≡ Err ClearFault.NoMemory → ClearsSome (state_clear_answer self.old.stream) }
        ensures planned { IsPlanned N.plan self.old.number self.old.stream.config }
    {
        self.stream.shows_kept();
        let (done, removed) = self.stream.clear_out()?;
        self.removed = Some(removed);
        self.account.note_clear(desk, Ok(done));
        self.stream.shows_kept();
        self.cleared.raise(cleared, done.records);
        Ok(done)
    }

    /// Changes nothing, and shows that the whole seat of the cleared records has the stream's count of them.
    pub(crate) fn audit_cleared(&mut self, mine: &mut Seat)
        requires { mine.old.table ≡ (books_at N.plan.books self.old.number).cleared }
        ensures same { (self.new ≡ self.old) × (mine.new ≡ mine.old) }
        ensures whole { mine.old.mark ≡ 1 → mine.old.amount ≡ (totals_in self.old.stream).cleared }
    {
        self.cleared.audit(mine);
    }

    /// The stream, out of its slot.
    pub(crate) fn into_stream(self) -> Stream<A>
        ensures value { result ≡ self.stream }
        ensures held { HoldsItsParts self.stream }
    {
        let Slot {
            number: _,
            stream,
            offered: _,
            discarded: _,
            overwritten: _,
            overwritten_packets: _,
            consumed: _,
            cuts: _,
            cleared: _,
            account: _,
            removed: _,
            of: _,
        } = self;
        stream
    }
}
