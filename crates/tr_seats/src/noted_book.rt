//! A session's book, with the journal of what operators do to it.

ghost use Rattle.std.specs.Prelude.{◌≡◌, ◌≢◌, ◌+◌, ◌<◌, ◌^◌, ◌↔◌, [], Ok, Err, IsOk, IsTrue, length};
ghost use Rattle.tr_operations.specs.Operations.{IsStepOf};
ghost use Rattle.tr_operations.specs.declared.step.DeskStep.TheVariants as step;
ghost use Rattle.tr_seats.specs.Books.{IsPlanned, books_at};
ghost use Rattle.tr_seats.specs.Clears.{seat_after_clear};
ghost use Rattle.tr_seats.specs.Cuts.{book_if_cut, seat_after_cut, seat_of_cuts_after};
ghost use Rattle.tr_seats.specs.Desks.{noted_state};
ghost use Rattle.tr_seats.specs.Histories.{AreDeskWith, operations_in};
ghost use Rattle.tr_seats.specs.Operators.{AreAllOperators, AreNewDeskSeats, AreOperatorsOf, HaveDone, new_operator, with_step};
ghost use Rattle.tr_seats.specs.Settling.{AreInPlace, HaveOperated, streams_of};
ghost use Rattle.tr_seats.specs.Sums.{totals_in};
ghost use Rattle.tr_session.specs.Steps.{clear_as_session, cut_as_step};
ghost use Rattle.tr_session_book.specs.BookSteps.{book_after_rotate_begin, book_after_rotate_finish, book_after_schedule, book_after_snapshot_begin, book_after_start, book_after_stop, book_clear_answer, book_rotate_begin_answer, book_rotate_finish_answer, book_schedule_answer, book_snapshot_begin_answer, book_start_answer, book_stop_answer, cut_moment, is_active};
ghost use Rattle.tr_stream.specs.StateSteps.{state_after_clear, state_after_cut, state_after_switch, state_clear_answer, state_cut_answer};
ghost use Rattle.tr_stream.specs.Steps.{ClearsSome};

use crate::account::StreamSeat;
use crate::histories::audit_operations;
use crate::names::Names;
use crate::operator::{Operator, audit_operators};
use crate::slot::Slot;
use std::alloc::{Allocator, Global};
use std::marker::{Model, PhantomData};
use tr_journal::Journal;
use tr_ledger::Seat;
use tr_operations::{DeskStep, note};
use tr_schedule::Schedule;
use tr_session::{StepFault, clear_fault};
use tr_session_book::{Archive, SessionBook, SessionFault, State};
use tr_stream::{ClearFault, Cleared, CutDone, CutFault};
use tr_terms::{Moment, SessionMode};

/// A session's book, the journal of its operators' steps, and the desk's seats in the journals of the streams, in order of
/// number: what is done to a stream is done here, so that both journals have it. Contracts see a `NotedState`.
#[derive(Drop)]
pub(crate) struct NotedBook<N: Names, A: Allocator = Global> {
    book: SessionBook<A>,
    journal: Journal<DeskStep, A>,
    streams: Vec<StreamSeat, A>,
    // how many were made, or the largest number
    operators: u128,
    of: PhantomData<N>,
}

impl<N: Names, A: Allocator> Model for NotedBook<N, A> {
    ghost use Rattle.tr_seats.specs.Desks.{NotedState, noted_state};
    ghost use Rattle.tr_seats.specs.Operators.{IsDeskJournal, operators_of};

    ghost Value = { NotedState };

    ghost view = { λ b. noted_state b.book (operators_of b.journal.made) };

    ghost invariant = { λ b. IsDeskJournal N.plan b.operators b.book b.journal b.streams.items };
}

impl<N: Names, A: Allocator> NotedBook<N, A> {
    /// The book that was planned, with its journal, of which nothing was noted.
    pub(crate) fn new(
        book: SessionBook<A>,
        journal: Journal<DeskStep, A>,
        streams: Vec<StreamSeat, A>,
    ) -> NotedBook<N, A>
        requires book { book ≡ N.plan.session.book }
        requires journal { (journal.table ≡ N.plan.desk) × (journal.lines ≡ []) × (journal.made ≡ 1) }
        requires streams { AreNewDeskSeats (length N.plan.books) N.plan.books streams.items }
        ensures { result ≡ noted_state book 0 }
    {
        NotedBook {
            book,
            journal,
            streams,
            operators: 0,
            of: PhantomData,
        }
    }

    /// The book, to read.
    pub(crate) fn book(&self) -> &SessionBook<A>
        ensures { result.now ≡ self.now.book }
    {
        &self.book
    }

    /// The book itself, and the desk's seats in the journals of the streams, in order of number; and whether these are all
    /// operators that were made, in that order.
    pub(crate) fn into_parts(
        self,
        operators: &mut [Operator<N>],
    ) -> (SessionBook<A>, Vec<StreamSeat, A>, bool)
        ensures book { result.0 ≡ self.book }
        ensures streams { AreDeskWith N.plan.books [] result.1.items }
        ensures same { operators.new ≡ operators.old }
        ensures lent { IsTrue result.2 ↔ AreAllOperators self.operators operators.old }
        ensures done { HaveDone N.plan.session.book operators.old result.2 self.book (operations_in result.1.items) }
    {
        let NotedBook {
            book,
            mut journal,
            streams,
            operators: made,
            of: _,
        } = self;
        let all = audit_operators(&mut journal, operators, made);
        (book, streams, all)
    }

    /// A new operator, who did nothing yet. It takes no memory.
    pub(crate) fn operator(&mut self) -> Operator<N>
        ensures after { self.new ≡ record self.old { operators = self.old.operators + 1 } }
        ensures new { result ≡ new_operator (self.old.operators + 1) }
    {
        if self.operators < u128::MAX {
            self.operators += 1;
        }
        Operator {
            number: self.operators,
            seat: self.journal.split(),
            of: PhantomData,
        }
    }

    /// Changes nothing, and shows that what each did is what the book has. Answers whether they are all that were made, in order.
    pub(crate) fn audit_all(&mut self, operators: &mut [Operator<N>]) -> bool
        ensures same { (self.new ≡ self.old) × (operators.new ≡ operators.old) }
        ensures lent { IsTrue result ↔ AreAllOperators self.old.operators operators.old }
        ensures own { AreOperatorsOf N.plan.session.book operators.old result self.old.book }
    {
        audit_operators(&mut self.journal, operators, self.operators)
    }

    pub(crate) fn start(
        &mut self,
        operator: &mut Operator<N>,
        moment: Moment,
    ) -> Result<(), SessionFault>
        ensures answer { result ≡ book_start_answer self.old.book }
        ensures after { self.new ≡ record self.old { book = book_after_start moment self.old.book } }
        ensures steps { operator.new ≡ with_step (step.Start moment result) operator.old }
    {
        let answer = self.book.start(moment);
        note(
            &mut self.journal,
            &mut operator.seat,
            DeskStep::Start { moment, answer },
        );
        answer
    }

    pub(crate) fn stop(&mut self, operator: &mut Operator<N>) -> Result<(), SessionFault>
        ensures answer { result ≡ book_stop_answer self.old.book }
        ensures after { self.new ≡ record self.old { book = book_after_stop self.old.book } }
        ensures steps { operator.new ≡ with_step (step.Stop result) operator.old }
    {
        let answer = self.book.stop();
        note(
            &mut self.journal,
            &mut operator.seat,
            DeskStep::Stop { answer },
        );
        answer
    }

    /// Switches the stream in a slot to what the session is.
    pub(crate) fn switch(&mut self, operator: &mut Operator<N>, slot: &mut Slot<N, A>)
        ensures slot { slot.new
            ≡ record slot.old { stream = state_after_switch (is_active self.old.book.state) slot.old.stream } }
        ensures same { self.new ≡ self.old }
        ensures steps { operator.new
            ≡ with_step (step.Switch slot.old.number (is_active self.old.book.state)) operator.old }
    {
        let stream = slot.number();
        let active = self.book.state() == State::Active;
        slot.switch(&mut self.streams[stream], active);
        note(
            &mut self.journal,
            &mut operator.seat,
            DeskStep::Switch { stream, active },
        );
    }

    pub(crate) fn set_schedule(
        &mut self,
        operator: &mut Operator<N>,
        schedule: Option<Schedule>,
    ) -> Result<(), SessionFault>
        ensures answer { result ≡ book_schedule_answer self.old.book }
        ensures after { self.new ≡ record self.old { book = book_after_schedule schedule self.old.book } }
        ensures steps { operator.new ≡ with_step (step.SetSchedule schedule result) operator.old }
    {
        let wanted = schedule;
        let answer = self.book.set_schedule(wanted);
        note(
            &mut self.journal,
            &mut operator.seat,
            DeskStep::SetSchedule { schedule, answer },
        );
        answer
    }

    pub(crate) fn snapshot_begin(
        &mut self,
        operator: &mut Operator<N>,
        moment: Moment,
    ) -> Result<Moment, SessionFault>
        ensures answer { result ≡ book_snapshot_begin_answer moment self.old.book }
        ensures after { self.new ≡ record self.old { book = book_after_snapshot_begin moment self.old.book } }
        ensures steps { operator.new ≡ with_step (step.SnapshotBegin moment result) operator.old }
    {
        let answer = self.book.snapshot_begin(moment);
        let noted = answer;
        let step = DeskStep::SnapshotBegin {
            moment,
            answer: noted,
        };
        note(&mut self.journal, &mut operator.seat, step);
        answer
    }

    pub(crate) fn rotate_begin(
        &mut self,
        operator: &mut Operator<N>,
        moment: Moment,
    ) -> Result<u64, SessionFault>
    where
        A: Copy,
        ensures value { result ≢ Err SessionFault.NoMemory →
            (result ≡ book_rotate_begin_answer self.old.book)
            × (self.new ≡ record self.old { book = book_after_rotate_begin moment self.old.book }) }
        ensures no_memory { result ≡ Err SessionFault.NoMemory → self.new ≡ self.old }
        ensures memory { result ≡ Err SessionFault.NoMemory → IsOk (book_rotate_begin_answer self.old.book) }
        ensures steps { operator.new ≡ with_step (step.RotateBegin moment result) operator.old }
    {
        let answer = self.book.rotate_begin(moment);
        note(
            &mut self.journal,
            &mut operator.seat,
            DeskStep::RotateBegin { moment, answer },
        );
        answer
    }

    /// Cuts the stream in a slot, whose cut is due, and raises the desk's seats of it, as the slot does.
    ///
    /// # Errors
    ///
    /// Those of `Slot::cut`: nothing changed, and the operator has the call with its answer.
    pub(crate) fn cut(
        &mut self,
        operator: &mut Operator<N>,
        slot: &mut Slot<N, A>,
        consumed: &mut Seat,
        cuts: &mut Seat,
        moment: Moment,
    ) -> Result<CutDone, CutFault>
    where
        A: Copy,
        requires due { cut_moment slot.old.number self.old.book ≡ Ok moment }
        requires consumed { consumed.old.table ≡ (books_at N.plan.books slot.old.number).consumed }
        requires cuts { cuts.old.table ≡ (books_at N.plan.books slot.old.number).cuts }
        requires room { (totals_in slot.old.stream).cuts + 1 < 2 ^ 64 }
        ensures value { result ≢ Err CutFault.NoMemory → (result ≡ state_cut_answer moment slot.old.stream)
            × (slot.new ≡ record slot.old { stream = state_after_cut moment slot.old.stream }) }
        ensures consumed { consumed.new ≡ seat_after_cut result consumed.old }
        ensures cuts { cuts.new ≡ seat_of_cuts_after result cuts.old }
        ensures no_memory { result ≡ Err CutFault.NoMemory → slot.new ≡ slot.old }
        ensures memory { result ≡ Err CutFault.NoMemory → IsOk (state_cut_answer moment slot.old.stream) }
        ensures after { self.new ≡ record self.old { book = book_if_cut result self.old.book } }
        ensures steps { operator.new ≡ with_step (step.Cut slot.old.number (cut_as_step result)) operator.old }
    {
        let stream = slot.number();
        match slot.cut(consumed, cuts, &mut self.streams[stream], moment) {
            Ok(done) => {
                // the cut is due, so this isn't refused
                let _ = self.book.note_cut(stream as u64);
                let answer = Ok(done);
                let step = DeskStep::Cut { stream, answer };
                note(&mut self.journal, &mut operator.seat, step);
                Ok(done)
            }
            Err(fault) => {
                let answer = Err(StepFault::Cut(fault));
                let step = DeskStep::Cut { stream, answer };
                note(&mut self.journal, &mut operator.seat, step);
                Err(fault)
            }
        }
    }

    /// Notes that a cut was refused.
    pub(crate) fn note_refused_cut(
        &mut self,
        operator: &mut Operator<N>,
        stream: usize,
        fault: StepFault,
    )
        requires { IsStepOf (step.Cut stream (Err fault)) self.old.book self.old.book }
        ensures same { self.new ≡ self.old }
        ensures steps { operator.new ≡ with_step (step.Cut stream (Err fault)) operator.old }
    {
        note(
            &mut self.journal,
            &mut operator.seat,
            DeskStep::Cut {
                stream,
                answer: Err(fault),
            },
        );
    }

    pub(crate) fn rotate_finish(
        &mut self,
        operator: &mut Operator<N>,
    ) -> Result<Archive, SessionFault>
        ensures answer { result ≡ book_rotate_finish_answer self.old.book }
        ensures local { self.old.book.mode ≡ SessionMode.Snapshot → result ≡ Err SessionFault.NotPending }
        ensures after { self.new ≡ record self.old { book = book_after_rotate_finish self.old.book } }
        ensures steps { operator.new ≡ with_step (step.RotateFinish result) operator.old }
    {
        let answer = self.book.rotate_finish();
        let noted = answer;
        let step = DeskStep::RotateFinish { answer: noted };
        note(&mut self.journal, &mut operator.seat, step);
        answer
    }

    /// Clears the stream in a slot, and raises the desk's seat of it, as the slot does, if the book allows it.
    ///
    /// # Errors
    ///
    /// Those of `Slot::clear`: nothing changed, and the operator has the call with its answer.
    pub(crate) fn clear(
        &mut self,
        operator: &mut Operator<N>,
        slot: &mut Slot<N, A>,
        cleared: &mut Seat,
    ) -> Result<Cleared, ClearFault>
    where
        A: Copy,
        requires allowed { IsOk (book_clear_answer self.old.book) }
        requires cleared { cleared.old.table ≡ (books_at N.plan.books slot.old.number).cleared }
        ensures value { result ≢ Err ClearFault.NoMemory → (result ≡ state_clear_answer slot.old.stream)
            × (slot.new ≡ record slot.old { stream = state_after_clear slot.old.stream }) }
        ensures seat { cleared.new ≡ seat_after_clear result cleared.old }
        ensures no_memory { result ≡ Err ClearFault.NoMemory → slot.new ≡ slot.old }
        ensures memory { result ≡ Err ClearFault.NoMemory → ClearsSome (state_clear_answer slot.old.stream) }
        ensures planned { IsPlanned N.plan slot.old.number slot.old.stream.config }
        ensures same { self.new ≡ self.old }
        ensures steps { operator.new ≡ with_step (step.Clear slot.old.number (clear_as_session result)) operator.old }
    {
        let stream = slot.number();
        match slot.clear(cleared, &mut self.streams[stream]) {
            Ok(done) => {
                let answer = Ok(done);
                let step = DeskStep::Clear { stream, answer };
                note(&mut self.journal, &mut operator.seat, step);
                Ok(done)
            }
            Err(fault) => {
                let answer = Err(clear_fault(fault));
                let step = DeskStep::Clear { stream, answer };
                note(&mut self.journal, &mut operator.seat, step);
                Err(fault)
            }
        }
    }

    /// Notes that the book refused to have a stream cleared.
    pub(crate) fn note_refused_clear(
        &mut self,
        operator: &mut Operator<N>,
        stream: usize,
        fault: SessionFault,
    )
        requires { book_clear_answer self.old.book ≡ Err fault }
        ensures same { self.new ≡ self.old }
        ensures steps { operator.new ≡ with_step (step.Clear stream (Err fault)) operator.old }
    {
        let answer = Err(fault);
        let step = DeskStep::Clear { stream, answer };
        note(&mut self.journal, &mut operator.seat, step);
    }

    /// The same, and shows that what all operators did to the streams in these slots is what those have.
    pub(crate) fn audit_streams(
        &mut self,
        operators: &mut [Operator<N>],
        slots: &mut [Slot<N, A>],
    ) -> bool
        requires { (length slots.old ≡ length N.plan.books) × AreInPlace slots.old }
        ensures same { (self.new ≡ self.old) × (operators.new ≡ operators.old) × (slots.new ≡ slots.old) }
        ensures lent { IsTrue result ↔ AreAllOperators self.old.operators operators.old }
        ensures own { HaveOperated N.plan.session.book operators.old result self.old.book (streams_of slots.old) }
    {
        audit_operations(slots, self.streams.as_mut_slice());
        audit_operators(&mut self.journal, operators, self.operators)
    }
}
