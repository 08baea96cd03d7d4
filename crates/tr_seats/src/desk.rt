//! The book of a session, as its lock guards it.

ghost use Rattle.std.specs.Prelude.{◌≡◌, ◌≢◌, ◌+◌, ◌↔◌, Err, IsOk, IsTrue, length};
ghost use Rattle.tr_operations.specs.declared.step.DeskStep.TheVariants as step;
ghost use Rattle.tr_seats.specs.Books.{IsPlan};
ghost use Rattle.tr_seats.specs.Desks.{IsOfPlan, desk_after_begin, desk_begin_answer, with_operator};
ghost use Rattle.tr_seats.specs.Operators.{AreAllOperators, AreOperatorsOf, new_operator, with_step};
ghost use Rattle.tr_seats.specs.Settling.{AreInPlace, HaveOperated, streams_of};
ghost use Rattle.tr_session_book.specs.BookSteps.{book_after_start, book_after_stop, book_start_answer, book_stop_answer};

use crate::drainer::DrainerBegun;
use crate::names::Names;
use crate::noted_book::NotedBook;
use crate::operator::Operator;
use crate::slot::Slot;
use std::alloc::{Allocator, Global};
use std::marker::{Model, PhantomData};
use tr_ledger::Seat;
use tr_session_book::{SessionBook, SessionFault};
use tr_terms::Moment;
use tr_terms::limits::MOST_DRAINERS;

/// A session's book with the journal of its operators' steps, and the seats of what rotations consume and cut, and of what clears
/// remove. Contracts see a `DeskState`.
#[derive(Drop)]
pub struct Desk<N: Names, A: Allocator = Global> {
    pub(crate) book: NotedBook<N, A>,
    pub(crate) drainers: u64,
    pub(crate) consumed: Vec<Seat, A>,
    pub(crate) cuts: Vec<Seat, A>,
    pub(crate) cleared: Vec<Seat, A>,
    pub(crate) of: PhantomData<N>,
}

impl<N: Names, A: Allocator> Model for Desk<N, A> {
    ghost use Rattle.tr_seats.specs.Desks.{DeskState, IsDesk, desk_state};
    ghost use Rattle.tr_seats.specs.Slots.{amounts_of};

    ghost Value = { DeskState };

    ghost view = { λ d. desk_state d.book d.drainers (amounts_of d.consumed.items) (amounts_of d.cuts.items)
        (amounts_of d.cleared.items) };

    ghost invariant = { λ d. IsDesk N.plan d.book.book d.consumed.items d.cuts.items d.cleared.items };
}

impl<N: Names, A: Allocator> Desk<N, A> {
    /// A new operator, of the next number, who did nothing at this desk yet. It takes no memory.
    pub fn operator(&mut self) -> Operator<N>
        ensures after { self.new ≡ with_operator self.old }
        ensures new { result ≡ new_operator (self.old.operators + 1) }
    {
        self.book.operator()
    }

    /// Changes nothing, and shows that what each of these operators did is what the session's book has. Answers whether they are
    /// all that were made, in that order: if so, each step at this desk is one of theirs, and none is missing. A call that was
    /// lent no operator made one for itself, which nobody can lend.
    pub fn audit_operators(&mut self, operators: &mut [Operator<N>]) -> bool
        ensures same { (self.new ≡ self.old) × (operators.new ≡ operators.old) }
        ensures lent { IsTrue result ↔ AreAllOperators self.old.operators operators.old }
        ensures own { AreOperatorsOf N.plan.session.book operators.old result self.old.book }
    {
        self.book.audit_all(operators)
    }

    /// The same, and shows that what all operators did to the streams in these slots is what those have.
    pub(crate) fn audit_streams(
        &mut self,
        operators: &mut [Operator<N>],
        slots: &mut [Slot<N, A>],
    ) -> bool
        requires { (length slots.old ≡ length N.plan.books) × AreInPlace slots.old }
        ensures same { (self.new ≡ self.old) × (operators.new ≡ operators.old) × (slots.new ≡ slots.old) }
        ensures lent { IsTrue result ↔ AreAllOperators self.old.operators operators.old }
        ensures own { HaveOperated N.plan.session.book operators.old result self.old.book (streams_of slots.old) }
    {
        self.book.audit_streams(operators, slots)
    }

    /// Starts the session at a moment, as its book does: its streams are to be switched next.
    ///
    /// # Errors
    ///
    /// `RotationPending`, `AlreadyActive`: nothing changed.
    pub fn start(&mut self, moment: Moment) -> Result<(), SessionFault>
        ensures answer { result ≡ book_start_answer self.old.book }
        ensures after { self.new ≡ record (with_operator self.old) { book = book_after_start moment self.old.book } }
    {
        let mut operator = self.operator();
        self.start_by(&mut operator, moment)
    }

    /// The same, in an operator's name.
    ///
    /// # Errors
    ///
    /// Those of `start`: the operator has the call with its answer too.
    pub fn start_by(
        &mut self,
        operator: &mut Operator<N>,
        moment: Moment,
    ) -> Result<(), SessionFault>
        ensures answer { result ≡ book_start_answer self.old.book }
        ensures after { self.new ≡ record self.old { book = book_after_start moment self.old.book } }
        ensures steps { operator.new ≡ with_step (step.Start moment result) operator.old }
    {
        self.book.start(operator, moment)
    }

    /// Stops the session, as its book does: its streams are to be switched next.
    ///
    /// # Errors
    ///
    /// `RotationPending`, `NotActive`: nothing changed.
    pub fn stop(&mut self) -> Result<(), SessionFault>
        ensures answer { result ≡ book_stop_answer self.old.book }
        ensures after { self.new ≡ record (with_operator self.old) { book = book_after_stop self.old.book } }
    {
        let mut operator = self.operator();
        self.stop_by(&mut operator)
    }

    /// The same, in an operator's name.
    ///
    /// # Errors
    ///
    /// Those of `stop`: the operator has the call with its answer too.
    pub fn stop_by(&mut self, operator: &mut Operator<N>) -> Result<(), SessionFault>
        ensures answer { result ≡ book_stop_answer self.old.book }
        ensures after { self.new ≡ record self.old { book = book_after_stop self.old.book } }
        ensures steps { operator.new ≡ with_step (step.Stop result) operator.old }
    {
        self.book.stop(operator)
    }

    /// Begins a drainer: it is counted, and has room for the seats of all streams. Only this call of those that make a drainer
    /// takes memory. One that isn't finished after all is missing when the session is settled.
    ///
    /// # Errors
    ///
    /// `TooMany`, `NoMemory`: nothing changed.
    pub fn begin_drainer(&mut self, alloc: A) -> Result<DrainerBegun<N, A>, SessionFault>
    where
        A: Copy,
        ensures value { result ≢ Err SessionFault.NoMemory →
            (result ≡ desk_begin_answer self.old) × (self.new ≡ desk_after_begin self.old) }
        ensures no_memory { result ≡ Err SessionFault.NoMemory → self.new ≡ self.old }
        ensures memory { result ≡ Err SessionFault.NoMemory → IsOk (desk_begin_answer self.old) }
    {
        if self.drainers >= MOST_DRAINERS {
            return Err(SessionFault::TooMany);
        }
        let begun = DrainerBegun::new(alloc, self.consumed.len())?;
        self.drainers += 1;
        Ok(begun)
    }

    /// How many drainers were begun.
    pub fn drainers(&self) -> u64
        ensures { result ≡ self.now.drainers }
    {
        self.drainers
    }

    /// Does nothing, and shows that what was planned of the session is as it was.
    pub fn shows_plan(&self)
        ensures { IsPlan N.plan × IsOfPlan N.plan.session.book self.now.book }
    {
        // an invariant is known where a field is used
        let _ = &self.book;
    }

    /// What the session keeps beside its streams: what was planned of it is as it was.
    pub fn book(&self) -> &SessionBook<A>
        ensures value { result.now ≡ self.now.book }
        ensures planned { IsPlan N.plan × IsOfPlan N.plan.session.book self.now.book }
    {
        self.book.book()
    }
}
