//! Operators of a shared session, and how they start and stop it.

ghost use Rattle.std.specs.Prelude.{◌≡◌, ◌<◌, [], true, false, IfErr, length};
ghost use Rattle.tr_operations.specs.declared.step.DeskStep.TheVariants as step;
ghost use Rattle.tr_session_book.specs.BookSteps.{is_active};
ghost use Rattle.tr_shared.specs.Calls.{IsStartFault, IsStopFault};
ghost use Rattle.tr_shared.specs.Operators.{AreSwitched, IsSwitchOf};

use crate::shared::Shared;
use std::alloc::Allocator;
use std::sync::Wait;
use tr_seats::{Desk, Names, Operator};
use tr_session_book::SessionFault;
use tr_terms::Moment;

impl<N: Names, A: Allocator> Shared<N, A> {
    /// A new operator of this session, of the next number, who did nothing yet. Each call of an operator has a form that is lent
    /// one, and notes in its name just what was done at the desk, when, and with which answer. It takes no memory.
    pub fn operator(&self, rt: &impl Wait) -> Operator<N>
        ensures new { result.steps ≡ [] }
        ensures numbered { 0 < result.number }
    {
        let mut desk = self.desk.lock(rt);
        desk.operator()
    }

    /// Starts the session at a moment: its book, and then each of its streams, takes offers from now on. The desk's lock is
    /// held until all are switched.
    ///
    /// # Errors
    ///
    /// `RotationPending`, `AlreadyActive`: nothing changed. `Misplaced` if a stream isn't where its number says: the book,
    /// and the streams before it, have started.
    pub fn start(&self, rt: &impl Wait, moment: Moment) -> Result<(), SessionFault>
        ensures { IfErr result IsStartFault }
    {
        let mut operator = self.operator(rt);
        self.start_by(rt, &mut operator, moment)
    }

    /// The same, in an operator's name.
    ///
    /// # Errors
    ///
    /// Those of `start`.
    pub fn start_by(
        &self,
        rt: &impl Wait,
        operator: &mut Operator<N>,
        moment: Moment,
    ) -> Result<(), SessionFault>
        ensures refused { IfErr result IsStartFault }
        ensures steps { IsSwitchOf (step.Start moment) true (length N.plan.books) operator.old result operator.new }
    {
        let mut desk = self.desk.lock(rt);
        desk.start_by(operator, moment)?;
        self.switch(rt, &mut desk, operator)
    }

    /// Stops the session: its book, and then each of its streams, refuses offers from now on. The desk's lock is held until
    /// all are switched.
    ///
    /// # Errors
    ///
    /// `RotationPending`, `NotActive`: nothing changed. `Misplaced` if a stream isn't where its number says: the book, and
    /// the streams before it, have stopped.
    pub fn stop(&self, rt: &impl Wait) -> Result<(), SessionFault>
        ensures { IfErr result IsStopFault }
    {
        let mut operator = self.operator(rt);
        self.stop_by(rt, &mut operator)
    }

    /// The same, in an operator's name.
    ///
    /// # Errors
    ///
    /// Those of `stop`.
    pub fn stop_by(&self, rt: &impl Wait, operator: &mut Operator<N>) -> Result<(), SessionFault>
        ensures refused { IfErr result IsStopFault }
        ensures steps { IsSwitchOf step.Stop false (length N.plan.books) operator.old result operator.new }
    {
        let mut desk = self.desk.lock(rt);
        desk.stop_by(operator)?;
        self.switch(rt, &mut desk, operator)
    }

    /// Switches each stream to what the session is, one after another.
    fn switch(
        &self,
        rt: &impl Wait,
        desk: &mut Desk<N, A>,
        operator: &mut Operator<N>,
    ) -> Result<(), SessionFault>
        ensures desk { desk.new ≡ desk.old }
        ensures refused { IfErr result (λ fault. fault ≡ SessionFault.Misplaced) }
        ensures steps { AreSwitched (is_active desk.old.book.state) (length N.plan.books) operator.old result operator.new }
    {
        for i in 0..self.slots.len() {
            let mut slot = self.slots[i].lock(rt);
            desk.switch_by(operator, &mut slot, i)?;
        }
        Ok(())
    }
}
