//! Schedules, rotations and ticks of a shared session.

ghost use Rattle.std.specs.Prelude.{◌≡◌, ◌↔◌, Ok, Err, None, IfErr, IfOk, length};
ghost use Rattle.tr_operations.specs.declared.step.DeskStep.TheVariants as step;
ghost use Rattle.tr_seats.specs.Operators.{with_step};
ghost use Rattle.tr_session_book.specs.BookSteps.{book_schedule_answer};
ghost use Rattle.tr_shared.specs.Operating.{IsBeginFault, IsCutOf, IsEndFault, IsFinishFault, IsLookFault, IsNextFault, IsRotateFault};
ghost use Rattle.tr_shared.specs.Operators.{AreCutsOf, IsDueOf, IsEndOf, IsNextOf, IsRotationOf, IsTickOf};

use crate::rotating::{begin_if_due, cut_next, next_of};
use crate::shared::Shared;
use crate::stocking::stock_for_cut;
use std::alloc::Allocator;
use std::sync::Wait;
use tr_schedule::{Cause, Schedule};
use tr_seats::{Names, Operator};
use tr_session::{Next, Ticked};
use tr_session_book::{Archive, SessionFault};
use tr_terms::{Moment, SessionMode};

impl<N: Names, A: Allocator> Shared<N, A> {
    /// Sets when rotations are due: by this schedule, or never.
    ///
    /// # Errors
    ///
    /// `SnapshotMode`: nothing changed.
    pub fn set_schedule(
        &self,
        rt: &impl Wait,
        schedule: Option<Schedule>,
    ) -> Result<(), SessionFault>
        ensures answer { result ≡ book_schedule_answer N.plan.session.book }
        ensures refused { IfErr result (λ fault. fault ≡ SessionFault.SnapshotMode) }
    {
        let mut operator = self.operator(rt);
        self.set_schedule_by(rt, &mut operator, schedule)
    }

    /// The same, in an operator's name.
    ///
    /// # Errors
    ///
    /// Those of `set_schedule`.
    pub fn set_schedule_by(
        &self,
        rt: &impl Wait,
        operator: &mut Operator<N>,
        schedule: Option<Schedule>,
    ) -> Result<(), SessionFault>
        ensures answer { result ≡ book_schedule_answer N.plan.session.book }
        ensures refused { IfErr result (λ fault. fault ≡ SessionFault.SnapshotMode) }
        ensures steps { operator.new ≡ with_step (step.SetSchedule schedule result) operator.old }
    {
        let mut desk = self.desk.lock(rt);
        desk.shows_plan();
        desk.set_schedule_by(operator, schedule)
    }

    /// Ends a rotation that has cut every stream, and answers with the archive that it made. It takes no memory.
    ///
    /// # Errors
    ///
    /// `NotPending`, `CutMissing`: nothing changed.
    pub fn rotate_finish(&self, rt: &impl Wait) -> Result<Archive, SessionFault>
        ensures refused { IfErr result IsFinishFault }
        ensures mode { N.plan.session.book.mode ≡ SessionMode.Snapshot → result ≡ Err SessionFault.NotPending }
    {
        let mut operator = self.operator(rt);
        self.rotate_finish_by(rt, &mut operator)
    }

    /// The same, in an operator's name.
    ///
    /// # Errors
    ///
    /// Those of `rotate_finish`.
    pub fn rotate_finish_by(
        &self,
        rt: &impl Wait,
        operator: &mut Operator<N>,
    ) -> Result<Archive, SessionFault>
        ensures refused { IfErr result IsFinishFault }
        ensures mode { N.plan.session.book.mode ≡ SessionMode.Snapshot → result ≡ Err SessionFault.NotPending }
        ensures steps { operator.new ≡ with_step (step.RotateFinish result) operator.old }
    {
        let mut desk = self.desk.lock(rt);
        desk.shows_plan();
        desk.rotate_finish_by(operator)
    }
}

impl<N: Names, A: Allocator + Copy> Shared<N, A> {
    /// Begins a rotation at a moment, and answers with the number of the chunk that it will archive.
    ///
    /// # Errors
    ///
    /// `SnapshotMode`, `NeverStarted`, `RotationPending`, `AlreadyRotated`, `NoMemory`: nothing changed.
    pub fn rotate_begin(&self, rt: &impl Wait, moment: Moment) -> Result<u64, SessionFault>
        ensures mode { (result ≡ Err SessionFault.SnapshotMode) ↔ (N.plan.session.book.mode ≡ SessionMode.Snapshot) }
        ensures refused { IfErr result IsBeginFault }
    {
        let mut operator = self.operator(rt);
        self.rotate_begin_by(rt, &mut operator, moment)
    }

    /// The same, in an operator's name.
    ///
    /// # Errors
    ///
    /// Those of `rotate_begin`.
    pub fn rotate_begin_by(
        &self,
        rt: &impl Wait,
        operator: &mut Operator<N>,
        moment: Moment,
    ) -> Result<u64, SessionFault>
        ensures mode { (result ≡ Err SessionFault.SnapshotMode) ↔ (N.plan.session.book.mode ≡ SessionMode.Snapshot) }
        ensures refused { IfErr result IsBeginFault }
        ensures steps { operator.new ≡ with_step (step.RotateBegin moment result) operator.old }
    {
        let mut desk = self.desk.lock(rt);
        desk.shows_plan();
        desk.rotate_begin_by(operator, moment)
    }

    /// Lets the pending rotation cut its next stream, if there is one: the desk's lock and that stream's are held.
    ///
    /// # Errors
    ///
    /// `NotPending`, `NoMemory`, and `Misplaced` if the stream isn't where its number says: nothing changed.
    pub fn rotate_next(&self, rt: &impl Wait) -> Result<Next, SessionFault>
        ensures cut { IfOk result (IsCutOf (length N.plan.books)) }
        ensures refused { IfErr result IsNextFault }
        ensures mode { N.plan.session.book.mode ≡ SessionMode.Snapshot → result ≡ Err SessionFault.NotPending }
    {
        let mut operator = self.operator(rt);
        self.rotate_next_by(rt, &mut operator)
    }

    /// The same, in an operator's name.
    ///
    /// # Errors
    ///
    /// Those of `rotate_next`.
    pub fn rotate_next_by(
        &self,
        rt: &impl Wait,
        operator: &mut Operator<N>,
    ) -> Result<Next, SessionFault>
        ensures cut { IfOk result (IsCutOf (length N.plan.books)) }
        ensures refused { IfErr result IsNextFault }
        ensures mode { N.plan.session.book.mode ≡ SessionMode.Snapshot → result ≡ Err SessionFault.NotPending }
        ensures steps { IsNextOf operator.old result operator.new }
    {
        let mut desk = self.desk.lock(rt);
        let Some(i) = next_of(&desk)? else {
            return Ok(Next::AllCut);
        };
        let lock = &self.slots[i];
        stock_for_cut(rt, lock);
        let mut slot = lock.lock(rt);
        cut_next(&mut desk, operator, &mut slot, i)
    }

    /// Rotates the session at a moment: begins a rotation, cuts each stream and ends it. No lock is held from one of these
    /// steps to the next, so another operator's may come between: then this goes on with whatever rotation is pending.
    ///
    /// # Errors
    ///
    /// Those of `rotate_begin`: nothing changed. `NoMemory` or `Misplaced` once it has begun: it is pending with the cuts that
    /// were made, and `rotate_next` goes on. `NotPending` or `CutMissing` if another operator's steps came between.
    pub fn rotate(&self, rt: &impl Wait, moment: Moment) -> Result<Archive, SessionFault>
        ensures mode { (result ≡ Err SessionFault.SnapshotMode) ↔ (N.plan.session.book.mode ≡ SessionMode.Snapshot) }
        ensures refused { IfErr result IsRotateFault }
    {
        let mut operator = self.operator(rt);
        self.rotate_by(rt, &mut operator, moment)
    }

    /// The same, in an operator's name.
    ///
    /// # Errors
    ///
    /// Those of `rotate`.
    pub fn rotate_by(
        &self,
        rt: &impl Wait,
        operator: &mut Operator<N>,
        moment: Moment,
    ) -> Result<Archive, SessionFault>
        ensures mode { (result ≡ Err SessionFault.SnapshotMode) ↔ (N.plan.session.book.mode ≡ SessionMode.Snapshot) }
        ensures refused { IfErr result IsRotateFault }
        ensures steps { IsRotationOf moment operator.old result operator.new }
    {
        self.rotate_begin_by(rt, operator, moment)?;
        self.rotate_on(rt, operator)
    }

    /// Rotates the session, as `rotate` does, if its schedule says that a rotation is due at this moment. The desk's lock is
    /// held from the question to the beginning. An idle tick stores no moment.
    ///
    /// # Errors
    ///
    /// `NoMemory`, `Misplaced`: nothing changed, or a rotation was due and is pending with the cuts that were made.
    /// `NotPending` or `CutMissing` if another operator's steps came between.
    pub fn tick(&self, rt: &impl Wait, now: Moment) -> Result<Ticked, SessionFault>
        ensures refused { IfErr result IsEndFault }
        ensures mode { N.plan.session.book.mode ≡ SessionMode.Snapshot → result ≡ Ok Ticked.Idle }
    {
        let mut operator = self.operator(rt);
        self.tick_by(rt, &mut operator, now)
    }

    /// The same, in an operator's name.
    ///
    /// # Errors
    ///
    /// Those of `tick`.
    pub fn tick_by(
        &self,
        rt: &impl Wait,
        operator: &mut Operator<N>,
        now: Moment,
    ) -> Result<Ticked, SessionFault>
        ensures refused { IfErr result IsEndFault }
        ensures mode { N.plan.session.book.mode ≡ SessionMode.Snapshot → result ≡ Ok Ticked.Idle }
        ensures steps { IsTickOf now operator.old result operator.new }
    {
        let Some(cause) = self.begin_due(rt, operator, now)? else {
            return Ok(Ticked::Idle);
        };
        let archive = self.rotate_on(rt, operator)?;
        Ok(Ticked::Rotated { cause, archive })
    }

    /// Cuts each stream that the pending rotation hasn't cut, and ends it.
    fn rotate_on(&self, rt: &impl Wait, operator: &mut Operator<N>) -> Result<Archive, SessionFault>
        ensures refused { IfErr result IsEndFault }
        ensures steps { IsEndOf operator.old result operator.new }
    {
        self.cut_on(rt, operator)?;
        Ok(self.rotate_finish_by(rt, operator)?)
    }

    /// Cuts each stream that the pending rotation hasn't cut.
    fn cut_on(&self, rt: &impl Wait, operator: &mut Operator<N>) -> Result<(), SessionFault>
        ensures refused { IfErr result IsNextFault }
        ensures steps { AreCutsOf operator.old result operator.new }
    {
        for _ in 0..self.slots.len() {
            if self.rotate_next_by(rt, operator)? == Next::AllCut {
                break;
            }
        }
        Ok(())
    }

    /// Begins a rotation if one is due, and says why it is.
    fn begin_due(
        &self,
        rt: &impl Wait,
        operator: &mut Operator<N>,
        now: Moment,
    ) -> Result<Option<Cause>, SessionFault>
        ensures refused { IfErr result IsLookFault }
        ensures mode { N.plan.session.book.mode ≡ SessionMode.Snapshot → result ≡ Ok None }
        ensures steps { IsDueOf now operator.old result operator.new }
    {
        let mut desk = self.desk.lock(rt);
        if desk.book().schedule_in_force().is_none() {
            return Ok(None);
        }
        let sizes = self.current_sizes(rt)?;
        Ok(begin_if_due(&mut desk, operator, now, sizes.as_slice())?)
    }

    /// The bytes of each stream's current part, or the greatest u64 if they are more, one stream after another.
    fn current_sizes(&self, rt: &impl Wait) -> Result<Vec<u64, A>, SessionFault>
        ensures { IfErr result IsLookFault }
    {
        let mut sizes = Vec::with_capacity(self.alloc, self.slots.len())?;
        for i in 0..self.slots.len() {
            let slot = self.slots[i].lock(rt);
            if slot.number() != i {
                return Err(SessionFault::Misplaced);
            }
            sizes.push_reserved(slot.counts().current_bytes);
        }
        Ok(sizes)
    }
}
