//! What an operator does at a desk: schedules, switches, rotations with their cuts, and the beginning of snapshots.

ghost use Rattle.std.specs.Prelude.{◌≡◌, ◌≢◌, ◌+◌, ◌<◌, ◌^◌, Ok, Err, IsOk, length};
ghost use Rattle.tr_operations.specs.declared.step.DeskStep.TheVariants as step;
ghost use Rattle.tr_seats.specs.Cuts.{desk_after_cut, desk_cut_answer, slot_after_cut};
ghost use Rattle.tr_seats.specs.Desks.{with_operator};
ghost use Rattle.tr_seats.specs.Operators.{operator_after_cut, operator_after_switch, slot_after_switch, switch_answer, with_step};
ghost use Rattle.tr_seats.specs.Sums.{totals_in};
ghost use Rattle.tr_session.specs.Steps.{cut_as_step};
ghost use Rattle.tr_session_book.specs.BookSteps.{book_after_rotate_begin, book_after_rotate_finish, book_after_schedule, book_after_snapshot_begin, book_rotate_begin_answer, book_rotate_finish_answer, book_schedule_answer, book_snapshot_begin_answer, chunks_closed, cut_moment};
ghost use Rattle.tr_stream.specs.StateSteps.{state_after_cut, state_cut_answer};

use crate::desk::Desk;
use crate::names::Names;
use crate::operator::Operator;
use crate::slot::Slot;
use std::alloc::Allocator;
use tr_schedule::Schedule;
use tr_session::StepFault;
use tr_session_book::{Archive, SessionFault};
use tr_stream::{CutDone, CutFault};
use tr_terms::{Moment, SessionMode};

impl<N: Names, A: Allocator> Desk<N, A> {
    /// Sets when rotations are due, as the session's book does.
    ///
    /// # Errors
    ///
    /// `SnapshotMode`: nothing changed.
    pub fn set_schedule(&mut self, schedule: Option<Schedule>) -> Result<(), SessionFault>
        ensures answer { result ≡ book_schedule_answer self.old.book }
        ensures after { self.new ≡ record (with_operator self.old) { book = book_after_schedule schedule self.old.book } }
    {
        let mut operator = self.operator();
        self.set_schedule_by(&mut operator, schedule)
    }

    /// The same, in an operator's name.
    ///
    /// # Errors
    ///
    /// Those of `set_schedule`: the operator has the call with its answer too.
    pub fn set_schedule_by(
        &mut self,
        operator: &mut Operator<N>,
        schedule: Option<Schedule>,
    ) -> Result<(), SessionFault>
        ensures answer { result ≡ book_schedule_answer self.old.book }
        ensures after { self.new ≡ record self.old { book = book_after_schedule schedule self.old.book } }
        ensures steps { operator.new ≡ with_step (step.SetSchedule schedule result) operator.old }
    {
        self.book.set_schedule(operator, schedule)
    }

    /// Switches the stream in a slot, which is to be that of number `i`, in an operator's name: it takes offers from now on if
    /// the session is active, and else refuses them.
    ///
    /// # Errors
    ///
    /// `Misplaced` if another stream is in the slot: nothing changed, and the operator didn't do it.
    pub fn switch_by(
        &mut self,
        operator: &mut Operator<N>,
        slot: &mut Slot<N, A>,
        i: usize,
    ) -> Result<(), SessionFault>
        ensures answer { result ≡ switch_answer i slot.old }
        ensures slot { slot.new ≡ slot_after_switch i self.old slot.old }
        ensures same { self.new ≡ self.old }
        ensures steps { operator.new ≡ operator_after_switch i self.old slot.old operator.old }
    {
        if i != slot.number() {
            return Err(SessionFault::Misplaced);
        }
        self.book.switch(operator, slot);
        Ok(())
    }

    /// Begins a snapshot, as the session's book does, and answers with the moment that is stored.
    ///
    /// # Errors
    ///
    /// `NotSnapshotMode`, `NeverStarted`: nothing changed.
    pub fn snapshot_begin(&mut self, moment: Moment) -> Result<Moment, SessionFault>
        ensures answer { result ≡ book_snapshot_begin_answer moment self.old.book }
        ensures after { self.new ≡ record (with_operator self.old) { book = book_after_snapshot_begin moment self.old.book } }
    {
        let mut operator = self.operator();
        self.snapshot_begin_by(&mut operator, moment)
    }

    /// The same, in an operator's name.
    ///
    /// # Errors
    ///
    /// Those of `snapshot_begin`: the operator has the call with its answer too.
    pub fn snapshot_begin_by(
        &mut self,
        operator: &mut Operator<N>,
        moment: Moment,
    ) -> Result<Moment, SessionFault>
        ensures answer { result ≡ book_snapshot_begin_answer moment self.old.book }
        ensures after { self.new ≡ record self.old { book = book_after_snapshot_begin moment self.old.book } }
        ensures steps { operator.new ≡ with_step (step.SnapshotBegin moment result) operator.old }
    {
        self.book.snapshot_begin(operator, moment)
    }

    /// Ends a rotation that has cut every stream, as the session's book does. It takes no memory.
    ///
    /// # Errors
    ///
    /// `NotPending`, `CutMissing`: nothing changed.
    pub fn rotate_finish(&mut self) -> Result<Archive, SessionFault>
        ensures answer { result ≡ book_rotate_finish_answer self.old.book }
        ensures mode { self.old.book.mode ≡ SessionMode.Snapshot → result ≡ Err SessionFault.NotPending }
        ensures after { self.new ≡ record (with_operator self.old) { book = book_after_rotate_finish self.old.book } }
    {
        let mut operator = self.operator();
        self.rotate_finish_by(&mut operator)
    }

    /// The same, in an operator's name.
    ///
    /// # Errors
    ///
    /// Those of `rotate_finish`: the operator has the call with its answer too.
    pub fn rotate_finish_by(&mut self, operator: &mut Operator<N>) -> Result<Archive, SessionFault>
        ensures answer { result ≡ book_rotate_finish_answer self.old.book }
        ensures mode { self.old.book.mode ≡ SessionMode.Snapshot → result ≡ Err SessionFault.NotPending }
        ensures after { self.new ≡ record self.old { book = book_after_rotate_finish self.old.book } }
        ensures steps { operator.new ≡ with_step (step.RotateFinish result) operator.old }
    {
        self.book.rotate_finish(operator)
    }

    /// Changes nothing, and shows that the stream's closed chunks are the archives in number, and one more if the pending
    /// rotation has cut it.
    pub fn audit(&mut self, slot: &mut Slot<N, A>)
        ensures same { (self.new ≡ self.old) × (slot.new ≡ slot.old) }
        ensures operator { length slot.old.stream.parts.closed ≡ chunks_closed slot.old.number self.old.book }
    {
        let i = slot.number();
        slot.audit_cuts(&mut self.cuts[i]);
    }
}

impl<N: Names, A: Allocator + Copy> Desk<N, A> {
    /// Begins a rotation, as the session's book does, and answers with the number of the chunk that it will archive.
    ///
    /// # Errors
    ///
    /// `SnapshotMode`, `NeverStarted`, `RotationPending`, `AlreadyRotated`, `NoMemory`: nothing changed.
    pub fn rotate_begin(&mut self, moment: Moment) -> Result<u64, SessionFault>
        ensures value { result ≢ Err SessionFault.NoMemory →
            (result ≡ book_rotate_begin_answer self.old.book)
            × (self.new ≡ record (with_operator self.old) { book = book_after_rotate_begin moment self.old.book }) }
        ensures no_memory { result ≡ Err SessionFault.NoMemory → self.new ≡ with_operator self.old }
        ensures memory { result ≡ Err SessionFault.NoMemory → IsOk (book_rotate_begin_answer self.old.book) }
    {
        let mut operator = self.operator();
        self.rotate_begin_by(&mut operator, moment)
    }

    /// The same, in an operator's name.
    ///
    /// # Errors
    ///
    /// Those of `rotate_begin`: the operator has the call with its answer too.
    pub fn rotate_begin_by(
        &mut self,
        operator: &mut Operator<N>,
        moment: Moment,
    ) -> Result<u64, SessionFault>
        ensures value { result ≢ Err SessionFault.NoMemory →
            (result ≡ book_rotate_begin_answer self.old.book)
            × (self.new ≡ record self.old { book = book_after_rotate_begin moment self.old.book }) }
        ensures no_memory { result ≡ Err SessionFault.NoMemory → self.new ≡ self.old }
        ensures memory { result ≡ Err SessionFault.NoMemory → IsOk (book_rotate_begin_answer self.old.book) }
        ensures steps { operator.new ≡ with_step (step.RotateBegin moment result) operator.old }
    {
        self.book.rotate_begin(operator, moment)
    }

    /// Cuts the stream in a slot, which is to be that of number `i`, in the pending rotation, at that rotation's end. Streams
    /// are cut in order of number. The desk's seats of that stream rise: that of its consumed records by those that the cut
    /// moved, and that of its cuts by one.
    ///
    /// # Errors
    ///
    /// `Session(Misplaced)` if another stream is in the slot, `Session(NotPending)` if no rotation is pending or it has
    /// already cut the stream, `Session(CutMissing)` if a stream with a smaller number isn't cut, `Cut(NoMemory)`: nothing
    /// changed.
    pub fn cut(&mut self, slot: &mut Slot<N, A>, i: usize) -> Result<CutDone, StepFault>
        ensures value { result ≢ Err (StepFault.Cut CutFault.NoMemory) →
            (result ≡ desk_cut_answer i self.old slot.old) × (slot.new ≡ slot_after_cut i self.old slot.old) }
        ensures seats { self.new ≡ desk_after_cut result i (with_operator self.old) }
        ensures no_memory { result ≡ Err (StepFault.Cut CutFault.NoMemory) → slot.new ≡ slot.old }
        ensures memory { result ≡ Err (StepFault.Cut CutFault.NoMemory)
            → IsOk (desk_cut_answer i self.old slot.old) }
    {
        let mut operator = self.operator();
        self.cut_by(&mut operator, slot, i)
    }

    /// The same, in an operator's name.
    ///
    /// # Errors
    ///
    /// Those of `cut`: the operator has the call with its answer too, if the stream is in the slot.
    pub fn cut_by(
        &mut self,
        operator: &mut Operator<N>,
        slot: &mut Slot<N, A>,
        i: usize,
    ) -> Result<CutDone, StepFault>
        ensures value { result ≢ Err (StepFault.Cut CutFault.NoMemory) →
            (result ≡ desk_cut_answer i self.old slot.old) × (slot.new ≡ slot_after_cut i self.old slot.old) }
        ensures seats { self.new ≡ desk_after_cut result i self.old }
        ensures no_memory { result ≡ Err (StepFault.Cut CutFault.NoMemory) → slot.new ≡ slot.old }
        ensures memory { result ≡ Err (StepFault.Cut CutFault.NoMemory)
            → IsOk (desk_cut_answer i self.old slot.old) }
        ensures steps { operator.new ≡ operator_after_cut result i slot.old operator.old }
    {
        if i != slot.number() {
            return Err(StepFault::Session(SessionFault::Misplaced));
        }
        self.audit(slot);
        match self.book().cut_moment(i as u64) {
            Ok(moment) => self.cut_at(operator, slot, i, moment),
            Err(fault) => {
                let fault = StepFault::Session(fault);
                self.book.note_refused_cut(operator, i, fault);
                Err(fault)
            }
        }
    }

    /// Cuts a stream whose cut is due.
    fn cut_at(
        &mut self,
        operator: &mut Operator<N>,
        slot: &mut Slot<N, A>,
        i: usize,
        moment: Moment,
    ) -> Result<CutDone, StepFault>
        requires here { (i ≡ slot.old.number) × (i < length N.plan.books) }
        requires due { cut_moment i self.old.book ≡ Ok moment }
        requires room { (totals_in slot.old.stream).cuts + 1 < 2 ^ 64 }
        ensures value { result ≢ Err (StepFault.Cut CutFault.NoMemory) →
            (result ≡ cut_as_step (state_cut_answer moment slot.old.stream))
            × (slot.new ≡ record slot.old { stream = state_after_cut moment slot.old.stream }) }
        ensures seats { self.new ≡ desk_after_cut result i self.old }
        ensures no_memory { result ≡ Err (StepFault.Cut CutFault.NoMemory) → slot.new ≡ slot.old }
        ensures memory { result ≡ Err (StepFault.Cut CutFault.NoMemory)
            → IsOk (state_cut_answer moment slot.old.stream) }
        ensures steps { operator.new ≡ with_step (step.Cut i result) operator.old }
    {
        let (consumed, cuts) = (&mut self.consumed[i], &mut self.cuts[i]);
        let done = match self.book.cut(operator, slot, consumed, cuts, moment) {
            Ok(done) => done,
            Err(fault) => return Err(StepFault::Cut(fault)),
        };
        Ok(done)
    }
}
