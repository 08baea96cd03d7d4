//! What clears do at a desk.

ghost use Rattle.std.specs.Prelude.{◌≡◌, ◌≢◌, ◌+◌, ◌<◌, Err, length};
ghost use Rattle.tr_seats.specs.Clears.{desk_after_clear, desk_clear_answer, slot_after_clear};
ghost use Rattle.tr_seats.specs.Desks.{with_operator};
ghost use Rattle.tr_seats.specs.Operators.{operator_after_clear};
ghost use Rattle.tr_session.specs.Steps.{ClearsPackets};
ghost use Rattle.tr_session_book.specs.BookSteps.{book_clear_answer};

use crate::desk::Desk;
use crate::names::Names;
use crate::operator::Operator;
use crate::slot::Slot;
use std::alloc::Allocator;
use tr_session::clear_fault;
use tr_session_book::SessionFault;
use tr_stream::Cleared;
use tr_terms::SessionMode;

impl<N: Names, A: Allocator + Copy> Desk<N, A> {
    /// Clears the stream in a slot, which is to be that of number `i`, if the session's book allows it. The desk's seat of
    /// that stream's cleared records rises by those that were removed; the book stays as it is.
    ///
    /// # Errors
    ///
    /// `Misplaced` if another stream is in the slot, `SnapshotMode`, `NeverStarted`, `RotationPending`, `NoMemory`: nothing
    /// changed.
    pub fn clear(&mut self, slot: &mut Slot<N, A>, i: usize) -> Result<Cleared, SessionFault>
        ensures value { result ≢ Err SessionFault.NoMemory →
            (result ≡ desk_clear_answer i self.old slot.old) × (slot.new ≡ slot_after_clear i self.old slot.old) }
        ensures seats { self.new ≡ desk_after_clear result i (with_operator self.old) }
        ensures no_memory { result ≡ Err SessionFault.NoMemory → slot.new ≡ slot.old }
        ensures memory { result ≡ Err SessionFault.NoMemory → ClearsPackets (desk_clear_answer i self.old slot.old) }
        ensures mode { result ≡ Err SessionFault.SnapshotMode → N.plan.session.book.mode ≡ SessionMode.Snapshot }
    {
        let mut operator = self.operator();
        self.clear_by(&mut operator, slot, i)
    }

    /// The same, in an operator's name.
    ///
    /// # Errors
    ///
    /// Those of `clear`: the operator has the call with its answer too, if the stream is in the slot.
    pub fn clear_by(
        &mut self,
        operator: &mut Operator<N>,
        slot: &mut Slot<N, A>,
        i: usize,
    ) -> Result<Cleared, SessionFault>
        ensures value { result ≢ Err SessionFault.NoMemory →
            (result ≡ desk_clear_answer i self.old slot.old) × (slot.new ≡ slot_after_clear i self.old slot.old) }
        ensures seats { self.new ≡ desk_after_clear result i self.old }
        ensures no_memory { result ≡ Err SessionFault.NoMemory → slot.new ≡ slot.old }
        ensures memory { result ≡ Err SessionFault.NoMemory → ClearsPackets (desk_clear_answer i self.old slot.old) }
        ensures mode { result ≡ Err SessionFault.SnapshotMode → N.plan.session.book.mode ≡ SessionMode.Snapshot }
        ensures steps { operator.new ≡ operator_after_clear result i slot.old operator.old }
    {
        if i != slot.number() {
            return Err(SessionFault::Misplaced);
        }
        if let Err(fault) = self.book().clear_allowed() {
            self.book.note_refused_clear(operator, i, fault);
            return Err(fault);
        }
        let done = match self.book.clear(operator, slot, &mut self.cleared[i]) {
            Ok(done) => done,
            Err(fault) => return Err(clear_fault(fault)),
        };
        Ok(done)
    }

    /// Whether the session's streams can be cleared, as its book says. Nothing changes.
    ///
    /// # Errors
    ///
    /// `SnapshotMode`, `NeverStarted`, `RotationPending`.
    pub fn clear_allowed(&self) -> Result<(), SessionFault>
        ensures { result ≡ book_clear_answer self.now.book }
    {
        self.book().clear_allowed()
    }
}
