//! Clears of a shared session.

ghost use Rattle.std.specs.Prelude.{◌≡◌, ◌↔◌, Err, IfErr, length};
ghost use Rattle.tr_shared.specs.Operating.{IsClearFault};
ghost use Rattle.tr_shared.specs.Operators.{IsClearOf};

use crate::shared::Shared;
use std::alloc::Allocator;
use std::sync::Wait;
use tr_seats::{Names, Operator};
use tr_session_book::SessionFault;
use tr_terms::SessionMode;

impl<N: Names, A: Allocator + Copy> Shared<N, A> {
    /// Removes all records that the rings and the current chunk hold, stream after stream, each under its own lock; the
    /// desk's lock is held until all are done. Answers how many records were removed. Packets that workers take from a stream
    /// after its turn stay in the current chunk.
    ///
    /// # Errors
    ///
    /// `SnapshotMode`, `NeverStarted`, `RotationPending`: nothing changed. `NoMemory`, and `Misplaced` if a stream isn't where
    /// its number says: the streams before it are cleared, the others are as they were, and the call can be made again.
    pub fn clear(&self, rt: &impl Wait) -> Result<u128, SessionFault>
        ensures refused { IfErr result IsClearFault }
        ensures mode { result ≡ Err SessionFault.SnapshotMode ↔ N.plan.session.book.mode ≡ SessionMode.Snapshot }
    {
        let mut operator = self.operator(rt);
        self.clear_by(rt, &mut operator)
    }

    /// The same, in an operator's name.
    ///
    /// # Errors
    ///
    /// Those of `clear`.
    pub fn clear_by(&self, rt: &impl Wait, operator: &mut Operator<N>) -> Result<u128, SessionFault>
        ensures refused { IfErr result IsClearFault }
        ensures mode { result ≡ Err SessionFault.SnapshotMode ↔ N.plan.session.book.mode ≡ SessionMode.Snapshot }
        ensures steps { IsClearOf (length N.plan.books) operator.old result operator.new }
    {
        let mut desk = self.desk.lock(rt);
        desk.shows_plan();
        desk.clear_allowed()?;
        let mut records = 0;
        for i in 0..self.slots.len() {
            let mut slot = self.slots[i].lock(rt);
            let cleared = desk.clear_by(operator, &mut slot, i)?;
            records += u128::from(cleared.records);
            // their memory is freed once the stream's lock is given back
            let removed = slot.take_removed();
            drop(slot);
            drop(removed);
        }
        Ok(records)
    }
}
