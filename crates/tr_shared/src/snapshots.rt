//! Snapshots of a shared session.

ghost use Rattle.std.specs.Prelude.{◌≡◌, ◌≤◌, ◌<◌, ◌↔◌, Err, IfErr, IfOk, length};
ghost use Rattle.tr_seats.specs.Books.{IsPlan};
ghost use Rattle.tr_shared.specs.Operating.{IsLookFault, IsSnapshotFault};
ghost use Rattle.tr_shared.specs.Operators.{IsSnapshotOf};
ghost use Rattle.tr_shared.specs.Shown.{IsShown, IsShownWith, ShowsAll, ShowsOwn};

use crate::looking::{begin_snapshot, look, look_with};
use crate::shared::Shared;
use crate::stocking::copy_ahead;
use std::alloc::Allocator;
use std::sync::Wait;
use tr_book::StreamSnap;
use tr_seats::{Names, Operator, Producer};
use tr_session_book::SessionFault;
use tr_snapshot::Snapshot;
use tr_terms::{Moment, SessionMode};

impl<N: Names, A: Allocator + Copy> Shared<N, A> {
    /// A snapshot of the session: its moment is stored, and then each stream is shown as it is at that moment or its own last
    /// one, one after another, each under its own lock. The desk's lock is held until all are shown.
    ///
    /// # Errors
    ///
    /// `NotSnapshotMode`, `NeverStarted`: nothing changed. `NoMemory`, and `Misplaced` if a stream isn't where its number
    /// says: the moment is stored.
    pub fn snapshot(&self, rt: &impl Wait, moment: Moment) -> Result<Snapshot<A>, SessionFault>
        ensures moment { IfOk result (λ s. moment ≤ s.moment) }
        ensures all { IfOk result (λ s. length s.streams ≡ length N.plan.books) }
        ensures shown { IfOk result (ShowsAll N.plan) }
        ensures mode { (result ≡ Err SessionFault.NotSnapshotMode) ↔ (N.plan.session.book.mode ≡ SessionMode.Local) }
        ensures refused { IfErr result IsSnapshotFault }
    {
        let mut operator = self.operator(rt);
        self.snapshot_by(rt, &mut operator, moment)
    }

    /// The same, in an operator's name.
    ///
    /// # Errors
    ///
    /// Those of `snapshot`.
    pub fn snapshot_by(
        &self,
        rt: &impl Wait,
        operator: &mut Operator<N>,
        moment: Moment,
    ) -> Result<Snapshot<A>, SessionFault>
        ensures moment { IfOk result (λ s. moment ≤ s.moment) }
        ensures all { IfOk result (λ s. length s.streams ≡ length N.plan.books) }
        ensures shown { IfOk result (ShowsAll N.plan) }
        ensures mode { (result ≡ Err SessionFault.NotSnapshotMode) ↔ (N.plan.session.book.mode ≡ SessionMode.Local) }
        ensures refused { IfErr result IsSnapshotFault }
        ensures steps { IsSnapshotOf moment operator.old result operator.new }
    {
        let mut desk = self.desk.lock(rt);
        let stored = begin_snapshot(&mut desk, operator, moment)?;
        let mut snaps = Vec::with_capacity(self.alloc, self.slots.len())?;
        for i in 0..self.slots.len() {
            snaps.push_reserved(self.look_at(rt, i, stored)?);
        }
        Ok(Snapshot::new(stored, snaps))
    }

    /// A snapshot that shows of the producer's stream just what the producer offered, but the overwritten: no one offers on that
    /// stream meanwhile, since the producer is lent.
    ///
    /// # Errors
    ///
    /// Those of `snapshot`.
    pub fn snapshot_with(
        &self,
        rt: &impl Wait,
        producer: &mut Producer<N, A>,
        moment: Moment,
    ) -> Result<Snapshot<A>, SessionFault>
        ensures same { producer.new ≡ producer.old }
        ensures moment { IfOk result (λ s. moment ≤ s.moment) }
        ensures all { IfOk result (λ s. length s.streams ≡ length N.plan.books) }
        ensures there { producer.old.number < length N.plan.books }
        ensures shown { IfOk result (ShowsAll N.plan) }
        ensures own { IfOk result (ShowsOwn N.plan producer.old) }
        ensures mode { (result ≡ Err SessionFault.NotSnapshotMode) ↔ (N.plan.session.book.mode ≡ SessionMode.Local) }
        ensures refused { IfErr result IsSnapshotFault }
    {
        let _ = producer.stream();
        let mut desk = self.desk.lock(rt);
        let mut operator = desk.operator();
        let stored = begin_snapshot(&mut desk, &mut operator, moment)?;
        let mut snaps = Vec::with_capacity(self.alloc, self.slots.len())?;
        for i in 0..self.slots.len() {
            snaps.push_reserved(self.look_beside(rt, producer, i, stored)?);
        }
        Ok(Snapshot::new(stored, snaps))
    }

    /// What is shown of the stream of number `i`, under its lock.
    fn look_at(
        &self,
        rt: &impl Wait,
        i: usize,
        moment: Moment,
    ) -> Result<StreamSnap<A>, SessionFault>
        requires there { i < length N.plan.books }
        requires plan { IsPlan N.plan }
        requires mode { N.plan.session.book.mode ≡ SessionMode.Snapshot }
        ensures shown { IfOk result (IsShown N.plan moment i) }
        ensures refused { IfErr result IsLookFault }
    {
        copy_ahead(rt, &self.slots[i]);
        let mut slot = self.slots[i].lock(rt);
        look(&mut slot, i, moment)
    }

    /// The same, with the producer at hand if it is that stream's.
    fn look_beside(
        &self,
        rt: &impl Wait,
        producer: &mut Producer<N, A>,
        i: usize,
        moment: Moment,
    ) -> Result<StreamSnap<A>, SessionFault>
        requires there { i < length N.plan.books }
        requires plan { IsPlan N.plan }
        requires mode { N.plan.session.book.mode ≡ SessionMode.Snapshot }
        ensures same { producer.new ≡ producer.old }
        ensures shown { IfOk result (IsShown N.plan moment i) }
        ensures own { IfOk result (λ snap. producer.old.number ≡ i → IsShownWith N.plan moment producer.old snap) }
        ensures refused { IfErr result IsLookFault }
    {
        copy_ahead(rt, &self.slots[i]);
        let mut slot = self.slots[i].lock(rt);
        if i == producer.stream() {
            look_with(&mut slot, producer, moment)
        } else {
            look(&mut slot, i, moment)
        }
    }
}
