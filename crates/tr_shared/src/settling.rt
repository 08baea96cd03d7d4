//! The settling of a shared session.

ghost use Rattle.std.specs.Prelude.{◌≡◌, ◌≤◌, ◌↔◌, [], false, IfErr, IfOk, IsTrue, length, vec_capacity, vec_len};
ghost use Rattle.tr_seats.specs.Operators.{AreAllOperators};
ghost use Rattle.tr_seats.specs.Settling.{AddUp, AreAccountsOf, ArePacketsOf, AreTheirs, HaveOneHistory, IsOneEach, IsSessionOf, WereConsumed};
ghost use Rattle.tr_seats.specs.Sums.{totals_of};
ghost use Rattle.tr_shared.specs.Calls.{AreOffersOf, HaveTaken};

use crate::faults::SettleFault;
use crate::shared::Shared;
use std::alloc::Allocator;
use std::sync::Mutex;
use tr_events::Events;
use tr_seats::{
    Drainer, Names, Opened, Operator, Producer, SettleError, Settled, Slot, Totals, Unsettled,
};
use tr_terms::SessionMode;

/// A session that was settled, what all threads did, and whether all operators were lent.
type WithOperators<A> = (Settled<A>, Totals, bool);

impl<N: Names, A: Allocator + Copy> Shared<N, A> {
    /// The session of one owner that this one was, and what all threads did together, which is what the streams count and
    /// what the seats add up to. It takes no memory and waits for no lock.
    ///
    /// # Errors
    ///
    /// Those of `Opened::settle`: all that was given comes back, the streams in order of number.
    pub fn settle(
        self,
        producers: Vec<Producer<N, A>, A>,
        drainers: Vec<Drainer<N, A>, A>,
    ) -> Result<(Settled<A>, Totals), SettleFault<N, A>>
        ensures planned { IfOk result (λ r. IsSessionOf N.plan r.0) }
        ensures totals { IfOk result (λ r. r.1 ≡ totals_of r.0.streams) }
        ensures seats { IfOk result (λ r. AreOffersOf producers.items drainers.items r.1) }
        ensures own { IfOk result (λ r. AreTheirs producers.items r.0.streams) }
        ensures accounts { IfOk result (λ r. AreAccountsOf producers.items r.0.streams) }
        ensures taken { IfOk result (λ r. HaveTaken drainers.items r.0.streams) }
        ensures packets { IfOk result (λ r. ArePacketsOf drainers.items r.0.streams) }
        ensures histories { IfOk result (λ r. HaveOneHistory N.plan.session.book [] false producers.items drainers.items
            r.0.book r.0.streams) }
        ensures places { IfOk result (λ r. AddUp r.1 r.0.streams) }
        ensures consumed { IfOk result (λ r. WereConsumed r.1 r.0.streams) }
        ensures snapshot_session { N.plan.session.book.mode ≡ SessionMode.Snapshot
            → IfOk result (λ r. (r.1.consumed ≡ 0) × (r.1.cleared ≡ 0)) }
        ensures all { IfOk result (λ r. IsOneEach (length N.plan.books) producers.items) }
        ensures missing { IfErr result
            (λ f. f.fault ≡ SettleError.ProducerMissing ↔ (¬ IsOneEach (length N.plan.books) producers.items)) }
        ensures back { IfErr result (λ f. (f.producers ≡ producers) × (f.drainers ≡ drainers)) }
    {
        let mut nobody = Vec::new(self.alloc);
        let (opened, locks, events) = self.open();
        let none = nobody.as_mut_slice();
        match settle_opened(opened, none, locks, events, producers, drainers) {
            Ok((settled, totals, _)) => Ok((settled, totals)),
            Err(fault) => Err(fault),
        }
    }

    /// The same, which also shows that what each of these operators did is what the settled session has: its steps are all that
    /// the desk has of its number. It answers whether these are all operators that were made, in that order: if so, each step at
    /// the desk is one of theirs, and no other start, stop, switch, schedule, rotation, clear or snapshot was asked for. A call
    /// that was lent no operator made one for itself, which nobody can lend.
    ///
    /// # Errors
    ///
    /// Those of `settle`.
    pub fn settle_with(
        self,
        operators: &mut [Operator<N>],
        producers: Vec<Producer<N, A>, A>,
        drainers: Vec<Drainer<N, A>, A>,
    ) -> Result<WithOperators<A>, SettleFault<N, A>>
        ensures same { operators.new ≡ operators.old }
        ensures planned { IfOk result (λ r. IsSessionOf N.plan r.0) }
        ensures totals { IfOk result (λ r. r.1 ≡ totals_of r.0.streams) }
        ensures seats { IfOk result (λ r. AreOffersOf producers.items drainers.items r.1) }
        ensures own { IfOk result (λ r. AreTheirs producers.items r.0.streams) }
        ensures accounts { IfOk result (λ r. AreAccountsOf producers.items r.0.streams) }
        ensures taken { IfOk result (λ r. HaveTaken drainers.items r.0.streams) }
        ensures packets { IfOk result (λ r. ArePacketsOf drainers.items r.0.streams) }
        ensures lent { IfOk result (λ r. IsTrue r.2 → AreAllOperators (length operators.old) operators.old) }
        ensures histories { IfOk result (λ r. HaveOneHistory N.plan.session.book operators.old r.2 producers.items
            drainers.items r.0.book r.0.streams) }
        ensures places { IfOk result (λ r. AddUp r.1 r.0.streams) }
        ensures consumed { IfOk result (λ r. WereConsumed r.1 r.0.streams) }
        ensures snapshot_session { N.plan.session.book.mode ≡ SessionMode.Snapshot
            → IfOk result (λ r. (r.1.consumed ≡ 0) × (r.1.cleared ≡ 0)) }
        ensures all { IfOk result (λ r. IsOneEach (length N.plan.books) producers.items) }
        ensures missing { IfErr result
            (λ f. f.fault ≡ SettleError.ProducerMissing ↔ (¬ IsOneEach (length N.plan.books) producers.items)) }
        ensures back { IfErr result (λ f. (f.producers ≡ producers) × (f.drainers ≡ drainers)) }
    {
        let (opened, locks, events) = self.open();
        settle_opened(opened, operators, locks, events, producers, drainers)
    }
}

/// Settles a session out of its locks, or puts it under them again.
fn settle_opened<N: Names, A: Allocator + Copy>(
    opened: Opened<N, A>,
    operators: &mut [Operator<N>],
    locks: Vec<Mutex<Slot<N, A>>, A>,
    events: Events<A>,
    producers: Vec<Producer<N, A>, A>,
    drainers: Vec<Drainer<N, A>, A>,
) -> Result<WithOperators<A>, SettleFault<N, A>>
    requires slots { length opened.slots ≡ length N.plan.books }
    requires locks { (vec_len locks ≡ 0) × (length N.plan.books ≤ vec_capacity locks) }
    requires events { events ≡ N.plan.session.book.events }
    ensures same { operators.new ≡ operators.old }
    ensures planned { IfOk result (λ r. IsSessionOf N.plan r.0) }
    ensures totals { IfOk result (λ r. r.1 ≡ totals_of r.0.streams) }
    ensures seats { IfOk result (λ r. AreOffersOf producers.items drainers.items r.1) }
    ensures own { IfOk result (λ r. AreTheirs producers.items r.0.streams) }
    ensures accounts { IfOk result (λ r. AreAccountsOf producers.items r.0.streams) }
    ensures taken { IfOk result (λ r. HaveTaken drainers.items r.0.streams) }
    ensures packets { IfOk result (λ r. ArePacketsOf drainers.items r.0.streams) }
    ensures lent { IfOk result (λ r. IsTrue r.2 ↔ AreAllOperators opened.desk.operators operators.old) }
    ensures histories { IfOk result (λ r. HaveOneHistory N.plan.session.book operators.old r.2 producers.items drainers.items
        r.0.book r.0.streams) }
    ensures places { IfOk result (λ r. AddUp r.1 r.0.streams) }
    ensures consumed { IfOk result (λ r. WereConsumed r.1 r.0.streams) }
    ensures snapshot_session { N.plan.session.book.mode ≡ SessionMode.Snapshot
        → IfOk result (λ r. (r.1.consumed ≡ 0) × (r.1.cleared ≡ 0)) }
    ensures all { IfOk result (λ r. IsOneEach (length N.plan.books) producers.items) }
    ensures missing { IfErr result
        (λ f. f.fault ≡ SettleError.ProducerMissing ↔ (¬ IsOneEach (length N.plan.books) producers.items)) }
    ensures back { IfErr result (λ f. (f.producers ≡ producers) × (f.drainers ≡ drainers)) }
{
    match opened.settle_with(operators, producers, drainers) {
        Ok(settled) => Ok(settled),
        Err(unsettled) => {
            let Unsettled {
                error: fault,
                opened,
                producers,
                drainers,
            } = unsettled;
            let (alloc, desk, slots, room) = opened.into_parts();
            Err(SettleFault {
                fault,
                shared: Shared::close(alloc, desk, slots, room, locks, events),
                producers,
                drainers,
            })
        }
    }
}
