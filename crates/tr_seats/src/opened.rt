//! A session out of its locks.

ghost use Rattle.std.specs.Prelude.{◌≡◌, ◌+◌, ◌≤◌, ◌↔◌, [], false, IfErr, IfOk, IsTrue, length, sum_by, vec_capacity, vec_len};
ghost use Rattle.tr_seats.specs.Operators.{AreAllOperators, AreOperatorsOf};
ghost use Rattle.tr_seats.specs.Settling.{AddUp, AreAccountsOf, AreInPlace, ArePacketsOf, AreTheirs, CanSettle, HaveOperated, HaveCleared, HaveConsumed, HaveOneHistory, WereConsumed, IsSessionOf, IsWhy, opened_state, streams_of, totals_of_seats};
ghost use Rattle.tr_seats.specs.Sums.{totals_of};
ghost use Rattle.tr_session.specs.Session.{session_of};

use crate::desk::Desk;
use crate::drainer::Drainer;
use crate::names::Names;
use crate::operator::Operator;
use crate::producer::Producer;
use crate::settled::Settled;
use crate::settling::{SettleError, are_in_place, settle_all, why_not};
use crate::slot::Slot;
use crate::totals::Totals;
use std::alloc::{Allocator, Global};
use std::marker::Model;
use tr_stream::Stream;
use tr_terms::SessionMode;

/// A session out of its locks: its desk, its streams by number, and room for these when they are settled. Contracts see an
/// `OpenedState`.
#[derive(Drop)]
pub struct Opened<N: Names, A: Allocator = Global> {
    alloc: A,
    desk: Desk<N, A>,
    slots: Vec<Slot<N, A>, A>,
    room: Vec<Stream<A>, A>,
}

impl<N: Names, A: Allocator> Model for Opened<N, A> {
    ghost use Rattle.std.specs.Prelude.{◌≡◌, ◌≤◌, length, vec_capacity, vec_len};
    ghost use Rattle.tr_seats.specs.Settling.{OpenedState, opened_state};

    ghost Value = { OpenedState };

    ghost view = { λ o. opened_state o.desk o.slots.items };

    ghost invariant = { λ o. (length o.slots.items ≡ length N.plan.books) × (vec_len o.room ≡ 0)
        × (length N.plan.books ≤ vec_capacity o.room) };
}

/// Why a session was not settled, and all that was to be settled, as it was.
#[derive(Drop)]
pub struct Unsettled<N: Names, A: Allocator = Global> {
    /// What is missing, or not in its place.
    pub error: SettleError,
    /// The session.
    pub opened: Opened<N, A>,
    /// The producers that were given.
    pub producers: Vec<Producer<N, A>, A>,
    /// The drainers that were given.
    pub drainers: Vec<Drainer<N, A>, A>,
}

/// A session that was settled, what all did together, and whether all operators were lent.
type WithOperators<A> = (Settled<A>, Totals, bool);

impl<N: Names, A: Allocator> Opened<N, A> {
    /// A session of its parts: its desk, a slot for each stream of the plan, and empty room for as many streams. It takes
    /// no memory.
    pub fn from_parts(
        alloc: A,
        desk: Desk<N, A>,
        slots: Vec<Slot<N, A>, A>,
        room: Vec<Stream<A>, A>,
    ) -> Opened<N, A>
        requires slots { length slots.items ≡ length N.plan.books }
        requires room { (vec_len room ≡ 0) × (length N.plan.books ≤ vec_capacity room) }
        ensures { result ≡ opened_state desk slots.items }
    {
        Opened {
            alloc,
            desk,
            slots,
            room,
        }
    }

    /// Its parts: its allocator, its desk, its slots, and the room for the streams, which is empty. It takes no memory.
    pub fn into_parts(self) -> (A, Desk<N, A>, Vec<Slot<N, A>, A>, Vec<Stream<A>, A>)
        ensures value { opened_state result.1 result.2.items ≡ self }
        ensures slots { length result.2.items ≡ length N.plan.books }
        ensures room { (vec_len result.3 ≡ 0) × (length N.plan.books ≤ vec_capacity result.3) }
    {
        let Opened {
            alloc,
            desk,
            slots,
            room,
        } = self;
        (alloc, desk, slots, room)
    }

    /// Changes nothing, and shows of each of these operators that what it did is what the session's book has; and, if each stream
    /// lies where its number says, that what all operators did to the streams is what those have. Answers whether these are all
    /// operators that were made, in that order: if so, each step at the desk is one of theirs, and none is missing.
    pub fn audit_operators(&mut self, operators: &mut [Operator<N>]) -> bool
        ensures same { (self.new ≡ self.old) × (operators.new ≡ operators.old) }
        ensures lent { IsTrue result ↔ AreAllOperators self.old.desk.operators operators.old }
        ensures own { AreOperatorsOf N.plan.session.book operators.old result self.old.desk.book }
        ensures streams { AreInPlace self.old.slots
            → HaveOperated N.plan.session.book operators.old result self.old.desk.book (streams_of self.old.slots) }
    {
        if are_in_place(&self.slots) {
            return self
                .desk
                .audit_streams(operators, self.slots.as_mut_slice());
        }
        self.desk.audit_operators(operators)
    }
}

impl<N: Names, A: Allocator + Copy> Opened<N, A> {
    /// Joins all seats into one sum of each kind, which is what the streams count, and makes a session of one owner again.
    /// It takes no memory.
    ///
    /// # Errors
    ///
    /// `ProducerMissing` if there isn't one producer for each stream, `DrainerMissing` if not all drainers that were begun
    /// are there, `Misplaced` if a stream isn't where its number says, or gave a seat to another number of drainers: all
    /// that was given comes back as it was.
    pub fn settle(
        self,
        producers: Vec<Producer<N, A>, A>,
        drainers: Vec<Drainer<N, A>, A>,
    ) -> Result<(Settled<A>, Totals), Unsettled<N, A>>
        ensures may { IfOk result (λ r. CanSettle producers.items (length drainers.items) self) }
        ensures session { IfOk result (λ r. r.0 ≡ session_of self.desk.book (streams_of self.slots)) }
        ensures planned { IfOk result (λ r. IsSessionOf N.plan r.0) }
        ensures totals { IfOk result (λ r. r.1 ≡ totals_of (streams_of self.slots)) }
        ensures seats { IfOk result (λ r. r.1 ≡ totals_of_seats producers.items drainers.items self.desk) }
        ensures own { IfOk result (λ r. AreTheirs producers.items r.0.streams) }
        ensures accounts { IfOk result (λ r. AreAccountsOf producers.items r.0.streams) }
        ensures taken { IfOk result (λ r. HaveConsumed self.desk.consumed drainers.items r.0.streams) }
        ensures packets { IfOk result (λ r. ArePacketsOf drainers.items r.0.streams) }
        ensures histories { IfOk result (λ r. HaveOneHistory N.plan.session.book [] false producers.items drainers.items
            r.0.book r.0.streams) }
        ensures cleared { IfOk result (λ r. HaveCleared self.desk.cleared r.0.streams) }
        ensures places { IfOk result (λ r. AddUp r.1 (streams_of self.slots)) }
        ensures consumed { IfOk result (λ r. WereConsumed r.1 (streams_of self.slots)) }
        ensures snapshot_session { N.plan.session.book.mode ≡ SessionMode.Snapshot
            → IfOk result (λ r. (r.1.consumed ≡ 0) × (r.1.cleared ≡ 0)) }
        ensures why { IfErr result (λ u. IsWhy u.error producers.items (length drainers.items) self) }
        ensures back { IfErr result
            (λ u. (u.opened ≡ self) × (u.producers ≡ producers) × (u.drainers ≡ drainers)) }
    {
        let mut nobody = Vec::new(self.alloc);
        match self.settle_with(nobody.as_mut_slice(), producers, drainers) {
            Ok((settled, totals, _)) => Ok((settled, totals)),
            Err(unsettled) => Err(unsettled),
        }
    }

    /// The same, which also shows that each of these operators has just the steps of its number among those that were made at
    /// the desk, and answers whether these are all operators that were made, in that order: if so, each of those steps is one of
    /// theirs. A call that is lent no operator makes one for itself, which nobody can lend.
    ///
    /// # Errors
    ///
    /// Those of `settle`.
    pub fn settle_with(
        self,
        operators: &mut [Operator<N>],
        producers: Vec<Producer<N, A>, A>,
        drainers: Vec<Drainer<N, A>, A>,
    ) -> Result<WithOperators<A>, Unsettled<N, A>>
        ensures same { operators.new ≡ operators.old }
        ensures may { IfOk result (λ r. CanSettle producers.items (length drainers.items) self) }
        ensures session { IfOk result (λ r. r.0 ≡ session_of self.desk.book (streams_of self.slots)) }
        ensures planned { IfOk result (λ r. IsSessionOf N.plan r.0) }
        ensures totals { IfOk result (λ r. r.1 ≡ totals_of (streams_of self.slots)) }
        ensures seats { IfOk result (λ r. r.1 ≡ totals_of_seats producers.items drainers.items self.desk) }
        ensures own { IfOk result (λ r. AreTheirs producers.items r.0.streams) }
        ensures accounts { IfOk result (λ r. AreAccountsOf producers.items r.0.streams) }
        ensures taken { IfOk result (λ r. HaveConsumed self.desk.consumed drainers.items r.0.streams) }
        ensures packets { IfOk result (λ r. ArePacketsOf drainers.items r.0.streams) }
        ensures lent { IfOk result (λ r. IsTrue r.2 ↔ AreAllOperators self.desk.operators operators.old) }
        ensures histories { IfOk result (λ r. HaveOneHistory N.plan.session.book operators.old r.2 producers.items
            drainers.items r.0.book r.0.streams) }
        ensures cleared { IfOk result (λ r. HaveCleared self.desk.cleared r.0.streams) }
        ensures places { IfOk result (λ r. AddUp r.1 (streams_of self.slots)) }
        ensures consumed { IfOk result (λ r. WereConsumed r.1 (streams_of self.slots)) }
        ensures snapshot_session { N.plan.session.book.mode ≡ SessionMode.Snapshot
            → IfOk result (λ r. (r.1.consumed ≡ 0) × (r.1.cleared ≡ 0)) }
        ensures why { IfErr result (λ u. IsWhy u.error producers.items (length drainers.items) self) }
        ensures back { IfErr result
            (λ u. (u.opened ≡ self) × (u.producers ≡ producers) × (u.drainers ≡ drainers)) }
    {
        match why_not(&self.desk, &self.slots, &producers, drainers.len()) {
            Some(error) => Err(Unsettled {
                error,
                opened: self,
                producers,
                drainers,
            }),
            None => {
                let Opened {
                    alloc,
                    desk,
                    slots,
                    room,
                } = self;
                Ok(settle_all(alloc, desk, slots, producers, drainers, room, operators))
            }
        }
    }
}
