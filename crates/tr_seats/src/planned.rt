//! A session before its first call, with the books of its streams.

ghost use Rattle.std.specs.Prelude.{◌≡◌, IfErr, IfOk, length};
ghost use Rattle.tr_seats.specs.Plans.{IsOpened, IsUnused, opened_of, planned_state};
ghost use Rattle.tr_seats.specs.Slots.{AreNew};
ghost use Rattle.tr_tally.specs.Tallies.{new_watchers};

use crate::account::Account;
use crate::both::both;
use crate::names::Names;
use crate::naming::Named;
use crate::opened::Opened;
use crate::producer::Producer;
use std::alloc::{AllocError, Allocator, Global};
use std::marker::Model;
use tr_accounts::StreamStep;
use tr_journal::Journal;
use tr_ledger::{Ledger, Seat};
use tr_operations::DeskStep;
use tr_session_book::{SessionBook, SessionFault};
use tr_stream::Stream;
use tr_tally::{Tally, Teller, Watcher};

/// A new stream with its ledgers and their whole seats, before the plan names them, with its account, the seats there of its
/// producer and of the desk, and its teller.
/// Contracts see a `PlannedState`.
#[derive(Drop)]
pub(crate) struct PlannedStream<A: Allocator = Global> {
    pub(crate) stream: Stream<A>,
    pub(crate) offered: (Ledger<A>, Seat),
    pub(crate) discarded: (Ledger<A>, Seat),
    pub(crate) overwritten: (Ledger<A>, Seat),
    pub(crate) overwritten_packets: (Ledger<A>, Seat),
    pub(crate) consumed: (Ledger<A>, Seat),
    pub(crate) cuts: (Ledger<A>, Seat),
    pub(crate) cleared: (Ledger<A>, Seat),
    pub(crate) account: (
        Account<A>,
        tr_journal::Seat<StreamStep>,
        tr_journal::Seat<StreamStep>,
    ),
    pub(crate) teller: Teller<A>,
}

impl<A: Allocator> Model for PlannedStream<A> {
    ghost use Rattle.std.specs.Prelude.{◌≡◌};
    ghost use Rattle.tr_accounts.specs.Seats.{desk_seat, producer_seat};
    ghost use Rattle.tr_journal.specs.Journals.{new_seat};
    ghost use Rattle.tr_seats.specs.Accounts.{IsNewAccount};
    ghost use Rattle.tr_seats.specs.Books.{books_of};
    ghost use Rattle.tr_seats.specs.Plans.{IsOpened, IsUnused, PlannedState, planned_state};

    ghost Value = { PlannedState };

    ghost view = { λ p. planned_state p.stream (books_of p.offered.0.table p.discarded.0.table p.overwritten.0.table
        p.overwritten_packets.0.table p.consumed.0.table p.cuts.0.table p.cleared.0.table p.account.0.table)
        p.teller };

    ghost invariant = { λ p. IsUnused p.stream × IsOpened p.offered.0 p.offered.1
        × IsOpened p.discarded.0 p.discarded.1 × IsOpened p.overwritten.0 p.overwritten.1
        × IsOpened p.overwritten_packets.0 p.overwritten_packets.1 × IsOpened p.consumed.0 p.consumed.1
        × IsOpened p.cuts.0 p.cuts.1 × IsOpened p.cleared.0 p.cleared.1
        × IsNewAccount p.account.0 × (p.account.1 ≡ new_seat p.account.0.table producer_seat)
        × (p.account.2 ≡ new_seat p.account.0.table desk_seat) };
}

/// Three books in which nothing is, with their whole seats.
fn three_books<A: Allocator + Copy>(
    alloc: A,
) -> Result<((Ledger<A>, Seat), (Ledger<A>, Seat), (Ledger<A>, Seat)), AllocError>
    ensures { IfOk result
        (λ b. IsOpened b.0.0 b.0.1 × IsOpened b.1.0 b.1.1 × IsOpened b.2.0 b.2.1) }
{
    let first = Ledger::open(alloc)?;
    let (first, second) = both(first, Ledger::open(alloc))?;
    let ((first, second), third) = both((first, second), Ledger::open(alloc))?;
    Ok((first, second, third))
}

impl<A: Allocator> PlannedStream<A> {
    /// Opens the books of a stream on which nothing was done, beside its teller.
    pub(crate) fn open(
        alloc: A,
        stream: Stream<A>,
        teller: Teller<A>,
    ) -> Result<PlannedStream<A>, AllocError>
    where
        A: Copy,
        requires { IsUnused stream }
        ensures stream { IfOk result (λ p. p.stream ≡ stream) }
        ensures teller { IfOk result (λ p. p.teller ≡ teller) }
    {
        let (held, books) = both((stream, teller), three_books(alloc))?;
        let ((held, books), others) = both((held, books), three_books(alloc))?;
        let ((held, books, others), cleared) = both((held, books, others), Ledger::open(alloc))?;
        let (held, account) = both((held, books, others, cleared), Account::open(alloc))?;
        let (held, books, others, cleared) = held;
        let (stream, teller) = held;
        let (offered, discarded, overwritten) = books;
        let (overwritten_packets, consumed, cuts) = others;
        Ok(PlannedStream {
            stream,
            offered,
            discarded,
            overwritten,
            overwritten_packets,
            consumed,
            cuts,
            cleared,
            account,
            teller,
        })
    }
}

/// A session before its first call: its book, its streams with their books, the tally of what these are offered, with its
/// watchers, and the journal of its desk. Contracts see a `PlanState`.
#[derive(Drop)]
pub struct Plan<A: Allocator = Global> {
    pub(crate) alloc: A,
    pub(crate) book: SessionBook<A>,
    pub(crate) streams: Vec<PlannedStream<A>, A>,
    pub(crate) tally: Tally<A>,
    pub(crate) watchers: Vec<Watcher<A>, A>,
    pub(crate) journal: Journal<DeskStep, A>,
}

impl<A: Allocator> Model for Plan<A> {
    ghost use Rattle.std.specs.Prelude.{◌≡◌, []};
    ghost use Rattle.tr_seats.specs.Books.{IsPlan, PlanState, plan_state};
    ghost use Rattle.tr_seats.specs.Plans.{AreTellersFrom, AreUnused, PlannedState, books_in, streams_in, tellers_in};
    ghost use Rattle.tr_session.specs.Session.{session_of};
    ghost use Rattle.tr_tally.specs.Tallies.{new_watchers};

    ghost Value = { PlanState };

    ghost view = { λ p.
        plan_state (session_of p.book (streams_in p.streams.items)) (books_in p.streams.items) p.tally p.journal.table };

    ghost invariant = { λ p.
        IsPlan (plan_state (session_of p.book (streams_in p.streams.items)) (books_in p.streams.items) p.tally p.journal.table)
        × AreUnused (streams_in p.streams.items) × AreTellersFrom 0 p.tally.table (tellers_in p.streams.items)
        × (p.watchers.items ≡ new_watchers p.tally.table p.tally.streams p.tally.watchers) × (p.journal.lines ≡ []) × (p.journal.made ≡ 1) };
}

/// A session out of its locks, the producers of its streams, and watchers.
type Watched<N, A> = (Opened<N, A>, Vec<Producer<N, A>, A>, Vec<Watcher<A>, A>);

impl<A: Allocator + Copy> Plan<A> {
    /// The session that a `Names` names, out of its locks, and the producer of each stream, in order of number, with nothing
    /// offered. All that settling needs is reserved.
    ///
    /// # Errors
    ///
    /// `NoMemory`: the plan is gone.
    pub fn build<N: Names>(self) -> Result<(Opened<N, A>, Vec<Producer<N, A>, A>), SessionFault>
        requires { self ≡ N.plan }
        ensures opened { IfOk result (λ r. r.0 ≡ opened_of self) }
        ensures producers { IfOk result (λ r. AreNew (length self.books) r.1.items) }
        ensures memory { IfErr result (λ fault. fault ≡ SessionFault.NoMemory) }
    {
        let (opened, producers, _) = self.build_watched::<N>()?;
        Ok((opened, producers))
    }

    /// The same, with the watchers that were planned.
    ///
    /// # Errors
    ///
    /// `NoMemory`: the plan is gone.
    pub fn build_watched<N: Names>(self) -> Result<Watched<N, A>, SessionFault>
        requires { self ≡ N.plan }
        ensures opened { IfOk result (λ r. r.0 ≡ opened_of self) }
        ensures producers { IfOk result (λ r. AreNew (length self.books) r.1.items) }
        ensures watchers { IfOk result
            (λ r. r.2.items ≡ new_watchers self.tally.table (length self.books) self.tally.watchers) }
        ensures memory { IfErr result (λ fault. fault ≡ SessionFault.NoMemory) }
    {
        let Plan {
            alloc,
            book,
            streams,
            tally: _,
            watchers,
            journal,
        } = self;
        let room = Vec::with_capacity(alloc, streams.len())?;
        let mut named = Named::none(alloc);
        for planned in streams {
            named = named.with(planned)?;
        }
        let (opened, producers) = named.finish(alloc, book, journal, room);
        Ok((opened, producers, watchers))
    }
}
