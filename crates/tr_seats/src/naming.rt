//! Streams get the names of their plan, one after another.

ghost use Rattle.std.specs.Prelude.{◌≡◌, ◌+◌, ◌≤◌, [], Some, IfOk, length, slice_get, vec_capacity, vec_len};
ghost use Rattle.tr_accounts.specs.Seats.{desk_seat};
ghost use Rattle.tr_seats.specs.Accounts.{IsSeatAt};
ghost use Rattle.tr_seats.specs.Books.{IsPlan, books_at};
ghost use Rattle.tr_seats.specs.Plans.{AreUnused, opened_of};
ghost use Rattle.tr_ledger.specs.Ledgers.{seat_state};
ghost use Rattle.tr_seats.specs.Slots.{AreNew, new_producer, slot_state};
ghost use Rattle.tr_tally.specs.Tallies.{teller_state};

use crate::account::StreamSeat;
use crate::desk::Desk;
use crate::names::Names;
use crate::noted_book::NotedBook;
use crate::opened::Opened;
use crate::planned::PlannedStream;
use crate::producer::Producer;
use crate::slot::Slot;
use std::alloc::{AllocError, Allocator, Global};
use std::marker::{Model, PhantomData};
use tr_journal::Journal;
use tr_ledger::Seat;
use tr_operations::DeskStep;
use tr_session_book::SessionBook;
use tr_stream::Stream;

/// The streams that have their names so far. Contracts see how many there are.
#[derive(Drop)]
pub(crate) struct Named<N: Names, A: Allocator = Global> {
    slots: Vec<Slot<N, A>, A>,
    producers: Vec<Producer<N, A>, A>,
    consumed: Vec<Seat, A>,
    cuts: Vec<Seat, A>,
    cleared: Vec<Seat, A>,
    operations: Vec<StreamSeat, A>,
}

impl<N: Names, A: Allocator> Model for Named<N, A> {
    ghost use Rattle.std.specs.Prelude.{ℕ, length};
    ghost use Rattle.tr_seats.specs.Operators.{AreNewDeskSeats};
    ghost use Rattle.tr_seats.specs.Plans.{AreNamed};

    ghost Value = { ℕ };

    ghost view = { λ n. length n.slots.items };

    ghost invariant = { λ n. AreNamed N.plan n.slots.items n.producers.items n.consumed.items n.cuts.items
        n.cleared.items
        × AreNewDeskSeats (length n.slots.items) N.plan.books n.operations.items };
}

impl<N: Names, A: Allocator + Copy> Named<N, A> {
    /// None has its name yet.
    pub(crate) fn none(alloc: A) -> Named<N, A>
        ensures { result ≡ 0 }
    {
        Named {
            slots: Vec::new(alloc),
            producers: Vec::new(alloc),
            consumed: Vec::new(alloc),
            cuts: Vec::new(alloc),
            cleared: Vec::new(alloc),
            operations: Vec::new(alloc),
        }
    }

    /// Gives the next stream its name.
    pub(crate) fn with(self, planned: PlannedStream<A>) -> Result<Named<N, A>, AllocError>
        requires stream { slice_get N.plan.session.streams self ≡ Some planned.stream }
        requires books { slice_get N.plan.books self ≡ Some planned.books }
        requires teller { planned.teller ≡ teller_state N.plan.tally.table self 0 }
        ensures { IfOk result (λ n. n ≡ self + 1) }
    {
        let Named {
            mut slots,
            mut producers,
            mut consumed,
            mut cuts,
            mut cleared,
            mut operations,
        } = self;
        let (slot, producer, seats) = named_as(slots.len(), planned);
        slots.push(slot)?;
        producers.push(producer)?;
        consumed.push(seats.consumed)?;
        cuts.push(seats.cuts)?;
        cleared.push(seats.cleared)?;
        operations.push(seats.operations)?;
        Ok(Named {
            slots,
            producers,
            consumed,
            cuts,
            cleared,
            operations,
        })
    }

    /// The session, if all its streams have their names.
    pub(crate) fn finish(
        self,
        alloc: A,
        book: SessionBook<A>,
        journal: Journal<DeskStep, A>,
        room: Vec<Stream<A>, A>,
    ) -> (Opened<N, A>, Vec<Producer<N, A>, A>)
        requires all { self ≡ length N.plan.books }
        requires plan { IsPlan N.plan × AreUnused N.plan.session.streams }
        requires book { book ≡ N.plan.session.book }
        requires journal { (journal.table ≡ N.plan.desk) × (journal.lines ≡ []) × (journal.made ≡ 1) }
        requires room { (vec_len room ≡ 0) × (length N.plan.books ≤ vec_capacity room) }
        ensures opened { result.0 ≡ opened_of N.plan }
        ensures producers { AreNew (length N.plan.books) result.1.items }
    {
        let Named {
            slots,
            producers,
            consumed,
            cuts,
            cleared,
            operations,
        } = self;
        let desk = Desk {
            book: NotedBook::new(book, journal, operations),
            drainers: 0,
            consumed,
            cuts,
            cleared,
            of: PhantomData,
        };
        (Opened::from_parts(alloc, desk, slots, room), producers)
    }
}

/// The seats of a stream that the desk keeps: the whole ones of what it consumes, of its cuts, and of what is cleared, and that
/// of its operations.
#[derive(Drop)]
struct DeskSeats {
    consumed: Seat,
    cuts: Seat,
    cleared: Seat,
    operations: StreamSeat,
}

/// A stream with this number in its slot, its producer, and the desk's seats of it.
fn named_as<N: Names, A: Allocator>(
    number: usize,
    planned: PlannedStream<A>,
) -> (Slot<N, A>, Producer<N, A>, DeskSeats)
    requires stream { slice_get N.plan.session.streams number ≡ Some planned.stream }
    requires books { slice_get N.plan.books number ≡ Some planned.books }
    requires teller { planned.teller ≡ teller_state N.plan.tally.table number 0 }
    ensures slot { result.0 ≡ slot_state number planned.stream 0 }
    ensures producer { result.1 ≡ new_producer number }
    ensures consumed { result.2.consumed ≡ seat_state planned.books.consumed 0 1 }
    ensures cuts { result.2.cuts ≡ seat_state planned.books.cuts 0 1 }
    ensures cleared { result.2.cleared ≡ seat_state planned.books.cleared 0 1 }
    ensures operations { IsSeatAt (books_at N.plan.books number).journal desk_seat result.2.operations
        × (result.2.operations.own ≡ []) }
{
    let PlannedStream {
        stream,
        offered: (offered, offered_seat),
        discarded: (discarded, discarded_seat),
        overwritten: (overwritten, overwritten_seat),
        overwritten_packets: (packets, packets_seat),
        consumed: (consumed, consumed_seat),
        cuts: (cuts, cut_seat),
        cleared: (cleared, cleared_seat),
        account: (account, account_seat, desk_seat),
        teller,
    } = planned;
    let producer = Producer {
        number,
        offered: offered_seat,
        discarded: discarded_seat,
        overwritten: overwritten_seat,
        overwritten_packets: packets_seat,
        teller,
        account: account_seat,
        of: PhantomData,
    };
    let slot = Slot {
        number,
        stream,
        offered,
        discarded,
        overwritten,
        overwritten_packets: packets,
        consumed,
        cuts,
        cleared,
        account,
        removed: None,
        of: PhantomData,
    };
    let seats = DeskSeats {
        consumed: consumed_seat,
        cuts: cut_seat,
        cleared: cleared_seat,
        operations: StreamSeat::of(number, desk_seat),
    };
    (slot, producer, seats)
}
