//! Journals, and their seats.

ghost use Rattle.std.specs.Prelude.{◌≡◌, IfOk};
ghost use Rattle.tr_journal.specs.Journals.{IsSeatOf, journal_after, journal_with_seat, new_journal, new_seat, seat_after, seat_with};

use crate::rule::{Agrees, Learns, Makes, Noted, Notes, View};
use crate::seating::{Book, rise, sit};
use atomic_table::{Badge, Table};
use std::alloc::{AllocError, Allocator, Global};
use std::marker::Model;

/// All that was done, and the right to note more. Contracts see a `JournalState`.
#[derive(Drop)]
pub struct Journal<E, A: Allocator = Global> {
    table: Table<(), View<E>, (), Agrees, A>,
    book: Book<E>,
}

impl<E, A: Allocator> Model for Journal<E, A> {
    ghost use Rattle.std.specs.Prelude.{◌≡◌, ◌<◌, []};
    ghost use Rattle.tr_journal.specs.Journals.{JournalState, journal_state, log_in};
    ghost use Rattle.tr_journal.specs.Views.{book_view};

    ghost Value = { JournalState E };

    ghost view = { λ j. journal_state j.table.shared.table_id (log_in j.book.me.0) };

    ghost invariant = { λ j. (j.book.table_id ≡ j.table.shared.table_id) × (0 < j.table.shared.table_id.words)
        × (j.book.me ≡ (book_view (log_in j.book.me.0), [])) };
}

/// The right to note in one number's name. It has no bytes: a type that holds nothing else can't be lent by its place in a
/// slice. Contracts see a `SeatState`.
#[derive(Drop)]
pub struct Seat<E> {
    badge: Badge<View<E>>,
}

impl<E> Model for Seat<E> {
    ghost use Rattle.std.specs.Prelude.{◌≡◌, [], ◌∷◌};
    ghost use Rattle.tr_journal.specs.Journals.{SeatState, joined_in, own_in, seat_state};
    ghost use Rattle.tr_journal.specs.Views.{seat_view};

    ghost Value = { SeatState E };

    ghost view = { λ s. seat_state s.badge.table_id (own_in s.badge.views) (joined_in s.badge.views) };

    ghost invariant = { λ s. s.badge.views ≡ seat_view (own_in s.badge.views ∷ joined_in s.badge.views) ∷ [] };
}

impl<E, A: Allocator> Journal<E, A> {
    /// An empty journal, and its first seat, of number 0. Only this call takes memory.
    pub fn open(alloc: A) -> Result<(Journal<E, A>, Seat<E>), AllocError>
        ensures { IfOk result (λ r. (r.0 ≡ new_journal r.0.table) × (r.1 ≡ new_seat r.0.table 0)) }
    {
        let (table, mut book) = Table::of_words(alloc, &[0], &())?;
        let badge = rise(&table.shared, &mut book);
        let journal = Journal { table, book };
        Ok((journal, Seat { badge }))
    }

    /// The seat's holder did what the type says. It costs three plain loads, whatever it is.
    #[inline(always)]
    pub fn note<K: Noted<E>>(&mut self, seat: &mut Seat<E>)
        requires { seat.old.table ≡ self.old.table }
        ensures journal { self.new ≡ journal_after seat.old.who K.done self.old }
        ensures seat { seat.new ≡ seat_after K.done seat.old }
        ensures own { IsSeatOf self.old seat.old }
    {
        let badge = std::mem::replace(&mut seat.badge, Badge::blank());
        let table = &self.table;
        let shared = &table.shared;
        sit(shared, &mut self.book, badge);
        shared.load::<Notes<E, K>>(&mut self.book, 0);
        seat.badge = rise(shared, &mut self.book);
    }

    /// Changes nothing, and shows that what the seat's holder did is all that the journal has of its number.
    #[inline(always)]
    pub fn audit(&mut self, seat: &mut Seat<E>)
        requires { seat.old.table ≡ self.old.table }
        ensures same { (self.new ≡ self.old) × (seat.new ≡ seat.old) }
        ensures own { IsSeatOf self.old seat.old }
    {
        let badge = std::mem::replace(&mut seat.badge, Badge::blank());
        let table = &self.table;
        let shared = &table.shared;
        sit(shared, &mut self.book, badge);
        shared.load::<Learns>(&mut self.book, 0);
        seat.badge = rise(shared, &mut self.book);
    }

    /// A new seat, of the next number, whose holder did nothing yet. It takes no memory.
    pub fn split(&mut self) -> Seat<E>
        ensures journal { self.new ≡ journal_with_seat self.old }
        ensures seat { result ≡ new_seat self.old.table self.old.made }
    {
        let table = &self.table;
        let shared = &table.shared;
        let badge = shared.split_seat::<Makes>(&mut self.book).into_badge();
        Seat { badge }
    }

    /// Joins another seat to this one, with all that was joined to it: no other line is noted in its number's name. It takes
    /// no memory. A seat to which all others that were made are joined has all of the journal.
    pub fn join(&mut self, seat: &mut Seat<E>, other: Seat<E>)
        requires seat { seat.old.table ≡ self.old.table }
        requires other { other.table ≡ self.old.table }
        ensures journal { self.new ≡ self.old }
        ensures seat { seat.new ≡ seat_with other seat.old }
        ensures own { IsSeatOf self.old seat.new }
    {
        let Seat { badge: others } = other;
        let badge = std::mem::replace(&mut seat.badge, Badge::blank());
        let table = &self.table;
        let shared = &table.shared;
        sit(shared, &mut self.book, badge);
        sit(shared, &mut self.book, others);
        shared.load::<Learns>(&mut self.book, 0);
        seat.badge = rise(shared, &mut self.book);
    }
}
