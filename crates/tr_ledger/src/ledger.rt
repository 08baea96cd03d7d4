//! Ledgers, and the seats that share their totals.

ghost use Rattle.std.specs.Prelude.{◌≡◌, ◌+◌, ◌<◌, ◌^◌, IfOk};
ghost use Rattle.tr_ledger.specs.Ledgers.{IsSeatOf, ledger_state, seat_state};

use crate::rule::{AddsUp, Amount, Learns, Makes, Raises, View};
use crate::seating::{Book, rise, sit};
use atomic_table::{Badge, Table};
use std::alloc::{AllocError, Allocator, Global};
use std::marker::{Brand, Model};

/// A total, and the right to move it: its holder alone moves the amounts of its seats. Contracts see a `LedgerState`.
#[derive(Drop)]
pub struct Ledger<A: Allocator = Global> {
    table: Table<(), View, (), AddsUp, A>,
    book: Book,
    total: u64,
    made: u64,
}

impl<A: Allocator> Model for Ledger<A> {
    ghost use Rattle.std.specs.Prelude.{◌≡◌, ◌<◌, []};
    ghost use Rattle.tr_ledger.specs.Ledgers.{LedgerState, ledger_state};
    ghost use Rattle.tr_ledger.specs.Views.{book_view};

    ghost Value = { LedgerState };

    ghost view = { λ l. ledger_state l.table.shared.table_id l.total l.made };

    ghost invariant = { λ l. (l.book.table_id ≡ l.table.shared.table_id) × (0 < l.table.shared.table_id.words)
        × (l.book.me ≡ (book_view l.total l.made 0 0, [])) };
}

/// A part of a ledger's total, in the hands of one holder. Contracts see a `SeatState`.
#[derive(Drop)]
pub struct Seat {
    badge: Badge<View>,
    amount: u64,
}

impl Model for Seat {
    ghost use Rattle.std.specs.Prelude.{◌≡◌, ◌<◌, [], ◌∷◌};
    ghost use Rattle.tr_ledger.specs.Ledgers.{SeatState, seat_state, view_of};
    ghost use Rattle.tr_ledger.specs.Views.{seat_view};

    ghost Value = { SeatState };

    ghost view = { λ s. seat_state s.badge.table_id s.amount (view_of s.badge.views).mark };

    ghost invariant = { λ s. (s.badge.views ≡ seat_view s.amount (view_of s.badge.views).mark ∷ [])
        × (0 < (view_of s.badge.views).mark) };
}

impl<A: Allocator> Ledger<A> {
    /// A ledger with total 0, and its one seat, which is whole. Only this call takes memory.
    pub fn open(alloc: A) -> Result<(Ledger<A>, Seat), AllocError>
        ensures { IfOk result (λ r. (r.0 ≡ ledger_state r.0.table 0 0) × (r.1 ≡ seat_state r.0.table 0 1)) }
    {
        let (table, mut book) = Table::of_words(alloc, &[0], &())?;
        let badge = rise(&table.shared, &mut book);
        let ledger = Ledger {
            table,
            book,
            total: 0,
            made: 0,
        };
        Ok((ledger, Seat { badge, amount: 0 }))
    }

    /// The sum of the amounts of all seats.
    pub fn total(&self) -> u64
        ensures { result ≡ self.now.total }
    {
        self.total
    }

    /// How many seats `split` made, dropped ones too.
    pub fn made(&self) -> u64
        ensures { result ≡ self.now.made }
    {
        self.made
    }

    /// Raises the total and the seat's amount by `n`. It costs no locked instruction.
    pub fn raise(&mut self, seat: &mut Seat, n: u64)
        requires seat { seat.old.table ≡ self.old.table }
        requires room { self.old.total + n < 2 ^ 64 }
        ensures ledger { self.new ≡ ledger_state self.old.table (self.old.total + n) self.old.made }
        ensures seat { seat.new ≡ seat_state seat.old.table (seat.old.amount + n) seat.old.mark }
        ensures share { IsSeatOf self.new seat.new }
    {
        self.raise_by::<Brand>(seat, n);
    }

    /// Raises the total and the seat's amount by `n`.
    fn raise_by<K: Amount>(&mut self, seat: &mut Seat, n: u64)
        requires seat { seat.old.table ≡ self.old.table }
        requires room { self.old.total + n < 2 ^ 64 }
        requires amount { n ≡ K.amount }
        ensures ledger { self.new ≡ ledger_state self.old.table (self.old.total + n) self.old.made }
        ensures seat { seat.new ≡ seat_state seat.old.table (seat.old.amount + n) seat.old.mark }
        ensures share { IsSeatOf self.new seat.new }
    {
        let badge = std::mem::replace(&mut seat.badge, Badge::blank());
        let table = &self.table;
        let shared = &table.shared;
        sit(shared, &mut self.book, badge);
        shared.load::<Raises<K>>(&mut self.book, 0);
        seat.badge = rise(shared, &mut self.book);
        seat.amount += n;
        self.total += n;
    }

    /// Raises the total and the seat's amount by one. It costs no locked instruction.
    pub fn raise_by_one(&mut self, seat: &mut Seat)
        requires seat { seat.old.table ≡ self.old.table }
        requires room { self.old.total + 1 < 2 ^ 64 }
        ensures ledger { self.new ≡ ledger_state self.old.table (self.old.total + 1) self.old.made }
        ensures seat { seat.new ≡ seat_state seat.old.table (seat.old.amount + 1) seat.old.mark }
        ensures share { IsSeatOf self.new seat.new }
    {
        self.raise(seat, 1);
    }

    /// Changes nothing, and shows how the seat relates to the total.
    pub fn audit(&mut self, seat: &mut Seat)
        requires { seat.old.table ≡ self.old.table }
        ensures same { (self.new ≡ self.old) × (seat.new ≡ seat.old) }
        ensures share { IsSeatOf self.old seat.old }
    {
        let badge = std::mem::replace(&mut seat.badge, Badge::blank());
        let table = &self.table;
        let shared = &table.shared;
        sit(shared, &mut self.book, badge);
        shared.load::<Learns>(&mut self.book, 0);
        seat.badge = rise(shared, &mut self.book);
    }

    /// A new seat, with amount 0. It takes no memory.
    pub fn split(&mut self) -> Seat
        requires { self.old.made < 2 ^ 32 }
        ensures ledger { self.new ≡ ledger_state self.old.table self.old.total (self.old.made + 1) }
        ensures seat { result ≡ seat_state self.old.table 0 1 }
    {
        let table = &self.table;
        let shared = &table.shared;
        let badge = shared.split_seat::<Makes>(&mut self.book).into_badge();
        self.made += 1;
        Seat { badge, amount: 0 }
    }

    /// Adds another seat to this one, with its amount and all seats in it. It takes no memory.
    pub fn join(&mut self, seat: &mut Seat, other: Seat)
        requires seat { seat.old.table ≡ self.old.table }
        requires other { other.table ≡ self.old.table }
        ensures ledger { self.new ≡ self.old }
        ensures seat { seat.new
            ≡ seat_state seat.old.table (seat.old.amount + other.amount) (seat.old.mark + other.mark) }
        ensures share { IsSeatOf self.old seat.new }
    {
        let Seat {
            badge: others,
            amount,
        } = other;
        let badge = std::mem::replace(&mut seat.badge, Badge::blank());
        let table = &self.table;
        let shared = &table.shared;
        sit(shared, &mut self.book, badge);
        sit(shared, &mut self.book, others);
        shared.load::<Learns>(&mut self.book, 0);
        seat.badge = rise(shared, &mut self.book);
        seat.amount += amount;
    }
}

impl Seat {
    /// This seat's part of the total.
    pub fn amount(&self) -> u64
        ensures { result ≡ self.now.amount }
    {
        self.amount
    }
}
