//! The rule of a ledger's table, and the kinds of step that keep it.
//!
//! A ledger is a table of `atomic_table` without a slot. What is known of it is in the views of its tokens: the book's,
//! which the ledger keeps, and one in each seat. No value of a view is ever made.

use atomic_table::{Join, Play, Split, TableRule};
use std::marker::{Brand, PhantomData};

/// What a token knows. The book's token has `books` 1, the total, and how many seats were made beside the first. A
/// seat's token has an amount and a mark, the number of seats that are joined in it. While a seat is joined to the book
/// for a step, its amount and its mark are in the book's view.
pub struct View {
    pub books: u64,
    pub total: u64,
    pub made: u64,
    pub amount: u64,
    pub mark: u64,
}

/// The amounts add up to the total, and the marks to the number of seats.
pub struct AddsUp;

impl TableRule<(), View, ()> for AddsUp {
    ghost use Rattle.tr_ledger.specs.Views.{book_view, AreCounted};

    ghost holds = { λ _ s. AreCounted s.views };

    ghost first = { λ _. book_view 0 0 0 1 };
}

/// A number that contracts alone know. It has no code.
pub trait Amount {
    ghost use Rattle.std.specs.Prelude.{ℕ};

    ghost amount: { ℕ };
}

impl Amount for Brand {
    ghost amount = { 0 };
}

/// The total and the amount rise by a number in a type, so that a load is enough.
pub struct Raises<K: Amount> {
    pub of: PhantomData<K>,
}

impl<K: Amount> Play<(), View> for Raises<K> {
    ghost use Rattle.std.specs.Prelude.{◌≡◌};
    ghost use Rattle.tr_ledger.specs.Views.{raised, IsWithin};

    ghost then = { λ step me _ after. (after ≡ (raised K.amount me.0, me.1)) × IsWithin me.0 };
}

/// Nothing changes.
pub struct Learns;

impl Play<(), View> for Learns {
    ghost use Rattle.std.specs.Prelude.{◌≡◌};
    ghost use Rattle.tr_ledger.specs.Views.{IsWithin};

    ghost then = { λ step me _ after. (after ≡ me) × IsWithin me.0 };
}

/// A new seat, with nothing yet.
pub struct Makes;

impl Split<View> for Makes {
    ghost use Rattle.tr_ledger.specs.Views.{with_one_more, seat_view};

    ghost left = { with_one_more };

    ghost right = { λ _. seat_view 0 1 };
}

/// What was joined to a view goes to a seat of its own.
pub struct Parts;

impl Split<View> for Parts {
    ghost use Rattle.tr_ledger.specs.Views.{without_seat, seat_of};

    ghost left = { without_seat };

    ghost right = { seat_of };
}

/// A seat's amount and mark are added to those of another view.
pub struct Adds;

impl Join<View> for Adds {
    ghost use Rattle.tr_ledger.specs.Views.{with_seat, seat_view};

    ghost both = { with_seat };

    ghost spent = { seat_view 0 0 };
}
