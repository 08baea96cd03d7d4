//! The rule of a journal's table, and the kinds of step that keep it.
//!
//! A journal is a table of `atomic_table` without a slot. What is known of it is in the views of its tokens: the book's,
//! which the journal keeps, and one in each seat. No value of a view is ever made.

use atomic_table::{Join, Play, Split, TableRule};
use std::collections::LinkedList;
use std::marker::PhantomData;

/// What was done, and the number of the seat whose holder did it.
pub struct Line<E> {
    pub who: u64,
    pub done: E,
}

/// All that was done, in order, and how many seats were made.
pub struct Log<E> {
    pub lines: LinkedList<Line<E>>,
    pub made: u64,
}

/// A seat's number, and what its holder did, in order.
pub struct Part<E> {
    pub who: u64,
    pub own: LinkedList<E>,
}

/// What a token knows. The book's token has the log. A seat's token has the seat's own part, and after it those of the
/// seats that were joined to it. While a seat is joined to the book for a step, the book's view has all of it.
pub struct View<E> {
    pub log: Option<Log<E>>,
    pub parts: LinkedList<Part<E>>,
}

/// The part of each seat is what the log has of its number.
pub struct Agrees;

impl<E> TableRule<(), View<E>, ()> for Agrees {
    ghost use Rattle.tr_journal.specs.Views.{first_view, AreOne};

    ghost holds = { λ _ s. AreOne s.views };

    ghost first = { λ _. first_view };
}

/// What is done, which contracts alone know. It has no code. A crate with entries of its own gives `Brand` this trait at
/// its type of entries, and picks the entry at a call with `Brand`.
pub trait Noted<E> {
    ghost done: { E };
}

/// The first joined seat's holder did what is in the type, so that a load is enough.
pub struct Notes<E, K: Noted<E>> {
    pub of: PhantomData<(E, K)>,
}

impl<E, K: Noted<E>> Play<(), View<E>> for Notes<E, K> {
    ghost use Rattle.std.specs.Prelude.{◌≡◌};
    ghost use Rattle.tr_journal.specs.Views.{noted, IsShown};

    ghost then = { λ step me _ after. (after ≡ (noted K.done me.0, me.1)) × IsShown me.0 };
}

/// Nothing changes.
pub struct Learns;

impl<E> Play<(), View<E>> for Learns {
    ghost use Rattle.std.specs.Prelude.{◌≡◌};
    ghost use Rattle.tr_journal.specs.Views.{IsShown};

    ghost then = { λ step me _ after. (after ≡ me) × IsShown me.0 };
}

/// A new seat, of the next number, whose holder did nothing yet.
pub struct Makes;

impl<E> Split<View<E>> for Makes {
    ghost use Rattle.tr_journal.specs.Views.{with_one_more, newcomer};

    ghost left = { with_one_more };

    ghost right = { newcomer };
}

/// What was joined to a view goes to a seat of its own.
pub struct Rises;

impl<E> Split<View<E>> for Rises {
    ghost use Rattle.tr_journal.specs.Views.{without_seat, seat_of};

    ghost left = { without_seat };

    ghost right = { seat_of };
}

/// A seat's parts are joined to another view.
pub struct Sits;

impl<E> Join<View<E>> for Sits {
    ghost use Rattle.tr_journal.specs.Views.{with_seat, nobody};

    ghost both = { with_seat };

    ghost spent = { nobody };
}
