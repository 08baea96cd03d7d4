//! How a seat comes to its journal for a step, and leaves it.

ghost use Rattle.std.specs.Prelude.{◌≡◌, ◌<◌, ◌∷◌, [], None};
ghost use Rattle.tr_journal.specs.Journals.{view_of};
ghost use Rattle.tr_journal.specs.Views.{seat_of, with_seat, without_seat};

use crate::rule::{Agrees, Rises, Sits, View};
use atomic_table::{Badge, Shared};

/// The token of a journal.
pub type Book<E> = atomic_table::Seat<(), View<E>>;

/// A journal's table, as all of its tokens see it.
pub type BookTable<E> = Shared<(), View<E>, (), Agrees>;

/// Joins the seat's view to the journal's, after what is joined to it.
#[inline(always)]
pub fn sit<E>(table: &BookTable<E>, book: &mut Book<E>, badge: Badge<View<E>>)
    requires table { (book.old.table_id ≡ table.now.table_id) × (0 < table.now.table_id.words) }
    requires same { badge.table_id ≡ table.now.table_id }
    requires seat { (badge.views ≡ view_of badge.views ∷ []) × ((view_of badge.views).log ≡ None) }
    ensures table { book.new.table_id ≡ book.old.table_id }
    ensures joined { book.new.me ≡ (with_seat book.old.me.0 (view_of badge.views), book.old.me.1) }
{
    table.join_seat::<Sits>(book, badge.into_seat::<()>());
}

/// Parts from the journal's view what is joined to it, as a seat's.
#[inline(always)]
pub fn rise<E>(table: &BookTable<E>, book: &mut Book<E>) -> Badge<View<E>>
    requires table { (book.old.table_id ≡ table.now.table_id) × (0 < table.now.table_id.words) }
    ensures table { (book.new.table_id ≡ book.old.table_id) × (result.table_id ≡ book.old.table_id) }
    ensures book { book.new.me ≡ (without_seat book.old.me.0, book.old.me.1) }
    ensures seat { result.views ≡ seat_of book.old.me.0 ∷ [] }
{
    table.split_seat::<Rises>(book).into_badge()
}
