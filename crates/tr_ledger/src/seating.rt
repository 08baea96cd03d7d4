//! How a seat comes to its ledger's book for a step, and leaves it.

ghost use Rattle.std.specs.Prelude.{◌≡◌, ◌<◌, ◌∷◌, []};
ghost use Rattle.tr_ledger.specs.Ledgers.{view_of};
ghost use Rattle.tr_ledger.specs.Views.{with_seat, without_seat, seat_of};

use crate::rule::{Adds, AddsUp, Parts, View};
use atomic_table::{Badge, Shared};

/// The token of a ledger's book.
pub type Book = atomic_table::Seat<(), View>;

/// A ledger's table, as all of its tokens see it.
pub type BookTable = Shared<(), View, (), AddsUp>;

/// Joins the seat's view to the book's. The badge is left blank.
pub fn sit(table: &BookTable, book: &mut Book, badge: Badge<View>)
    requires table { (book.old.table_id ≡ table.now.table_id) × (0 < table.now.table_id.words) }
    requires same { badge.table_id ≡ table.now.table_id }
    requires seat { (badge.views ≡ view_of badge.views ∷ []) × ((view_of badge.views).books ≡ 0) }
    ensures table { book.new.table_id ≡ book.old.table_id }
    ensures joined { book.new.me ≡ (with_seat book.old.me.0 (view_of badge.views), book.old.me.1) }
{
    table.join_seat::<Adds>(book, badge.into_seat::<()>());
}

/// Parts from the book's view all that is joined to it, as a seat's.
pub fn rise(table: &BookTable, book: &mut Book) -> Badge<View>
    requires table { (book.old.table_id ≡ table.now.table_id) × (0 < table.now.table_id.words) }
    ensures table { (book.new.table_id ≡ book.old.table_id) × (result.table_id ≡ book.old.table_id) }
    ensures book { book.new.me ≡ (without_seat book.old.me.0, book.old.me.1) }
    ensures seat { result.views ≡ seat_of book.old.me.0 ∷ [] }
{
    table.split_seat::<Parts>(book).into_badge()
}
