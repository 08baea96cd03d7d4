//! What seats say of their journal.

ghost use Rattle.std.specs.Prelude.{◌≡◌, ℕ, Bool, List, Option, filter, filter_map};
ghost use Rattle.tr_journal.specs.Journals.{IsSeatOf, IsWhole, JournalState, SeatState, parts_of};
ghost use Rattle.tr_journal.specs.Views.{all_done, done_by};
ghost use Rattle.tr_journal.specs.Whole.{AreAllOf, IsOnlyBy};
ghost use Rattle.tr_journal.specs.declared.rule.Line.{Line};

/// A seat to which all others that were made are joined has the whole journal: each line is in one of its parts, and in one
/// alone. The same holds of the lines of some of the seats, and their parts. What one part has of a kind of entries, if no
/// other seat's holder did any of that kind, is all that the journal has of it. Does nothing.
pub fn every_journal<E, X>()
    ensures whole { (journal : JournalState E) (seat : SeatState E) → IsSeatOf journal seat → IsWhole journal seat
        → AreAllOf journal.lines (parts_of seat) }
    ensures among { (test : ℕ → Bool) (journal : JournalState E) (seat : SeatState E) → IsSeatOf journal seat
        → IsWhole journal seat
        → AreAllOf (filter (λ l. test l.who) journal.lines) (filter (λ p. test p.who) (parts_of seat)) }
    ensures alone { (kind : E → Option X) (who : ℕ) (lines : List (Line E)) → IsOnlyBy who kind lines
        → filter_map kind (all_done lines) ≡ filter_map kind (done_by who lines) }
{}
