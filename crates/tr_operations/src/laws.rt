//! What each step at a desk keeps, if it is noted.

ghost use Rattle.std.specs.Prelude.{◌≡◌, ◌++◌, ◌∷◌, [], ℕ, List};
ghost use Rattle.tr_journal.specs.Journals.{IsSeatOf, JournalState, SeatState};
ghost use Rattle.tr_journal.specs.Views.{all_done, line};
ghost use Rattle.tr_journal.specs.declared.rule.Line.{Line};
ghost use Rattle.tr_operations.specs.Operations.{IsOperatorOf, IsStepOf, LeadsTo};
ghost use Rattle.tr_operations.specs.declared.step.DeskStep.{DeskStep};
ghost use Rattle.tr_session_book.specs.Book.{SessionBookState};

/// The lines of a desk's journal lead from the book that was planned to the current one: there are none at first, and each step
/// that is noted, by whichever seat, leads to the book after it. What a seat of the journal has is then what its operator did.
/// Does nothing.
pub fn every_operation()
    ensures new { (book : SessionBookState) → LeadsTo [] book book }
    ensures step { (lines : List (Line DeskStep)) (planned before after : SessionBookState) (who : ℕ) (step : DeskStep)
        → LeadsTo (all_done lines) planned before → IsStepOf step before after
        → LeadsTo (all_done (lines ++ line who step ∷ [])) planned after }
    ensures operator { (journal : JournalState DeskStep) (seat : SeatState DeskStep) (planned book : SessionBookState)
        → LeadsTo (all_done journal.lines) planned book → IsSeatOf journal seat → IsOperatorOf planned seat.own book }
{}
