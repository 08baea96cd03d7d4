//! What the calls on a stream under its lock have to do with its history, and what a cut or a clear at a desk has to do with
//! its session.

ghost use Rattle.std.specs.List.{AllByRecursion};
ghost use Rattle.std.specs.Prelude.{◌≡◌, ◌<◌, ℕ, Bool, List, Some, length, slice_get, slice_set};
ghost use Rattle.tr_accounts.specs.declared.step.StreamStep.{StreamStep};
ghost use Rattle.tr_operations.specs.Operations.{IsOperatorOf};
ghost use Rattle.tr_seats.specs.Clears.{desk_after_clear, desk_clear_answer, slot_after_clear};
ghost use Rattle.tr_seats.specs.Cuts.{desk_after_cut, desk_cut_answer, slot_after_cut};
ghost use Rattle.tr_seats.specs.Desks.{DeskState};
ghost use Rattle.tr_seats.specs.Drainers.{DrainerState};
ghost use Rattle.tr_seats.specs.Operators.{HaveDone, OperatorState};
ghost use Rattle.tr_seats.specs.Settling.{HasOperated, HaveOneHistory, HaveOperated, IsOneEach};
ghost use Rattle.tr_seats.specs.Slots.{ProducerState, SlotState};
ghost use Rattle.tr_session.specs.Session.{session_of};
ghost use Rattle.tr_session.specs.Steps.{session_after_clear, session_after_cut, session_clear_answer, session_cut_answer};
ghost use Rattle.tr_session_book.specs.Book.{SessionBookState};
ghost use Rattle.tr_stream.specs.History.{History};
ghost use Rattle.tr_stream.specs.Kept.{IsKept};
ghost use Rattle.tr_stream.specs.Rules.{by_state};
ghost use Rattle.tr_stream.specs.StandsFor.{StandsFor};
ghost use Rattle.tr_stream.specs.State.{StreamState};
ghost use Rattle.tr_stream.specs.StateSteps.{state_after_clear, state_after_cut, state_after_offer, state_after_switch, state_after_take, state_clear_answer, state_cut_answer, state_offer_answer, state_snap, state_take_answer};
ghost use Rattle.tr_stream.specs.Steps.{history_after_clear, history_after_cut, history_after_offer, history_after_switch, history_after_take, history_clear_answer, history_cut_answer, history_offer_answer, history_snap, history_take_answer};

use tr_terms::SessionMode;

/// A cut at a desk is its session's rule: it answers as a session answers that has the desk's book and, at its number, the
/// slot's stream, whatever its other streams are; and leaves what that session has then if it is local. Does nothing.
pub fn every_cut()
    ensures answer { (i : ℕ) (desk : DeskState) (slot : SlotState) (streams : List StreamState)
        → i ≡ slot.number → slice_get streams i ≡ Some slot.stream
        → desk_cut_answer i desk slot ≡ session_cut_answer by_state i (session_of desk.book streams) }
    ensures after { (i : ℕ) (desk : DeskState) (slot : SlotState) (streams : List StreamState)
        → i ≡ slot.number → slice_get streams i ≡ Some slot.stream
        → slot.stream.config.session ≡ SessionMode.Local
        → session_of (desk_after_cut (desk_cut_answer i desk slot) i desk).book
        (slice_set streams i (slot_after_cut i desk slot).stream)
        ≡ session_after_cut by_state i (session_of desk.book streams) }
{}

/// A clear at a desk is its session's rule: it answers as a session answers that has the desk's book and, at its number, the
/// slot's stream, whatever its other streams are; and leaves what that session has then. Does nothing.
pub fn every_clear()
    ensures answer { (i : ℕ) (desk : DeskState) (slot : SlotState) (streams : List StreamState)
        → i ≡ slot.number → i < length desk.book.threads → slice_get streams i ≡ Some slot.stream
        → desk_clear_answer i desk slot ≡ session_clear_answer by_state i (session_of desk.book streams) }
    ensures after { (i : ℕ) (desk : DeskState) (slot : SlotState) (streams : List StreamState)
        → i ≡ slot.number → i < length desk.book.threads → slice_get streams i ≡ Some slot.stream
        → session_of (desk_after_clear (desk_clear_answer i desk slot) i desk).book
        (slice_set streams i (slot_after_clear i desk slot).stream)
        ≡ session_after_clear by_state i (session_of desk.book streams) }
{}

/// For any history that a stream represents, a call of a `Slot` or a `Desk` answers as that history's step does, and the stream
/// then represents the next. Does nothing.
pub fn every_step()
    ensures offer { (s : StreamState) (h : History) (moment id : ℕ) (payload : List ℕ) → IsKept s → StandsFor s h
        → (state_offer_answer moment id payload s ≡ history_offer_answer s.config payload h)
        × StandsFor (state_after_offer moment id payload s) (history_after_offer s.config moment id payload h) }
    ensures take { (s : StreamState) (h : History) → StandsFor s h
        → (state_take_answer s ≡ history_take_answer s.config h)
        × StandsFor (state_after_take s) (history_after_take s.config h) }
    ensures cut { (s : StreamState) (h : History) (moment : ℕ) → StandsFor s h
        → (state_cut_answer moment s ≡ history_cut_answer s.config moment h)
        × StandsFor (state_after_cut moment s) (history_after_cut s.config moment h) }
    ensures clear { (s : StreamState) (h : History) → StandsFor s h
        → (state_clear_answer s ≡ history_clear_answer s.config h)
        × StandsFor (state_after_clear s) (history_after_clear s.config h) }
    ensures switch { (s : StreamState) (h : History) (active : Bool) → StandsFor s h
        → StandsFor (state_after_switch active s) (history_after_switch active h) }
    ensures look { (s : StreamState) (h : History) (moment : ℕ) → StandsFor s h
        → state_snap moment s ≡ history_snap s.config moment h }
{}

/// What is said of operators together is said of each: what it did is what the session's book has, and all that was done to the
/// streams but offers and takes is what the steps of all did. Does nothing.
pub fn every_operator()
    ensures book { (planned book : SessionBookState) (operators : List OperatorState) (all : Bool)
        (operations : List (List StreamStep)) → HaveDone planned operators all book operations
        → AllByRecursion (λ (o : OperatorState). IsOperatorOf planned o.steps book) operators }
    ensures operated { (planned book : SessionBookState) (operators : List OperatorState) (all : Bool)
        (streams : List StreamState) → HaveOperated planned operators all book streams
        → AllByRecursion (λ (o : OperatorState). HasOperated planned o.steps book streams) operators }
    ensures streams { (planned book : SessionBookState) (operators : List OperatorState) (all : Bool)
        (producers : List ProducerState) (drainers : List DrainerState) (streams : List StreamState)
        → HaveOneHistory planned operators all producers drainers book streams → IsOneEach (length streams) producers
        → AllByRecursion (λ (o : OperatorState). HasOperated planned o.steps book streams) operators }
{}
