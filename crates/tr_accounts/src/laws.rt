//! What each call of a stream keeps, if it is noted; and what the seats of its journal have.

ghost use Rattle.std.specs.Prelude.{◌≡◌, ◌<◌, ◌++◌, ◌∷◌, [], ℕ, Bool, List, Result, Some, if◌then◌else◌, is_ok, length, map, slice_get};
ghost use Rattle.std.specs.List.{AllByRecursion};
ghost use Rattle.std.specs.List.Sorted.{IsStrictlyIncreasing};
ghost use Rattle.tr_accounts.specs.Accounts.{IsAccounted, history_of};
ghost use Rattle.tr_accounts.specs.Holds.{HoldsOffers, IsRecordOf, held_records};
ghost use Rattle.tr_accounts.specs.Logs.{items_of};
ghost use Rattle.tr_accounts.specs.Moments.{IsStored, given_in, greatest};
ghost use Rattle.tr_accounts.specs.Seats.{IsJournalOf, desk_seat, drainer_parts, is_offer, is_operation, producer_seat, steps_of, take_lines};
ghost use Rattle.tr_accounts.specs.StreamSteps.{AcceptedOffer, accepted_in, clear_step, cut_step, look_step, offer_step, release_step, switch_step, take_step, taken_in};
ghost use Rattle.tr_accounts.specs.Takes.{WasTaken};
ghost use Rattle.tr_accounts.specs.declared.step.StreamStep.{StreamStep};
ghost use Rattle.tr_journal.specs.Journals.{IsSeatOf, IsWhole, JournalState, SeatState, parts_of};
ghost use Rattle.tr_journal.specs.Views.{all_done, done_by, line};
ghost use Rattle.tr_journal.specs.Whole.{AreAllOf};
ghost use Rattle.tr_journal.specs.declared.rule.Line.{Line};
ghost use Rattle.tr_stream.specs.Kept.{IsKept};
ghost use Rattle.tr_stream.specs.StandsFor.{StandsFor};
ghost use Rattle.tr_stream.specs.State.{StreamState};
ghost use Rattle.tr_stream.specs.StateSteps.{state_after_clear, state_after_cut, state_after_offer, state_after_release, state_after_switch, state_after_take, state_clear_answer, state_cut_answer, state_offer_answer, state_release_answer, state_snap, state_take_answer};
ghost use Rattle.tr_stream.specs.Steps.{new_history};
ghost use Rattle.tr_stream.specs.declared.answers.OfferFault.{OfferFault};
ghost use Rattle.tr_stream.specs.declared.answers.Offered.{Offered};

/// If each call of a stream is noted in its journal, with its answer, by a seat whose call it is, the journal stays the
/// stream's: the stream represents the history of just these calls, each answered as in that history, and it holds what was
/// offered and nothing else. A release keeps this too, though no journal has a line for it. Does nothing.
pub fn every_call()
    ensures new { (s : StreamState) → StandsFor s new_history → IsJournalOf [] s }
    ensures offer { (lines : List (Line StreamStep)) (s : StreamState) (moment id : ℕ) (payload : List ℕ)
        → IsJournalOf lines s → IsKept s
        → IsJournalOf (lines ++ line producer_seat (offer_step moment id payload (state_offer_answer moment id payload s)) ∷ [])
        (state_after_offer moment id payload s) }
    ensures take { (lines : List (Line StreamStep)) (s : StreamState) (who : ℕ) → IsJournalOf lines s → desk_seat < who
        → IsJournalOf (lines ++ line who (take_step (state_take_answer s)) ∷ []) (state_after_take s) }
    ensures cut { (lines : List (Line StreamStep)) (s : StreamState) (moment : ℕ) → IsJournalOf lines s
        → IsJournalOf (lines ++ line desk_seat (cut_step moment (state_cut_answer moment s)) ∷ []) (state_after_cut moment s) }
    ensures clear { (lines : List (Line StreamStep)) (s : StreamState) → IsJournalOf lines s
        → IsJournalOf (lines ++ line desk_seat (clear_step (state_clear_answer s)) ∷ []) (state_after_clear s) }
    ensures switch { (lines : List (Line StreamStep)) (s : StreamState) (active : Bool) → IsJournalOf lines s
        → IsJournalOf (lines ++ line desk_seat (switch_step active) ∷ []) (state_after_switch active s) }
    ensures look { (lines : List (Line StreamStep)) (s : StreamState) (moment : ℕ) → IsJournalOf lines s
        → IsJournalOf (lines ++ line desk_seat (look_step moment (state_snap moment s)) ∷ []) s }
    ensures release { (steps : List StreamStep) (s : StreamState) (k : ℕ) → IsAccounted steps s
        → IsAccounted (steps ++ release_step k (state_release_answer k s) ∷ []) (state_after_release k s) }
{}

/// What the seats of a stream's journal have: the offers in it, refused ones too, are what the producer's seat noted, and the
/// stream holds those that were accepted; the operations are what the desk's seat noted; and if all seats that were made are
/// joined in one, each take is in one drainer's part, and in one alone. Does nothing.
pub fn every_seat()
    ensures offers { (lines : List (Line StreamStep)) (s : StreamState) → IsJournalOf lines s
        → steps_of is_offer (all_done lines) ≡ done_by producer_seat lines }
    ensures holds { (lines : List (Line StreamStep)) (s : StreamState) → IsJournalOf lines s
        → HoldsOffers (accepted_in (done_by producer_seat lines)) s }
    ensures operations { (lines : List (Line StreamStep)) (s : StreamState) → IsJournalOf lines s
        → steps_of is_operation (all_done lines) ≡ done_by desk_seat lines }
    ensures takes { (journal : JournalState StreamStep) (seat : SeatState StreamStep) (s : StreamState)
        → IsJournalOf journal.lines s → IsSeatOf journal seat → IsWhole journal seat
        → AreAllOf (take_lines journal.lines) (drainer_parts (parts_of seat)) }
{}

/// A log of a stream's accepted offers agrees with the stream: it has as many items as the stream counts offers, and each
/// record that the stream holds is of the item at its serial. A log that gets each item whose offer is accepted is such a log.
/// Does nothing.
pub fn every_log<X>()
    ensures agrees { (item : ℕ → ℕ → List ℕ → X) (offers : List AcceptedOffer) (s : StreamState) → HoldsOffers offers s
        → (length (items_of item offers) ≡ s.counters.offered)
        × AllByRecursion (λ e. (o : AcceptedOffer)
        × (slice_get (items_of item offers) e.serial ≡ Some (item o.moment o.id o.payload)) × IsRecordOf o e)
        (held_records s) }
    ensures grows { (item : ℕ → ℕ → List ℕ → X) (steps : List StreamStep) (log : List X) (moment id : ℕ)
        (payload : List ℕ) (told : Result Offered OfferFault) → log ≡ items_of item (accepted_in steps)
        → (if is_ok told then log ++ item moment id payload ∷ [] else log)
        ≡ items_of item (accepted_in (steps ++ offer_step moment id payload told ∷ [])) }
{}

/// The takes of a stream are its packets in order: their numbers rise, each had as many records as the take answered, and is
/// kept in the chunk that it named or was cleared since. The same holds of what one seat's holder took of them. Does nothing.
pub fn every_take()
    ensures rise { (steps : List StreamStep) (s : StreamState) → IsAccounted steps s → IsKept s
        → IsStrictlyIncreasing (map (λ t. t.seq) (taken_in steps)) }
    ensures were { (steps : List StreamStep) (s : StreamState) → IsAccounted steps s → IsKept s
        → AllByRecursion (WasTaken (history_of s.config steps)) (taken_in steps) }
    ensures own_rise { (lines : List (Line StreamStep)) (s : StreamState) (who : ℕ)
        → IsAccounted (all_done lines) s → IsKept s
        → IsStrictlyIncreasing (map (λ t. t.seq) (taken_in (done_by who lines))) }
    ensures own_were { (lines : List (Line StreamStep)) (s : StreamState) (who : ℕ)
        → IsAccounted (all_done lines) s → IsKept s
        → AllByRecursion (WasTaken (history_of s.config (all_done lines))) (taken_in (done_by who lines)) }
{}

/// The last moment that a stream stored is the greatest that its accepted offers and its cuts gave, and each record that it holds
/// is one of those offers, whole, with its serial and the greatest moment that was given up to it. Does nothing.
pub fn every_moment()
    ensures last { (steps : List StreamStep) (s : StreamState) → IsAccounted steps s
        → s.counters.last ≡ greatest (given_in steps) }
    ensures held { (steps : List StreamStep) (s : StreamState) → IsAccounted steps s
        → AllByRecursion (IsStored steps) (held_records s) }
{}
