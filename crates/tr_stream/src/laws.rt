//! What is true of every run, whether or not there is memory for it.

ghost use Rattle.std.specs.Prelude.{◌≡◌, ◌<◌, ℕ, List, [], Some, true, false, slice_get};
ghost use Rattle.tr_stream.specs.Laws.{chunk_of, cleared_of, kept_of, Rising, Closed, is_kept, is_waiting, offered_of, times, history_after_events, kept_after_cuts, clears_among, cuts_made, IsUsable, new_history, IsWellFormed, Snapshot, StreamConfig, StreamEvent};

use std::alloc::Allocator;

/// Every list of calls leads to a well-formed history, in which
///
/// - each accepted offer is in one place;
/// - what is kept has rising numbers and serials;
/// - every block before a kept one is kept, was overwritten or was cleared;
/// - a trace chunk keeps what came to it between its cuts and wasn't cleared since;
/// - without a clear nothing is cleared;
/// - in a snapshot session nothing is consumed, cleared or cut.
///
/// Does nothing.
pub fn every_run<A: Allocator>()
    ensures well_formed { (c : StreamConfig) (events : List (StreamEvent A)) → IsUsable c
        → IsWellFormed (history_after_events c events new_history) }
    ensures one_place { (c : StreamConfig) (events : List (StreamEvent A)) (n : ℕ) → IsUsable c
        → n < offered_of (history_after_events c events new_history)
        → times n (history_after_events c events new_history) ≡ 1 }
    ensures kept { (c : StreamConfig) (events : List (StreamEvent A)) → IsUsable c
        → (let h = history_after_events c events new_history
        in Rising 0 0 (kept_of h) h.filling.number (offered_of h)) }
    ensures settled { (c : StreamConfig) (events : List (StreamEvent A)) (i j : ℕ) (b d : Closed) → IsUsable c
        → (let h = history_after_events c events new_history in slice_get h.closed i ≡ Some b
        → slice_get h.closed j ≡ Some d
        → is_kept d.status ≡ true → i < j → (b.block.number ≡ i) × (is_waiting b.status ≡ false)) }
    ensures chunks { (c : StreamConfig) (events : List (StreamEvent A)) (k : ℕ) → IsUsable c
        → chunk_of k (history_after_events c events new_history) ≡ kept_after_cuts k c events new_history }
    ensures cuts { (c : StreamConfig) (events : List (StreamEvent A))
        → (history_after_events c events new_history).cuts ≡ cuts_made c events }
    ensures uncleared { (c : StreamConfig) (events : List (StreamEvent A)) → clears_among events ≡ 0
        → cleared_of (history_after_events c events new_history) ≡ [] }
    ensures snapshot_session { (c : StreamConfig) (events : List (StreamEvent A)) → IsUsable c
        → c.session ≡ Snapshot
        → (let h = history_after_events c events new_history in (kept_of h ≡ []) × (cleared_of h ≡ [])
        × (h.cuts ≡ 0)) }
{}
