//! What an audit of a stream's files says of its history.

ghost use Rattle.std.specs.Prelude.{◌≡◌, ◌≤◌, ◌+◌, ◌&&◌, ℕ, List, map, take};
ghost use Rattle.tr_session.specs.Laws.{AreAudited, all_of, audit_of, is_in_runs, ClosedBuffer, LastIs, NoneReleased, files_of, is_below_one, kept_above, left_below, left_of, packets_by_part, packets_in, was_removed, kept_of, packet_of, History, history_after_events, IsSound, IsUsable, StandsFor, StreamState, new_history, IsWellFormed, chunks_below, StreamConfig, StreamEvent};

use std::alloc::Allocator;

/// The files of every stream pass their audit; they hold the packets of the blocks that are kept in chunks that weren't
/// released, in order. Without a release these are the packets of all blocks that are kept; and in every well-formed history,
/// and so in every run, the gaps that the audit then finds are exactly the blocks that were overwritten or cleared below the
/// last kept one. The same holds for the files of its first chunks alone, as a session's archives are: their gaps are the
/// blocks that were overwritten or cleared below one that is kept in these chunks. Does nothing.
pub fn every_audit<A: Allocator>()
    ensures passes { (s : StreamState) (h : History) → IsSound s → StandsFor s h
        → AreAudited s.config.uuid s.config.number (files_of s) (packets_by_part s) }
    ensures left { (s : StreamState) (h : History) → StandsFor s h
        → packets_in s ≡ map (packet_of s.config) (left_of h) }
    ensures packets { (s : StreamState) (h : History) → StandsFor s h → NoneReleased h.cuts h
        → packets_in s ≡ map (packet_of s.config) (kept_of h) }
    ensures last { (c : StreamConfig) (bs : List ClosedBuffer)
        → LastIs (audit_of {A = A} (map (packet_of c) bs)) bs }
    ensures gaps_of_histories { (c : StreamConfig) (h : History) (n : ℕ) → IsWellFormed h
        → is_in_runs n (audit_of {A = A} (map (packet_of c) (kept_of h))).gaps
        ≡ (was_removed n h.closed && kept_above n h.closed) }
    ensures gaps { (c : StreamConfig) (events : List (StreamEvent A)) (n : ℕ) → IsUsable c
        → (let h = history_after_events c events new_history in
        is_in_runs n (audit_of {A = A} (map (packet_of c) (kept_of h))).gaps
        ≡ (was_removed n h.closed && kept_above n h.closed)) }
    ensures first_pass { (s : StreamState) (h : History) (k : ℕ) → IsSound s → StandsFor s h
        → AreAudited s.config.uuid s.config.number (take k (files_of s)) (take k (packets_by_part s)) }
    ensures first_left { (s : StreamState) (h : History) (k : ℕ) → StandsFor s h → k ≤ h.cuts + 1
        → all_of (take k (packets_by_part s)) ≡ map (packet_of s.config) (left_below k h) }
    ensures first_packets { (s : StreamState) (h : History) (k : ℕ) → StandsFor s h → k ≤ h.cuts + 1
        → NoneReleased k h → all_of (take k (packets_by_part s)) ≡ map (packet_of s.config) (chunks_below k h) }
    ensures first_gaps { (c : StreamConfig) (h : History) (k n : ℕ) → IsWellFormed h → k ≤ h.cuts + 1
        → is_in_runs n (audit_of {A = A} (map (packet_of c) (chunks_below k h))).gaps
        ≡ (was_removed n h.closed && is_below_one n (chunks_below k h)) }
{}
