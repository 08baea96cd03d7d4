//! What a rotation does, one hold of the locks after another, and what a feeder's log says of its producer.

ghost use Rattle.std.specs.Prelude.{◌≡◌, ◌≤◌, [], ℕ, List, length};
ghost use Rattle.tr_threads.specs.Feeding.{IsFed};
ghost use Rattle.tr_threads.specs.declared.items.Item.{Item};
ghost use Rattle.tr_seats.specs.Settling.{OpenedState};
ghost use Rattle.tr_seats.specs.Slots.{ProducerState};
ghost use Rattle.tr_session.specs.Steps.{cut_first};
ghost use Rattle.tr_shared.specs.Calls.{HasOffered, IsOffered};
ghost use Rattle.tr_shared.specs.Feeds.{IsLogOf};
ghost use Rattle.tr_shared.specs.Rotations.{AreLocal, cut_slots, session_in};
ghost use Rattle.tr_stream.specs.Rules.{by_state};

/// The cuts of a rotation at a desk, one hold of the locks after another and nothing between, are the cuts of the same
/// session that one thread rotates: of its first streams, as many as it cuts. Does nothing.
pub fn every_rotation()
    ensures { (n : ℕ) (s : OpenedState) → n ≤ length s.slots → AreLocal s.slots
        → session_in (cut_slots n s) ≡ cut_first by_state n (session_in s) }
{}

/// A producer that a feeder had has offered as many records more as the feeder's log has items, all to the same stream, and has
/// published what it offered; and if it is a new one, the log has just its accepted offers, in order. Does nothing.
pub fn every_feed()
    ensures offers { (p q : ProducerState) (work log : List Item) → IsFed IsOffered p work q log → HasOffered (length log) p q }
    ensures logs { (p q : ProducerState) (work log : List Item) → IsFed IsOffered p work q log → p.steps ≡ [] → IsLogOf q log }
{}
