//! Laws of packets' texts.

ghost use Rattle.std.specs.Prelude.{◌≡◌, List, ℕ, [], ◌++◌};
ghost use Rattle.tr_packet.specs.Decoding.{Begins};
ghost use Rattle.tr_packet.specs.Packets.{Contents, IsPacket, packet_text};

/// No packet's text is a prefix of another's, and bytes start with at most one packet.
pub fn texts_are_prefix_free()
    ensures prefix_free { (p q : Contents) (rest : List ℕ) → IsPacket p → IsPacket q
        → packet_text q ≡ packet_text p ++ rest → (p ≡ q) × (rest ≡ []) }
    ensures one_packet { (p q : Contents) (after behind bytes : List ℕ) → Begins p after bytes
        → Begins q behind bytes → (p ≡ q) × (after ≡ behind) }
{}
