//! What stands in a page's memory while a call is under way: laws of the list of its stores. That the code makes these stores, in
//! this order, isn't proved.

ghost use Rattle.std.specs.Prelude.{◌≡◌, ◌≤◌, ◌+◌, ◌⊎◌, ℕ, List, [], ◌∷◌, ◌++◌, length, take};
ghost use Rattle.std.specs.Int.{w64, to_le_bytes};
ghost use Rattle.tr_packet.specs.Decoding.{content_bits_in};
ghost use Rattle.tr_packet.specs.Packets.{IsPacket, contents, packet_size, packet_text};
ghost use Rattle.tr_packet.specs.declared.head.Head.{Head};
ghost use Rattle.tr_packet.specs.declared.layout.TheConstants.{CONTENT_SIZE_AT, END_AT, LOST_AT};
ghost use Rattle.tr_record.specs.Records.{Entry};
ghost use Rattle.tr_record.specs.Weight.{record_weight};
ghost use Rattle.tr_subbuf.specs.Stores.{NoneStands, Stands, after_store, after_stores, begin_stores, put_stores, store};
ghost use Rattle.tr_subbuf.specs.SubBuffer.{ending, losing};
ghost use Rattle.tr_terms.specs.declared.limits.TheConstants.{PACKET_HEADER};

/// After each of the stores of a `put` the packet of the records before is there, ending as before or with the new record, or
/// that of the records after, whatever follows them in the page: never a part of a record.
pub fn a_put_is_whole_at_each_store()
    ensures { (h : Head) (es : List Entry) (e : Entry) (stale : List ℕ) (k : ℕ) → IsPacket (contents h es)
        → IsPacket (contents (ending e.moment h) es) → IsPacket (contents (ending e.moment h) (es ++ e ∷ []))
        → record_weight e ≤ length stale
        → Stands (contents h es) (after_stores (take k (put_stores (packet_size (contents h es)) e)) (packet_text (contents h es) ++ stale))
        ⊎ (Stands (contents (ending e.moment h) es) (after_stores (take k (put_stores (packet_size (contents h es)) e)) (packet_text (contents h es) ++ stale))
        ⊎ Stands (contents (ending e.moment h) (es ++ e ∷ [])) (after_stores (take k (put_stores (packet_size (contents h es)) e)) (packet_text (contents h es) ++ stale))) }
{}

/// After each of the stores of a `begin` no packet is there, or that of its record, whatever follows the header in the
/// page.
pub fn a_first_record_is_whole_at_each_store()
    ensures { (h : Head) (e : Entry) (memory : List ℕ) (k : ℕ) → content_bits_in memory ≡ 0
        → IsPacket (contents (ending e.moment h) (e ∷ [])) → PACKET_HEADER + record_weight e ≤ length memory
        → NoneStands (after_stores (take k (begin_stores h e)) memory)
        ⊎ Stands (contents (ending e.moment h) (e ∷ [])) (after_stores (take k (begin_stores h e)) memory) }
{}

/// A page is closed by one store: then its packet ends at that moment.
pub fn an_end_is_one_store()
    ensures { (h : Head) (es : List Entry) (end : ℕ) (stale : List ℕ) → IsPacket (contents h es) → IsPacket (contents (ending end h) es)
        → Stands (contents (ending end h) es) (after_store (store END_AT (to_le_bytes w64 end)) (packet_text (contents h es) ++ stale)) }
{}

/// What was lost before a packet is noted by one store.
pub fn a_loss_is_noted_by_one_store()
    ensures { (h : Head) (es : List Entry) (lost : ℕ) (stale : List ℕ) → IsPacket (contents h es) → IsPacket (contents (losing lost h) es)
        → Stands (contents (losing lost h) es) (after_store (store LOST_AT (to_le_bytes w64 lost)) (packet_text (contents h es) ++ stale)) }
{}

/// A page is emptied by one store: then no packet is there.
pub fn an_empty_page_shows_nothing()
    ensures { (h : Head) (es : List Entry) (stale : List ℕ) → IsPacket (contents h es)
        → NoneStands (after_store (store CONTENT_SIZE_AT (to_le_bytes w64 0)) (packet_text (contents h es) ++ stale)) }
{}
