//! Laws of typed metadata.

ghost use Rattle.std.specs.Prelude.{◌≡◌, ◌++◌, ℕ, List, [], Some, map};
ghost use Rattle.std.specs.List.{AllByRecursion, flat_map};
ghost use Rattle.tr_packet.specs.Metadata.{metadata_of};
ghost use Rattle.tr_packet.specs.Packets.{Contents, IsPacket, packet_text};
ghost use Rattle.tr_events.specs.Declarations.{AreDeclared};
ghost use Rattle.tr_events.specs.Events.{Declarations, Event, AreEvents, FitsAsDeclared, nothing};
ghost use Rattle.tr_metadata.specs.Metadata.{metadata_with};
ghost use Rattle.tr_metadata.specs.Recovery.{declared_in};
ghost use Rattle.tr_metadata.specs.Reader.{IsReadable, file_read, packet_read, read_of, reads_of};

/// By the metadata of its session's events, a packet is read as exactly its records, in order, each with its values.
/// Does nothing.
pub fn packets_are_read()
    ensures { (events : List Event) (p : Contents) (rest : List ℕ) → AreEvents events → IsPacket p
        → AllByRecursion (FitsAsDeclared events) p.records
        → packet_read events (packet_text p ++ rest) ≡ Some (map (read_of events) p.records) }
{}

/// And so is a stream's file, which has packets end to end. Does nothing.
pub fn files_are_read()
    ensures { (events : List Event) (ps : List Contents) → AreEvents events → AllByRecursion (IsReadable events) ps
        → file_read events (flat_map packet_text ps) ≡ Some (flat_map (reads_of events) ps) }
{}

/// If nothing is declared, the metadata is the one of records alone. Does nothing.
pub fn nothing_declared()
    ensures { (uuid : List ℕ) → metadata_with nothing uuid ≡ metadata_of uuid }
{}

/// What a text was made of is what it declares, its variables as its events. Does nothing.
pub fn declarations_stand()
    ensures { (d : Declarations) (uuid : List ℕ) → AreDeclared d → declared_in (metadata_with d uuid) ≡ Some d }
{}
