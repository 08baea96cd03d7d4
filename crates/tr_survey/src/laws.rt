//! Laws of what a recorder writes and a survey reads.

ghost use Rattle.std.specs.Prelude.{◌≡◌, Bool, ◌<◌, ◌≤◌, ◌^◌, ℕ, ℤ, List, Some, IsTrue, false, length};
ghost use Rattle.std.specs.List.{All};
ghost use Rattle.tr_chunk.specs.ArchiveName.{archive_name_text};
ghost use Rattle.tr_chunk.specs.Files.{file_name};
ghost use Rattle.tr_events.specs.Declarations.{AreDeclared};
ghost use Rattle.tr_events.specs.Events.{Declarations};
ghost use Rattle.tr_folders.specs.Kept.{file_of};
ghost use Rattle.tr_folders.specs.Tree.{Tree};
ghost use Rattle.tr_packet.specs.Metadata.{metadata_of};
ghost use Rattle.tr_metadata.specs.Metadata.{metadata_with};
ghost use Rattle.tr_survey.specs.Declaring.{events_in};
ghost use Rattle.tr_survey.specs.Metadata.{IsShort, naming_in};
ghost use Rattle.tr_survey.specs.Names.{archive_number, of_parts, stream_named};
ghost use Rattle.tr_survey.specs.Order.{Numbered};
ghost use Rattle.tr_survey.specs.Sessions.{survey_of};
ghost use Rattle.tr_survey.specs.Streams.{TraceState, stream_told};
ghost use Rattle.tr_survey.specs.Told.{told};
ghost use Rattle.tr_survey.specs.Whole.{AreRecorded, HasFiles, Recorded, StandsAlone, StreamFiles, archives_in, recorded_stream_told, recorded_text};
ghost use Rattle.tr_survey.specs.declared.faults.Surveyed.TheVariants.{Faults};
ghost use Rattle.tr_survey.specs.declared.naming.Naming.TheVariants.{Named};
ghost use Rattle.tr_terms.specs.Names.{is_name};
ghost use Rattle.tr_terms.specs.Offsets.{IsOffset};
ghost use Rattle.tr_terms.specs.declared.limits.TheConstants.{LAST_MOMENT};

/// The file that a stream's packets are written to is read as that stream's. Does nothing.
pub fn a_file_is_named_for_its_stream()
    ensures { (channel : List ℕ) (number : ℕ) → IsTrue (is_name channel) → number < 2 ^ 64
        → stream_named (file_name channel number) ≡ Some (of_parts channel number) }
{}

/// The folder that an archive is written to is read as that of the archive's number. Does nothing.
pub fn an_archive_is_named_for_its_number()
    ensures { (begin end id : ℕ) (offset : ℤ) → begin ≤ LAST_MOMENT → end ≤ LAST_MOMENT → IsOffset offset → id < 2 ^ 64
        → archive_number (archive_name_text begin end offset id) ≡ Some id }
{}

/// The metadata of a trace are read as naming its identifier, also with declared events, and as declaring these, if they aren't
/// longer than what is looked at. Does nothing.
pub fn metadata_name_their_trace()
    ensures plain { (uuid : List ℕ) → length uuid ≡ 16 → All (λ b. b < 256) uuid
        → naming_in (Some (file_of (metadata_of uuid) false)) ≡ Named uuid }
    ensures typed { (d : Declarations) (uuid : List ℕ) → AreDeclared d → length uuid ≡ 16 → All (λ b. b < 256) uuid
        → IsShort d uuid → naming_in (Some (file_of (metadata_with d uuid) false)) ≡ Named uuid }
    ensures declared { (d : Declarations) (uuid : List ℕ) → AreDeclared d → IsShort d uuid
        → events_in (Some (file_of (metadata_with d uuid) false)) ≡ d.events }
{}

/// A stream's files have no fault if its audit passes their packets, and the counts of discarded records don't fall:
/// what is reported of the stream is where numbers are absent, what was lost, and its counts. Does nothing.
pub fn a_recorded_stream_has_no_fault()
    ensures told { (t : Tree) (folder : List ℕ) (from : TraceState) (stream : Numbered) (files : List Recorded) (n : ℕ)
        → HasFiles t folder stream files → AreRecorded from.uuid stream.number files
        → stream_told t folder from (archives_in files) n stream ≡ recorded_stream_told from stream files n }
    ensures none { (from : TraceState) (stream : Numbered) (files : List Recorded) (n : ℕ) → AreRecorded from.uuid stream.number files
        → (recorded_stream_told from stream files n).state ≡ n }
{}

/// A session that is in a folder as a recorder writes it, and is the only one there, is whole, and the survey says just its
/// archives, its streams, and what each of them lost. Does nothing.
pub fn a_recorded_session_is_whole()
    ensures { (asked : Bool) (t : Tree) (dir session : List ℕ) (from : TraceState) (archives : List Numbered) (streams : List StreamFiles)
        → StandsAlone t dir session from archives streams
        → survey_of asked t dir ≡ told (recorded_text asked session from archives streams) (Faults 0) }
{}
