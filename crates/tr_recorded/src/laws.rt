//! What the parts of every stream hold, and where they are written.

ghost use Rattle.std.specs.Prelude.{◌≡◌, ◌≢◌, ◌<◌, ◌≤◌, ◌^◌, ℕ, Bool, IsTrue, false, List, [], ◌∷◌, Option, Some, length};
ghost use Rattle.std.specs.List.{All, AllByRecursion, last_or};
ghost use Rattle.tr_export.specs.Archives.{archives_made};
ghost use Rattle.tr_export.specs.Making.{Makings};
ghost use Rattle.tr_export.specs.Paths as export;
ghost use Rattle.tr_folders.specs.Kept.{file_of};
ghost use Rattle.tr_folders.specs.Tree.{Tree};
ghost use Rattle.tr_metadata.specs.Metadata.{metadata_with};
ghost use Rattle.tr_packet.specs.Packets.{Contents};
ghost use Rattle.tr_recorded.specs.Found.{AreOfTrace, ArePassed, found_recorded_text};
ghost use Rattle.tr_recorded.specs.Made.{Shows, tree_made};
ghost use Rattle.tr_recorded.specs.Recorded.{HasItsArchives, NoneReleased, recorded_of, session_recorded_text};
ghost use Rattle.tr_recorded.specs.Written.{AreWritten, IsLater, IsSession, all_made, all_restored};
ghost use Rattle.tr_recover.specs.Archive.{recovered_made};
ghost use Rattle.tr_schedule.specs.Schedules.{ScheduleState};
ghost use Rattle.tr_session.specs.Events.{session_after_events};
ghost use Rattle.tr_session.specs.Session.{HasItsStreams, SessionOf};
ghost use Rattle.tr_session.specs.Sizes.{HoldsItsParts};
ghost use Rattle.tr_session.specs.Steps.{IsClearedSome, IsHeldUp, IsReleasedSome, session_after_clear_all, session_after_next, session_after_release_all, session_after_rotate, session_after_snapshot, session_after_start, session_after_stop, session_after_tick};
ghost use Rattle.tr_session.specs.declared.events.Event.{Event};
ghost use Rattle.tr_session_book.specs.BookSteps.{IsBook, book_after_schedule};
ghost use Rattle.tr_stream.specs.Fates.{all_parts};
ghost use Rattle.tr_stream.specs.Images.{packets_standing};
ghost use Rattle.tr_stream.specs.Rules.{by_state};
ghost use Rattle.tr_stream.specs.State.{StreamState};
ghost use Rattle.tr_survey.specs.Declaring.{events_in};
ghost use Rattle.tr_survey.specs.Metadata.{IsShort, naming_in};
ghost use Rattle.tr_survey.specs.Order.{Numbered};
ghost use Rattle.tr_survey.specs.Paths.{archives_folder, file_path, path_of};
ghost use Rattle.tr_survey.specs.Sessions.{survey_of};
ghost use Rattle.tr_survey.specs.Streams.{trace_state};
ghost use Rattle.tr_survey.specs.Told.{told};
ghost use Rattle.tr_survey.specs.Whole.{AreRecorded};
ghost use Rattle.tr_survey.specs.declared.faults.Surveyed.TheVariants.{Faults, NoSession};
ghost use Rattle.tr_survey.specs.declared.naming.Naming.TheVariants.{Named};
ghost use Rattle.tr_terms.specs.Names.{is_name};
ghost use Rattle.tr_terms.specs.Offsets.{IsOffset};
ghost use Rattle.tr_terms.specs.declared.limits.TheConstants.{LAST_MOMENT, MOST_STREAMS};

use std::alloc::Allocator;
use tr_session::Session;
use tr_stream::Stream;

/// If none of a stream's parts in these archives was released, they hold, archive by archive, what a survey finds no fault in.
/// Does nothing.
pub fn every_stream_is_recorded<A: Allocator>(stream: &Stream<A>)
    ensures { (archives : List Numbered) → length archives ≤ length (all_parts stream.now.parts) → NoneReleased (length archives) stream.now
        → AreRecorded stream.now.config.uuid stream.now.config.number (recorded_of archives stream.now) }
{
    let _ = stream.config();
}

/// The packets in the memory of a stream's ring are what the stream's audit passes, so that what is recovered of a program's rings
/// is whole to a survey. Does nothing.
pub fn a_ring_is_passed<A: Allocator>(stream: &Stream<A>)
    ensures { ArePassed stream.now.config.uuid (packets_standing stream.now) }
{
    let _ = stream.config();
}

/// An archive's folder, and each file in it, is written where it is read. Does nothing.
pub fn archives_are_read_where_they_are_written()
    ensures folders { (dir session archive : List ℕ)
        → path_of (archives_folder dir session) archive ≡ export.folder_of dir session archive }
    ensures files { (dir session archive file : List ℕ)
        → file_path (archives_folder dir session) archive file ≡ export.path_of (export.folder_of dir session archive) file }
{}

/// The folders and files that are where things were made show what was made. Does nothing.
pub fn a_tree_shows_what_was_made()
    ensures { (dir : List ℕ) (made : Makings) → Shows (tree_made dir made) dir made }
{}

/// Each of these is a byte. Does nothing.
fn bytes_fit(bytes: &[u8])
    ensures { All (λ b. b < 256) bytes.now }
{}

/// A session's book is one, it is within its limits, and a survey reads its metadata as naming its identifier and declaring its
/// events. Does nothing.
fn every_session_is_within<A: Allocator>(session: &Session<A>)
    ensures book { IsBook session.now.book }
    ensures begin { session.now.book.begin ≤ LAST_MOMENT }
    ensures offset { IsOffset session.now.book.offset }
    ensures read { IsShort session.now.book.events session.now.book.uuid
        → naming_in (Some (file_of (metadata_with session.now.book.events session.now.book.uuid) false)) ≡ Named session.now.book.uuid }
    ensures declared { IsShort session.now.book.events session.now.book.uuid
        → events_in (Some (file_of (metadata_with session.now.book.events session.now.book.uuid) false)) ≡ session.now.book.events.events }
    ensures archives { length session.now.book.archives ≤ 2 ^ 64 }
    ensures streams { length session.now.streams ≤ MOST_STREAMS }
    ensures own { HasItsStreams session.now }
{
    session.book().every_book_obeys();
    let uuid = session.book().uuid();
    bytes_fit(uuid.as_bytes());
    let _ = session.book().offset().get();
    let _ = session.book().archives().len();
    let _ = session.book().events().list();
    let _ = session.streams();
}

/// What is written of a session to a folder that was empty is whole to a survey, if it has an archive and no part of one was
/// released, as after sharing, and its metadata isn't longer than what a survey looks at, as without declared events: the survey
/// says just its archives, its streams, and what each of them lost. Without an archive
/// nothing is written, and there is no session. It does nothing but look at each stream.
pub fn what_is_written_is_whole<A: Allocator>(session: &Session<A>)
    ensures whole { (asked : Bool) (t : Tree) (dir name : List ℕ) → IsTrue (is_name name) → session.now.book.archives ≢ []
        → HasItsArchives session.now → IsShort session.now.book.events session.now.book.uuid → Shows t dir (archives_made dir name session.now)
        → survey_of asked t dir ≡ told (session_recorded_text asked name session.now) (Faults 0) }
    ensures none { (asked : Bool) (t : Tree) (dir name : List ℕ) → session.now.book.archives ≡ []
        → Shows t dir (archives_made dir name session.now) → survey_of asked t dir ≡ told [] NoSession }
    ensures held { AllByRecursion HoldsItsParts session.now.streams → HasItsArchives session.now }
{
    every_session_is_within(session);
    'streams: for i in 0..session.streams() {
        if let Some(stream) = session.stream(i) {
            every_stream_is_recorded(stream);
        }
    }
}

/// What every session has: a book, and a stream for each thread, which represents a history. It does nothing but look at each
/// stream.
pub fn every_session_is_one<A: Allocator>(session: &Session<A>)
    ensures { IsSession session.now }
{
    every_session_is_within(session);
    'each: for i in 0..session.streams() {
        if let Some(stream) = session.stream(i) {
            let _ = stream.config();
        }
    }
}

/// What events make of a session is a later value of it, in which closed chunks keep what they have. So is what a call of all its
/// streams makes of it, done or stopped halfway by a failed allocation, and what is later than a later value. Does nothing.
pub fn every_later_session<A: Allocator>()
    ensures events { (s : SessionOf StreamState) (events : List (Event A)) → IsLater s (session_after_events by_state events s) }
    ensures further { (s u w : SessionOf StreamState) → IsLater s u → IsLater u w → IsLater s w }
    ensures start { (s : SessionOf StreamState) (moment : ℕ) → IsLater s (session_after_start by_state moment s) }
    ensures stop { (s : SessionOf StreamState) → IsLater s (session_after_stop by_state s) }
    ensures rotate { (s : SessionOf StreamState) (moment : ℕ) → IsLater s (session_after_rotate by_state moment s) }
    ensures next { (s : SessionOf StreamState) → IsLater s (session_after_next by_state s) }
    ensures held_up { (s u : SessionOf StreamState) (moment : ℕ) → IsHeldUp by_state moment s u → IsLater s u }
    ensures schedule { (s : SessionOf StreamState) (schedule : Option ScheduleState)
        → IsLater s (record s { book = book_after_schedule schedule s.book }) }
    ensures tick { (s : SessionOf StreamState) (now : ℕ) → IsLater s (session_after_tick by_state now s) }
    ensures clear { (s : SessionOf StreamState) → IsLater s (session_after_clear_all by_state s) }
    ensures cleared_some { (s u : SessionOf StreamState) → IsClearedSome by_state s u → IsLater s u }
    ensures release { (s : SessionOf StreamState) (k : ℕ) → IsLater s (session_after_release_all by_state k s) }
    ensures released_some { (s u : SessionOf StreamState) (k : ℕ) → IsReleasedSome by_state k s u → IsLater s u }
    ensures snapshot { (s : SessionOf StreamState) (moment : ℕ) → IsLater s (session_after_snapshot moment s) }
{}

/// What is written of a session at several times to a folder that was empty is whole to a survey, whatever was called in between,
/// and whichever archives were released that had been written before, if an archive has all its parts when it is first written.
/// The survey says just what it would say of the last value had nothing been released: all archives, and of each stream its
/// packets in order, and what was lost between them, from one time to the next too. Does nothing.
pub fn what_is_written_again_is_whole<A: Allocator>(session: &Session<A>)
    ensures { (asked : Bool) (t : Tree) (dir name : List ℕ) (first : SessionOf StreamState) (more : List (SessionOf StreamState))
        → last_or (Some first) more ≡ Some session.now → session.now.book.archives ≢ [] → IsTrue (is_name name)
        → IsSession first → HasItsArchives first → AreWritten first more → IsShort session.now.book.events session.now.book.uuid
        → Shows t dir (all_made dir name (first ∷ more))
        → survey_of asked t dir ≡ told (session_recorded_text asked name (all_restored first more)) (Faults 0) }
{
    every_session_is_within(session);
}

/// What is made of packets that were found in an image, in a folder that was empty, is whole to a survey: if they are of streams
/// that a session can have, each stream's are what its audit passes, as those of one ring are, and the metadata name their trace.
/// The survey says just that archive, its streams, and what each of them lost. Does nothing.
pub fn what_is_recovered_is_whole()
    ensures { (asked : Bool) (t : Tree) (dir metadata uuid : List ℕ) (p : Contents) (ps : List Contents) → AreOfTrace uuid (p ∷ ps)
        → naming_in (Some (file_of metadata false)) ≡ Named uuid → Shows t dir (recovered_made dir metadata (p ∷ ps))
        → survey_of asked t dir
        ≡ told (found_recorded_text asked (trace_state uuid (events_in (Some (file_of metadata false)))) p ps) (Faults 0) }
{}
