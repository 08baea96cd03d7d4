//! The survey of a folder of archives: what they hold and what is wrong with them, session by session, as a text.
//! `docs/FORMATS.md` has each line, and what is passed over.
//!
//! The text is a function of what is there (`survey_of`), and so is the number of faults, one for each line that begins with
//! `fault`. By the definitions: `Heads` of archives as a whole, `Streams` of what is found packet by packet, `Losses` of the
//! records between which others were discarded, `Declaring` of the names that these have, `Identifiers` of the session's
//! identifier, `Sums` of what each archive adds. What is judged of a packet (`Tally`, `cause_of`, `discarded`, `unplaced`) is
//! public, so that another reading of the files, as a picture, judges by the same rules.
//!
//! A folder `archives` without an archive is a session with `uuid none archives 0`, and no fault.
//!
//! # Example
//!
//! ```
//! let found = survey(alloc, &mut folders, &mut sink, "DIR", false)?;  // how many faults it reported, or that there is no session
//! ```
//!
//! # What is proved
//!
//! For all folders that report what is in them:
//!
//! - What goes out is a function of what is in the folder, which short definitions give line by line, and so is the answer:
//!   how many faults were reported, that there is no session, or that the folder can't be read; then nothing went out
//!   (`survey`: `tells` (`TellsFolder`, `survey_of`, `identity_of`, `head_told`, `streams_told`, `file_told`, `bytes_told`,
//!   `sums_of`), `tree`).
//! - If it fails, a prefix of just that text went out. What can't be read below the folder is no failure: it is reported as a
//!   fault, and the survey goes on
//!   (`survey`: `err` (`HasToldPrefix`), `tells`).
//! - It answers `TooMuch` if and only if the folders failed, and `Write` if and only if the output did
//!   (`survey`: `reads`, `writes`).
//! - The names that the recorder gives to archives and files are read as what they say, and so are the identifier and the
//!   events in the metadata that it writes, if that isn't longer than what is looked at (`IsShort`: it isn't without declared
//!   events) (`laws::a_file_is_named_for_its_stream`, `an_archive_is_named_for_its_number`; `metadata_name_their_trace`:
//!   `plain`, `typed`, `declared`).
//! - Of a stream whose files hold packets which its audit passes, with counts of discarded records that don't fall, no fault is
//!   reported, but just where numbers are absent, what was lost, and its counts. A session that is below the folder as the
//!   recorder writes it, with nothing missing and nothing beside it (`StandsAlone`), is `whole`
//!   (`a_recorded_stream_has_no_fault`: `told`, `none`; `a_recorded_session_is_whole` (`StandsAlone`)).
//! - What another reading of the files asks for is as the survey has it: the sessions, archives and streams of a folder, and
//!   the identifier of each session (`has_archives`: `is`, `tree`, `failures`, `writes`; `archives_among`: `archives`;
//!   `streams_among`: `streams`; `listing_at`: `is`; `naming_of`: `naming`; `namings_of`: `namings`; `identity_of`:
//!   `identity`).
//!
//! # What is only tested
//!
//! Tests show what each line says; folders that fail at each of their calls, where all lines that were known before went out
//! (no clause says that a line goes out before the next file is read), and an output that fails at each byte; what is passed
//! over, and what can't be read. Runs of the program show each damage in real folders (`examples/audit/run`), links that lead
//! to themselves, a file without permission and a pipe (`.ci/under-fire`). Not promised are:
//!
//! - that memory is there, and that a survey which answers `NoMemory` had to;
//! - how many bytes of an archive's metadata are read (`LONGEST_METADATA`, which clauses name), beyond those that the recorder
//!   writes.
//!
//! tr_recorded proves that tr_export writes a session this way.
#![tactic(auto)]

mod declaring;
mod faults;
mod files;
mod heads;
mod identifiers;
mod laws;
mod lines;
mod listing;
mod losses;
mod names;
mod naming;
mod packets;
mod paths;
mod places;
mod sessions;
mod streams;
mod sums;
mod surveying;
mod tally;
mod writing;

pub use faults::{SurveyFault, Surveyed};
pub use identifiers::Identity;
pub use laws::{
    a_file_is_named_for_its_stream, a_recorded_session_is_whole, a_recorded_stream_has_no_fault,
    an_archive_is_named_for_its_number, metadata_name_their_trace,
};
pub use listing::{Listing, archives_among, listing_at, names_in_order, streams_among};
pub use losses::{Kept, Taken, taken_after, taken_with, unplaced};
pub use names::{Numbered, archive_number};
pub use naming::{Naming, naming_by};
pub use paths::{archives_path, file_path, stream_path};
pub use sessions::{identity_of, naming_of, namings_of};
pub use surveying::{has_archives, survey};
pub use tally::{
    Last, Tally, absent_before, cause_of, discarded, falls, lost_by, next_number, taken_before,
};
