//! What a recorder keeps and writes is what a survey reads, and finds nothing wrong with; so is what is recovered of its rings.
//!
//! tr_export writes the packets of each part of a stream to a file, tr_recover those that were found in an image, and tr_survey
//! judges such files. This crate has the laws between them. It has nothing that runs.
//!
//! # What is proved
//!
//! - What tr_export makes of a session in a folder that was empty is `whole` to a survey, if the session has an archive, no
//!   part of its archives was released (as in every session that was shared), its name is one, and, if events are declared, its
//!   metadata isn't longer than what a survey looks at (`IsShort`). The survey says just its archives, its streams, and what
//!   each of them lost, as a definition over the session says it; without an archive there is no session. This holds of all
//!   folders that list what was made in them, in any order, and nothing else (`what_is_written_is_whole`: `whole` (`Shows`,
//!   `session_recorded_text`), `held`, `none`; `tr_survey::a_recorded_session_is_whole` (`StandsAlone`);
//!   `a_tree_shows_what_was_made`).
//! - So is what is made of it at several times in the same folder, whatever is called in between, and whichever archives are
//!   released that were written before, if an archive has all its parts when it is first written. The survey says what it would
//!   say of the last value had nothing been released: all archives, and of each stream its packets in order, and what was lost
//!   between them (`what_is_written_again_is_whole` (`AreWritten`, `all_restored`)).
//! - What a session's calls make of it is a later value, in which closed chunks keep what they have (`every_later_session`:
//!   `events`, `further`, `start`, `stop`, `rotate`, `next`, `held_up`, `schedule`, `tick`, `clear`, `cleared_some`, `release`,
//!   `released_some`, `snapshot` (`IsLater`, `GoesOn`); `every_session_is_one` (`IsSession`)).
//! - The packets of a stream's parts, none of which was released, are what tr_survey finds no fault in, one archive after
//!   another: packets of this trace and stream, whose numbers and serials rise, and whose counts of discarded records don't
//!   fall (`every_stream_is_recorded` (`AreRecorded`)).
//! - What tr_recover makes of packets that were found in an image is `whole` to a survey too, in a folder that was empty: if
//!   they are of one trace, which the metadata name, in order, of streams that a session can have, and each stream's are what
//!   its audit passes (`what_is_recovered_is_whole` (`AreOfTrace`, `found_recorded_text`)).
//! - Those in the memory of a stream's ring are; those of a disk with several runs of one identifier may not be
//!   (`a_ring_is_passed` (`ArePassed`)).
//! - The folders and files of archives have the paths at which they are read (`archives_are_read_where_they_are_written`:
//!   `folders`, `files`).
//!
//! # What is only tested
//!
//! That a file system's folders list what was made in them, and its files have the bytes that were written (`examples/audit/run`);
//! that the image of a program's rings has these and no others of its trace.
#![tactic(auto)]

mod laws;

pub use laws::{
    a_ring_is_passed, a_tree_shows_what_was_made, archives_are_read_where_they_are_written,
    every_later_session, every_session_is_one, every_stream_is_recorded,
    what_is_recovered_is_whole, what_is_written_again_is_whole, what_is_written_is_whole,
};
