//! A script's console: its sessions, and the answer to each line. Each command is a file of `commands`.
//! A whole run is proved equal to a function from the script's bytes to the answer's bytes.
//!
//! # Example
//!
//! ```
//! let text = run_text(alloc, clap, b"create s 00000000-0000-0000-0000-000000000001\n");  // "created s\n"
//! ```
//!
//! # What is proved
//!
//! This holds for every source and sink that reports what it gave or took, however it cuts the bytes.
//!
//! - If a script's run answers Ok, it read its source to the end, wrote exactly the answer that a short definition gives, over
//!   the histories of the streams, and left in `ScriptDone.console` the sessions of that definition, with the given events
//!   (`run_script`, `run_script_with`: `done` (`Ran.read`, `Ran.wrote`, `Ran.refusals`, `Ran.sessions`), `end`, `content`;
//!   `run_text`: `text`, `fits`).
//! - If it ends early, what was read and what went out are said for each way: the source failed (Q1), the script was too long
//!   (Q2), the sink failed (Q3). Before an allocation fails (Q4), each line but one is answered, apart from the lines that
//!   ended in the last 65,536 bytes read. A fault is this call's (`run_script`, `run_script_with`: `read`, `too_long`, `write`,
//!   `memory` (`AnsweredSome.wrote`, `AnsweredSome.reached`), `source_failed`, `source_works`, `sink_failed`, `sink_works`;
//!   `run_text`: `too_long`, `read`, `write`).
//! - A command is its session's rule and leaves other sessions alone, or is refused. If an allocation fails, all is as before
//!   or as the line leaves it, but a rotation may be held up, some streams cleared, some parts released (within the crate
//!   `Console::create`, `add_channel`, `add_thread`, `start`, `stop`, `offer`, `consume`, `rotate_begin`, `rotate_next`,
//!   `rotate_finish`, `rotate`, `schedule`, `tick`, `snapshot`, `clear`, `release`: `done`, `failed`; within the crate
//!   `Console::tick`: `idle`; within the crate `Console::fate`, `status`, `archives`).
//! - The session of a name can be changed, and others and names stay (within the crate `Console::find_mut`: `lends`, `found`).
//! - Each line is answered as its command is defined, with its text (within the crate `Console::answer`, `status_of`,
//!   `archives_of`; within the crate `refusal`, `archived_reply`, `cleared_reply`, `next_reply`, `offered_reply`,
//!   `released_reply`, `rotating_reply`, `schedule_reply`, `snapshot_reply`, `taken_reply`, `tick_reply`: `text`, `refused`,
//!   `memory`; within the crate `fate_reply`: `text`, `refused`).
//! - Answers are out before more is read (within the crate `next_line`: `asked`, `read`, `whole`, `last`).
//!
//! # What is only tested
//!
//! That all lines that came are answered before more is asked for: each line is taken so, but a run's source and sink are two
//! values, and no clause says what one had when the other was called. Tests give a line at a time, and other pieces. What real
//! standard input and output give or hold isn't claimed.
#![tactic(auto)]

mod commands;
mod console;
mod outbox;
mod replies;
mod script;
mod script_fault;

pub use console::Console;
pub use script::{ScriptDone, run_script, run_script_with, run_text};
pub use script_fault::ScriptFault;
