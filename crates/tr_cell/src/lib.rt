//! What C calls: a static library. `clib/cells.h` declares each call, with its refusals.
//!
//! # Example
//!
//! ```c
//! trc_stream stream = {0};                                     // a handle of nothing
//! trc_stream_new(&stream, uuid, 16, 0, 4096, 4, TRC_OVERWRITE, TRC_LOCAL);
//! trc_stream_offer(&stream, moment, id, payload, len, &offered);
//! trc_stream_free(&stream);
//! ```
//!
//! # What is proved
//!
//! Each call answers by the rule of the call that it makes, says its results, and leaves its handles as that call does, for
//! every input: none requires anything of its arguments, waits, or touches a global. A closed handle is answered `CLOSED`
//! (`closed`, or the first case of `value` and `answer`). A refusal leaves handles and results as they were (`refused`, `same`,
//! `no_memory`, or the old values in `value`); only an audit says in its result where it stopped, and says the same again.
//!
//! - An offer, a take, a cut, a clear, a release and a forget are the stream's, and so is what they leave (`trc_stream_offer`:
//!   `value` (`state_offer_answer`, `state_after_offer`); `trc_stream_take`, `trc_stream_cut`, `trc_stream_clear`,
//!   `trc_stream_release`, `trc_stream_forget`: `value`, `no_memory`; `trc_stream_new`: `in_use`, `value`, `no_memory`; `trc_stream_switch`:
//!   `answer`, `after`).
//! - A thread and its stream come together, or neither. Starts, stops, a rotation's end, channels, schedules, snapshots and a
//!   rotation's beginning are the book's rules (`trc_book_thread`: `done`, `refused`, `why`; `trc_book_start`, `trc_book_stop`,
//!   `trc_rotate_finish`: `answer`, `after`; `trc_book_channel`: `done`, `refused`, `why`; `trc_book_schedule`: `value`,
//!   `refused`; `trc_book_snapshot`, `trc_rotate_begin`: `value`; `trc_book_new`: `done`, `refused`).
//! - A rotation cuts just the stream that is next, at its end, and notes that. Switches, clears, releases and looks are as the
//!   session allows. A stream of another trace is `Misplaced` (`trc_rotate_next`, `trc_rotate_cut`, `trc_book_clear`,
//!   `trc_book_release`, `trc_book_look`: `value`; `trc_book_switch`, `trc_book_can_clear`, `trc_book_can_release`: `answer`).
//! - Declared events are those of their text, or the first line that declares none is named; further handles have the same
//!   ones; the book declares them before the first start; a payload fits or not by its id's event (`trc_events_new`: `value`
//!   (`HoldsDeclared`); `trc_events_share`: `value`; `trc_book_declare`: `answer`, `done`; `trc_events_fit`: `value`
//!   (`fits_declared`)).
//! - Counts and their sums, a fate, a part's numbers, what a book and a look are, and when a rotation is due are the stream's
//!   and the book's (`trc_stream_counts`, `trc_stream_add_counts`, `trc_stream_part`, `trc_book_about`, `trc_book_archive`,
//!   `trc_snap_about`: `value`, `same`; `trc_stream_fate`: `value` (`state_fate`), `same`; `trc_book_due`: `value` (`due_now`),
//!   `same`).
//! - Names, and metadata with the declared events, come whole or not at all (`trc_book_archive_name`, `trc_book_file_name`,
//!   `trc_book_snapshot_name`, `trc_book_metadata`: `value`, `no_memory`, `same`; `trc_name`: `name`, `none`;
//!   `trc_archive_number`).
//! - Of packets' bytes from a place on as many are copied as there are and as fit, and the place is after these then
//!   (`trc_stream_text`, `trc_snap_text`: `value`).
//! - Pages in reserve have the size that was asked for. A stream that is given some, or is copied ahead, shows what it showed
//!   (`trc_spares_make`: `in_use`, `value`, `no_memory`; `trc_stream_keep_spares`: `value`, `given`, `same`;
//!   `trc_stream_begin_copies`, `trc_stream_copy_more`, `trc_stream_warm`, `trc_stream_lacking_copies`,
//!   `trc_stream_lacking_for_cut`, `trc_stream_lacking_for_take`: `value`, `same`).
//! - What a shell's line asks for is a script's parse of its bytes, of the session that is meant. Each answer is the text of
//!   the script's console, whole or not at all (`trc_line_parse`: `done` (`line_asked`), `no_memory`; `trc_reply_said`;
//!   `trc_reply_refused`, `trc_reply_cleared`, `trc_reply_released`, `trc_reply_row`, `trc_reply_snapshot`,
//!   `trc_reply_archived`, `trc_reply_archive`, `trc_reply_shown`: `value`, `no_memory`; `trc_reply_status`, `trc_reply_fate`:
//!   `value`, `refused`).
//! - An audit that bytes are fed to, in any pieces, finds what the audit of whole files finds (`trc_audit_new`: `done`, `read`,
//!   `refused`; `trc_audit_feed`, `trc_audit_next`: `read`, `answer`, `again`; `trc_audit_end`: `found`, `why`, `again`).
//! - A handle that is let go has nothing (`trc_stream_free`, `trc_snap_free`, `trc_spares_free`, `trc_removed_free`,
//!   `trc_book_free`, `trc_events_free`, `trc_audit_free`).
//!
//! # What the caller owes
//!
//! Nothing checks it: one call at a time is given a handle, ordered by a lock; a handle is never copied, nor written but as
//! zeros; results and rooms can be written, and slices point somewhere; what a call is given doesn't overlap; memory is of one
//! allocator, aligned to 16; no call is made in a signal handler; in a forked child of a process with threads the parent's
//! handles are zeros.
//!
//! # What isn't proved
//!
//! That C lends a session's streams to its book, cuts all of them in a rotation, and orders its calls. Only the trace is tested
//! (`Misplaced`).
#![tactic(auto)]

mod asks;
mod audits;
mod book_reads;
mod book_steps;
mod books;
mod declarations;
mod replies;
mod sessions;
mod snaps;
mod spares;
mod stream_reads;
mod streams;
