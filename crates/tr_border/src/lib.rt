//! What crosses to C: the numbers of refusals and modes, structs of results, texts that are copied out, and what a shell's line
//! asks for. And the steps of a session's book with one of its streams, which C lends it.
//!
//! # Example
//!
//! ```
//! let code = session_code(SessionFault::NameTaken); // 115, as S15
//! let done = cut_stream(&mut book, &mut stream)?;   // the stream that the pending rotation cuts next
//! ```
//!
//! # What is proved
//!
//! - A refusal's number is that of its code: the hundred of its letter, and its digits; or 1, if an allocation failed. It goes
//!   back to the fault that it is of, and to no other; so do the numbers of counts and of fates (`offer_code`, `take_code`,
//!   `cut_code`, `clear_code`, `release_code`, `forget_code`, `session_code`, `step_code`, `schedule_code`, `geometry_code`, `packet_code`,
//!   `event_code`, `audit_code`, `code_of`, `counts_in`; `fault_numbered`: `value`, `session`, `schedule`, `number`; `fate_in`:
//!   `value`, `told`).
//! - Each struct of a result has the numbers of the answer, one by one (`about_out`, `archive_out`, `audited_out`, `cause_out`,
//!   `cleared_out`, `counts_out`, `cut_out`, `fate_out`, `flaw_out`, `offered_out`, `part_out`, `released_out`, `shown_out`,
//!   `sum_out`, `taken_out`).
//! - A text is copied whole or not at all; of a part's bytes as many as there are and as fit, from a place on, and the place is
//!   after these then (`copy_whole`, `copy_on` (`CopiesOn`); `copy_from`: `count`, `room`).
//! - A step of a book and a stream is answered by the session's rules. A stream of another trace is `Misplaced`
//!   (`switch_stream`: `answer`, `after`; `cut_stream`, `clear_stream`, `release_stream`: `value`, `no_memory`, `memory`;
//!   `look_at`: `value`, `same`, `memory`).
//! - A thread is added to the book together with its stream, or not at all (`add_thread`: `ok`, `refused`, `memory`,
//!   `unchanged`).
//! - An audit that bytes are fed to says what it found, and the same again after a fault (`feed_on`, `end_piece`: `read`,
//!   `answer`, `again`; `end_of`: `found`, `fault`, `again`; `has_room`: `room`, `none`).
//! - What a shell's line asks for is what a script's line with these bytes asks for, with its numbers one by one (`line_asked`
//!   (`line_asked`), `asked_out`).
//!
//! # What is only tested
//!
//! Nothing.
#![tactic(auto)]

pub mod asks;
pub mod audits;
pub mod codes;
pub mod inputs;
pub mod outs;
pub mod pairs;
pub mod replies;
pub mod texts;
