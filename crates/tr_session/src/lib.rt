//! A recording session: its book, which has its channels, its rotations and its archives, and its streams by number.
//! The rules are one definition, over what streams hold and over their histories alike; `run_session` is the theorem that any
//! interleaving of events follows them.
//!
//! # Example
//!
//! ```
//! session.start(moment)?;
//! let offered = session.offer(stream, moment, id, payload)?;
//! let archive = session.rotate(moment)?;
//! ```
//!
//! # What is proved
//!
//! If nothing else is said, "out of memory" comes only if the rules would let the call go on (`memory`), and changes nothing
//! (`no_memory`).
//!
//! - The calls, starts, stops, snapshots, ticks, and rotations step by step among them, are the rules over the book and all
//!   streams (`Session::add_channel`, `add_thread`, `declare`: `ok`, `refused`, `memory`, `unchanged`; `add_thread`: `number`;
//!   `take`, `cut`, `rotate_begin`, `rotate_next`, `step`: `value`, `no_memory`, `memory`; `start`, `stop`, `switch_stream`,
//!   `rotate_finish`, `snapshot_begin`, `set_schedule`: `answer`, `after`; `snap`: `value`, `memory`; `fate_of`).
//! - An offer is the stream's, and takes no memory, unless its id is declared with another layout: then it is refused (O6)
//!   before all else (`Session::offer`: `answer` (`session_offer_answer`, `stream_offer_answer`), `after`).
//! - Each stream is the one of its thread, made for its channel in this session. It has closed one part for each archive, and
//!   one more if the pending rotation has cut it. So it has a part of each archived chunk (`Session::stream`: `value`, `is`
//!   (`IsStreamOf`), `archived` (`HasArchivedParts`); `streams`: `value`, `threads`, `within`, `own` (`HasItsStreams`);
//!   `archive_size`: `packets`, `records`, `bytes`, `released`).
//! - Each cut is at the rotation's end, in order of stream. A rotation is refused as its beginning is; once it has begun, only
//!   if an allocation fails. If none fails, every stream is cut and the archive is added. If one fails in a cut, its stream
//!   stays uncut and the rotation stays pending (`Session::rotate`: `value`, `no_memory` (`IsHeldUp`), `memory`, `refused`,
//!   `whole` (`with_rotation`)).
//! - If an allocation fails in a snapshot, everything stays as it was; else it changes only the stored moment
//!   (`Session::snapshot`: `value`, `no_memory`, `memory`).
//! - A clear removes what each stream's ring and its part of the current chunk hold, and answers how many records that were. It
//!   is refused in a snapshot session, before the first start and while a rotation is pending, and nothing changes then. If an
//!   allocation fails, the streams before one with packets are cleared, and the call can be made again (`Session::clear`:
//!   `value`, `no_memory` (`IsClearedSome`), `memory`, `refused`, `whole`; `cleared`; `clear_stream`: `value`, `no_memory`,
//!   `memory`).
//! - A release gives up each stream's part of an archive. It is refused if there is no such archive, or no stream has its part
//!   any more. If an allocation fails, the parts before one with packets are released, and the call can be made again
//!   (`Session::release`: `value`, `no_memory` (`IsReleasedSome`), `memory`, `refused`; `release_stream`: `value`, `no_memory`,
//!   `memory`).
//! - A tick rotates if a rotation is due. A tick at which nothing is due changes nothing, and one is out of memory only if a
//!   schedule is in force (`Session::tick`: `value`, `no_memory`, `refused`, `idle`, `memory`).
//! - Any interleaving, whatever events come, in whatever order: each event is answered by the rules, the session's book is the
//!   rules' book, and each stream represents the history of its own steps, in the middle of a rotation as well (`run_session`:
//!   `ran` (`HasRun.begins`, `HasRun.answers_are`, `HasRun.agrees`, `HasRun.streams`), `refused`).
//! - A configuration is refused as its first refused channel or thread. A session is made of a book and its streams, and parted
//!   into these (`configure`: `ok`, `refused`; `Session::from_parts`; `into_parts`: `value`, `own`).
//! - The files of a stream pass an audit, also those that are left after releases: they hold the packets that were kept in
//!   chunks that weren't released, in order (`every_audit`: `passes`, `left`, `packets`).
//! - If no chunk was released, the audit's gaps are exactly the sub-buffers below the last kept one that were overwritten or
//!   cleared, in every history and every run (`every_audit`: `last`, `gaps_of_histories`, `gaps`).
//! - The same is proved of the files of the stream's first chunks alone, as a session's archives are (`every_audit`:
//!   `first_pass`, `first_left`, `first_packets`, `first_gaps`).
//!
//! # What is only tested
//!
//! That a list of events ends with "out of memory" only if an allocation failed.
#![tactic(auto)]

mod archive_size;
mod clears;
mod config;
mod events;
mod faults;
mod laws;
mod releases;
mod rotation;
mod run;
mod session;
mod snapshot;
mod streams;
mod ticks;

pub use archive_size::ArchiveSize;
pub use config::{ChannelConfig, Config};
pub use events::{Answer, Event};
pub use faults::{StepFault, clear_fault, release_fault};
pub use laws::every_audit;
pub use rotation::Next;
pub use run::{configure, run_session};
pub use session::Session;
pub use ticks::Ticked;
// What a session's book is made of.
pub use tr_schedule::{Cause, Schedule, ScheduleFault};
pub use tr_session_book::{Archive, Pending, SessionBook, SessionFault, State};
