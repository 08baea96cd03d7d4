//! One stream of records: a ring of sub-buffers, and the parts that it is consumed into.
//! Each call is proved to be a step of the stream's history.
//!
//! A history has every block (what one sub-buffer got) that the stream ever filled, also of chunks that are forgotten.
//! `docs/MODEL.md` begins with an example.
//!
//! # Example
//!
//! ```
//! let offered = stream.offer(moment, id, payload)?;  // stored, stored over the oldest packet, or discarded
//! let taken = stream.take()?;                        // the oldest closed sub-buffer becomes a packet
//! let fate = stream.fate_of(serial);                 // where that record is, or how it was lost
//! ```
//!
//! A clear and a release look at all records of a packet only where serials are missing in it, which its `discarded` shows, and
//! a fate at those of one packet. `clear_out` and `release_out` hand the packets out, to be dropped when nobody waits for the
//! stream. `peek_out` hands out copies that were made a piece at a time before (`begin_copies`, `copy_more`), so that a snapshot
//! of a large ring makes no offer wait long.
//!
//! # What is proved
//!
//! - A stream represents a history, a new one a history that begins. Each offer, take, cut, clear, release, look, start and
//!   stop is the step of that history, and each answer is the history's (`Stream::new`: `value`, `starts`; `offer`, `take`,
//!   `cut`, `clear`, `clear_out`, `release`, `release_out`, `peek`, `peek_out`, `set_active`: `value`, `step`).
//! - So are the stream's counts, its parts, the records of its ring by their places, and the fate of each serial. The stream
//!   keeps no list of what it lost. Of what was cleared or released it keeps which serials each packet had (`Stream::counts`,
//!   `part` (`part_known_in`), `ring_at` (`history_ring`), `fate_of`: `value`, `step`).
//! - A clear removes what the ring and the current chunk hold, and nothing else: closed chunks stay as they are, no number and
//!   no serial is used again, and what was discarded stays discarded (`Stream::clear`, `clear_out`: `value`, `step`).
//! - A release gives up the packets of a closed chunk, once, and nothing else: what became of each record, and how many
//!   packets, records and bytes the chunk had, is answered as before (`Stream::release`, `release_out`: `value`, `step`).
//! - Chunks that were released can be forgotten, all below a number: then they have no parts, and of what was offered before
//!   the next one began the fate is `Forgotten`; all counts, and what is answered of other chunks and later offers, stay
//!   (`Stream::forget`: `value`, `step` (`history_after_forget`), `no_memory`; `part`: `step` (`part_known_in`), `forgetful`;
//!   `kept_part`).
//! - Out of memory comes only if something waits (take), in a local session (cut), with packets (clear, release), or if more
//!   chunks are forgotten than before (forget), and changes nothing. A page that a take or a cut moves into a part is replaced by
//!   a spare one, which may be handed in before; no contract says how many pages move and how many are copied (`Stream::take`,
//!   `cut`, `clear`, `clear_out`, `release`, `release_out`, `forget`: `no_memory`, `memory`; `peek`, `peek_out`: `memory`;
//!   `Spares::make`: `ok`, `size`; `make_touched`, `append`: `size`; `pop`: `page`, `left`, `size`).
//! - An offer takes no memory. Whether it is accepted depends on nothing but whether the stream takes offers, the payload's
//!   length, and how many offers were accepted before, fewer than 2^62 (`Stream::offer`: `value`, `step`).
//! - The same holds of every list of calls but forgets (`run_stream`: `config`, `stream`, `answers`; within the crate `step`:
//!   `config`, `memory`).
//! - Pages in reserve, and what is copied ahead, change nothing that it shows (`Stream::keep_spares`, `begin_copies`,
//!   `copy_more`).
//! - In the memory of its ring are the packets that a snapshot shows, the current sub-buffer's ending with its last record
//!   (`Stream::image`: `packet`, `none` (`packets_standing`)).
//!
//! What a stream holds says what it lost:
//!
//! - Numbers and serials rise, those of cleared packets among them. Only the part at a serial's place has it (`Stream::config`,
//!   `shows_kept`: `kept` (`IsKept.placed`), `consistent`).
//! - In discard mode, each packet's `events_discarded` is exactly the number of serials that are absent until the next packet.
//!   In overwrite mode, serials are absent exactly where packet numbers are. The counts add up (`Stream::counts`: `consistent`,
//!   `total`, `consumed`, `withdrawn`).
//! - In every run the history is well-formed, and each accepted offer in exactly one place; numbers and serials of what is kept
//!   rise, and each block before a kept one is kept, overwritten or cleared; a trace chunk has, in order, what was consumed
//!   between its cuts and not cleared since; without a clear nothing is cleared (`every_run`: `well_formed`, `one_place`,
//!   `kept`, `settled`, `chunks`, `cuts`, `uncleared`).
//! - In a snapshot session nothing is ever consumed, cut or cleared: each is refused (`Stream::counts`, `every_run`:
//!   `snapshot_session`; `Stream::config`: `kept` (`IsSound.unconsumed`)).
//!
//! # What is only tested
//!
//! That a list of calls ends with "out of memory" only if an allocation failed, and that a forget gives memory up. (The runs of
//! what was cleared stay.) Tests add worked examples of each call, and 100,000 offers in each mode with no byte of memory left:
//! none is refused or moves a byte of the heap, and a take after them is out of memory.
#![tactic(auto)]

mod answers;
mod config;
mod copying;
mod events;
mod fate;
mod laws;
mod packing;
mod payload;
mod removed;
mod run;
mod search;
mod spares;
mod stream;

pub use answers::{
    ClearFault, Cleared, CutDone, CutFault, ForgetFault, OfferFault, Offered, ReleaseFault,
    Released, TakeFault, Taken,
};
pub use config::StreamConfig;
pub use events::{StreamAnswer, StreamEvent};
pub use fate::Fate;
pub use laws::every_run;
pub use payload::Payload;
pub use removed::Removed;
pub use run::run_stream;
pub use spares::Spares;
pub use stream::Stream;
pub use tr_terms::SessionMode;
