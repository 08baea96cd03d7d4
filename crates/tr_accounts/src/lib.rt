//! What a stream's journal says is what the stream is: how a stream's calls are noted in its journal, and laws that tie what is
//! noted to what the stream represents and holds.
//!
//! # Example
//!
//! ```
//! let answer = stream.offer(moment, id, payload);
//! note_offer(&mut journal, &mut seat, moment, id, payload, answer);  // of all this nothing is read
//! ```
//!
//! # What is proved
//!
//! - What is noted is the call that is given, with its answer, once (`note_offer`, `note_take`, `note_cut`, `note_clear`,
//!   `note_switch`: `journal`, `seat`, `own`).
//! - If each call of a stream is noted by a seat whose call it is, the stream represents the history of just these calls, each
//!   answered as in that history. It holds what was offered and nothing else: each record that it holds has the id and the
//!   payload of the accepted offer at its serial, and no lesser moment (`every_call`: `new`, `offer`, `take`, `cut`, `clear`,
//!   `switch`, `look` (`IsJournalOf`), `release` (`IsAccounted`)).
//! - The offers in the journal, refused ones too, are then the producer's list, the operations the desk's, and each take is in
//!   one drainer's list (`every_seat`: `offers`, `holds`, `operations`, `takes`).
//! - The numbers of packets that were taken rise; each packet had the records that were answered, and is in the chunk that was
//!   answered or was cleared (`every_take`: `rise`, `were`, `own_rise`, `own_were`).
//! - Each record that the stream holds has the greatest moment that its accepted offers and its cuts gave up to it, and so has
//!   the stream's last one (`every_moment`: `last`, `held` (`IsStored`)).
//! - A log with an item for each accepted offer agrees with the stream (`every_log`: `agrees`, `grows`).
//!
//! # What is only tested
//!
//! Nothing. That whoever makes a call notes it is what the type's invariant of a layer above says.
#![tactic(auto)]

mod laws;
mod notes;
mod step;

pub use laws::{every_call, every_log, every_moment, every_seat, every_take};
pub use notes::{note_clear, note_cut, note_offer, note_switch, note_take};
pub use step::StreamStep;
