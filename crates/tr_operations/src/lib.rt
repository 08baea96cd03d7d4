//! What the operators of a session did: the steps at its desk, how each is noted in the desk's journal in its operator's name,
//! and a law that ties what is noted to the session's book.
//!
//! # Example
//!
//! ```
//! let answer = book.start(moment);
//! note(&mut journal, &mut seat, DeskStep::Start { moment, answer });  // of all this nothing is read
//! ```
//!
//! # What is proved
//!
//! - What is noted is the step that is given, once (`note`: `journal`, `seat`, `own`).
//! - If each step at a desk is noted, the noted steps lead from the book that was planned to the session's book, each answered
//!   there as the book answers it, or a cut or a clear that it lets through by the stream, if no allocation failed. What an
//!   operator's seat has is then just what its holder did of it (`every_operation`: `new`, `step` (`LeadsTo`, `IsStepOf`),
//!   `operator` (`IsOperatorOf`)).
//!
//! # What is only tested
//!
//! Nothing. That whoever makes a step notes it is what the type's invariant of a layer above says.
#![tactic(auto)]

mod laws;
mod notes;
mod step;

pub use laws::every_operation;
pub use notes::note;
pub use step::DeskStep;
