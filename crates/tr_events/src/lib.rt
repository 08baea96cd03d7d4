//! Declared events: how payloads of a declared id are laid out, and whether a payload fits.
//!
//! # Example
//!
//! ```
//! let events = Events::parse(alloc, text)?;             // or the first line that is refused
//! let own = events.copy(heap)?;                         // the same in other memory
//! if own.fits(id, payload) { .. }                       // takes no memory, and few instructions
//! ```
//!
//! # What is proved
//!
//! - What is read is the events that a text declares, in the order of ids, or the first line that declares none, and why
//!   (`Events::parse`: `events`, `fault` (`declared`); `of_lines`).
//! - Each id and each name is there once, and each event can be declared (`Events::list`: `value`, `stand` (`AreDeclared`)).
//! - What was packed is what the values of a payload are, and these pack to the payload (`packed_values`, `values_packed`).
//! - `fits` says whether a payload has values, by what is known of its id if that is enough (`Events::fits`, `Event::fits`).
//! - A copy, in memory of any allocator, has the same events (`Events::copy`, `none`).
//! - What is written of declarations declares them again (`declared_again`, `push_declarations`, `push_event_lines`).
#![tactic(auto)]

mod env;
mod event;
mod events;
mod faults;
mod ids;
pub mod laws;
mod layouts;
mod lines;
mod numbers;
mod types;
mod variables;
mod words;

pub use event::{Event, Field, Label};
pub use events::{Events, lines_of};
pub use faults::{EventFault, LineFault, ParseFault};
pub use layouts::{
    Form, LONGEST_DECLARATIONS, Layout, MOST_COUNT, MOST_EVENTS, MOST_FIELDS, MOST_ID,
    MOST_PAYLOAD, Number, Size, Sort,
};
pub use numbers::{integer_in, number_in};
pub use variables::{LONGEST_VALUE, MOST_VARIABLES, Variable};
pub use words::{number_word, push_declarations, push_event_lines};
