//! A picture of what the archives below a folder hold, and what is lost: one SVG, which any browser opens. `docs/FORMATS.md`
//! says how it is drawn.
//!
//! By the definitions: `Bars` of packets, `Rows` of absent numbers, `Losses` of discarded records, `Lanes` of what shares a
//! column, `Frame` of columns, `Counts` of what is lost, `Threads` of who recorded, `Offsets` of clocks. What is judged of packets
//! is what the survey judges of them (tr_survey), and what is said at the end is what it says. What has no place in a stream's
//! time, as a missing archive, is counted.
//!
//! # Example
//!
//! ```
//! let said = picture(alloc, &mut folders, &mut sink, "DIR")?;  // the same answer as of `survey`
//! ```
//!
//! # What is proved
//!
//! For all folders that report what is in them:
//!
//! - What goes out is a function of what is in the folder (`picture_of`), which short definitions give, or a front of it if a call
//!   fails. The answer is the survey's: that the folder can't be read, that there is no session (then nothing goes out), or how
//!   many faults there are (`picture`: `ok` (`picture_of`, `lines_of`), `err`, `tree`).
//! - It answers `TooMuch` if and only if the folders failed, and `Write` if and only if the output did (`picture`: `reads`,
//!   `writes`).
//! - Counts and moments are exact. A moment's column is its part of the span, rounded down (`picture`: `ok`
//!   (`drawing`)).
//! - Of a name nothing leaves its text: as XML has it, it is printable ASCII without a mark of XML, and entities. A
//!   thread's name is drawn in the same way (`an_escaped_name_stays_in_its_text` (`IsPart`)).
//!
//! # What is only tested
//!
//! That the text is an SVG, and how it looks; how large it is; that the three readings of the files find the same (they do if
//! nothing changes the files meanwhile); that memory is there.
#![tactic(auto)]

mod bars;
mod counts;
mod drawing;
mod files;
mod frame;
mod lanes;
mod losses;
mod marks;
mod nowhere;
mod numbers;
mod offsets;
mod page;
mod picturing;
mod rows;
mod scale;
mod sessions;
mod threads;

pub use page::an_escaped_name_stays_in_its_text;
pub use picturing::picture;
