//! The metadata of declared events, for archives that are there already, written by any program.
//!
//! What is there is judged first, as `docs/FORMATS.md` says: sessions in order, of each its archives in order, of each archive
//! its metadata and then its streams in order, of each stream's file its records in order. The first thing that is wrong is the
//! answer, and then nothing is written:
//!
//! - `Closed`: the folder of a session's archives can't be read.
//! - `Foreign`: an archive's metadata aren't the recorder's, or missing. Archives of one session may have identifiers of their
//!   own.
//! - `Unsound`: a stream's file isn't there, can't be read, or isn't packets of that stream and of the archive's identifier,
//!   end to end. Whether their numbers and serials rise is no matter here.
//! - `Unfit`: a record in such a file has a declared id, and its payload doesn't fit.
//!
//! Else each archive gets metadata by which readers show the fields of its records, with its own identifier.
//!
//! # Example
//!
//! ```
//! let mut folders = HostFolders::new(&rt);
//! let mut texts = HostTexts::new(alloc, &rt);
//! let said = describe(alloc, &mut folders, &mut texts, "DIR", &events)?;  // how many archives it described, or what is wrong
//! ```
//!
//! # What is proved
//!
//! For all folders that report what is in them, and all texts that report what was put:
//!
//! - The answer is a function of what is in the folder and of the events, and so is what is put: after `Done` the metadata of
//!   each archive, in order, and else nothing (`describe`: `said` (`described_of`), `put` (`texts_of`), `tree`).
//! - What is wrong with a file is said by lists: of the packets that its bytes start with, end to end, the first record that
//!   doesn't fit; or else, whether they are all of its bytes, or it breaks off. The code holds a piece of the file and one
//!   packet (`describe`: `said` (`file_flaw`, `packets_of`, `first_unfit`)).
//! - If it fails, the metadata of some archives are put, from the first one on. `TooMuch` comes before any is (`describe`:
//!   `err` (`IsFrontPut`), `too_much`).
//! - The same holds by a file of declarations, of which the first line that declares nothing is named, and a line says what it
//!   came to (`describe_by`: `tells` (`TellsTree`), `reads`, `failures`; `declarations_told`: `declares`, `tells`, `fails`,
//!   `writes`).
//!
//! And for all folders and texts:
//!
//! - Nothing is put unless the answer is `Done` or a call failed (`describe`: `done`).
//! - It answers `TooMuch` if and only if the folders failed, and `Write` if and only if a text couldn't be put (`describe`:
//!   `reads`, `writes`; `MemoryTexts::new`: `written`, `failures`; `Texts::put`: `ok`, `err`, `failures`).
//!
//! # What is only tested
//!
//! Of the runtime's file system (`HostTexts`) nothing is known: another path, a text in place of the file before it is on the
//! disk, or a part that is left behind would pass. A test logs each step, where each step fails in turn. That a text takes a
//! file's place at once is the file system's rename. A link to metadata becomes a file, and a file's permissions are those of a
//! new one.
//!
//! Calls of `MemoryTexts` that fail would pass too. Not promised are that memory is there, and that a call which answers
//! `NoMemory` had to.
#![tactic(auto)]

mod archives;
mod declarations;
mod described;
mod describing;
mod faults;
mod files;
mod flaws;
mod host;
mod memory;
mod sessions;
mod telling;
mod texts;

pub use declarations::Declarations;
pub use described::{Described, Wrong};
pub use describing::describe;
pub use faults::DescribeFault;
pub use host::HostTexts;
pub use memory::MemoryTexts;
pub use telling::{Outcome, declarations_told, describe_by};
pub use texts::Texts;
