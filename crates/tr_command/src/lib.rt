//! The command language of a script: from the words of a line to what they ask for.
//! Clap's definition of a simple command decides every corner; [`parse`] is proved against it.
//! Every command has its [`Request`]: those that lay a session out, start and stop it, those for its streams, rotations whole
//! and step by step, snapshots, schedules and their ticks, and questions.
//! Also the program's own command line ([`job_of`]), and what a terminal shows before a run that takes long.
//!
//! # Example
//!
//! ```
//! let request = parse(alloc, &["tracerd", "offer", "s", "0", "1", "7", "--fill", "50"])?;  // None for a bad line
//! ```
//!
//! # What is proved
//!
//! Each is said of an answer; a failed allocation is answered as itself.
//!
//! - What the words of a line ask for is decided by clap's own definition, also of an ordinary line, which is read without clap
//!   (`parse`: `asked`, `moment`, `offset`; `parse_by_clap`).
//! - So is what the program's words ask for, by clap's definition of `script [--events FILE] [--out DIR]`, `load --threads T
//!   --records R --workers W [--out DIR] [--watch]`, `audit [--archives] DIR`, `describe --events FILE DIR`, `picture DIR` and
//!   `recover [--uuid UUID] IMAGE DIR`. The numbers of a load are within its limits (`job_of`: `value`, `within`).
//! - A number is one or more digits and no more, and at most what is asked (`number`: `value`, `within`).
//! - The program's words come as a list, after its name (`collected`, `words_after`, `with_program`).
//! - What a terminal shows before a long load is its definition's text (`notice_given`).
#![tactic(auto)]

mod arguments;
mod command_lines;
mod commands;
mod invocation;
mod notice;
mod numbers;
mod ordinary;
mod parsing;
mod requests;
mod uses;
mod values;

pub use invocation::{Job, collected, job_of, with_program, words_after};
pub use notice::notice_given;
pub use numbers::number;
pub use parsing::{parse, parse_by_clap};
pub use requests::Request;
