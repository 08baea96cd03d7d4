//! The program: its run over any input, output, disk and folders, and how that ends.
//!
//! # Example
//!
//! `main` of tracerd is one call of `run_given`, with standard input, output and error and the file system.
//!
//! # What is proved
//!
//! For any arguments, input, output, disk and folders (what was read, answered and made is said of those that report it, which
//! standard input, standard output and a real folder don't):
//!
//! - What the words ask for is decided by clap's definition: a run of a script or of a load, an audit, types, a picture, the
//!   archive of an image, or they are a bad command line (`run`, `run_given`: `ends` (`job_asked`)).
//! - The run ends as what the words ask for does. Its exit status and the one line that standard error gets agree (`run`,
//!   `run_given`: `ends` (`HasEnded.says`, `HasEnded.line`, `EndsSo`)).
//! - A script at 0 and 1 was read to its end and answered whole, its sessions with what a file declares, and the
//!   archives of every session were made below the folder, if these are named; 1 if and only if a line was refused. Or, at 1, a
//!   line of the file is refused, which the output says, and nothing was read or made (`run`, `run_given`: `ends`
//!   (`EndsScript`, `Declares`, `CameToEnd.whole`, `EndsUndeclared`)).
//! - A script at 3: the file can't be read, or reading it or the output failed, and nothing was read or made; or it broke off
//!   as at Q1, Q2 or Q3 (tr_console), and nothing was made; or it was read and answered whole, and then the disk failed: a
//!   prefix of the archives was made, and the next file may be broken (`run`, `run_given`: `ends` (`EndsByFault`,
//!   `HasBrokenOff`, `MadeSome`)).
//! - A script at 4: nothing was read, answered or made; or it broke off as at Q4, and nothing was made; or it was read and
//!   answered whole, and a prefix of the archives was made (`run`, `run_given`: `ends` (`EndsByMemory`, `IsUntouched`,
//!   `AnsweredSome`, `MadeSome`)).
//! - A load at 0 and 1 was settled and judged by its feeders' logs, its text went out whole, and then its archives were made,
//!   if a folder is named; 0 if and only if the logs agree. Or, at 1, a call of it was refused, and nothing was put out or
//!   made. At 3 it was settled, and the output failed and nothing was made, or the text went out whole and the disk failed. At
//!   4 nothing was put out or made, or the text went out whole and a prefix of the archives was made. A load reads nothing
//!   (`run`, `run_given`: `ends` (`EndsLoad`, `HasLoaded`, `IsLoaded`, `TellsLoad`, `HasNotLoaded`)).
//! - An audit at 0 and 1 surveyed the folder whole, 0 if and only if nothing is wrong. At 3 there is no session, or reading or
//!   writing failed; at 3 and 4 a prefix of a survey went out. It reads no input and makes nothing. A picture ends alike, with
//!   what a survey reports drawn whole, or a prefix of the drawing (`run`, `run_given`: `ends` (`EndsAudit`, `HasAudited`,
//!   `EndsPicture`, `HasPictured`)).
//! - Archives are described, or the answer says why not (`run`, `run_given`: `ends` (`EndsDescribe`, `HasDescribed`)).
//! - An image at 0: its packets of the trace that is wanted, or that it names, were said, stream by stream, and then their
//!   archive was made. At 3 it can't be read, or has no such packet, and nothing was put out or made; or the output failed, and
//!   nothing was made; or the disk failed after all was said. At 4 a prefix of both came. No input is read (`run`, `run_given`:
//!   `ends` (`EndsRecover`, `HasRecovered`)).
//! - A bad command line, or arguments that can't be taken, end at 2, or at 4 if an allocation fails; nothing was read, answered
//!   or made. Nothing else ends at 2 (`run`, `run_given`: `ends` (`IsNoRun`); `run_given`: `arguments`).
//! - At 3 something failed, the script was too long, the folder to audit, to draw or to describe can't be read or has no
//!   session, the file of declarations or the image can't be read, or the image has no packet of the trace. At every other
//!   status neither input nor output nor disk nor reading of folders failed (`run`, `run_given`: `fault` (`HasFault`),
//!   `no_fault` (`FailedNowhere`)).
//!
//! That a script was too long is said only for inputs that report their bytes; for others, at status 3, `fault` says nothing,
//! and `ends` says whose count of failures rose. A run of a script has nothing to wait for: `end_script` gets no runtime, so it
//! can't.
//!
//! # What is only tested
//!
//! Tests show each way to end at status 3, with its line, and with no call of the disk after a script that broke off. Of status
//! 4 they show only the arguments, since `run` takes its memory from `Global`. Runs of the program show which words are a bad
//! command line (`examples/command-lines`), archives' files (`examples/exports`), loads (`examples/load*`), and how the program
//! ends where its surroundings fail it (`.ci/under-fire`).
//!
//! Not promised is what `load` doesn't promise: a load that is always refused, at status 1, meets the contract; tests show that
//! it isn't. `main` has no clause: that standard input, output and error are each in their place, and that the status is
//! `run_given`'s, is shown by the program's stored run and by the examples.
#![tactic(auto)]

mod ending;
mod running;

pub use running::{run, run_given};
