//! What is said of a load.

ghost use Rattle.std.specs.Prelude.{◌≡◌, ◌++◌, IfOk, OnOk};
ghost use Rattle.std.specs.String.{string_bytes};
ghost use Rattle.tr_load.specs.Texts.{line, mismatch_text, outcome_text, progress_text, report_end, report_text};

use std::alloc::{AllocError, Global};
use std::fmt::Write;
use tr_pool::{Mismatch, Report};

/// Adds a line of words and a number.
fn push_line(text: &mut String, words: &str, number: u128) -> Result<(), AllocError>
    ensures { OnOk result (string_bytes text.new ≡ string_bytes text.old ++ line words.now number) }
{
    match write!(text, "{words} {number}\n") {
        Ok(()) => Ok(()),
        Err(_) => Err(AllocError),
    }
}

/// Adds what a watcher learned, if there was one, and that the logs agree.
fn push_end(text: &mut String, watched: Option<u128>) -> Result<(), AllocError>
    ensures { OnOk result (string_bytes text.new ≡ string_bytes text.old ++ report_end watched) }
{
    if let Some(offered) = watched {
        push_line(text, "watched", offered)?;
    }
    text.push_str("reconciled\n")
}

/// The text of a load whose logs agree.
fn report_text(
    alloc: Global,
    threads: u64,
    report: &Report,
    watched: Option<u128>,
) -> Result<String, AllocError>
    ensures { IfOk result (λ text. string_bytes text ≡ report_text threads report.now watched) }
{
    let mut text = String::new(alloc);
    push_line(&mut text, "threads", u128::from(threads))?;
    push_line(&mut text, "offered", report.offered)?;
    push_line(&mut text, "discarded", report.discarded)?;
    push_line(&mut text, "overwritten", report.overwritten)?;
    push_line(&mut text, "in ring", report.in_ring)?;
    push_line(&mut text, "in chunks", report.in_chunks)?;
    push_end(&mut text, watched)?;
    Ok(text)
}

/// The text of a load whose logs don't agree.
fn mismatch_text(alloc: Global, mismatch: Mismatch) -> Result<String, AllocError>
    ensures { IfOk result (λ text. string_bytes text ≡ mismatch_text mismatch) }
{
    let text = match mismatch {
        Mismatch::WrongRecord { stream, serial } => {
            format!(in alloc; "mismatch stream {stream} serial {serial}\n")?
        }
        Mismatch::LogLength { stream } => format!(in alloc; "mismatch stream {stream} log\n")?,
    };
    Ok(text)
}

/// What is said of a load that goes on, with its line feed: how many records were offered so far.
///
/// # Errors
///
/// Out of memory.
pub fn progress_text(alloc: Global, offered: u128) -> Result<String, AllocError>
    ensures { IfOk result (λ text. string_bytes text ≡ progress_text offered) }
{
    let text = format!(in alloc; "tracerd: {offered} records offered\n")?;
    Ok(text)
}

/// What is said of a load of `threads` threads, each line with its line feed: how many threads there were and where the records
/// are, a line for each number, what a watcher learned, if there was one, and `reconciled`; or one line with the mismatch.
///
/// # Errors
///
/// Out of memory.
pub fn outcome_text(
    alloc: Global,
    threads: u64,
    outcome: &Result<Report, Mismatch>,
    watched: Option<u128>,
) -> Result<String, AllocError>
    ensures { IfOk result (λ text. string_bytes text ≡ outcome_text threads outcome.now watched) }
{
    match outcome {
        Ok(report) => report_text(alloc, threads, report, watched),
        Err(mismatch) => mismatch_text(alloc, *mismatch),
    }
}
