//! What somebody at a terminal is told before a run that takes long.

ghost use Rattle.std.specs.Prelude.{◌≡◌, IfOk, map, option_map, string_bytes};
ghost use Rattle.std.specs.Vec.Iter.{into_iter_items};
ghost use Rattle.tr_command.specs.Invocation.{job_asked, words_of};
ghost use Rattle.tr_command.specs.Notices.{load_notice, notice_of};

use crate::invocation::{Job, collected, job_of, with_program, words_after};
use std::alloc::{AllocError, Global};
use std::env::Args;

/// How many records a load has at least that takes a second or more.
const MANY_RECORDS: u64 = 2_000_000;

/// The line that says what a load of these numbers does.
fn load_notice(
    alloc: Global,
    threads: u64,
    records: u64,
    workers: u64,
) -> Result<String, AllocError>
    ensures { IfOk result (λ text. string_bytes text ≡ load_notice threads records workers) }
{
    let text = format!(in alloc;
        "tracerd: {threads} threads offer {records} records each, drained by {workers}\n"
    )?;
    Ok(text)
}

/// What the words after the program's name ask for, as a line, if it is a load of two million records or more.
fn notice_of(alloc: Global, words: &[&str]) -> Result<Option<String>, AllocError>
    ensures { IfOk result (λ notice. option_map string_bytes notice ≡ notice_of (job_asked (map (λ w. w.now) words.now))) }
{
    let words = with_program(alloc, words)?;
    let Some(
        Job::Load {
            threads,
            records,
            workers,
            ..
        },
    ) = job_of(alloc, words.as_slice())?
    else {
        return Ok(None);
    };
    if threads * records < MANY_RECORDS {
        return Ok(None);
    }
    Ok(Some(load_notice(alloc, threads, records, workers)?))
}

/// The line that tells somebody who waits at a terminal what the program does with its arguments, its name first; none if it
/// will soon be done.
///
/// # Errors
///
/// Out of memory.
pub fn notice_given(alloc: Global, given: Args) -> Result<Option<String>, AllocError>
    ensures { IfOk result
        (λ notice. option_map string_bytes notice ≡ notice_of (job_asked (words_of (into_iter_items given)))) }
{
    let given = collected(alloc, given)?;
    let words = words_after(alloc, given.as_slice())?;
    notice_of(alloc, words.as_slice())
}
