//! The lines of a status.

ghost use Rattle.std.specs.Prelude.{◌≡◌, ◌∷◌, ◌++◌, OnOk, IfOk, codes};
ghost use Rattle.std.specs.String.{string_bytes};
ghost use Rattle.tr_replies.specs.Status.{mode_text, pending_text, right_aligned, sizes_text, state_text, status_cleared, status_head, status_line, status_row};

use std::alloc::{AllocError, Allocator};
use std::fmt::Write;
use tr_book::Counts;
use tr_session_book::{Pending, SessionBook, State};
use tr_terms::SessionMode;

/// The heads of the columns.
const HEAD: &str = "stream     offered   discarded overwritten     in-ring   in-chunks";

fn mode_word(mode: SessionMode) -> &'static str
    ensures { result.now ≡ mode_text mode }
{
    match mode {
        SessionMode::Local => "local",
        SessionMode::Snapshot => "snapshot",
    }
}

fn state_word(state: State) -> &'static str
    ensures { result.now ≡ state_text state }
{
    match state {
        State::New => "new",
        State::Active => "active",
        State::Inactive => "inactive",
    }
}

/// The session's name, mode and state.
fn session_head<A: Allocator + Copy>(
    alloc: A,
    name: &str,
    book: &SessionBook<A>,
) -> Result<String<A>, AllocError>
    ensures { IfOk result (λ s. string_bytes s ≡ codes "session "
        ++ (name.now ++ (32 ∷ (mode_text book.now.mode ++ (32 ∷ state_text book.now.state))))) }
{
    let mode = mode_word(book.mode());
    let state = state_word(book.state());
    let text = format!(in alloc; "session {name} {mode} {state}")?;
    Ok(text)
}

/// Adds how many channels, streams and archives there are.
fn push_sizes<A: Allocator + Copy>(
    text: &mut String<A>,
    book: &SessionBook<A>,
) -> Result<(), AllocError>
    ensures { OnOk result (string_bytes text.new ≡ string_bytes text.old ++ sizes_text book.now) }
{
    let channels = book.channels();
    let streams = book.streams();
    let archives = book.archives().len();
    match write!(
        text,
        " channels {channels} streams {streams} archives {archives}"
    ) {
        Ok(()) => Ok(()),
        Err(_) => Err(AllocError),
    }
}

/// Adds the rotation that has begun and isn't finished, if there is one.
fn push_pending<A: Allocator>(
    text: &mut String<A>,
    pending: Option<Pending>,
) -> Result<(), AllocError>
    ensures { OnOk result (string_bytes text.new ≡ string_bytes text.old ++ pending_text pending) }
{
    let Some(pending) = pending else {
        return Ok(());
    };
    let id = pending.archive.id;
    match write!(text, " pending {id}") {
        Ok(()) => Ok(()),
        Err(_) => Err(AllocError),
    }
}

/// Adds how many records were cleared, if any were.
fn push_cleared<A: Allocator>(text: &mut String<A>, records: u128) -> Result<(), AllocError>
    ensures { OnOk result (string_bytes text.new ≡ string_bytes text.old ++ status_cleared records) }
{
    if records == 0 {
        return Ok(());
    }
    match write!(text, " cleared {records}") {
        Ok(()) => Ok(()),
        Err(_) => Err(AllocError),
    }
}

/// What is said of the session as a whole, if this number of its records was cleared.
fn session_line<A: Allocator + Copy>(
    alloc: A,
    name: &str,
    book: &SessionBook<A>,
    cleared: u128,
) -> Result<String<A>, AllocError>
    ensures { IfOk result (λ s. string_bytes s ≡ status_line name.now book.now cleared) }
{
    let mut text = session_head(alloc, name, book)?;
    push_sizes(&mut text, book)?;
    push_pending(&mut text, book.pending())?;
    push_cleared(&mut text, cleared)?;
    Ok(text)
}

/// The line of the session as a whole, if this number of its records was cleared, and the heads of the columns.
pub fn status_begun<A: Allocator + Copy>(
    alloc: A,
    name: &str,
    book: &SessionBook<A>,
    cleared: u128,
) -> Result<String<A>, AllocError>
    ensures { IfOk result (λ s. string_bytes s ≡ status_line name.now book.now cleared ++ (10 ∷ status_head)) }
{
    let mut text = session_line(alloc, name, book, cleared)?;
    text.push_str("\n")?;
    text.push_str(HEAD)?;
    Ok(text)
}

/// Adds a stream's first columns.
fn push_first<A: Allocator>(text: &mut String<A>, i: u64, counts: &Counts) -> Result<(), AllocError>
    ensures { OnOk result (string_bytes text.new ≡ string_bytes text.old
        ++ (10 ∷ (right_aligned 6 i
        ++ (32 ∷ (right_aligned 11 counts.now.offered ++ (32 ∷ right_aligned 11 counts.now.discarded)))))) }
{
    let offered = counts.offered;
    let discarded = counts.discarded;
    match write!(text, "\n{i:>6} {offered:>11} {discarded:>11}") {
        Ok(()) => Ok(()),
        Err(_) => Err(AllocError),
    }
}

/// Adds a stream's last columns.
fn push_last<A: Allocator>(text: &mut String<A>, counts: &Counts) -> Result<(), AllocError>
    ensures { OnOk result (string_bytes text.new ≡ string_bytes text.old
        ++ (32 ∷ (right_aligned 11 counts.now.overwritten
        ++ (32 ∷ (right_aligned 11 counts.now.in_ring ++ (32 ∷ right_aligned 11 counts.now.in_chunks)))))) }
{
    let overwritten = counts.overwritten;
    let in_ring = counts.in_ring;
    let in_chunks = counts.in_chunks;
    match write!(text, " {overwritten:>11} {in_ring:>11} {in_chunks:>11}") {
        Ok(()) => Ok(()),
        Err(_) => Err(AllocError),
    }
}

/// Adds a stream's line, a newline before it.
pub fn push_row<A: Allocator>(
    text: &mut String<A>,
    i: u64,
    counts: &Counts,
) -> Result<(), AllocError>
    ensures { OnOk result (string_bytes text.new ≡ string_bytes text.old ++ (10 ∷ status_row i counts.now)) }
{
    push_first(text, i, counts)?;
    push_last(text, counts)
}
