//! The calls of a session's book with one of its streams: one caller at a time.

ghost use Rattle.std.specs.Prelude.{◌≡◌, ◌≢◌, true, false, Some, None, MatchOption, IsOk, Ok, length};
ghost use Rattle.tr_border.specs.Codes.{code_of, given};
ghost use Rattle.tr_border.specs.Outs.{cleared_out, cut_out, released_out};
ghost use Rattle.tr_border.specs.Pairs.{after_clear, after_release, after_switch, book_after_cut, clear_answer, cut_answer, release_answer, stream_after_cut, switch_answer, thread_config};
ghost use Rattle.tr_border.specs.declared.codes.TheConstants.{BAD_NAME, CLOSED, DONE, IN_USE, NO_MEMORY};
ghost use Rattle.tr_session.specs.Faults.{step_fault_code};
ghost use Rattle.tr_session.specs.Steps.{ClearsPackets, ReleasesPackets};
ghost use Rattle.tr_session_book.specs.Book.{SessionBookState};
ghost use Rattle.tr_session_book.specs.BookSteps.{book_add_thread, channel_named};
ghost use Rattle.tr_session_book.specs.Faults.{session_fault_code};
ghost use Rattle.tr_session_book.specs.declared.channel.Channel.{Channel};
ghost use Rattle.tr_stream.specs.StateSteps.{new_state};
ghost use Rattle.tr_terms.specs.Names.{is_name};

use std::alloc::Global;
use tr_border::codes::{BAD_NAME, CLOSED, DONE, IN_USE, code_of, session_code, step_code};
use tr_border::inputs::name_of;
use tr_border::outs::{ClearedOut, CutOut, ReleasedOut, cleared_out, cut_out, released_out};
use tr_border::pairs::{add_thread, clear_stream, cut_stream, release_stream, switch_stream};
use tr_held::{BookCell, RemovedCell, StreamCell};
use tr_stream::Removed;

/// Adds a thread to a channel, and opens its stream; both or neither.
#[unsafe(no_mangle)]
pub extern "C" fn trc_book_thread(
    alloc: Global,
    handle: &mut BookCell,
    stream: &mut StreamCell,
    channel: &[u8],
    number: &mut u64,
) -> u32
    ensures closed { handle.old.value ≡ None → result ≡ CLOSED }
    ensures in_use { handle.old.value ≢ None → stream.old.value ≢ None → result ≡ IN_USE }
    ensures bad_name { handle.old.value ≢ None → stream.old.value ≡ None → is_name channel.now ≡ false → result ≡ BAD_NAME }
    ensures done { result ≡ DONE → MatchOption handle.old.value ⊥
        (λ b. (after : SessionBookState) × (made : Channel)
        × (book_add_thread channel.now b ≡ Ok after) × (channel_named channel.now b ≡ Some made)
        × (handle.new.value ≡ Some after) × (stream.new.value ≡ Some (new_state (thread_config b made)))
        × (number.new ≡ length b.threads)) }
    ensures refused { result ≢ DONE → (handle.new.value ≡ handle.old.value) × (stream.new.value ≡ stream.old.value)
        × (number.new ≡ number.old) }
    ensures why { result ≢ NO_MEMORY → is_name channel.now ≡ true → stream.old.value ≡ None → MatchOption handle.old.value (result ≡ CLOSED)
        (λ b. result ≡ code_of session_fault_code (book_add_thread channel.now b)) }
    ensures no_memory { result ≡ NO_MEMORY → MatchOption handle.old.value ⊥ (λ b. IsOk (book_add_thread channel.now b)) }
{
    let Some(mut book) = handle.take(alloc) else {
        return CLOSED;
    };
    if let Some(open) = stream.take(alloc) {
        stream.put(open);
        handle.put(book);
        return IN_USE;
    }
    let Some(name) = name_of(channel) else {
        handle.put(book);
        return BAD_NAME;
    };
    let place = book.streams() as u64;
    let answer = add_thread(alloc, &mut book, name.as_str());
    handle.put(book);
    match answer {
        Ok(made) => {
            stream.put(made);
            *number = place;
            DONE
        }
        Err(fault) => session_code(fault),
    }
}

/// Switches a stream as its session allows.
#[unsafe(no_mangle)]
pub extern "C" fn trc_book_switch(
    alloc: Global,
    handle: &mut BookCell,
    stream: &mut StreamCell,
    active: bool,
) -> u32
    ensures answer { MatchOption handle.old.value (result ≡ CLOSED) (λ b. MatchOption stream.old.value (result ≡ CLOSED)
        (λ s. (result ≡ code_of session_fault_code (switch_answer active b s))
        × (stream.new.value ≡ Some (after_switch active b s)))) }
    ensures closed { result ≡ CLOSED → stream.new.value ≡ stream.old.value }
    ensures book { handle.new.value ≡ handle.old.value }
{
    let Some(book) = handle.take(alloc) else {
        return CLOSED;
    };
    let Some(mut lent) = stream.take(alloc) else {
        handle.put(book);
        return CLOSED;
    };
    let answer = switch_stream(&book, &mut lent, active);
    stream.put(lent);
    handle.put(book);
    code_of(answer)
}

/// Cuts the stream that is the next of the pending rotation, and notes it.
#[unsafe(no_mangle)]
pub extern "C" fn trc_rotate_cut(
    alloc: Global,
    handle: &mut BookCell,
    stream: &mut StreamCell,
    out: &mut CutOut,
) -> u32
    ensures value { result ≢ NO_MEMORY → MatchOption handle.old.value (result ≡ CLOSED) (λ b. MatchOption stream.old.value (result ≡ CLOSED)
        (λ s. (result ≡ code_of step_fault_code (cut_answer b s))
        × (out.new ≡ given cut_out (cut_answer b s) out.old)
        × (stream.new.value ≡ Some (stream_after_cut b s)) × (handle.new.value ≡ Some (book_after_cut b s)))) }
    ensures no_memory { result ≡ NO_MEMORY → MatchOption handle.old.value ⊥ (λ b. MatchOption stream.old.value ⊥ (λ s. IsOk (cut_answer b s))) }
    ensures refused { result ≢ DONE → (handle.new.value ≡ handle.old.value) × (stream.new.value ≡ stream.old.value)
        × (out.new ≡ out.old) }
{
    let Some(mut book) = handle.take(alloc) else {
        return CLOSED;
    };
    let Some(mut lent) = stream.take(alloc) else {
        handle.put(book);
        return CLOSED;
    };
    let answer = cut_stream(&mut book, &mut lent);
    stream.put(lent);
    handle.put(book);
    match answer {
        Ok(done) => {
            *out = cut_out(done);
            DONE
        }
        Err(fault) => step_code(fault),
    }
}

/// Clears a stream as its session allows. The packets come out, so that no one waits while their memory is freed. What the handle
/// of removed packets had is freed.
#[unsafe(no_mangle)]
pub extern "C" fn trc_book_clear(
    alloc: Global,
    handle: &mut BookCell,
    stream: &mut StreamCell,
    removed: &mut RemovedCell,
    out: &mut ClearedOut,
) -> u32
    ensures value { result ≢ NO_MEMORY → MatchOption handle.old.value (result ≡ CLOSED) (λ b. MatchOption stream.old.value (result ≡ CLOSED)
        (λ s. (result ≡ code_of session_fault_code (clear_answer b s))
        × (out.new ≡ given cleared_out (clear_answer b s) out.old)
        × (stream.new.value ≡ Some (after_clear b s)))) }
    ensures no_memory { result ≡ NO_MEMORY → MatchOption handle.old.value ⊥ (λ b. MatchOption stream.old.value ⊥ (λ s. ClearsPackets (clear_answer b s))) }
    ensures refused { result ≢ DONE → (stream.new.value ≡ stream.old.value) × (removed.new.value ≡ removed.old.value)
        × (out.new ≡ out.old) }
    ensures book { handle.new.value ≡ handle.old.value }
{
    let Some(book) = handle.take(alloc) else {
        return CLOSED;
    };
    let Some(mut lent) = stream.take(alloc) else {
        handle.put(book);
        return CLOSED;
    };
    let answer = clear_stream(&book, &mut lent);
    stream.put(lent);
    handle.put(book);
    match answer {
        Ok((cleared, packets)) => {
            hand_out(alloc, packets, removed);
            *out = cleared_out(cleared);
            DONE
        }
        Err(fault) => session_code(fault),
    }
}

/// Gives up a stream's part of an archive. The packets come out as of a clear.
#[unsafe(no_mangle)]
pub extern "C" fn trc_book_release(
    alloc: Global,
    handle: &mut BookCell,
    stream: &mut StreamCell,
    archive: u64,
    removed: &mut RemovedCell,
    out: &mut ReleasedOut,
) -> u32
    ensures value { result ≢ NO_MEMORY → MatchOption handle.old.value (result ≡ CLOSED) (λ b. MatchOption stream.old.value (result ≡ CLOSED)
        (λ s. (result ≡ code_of session_fault_code (release_answer archive b s))
        × (out.new ≡ given released_out (release_answer archive b s) out.old)
        × (stream.new.value ≡ Some (after_release archive b s)))) }
    ensures no_memory { result ≡ NO_MEMORY → MatchOption handle.old.value ⊥ (λ b. MatchOption stream.old.value ⊥ (λ s. ReleasesPackets (release_answer archive b s))) }
    ensures refused { result ≢ DONE → (stream.new.value ≡ stream.old.value) × (removed.new.value ≡ removed.old.value)
        × (out.new ≡ out.old) }
    ensures book { handle.new.value ≡ handle.old.value }
{
    let Some(book) = handle.take(alloc) else {
        return CLOSED;
    };
    let Some(mut lent) = stream.take(alloc) else {
        handle.put(book);
        return CLOSED;
    };
    let answer = release_stream(&book, &mut lent, archive);
    stream.put(lent);
    handle.put(book);
    match answer {
        Ok((released, packets)) => {
            hand_out(alloc, packets, removed);
            *out = released_out(released);
            DONE
        }
        Err(fault) => session_code(fault),
    }
}

/// Gives the handle removed packets. Without memory for it they are freed at once.
fn hand_out(alloc: Global, packets: Removed<Global>, removed: &mut RemovedCell) {
    if let Ok(kept) = Box::new(alloc, packets) {
        removed.put(kept);
    }
}

/// Frees removed packets.
#[unsafe(no_mangle)]
pub extern "C" fn trc_removed_free(alloc: Global, handle: &mut RemovedCell)
    ensures { handle.new.value ≡ None }
{
    *handle = RemovedCell::closed(alloc);
}
