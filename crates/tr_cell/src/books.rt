//! The calls of a session's book: one caller at a time.

ghost use Rattle.std.specs.Option.{option_map};
ghost use Rattle.std.specs.Prelude.{◌≡◌, ◌≢◌, ◌≤◌, ◌<◌, IsTrue, Some, None, MatchOption, MatchResult, IsOk, length};
ghost use Rattle.tr_border.specs.Codes.{code_of, given};
ghost use Rattle.tr_border.specs.Inputs.{mode_of, session_mode_of};
ghost use Rattle.tr_border.specs.Outs.{archive_out, number_out};
ghost use Rattle.tr_border.specs.declared.codes.TheConstants.{BAD_MODE, BAD_MOMENT, BAD_NAME, BAD_OFFSET, BAD_UUID, CLOSED, DONE, IN_USE, NO_MEMORY};
ghost use Rattle.tr_session_book.specs.Book.{new_book};
ghost use Rattle.tr_session_book.specs.BookSteps.{book_add_channel, book_after_rotate_begin, book_after_rotate_finish, book_after_start, book_after_stop, book_rotate_begin_answer, book_rotate_finish_answer, book_start_answer, book_stop_answer};
ghost use Rattle.tr_session_book.specs.Faults.{session_fault_code};
ghost use Rattle.tr_terms.specs.Names.{is_name};
ghost use Rattle.tr_terms.specs.Offsets.{IsOffset};
ghost use Rattle.tr_terms.specs.declared.limits.TheConstants.{LAST_MOMENT};
ghost use Rattle.tr_terms.specs.declared.mode.Mode.{Mode};
ghost use Rattle.tr_terms.specs.declared.session_mode.SessionMode.{SessionMode};

use std::alloc::Global;
use tr_border::codes::{
    BAD_MODE, BAD_MOMENT, BAD_NAME, BAD_OFFSET, BAD_UUID, CLOSED, DONE, IN_USE, NO_MEMORY, code_of,
    session_code,
};
use tr_border::inputs::{mode_of, session_mode_of, uuid_of};
use tr_border::outs::{ArchiveOut, archive_out};
use tr_held::BookCell;
use tr_session_book::SessionBook;
use tr_terms::{Moment, Name, OffsetMinutes};

/// Opens the book of a session.
#[unsafe(no_mangle)]
pub extern "C" fn trc_book_new(
    alloc: Global,
    handle: &mut BookCell,
    uuid: &[u8],
    east: i32,
    session_mode: u32,
) -> u32
    ensures in_use { handle.old.value ≢ None → result ≡ IN_USE }
    ensures bad_uuid { handle.old.value ≡ None → length uuid.now ≢ 16 → result ≡ BAD_UUID }
    ensures bad_offset { handle.old.value ≡ None → length uuid.now ≡ 16 → (IsOffset east → ⊥) → result ≡ BAD_OFFSET }
    ensures bad_mode { handle.old.value ≡ None → length uuid.now ≡ 16 → IsOffset east
        → session_mode_of session_mode ≡ None → result ≡ BAD_MODE }
    ensures done { handle.old.value ≡ None → length uuid.now ≡ 16 → IsOffset east → result ≢ NO_MEMORY
        → (mode : SessionMode) → session_mode_of session_mode ≡ Some mode
        → (result ≡ DONE) × (handle.new.value ≡ Some (new_book uuid.now east mode)) }
    ensures refused { result ≢ DONE → handle.new.value ≡ handle.old.value }
{
    if let Some(book) = handle.take(alloc) {
        handle.put(book);
        return IN_USE;
    }
    let Some(uuid) = uuid_of(uuid) else {
        return BAD_UUID;
    };
    let Some(offset) = OffsetMinutes::new(east) else {
        return BAD_OFFSET;
    };
    let Some(mode) = session_mode_of(session_mode) else {
        return BAD_MODE;
    };
    match Box::new(alloc, SessionBook::new(alloc, uuid, offset, mode)) {
        Ok(book) => {
            handle.put(book);
            DONE
        }
        Err(_) => NO_MEMORY,
    }
}

/// Starts the session.
#[unsafe(no_mangle)]
pub extern "C" fn trc_book_start(alloc: Global, handle: &mut BookCell, moment: u64) -> u32
    ensures moment { LAST_MOMENT < moment → MatchOption handle.old.value (result ≡ CLOSED) (λ _. result ≡ BAD_MOMENT)
        × (handle.new.value ≡ handle.old.value) }
    ensures answer { moment ≤ LAST_MOMENT → MatchOption handle.old.value (result ≡ CLOSED)
        (λ b. result ≡ code_of session_fault_code (book_start_answer b)) }
    ensures after { moment ≤ LAST_MOMENT
        → handle.new.value ≡ option_map (book_after_start moment) handle.old.value }
{
    let Some(mut book) = handle.take(alloc) else {
        return CLOSED;
    };
    let Some(moment) = Moment::new(moment) else {
        handle.put(book);
        return BAD_MOMENT;
    };
    let answer = book.start(moment);
    handle.put(book);
    code_of(answer)
}

/// Stops the session.
#[unsafe(no_mangle)]
pub extern "C" fn trc_book_stop(alloc: Global, handle: &mut BookCell) -> u32
    ensures answer { MatchOption handle.old.value (result ≡ CLOSED)
        (λ b. result ≡ code_of session_fault_code (book_stop_answer b)) }
    ensures after { handle.new.value ≡ option_map book_after_stop handle.old.value }
{
    let Some(mut book) = handle.take(alloc) else {
        return CLOSED;
    };
    let answer = book.stop();
    handle.put(book);
    code_of(answer)
}

/// Begins a rotation, and answers with the number of the chunk that it archives.
#[unsafe(no_mangle)]
pub extern "C" fn trc_rotate_begin(
    alloc: Global,
    handle: &mut BookCell,
    moment: u64,
    id: &mut u64,
) -> u32
    ensures closed { handle.old.value ≡ None
        → (result ≡ CLOSED) × (handle.new.value ≡ None) × (id.new ≡ id.old) }
    ensures moment { LAST_MOMENT < moment → MatchOption handle.old.value (result ≡ CLOSED) (λ _. result ≡ BAD_MOMENT)
        × (handle.new.value ≡ handle.old.value) × (id.new ≡ id.old) }
    ensures value { moment ≤ LAST_MOMENT → result ≢ NO_MEMORY → MatchOption handle.old.value (result ≡ CLOSED)
        (λ b. (result ≡ code_of session_fault_code (book_rotate_begin_answer b))
        × (id.new ≡ given number_out (book_rotate_begin_answer b) id.old)
        × (handle.new.value ≡ Some (book_after_rotate_begin moment b))) }
    ensures no_memory { result ≡ NO_MEMORY → (handle.new.value ≡ handle.old.value) × (id.new ≡ id.old)
        × MatchOption handle.old.value (result ≡ CLOSED) (λ b. IsOk (book_rotate_begin_answer b)) }
{
    let Some(mut book) = handle.take(alloc) else {
        return CLOSED;
    };
    let Some(moment) = Moment::new(moment) else {
        handle.put(book);
        return BAD_MOMENT;
    };
    let answer = book.rotate_begin(moment);
    handle.put(book);
    match answer {
        Ok(number) => {
            *id = number;
            DONE
        }
        Err(fault) => session_code(fault),
    }
}

/// Ends a rotation that has cut every stream. It takes no memory.
#[unsafe(no_mangle)]
pub extern "C" fn trc_rotate_finish(
    alloc: Global,
    handle: &mut BookCell,
    out: &mut ArchiveOut,
) -> u32
    ensures answer { MatchOption handle.old.value ((result ≡ CLOSED) × (out.new ≡ out.old))
        (λ b. (result ≡ code_of session_fault_code (book_rotate_finish_answer b))
        × (out.new ≡ given archive_out (book_rotate_finish_answer b) out.old)) }
    ensures after { handle.new.value ≡ option_map book_after_rotate_finish handle.old.value }
{
    let Some(mut book) = handle.take(alloc) else {
        return CLOSED;
    };
    let answer = book.rotate_finish();
    handle.put(book);
    match answer {
        Ok(archive) => {
            *out = archive_out(archive);
            DONE
        }
        Err(fault) => session_code(fault),
    }
}

/// Lets the book go.
#[unsafe(no_mangle)]
pub extern "C" fn trc_book_free(alloc: Global, handle: &mut BookCell)
    ensures { handle.new.value ≡ None }
{
    *handle = BookCell::closed(alloc);
}
