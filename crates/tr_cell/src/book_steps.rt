//! More calls of a session's book: what is added to it, its schedule and its snapshots.

ghost use Rattle.std.specs.Option.{option_map};
ghost use Rattle.std.specs.Prelude.{◌≡◌, ◌≢◌, ◌≤◌, ◌<◌, true, false, Some, None, MatchOption, MatchResult, IsOk, Ok};
ghost use Rattle.tr_border.specs.Codes.{code_number, code_of, given};
ghost use Rattle.tr_border.specs.Inputs.{mode_of, schedule_given};
ghost use Rattle.tr_border.specs.Outs.{cause_out, left_out, number_out, or_zero};
ghost use Rattle.tr_border.specs.Pairs.{next_answer};
ghost use Rattle.tr_border.specs.declared.codes.TheConstants.{BAD_MODE, BAD_MOMENT, BAD_NAME, CLOSED, DONE, NO_MEMORY};
ghost use Rattle.tr_schedule.specs.Schedules.{schedule_fault_code};
ghost use Rattle.tr_session_book.specs.Book.{SessionBookState};
ghost use Rattle.tr_session_book.specs.BookSteps.{book_add_channel, book_after_schedule, book_after_snapshot_begin, book_clear_answer, book_release_answer, book_schedule_answer, book_snapshot_begin_answer, due_now};
ghost use Rattle.tr_session_book.specs.Faults.{session_fault_code};
ghost use Rattle.tr_terms.specs.Names.{is_name};
ghost use Rattle.tr_terms.specs.declared.limits.TheConstants.{LAST_MOMENT};
ghost use Rattle.tr_terms.specs.declared.mode.Mode.{Mode};

use std::alloc::Global;
use tr_border::codes::{
    BAD_MODE, BAD_MOMENT, BAD_NAME, CLOSED, DONE, code_of, schedule_code, session_code,
};
use tr_border::inputs::{mode_of, name_of, schedule_given};
use tr_border::outs::cause_out;
use tr_held::BookCell;
use tr_session_book::{SessionBook, SessionFault};
use tr_terms::Moment;

/// Whether a text is a name.
#[unsafe(no_mangle)]
pub extern "C" fn trc_name(name: &[u8]) -> u32
    ensures name { is_name name.now ≡ true → result ≡ DONE }
    ensures none { is_name name.now ≡ false → result ≡ BAD_NAME }
{
    match name_of(name) {
        Some(_) => DONE,
        None => BAD_NAME,
    }
}

/// Adds a channel.
#[unsafe(no_mangle)]
pub extern "C" fn trc_book_channel(
    alloc: Global,
    handle: &mut BookCell,
    name: &[u8],
    size: u64,
    count: u64,
    mode: u32,
) -> u32
    ensures closed { handle.old.value ≡ None → result ≡ CLOSED }
    ensures bad_name { handle.old.value ≢ None → is_name name.now ≡ false → result ≡ BAD_NAME }
    ensures bad_mode { handle.old.value ≢ None → is_name name.now ≡ true → mode_of mode ≡ None → result ≡ BAD_MODE }
    ensures why { result ≢ NO_MEMORY → is_name name.now ≡ true → (m : Mode) → mode_of mode ≡ Some m
        → MatchOption handle.old.value (result ≡ CLOSED)
        (λ b. result ≡ code_of session_fault_code (book_add_channel name.now size count m b)) }
    ensures done { result ≡ DONE → (m : Mode) → mode_of mode ≡ Some m → MatchOption handle.old.value ⊥
        (λ b. (after : SessionBookState) × (book_add_channel name.now size count m b ≡ Ok after)
        × (handle.new.value ≡ Some after)) }
    ensures no_memory { result ≡ NO_MEMORY → (m : Mode) → mode_of mode ≡ Some m → MatchOption handle.old.value ⊥
        (λ b. IsOk (book_add_channel name.now size count m b)) }
    ensures refused { result ≢ DONE → handle.new.value ≡ handle.old.value }
{
    let Some(mut book) = handle.take(alloc) else {
        return CLOSED;
    };
    let Some(name) = name_of(name) else {
        handle.put(book);
        return BAD_NAME;
    };
    let Some(mode) = mode_of(mode) else {
        handle.put(book);
        return BAD_MODE;
    };
    let answer = book.add_channel(&name, size, count, mode);
    handle.put(book);
    code_of(answer)
}

/// Which stream the pending rotation cuts next, if one is left.
fn next_of(book: &SessionBook<Global>) -> Result<Option<u64>, SessionFault>
    ensures { result ≡ next_answer book.now }
{
    let Some(pending) = book.pending() else {
        return Err(SessionFault::NotPending);
    };
    if pending.cut < book.streams() as u64 {
        Ok(Some(pending.cut))
    } else {
        Ok(None)
    }
}

/// Which stream the pending rotation cuts next: `number`, if `left` is true.
#[unsafe(no_mangle)]
pub extern "C" fn trc_rotate_next(
    alloc: Global,
    handle: &mut BookCell,
    left: &mut bool,
    number: &mut u64,
) -> u32
    ensures value { MatchOption handle.old.value ((result ≡ CLOSED) × (left.new ≡ left.old) × (number.new ≡ number.old))
        (λ b. (result ≡ code_of session_fault_code (next_answer b))
        × (left.new ≡ given left_out (next_answer b) left.old)
        × (number.new ≡ given or_zero (next_answer b) number.old)) }
    ensures same { handle.new.value ≡ handle.old.value }
{
    let Some(book) = handle.take(alloc) else {
        return CLOSED;
    };
    let answer = next_of(&book);
    handle.put(book);
    match answer {
        Ok(next) => {
            *left = next.is_some();
            *number = next.unwrap_or(0);
            DONE
        }
        Err(fault) => session_code(fault),
    }
}

/// Begins a snapshot, and answers with the moment that is stored.
#[unsafe(no_mangle)]
pub extern "C" fn trc_book_snapshot(
    alloc: Global,
    handle: &mut BookCell,
    moment: u64,
    stored: &mut u64,
) -> u32
    ensures closed { handle.old.value ≡ None
        → (result ≡ CLOSED) × (handle.new.value ≡ None) × (stored.new ≡ stored.old) }
    ensures moment { LAST_MOMENT < moment → MatchOption handle.old.value (result ≡ CLOSED) (λ _. result ≡ BAD_MOMENT)
        × (handle.new.value ≡ handle.old.value) × (stored.new ≡ stored.old) }
    ensures value { moment ≤ LAST_MOMENT → MatchOption handle.old.value (result ≡ CLOSED)
        (λ b. (result ≡ code_of session_fault_code (book_snapshot_begin_answer moment b))
        × (stored.new ≡ given number_out (book_snapshot_begin_answer moment b) stored.old)
        × (handle.new.value ≡ Some (book_after_snapshot_begin moment b))) }
{
    let Some(mut book) = handle.take(alloc) else {
        return CLOSED;
    };
    let Some(moment) = Moment::new(moment) else {
        handle.put(book);
        return BAD_MOMENT;
    };
    let answer = book.snapshot_begin(moment);
    handle.put(book);
    match answer {
        Ok(moment) => {
            *stored = moment.get();
            DONE
        }
        Err(fault) => session_code(fault),
    }
}

/// Sets when rotations are due: each `every` nanoseconds if `timer`, at `size` bytes if `by_size`, or never.
#[unsafe(no_mangle)]
pub extern "C" fn trc_book_schedule(
    alloc: Global,
    handle: &mut BookCell,
    timer: bool,
    every: u64,
    by_size: bool,
    size: u64,
) -> u32
    ensures value { MatchOption handle.old.value (result ≡ CLOSED) (λ b. MatchResult (book_schedule_answer b)
        (λ _. MatchResult (schedule_given timer every by_size size)
        (λ schedule. (result ≡ DONE) × (handle.new.value ≡ Some (book_after_schedule schedule b)))
        (λ fault. result ≡ code_number (schedule_fault_code fault)))
        (λ fault. result ≡ code_number (session_fault_code fault))) }
    ensures refused { result ≢ DONE → handle.new.value ≡ handle.old.value }
{
    let Some(mut book) = handle.take(alloc) else {
        return CLOSED;
    };
    if let Err(fault) = book.can_schedule() {
        handle.put(book);
        return session_code(fault);
    }
    let schedule = match schedule_given(timer, every, by_size, size) {
        Ok(schedule) => schedule,
        Err(fault) => {
            handle.put(book);
            return schedule_code(fault);
        }
    };
    let answer = book.set_schedule(schedule);
    handle.put(book);
    code_of(answer)
}

/// Why a rotation is due now; `sizes` has the bytes of each stream's current part.
#[unsafe(no_mangle)]
pub extern "C" fn trc_book_due(
    alloc: Global,
    handle: &mut BookCell,
    moment: u64,
    sizes: &[u64],
    cause: &mut u32,
) -> u32
    ensures moment { LAST_MOMENT < moment → MatchOption handle.old.value (result ≡ CLOSED) (λ _. result ≡ BAD_MOMENT)
        × (cause.new ≡ cause.old) }
    ensures value { moment ≤ LAST_MOMENT → MatchOption handle.old.value ((result ≡ CLOSED) × (cause.new ≡ cause.old))
        (λ b. (result ≡ DONE) × (cause.new ≡ cause_out (due_now moment sizes.now b))) }
    ensures same { handle.new.value ≡ handle.old.value }
{
    let Some(book) = handle.take(alloc) else {
        return CLOSED;
    };
    let Some(moment) = Moment::new(moment) else {
        handle.put(book);
        return BAD_MOMENT;
    };
    let due = match book.schedule_in_force() {
        Some(schedule) => schedule.due(book.begin(), moment, sizes),
        None => None,
    };
    handle.put(book);
    *cause = cause_out(due);
    DONE
}

/// Whether the session's streams can be cleared now.
#[unsafe(no_mangle)]
pub extern "C" fn trc_book_can_clear(alloc: Global, handle: &mut BookCell) -> u32
    ensures answer { MatchOption handle.old.value (result ≡ CLOSED)
        (λ b. result ≡ code_of session_fault_code (book_clear_answer b)) }
    ensures same { handle.new.value ≡ handle.old.value }
{
    let Some(book) = handle.take(alloc) else {
        return CLOSED;
    };
    let answer = book.clear_allowed();
    handle.put(book);
    code_of(answer)
}

/// Whether there is an archive of this number, whose parts can be released.
#[unsafe(no_mangle)]
pub extern "C" fn trc_book_can_release(alloc: Global, handle: &mut BookCell, archive: u64) -> u32
    ensures answer { MatchOption handle.old.value (result ≡ CLOSED)
        (λ b. result ≡ code_of session_fault_code (book_release_answer archive b)) }
    ensures same { handle.new.value ≡ handle.old.value }
{
    let Some(book) = handle.take(alloc) else {
        return CLOSED;
    };
    let answer = book.release_allowed(archive);
    handle.put(book);
    code_of(answer)
}
