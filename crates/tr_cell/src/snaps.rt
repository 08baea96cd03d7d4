//! What a stream shows: one caller at a time.

ghost use Rattle.std.specs.Prelude.{◌≡◌, ◌≢◌, ◌≤◌, ◌<◌, Some, None, MatchOption, MatchResult, IsOk, length};
ghost use Rattle.tr_border.specs.Codes.{code_number};
ghost use Rattle.tr_border.specs.Outs.{shown_out};
ghost use Rattle.tr_border.specs.Pairs.{look_answer};
ghost use Rattle.tr_border.specs.Texts.{CopiesOn};
ghost use Rattle.tr_border.specs.declared.codes.TheConstants.{BAD_MOMENT, CLOSED, DONE, IN_USE, NO_MEMORY};
ghost use Rattle.tr_session_book.specs.Faults.{session_fault_code};
ghost use Rattle.tr_terms.specs.declared.limits.TheConstants.{LAST_MOMENT};

use std::alloc::Global;
use tr_border::codes::{BAD_MOMENT, CLOSED, DONE, IN_USE, session_code};
use tr_border::outs::{ShownOut, shown_out};
use tr_border::pairs::look_at;
use tr_border::texts::{Place, copy_on};
use tr_held::{BookCell, SnapCell, StreamCell};
use tr_session_book::{SessionBook, SessionFault};
use tr_stream::Stream;
use tr_terms::Moment;

/// Opens what a stream shows at a moment, as its session allows. Session and stream stay as they are.
#[unsafe(no_mangle)]
pub extern "C" fn trc_book_look(
    alloc: Global,
    handle: &mut BookCell,
    stream: &mut StreamCell,
    moment: u64,
    snap: &mut SnapCell,
) -> u32
    ensures closed { handle.old.value ≡ None → result ≡ CLOSED }
    ensures closed_stream { stream.old.value ≡ None → result ≡ CLOSED }
    ensures in_use { handle.old.value ≢ None → stream.old.value ≢ None → snap.old.value ≢ None → result ≡ IN_USE }
    ensures moment { handle.old.value ≢ None → stream.old.value ≢ None → snap.old.value ≡ None → LAST_MOMENT < moment
        → result ≡ BAD_MOMENT }
    ensures value { snap.old.value ≡ None → moment ≤ LAST_MOMENT → result ≢ NO_MEMORY
        → MatchOption handle.old.value (result ≡ CLOSED) (λ b. MatchOption stream.old.value (result ≡ CLOSED)
        (λ s. MatchResult (look_answer moment b s)
        (λ shown. (result ≡ DONE) × (snap.new.value ≡ Some shown))
        (λ fault. result ≡ code_number (session_fault_code fault)))) }
    ensures no_memory { result ≡ NO_MEMORY → MatchOption handle.old.value ⊥ (λ b. MatchOption stream.old.value ⊥
        (λ s. IsOk (look_answer moment b s))) }
    ensures refused { result ≢ DONE → snap.new.value ≡ snap.old.value }
    ensures same { (handle.new.value ≡ handle.old.value) × (stream.new.value ≡ stream.old.value) }
{
    let Some(book) = handle.take(alloc) else {
        return CLOSED;
    };
    let Some(mut lent) = stream.take(alloc) else {
        handle.put(book);
        return CLOSED;
    };
    let code = look_into(alloc, &book, &mut lent, moment, snap);
    stream.put(lent);
    handle.put(book);
    code
}

/// Opens what a stream shows at a moment.
fn look_into(
    alloc: Global,
    book: &SessionBook<Global>,
    stream: &mut Stream<Global>,
    moment: u64,
    snap: &mut SnapCell,
) -> u32
    ensures in_use { snap.old.value ≢ None → result ≡ IN_USE }
    ensures moment { snap.old.value ≡ None → LAST_MOMENT < moment → result ≡ BAD_MOMENT }
    ensures value { snap.old.value ≡ None → moment ≤ LAST_MOMENT → result ≢ NO_MEMORY → MatchResult (look_answer moment book.now stream.old)
        (λ shown. (result ≡ DONE) × (snap.new.value ≡ Some shown))
        (λ fault. result ≡ code_number (session_fault_code fault)) }
    ensures no_memory { result ≡ NO_MEMORY → IsOk (look_answer moment book.now stream.old) }
    ensures refused { result ≢ DONE → snap.new.value ≡ snap.old.value }
    ensures open { result ≢ CLOSED }
    ensures same { stream.new ≡ stream.old }
{
    if let Some(open) = snap.take(alloc) {
        snap.put(open);
        return IN_USE;
    }
    let Some(moment) = Moment::new(moment) else {
        return BAD_MOMENT;
    };
    let shown = match look_at(book, stream, moment) {
        Ok(shown) => shown,
        Err(fault) => return session_code(fault),
    };
    match Box::new(alloc, shown) {
        Ok(kept) => {
            snap.put(kept);
            DONE
        }
        Err(_) => session_code(SessionFault::NoMemory),
    }
}

/// What is shown.
#[unsafe(no_mangle)]
pub extern "C" fn trc_snap_about(alloc: Global, handle: &mut SnapCell, out: &mut ShownOut) -> u32
    ensures value { MatchOption handle.old.value ((result ≡ CLOSED) × (out.new ≡ out.old))
        (λ s. (result ≡ DONE) × (out.new ≡ shown_out s)) }
    ensures same { handle.new.value ≡ handle.old.value }
{
    let Some(snap) = handle.take(alloc) else {
        return CLOSED;
    };
    *out = shown_out(&snap);
    handle.put(snap);
    DONE
}

/// Copies bytes of the shown packets from a place on, and moves the place past them.
#[unsafe(no_mangle)]
pub extern "C" fn trc_snap_text(
    alloc: Global,
    handle: &mut SnapCell,
    place: &mut Place,
    room: &mut [u8],
    count: &mut u64,
) -> u32
    ensures value { MatchOption handle.old.value
        ((result ≡ CLOSED) × (place.new ≡ place.old) × (count.new ≡ count.old) × (room.new ≡ room.old))
        (λ s. (result ≡ DONE) × CopiesOn s.packets place.old place.new count.new room.old room.new) }
    ensures same { handle.new.value ≡ handle.old.value }
{
    let Some(snap) = handle.take(alloc) else {
        return CLOSED;
    };
    *count = copy_on(snap.texts(), place, room);
    handle.put(snap);
    DONE
}

/// Lets go what was shown.
#[unsafe(no_mangle)]
pub extern "C" fn trc_snap_free(alloc: Global, handle: &mut SnapCell)
    ensures { handle.new.value ≡ None }
{
    *handle = SnapCell::closed(alloc);
}
