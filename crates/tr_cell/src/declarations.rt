//! The calls of declared events: one caller of a handle at a time.

ghost use Rattle.std.specs.Option.{option_map};
ghost use Rattle.std.specs.Prelude.{◌≡◌, ◌≢◌, Some, None, Ok, IfOk, IsOk, MatchOption, if◌then◌else◌};
ghost use Rattle.std.specs.Arc.{arc_value};
ghost use Rattle.tr_border.specs.Codes.{code_of};
ghost use Rattle.tr_border.specs.Texts.{HoldsDeclared};
ghost use Rattle.tr_border.specs.declared.codes.TheConstants.{CLOSED, DONE, IN_USE, NO_MEMORY};
ghost use Rattle.tr_events.specs.Events.{fits_declared};
ghost use Rattle.tr_events.specs.Lines.{declared};
ghost use Rattle.tr_session_book.specs.BookSteps.{book_declare};
ghost use Rattle.tr_session_book.specs.Faults.{session_fault_code};

use std::alloc::{AllocError, Global};
use std::sync::Arc;
use tr_border::codes::{CLOSED, DONE, IN_USE, NO_MEMORY, code_of, event_code, offer_code};
use tr_events::{Events, ParseFault};
use tr_held::{BookCell, EventsCell};
use tr_stream::OfferFault;

/// Events on the heap that several handles may have.
fn shared(alloc: Global, events: Events) -> Result<Box<Arc<Events, Global>>, AllocError>
    ensures { IfOk result (λ kept. arc_value kept.value ≡ events) }
{
    let Ok(events) = Arc::new(alloc, events) else {
        return Err(AllocError);
    };
    match Box::new(alloc, events) {
        Ok(kept) => Ok(kept),
        Err(_) => Err(AllocError),
    }
}

/// Opens what the lines of a text declare, or says which line is refused.
#[unsafe(no_mangle)]
pub extern "C" fn trc_events_new(
    alloc: Global,
    handle: &mut EventsCell,
    text: &[u8],
    line: &mut u64,
) -> u32
    ensures in_use { handle.old.value ≢ None → (result ≡ IN_USE) × (line.new ≡ line.old) }
    ensures value { handle.old.value ≡ None → result ≢ NO_MEMORY
        → HoldsDeclared (declared text.now) result (option_map arc_value handle.new.value) line.old line.new }
    ensures no_memory { result ≡ NO_MEMORY → line.new ≡ line.old }
    ensures refused { result ≢ DONE → handle.new.value ≡ handle.old.value }
{
    if let Some(open) = handle.take(alloc) {
        handle.put(open);
        return IN_USE;
    }
    let events = match Events::parse(alloc, text) {
        Ok(events) => events,
        Err(ParseFault::Line(at)) => {
            *line = at.line;
            return event_code(at.fault);
        }
        Err(ParseFault::NoMemory) => return NO_MEMORY,
    };
    match shared(alloc, events) {
        Ok(kept) => {
            handle.put(kept);
            DONE
        }
        Err(_) => NO_MEMORY,
    }
}

/// Opens another handle of the same events.
#[unsafe(no_mangle)]
pub extern "C" fn trc_events_share(
    alloc: Global,
    handle: &mut EventsCell,
    other: &mut EventsCell,
) -> u32
    ensures closed { handle.old.value ≡ None → result ≡ CLOSED }
    ensures in_use { handle.old.value ≢ None → other.old.value ≢ None → result ≡ IN_USE }
    ensures value { handle.old.value ≢ None → other.old.value ≡ None → result ≢ NO_MEMORY
        → (result ≡ DONE) × (option_map arc_value other.new.value ≡ option_map arc_value handle.old.value) }
    ensures refused { result ≢ DONE → other.new.value ≡ other.old.value }
    ensures same { handle.new.value ≡ handle.old.value }
{
    let Some(events) = handle.take(alloc) else {
        return CLOSED;
    };
    if let Some(open) = other.take(alloc) {
        other.put(open);
        handle.put(events);
        return IN_USE;
    }
    let copy = Arc::try_clone(&events);
    handle.put(events);
    let Ok(copy) = copy else {
        return NO_MEMORY;
    };
    match Box::new(alloc, copy) {
        Ok(kept) => {
            other.put(kept);
            DONE
        }
        Err(_) => NO_MEMORY,
    }
}

/// Has the session declare these events.
#[unsafe(no_mangle)]
pub extern "C" fn trc_book_declare(
    alloc: Global,
    handle: &mut BookCell,
    events: &mut EventsCell,
) -> u32
    ensures answer { result ≢ NO_MEMORY → MatchOption handle.old.value (result ≡ CLOSED) (λ b. MatchOption events.old.value (result ≡ CLOSED)
        (λ e. result ≡ code_of session_fault_code (book_declare (arc_value e) b))) }
    ensures done { result ≡ DONE → MatchOption handle.old.value ⊥ (λ b. MatchOption events.old.value ⊥
        (λ e. option_map Ok handle.new.value ≡ Some (book_declare (arc_value e) b))) }
    ensures no_memory { result ≡ NO_MEMORY → MatchOption handle.old.value ⊥ (λ b. MatchOption events.old.value ⊥
        (λ e. IsOk (book_declare (arc_value e) b))) }
    ensures refused { result ≢ DONE → handle.new.value ≡ handle.old.value }
    ensures same { events.new.value ≡ events.old.value }
{
    let Some(mut book) = handle.take(alloc) else {
        return CLOSED;
    };
    let Some(declared) = events.take(alloc) else {
        handle.put(book);
        return CLOSED;
    };
    let answer = book.declare(&declared);
    events.put(declared);
    handle.put(book);
    code_of(answer)
}

/// Whether a record of this id and payload is laid out as its event is declared; one whose id isn't declared is.
#[unsafe(no_mangle)]
pub extern "C" fn trc_events_fit(
    alloc: Global,
    handle: &mut EventsCell,
    id: u32,
    payload: &[u8],
) -> u32
    ensures value { MatchOption handle.old.value (result ≡ CLOSED)
        (λ e. result ≡ (if fits_declared (arc_value e) id payload.now then DONE else 206)) }
    ensures same { handle.new.value ≡ handle.old.value }
{
    let Some(events) = handle.take(alloc) else {
        return CLOSED;
    };
    let fits = events.fits(id, payload);
    handle.put(events);
    if fits {
        DONE
    } else {
        offer_code(OfferFault::OtherLayout)
    }
}

/// Lets declared events go.
#[unsafe(no_mangle)]
pub extern "C" fn trc_events_free(alloc: Global, handle: &mut EventsCell)
    ensures { handle.new.value ≡ None }
{
    *handle = EventsCell::closed(alloc);
}
