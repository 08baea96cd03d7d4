//! What a stream is made with, and what is read of it.

ghost use Rattle.std.specs.Prelude.{◌≡◌, ◌≢◌, ◌≤◌, ◌+◌, ◌-◌, ◌++◌, min, take, drop, length, List, ℕ, Option, Some, None, Ok, Err, IfOk, IfErr, MatchOption, MatchResult, IsOk};
ghost use Rattle.tr_book.specs.Parts.{part_known};
ghost use Rattle.tr_border.specs.Outs.{counts_out, fate_out, part_out, sum_out};
ghost use Rattle.tr_border.specs.Inputs.{config_of};
ghost use Rattle.tr_border.specs.Texts.{CopiesOn};
ghost use Rattle.tr_border.specs.declared.codes.TheConstants.{CLOSED, DONE, IN_USE, NO_MEMORY, NO_PART};
ghost use Rattle.tr_stream.specs.Fates.{state_fate};
ghost use Rattle.tr_stream.specs.StateSteps.{new_state, state_counts};

use std::alloc::Global;
use tr_border::codes::{CLOSED, DONE, IN_USE, NO_MEMORY, NO_PART};
use tr_border::inputs::config_of;
use tr_border::outs::{
    CountsOut, FateOut, PartOut, SumOut, counts_out, fate_out, part_out, sum_out,
};
use tr_border::pairs::made;
use tr_border::texts::{Place, copy_on};
use tr_held::StreamCell;

/// How many records were offered, and where they are.
#[unsafe(no_mangle)]
pub extern "C" fn trc_stream_counts(
    alloc: Global,
    handle: &mut StreamCell,
    out: &mut CountsOut,
) -> u32
    ensures value { MatchOption handle.old.value ((result ≡ CLOSED) × (out.new ≡ out.old))
        (λ s. (result ≡ DONE) × (out.new ≡ counts_out (state_counts s))) }
    ensures same { handle.new.value ≡ handle.old.value }
{
    let Some(stream) = handle.take(alloc) else {
        return CLOSED;
    };
    *out = counts_out(stream.counts());
    handle.put(stream);
    DONE
}

/// Adds the stream's counts to sums.
#[unsafe(no_mangle)]
pub extern "C" fn trc_stream_add_counts(
    alloc: Global,
    handle: &mut StreamCell,
    sum: &mut SumOut,
) -> u32
    ensures value { MatchOption handle.old.value ((result ≡ CLOSED) × (sum.new ≡ sum.old))
        (λ s. (result ≡ DONE) × (sum.new ≡ sum_out sum.old (state_counts s))) }
    ensures same { handle.new.value ≡ handle.old.value }
{
    let Some(stream) = handle.take(alloc) else {
        return CLOSED;
    };
    *sum = sum_out(*sum, stream.counts());
    handle.put(stream);
    DONE
}

/// What became of the offer with this serial.
#[unsafe(no_mangle)]
pub extern "C" fn trc_stream_fate(
    alloc: Global,
    handle: &mut StreamCell,
    serial: u64,
    out: &mut FateOut,
) -> u32
    ensures value { MatchOption handle.old.value ((result ≡ CLOSED) × (out.new ≡ out.old))
        (λ s. (result ≡ DONE) × (out.new ≡ fate_out (state_fate serial s))) }
    ensures same { handle.new.value ≡ handle.old.value }
{
    let Some(stream) = handle.take(alloc) else {
        return CLOSED;
    };
    *out = fate_out(stream.fate_of(serial));
    handle.put(stream);
    DONE
}

/// How much the stream added to a trace chunk, if that part isn't forgotten.
#[unsafe(no_mangle)]
pub extern "C" fn trc_stream_part(
    alloc: Global,
    handle: &mut StreamCell,
    chunk: u64,
    out: &mut PartOut,
) -> u32
    ensures value { MatchOption handle.old.value ((result ≡ CLOSED) × (out.new ≡ out.old))
        (λ s. MatchOption (part_known chunk s.parts) ((result ≡ NO_PART) × (out.new ≡ out.old))
        (λ p. (result ≡ DONE) × (out.new ≡ part_out p))) }
    ensures same { handle.new.value ≡ handle.old.value }
{
    let Some(stream) = handle.take(alloc) else {
        return CLOSED;
    };
    let code = match stream.part(chunk) {
        Some(part) => {
            *out = part_out(part);
            DONE
        }
        None => NO_PART,
    };
    handle.put(stream);
    code
}

/// Copies bytes of the packets that the stream added to a trace chunk, from a place on, and moves the place past them.
#[unsafe(no_mangle)]
pub extern "C" fn trc_stream_text(
    alloc: Global,
    handle: &mut StreamCell,
    chunk: u64,
    place: &mut Place,
    room: &mut [u8],
    count: &mut u64,
) -> u32
    ensures value { MatchOption handle.old.value (result ≡ CLOSED)
        (λ s. MatchOption (part_known chunk s.parts) (result ≡ NO_PART)
        (λ p. (result ≡ DONE) × CopiesOn p.packets place.old place.new count.new room.old room.new)) }
    ensures refused { result ≢ DONE → (place.new ≡ place.old) × (count.new ≡ count.old) × (room.new ≡ room.old) }
    ensures same { handle.new.value ≡ handle.old.value }
{
    let Some(stream) = handle.take(alloc) else {
        return CLOSED;
    };
    let code = match stream.part(chunk) {
        Some(part) => {
            *count = copy_on(part.texts(), place, room);
            DONE
        }
        None => NO_PART,
    };
    handle.put(stream);
    code
}

/// Opens a stream by itself, which takes no offers yet.
#[unsafe(no_mangle)]
pub extern "C" fn trc_stream_new(
    alloc: Global,
    handle: &mut StreamCell,
    uuid: &[u8],
    number: u64,
    size: u64,
    count: u64,
    mode: u32,
    session_mode: u32,
) -> u32
    ensures in_use { handle.old.value ≢ None → (result ≡ IN_USE) × (handle.new.value ≡ handle.old.value) }
    ensures value { handle.old.value ≡ None → result ≢ NO_MEMORY
        → MatchResult (config_of uuid.now number size count mode session_mode)
        (λ config. (result ≡ DONE) × (handle.new.value ≡ Some (new_state config)))
        (λ code. (result ≡ code) × (handle.new.value ≡ None)) }
    ensures no_memory { result ≡ NO_MEMORY → (handle.new.value ≡ None)
        × IsOk (config_of uuid.now number size count mode session_mode) }
{
    if let Some(stream) = handle.take(alloc) {
        handle.put(stream);
        return IN_USE;
    }
    let config = match config_of(uuid, number, size, count, mode, session_mode) {
        Ok(config) => config,
        Err(code) => return code,
    };
    match made(alloc, config) {
        Ok(stream) => {
            handle.put(stream);
            DONE
        }
        Err(_) => NO_MEMORY,
    }
}
