//! The calls of one stream: one caller at a time.

ghost use Rattle.std.specs.Option.{option_map};
ghost use Rattle.std.specs.Prelude.{◌≡◌, ◌≢◌, ◌≤◌, ◌<◌, Some, None, MatchOption, IsOk};
ghost use Rattle.tr_border.specs.Codes.{code_of, given};
ghost use Rattle.tr_border.specs.Outs.{cleared_out, cut_out, offered_out, released_out, taken_out};
ghost use Rattle.tr_border.specs.declared.codes.TheConstants.{BAD_MOMENT, CLOSED, DONE, NO_MEMORY};
ghost use Rattle.tr_stream.specs.Calls.{ClearsSome, ReleasesSome};
ghost use Rattle.tr_stream.specs.Faults.{clear_fault_code, cut_fault_code, forget_fault_code, offer_fault_code, release_fault_code, take_fault_code};
ghost use Rattle.tr_stream.specs.StateSteps.{state_after_clear, state_after_cut, state_after_forget, state_after_offer, state_after_release, state_after_switch, state_after_take, state_clear_answer, state_cut_answer, state_forget_answer, state_offer_answer, state_release_answer, state_take_answer};
ghost use Rattle.tr_terms.specs.declared.limits.TheConstants.{LAST_MOMENT};

use std::alloc::Global;
use tr_border::codes::{
    BAD_MOMENT, CLOSED, DONE, clear_code, cut_code, forget_code, offer_code, release_code,
    take_code,
};
use tr_border::outs::{
    ClearedOut, CutOut, OfferedOut, ReleasedOut, TakenOut, cleared_out, cut_out, offered_out,
    released_out, taken_out,
};
use tr_held::StreamCell;
use tr_terms::Moment;

/// Lets the stream take offers, or makes it refuse them.
#[unsafe(no_mangle)]
pub extern "C" fn trc_stream_switch(alloc: Global, handle: &mut StreamCell, active: bool) -> u32
    ensures answer { MatchOption handle.old.value (result ≡ CLOSED) (λ _. result ≡ DONE) }
    ensures after { handle.new.value ≡ option_map (state_after_switch active) handle.old.value }
{
    let Some(mut stream) = handle.take(alloc) else {
        return CLOSED;
    };
    stream.set_active(active);
    handle.put(stream);
    DONE
}

/// Offers a record. It takes no memory.
#[unsafe(no_mangle)]
pub extern "C" fn trc_stream_offer(
    alloc: Global,
    handle: &mut StreamCell,
    moment: u64,
    id: u32,
    payload: &[u8],
    out: &mut OfferedOut,
) -> u32
    ensures closed { handle.old.value ≡ None
        → (result ≡ CLOSED) × (handle.new.value ≡ None) × (out.new ≡ out.old) }
    ensures moment { LAST_MOMENT < moment → MatchOption handle.old.value (result ≡ CLOSED) (λ _. result ≡ BAD_MOMENT)
        × (handle.new.value ≡ handle.old.value) × (out.new ≡ out.old) }
    ensures value { moment ≤ LAST_MOMENT → MatchOption handle.old.value (result ≡ CLOSED)
        (λ s. (result ≡ code_of offer_fault_code (state_offer_answer moment id payload.now s))
        × (out.new ≡ given offered_out (state_offer_answer moment id payload.now s) out.old)
        × (handle.new.value ≡ Some (state_after_offer moment id payload.now s))) }
{
    let Some(mut stream) = handle.take(alloc) else {
        return CLOSED;
    };
    let Some(moment) = Moment::new(moment) else {
        handle.put(stream);
        return BAD_MOMENT;
    };
    let answer = stream.offer(moment, id, payload);
    handle.put(stream);
    match answer {
        Ok(offered) => {
            *out = offered_out(offered);
            DONE
        }
        Err(fault) => offer_code(fault),
    }
}

/// Moves the oldest closed sub-buffer into the current trace chunk.
#[unsafe(no_mangle)]
pub extern "C" fn trc_stream_take(alloc: Global, handle: &mut StreamCell, out: &mut TakenOut) -> u32
    ensures closed { handle.old.value ≡ None
        → (result ≡ CLOSED) × (handle.new.value ≡ None) × (out.new ≡ out.old) }
    ensures value { result ≢ NO_MEMORY → MatchOption handle.old.value (result ≡ CLOSED)
        (λ s. (result ≡ code_of take_fault_code (state_take_answer s))
        × (out.new ≡ given taken_out (state_take_answer s) out.old)
        × (handle.new.value ≡ Some (state_after_take s))) }
    ensures no_memory { result ≡ NO_MEMORY → (handle.new.value ≡ handle.old.value) × (out.new ≡ out.old)
        × MatchOption handle.old.value (result ≡ CLOSED) (λ s. IsOk (state_take_answer s)) }
{
    let Some(mut stream) = handle.take(alloc) else {
        return CLOSED;
    };
    let answer = stream.take();
    handle.put(stream);
    match answer {
        Ok(taken) => {
            *out = taken_out(taken);
            DONE
        }
        Err(fault) => take_code(fault),
    }
}

/// Moves all that the ring holds into the current trace chunk, and closes that.
#[unsafe(no_mangle)]
pub extern "C" fn trc_stream_cut(
    alloc: Global,
    handle: &mut StreamCell,
    moment: u64,
    out: &mut CutOut,
) -> u32
    ensures closed { handle.old.value ≡ None
        → (result ≡ CLOSED) × (handle.new.value ≡ None) × (out.new ≡ out.old) }
    ensures moment { LAST_MOMENT < moment → MatchOption handle.old.value (result ≡ CLOSED) (λ _. result ≡ BAD_MOMENT)
        × (handle.new.value ≡ handle.old.value) × (out.new ≡ out.old) }
    ensures value { moment ≤ LAST_MOMENT → result ≢ NO_MEMORY → MatchOption handle.old.value (result ≡ CLOSED)
        (λ s. (result ≡ code_of cut_fault_code (state_cut_answer moment s))
        × (out.new ≡ given cut_out (state_cut_answer moment s) out.old)
        × (handle.new.value ≡ Some (state_after_cut moment s))) }
    ensures no_memory { result ≡ NO_MEMORY → (handle.new.value ≡ handle.old.value) × (out.new ≡ out.old)
        × MatchOption handle.old.value (result ≡ CLOSED) (λ s. IsOk (state_cut_answer moment s)) }
{
    let Some(mut stream) = handle.take(alloc) else {
        return CLOSED;
    };
    let Some(moment) = Moment::new(moment) else {
        handle.put(stream);
        return BAD_MOMENT;
    };
    let answer = stream.cut(moment);
    handle.put(stream);
    match answer {
        Ok(done) => {
            *out = cut_out(done);
            DONE
        }
        Err(fault) => cut_code(fault),
    }
}

/// Removes what the ring and the current trace chunk hold.
#[unsafe(no_mangle)]
pub extern "C" fn trc_stream_clear(
    alloc: Global,
    handle: &mut StreamCell,
    out: &mut ClearedOut,
) -> u32
    ensures closed { handle.old.value ≡ None
        → (result ≡ CLOSED) × (handle.new.value ≡ None) × (out.new ≡ out.old) }
    ensures value { result ≢ NO_MEMORY → MatchOption handle.old.value (result ≡ CLOSED)
        (λ s. (result ≡ code_of clear_fault_code (state_clear_answer s))
        × (out.new ≡ given cleared_out (state_clear_answer s) out.old)
        × (handle.new.value ≡ Some (state_after_clear s))) }
    ensures no_memory { result ≡ NO_MEMORY → (handle.new.value ≡ handle.old.value) × (out.new ≡ out.old)
        × MatchOption handle.old.value (result ≡ CLOSED) (λ s. ClearsSome (state_clear_answer s)) }
{
    let Some(mut stream) = handle.take(alloc) else {
        return CLOSED;
    };
    let answer = stream.clear();
    handle.put(stream);
    match answer {
        Ok(cleared) => {
            *out = cleared_out(cleared);
            DONE
        }
        Err(fault) => clear_code(fault),
    }
}

/// Forgets the closed parts below this chunk, all of which were released.
#[unsafe(no_mangle)]
pub extern "C" fn trc_stream_forget(alloc: Global, handle: &mut StreamCell, chunk: u64) -> u32
    ensures closed { handle.old.value ≡ None → (result ≡ CLOSED) × (handle.new.value ≡ None) }
    ensures value { result ≢ NO_MEMORY → MatchOption handle.old.value (result ≡ CLOSED)
        (λ s. (result ≡ code_of forget_fault_code (state_forget_answer chunk s))
        × (handle.new.value ≡ Some (state_after_forget chunk s))) }
    ensures no_memory { result ≡ NO_MEMORY → handle.new.value ≡ handle.old.value }
{
    let Some(mut stream) = handle.take(alloc) else {
        return CLOSED;
    };
    let answer = stream.forget(chunk);
    handle.put(stream);
    match answer {
        Ok(()) => DONE,
        Err(fault) => forget_code(fault),
    }
}

/// Gives up the packets of a closed part.
#[unsafe(no_mangle)]
pub extern "C" fn trc_stream_release(
    alloc: Global,
    handle: &mut StreamCell,
    chunk: u64,
    out: &mut ReleasedOut,
) -> u32
    ensures closed { handle.old.value ≡ None
        → (result ≡ CLOSED) × (handle.new.value ≡ None) × (out.new ≡ out.old) }
    ensures value { result ≢ NO_MEMORY → MatchOption handle.old.value (result ≡ CLOSED)
        (λ s. (result ≡ code_of release_fault_code (state_release_answer chunk s))
        × (out.new ≡ given released_out (state_release_answer chunk s) out.old)
        × (handle.new.value ≡ Some (state_after_release chunk s))) }
    ensures no_memory { result ≡ NO_MEMORY → (handle.new.value ≡ handle.old.value) × (out.new ≡ out.old)
        × MatchOption handle.old.value (result ≡ CLOSED) (λ s. ReleasesSome (state_release_answer chunk s)) }
{
    let Some(mut stream) = handle.take(alloc) else {
        return CLOSED;
    };
    let answer = stream.release(chunk);
    handle.put(stream);
    match answer {
        Ok(released) => {
            *out = released_out(released);
            DONE
        }
        Err(fault) => release_code(fault),
    }
}

/// Lets the stream go.
#[unsafe(no_mangle)]
pub extern "C" fn trc_stream_free(alloc: Global, handle: &mut StreamCell)
    ensures { handle.new.value ≡ None }
{
    *handle = StreamCell::closed(alloc);
}
