//! Steps of streams in order of number.

ghost use Rattle.std.specs.Prelude.{◌≡◌, ◌≢◌, ◌<◌, Some, Err, IfOk, IsOk, length, map, option_map, slice_get};
ghost use Rattle.std.specs.Option.{option_map_or};
ghost use Rattle.tr_session.specs.Steps.{change_at, clear_as_session, ClearsPackets, release_as_session, ReleasesPackets, offer_as_step, take_as_step};
ghost use Rattle.tr_stream.specs.StateSteps.{state_offer_answer, state_after_offer, state_take_answer, state_after_take, state_cut_answer, state_after_cut, state_clear_answer, state_after_clear, state_release_answer, state_after_release, state_snap, state_after_switch, state_counts};

use crate::faults::{StepFault, clear_fault, release_fault};
use std::alloc::{AllocError, Allocator};
use tr_book::StreamSnap;
use tr_session_book::SessionFault;
use tr_stream::{Cleared, CutDone, CutFault, Offered, Released, Stream, TakeFault, Taken};
use tr_terms::Moment;

/// Lets the stream of this number take offers, or makes it refuse them.
pub fn switch_at<A: Allocator>(streams: &mut Vec<Stream<A>, A>, active: bool, i: usize)
    requires { i < length streams.old.items }
    ensures { streams.new.items ≡ change_at i (state_after_switch active) streams.old.items }
{
    streams[i].set_active(active);
}

/// Lets each stream take offers, or makes each refuse them.
pub fn switch<A: Allocator>(streams: &mut Vec<Stream<A>, A>, active: bool)
    ensures { streams.new.items ≡ map (state_after_switch active) streams.old.items }
{
    'each: for i in 0..streams.len() {
        switch_at(streams, active, i);
    }
}

/// Offers a record to a stream.
fn offer_to<A: Allocator + Copy>(
    stream: &mut Stream<A>,
    moment: Moment,
    id: u32,
    payload: &[u8],
) -> Result<Offered, StepFault>
    ensures answer { result ≡ offer_as_step (state_offer_answer moment id payload.now stream.old) }
    ensures after { stream.new ≡ state_after_offer moment id payload.now stream.old }
{
    Ok(stream.offer(moment, id, payload)?)
}

/// Offers a record to the stream of this number.
pub fn offer_at<A: Allocator + Copy>(
    streams: &mut Vec<Stream<A>, A>,
    i: u64,
    moment: Moment,
    id: u32,
    payload: &[u8],
) -> Result<Offered, StepFault>
    ensures answer { result
        ≡ option_map_or (λ s. offer_as_step (state_offer_answer moment id payload.now s)) (slice_get streams.old.items i)
        (Err (StepFault.Session SessionFault.NoStream)) }
    ensures after { streams.new.items ≡ change_at i (state_after_offer moment id payload.now) streams.old.items }
{
    let Some(stream) = streams.get_mut(i as usize) else {
        return Err(StepFault::Session(SessionFault::NoStream));
    };
    offer_to(stream, moment, id, payload)
}

/// Takes the oldest packet of a stream.
fn take_from<A: Allocator + Copy>(stream: &mut Stream<A>) -> Result<Taken, StepFault>
    ensures value { result ≢ Err (StepFault.Take TakeFault.NoMemory) →
        (result ≡ take_as_step (state_take_answer stream.old)) × (stream.new ≡ state_after_take stream.old) }
    ensures no_memory { result ≡ Err (StepFault.Take TakeFault.NoMemory) → stream.new ≡ stream.old }
    ensures memory { result ≡ Err (StepFault.Take TakeFault.NoMemory)
        → IsOk (take_as_step (state_take_answer stream.old)) }
{
    Ok(stream.take()?)
}

/// Takes the oldest packet of the stream of this number.
pub fn take_at<A: Allocator + Copy>(
    streams: &mut Vec<Stream<A>, A>,
    i: u64,
) -> Result<Taken, StepFault>
    ensures value { result ≢ Err (StepFault.Take TakeFault.NoMemory) →
        (result ≡ option_map_or (λ s. take_as_step (state_take_answer s)) (slice_get streams.old.items i)
        (Err (StepFault.Session SessionFault.NoStream)))
        × (streams.new.items ≡ change_at i state_after_take streams.old.items) }
    ensures no_memory { result ≡ Err (StepFault.Take TakeFault.NoMemory) → streams.new.items ≡ streams.old.items }
    ensures memory { result ≡ Err (StepFault.Take TakeFault.NoMemory) →
        IsOk (option_map_or (λ s. take_as_step (state_take_answer s)) (slice_get streams.old.items i)
        (Err (StepFault.Session SessionFault.NoStream))) }
{
    let Some(stream) = streams.get_mut(i as usize) else {
        return Err(StepFault::Session(SessionFault::NoStream));
    };
    take_from(stream)
}

/// Cuts the stream of this number.
pub fn cut_at<A: Allocator + Copy>(
    streams: &mut Vec<Stream<A>, A>,
    i: u64,
    moment: Moment,
) -> Result<CutDone, CutFault>
    requires { i < length streams.old.items }
    ensures value { result ≢ Err CutFault.NoMemory →
        (option_map (state_cut_answer moment) (slice_get streams.old.items i) ≡ Some result)
        × (streams.new.items ≡ change_at i (state_after_cut moment) streams.old.items) }
    ensures no_memory { result ≡ Err CutFault.NoMemory → streams.new.items ≡ streams.old.items }
{
    streams[i as usize].cut(moment)
}

/// Clears a stream.
fn clear_one<A: Allocator + Copy>(stream: &mut Stream<A>) -> Result<Cleared, SessionFault>
    ensures value { result ≢ Err SessionFault.NoMemory →
        (result ≡ clear_as_session (state_clear_answer stream.old)) × (stream.new ≡ state_after_clear stream.old) }
    ensures no_memory { result ≡ Err SessionFault.NoMemory → stream.new ≡ stream.old }
    ensures memory { result ≡ Err SessionFault.NoMemory
        → ClearsPackets (clear_as_session (state_clear_answer stream.old)) }
{
    match stream.clear() {
        Ok(cleared) => Ok(cleared),
        Err(fault) => Err(clear_fault(fault)),
    }
}

/// Clears the stream of this number.
pub fn clear_at<A: Allocator + Copy>(
    streams: &mut Vec<Stream<A>, A>,
    i: u64,
) -> Result<Cleared, SessionFault>
    ensures value { result ≢ Err SessionFault.NoMemory →
        (result ≡ option_map_or (λ s. clear_as_session (state_clear_answer s)) (slice_get streams.old.items i)
        (Err SessionFault.NoStream))
        × (streams.new.items ≡ change_at i state_after_clear streams.old.items) }
    ensures no_memory { result ≡ Err SessionFault.NoMemory → streams.new.items ≡ streams.old.items }
    ensures memory { result ≡ Err SessionFault.NoMemory →
        ClearsPackets (option_map_or (λ s. clear_as_session (state_clear_answer s)) (slice_get streams.old.items i)
        (Err SessionFault.NoStream)) }
{
    let Some(stream) = streams.get_mut(i as usize) else {
        return Err(SessionFault::NoStream);
    };
    clear_one(stream)
}

/// Releases a stream's part of an archive.
fn release_one<A: Allocator + Copy>(
    stream: &mut Stream<A>,
    k: u64,
) -> Result<Released, SessionFault>
    ensures value { result ≢ Err SessionFault.NoMemory →
        (result ≡ release_as_session (state_release_answer k stream.old))
        × (stream.new ≡ state_after_release k stream.old) }
    ensures no_memory { result ≡ Err SessionFault.NoMemory → stream.new ≡ stream.old }
    ensures memory { result ≡ Err SessionFault.NoMemory
        → ReleasesPackets (release_as_session (state_release_answer k stream.old)) }
{
    match stream.release(k) {
        Ok(released) => Ok(released),
        Err(fault) => Err(release_fault(fault)),
    }
}

/// Releases the part of the stream of this number.
pub fn release_at<A: Allocator + Copy>(
    streams: &mut Vec<Stream<A>, A>,
    i: u64,
    k: u64,
) -> Result<Released, SessionFault>
    ensures value { result ≢ Err SessionFault.NoMemory →
        (result ≡ option_map_or (λ s. release_as_session (state_release_answer k s)) (slice_get streams.old.items i)
        (Err SessionFault.NoStream))
        × (streams.new.items ≡ change_at i (state_after_release k) streams.old.items) }
    ensures no_memory { result ≡ Err SessionFault.NoMemory → streams.new.items ≡ streams.old.items }
    ensures memory { result ≡ Err SessionFault.NoMemory →
        ReleasesPackets (option_map_or (λ s. release_as_session (state_release_answer k s))
        (slice_get streams.old.items i) (Err SessionFault.NoStream)) }
{
    let Some(stream) = streams.get_mut(i as usize) else {
        return Err(SessionFault::NoStream);
    };
    release_one(stream, k)
}

/// Each stream as it is at this moment.
pub fn snap_all<A: Allocator + Copy>(
    alloc: A,
    streams: &[Stream<A>],
    moment: Moment,
) -> Result<Vec<StreamSnap<A>, A>, AllocError>
    ensures { IfOk result (λ snaps. snaps.items ≡ map (state_snap moment) streams.now) }
{
    let mut snaps = Vec::with_capacity(alloc, streams.len())?;
    'streams: for stream in streams {
        snaps.push(stream.peek(moment)?)?;
    }
    Ok(snaps)
}

/// The bytes of each stream's current part, or the greatest u64 if they are more.
pub fn sizes_of<A: Allocator + Copy>(
    alloc: A,
    streams: &[Stream<A>],
) -> Result<Vec<u64, A>, AllocError>
    ensures { IfOk result (λ sizes. sizes.items ≡ map (λ s. (state_counts s).current_bytes) streams.now) }
{
    let mut sizes = Vec::with_capacity(alloc, streams.len())?;
    'streams: for stream in streams {
        sizes.push(stream.counts().current_bytes)?;
    }
    Ok(sizes)
}
