//! A stream over a list of calls.

ghost use Rattle.std.specs.Prelude.{◌≡◌, IfOk, OnErr, OnOk};
ghost use Rattle.tr_stream.specs.History.{History};
ghost use Rattle.tr_stream.specs.Runs.{MayTakeMemory, history_after_event, history_answer, history_after_events, history_answers};
ghost use Rattle.tr_stream.specs.StandsFor.{StandsFor};
ghost use Rattle.tr_stream.specs.Steps.{new_history};

use crate::answers::{ClearFault, CutFault, ReleaseFault, TakeFault};
use crate::config::StreamConfig;
use crate::events::{StreamAnswer, StreamEvent};
use crate::stream::Stream;
use std::alloc::{AllocError, Allocator};

/// One call. A failed allocation ends it and leaves the stream as it was. It ends a take or a cut that isn't refused, a
/// clear, a release or a peek that finds packets, and no other call.
fn step<A: Allocator + Copy>(
    stream: &mut Stream<A>,
    event: &StreamEvent<A>,
) -> Result<StreamAnswer<A>, AllocError>
    ensures config { stream.new.config ≡ stream.old.config }
    ensures step { (h : History) → StandsFor stream.old h → IfOk result (λ answer.
        (answer ≡ history_answer stream.old.config event.now h)
        × StandsFor stream.new (history_after_event stream.old.config event.now h)) }
    ensures err { OnErr result (stream.new ≡ stream.old) }
    ensures memory { (h : History) → StandsFor stream.old h
        → OnErr result (MayTakeMemory (history_answer stream.old.config event.now h)) }
{
    match event {
        StreamEvent::Offer(moment, id, payload) => {
            let answer = stream.offer(*moment, *id, payload.as_slice());
            Ok(StreamAnswer::Offer(answer))
        }
        StreamEvent::Take => {
            let answer = stream.take();
            if answer == Err(TakeFault::NoMemory) {
                return Err(AllocError);
            }
            Ok(StreamAnswer::Take(answer))
        }
        StreamEvent::Cut(moment) => {
            let answer = stream.cut(*moment);
            if answer == Err(CutFault::NoMemory) {
                return Err(AllocError);
            }
            Ok(StreamAnswer::Cut(answer))
        }
        StreamEvent::Clear => {
            let answer = stream.clear();
            if answer == Err(ClearFault::NoMemory) {
                return Err(AllocError);
            }
            Ok(StreamAnswer::Clear(answer))
        }
        StreamEvent::Release(k) => {
            let answer = stream.release(*k);
            if answer == Err(ReleaseFault::NoMemory) {
                return Err(AllocError);
            }
            Ok(StreamAnswer::Release(answer))
        }
        StreamEvent::Peek(moment) => {
            let snap = stream.peek(*moment)?;
            Ok(StreamAnswer::Peek(Ok(snap)))
        }
        StreamEvent::Start => {
            stream.set_active(true);
            Ok(StreamAnswer::Start)
        }
        StreamEvent::Stop => {
            stream.set_active(false);
            Ok(StreamAnswer::Stop)
        }
    }
}

/// What each call of a list answers on a new stream, one after another. A failed allocation ends the run.
fn all_steps<A: Allocator + Copy>(
    alloc: A,
    stream: &mut Stream<A>,
    events: &[StreamEvent<A>],
) -> Result<Vec<StreamAnswer<A>, A>, AllocError>
    requires { StandsFor stream.old new_history }
    ensures config { OnOk result (stream.new.config ≡ stream.old.config) }
    ensures stream { OnOk result
        (StandsFor stream.new (history_after_events stream.old.config events.now new_history)) }
    ensures answers { IfOk result (λ answers. answers.items ≡ history_answers stream.old.config events.now new_history) }
{
    let mut answers = Vec::new(alloc);
    'events: for event in events {
        answers.push(step(stream, event)?)?;
    }
    Ok(answers)
}

/// Runs a new stream over a list of calls: the stream, and what each call answered. A failed allocation ends the run.
pub fn run_stream<A: Allocator + Copy>(
    alloc: A,
    config: StreamConfig,
    events: &[StreamEvent<A>],
) -> Result<(Stream<A>, Vec<StreamAnswer<A>, A>), AllocError>
    ensures config { IfOk result (λ r. r.0.config ≡ config) }
    ensures stream { IfOk result (λ r. StandsFor r.0 (history_after_events config events.now new_history)) }
    ensures answers { IfOk result (λ r. r.1.items ≡ history_answers config events.now new_history) }
{
    let mut stream = Stream::new(
        alloc,
        config.uuid,
        config.number,
        config.geometry,
        config.mode,
        config.session,
    )?;
    let answers = all_steps(alloc, &mut stream, events)?;
    Ok((stream, answers))
}
