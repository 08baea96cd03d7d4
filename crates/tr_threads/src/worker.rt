//! What one worker does.

ghost use Rattle.std.specs.Prelude.{◌<◌};
ghost use Rattle.tr_threads.specs.Turns.{HasWorked, IsWorked};

use crate::gate::Gate;
use crate::target::Target;
use crate::turns::next_stream;
use std::sync::Wait;
use tr_terms::limits::MOST_TURNS;

/// A worker's turns: it takes from its streams in rounds, each time after the gate let it, and ends when the gate doesn't. A
/// refused take is passed over. A worker that has no stream does nothing.
pub(crate) fn work<T: Target, G: Gate, R: Wait>(
    rt: &R,
    target: &T,
    gate: &G,
    workers: usize,
    worker: usize,
    seat: T::Seat,
) -> T::Seat
    ensures { IsWorked (T.takes target.now) (G.lets gate.now) (T.stream_count target.now) workers worker seat result }
{
    let streams = target.streams();
    if worker < streams {
        make_turns(rt, target, gate, workers, worker, seat)
    } else {
        seat
    }
}

/// The turns of a worker that has a stream.
fn make_turns<T: Target, G: Gate, R: Wait>(
    rt: &R,
    target: &T,
    gate: &G,
    workers: usize,
    worker: usize,
    mut seat: T::Seat,
) -> T::Seat
    requires { worker < T.stream_count target.now }
    ensures { HasWorked (T.takes target.now) (G.lets gate.now) (T.stream_count target.now) workers worker seat result }
{
    let streams = target.streams();
    let mut i = worker;
    'turns: for turn in 0..MOST_TURNS {
        if !gate.before(worker, turn) {
            break 'turns;
        }
        let _ = target.take_at(rt, &mut seat, i);
        gate.after(worker, turn);
        i = next_stream(streams, workers, worker, i);
    }
    seat
}
