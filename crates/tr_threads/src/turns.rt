//! Which stream a worker takes from at which turn.

ghost use Rattle.std.specs.Prelude.{◌≡◌, ◌<◌};
ghost use Rattle.tr_threads.specs.Turns.{next_stream};

/// The stream that a worker takes from after the stream of number `i`: the one that is as many above it as there are workers,
/// or else its first one again, which has its own number.
pub(crate) fn next_stream(streams: usize, workers: usize, worker: usize, i: usize) -> usize
    requires own { worker < streams }
    requires there { i < streams }
    ensures value { result ≡ next_stream streams workers worker i }
    ensures there { result < streams }
{
    if workers < streams - i {
        i + workers
    } else {
        worker
    }
}
