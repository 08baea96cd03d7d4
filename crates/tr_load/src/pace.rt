//! How fast a worker goes.

ghost use Rattle.std.specs.Prelude.{◌≡◌, IfOk, vec_len};

use std::alloc::{AllocError, Global};
use std::sync::atomic::{AtomicBool, Ordering};
use std::thread;
use std::time::{Clock, Duration};

/// How many microseconds a worker sleeps after it found nothing, twice in a row or more often.
const REST: u64 = 10;

/// What is known of one worker's rounds.
#[derive(Drop)]
pub(crate) struct Pace {
    /// Whether a packet was taken since the worker's last round began.
    took: AtomicBool,
    /// Whether the round before had none.
    is_idle: AtomicBool,
    /// Whether the feeders had ended when its last round began.
    is_last: AtomicBool,
}

impl Pace {
    /// The pace of a worker that made no round yet.
    fn new() -> Pace {
        Pace {
            took: AtomicBool::new(false),
            is_idle: AtomicBool::new(false),
            is_last: AtomicBool::new(false),
        }
    }

    /// The worker took a packet.
    pub(crate) fn note(&self) {
        self.took.store(true, Ordering::SeqCst);
    }

    /// Its next round is its last.
    pub(crate) fn end(&self) {
        self.is_last.store(true, Ordering::SeqCst);
    }

    /// Whether the round that it made was its last.
    pub(crate) fn has_ended(&self) -> bool {
        self.is_last.load(Ordering::SeqCst)
    }

    /// Waits for a while after a second round in a row in which no packet was taken. It doesn't yield after the first: where
    /// all processors are busy, a worker that yields may wait until a feeder's time is up, and that feeder fills its ring long
    /// before.
    pub(crate) fn rest(&self, clock: &impl Clock) {
        let took = self.took.swap(false, Ordering::SeqCst);
        let was_idle = self.is_idle.swap(!took, Ordering::SeqCst);
        if was_idle && !took {
            thread::sleep(clock, Duration::from_micros(REST));
        }
    }
}

/// The paces of so many workers.
pub(crate) fn paces(alloc: Global, workers: usize) -> Result<Vec<Pace>, AllocError>
    ensures { IfOk result (λ paces. vec_len paces ≡ workers) }
{
    let mut paces = Vec::with_capacity(alloc, workers)?;
    'workers: for _ in 0..workers {
        paces.push_reserved(Pace::new());
    }
    Ok(paces)
}
