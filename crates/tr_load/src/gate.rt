//! What lets a load's workers take.

ghost use Rattle.std.specs.Prelude.{◌≡◌, ◌≤◌};
ghost use Rattle.tr_load.specs.Rounds.{round_of};

use crate::pace::Pace;
use std::sync::atomic::{AtomicUsize, Ordering};
use std::time::Clock;
use tr_pool::Gate;

/// How many streams a worker has, if it has any: each of its rounds has as many turns.
pub(crate) fn round_of(streams: usize, workers: usize, worker: usize) -> u64
    requires { 1 ≤ workers }
    ensures { result ≡ round_of streams workers worker }
{
    let above = streams.saturating_sub(worker).saturating_sub(1);
    (above / workers) as u64 + 1
}

/// Lets workers go on in whole rounds, until each has made one more since the feeders ended.
#[derive(Drop)]
pub(crate) struct Rounds<'a, R: Clock> {
    pub(crate) clock: &'a R,
    pub(crate) streams: usize,
    pub(crate) paces: &'a [Pace],
    /// How many feeders are still at work.
    pub(crate) left: &'a AtomicUsize,
}

impl<'a, R: Clock> Gate for Rounds<'a, R> {
    ghost use Rattle.std.specs.Prelude.{length};
    ghost use Rattle.tr_load.specs.Rounds.{IsLet};

    ghost lets = { λ g worker turn answer. IsLet g.streams (length g.paces.now) worker turn answer };

    fn before(&self, worker: usize, turn: u64) -> bool {
        let Some(pace) = self.paces.get(worker) else {
            return true;
        };
        let round = round_of(self.streams, self.paces.len(), worker);
        if turn % round != 0 {
            return true;
        }
        if turn > 0 {
            if pace.has_ended() {
                return false;
            }
            pace.rest(self.clock);
        }
        if self.left.load(Ordering::SeqCst) == 0 {
            pace.end();
        }
        true
    }

    fn after(&self, _worker: usize, _turn: u64) {}
}
