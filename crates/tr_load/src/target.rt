//! What a load's workers take from.

use crate::pace::Pace;
use std::sync::Wait;
use tr_pool::Target;
use tr_shared::{Drainer, Names, Shared, Takes};
use tr_stream::{TakeFault, Taken};

/// A session, and the paces of the workers that take from it: each notes that its worker takes.
#[derive(Drop)]
pub(crate) struct Paced<'a, N: Names> {
    pub(crate) shared: &'a Shared<N>,
    pub(crate) paces: &'a [Pace],
}

impl<'a, N: Names> Paced<'a, N> {
    /// The pace of the worker whose stream this is: the stream of number `i` is that of the worker of number `i` modulo the
    /// number of workers.
    fn pace(&self, i: usize) -> Option<&Pace> {
        self.paces.get(i.checked_rem(self.paces.len())?)
    }
}

impl<'a, N: Names> Target for Paced<'a, N> {
    ghost use Rattle.std.specs.Prelude.{length};
    ghost use Rattle.tr_shared.specs.Calls.{IsTaken};

    type Seat = Drainer<N>;

    ghost stream_count = { λ _. length N.plan.books };

    ghost takes = { λ _. IsTaken };

    fn streams(&self) -> usize {
        self.shared.streams()
    }

    fn take_at<R: Wait>(
        &self,
        rt: &R,
        seat: &mut Drainer<N>,
        i: usize,
    ) -> Result<Taken, TakeFault> {
        let answer = seat.take(rt, self.shared, i);
        if answer.is_ok() {
            if let Some(pace) = self.pace(i) {
                pace.note();
            }
        }
        answer
    }
}
