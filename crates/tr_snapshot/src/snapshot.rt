//! A snapshot of a session.

ghost use Rattle.std.specs.Prelude.{◌≡◌};
ghost use Rattle.tr_snapshot.specs.Snapshots.{snapshot_state};

use std::alloc::{Allocator, Global};
use std::marker::Model;
use tr_book::StreamSnap;
use tr_terms::Moment;

/// A snapshot of a session: its moment, and each of its streams by number. Contracts see a `SnapshotState`.
#[derive(Drop)]
pub struct Snapshot<A: Allocator = Global> {
    moment: Moment,
    streams: Vec<StreamSnap<A>, A>,
}

impl<A: Allocator> Model for Snapshot<A> {
    ghost use Rattle.tr_snapshot.specs.Snapshots.{SnapshotState, snapshot_state};

    ghost Value = { SnapshotState };

    ghost view = { λ s. snapshot_state s.moment s.streams.items };
}

impl<A: Allocator> Snapshot<A> {
    /// A snapshot of these streams at this moment. It takes no memory.
    pub fn new(moment: Moment, streams: Vec<StreamSnap<A>, A>) -> Snapshot<A>
        ensures { result ≡ snapshot_state moment streams.items }
    {
        Snapshot { moment, streams }
    }

    /// When it was taken.
    pub fn moment(&self) -> Moment
        ensures { result ≡ self.now.moment }
    {
        self.moment
    }

    /// What is shown of each stream, by the stream's number.
    pub fn streams(&self) -> &[StreamSnap<A>]
        ensures { result.now ≡ self.now.streams }
    {
        self.streams.as_slice()
    }
}
