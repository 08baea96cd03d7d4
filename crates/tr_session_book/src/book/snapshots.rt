//! Snapshots of a session, as its book sees them.

ghost use Rattle.std.specs.Prelude.{◌≡◌};
ghost use Rattle.tr_session_book.specs.BookSteps.{snapshot_allowed, book_snapshot_begin_answer, book_after_snapshot_begin, snap_allowed};

use super::SessionBook;
use crate::faults::SessionFault;
use crate::state::State;
use std::alloc::Allocator;
use tr_terms::{Moment, SessionMode};

impl<A: Allocator> SessionBook<A> {
    /// Begins a snapshot: stores its moment, or keeps the last one if that is later, and answers with what is stored. It
    /// takes no memory.
    ///
    /// # Errors
    ///
    /// `NotSnapshotMode`, `NeverStarted`: nothing changed.
    pub fn snapshot_begin(&mut self, moment: Moment) -> Result<Moment, SessionFault>
        ensures answer { result ≡ book_snapshot_begin_answer moment self.old }
        ensures after { self.new ≡ book_after_snapshot_begin moment self.old }
        ensures streams { self.new.threads ≡ self.old.threads }
        ensures mode { self.new.mode ≡ self.old.mode }
    {
        let stored = self.snapshot_moment(moment)?;
        self.last = stored;
        Ok(stored)
    }

    /// The moment that a snapshot would store if it began now.
    ///
    /// # Errors
    ///
    /// `NotSnapshotMode`, `NeverStarted`.
    pub fn snapshot_moment(&self, moment: Moment) -> Result<Moment, SessionFault>
        ensures { result ≡ book_snapshot_begin_answer moment self.now }
    {
        self.can_snapshot()?;
        Ok(moment.later(self.last))
    }

    /// Whether a snapshot can begin.
    fn can_snapshot(&self) -> Result<(), SessionFault>
        ensures { result ≡ snapshot_allowed self.now }
    {
        match self.mode {
            SessionMode::Local => return Err(SessionFault::NotSnapshotMode),
            SessionMode::Snapshot => {}
        }
        if self.state == State::New {
            return Err(SessionFault::NeverStarted);
        }
        Ok(())
    }

    /// Whether the stream of this number can be shown.
    ///
    /// # Errors
    ///
    /// `NoStream`, `NotSnapshotMode`, `NeverStarted`.
    pub fn can_snap(&self, i: u64) -> Result<(), SessionFault>
        ensures { result ≡ snap_allowed i self.now }
    {
        if i >= self.threads.len() as u64 {
            return Err(SessionFault::NoStream);
        }
        self.can_snapshot()
    }
}
