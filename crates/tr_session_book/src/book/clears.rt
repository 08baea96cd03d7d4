//! Clears of a session, as its book sees them.

ghost use Rattle.std.specs.Prelude.{◌≡◌, OnOk};
ghost use Rattle.tr_session_book.specs.BookSteps.{book_clear_answer};

use super::SessionBook;
use crate::faults::SessionFault;
use crate::state::State;
use std::alloc::Allocator;
use tr_terms::SessionMode;

impl<A: Allocator> SessionBook<A> {
    /// Whether the session's streams can be cleared now, which changes nothing of the book. It takes no memory.
    ///
    /// # Errors
    ///
    /// `SnapshotMode`, `NeverStarted`, `RotationPending`.
    pub fn clear_allowed(&self) -> Result<(), SessionFault>
        ensures value { result ≡ book_clear_answer self.now }
        ensures local { OnOk result (self.now.mode ≡ SessionMode.Local) }
    {
        match self.mode {
            SessionMode::Snapshot => return Err(SessionFault::SnapshotMode),
            SessionMode::Local => {}
        }
        if self.state == State::New {
            return Err(SessionFault::NeverStarted);
        }
        if self.pending.is_some() {
            return Err(SessionFault::RotationPending);
        }
        Ok(())
    }
}
