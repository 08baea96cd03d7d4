//! The schedule of a session's rotations, as its book keeps it.

ghost use Rattle.std.specs.Prelude.{◌≡◌};
ghost use Rattle.tr_session_book.specs.BookSteps.{book_schedule_answer, book_after_schedule, schedule_in_force};

use super::SessionBook;
use crate::faults::SessionFault;
use crate::state::State;
use std::alloc::Allocator;
use tr_schedule::Schedule;
use tr_terms::SessionMode;

impl<A: Allocator> SessionBook<A> {
    /// Sets when rotations are due: by this schedule, or never. It takes no memory.
    ///
    /// # Errors
    ///
    /// `SnapshotMode`: nothing changed.
    pub fn set_schedule(&mut self, schedule: Option<Schedule>) -> Result<(), SessionFault>
        ensures answer { result ≡ book_schedule_answer self.old }
        ensures after { self.new ≡ book_after_schedule schedule self.old }
        ensures streams { self.new.threads ≡ self.old.threads }
        ensures mode { self.new.mode ≡ self.old.mode }
    {
        self.can_schedule()?;
        self.schedule = schedule;
        Ok(())
    }

    /// Whether a schedule can be set.
    ///
    /// # Errors
    ///
    /// `SnapshotMode`.
    pub fn can_schedule(&self) -> Result<(), SessionFault>
        ensures { result ≡ book_schedule_answer self.now }
    {
        match self.mode {
            SessionMode::Snapshot => Err(SessionFault::SnapshotMode),
            SessionMode::Local => Ok(()),
        }
    }

    /// When rotations are due, if ever.
    pub fn schedule(&self) -> Option<Schedule>
        ensures { result ≡ self.now.schedule }
    {
        self.schedule
    }

    /// The schedule by which the session rotates now: none unless it is active and no rotation is pending.
    pub fn schedule_in_force(&self) -> Option<Schedule>
        ensures { result ≡ schedule_in_force self.now }
    {
        if self.state != State::Active || self.pending.is_some() {
            return None;
        }
        match self.mode {
            SessionMode::Local => self.schedule,
            SessionMode::Snapshot => None,
        }
    }
}
