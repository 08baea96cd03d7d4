//! Ticks of a session's schedule.

ghost use Rattle.std.specs.Prelude.{◌≡◌, ◌≢◌, true, None, Err, is_some, IfErr};
ghost use Rattle.tr_session_book.specs.BookSteps.{schedule_in_force};
ghost use Rattle.tr_session.specs.Steps.{session_tick_answer, session_after_tick, tick_cause, IsHeldUp};
ghost use Rattle.tr_stream.specs.Rules.{by_state};

use crate::session::Session;
use std::alloc::Allocator;
use tr_schedule::Cause;
use tr_session_book::{Archive, SessionFault};
use tr_terms::Moment;

/// What a tick did.
#[derive(Clone, Copy, Debug, PartialEq, Eq)]
pub enum Ticked {
    /// Nothing: no rotation was due.
    Idle,
    /// It rotated the session.
    Rotated {
        /// Why the rotation was due.
        cause: Cause,
        /// The archive that the rotation made.
        archive: Archive,
    },
}

impl<A: Allocator + Copy> Session<A> {
    /// Rotates the session if its schedule says that a rotation is due at this moment. An idle tick stores no moment.
    ///
    /// # Errors
    ///
    /// `NoMemory`: nothing changed, or a rotation was due and is pending with the cuts that were made, and `rotate_next` goes
    /// on.
    pub fn tick(&mut self, now: Moment) -> Result<Ticked, SessionFault>
        ensures value { result ≢ Err SessionFault.NoMemory →
            (result ≡ session_tick_answer by_state now self.old)
            × (self.new ≡ session_after_tick by_state now self.old) }
        ensures no_memory { result ≡ Err SessionFault.NoMemory → IsHeldUp by_state now self.old self.new }
        ensures refused { IfErr result (λ fault. fault ≡ SessionFault.NoMemory) }
        ensures idle { tick_cause by_state now self.old ≡ None → self.new ≡ self.old }
        ensures memory { result ≡ Err SessionFault.NoMemory → is_some (schedule_in_force self.old.book) ≡ true }
    {
        let Some(schedule) = self.book().schedule_in_force() else {
            return Ok(Ticked::Idle);
        };
        let Ok(sizes) = self.current_sizes() else {
            return Err(SessionFault::NoMemory);
        };
        let Some(cause) = schedule.due(self.book().begin(), now, sizes.as_slice()) else {
            return Ok(Ticked::Idle);
        };
        match self.rotate(now) {
            Ok(archive) => Ok(Ticked::Rotated { cause, archive }),
            Err(fault) => Err(fault),
        }
    }
}
