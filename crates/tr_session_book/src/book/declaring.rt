//! The events that a session declares, as its book keeps them.

ghost use Rattle.std.specs.Prelude.{◌≡◌, ◌≢◌, Ok, Err, IfErr, IsOk, OnErr, OnOk};
ghost use Rattle.tr_events.specs.Events.{fits_declared};
ghost use Rattle.tr_session_book.specs.BookSteps.{book_declare};

use super::SessionBook;
use crate::faults::SessionFault;
use crate::state::State;
use std::alloc::Allocator;
use tr_events::Events;

impl<A: Allocator + Copy> SessionBook<A> {
    /// Declares a copy of these events, and no others: those that were declared before are gone.
    ///
    /// # Errors
    ///
    /// `AlreadyStarted`, `NoMemory`: nothing changed.
    pub fn declare<B: Allocator>(&mut self, events: &Events<B>) -> Result<(), SessionFault>
        ensures ok { OnOk result (book_declare events.now self.old ≡ Ok self.new) }
        ensures refused { IfErr result
            (λ fault. fault ≢ SessionFault.NoMemory → book_declare events.now self.old ≡ Err fault) }
        ensures memory { result ≡ Err SessionFault.NoMemory → IsOk (book_declare events.now self.old) }
        ensures streams { self.new.threads ≡ self.old.threads }
        ensures mode { self.new.mode ≡ self.old.mode }
        ensures unchanged { OnErr result (self.new ≡ self.old) }
    {
        if self.state != State::New {
            return Err(SessionFault::AlreadyStarted);
        }
        self.events = events.copy(self.alloc)?;
        Ok(())
    }
}

impl<A: Allocator> SessionBook<A> {
    /// The events that are declared.
    pub fn events(&self) -> &Events<A>
        ensures { result.now ≡ self.now.events }
    {
        &self.events
    }

    /// Whether a record of this id and payload fits as declared; one whose id isn't declared does. It takes no memory.
    #[inline(always)]
    pub fn fits(&self, id: u32, payload: &[u8]) -> bool
        ensures { result ≡ fits_declared self.now.events id payload.now }
    {
        self.events.fits(id, payload)
    }
}
