//! Clears of a whole session.

ghost use Rattle.std.specs.Prelude.{◌≡◌, ◌≢◌, Ok, Err, IfOk, IfErr, OnErr, IsOk, length, map};
ghost use Rattle.tr_session.specs.Sizes.{all_cleared};
ghost use Rattle.tr_session.specs.Steps.{clear_first, clear_first_answer, cleared_in_all, session_clear_all_answer, session_after_clear_all, IsClearedSome};
ghost use Rattle.tr_session_book.specs.BookSteps.{book_clear_answer};
ghost use Rattle.tr_stream.specs.Rules.{by_state};

use crate::session::Session;
use std::alloc::Allocator;
use tr_session_book::SessionFault;
use tr_terms::SessionMode;

impl<A: Allocator + Copy> Session<A> {
    /// Clears each stream in order of number: what its ring and its current part hold is removed. Answers with how many
    /// records that were. The book stays as it is.
    ///
    /// # Errors
    ///
    /// `SnapshotMode`, `NeverStarted`, `RotationPending`: nothing changed. `NoMemory`: the streams before one that has packets
    /// are cleared, the others are as they were, and the call can be made again: it answers the records that are left.
    pub fn clear(&mut self) -> Result<u128, SessionFault>
        ensures value { result ≢ Err SessionFault.NoMemory →
            (result ≡ session_clear_all_answer by_state self.old)
            × (self.new ≡ session_after_clear_all by_state self.old) }
        ensures no_memory { result ≡ Err SessionFault.NoMemory → IsClearedSome by_state self.old self.new }
        ensures memory { result ≡ Err SessionFault.NoMemory → IsOk (session_clear_all_answer by_state self.old) }
        ensures refused { IfErr result (λ fault. fault ≢ SessionFault.NoMemory
            → (book_clear_answer self.old.book ≡ Err fault) × (self.new ≡ self.old)) }
        ensures whole { IfOk result
            (λ records. (records ≡ cleared_in_all by_state self.old)
            × (self.new ≡ record self.old { streams = map by_state.after_clear self.old.streams })) }
    {
        match self.book().clear_allowed() {
            Ok(()) => self.clear_all(),
            Err(fault) => Err(fault),
        }
    }

    /// Clears each stream of a session that can be cleared.
    fn clear_all(&mut self) -> Result<u128, SessionFault>
        requires allowed { book_clear_answer self.old.book ≡ Ok tt }
        requires local { self.old.book.mode ≡ SessionMode.Local }
        ensures answer { IfOk result
            (λ records. clear_first_answer by_state (length self.old.streams) self.old ≡ Ok records) }
        ensures after { IfOk result (λ _. self.new ≡ clear_first by_state (length self.old.streams) self.old) }
        ensures reason { IfErr result (λ fault. fault ≡ SessionFault.NoMemory) }
        ensures some { OnErr result (IsClearedSome by_state self.old self.new) }
        ensures can { IsOk (clear_first_answer by_state (length self.old.streams) self.old) }
        ensures whole { IfOk result
            (λ records. (records ≡ cleared_in_all by_state self.old)
            × (self.new ≡ record self.old { streams = map by_state.after_clear self.old.streams })) }
    {
        let mut records = 0;
        'streams: for i in 0..self.streams() {
            match self.clear_stream(i) {
                Ok(cleared) => records += u128::from(cleared.records),
                Err(fault) => return Err(fault),
            }
        }
        Ok(records)
    }
}

impl<A: Allocator> Session<A> {
    /// How many records of all streams were cleared, by all clears.
    pub fn cleared(&self) -> u128
        ensures { result ≡ all_cleared by_state self.now }
    {
        let mut records = 0;
        'streams: for i in 0..self.streams() {
            let Some(stream) = self.stream(i) else {
                unreachable!()
            };
            records += u128::from(stream.counts().cleared);
        }
        records
    }
}
