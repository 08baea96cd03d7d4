//! A whole rotation of a session, and each of its cuts.

ghost use Rattle.std.specs.Prelude.{◌≡◌, ◌≢◌, Err, IsOk, IfOk, IfErr, OnOk, OnErr, length};
ghost use Rattle.tr_session_book.specs.BookSteps.{archive_ended, book_rotate_begin_answer};
ghost use Rattle.tr_session.specs.Steps.{NextTakesMemory, session_next_answer, session_after_next, session_rotate_answer, session_after_rotate, with_rotation, cut_first, IsCutSome, IsHeldUp};
ghost use Rattle.tr_stream.specs.Rules.{by_state};

use crate::faults::StepFault;
use crate::session::Session;
use std::alloc::{AllocError, Allocator};
use tr_session_book::{Archive, SessionFault};
use tr_stream::CutFault;
use tr_terms::Moment;

/// What a rotation did next.
#[derive(Clone, Copy, Debug, PartialEq, Eq)]
pub enum Next {
    /// It cut a stream.
    Cut {
        /// The number of the stream.
        stream: u64,
        /// How many records the cut moved.
        records: u64,
    },
    /// Nothing: it has cut every stream.
    AllCut,
}

impl<A: Allocator + Copy> Session<A> {
    /// Lets the pending rotation cut its next stream, if there is one.
    ///
    /// # Errors
    ///
    /// `Session(NotPending)`, `Cut(NoMemory)`: the stream is uncut, the rotation pending.
    pub fn rotate_next(&mut self) -> Result<Next, StepFault>
        ensures value { result ≢ Err (StepFault.Cut CutFault.NoMemory) →
            (result ≡ session_next_answer by_state self.old) × (self.new ≡ session_after_next by_state self.old) }
        ensures no_memory { result ≡ Err (StepFault.Cut CutFault.NoMemory) → self.new ≡ self.old }
        ensures memory { result ≡ Err (StepFault.Cut CutFault.NoMemory)
            → NextTakesMemory (session_next_answer by_state self.old) }
    {
        let Some(pending) = self.book().pending() else {
            return Err(StepFault::Session(SessionFault::NotPending));
        };
        if pending.cut >= self.book().streams() as u64 {
            return Ok(Next::AllCut);
        }
        match self.cut(pending.cut) {
            Ok(done) => Ok(Next::Cut {
                stream: pending.cut,
                records: done.records,
            }),
            Err(fault) => Err(fault),
        }
    }

    /// Rotates the session at a moment: begins a rotation, cuts each stream and ends it. Answers with the archive.
    ///
    /// # Errors
    ///
    /// `SnapshotMode`, `NeverStarted`, `RotationPending`, `AlreadyRotated`: nothing changed. `NoMemory`: nothing changed, or
    /// the rotation is pending with the cuts that were made, and `rotate_next` goes on.
    pub fn rotate(&mut self, moment: Moment) -> Result<Archive, SessionFault>
        ensures value { result ≢ Err SessionFault.NoMemory →
            (result ≡ session_rotate_answer by_state moment self.old)
            × (self.new ≡ session_after_rotate by_state moment self.old) }
        ensures no_memory { result ≡ Err SessionFault.NoMemory → IsHeldUp by_state moment self.old self.new }
        ensures memory { result ≡ Err SessionFault.NoMemory → IsOk (book_rotate_begin_answer self.old.book) }
        ensures refused { IfErr result
            (λ fault. fault ≢ SessionFault.NoMemory → book_rotate_begin_answer self.old.book ≡ Err fault) }
        ensures whole { IfOk result
            (λ archive. (archive ≡ archive_ended moment self.old.book)
            × (self.new ≡ with_rotation by_state moment self.old)) }
    {
        if let Err(fault) = self.rotate_begin(moment) {
            return Err(fault);
        }
        if self.cut_all().is_err() {
            return Err(SessionFault::NoMemory);
        }
        self.rotate_finish()
    }

    /// Cuts each stream in the rotation that has just begun.
    fn cut_all(&mut self) -> Result<(), AllocError>
        ensures ok { OnOk result (self.new ≡ cut_first by_state (length self.old.streams) self.old) }
        ensures as_many { length self.old.streams ≡ length self.old.book.threads }
        ensures err { OnErr result (IsCutSome by_state self.old self.new) }
    {
        'cuts: for i in 0..self.streams() {
            if self.cut(i) == Err(StepFault::Cut(CutFault::NoMemory)) {
                return Err(AllocError);
            }
        }
        Ok(())
    }
}
