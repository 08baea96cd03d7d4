//! Releases of whole archives.

ghost use Rattle.std.specs.Prelude.{◌≡◌, ◌≢◌, Ok, Err, IfErr, IsOk, map};
ghost use Rattle.tr_session.specs.Steps.{IsReleasedSome, any_part_left, session_after_release_all, session_release_all_answer};
ghost use Rattle.tr_session_book.specs.BookSteps.{book_release_answer};
ghost use Rattle.tr_stream.specs.Rules.{by_state};

use crate::session::Session;
use std::alloc::Allocator;
use tr_session_book::SessionFault;

impl<A: Allocator + Copy> Session<A> {
    /// Gives up the packets of an archive, whose files were written, say: each stream's part of it, in order of number. Parts
    /// that were released before are passed over. What became of their records is answered as before, and so is how much
    /// the archive held. The book stays as it is. It takes memory only for parts that have packets.
    ///
    /// # Errors
    ///
    /// `NoArchive`, `Released` if no stream's part is left (as in a session without streams): nothing changed. `NoMemory`: the
    /// parts before one that has packets are released, the others are as they were, and the call can be made again.
    pub fn release(&mut self, k: u64) -> Result<(), SessionFault>
        ensures value { result ≢ Err SessionFault.NoMemory →
            (result ≡ session_release_all_answer by_state k self.old)
            × (self.new ≡ session_after_release_all by_state k self.old) }
        ensures no_memory { result ≡ Err SessionFault.NoMemory → IsReleasedSome by_state k self.old self.new }
        ensures memory { result ≡ Err SessionFault.NoMemory → IsOk (session_release_all_answer by_state k self.old) }
        ensures refused { IfErr result (λ fault. fault ≢ SessionFault.NoMemory → self.new ≡ self.old) }
    {
        match self.book().release_allowed(k) {
            Ok(()) => self.release_all(k),
            Err(fault) => Err(fault),
        }
    }

    /// Gives up the packets of an archive that is there.
    fn release_all(&mut self, k: u64) -> Result<(), SessionFault>
        requires { book_release_answer k self.old.book ≡ Ok tt }
        ensures value { result ≢ Err SessionFault.NoMemory →
            (result ≡ any_part_left by_state k self.old.streams)
            × (self.new ≡ record self.old { streams = map (by_state.after_release k) self.old.streams }) }
        ensures no_memory { result ≡ Err SessionFault.NoMemory → IsReleasedSome by_state k self.old self.new }
        ensures memory { result ≡ Err SessionFault.NoMemory → IsOk (any_part_left by_state k self.old.streams) }
        ensures refused { IfErr result (λ fault. fault ≢ SessionFault.NoMemory → self.new ≡ self.old) }
    {
        let mut left = false;
        'streams: for i in 0..self.streams() {
            let answer = self.release_stream(i, k);
            if answer == Err(SessionFault::NoMemory) {
                return Err(SessionFault::NoMemory);
            }
            left |= answer.is_ok();
        }
        if left {
            Ok(())
        } else {
            Err(SessionFault::Released)
        }
    }
}
