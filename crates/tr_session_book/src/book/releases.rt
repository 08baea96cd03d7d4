//! Releases of archives, as a session's book sees them.

ghost use Rattle.std.specs.Prelude.{◌≡◌};
ghost use Rattle.tr_session_book.specs.BookSteps.{book_release_answer};

use super::SessionBook;
use crate::faults::SessionFault;
use std::alloc::Allocator;

impl<A: Allocator> SessionBook<A> {
    /// Whether there is an archive of this number. Then its parts can be released, whatever the session's state is, and also
    /// while a later rotation is pending. It changes nothing of the book, and takes no memory.
    ///
    /// # Errors
    ///
    /// `NoArchive`.
    pub fn release_allowed(&self, k: u64) -> Result<(), SessionFault>
        ensures { result ≡ book_release_answer k self.now }
    {
        if k < self.archives.len() as u64 {
            Ok(())
        } else {
            Err(SessionFault::NoArchive)
        }
    }
}
