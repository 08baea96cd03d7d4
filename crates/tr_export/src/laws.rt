//! A law about what is written.

ghost use Rattle.std.specs.Prelude.{◌≡◌, ◌<◌, ℕ, List, Some, length, slice_get};
ghost use Rattle.tr_export.specs.Archives.{IsOneFile, stream_file};
ghost use Rattle.tr_session_book.specs.declared.archive.Archive as value;

use std::alloc::Allocator;
use tr_session::Session;

/// In the folder of each archive of a session that gets one, each stream has one file. Does nothing.
pub fn every_stream_has_its_file<A: Allocator>(session: &Session<A>, i: u64)
    ensures { (folder : List ℕ) (k : ℕ) (archive : value.Archive)
        → slice_get session.now.book.archives k ≡ Some archive
        → i < length session.now.streams → IsOneFile (stream_file folder archive.id session.now i) }
{
    let _ = session.book().archives();
    let Some(_) = session.stream(i) else {
        return;
    };
}
