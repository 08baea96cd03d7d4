//! What is made on a disk.

/// A folder that was made, or a file that was opened, with its path and its bytes.
#[derive(Drop)]
pub enum Made<P, B> {
    /// A folder that was made.
    Folder(P),
    /// A file that was closed, and so has all its bytes.
    File(P, B),
    /// A file that was opened and isn't closed. What it had is gone, and it may have a prefix of its bytes.
    Broken(P),
}

impl<P, B> Made<P, B> {
    ghost use Rattle.std.specs.Prelude.{◌≡◌};
    ghost use Rattle.tr_export.specs.Making.{closed_with};

    /// A broken file becomes a file with these bytes. A folder or another file stays what it is.
    pub(crate) fn closed(self, bytes: B) -> Made<P, B>
    where
        B: Drop,
        ensures { result ≡ closed_with self bytes }
    {
        match self {
            Made::Broken(path) => Made::File(path, bytes),
            other => other,
        }
    }
}
