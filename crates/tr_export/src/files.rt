//! What a disk asks of a file system.

ghost use Rattle.std.specs.Prelude.{◌≡◌, [], ◌∷◌, Option, IfOk, OnOk, OnErr};
ghost use Rattle.tr_export.specs.Making.{ClosesLast, Makings, and_then_made, nothing_in};
ghost use Rattle.tr_export.specs.declared.made.Made.TheVariants.{Broken, Folder};

use tr_record::{ByteSink, Failed};

/// Makes folders and files, and counts nothing.
pub trait FileSystem {
    /// An open file.
    type File: ByteSink + Drop;

    /// The folders and files that were made so far, in order, if the type says. A file that was created is broken until it is
    /// flushed at its end.
    ghost made: { Self → Option Makings };

    /// Makes a folder, and those above it, if they don't exist.
    fn make_folder(&mut self, path: &str) -> Result<(), Failed>
        ensures ok { OnOk result (made self.new ≡ and_then_made (made self.old) (Folder path.now ∷ [])) }
        ensures err { OnErr result (made self.new ≡ made self.old) };

    /// Creates a file, or empties one that exists.
    fn create(&mut self, path: &str) -> Result<Self::File, Failed>
        ensures ok { OnOk result (made self.new ≡ and_then_made (made self.old) (Broken path.now ∷ [])) }
        ensures err { OnErr result (made self.new ≡ made self.old) }
        ensures empty { IfOk result (λ file. Self.File.taken file ≡ nothing_in (made self.old)) };

    /// Flushes the file that was created last, which has all its bytes now, and ends it.
    fn end(&mut self, file: Self::File) -> Result<(), Failed>
        ensures ok { OnOk result (ClosesLast (made self.old) (made self.new) (Self.File.taken file)) }
        ensures err { OnErr result (made self.new ≡ made self.old) };
}
