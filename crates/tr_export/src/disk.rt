//! Where folders and files are made, for code that must not know whether it is a file system.

ghost use Rattle.std.specs.Prelude.{◌≡◌, ℕ, [], ◌∷◌, Option, Some, None, IfOk, OnOk, OnErr};
ghost use Rattle.tr_export.specs.Failures.{HasFailed, HasNotFailed};
ghost use Rattle.tr_export.specs.Making.{ClosesLast, Makings, and_then_made, nothing_in};
ghost use Rattle.tr_export.specs.declared.made.Made.TheVariants.{Broken, Folder};
ghost use Rattle.tr_record.specs.Bytes.{once_more};

use tr_record::{ByteSink, Failed};

/// Makes folders and files; one file at a time is open.
pub trait Disk {
    /// An open file.
    type File: ByteSink + Drop;

    /// The folders and files that were made so far, in order, if the type says. A file that was opened is broken until it is
    /// closed.
    ghost made: { Self → Option Makings };
    /// How often it and its files failed, modulo 2^64. None while a file is open, which counts on from there.
    ghost failures: { Self → Option ℕ };

    /// Makes a folder, and those above it, if they don't exist.
    fn make_folder(&mut self, path: &str) -> Result<(), Failed>
        ensures ok { OnOk result (made self.new ≡ and_then_made (made self.old) (Folder path.now ∷ [])) }
        ensures err { OnErr result (made self.new ≡ made self.old) }
        ensures no_failure { OnOk result (HasNotFailed (failures self.old) (failures self.new)) }
        ensures failed { OnErr result (HasFailed (failures self.old) (failures self.new)) };

    /// Opens a file for writing. One that exists is emptied. It is broken until it is closed.
    fn open_file(&mut self, path: &str) -> Result<Self::File, Failed>
        ensures ok { OnOk result (made self.new ≡ and_then_made (made self.old) (Broken path.now ∷ [])) }
        ensures err { OnErr result (made self.new ≡ made self.old) }
        ensures empty { IfOk result (λ file. Self.File.taken file ≡ nothing_in (made self.old)) }
        ensures counts_on { IfOk result (λ file. (n : ℕ) → failures self.old ≡ Some n → Self.File.failures file ≡ n) }
        ensures open { OnOk result (failures self.new ≡ None) }
        ensures failed { OnErr result (HasFailed (failures self.old) (failures self.new)) };

    /// Closes the file that was opened last, which has all its bytes now. If this fails, the file stays broken.
    fn close_file(&mut self, file: Self::File) -> Result<(), Failed>
        ensures ok { OnOk result (ClosesLast (made self.old) (made self.new) (Self.File.taken file)) }
        ensures err { OnErr result (made self.new ≡ made self.old) }
        ensures no_failure { OnOk result (failures self.new ≡ Some (Self.File.failures file)) }
        ensures failed { OnErr result (failures self.new ≡ Some (once_more (Self.File.failures file))) };

    /// Gives up the file that was opened last, which stays broken.
    fn give_up(&mut self, file: Self::File)
        ensures made { made self.new ≡ made self.old }
        ensures failures { failures self.new ≡ Some (Self.File.failures file) };
}
