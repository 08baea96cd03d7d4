//! Where texts are put, for code that must not know whether it is a file system.

ghost use Rattle.std.specs.Prelude.{◌≡◌, ℕ, [], ◌∷◌, List, Option, OnOk, OnErr};
ghost use Rattle.tr_describe.specs.Failures.{puts_after};
ghost use Rattle.tr_describe.specs.Put.{Text, and_then_put, text_at};

use tr_record::Failed;

/// Puts texts in place of files.
pub trait Texts {
    /// The texts that were put so far, in order, if the type says.
    ghost written: { Self → Option (List Text) };
    /// How often it failed, modulo 2^64.
    ghost failures: { Self → ℕ };

    /// The file at this path has this text now; if this fails, it has what it had. Never has it a part of either.
    fn put(&mut self, path: &str, text: &str) -> Result<(), Failed>
        ensures ok { OnOk result (written self.new ≡ and_then_put (written self.old) (text_at path.now text.now ∷ [])) }
        ensures err { OnErr result (written self.new ≡ written self.old) }
        ensures failures { failures self.new ≡ puts_after result (failures self.old) };
}
