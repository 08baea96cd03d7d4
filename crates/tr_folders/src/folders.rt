//! Where folders and files are read, for code that must not know whether it is a file system.

ghost use Rattle.std.specs.Prelude.{◌≡◌, ◌+◌, ◌<◌, ◌≤◌, ℕ, Option, Some, None, IfOk, IfErr, OnOk, OnErr, false, true, length, take};
ghost use Rattle.std.specs.Option.{option_map};
ghost use Rattle.tr_folders.specs.Failures.{after_reading};
ghost use Rattle.tr_folders.specs.Tree.{File, IsBroken, Opens, Reads, Tree, by_text};
ghost use Rattle.tr_folders.specs.declared.faults.ReadFault.TheVariants.{Unreadable};
ghost use Rattle.tr_folders.specs.declared.folders.TheConstants.{MOST_BYTES};

use crate::faults::ReadFault;
use std::alloc::Global;

/// Fewer bytes than these are given in all.
pub const MOST_BYTES: u64 = 1 << 62;

/// Reads folders and files; one file at a time is open.
pub trait Folders {
    /// What is there, if the type says. Reading changes none of it.
    ghost tree: { Self → Option Tree };
    /// What the open file has still to give, if the type says. Nothing is left if no file is open.
    ghost left: { Self → Option File };
    /// How many bytes of files it gave in all. It fails before it gives 2^62.
    ghost given: { Self → ℕ };
    /// How often it failed, modulo 2^64. A failed allocation isn't counted, nor what can't be read.
    ghost failures: { Self → ℕ };

    /// The names in a folder, in any order. None if there is no folder.
    fn names_in(&mut self, alloc: Global, path: &str) -> Result<Option<Vec<String>>, ReadFault>
        ensures names { IfOk result (λ found. (t : Tree) → tree self.old ≡ Some t
            → option_map (λ names. by_text names.items) found ≡ t.names path.now) }
        ensures seen { OnOk result ((t : Tree) → tree self.old ≡ Some t → t.is_hidden path.now ≡ false) }
        ensures hidden { IfErr result (λ fault. fault ≡ Unreadable → (t : Tree) → tree self.old ≡ Some t
            → t.is_hidden path.now ≡ true) }
        ensures tree { tree self.new ≡ tree self.old }
        ensures given { given self.new ≡ given self.old }
        ensures failures { failures self.new ≡ after_reading result (failures self.old) };

    /// Opens a file for reading, in place of the one that was open. False if there is no file: then, and after a fault, nothing
    /// is said of which file is open. Where it is known what is there, each file can be opened, and one that can't be read
    /// breaks off when it is.
    fn open(&mut self, path: &str) -> Result<bool, ReadFault>
        ensures opens { IfOk result (λ is_file. (t : Tree) → tree self.old ≡ Some t
            → Opens (t.file path.now) is_file (left self.new)) }
        ensures known { IfErr result (λ fault. fault ≡ Unreadable → tree self.old ≡ None) }
        ensures tree { tree self.new ≡ tree self.old }
        ensures given { given self.new ≡ given self.old }
        ensures failures { failures self.new ≡ after_reading result (failures self.old) };

    /// Puts the next bytes of the open file at the front of the buffer, and returns how many. 0 is the end.
    fn read(&mut self, buffer: &mut [u8]) -> Result<usize, ReadFault>
        requires { 0 < length buffer.old }
        ensures count { IfOk result (λ n. n ≤ length buffer.new) }
        ensures reads { IfOk result (λ n. (file : File) → left self.old ≡ Some file
            → Reads file (take n buffer.new) (left self.new)) }
        ensures broken { IfErr result (λ fault. fault ≡ Unreadable → (file : File) → left self.old ≡ Some file
            → IsBroken file) }
        ensures tree { tree self.new ≡ tree self.old }
        ensures given { IfOk result (λ n. given self.new ≡ given self.old + n) }
        ensures none { OnErr result (given self.new ≡ given self.old) }
        ensures few { OnOk result (given self.new < MOST_BYTES) }
        ensures failures { failures self.new ≡ after_reading result (failures self.old) };
}
