//! Reading the file that is open.

ghost use Rattle.std.specs.Prelude.{◌≡◌, ◌+◌, ◌<◌, ◌≤◌, Some, IfOk, IfErr, false, true, length, take};
ghost use Rattle.tr_folders.specs.Failures.{after_reading};
ghost use Rattle.tr_folders.specs.Tree.{File, ReadsOn};
ghost use Rattle.tr_folders.specs.declared.faults.ReadFault.TheVariants.{Unreadable};
ghost use Rattle.tr_folders.specs.declared.folders.TheConstants.{MOST_BYTES};

use crate::faults::ReadFault;
use crate::folders::Folders;
use std::alloc::{AllocError, Global};

/// A buffer of so many bytes, into which files are read.
pub fn buffer_of(alloc: Global, size: usize) -> Result<Vec<u8>, AllocError>
    ensures { IfOk result (λ buffer. length buffer.items ≡ size) }
{
    vec![in alloc; 0u8; size]
}

/// Reads the open file until the buffer is full or the file ends, and returns how many bytes are there.
///
/// # Errors
///
/// Those of `Folders::read`: what was read before is lost.
pub fn read_front<F: Folders>(folders: &mut F, buffer: &mut [u8]) -> Result<usize, ReadFault>
    ensures count { IfOk result (λ n. n ≤ length buffer.new) }
    ensures front { IfOk result (λ n. (file : File) → F.left folders.old ≡ Some file
        → take n buffer.new ≡ take (length buffer.old) file.bytes) }
    ensures whole { IfOk result (λ n. (file : File) → F.left folders.old ≡ Some file
        → length file.bytes < length buffer.old → file.breaks ≡ false) }
    ensures left { IfOk result (λ n. (file : File) → F.left folders.old ≡ Some file
        → ReadsOn file (take n buffer.new) (n < length buffer.new) (F.left folders.new)) }
    ensures given { IfOk result (λ n. F.given folders.new ≡ F.given folders.old + n) }
    ensures few { IfOk result (λ n. 0 < n → F.given folders.new < MOST_BYTES) }
    ensures broken { IfErr result (λ fault. fault ≡ Unreadable → (file : File) → F.left folders.old ≡ Some file
        → (length file.bytes < length buffer.old) × (file.breaks ≡ true)) }
    ensures len { length buffer.new ≡ length buffer.old }
    ensures tree { F.tree folders.new ≡ F.tree folders.old }
    ensures failures { F.failures folders.new ≡ after_reading result (F.failures folders.old) }
{
    let mut at = 0;
    while at < buffer.len() {
        match folders.read(&mut buffer[at..])? {
            0 => break,
            count => at += count,
        }
    }
    Ok(at)
}
