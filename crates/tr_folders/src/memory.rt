//! Folders in memory.

ghost use Rattle.std.specs.Prelude.{◌≡◌, ◌<◌, ◌≤◌, [], Some, IfOk, false, true, length};
ghost use Rattle.tr_folders.specs.Tree.{by_text};
ghost use Rattle.tr_folders.specs.declared.folders.TheConstants.{MOST_BYTES};

use crate::faults::ReadFault;
use crate::folders::{Folders, MOST_BYTES};
use std::alloc::{AllocError, Global};

/// Keeps folders and files by their paths, and which of them can't be read. It fails if an allocation fails, and before it gives
/// 2^62 bytes of files in all.
#[derive(Drop)]
pub struct MemoryFolders {
    alloc: Global,
    folders: Vec<(String, Vec<String>)>,
    files: Vec<(String, Vec<u8>)>,
    hidden: Vec<String>,
    open: Vec<u8>,
    at: usize,
    breaks: bool,
    piece: usize,
    given: u64,
    failures: u64,
    ghost few: { given < MOST_BYTES },
    ghost within: { at ≤ length open.items },
}

impl MemoryFolders {
    ghost use Rattle.tr_folders.specs.Kept.{file_of, is_among, tree_kept};

    /// Folders with the names in them, and files with their bytes, by their paths. Of several with one path the first counts.
    /// At most `piece` bytes of a file are given at a time, or one if it is 0.
    pub fn new(
        alloc: Global,
        folders: Vec<(String, Vec<String>)>,
        files: Vec<(String, Vec<u8>)>,
        piece: usize,
    ) -> Self
        ensures tree { ⟦<MemoryFolders as Folders>⟧.tree result ≡ Some (tree_kept folders.items files.items []) }
        ensures left { ⟦<MemoryFolders as Folders>⟧.left result ≡ Some (file_of [] false) }
        ensures given { ⟦<MemoryFolders as Folders>⟧.given result ≡ 0 }
        ensures failures { ⟦<MemoryFolders as Folders>⟧.failures result ≡ 0 }
    {
        MemoryFolders::with_hidden(alloc, folders, files, Vec::new(alloc), piece)
    }

    /// The same, where the folders of the paths in `hidden` can't be read, and the files of these paths break off after their
    /// bytes.
    pub fn with_hidden(
        alloc: Global,
        folders: Vec<(String, Vec<String>)>,
        files: Vec<(String, Vec<u8>)>,
        hidden: Vec<String>,
        piece: usize,
    ) -> Self
        ensures tree { ⟦<MemoryFolders as Folders>⟧.tree result ≡ Some (tree_kept folders.items files.items hidden.items) }
        ensures left { ⟦<MemoryFolders as Folders>⟧.left result ≡ Some (file_of [] false) }
        ensures given { ⟦<MemoryFolders as Folders>⟧.given result ≡ 0 }
        ensures failures { ⟦<MemoryFolders as Folders>⟧.failures result ≡ 0 }
    {
        MemoryFolders {
            alloc,
            folders,
            files,
            hidden,
            open: Vec::new(alloc),
            at: 0,
            breaks: false,
            piece,
            given: 0,
            failures: 0,
        }
    }

    /// Whether what is at this path can't be read.
    fn hides(&self, path: &str) -> bool
        ensures { result ≡ is_among self.now.hidden.items path.now }
    {
        self.hidden.iter().any(|hidden| hidden.as_str() == path)
    }
}

/// The bytes, copied.
fn bytes_of(alloc: Global, bytes: &[u8]) -> Result<Vec<u8>, AllocError>
    ensures { IfOk result (λ copy. copy.items ≡ bytes.now) }
{
    bytes.to_vec(alloc)
}

/// Whether a file that has this left can't be read any further.
fn is_broken(left: &[u8], breaks: bool) -> bool
    ensures broken { result ≡ true → (left.now ≡ []) × (breaks ≡ true) }
    ensures whole { result ≡ false → length left.now ≡ 0 → breaks ≡ false }
{
    left.is_empty() && breaks
}

/// The names, copied.
fn names_of(alloc: Global, names: &[String]) -> Result<Vec<String>, AllocError>
    ensures { IfOk result (λ copy. by_text copy.items ≡ by_text names.now) }
{
    let mut copy = Vec::new(alloc);
    for name in names {
        copy.push(String::from_str(alloc, name.as_str())?)?;
    }
    Ok(copy)
}

impl Folders for MemoryFolders {
    ghost use Rattle.std.specs.Prelude.{drop};
    ghost use Rattle.tr_folders.specs.Kept.{file_of, tree_kept};

    ghost tree = { λ s. Some (tree_kept s.folders.items s.files.items s.hidden.items) };

    ghost left = { λ s. Some (file_of (drop s.at s.open.items) s.breaks) };

    ghost given = { λ s. s.given };

    ghost failures = { λ s. s.failures };

    fn names_in(&mut self, alloc: Global, path: &str) -> Result<Option<Vec<String>>, ReadFault> {
        if self.hides(path) {
            return Err(ReadFault::Unreadable);
        }
        for (home, names) in &self.folders {
            if home.as_str() == path {
                return Ok(Some(names_of(alloc, names)?));
            }
        }
        Ok(None)
    }

    fn open(&mut self, path: &str) -> Result<bool, ReadFault> {
        let breaks = self.hides(path);
        for (home, bytes) in &self.files {
            if home.as_str() == path {
                self.open = bytes_of(self.alloc, bytes)?;
                self.at = 0;
                self.breaks = breaks;
                return Ok(true);
            }
        }
        Ok(false)
    }

    fn read(&mut self, buffer: &mut [u8]) -> Result<usize, ReadFault> {
        let left = &self.open[self.at..];
        if is_broken(left, self.breaks) {
            return Err(ReadFault::Unreadable);
        }
        let count = left.len().min(buffer.len()).min(self.piece.max(1));
        if count as u64 >= MOST_BYTES - self.given {
            self.failures = self.failures.wrapping_add(1);
            return Err(ReadFault::TooMuch);
        }
        self.given += count as u64;
        buffer[..count].copy_from_slice(&left[..count]);
        self.at += count;
        Ok(count)
    }
}
