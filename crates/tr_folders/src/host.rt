//! The runtime's file system.

ghost use Rattle.std.specs.Prelude.{◌≡◌, ◌<◌, ◌≤◌, IfOk, length};
ghost use Rattle.tr_folders.specs.Failures.{read_failures};
ghost use Rattle.tr_folders.specs.declared.folders.TheConstants.{MOST_BYTES};

use crate::faults::ReadFault;
use crate::folders::{Folders, MOST_BYTES};
use std::alloc::Global;
use std::fs;
use std::io::{Error, ErrorKind, Read};
use std::rt::Files;

/// The file system that the runtime reaches. Contracts know nothing of what is there. Links are followed, and what is
/// neither a folder nor a regular file isn't there. Names that aren't UTF-8 are left out.
#[derive(Drop)]
pub struct HostFolders<'a, R: Files + Alloc + Clone + Drop> {
    files: &'a R,
    open: Option<R::File>,
    given: u64,
    failures: u64,
    ghost few: { given < MOST_BYTES },
}

impl<'a, R: Files + Alloc + Clone + Drop> HostFolders<'a, R> {
    /// The file system that the runtime reaches.
    pub fn new(files: &'a R) -> Self
        ensures given { ⟦<HostFolders<'a, R> as Folders>⟧.given result ≡ 0 }
        ensures failures { ⟦<HostFolders<'a, R> as Folders>⟧.failures result ≡ 0 }
    {
        HostFolders {
            files,
            open: None,
            given: 0,
            failures: 0,
        }
    }

    /// Counts a fault, if it is a failure.
    fn counted(&mut self, fault: ReadFault) -> ReadFault
        ensures fault { result ≡ fault }
        ensures given { ⟦<HostFolders<'a, R> as Folders>⟧.given self.new ≡ ⟦<HostFolders<'a, R> as Folders>⟧.given self.old }
        ensures failures { ⟦<HostFolders<'a, R> as Folders>⟧.failures self.new
            ≡ read_failures fault (⟦<HostFolders<'a, R> as Folders>⟧.failures self.old) }
    {
        match fault {
            ReadFault::TooMuch => self.failures = self.failures.wrapping_add(1),
            ReadFault::Unreadable | ReadFault::NoMemory => {}
        }
        fault
    }
}

/// Whether there is nothing at a path, or no folder.
fn is_absence(error: &Error) -> bool {
    matches!(error.kind(), ErrorKind::NotFound | ErrorKind::NotADirectory)
}

fn fault_of(error: &Error) -> ReadFault {
    match error.kind() {
        ErrorKind::OutOfMemory => ReadFault::NoMemory,
        _ => ReadFault::Unreadable,
    }
}

/// The names in a folder. None if there is no folder.
fn names_below<R: Files + Alloc + Clone + Drop>(
    files: &R,
    alloc: Global,
    path: &str,
) -> Result<Option<Vec<String>>, ReadFault> {
    let entries = match fs::read_dir(files, path) {
        Ok(entries) => entries,
        Err(error) if is_absence(&error) => return Ok(None),
        Err(error) => return Err(fault_of(&error)),
    };
    let mut names = Vec::new(alloc);
    for entry in entries {
        match entry {
            Ok(entry) => names.push(String::from_str(alloc, entry.file_name())?)?,
            Err(error) if error.kind() == ErrorKind::InvalidFilename => {}
            Err(error) => return Err(fault_of(&error)),
        }
    }
    Ok(Some(names))
}

/// The regular file at a path, open for reading. None if there is none.
fn file_at<R: Files>(files: &R, path: &str) -> Result<Option<R::File>, ReadFault> {
    match fs::metadata(files, path) {
        Ok(metadata) if metadata.is_file() => {}
        Ok(_) => return Ok(None),
        Err(error) if is_absence(&error) => return Ok(None),
        Err(error) => return Err(fault_of(&error)),
    }
    match fs::open(files, path) {
        Ok(file) => Ok(Some(file)),
        Err(error) => Err(fault_of(&error)),
    }
}

/// Reads the next bytes of the open file; there are none if no file is open.
fn read_from<F: Read>(open: &mut Option<F>, buffer: &mut [u8]) -> Result<usize, ReadFault>
    ensures { IfOk result (λ n. n ≤ length buffer.new) }
{
    let Some(file) = open else {
        return Ok(0);
    };
    match file.read(buffer) {
        Ok(count) => Ok(count),
        Err(error) => Err(fault_of(&error)),
    }
}

impl<R: Files + Alloc + Clone + Drop> Folders for HostFolders<'_, R> {
    ghost use Rattle.std.specs.Prelude.{None};

    ghost tree = { λ _. None };

    ghost left = { λ _. None };

    ghost given = { λ s. s.given };

    ghost failures = { λ s. s.failures };

    fn names_in(&mut self, alloc: Global, path: &str) -> Result<Option<Vec<String>>, ReadFault> {
        match names_below(self.files, alloc, path) {
            Ok(found) => Ok(found),
            Err(fault) => Err(self.counted(fault)),
        }
    }

    fn open(&mut self, path: &str) -> Result<bool, ReadFault> {
        match file_at(self.files, path) {
            Ok(found) => {
                let is_file = found.is_some();
                self.open = found;
                Ok(is_file)
            }
            Err(fault) => Err(self.counted(fault)),
        }
    }

    fn read(&mut self, buffer: &mut [u8]) -> Result<usize, ReadFault> {
        let count = match read_from(&mut self.open, buffer) {
            Ok(count) => count,
            Err(fault) => return Err(self.counted(fault)),
        };
        if count as u64 >= MOST_BYTES - self.given {
            return Err(self.counted(ReadFault::TooMuch));
        }
        self.given += count as u64;
        Ok(count)
    }
}
