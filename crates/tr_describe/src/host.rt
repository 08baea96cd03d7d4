//! The runtime's file system.

ghost use Rattle.std.specs.Prelude.{◌≡◌};

use crate::texts::Texts;
use std::alloc::{AllocError, Global};
use std::fs::OpenFile;
use std::io::Write;
use std::rt::Files;
use std::{fs, io};
use tr_record::Failed;

/// The file system that the runtime reaches. Contracts know nothing of what was put. A text is written to `.NAME.part` beside
/// the file NAME, and takes its place once it is on the disk; if a step fails, the part is removed.
#[derive(Drop)]
pub struct HostTexts<'a, R: Files> {
    alloc: Global,
    files: &'a R,
    failures: u64,
}

impl<'a, R: Files> HostTexts<'a, R> {
    /// The file system that the runtime reaches.
    pub fn new(alloc: Global, files: &'a R) -> Self
        ensures { ⟦<HostTexts<'a, R> as Texts>⟧.failures result ≡ 0 }
    {
        HostTexts {
            alloc,
            files,
            failures: 0,
        }
    }
}

/// The path of the part beside a file.
fn part_path(alloc: Global, path: &str) -> Result<String, AllocError> {
    match path.rsplit_once('/') {
        Some((folder, name)) => format!(in alloc; "{folder}/.{name}.part"),
        None => format!(in alloc; ".{path}.part"),
    }
}

/// Writes a file, up to the disk.
fn write_file<R: Files>(files: &R, path: &str, text: &str) -> io::Result<()> {
    let mut file = fs::create(files, path)?;
    file.write_all(text.as_bytes())?;
    file.flush()?;
    file.sync_all()
}

/// Writes a part, and puts it in place of a file.
fn put_part<R: Files>(files: &R, part: &str, path: &str, text: &str) -> io::Result<()> {
    write_file(files, part, text)?;
    fs::rename(files, part, path)
}

/// Puts a text in place of a file.
fn put_file<R: Files>(alloc: Global, files: &R, path: &str, text: &str) -> Result<(), Failed> {
    let Ok(part) = part_path(alloc, path) else {
        return Err(Failed);
    };
    if put_part(files, part.as_str(), path, text).is_ok() {
        return Ok(());
    }
    // The part may not be there.
    let _ = fs::remove_file(files, part.as_str());
    Err(Failed)
}

impl<R: Files> Texts for HostTexts<'_, R> {
    ghost use Rattle.std.specs.Prelude.{None};

    ghost written = { λ _. None };

    ghost failures = { λ s. s.failures };

    fn put(&mut self, path: &str, text: &str) -> Result<(), Failed> {
        match put_file(self.alloc, self.files, path, text) {
            Ok(()) => Ok(()),
            Err(failed) => {
                self.failures = self.failures.wrapping_add(1);
                Err(failed)
            }
        }
    }
}
