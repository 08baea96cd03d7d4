//! A file system as a disk.

ghost use Rattle.std.specs.Prelude.{◌≡◌, Some};

use crate::counting::{CountingFile, one_more};
use crate::disk::Disk;
use crate::files::FileSystem;
use tr_record::Failed;

/// Makes folders and files in a file system, and counts how often that fails.
#[derive(Drop)]
pub struct SystemDisk<F: FileSystem + Drop> {
    files: F,
    failures: Option<u64>,
}

impl<F: FileSystem + Drop> SystemDisk<F> {
    /// A disk on this file system.
    pub fn new(files: F) -> Self
        ensures made { ⟦<SystemDisk<F> as Disk>⟧.made result ≡ F.made files }
        ensures failures { ⟦<SystemDisk<F> as Disk>⟧.failures result ≡ Some 0 }
    {
        SystemDisk {
            files,
            failures: Some(0),
        }
    }

    /// The file system below the disk.
    pub fn files(&self) -> &F
        ensures { ⟦<SystemDisk<F> as Disk>⟧.made self.now ≡ F.made result.now }
    {
        &self.files
    }

    /// How often it and its files failed, modulo 2^64. None while a file is open.
    pub fn failures(&self) -> Option<u64>
        ensures { result ≡ ⟦<SystemDisk<F> as Disk>⟧.failures self.now }
    {
        self.failures
    }
}

impl<F: FileSystem + Drop> Disk for SystemDisk<F> {
    type File = CountingFile<F::File>;

    ghost made = { λ s. F.made s.files };

    ghost failures = { λ s. s.failures };

    fn make_folder(&mut self, path: &str) -> Result<(), Failed> {
        match self.files.make_folder(path) {
            Ok(()) => Ok(()),
            Err(failed) => {
                self.failures = one_more(self.failures);
                Err(failed)
            }
        }
    }

    fn open_file(&mut self, path: &str) -> Result<CountingFile<F::File>, Failed> {
        match self.files.create(path) {
            Ok(file) => {
                let failures = self.failures.take().unwrap_or(0);
                Ok(CountingFile::new(file, failures))
            }
            Err(failed) => {
                self.failures = one_more(self.failures);
                Err(failed)
            }
        }
    }

    fn close_file(&mut self, file: CountingFile<F::File>) -> Result<(), Failed> {
        let failures = file.failures();
        match self.files.end(file.into_sink()) {
            Ok(()) => {
                self.failures = Some(failures);
                Ok(())
            }
            Err(failed) => {
                self.failures = Some(failures.wrapping_add(1));
                Err(failed)
            }
        }
    }

    fn give_up(&mut self, file: CountingFile<F::File>) {
        self.failures = Some(file.failures());
    }
}
