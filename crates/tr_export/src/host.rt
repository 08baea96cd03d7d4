//! The runtime's file system.

use crate::files::FileSystem;
use std::fs;
use std::rt::Files;
use tr_record::{Failed, WriterSink};

/// The file system that the runtime reaches. Contracts know nothing of what it made.
#[derive(Drop)]
pub struct HostFiles<'a, R: Files> {
    files: &'a R,
}

impl<'a, R: Files> HostFiles<'a, R> {
    /// The file system that the runtime reaches.
    pub fn new(files: &'a R) -> Self {
        HostFiles { files }
    }
}

impl<R: Files> FileSystem for HostFiles<'_, R> {
    ghost use Rattle.std.specs.Prelude.{None};

    type File = WriterSink<R::File>;

    ghost made = { λ _. None };

    fn make_folder(&mut self, path: &str) -> Result<(), Failed> {
        fs::create_dir_all(self.files, path).or(Err(Failed))
    }

    fn create(&mut self, path: &str) -> Result<WriterSink<R::File>, Failed> {
        fs::create(self.files, path)
            .map(WriterSink::new)
            .or(Err(Failed))
    }

    fn end(&mut self, mut file: WriterSink<R::File>) -> Result<(), Failed> {
        file.flush()
    }
}
