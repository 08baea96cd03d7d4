//! A disk in memory.

ghost use Rattle.std.specs.Prelude.{◌≡◌, Some, []};
ghost use Rattle.tr_export.specs.Kept.{by_text};

use crate::counting::{CountingFile, one_more};
use crate::disk::Disk;
use crate::made::Made;
use std::alloc::{Allocator, Global};
use tr_record::{Failed, MemorySink};

/// Keeps what is made, in order. It fails if an allocation fails.
#[derive(Drop)]
pub struct MemoryDisk<A: Allocator = Global> {
    alloc: A,
    made: Vec<Made<String<A>, Vec<u8, A>>, A>,
    piece: usize,
    failures: Option<u64>,
}

impl<A: Allocator + Copy> MemoryDisk<A> {
    /// A disk on which nothing is made. Its files take at most `piece` bytes at a time, or one if it is 0.
    pub fn new(alloc: A, piece: usize) -> Self
        ensures made { ⟦<MemoryDisk<A> as Disk>⟧.made result ≡ Some [] }
        ensures failures { ⟦<MemoryDisk<A> as Disk>⟧.failures result ≡ Some 0 }
    {
        MemoryDisk {
            alloc,
            made: Vec::new(alloc),
            piece,
            failures: Some(0),
        }
    }

    /// What was made, in order.
    pub fn made(&self) -> &[Made<String<A>, Vec<u8, A>>]
        ensures { ⟦<MemoryDisk<A> as Disk>⟧.made self.now ≡ Some (by_text result.now) }
    {
        self.made.as_slice()
    }
}

impl<A: Allocator + Copy> Disk for MemoryDisk<A> {
    ghost use Rattle.std.specs.Prelude.{Some};
    ghost use Rattle.tr_export.specs.Kept.{by_text};

    type File = CountingFile<MemorySink<A>>;

    ghost made = { λ s. Some (by_text s.made.items) };

    ghost failures = { λ s. s.failures };

    fn make_folder(&mut self, path: &str) -> Result<(), Failed> {
        let Ok(path) = String::from_str(self.alloc, path) else {
            self.failures = one_more(self.failures);
            return Err(Failed);
        };
        match self.made.push(Made::Folder(path)) {
            Ok(()) => Ok(()),
            Err(_) => {
                self.failures = one_more(self.failures);
                Err(Failed)
            }
        }
    }

    fn open_file(&mut self, path: &str) -> Result<CountingFile<MemorySink<A>>, Failed> {
        let Ok(path) = String::from_str(self.alloc, path) else {
            self.failures = one_more(self.failures);
            return Err(Failed);
        };
        match self.made.push(Made::Broken(path)) {
            Ok(()) => {
                let failures = self.failures.take().unwrap_or(0);
                let sink = MemorySink::new(self.alloc, self.piece);
                Ok(CountingFile::new(sink, failures))
            }
            Err(_) => {
                self.failures = one_more(self.failures);
                Err(Failed)
            }
        }
    }

    fn close_file(&mut self, file: CountingFile<MemorySink<A>>) -> Result<(), Failed> {
        let failures = file.failures();
        let bytes = file.into_sink().into_bytes();
        if let Some(last) = self.made.pop() {
            let Ok(()) = self.made.push(last.closed(bytes)) else {
                unreachable!()
            };
        }
        self.failures = Some(failures);
        Ok(())
    }

    fn give_up(&mut self, file: CountingFile<MemorySink<A>>) {
        self.failures = Some(file.failures());
    }
}
