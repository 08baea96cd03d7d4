//! Folders that can't be read: what an audit, a description and the recovery of an image come to.

ghost use Rattle.std.specs.Prelude.{◌≡◌};
ghost use Rattle.tr_folders.specs.Failures.{read_failures};

use super::assert_same;
use std::alloc::Global;
use std::sync::Wait;
use std::thread::Threads;
use std::time::Clock;
use tr_describe::MemoryTexts;
use tr_export::MemoryDisk;
use tr_folders::{Folders, ReadFault};
use tr_load::NoProgress;
use tr_program::run;
use tr_record::{MemorySink, MemorySource};

/// Folders that can't be read.
#[derive(Drop)]
struct Unreadable {
    fault: ReadFault,
    failures: u64,
}

impl Unreadable {
    fn fail(&mut self) -> ReadFault
        ensures { self.new.failures ≡ read_failures result self.old.failures }
    {
        match self.fault {
            ReadFault::TooMuch => {
                self.failures = self.failures.wrapping_add(1);
                ReadFault::TooMuch
            }
            ReadFault::Unreadable => ReadFault::Unreadable,
            ReadFault::NoMemory => ReadFault::NoMemory,
        }
    }
}

impl Folders for Unreadable {
    ghost use Rattle.std.specs.Prelude.{None};

    ghost tree = { λ _. None };

    ghost left = { λ _. None };

    ghost given = { λ _. 0 };

    ghost failures = { λ s. s.failures };

    fn names_in(&mut self, _alloc: Global, _path: &str) -> Result<Option<Vec<String>>, ReadFault> {
        Err(self.fail())
    }

    fn open(&mut self, _path: &str) -> Result<bool, ReadFault> {
        Err(self.fail())
    }

    fn read(&mut self, _buffer: &mut [u8]) -> Result<usize, ReadFault> {
        Err(self.fail())
    }
}

/// The status of a run of these words where folders fail so, whether nothing went out and no file was made, and whether this line went to
/// standard error.
fn read<R: Threads + Wait + Clock + Sync>(
    rt: &R,
    alloc: Global,
    words: &[&str],
    fault: ReadFault,
    line: &str,
) -> (u8, bool, bool) {
    let mut out = MemorySink::new(alloc, 4096);
    let mut err = MemorySink::new(alloc, 4096);
    let mut disk = MemoryDisk::new(alloc, 4096);
    let status = run(
        rt,
        alloc,
        words,
        &mut MemorySource::new(b"", 4096),
        &mut out,
        &mut err,
        &mut disk,
        &mut Unreadable { fault, failures: 0 },
        &mut MemoryTexts::new(alloc, 16),
        &NoProgress,
    );
    let untouched = disk.made().is_empty() && out.into_bytes().is_empty();
    (
        status,
        untouched,
        err.into_bytes().as_slice() == line.as_bytes(),
    )
}

#[test]
fn folders_that_cannot_be_read_are_told(rt: HostRuntime) {
    for (fault, status, line) in [
        (ReadFault::Unreadable, 3, "tracerd: read or write fault\n"),
        (ReadFault::TooMuch, 3, "tracerd: read or write fault\n"),
        (ReadFault::NoMemory, 4, "tracerd: no memory\n"),
    ] {
        let found = read(&rt, rt.alloc(), &["audit", "d"], fault, line);
        assert_same(&rt, found, (status, true, true));
        let found = read(
            &rt,
            rt.alloc(),
            &["describe", "--events", "e", "d"],
            fault,
            line,
        );
        assert_same(&rt, found, (status, true, true));
        let found = read(&rt, rt.alloc(), &["recover", "e", "d"], fault, line);
        assert_same(&rt, found, (status, true, true));
    }
}
