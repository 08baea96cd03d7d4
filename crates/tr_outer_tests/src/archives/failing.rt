//! A disk that fails, at each of its calls and at each byte.

ghost use Rattle.std.specs.Prelude.{◌≡◌, OnOk, OnErr, option_map};
ghost use Rattle.tr_record.specs.Bytes.{once_more};

use super::{assert_same, rotated, write};
use std::alloc::Global;
use std::mem;
use std::process::Abort;
use tr_export::{Disk, ExportFault};
use tr_record::{ByteSink, Failed};
use tr_session::Session;

/// A file that takes `room` more bytes, and then fails.
#[derive(Drop)]
pub(super) struct ShortFile {
    room: usize,
    failures: u64,
}

impl ByteSink for ShortFile {
    ghost use Rattle.std.specs.Prelude.{None};

    ghost taken = { λ _. None };

    ghost failures = { λ s. s.failures };

    fn put(&mut self, b: &[u8]) -> Result<usize, Failed> {
        let count = b.len().min(self.room);
        if count == 0 {
            self.failures = self.failures.wrapping_add(1);
            return Err(Failed);
        }
        self.room -= count;
        Ok(count)
    }
}

/// Fails after `calls` calls. Its first file has room for `first` bytes, and each later one for `later`.
#[derive(Drop)]
pub(super) struct FailingDisk {
    calls: usize,
    first: usize,
    later: usize,
    failures: Option<u64>,
}

impl FailingDisk {
    pub(super) fn new(calls: usize, first: usize, later: usize) -> Self {
        FailingDisk {
            calls,
            first,
            later,
            failures: Some(0),
        }
    }

    pub(super) fn failures(&self) -> Option<u64> {
        self.failures
    }

    /// Counts one call, which fails if it is one too many.
    fn spend(&mut self) -> Result<(), Failed>
        ensures ok { OnOk result (self.new.failures ≡ self.old.failures) }
        ensures err { OnErr result (self.new.failures ≡ option_map once_more self.old.failures) }
    {
        if self.calls == 0 {
            self.failures = match self.failures {
                Some(count) => Some(count.wrapping_add(1)),
                None => None,
            };
            return Err(Failed);
        }
        self.calls -= 1;
        Ok(())
    }
}

impl Disk for FailingDisk {
    ghost use Rattle.std.specs.Prelude.{None};

    type File = ShortFile;

    ghost made = { λ _. None };

    ghost failures = { λ s. s.failures };

    fn make_folder(&mut self, _path: &str) -> Result<(), Failed> {
        self.spend()
    }

    fn open_file(&mut self, _path: &str) -> Result<ShortFile, Failed> {
        self.spend()?;
        let room = mem::replace(&mut self.first, self.later);
        let failures = self.failures.take().unwrap_or(0);
        Ok(ShortFile { room, failures })
    }

    fn close_file(&mut self, file: ShortFile) -> Result<(), Failed> {
        self.failures = Some(file.failures);
        self.spend()
    }

    fn give_up(&mut self, file: ShortFile) {
        self.failures = Some(file.failures);
    }
}

/// Writes the archive of one stream to a disk that fails so. Asserts the answer, and how often the disk failed.
fn assert_told(
    rt: &impl Abort,
    alloc: Global,
    session: &Session,
    (calls, first, later): (usize, usize, usize),
    fails: bool,
) {
    let mut disk = FailingDisk::new(calls, first, later);
    let wanted = if fails {
        Err(ExportFault::Write)
    } else {
        Ok(())
    };
    let answer = write(rt, alloc, &mut disk, "d", session);
    assert_same(
        rt,
        (calls, first, later, answer, disk.failures),
        (calls, first, later, wanted, Some(u64::from(fails))),
    );
}

/// After how many calls the disk fails, how many bytes its first file has room for and each later one, and whether that is
/// reported. There are five calls: a folder, and the beginning and the end of two files. The stream's file has 484 bytes, and
/// the metadata, which comes last, 1,082.
static FAILURES: [(usize, usize, usize, bool); 13] = [
    (0, 4096, 4096, true),
    (1, 4096, 4096, true),
    (2, 4096, 4096, true),
    (3, 4096, 4096, true),
    (4, 4096, 4096, true),
    (5, 4096, 4096, false),
    (6, 4096, 4096, false),
    // files that are cut short
    (9, 0, 4096, true),
    (9, 228, 4096, true),
    (9, 483, 4096, true),
    (9, 4096, 0, true),
    (9, 4096, 1081, true),
    (9, 484, 1082, false),
];

#[test]
fn each_failed_call_and_each_file_cut_short_is_told(rt: HostRuntime) {
    let session = rotated(&rt, rt.alloc());
    for (calls, first, later, fails) in &FAILURES {
        let sizes = (*calls, *first, *later);
        assert_told(&rt, rt.alloc(), &session, sizes, *fails);
    }
    drop(session);
}
