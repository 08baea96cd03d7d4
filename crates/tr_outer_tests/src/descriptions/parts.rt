//! A runtime's file system that logs what is done to it.

use crate::asserting::assert_same;
use std::alloc::{Allocator, Global};
use std::cell::{Cell, RefCell};
use std::fs::{Metadata, OpenFile, OpenOptions};
use std::io::{self, Read, Seek, SeekFrom, Write};
use std::process::Abort;
use std::rc::Rc;
use std::rt::Files;
use tr_describe::{HostTexts, Texts};
use tr_record::Failed;

/// The steps so far, a line each. The step of this number fails.
#[derive(Drop)]
struct Log {
    steps: RefCell<String>,
    count: Cell<u64>,
    failing: u64,
}

fn unsupported() -> io::Error {
    io::Error::from(io::ErrorKind::Unsupported)
}

impl Log {
    /// Logs a step, and fails if it is to.
    fn step(&self, words: &[&str]) -> io::Result<()> {
        let Ok(mut steps) = self.steps.try_borrow_mut() else {
            return Err(unsupported());
        };
        for word in words {
            steps.push_str(word)?;
        }
        steps.push_str("\n")?;
        let count = self.count.get();
        self.count.set(count.wrapping_add(1));
        if count == self.failing {
            return Err(io::Error::from(io::ErrorKind::StorageFull));
        }
        Ok(())
    }
}

/// A file that takes all bytes.
#[derive(Drop)]
struct LoggedFile {
    log: Rc<Log>,
}

impl Read for LoggedFile {
    fn read(&mut self, _buf: &mut [u8]) -> io::Result<usize> {
        Err(unsupported())
    }
}

impl Write for LoggedFile {
    fn write(&mut self, buf: &[u8]) -> io::Result<usize> {
        self.log.step(&["write"])?;
        Ok(buf.len())
    }

    fn flush(&mut self) -> io::Result<()> {
        self.log.step(&["flush"])
    }
}

impl Seek for LoggedFile {
    fn seek(&mut self, _to: SeekFrom) -> io::Result<u64> {
        Err(unsupported())
    }
}

impl OpenFile for LoggedFile {
    fn metadata(&self) -> io::Result<Metadata> {
        Err(unsupported())
    }

    fn set_len(&self, _size: u64) -> io::Result<()> {
        Err(unsupported())
    }

    fn sync_all(&self) -> io::Result<()> {
        self.log.step(&["sync"])
    }

    fn sync_data(&self) -> io::Result<()> {
        Err(unsupported())
    }
}

/// Logs what is done to files.
#[derive(Drop)]
struct LoggedFiles {
    log: Rc<Log>,
}

impl Files for LoggedFiles {
    type File = LoggedFile;

    type Dir = LoggedFile;

    fn open_file(&self, _how: &OpenOptions, path: &str) -> io::Result<LoggedFile> {
        self.log.step(&["create ", path])?;
        Ok(LoggedFile {
            log: self.log.clone()?,
        })
    }

    fn open_dir(&self, _path: &str) -> io::Result<LoggedFile> {
        Err(unsupported())
    }

    fn metadata(&self, _path: &str) -> io::Result<Metadata> {
        Err(unsupported())
    }

    fn symlink_metadata(&self, _path: &str) -> io::Result<Metadata> {
        Err(unsupported())
    }

    fn copy(&self, _from: &str, _to: &str) -> io::Result<u64> {
        Err(unsupported())
    }

    fn rename(&self, from: &str, to: &str) -> io::Result<()> {
        self.log.step(&["rename ", from, " ", to])
    }

    fn remove_file(&self, path: &str) -> io::Result<()> {
        self.log.step(&["remove ", path])
    }

    fn create_dir(&self, _path: &str) -> io::Result<()> {
        Err(unsupported())
    }

    fn remove_dir(&self, _path: &str) -> io::Result<()> {
        Err(unsupported())
    }

    fn remove_dir_all<B: Allocator>(&self, _alloc: B, _path: &str) -> io::Result<()> {
        Err(unsupported())
    }
}

static STEPS: [&str; 5] = [
    "create d/.metadata.part\n",
    "write\n",
    "flush\n",
    "sync\n",
    "rename d/.metadata.part d/metadata\n",
];

/// Puts a text where the step of this number fails, and asserts the answer and the steps.
fn assert_steps(rt: &impl Abort, alloc: Global, failing: u64) {
    let log = Log {
        steps: RefCell::new(String::new(alloc)),
        count: Cell::new(0),
        failing,
    };
    let host = LoggedFiles {
        log: Rc::new(alloc, log).expect(rt, "memory"),
    };
    let answer = HostTexts::new(alloc, &host).put("d/metadata", "text");
    let mut expected = String::new(alloc);
    for line in STEPS.iter().take((failing as usize).saturating_add(1)) {
        expected.push_str(line).expect(rt, "memory");
    }
    if failing < 5 {
        expected
            .push_str("remove d/.metadata.part\n")
            .expect(rt, "memory");
        assert_same(rt, answer, Err(Failed));
    } else {
        assert_same(rt, answer, Ok(()));
    }
    let steps = host.log.steps.try_borrow().expect(rt, "no other borrow");
    assert_same(rt, steps.as_str(), expected.as_str());
}

/// A text is on the disk before it takes the file's place, and a part that can't isn't left behind.
#[test]
fn parts(rt: HostRuntime) {
    for failing in 0..6 {
        assert_steps(&rt, rt.alloc(), failing);
    }
}
