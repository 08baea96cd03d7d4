//! A runtime's file system that sees what is flushed.

use super::{assert_same, rotated, write};
use std::alloc::{Allocator, Global};
use std::cell::Cell;
use std::fs::{Metadata, OpenFile, OpenOptions};
use std::io::{self, Read, Seek, SeekFrom, Write};
use std::process::Abort;
use std::rc::Rc;
use std::rt::Files;
use tr_export::{ExportFault, HostFiles, SystemDisk};

/// How many files were opened, how many flushes there were, and how many flushes and writes after a file's first flush.
/// `room` flushes succeed.
#[derive(Drop)]
struct Seen {
    opened: Cell<u64>,
    flushed: Cell<u64>,
    late: Cell<u64>,
    room: u64,
}

impl Seen {
    fn new(room: u64) -> Self {
        Seen {
            opened: Cell::new(0),
            flushed: Cell::new(0),
            late: Cell::new(0),
            room,
        }
    }

    fn counts(&self) -> (u64, u64, u64) {
        (self.opened.get(), self.flushed.get(), self.late.get())
    }
}

fn count_one(counter: &Cell<u64>) {
    counter.set(counter.get().wrapping_add(1));
}

fn unsupported() -> io::Error {
    io::Error::from(io::ErrorKind::Unsupported)
}

/// A file that takes all bytes.
#[derive(Drop)]
struct SeenFile {
    seen: Rc<Seen>,
    flushed: bool,
}

impl Read for SeenFile {
    fn read(&mut self, _buf: &mut [u8]) -> io::Result<usize> {
        Err(unsupported())
    }
}

impl Write for SeenFile {
    fn write(&mut self, buf: &[u8]) -> io::Result<usize> {
        if self.flushed {
            count_one(&self.seen.late);
        }
        Ok(buf.len())
    }

    fn flush(&mut self) -> io::Result<()> {
        if self.flushed {
            count_one(&self.seen.late);
        }
        self.flushed = true;
        if self.seen.flushed.get() == self.seen.room {
            return Err(io::Error::from(io::ErrorKind::StorageFull));
        }
        count_one(&self.seen.flushed);
        Ok(())
    }
}

impl Seek for SeenFile {
    fn seek(&mut self, _to: SeekFrom) -> io::Result<u64> {
        Err(unsupported())
    }
}

impl OpenFile for SeenFile {
    fn metadata(&self) -> io::Result<Metadata> {
        Err(unsupported())
    }

    fn set_len(&self, _size: u64) -> io::Result<()> {
        Err(unsupported())
    }

    fn sync_all(&self) -> io::Result<()> {
        Ok(())
    }

    fn sync_data(&self) -> io::Result<()> {
        Ok(())
    }
}

/// Opens files that it sees.
#[derive(Drop)]
struct SeenFiles {
    seen: Rc<Seen>,
}

impl Files for SeenFiles {
    type File = SeenFile;

    type Dir = SeenFile;

    fn open_file(&self, _how: &OpenOptions, _path: &str) -> io::Result<SeenFile> {
        count_one(&self.seen.opened);
        Ok(SeenFile {
            seen: self.seen.clone()?,
            flushed: false,
        })
    }

    fn open_dir(&self, _path: &str) -> io::Result<SeenFile> {
        Err(unsupported())
    }

    fn metadata(&self, _path: &str) -> io::Result<Metadata> {
        Err(unsupported())
    }

    fn symlink_metadata(&self, _path: &str) -> io::Result<Metadata> {
        Err(unsupported())
    }

    fn copy(&self, _from: &str, _to: &str) -> io::Result<u64> {
        Err(unsupported())
    }

    fn rename(&self, _from: &str, _to: &str) -> io::Result<()> {
        Err(unsupported())
    }

    fn remove_file(&self, _path: &str) -> io::Result<()> {
        Err(unsupported())
    }

    fn create_dir(&self, _path: &str) -> io::Result<()> {
        Ok(())
    }

    fn remove_dir(&self, _path: &str) -> io::Result<()> {
        Err(unsupported())
    }

    fn remove_dir_all<B: Allocator>(&self, _alloc: B, _path: &str) -> io::Result<()> {
        Err(unsupported())
    }
}

/// Writes the archive of one stream to files of which `room` can be flushed. Asserts the answer, how often the disk
/// failed, and what was seen.
fn assert_seen(
    rt: &impl Abort,
    alloc: Global,
    room: u64,
    (answer, failures): (Result<(), ExportFault>, u64),
    counts: (u64, u64, u64),
) {
    let seen = Rc::new(alloc, Seen::new(room)).expect(rt, "memory");
    let host = SeenFiles { seen };
    let mut disk = SystemDisk::new(HostFiles::new(&host));
    let found = write(rt, alloc, &mut disk, "d", &rotated(rt, alloc));
    assert_same(
        rt,
        (room, found, disk.failures(), host.seen.counts()),
        (room, answer, Some(failures), counts),
    );
}

// the stream's file and the metadata
#[test]
fn each_file_is_flushed_once_and_a_last_flush_that_fails_is_told(rt: HostRuntime) {
    assert_seen(&rt, rt.alloc(), 9, (Ok(()), 0), (2, 2, 0));
    let told = (Err(ExportFault::Write), 1);
    assert_seen(&rt, rt.alloc(), 1, told, (2, 1, 0));
}
