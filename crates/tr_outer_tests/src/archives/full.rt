//! A disk that is full when a file is to be flushed.

use super::{
    FOLDER, Item, METADATA, ONE_ARCHIVE, STREAM, assert_made, assert_same, rotated, write,
};
use std::alloc::Global;
use std::process::Abort;
use tr_export::{CountingFile, Disk, ExportFault, FileSystem, MemoryDisk, SystemDisk};
use tr_record::{Failed, MemorySink};

/// Keeps what is made. A number of files can be flushed, and then it is full.
#[derive(Drop)]
struct FullFiles {
    disk: MemoryDisk,
    room: usize,
    ends: u64,
}

impl FileSystem for FullFiles {
    type File = CountingFile<MemorySink>;

    ghost made = { λ s. ⟦<MemoryDisk<Global> as Disk>⟧.made s.disk };

    fn make_folder(&mut self, path: &str) -> Result<(), Failed> {
        self.disk.make_folder(path)
    }

    fn create(&mut self, path: &str) -> Result<CountingFile<MemorySink>, Failed> {
        self.disk.open_file(path)
    }

    fn end(&mut self, file: CountingFile<MemorySink>) -> Result<(), Failed> {
        self.ends = self.ends.wrapping_add(1);
        if self.room == 0 {
            self.disk.give_up(file);
            return Err(Failed);
        }
        self.room -= 1;
        self.disk.close_file(file)
    }
}

/// Writes the archive of one stream to a disk with room for `room` files. Asserts the answer, how often the disk failed,
/// how many files were ended, and what was made.
fn assert_left(
    rt: &impl Abort,
    alloc: Global,
    room: usize,
    answer: Result<(), ExportFault>,
    counts: (u64, u64),
    made: &[Item<'_>],
) {
    let mut disk = SystemDisk::new(FullFiles {
        disk: MemoryDisk::new(alloc, 4096),
        room,
        ends: 0,
    });
    let found = write(rt, alloc, &mut disk, "d", &rotated(rt, alloc));
    let (failures, ends) = counts;
    assert_same(
        rt,
        (room, found, disk.failures(), disk.files().ends),
        (room, answer, Some(failures), ends),
    );
    assert_made(rt, &disk.files().disk, made);
}

/// What is made if the metadata, the last file, can't be flushed, and if the stream's file can't.
static WITHOUT_METADATA: [Item<'static>; 3] = [
    ("folder", 0, FOLDER),
    ("file", 484, STREAM),
    ("broken", 0, METADATA),
];

static WITHOUT_STREAM: [Item<'static>; 2] = [("folder", 0, FOLDER), ("broken", 0, STREAM)];

#[test]
fn each_file_is_ended_once_and_nothing_follows_a_broken_file(rt: HostRuntime) {
    let alloc = rt.alloc();
    assert_left(&rt, alloc, 2, Ok(()), (0, 2), &ONE_ARCHIVE);
    let full = Err(ExportFault::Write);
    assert_left(&rt, alloc, 1, full, (1, 2), &WITHOUT_METADATA);
    assert_left(&rt, alloc, 0, full, (1, 1), &WITHOUT_STREAM);
}
