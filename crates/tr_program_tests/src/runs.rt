//! Runs of the program over memory whose input, output, disk, folders, texts or arguments fail. What else runs come to is shown by
//! the program itself, in `examples`.

mod described;
mod failing;
mod unreadable;

use crate::asserting::assert_same;
use std::alloc::Global;
use std::io;
use std::test::*;
use tr_describe::MemoryTexts;
use tr_export::MemoryDisk;
use tr_folders::MemoryFolders;
use tr_load::NoProgress;
use tr_program::run_given;
use tr_record::{MemorySink, MemorySource};

/// Folders with nothing in them.
fn no_folders(alloc: Global) -> MemoryFolders {
    MemoryFolders::new(alloc, Vec::new(alloc), Vec::new(alloc), 1)
}

#[test]
fn arguments_without_memory_are_told(rt: HostRuntime) {
    let alloc: Global = rt.alloc();
    let mut out = MemorySink::new(alloc, 4096);
    let mut err = MemorySink::new(alloc, 4096);
    let mut disk = MemoryDisk::new(alloc, 4096);
    let status = run_given(
        &rt,
        alloc,
        Err(io::Error::from(io::ErrorKind::OutOfMemory)),
        &mut MemorySource::new(b"", 4096),
        &mut out,
        &mut err,
        &mut disk,
        &mut no_folders(alloc),
        &mut MemoryTexts::new(alloc, 16),
        &NoProgress,
    );
    assert_same(&rt, (status, disk.made().len()), (4, 0));
    assert_same(&rt, out.into_bytes().is_empty(), true);
    let told = err.into_bytes();
    assert_same(&rt, told.as_slice(), b"tracerd: no memory\n".as_slice());
}
