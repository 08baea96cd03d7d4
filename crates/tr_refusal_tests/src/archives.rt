//! A session's archives, written to a disk in memory whose own requests are never refused.

use crate::turns::{MOST, assert_same};
use std::alloc::Global;
use std::process::Abort;
use tr_export::{ExportFault, Made, MemoryDisk, write_archives};
use tr_session::Session;
use tr_terms::{Mode, Name, OffsetMinutes, SessionMode};
use tr_testing::{Rationed, moment};
use uuid::Uuid;

/// Offers two streams a record of 50 bytes each, and rotates.
fn offer_and_rotate(rt: &impl Abort, session: &mut Session, at: u64) {
    for i in 0..2 {
        session
            .offer(i, moment(at), 7, &[0x61; 50])
            .expect(rt, "an offer");
    }
    session.rotate(moment(at)).expect(rt, "an archive");
}

/// A session of two streams with two archives.
fn with_archives(rt: &impl Abort, plain: Global) -> Session {
    let offset = OffsetMinutes::new(0).expect(rt, "an offset");
    let mut session = Session::new(plain, Uuid::from_u128(1), offset, SessionMode::Local);
    let name = Name::new("c").expect(rt, "a name");
    session
        .add_channel(&name, 256, 2, Mode::Discard)
        .expect(rt, "a channel");
    for _ in 0..2 {
        session.add_thread("c").expect(rt, "a thread");
    }
    session.start(moment(0)).expect(rt, "a start");
    offer_and_rotate(rt, &mut session, 10);
    offer_and_rotate(rt, &mut session, 20);
    session
}

/// Writes the archives to a disk that has memory.
fn write(
    rt: &impl Abort,
    memory: &Rationed,
    disk: &mut MemoryDisk,
    session: &Session,
) -> Result<(), ExportFault> {
    let name = Name::new("s").expect(rt, "a name");
    write_archives(memory, disk, "d", &name, session)
}

/// What was made: its path, and the bytes of a file.
fn item(made: &Made<String, Vec<u8>>) -> (&str, Option<&[u8]>) {
    match made {
        Made::File(path, bytes) => (path.as_str(), Some(bytes.as_slice())),
        Made::Folder(path) | Made::Broken(path) => (path.as_str(), None),
    }
}

/// Asserts that what was made is the first of what is made with memory, but that its last file may be broken. Whether it is.
fn assert_front(rt: &impl Abort, disk: &MemoryDisk, whole: &MemoryDisk) -> bool {
    let mut is_broken = false;
    for place in 0..disk.made().len() {
        assert_same(rt, is_broken, false);
        let made = disk.made().get(place).expect(rt, "an item");
        let (path, bytes) = item(made);
        let (wanted, all) = item(whole.made().get(place).expect(rt, "an item"));
        assert_same(rt, path, wanted);
        if let Made::Broken(_) = made {
            is_broken = true;
        } else {
            assert_same(rt, bytes, all);
        }
    }
    is_broken
}

/// Asserts that all was made that is made with memory.
fn assert_whole(rt: &impl Abort, disk: &MemoryDisk, whole: &MemoryDisk) {
    let is_broken = assert_front(rt, disk, whole);
    let (count, wanted) = (disk.made().len(), whole.made().len());
    assert_same(rt, (is_broken, count), (false, wanted));
}

/// Writes archives with so many requests granted, and once more with memory. How many items were made at first, if a request
/// was refused.
fn write_rationed(
    rt: &impl Abort,
    plain: Global,
    session: &Session,
    whole: &MemoryDisk,
    requests: usize,
) -> Option<usize> {
    let memory = Rationed::new(plain);
    let mut disk = MemoryDisk::new(plain, 7);
    memory.limit(requests as u64);
    let answer = write(rt, &memory, &mut disk, session);
    if memory.lift() == 0 {
        assert_same(rt, answer, Ok(()));
        assert_whole(rt, &disk, whole);
        return None;
    }
    assert_same(rt, answer, Err(ExportFault::NoMemory));
    assert_front(rt, &disk, whole);
    let mut again = MemoryDisk::new(plain, 7);
    assert_same(rt, write(rt, &memory, &mut again, session), Ok(()));
    assert_whole(rt, &again, whole);
    Some(disk.made().len())
}

/// Writes archives with each request refused in turn. How many these are.
fn refuse_archives(rt: &impl Abort, plain: Global, session: &Session, whole: &MemoryDisk) -> usize {
    let mut last = 0usize;
    for requests in 0..MOST {
        let Some(count) = write_rationed(rt, plain, session, whole, requests) else {
            return requests;
        };
        assert_same(rt, count >= last, true);
        last = count;
    }
    panic!(rt; "no end of refusals")
}

#[test]
fn archives_without_memory_are_written_up_to_a_file(rt: HostRuntime) {
    let session = with_archives(&rt, rt.alloc());
    let mut whole = MemoryDisk::new(rt.alloc(), 7);
    let memory = Rationed::new(rt.alloc());
    let written = write(&rt, &memory, &mut whole, &session);
    assert_same(&rt, (written, whole.made().len()), (Ok(()), 8));
    let refused = refuse_archives(&rt, rt.alloc(), &session, &whole);
    drop(whole);
    drop(session);
    assert!(rt; refused >= 20, "{refused}");
}
