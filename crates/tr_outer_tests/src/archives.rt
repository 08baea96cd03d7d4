//! Archives in memory.

mod failing;
mod flushes;
mod full;
mod recovered;
mod recovering;

use crate::asserting::assert_same;
use std::alloc::Global;
use std::process::Abort;
use tr_export::{Disk, ExportFault, Made, MemoryDisk, write_archives};
use tr_packet::metadata_text;
use tr_session::Session;
use tr_terms::{Mode, Name, OffsetMinutes, SessionMode};
use tr_testing::moment;
use uuid::Uuid;

/// The paths in the archive of a chunk that begins at 0 and ends at 10.
const FOLDER: &str = "d/s/archives/19700101T000000+0000-19700101T000000+0000-0";

const METADATA: &str = "d/s/archives/19700101T000000+0000-19700101T000000+0000-0/metadata";

const STREAM: &str = "d/s/archives/19700101T000000+0000-19700101T000000+0000-0/c_0";

const SECOND_STREAM: &str = "d/s/archives/19700101T000000+0000-19700101T000000+0000-0/c_1";

/// The paths in the archive of the next chunk, which ends at two seconds.
const NEXT_FOLDER: &str = "d/s/archives/19700101T000000+0000-19700101T000002+0000-1";

const NEXT_METADATA: &str = "d/s/archives/19700101T000000+0000-19700101T000002+0000-1/metadata";

const NEXT_STREAM: &str = "d/s/archives/19700101T000000+0000-19700101T000002+0000-1/c_0";

const NEXT_SECOND_STREAM: &str = "d/s/archives/19700101T000000+0000-19700101T000002+0000-1/c_1";

fn uuid() -> Uuid {
    Uuid::from_u128(1)
}

/// A session with the channel c.
fn session_of(rt: &impl Abort, alloc: Global) -> Session {
    let offset = OffsetMinutes::new(0).expect(rt, "an offset");
    let mut session = Session::new(alloc, uuid(), offset, SessionMode::Local);
    let name = Name::new("c").expect(rt, "a name");
    session
        .add_channel(&name, 256, 2, Mode::Discard)
        .expect(rt, "a channel");
    session
}

/// A session with `threads` threads of the channel, started at moment 0.
fn started(rt: &impl Abort, alloc: Global, threads: u64) -> Session {
    let mut session = session_of(rt, alloc);
    for _ in 0..threads {
        session.add_thread("c").expect(rt, "a thread");
    }
    session.start(moment(0)).expect(rt, "a start");
    session
}

/// Offers stream 0 five payloads of 50 bytes and one of 4, from 1 to 6. The fifth is discarded.
fn offer_six(rt: &impl Abort, session: &mut Session) {
    let payload = [0x61; 50];
    for (at, len) in [(1, 50), (2, 50), (3, 50), (4, 50), (5, 50), (6, 4)] {
        let bytes = payload.get(..len).expect(rt, "a payload");
        session
            .offer(0, moment(at), 7, bytes)
            .expect(rt, "an offer");
    }
}

fn rotate(rt: &impl Abort, session: &mut Session, at: u64) {
    session.rotate(moment(at)).expect(rt, "a rotation");
}

/// One stream, whose first packet was taken before the rotation at 10.
fn rotated(rt: &impl Abort, alloc: Global) -> Session {
    let mut session = started(rt, alloc, 1);
    offer_six(rt, &mut session);
    session.take(0).expect(rt, "a packet");
    rotate(rt, &mut session, 10);
    session
}

/// Writes the archives of a session under the name s.
fn write<D: Disk>(
    rt: &impl Abort,
    alloc: Global,
    disk: &mut D,
    dir: &str,
    session: &Session,
) -> Result<(), ExportFault> {
    let name = Name::new("s").expect(rt, "a name");
    write_archives(alloc, disk, dir, &name, session)
}

/// Asserts that they are written.
fn assert_written<D: Disk>(
    rt: &impl Abort,
    alloc: Global,
    disk: &mut D,
    dir: &str,
    session: &Session,
) {
    let answer = write(rt, alloc, disk, dir, session);
    assert_same(rt, answer, Ok(()));
}

/// The disk on which the archives of a session were written.
fn written(rt: &impl Abort, alloc: Global, piece: usize, session: &Session) -> MemoryDisk {
    let mut disk = MemoryDisk::new(alloc, piece);
    assert_written(rt, alloc, &mut disk, "d", session);
    disk
}

/// What was made: its kind, how many bytes it has, and its path.
type Item<'a> = (&'a str, usize, &'a str);

/// All that is made of `rotated`.
static ONE_ARCHIVE: [Item<'static>; 3] = [
    ("folder", 0, FOLDER),
    ("file", 484, STREAM),
    ("file", 1082, METADATA),
];

/// What was made at this place.
fn item_at(disk: &MemoryDisk, place: usize) -> Item<'_> {
    match disk.made().get(place) {
        Some(Made::Folder(path)) => ("folder", 0, path.as_str()),
        Some(Made::File(path, bytes)) => ("file", bytes.len(), path.as_str()),
        Some(Made::Broken(path)) => ("broken", 0, path.as_str()),
        None => ("nothing", 0, ""),
    }
}

/// Asserts all that was made on a disk, in order.
fn assert_made(rt: &impl Abort, disk: &MemoryDisk, wanted: &[Item<'_>]) {
    assert_same(rt, disk.made().len(), wanted.len());
    for place in 0..wanted.len() {
        let found = item_at(disk, place);
        assert_same(rt, (place, found), (place, wanted[place]));
    }
}

/// The bytes of the file that was made at this place, none if there is none.
fn bytes_at(disk: &MemoryDisk, place: usize) -> &[u8] {
    match disk.made().get(place) {
        Some(Made::File(_, bytes)) => bytes.as_slice(),
        _ => &[],
    }
}

/// Asserts that a packet of this number begins at this place, and says that as many records were discarded.
fn assert_packet(rt: &impl Abort, bytes: &[u8], at: usize, number: u8) {
    let packet = bytes.get(at..).expect(rt, "a packet");
    assert_same(rt, packet.get(..4), Some(b"\xC1\x1F\xFC\xC1".as_slice()));
    assert_same(
        rt,
        (packet.get(64).copied(), packet.get(72).copied()),
        (Some(number), Some(number)),
    );
}

// the packets are of 228 and of 256 bytes; numbers are at 64, and what was discarded at 72
#[test]
fn an_archive_is_a_folder_with_its_files(rt: HostRuntime) {
    let session = rotated(&rt, rt.alloc());
    let text = metadata_text(rt.alloc(), &uuid()).expect(&rt, "memory");
    for piece in [7, 4096] {
        let disk = written(&rt, rt.alloc(), piece, &session);
        assert_made(&rt, &disk, &ONE_ARCHIVE);
        assert_packet(&rt, bytes_at(&disk, 1), 0, 0);
        assert_packet(&rt, bytes_at(&disk, 1), 228, 1);
        assert_same(&rt, bytes_at(&disk, 2), text.as_bytes());
    }
    drop(session);
}

/// Two archives of two streams.
static TWO_ARCHIVES: [Item<'static>; 8] = [
    ("folder", 0, FOLDER),
    ("file", 0, STREAM),
    ("file", 0, SECOND_STREAM),
    ("file", 1082, METADATA),
    ("folder", 0, NEXT_FOLDER),
    ("file", 0, NEXT_STREAM),
    ("file", 104, NEXT_SECOND_STREAM),
    ("file", 1082, NEXT_METADATA),
];

// the second chunk has a record of stream 1 alone, and stream 0 has a file without bytes there
#[test]
fn each_archive_has_its_own_part(rt: HostRuntime) {
    let mut session = started(&rt, rt.alloc(), 2);
    rotate(&rt, &mut session, 10);
    session.offer(1, moment(11), 7, b"").expect(&rt, "an offer");
    rotate(&rt, &mut session, 2_000_000_000);
    let disk = written(&rt, rt.alloc(), 4096, &session);
    assert_made(&rt, &disk, &TWO_ARCHIVES);
    drop(session);
}

/// Begins a rotation at 10 and cuts stream 0.
fn cut_one(rt: &impl Abort, session: &mut Session) {
    session.rotate_begin(moment(10)).expect(rt, "a rotation");
    session.cut(0).expect(rt, "a cut");
}

#[test]
fn what_is_no_archive_is_not_written(rt: HostRuntime) {
    let mut session = started(&rt, rt.alloc(), 1);
    offer_six(&rt, &mut session);
    let mut disk = written(&rt, rt.alloc(), 4096, &session);
    assert_made(&rt, &disk, &[]);
    cut_one(&rt, &mut session);
    assert_written(&rt, rt.alloc(), &mut disk, "d", &session);
    assert_made(&rt, &disk, &[]);
    drop(session);
}

#[test]
fn without_streams_there_is_the_metadata_alone(rt: HostRuntime) {
    let mut session = started(&rt, rt.alloc(), 0);
    rotate(&rt, &mut session, 10);
    let disk = written(&rt, rt.alloc(), 4096, &session);
    let wanted = [("folder", 0, FOLDER), ("file", 1082, METADATA)];
    assert_made(&rt, &disk, &wanted);
    drop(session);
}
