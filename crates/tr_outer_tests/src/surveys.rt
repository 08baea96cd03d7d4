//! Surveys of folders in memory: a worked example, and what can be wrong.

pub(crate) mod failing;
pub(crate) mod places;
pub(crate) mod room;

use crate::asserting::assert_same;
use room::{Room, STAMPS, Thing, furnished, packets, text, uuid};
use std::alloc::Global;
use std::process::Abort;
use tr_packet::metadata_text;
use tr_record::MemorySink;
use tr_survey::{Surveyed, survey};

static EXAMPLE: [Thing; 10] = [
    Thing::Session(&["1", "0"]),
    Thing::Archive("0", &["c_2", "metadata", "c_0", "c_1"]),
    Thing::Metadata("0", 1),
    Thing::Packets("0", "c_1", 1, &[]),
    Thing::Archive("1", &["c_2", "metadata", "c_0", "c_1"]),
    Thing::Metadata("1", 1),
    Thing::Packets("1", "c_1", 1, &[]),
    Thing::Packets("0", "c_0", 0, &[(1, 0, 0, &[0, 2]), (3, 0, 0, &[4, 5])]),
    Thing::Packets("1", "c_0", 0, &[(4, 0, 0, &[8, 9])]),
    Thing::Packets("1", "c_2", 2, &[(2, 0, 0, &[3])]),
];

/// The worked example: two archives, three streams, one of which is cut off in its second packet.
fn worked<'a, R: Abort>(rt: &'a R, alloc: Global) -> Room<'a, R> {
    let mut room = furnished(rt, alloc, &EXAMPLE);
    let mut cut = packets(rt, alloc, 1, 2, &[(0, 0, 0, &[0, 1]), (1, 0, 0, &[2])]);
    cut.truncate(300);
    room.file("0", "c_2", cut);
    room
}

const WORKED: &str = "\
session s uuid 00000000-0000-0000-0000-000000000001 archives 2
gap 0 0 1 before 0 0
gap 0 2 1 between 0 0 and 0 0
stream 0 c packets 3 records 6 absent 2 lost 0 last 4 9 from 0 to 0
stream 1 c packets 0 records 0 absent 0 lost 0 last none
fault 2 19700101T000000+0000-19700101T000000+0000-0 228 A1 Packet P1 Short
stream 2 c packets 2 records 3 absent 0 lost 0 last 2 3 from 0 to 0
faulty 1
";

#[test]
fn worked_example(rt: HostRuntime) {
    for piece in [1, 7, 100, 70_000] {
        worked(&rt, rt.alloc()).says(piece, WORKED, 1);
    }
}

const WORKED_BY_ARCHIVE: &str = "\
session s uuid 00000000-0000-0000-0000-000000000001 archives 2
gap 0 0 1 before 0 0
gap 0 2 1 between 0 0 and 0 0
stream 0 c packets 3 records 6 absent 2 lost 0 last 4 9 from 0 to 0
stream 1 c packets 0 records 0 absent 0 lost 0 last none
fault 2 19700101T000000+0000-19700101T000000+0000-0 228 A1 Packet P1 Short
stream 2 c packets 2 records 3 absent 0 lost 0 last 2 3 from 0 to 0
archive 0 19700101T000000+0000-19700101T000000+0000-0 packets 3 records 6 absent 2 lost 0 bytes 684
archive 1 19700101T000000+0000-19700101T000000+0000-1 packets 2 records 3 absent 0 lost 0 bytes 382
faulty 1
";

/// What each archive has, over its streams: a packet of two records has 228 bytes, one of one 154.
#[test]
fn archive_by_archive(rt: HostRuntime) {
    worked(&rt, rt.alloc()).answers(100, true, WORKED_BY_ARCHIVE, Surveyed::Faults(1));
}

static WHOLE: [Thing; 7] = [
    Thing::Session(&["9", "10"]),
    Thing::Archive("9", &["metadata", "a_b_2_0"]),
    Thing::Metadata("9", 1),
    Thing::Packets("9", "a_b_2_0", 0, &[(0, 0, 0, &[0])]),
    Thing::Archive("10", &["metadata", "a_b_2_0"]),
    Thing::Metadata("10", 1),
    Thing::Packets("10", "a_b_2_0", 0, &[(1, 0, 0, &[1])]),
];

#[test]
fn nothing_wrong(rt: HostRuntime) {
    let expected = "session s uuid 00000000-0000-0000-0000-000000000001 archives 2
deleted archives 0 9
stream 0 a_b_2 packets 2 records 2 absent 0 lost 0 last 1 1 from 0 to 0
whole
";
    furnished(&rt, rt.alloc(), &WHOLE).says(64, expected, 0);
}

/// An archive whose end has another offset than its beginning.
const WEST: &str = "19700101T000000+0000-19700101T000000-0130-7";

static ARCHIVES: [&str; 6] = [
    "19700101T000000+0000-19700101T000000+0000-07",
    "19700101T000000+0000-19700101T000000+0000-",
    "19700101T000000+0000-19700101T000000+0000-8",
    "19700101T000000*0000-19700101T000000+0000-7",
    "19700101T000000+0000-7",
    WEST,
];

static FILES: [&str; 9] = [
    "index",
    "c_",
    "_1",
    "c_01",
    "c_+1",
    "c1",
    "9c_1",
    "c_18446744073709551616",
    "c_0",
];

/// What isn't named as a session, an archive or a stream's file is passed over, and if it has a folder of archives, a line says
/// so.
#[test]
fn other_names(rt: HostRuntime) {
    let mut room = Room::new(&rt, rt.alloc());
    room.folder(
        &["d"],
        &["9s", "s.old", "t", "s", "a\n", "r", "u", "r", "9"],
    );
    room.folder(&["d/r/archives"], &["index"]);
    room.folder(&["d/9s/archives"], &[]);
    room.folder(&["d/a\n/archives"], &[]);
    room.hide(&["d/s.old/archives"]);
    room.folder(&["d/s/archives"], &ARCHIVES);
    room.folder(&["d/s/archives/", WEST], &FILES);
    let path = text(&rt, rt.alloc(), &["d/s/archives/", WEST, "/metadata"]);
    let line = "  uuid = \"00000000-0000-0000-0000-000000000001\";";
    room.add_file(path, text(&rt, rt.alloc(), &[line]).into_bytes());
    let path = text(&rt, rt.alloc(), &["d/s/archives/", WEST, "/c_0"]);
    room.add_file(path, Vec::new(rt.alloc()));
    let expected = "passed over 9s
passed over a?
session r uuid none archives 0
session s uuid 00000000-0000-0000-0000-000000000001 archives 1
deleted archives 0 7
fault 19700101T000000+0000-19700101T000000-0130-7 other metadata
stream 0 c packets 0 records 0 absent 0 lost 0 last none
passed over s.old
faulty 1
";
    room.says(64, expected, 1);
}

static METADATA: [Thing; 11] = [
    Thing::Session(&["0", "1", "2", "3"]),
    Thing::Archive("0", &["c_0"]),
    Thing::Packets("0", "c_0", 0, &[]),
    Thing::Archive("1", &["c_0"]),
    Thing::Packets("1", "c_0", 0, &[]),
    Thing::Archive("2", &["c_0"]),
    Thing::Packets("2", "c_0", 0, &[]),
    Thing::Archive("3", &["c_0"]),
    Thing::Packets("3", "c_0", 0, &[]),
    Thing::Metadata("2", 1),
    Thing::Metadata("3", 2),
];

/// Of identifiers that as many archives name, the first is the session's.
#[test]
fn metadata_at_fault(rt: HostRuntime) {
    let mut room = furnished(&rt, rt.alloc(), &METADATA);
    let other = text(&rt, rt.alloc(), &["uuid = 1;\n"]);
    room.file("1", "metadata", other.into_bytes());
    let expected = "session s uuid 00000000-0000-0000-0000-000000000001 archives 4
fault 19700101T000000+0000-19700101T000000+0000-0 unfinished
fault 19700101T000000+0000-19700101T000000+0000-1 no uuid
fault 19700101T000000+0000-19700101T000000+0000-3 another uuid
stream 0 c packets 0 records 0 absent 0 lost 0 last none
faulty 3
";
    room.says(64, expected, 3);
}

static NO_METADATA: [Thing; 3] = [
    Thing::Session(&["0"]),
    Thing::Archive("0", &["c_0"]),
    Thing::Packets("0", "c_0", 0, &[]),
];

#[test]
fn no_identifier(rt: HostRuntime) {
    let expected = "session s uuid none archives 1
fault 19700101T000000+0000-19700101T000000+0000-0 unfinished
stream 0 c packets 0 records 0 absent 0 lost 0 last none
faulty 1
";
    furnished(&rt, rt.alloc(), &NO_METADATA).says(64, expected, 1);
}

static NAMELESS: [Thing; 6] = [
    Thing::Session(&["0", "1", "2"]),
    Thing::Archive("0", &["c_0"]),
    Thing::Archive("1", &["c_0"]),
    Thing::Archive("2", &["c_0"]),
    Thing::Packets("1", "c_0", 0, &[(1, 0, 0, &[1])]),
    Thing::Packets("2", "c_0", 0, &[(2, 0, 0, &[2])]),
];

/// Without metadata the identifier is the one that most files begin with, and packets of another one are at fault.
#[test]
fn identifier_of_packets(rt: HostRuntime) {
    let mut room = furnished(&rt, rt.alloc(), &NAMELESS);
    let other = packets(&rt, rt.alloc(), 2, 0, &[(0, 0, 0, &[0])]);
    room.file("0", "c_0", other);
    let expected = "session s uuid 00000000-0000-0000-0000-000000000001 archives 3
uuid of packets
fault 19700101T000000+0000-19700101T000000+0000-0 unfinished
fault 19700101T000000+0000-19700101T000000+0000-1 unfinished
fault 19700101T000000+0000-19700101T000000+0000-2 unfinished
fault 0 19700101T000000+0000-19700101T000000+0000-0 0 A4 Foreign
stream 0 c packets 2 records 2 absent 0 lost 0 last 2 2 from 0 to 0
faulty 4
";
    room.says(64, expected, 4);
}

static AT_FAULT: [Thing; 14] = [
    Thing::Session(&["0", "1", "2"]),
    Thing::Metadata("0", 1),
    Thing::Metadata("1", 1),
    Thing::Metadata("2", 1),
    Thing::Archive("0", &["c_0", "c_1", "c_3"]),
    Thing::Archive("1", &["c_0", "c_3"]),
    Thing::Archive("2", &["c_0", "c_1", "d_2"]),
    Thing::Packets("0", "c_0", 0, &[(0, 0, 0, &[0])]),
    Thing::Packets("1", "c_0", 0, &[(1, 0, 0, &[1]), (1, 0, 0, &[2])]),
    Thing::Packets("2", "c_0", 0, &[]),
    Thing::Packets("0", "c_1", 1, &[]),
    Thing::Packets("2", "c_1", 1, &[]),
    Thing::Packets("2", "d_2", 2, &[]),
    Thing::Packets("0", "c_3", 4, &[(0, 0, 0, &[0])]),
];

/// Each file is judged, anew after a fault.
#[test]
fn streams_at_fault(rt: HostRuntime) {
    let expected = "session s uuid 00000000-0000-0000-0000-000000000001 archives 3
fault 0 19700101T000000+0000-19700101T000000+0000-1 154 A2 NumberRepeat
stream 0 c packets 2 records 2 absent 0 lost 0 last 1 1 from 0 to 0
fault 1 19700101T000000+0000-19700101T000000+0000-1 no file
stream 1 c packets 0 records 0 absent 0 lost 0 last none
fault 2 19700101T000000+0000-19700101T000000+0000-0 no file
fault 2 19700101T000000+0000-19700101T000000+0000-1 no file
stream 2 d packets 0 records 0 absent 0 lost 0 last none
fault 3 19700101T000000+0000-19700101T000000+0000-0 0 A4 Foreign
fault 3 19700101T000000+0000-19700101T000000+0000-1 no file
fault 3 19700101T000000+0000-19700101T000000+0000-2 no file
stream 3 c packets 0 records 0 absent 0 lost 0 last none
faulty 7
";
    furnished(&rt, rt.alloc(), &AT_FAULT).says(64, expected, 7);
}

static OUT_OF_ORDER: [&str; 6] = [
    "19700101T000010+0000-19700101T000020+0000-2",
    "19700101T000020+0000-19700101T000030+0000-3",
    "19700101T000020+0000-19700101T000040+0000-3",
    "19700101T000041+0000-19700101T000050+0000-4",
    "19700101T000060+0000-19700101T000070+0000-6",
    "19700101T000070+0000-19700101T000080+0000-9",
];

/// Numbers that are missing or there twice, an archive that doesn't begin when the one before it ends, and streams without a file.
#[test]
fn archives_out_of_order(rt: HostRuntime) {
    let mut room = Room::new(&rt, rt.alloc());
    room.folder(&["d"], &["s"]);
    room.folder(&["d/s/archives"], &OUT_OF_ORDER);
    for archive in &OUT_OF_ORDER {
        room.folder(&["d/s/archives/", archive], &["c_2", "c_5"]);
        for name in ["/c_2", "/c_5"] {
            let path = text(&rt, rt.alloc(), &["d/s/archives/", archive, name]);
            room.add_file(path, Vec::new(rt.alloc()));
        }
        let path = text(&rt, rt.alloc(), &["d/s/archives/", archive, "/metadata"]);
        let metadata = metadata_text(rt.alloc(), &uuid(1)).expect(&rt, "memory");
        room.add_file(path, metadata.into_bytes());
    }
    let expected = "session s uuid 00000000-0000-0000-0000-000000000001 archives 6
deleted archives 0 2
fault 19700101T000020+0000-19700101T000040+0000-3 number twice
fault 19700101T000041+0000-19700101T000050+0000-4 begins elsewhere
fault archives 5 1 missing
fault archives 7 2 missing
fault streams 0 2 missing
fault streams 3 2 missing
stream 2 c packets 0 records 0 absent 0 lost 0 last none
stream 5 c packets 0 records 0 absent 0 lost 0 last none
faulty 6
";
    room.says(64, expected, 6);
}

static DISCARDING: [Thing; 7] = [
    Thing::Session(&["0", "1"]),
    Thing::Metadata("0", 1),
    Thing::Metadata("1", 1),
    Thing::Archive("0", &["c_0"]),
    Thing::Archive("1", &["c_0"]),
    Thing::Packets("0", "c_0", 0, &[(0, 3, 5, &[0]), (1, 3, 6, &[1])]),
    Thing::Packets("1", "c_0", 0, &[(4, 7, 8, &[9]), (5, 6, 9, &[10])]),
];

/// Where records were discarded and numbers are absent, and a count of discarded records that falls.
#[test]
fn losses(rt: HostRuntime) {
    let expected = "session s uuid 00000000-0000-0000-0000-000000000001 archives 2
lost 0 3 between 0 5 and 0 5
gap 0 2 2 between 0 6 and 1 8
lost 0 4 between 0 6 and 1 8
fault 0 19700101T000000+0000-19700101T000000+0000-1 154 lost falls
stream 0 c packets 4 records 4 absent 2 lost 6 last 5 10 from 5 to 9
cleared or missing 0 2
faulty 1
";
    furnished(&rt, rt.alloc(), &DISCARDING).says(64, expected, 1);
}

/// What can't be read is reported, and the rest too.
#[test]
fn unreadable_things(rt: HostRuntime) {
    let mut room = Room::new(&rt, rt.alloc());
    room.folder(&["d"], &["s", "t"]);
    for thing in &DISCARDING {
        room.thing(thing);
    }
    room.hide(&["d/s/archives/", STAMPS, "0/metadata"]);
    room.hide(&["d/s/archives/", STAMPS, "0/c_0"]);
    room.hide(&["d/s/archives/", STAMPS, "1"]);
    room.hide(&["d/t/archives"]);
    let expected = "session s uuid 00000000-0000-0000-0000-000000000001 archives 2
uuid of packets
fault 19700101T000000+0000-19700101T000000+0000-0 unreadable
fault 19700101T000000+0000-19700101T000000+0000-1 unreadable
lost 0 3 between 0 5 and 0 5
fault 0 19700101T000000+0000-19700101T000000+0000-0 unreadable
fault 0 19700101T000000+0000-19700101T000000+0000-1 154 lost falls
stream 0 c packets 4 records 4 absent 0 lost 6 last 5 10 from 5 to 9
session t uuid none archives 0
fault archives unreadable
faulty 5
";
    room.says(64, expected, 5);
}

#[test]
fn a_root_that_cannot_be_read(rt: HostRuntime) {
    let alloc = rt.alloc();
    let mut room = furnished(&rt, alloc, &DISCARDING);
    room.hide(&["d"]);
    let mut sink = MemorySink::new(alloc, 7);
    let mut folders = room.kept(64);
    let found = survey(alloc, &mut folders, &mut sink, "d", false);
    assert_same(&rt, found, Ok(Surveyed::Unlisted));
    assert_same(&rt, sink.into_bytes().len(), 0);
}

/// A folder that is passed over is no session.
#[test]
fn passed_over_alone(rt: HostRuntime) {
    let mut room = Room::new(&rt, rt.alloc());
    room.folder(&["d"], &["9", "t"]);
    room.folder(&["d/9/archives"], &[]);
    room.answers(64, false, "passed over 9\n", Surveyed::NoSession);
}

#[test]
fn no_session(rt: HostRuntime) {
    let alloc = rt.alloc();
    for names in [None, Some("9"), Some("t")] {
        let mut room = Room::new(&rt, alloc);
        if let Some(name) = names {
            room.folder(&["d"], &[name]);
        }
        let mut sink = MemorySink::new(alloc, 7);
        let mut folders = room.kept(64);
        let found = survey(alloc, &mut folders, &mut sink, "d", false);
        assert_same(&rt, found, Ok(Surveyed::NoSession));
        assert_same(&rt, sink.into_bytes().len(), 0);
    }
}
