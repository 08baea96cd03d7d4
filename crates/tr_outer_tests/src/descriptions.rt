//! Archives in folders in memory that get the metadata of declared events, and what can be wrong with them.

mod failing;
mod parts;

use crate::asserting::assert_same;
use crate::surveys::room::{Room, STAMPS, Thing, furnished, text, uuid};
use std::alloc::Global;
use std::process::Abort;
use tr_describe::{DescribeFault, Described, MemoryTexts, Wrong, describe};
use tr_events::Events;
use tr_metadata::metadata_text;
use tr_packet::{Head, Packet, encode_packet};
use tr_record::Rec;
use tr_terms::Moment;

/// An event of the records that `room` writes, 50 bytes of id 7, and one of a number of 16 bits.
fn declared(rt: &impl Abort, alloc: Global) -> Events {
    Events::parse(alloc, b"bytes 7 value:u8[50]\ncount 9 value:u16").expect(rt, "events")
}

/// The bytes of a packet of a trace and a stream, with records: a serial, an id and how many bytes of payload.
fn packet(
    rt: &impl Abort,
    alloc: Global,
    trace: u8,
    stream: u64,
    rows: &[(u64, u32, usize)],
) -> Vec<u8> {
    let moment = Moment::zero();
    let mut records = Vec::new(alloc);
    for (serial, id, len) in rows {
        let payload = [0x61; 60];
        let payload = payload.get(..*len).expect(rt, "at most 60 bytes");
        let record = Rec::copy_of(alloc, *serial, moment, *id, payload);
        records
            .push(record.expect(rt, "memory"))
            .expect(rt, "memory");
    }
    let head = Head {
        uuid: uuid(trace),
        stream,
        begin: moment,
        end: moment,
        seq: 0,
        lost: 0,
    };
    let packet = Packet::checked(head, records).expect(rt, "a packet");
    encode_packet(alloc, &packet).expect(rt, "memory")
}

/// Several packets, end to end.
fn joined(rt: &impl Abort, alloc: Global, parts: &[&[u8]]) -> Vec<u8> {
    let mut bytes = Vec::new(alloc);
    for part in parts {
        bytes.extend_from_slice(part).expect(rt, "memory");
    }
    bytes
}

static EXAMPLE: [Thing; 8] = [
    Thing::Session(&["1", "0"]),
    Thing::Archive("0", &["c_2", "metadata", "c_0", "notes"]),
    Thing::Metadata("0", 1),
    Thing::Packets("0", "c_2", 2, &[]),
    Thing::Packets("0", "c_0", 0, &[(0, 0, 0, &[0, 1]), (1, 0, 0, &[2])]),
    Thing::Archive("1", &["metadata", "c_0"]),
    Thing::Metadata("1", 1),
    Thing::Packets("1", "c_0", 0, &[(2, 0, 0, &[3, 4])]),
];

/// Two archives of a session: streams with two packets, none and one.
fn worked<'a, R: Abort>(rt: &'a R, alloc: Global) -> Room<'a, R> {
    furnished(rt, alloc, &EXAMPLE)
}

/// What has to be put: archive by archive a path and a text of its own identifier.
fn expected(rt: &impl Abort, alloc: Global, traces: &[u8]) -> Vec<(String, String)> {
    let events = declared(rt, alloc);
    let mut all = Vec::new(alloc);
    for (trace, archive) in traces.iter().zip(&["0", "1"]) {
        let path = text(rt, alloc, &["d/s/archives/", STAMPS, archive, "/metadata"]);
        let text = metadata_text(alloc, &events, &uuid(*trace)).expect(rt, "memory");
        all.push((path, text)).expect(rt, "memory");
    }
    all
}

/// Asserts what was put.
fn assert_put(rt: &impl Abort, texts: &MemoryTexts, expected: &[(String, String)]) {
    assert_same(rt, texts.all().len(), expected.len());
    for (found, wanted) in texts.all().iter().zip(expected) {
        assert_same(rt, found.0.as_str(), wanted.0.as_str());
        assert_same(rt, found.1.as_str(), wanted.1.as_str());
    }
}

/// Asserts what describing a room answers, and that nothing is put.
fn refuses(
    rt: &impl Abort,
    alloc: Global,
    room: Room<'_, impl Abort>,
    piece: usize,
    said: Described,
) {
    let mut folders = room.kept(piece);
    let mut texts = MemoryTexts::new(alloc, 9);
    let found = describe(alloc, &mut folders, &mut texts, "d", &declared(rt, alloc));
    assert_same(rt, found, Ok(said));
    assert_put(rt, &texts, &[]);
}

/// Each archive gets the metadata of its own identifier, in order, however the files are cut into pieces.
#[test]
fn worked_example(rt: HostRuntime) {
    let alloc = rt.alloc();
    for piece in [1, 7, 100, 70_000] {
        let mut folders = worked(&rt, alloc).kept(piece);
        let mut texts = MemoryTexts::new(alloc, 2);
        let found = describe(alloc, &mut folders, &mut texts, "d", &declared(&rt, alloc));
        assert_same(&rt, found, Ok(Described::Done { archives: 2 }));
        assert_put(&rt, &texts, &expected(&rt, alloc, &[1, 1]));
    }
}

/// Archives of one session may have identifiers of their own.
#[test]
fn own_identifiers(rt: HostRuntime) {
    let alloc = rt.alloc();
    let mut room = furnished(
        &rt,
        alloc,
        &[
            Thing::Session(&["0", "1"]),
            Thing::Archive("0", &["metadata"]),
            Thing::Metadata("0", 1),
            Thing::Archive("1", &["metadata", "c_0"]),
            Thing::Metadata("1", 2),
        ],
    );
    room.file(
        "1",
        "c_0",
        packet(&rt, alloc, 2, 0, &[(5, 8, 1), (6, 9, 2)]),
    );
    let mut folders = room.kept(100);
    let mut texts = MemoryTexts::new(alloc, 2);
    let found = describe(alloc, &mut folders, &mut texts, "d", &declared(&rt, alloc));
    assert_same(&rt, found, Ok(Described::Done { archives: 2 }));
    assert_put(&rt, &texts, &expected(&rt, alloc, &[1, 2]));
}

fn named(rt: &impl Abort, alloc: Global, number: &str) -> (String, String) {
    (text(rt, alloc, &["s"]), text(rt, alloc, &[STAMPS, number]))
}

/// The answer that a file of stream 0 in archive 0 isn't sound, or has a record that doesn't fit.
fn flawed(rt: &impl Abort, alloc: Global, serial: Option<u64>) -> Described {
    let (session, archive) = named(rt, alloc, "0");
    let channel = text(rt, alloc, &["c"]);
    let wrong = match serial {
        None => Wrong::Unsound {
            session,
            archive,
            channel,
            stream: 0,
        },
        Some(serial) => Wrong::Unfit {
            session,
            archive,
            channel,
            stream: 0,
            serial,
        },
    };
    Described::Wrong(wrong)
}

/// A room with one archive that has this file of a stream.
fn one_file<'a, R: Abort>(rt: &'a R, alloc: Global, bytes: Vec<u8>) -> Room<'a, R> {
    let mut room = furnished(
        rt,
        alloc,
        &[
            Thing::Session(&["0"]),
            Thing::Archive("0", &["metadata", "c_0"]),
            Thing::Metadata("0", 1),
        ],
    );
    room.file("0", "c_0", bytes);
    room
}

/// Asserts what is wrong with a file of these bytes, however it is cut into pieces.
fn refuses_file(rt: &impl Abort, alloc: Global, parts: &[&[u8]], serial: Option<u64>) {
    for piece in [1, 50, 70_000] {
        let room = one_file(rt, alloc, joined(rt, alloc, parts));
        refuses(rt, alloc, room, piece, flawed(rt, alloc, serial));
    }
}

/// Of several records that don't fit, or of packets that aren't sound, the first is told.
#[test]
fn files_with_unfit_records(rt: HostRuntime) {
    let alloc = rt.alloc();
    let good = packet(&rt, alloc, 1, 0, &[(0, 7, 50), (1, 8, 3)]);
    let unfit = packet(&rt, alloc, 1, 0, &[(2, 9, 2), (3, 9, 1), (4, 7, 49)]);
    refuses_file(&rt, alloc, &[&good[..], &unfit[..], &[0][..]], Some(3));
    refuses_file(&rt, alloc, &[&good[..], &good[..], &unfit[..]], Some(3));
    refuses_file(&rt, alloc, &[&[0][..], &good[..], &unfit[..]], None);
}

/// What isn't packets of the stream and the identifier, to its end.
#[test]
fn files_that_are_not_sound(rt: HostRuntime) {
    let alloc = rt.alloc();
    let good = packet(&rt, alloc, 1, 0, &[(0, 7, 50), (1, 8, 3)]);
    let other_stream = packet(&rt, alloc, 1, 1, &[(2, 7, 1)]);
    let other_trace = packet(&rt, alloc, 2, 0, &[(2, 7, 1)]);
    refuses_file(&rt, alloc, &[&good[..], &other_stream[..]], None);
    refuses_file(&rt, alloc, &[&other_trace[..]], None);
    let (_, cut) = good.split_last().expect(&rt, "bytes");
    refuses_file(&rt, alloc, &[&good[..], cut], None);
    refuses_file(&rt, alloc, &[&good[..], &[0xC1][..]], None);
}

/// A file that breaks off, at a packet's end or not, and one that isn't there.
#[test]
fn files_that_are_not_read(rt: HostRuntime) {
    let alloc = rt.alloc();
    let path = ["d/s/archives/", STAMPS, "0/c_0"];
    let mut room = one_file(&rt, alloc, packet(&rt, alloc, 1, 0, &[(0, 7, 50)]));
    room.hide(&path);
    refuses(&rt, alloc, room, 100, flawed(&rt, alloc, None));
    let mut room = one_file(&rt, alloc, packet(&rt, alloc, 1, 0, &[(0, 9, 50)]));
    room.hide(&path);
    refuses(&rt, alloc, room, 100, flawed(&rt, alloc, Some(0)));
    let room = furnished(
        &rt,
        alloc,
        &[
            Thing::Session(&["0"]),
            Thing::Archive("0", &["metadata", "c_0"]),
            Thing::Metadata("0", 1),
        ],
    );
    refuses(&rt, alloc, room, 100, flawed(&rt, alloc, None));
}

/// An archive whose metadata aren't the recorder's is named before what is wrong with its streams, and so is a later one after
/// an earlier one's streams.
#[test]
fn foreign_metadata(rt: HostRuntime) {
    let alloc = rt.alloc();
    for metadata in [
        &b""[..],
        b"trace {\n  uuid = \"00000000-0000-0000-0000-000000000001\";\n",
        b"text",
    ] {
        let mut room = furnished(
            &rt,
            alloc,
            &[
                Thing::Session(&["0", "1"]),
                Thing::Archive("0", &["metadata"]),
                Thing::Metadata("0", 1),
                Thing::Archive("1", &["metadata", "c_0"]),
            ],
        );
        room.file("1", "metadata", joined(&rt, alloc, &[metadata]));
        let (session, archive) = named(&rt, alloc, "1");
        let said = Described::Wrong(Wrong::Foreign { session, archive });
        refuses(&rt, alloc, room, 100, said);
    }
    let mut room = worked(&rt, alloc);
    room.hide(&["d/s/archives/", STAMPS, "0"]);
    let (session, archive) = named(&rt, alloc, "0");
    let said = Described::Wrong(Wrong::Foreign { session, archive });
    refuses(&rt, alloc, room, 100, said);
}

/// Folders that aren't there or can't be read, and a session without an archive.
#[test]
fn folders(rt: HostRuntime) {
    let alloc = rt.alloc();
    refuses(&rt, alloc, Room::new(&rt, alloc), 1, Described::NoSession);
    let mut room = Room::new(&rt, alloc);
    room.folder(&["d"], &["s", "9"]);
    room.folder(&["d/9/archives"], &[]);
    refuses(&rt, alloc, room, 1, Described::NoSession);
    let mut room = worked(&rt, alloc);
    room.hide(&["d"]);
    refuses(&rt, alloc, room, 1, Described::Unlisted);
    let mut room = worked(&rt, alloc);
    room.hide(&["d/s/archives"]);
    let session = text(&rt, alloc, &["s"]);
    let said = Described::Wrong(Wrong::Closed { session });
    refuses(&rt, alloc, room, 1, said);
    let mut room = Room::new(&rt, alloc);
    room.folder(&["d"], &["s"]);
    room.folder(&["d/s/archives"], &["notes"]);
    refuses(&rt, alloc, room, 1, Described::Done { archives: 0 });
}
