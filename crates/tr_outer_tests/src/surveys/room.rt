//! Folders in memory, as surveys read them.

use crate::asserting::assert_same;
use std::alloc::Global;
use std::process::Abort;
use tr_events::Events;
use tr_folders::MemoryFolders;
use tr_packet::{Head, Packet, encode_packet, metadata_text};
use tr_record::{MemorySink, Rec};
use tr_survey::{Surveyed, survey};
use tr_terms::Moment;
use uuid::Uuid;

/// The name of an archive, up to its number.
pub(crate) const STAMPS: &str = "19700101T000000+0000-19700101T000000+0000-";

pub(crate) fn uuid(last: u8) -> Uuid {
    Uuid::from_bytes([0, 0, 0, 0, 0, 0, 0, 0, 0, 0, 0, 0, 0, 0, 0, last])
}

pub(crate) fn text(rt: &impl Abort, alloc: Global, parts: &[&str]) -> String {
    let mut text = String::new(alloc);
    for part in parts {
        text.push_str(part).expect(rt, "memory");
    }
    text
}

/// A packet of a stream: its number, how many records were discarded by its end, the moment of all that is in it, and the serials
/// of its records.
pub(crate) type Row = (u64, u64, u64, &'static [u64]);

/// A packet whose records have moments of their own: its number, how many records were discarded by its end, when it ends, and the
/// serial and the moment of each of its records.
pub(crate) type TimedRow = (u64, u64, u64, &'static [(u64, u64)]);

fn moment_of(rt: &impl Abort, moment: u64) -> Moment {
    Moment::new(moment).expect(rt, "a moment")
}

fn push_record(rt: &impl Abort, alloc: Global, records: &mut Vec<Rec>, serial: u64, moment: u64) {
    let moment = moment_of(rt, moment);
    let record = Rec::copy_of(alloc, serial, moment, 7, &[0x61; 50]).expect(rt, "memory");
    records.push(record).expect(rt, "memory");
}

fn push_packet(rt: &impl Abort, alloc: Global, bytes: &mut Vec<u8>, head: Head, records: Vec<Rec>) {
    let packet = Packet::checked(head, records).expect(rt, "a packet");
    let packet = encode_packet(alloc, &packet).expect(rt, "memory");
    for byte in &packet {
        bytes.push(*byte).expect(rt, "memory");
    }
}

/// The bytes of packets of a stream of a trace.
pub(crate) fn packets(
    rt: &impl Abort,
    alloc: Global,
    trace: u8,
    stream: u64,
    rows: &[Row],
) -> Vec<u8> {
    let mut bytes = Vec::new(alloc);
    for (seq, lost, moment, serials) in rows {
        let mut records = Vec::new(alloc);
        for serial in serials.iter() {
            push_record(rt, alloc, &mut records, *serial, *moment);
        }
        let moment = moment_of(rt, *moment);
        let head = Head {
            uuid: uuid(trace),
            stream,
            begin: moment,
            end: moment,
            seq: *seq,
            lost: *lost,
        };
        push_packet(rt, alloc, &mut bytes, head, records);
    }
    bytes
}

/// Those of packets whose records have moments of their own.
fn timed_packets(
    rt: &impl Abort,
    alloc: Global,
    trace: u8,
    stream: u64,
    rows: &[TimedRow],
) -> Vec<u8> {
    let mut bytes = Vec::new(alloc);
    for (seq, lost, end, timed) in rows {
        let mut records = Vec::new(alloc);
        let begin = match timed {
            [] => *end,
            [(_, moment), ..] => *moment,
        };
        for (serial, moment) in timed.iter() {
            push_record(rt, alloc, &mut records, *serial, *moment);
        }
        let head = Head {
            uuid: uuid(trace),
            stream,
            begin: moment_of(rt, begin),
            end: moment_of(rt, *end),
            seq: *seq,
            lost: *lost,
        };
        push_packet(rt, alloc, &mut bytes, head, records);
    }
    bytes
}

/// Folders below `d` with the names in them, and files.
#[derive(Drop)]
pub(crate) struct Room<'a, R: Abort> {
    rt: &'a R,
    alloc: Global,
    folders: Vec<(String, Vec<String>)>,
    files: Vec<(String, Vec<u8>)>,
    hidden: Vec<String>,
}

impl<'a, R: Abort> Room<'a, R> {
    pub(crate) fn new(rt: &'a R, alloc: Global) -> Self {
        Room {
            rt,
            alloc,
            folders: Vec::new(alloc),
            files: Vec::new(alloc),
            hidden: Vec::new(alloc),
        }
    }

    fn add_folder(&mut self, path: String, names: Vec<String>) {
        self.folders.push((path, names)).expect(self.rt, "memory");
    }

    pub(crate) fn add_file(&mut self, path: String, bytes: Vec<u8>) {
        self.files.push((path, bytes)).expect(self.rt, "memory");
    }

    pub(crate) fn kept(self, piece: usize) -> MemoryFolders {
        MemoryFolders::with_hidden(self.alloc, self.folders, self.files, self.hidden, piece)
    }

    /// What is at this path can't be read, or not to its end.
    pub(crate) fn hide(&mut self, path: &[&str]) {
        let path = text(self.rt, self.alloc, path);
        self.hidden.push(path).expect(self.rt, "memory");
    }

    pub(crate) fn folder(&mut self, path: &[&str], names: &[&str]) {
        let path = text(self.rt, self.alloc, path);
        let mut found = Vec::new(self.alloc);
        for name in names {
            let name = text(self.rt, self.alloc, &[name]);
            found.push(name).expect(self.rt, "memory");
        }
        self.add_folder(path, found);
    }

    fn archive(&mut self, number: &str, files: &[&str]) {
        self.folder(&["d/s/archives/", STAMPS, number], files);
    }

    pub(crate) fn file(&mut self, archive: &str, name: &str, bytes: Vec<u8>) {
        let path = text(
            self.rt,
            self.alloc,
            &["d/s/archives/", STAMPS, archive, "/", name],
        );
        self.add_file(path, bytes);
    }

    fn metadata(&mut self, archive: &str, uuid: Uuid) {
        let text = metadata_text(self.alloc, &uuid).expect(self.rt, "memory");
        self.file(archive, "metadata", text.into_bytes());
    }

    /// Metadata that declare what these lines do.
    fn typed_metadata(&mut self, archive: &str, uuid: Uuid, lines: &str) {
        let events = Events::parse(self.alloc, lines.as_bytes()).expect(self.rt, "events");
        let text = tr_metadata::metadata_text(self.alloc, &events, &uuid).expect(self.rt, "memory");
        self.file(archive, "metadata", text.into_bytes());
    }

    fn packets(&mut self, archive: &str, name: &str, stream: u64, rows: &[Row]) {
        let bytes = packets(self.rt, self.alloc, 1, stream, rows);
        self.file(archive, name, bytes);
    }

    fn session(&mut self, archives: &[&str]) {
        self.folder(&["d"], &["s"]);
        let mut names = Vec::new(self.alloc);
        for archive in archives {
            let name = text(self.rt, self.alloc, &[STAMPS, archive]);
            names.push(name).expect(self.rt, "memory");
        }
        let path = text(self.rt, self.alloc, &["d/s/archives"]);
        self.add_folder(path, names);
    }

    pub(crate) fn says(self, piece: usize, expected: &str, faults: u64) {
        self.answers(piece, false, expected, Surveyed::Faults(faults));
    }

    /// With a line for each archive, if these are asked for.
    pub(crate) fn answers(self, piece: usize, archives: bool, expected: &str, said: Surveyed) {
        let rt = self.rt;
        let alloc = self.alloc;
        let mut folders = self.kept(piece);
        let mut sink = MemorySink::new(alloc, 7);
        let found = survey(alloc, &mut folders, &mut sink, "d", archives);
        assert_same(rt, found, Ok(said));
        let found = String::from_utf8(sink.into_bytes()).expect(rt, "text");
        assert_same(rt, found.as_str(), expected);
    }
}

/// What a room has.
pub(crate) enum Thing {
    /// The session, with its archives of these numbers.
    Session(&'static [&'static str]),
    /// The folder of an archive, with the names of the files in it.
    Archive(&'static str, &'static [&'static str]),
    /// The metadata of an archive, which name this identifier.
    Metadata(&'static str, u8),
    /// The same, which declare what these lines do.
    Typed(&'static str, u8, &'static str),
    /// A file of an archive with packets of a stream, as `packets` takes them.
    Packets(&'static str, &'static str, u64, &'static [Row]),
    /// The same, where records have moments of their own.
    Timed(&'static str, &'static str, u64, &'static [TimedRow]),
}

impl<'a, R: Abort> Room<'a, R> {
    pub(crate) fn thing(&mut self, thing: &Thing) {
        match thing {
            Thing::Session(archives) => self.session(archives),
            Thing::Archive(number, files) => self.archive(number, files),
            Thing::Metadata(archive, last) => self.metadata(archive, uuid(*last)),
            Thing::Typed(archive, last, lines) => {
                self.typed_metadata(archive, uuid(*last), lines);
            }
            Thing::Packets(archive, name, stream, rows) => {
                self.packets(archive, name, *stream, rows);
            }
            Thing::Timed(archive, name, stream, rows) => {
                let bytes = timed_packets(self.rt, self.alloc, 1, *stream, rows);
                self.file(archive, name, bytes);
            }
        }
    }
}

/// A room with these things.
pub(crate) fn furnished<'a, R: Abort>(rt: &'a R, alloc: Global, things: &[Thing]) -> Room<'a, R> {
    let mut room = Room::new(rt, alloc);
    for thing in things {
        room.thing(thing);
    }
    room
}
