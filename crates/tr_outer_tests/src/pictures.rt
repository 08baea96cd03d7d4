//! Pictures of folders in memory.

use crate::asserting::assert_same;
use crate::surveys::room::{Room, Thing, furnished, text, uuid};
use std::alloc::Global;
use std::process::Abort;
use tr_packet::{Head, Packet, encode_packet, metadata_text};
use tr_picture::picture;
use tr_record::{MemorySink, Rec};
use tr_survey::Surveyed;
use tr_testing::moment;

/// Number 1 is absent. Of five discarded records the serials place only the last one; three were discarded by the end of packet 2,
/// and one by that of packet 3.
static ABSENT: [Thing; 7] = [
    Thing::Session(&["0", "1"]),
    Thing::Metadata("0", 1),
    Thing::Metadata("1", 1),
    Thing::Archive("0", &["c_0"]),
    Thing::Archive("1", &["c_0"]),
    Thing::Timed(
        "0",
        "c_0",
        0,
        &[(0, 0, 2, &[(0, 1)]), (2, 3, 12, &[(5, 10), (7, 11)])],
    ),
    Thing::Timed(
        "1",
        "c_0",
        0,
        &[
            (3, 4, 22, &[(9, 20)]),
            (4, 4, 32, &[(11, 30)]),
            (5, 5, 42, &[(12, 40), (14, 41)]),
        ],
    ),
];

/// What comes before the style.
const FRONT: &str = "\
<svg xmlns=\"http://www.w3.org/2000/svg\" width=\"1280\" height=\"124\" viewBox=\"0 0 1280 124\"><title>what archives hold and what is lost</title>";

/// How marks look.
const STYLE: &str = "\
<style>svg{font:10px monospace}.w{fill:#fff}text{fill:#222}.n{font-size:7px}.a0{fill:#47a}.a1{fill:#7ac}.a2{fill:#586}.a3{fill:#9b7}.r{fill:#d22;stroke:#d22}.o{fill:#e80;stroke:#e80}.f{stroke:#000;stroke-width:3}.b{stroke:#666;stroke-width:1}.l,.t{stroke:#bbb;stroke-width:1}.tr{fill:#b00}.to{fill:#a50}@media(prefers-color-scheme:dark){.w{fill:#161616}text{fill:#ddd}.l,.t{stroke:#555}.b{stroke:#aaa}.f{stroke:#fff}.tr{fill:#f77}.to{fill:#fa4}}</style>";

/// The moments are 1 to 42, and the second archive begins in column 19 * 800 / 42.
const SCALE: &str = "\
<rect class=\"w\" width=\"1280\" height=\"124\"/>\n\
<text x=\"4\" y=\"14\">1 stream</text><text x=\"972\" y=\"14\">0 faults</text>\n\
<text x=\"160\" y=\"14\">19700101T000000+0000</text><text text-anchor=\"end\" x=\"960\" y=\"14\">19700101T000000+0000</text>\n\
<text text-anchor=\"middle\" x=\"160\" y=\"28\">+0 ns</text><path class=\"t\" d=\"M160 32v6\"/>\n\
<text text-anchor=\"middle\" x=\"360\" y=\"28\">+10 ns</text><path class=\"t\" d=\"M360 32v6\"/>\n\
<text text-anchor=\"middle\" x=\"560\" y=\"28\">+20 ns</text><path class=\"t\" d=\"M560 32v6\"/>\n\
<text text-anchor=\"middle\" x=\"760\" y=\"28\">+30 ns</text><path class=\"t\" d=\"M760 32v6\"/>\n\
<text text-anchor=\"middle\" x=\"960\" y=\"28\">+40 ns</text><path class=\"t\" d=\"M960 32v6\"/>\n\
<text x=\"160\" y=\"48\">archive 0</text>\n\
<text x=\"521\" y=\"48\">archive 1</text>\n\
";

/// The moment m is in column (m - 1) * 800 / 42, and a packet of 154 bytes is 2 + 154 / (228 / 10 + 1) pixels high. Counts have room
/// each 48 pixels.
const ROWS: &str = "\
<svg x=\"0\" y=\"52\" width=\"156\" height=\"32\">\n\
<text x=\"4\" y=\"11\"><title>c 0 s</title>c 0 s</text>\n\
</svg><svg x=\"160\" y=\"52\" width=\"800\" height=\"32\">\n\
<g transform=\"translate(0 2)\"><path class=\"l\" d=\"M0 12h800\"/><path class=\"b\" d=\"M0 -2v20\"><title>archive 0</title></path><g><title>0-0: 1 packets, 1 records, 0 absent; archives 0-0; 1-2</title><path class=\"a0\" d=\"M0 12v-8h19v8z\"/></g><g><title>1-1: 0 packets, 0 records, 1 absent; archives 0-0; 2-10</title><path class=\"r\" d=\"M19 0h152v12h-152z\"/></g><g><title>2-2: 1 packets, 2 records, 0 absent; archives 0-0; 10-12</title><path class=\"a0\" d=\"M171 12v-11h38v11z\"/></g><path class=\"b\" d=\"M361 -2v20\"><title>archive 1</title></path><g><title>3-3: 1 packets, 1 records, 0 absent; archives 1-1; 20-22</title><path class=\"a1\" d=\"M361 12v-8h39v8z\"/></g><g><title>4-4: 1 packets, 1 records, 0 absent; archives 1-1; 30-32</title><path class=\"a1\" d=\"M552 12v-8h38v8z\"/></g><g><title>5-5: 1 packets, 2 records, 0 absent; archives 1-1; 40-42</title><path class=\"a1\" d=\"M742 12v-11h38v11z\"/></g><g><title>3 discarded, 0 faults; archives 0-0; 2-12</title><path class=\"o\" d=\"M19 13h190v4h-190z\"/></g><g><title>1 discarded, 0 faults; archives 1-1; 12-22</title><path class=\"o\" d=\"M209 13h191v4h-191z\"/></g><g><title>1 discarded, 0 faults; archives 1-1; 40-41</title><path class=\"o\" d=\"M742 13h19v4h-19z\"/></g><text class=\"n tr\" x=\"19\" y=\"23\">1</text><text class=\"n to\" x=\"19\" y=\"29\">3</text><text class=\"n to\" x=\"209\" y=\"29\">1</text><text class=\"n to\" x=\"742\" y=\"29\">1</text></g>\n\
</svg><svg x=\"966\" y=\"52\" width=\"314\" height=\"32\">\n\
<text x=\"6\" y=\"11\">5 packets, 7 records<tspan class=\"tr\">, 1 absent</tspan><tspan class=\"to\">, 5 lost</tspan></text>\n\
</svg><g transform=\"translate(160 100)\">";

/// What marks say.
const LEGEND: &str = "\
<path class=\"a0\" d=\"M0 0h8v12h-8z\"/><path class=\"a1\" d=\"M8 0h8v12h-8z\"/><path class=\"a2\" d=\"M16 0h8v12h-8z\"/><path class=\"a3\" d=\"M24 0h8v12h-8z\"/><text x=\"40\" y=\"10\">packets, a colour for each archive, as high as their bytes</text><path class=\"r\" d=\"M410 0h16v12h-16z\"/><text x=\"434\" y=\"10\">numbers absent</text><path class=\"o\" d=\"M544 5h16v4h-16z\"/><text x=\"568\" y=\"10\">records discarded</text><path class=\"f\" d=\"M694 -3v17\"/><text x=\"704\" y=\"10\">fault</text><path class=\"b\" d=\"M754 -4v20\"/><text x=\"764\" y=\"10\">archive begins</text></g></svg>\n\
";

/// What is drawn of a room, whose files are read in pieces of this size.
fn drawn<R: Abort>(
    rt: &R,
    alloc: Global,
    room: Room<'_, R>,
    piece: usize,
    said: Surveyed,
) -> String {
    let mut folders = room.kept(piece);
    let mut sink = MemorySink::new(alloc, 7);
    let found = picture(alloc, &mut folders, &mut sink, "d");
    assert_same(rt, found, Ok(said));
    String::from_utf8(sink.into_bytes()).expect(rt, "text")
}

#[test]
fn a_picture(rt: HostRuntime) {
    let alloc = rt.alloc();
    let expected = text(&rt, alloc, &[FRONT, STYLE, SCALE, ROWS, LEGEND]);
    for piece in [1, 100, 70_000] {
        let room = furnished(&rt, alloc, &ABSENT);
        let found = drawn(&rt, alloc, room, piece, Surveyed::Faults(0));
        assert_same(&rt, found.as_str(), expected.as_str());
    }
}

/// An archive at an hour and a half ahead of UTC.
const AHEAD: &str = "19700101T013000+0130-19700101T013000+0130-0";

/// Records by their ids and payloads, each a nanosecond after the one before: two threads say their names, and what begins like a
/// third one has a byte too few after its zero.
static SAID: [(u32, &[u8]); 4] = [
    (4_294_967_293, b"wor<ker\0\x01\x02\x03\x04"),
    (7, b"wor<ker\0\x01\x02\x03\x04"),
    (4_294_967_293, b"b\0\x01\x02\x03\x04"),
    (4_294_967_293, b"c\0\x01\x02\x03"),
];

/// A packet of those records.
fn said(rt: &impl Abort, alloc: Global) -> Vec<u8> {
    let mut records = Vec::new(alloc);
    for (serial, (id, payload)) in (0..4u64).zip(&SAID) {
        let record = Rec::copy_of(alloc, serial, moment(serial), *id, payload);
        let record = record.expect(rt, "memory");
        records.push(record).expect(rt, "memory");
    }
    let head = Head {
        uuid: uuid(1),
        stream: 0,
        begin: moment(0),
        end: moment(3),
        seq: 0,
        lost: 0,
    };
    let packet = Packet::checked(head, records).expect(rt, "a packet");
    encode_packet(alloc, &packet).expect(rt, "memory")
}

/// A label has the first thread's name, and how many more there are. The scale's clock is the session's.
#[test]
fn threads_and_clocks(rt: HostRuntime) {
    let alloc = rt.alloc();
    let mut room = Room::new(&rt, alloc);
    room.folder(&["d"], &["s"]);
    room.folder(&["d/s/archives"], &[AHEAD]);
    room.folder(&["d/s/archives/", AHEAD], &["c_0", "metadata"]);
    let metadata = metadata_text(alloc, &uuid(1)).expect(&rt, "memory");
    let path = text(&rt, alloc, &["d/s/archives/", AHEAD, "/metadata"]);
    room.add_file(path, metadata.into_bytes());
    let path = text(&rt, alloc, &["d/s/archives/", AHEAD, "/c_0"]);
    room.add_file(path, said(&rt, alloc));
    let found = drawn(&rt, alloc, room, 64, Surveyed::Faults(0));
    let label = "<title>c 0 s wor&lt;ker +1</title>c 0 s wor&lt;ker +1</text>";
    let scale =
        "<text x=\"160\" y=\"14\">19700101T013000+0130</text><text text-anchor=\"end\" x=\"960\" y=\"14\">19700101T013000+0130</text>";
    for part in [label, scale] {
        assert_same(&rt, (part, found.contains(part)), (part, true));
    }
}

/// Archive 1 is missing, which is no stream's fault.
static MISSING: [Thing; 7] = [
    Thing::Session(&["0", "2"]),
    Thing::Metadata("0", 1),
    Thing::Metadata("2", 1),
    Thing::Archive("0", &["c_0"]),
    Thing::Archive("2", &["c_0"]),
    Thing::Timed("0", "c_0", 0, &[(0, 0, 2, &[(0, 1)])]),
    Thing::Timed("2", "c_0", 0, &[(1, 0, 12, &[(1, 11)])]),
];

#[test]
fn faults_of_no_stream(rt: HostRuntime) {
    let alloc = rt.alloc();
    let room = furnished(&rt, alloc, &MISSING);
    let found = drawn(&rt, alloc, room, 64, Surveyed::Faults(1));
    let said = ">1 fault, 1 of no stream</text>";
    assert_same(&rt, found.contains(said), true);
}

/// A folder that can't be read, or has no session, has no picture.
#[test]
fn nothing_to_draw(rt: HostRuntime) {
    let alloc = rt.alloc();
    let mut room = furnished(&rt, alloc, &ABSENT);
    room.hide(&["d"]);
    let found = drawn(&rt, alloc, room, 64, Surveyed::Unlisted);
    assert_same(&rt, found.len(), 0);
    let room = Room::new(&rt, alloc);
    let found = drawn(&rt, alloc, room, 64, Surveyed::NoSession);
    assert_same(&rt, found.len(), 0);
}
