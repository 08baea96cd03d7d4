//! Worked examples of files and audits, and damaged files.

mod archive_names;
mod damage;
mod readers;

use crate::asserting::assert_same;
use crate::packing::put_in_part;
use std::alloc::Global;
use std::fmt::Display;
use std::process::Abort;
use tr_book::{Part, Parts};
use tr_chunk::{
    AuditCause, AuditFault, StreamAudit, WriteFault, audit_stream, stream_file_name,
    write_metadata, write_part,
};
use tr_packet::{Head, Packet, PacketFault, encode_packet, metadata_text};
use tr_record::{ByteSink, MemorySink, Rec, WriterSink};
use tr_terms::Name;
use tr_testing::{FailsAfter, Filling, moment};
use uuid::Uuid;

/// The identifier 1.
static TRACE: [u8; 16] = [0, 0, 0, 0, 0, 0, 0, 0, 0, 0, 0, 0, 0, 0, 0, 1];

fn uuid() -> Uuid {
    Uuid::from_bytes(TRACE)
}

/// The longest payload. All others are a front of it.
static PAYLOAD: [u8; 64] = [0x61; 64];

/// Records with these serials, moments and lengths.
fn records(rt: &impl Abort, alloc: Global, rows: &[(u64, u64, usize)]) -> Vec<Rec> {
    let mut records = Vec::new(alloc);
    for (serial, at, len) in rows {
        let bytes = PAYLOAD.get(..*len).expect(rt, "a short payload");
        let record = Rec::copy_of(alloc, *serial, moment(*at), 7, bytes).expect(rt, "memory");
        records.push(record).expect(rt, "memory");
    }
    records
}

/// A packet of records with these serials, moments and lengths; the first is at the packet's begin.
fn packet(
    rt: &impl Abort,
    alloc: Global,
    (seq, begin, end, discarded): (u64, u64, u64, u64),
    rows: &[(u64, u64, usize)],
) -> Packet {
    let head = Head {
        uuid: uuid(),
        stream: 0,
        begin: moment(begin),
        end: moment(end),
        seq,
        lost: discarded,
    };
    Packet::checked(head, records(rt, alloc, rows)).expect(rt, "a packet")
}

/// Two packets, of 228 and of 256 bytes; one record was discarded between them.
fn both(rt: &impl Abort, alloc: Global) -> Vec<Packet> {
    let first = packet(rt, alloc, (0, 1, 3, 0), &[(0, 1, 50), (1, 2, 50)]);
    let rows = [(2, 3, 50), (3, 4, 50), (5, 6, 4)];
    let second = packet(rt, alloc, (1, 3, 10, 1), &rows);
    vec![in alloc; first, second].expect(rt, "memory")
}

/// A part of both.
fn parts(rt: &impl Abort, alloc: Global) -> Parts {
    let both = both(rt, alloc);
    let mut parts = Parts::new(alloc);
    for packet in &both {
        put_in_part(rt, alloc, &mut parts, packet);
    }
    parts
}

/// Writes a part that wasn't released.
fn write_held(rt: &impl Abort, sink: &mut impl ByteSink, part: &Part) -> Result<(), WriteFault> {
    assert!(rt; !part.is_released());
    write_part(sink, part)
}

/// The file of the current part, which is written to a sink that is flushed at this size.
fn file_of(rt: &impl Abort, alloc: Global, parts: &Parts, size: usize) -> Vec<u8> {
    let mut sink = MemorySink::new(alloc, size);
    write_held(rt, &mut sink, parts.current()).expect(rt, "a file");
    sink.into_bytes()
}

/// The file of that part: 484 bytes.
fn file(rt: &impl Abort, alloc: Global) -> Vec<u8> {
    let file = file_of(rt, alloc, &parts(rt, alloc), 7);
    assert_same(rt, file.len(), 484);
    file
}

/// Appends the text of a packet.
fn append(rt: &impl Abort, alloc: Global, texts: &mut Vec<u8>, packet: &Packet) {
    let text = encode_packet(alloc, packet).expect(rt, "memory");
    texts.extend_from_slice(&text).expect(rt, "memory");
}

/// What an audit says of a file.
#[derive(Clone, Copy)]
struct Told<'a> {
    packets: u64,
    records: u64,
    gaps: &'a [(u64, u64)],
    last_seq: Option<u64>,
    last_serial: Option<u64>,
    last_lost: u64,
}

/// What the audit of no byte says.
const NOTHING: Told<'static> = Told {
    packets: 0,
    records: 0,
    gaps: &[],
    last_seq: None,
    last_serial: None,
    last_lost: 0,
};

/// What the audit of both packets says.
const BOTH: Told<'static> = Told {
    packets: 2,
    records: 5,
    gaps: &[],
    last_seq: Some(1),
    last_serial: Some(5),
    last_lost: 1,
};

/// How the bytes of each piece come to an audit: whole, or in feeds of this size.
static FEEDS: [Option<usize>; 4] = [None, Some(1), Some(7), Some(1000)];

/// What an audit says of these pieces, whose bytes come in this way.
fn audit_in(
    rt: &impl Abort,
    alloc: Global,
    (uuid, stream): (&Uuid, u64),
    pieces: &[&[u8]],
    feeds: Option<usize>,
) -> Result<StreamAudit, AuditFault> {
    match feeds {
        None => audit_stream(alloc, uuid, stream, pieces),
        Some(size) => readers::audit_fed(rt, alloc, (uuid, stream), pieces, size),
    }
}

/// Asserts what the audit of these pieces says, in this case of a test, however their bytes come.
fn assert_told(rt: &impl Abort, alloc: Global, case: usize, pieces: &[&[u8]], told: &Told<'_>) {
    for feeds in FEEDS {
        match audit_in(rt, alloc, (&uuid(), 0), pieces, feeds) {
            Ok(audit) => assert_audit(rt, case, &audit, told),
            Err(fault) => assert_same(rt, (case, Some(fault)), (case, None)),
        }
    }
}

/// Asserts what an audit says, in this case of a test.
fn assert_audit(rt: &impl Abort, case: usize, audit: &StreamAudit, told: &Told<'_>) {
    let counts = (audit.packets, audit.records, audit.last_lost);
    let wanted = (told.packets, told.records, told.last_lost);
    assert_same(rt, (case, counts), (case, wanted));
    assert_same(rt, (case, audit.gaps.as_slice()), (case, told.gaps));
    let last = (audit.last_seq, audit.last_serial);
    assert_same(rt, (case, last), (case, (told.last_seq, told.last_serial)));
}

/// Asserts the fault of the audit of these pieces, as those of this stream, in this case of a test, however their bytes come.
fn assert_fault(
    rt: &impl Abort,
    alloc: Global,
    case: usize,
    (uuid, stream): (&Uuid, u64),
    pieces: &[&[u8]],
    fault: AuditFault,
) {
    for feeds in FEEDS {
        let answer = audit_in(rt, alloc, (uuid, stream), pieces, feeds).err();
        assert_same(rt, (case, answer), (case, Some(fault)));
    }
}

fn at(piece: u64, offset: u64, cause: AuditCause) -> AuditFault {
    AuditFault {
        piece,
        offset,
        cause,
    }
}

/// Asserts the name of a stream's file.
fn assert_file_name(rt: &impl Abort, alloc: Global, channel: &str, stream: u64, want: &str) {
    let channel = Name::new(channel).expect(rt, "a name");
    let name = stream_file_name(alloc, &channel, stream).expect(rt, "memory");
    assert_same(rt, name.as_str(), want);
}

#[test]
fn files_have_names(rt: HostRuntime) {
    assert_file_name(&rt, rt.alloc(), "c", 0, "c_0");
    let last = "Net_4_18446744073709551615";
    assert_file_name(&rt, rt.alloc(), "Net_4", u64::MAX, last);
}

#[test]
fn the_metadata_is_written(rt: HostRuntime) {
    let text = metadata_text(rt.alloc(), &uuid()).expect(&rt, "memory");
    let mut sink = MemorySink::new(rt.alloc(), 100);
    write_metadata(rt.alloc(), &mut sink, &uuid()).expect(&rt, "a file");
    assert_same(&rt, sink.into_bytes().as_slice(), text.as_bytes());
}

#[test]
fn packets_are_written_one_after_another(rt: HostRuntime) {
    let texts = texts_of_both(&rt, rt.alloc());
    let file = file_of(&rt, rt.alloc(), &parts(&rt, rt.alloc()), 100);
    assert_same(&rt, texts.len(), 484);
    assert_same(&rt, file.as_slice(), texts.as_slice());
    // a part without packets is no byte
    let none = file_of(&rt, rt.alloc(), &Parts::new(rt.alloc()), 100);
    assert_same(&rt, none.len(), 0);
}

/// The texts of both packets, end to end.
fn texts_of_both(rt: &impl Abort, alloc: Global) -> Vec<u8> {
    let mut texts = Vec::new(alloc);
    for packet in &both(rt, alloc) {
        append(rt, alloc, &mut texts, packet);
    }
    texts
}

/// How many bytes a sink takes, and what writing a part of 484 bytes to it answers.
static WRITES: [(u64, Result<(), WriteFault>); 5] = [
    (0, Err(WriteFault::Write)),
    (227, Err(WriteFault::Write)),
    (228, Err(WriteFault::Write)),
    (483, Err(WriteFault::Write)),
    (484, Ok(())),
];

/// Asserts what writing a part answers if the sink takes so many `bytes`.
fn assert_write(rt: &impl Abort, part: &Part, bytes: u64, want: Result<(), WriteFault>) {
    let mut sink = WriterSink::new(FailsAfter::new(bytes));
    assert_same(rt, (bytes, write_held(rt, &mut sink, part)), (bytes, want));
}

#[test]
fn a_sink_that_fails(rt: HostRuntime) {
    let parts = parts(&rt, rt.alloc());
    for (bytes, want) in &WRITES {
        assert_write(&rt, parts.current(), *bytes, *want);
    }
}

/// Asserts that a sink with less room than the part needs, which takes one byte a put, got the front of its texts.
fn assert_front(rt: &impl Abort, alloc: Global, part: &Part, texts: &[u8], room: usize) {
    let mut sink = Filling {
        taken: Vec::new(alloc),
        room,
        failures: 0,
    };
    let answer = write_held(rt, &mut sink, part);
    let wanted = (room, Err(WriteFault::Write), 1);
    assert_same(rt, (room, answer, sink.failures), wanted);
    let front = texts.get(..room).expect(rt, "more bytes");
    assert_same(rt, (room, sink.taken.as_slice()), (room, front));
}

#[test]
fn a_sink_that_fails_at_any_byte_has_those_before_it(rt: HostRuntime) {
    let parts = parts(&rt, rt.alloc());
    let texts = texts_of_both(&rt, rt.alloc());
    for room in 0..texts.len() {
        assert_front(&rt, rt.alloc(), parts.current(), &texts, room);
    }
}

#[test]
fn a_sink_that_fails_amid_the_metadata(rt: HostRuntime) {
    let mut sink = WriterSink::new(FailsAfter::new(3));
    let answer = write_metadata(rt.alloc(), &mut sink, &uuid());
    assert_same(&rt, answer, Err(WriteFault::Write));
}

#[test]
fn whole_files(rt: HostRuntime) {
    let file = file(&rt, rt.alloc());
    let (first, second) = file.split_at_checked(228).expect(&rt, "two packets");
    assert_told(&rt, rt.alloc(), 0, &[&file], &BOTH);
    assert_told(&rt, rt.alloc(), 1, &[first, b"", second], &BOTH);
    assert_told(&rt, rt.alloc(), 2, &[], &NOTHING);
    assert_told(&rt, rt.alloc(), 3, &[b""], &NOTHING);
}

#[test]
fn absent_numbers(rt: HostRuntime) {
    let mut file = Vec::new(rt.alloc());
    for (seq, serial) in [(2, 7), (3, 8), (5, 9), (u64::MAX, 10)] {
        let packet = packet(&rt, rt.alloc(), (seq, 9, 9, 4), &[(serial, 9, 0)]);
        append(&rt, rt.alloc(), &mut file, &packet);
    }
    let told = Told {
        packets: 4,
        records: 4,
        gaps: &[(0, 2), (4, 1), (6, u64::MAX - 6)],
        last_seq: Some(u64::MAX),
        last_serial: Some(10),
        last_lost: 4,
    };
    assert_told(&rt, rt.alloc(), 0, &[&file], &told);
}

#[test]
fn pieces_in_another_order(rt: HostRuntime) {
    let file = file(&rt, rt.alloc());
    let (first, second) = file.split_at_checked(228).expect(&rt, "two packets");
    let repeat = at(1, 0, AuditCause::NumberRepeat);
    let foreign = at(0, 0, AuditCause::Foreign);
    let own = uuid();
    let nil = Uuid::nil();
    assert_fault(&rt, rt.alloc(), 0, (&own, 0), &[second, first], repeat);
    assert_fault(&rt, rt.alloc(), 1, (&own, 0), &[&file, &file], repeat);
    assert_fault(&rt, rt.alloc(), 2, (&own, 1), &[&file], foreign);
    assert_fault(&rt, rt.alloc(), 3, (&nil, 0), &[&file], foreign);
}

/// Asserts a fault's code and its name, and that it prints this text.
fn assert_named(
    rt: &impl Abort,
    alloc: Global,
    fault: &impl Display,
    found: (&str, &str),
    (code, name, text): (&str, &str, &str),
) {
    assert_same(rt, found, (code, name));
    let printed = format!(in alloc; "{fault}").expect(rt, "memory");
    assert_same(rt, printed.as_str(), text);
}

/// The faults of an audit: the code, the name, and both as they are printed.
static CAUSES: [(AuditCause, (&str, &str, &str)); 5] = [
    (
        AuditCause::Packet(PacketFault::Short),
        ("A1", "Packet", "A1 Packet"),
    ),
    (
        AuditCause::NumberRepeat,
        ("A2", "NumberRepeat", "A2 NumberRepeat"),
    ),
    (
        AuditCause::SerialRepeat,
        ("A3", "SerialRepeat", "A3 SerialRepeat"),
    ),
    (AuditCause::Foreign, ("A4", "Foreign", "A4 Foreign")),
    (AuditCause::NoMemory, ("A5", "NoMemory", "A5 NoMemory")),
];

fn assert_causes(rt: &impl Abort, alloc: Global, rows: &[(AuditCause, (&str, &str, &str))]) {
    for (cause, words) in rows {
        assert_named(rt, alloc, cause, (cause.code(), cause.name()), *words);
    }
}

/// Asserts a fault of writing as faults of audits.
fn assert_write_fault(
    rt: &impl Abort,
    alloc: Global,
    fault: WriteFault,
    words: (&str, &str, &str),
) {
    assert_named(rt, alloc, &fault, (fault.code(), fault.name()), words);
}

#[test]
fn faults_have_codes_and_names(rt: HostRuntime) {
    assert_causes(&rt, rt.alloc(), &CAUSES);
    let write = ("W1", "Write", "W1 Write");
    assert_write_fault(&rt, rt.alloc(), WriteFault::Write, write);
    let memory = ("W2", "NoMemory", "W2 NoMemory");
    assert_write_fault(&rt, rt.alloc(), WriteFault::NoMemory, memory);
}
