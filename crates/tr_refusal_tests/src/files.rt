//! Calls that make the bytes of a packet, and that name, make and audit the files of a chunk.

use crate::scarce::{UNIT, new_heap};
use crate::streams::{new_stream, offer_many};
use crate::turns::{Call, assert_same, only, refuse_each, refuse_each_request};
use std::alloc::{Allocator, Global};
use std::process::Abort;
use tr_chunk::{
    AuditCause, AuditFault, AuditReader, StreamAudit, WriteFault, archive_name, audit_stream,
    stream_file_name, write_metadata,
};
use tr_packet::{Head, Packet, PacketText, encode_packet, metadata_text};
use tr_record::{MemorySink, Rec};
use tr_stream::Stream;
use tr_terms::{Mode, Name, OffsetMinutes};
use tr_testing::{Rationed, moment};
use uuid::Uuid;

/// A call.
#[derive(Clone, Copy, Debug, PartialEq, Eq)]
enum Asked {
    /// The name of an archive.
    Name,
    /// The name of a stream's file.
    FileName,
    /// The bytes of a packet.
    Packet,
    /// The metadata, written to a sink.
    Metadata,
    /// An audit of whole pieces.
    Audit,
    /// An audit of pieces that come in feeds of 100 bytes.
    Read,
}

/// What such a call answers.
#[derive(Clone, Copy, Debug, PartialEq, Eq)]
enum Told {
    /// Whether the name, or the bytes, are the wanted ones. None without memory.
    Named(Option<bool>),
    /// The answer of a write, and how many bytes went out.
    Written(Result<(), WriteFault>, usize),
    /// Whether an audit found what it should.
    Audited(Result<bool, AuditFault>),
    /// There was no memory for a reader.
    NoReader,
}

/// A call, with the pieces of a stream's file, three packets each.
#[derive(Clone, Copy)]
struct Row<'a> {
    /// What is never refused.
    plain: Global,
    pieces: [&'a [u8]; 2],
    asked: Asked,
}

/// Each packet has two records of 50 bytes, so 228 bytes.
const PACKET: usize = 228;

/// Of twelve packets every second one was overwritten, the first one among them.
static GAPS: [(u64, u64); 6] = [(0, 1), (2, 1), (4, 1), (6, 1), (8, 1), (10, 1)];

/// A stream, from which the second packet of each two was taken, and the first one overwritten.
fn with_gaps(rt: &impl Abort, alloc: Global) -> Stream {
    let mut stream = new_stream(rt, alloc, (2, Mode::Overwrite));
    stream.set_active(true);
    offer_many(&mut stream, 2);
    for _ in 0..6 {
        offer_many(&mut stream, 4);
        stream.take().expect(rt, "a packet");
    }
    stream
}

/// Whether an audit found all packets, all records and all gaps.
fn is_found<A: Allocator>(audit: &StreamAudit<A>) -> bool {
    audit.packets == 6 && audit.records == 12 && audit.gaps.as_slice() == GAPS.as_slice()
}

/// What an audit found.
fn found<A: Allocator>(answer: Result<StreamAudit<A>, AuditFault>) -> Told {
    match answer {
        Ok(audit) => Told::Audited(Ok(is_found(&audit))),
        Err(fault) => Told::Audited(Err(fault)),
    }
}

/// A name, from 2023-11-14 17:13:20 to one minute later, five hours behind UTC.
fn name<A: Allocator>(rt: &impl Abort, alloc: A) -> Told {
    let behind = OffsetMinutes::new(-300).expect(rt, "an offset");
    let begin = moment(1_700_000_000_000_000_000);
    let end = moment(1_700_000_060_000_000_000);
    let wanted = "20231114T171320-0500-20231114T171420-0500-0";
    match archive_name(alloc, begin, end, behind, 0) {
        Ok(name) => Told::Named(Some(name.as_str() == wanted)),
        Err(_) => Told::Named(None),
    }
}

/// The name of a stream's file.
fn file_name<A: Allocator>(rt: &impl Abort, alloc: A) -> Told {
    let channel = Name::new("kernel").expect(rt, "a name");
    match stream_file_name(alloc, &channel, 12) {
        Ok(name) => Told::Named(Some(name.as_str() == "kernel_12")),
        Err(_) => Told::Named(None),
    }
}

/// A packet of two records of 50 bytes, as the first one of a stream that has offers at 1 and 2, and a cut at 2.
fn packet(rt: &impl Abort, alloc: Global) -> Packet {
    let mut records = Vec::new(alloc);
    for at in 1..=2u64 {
        let payload = vec![in alloc; 0x61; 50].expect(rt, "memory");
        assert!(rt; payload.len() <= 70_000);
        records
            .push(Rec::new(at - 1, moment(at), 7, payload))
            .expect(rt, "memory");
    }
    let head = Head {
        uuid: Uuid::from_u128(1),
        stream: 0,
        begin: moment(1),
        end: moment(2),
        seq: 0,
        lost: 0,
    };
    Packet::checked(head, records).expect(rt, "a packet")
}

/// The bytes of the same packet, as a stream has them.
fn packed(rt: &impl Abort, alloc: Global) -> Stream {
    let mut stream = new_stream(rt, alloc, (2, Mode::Discard));
    stream.set_active(true);
    offer_many(&mut stream, 2);
    stream.cut(moment(2)).expect(rt, "a cut");
    stream
}

/// The bytes of a packet.
fn encoded<A: Allocator>(rt: &impl Abort, alloc: A, plain: Global) -> Told {
    let packet = packet(rt, plain);
    let Ok(bytes) = encode_packet(alloc, &packet) else {
        return Told::Named(None);
    };
    let stream = packed(rt, plain);
    let part = stream.part(0).expect(rt, "a part");
    let same = bytes_of(rt, plain, part.texts()).as_slice() == bytes.as_slice();
    drop(stream);
    Told::Named(Some(same))
}

/// How many bytes the metadata has.
fn metadata_bytes(rt: &impl Abort, plain: Global) -> usize {
    let text = metadata_text(plain, &Uuid::from_u128(1)).expect(rt, "memory");
    assert_same(rt, text.starts_with("/* CTF 1.8 */\n"), true);
    text.len()
}

/// Writes the metadata to a sink that has memory.
fn metadata<A: Allocator>(alloc: A, plain: Global) -> Told {
    let mut sink = MemorySink::new(plain, 7);
    let answer = write_metadata(alloc, &mut sink, &Uuid::from_u128(1));
    Told::Written(answer, sink.into_bytes().len())
}

/// More bytes than any test feeds.
const MANY: u64 = 1 << 32;

/// Feeds a few bytes.
pub(crate) fn feed<A: Allocator>(
    rt: &impl Abort,
    reader: &mut AuditReader<A>,
    bytes: &[u8],
) -> Result<(), AuditFault> {
    assert!(rt; reader.bytes() < MANY);
    assert!(rt; (bytes.len() as u64) < MANY);
    reader.feed(bytes)
}

/// Begins the next of a few pieces.
fn next_piece<A: Allocator>(
    rt: &impl Abort,
    reader: &mut AuditReader<A>,
) -> Result<(), AuditFault> {
    assert!(rt; reader.pieces() < MANY);
    reader.next_piece()
}

/// Feeds a piece, and begins the next one.
fn feed_piece<A: Allocator>(
    rt: &impl Abort,
    reader: &mut AuditReader<A>,
    piece: &[u8],
) -> Result<(), AuditFault> {
    for bytes in piece.chunks(100) {
        feed(rt, reader, bytes)?;
    }
    next_piece(rt, reader)
}

/// Asserts that every call answers this fault, with memory too, and that nothing more is counted.
pub(crate) fn assert_stays<A: Allocator>(
    rt: &impl Abort,
    reader: AuditReader<A>,
    fault: AuditFault,
) {
    let mut reader = reader;
    let counts = (reader.bytes(), reader.pieces());
    for _ in 0..2 {
        assert_same(rt, feed(rt, &mut reader, b"more"), Err(fault));
        assert_same(rt, next_piece(rt, &mut reader), Err(fault));
        assert_same(rt, (reader.bytes(), reader.pieces()), counts);
    }
    assert_same(rt, reader.finish().err(), Some(fault));
}

/// Audits pieces that come in feeds.
fn read<A: Allocator + Copy>(rt: &impl Abort, alloc: A, pieces: &[&[u8]]) -> Told {
    let Ok(mut reader) = AuditReader::new(alloc, &Uuid::from_u128(1), 0) else {
        return Told::NoReader;
    };
    for piece in pieces {
        if let Err(fault) = feed_piece(rt, &mut reader, piece) {
            assert_stays(rt, reader, fault);
            return Told::Audited(Err(fault));
        }
    }
    found(reader.finish())
}

/// Where an audit stops if it has no memory for its first list of gaps, which has room for four, or for the next one.
static STOPS: [AuditFault; 2] = [
    AuditFault {
        piece: 0,
        offset: 0,
        cause: AuditCause::NoMemory,
    },
    AuditFault {
        piece: 1,
        offset: PACKET as u64,
        cause: AuditCause::NoMemory,
    },
];

/// The refusal of this number of an audit.
fn stop(number: usize) -> Option<Told> {
    STOPS.get(number).map(|fault| Told::Audited(Err(*fault)))
}

impl<'a, A: Allocator + Copy> Call<A> for Row<'a> {
    type Object = A;

    type Answer = Told;

    fn object(&self, _rt: &impl Abort, alloc: A) -> A {
        alloc
    }

    fn make(&self, rt: &impl Abort, object: &mut A) -> Told {
        match self.asked {
            Asked::Name => name(rt, *object),
            Asked::FileName => file_name(rt, *object),
            Asked::Packet => encoded(rt, *object, self.plain),
            Asked::Metadata => metadata(*object, self.plain),
            Asked::Audit => found(audit_stream(*object, &Uuid::from_u128(1), 0, &self.pieces)),
            Asked::Read => read(rt, *object, &self.pieces),
        }
    }

    fn granted(&self, rt: &impl Abort) -> Told {
        match self.asked {
            Asked::Name | Asked::FileName | Asked::Packet => Told::Named(Some(true)),
            Asked::Metadata => Told::Written(Ok(()), metadata_bytes(rt, self.plain)),
            Asked::Audit | Asked::Read => Told::Audited(Ok(true)),
        }
    }

    fn refusal(&self, number: usize) -> Option<Told> {
        match self.asked {
            Asked::Name | Asked::FileName | Asked::Packet => only(number, Told::Named(None)),
            Asked::Metadata => only(number, Told::Written(Err(WriteFault::NoMemory), 0)),
            Asked::Audit => stop(number),
            Asked::Read => match number.checked_sub(1) {
                None => Some(Told::NoReader),
                Some(gap) => stop(gap),
            },
        }
    }

    fn assert_alike(&self, _rt: &impl Abort, _one: &A, _other: &A) {}
}

static CALLS: [Asked; 6] = [
    Asked::Name,
    Asked::FileName,
    Asked::Packet,
    Asked::Metadata,
    Asked::Audit,
    Asked::Read,
];

/// All bytes of the texts of packets, one after another.
fn bytes_of(rt: &impl Abort, alloc: Global, texts: &[PacketText]) -> Vec<u8> {
    let mut bytes = Vec::new(alloc);
    for text in texts {
        bytes.extend_from_slice(text.text()).expect(rt, "memory");
    }
    bytes
}

/// The two halves of the stream's file.
fn halves<'a>(rt: &impl Abort, text: &'a [u8]) -> [&'a [u8]; 2] {
    assert_same(rt, text.len(), 6 * PACKET);
    let (first, second) = text.split_at_checked(3 * PACKET).expect(rt, "six packets");
    [first, second]
}

/// Makes each call with too little memory. How often, and how many requests were refused in turn.
fn refuse_calls(rt: &impl Abort, plain: Global, pieces: [&[u8]; 2]) -> (usize, usize) {
    let heap = new_heap(rt, plain);
    let memory = Rationed::new(plain);
    let (mut tried, mut refused) = (0usize, 0usize);
    for asked in &CALLS {
        let row = Row {
            plain,
            pieces,
            asked: *asked,
        };
        tried = tried.wrapping_add(refuse_each(rt, plain, &heap, UNIT, &row));
        refused = refused.wrapping_add(refuse_each_request(rt, &memory, &row));
    }
    (tried, refused)
}

#[test]
fn an_audit_and_a_file_without_memory_say_so(rt: HostRuntime) {
    let stream = with_gaps(&rt, rt.alloc());
    let part = stream.part(0).expect(&rt, "a part");
    let text = bytes_of(&rt, rt.alloc(), part.texts());
    let (tried, refused) = refuse_calls(&rt, rt.alloc(), halves(&rt, &text));
    drop(stream);
    assert!(rt; tried >= 4_000, "{tried}");
    assert!(rt; refused >= 8, "{refused}");
}
