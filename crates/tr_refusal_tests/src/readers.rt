//! An audit whose bytes come in feeds, of packets of more bytes than it has memory for from the beginning.

use crate::files::{assert_stays, feed};
use crate::turns::assert_same;
use std::alloc::Global;
use std::process::Abort;
use tr_chunk::{AuditCause, AuditFault, AuditReader};
use tr_packet::{Head, Packet, encode_packet};
use tr_record::Rec;
use tr_terms::limits::{LARGEST_PACKET, SMALLEST_PACKET};
use tr_testing::{Rationed, moment};
use uuid::Uuid;

/// The packet of this number, of `bytes` bytes, with one record.
fn packet(rt: &impl Abort, alloc: Global, number: u64, bytes: usize) -> Vec<u8> {
    assert!(rt; SMALLEST_PACKET <= bytes && bytes <= LARGEST_PACKET);
    let payload = vec![in alloc; 0x61; bytes - SMALLEST_PACKET].expect(rt, "memory");
    let record = Rec::new(number, moment(1), 7, payload);
    let head = Head {
        uuid: Uuid::from_u128(1),
        stream: 0,
        begin: moment(1),
        end: moment(1),
        seq: number,
        lost: 0,
    };
    let records = vec![in alloc; record].expect(rt, "memory");
    let packet = Packet::checked(head, records).expect(rt, "a packet");
    encode_packet(alloc, &packet).expect(rt, "memory")
}

/// A file of two packets: one of 105 bytes, and one of `bytes` bytes.
fn file(rt: &impl Abort, alloc: Global, bytes: usize) -> Vec<u8> {
    let mut file = packet(rt, alloc, 0, 105);
    let second = packet(rt, alloc, 1, bytes);
    file.extend_from_slice(&second).expect(rt, "memory");
    file
}

/// Where an audit without memory for the second packet stops.
const STOP: AuditFault = AuditFault {
    piece: 0,
    offset: 105,
    cause: AuditCause::NoMemory,
};

/// Feeds a file, 50,000 bytes at a time, to a reader that gets so many requests for memory granted. How many packets it found.
fn read(rt: &impl Abort, memory: &Rationed, file: &[u8], requests: u64) -> Result<u64, AuditFault> {
    memory.limit(requests);
    let mut reader = AuditReader::new(memory, &Uuid::from_u128(1), 0).expect(rt, "memory");
    for bytes in file.chunks(50_000) {
        if let Err(fault) = feed(rt, &mut reader, bytes) {
            memory.lift();
            assert_stays(rt, reader, fault);
            return Err(fault);
        }
    }
    let audit = reader.finish()?;
    Ok(audit.packets)
}

/// The bytes of a file's second packet, how many requests are granted, and what is found: with the first 65,536 bytes a reader
/// holds every packet that has as many, and then it takes twice as much each time.
static READS: [(usize, u64, Result<u64, AuditFault>); 6] = [
    (65_536, 1, Ok(2)),
    (65_537, 1, Err(STOP)),
    (65_537, 2, Ok(2)),
    (1_048_576, 1, Err(STOP)),
    (1_048_576, 4, Err(STOP)),
    (1_048_576, 5, Ok(2)),
];

#[test]
fn a_reader_asks_for_more_at_a_larger_packet(rt: HostRuntime) {
    let memory = Rationed::new(rt.alloc());
    for (bytes, requests, wanted) in &READS {
        let file = file(&rt, rt.alloc(), *bytes);
        let found = read(&rt, &memory, &file, *requests);
        assert_same(
            &rt,
            (*bytes, *requests, found),
            (*bytes, *requests, *wanted),
        );
    }
}
