//! A module for each crate, and what they share.

ghost use Rattle.std.specs.Prelude.{◌≤◌, length};

mod books;
mod journals;
mod ledgers;
mod lines;
mod names;
mod records;
mod rings;
mod schedules;
mod session_books;
mod snapshots;
mod streams;
mod sub_buffers;
mod words;

use crate::asserting::assert_same;
use std::alloc::Global;
use std::process::Abort;
use tr_packet::{Head, Packet, Packets};
use tr_record::{Rec, RecView};
use tr_testing::moment;
use uuid::Uuid;

/// Asserts a record's serial, its moment, its id and its payload.
fn assert_record(rt: &impl Abort, record: Option<RecView<'_>>, wanted: (u64, u64, u32, &[u8])) {
    let record = record.expect(rt, "a record");
    let found = (
        record.serial(),
        record.moment().get(),
        record.id(),
        record.payload(),
    );
    assert_same(rt, found, wanted);
}

/// The longest payload. All others are a front of it.
static PAYLOAD: [u8; 152] = [0x61; 152];

/// A payload of `len` bytes.
fn payload(rt: &impl Abort, len: usize) -> &'static [u8] {
    PAYLOAD.get(..len).expect(rt, "a shorter payload")
}

/// A record with a payload of `len` bytes.
fn record(rt: &impl Abort, alloc: Global, serial: u64, at: u64, len: usize) -> Rec {
    let payload = payload(rt, len);
    assert!(rt; payload.len() <= 152);
    Rec::copy_of(alloc, serial, moment(at), 7, payload).expect(rt, "memory")
}

/// The packet of two records with the serials `2 * seq` and `2 * seq + 1`, at its first and its last moment.
fn packet(rt: &impl Abort, alloc: Global, seq: u64, begin: u64, end: u64, len: usize) -> Packet
    ensures { length result.records ≤ 2 }
{
    assert!(rt; seq < 1000);
    let first = record(rt, alloc, 2 * seq, begin, len);
    let second = record(rt, alloc, 2 * seq + 1, end, len);
    let head = Head {
        uuid: Uuid::nil(),
        stream: 0,
        begin: moment(begin),
        end: moment(end),
        seq,
        lost: 0,
    };
    let records = vec![in alloc; first, second].expect(rt, "memory");
    Packet::checked(head, records).expect(rt, "a packet")
}

/// Asserts how many packets there are, and the number of the last one.
fn assert_packets(rt: &impl Abort, packets: Packets<'_>, wanted: (usize, u64)) {
    let count = packets.len();
    let last = packets.last().expect(rt, "a packet");
    assert_same(rt, (count, last.head().seq), wanted);
}
