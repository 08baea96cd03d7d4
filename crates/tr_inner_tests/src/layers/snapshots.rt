//! Worked examples of snapshots, and sinks that fail.

use super::{assert_same, packet};
use crate::packing::put;
use std::alloc::Global;
use std::process::Abort;
use tr_book::StreamSnap;
use tr_chunk::WriteFault;
use tr_packet::decode_packet;
use tr_record::{MemorySink, Records, WriterSink};
use tr_snapshot::{Snapshot, count, oldest_serial, write_snap};
use tr_testing::{FailsAfter, moment};

/// A stream after six offers of 64 bytes; its ring of two sub-buffers holds the last four.
fn snap(rt: &impl Abort, alloc: Global) -> StreamSnap {
    let older = packet(rt, alloc, 1, 3, 4, 64);
    let newer = packet(rt, alloc, 2, 5, 6, 64);
    let mut packets = Vec::new(alloc);
    put(rt, alloc, &mut packets, &older);
    put(rt, alloc, &mut packets, &newer);
    StreamSnap::new(0, 6, 0, packets)
}

/// Asserts the number of a stream, how many records it was offered, the oldest one shown, and how many are shown.
fn assert_shown(rt: &impl Abort, snap: &StreamSnap, wanted: (u64, u64, Option<u64>, u64)) {
    let found = (
        snap.stream(),
        snap.offered(),
        oldest_serial(snap),
        count(snap),
    );
    assert_same(rt, found, wanted);
}

/// What a session shows at moment 10 of that stream and of one without records.
fn snapshot(rt: &impl Abort, alloc: Global) -> Snapshot {
    let empty = StreamSnap::new(1, 0, 0, Vec::new(alloc));
    let streams = vec![in alloc; snap(rt, alloc), empty].expect(rt, "memory");
    Snapshot::new(moment(10), streams)
}

#[test]
fn a_session_of_two_streams(rt: HostRuntime) {
    let snapshot = snapshot(&rt, rt.alloc());
    assert_same(&rt, snapshot.moment().get(), 10);
    let [first, second] = snapshot.streams() else {
        panic!(rt; "two streams")
    };
    assert_shown(&rt, first, (0, 6, Some(2), 4));
    assert_shown(&rt, second, (1, 0, None, 0));
    assert_written(&rt, rt.alloc(), first, &[(1, 2), (2, 4)]);
    assert_written(&rt, rt.alloc(), second, &[]);
}

/// Asserts the file of a stream, which is packets of 256 bytes: the number of each, and the serial of the first of its two
/// records.
fn assert_written(rt: &impl Abort, alloc: Global, snap: &StreamSnap, packets: &[(u64, u64)]) {
    let mut sink = MemorySink::new(alloc, 7);
    write_snap(&mut sink, snap).expect(rt, "a file");
    let file = sink.into_bytes();
    let mut bytes = file.as_slice();
    for (seq, serial) in packets {
        bytes = assert_packet(rt, bytes, *seq, *serial);
    }
    assert_same(rt, bytes.len(), 0);
}

/// Asserts the packet that bytes begin with: 256 bytes, its number, and the serials of its two records. What is after it.
fn assert_packet<'a>(rt: &impl Abort, bytes: &'a [u8], seq: u64, serial: u64) -> &'a [u8] {
    let (packet, size) = decode_packet(bytes).expect(rt, "a packet");
    assert_same(rt, (size, packet.head().seq, packet.count()), (256, seq, 2));
    assert_records(rt, packet.records(), serial);
    bytes.get(size..).expect(rt, "what is behind")
}

/// Asserts the serials of records, from this one on, and the lengths of their payloads.
fn assert_records(rt: &impl Abort, records: Records<'_>, serial: u64) {
    let mut serial = serial;
    for record in records {
        let found = (record.serial(), record.payload().len());
        assert_same(rt, found, (serial, 64));
        serial = serial.wrapping_add(1);
    }
}

/// How many bytes a sink takes, and what writing 512 bytes to it answers.
static WRITES: [(u64, Result<(), WriteFault>); 5] = [
    (0, Err(WriteFault::Write)),
    (255, Err(WriteFault::Write)),
    (256, Err(WriteFault::Write)),
    (511, Err(WriteFault::Write)),
    (512, Ok(())),
];

#[test]
fn a_sink_that_fails(rt: HostRuntime) {
    let snap = snap(&rt, rt.alloc());
    for (bytes, want) in &WRITES {
        let mut sink = WriterSink::new(FailsAfter::new(*bytes));
        let answer = write_snap(&mut sink, &snap);
        assert_same(&rt, (*bytes, answer), (*bytes, *want));
    }
}
