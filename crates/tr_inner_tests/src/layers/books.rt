//! Parts of streams with their packets, the runs of cleared ones, counters, geometries, and what is shown of a stream.

ghost use Rattle.std.specs.Prelude.{◌≤◌};
ghost use Rattle.tr_book.specs.Parts.{records_of};

use super::{assert_packets, assert_same, packet, record};
use crate::packing::{put, put_in_part};
use std::alloc::Global;
use std::mem;
use std::process::Abort;
use tr_book::{Book, Part, Parts, Run, Runs, StreamSnap};
use tr_packet::{Head, Packet, PacketText, Packets};
use tr_terms::{Geometry, GeometryFault};
use tr_testing::moment;
use uuid::Uuid;

/// A packet of two records with payloads of `len` bytes.
fn only(rt: &impl Abort, alloc: Global, seq: u64, len: usize) -> Vec<PacketText>
    ensures { records_of result.items ≤ 2 }
{
    let mut texts = Vec::new(alloc);
    put(
        rt,
        alloc,
        &mut texts,
        &packet(rt, alloc, seq, 1000, 1000, len),
    );
    texts
}

/// Puts such a packet into the current part.
fn push(rt: &impl Abort, alloc: Global, parts: &mut Parts, seq: u64, len: usize) {
    put_in_part(rt, alloc, parts, &packet(rt, alloc, seq, 1000, 1000, len));
}

/// Cuts after packets; the next part begins at this serial.
fn cut(rt: &impl Abort, parts: &mut Parts, packets: Vec<PacketText>, next: u64)
    requires { records_of packets.items ≤ 2 }
{
    assert!(rt; !parts.current().is_released() && parts.current().records() < 1000);
    let Ok(ready) = mem::replace(parts, Parts::new(*packets.allocator())).ready(packets.len())
    else {
        panic!(rt; "memory")
    };
    *parts = ready.cut(packets, next);
}

/// Asserts the number of a part, its records and its bytes.
fn assert_part(rt: &impl Abort, part: &Part, wanted: (u64, u64, u128)) {
    assert_same(rt, (part.id(), part.records(), part.bytes()), wanted);
}

/// The same for a part by its place.
fn assert_part_at(rt: &impl Abort, parts: &Parts, k: u64, records: u64, bytes: u128) {
    let part = parts.part(k).expect(rt, "a part");
    assert_part(rt, part, (k, records, bytes));
}

// 80 bytes and 24 for each record beside the payloads: 228 if they have 50 bytes, 256 if they have 64
#[test]
fn parts_sum_up_their_packets(rt: HostRuntime) {
    let mut parts = Parts::new(rt.alloc());
    assert_same(&rt, parts.cuts(), 0);
    assert_part(&rt, parts.current(), (0, 0, 0));
    push(&rt, rt.alloc(), &mut parts, 0, 50);
    assert_part(&rt, parts.current(), (0, 2, 228));
    push(&rt, rt.alloc(), &mut parts, 1, 64);
    assert_part_at(&rt, &parts, 0, 4, 484);
}

/// Asserts that one part is closed, which has the packets 0 and 1, with the records 0 to 3.
fn assert_only_closed(rt: &impl Abort, parts: &Parts) {
    assert_same(rt, parts.cuts(), 1);
    let first = parts.part(0).expect(rt, "a closed part");
    assert_part(rt, first, (0, 4, 484));
    assert_packets(rt, first.packets(), (2, 1));
    assert_same(rt, (first.seq_of(1), first.seq_of(8)), (Some(0), None));
}

#[test]
fn a_cut_closes_the_part_behind_its_packets(rt: HostRuntime) {
    let mut parts = Parts::new(rt.alloc());
    push(&rt, rt.alloc(), &mut parts, 0, 50);
    cut(&rt, &mut parts, only(&rt, rt.alloc(), 1, 64), 4);
    assert_same(&rt, parts.cuts(), 1);
    assert_part(&rt, parts.current(), (1, 0, 0));
    push(&rt, rt.alloc(), &mut parts, 2, 50);
    assert_only_closed(&rt, &parts);
    assert_part_at(&rt, &parts, 1, 2, 228);
    cut(&rt, &mut parts, Vec::new(rt.alloc()), 6);
    assert_part_at(&rt, &parts, 2, 0, 0);
    assert_same(&rt, parts.part(3).is_none(), true);
}

/// Serials, and which part was the current one when each was offered: the second one had no offer.
static PLACES: [(u64, u64); 7] = [
    (0, 0),
    (3, 0),
    (4, 2),
    (5, 2),
    (6, 3),
    (7, 3),
    (u64::MAX, 3),
];

#[test]
fn a_part_is_found_by_where_parts_began(rt: HostRuntime) {
    let mut parts = Parts::new(rt.alloc());
    assert_same(&rt, parts.place_of(0), 0);
    cut(&rt, &mut parts, only(&rt, rt.alloc(), 0, 50), 4);
    cut(&rt, &mut parts, Vec::new(rt.alloc()), 4);
    cut(&rt, &mut parts, only(&rt, rt.alloc(), 2, 50), 6);
    for (serial, place) in &PLACES {
        assert_same(&rt, (*serial, parts.place_of(*serial)), (*serial, *place));
    }
}

/// The numbers of packets, and the serials of their records. Serials are missed within the first and within the last, and the
/// second goes on where the first ends.
static SERIALS: [(u64, &[u64]); 3] = [(4, &[0, 1, 3]), (5, &[4, 5]), (7, &[6, 9, 10, 11])];

/// Their runs: a run ends where a serial is missed, and with its packet.
static RUNS: [Run; 5] = [
    Run {
        seq: 4,
        first: 0,
        count: 2,
    },
    Run {
        seq: 4,
        first: 3,
        count: 1,
    },
    Run {
        seq: 5,
        first: 4,
        count: 2,
    },
    Run {
        seq: 7,
        first: 6,
        count: 1,
    },
    Run {
        seq: 7,
        first: 9,
        count: 3,
    },
];

/// Serials, and the packet that had each, and whether the last run has it.
static HOLDERS: [(u64, Option<u64>, bool); 14] = [
    (0, Some(4), false),
    (1, Some(4), false),
    (2, None, false),
    (3, Some(4), false),
    (4, Some(5), false),
    (5, Some(5), false),
    (6, Some(7), false),
    (7, None, false),
    (8, None, false),
    (9, Some(7), true),
    (10, Some(7), true),
    (11, Some(7), true),
    (12, None, false),
    (u64::MAX, None, false),
];

/// A packet of records with these serials, without payloads.
fn packet_of(rt: &impl Abort, alloc: Global, seq: u64, serials: &[u64]) -> Packet {
    let mut records = Vec::new(alloc);
    for serial in serials {
        let record = record(rt, alloc, *serial, 1000, 0);
        records.push(record).expect(rt, "memory");
    }
    let head = Head {
        uuid: Uuid::nil(),
        stream: 0,
        begin: moment(1000),
        end: moment(1000),
        seq,
        lost: 0,
    };
    Packet::checked(head, records).expect(rt, "a packet")
}

/// The texts of these packets.
fn texts_of(rt: &impl Abort, alloc: Global, rows: &[(u64, &[u64])]) -> Vec<PacketText> {
    let mut texts = Vec::new(alloc);
    for (seq, serials) in rows {
        put(rt, alloc, &mut texts, &packet_of(rt, alloc, *seq, serials));
    }
    texts
}

/// The runs of packets: those of the first one's records, and after them those of the others.
fn runs_of(rt: &impl Abort, alloc: Global, texts: &[PacketText]) -> Runs {
    let mut packets = Packets::new(texts);
    let first = packets.next().expect(rt, "a packet");
    let mut runs = Runs::new(alloc);
    let pushed = runs.push_records(first.head().seq, first.count(), first.records());
    pushed.expect(rt, "memory");
    let mut more = Runs::new(alloc);
    more.push_packets(packets).expect(rt, "memory");
    runs.append(more).expect(rt, "memory");
    runs
}

#[test]
fn runs_end_where_serials_are_missed_and_with_their_packets(rt: HostRuntime) {
    let texts = texts_of(&rt, rt.alloc(), &SERIALS);
    let runs = runs_of(&rt, rt.alloc(), &texts);
    assert_same(&rt, runs.as_slice(), RUNS.as_slice());
    let last = runs.as_slice().last().expect(&rt, "a run");
    for (serial, seq, has) in &HOLDERS {
        let found = (*serial, runs.seq_of(*serial), last.has(*serial));
        assert_same(&rt, found, (*serial, *seq, *has));
        assert_same(&rt, (*serial, runs.search(*serial)), (*serial, *seq));
    }
}

/// Serials, and the cleared packet that had each: packets 0 and 1 are in a closed part.
static CLEARED: [(u64, Option<u64>); 8] = [
    (0, None),
    (3, None),
    (4, Some(2)),
    (5, Some(2)),
    (6, Some(3)),
    (7, Some(3)),
    (9, Some(4)),
    (10, None),
];

/// Clears the current part, and after it a packet with this number.
fn clear(rt: &impl Abort, alloc: Global, parts: &mut Parts, seq: u64) {
    let texts = only(rt, alloc, seq, 50);
    let mut more = Runs::new(alloc);
    more.push_packets(Packets::new(&texts)).expect(rt, "memory");
    parts.clear(more).expect(rt, "memory");
}

#[test]
fn a_clear_keeps_runs_and_closed_parts(rt: HostRuntime) {
    let mut parts = Parts::new(rt.alloc());
    push(&rt, rt.alloc(), &mut parts, 0, 50);
    cut(&rt, &mut parts, only(&rt, rt.alloc(), 1, 64), 4);
    push(&rt, rt.alloc(), &mut parts, 2, 50);
    clear(&rt, rt.alloc(), &mut parts, 3);
    clear(&rt, rt.alloc(), &mut parts, 4);
    assert_only_closed(&rt, &parts);
    assert_part_at(&rt, &parts, 1, 0, 0);
    for (serial, seq) in &CLEARED {
        assert_same(&rt, (*serial, parts.seq_cleared(*serial)), (*serial, *seq));
    }
}

/// How many records are cleared, and how many of them had been consumed, and the sums so far.
static CLEARS: [((u64, u64), (u64, u64)); 3] = [
    ((6, 2), (6, 2)),
    ((0, 0), (6, 2)),
    ((5, 5), (11, 7)),
];

/// Notes that records were cleared, and how many of them had been consumed.
fn note_cleared(rt: &impl Abort, counters: &mut Book, count: u64, consumed: u64) {
    assert!(rt; counters.cleared() < 1000 && counters.withdrawn() < 1000);
    assert!(rt; count < 1000 && consumed < 1000);
    counters.note_cleared(count, consumed);
}

#[test]
fn counters_sum_up_clears(rt: HostRuntime) {
    let mut counters = Book::new();
    for ((count, consumed), wanted) in &CLEARS {
        note_cleared(&rt, &mut counters, *count, *consumed);
        assert_same(&rt, (counters.cleared(), counters.withdrawn()), *wanted);
    }
    assert_same(&rt, (counters.offered(), counters.consumed()), (0, 0));
}

/// Sizes and counts, and why they are refused.
static GEOMETRIES: [(u64, u64, Option<GeometryFault>); 16] = [
    (255, 2, Some(GeometryFault::BadSize)),
    (2_097_152, 2, Some(GeometryFault::BadSize)),
    (255, 3, Some(GeometryFault::BadSize)),
    (0, 2, Some(GeometryFault::BadSize)),
    (128, 2, Some(GeometryFault::BadSize)),
    (768, 2, Some(GeometryFault::BadSize)),
    (256, 3, Some(GeometryFault::BadCount)),
    (256, 128, Some(GeometryFault::BadCount)),
    (256, 0, Some(GeometryFault::BadCount)),
    (256, 1, Some(GeometryFault::BadCount)),
    (1_048_576, 65, Some(GeometryFault::BadCount)),
    (256, 2, None),
    (131_072, 2, None),
    (1_048_576, 2, None),
    (1_048_576, 64, None),
    (4096, 8, None),
];

/// Asserts that a size and a count are taken and given back, or why they are refused.
fn assert_geometry(rt: &impl Abort, wanted: (u64, u64, Option<GeometryFault>)) {
    let found = match Geometry::new(wanted.0, wanted.1) {
        Ok(geometry) => (geometry.size() as u64, geometry.count() as u64, None),
        Err(fault) => (wanted.0, wanted.1, Some(fault)),
    };
    assert_same(rt, found, wanted);
}

#[test]
fn geometries_have_limits(rt: HostRuntime) {
    for wanted in &GEOMETRIES {
        assert_geometry(&rt, *wanted);
    }
}

#[test]
fn a_snap_gives_back_what_it_is_made_of(rt: HostRuntime) {
    let snap = StreamSnap::new(2, 9, 1, only(&rt, rt.alloc(), 3, 50));
    let found = (snap.stream(), snap.offered(), snap.lost());
    assert_same(&rt, found, (2, 9, 1));
    assert_packets(&rt, snap.packets(), (1, 3));
}
