//! Worked examples of the packet format, what makes no packet, and damaged bytes.

use crate::asserting::assert_same;
use crate::packing::put;
use std::alloc::Global;
use std::process::Abort;
use tr_packet::{
    Head, Packet, PacketFault, PacketText, PacketView, Packets, decode_packet, encode_packet,
};
use tr_record::Rec;
use tr_terms::limits::LARGEST_PACKET;
use tr_testing::moment;
use uuid::Uuid;

/// A packet of one record, as it is written: the trace 1, stream 0, closed at moment 9, number 0, nothing discarded, and the
/// record of id 7, moment 1 and serial 0 with the payload `A`.
static ONE: [u8; 105] = [
    0xc1, 0x1f, 0xfc, 0xc1, 0, 0, 0, 0, 0, 0, 0, 0, 0, 0, 0, 0, 0, 0, 0, 1, 0, 0, 0, 0, 0, 0, 0, 0,
    0, 0, 0, 0, 1, 0, 0, 0, 0, 0, 0, 0, 9, 0, 0, 0, 0, 0, 0, 0, 0x48, 3, 0, 0, 0, 0, 0, 0, 0x48, 3,
    0, 0, 0, 0, 0, 0, 0, 0, 0, 0, 0, 0, 0, 0, 0, 0, 0, 0, 0, 0, 0, 0, 7, 0, 0, 0, 1, 0, 0, 0, 0, 0,
    0, 0, 0, 0, 0, 0, 0, 0, 0, 0, 1, 0, 0, 0, 0x41,
];

/// The identifier 1.
static TRACE: [u8; 16] = [0, 0, 0, 0, 0, 0, 0, 0, 0, 0, 0, 0, 0, 0, 0, 1];

fn head() -> Head {
    Head {
        uuid: Uuid::from_bytes(TRACE),
        stream: 0,
        begin: moment(1),
        end: moment(9),
        seq: 0,
        lost: 0,
    }
}

/// The serial, the moment and the length of a record.
type Row = (u64, u64, usize);

/// Records with these serials, moments and lengths.
fn records(rt: &impl Abort, alloc: Global, rows: &[Row]) -> Vec<Rec> {
    let mut records = Vec::new(alloc);
    for (serial, at, len) in rows {
        let payload = vec![in alloc; 0x41; *len].expect(rt, "memory");
        assert!(rt; payload.len() <= LARGEST_PACKET);
        records
            .push(Rec::new(*serial, moment(*at), 7, payload))
            .expect(rt, "memory");
    }
    records
}

/// A packet with this head and records.
fn packet(rt: &impl Abort, alloc: Global, head: Head, rows: &[Row]) -> Packet {
    Packet::checked(head, records(rt, alloc, rows)).expect(rt, "a packet")
}

/// The bytes of the packet with this head and records.
fn written(rt: &impl Abort, alloc: Global, head: Head, rows: &[Row]) -> Vec<u8> {
    encode_packet(alloc, &packet(rt, alloc, head, rows)).expect(rt, "memory")
}

#[test]
fn a_packet_of_one_record(rt: HostRuntime) {
    let packet = packet(&rt, rt.alloc(), head(), &[(0, 1, 1)]);
    assert_same(&rt, packet.head(), head());
    assert_same(&rt, packet.size(), 105);
    assert_same(&rt, packet.records().len(), 1);
    let bytes = written(&rt, rt.alloc(), head(), &[(0, 1, 1)]);
    assert_same(&rt, bytes.as_slice(), ONE.as_slice());
}

/// Asserts the number of the packet that is shown next, the serial of its only record, and how many there are with it.
fn assert_next(rt: &impl Abort, shown: &mut Packets<'_>, count: usize, seq: u64) {
    assert_same(rt, shown.len(), count);
    let packet = shown.next().expect(rt, "a packet");
    assert_same(rt, (packet.head().seq, packet.last_serial()), (seq, seq));
    assert!(rt; packet.records().has(seq) && !packet.records().has(4));
}

/// The texts of packets with these numbers, which are also the serials of their only records.
fn texts_of(rt: &impl Abort, alloc: Global, numbers: &[u64]) -> Vec<PacketText> {
    let mut texts = Vec::new(alloc);
    for seq in numbers {
        let mut head = head();
        head.seq = *seq;
        put(
            rt,
            alloc,
            &mut texts,
            &packet(rt, alloc, head, &[(*seq, 1, 1)]),
        );
    }
    texts
}

#[test]
fn packets_are_shown_one_after_another(rt: HostRuntime) {
    let texts = texts_of(&rt, rt.alloc(), &[3, 5]);
    let mut shown = Packets::new(&texts);
    assert_next(&rt, &mut shown, 2, 3);
    assert_next(&rt, &mut shown, 1, 5);
    assert!(rt; shown.next().is_none());
}

#[test]
fn a_packet_is_sealed_where_its_records_stand(rt: HostRuntime) {
    let bytes = written(&rt, rt.alloc(), head(), &[(0, 1, 1)]);
    let (view, _) = decode_packet(&bytes).expect(&rt, "a packet");
    let mut page = vec![in rt.alloc(); 7; 80].expect(&rt, "memory");
    page.extend_from_slice(view.records().text())
        .expect(&rt, "memory");
    let text = PacketText::seal(view.head(), view.count(), page);
    assert_same(&rt, text.text(), ONE.as_slice());
    assert_same(&rt, (text.head(), text.count()), (head(), 1));
}

/// Records, and whether they make a packet with that head.
static MAKES: [(&[Row], bool); 10] = [
    (&[(4, 1, 0), (6, 1, 3), (7, 9, 0)], true),
    (&[(0, 1, 1_048_472)], true),
    (&[(0, 1, 1_048_473)], false),
    (&[(0, 1, 600_000), (1, 1, 600_000)], false),
    (&[], false),
    (&[(0, 2, 0)], false),
    (&[(0, 1, 0), (1, 3, 0), (2, 2, 0)], false),
    (&[(0, 1, 0), (1, 10, 0)], false),
    (&[(0, 1, 0), (0, 1, 0)], false),
    (&[(1, 1, 0), (0, 1, 0)], false),
];

/// Asserts which records make a packet.
fn assert_makes(rt: &impl Abort, alloc: Global, rows: &[(&[Row], bool)]) {
    for (number, (row, makes)) in rows.iter().enumerate() {
        let made = Packet::checked(head(), records(rt, alloc, row)).is_some();
        assert_same(rt, (number, made), (number, *makes));
    }
}

#[test]
fn what_makes_a_packet(rt: HostRuntime) {
    assert_makes(&rt, rt.alloc(), &MAKES);
}

/// The packet of records 0 and 1, of moments 1 and 2 with payloads of 50 bytes, closed at moment 3: 228 bytes.
fn two_records(rt: &impl Abort, alloc: Global) -> Vec<u8> {
    let mut head = head();
    head.end = moment(3);
    written(rt, alloc, head, &[(0, 1, 50), (1, 2, 50)])
}

/// Asserts the fault of the bytes, if any. `case` says which bytes they are.
fn assert_fault(rt: &impl Abort, case: (u64, u64), bytes: &[u8], fault: Option<PacketFault>) {
    assert_same(rt, (case, decode_packet(bytes).err()), (case, fault));
}

/// Asserts that the bytes begin with a packet of this size.
fn assert_size(rt: &impl Abort, bytes: &[u8], size: usize) {
    assert_same(rt, decode_packet(bytes).expect(rt, "a packet").1, size);
}

/// Asserts the serial, the moment and the length of each record of a packet.
fn assert_records(rt: &impl Abort, packet: &PacketView<'_>, rows: &[Row]) {
    assert_same(rt, packet.count(), rows.len());
    let mut records = packet.records();
    for row in rows {
        let r = records.next().expect(rt, "a record");
        assert_same(rt, (r.serial(), r.moment().get(), r.payload().len()), *row);
    }
    assert!(rt; records.next().is_none());
}

#[test]
fn the_packet_of_one_record_is_read(rt: HostRuntime) {
    let (packet, size) = decode_packet(&ONE).expect(&rt, "a packet");
    assert_same(&rt, size, 105);
    assert_same(&rt, packet.head(), head());
    assert_same(&rt, packet.last_serial(), 0);
    assert_records(&rt, &packet, &[(0, 1, 1)]);
    let r = packet.records().next().expect(&rt, "a record");
    assert_same(&rt, r.id(), 7);
    assert_same(&rt, r.payload(), b"A".as_slice());
}

/// The head of a packet at the limits of its numbers.
fn head_at_limits() -> Head {
    let mut head = head();
    head.stream = 255;
    head.seq = u64::MAX;
    head.lost = 1 << 63;
    head
}

/// Records at the limits of their serials.
static LIMITS: [Row; 3] = [(4, 1, 0), (u64::MAX - 1, 1, 3), (u64::MAX, 9, 700)];

#[test]
fn what_was_written_is_read_whatever_follows(rt: HostRuntime) {
    let mut bytes = written(&rt, rt.alloc(), head_at_limits(), &LIMITS);
    append(&rt, &mut bytes, &ONE);
    append(&rt, &mut bytes, b"and more");
    let (read, size) = decode_packet(&bytes).expect(&rt, "a packet");
    assert_same(&rt, size, 80 + 3 * 24 + 703);
    assert_same(&rt, read.head(), head_at_limits());
    assert_same(&rt, read.last_serial(), u64::MAX);
    assert_records(&rt, &read, &LIMITS);
    let rest = bytes.get(size..).expect(&rt, "the bytes behind");
    assert_size(&rt, rest, 105);
}

/// Appends bytes.
fn append(rt: &impl Abort, bytes: &mut Vec<u8>, more: &[u8]) {
    bytes.extend_from_slice(more).expect(rt, "memory");
}

/// Inverts the byte at this place.
fn invert(rt: &impl Abort, bytes: &mut [u8], at: usize) {
    *bytes.get_mut(at).expect(rt, "a byte") ^= 0xFF;
}

#[test]
fn a_damaged_byte(rt: HostRuntime) {
    let mut bytes = two_records(&rt, rt.alloc());
    assert_same(&rt, bytes.len(), 228);
    for at in 0..228 {
        let fault = match at {
            0..=3 => Some(PacketFault::BadMagic),
            20..=23 => Some(PacketFault::BadStreamId),
            48..=63 => Some(PacketFault::BadSize),
            100..=103 | 174..=177 => Some(PacketFault::BadRecord),
            92..=99 => Some(PacketFault::SerialOrder),
            32..=39 | 47 | 84..=91 | 158..=165 => Some(PacketFault::MomentOrder),
            _ => None,
        };
        invert(&rt, &mut bytes, at);
        assert_fault(&rt, (0, at as u64), &bytes, fault);
        invert(&rt, &mut bytes, at);
    }
}

#[test]
fn cut_bytes_are_short(rt: HostRuntime) {
    let bytes = two_records(&rt, rt.alloc());
    for len in 0..bytes.len() {
        assert_fault(
            &rt,
            (0, len as u64),
            &bytes[..len],
            Some(PacketFault::Short),
        );
    }
    assert_fault(&rt, (0, 228), &bytes, None);
}

/// Sets the size of a packet's content and its own, in bits.
fn set_sizes(rt: &impl Abort, bytes: &mut [u8], content: u64, size: u64) {
    let sizes = bytes.get_mut(48..64).expect(rt, "a head");
    let (first, second) = sizes.split_at_mut(8);
    first.copy_from_slice(&content.to_le_bytes());
    second.copy_from_slice(&size.to_le_bytes());
}

/// The size of the content and of the packet in bits, and the fault of two records with these.
static SIZES: [(u64, u64, Option<PacketFault>); 9] = [
    (1824, 1824, None),
    (1824, 1832, Some(PacketFault::BadSize)),
    (1832, 1824, Some(PacketFault::BadSize)),
    (1825, 1825, Some(PacketFault::BadSize)),
    (8 * 103, 8 * 103, Some(PacketFault::BadSize)),
    (8 * 104, 8 * 104, Some(PacketFault::BadRecord)),
    (8 * 1_048_577, 8 * 1_048_577, Some(PacketFault::BadSize)),
    (1832, 1832, Some(PacketFault::BadRecord)),
    (1816, 1816, Some(PacketFault::BadRecord)),
];

/// Asserts the fault of these bytes with each of these sizes.
fn assert_sizes(rt: &impl Abort, bytes: &mut [u8], rows: &[(u64, u64, Option<PacketFault>)]) {
    for (content, size, fault) in rows {
        set_sizes(rt, bytes, *content, *size);
        assert_fault(rt, (*content, *size), bytes, *fault);
    }
}

/// How many bytes follow a packet: more than its size can say.
const MORE: usize = LARGEST_PACKET + 1;

#[test]
fn sizes(rt: HostRuntime) {
    let mut bytes = two_records(&rt, rt.alloc());
    let more = vec![in rt.alloc(); 0; MORE].expect(&rt, "memory");
    append(&rt, &mut bytes, more.as_slice());
    assert_sizes(&rt, &mut bytes, &SIZES);
}

/// The 832 bits of a packet without a byte of payload, twice: its content, and all of it.
static LEAST: [u8; 16] = [0x40, 3, 0, 0, 0, 0, 0, 0, 0x40, 3, 0, 0, 0, 0, 0, 0];

#[test]
fn the_least_and_the_greatest_size(rt: HostRuntime) {
    let least = written(&rt, rt.alloc(), head(), &[(0, 1, 0)]);
    assert_same(&rt, least.len(), 104);
    assert_same(&rt, least.get(48..64), Some(LEAST.as_slice()));
    assert_size(&rt, &least, 104);
    let greatest = written(&rt, rt.alloc(), head(), &[(0, 1, 1_048_472)]);
    assert_size(&rt, &greatest, 1_048_576);
}

/// Where bytes are damaged for all faults at once, in the decoder's order.
static PLACES: [usize; 6] = [0, 20, 48, 174, 92, 32];

/// How many of the faults are mended, how many bytes are left, and the fault that shows.
static FAULTS: [(usize, usize, PacketFault); 8] = [
    (0, 79, PacketFault::Short),
    (0, 200, PacketFault::BadMagic),
    (1, 200, PacketFault::BadStreamId),
    (2, 200, PacketFault::BadSize),
    (3, 200, PacketFault::Short),
    (3, 228, PacketFault::BadRecord),
    (4, 228, PacketFault::SerialOrder),
    (5, 228, PacketFault::MomentOrder),
];

/// Asserts the fault that shows when the first of the faults at these places are mended.
fn assert_first_faults(
    rt: &impl Abort,
    alloc: Global,
    places: &[usize],
    rows: &[(usize, usize, PacketFault)],
) {
    for (mended, len, fault) in rows {
        let mut bytes = two_records(rt, alloc);
        for at in places.get(*mended..).expect(rt, "a place") {
            invert(rt, &mut bytes, *at);
        }
        let left = bytes.get(..*len).expect(rt, "a longer packet");
        assert_fault(rt, (*mended as u64, *len as u64), left, Some(*fault));
    }
}

#[test]
fn the_first_fault_is_answered(rt: HostRuntime) {
    assert_first_faults(&rt, rt.alloc(), &PLACES, &FAULTS);
}

static NAMES: [(PacketFault, &str, &str); 7] = [
    (PacketFault::Short, "P1", "Short"),
    (PacketFault::BadMagic, "P2", "BadMagic"),
    (PacketFault::BadStreamId, "P3", "BadStreamId"),
    (PacketFault::BadSize, "P4", "BadSize"),
    (PacketFault::BadRecord, "P5", "BadRecord"),
    (PacketFault::SerialOrder, "P6", "SerialOrder"),
    (PacketFault::MomentOrder, "P7", "MomentOrder"),
];

/// Asserts the codes and the names of faults, and that each prints both.
fn assert_named(rt: &impl Abort, alloc: Global, rows: &[(PacketFault, &str, &str)]) {
    for (fault, code, name) in rows {
        assert_same(rt, (fault.code(), fault.name()), (*code, *name));
        let words = format!(in alloc; "{code} {name}").expect(rt, "memory");
        let printed = format!(in alloc; "{fault}").expect(rt, "memory");
        assert_same(rt, printed.as_str(), words.as_str());
    }
}

#[test]
fn faults_have_codes_and_names(rt: HostRuntime) {
    assert_named(&rt, rt.alloc(), &NAMES);
}
