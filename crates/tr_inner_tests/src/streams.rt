//! What the worked examples share: streams of sub-buffers of 256 bytes, two to a ring, as lists of steps.

mod calls;
mod clears;
mod copies;
mod forgets;
mod gaps;
mod looks;
mod memory;
mod pages;
mod releases;
mod rings;
mod runs;

use crate::asserting::{Place, assert_at, assert_same};
use std::alloc::{Allocator, Global};
use std::process::Abort;
use tr_book::{Counts, StreamSnap};
use tr_packet::{Head, PacketView, Packets};
use tr_record::RecView;
use tr_stream::{
    ClearFault, Cleared, CutDone, CutFault, Fate, ForgetFault, OfferFault, Offered, ReleaseFault,
    Released, Stream, StreamConfig, TakeFault, Taken,
};
use tr_terms::{Geometry, Mode, SessionMode};
use tr_testing::moment;
use uuid::Uuid;

/// The serial, the moment and the length of a record.
type Row = (u64, u64, usize);

/// A packet of stream 0 as a test expects it: each of its records has id 7, and a payload of bytes that are all 97.
#[derive(Clone, Copy)]
struct PacketRow {
    seq: u64,
    discarded: u64,
    begin: u64,
    end: u64,
    records: &'static [Row],
}

/// A call of a stream and what it answers, or something that can be seen of the stream.
#[derive(Clone, Copy)]
enum Step {
    /// From now on the stream takes offers.
    Start,
    Stop,
    /// An offer: its moment, and how many bytes its payload has, all 97.
    Offer(u64, usize, Result<Offered, OfferFault>),
    /// Offers from the first moment up to the second, each with so many bytes of payload, whatever the answers.
    Offers(u64, u64, usize),
    Take(Result<Taken, TakeFault>),
    /// A cut at this moment.
    Cut(u64, Result<CutDone, CutFault>),
    Clear(Result<Cleared, ClearFault>),
    /// A release of the part with this number.
    Release(u64, Result<Released, ReleaseFault>),
    /// The parts below this number are forgotten.
    Forget(u64, Result<(), ForgetFault>),
    /// A peek at this moment. It shows the offers, the discarded records and the packets.
    Peek(u64, (u64, u64), &'static [PacketRow]),
    /// The fate of the record with this serial.
    Fate(u64, Option<Fate>),
    Counts(Counts),
    /// The records of the ring, the oldest first.
    Ring(&'static [Row]),
    /// The bytes, the records and the packets of the part with this number, which wasn't released.
    Part(u64, (u128, u64), &'static [PacketRow]),
    /// What is kept of the part with this number, which was released: how much it had.
    Rest(u64, Released),
    /// There is no part with this number.
    NoPart(u64),
}

/// What stream 0 is made with.
fn small(rt: &impl Abort, mode: Mode, session: SessionMode) -> StreamConfig {
    StreamConfig {
        uuid: Uuid::from_u128(1),
        number: 0,
        geometry: Geometry::new(256, 2).expect(rt, "a geometry"),
        mode,
        session,
    }
}

/// A stream made with that, which takes no offers yet.
fn new_stream<A: Allocator + Copy>(
    rt: &impl Abort,
    alloc: A,
    mode: Mode,
    session: SessionMode,
) -> Stream<A> {
    let config = small(rt, mode, session);
    Stream::new(
        alloc,
        config.uuid,
        config.number,
        config.geometry,
        config.mode,
        config.session,
    )
    .expect(rt, "memory")
}

/// Makes each list of steps with a stream of its own, and asserts what they answer.
fn assert_lists(rt: &impl Abort, alloc: Global, session: SessionMode, lists: &[(Mode, &[Step])]) {
    for (list, (mode, steps)) in lists.iter().enumerate() {
        let mut stream = new_stream(rt, alloc, *mode, session);
        assert_steps(rt, &mut stream, list, steps);
        drop(stream);
    }
}

/// Makes each step, and asserts what it answers.
fn assert_steps(rt: &impl Abort, stream: &mut Stream, list: usize, steps: &[Step]) {
    for (number, step) in steps.iter().enumerate() {
        assert_step(rt, stream, (list, number), step);
    }
}

static PAYLOAD: [u8; 153] = [97; 153];

/// Makes a step, and asserts what it answers.
fn assert_step(rt: &impl Abort, stream: &mut Stream, place: Place, step: &Step) {
    match *step {
        Step::Start => stream.set_active(true),
        Step::Stop => stream.set_active(false),
        Step::Offer(at, len, want) => assert_at(rt, place, offer(rt, stream, at, len), want),
        Step::Offers(from, to, len) => make_offers(rt, stream, from, to, len),
        Step::Take(want) => assert_at(rt, place, stream.take(), want),
        Step::Cut(at, want) => assert_at(rt, place, stream.cut(moment(at)), want),
        Step::Clear(want) => assert_at(rt, place, stream.clear(), want),
        Step::Release(k, want) => assert_at(rt, place, stream.release(k), want),
        Step::Forget(k, want) => assert_at(rt, place, stream.forget(k), want),
        Step::Peek(at, counts, rows) => {
            let snap = stream.peek(moment(at)).expect(rt, "a look");
            assert_look(rt, place, &snap, counts, rows);
        }
        _ => assert_seen(rt, stream, place, step),
    }
}

/// Asserts what is seen of a stream.
fn assert_seen(rt: &impl Abort, stream: &Stream, place: Place, step: &Step) {
    match *step {
        Step::Fate(serial, want) => assert_at(rt, place, stream.fate_of(serial), want),
        Step::Counts(counts) => assert_at(rt, place, stream.counts(), counts),
        Step::Ring(rows) => assert_ring(rt, stream, place, rows),
        Step::Part(number, size, rows) => {
            let part = stream.part(number).expect(rt, "a part");
            assert_at(rt, place, part.id(), number);
            assert_at(rt, place, (part.bytes(), part.records()), size);
            let count = rows.len() as u64;
            assert_at(
                rt,
                place,
                (part.is_released(), part.packet_count()),
                (false, count),
            );
            assert_packets(rt, place, part.packets(), rows);
        }
        Step::Rest(number, had) => assert_rest(rt, stream, place, number, had),
        Step::NoPart(number) => assert_at(rt, place, stream.part(number).is_none(), true),
        _ => panic!(rt; "nothing to see, {place:?}"),
    }
}

/// Asserts that the part of this number was released, and what it had: it has no packets now, and an empty text.
fn assert_rest(rt: &impl Abort, stream: &Stream, place: Place, number: u64, had: Released) {
    let part = stream.part(number).expect(rt, "a part");
    assert_at(rt, place, (part.id(), part.is_released()), (number, true));
    let found = Released {
        packets: part.packet_count(),
        records: part.records(),
        bytes: part.bytes(),
    };
    assert_at(rt, place, found, had);
    assert_at(
        rt,
        place,
        (part.packets().len(), part.texts().len()),
        (0, 0),
    );
}

/// Offers a payload of `len` bytes with the id 7.
fn offer(rt: &impl Abort, stream: &mut Stream, at: u64, len: usize) -> Result<Offered, OfferFault> {
    let payload = PAYLOAD.get(..len).expect(rt, "a short payload");
    stream.offer(moment(at), 7, payload)
}

fn make_offers(rt: &impl Abort, stream: &mut Stream, from: u64, to: u64, len: usize) {
    for at in from..to {
        let _ = offer(rt, stream, at, len);
    }
}

/// Asserts each record of the ring, the oldest first, and that there are no more.
fn assert_ring(rt: &impl Abort, stream: &Stream, place: Place, rows: &[Row]) {
    for (k, row) in rows.iter().enumerate() {
        let record = stream.ring_at(k as u64).expect(rt, "a record");
        assert_record(rt, place, &record, *row);
    }
    assert_at(rt, place, stream.ring_at(rows.len() as u64).is_none(), true);
    assert_at(rt, place, stream.ring_at(u64::MAX).is_none(), true);
}

/// Asserts that a record has this serial, this moment, id 7 and a payload of `len` bytes, all 97.
fn assert_record(rt: &impl Abort, place: Place, record: &RecView<'_>, (serial, at, len): Row) {
    let found = (record.serial(), record.moment().get(), record.id());
    assert_at(rt, place, found, (serial, at, 7));
    assert_at(rt, place, Some(record.payload()), PAYLOAD.get(..len));
}

/// Asserts a packet's whole head and each record.
fn assert_packet(rt: &impl Abort, place: Place, packet: &PacketView<'_>, row: &PacketRow) {
    let head = Head {
        uuid: Uuid::from_u128(1),
        stream: 0,
        begin: moment(row.begin),
        end: moment(row.end),
        seq: row.seq,
        lost: row.discarded,
    };
    assert_at(rt, place, packet.head(), head);
    let mut records = packet.records();
    assert_at(rt, place, packet.count(), row.records.len());
    for row in row.records {
        let record = records.next().expect(rt, "a record");
        assert_record(rt, place, &record, *row);
    }
}

/// Asserts these packets, and that there are no more.
fn assert_packets(rt: &impl Abort, place: Place, mut packets: Packets<'_>, rows: &[PacketRow]) {
    assert_at(rt, place, packets.len(), rows.len());
    for row in rows {
        let packet = packets.next().expect(rt, "a packet");
        assert_packet(rt, place, &packet, row);
    }
}

/// Asserts that a peek at stream 0 shows these numbers of offers and of discarded records, and these packets.
fn assert_look(
    rt: &impl Abort,
    place: Place,
    snap: &StreamSnap,
    (offered, discarded): (u64, u64),
    rows: &[PacketRow],
) {
    let found = (snap.stream(), snap.offered(), snap.lost());
    assert_at(rt, place, found, (0, offered, discarded));
    assert_packets(rt, place, snap.packets(), rows);
}
