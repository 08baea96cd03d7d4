//! Peeks at a stream, worked by hand: sub-buffers of 256 bytes, two to a ring.

use super::Step::{self, Counts as Counted, Cut, Offer, Offers, Peek, Start, Take};
use super::{PacketRow, assert_lists, assert_same, make_offers, new_stream};
use crate::packing::bytes_of;
use std::alloc::Global;
use std::process::Abort;
use tr_book::Counts;
use tr_packet::{PacketView, decode_packet};
use tr_stream::{CutFault, Offered, TakeFault};
use tr_terms::{Mode, SessionMode};
use tr_testing::moment;

/// The counts after offers of 64 bytes at moments 1 to 6: a sub-buffer has room for two such records, so the fifth offer
/// overwrote the first sub-buffer.
const SIX_OFFERED: Counts = Counts {
    offered: 6,
    discarded: 0,
    overwritten: 2,
    overwritten_packets: 1,
    in_ring: 4,
    consumed: 0,
    in_chunks: 0,
    cleared: 0,
    withdrawn: 0,
    cuts: 0,
    current_bytes: 0,
};

/// Packet 1 after these, which the offer at 5 closed.
const CLOSED: PacketRow = PacketRow {
    seq: 1,
    discarded: 0,
    begin: 3,
    end: 5,
    records: &[(2, 3, 64), (3, 4, 64)],
};

static SNAPSHOTS: [(Mode, &[Step]); 4] = [
    // what offers answer
    (
        Mode::Overwrite,
        &[
            Start,
            Offer(1, 64, Ok(Offered::Stored { serial: 0, seq: 0 })),
            Offer(2, 64, Ok(Offered::Stored { serial: 1, seq: 0 })),
            Offer(3, 64, Ok(Offered::Stored { serial: 2, seq: 1 })),
            Offer(4, 64, Ok(Offered::Stored { serial: 3, seq: 1 })),
            Offer(
                5,
                64,
                Ok(Offered::StoredOver {
                    serial: 4,
                    seq: 2,
                    gone_seq: 0,
                    gone_count: 2,
                }),
            ),
            Offer(6, 64, Ok(Offered::Stored { serial: 5, seq: 2 })),
            Offer(
                11,
                64,
                Ok(Offered::StoredOver {
                    serial: 6,
                    seq: 3,
                    gone_seq: 1,
                    gone_count: 2,
                }),
            ),
        ],
    ),
    // nothing is consumed; the refused cut's moment isn't stored, and it closes nothing
    (
        Mode::Overwrite,
        &[
            Start,
            Offers(1, 7, 64),
            Take(Err(TakeFault::SnapshotMode)),
            Counted(SIX_OFFERED),
            Cut(8, Err(CutFault::SnapshotMode)),
            Counted(SIX_OFFERED),
            Peek(
                7,
                (6, 0),
                &[
                    CLOSED,
                    PacketRow {
                        seq: 2,
                        discarded: 0,
                        begin: 5,
                        end: 7,
                        records: &[(4, 5, 64), (5, 6, 64)],
                    },
                ],
            ),
        ],
    ),
    // a look shows the ring, and changes nothing
    (
        Mode::Overwrite,
        &[
            Start,
            Offers(1, 7, 64),
            Peek(
                10,
                (6, 0),
                &[
                    CLOSED,
                    PacketRow {
                        seq: 2,
                        discarded: 0,
                        begin: 5,
                        end: 10,
                        records: &[(4, 5, 64), (5, 6, 64)],
                    },
                ],
            ),
            Peek(
                10,
                (6, 0),
                &[
                    CLOSED,
                    PacketRow {
                        seq: 2,
                        discarded: 0,
                        begin: 5,
                        end: 10,
                        records: &[(4, 5, 64), (5, 6, 64)],
                    },
                ],
            ),
            Counted(SIX_OFFERED),
        ],
    ),
    // a later look shows later packets; a peek before the last stored moment is at that moment
    (
        Mode::Overwrite,
        &[
            Start,
            Offers(1, 7, 64),
            Offers(11, 12, 64),
            Peek(
                12,
                (7, 0),
                &[
                    PacketRow {
                        seq: 2,
                        discarded: 0,
                        begin: 5,
                        end: 11,
                        records: &[(4, 5, 64), (5, 6, 64)],
                    },
                    PacketRow {
                        seq: 3,
                        discarded: 0,
                        begin: 11,
                        end: 12,
                        records: &[(6, 11, 64)],
                    },
                ],
            ),
            Peek(
                3,
                (7, 0),
                &[
                    PacketRow {
                        seq: 2,
                        discarded: 0,
                        begin: 5,
                        end: 11,
                        records: &[(4, 5, 64), (5, 6, 64)],
                    },
                    PacketRow {
                        seq: 3,
                        discarded: 0,
                        begin: 11,
                        end: 11,
                        records: &[(6, 11, 64)],
                    },
                ],
            ),
        ],
    ),
];

static DISCARDING: [(Mode, &[Step]); 1] = [(
    Mode::Discard,
    &[
        Peek(5, (0, 0), &[]),
        Start,
        Peek(5, (0, 0), &[]),
        Offers(1, 6, 64),
        Peek(
            8,
            (5, 1),
            &[
                PacketRow {
                    seq: 0,
                    discarded: 0,
                    begin: 1,
                    end: 3,
                    records: &[(0, 1, 64), (1, 2, 64)],
                },
                PacketRow {
                    seq: 1,
                    discarded: 1,
                    begin: 3,
                    end: 8,
                    records: &[(2, 3, 64), (3, 4, 64)],
                },
            ],
        ),
    ],
)];

#[test]
fn looks_show_the_ring_and_change_nothing(rt: HostRuntime) {
    assert_lists(&rt, rt.alloc(), SessionMode::Snapshot, &SNAPSHOTS);
    assert_lists(&rt, rt.alloc(), SessionMode::Local, &DISCARDING);
}

/// Asserts that a packet of 256 bytes is read again from the front of a text. What is after it.
fn assert_read_again<'a>(rt: &impl Abort, bytes: &'a [u8], packet: &PacketView<'_>) -> &'a [u8] {
    let (view, size) = decode_packet(bytes).expect(rt, "a packet");
    assert_same(rt, size, 256);
    assert_same(rt, view.head(), packet.head());
    assert_same(rt, view.count(), packet.count());
    let mut records = packet.records();
    for read in view.records() {
        let record = records.next().expect(rt, "a record");
        let found = (read.serial(), read.moment(), read.id(), read.payload());
        let wanted = (
            record.serial(),
            record.moment(),
            record.id(),
            record.payload(),
        );
        assert_same(rt, found, wanted);
    }
    assert_same(rt, records.next().is_none(), true);
    bytes.get(size..).expect(rt, "what is behind")
}

#[test]
fn packets_of_a_look_are_read_as_they_are(rt: HostRuntime) {
    let mut stream = new_stream(&rt, rt.alloc(), Mode::Overwrite, SessionMode::Snapshot);
    stream.set_active(true);
    make_offers(&rt, &mut stream, 1, 7, 64);
    let snap = stream.peek(moment(10)).expect(&rt, "a look");
    assert_same(&rt, snap.packets().len(), 2);
    let text = bytes_of(&rt, rt.alloc(), snap.texts());
    let mut bytes = text.as_slice();
    for packet in snap.packets() {
        bytes = assert_read_again(&rt, bytes, &packet);
    }
    assert_same(&rt, bytes.len(), 0);
    drop(stream);
}
