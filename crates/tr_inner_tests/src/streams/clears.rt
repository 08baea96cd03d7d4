//! Worked examples of clears: what they take away, what becomes of records, and what stays.

use super::Step::{
    self, Clear, Counts as Counted, Cut, Fate as FateOf, NoPart, Offer, Offers, Part, Peek, Ring,
    Start, Stop, Take,
};
use super::{PacketRow, assert_lists};
use tr_book::Counts;
use tr_stream::Fate::{self, Discarded, InChunk, InRing, Overwritten};
use tr_stream::{ClearFault, Cleared, CutDone, OfferFault, Offered, Taken};
use tr_terms::{Mode, SessionMode};

static CLEARS: [(Mode, &[Step]); 3] = [
    // consumed packets and the ring are cleared, and no number and no serial is used again
    (
        Mode::Overwrite,
        &[
            Start,
            Offers(1, 7, 64),
            Take(Ok(Taken {
                seq: 1,
                count: 2,
                chunk: 0,
            })),
            Offers(7, 11, 64),
            Clear(Ok(Cleared {
                packets: 3,
                records: 6,
            })),
            FateOf(2, Some(Fate::Cleared { seq: 1 })),
            FateOf(4, Some(Overwritten)),
            FateOf(9, Some(Fate::Cleared { seq: 4 })),
            Counted(Counts {
                offered: 10,
                discarded: 0,
                overwritten: 4,
                overwritten_packets: 2,
                in_ring: 0,
                consumed: 2,
                in_chunks: 0,
                cleared: 6,
                withdrawn: 2,
                cuts: 0,
                current_bytes: 0,
            }),
            Offer(11, 64, Ok(Offered::Stored { serial: 10, seq: 5 })),
            Cut(
                20,
                Ok(CutDone {
                    chunk: 0,
                    packets: 1,
                    records: 1,
                }),
            ),
            Counted(Counts {
                offered: 11,
                discarded: 0,
                overwritten: 4,
                overwritten_packets: 2,
                in_ring: 0,
                consumed: 3,
                in_chunks: 1,
                cleared: 6,
                withdrawn: 2,
                cuts: 1,
                current_bytes: 0,
            }),
            Part(
                0,
                (168, 1),
                &[PacketRow {
                    seq: 5,
                    discarded: 0,
                    begin: 11,
                    end: 20,
                    records: &[(10, 11, 64)],
                }],
            ),
            Clear(Ok(Cleared {
                packets: 0,
                records: 0,
            })),
            FateOf(10, Some(InChunk { chunk: 0, seq: 5 })),
        ],
    ),
    // what was discarded while a cleared packet was filling stays discarded, also between its records; a stream that takes no
    // offers is cleared too
    (
        Mode::Discard,
        &[
            Start,
            Offers(1, 6, 50),
            Offer(6, 4, Ok(Offered::Stored { serial: 5, seq: 1 })),
            Offer(7, 50, Ok(Offered::Discarded { serial: 6 })),
            Offer(8, 4, Ok(Offered::Discarded { serial: 7 })),
            Take(Ok(Taken {
                seq: 0,
                count: 2,
                chunk: 0,
            })),
            Offer(9, 50, Ok(Offered::Stored { serial: 8, seq: 2 })),
            Stop,
            Clear(Ok(Cleared {
                packets: 3,
                records: 6,
            })),
            FateOf(0, Some(Fate::Cleared { seq: 0 })),
            FateOf(1, Some(Fate::Cleared { seq: 0 })),
            FateOf(2, Some(Fate::Cleared { seq: 1 })),
            FateOf(3, Some(Fate::Cleared { seq: 1 })),
            FateOf(4, Some(Discarded)),
            FateOf(5, Some(Fate::Cleared { seq: 1 })),
            FateOf(6, Some(Discarded)),
            FateOf(7, Some(Discarded)),
            FateOf(8, Some(Fate::Cleared { seq: 2 })),
            FateOf(9, None),
            Counted(Counts {
                offered: 9,
                discarded: 3,
                overwritten: 0,
                overwritten_packets: 0,
                in_ring: 0,
                consumed: 2,
                in_chunks: 0,
                cleared: 6,
                withdrawn: 2,
                cuts: 0,
                current_bytes: 0,
            }),
            Clear(Ok(Cleared {
                packets: 0,
                records: 0,
            })),
            Offer(10, 4, Err(OfferFault::Inactive)),
            Start,
            Offer(10, 4, Ok(Offered::Stored { serial: 9, seq: 3 })),
            Cut(
                11,
                Ok(CutDone {
                    chunk: 0,
                    packets: 1,
                    records: 1,
                }),
            ),
            Part(
                0,
                (108, 1),
                &[PacketRow {
                    seq: 3,
                    discarded: 3,
                    begin: 10,
                    end: 11,
                    records: &[(9, 10, 4)],
                }],
            ),
            FateOf(4, Some(Discarded)),
            FateOf(5, Some(Fate::Cleared { seq: 1 })),
            FateOf(9, Some(InChunk { chunk: 0, seq: 3 })),
        ],
    ),
    // a closed part stays as it is, and the last moment too; what an earlier clear took away is known beside it
    (
        Mode::Discard,
        &[
            Start,
            Offers(1, 4, 50),
            Take(Ok(Taken {
                seq: 0,
                count: 2,
                chunk: 0,
            })),
            Cut(
                5,
                Ok(CutDone {
                    chunk: 0,
                    packets: 1,
                    records: 1,
                }),
            ),
            Offers(6, 9, 50),
            Take(Ok(Taken {
                seq: 2,
                count: 2,
                chunk: 1,
            })),
            Offers(9, 11, 50),
            // packet 2 of the current part, 3 that waits, and 4
            Clear(Ok(Cleared {
                packets: 3,
                records: 5,
            })),
            FateOf(1, Some(InChunk { chunk: 0, seq: 0 })),
            FateOf(2, Some(InChunk { chunk: 0, seq: 1 })),
            FateOf(3, Some(Fate::Cleared { seq: 2 })),
            FateOf(6, Some(Fate::Cleared { seq: 3 })),
            FateOf(7, Some(Fate::Cleared { seq: 4 })),
            // 228 bytes and 154
            Part(
                0,
                (382, 3),
                &[
                    PacketRow {
                        seq: 0,
                        discarded: 0,
                        begin: 1,
                        end: 3,
                        records: &[(0, 1, 50), (1, 2, 50)],
                    },
                    PacketRow {
                        seq: 1,
                        discarded: 0,
                        begin: 3,
                        end: 5,
                        records: &[(2, 3, 50)],
                    },
                ],
            ),
            Part(1, (0, 0), &[]),
            NoPart(2),
            Ring(&[]),
            Peek(12, (8, 0), &[]),
            Counted(Counts {
                offered: 8,
                discarded: 0,
                overwritten: 0,
                overwritten_packets: 0,
                in_ring: 0,
                consumed: 5,
                in_chunks: 3,
                cleared: 5,
                withdrawn: 2,
                cuts: 1,
                current_bytes: 0,
            }),
            Offer(4, 4, Ok(Offered::Stored { serial: 8, seq: 5 })),
            Ring(&[(8, 10, 4)]),
            Cut(
                20,
                Ok(CutDone {
                    chunk: 1,
                    packets: 1,
                    records: 1,
                }),
            ),
            Counted(Counts {
                offered: 9,
                discarded: 0,
                overwritten: 0,
                overwritten_packets: 0,
                in_ring: 0,
                consumed: 6,
                in_chunks: 4,
                cleared: 5,
                withdrawn: 2,
                cuts: 2,
                current_bytes: 0,
            }),
            Offer(21, 4, Ok(Offered::Stored { serial: 9, seq: 6 })),
            Clear(Ok(Cleared {
                packets: 1,
                records: 1,
            })),
            FateOf(2, Some(InChunk { chunk: 0, seq: 1 })),
            FateOf(3, Some(Fate::Cleared { seq: 2 })),
            FateOf(8, Some(InChunk { chunk: 1, seq: 5 })),
            FateOf(9, Some(Fate::Cleared { seq: 6 })),
            Clear(Ok(Cleared {
                packets: 0,
                records: 0,
            })),
        ],
    ),
];

#[test]
fn clears_keep_what_became_of_records(rt: HostRuntime) {
    assert_lists(&rt, rt.alloc(), SessionMode::Local, &CLEARS);
}

static REFUSED: [(Mode, &[Step]); 1] = [(
    Mode::Overwrite,
    &[
        Clear(Err(ClearFault::SnapshotMode)),
        Start,
        Offers(1, 4, 64),
        Clear(Err(ClearFault::SnapshotMode)),
        Ring(&[(0, 1, 64), (1, 2, 64), (2, 3, 64)]),
        FateOf(2, Some(InRing { seq: 1 })),
        Counted(Counts {
            offered: 3,
            discarded: 0,
            overwritten: 0,
            overwritten_packets: 0,
            in_ring: 3,
            consumed: 0,
            in_chunks: 0,
            cleared: 0,
            withdrawn: 0,
            cuts: 0,
            current_bytes: 0,
        }),
    ],
)];

#[test]
fn snapshot_sessions_refuse_clears(rt: HostRuntime) {
    assert_lists(&rt, rt.alloc(), SessionMode::Snapshot, &REFUSED);
}
