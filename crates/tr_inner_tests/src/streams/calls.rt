//! Worked examples: what offers, takes and cuts answer, what becomes of records, and the parts that are closed.

use super::Step::{
    self, Counts as Counted, Cut, Fate as FateOf, NoPart, Offer, Offers, Part, Start, Stop, Take,
};
use super::{PacketRow, assert_lists, assert_same, assert_steps, new_stream};
use std::alloc::Global;
use std::fmt::Display;
use std::process::Abort;
use tr_book::Counts;
use tr_stream::Fate::{Discarded, InChunk, InRing, Overwritten};
use tr_stream::{ClearFault, CutDone, CutFault, OfferFault, Offered, TakeFault, Taken};
use tr_terms::{Mode, SessionMode};
use tr_testing::moment;

static OFFERS: [(Mode, &[Step]); 3] = [
    // a record fills a sub-buffer
    (
        Mode::Discard,
        &[
            Offer(1, 152, Err(OfferFault::Inactive)),
            Start,
            Offer(1, 152, Ok(Offered::Stored { serial: 0, seq: 0 })),
            Offer(2, 153, Err(OfferFault::TooBig)),
            Offer(3, 0, Ok(Offered::Stored { serial: 1, seq: 1 })),
            Stop,
            Offer(4, 0, Err(OfferFault::Inactive)),
        ],
    ),
    // a longer record is discarded, and a shorter one is stored
    (
        Mode::Discard,
        &[
            Start,
            Offer(1, 50, Ok(Offered::Stored { serial: 0, seq: 0 })),
            Offer(2, 50, Ok(Offered::Stored { serial: 1, seq: 0 })),
            Offer(3, 50, Ok(Offered::Stored { serial: 2, seq: 1 })),
            Offer(4, 50, Ok(Offered::Stored { serial: 3, seq: 1 })),
            Offer(5, 50, Ok(Offered::Discarded { serial: 4 })),
            Offer(6, 4, Ok(Offered::Stored { serial: 5, seq: 1 })),
            Take(Ok(Taken {
                seq: 0,
                count: 2,
                chunk: 0,
            })),
            Take(Err(TakeFault::Nothing)),
            FateOf(0, Some(InChunk { chunk: 0, seq: 0 })),
            FateOf(4, Some(Discarded)),
            FateOf(5, Some(InRing { seq: 1 })),
            Counted(Counts {
                offered: 6,
                discarded: 1,
                overwritten: 0,
                overwritten_packets: 0,
                in_ring: 3,
                consumed: 2,
                in_chunks: 2,
                cleared: 0,
                withdrawn: 0,
                cuts: 0,
                current_bytes: 228,
            }),
        ],
    ),
    // the oldest sub-buffer gives way
    (
        Mode::Overwrite,
        &[
            Start,
            Offer(1, 64, Ok(Offered::Stored { serial: 0, seq: 0 })),
            Offer(2, 64, Ok(Offered::Stored { serial: 1, seq: 0 })),
            Offer(3, 64, Ok(Offered::Stored { serial: 2, seq: 1 })),
            Offer(4, 64, Ok(Offered::Stored { serial: 3, seq: 1 })),
            Offer(
                5,
                64,
                Ok(Offered::StoredOver {
                    serial: 4,
                    seq: 2,
                    gone_seq: 0,
                    gone_count: 2,
                }),
            ),
            Offer(6, 64, Ok(Offered::Stored { serial: 5, seq: 2 })),
            FateOf(1, Some(Overwritten)),
            FateOf(2, Some(InRing { seq: 1 })),
            FateOf(5, Some(InRing { seq: 2 })),
            FateOf(6, None),
            Take(Ok(Taken {
                seq: 1,
                count: 2,
                chunk: 0,
            })),
            FateOf(2, Some(InChunk { chunk: 0, seq: 1 })),
            Counted(Counts {
                offered: 6,
                discarded: 0,
                overwritten: 2,
                overwritten_packets: 1,
                in_ring: 2,
                consumed: 2,
                in_chunks: 2,
                cleared: 0,
                withdrawn: 0,
                cuts: 0,
                current_bytes: 256,
            }),
        ],
    ),
];

#[test]
fn offers_and_takes(rt: HostRuntime) {
    assert_lists(&rt, rt.alloc(), SessionMode::Local, &OFFERS);
}

/// The packet of the first record. The second record's own moment was before the first one's.
static TAKE: [Step; 3] = [
    Take(Ok(Taken {
        seq: 0,
        count: 1,
        chunk: 0,
    })),
    NoPart(1),
    Part(
        0,
        (204, 1),
        &[PacketRow {
            seq: 0,
            discarded: 0,
            begin: 3,
            end: 3,
            records: &[(0, 3, 100)],
        }],
    ),
];

#[test]
fn a_take_makes_a_packet_of_the_current_part(rt: HostRuntime) {
    let mut stream = new_stream(&rt, rt.alloc(), Mode::Discard, SessionMode::Local);
    stream.set_active(true);
    let first = Offered::Stored { serial: 0, seq: 0 };
    assert_same(&rt, stream.offer(moment(3), 7, &[97; 100]), Ok(first));
    let second = Offered::Stored { serial: 1, seq: 1 };
    assert_same(&rt, stream.offer(moment(2), 8, &[97; 100]), Ok(second));
    assert_steps(&rt, &mut stream, 0, &TAKE);
    drop(stream);
}

static CUTS: [(Mode, &[Step]); 3] = [
    // a cut closes a part with all that the ring has
    (
        Mode::Discard,
        &[
            Start,
            Offers(1, 6, 50),
            Offer(6, 4, Ok(Offered::Stored { serial: 5, seq: 1 })),
            Take(Ok(Taken {
                seq: 0,
                count: 2,
                chunk: 0,
            })),
            Cut(
                10,
                Ok(CutDone {
                    chunk: 0,
                    packets: 1,
                    records: 3,
                }),
            ),
            Part(
                0,
                (484, 5),
                &[
                    PacketRow {
                        seq: 0,
                        discarded: 0,
                        begin: 1,
                        end: 3,
                        records: &[(0, 1, 50), (1, 2, 50)],
                    },
                    PacketRow {
                        seq: 1,
                        discarded: 1,
                        begin: 3,
                        end: 10,
                        records: &[(2, 3, 50), (3, 4, 50), (5, 6, 4)],
                    },
                ],
            ),
            FateOf(4, Some(Discarded)),
            FateOf(5, Some(InChunk { chunk: 0, seq: 1 })),
            FateOf(6, None),
        ],
    ),
    // a cut of an empty ring closes an empty part: its sub-buffer used no number, and the cut's moment is the last one
    (
        Mode::Discard,
        &[
            Start,
            Offer(3, 0, Ok(Offered::Stored { serial: 0, seq: 0 })),
            Cut(
                10,
                Ok(CutDone {
                    chunk: 0,
                    packets: 1,
                    records: 1,
                }),
            ),
            Cut(
                11,
                Ok(CutDone {
                    chunk: 1,
                    packets: 0,
                    records: 0,
                }),
            ),
            Offer(0, 0, Ok(Offered::Stored { serial: 1, seq: 1 })),
            Cut(
                0,
                Ok(CutDone {
                    chunk: 2,
                    packets: 1,
                    records: 1,
                }),
            ),
            Part(
                2,
                (104, 1),
                &[PacketRow {
                    seq: 1,
                    discarded: 0,
                    begin: 11,
                    end: 11,
                    records: &[(1, 11, 0)],
                }],
            ),
            Counted(Counts {
                offered: 2,
                discarded: 0,
                overwritten: 0,
                overwritten_packets: 0,
                in_ring: 0,
                consumed: 2,
                in_chunks: 2,
                cleared: 0,
                withdrawn: 0,
                cuts: 3,
                current_bytes: 0,
            }),
        ],
    ),
    // numbers of overwritten packets are absent
    (
        Mode::Overwrite,
        &[
            Start,
            Offers(1, 7, 64),
            Take(Ok(Taken {
                seq: 1,
                count: 2,
                chunk: 0,
            })),
            Offer(7, 64, Ok(Offered::Stored { serial: 6, seq: 3 })),
            Offer(8, 64, Ok(Offered::Stored { serial: 7, seq: 3 })),
            Offer(
                9,
                64,
                Ok(Offered::StoredOver {
                    serial: 8,
                    seq: 4,
                    gone_seq: 2,
                    gone_count: 2,
                }),
            ),
            Offer(10, 64, Ok(Offered::Stored { serial: 9, seq: 4 })),
            Cut(
                20,
                Ok(CutDone {
                    chunk: 0,
                    packets: 2,
                    records: 4,
                }),
            ),
            Part(
                0,
                (768, 6),
                &[
                    PacketRow {
                        seq: 1,
                        discarded: 0,
                        begin: 3,
                        end: 5,
                        records: &[(2, 3, 64), (3, 4, 64)],
                    },
                    PacketRow {
                        seq: 3,
                        discarded: 0,
                        begin: 7,
                        end: 9,
                        records: &[(6, 7, 64), (7, 8, 64)],
                    },
                    PacketRow {
                        seq: 4,
                        discarded: 0,
                        begin: 9,
                        end: 20,
                        records: &[(8, 9, 64), (9, 10, 64)],
                    },
                ],
            ),
            Counted(Counts {
                offered: 10,
                discarded: 0,
                overwritten: 4,
                overwritten_packets: 2,
                in_ring: 0,
                consumed: 6,
                in_chunks: 6,
                cleared: 0,
                withdrawn: 0,
                cuts: 1,
                current_bytes: 0,
            }),
        ],
    ),
];

#[test]
fn cuts_close_parts(rt: HostRuntime) {
    assert_lists(&rt, rt.alloc(), SessionMode::Local, &CUTS);
}

/// Asserts what a fault prints, and its code and its name.
fn assert_named(
    rt: &impl Abort,
    alloc: Global,
    fault: &impl Display,
    (code, name): (&str, &str),
    text: &str,
) {
    let printed = format!(in alloc; "{fault}").expect(rt, "memory");
    assert_same(rt, printed.as_str(), text);
    let words = format!(in alloc; "{code} {name}").expect(rt, "memory");
    assert_same(rt, words.as_str(), text);
}

fn assert_offer_fault(rt: &impl Abort, alloc: Global, fault: OfferFault, text: &str) {
    assert_named(rt, alloc, &fault, (fault.code(), fault.name()), text);
}

fn assert_take_fault(rt: &impl Abort, alloc: Global, fault: TakeFault, text: &str) {
    assert_named(rt, alloc, &fault, (fault.code(), fault.name()), text);
}

fn assert_cut_fault(rt: &impl Abort, alloc: Global, fault: CutFault, text: &str) {
    assert_named(rt, alloc, &fault, (fault.code(), fault.name()), text);
}

fn assert_clear_fault(rt: &impl Abort, alloc: Global, fault: ClearFault, text: &str) {
    assert_named(rt, alloc, &fault, (fault.code(), fault.name()), text);
}

#[test]
fn faults_have_their_codes_and_names(rt: HostRuntime) {
    let alloc = rt.alloc();
    assert_offer_fault(&rt, alloc, OfferFault::Inactive, "O1 Inactive");
    assert_offer_fault(&rt, alloc, OfferFault::TooBig, "O2 TooBig");
    assert_offer_fault(&rt, alloc, OfferFault::Spent, "O3 Spent");
    assert_offer_fault(&rt, alloc, OfferFault::Misplaced, "O5 Misplaced");
    assert_take_fault(&rt, alloc, TakeFault::Nothing, "T1 Nothing");
    assert_take_fault(&rt, alloc, TakeFault::SnapshotMode, "T2 SnapshotMode");
    assert_take_fault(&rt, alloc, TakeFault::NoMemory, "T3 NoMemory");
    assert_take_fault(&rt, alloc, TakeFault::Misplaced, "T4 Misplaced");
    assert_cut_fault(&rt, alloc, CutFault::SnapshotMode, "C1 SnapshotMode");
    assert_cut_fault(&rt, alloc, CutFault::NoMemory, "C2 NoMemory");
    assert_clear_fault(&rt, alloc, ClearFault::SnapshotMode, "X1 SnapshotMode");
    assert_clear_fault(&rt, alloc, ClearFault::NoMemory, "X2 NoMemory");
}
