//! Worked examples of releases: what they give up, what is answered of it afterwards, and what stays.

use super::Step::{
    self, Clear, Counts as Counted, Cut, Fate as FateOf, NoPart, Offer, Offers, Part, Peek,
    Release, Rest, Start, Stop, Take,
};
use super::{PacketRow, assert_lists, assert_same};
use std::alloc::Global;
use std::process::Abort;
use tr_book::Counts;
use tr_stream::Fate::{self, Discarded, InChunk, InRing, Overwritten};
use tr_stream::{Cleared, CutDone, Offered, ReleaseFault, Released, Taken};
use tr_terms::{Mode, SessionMode};

const NO_PART: Result<Released, ReleaseFault> = Err(ReleaseFault::NoPart);

const AGAIN: Result<Released, ReleaseFault> = Err(ReleaseFault::Released);

/// Two packets, of 228 and 256 bytes.
const SIX: Released = Released {
    packets: 2,
    records: 5,
    bytes: 484,
};

/// Three packets of 256 bytes.
const OVER: Released = Released {
    packets: 3,
    records: 6,
    bytes: 768,
};

const ONE: Released = Released {
    packets: 1,
    records: 1,
    bytes: 154,
};

const NOTHING: Released = Released {
    packets: 0,
    records: 0,
    bytes: 0,
};

const SIX_COUNTED: Counts = Counts {
    offered: 6,
    discarded: 1,
    overwritten: 0,
    overwritten_packets: 0,
    in_ring: 0,
    consumed: 5,
    in_chunks: 5,
    cleared: 0,
    withdrawn: 0,
    cuts: 1,
    current_bytes: 0,
};

const OVER_COUNTED: Counts = Counts {
    offered: 11,
    discarded: 0,
    overwritten: 4,
    overwritten_packets: 2,
    in_ring: 1,
    consumed: 6,
    in_chunks: 6,
    cleared: 0,
    withdrawn: 0,
    cuts: 1,
    current_bytes: 0,
};

static RELEASES: [(Mode, &[Step]); 3] = [
    // what became of each offer is answered as before, and so are all counts; the current part isn't closed
    (
        Mode::Discard,
        &[
            Release(0, NO_PART),
            Start,
            Offers(1, 6, 50),
            Offer(6, 4, Ok(Offered::Stored { serial: 5, seq: 1 })),
            Take(Ok(Taken {
                seq: 0,
                count: 2,
                chunk: 0,
            })),
            Release(0, NO_PART),
            Cut(
                10,
                Ok(CutDone {
                    chunk: 0,
                    packets: 1,
                    records: 3,
                }),
            ),
            Counted(SIX_COUNTED),
            Release(1, NO_PART),
            Release(u64::MAX, NO_PART),
            Release(0, Ok(SIX)),
            Rest(0, SIX),
            Part(1, (0, 0), &[]),
            NoPart(2),
            FateOf(0, Some(InChunk { chunk: 0, seq: 0 })),
            FateOf(1, Some(InChunk { chunk: 0, seq: 0 })),
            FateOf(2, Some(InChunk { chunk: 0, seq: 1 })),
            FateOf(4, Some(Discarded)),
            FateOf(5, Some(InChunk { chunk: 0, seq: 1 })),
            FateOf(6, None),
            Counted(SIX_COUNTED),
            Peek(12, (6, 1), &[]),
            Release(0, AGAIN),
            Release(1, NO_PART),
            Rest(0, SIX),
            // numbers and serials go on
            Offer(13, 50, Ok(Offered::Stored { serial: 6, seq: 2 })),
        ],
    ),
    // overwritten records stay overwritten; what follows is consumed, cut and released as ever
    (
        Mode::Overwrite,
        &[
            Start,
            Offers(1, 7, 64),
            Take(Ok(Taken {
                seq: 1,
                count: 2,
                chunk: 0,
            })),
            Offers(7, 11, 64),
            Cut(
                20,
                Ok(CutDone {
                    chunk: 0,
                    packets: 2,
                    records: 4,
                }),
            ),
            Offer(21, 50, Ok(Offered::Stored { serial: 10, seq: 5 })),
            Release(0, Ok(OVER)),
            FateOf(1, Some(Overwritten)),
            FateOf(2, Some(InChunk { chunk: 0, seq: 1 })),
            FateOf(5, Some(Overwritten)),
            FateOf(6, Some(InChunk { chunk: 0, seq: 3 })),
            FateOf(9, Some(InChunk { chunk: 0, seq: 4 })),
            FateOf(10, Some(InRing { seq: 5 })),
            Counted(OVER_COUNTED),
            Cut(
                30,
                Ok(CutDone {
                    chunk: 1,
                    packets: 1,
                    records: 1,
                }),
            ),
            Rest(0, OVER),
            Part(
                1,
                (154, 1),
                &[PacketRow {
                    seq: 5,
                    discarded: 0,
                    begin: 21,
                    end: 30,
                    records: &[(10, 21, 50)],
                }],
            ),
            FateOf(10, Some(InChunk { chunk: 1, seq: 5 })),
            Release(1, Ok(ONE)),
            Rest(1, ONE),
            FateOf(10, Some(InChunk { chunk: 1, seq: 5 })),
            FateOf(3, Some(InChunk { chunk: 0, seq: 1 })),
            FateOf(4, Some(Overwritten)),
        ],
    ),
    // a later part may be released first, and one without packets; what was cleared stays cleared; a stream that takes no
    // offers releases too
    (
        Mode::Discard,
        &[
            Start,
            Offers(1, 3, 50),
            Clear(Ok(Cleared {
                packets: 1,
                records: 2,
            })),
            Offer(3, 50, Ok(Offered::Stored { serial: 2, seq: 1 })),
            Cut(
                10,
                Ok(CutDone {
                    chunk: 0,
                    packets: 1,
                    records: 1,
                }),
            ),
            Cut(
                11,
                Ok(CutDone {
                    chunk: 1,
                    packets: 0,
                    records: 0,
                }),
            ),
            Stop,
            Release(1, Ok(NOTHING)),
            Release(1, AGAIN),
            Rest(1, NOTHING),
            Part(
                0,
                (154, 1),
                &[PacketRow {
                    seq: 1,
                    discarded: 0,
                    begin: 3,
                    end: 10,
                    records: &[(2, 3, 50)],
                }],
            ),
            Release(0, Ok(ONE)),
            Rest(0, ONE),
            FateOf(0, Some(Fate::Cleared { seq: 0 })),
            FateOf(1, Some(Fate::Cleared { seq: 0 })),
            FateOf(2, Some(InChunk { chunk: 0, seq: 1 })),
            Start,
            Offer(12, 50, Ok(Offered::Stored { serial: 3, seq: 2 })),
            Clear(Ok(Cleared {
                packets: 1,
                records: 1,
            })),
            FateOf(3, Some(Fate::Cleared { seq: 2 })),
            FateOf(2, Some(InChunk { chunk: 0, seq: 1 })),
            Counted(Counts {
                offered: 4,
                discarded: 0,
                overwritten: 0,
                overwritten_packets: 0,
                in_ring: 0,
                consumed: 1,
                in_chunks: 1,
                cleared: 3,
                withdrawn: 0,
                cuts: 2,
                current_bytes: 0,
            }),
        ],
    ),
];

#[test]
fn releases_keep_what_became_of_records(rt: HostRuntime) {
    assert_lists(&rt, rt.alloc(), SessionMode::Local, &RELEASES);
}

/// A snapshot session closes no part.
static NONE_CLOSED: [(Mode, &[Step]); 1] = [(
    Mode::Overwrite,
    &[
        Start,
        Offers(1, 4, 64),
        Release(0, NO_PART),
        FateOf(2, Some(InRing { seq: 1 })),
    ],
)];

#[test]
fn snapshot_sessions_have_nothing_to_release(rt: HostRuntime) {
    assert_lists(&rt, rt.alloc(), SessionMode::Snapshot, &NONE_CLOSED);
}

/// Why a release is refused, and how that is printed.
static FAULTS: [(ReleaseFault, &str); 3] = [
    (ReleaseFault::NoPart, "Y1 NoPart"),
    (ReleaseFault::Released, "Y2 Released"),
    (ReleaseFault::NoMemory, "Y3 NoMemory"),
];

/// Asserts what a fault prints, and its code and its name.
fn assert_named(rt: &impl Abort, alloc: Global, fault: ReleaseFault, text: &str) {
    let printed = format!(in alloc; "{fault}").expect(rt, "memory");
    let words = format!(in alloc; "{} {}", fault.code(), fault.name()).expect(rt, "memory");
    assert_same(rt, (printed.as_str(), words.as_str()), (text, text));
}

#[test]
fn refused_releases_are_printed_by_code_and_name(rt: HostRuntime) {
    for (fault, text) in &FAULTS {
        assert_named(&rt, rt.alloc(), *fault, text);
    }
}
