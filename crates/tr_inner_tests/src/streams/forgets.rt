//! Worked examples of forgotten parts: what is asked before, what is answered afterwards, and what stays.

use super::Step::{
    self, Clear, Counts as Counted, Cut, Fate as FateOf, Forget, NoPart, Offer, Offers, Part,
    Release, Rest, Start, Take,
};
use super::{assert_lists, assert_same};
use std::alloc::Global;
use std::process::Abort;
use tr_book::Counts;
use tr_stream::Fate::{self, Forgotten, InChunk, InRing, Overwritten};
use tr_stream::{Cleared, CutDone, ForgetFault, Offered, ReleaseFault, Released, Taken};
use tr_terms::{Mode, SessionMode};

const NO_PART: Result<(), ForgetFault> = Err(ForgetFault::NoPart);

const HELD: Result<(), ForgetFault> = Err(ForgetFault::Held);

const ONE: Released = Released {
    packets: 1,
    records: 1,
    bytes: 154,
};

const NOTHING: Released = Released {
    packets: 0,
    records: 0,
    bytes: 0,
};

/// Two packets of 256 bytes.
const TWO: Released = Released {
    packets: 2,
    records: 4,
    bytes: 512,
};

const COUNTED: Counts = Counts {
    offered: 4,
    discarded: 0,
    overwritten: 0,
    overwritten_packets: 0,
    in_ring: 0,
    consumed: 2,
    in_chunks: 2,
    cleared: 2,
    withdrawn: 0,
    cuts: 3,
    current_bytes: 0,
};

static FORGETS: [(Mode, &[Step]); 2] = [
    // of what isn't closed, or isn't released, nothing is forgotten; what was cleared before is forgotten too
    (
        Mode::Discard,
        &[
            Forget(0, Ok(())),
            Forget(1, NO_PART),
            Start,
            Offers(1, 3, 50),
            Clear(Ok(Cleared {
                packets: 1,
                records: 2,
            })),
            Offer(3, 50, Ok(Offered::Stored { serial: 2, seq: 1 })),
            Cut(
                10,
                Ok(CutDone {
                    chunk: 0,
                    packets: 1,
                    records: 1,
                }),
            ),
            Cut(
                11,
                Ok(CutDone {
                    chunk: 1,
                    packets: 0,
                    records: 0,
                }),
            ),
            Offer(12, 50, Ok(Offered::Stored { serial: 3, seq: 2 })),
            Cut(
                20,
                Ok(CutDone {
                    chunk: 2,
                    packets: 1,
                    records: 1,
                }),
            ),
            Forget(1, HELD),
            Release(1, Ok(NOTHING)),
            Forget(2, HELD),
            Forget(4, NO_PART),
            FateOf(2, Some(InChunk { chunk: 0, seq: 1 })),
            Release(0, Ok(ONE)),
            Forget(1, Ok(())),
            NoPart(0),
            Rest(1, NOTHING),
            FateOf(0, Some(Forgotten)),
            FateOf(2, Some(Forgotten)),
            FateOf(3, Some(InChunk { chunk: 2, seq: 2 })),
            FateOf(4, None),
            Counted(COUNTED),
            // forgotten parts stay forgotten and released, and count
            Forget(0, Ok(())),
            Forget(1, Ok(())),
            Release(0, Err(ReleaseFault::Released)),
            Forget(3, HELD),
            Release(2, Ok(ONE)),
            Forget(3, Ok(())),
            NoPart(1),
            NoPart(2),
            Part(3, (0, 0), &[]),
            FateOf(3, Some(Forgotten)),
            FateOf(4, None),
            Counted(COUNTED),
            // numbers and serials go on
            Offer(21, 50, Ok(Offered::Stored { serial: 4, seq: 3 })),
            FateOf(4, Some(InRing { seq: 3 })),
            Cut(
                30,
                Ok(CutDone {
                    chunk: 3,
                    packets: 1,
                    records: 1,
                }),
            ),
            FateOf(4, Some(InChunk { chunk: 3, seq: 3 })),
            Release(3, Ok(ONE)),
            FateOf(4, Some(InChunk { chunk: 3, seq: 3 })),
            Forget(4, Ok(())),
            FateOf(4, Some(Forgotten)),
        ],
    ),
    // what was overwritten while a forgotten part was current is forgotten too
    (
        Mode::Overwrite,
        &[
            Start,
            Offers(1, 7, 64),
            Cut(
                20,
                Ok(CutDone {
                    chunk: 0,
                    packets: 2,
                    records: 4,
                }),
            ),
            FateOf(1, Some(Overwritten)),
            Offers(21, 27, 64),
            Take(Ok(Taken {
                seq: 4,
                count: 2,
                chunk: 1,
            })),
            Release(0, Ok(TWO)),
            Forget(1, Ok(())),
            FateOf(1, Some(Forgotten)),
            FateOf(5, Some(Forgotten)),
            FateOf(6, Some(Overwritten)),
            FateOf(7, Some(Overwritten)),
            FateOf(8, Some(InChunk { chunk: 1, seq: 4 })),
            FateOf(10, Some(InRing { seq: 5 })),
            Clear(Ok(Cleared {
                packets: 2,
                records: 4,
            })),
            FateOf(5, Some(Forgotten)),
            FateOf(6, Some(Overwritten)),
            FateOf(8, Some(Fate::Cleared { seq: 4 })),
            FateOf(10, Some(Fate::Cleared { seq: 5 })),
        ],
    ),
];

#[test]
fn parts_are_forgotten_once_they_are_released(rt: HostRuntime) {
    assert_lists(&rt, rt.alloc(), SessionMode::Local, &FORGETS);
}

/// Why parts aren't forgotten, and how that is printed.
static FAULTS: [(ForgetFault, &str); 3] = [
    (ForgetFault::NoPart, "Z1 NoPart"),
    (ForgetFault::Held, "Z2 Held"),
    (ForgetFault::NoMemory, "Z3 NoMemory"),
];

/// Asserts what a fault prints, and its code and its name.
fn assert_named(rt: &impl Abort, alloc: Global, fault: ForgetFault, text: &str) {
    let printed = format!(in alloc; "{fault}").expect(rt, "memory");
    let words = format!(in alloc; "{} {}", fault.code(), fault.name()).expect(rt, "memory");
    assert_same(rt, (printed.as_str(), words.as_str()), (text, text));
}

#[test]
fn refused_forgets_are_printed_by_code_and_name(rt: HostRuntime) {
    for (fault, text) in &FAULTS {
        assert_named(&rt, rt.alloc(), *fault, text);
    }
}
