//! Worked examples of pages in which serials are missing, and of pages beside them: fates, clears and releases. A page has room for
//! 176 bytes of records, and a record's header has 24.

use super::Step::{self, Clear, Cut, Offer, Offers, Release, Start, Take};
use super::{assert_same, assert_steps, new_stream};
use std::alloc::Allocator;
use std::process::Abort;
use tr_stream::Fate::{self, Cleared as Gone, Discarded, InChunk, InRing, Overwritten};
use tr_stream::{Cleared, CutDone, Offered, Released, Stream, Taken};
use tr_terms::{Mode, SessionMode};
use tr_testing::moment;

/// Packet 1 has serials 2 and 4; 7 and 8 are missing after packet 2; packet 4 has 11 and 13.
static DISCARDS: [Step; 16] = [
    Start,
    Offers(1, 4, 64),
    Offer(4, 100, Ok(Offered::Discarded { serial: 3 })),
    Offer(5, 50, Ok(Offered::Stored { serial: 4, seq: 1 })),
    Take(Ok(Taken {
        seq: 0,
        count: 2,
        chunk: 0,
    })),
    Offer(7, 64, Ok(Offered::Stored { serial: 5, seq: 2 })),
    Offer(8, 64, Ok(Offered::Stored { serial: 6, seq: 2 })),
    Offer(9, 64, Ok(Offered::Discarded { serial: 7 })),
    Offer(10, 64, Ok(Offered::Discarded { serial: 8 })),
    Take(Ok(Taken {
        seq: 1,
        count: 2,
        chunk: 0,
    })),
    Offer(12, 64, Ok(Offered::Stored { serial: 9, seq: 3 })),
    Offer(13, 64, Ok(Offered::Stored { serial: 10, seq: 3 })),
    Take(Ok(Taken {
        seq: 2,
        count: 2,
        chunk: 0,
    })),
    Offer(15, 64, Ok(Offered::Stored { serial: 11, seq: 4 })),
    Offer(16, 100, Ok(Offered::Discarded { serial: 12 })),
    Offer(17, 50, Ok(Offered::Stored { serial: 13, seq: 4 })),
];

static DISCARDS_HELD: [Fate; 14] = [
    InChunk { chunk: 0, seq: 0 },
    InChunk { chunk: 0, seq: 0 },
    InChunk { chunk: 0, seq: 1 },
    Discarded,
    InChunk { chunk: 0, seq: 1 },
    InChunk { chunk: 0, seq: 2 },
    InChunk { chunk: 0, seq: 2 },
    Discarded,
    Discarded,
    InRing { seq: 3 },
    InRing { seq: 3 },
    InRing { seq: 4 },
    Discarded,
    InRing { seq: 4 },
];

static DISCARDS_KEPT: [Fate; 14] = [
    InChunk { chunk: 0, seq: 0 },
    InChunk { chunk: 0, seq: 0 },
    InChunk { chunk: 0, seq: 1 },
    Discarded,
    InChunk { chunk: 0, seq: 1 },
    InChunk { chunk: 0, seq: 2 },
    InChunk { chunk: 0, seq: 2 },
    Discarded,
    Discarded,
    InChunk { chunk: 0, seq: 3 },
    InChunk { chunk: 0, seq: 3 },
    InChunk { chunk: 0, seq: 4 },
    Discarded,
    InChunk { chunk: 0, seq: 4 },
];

/// After a clear, and three more offers.
static DISCARDS_GONE: [Fate; 17] = [
    Gone { seq: 0 },
    Gone { seq: 0 },
    Gone { seq: 1 },
    Discarded,
    Gone { seq: 1 },
    Gone { seq: 2 },
    Gone { seq: 2 },
    Discarded,
    Discarded,
    Gone { seq: 3 },
    Gone { seq: 3 },
    Gone { seq: 4 },
    Discarded,
    Gone { seq: 4 },
    InRing { seq: 5 },
    InRing { seq: 5 },
    InRing { seq: 6 },
];

/// The last three are in a part now.
static DISCARDS_AFTER: [Fate; 17] = [
    Gone { seq: 0 },
    Gone { seq: 0 },
    Gone { seq: 1 },
    Discarded,
    Gone { seq: 1 },
    Gone { seq: 2 },
    Gone { seq: 2 },
    Discarded,
    Discarded,
    Gone { seq: 3 },
    Gone { seq: 3 },
    Gone { seq: 4 },
    Discarded,
    Gone { seq: 4 },
    InChunk { chunk: 0, seq: 5 },
    InChunk { chunk: 0, seq: 5 },
    InChunk { chunk: 0, seq: 6 },
];

/// Packets 0 and 2 are overwritten, and packets 1 and 3 are taken.
static OVERWRITES: [Step; 5] = [
    Start,
    Offers(1, 6, 64),
    Take(Ok(Taken {
        seq: 1,
        count: 2,
        chunk: 0,
    })),
    Offers(7, 11, 64),
    Take(Ok(Taken {
        seq: 3,
        count: 2,
        chunk: 0,
    })),
];

static OVERWRITES_HELD: [Fate; 9] = [
    Overwritten,
    Overwritten,
    InChunk { chunk: 0, seq: 1 },
    InChunk { chunk: 0, seq: 1 },
    Overwritten,
    Overwritten,
    InChunk { chunk: 0, seq: 3 },
    InChunk { chunk: 0, seq: 3 },
    InRing { seq: 4 },
];

/// What is held is cleared, and what follows is cut and released.
static CLEARED_BETWEEN: [Step; 4] = [
    Clear(Ok(Cleared {
        packets: 3,
        records: 5,
    })),
    Offers(41, 44, 64),
    Cut(
        45,
        Ok(CutDone {
            chunk: 0,
            packets: 2,
            records: 3,
        }),
    ),
    Release(
        0,
        Ok(Released {
            packets: 2,
            records: 3,
            bytes: 424,
        }),
    ),
];

static OVERWRITES_AFTER: [Fate; 12] = [
    Overwritten,
    Overwritten,
    Gone { seq: 1 },
    Gone { seq: 1 },
    Overwritten,
    Overwritten,
    Gone { seq: 3 },
    Gone { seq: 3 },
    Gone { seq: 4 },
    InChunk { chunk: 0, seq: 5 },
    InChunk { chunk: 0, seq: 5 },
    InChunk { chunk: 0, seq: 6 },
];

/// Asserts the fates of all serials so far.
fn assert_fates<A: Allocator>(rt: &impl Abort, stream: &Stream<A>, fates: &[Fate]) {
    for (serial, fate) in (0_u64..).zip(fates) {
        assert_same(rt, stream.fate_of(serial), Some(*fate));
    }
    assert_same(rt, stream.fate_of(fates.len() as u64), None);
}

#[test]
fn a_clear_of_packets_with_gaps_hands_them_out(rt: HostRuntime) {
    let mut stream = new_stream(&rt, rt.alloc(), Mode::Discard, SessionMode::Local);
    assert_steps(&rt, &mut stream, 0, &DISCARDS);
    assert_fates(&rt, &stream, &DISCARDS_HELD);
    let (cleared, removed) = stream.clear_out().expect(&rt, "memory");
    assert_same(&rt, (cleared.packets, cleared.records), (5, 10));
    // the two packets that follow say that four were discarded, and none is missing in them
    assert_steps(&rt, &mut stream, 1, &[Offers(18, 21, 64)]);
    assert_fates(&rt, &stream, &DISCARDS_GONE);
    drop(removed);
    assert_fates(&rt, &stream, &DISCARDS_GONE);
    assert_steps(&rt, &mut stream, 2, &CLEARED_BETWEEN[2..]);
    assert_fates(&rt, &stream, &DISCARDS_AFTER);
}

#[test]
fn a_release_of_packets_with_gaps_hands_them_out(rt: HostRuntime) {
    let mut stream = new_stream(&rt, rt.alloc(), Mode::Discard, SessionMode::Local);
    assert_steps(&rt, &mut stream, 0, &DISCARDS);
    let done = stream.cut(moment(40)).expect(&rt, "memory");
    assert_same(&rt, (done.packets, done.records), (2, 4));
    assert_fates(&rt, &stream, &DISCARDS_KEPT);
    let (released, removed) = stream.release_out(0).expect(&rt, "memory");
    assert_same(&rt, (released.packets, released.records), (5, 10));
    assert_fates(&rt, &stream, &DISCARDS_KEPT);
    drop(removed);
    assert_fates(&rt, &stream, &DISCARDS_KEPT);
}

#[test]
fn overwritten_and_cleared_packets_between_others(rt: HostRuntime) {
    let mut stream = new_stream(&rt, rt.alloc(), Mode::Overwrite, SessionMode::Local);
    assert_steps(&rt, &mut stream, 0, &OVERWRITES);
    assert_fates(&rt, &stream, &OVERWRITES_HELD);
    assert_steps(&rt, &mut stream, 1, &CLEARED_BETWEEN);
    assert_fates(&rt, &stream, &OVERWRITES_AFTER);
}
