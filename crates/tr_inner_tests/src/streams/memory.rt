//! Streams without memory to take.

use super::{assert_same, new_stream};
use linked_list_allocator::LocalHeap;
use std::alloc::Global;
use std::process::Abort;
use tr_stream::{ClearFault, Cleared, Offered, Stream, TakeFault};
use tr_terms::{Mode, SessionMode};
use tr_testing::{fill, moment};

/// What a stream shows after 100,000 offers.
#[derive(Clone, Copy)]
struct Shown {
    /// The last answer.
    last: Offered,
    /// How many offers were accepted, how many of them discarded, and how many overwritten in how many packets.
    counts: (u64, u64, u64, u64),
    /// The first serial of the four that are in the ring, and the last.
    ring: (u64, u64),
}

/// What a full ring does, and what a stream shows after the first 100,000 offers, and after as many more after a take, a cut, two
/// offers and a clear.
static MODES: [(Mode, &[Shown]); 2] = [
    (
        Mode::Discard,
        &[
            Shown {
                last: Offered::Discarded { serial: 99_999 },
                counts: (100_000, 99_996, 0, 0),
                ring: (0, 3),
            },
            Shown {
                last: Offered::Discarded { serial: 200_001 },
                counts: (200_002, 199_992, 0, 0),
                ring: (100_002, 100_005),
            },
        ],
    ),
    (
        Mode::Overwrite,
        &[
            Shown {
                last: Offered::Stored {
                    serial: 99_999,
                    seq: 49_999,
                },
                counts: (100_000, 0, 99_996, 49_998),
                ring: (99_996, 99_999),
            },
            Shown {
                last: Offered::Stored {
                    serial: 200_001,
                    seq: 100_000,
                },
                counts: (200_002, 0, 199_992, 99_996),
                ring: (199_998, 200_001),
            },
        ],
    ),
];

/// Makes so many offers of 50 bytes, none of which is refused, and gives the last answer.
fn offer_all(rt: &impl Abort, stream: &mut Stream<&LocalHeap>, count: u64) -> Offered {
    let mut last = Offered::Discarded { serial: u64::MAX };
    for k in 0..count {
        last = stream
            .offer(moment(k), 7, &[0x61; 50])
            .expect(rt, "no refusal");
    }
    last
}

/// The serial of a record of the ring.
fn serial_at(rt: &impl Abort, stream: &Stream<&LocalHeap>, place: u64) -> u64 {
    stream.ring_at(place).expect(rt, "a record").serial()
}

/// Asserts what a stream shows but for its last answer.
fn assert_shown(rt: &impl Abort, stream: &Stream<&LocalHeap>, wanted: &Shown) {
    let counts = stream.counts();
    let found = (
        counts.offered,
        counts.discarded,
        counts.overwritten,
        counts.overwritten_packets,
    );
    assert_same(rt, found, wanted.counts);
    assert_same(rt, counts.in_ring, 4);
    let ring = (serial_at(rt, stream, 0), serial_at(rt, stream, 3));
    assert_same(rt, ring, wanted.ring);
}

/// Makes 100,000 offers with no byte of memory left. Then asserts that a take and a clear are refused, and change nothing.
fn assert_offers(
    rt: &impl Abort,
    plain: Global,
    heap: &LocalHeap,
    stream: &mut Stream<&LocalHeap>,
    wanted: &Shown,
) {
    let blocks = fill(plain, heap).expect(rt, "memory");
    let used = heap.used();
    assert_same(rt, offer_all(rt, stream, 100_000), wanted.last);
    assert_same(rt, heap.used(), used);
    let counts = stream.counts();
    assert_same(rt, stream.take(), Err(TakeFault::NoMemory));
    assert_same(rt, stream.clear(), Err(ClearFault::NoMemory));
    assert_same(rt, stream.counts(), counts);
    assert_shown(rt, stream, wanted);
    drop(blocks);
}

/// With memory, takes a packet of two records, cuts the two that are left, and clears two that are offered then.
fn empty(rt: &impl Abort, stream: &mut Stream<&LocalHeap>) {
    assert_same(rt, stream.take().is_ok(), true);
    let done = stream.cut(moment(0)).expect(rt, "memory");
    assert_same(rt, (done.packets, done.records), (1, 2));
    let _ = offer_all(rt, stream, 2);
    let cleared = Cleared {
        packets: 1,
        records: 2,
    };
    assert_same(rt, stream.clear(), Ok(cleared));
}

// two records of 74 bytes fit beside the packet's 80 in a sub-buffer of 256, and there are two sub-buffers
#[test]
fn offers_take_no_memory(rt: HostRuntime) {
    for (mode, shown) in &MODES {
        let heap = LocalHeap::new(rt.alloc(), 8_192).expect(&rt, "memory");
        let mut stream = new_stream(&rt, &heap, *mode, SessionMode::Local);
        stream.set_active(true);
        for wanted in *shown {
            assert_offers(&rt, rt.alloc(), &heap, &mut stream, wanted);
            empty(&rt, &mut stream);
        }
        drop(stream);
    }
}
