//! Calls of a stream.

mod runs;

use crate::scarce::{UNIT, new_heap};
use crate::turns::{Call, assert_same, only, refuse_each, refuse_each_request};
use Asked::{Clear, Cut, Peek, Release, Take};
use Before::{Clears, CutAll, Cuts, Offers, Pairs, Takes};
use linked_list_allocator::LocalHeap;
use std::alloc::{AllocError, Allocator, Global};
use std::process::Abort;
use tr_book::Part;
use tr_packet::PacketText;
use tr_record::RecView;
use tr_stream::{
    ClearFault, Cleared, CutDone, CutFault, ReleaseFault, Released, Stream, TakeFault, Taken,
};
use tr_terms::{Geometry, Mode, Moment, SessionMode};
use tr_testing::{Rationed, moment};
use uuid::Uuid;

/// A record's serial, its moment, its id and its payload.
fn shown<'a>(record: &RecView<'a>) -> (u64, u64, u32, &'a [u8]) {
    (
        record.serial(),
        record.moment().get(),
        record.id(),
        record.payload(),
    )
}

/// Asserts that two streams hold the same records in their rings, and that these have the same fates.
fn assert_same_records<A: Allocator>(rt: &impl Abort, one: &Stream<A>, other: &Stream<A>) {
    let counts = one.counts();
    for k in 0..=counts.in_ring {
        let (found, expected) = (one.ring_at(k), other.ring_at(k));
        assert_same(rt, found.as_ref().map(shown), expected.as_ref().map(shown));
    }
    for serial in 0..=counts.offered {
        assert_same(rt, one.fate_of(serial), other.fate_of(serial));
    }
}

/// A part's number, whether it was released, its packets, its records, its bytes and their text.
fn part_shown<A: Allocator>(part: &Part<A>) -> ((u64, bool), (u64, usize), u64, u128) {
    (
        (part.id(), part.is_released()),
        (part.packet_count(), part.packets().len()),
        part.records(),
        part.bytes(),
    )
}

/// Asserts that two lists of packets have the same texts.
fn assert_same_texts<A: Allocator>(
    rt: &impl Abort,
    one: &[PacketText<A>],
    other: &[PacketText<A>],
) {
    assert_same(rt, one.len(), other.len());
    for (one, other) in one.iter().zip(other) {
        assert_same(rt, one.text(), other.text());
    }
}

/// How many bytes the texts of packets have.
pub(crate) fn size_of<A: Allocator>(texts: &[PacketText<A>]) -> usize {
    let mut size = 0usize;
    for text in texts {
        size = size.wrapping_add(text.text().len());
    }
    size
}

/// Asserts that two streams have the same parts.
fn assert_same_parts<A: Allocator>(rt: &impl Abort, one: &Stream<A>, other: &Stream<A>) {
    for k in 0..=one.counts().cuts.saturating_add(1) {
        assert_same(
            rt,
            one.part(k).map(part_shown),
            other.part(k).map(part_shown),
        );
        if let (Some(one), Some(other)) = (one.part(k), other.part(k)) {
            assert_same_texts(rt, one.texts(), other.texts());
        }
    }
}

/// Asserts that two streams show the same to a look.
fn assert_same_look<A: Allocator + Copy>(rt: &impl Abort, one: &Stream<A>, other: &Stream<A>) {
    let found = one.peek(Moment::zero()).expect(rt, "memory");
    let expected = other.peek(Moment::zero()).expect(rt, "memory");
    assert_same(rt, found.offered(), expected.offered());
    assert_same(rt, found.lost(), expected.lost());
    assert_same_texts(rt, found.texts(), expected.texts());
}

/// Asserts that two streams can't be told apart by what they show.
pub(crate) fn assert_same_stream<A: Allocator + Copy>(
    rt: &impl Abort,
    one: &Stream<A>,
    other: &Stream<A>,
) {
    assert_same(rt, one.counts(), other.counts());
    assert_same_records(rt, one, other);
    assert_same_parts(rt, one, other);
    assert_same_look(rt, one, other);
}

/// A call of a stream, and what it answers with memory.
#[derive(Clone, Copy, Debug, PartialEq, Eq)]
enum Asked {
    Take(Taken),
    /// A cut at moment 100.
    Cut(CutDone),
    Clear(Cleared),
    /// A release of part 0, and which of its requests for memory is that for less room, if it makes one.
    Release(Released, Option<usize>),
    /// A look, and how many bytes it shows.
    Peek(usize),
}

/// What such a call answers.
#[derive(Clone, Copy, Debug, PartialEq, Eq, Drop)]
enum Told {
    Taken(Result<Taken, TakeFault>),
    Cut(Result<CutDone, CutFault>),
    Cleared(Result<Cleared, ClearFault>),
    Released(Result<Released, ReleaseFault>),
    /// The bytes that a look shows. None without memory.
    Peeked(Option<usize>),
}

/// What is done before a call to a stream of sub-buffers of 256 bytes.
#[derive(Clone, Copy)]
enum Before {
    /// Offers of 50 bytes each. Two such records fill a sub-buffer.
    Offers(u64),
    /// Pairs of offers, of 152 bytes, whose record fills a sub-buffer, and of none.
    Pairs(u64),
    Takes(u64),
    /// Cuts, each of a ring of one record.
    Cuts(u64),
    /// A cut of what the ring holds.
    CutAll,
    /// Clears, each of a ring of one record.
    Clears(u64),
}

/// A call of a stream after others.
#[derive(Clone, Copy)]
struct Row {
    /// How many sub-buffers there are, and what a full ring does.
    ring: (u64, Mode),
    before: &'static [Before],
    asked: Asked,
}

/// Offers records of 50 bytes at the moments from 1 on.
pub(crate) fn offer_many<A: Allocator + Copy>(stream: &mut Stream<A>, count: u64) {
    for at in 1..=count {
        let _ = stream.offer(moment(at), 7, &[0x61; 50]);
    }
}

/// Makes `count` pairs of offers.
fn offer_pairs<A: Allocator + Copy>(stream: &mut Stream<A>, count: u64) {
    for at in 1..=count {
        let _ = stream.offer(moment(at), 7, &[0x61; 152]);
        let _ = stream.offer(moment(at), 7, &[]);
    }
}

/// Takes `count` packets.
fn take_many<A: Allocator + Copy>(rt: &impl Abort, stream: &mut Stream<A>, count: u64) {
    for _ in 0..count {
        stream.take().expect(rt, "a packet");
    }
}

/// Makes `count` cuts, each of a ring of one record.
fn cut_many<A: Allocator + Copy>(rt: &impl Abort, stream: &mut Stream<A>, count: u64) {
    for _ in 0..count {
        offer_many(stream, 1);
        stream.cut(moment(0)).expect(rt, "a cut");
    }
}

/// Makes `count` clears, each of a ring of one record.
fn clear_many<A: Allocator + Copy>(rt: &impl Abort, stream: &mut Stream<A>, count: u64) {
    for _ in 0..count {
        offer_many(stream, 1);
        stream.clear().expect(rt, "a clear");
    }
}

/// Does what is done before a call.
fn prepare<A: Allocator + Copy>(rt: &impl Abort, stream: &mut Stream<A>, before: Before) {
    match before {
        Offers(count) => offer_many(stream, count),
        Pairs(count) => offer_pairs(stream, count),
        Takes(count) => take_many(rt, stream, count),
        Cuts(count) => cut_many(rt, stream, count),
        CutAll => {
            stream.cut(moment(0)).expect(rt, "a cut");
        }
        Clears(count) => clear_many(rt, stream, count),
    }
}

/// Makes a stream whose ring has `count` sub-buffers of 256 bytes.
pub(crate) fn try_stream<A: Allocator + Copy>(
    rt: &impl Abort,
    alloc: A,
    (count, mode): (u64, Mode),
) -> Result<Stream<A>, AllocError> {
    let geometry = Geometry::new(256, count).expect(rt, "a geometry");
    let session = SessionMode::Local;
    Stream::new(alloc, Uuid::from_u128(1), 0, geometry, mode, session)
}

/// The same, with memory.
pub(crate) fn new_stream<A: Allocator + Copy>(
    rt: &impl Abort,
    alloc: A,
    ring: (u64, Mode),
) -> Stream<A> {
    try_stream(rt, alloc, ring).expect(rt, "memory")
}

impl<A: Allocator + Copy> Call<A> for Row {
    type Object = Stream<A>;

    type Answer = Told;

    fn object(&self, rt: &impl Abort, alloc: A) -> Stream<A> {
        let mut stream = new_stream(rt, alloc, self.ring);
        stream.set_active(true);
        for before in self.before {
            prepare(rt, &mut stream, *before);
        }
        stream
    }

    fn make(&self, _rt: &impl Abort, object: &mut Stream<A>) -> Told {
        match self.asked {
            Take(_) => Told::Taken(object.take()),
            Cut(_) => Told::Cut(object.cut(Moment::within_limit(100))),
            Clear(_) => Told::Cleared(object.clear()),
            Release(..) => Told::Released(object.release(0)),
            Peek(_) => Told::Peeked(match object.peek(Moment::within_limit(100)) {
                Ok(snap) => Some(size_of(snap.texts())),
                Err(_) => None,
            }),
        }
    }

    fn granted(&self, _rt: &impl Abort) -> Told {
        match self.asked {
            Take(taken) => Told::Taken(Ok(taken)),
            Cut(done) => Told::Cut(Ok(done)),
            Clear(cleared) => Told::Cleared(Ok(cleared)),
            Release(released, _) => Told::Released(Ok(released)),
            Peek(bytes) => Told::Peeked(Some(bytes)),
        }
    }

    fn refusal(&self, number: usize) -> Option<Told> {
        match self.asked {
            Take(_) => only(number, Told::Taken(Err(TakeFault::NoMemory))),
            Cut(_) => only(number, Told::Cut(Err(CutFault::NoMemory))),
            Clear(Cleared { packets: 0, .. }) => None,
            Clear(_) => only(number, Told::Cleared(Err(ClearFault::NoMemory))),
            Release(Released { packets: 0, .. }, _) => None,
            Release(..) => only(number, Told::Released(Err(ReleaseFault::NoMemory))),
            Peek(0) => None,
            Peek(_) => only(number, Told::Peeked(None)),
        }
    }

    fn spares(&self, request: usize) -> bool {
        match self.asked {
            Release(_, less_room) => less_room == Some(request),
            _ => false,
        }
    }

    fn assert_alike(&self, rt: &impl Abort, one: &Stream<A>, other: &Stream<A>) {
        assert_same_stream(rt, one, other);
    }
}

/// Packets have a list, with room for four at first, and their bytes, whose room doubles when they grow. Runs have a list too.
static ROWS: [Row; 21] = [
    Row {
        ring: (2, Mode::Discard),
        before: &[Offers(3)],
        asked: Take(Taken {
            seq: 0,
            count: 2,
            chunk: 0,
        }),
    },
    Row {
        ring: (4, Mode::Discard),
        before: &[Offers(7), Takes(1)],
        asked: Take(Taken {
            seq: 1,
            count: 2,
            chunk: 0,
        }),
    },
    // three packets, room for a closed part, and these packets after another one
    Row {
        ring: (4, Mode::Discard),
        before: &[Offers(7), Takes(1)],
        asked: Cut(CutDone {
            chunk: 0,
            packets: 3,
            records: 5,
        }),
    },
    // an empty ring: room for a closed part
    Row {
        ring: (4, Mode::Discard),
        before: &[],
        asked: Cut(CutDone {
            chunk: 0,
            packets: 0,
            records: 0,
        }),
    },
    // one packet, and room for a fifth closed part
    Row {
        ring: (4, Mode::Overwrite),
        before: &[Cuts(4), Offers(1)],
        asked: Cut(CutDone {
            chunk: 4,
            packets: 1,
            records: 1,
        }),
    },
    Row {
        ring: (4, Mode::Overwrite),
        before: &[Cuts(1), Offers(20), Takes(1)],
        asked: Peek(684),
    },
    // an empty ring has nothing to copy
    Row {
        ring: (4, Mode::Discard),
        before: &[Cuts(1)],
        asked: Peek(0),
    },
    // a ring alone
    Row {
        ring: (4, Mode::Discard),
        before: &[Offers(7)],
        asked: Clear(Cleared {
            packets: 4,
            records: 7,
        }),
    },
    // three packets that were taken, and one record in the ring
    Row {
        ring: (4, Mode::Discard),
        before: &[Offers(7), Takes(3)],
        asked: Clear(Cleared {
            packets: 4,
            records: 7,
        }),
    },
    // every other record is discarded from the third on: eight runs
    Row {
        ring: (2, Mode::Discard),
        before: &[Pairs(7)],
        asked: Clear(Cleared {
            packets: 2,
            records: 8,
        }),
    },
    // the same runs of packets that were taken, and one of the ring
    Row {
        ring: (2, Mode::Discard),
        before: &[Pairs(7), Takes(1), Offers(1), Takes(1)],
        asked: Clear(Cleared {
            packets: 3,
            records: 9,
        }),
    },
    // five runs are kept, and four come after them
    Row {
        ring: (4, Mode::Overwrite),
        before: &[Clears(5), Offers(20), Takes(1)],
        asked: Clear(Cleared {
            packets: 4,
            records: 8,
        }),
    },
    // closed parts stay
    Row {
        ring: (4, Mode::Discard),
        before: &[Cuts(2), Clears(1), Offers(7), Takes(2)],
        asked: Clear(Cleared {
            packets: 4,
            records: 7,
        }),
    },
    // nothing to clear takes no memory
    Row {
        ring: (2, Mode::Discard),
        before: &[],
        asked: Clear(Cleared {
            packets: 0,
            records: 0,
        }),
    },
    // nor if parts are closed and runs are kept
    Row {
        ring: (4, Mode::Discard),
        before: &[Cuts(2), Clears(1)],
        asked: Clear(Cleared {
            packets: 0,
            records: 0,
        }),
    },
    // three packets of 228 bytes and one of 154: four runs, which fill their first room
    Row {
        ring: (4, Mode::Discard),
        before: &[Offers(7), CutAll],
        asked: Release(
            Released {
                packets: 4,
                records: 7,
                bytes: 838,
            },
            None,
        ),
    },
    // three runs, which move to less room
    Row {
        ring: (4, Mode::Discard),
        before: &[Offers(5), CutAll],
        asked: Release(
            Released {
                packets: 3,
                records: 5,
                bytes: 610,
            },
            Some(1),
        ),
    },
    // eight runs, which fill their second room: of a packet of 256 bytes, and of seven records in 248 bytes
    Row {
        ring: (2, Mode::Discard),
        before: &[Pairs(7), CutAll],
        asked: Release(
            Released {
                packets: 2,
                records: 8,
                bytes: 504,
            },
            None,
        ),
    },
    // five runs, which move to less room: four of the records are in 176 bytes
    Row {
        ring: (2, Mode::Discard),
        before: &[Pairs(4), CutAll],
        asked: Release(
            Released {
                packets: 2,
                records: 5,
                bytes: 432,
            },
            Some(2),
        ),
    },
    // other parts, cleared packets and the ring stay
    Row {
        ring: (4, Mode::Discard),
        before: &[Cuts(3), Clears(1), Offers(7), Takes(2)],
        asked: Release(
            Released {
                packets: 1,
                records: 1,
                bytes: 154,
            },
            Some(1),
        ),
    },
    // a part without packets takes no memory
    Row {
        ring: (4, Mode::Discard),
        before: &[CutAll, Offers(7)],
        asked: Release(
            Released {
                packets: 0,
                records: 0,
                bytes: 0,
            },
            None,
        ),
    },
];

#[test]
fn a_call_of_a_stream_without_memory_changes_nothing(rt: HostRuntime) {
    let heap = new_heap(&rt, rt.alloc());
    let memory = Rationed::new(rt.alloc());
    let (mut tried, mut refused) = (0usize, 0usize);
    for row in &ROWS {
        tried = tried.wrapping_add(refuse_each(&rt, rt.alloc(), &heap, UNIT, row));
        refused = refused.wrapping_add(refuse_each_request(&rt, &memory, row));
    }
    assert!(rt; tried >= 500, "{tried}");
    assert!(rt; refused >= 15, "{refused}");
}
