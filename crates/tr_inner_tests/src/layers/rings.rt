//! Rings that are filled, emptied and shown.

use super::{assert_record, assert_same, payload};
use std::alloc::Global;
use std::process::Abort;
use tr_packet::decode_packet;
use tr_ring::{ClosedSubBuf, Origin, Pushed, Ring};
use tr_testing::moment;
use uuid::Uuid;

/// Whose packets those of the rings are.
fn origin() -> Origin {
    Origin {
        uuid: Uuid::from_bytes([7; 16]),
        stream: 3,
    }
}

/// A ring of `count` sub-buffers of 256 bytes.
fn ring(rt: &impl Abort, alloc: Global, count: usize, overwrite: bool) -> Ring {
    assert!(rt; 2 <= count);
    let ring = Ring::new(alloc, origin(), 256, count, overwrite).expect(rt, "memory");
    assert_same(rt, (ring.overwrites(), ring.count()), (overwrite, count));
    ring
}

/// Pushes a record with this payload, whose serial is `k` and whose moment is 1000 + `k`, and asserts the answer.
fn assert_pushed(rt: &impl Abort, ring: &mut Ring, k: u64, payload: &[u8], want: Pushed) {
    assert!(rt; payload.len() <= 152 && ring.size() == 256);
    assert!(rt; ring.seq() < 1000 && ring.discarded() < 1000);
    let pushed = ring.push(moment(1000 + k % 1000), 7, k, payload);
    assert_same(rt, (k, pushed), (k, want));
}

/// Closes the current sub-buffer at 5000.
fn close_current(rt: &impl Abort, ring: &mut Ring) {
    assert!(rt; ring.waiting() < 64 && ring.waiting() + 1 < ring.count() && ring.seq() < 1000);
    assert!(rt; 1 <= ring.current().count());
    ring.close_current(moment(5000));
}

/// Asserts how many sub-buffers wait, of how many, how many records were discarded, and the current sub-buffer's number and
/// records.
fn assert_ring(rt: &impl Abort, ring: &Ring, wanted: (usize, usize, u64, u64, usize)) {
    let found = (
        ring.waiting(),
        ring.count(),
        ring.discarded(),
        ring.seq(),
        ring.current().count(),
    );
    assert_same(rt, found, wanted);
}

/// Asserts a closed sub-buffer's number, its end, what was discarded until then, and how many records it has.
fn assert_closed(
    rt: &impl Abort,
    closed: Option<ClosedSubBuf<'_>>,
    wanted: (u64, u64, u64, usize),
) {
    let closed = closed.expect(rt, "a closed one");
    let found = (
        closed.seq(),
        closed.end().get(),
        closed.discarded(),
        closed.count(),
    );
    assert_same(rt, found, wanted);
}

/// Asserts a record of the oldest closed sub-buffer.
fn assert_front_record(rt: &impl Abort, ring: &Ring, place: usize, wanted: (u64, u64, u32, &[u8])) {
    let front = ring.front().expect(rt, "a closed one");
    assert_record(rt, front.at(place), wanted);
}

/// Removes the oldest closed sub-buffer.
fn drop_front(rt: &impl Abort, ring: &mut Ring) {
    assert!(rt; 1 <= ring.waiting());
    ring.drop_front();
}

/// Removes all records.
fn clear(rt: &impl Abort, ring: &mut Ring) {
    assert!(rt; ring.seq() < 1000);
    ring.clear();
}

/// Asserts the serial of each of the ring's records and the length of its payload, the oldest first, and that there are no
/// more.
fn assert_records(rt: &impl Abort, ring: &Ring, rows: &[(u64, usize)]) {
    let mut k: u64 = 0;
    for (serial, len) in rows {
        let wanted = (*serial, 1000 + serial % 1000, 7, payload(rt, *len));
        assert_record(rt, ring.record(k), wanted);
        k = k.wrapping_add(1);
    }
    let none = (ring.record(k).is_none(), ring.record(u64::MAX).is_none());
    assert_same(rt, (k, none), (k, (true, true)));
}

/// What is done to a ring, or asked of it.
enum Step {
    /// A record with this serial and a payload of this length, and what is answered.
    Push(u64, usize, Pushed),
    /// The current sub-buffer is closed at 5000.
    Close,
    /// The oldest closed sub-buffer goes.
    Remove,
    /// All records go.
    Clear,
    /// How many sub-buffers wait, of how many, how many records were discarded, and the current sub-buffer's number and
    /// records.
    Ring((usize, usize, u64, u64, usize)),
    /// The oldest closed sub-buffer's number, its end, what was discarded until then, and how many records it has.
    Front((u64, u64, u64, usize)),
    /// The same of the closed sub-buffer at this place, and none after it.
    Last(usize, (u64, u64, u64, usize)),
    /// The record at this place of the oldest closed sub-buffer: its serial, and the length of its payload.
    InFront(usize, u64, usize),
    /// The packet that stands in the page at this place: its number, its end, what was discarded until then, and how many
    /// records it has; or none.
    Stands(usize, Option<(u64, u64, u64, usize)>),
    /// The serial of each record and the length of its payload.
    Shows(&'static [(u64, usize)]),
}

/// Makes a step of a ring.
fn make(rt: &impl Abort, ring: &mut Ring, step: &Step) {
    match step {
        Step::Push(k, len, want) => assert_pushed(rt, ring, *k, payload(rt, *len), *want),
        Step::Close => close_current(rt, ring),
        Step::Remove => drop_front(rt, ring),
        Step::Clear => clear(rt, ring),
        Step::Ring(wanted) => assert_ring(rt, ring, *wanted),
        Step::Front(wanted) => assert_closed(rt, ring.front(), *wanted),
        Step::Last(place, wanted) => assert_last(rt, ring, *place, *wanted),
        Step::InFront(place, serial, len) => assert_in_front(rt, ring, *place, *serial, *len),
        Step::Stands(place, wanted) => assert_stands(rt, ring, *place, *wanted),
        Step::Shows(rows) => assert_records(rt, ring, rows),
    }
}

/// Asserts the packet that stands in the page at this place of those that wait, or in the current one.
fn assert_stands(
    rt: &impl Abort,
    ring: &Ring,
    place: usize,
    wanted: Option<(u64, u64, u64, usize)>,
) {
    let Ok((packet, size)) = decode_packet(ring.image(place)) else {
        assert_same(rt, (place, None), (place, wanted));
        return;
    };
    let head = packet.head();
    let found = (head.seq, head.end.get(), head.lost, packet.count());
    assert_same(rt, (place, Some(found)), (place, wanted));
    let of = (head.uuid, head.stream, size);
    assert_same(
        rt,
        of,
        (origin().uuid, origin().stream, ring.image(place).len()),
    );
}

/// Asserts the last closed sub-buffer, as `assert_closed` does.
fn assert_last(rt: &impl Abort, ring: &Ring, place: usize, wanted: (u64, u64, u64, usize)) {
    assert_closed(rt, ring.items().nth(place), wanted);
    assert!(rt; ring.items().nth(place.wrapping_add(1)).is_none());
}

/// Asserts the record at this place of the oldest closed sub-buffer.
fn assert_in_front(rt: &impl Abort, ring: &Ring, place: usize, serial: u64, len: usize) {
    let wanted = (serial, 1000 + serial % 1000, 7, payload(rt, len));
    assert_front_record(rt, ring, place, wanted);
}

/// Makes the steps of a ring with `count` sub-buffers.
fn make_steps(rt: &impl Abort, alloc: Global, count: usize, overwrite: bool, steps: &[Step]) {
    let mut ring = ring(rt, alloc, count, overwrite);
    for step in steps {
        make(rt, &mut ring, step);
    }
    drop(ring);
}

// two records of 74 bytes fit beside the packet's 80
static DISCARDING: [Step; 19] = [
    Step::Stands(0, None),
    Step::Push(0, 50, Pushed::Stored { seq: 0 }),
    Step::Push(1, 50, Pushed::Stored { seq: 0 }),
    Step::Push(2, 50, Pushed::Stored { seq: 1 }),
    Step::Push(3, 50, Pushed::Stored { seq: 1 }),
    Step::Push(4, 50, Pushed::Refused),
    // the fifth was discarded, and a shorter one is stored after it
    Step::Push(5, 0, Pushed::Stored { seq: 1 }),
    Step::Shows(&[(0, 50), (1, 50), (2, 50), (3, 50), (5, 0)]),
    Step::Push(6, 50, Pushed::Refused),
    Step::Ring((1, 2, 2, 1, 3)),
    Step::Stands(0, Some((0, 1002, 0, 2))),
    // the current one ends with its last record, and has what was discarded since
    Step::Stands(1, Some((1, 1005, 2, 3))),
    Step::Front((0, 1002, 0, 2)),
    Step::InFront(1, 1, 50),
    Step::Remove,
    Step::Push(7, 50, Pushed::Stored { seq: 2 }),
    Step::Last(0, (1, 1007, 2, 3)),
    Step::Clear,
    Step::Stands(0, None),
];

#[test]
fn a_full_ring_discards_the_newest(rt: HostRuntime) {
    make_steps(&rt, rt.alloc(), 2, false, &DISCARDING);
}

// two records of 88 bytes fill a sub-buffer
static OVERWRITING: [Step; 9] = [
    Step::Push(0, 64, Pushed::Stored { seq: 0 }),
    Step::Push(1, 64, Pushed::Stored { seq: 0 }),
    Step::Push(2, 64, Pushed::Stored { seq: 1 }),
    Step::Push(3, 64, Pushed::Stored { seq: 1 }),
    // the fifth overwrites the first two
    Step::Push(
        4,
        64,
        Pushed::StoredOver {
            seq: 2,
            gone_seq: 0,
            gone_count: 2,
        },
    ),
    Step::Shows(&[(2, 64), (3, 64), (4, 64)]),
    Step::Push(5, 64, Pushed::Stored { seq: 2 }),
    Step::Ring((1, 2, 0, 2, 2)),
    Step::Front((1, 1004, 0, 2)),
];

#[test]
fn a_full_ring_gives_up_the_oldest(rt: HostRuntime) {
    make_steps(&rt, rt.alloc(), 2, true, &OVERWRITING);
}

#[test]
fn a_closed_current_one_waits(rt: HostRuntime) {
    let mut ring = ring(&rt, rt.alloc(), 4, false);
    let stored = Pushed::Stored { seq: 0 };
    assert_pushed(&rt, &mut ring, 0, b"hello", stored);
    assert_ring(&rt, &ring, (0, 4, 0, 0, 1));
    close_current(&rt, &mut ring);
    assert_ring(&rt, &ring, (1, 4, 0, 1, 0));
    assert_same(&rt, ring.current().is_empty(), true);
    assert_closed(&rt, ring.front(), (0, 5000, 0, 1));
    assert_front_record(&rt, &ring, 0, (0, 1000, 7, b"hello"));
    drop(ring);
}

// two records of 74 bytes, or one of 176, leave no room for another of 74 beside the packet's 80
static SHOWING: [Step; 17] = [
    Step::Shows(&[]),
    Step::Push(10, 50, Pushed::Stored { seq: 0 }),
    Step::Push(11, 50, Pushed::Stored { seq: 0 }),
    // no sub-buffer is closed yet
    Step::Shows(&[(10, 50), (11, 50)]),
    Step::Push(12, 152, Pushed::Stored { seq: 1 }),
    Step::Push(13, 50, Pushed::Stored { seq: 2 }),
    Step::Push(14, 5, Pushed::Stored { seq: 2 }),
    Step::Ring((2, 4, 0, 2, 2)),
    Step::Shows(&[(10, 50), (11, 50), (12, 152), (13, 50), (14, 5)]),
    Step::Close,
    // the current one is empty
    Step::Shows(&[(10, 50), (11, 50), (12, 152), (13, 50), (14, 5)]),
    Step::Ring((3, 4, 0, 3, 0)),
    Step::Remove,
    Step::Shows(&[(12, 152), (13, 50), (14, 5)]),
    Step::Ring((2, 4, 0, 3, 0)),
    Step::Clear,
    Step::Shows(&[]),
];

#[test]
fn records_are_shown_by_place(rt: HostRuntime) {
    make_steps(&rt, rt.alloc(), 4, false, &SHOWING);
}
