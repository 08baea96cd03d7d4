//! Looks at a ring that was copied ahead, worked by hand: sub-buffers of 4,096 bytes, four to a ring. The oldest is overwritten.

use super::assert_same;
use crate::packing::bytes_of;
use linked_list_allocator::LocalHeap;
use std::alloc::{Allocator, Global};
use std::process::Abort;
use tr_book::StreamSnap;
use tr_stream::{Spares, Stream};
use tr_terms::{Geometry, Mode, SessionMode};
use tr_testing::moment;
use uuid::Uuid;

static PAYLOAD: [u8; 3_000] = [7; 3_000];

/// What a look shows of a packet: its number, its first and last moment, its records and its bytes.
type Row = (u64, u64, u64, usize, usize);

/// A stream of a snapshot session that takes offers.
fn watched_stream<A: Allocator + Copy>(rt: &impl Abort, alloc: A) -> Stream<A> {
    let geometry = Geometry::new(4_096, 4).expect(rt, "a geometry");
    let made = Stream::new(
        alloc,
        Uuid::from_u128(1),
        3,
        geometry,
        Mode::Overwrite,
        SessionMode::Snapshot,
    );
    let mut stream = made.expect(rt, "memory");
    stream.set_active(true);
    stream
}

fn offer<A: Allocator + Copy>(rt: &impl Abort, stream: &mut Stream<A>, at: u64, len: usize) {
    let payload = PAYLOAD.get(..len).expect(rt, "a short payload");
    let _ = stream.offer(moment(at), 7, payload).expect(rt, "stored");
}

/// Offers a record to each sub-buffer, and begins copies of them.
fn begun<A: Allocator + Copy>(rt: &impl Abort, alloc: A) -> Stream<A> {
    let mut stream = watched_stream(rt, alloc);
    for at in 1..=4 {
        offer(rt, &mut stream, at, 3_000);
    }
    assert_same(rt, stream.lacking_copies(), 4);
    begin_copies(rt, &mut stream, 4);
    assert_same(rt, stream.lacking_copies(), 0);
    stream
}

/// Begins copies in so many pages, all of which are used.
fn begin_copies<A: Allocator + Copy>(rt: &impl Abort, stream: &mut Stream<A>, count: usize) {
    let mut pages = stream.no_spares();
    pages.make_touched(count);
    assert_same(rt, pages.len(), count);
    stream.begin_copies(&mut pages);
    assert_same(rt, pages.len(), 0);
}

/// Asserts what a look shows of each packet.
fn assert_rows<A: Allocator>(rt: &impl Abort, snap: &StreamSnap<A>, rows: &[Row]) {
    assert_same(rt, snap.packets().len(), rows.len());
    for ((packet, text), row) in snap.packets().zip(snap.texts()).zip(rows) {
        let head = packet.head();
        let times = (head.begin.get(), head.end.get());
        let found = (
            head.seq,
            times.0,
            times.1,
            packet.count(),
            text.text().len(),
        );
        assert_same(rt, found, *row);
    }
}

/// Asserts that both looks show the same bytes.
fn assert_same_texts(rt: &impl Abort, alloc: Global, one: &StreamSnap, other: &StreamSnap) {
    let one = bytes_of(rt, alloc, one.texts());
    let other = bytes_of(rt, alloc, other.texts());
    assert_same(rt, one.as_slice(), other.as_slice());
}

#[test]
fn looks_show_what_was_copied_ahead_and_what_came_after(rt: HostRuntime) {
    let mut stream = begun(&rt, rt.alloc());
    // four packets of 80 + 24 + 3,000 bytes; the 80 of a head are written when the packet is handed out
    assert_same(&rt, stream.copy_more(5_000), 5_000);
    assert_same(&rt, stream.copy_more(100_000), 7_096);
    assert_same(&rt, stream.copy_more(100_000), 0);
    // one joins the last of them, and one comes in the place of the first, whose copy is begun anew
    offer(&rt, &mut stream, 5, 500);
    offer(&rt, &mut stream, 6, 1_000);
    assert_same(&rt, stream.copy_more(524), 524);
    assert_same(&rt, stream.copy_more(100), 100);
    let rows = [
        (1, 2, 3, 1, 3_104),
        (2, 3, 4, 1, 3_104),
        (3, 4, 6, 2, 3_628),
        (4, 6, 9, 1, 1_104),
    ];
    let plain = stream.peek(moment(9)).expect(&rt, "a look");
    assert_rows(&rt, &plain, &rows);
    let ahead = stream.peek_out(moment(9)).expect(&rt, "a look");
    assert_rows(&rt, &ahead, &rows);
    assert_same(&rt, (ahead.offered(), ahead.lost()), (6, 0));
    assert_same_texts(&rt, rt.alloc(), &plain, &ahead);
    // they were handed out; a look without copies shows the same
    assert_same(&rt, stream.lacking_copies(), 4);
    let again = stream.peek_out(moment(9)).expect(&rt, "a look");
    assert_same_texts(&rt, rt.alloc(), &plain, &again);
}

#[test]
fn copies_are_begun_in_pages_of_the_rings_size(rt: HostRuntime) {
    let mut stream = watched_stream(&rt, rt.alloc());
    offer(&rt, &mut stream, 1, 3_000);
    let mut others = Spares::new(rt.alloc(), 256);
    others.make_touched(2);
    stream.begin_copies(&mut others);
    assert_same(&rt, (others.len(), stream.lacking_copies()), (2, 1));
    // one of three pages has a use
    let mut pages = stream.no_spares();
    pages.make_touched(3);
    stream.begin_copies(&mut pages);
    assert_same(&rt, (pages.len(), stream.lacking_copies()), (2, 0));
    assert_same(&rt, stream.warm(0, 64) > 0, true);
}

#[test]
fn looks_take_no_memory_for_what_was_copied_ahead(rt: HostRuntime) {
    let heap = LocalHeap::new(rt.alloc(), 65_536).expect(&rt, "memory");
    let mut stream = begun(&rt, &heap);
    let before = heap.used();
    assert_same(&rt, stream.copy_more(100_000), 12_096);
    offer(&rt, &mut stream, 5, 500);
    assert_same(&rt, heap.used(), before);
    let snap = stream.peek_out(moment(9)).expect(&rt, "a look");
    assert_same(&rt, snap.packets().len(), 4);
    // a list of four
    assert_same(&rt, heap.used().saturating_sub(before) < 1_024, true);
    drop(snap);
    assert_same(&rt, before.saturating_sub(heap.used()) >= 4 * 4_096, true);
    drop(stream);
}
