//! Pages that become packets, and pages that are copied since they are mostly empty.

use super::assert_same;
use crate::packing::bytes_of;
use linked_list_allocator::LocalHeap;
use std::alloc::{Allocator, Global};
use std::process::Abort;
use tr_packet::{PacketView, decode_packet};
use tr_stream::Stream;
use tr_terms::{Geometry, Mode, SessionMode};
use tr_testing::moment;
use uuid::Uuid;

static PAYLOAD: [u8; 4_000] = [7; 4_000];

/// A stream whose pages have 4,096 bytes.
fn wide_stream<A: Allocator + Copy>(rt: &impl Abort, alloc: A) -> Stream<A> {
    let geometry = Geometry::new(4_096, 4).expect(rt, "a geometry");
    let made = Stream::new(
        alloc,
        Uuid::from_u128(1),
        3,
        geometry,
        Mode::Discard,
        SessionMode::Local,
    );
    let mut stream = made.expect(rt, "memory");
    stream.set_active(true);
    stream
}

fn offer<A: Allocator + Copy>(rt: &impl Abort, stream: &mut Stream<A>, at: u64, len: usize) {
    let payload = PAYLOAD.get(..len).expect(rt, "a short payload");
    let _ = stream.offer(moment(at), 7, payload).expect(rt, "stored");
}

/// Asserts that the bytes begin with this packet, and answers what is behind.
fn behind<'a>(rt: &impl Abort, bytes: &'a [u8], shown: &PacketView<'_>) -> &'a [u8] {
    let (packet, size) = decode_packet(bytes).expect(rt, "a packet");
    assert_same(
        rt,
        (packet.head(), packet.count()),
        (shown.head(), shown.count()),
    );
    assert_same(rt, packet.records().text(), shown.records().text());
    bytes.get(size..).expect(rt, "what is behind")
}

/// Asserts how many bytes each packet of a part has, and that its texts are read as they are shown.
fn assert_sizes(rt: &impl Abort, alloc: Global, stream: &Stream, k: u64, sizes: &[usize]) {
    let part = stream.part(k).expect(rt, "a part");
    assert_same(rt, part.texts().len(), sizes.len());
    for (text, size) in part.texts().iter().zip(sizes) {
        assert_same(rt, text.text().len(), *size);
    }
    let text = bytes_of(rt, alloc, part.texts());
    assert_same(rt, text.len() as u128, part.bytes());
    let mut rest = text.as_slice();
    for packet in part.packets() {
        rest = behind(rt, rest, &packet);
    }
    assert_same(rt, rest.len(), 0);
}

#[test]
fn pages_become_packets_or_are_copied(rt: HostRuntime) {
    let mut stream = wide_stream(&rt, rt.alloc());
    // a page with one short record, one that is nearly full, and one with two records
    offer(&rt, &mut stream, 1, 10);
    offer(&rt, &mut stream, 2, 3_990);
    offer(&rt, &mut stream, 3, 2_000);
    offer(&rt, &mut stream, 4, 1_000);
    let taken = stream.take().expect(&rt, "a packet");
    assert_same(&rt, (taken.seq, taken.count), (0, 1));
    assert_sizes(&rt, rt.alloc(), &stream, 0, &[114]);
    let taken = stream.take().expect(&rt, "a packet");
    assert_same(&rt, (taken.seq, taken.count), (1, 1));
    assert_sizes(&rt, rt.alloc(), &stream, 0, &[114, 4_094]);
    let done = stream.cut(moment(5)).expect(&rt, "a cut");
    assert_same(&rt, (done.packets, done.records), (1, 2));
    assert_sizes(&rt, rt.alloc(), &stream, 0, &[114, 4_094, 3_128]);
    // what waits, and then a current one that is mostly empty
    offer(&rt, &mut stream, 6, 10);
    offer(&rt, &mut stream, 7, 3_990);
    offer(&rt, &mut stream, 8, 100);
    let done = stream.cut(moment(9)).expect(&rt, "a cut");
    assert_same(&rt, (done.packets, done.records), (3, 3));
    assert_sizes(&rt, rt.alloc(), &stream, 1, &[114, 4_094, 204]);
    // nothing
    let done = stream.cut(moment(10)).expect(&rt, "a cut");
    assert_same(&rt, (done.packets, done.records), (0, 0));
    assert_sizes(&rt, rt.alloc(), &stream, 2, &[]);
    assert_same(&rt, stream.counts().in_ring, 0);
}

#[test]
fn pages_that_are_kept_for_a_cut_change_nothing(rt: HostRuntime) {
    let mut stream = wide_stream(&rt, rt.alloc());
    offer(&rt, &mut stream, 1, 3_000);
    offer(&rt, &mut stream, 2, 3_000);
    assert_same(
        &rt,
        (stream.lacking_for_take(), stream.lacking_for_cut()),
        (1, 2),
    );
    let mut more = stream.no_spares();
    more.make_touched(2);
    assert_same(&rt, more.len(), 2);
    stream.keep_spares(more);
    assert_same(
        &rt,
        (stream.lacking_for_take(), stream.lacking_for_cut()),
        (0, 0),
    );
    let done = stream.cut(moment(3)).expect(&rt, "a cut");
    assert_same(&rt, (done.packets, done.records), (2, 2));
    assert_sizes(&rt, rt.alloc(), &stream, 0, &[3_104, 3_104]);
    offer(&rt, &mut stream, 4, 3_000);
    assert_same(
        &rt,
        (stream.lacking_for_take(), stream.lacking_for_cut()),
        (0, 1),
    );
}

/// Four times the bytes that the parts before number `k` hold, and 512 more for each packet and for their list.
fn most_memory(rt: &impl Abort, stream: &Stream<&LocalHeap>, k: u64) -> u128 {
    let mut most = 512u128;
    for i in 0..k {
        let part = stream.part(i).expect(rt, "a part");
        let packets = part.texts().len() as u128;
        most = most
            .saturating_add(part.bytes().saturating_mul(4))
            .saturating_add(packets.saturating_mul(512));
    }
    most
}

// a page is kept whole only if a quarter of it is used; a packet's place in its list has some hundred bytes, and lists double
#[test]
fn packets_take_at_most_four_times_their_bytes(rt: HostRuntime) {
    for len in [10, 900, 919, 920, 1_500, 3_990] {
        let heap = LocalHeap::new(rt.alloc(), 1_048_576).expect(&rt, "memory");
        let mut stream = wide_stream(&rt, &heap);
        let empty = heap.used();
        for k in 0..40 {
            offer(&rt, &mut stream, 3 * k, len);
            offer(&rt, &mut stream, 3 * k + 1, len);
            assert_same(&rt, stream.cut(moment(3 * k + 2)).is_ok(), true);
            let more = heap.used().saturating_sub(empty) as u128;
            assert_same(&rt, more <= most_memory(&rt, &stream, k + 1), true);
        }
        drop(stream);
    }
}
