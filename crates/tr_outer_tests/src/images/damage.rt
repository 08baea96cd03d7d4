//! Damaged packets in images: a packet_size may say anything, all else counts.

use super::laying::{Row, assert_found, kept, lay, recovered, written, zeros};
use crate::asserting::assert_same;
use std::alloc::Global;
use std::process::Abort;
use tr_terms::limits::LARGEST_PACKET;

/// Where the numbers of a packet's size begin.
const CONTENT_SIZE_AT: usize = 48;

const PACKET_SIZE_AT: usize = 56;

/// Writes a number over the eight bytes from a place on.
fn put_number(rt: &impl Abort, bytes: &mut [u8], place: usize, number: u64) {
    lay(rt, bytes, place, &number.to_le_bytes());
}

/// A packet of 228 bytes whose number is this.
fn numbered(rt: &impl Abort, alloc: Global, seq: u64) -> Vec<u8> {
    written(rt, alloc, &(3, seq, 5, &[50, 50]))
}

/// Whether a packet of two records with payloads of 50 bytes is one still, of the same trace, after the byte at this place was
/// inverted. The bytes 56 to 63 are its packet_size.
fn is_found_without(at: usize) -> bool {
    match at {
        // the magic, the trace, and the stream_id
        0..=23 => false,
        // when it begins; the highest byte of when it ends; the content_size
        32..=39 | 47..=55 => false,
        // the first record's moment, serial and length; the second one's moment and length
        84..=103 | 158..=165 | 174..=177 => false,
        _ => true,
    }
}

/// The packet of the number 1000 + `at`, in which the byte at this place is inverted.
fn damaged(rt: &impl Abort, alloc: Global, at: usize) -> Vec<u8> {
    let mut bytes = numbered(rt, alloc, 1000_u64.saturating_add(at as u64));
    *bytes.get_mut(at).expect(rt, "a byte") ^= 0xFF;
    bytes
}

/// Where the packets are damaged, as they are in order: those of stream 3 and their own numbers, of stream 3 and other numbers,
/// and of other streams.
static ORDER: [(usize, usize); 5] = [(0, 24), (32, 64), (72, 228), (64, 72), (24, 32)];

/// Each byte in turn is damaged, of packets that stand in one image. Those that are found have all of their bytes, but that
/// packet_size is as content_size.
#[test]
fn a_damaged_byte(rt: HostRuntime) {
    let alloc = rt.alloc();
    let mut image = zeros(&rt, alloc, 228 * 300);
    for at in 0..228 {
        lay(&rt, &mut image, 300 * at, &damaged(&rt, alloc, at));
    }
    let Ok(Some(found)) = recovered(alloc, 1, &mut kept(&rt, alloc, &image, 1_000_000)) else {
        panic!(&rt; "it isn't read")
    };
    let mut texts = found.iter();
    for (from, until) in &ORDER {
        for at in (*from..*until).filter(|at| is_found_without(*at)) {
            let mut whole = damaged(&rt, alloc, at);
            put_number(&rt, &mut whole, PACKET_SIZE_AT, 1824);
            let text = texts.next().expect(&rt, "a packet");
            assert_same(&rt, (at, text.text()), (at, whole.as_slice()));
        }
    }
    assert!(&rt; texts.next().is_none());
}

/// Numbers of bits that stand as a packet_size.
static PACKET_SIZES: [u64; 8] = [0, 1, 640, 1816, 1832, 32_768, 8 * 1_048_577, u64::MAX];

/// An image with a packet for each of these numbers, which stands from this byte of it on. Their own numbers are from 0 on.
fn with_sizes(rt: &impl Abort, alloc: Global, place: usize, sizes: &[u64]) -> Vec<u8> {
    let mut image = zeros(rt, alloc, 8000);
    let mut at = 41_usize;
    for (seq, bits) in sizes.iter().enumerate() {
        let mut packet = numbered(rt, alloc, seq as u64);
        put_number(rt, &mut packet, place, *bits);
        lay(rt, &mut image, at, &packet);
        at = at.saturating_add(400);
    }
    image
}

/// Whatever its packet_size says, a packet is found, and its own is as its content_size.
#[test]
fn any_packet_size(rt: HostRuntime) {
    let alloc = rt.alloc();
    let image = with_sizes(&rt, alloc, PACKET_SIZE_AT, &PACKET_SIZES);
    let Ok(Some(found)) = recovered(alloc, 1, &mut kept(&rt, alloc, &image, 1_000_000)) else {
        panic!(&rt; "it isn't read")
    };
    assert_same(&rt, found.len(), 8);
    for (seq, text) in found.iter().enumerate() {
        let whole = numbered(&rt, alloc, seq as u64);
        assert_same(&rt, (seq, text.text()), (seq, whole.as_slice()));
    }
}

/// Numbers of bits that stand as the content_size of a packet of two records with payloads of 50 bytes, which has 1824 bits, and
/// 1232 with the first one alone. With no other number is it a packet.
static CONTENT_SIZES: [u64; 17] = [
    1824,
    1232,
    0,
    1,
    7,
    632,
    640,
    824,
    832,
    1816,
    1820,
    1823,
    1825,
    1831,
    1832,
    8_388_616,
    u64::MAX,
];

#[test]
fn sizes_of_content(rt: HostRuntime) {
    let alloc = rt.alloc();
    let image = with_sizes(&rt, alloc, CONTENT_SIZE_AT, &CONTENT_SIZES);
    assert_found(
        &rt,
        alloc,
        &image,
        &[(3, 0, 5, &[50, 50]), (3, 1, 5, &[50])],
    );
}

/// The largest packet, and the same with one byte more of payload and content: only its size is wrong.
#[test]
fn one_byte_too_large(rt: HostRuntime) {
    const LARGEST: Row = (3, 4, 5, &[1_048_472]);
    let alloc = rt.alloc();
    let mut image = zeros(&rt, alloc, LARGEST_PACKET + 2);
    lay(&rt, &mut image, 1, &written(&rt, alloc, &LARGEST));
    assert_found(&rt, alloc, &image, &[LARGEST]);
    lay(&rt, &mut image, 1 + 100, &1_048_473_u32.to_le_bytes());
    assert_found(&rt, alloc, &image, &[]);
    put_number(&rt, &mut image, 1 + CONTENT_SIZE_AT, 8 * 1_048_577);
    assert_found(&rt, alloc, &image, &[]);
    put_number(&rt, &mut image, 1 + PACKET_SIZE_AT, 8 * 1_048_577);
    assert_found(&rt, alloc, &image, &[]);
}
