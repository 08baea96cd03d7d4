//! How much room a sub-buffer has.

use super::{assert_record, assert_same, payload};
use std::process::Abort;
use tr_packet::{Head, decode_packet};
use tr_record::RecView;
use tr_subbuf::SubBuf;
use tr_testing::moment;
use uuid::Uuid;

/// Puts a record with a payload of 50 bytes behind others.
fn put(rt: &impl Abort, buffer: &mut SubBuf, serial: u64) {
    assert!(rt; buffer.joins(50) && serial < 1000);
    buffer.put(&RecView::new(serial, moment(1000 + serial), 7, &[0x61; 50]));
}

/// What the packet of a sub-buffer says that begins at this moment.
fn head(begin: u64) -> Head {
    Head {
        uuid: Uuid::from_bytes([7; 16]),
        stream: 3,
        begin: moment(begin),
        end: moment(begin),
        seq: 5,
        lost: 1,
    }
}

/// Asserts when the packet that stands in memory ends, what was discarded before, and how many records it has.
fn assert_stands(rt: &impl Abort, buffer: &SubBuf, wanted: Option<(u64, u64, usize)>) {
    let found = match decode_packet(buffer.image()) {
        Ok((packet, _)) => Some((packet.head().end.get(), packet.head().lost, packet.count())),
        Err(_) => None,
    };
    assert_same(rt, found, wanted);
}

/// Has the packet end at this moment, after so many discarded records.
fn end(rt: &impl Abort, buffer: &mut SubBuf, at: u64, lost: u64) {
    assert!(rt; 1 <= buffer.count());
    buffer.end(moment(at));
    assert!(rt; 1 <= buffer.count());
    buffer.note_lost(lost);
}

/// Asserts how many bytes are used, how many there are, and how many records.
fn assert_used(rt: &impl Abort, buffer: &SubBuf, used: usize, count: usize) {
    let found = (buffer.used(), buffer.size(), buffer.count());
    assert_same(rt, found, (used, 256, count));
    assert_same(rt, buffer.is_empty(), count == 0);
}

/// Asserts whether there is room for records with payloads of these lengths.
fn assert_fits(rt: &impl Abort, buffer: &SubBuf, rows: &[(usize, bool)]) {
    for (len, want) in rows {
        assert_same(rt, (*len, buffer.fits(*len)), (*len, *want));
    }
}

// 256 bytes: the packet's 80, and 74 for each record with a payload of 50
#[test]
fn two_records_of_fifty_bytes_fit_256(rt: HostRuntime) {
    let mut buffer = SubBuf::new(rt.alloc(), 256).expect(&rt, "memory");
    assert_used(&rt, &buffer, 80, 0);
    assert_stands(&rt, &buffer, None);
    assert!(&rt; buffer.fits(50) && !buffer.joins(50));
    buffer.begin(head(1000), &RecView::new(0, moment(1000), 7, &[0x61; 50]));
    assert_stands(&rt, &buffer, Some((1000, 1, 1)));
    put(&rt, &mut buffer, 1);
    assert_used(&rt, &buffer, 228, 2);
    assert_stands(&rt, &buffer, Some((1001, 1, 2)));
    end(&rt, &mut buffer, 1500, 4);
    assert_stands(&rt, &buffer, Some((1500, 4, 2)));
    let room = [(50, false), (4, true), (5, false), (usize::MAX, false)];
    assert_fits(&rt, &buffer, &room);
    assert_record(&rt, buffer.at(1), (1, 1001, 7, payload(&rt, 50)));
    assert_same(&rt, buffer.at(2).is_none(), true);
    buffer.reset();
    assert_used(&rt, &buffer, 80, 0);
    assert_stands(&rt, &buffer, None);
    assert_fits(&rt, &buffer, &[(152, true), (153, false)]);
}

// no packet is larger than 1,048,576 bytes
#[test]
fn no_sub_buffer_is_larger_than_a_packet_may_be(rt: HostRuntime) {
    let largest = SubBuf::new(rt.alloc(), 1_048_576).is_ok();
    let beyond = SubBuf::new(rt.alloc(), 1_048_577).is_err();
    let touched = SubBuf::touched(rt.alloc(), 1_048_577).is_err();
    assert_same(&rt, (largest, beyond, touched), (true, true, true));
}
