//! Worked examples of the record format, and the happy path of what takes memory.

use super::{assert_record, assert_same};
use std::alloc::Global;
use std::process::Abort;
use tr_record::{Rec, RecView, RecViews, Records, put_rec, read_raw, read_rec, rec_size};
use tr_terms::Moment;
use tr_testing::moment;

/// The text of a record of id 7, moment 1 and serial 0 with the payload `A`.
static ONE: [u8; 25] = [
    7, 0, 0, 0, 1, 0, 0, 0, 0, 0, 0, 0, 0, 0, 0, 0, 0, 0, 0, 0, 1, 0, 0, 0, 0x41,
];

/// The text of a record of id 7, moment 1 and serial 0 with this payload.
fn written(rt: &impl Abort, alloc: Global, payload: &[u8]) -> Vec<u8> {
    assert!(rt; payload.len() <= 1_000);
    let record = RecView::new(0, moment(1), 7, payload);
    let mut out = Vec::with_capacity(alloc, rec_size(payload.len())).expect(rt, "memory");
    put_rec(&mut out, &record);
    out
}

/// Asserts that bytes begin with the record of this payload, its id 7, moment 1 and serial 0, and its size.
fn assert_read(rt: &impl Abort, bytes: &[u8], payload: &[u8], wanted: usize) {
    let (record, size) = read_rec(bytes).expect(rt, "a record");
    assert_same(rt, (size, record.size()), (wanted, wanted));
    assert_record(rt, Some(record), (0, 1, 7, payload));
}

#[test]
fn a_record_is_written_and_read(rt: HostRuntime) {
    let one = written(&rt, rt.alloc(), b"A");
    assert_same(&rt, one.as_slice(), ONE.as_slice());
    assert_read(&rt, &one, b"A", 25);
    let none = written(&rt, rt.alloc(), b"");
    assert_same(&rt, none.len(), 24);
    assert_read(&rt, &none, b"", 24);
}

/// The text of a record at this moment.
fn late(nanoseconds: u64) -> [u8; 25] {
    let mut text = ONE;
    text[4..12].copy_from_slice(&nanoseconds.to_le_bytes());
    text
}

/// Asserts whether bytes begin with a record.
fn assert_is_record(rt: &impl Abort, bytes: &[u8], want: bool) {
    assert_same(rt, (bytes, read_rec(bytes).is_some()), (bytes, want));
}

#[test]
fn what_is_no_record(rt: HostRuntime) {
    // fewer than 24 bytes, a cut payload, the last moment, and one above the limit
    assert_is_record(&rt, &ONE[..23], false);
    assert_is_record(&rt, &ONE[..24], false);
    assert_is_record(&rt, &late(9_000_000_000_000_000_000), true);
    let late = late(9_000_000_000_000_000_001);
    assert_is_record(&rt, &late, false);
    let (raw, rest) = read_raw(&late).expect(&rt, "the fields");
    assert_same(
        &rt,
        (raw.moment, rest.len()),
        (9_000_000_000_000_000_001, 0),
    );
}

#[test]
fn a_record_keeps_its_payload(rt: HostRuntime) {
    let record = Rec::copy_of(rt.alloc(), 3, moment(5), 9, b"abc").expect(&rt, "memory");
    let found = (record.serial(), record.moment().get(), record.id());
    assert_same(&rt, found, (3, 5, 9));
    assert_same(&rt, record.size(), 27);
    assert_record(&rt, Some(record.view()), (3, 5, 9, b"abc"));
    assert_same(&rt, record.payload(), b"abc".as_slice());
    assert_same(&rt, record.into_payload().as_slice(), b"abc".as_slice());
}

/// Three records, of serials 4, 6 and 9.
fn three_records(rt: &impl Abort, alloc: Global) -> Vec<Rec> {
    let mut records = Vec::new(alloc);
    for serial in &[4, 6, 9] {
        let record = Rec::copy_of(alloc, *serial, moment(5), 7, b"abc").expect(rt, "memory");
        records.push(record).expect(rt, "memory");
    }
    records
}

/// Asserts how many records are shown, and whether they are none.
fn assert_len(rt: &impl Abort, views: &RecViews<'_>, wanted: usize) {
    let found = (views.len(), views.first().is_none());
    assert_same(rt, found, (wanted, wanted == 0));
}

#[test]
fn records_are_shown_by_place_and_serial(rt: HostRuntime) {
    let records = three_records(&rt, rt.alloc());
    let views = RecViews::new(&records);
    assert_len(&rt, &views, 3);
    assert_same(&rt, views.at(3).is_none(), true);
    assert_same(&rt, (views.has(6), views.has(5)), (true, false));
    assert_record(&rt, views.first(), (4, 5, 7, b"abc"));
    assert_record(&rt, views.at(1), (6, 5, 7, b"abc"));
    assert_record(&rt, views.last(), (9, 5, 7, b"abc"));
    let none: RecViews<'_> = RecViews::new(&[]);
    assert_len(&rt, &none, 0);
    assert_same(&rt, none.last().is_none(), true);
}

#[test]
fn records_are_shown_one_after_another(rt: HostRuntime) {
    let records = three_records(&rt, rt.alloc());
    let mut views = RecViews::new(&records);
    assert_record(&rt, views.next(), (4, 5, 7, b"abc"));
    assert_len(&rt, &views, 2);
    assert_same(&rt, views.has(4), false);
    assert_record(&rt, views.next(), (6, 5, 7, b"abc"));
    assert_record(&rt, views.next(), (9, 5, 7, b"abc"));
    assert_same(&rt, views.next().is_none(), true);
}

#[test]
fn moments_have_a_limit(rt: HostRuntime) {
    let last = Moment::new(9_000_000_000_000_000_000).expect(&rt, "the last moment");
    let above = Moment::new(9_000_000_000_000_000_001);
    assert_same(&rt, above, None);
    assert_same(&rt, Moment::zero().later(last), last);
    assert_same(&rt, last.later(Moment::zero()), last);
    assert_same(&rt, Moment::zero() < last, true);
}

/// Three records one after another, of 25, 25 and 24 bytes.
static ROW: [u8; 74] = [
    7, 0, 0, 0, 1, 0, 0, 0, 0, 0, 0, 0, 0, 0, 0, 0, 0, 0, 0, 0, 1, 0, 0, 0, 0x41, //
    7, 0, 0, 0, 1, 0, 0, 0, 0, 0, 0, 0, 0, 0, 0, 0, 0, 0, 0, 0, 1, 0, 0, 0, 0x41, //
    7, 0, 0, 0, 1, 0, 0, 0, 0, 0, 0, 0, 0, 0, 0, 0, 0, 0, 0, 0, 0, 0, 0, 0,
];

/// Asserts the sizes of the records that these bytes are.
fn assert_sizes(rt: &impl Abort, bytes: &[u8], wanted: &[usize]) {
    let mut records = Records::checked(bytes).expect(rt, "whole records");
    for size in wanted {
        let record = records.next().expect(rt, "a record");
        assert_same(rt, record.size(), *size);
    }
    assert_same(rt, records.next().is_none(), true);
}

#[test]
fn records_end_to_end(rt: HostRuntime) {
    assert_sizes(&rt, &ROW, &[25, 25, 24]);
    assert_sizes(&rt, b"", &[]);
    assert_same(&rt, Records::checked(&ROW[..73]).is_none(), true);
    assert_same(&rt, Records::checked(&ROW[1..]).is_none(), true);
}
