//! Records, each judged by the item at its serial.

ghost use Rattle.std.specs.Prelude.{◌≡◌, ◌↔◌, ◌∷◌, [], IsTrue};
ghost use Rattle.tr_book.specs.Parts.{PartState, part_at};
ghost use Rattle.tr_pool.specs.Judging.{Judges};
ghost use Rattle.tr_pool.specs.Logs.{IsLeastWrong, IsLogged, IsRecordOf, held_records, packet_records, parts_records};
ghost use Rattle.tr_stream.specs.Calls.{ring_records};
ghost use Rattle.tr_stream.specs.Fates.{all_parts};

use tr_packet::Packets;
use tr_record::{RecView, Records};
use tr_stream::Stream;
use tr_threads::Item;

/// Whether a record is that of an item.
fn is_record_of(item: &Item, record: &RecView<'_>) -> bool
    ensures { IsTrue result ↔ IsRecordOf item.now record.now }
{
    if item.id != record.id() {
        return false;
    }
    if item.payload.as_slice() != record.payload() {
        return false;
    }
    item.moment.get() <= record.moment().get()
}

/// Whether a record is that of the item at its serial.
fn is_logged(items: &[Item], record: &RecView<'_>) -> bool
    ensures { IsTrue result ↔ IsLogged items.now record.now }
{
    match items.get(record.serial() as usize) {
        Some(item) => is_record_of(item, record),
        None => false,
    }
}

/// The least wrong serial after one more record.
fn judge(items: &[Item], record: &RecView<'_>, least: Option<u64>) -> Option<u64>
    ensures { Judges items.now (record.now ∷ []) least result }
{
    if is_logged(items, record) {
        return least;
    }
    let serial = record.serial();
    let Some(other) = least else {
        return Some(serial);
    };
    if other < serial { least } else { Some(serial) }
}

/// The least wrong serial after these records too.
fn judge_records(items: &[Item], records: Records<'_>, least: Option<u64>) -> Option<u64>
    ensures { Judges items.now records.entry least result }
{
    let mut least = least;
    'records: for record in records {
        least = judge(items, &record, least);
    }
    least
}

/// The least wrong serial after the records of these packets too.
fn judge_packets(items: &[Item], packets: Packets<'_>, least: Option<u64>) -> Option<u64>
    ensures { Judges items.now (packet_records packets.entry) least result }
{
    let mut least = least;
    'packets: for packet in packets {
        least = judge_records(items, packet.records(), least);
    }
    least
}

/// The least wrong serial after the records of a stream's part of chunk `k` too, if there is one.
fn judge_part(items: &[Item], stream: &Stream, k: u64, least: Option<u64>) -> Option<u64>
    requires { stream.now.parts.forgotten ≡ 0 }
    ensures { (part : PartState) → part_at k stream.now.parts ≡ Some part
        → Judges items.now (packet_records part.packets) least result }
{
    match stream.kept_part(k) {
        Some(part) => judge_packets(items, part.packets(), least),
        None => least,
    }
}

/// The least wrong serial of the records in a stream's parts.
fn judge_parts(items: &[Item], stream: &Stream) -> Option<u64>
    requires { stream.now.parts.forgotten ≡ 0 }
    ensures { Judges items.now (parts_records (all_parts stream.now.parts)) None result }
{
    let cuts = stream.counts().cuts;
    let mut least = None;
    'parts: for k in 0..cuts {
        least = judge_part(items, stream, k, least);
    }
    judge_part(items, stream, cuts, least)
}

/// The least wrong serial after the records in a stream's ring too.
fn judge_ring(items: &[Item], stream: &Stream, least: Option<u64>) -> Option<u64>
    ensures { Judges items.now (ring_records stream.now.ring) least result }
{
    let mut least = least;
    'records: for k in 0..stream.counts().in_ring {
        let Some(record) = stream.ring_at(k) else {
            unreachable!()
        };
        least = judge(items, &record, least);
    }
    least
}

/// The least serial of the records that a stream holds and that aren't logged, if any.
pub(crate) fn least_wrong(items: &[Item], stream: &Stream) -> Option<u64>
    requires { stream.now.parts.forgotten ≡ 0 }
    ensures { IsLeastWrong items.now (held_records stream.now) result }
{
    judge_ring(items, stream, judge_parts(items, stream))
}
