//! Which sub-buffer of a ring has the record of a serial.

ghost use Rattle.std.specs.Prelude.{◌≡◌, ◌≤◌, length};
ghost use Rattle.tr_book.specs.Runs.{first_in};
ghost use Rattle.tr_ring.specs.Ring.{seq_of};
ghost use Rattle.tr_stream.specs.Chunks.{ring_buffers};
ghost use Rattle.tr_stream.specs.Gaps.{BuffersRise, DiscardsShow, begun};
ghost use Rattle.tr_terms.specs.declared.limits.TheConstants.{MOST_SUB_BUFFERS};

use std::alloc::Allocator;
use tr_book::has_known;
use tr_record::Records;
use tr_ring::Ring;

/// The serial of the first record.
fn first_serial(mut records: Records<'_>) -> u64
    ensures { result ≡ first_in records.entry 0 }
{
    match records.next() {
        Some(first) => first.serial(),
        None => 0,
    }
}

/// How many sub-buffers have a record and begin at this serial or before.
fn begun<A: Allocator>(ring: &Ring<A>, serial: u64) -> usize
    requires { length (ring_buffers 0 ring.now) ≤ MOST_SUB_BUFFERS }
    ensures { result ≡ begun serial (ring_buffers 0 ring.now) }
{
    let mut count = 0;
    for buffer in ring.items() {
        if first_serial(buffer.records()) <= serial {
            count += 1;
        }
    }
    let current = ring.current();
    if !current.is_empty() && first_serial(current.records()) <= serial {
        count += 1;
    }
    count
}

/// The number of the sub-buffer that has the record of this serial, in a ring whose serials rise. It looks at the first record of
/// each, and at all records of at most one.
pub fn seq_in_ring<A: Allocator>(ring: &Ring<A>, serial: u64) -> Option<u64>
    requires few { length (ring_buffers 0 ring.now) ≤ MOST_SUB_BUFFERS }
    requires rise { BuffersRise 0 (ring_buffers 0 ring.now) }
    requires gaps { DiscardsShow 0 (ring_buffers 0 ring.now) }
    ensures { result ≡ seq_of serial ring.now }
{
    let mut left = begun(ring, serial);
    let mut discarded = 0;
    for buffer in ring.items() {
        let in_row = buffer.discarded() == discarded;
        if left == 1 {
            let has = has_known(serial, buffer.count(), buffer.records(), in_row);
            return if has { Some(buffer.seq()) } else { None };
        }
        discarded = buffer.discarded();
        left = left.saturating_sub(1);
    }
    let current = ring.current();
    let in_row = ring.discarded() == discarded;
    let has = has_known(serial, current.count(), current.records(), in_row);
    if has { Some(ring.seq()) } else { None }
}
