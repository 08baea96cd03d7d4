//! What a stream's snapshot shows.

ghost use Rattle.std.specs.Prelude.{◌≡◌, length};
ghost use Rattle.tr_book.specs.Parts.{records_of};
ghost use Rattle.tr_snapshot.specs.Snapshots.{entries_shown, oldest_in};

use std::alloc::Allocator;
use tr_book::{StreamSnap, records_in};

/// The serial of the first record that is shown, if any. It takes no memory.
pub fn oldest_serial<A: Allocator>(snap: &StreamSnap<A>) -> Option<u64>
    ensures { result ≡ oldest_in snap.now }
{
    let packet = snap.packets().next()?;
    packet.records().next().map(|r| r.serial())
}

/// How many records are shown. It takes no memory.
pub fn count<A: Allocator>(snap: &StreamSnap<A>) -> u64
    ensures shown { result ≡ length (entries_shown snap.now) }
    ensures counted { result ≡ records_of snap.now.packets }
{
    records_in(snap.packets())
}
