//! Writing what a snapshot shows.

ghost use Rattle.tr_chunk.specs.Files.{WritesPackets, sunk_of};

use std::alloc::Allocator;
use tr_book::StreamSnap;
use tr_chunk::{WriteFault, write_texts};
use tr_record::ByteSink;

/// Writes the packets that are shown of a stream, the oldest first, as its file would have them. It takes no memory. W1 Write:
/// the sink failed, and a prefix of them went out.
pub fn write_snap<A: Allocator, K: ByteSink>(
    sink: &mut K,
    snap: &StreamSnap<A>,
) -> Result<(), WriteFault>
    ensures { WritesPackets snap.now.packets (sunk_of K.ByteSink sink.old) (sunk_of K.ByteSink sink.new) result }
{
    write_texts(sink, snap.texts())
}
