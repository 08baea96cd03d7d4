//! Writing the files of a trace chunk.

ghost use Rattle.tr_packet.specs.Metadata.{metadata_of};
ghost use Rattle.std.specs.Prelude.{◌≡◌, None};
ghost use Rattle.tr_chunk.specs.Files.{WritesPackets, WritesStanding, WritesText, sunk_of};

use crate::faults::WriteFault;
use std::alloc::Allocator;
use tr_book::Part;
use tr_packet::{PacketText, metadata_text};
use tr_record::{ByteSink, put_all};
use uuid::Uuid;

/// Writes packets as their texts are in memory, one after another. It takes no memory. After W1 a prefix of them went out.
pub fn write_texts<A: Allocator, K: ByteSink>(
    sink: &mut K,
    texts: &[PacketText<A>],
) -> Result<(), WriteFault>
    ensures { WritesPackets texts.now (sunk_of K.ByteSink sink.old) (sunk_of K.ByteSink sink.new) result }
{
    for text in texts {
        put_all(sink, text.text())?;
    }
    Ok(())
}

/// Writes the packets of a part that wasn't released, one after another. It takes no memory. After W1 a prefix of them went
/// out.
pub fn write_part<A: Allocator, K: ByteSink>(sink: &mut K, part: &Part<A>) -> Result<(), WriteFault>
    requires { part.now.released ≡ None }
    ensures { WritesPackets part.now.packets (sunk_of K.ByteSink sink.old) (sunk_of K.ByteSink sink.new) result }
{
    write_texts(sink, part.texts())
}

/// Writes the metadata text of a trace. After a refusal a prefix of it went out; after W2, none of it.
pub fn write_metadata<B: Allocator, K: ByteSink>(
    alloc: B,
    sink: &mut K,
    uuid: &Uuid,
) -> Result<(), WriteFault>
    ensures { WritesText (metadata_of uuid.now) (sunk_of K.ByteSink sink.old) (sunk_of K.ByteSink sink.new) result }
{
    let text = metadata_text(alloc, uuid)?;
    put_all(sink, text.as_bytes())?;
    Ok(())
}
