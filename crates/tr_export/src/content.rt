//! What goes into a file of an archive.

ghost use Rattle.tr_chunk.specs.Files.{WritesText, sunk_of};
ghost use Rattle.tr_metadata.specs.Metadata.{metadata_with};
ghost use Rattle.tr_export.specs.Content.{IsHeld, content_text};

use std::alloc::Allocator;
use tr_book::Part;
use tr_chunk::{WriteFault, write_part, write_texts};
use tr_events::Events;
use tr_metadata::metadata_text;
use tr_packet::PacketText;
use tr_record::{ByteSink, put_all};
use uuid::Uuid;

/// What goes into a file of an archive.
#[derive(Drop)]
pub enum Content<'a, A: Allocator> {
    /// The metadata text of a trace with what it declares.
    Metadata(&'a Uuid, &'a Events<A>),
    /// A part's packets.
    Packets(&'a Part<A>),
    /// Packets that belong to no part.
    Texts(&'a [PacketText<A>]),
    /// Bytes as they are.
    Bytes(&'a [u8]),
}

/// Writes the metadata text of a trace with these declarations. After a refusal a prefix of it went out.
fn write_metadata<A: Allocator, B: Allocator + Copy, K: ByteSink>(
    alloc: B,
    sink: &mut K,
    events: &Events<A>,
    uuid: &Uuid,
) -> Result<(), WriteFault>
    ensures { WritesText (metadata_with events.now uuid.now) (sunk_of K.ByteSink sink.old) (sunk_of K.ByteSink sink.new) result }
{
    let text = metadata_text(alloc, events, uuid)?;
    put_all(sink, text.as_bytes())?;
    Ok(())
}

impl<A: Allocator> Content<'_, A> {
    /// Writes it, unless it is a part that was released.
    pub(crate) fn put<B: Allocator + Copy, K: ByteSink>(
        &self,
        alloc: B,
        sink: &mut K,
    ) -> Result<(), WriteFault>
        requires { IsHeld self.now }
        ensures { WritesText (content_text self.now) (sunk_of K.ByteSink sink.old) (sunk_of K.ByteSink sink.new) result }
    {
        match self {
            Content::Metadata(uuid, events) => write_metadata(alloc, sink, events, uuid),
            Content::Packets(part) => write_part(sink, part),
            Content::Texts(texts) => write_texts(sink, texts),
            Content::Bytes(bytes) => Ok(put_all(sink, bytes)?),
        }
    }
}
