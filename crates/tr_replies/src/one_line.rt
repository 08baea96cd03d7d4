//! Answers of one line.

ghost use Rattle.std.specs.Prelude.{◌≡◌, ◌∷◌, ◌++◌, [], IfOk};
ghost use Rattle.std.specs.String.{string_bytes};
ghost use Rattle.tr_replies.specs.OneLine.{archived_text, cleared_text, fate_text, released_text};
ghost use Rattle.tr_replies.specs.Words.{text_bytes};

use crate::texts::words_and_numbers;
use std::alloc::{AllocError, Allocator, Global};
use tr_chunk::archive_name;
use tr_session_book::Archive;
use tr_stream::Fate;
use tr_terms::OffsetMinutes;

/// The text of an answer, with its newlines.
#[derive(Drop)]
pub enum ReplyText<A: Allocator = Global> {
    /// One that every such answer has. It takes no memory.
    Constant(&'static str),
    /// One that is written for this answer.
    Written(String<A>),
}

impl<A: Allocator> ReplyText<A> {
    /// The text.
    pub fn as_str(&self) -> &str
        ensures { result.now ≡ text_bytes self.now }
    {
        match self {
            ReplyText::Constant(text) => text,
            ReplyText::Written(text) => text.as_str(),
        }
    }
}

/// An archive, and what else its name needs.
#[derive(Clone, Copy, Debug, PartialEq, Eq)]
pub struct NamedArchive {
    /// The archive itself.
    pub archive: Archive,
    /// How many minutes the clock of its name is ahead of UTC.
    pub offset: OffsetMinutes,
}

/// The line of a rotation that made an archive.
pub fn archived_line<A: Allocator + Copy>(
    alloc: A,
    named: NamedArchive,
) -> Result<String<A>, AllocError>
    ensures { IfOk result (λ t. string_bytes t ≡ archived_text named ++ 10 ∷ []) }
{
    let NamedArchive { archive, offset } = named;
    let id = archive.id;
    let name = archive_name(alloc, archive.begin, archive.end, offset, id)?;
    let text = format!(in alloc; "archived {id} {name}\n")?;
    Ok(text)
}

/// The line of a clear that removed so many records.
pub fn cleared_line<A: Allocator + Copy>(alloc: A, records: u128) -> Result<String<A>, AllocError>
    ensures { IfOk result (λ t. string_bytes t ≡ cleared_text records ++ 10 ∷ []) }
{
    let text = format!(in alloc; "cleared {records}\n")?;
    Ok(text)
}

/// The line of a release of the archive of this number.
pub fn released_line<A: Allocator + Copy>(alloc: A, archive: u64) -> Result<String<A>, AllocError>
    ensures { IfOk result (λ t. string_bytes t ≡ released_text archive tt ++ 10 ∷ []) }
{
    let text = format!(in alloc; "released {archive}\n")?;
    Ok(text)
}

/// The line for what became of an offer; of none there was no such offer yet.
pub fn fate_line<A: Allocator + Copy>(
    alloc: A,
    fate: Option<Fate>,
) -> Result<ReplyText<A>, AllocError>
    ensures { IfOk result (λ t. text_bytes t ≡ fate_text fate ++ 10 ∷ []) }
{
    let text = match fate {
        None => return Ok(ReplyText::Constant("not offered\n")),
        Some(Fate::Discarded) => return Ok(ReplyText::Constant("discarded\n")),
        Some(Fate::Overwritten) => return Ok(ReplyText::Constant("overwritten\n")),
        Some(Fate::Forgotten) => return Ok(ReplyText::Constant("forgotten\n")),
        Some(Fate::InRing { seq }) => words_and_numbers(alloc, &[("in ring ", seq)])?,
        Some(Fate::Cleared { seq }) => words_and_numbers(alloc, &[("cleared ", seq)])?,
        Some(Fate::InChunk { chunk, seq }) => {
            words_and_numbers(alloc, &[("in chunk ", chunk), (" ", seq)])?
        }
    };
    Ok(ReplyText::Written(text))
}
