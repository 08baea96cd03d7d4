//! The line of an archive.

ghost use Rattle.std.specs.Prelude.{◌≡◌, ◌∷◌, ◌++◌, [], OnOk};
ghost use Rattle.std.specs.String.{string_bytes};
ghost use Rattle.tr_replies.specs.Archives.{archive_row, released_mark};

use crate::NamedArchive;
use std::alloc::{AllocError, Allocator};
use std::fmt::Write;
use tr_chunk::archive_name;
use tr_session::ArchiveSize;

/// What the line of an archive ends with, by how many streams there are and of how many its part is released.
fn released_mark(streams: u64, released: u64) -> &'static str
    ensures { result.now ≡ released_mark streams released }
{
    if streams != 0 && released == streams {
        " released"
    } else {
        ""
    }
}

/// Adds the line of an archive, which has this size over so many streams.
pub fn push_archive<A: Allocator + Copy>(
    text: &mut String<A>,
    alloc: A,
    named: NamedArchive,
    size: ArchiveSize,
    streams: u64,
) -> Result<(), AllocError>
    ensures { OnOk result (string_bytes text.new ≡ string_bytes text.old
        ++ (archive_row named.offset named.archive size.packets size.bytes streams size.released ++ 10 ∷ [])) }
{
    let NamedArchive { archive, offset } = named;
    let id = archive.id;
    let name = archive_name(alloc, archive.begin, archive.end, offset, id)?;
    let packets = size.packets;
    let bytes = size.bytes;
    let mark = released_mark(streams, size.released);
    match write!(text, "{id} {name} packets {packets} bytes {bytes}{mark}\n") {
        Ok(()) => Ok(()),
        Err(_) => Err(AllocError),
    }
}
