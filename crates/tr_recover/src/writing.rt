//! Writing an archive of packets.

ghost use Rattle.std.specs.Prelude.{◌≡◌, ◌≢◌, ◌∷◌, [], codes, length, OnOk, OnErr, IfOk};
ghost use Rattle.std.specs.String.{string_bytes};
ghost use Rattle.tr_chunk.specs.Files.{file_name};
ghost use Rattle.tr_export.specs.Content.{IsHeld, content_text};
ghost use Rattle.tr_export.specs.Failures.{FailedByWrite};
ghost use Rattle.tr_export.specs.Making.{MadePrefix, and_then_made};
ghost use Rattle.tr_recover.specs.Archive.{files_made, folder_for, next_stream, part_streams, recovered_made, stream_file, streams_below, streams_made};

use crate::parting::lead_count;
use crate::spans::{earliest, latest};
use std::alloc::{AllocError, Allocator, Global};
use tr_chunk::archive_name;
use tr_export::{Content, Disk, ExportFault, file_path, write_file};
use tr_packet::PacketText;
use tr_terms::OffsetMinutes;
use tr_terms::limits::MOST_STREAMS;

/// Writes a stream's file in the folder.
fn write_stream<A: Allocator, B: Allocator + Copy, D: Disk>(
    alloc: B,
    disk: &mut D,
    folder: &str,
    stream: u64,
    content: &Content<'_, A>,
) -> Result<(), ExportFault>
    requires { IsHeld content.now }
    ensures ok { OnOk result (D.made disk.new ≡ and_then_made (D.made disk.old) (stream_file folder.now stream (content_text content.now) ∷ [])) }
    ensures err { OnErr result (MadePrefix (D.made disk.old) (D.made disk.new) (stream_file folder.now stream (content_text content.now) ∷ [])) }
    ensures failures { FailedByWrite (D.failures disk.old) (D.failures disk.new) result }
{
    let name = format!(in alloc; "ring_{stream}")?;
    let path = file_path(alloc, folder, name.as_str())?;
    write_file(alloc, disk, path.as_str(), content)
}

/// Writes empty files for the streams from `next` on and below this one, which has packets: their threads recorded nothing that is
/// left. None if a session can't have this stream.
fn write_below<B: Allocator + Copy, D: Disk>(
    alloc: B,
    disk: &mut D,
    folder: &str,
    next: u64,
    stream: u64,
) -> Result<(), ExportFault>
    ensures ok { OnOk result (D.made disk.new ≡ and_then_made (D.made disk.old) (files_made folder.now (streams_below next stream))) }
    ensures err { OnErr result (MadePrefix (D.made disk.old) (D.made disk.new) (files_made folder.now (streams_below next stream))) }
    ensures failures { FailedByWrite (D.failures disk.old) (D.failures disk.new) result }
{
    if stream >= MOST_STREAMS as u64 {
        return Ok(());
    }
    let empty: Content<'_, Global> = Content::Bytes(&[]);
    'streams: for number in next..stream {
        write_stream(alloc, disk, folder, number, &empty)?;
    }
    Ok(())
}

/// Writes the packets of a stream, and before it empty files for those from `next` on.
fn write_part<A: Allocator, B: Allocator + Copy, D: Disk>(
    alloc: B,
    disk: &mut D,
    folder: &str,
    next: u64,
    packets: &[PacketText<A>],
) -> Result<(), ExportFault>
    ensures ok { OnOk result (D.made disk.new ≡ and_then_made (D.made disk.old) (files_made folder.now (part_streams next packets.now))) }
    ensures err { OnErr result (MadePrefix (D.made disk.old) (D.made disk.new) (files_made folder.now (part_streams next packets.now))) }
    ensures failures { FailedByWrite (D.failures disk.old) (D.failures disk.new) result }
{
    let [first, ..] = packets else {
        return Ok(());
    };
    let stream = first.head().stream;
    write_below(alloc, disk, folder, next, stream)?;
    write_stream(alloc, disk, folder, stream, &Content::Texts(packets))
}

/// The number after the stream's of which these packets are; the same one without packets.
fn next_stream<A: Allocator>(next: u64, packets: &[PacketText<A>]) -> u64
    ensures { result ≡ next_stream next packets.now }
{
    match packets.first() {
        Some(first) => first.head().stream.saturating_add(1),
        None => next,
    }
}

/// Writes the packets of each stream to its file in the folder, those that stand side by side.
fn write_streams<A: Allocator, B: Allocator + Copy, D: Disk>(
    alloc: B,
    disk: &mut D,
    folder: &str,
    packets: &[PacketText<A>],
) -> Result<(), ExportFault>
    ensures ok { OnOk result (D.made disk.new ≡ and_then_made (D.made disk.old) (streams_made folder.now packets.now)) }
    ensures err { OnErr result (MadePrefix (D.made disk.old) (D.made disk.new) (streams_made folder.now packets.now)) }
    ensures failures { FailedByWrite (D.failures disk.old) (D.failures disk.new) result }
{
    let mut at = 0;
    let mut next = 0;
    while at < packets.len() {
        let (_, rest) = packets.split_at(at);
        let (own, _) = rest.split_at(lead_count(rest));
        write_part(alloc, disk, folder, next, own)?;
        next = next_stream(next, own);
        at += own.len();
    }
    Ok(())
}

/// The folder of the archive of these packets: `DIR/recovered/archives/ARCHIVE`. Fails if an allocation fails.
fn folder_for<A: Allocator, B: Allocator + Copy>(
    alloc: B,
    dir: &str,
    first: &PacketText<A>,
    others: &[PacketText<A>],
) -> Result<String<B>, AllocError>
    ensures { IfOk result (λ s. string_bytes s ≡ folder_for dir.now first.now others.now) }
{
    let begin = earliest(first.head().begin, others);
    let end = latest(first.head().end, others);
    let Some(offset) = OffsetMinutes::new(0) else {
        unreachable!()
    };
    let name = archive_name(alloc, begin, end, offset, 0)?;
    let name = name.as_str();
    format!(in alloc; "{dir}/recovered/archives/{name}")
}

/// Writes the archive of packets that were recovered: the folder `DIR/recovered/archives/ARCHIVE`, in it for each stream the file
/// `ring_NUMBER`, and last the file `metadata` with this text. The packets of a stream stand side by side. The file of a stream
/// without packets, below one that has some, is empty. Without packets it writes nothing. Folders that don't exist are made, and
/// files that exist are emptied before they are written.
///
/// # Errors
///
/// `Write` if a folder or a file can't be made or written, `NoMemory` if an allocation fails: what was written before stays,
/// and the next file may be broken.
pub fn write_recovered<A: Allocator, B: Allocator + Copy, D: Disk>(
    alloc: B,
    disk: &mut D,
    dir: &str,
    metadata: &[u8],
    packets: &[PacketText<A>],
) -> Result<(), ExportFault>
    ensures ok { OnOk result (D.made disk.new ≡ and_then_made (D.made disk.old) (recovered_made dir.now metadata.now packets.now)) }
    ensures err { OnErr result (MadePrefix (D.made disk.old) (D.made disk.new) (recovered_made dir.now metadata.now packets.now)) }
    ensures failures { FailedByWrite (D.failures disk.old) (D.failures disk.new) result }
{
    let [first, others @ ..] = packets else {
        return Ok(());
    };
    let folder = folder_for(alloc, dir, first, others)?;
    let path = file_path(alloc, folder.as_str(), "metadata")?;
    disk.make_folder(folder.as_str())?;
    write_streams(alloc, disk, folder.as_str(), packets)?;
    let content: Content<'_, A> = Content::Bytes(metadata);
    write_file(alloc, disk, path.as_str(), &content)
}
