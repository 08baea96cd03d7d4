//! Writing a session's archives.

ghost use Rattle.std.specs.Prelude.{◌≡◌, ◌∷◌, [], length, OnOk, OnErr};
ghost use Rattle.tr_export.specs.Archives.{stream_file, stream_files, chunk_made, archive_made, archives_made};
ghost use Rattle.tr_export.specs.Content.{IsHeld, content_text};
ghost use Rattle.tr_export.specs.Failures.{FailedByWrite};
ghost use Rattle.tr_export.specs.Making.{and_then_made, MadePrefix};
ghost use Rattle.tr_export.specs.declared.made.Made.TheVariants.{File};
ghost use Rattle.tr_session.specs.Sizes.{archive_released};
ghost use Rattle.tr_stream.specs.Rules.{by_state};

use crate::content::Content;
use crate::disk::Disk;
use crate::faults::ExportFault;
use crate::paths::{archive_folder, file_path};
use std::alloc::Allocator;
use tr_chunk::{archive_name, stream_file_name};
use tr_session::Session;
use tr_session_book::Archive;
use tr_terms::Name;

/// Writes a file of this path with this content.
///
/// # Errors
///
/// `Write` if the file can't be made or written, `NoMemory` if an allocation fails: then it is broken, or wasn't opened.
pub fn write_file<A: Allocator, B: Allocator + Copy, D: Disk>(
    alloc: B,
    disk: &mut D,
    path: &str,
    content: &Content<'_, A>,
) -> Result<(), ExportFault>
    requires { IsHeld content.now }
    ensures ok { OnOk result (D.made disk.new ≡ and_then_made (D.made disk.old)
        (File path.now (content_text content.now) ∷ [])) }
    ensures err { OnErr result
        (MadePrefix (D.made disk.old) (D.made disk.new) (File path.now (content_text content.now) ∷ [])) }
    ensures failures { FailedByWrite (D.failures disk.old) (D.failures disk.new) result }
{
    let mut file = disk.open_file(path)?;
    if let Err(fault) = content.put(alloc, &mut file) {
        disk.give_up(file);
        return Err(ExportFault::from(fault));
    }
    disk.close_file(file)?;
    Ok(())
}

/// Writes what stream `i` got in chunk `id` to its file in the folder.
fn write_stream<A: Allocator, B: Allocator + Copy, D: Disk>(
    alloc: B,
    disk: &mut D,
    folder: &str,
    id: u64,
    session: &Session<A>,
    i: u64,
) -> Result<(), ExportFault>
    requires { archive_released by_state id session.now ≡ 0 }
    ensures ok { OnOk result (D.made disk.new ≡ and_then_made (D.made disk.old)
        (stream_file folder.now id session.now i)) }
    ensures err { OnErr result
        (MadePrefix (D.made disk.old) (D.made disk.new) (stream_file folder.now id session.now i)) }
    ensures failures { FailedByWrite (D.failures disk.old) (D.failures disk.new) result }
{
    let Some(channel) = session.book().channel_of(i) else {
        return Ok(());
    };
    let Some(stream) = session.stream(i) else {
        return Ok(());
    };
    let Some(part) = stream.kept_part(id) else {
        return Ok(());
    };
    let name = stream_file_name(alloc, &channel, i)?;
    let path = file_path(alloc, folder, name.as_str())?;
    write_file(alloc, disk, path.as_str(), &Content::Packets(part))
}

/// Writes what each stream got in chunk `id` to its file in the folder.
fn write_streams<A: Allocator, B: Allocator + Copy, D: Disk>(
    alloc: B,
    disk: &mut D,
    folder: &str,
    id: u64,
    session: &Session<A>,
) -> Result<(), ExportFault>
    requires { archive_released by_state id session.now ≡ 0 }
    ensures ok { OnOk result (D.made disk.new ≡ and_then_made (D.made disk.old)
        (stream_files folder.now id session.now (length session.now.streams))) }
    ensures err { OnErr result
        (MadePrefix (D.made disk.old) (D.made disk.new)
        (stream_files folder.now id session.now (length session.now.streams))) }
    ensures failures { FailedByWrite (D.failures disk.old) (D.failures disk.new) result }
{
    'streams: for i in 0..session.streams() {
        write_stream(alloc, disk, folder, id, session, i)?;
    }
    Ok(())
}

/// Writes chunk `id` to a folder: a file for each stream, and then the metadata text, so that a folder without it isn't whole.
fn write_chunk<A: Allocator, B: Allocator + Copy, D: Disk>(
    alloc: B,
    disk: &mut D,
    folder: &str,
    id: u64,
    session: &Session<A>,
) -> Result<(), ExportFault>
    requires { archive_released by_state id session.now ≡ 0 }
    ensures ok { OnOk result (D.made disk.new ≡ and_then_made (D.made disk.old)
        (chunk_made folder.now id session.now)) }
    ensures err { OnErr result
        (MadePrefix (D.made disk.old) (D.made disk.new) (chunk_made folder.now id session.now)) }
    ensures failures { FailedByWrite (D.failures disk.old) (D.failures disk.new) result }
{
    let metadata = file_path(alloc, folder, "metadata")?;
    disk.make_folder(folder)?;
    write_streams(alloc, disk, folder, id, session)?;
    let book = session.book();
    let uuid = book.uuid();
    let content = Content::Metadata(&uuid, book.events());
    write_file(alloc, disk, metadata.as_str(), &content)
}

/// Writes an archive to the folder of its name, unless the part of any stream was released.
fn write_archive<A: Allocator, B: Allocator + Copy, D: Disk>(
    alloc: B,
    disk: &mut D,
    dir: &str,
    name: &Name<'_>,
    session: &Session<A>,
    archive: Archive,
) -> Result<(), ExportFault>
    ensures ok { OnOk result (D.made disk.new ≡ and_then_made (D.made disk.old)
        (archive_made dir.now name.now session.now archive)) }
    ensures err { OnErr result
        (MadePrefix (D.made disk.old) (D.made disk.new) (archive_made dir.now name.now session.now archive)) }
    ensures failures { FailedByWrite (D.failures disk.old) (D.failures disk.new) result }
{
    let size = session.archive_size(archive.id);
    if size.released != 0 {
        return Ok(());
    }
    let offset = session.book().offset();
    let own_name = archive_name(alloc, archive.begin, archive.end, offset, archive.id)?;
    let folder = archive_folder(alloc, dir, name, own_name.as_str())?;
    write_chunk(alloc, disk, folder.as_str(), archive.id, session)
}

/// Writes each archive of a session, in order: the folder `DIR/NAME/archives/ARCHIVE` (see `archive_name`), in it for each
/// stream the file `CHANNEL_NUMBER` with the packets of its part of that chunk, empty if there are none, and last the file
/// `metadata`. What isn't an archive yet, the current chunk and a pending rotation's, isn't written, and neither is an
/// archive of which the part of any stream was released: it gets no folder. Folders that don't exist are made, and files that
/// exist are emptied before they are written.
///
/// # Errors
///
/// `Write` if a folder or a file can't be made or written, `NoMemory` if an allocation fails: what was written before stays,
/// and the next file may be broken, with a prefix of its bytes in place of what it had. No other file is touched.
pub fn write_archives<A: Allocator, B: Allocator + Copy, D: Disk>(
    alloc: B,
    disk: &mut D,
    dir: &str,
    name: &Name<'_>,
    session: &Session<A>,
) -> Result<(), ExportFault>
    ensures ok { OnOk result (D.made disk.new ≡ and_then_made (D.made disk.old)
        (archives_made dir.now name.now session.now)) }
    ensures err { OnErr result
        (MadePrefix (D.made disk.old) (D.made disk.new) (archives_made dir.now name.now session.now)) }
    ensures failures { FailedByWrite (D.failures disk.old) (D.failures disk.new) result }
{
    'archives: for archive in session.book().archives() {
        write_archive(alloc, disk, dir, name, session, *archive)?;
    }
    Ok(())
}
