//! What is read of a session's book: its state, its archives, and the names and texts of their files.

ghost use Rattle.std.specs.Prelude.{◌≡◌, ◌≢◌, ◌≤◌, ◌<◌, Some, None, MatchOption, slice_get};
ghost use Rattle.tr_border.specs.Outs.{about_out, archive_out};
ghost use Rattle.tr_border.specs.Texts.{CopiesWhole};
ghost use Rattle.tr_border.specs.declared.codes.TheConstants.{BAD_MOMENT, CLOSED, DONE, NO_MEMORY};
ghost use Rattle.tr_chunk.specs.ArchiveName.{archive_name_text};
ghost use Rattle.tr_chunk.specs.Files.{file_name};
ghost use Rattle.tr_metadata.specs.Metadata.{metadata_with};
ghost use Rattle.tr_session_book.specs.BookSteps.{channel_of};
ghost use Rattle.tr_terms.specs.declared.limits.TheConstants.{LAST_MOMENT};

use std::alloc::Global;
use tr_border::codes::{BAD_MOMENT, CLOSED, DONE, NO_MEMORY, session_code};
use tr_border::outs::{AboutOut, ArchiveOut, about_out, archive_out};
use tr_border::texts::copy_whole;
use tr_chunk::{archive_name, stream_file_name};
use tr_held::BookCell;
use tr_metadata::metadata_text;
use tr_session_book::{Archive, SessionBook, SessionFault};
use tr_terms::Moment;

/// What the book says of its session.
#[unsafe(no_mangle)]
pub extern "C" fn trc_book_about(alloc: Global, handle: &mut BookCell, out: &mut AboutOut) -> u32
    ensures value { MatchOption handle.old.value ((result ≡ CLOSED) × (out.new ≡ out.old))
        (λ b. (result ≡ DONE) × (out.new ≡ about_out b)) }
    ensures same { handle.new.value ≡ handle.old.value }
{
    let Some(book) = handle.take(alloc) else {
        return CLOSED;
    };
    *out = about_out(&book);
    handle.put(book);
    DONE
}

/// The archive of this number, if there is one.
pub(crate) fn archive_of(book: &SessionBook<Global>, id: u64) -> Option<Archive>
    ensures { result ≡ slice_get book.now.archives id }
{
    match book.archives().get(id as usize) {
        Some(archive) => Some(*archive),
        None => None,
    }
}

/// An archive.
#[unsafe(no_mangle)]
pub extern "C" fn trc_book_archive(
    alloc: Global,
    handle: &mut BookCell,
    id: u64,
    out: &mut ArchiveOut,
) -> u32
    ensures value { MatchOption handle.old.value ((result ≡ CLOSED) × (out.new ≡ out.old))
        (λ b. MatchOption (slice_get b.archives id) ((result ≡ 118) × (out.new ≡ out.old))
        (λ a. (result ≡ DONE) × (out.new ≡ archive_out a))) }
    ensures same { handle.new.value ≡ handle.old.value }
{
    let Some(book) = handle.take(alloc) else {
        return CLOSED;
    };
    let found = archive_of(&book, id);
    handle.put(book);
    match found {
        Some(archive) => {
            *out = archive_out(archive);
            DONE
        }
        None => session_code(SessionFault::NoArchive),
    }
}

/// Copies the name of an archive's folder.
#[unsafe(no_mangle)]
pub extern "C" fn trc_book_archive_name(
    alloc: Global,
    handle: &mut BookCell,
    id: u64,
    room: &mut [u8],
    count: &mut u64,
) -> u32
    ensures value { result ≢ NO_MEMORY → MatchOption handle.old.value ((result ≡ CLOSED) × (room.new ≡ room.old) × (count.new ≡ count.old))
        (λ b. MatchOption (slice_get b.archives id) ((result ≡ 118) × (room.new ≡ room.old) × (count.new ≡ count.old))
        (λ a. CopiesWhole (archive_name_text a.begin a.end b.offset a.id) result room.old room.new count.old count.new)) }
    ensures no_memory { result ≡ NO_MEMORY → MatchOption handle.old.value ⊥ (λ b. MatchOption (slice_get b.archives id) ⊥
        (λ _. (room.new ≡ room.old) × (count.new ≡ count.old))) }
    ensures same { handle.new.value ≡ handle.old.value }
{
    let Some(book) = handle.take(alloc) else {
        return CLOSED;
    };
    let found = archive_of(&book, id);
    let offset = book.offset();
    handle.put(book);
    let Some(archive) = found else {
        return session_code(SessionFault::NoArchive);
    };
    match archive_name(alloc, archive.begin, archive.end, offset, archive.id) {
        Ok(text) => copy_whole(text.as_bytes(), room, count),
        Err(_) => NO_MEMORY,
    }
}

/// Copies the name that an archive of the current chunk would have that ends at this moment, as the first one: the name of a
/// snapshot's folder.
#[unsafe(no_mangle)]
pub extern "C" fn trc_book_snapshot_name(
    alloc: Global,
    handle: &mut BookCell,
    stored: u64,
    room: &mut [u8],
    count: &mut u64,
) -> u32
    ensures moment { LAST_MOMENT < stored → MatchOption handle.old.value (result ≡ CLOSED) (λ _. result ≡ BAD_MOMENT)
        × (room.new ≡ room.old) × (count.new ≡ count.old) }
    ensures value { stored ≤ LAST_MOMENT → result ≢ NO_MEMORY
        → MatchOption handle.old.value ((result ≡ CLOSED) × (room.new ≡ room.old) × (count.new ≡ count.old))
        (λ b. CopiesWhole (archive_name_text b.begin stored b.offset 0) result room.old room.new count.old count.new) }
    ensures no_memory { result ≡ NO_MEMORY → MatchOption handle.old.value ⊥ (λ _. (room.new ≡ room.old) × (count.new ≡ count.old)) }
    ensures same { handle.new.value ≡ handle.old.value }
{
    let Some(book) = handle.take(alloc) else {
        return CLOSED;
    };
    let (begin, offset) = (book.begin(), book.offset());
    handle.put(book);
    let Some(end) = Moment::new(stored) else {
        return BAD_MOMENT;
    };
    match archive_name(alloc, begin, end, offset, 0) {
        Ok(text) => copy_whole(text.as_bytes(), room, count),
        Err(_) => NO_MEMORY,
    }
}

/// Copies the name of a stream's file in an archive.
#[unsafe(no_mangle)]
pub extern "C" fn trc_book_file_name(
    alloc: Global,
    handle: &mut BookCell,
    stream: u64,
    room: &mut [u8],
    count: &mut u64,
) -> u32
    ensures value { result ≢ NO_MEMORY → MatchOption handle.old.value ((result ≡ CLOSED) × (room.new ≡ room.old) × (count.new ≡ count.old))
        (λ b. MatchOption (channel_of stream b) ((result ≡ 108) × (room.new ≡ room.old) × (count.new ≡ count.old))
        (λ name. CopiesWhole (file_name name stream) result room.old room.new count.old count.new)) }
    ensures no_memory { result ≡ NO_MEMORY → MatchOption handle.old.value ⊥ (λ b. MatchOption (channel_of stream b) ⊥
        (λ _. (room.new ≡ room.old) × (count.new ≡ count.old))) }
    ensures same { handle.new.value ≡ handle.old.value }
{
    let Some(book) = handle.take(alloc) else {
        return CLOSED;
    };
    let code = copy_file_name(alloc, &book, stream, room, count);
    handle.put(book);
    code
}

/// Copies the name of a stream's file.
fn copy_file_name(
    alloc: Global,
    book: &SessionBook<Global>,
    stream: u64,
    room: &mut [u8],
    count: &mut u64,
) -> u32
    ensures value { result ≢ NO_MEMORY → MatchOption (channel_of stream book.now)
        ((result ≡ 108) × (room.new ≡ room.old) × (count.new ≡ count.old))
        (λ name. CopiesWhole (file_name name stream) result room.old room.new count.old count.new) }
    ensures no_memory { result ≡ NO_MEMORY → MatchOption (channel_of stream book.now) ⊥ (λ _. (room.new ≡ room.old) × (count.new ≡ count.old)) }
{
    let Some(channel) = book.channel_of(stream) else {
        return session_code(SessionFault::NoStream);
    };
    match stream_file_name(alloc, &channel, stream) {
        Ok(text) => copy_whole(text.as_bytes(), room, count),
        Err(_) => NO_MEMORY,
    }
}

/// Copies the metadata of the book's trace, with what it declares.
fn copy_metadata(alloc: Global, book: &SessionBook<Global>, room: &mut [u8], count: &mut u64) -> u32
    ensures value { result ≢ NO_MEMORY
        → CopiesWhole (metadata_with book.now.events book.now.uuid) result room.old room.new count.old count.new }
    ensures no_memory { result ≡ NO_MEMORY → (room.new ≡ room.old) × (count.new ≡ count.old) }
{
    match metadata_text(alloc, book.events(), &book.uuid()) {
        Ok(text) => copy_whole(text.as_bytes(), room, count),
        Err(_) => NO_MEMORY,
    }
}

/// Copies the text of an archive's metadata.
#[unsafe(no_mangle)]
pub extern "C" fn trc_book_metadata(
    alloc: Global,
    handle: &mut BookCell,
    room: &mut [u8],
    count: &mut u64,
) -> u32
    ensures value { result ≢ NO_MEMORY → MatchOption handle.old.value ((result ≡ CLOSED) × (room.new ≡ room.old) × (count.new ≡ count.old))
        (λ b. CopiesWhole (metadata_with b.events b.uuid) result room.old room.new count.old count.new) }
    ensures no_memory { result ≡ NO_MEMORY → MatchOption handle.old.value ⊥ (λ _. (room.new ≡ room.old) × (count.new ≡ count.old)) }
    ensures same { handle.new.value ≡ handle.old.value }
{
    let Some(book) = handle.take(alloc) else {
        return CLOSED;
    };
    let code = copy_metadata(alloc, &book, room, count);
    handle.put(book);
    code
}
