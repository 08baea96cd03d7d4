//! How a shell's lines are answered: the texts of the console of a script.

ghost use Rattle.std.specs.Prelude.{◌≡◌, ◌≢◌, ◌∷◌, ◌++◌, [], true, false, None, Option, MatchOption, slice_get};
ghost use Rattle.tr_book.specs.declared.counts.Counts.{Counts};
ghost use Rattle.tr_border.specs.Outs.{counts_out, fate_in, fate_out};
ghost use Rattle.tr_border.specs.Replies.{fault_numbered, said_text};
ghost use Rattle.tr_border.specs.Texts.{CopiesWhole};
ghost use Rattle.tr_border.specs.declared.codes.TheConstants.{BAD_NAME, BAD_NUMBER, CLOSED, DONE, NO_MEMORY};
ghost use Rattle.tr_replies.specs.Archives.{archive_row};
ghost use Rattle.tr_replies.specs.OneLine.{archived_text, cleared_text, fate_text, refusal_text, released_text};
ghost use Rattle.tr_replies.specs.Snapshots.{packet_lines, snapshot_head, stream_line};
ghost use Rattle.tr_replies.specs.Status.{status_head, status_line, status_row};
ghost use Rattle.tr_stream.specs.declared.fate.Fate.{Fate};
ghost use Rattle.tr_terms.specs.Names.{is_name};

use crate::book_reads::archive_of;
use std::alloc::Global;
use tr_border::codes::{BAD_NAME, BAD_NUMBER, CLOSED, NO_MEMORY, session_code};
use tr_border::inputs::name_of;
use tr_border::outs::{CountsOut, FateOut, counts_in, fate_in};
use tr_border::replies::{fault_numbered, said};
use tr_border::texts::copy_whole;
use tr_held::{BookCell, SnapCell};
use tr_replies::{
    NamedArchive, archived_line, cleared_line, fate_line, push_archive, push_row, push_stream,
    refusal_line, released_line, snapshot_begun, status_begun,
};
use tr_session::ArchiveSize;
use tr_session_book::SessionFault;

/// Copies an answer that has no number of its own.
#[unsafe(no_mangle)]
pub extern "C" fn trc_reply_said(number: u32, room: &mut [u8], count: &mut u64) -> u32
    ensures { MatchOption (said_text number) ((result ≡ BAD_NUMBER) × (room.new ≡ room.old) × (count.new ≡ count.old))
        (λ t. CopiesWhole (t ++ 10 ∷ []) result room.old room.new count.old count.new) }
{
    match said(number) {
        Some(text) => copy_whole(text.as_bytes(), room, count),
        None => BAD_NUMBER,
    }
}

/// Copies the answer to a line that is refused with this number.
#[unsafe(no_mangle)]
pub extern "C" fn trc_reply_refused(
    alloc: Global,
    number: u32,
    room: &mut [u8],
    count: &mut u64,
) -> u32
    ensures value { result ≢ NO_MEMORY
        → MatchOption (fault_numbered number) ((result ≡ BAD_NUMBER) × (room.new ≡ room.old) × (count.new ≡ count.old))
        (λ f. CopiesWhole (refusal_text f ++ 10 ∷ []) result room.old room.new count.old count.new) }
    ensures no_memory { result ≡ NO_MEMORY → MatchOption (fault_numbered number) ⊥
        (λ _. (room.new ≡ room.old) × (count.new ≡ count.old)) }
{
    let Some(fault) = fault_numbered(number) else {
        return BAD_NUMBER;
    };
    match refusal_line(alloc, fault) {
        Ok(text) => copy_whole(text.as_bytes(), room, count),
        Err(_) => NO_MEMORY,
    }
}

/// Copies the answer to a clear.
#[unsafe(no_mangle)]
pub extern "C" fn trc_reply_cleared(
    alloc: Global,
    records: u64,
    room: &mut [u8],
    count: &mut u64,
) -> u32
    ensures value { result ≢ NO_MEMORY
        → CopiesWhole (cleared_text records ++ 10 ∷ []) result room.old room.new count.old count.new }
    ensures no_memory { result ≡ NO_MEMORY → (room.new ≡ room.old) × (count.new ≡ count.old) }
{
    match cleared_line(alloc, u128::from(records)) {
        Ok(text) => copy_whole(text.as_bytes(), room, count),
        Err(_) => NO_MEMORY,
    }
}

/// Copies the answer to a release.
#[unsafe(no_mangle)]
pub extern "C" fn trc_reply_released(
    alloc: Global,
    archive: u64,
    room: &mut [u8],
    count: &mut u64,
) -> u32
    ensures value { result ≢ NO_MEMORY
        → CopiesWhole (released_text archive tt ++ 10 ∷ []) result room.old room.new count.old count.new }
    ensures no_memory { result ≡ NO_MEMORY → (room.new ≡ room.old) × (count.new ≡ count.old) }
{
    match released_line(alloc, archive) {
        Ok(text) => copy_whole(text.as_bytes(), room, count),
        Err(_) => NO_MEMORY,
    }
}

/// Copies the answer to a question about a fate.
#[unsafe(no_mangle)]
pub extern "C" fn trc_reply_fate(
    alloc: Global,
    fate: &FateOut,
    room: &mut [u8],
    count: &mut u64,
) -> u32
    ensures value { (f : Option Fate) → fate_out f ≡ fate.now → result ≢ NO_MEMORY
        → CopiesWhole (fate_text f ++ 10 ∷ []) result room.old room.new count.old count.new }
    ensures bad_number { fate_in fate.now ≡ None → result ≡ BAD_NUMBER }
    ensures refused { result ≢ DONE → (room.new ≡ room.old) × (count.new ≡ count.old) }
{
    let Some(fate) = fate_in(*fate) else {
        return BAD_NUMBER;
    };
    match fate_line(alloc, fate) {
        Ok(text) => copy_whole(text.as_str().as_bytes(), room, count),
        Err(_) => NO_MEMORY,
    }
}

/// Copies the answer to a rotation that made the archive of this number.
#[unsafe(no_mangle)]
pub extern "C" fn trc_reply_archived(
    alloc: Global,
    handle: &mut BookCell,
    id: u64,
    room: &mut [u8],
    count: &mut u64,
) -> u32
    ensures value { result ≢ NO_MEMORY → MatchOption handle.old.value ((result ≡ CLOSED) × (room.new ≡ room.old) × (count.new ≡ count.old))
        (λ b. MatchOption (slice_get b.archives id) ((result ≡ 118) × (room.new ≡ room.old) × (count.new ≡ count.old))
        (λ a. CopiesWhole (archived_text (record { archive = a; offset = b.offset }) ++ 10 ∷ []) result room.old room.new count.old count.new)) }
    ensures no_memory { result ≡ NO_MEMORY → MatchOption handle.old.value ⊥ (λ b. MatchOption (slice_get b.archives id) ⊥
        (λ _. (room.new ≡ room.old) × (count.new ≡ count.old))) }
    ensures same { handle.new.value ≡ handle.old.value }
{
    let Some(book) = handle.take(alloc) else {
        return CLOSED;
    };
    let found = archive_of(&book, id);
    let offset = book.offset();
    handle.put(book);
    let Some(archive) = found else {
        return session_code(SessionFault::NoArchive);
    };
    match archived_line(alloc, NamedArchive { archive, offset }) {
        Ok(text) => copy_whole(text.as_bytes(), room, count),
        Err(_) => NO_MEMORY,
    }
}

/// Copies the line of an archive, which has so many packets and bytes over so many streams, and whose part of so many of these
/// is released.
#[unsafe(no_mangle)]
pub extern "C" fn trc_reply_archive(
    alloc: Global,
    handle: &mut BookCell,
    id: u64,
    packets: u64,
    bytes: u64,
    streams: u64,
    released: u64,
    room: &mut [u8],
    count: &mut u64,
) -> u32
    ensures value { result ≢ NO_MEMORY → MatchOption handle.old.value ((result ≡ CLOSED) × (room.new ≡ room.old) × (count.new ≡ count.old))
        (λ b. MatchOption (slice_get b.archives id) ((result ≡ 118) × (room.new ≡ room.old) × (count.new ≡ count.old))
        (λ a. CopiesWhole (archive_row b.offset a packets bytes streams released ++ 10 ∷ []) result room.old room.new count.old count.new)) }
    ensures no_memory { result ≡ NO_MEMORY → MatchOption handle.old.value ⊥ (λ b. MatchOption (slice_get b.archives id) ⊥
        (λ _. (room.new ≡ room.old) × (count.new ≡ count.old))) }
    ensures same { handle.new.value ≡ handle.old.value }
{
    let Some(book) = handle.take(alloc) else {
        return CLOSED;
    };
    let found = archive_of(&book, id);
    let offset = book.offset();
    handle.put(book);
    let Some(archive) = found else {
        return session_code(SessionFault::NoArchive);
    };
    let size = ArchiveSize {
        packets: u128::from(packets),
        records: 0,
        bytes: u128::from(bytes),
        released,
    };
    let mut text = String::new(alloc);
    match push_archive(
        &mut text,
        alloc,
        NamedArchive { archive, offset },
        size,
        streams,
    ) {
        Ok(()) => copy_whole(text.as_bytes(), room, count),
        Err(_) => NO_MEMORY,
    }
}

/// Copies the first lines of a status, of a session with this name of which so many records were cleared.
#[unsafe(no_mangle)]
pub extern "C" fn trc_reply_status(
    alloc: Global,
    handle: &mut BookCell,
    name: &[u8],
    cleared: u64,
    room: &mut [u8],
    count: &mut u64,
) -> u32
    ensures closed { handle.old.value ≡ None → result ≡ CLOSED }
    ensures bad_name { handle.old.value ≢ None → is_name name.now ≡ false → result ≡ BAD_NAME }
    ensures value { result ≢ NO_MEMORY → is_name name.now ≡ true → MatchOption handle.old.value (result ≡ CLOSED)
        (λ b. CopiesWhole (status_line name.now b cleared ++ (10 ∷ status_head)) result room.old room.new count.old count.new) }
    ensures refused { result ≢ DONE → (room.new ≡ room.old) × (count.new ≡ count.old) }
    ensures same { handle.new.value ≡ handle.old.value }
{
    let Some(book) = handle.take(alloc) else {
        return CLOSED;
    };
    let Some(name) = name_of(name) else {
        handle.put(book);
        return BAD_NAME;
    };
    let begun = status_begun(alloc, name.as_str(), &book, u128::from(cleared));
    handle.put(book);
    match begun {
        Ok(text) => copy_whole(text.as_bytes(), room, count),
        Err(_) => NO_MEMORY,
    }
}

/// Copies the line of a stream with these counts in a status, a newline before it.
#[unsafe(no_mangle)]
pub extern "C" fn trc_reply_row(
    alloc: Global,
    number: u64,
    counts: &CountsOut,
    room: &mut [u8],
    count: &mut u64,
) -> u32
    ensures value { (c : Counts) → counts_out c ≡ counts.now → result ≢ NO_MEMORY
        → CopiesWhole (10 ∷ status_row number c) result room.old room.new count.old count.new }
    ensures no_memory { result ≡ NO_MEMORY → (room.new ≡ room.old) × (count.new ≡ count.old) }
{
    let counts = counts_in(*counts);
    let mut text = String::new(alloc);
    match push_row(&mut text, number, &counts) {
        Ok(()) => copy_whole(text.as_bytes(), room, count),
        Err(_) => NO_MEMORY,
    }
}

/// Copies the first line of a snapshot, without its newline.
#[unsafe(no_mangle)]
pub extern "C" fn trc_reply_snapshot(
    alloc: Global,
    moment: u64,
    room: &mut [u8],
    count: &mut u64,
) -> u32
    ensures value { result ≢ NO_MEMORY → CopiesWhole (snapshot_head moment) result room.old room.new count.old count.new }
    ensures no_memory { result ≡ NO_MEMORY → (room.new ≡ room.old) × (count.new ≡ count.old) }
{
    match snapshot_begun(alloc, moment) {
        Ok(text) => copy_whole(text.as_bytes(), room, count),
        Err(_) => NO_MEMORY,
    }
}

/// Copies the lines of what a stream shows, a newline before each.
#[unsafe(no_mangle)]
pub extern "C" fn trc_reply_shown(
    alloc: Global,
    handle: &mut SnapCell,
    room: &mut [u8],
    count: &mut u64,
) -> u32
    ensures value { result ≢ NO_MEMORY → MatchOption handle.old.value ((result ≡ CLOSED) × (room.new ≡ room.old) × (count.new ≡ count.old))
        (λ s. CopiesWhole (10 ∷ (stream_line s ++ packet_lines s.packets)) result room.old room.new count.old count.new) }
    ensures no_memory { result ≡ NO_MEMORY → MatchOption handle.old.value ⊥ (λ _. (room.new ≡ room.old) × (count.new ≡ count.old)) }
    ensures same { handle.new.value ≡ handle.old.value }
{
    let Some(snap) = handle.take(alloc) else {
        return CLOSED;
    };
    let mut text = String::new(alloc);
    let pushed = push_stream(&mut text, &snap);
    handle.put(snap);
    match pushed {
        Ok(()) => copy_whole(text.as_bytes(), room, count),
        Err(_) => NO_MEMORY,
    }
}
