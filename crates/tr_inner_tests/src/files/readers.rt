//! An audit whose bytes come in feeds.

ghost use Rattle.std.specs.Prelude.{◌≡◌, [], None};
ghost use Rattle.tr_chunk.specs.Reading.{HasRead};

use super::{assert_same, at, file, uuid};
use std::alloc::Global;
use std::process::Abort;
use tr_chunk::AuditCause::Packet;
use tr_chunk::{AuditFault, AuditReader, StreamAudit, audit_feeds};
use tr_packet::PacketFault::{BadMagic, Short};
use uuid::Uuid;

/// More bytes than any test feeds.
const MANY: u64 = 1 << 32;

/// Feeds a few bytes.
fn feed(rt: &impl Abort, reader: &mut AuditReader, bytes: &[u8]) -> Result<(), AuditFault> {
    assert!(rt; reader.bytes() < MANY);
    assert!(rt; (bytes.len() as u64) < MANY);
    reader.feed(bytes)
}

/// Begins the next of a few pieces.
fn next_piece(rt: &impl Abort, reader: &mut AuditReader) -> Result<(), AuditFault> {
    assert!(rt; reader.pieces() < MANY);
    reader.next_piece()
}

/// Feeds a piece in feeds of this size.
fn feed_piece(
    rt: &impl Abort,
    reader: &mut AuditReader,
    piece: &[u8],
    size: usize,
) -> Result<(), AuditFault> {
    assert!(rt; size > 0);
    for bytes in piece.chunks(size) {
        feed(rt, reader, bytes)?;
    }
    Ok(())
}

/// What a reader says of these pieces in feeds of this size.
pub(super) fn audit_fed(
    rt: &impl Abort,
    alloc: Global,
    (uuid, stream): (&Uuid, u64),
    pieces: &[&[u8]],
    size: usize,
) -> Result<StreamAudit, AuditFault> {
    let mut reader = AuditReader::new(alloc, uuid, stream).expect(rt, "memory");
    for (at, piece) in pieces.iter().enumerate() {
        if at > 0 {
            next_piece(rt, &mut reader)?;
        }
        feed_piece(rt, &mut reader, piece, size)?;
    }
    reader.finish()
}

/// A reader of the file's stream.
fn reader(rt: &impl Abort, alloc: Global) -> AuditReader
    ensures new { HasRead result.uuid result.stream [] [] result }
    ensures none { result.fault ≡ None }
{
    AuditReader::new(alloc, &uuid(), 0).expect(rt, "memory")
}

/// Asserts that every call answers this fault, and that a feed counts no more.
fn assert_stays(rt: &impl Abort, mut reader: AuditReader, bytes: u64, fault: AuditFault) {
    assert_same(rt, feed(rt, &mut reader, b"more"), Err(fault));
    assert_same(rt, next_piece(rt, &mut reader), Err(fault));
    assert_same(rt, (reader.bytes(), reader.pieces()), (bytes, 1));
    assert_same(rt, reader.finish().err(), Some(fault));
}

#[test]
fn a_header_is_judged_at_its_last_byte(rt: HostRuntime) {
    let mut file = file(&rt, rt.alloc());
    if let Some(first) = file.first_mut() {
        *first = 0;
    }
    let (before, behind) = file.split_at_checked(79).expect(&rt, "a header");
    let (last, _) = behind.split_at_checked(1).expect(&rt, "a header");
    let mut reader = reader(&rt, rt.alloc());
    let answer = feed_piece(&rt, &mut reader, before, 1);
    assert_same(&rt, answer, Ok(()));
    let fault = at(0, 0, Packet(BadMagic));
    assert_same(&rt, feed(&rt, &mut reader, last), Err(fault));
    assert_stays(&rt, reader, 80, fault);
}

#[test]
fn an_unfinished_packet_is_short_at_the_end(rt: HostRuntime) {
    let file = file(&rt, rt.alloc());
    let (most, _) = file.split_at_checked(483).expect(&rt, "a file");
    let mut reader = reader(&rt, rt.alloc());
    let answer = feed_piece(&rt, &mut reader, most, 1);
    assert_same(&rt, answer, Ok(()));
    assert_same(&rt, (reader.bytes(), reader.pieces()), (483, 1));
    let fault = at(0, 228, Packet(Short));
    assert_same(&rt, reader.finish().err(), Some(fault));
}

#[test]
fn an_unfinished_packet_is_short_at_a_pieces_end(rt: HostRuntime) {
    let file = file(&rt, rt.alloc());
    let (most, _) = file.split_at_checked(300).expect(&rt, "a file");
    let mut reader = reader(&rt, rt.alloc());
    let answer = feed_piece(&rt, &mut reader, most, 7);
    assert_same(&rt, answer, Ok(()));
    let fault = at(0, 228, Packet(Short));
    assert_same(&rt, next_piece(&rt, &mut reader), Err(fault));
    assert_stays(&rt, reader, 300, fault);
}

#[test]
fn pieces_and_their_bytes_are_counted(rt: HostRuntime) {
    let file = file(&rt, rt.alloc());
    let (first, second) = file.split_at_checked(228).expect(&rt, "two packets");
    let mut reader = reader(&rt, rt.alloc());
    assert_same(&rt, (reader.bytes(), reader.pieces()), (0, 1));
    assert_same(&rt, feed(&rt, &mut reader, first), Ok(()));
    assert_same(&rt, next_piece(&rt, &mut reader), Ok(()));
    assert_same(&rt, feed(&rt, &mut reader, second), Ok(()));
    assert_same(&rt, (reader.bytes(), reader.pieces()), (484, 2));
    let audit = reader.finish().expect(&rt, "an audit");
    assert_same(&rt, (audit.packets, audit.records), (2, 5));
}

#[test]
fn four_bytes_in_feeds_are_short(rt: HostRuntime) {
    let feeds: [&[u8]; 3] = [b"\xC1\x1F", b"", b"\xFC\xC1"];
    let fault = at(1, 0, Packet(Short));
    let answer = audit_feeds(reader(&rt, rt.alloc()), &[&[], &feeds]);
    assert_same(&rt, answer.err(), Some(fault));
    let none = audit_feeds(reader(&rt, rt.alloc()), &[]);
    assert_same(&rt, none.is_ok(), true);
}
