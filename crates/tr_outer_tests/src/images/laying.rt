//! Images with packets laid into them.

use crate::asserting::assert_same;
use crate::surveys::room::uuid;
use std::alloc::Global;
use std::process::Abort;
use tr_folders::{MemoryFolders, ReadFault};
use tr_image::recovered_packets;
use tr_packet::{Head, Packet, PacketText, encode_packet, metadata_text};
use tr_record::Rec;
use tr_terms::limits::LARGEST_PACKET;
use tr_testing::moment;

/// A packet of the trace 1: its stream, its number, how many records were discarded by its end, and the length of the payload of
/// each of its records. Its text has 80 bytes, and 24 more for each record beside the payload.
pub(crate) type Row = (u64, u64, u64, &'static [usize]);

/// A packet of these records, of a trace.
fn text_of(rt: &impl Abort, alloc: Global, trace: u8, row: &Row, records: Vec<Rec>) -> Vec<u8> {
    let (stream, seq, lost, _) = *row;
    let head = Head {
        uuid: uuid(trace),
        stream,
        begin: moment(5),
        end: moment(9),
        seq,
        lost,
    };
    let packet = Packet::checked(head, records).expect(rt, "a packet");
    encode_packet(alloc, &packet).expect(rt, "memory")
}

/// The text of a packet of a trace. Its records have the serials from 0 on.
pub(crate) fn written_by(rt: &impl Abort, alloc: Global, trace: u8, row: &Row) -> Vec<u8> {
    let mut records = Vec::new(alloc);
    for (serial, len) in row.3.iter().enumerate() {
        let payload = vec![in alloc; 0x61; *len].expect(rt, "memory");
        assert!(rt; payload.len() <= LARGEST_PACKET);
        records
            .push(Rec::new(serial as u64, moment(5), 7, payload))
            .expect(rt, "memory");
    }
    text_of(rt, alloc, trace, row, records)
}

/// The text of a packet.
pub(crate) fn written(rt: &impl Abort, alloc: Global, row: &Row) -> Vec<u8> {
    written_by(rt, alloc, 1, row)
}

/// The text of a packet of one record with this payload, in place of those of the row.
pub(crate) fn around(rt: &impl Abort, alloc: Global, row: &Row, payload: Vec<u8>) -> Vec<u8> {
    assert!(rt; payload.len() <= LARGEST_PACKET);
    let mut records = Vec::new(alloc);
    records
        .push(Rec::new(0, moment(5), 7, payload))
        .expect(rt, "memory");
    text_of(rt, alloc, 1, row, records)
}

/// So many bytes 0.
pub(crate) fn zeros(rt: &impl Abort, alloc: Global, size: usize) -> Vec<u8> {
    vec![in alloc; 0u8; size].expect(rt, "memory")
}

/// Lays bytes over those of an image, from a place on.
pub(crate) fn lay(rt: &impl Abort, image: &mut [u8], place: usize, bytes: &[u8]) {
    let end = place.checked_add(bytes.len()).expect(rt, "a place");
    let room = image.get_mut(place..end).expect(rt, "room");
    room.copy_from_slice(bytes);
}

/// An image of so many bytes, with packets from these places on, and else bytes 0.
pub(crate) fn image(rt: &impl Abort, alloc: Global, size: usize, laid: &[(usize, Row)]) -> Vec<u8> {
    let mut image = zeros(rt, alloc, size);
    for (place, row) in laid {
        lay(rt, &mut image, *place, &written(rt, alloc, row));
    }
    image
}

/// A folder with this image in the file `ring`, which is given in pieces.
pub(crate) fn kept(rt: &impl Abort, alloc: Global, image: &[u8], piece: usize) -> MemoryFolders {
    let mut files = Vec::new(alloc);
    let path = String::from_str(alloc, "ring").expect(rt, "memory");
    let image = image.to_vec(alloc).expect(rt, "memory");
    files.push((path, image)).expect(rt, "memory");
    MemoryFolders::new(alloc, Vec::new(alloc), files, piece)
}

/// The packets of a trace that are recovered of a file. None if there is no file.
pub(crate) fn recovered(
    alloc: Global,
    trace: u8,
    folders: &mut MemoryFolders,
) -> Result<Option<Vec<PacketText>>, ReadFault> {
    recovered_packets(alloc, &uuid(trace), folders, "ring")
}

/// Asserts that these packets, and no others, are recovered of an image that is given in pieces, with all of their bytes.
pub(crate) fn assert_in_pieces(
    rt: &impl Abort,
    alloc: Global,
    image: &[u8],
    piece: usize,
    rows: &[Row],
) {
    let mut folders = kept(rt, alloc, image, piece);
    let Ok(Some(found)) = recovered(alloc, 1, &mut folders) else {
        panic!(rt; "it isn't read")
    };
    assert_same(rt, found.len(), rows.len());
    for (text, row) in found.iter().zip(rows) {
        assert_packet(rt, alloc, text, row);
    }
}

/// Asserts which packet it is.
fn assert_packet(rt: &impl Abort, alloc: Global, text: &PacketText, row: &Row) {
    let (stream, seq, lost, lens) = *row;
    let head = text.head();
    assert_same(
        rt,
        (head.stream, head.seq, head.lost, text.count()),
        (stream, seq, lost, lens.len()),
    );
    let is_same = text.text() == written(rt, alloc, row).as_slice();
    assert_same(rt, (stream, seq, is_same), (stream, seq, true));
}

/// The same, of an image that is given in large pieces.
pub(crate) fn assert_found(rt: &impl Abort, alloc: Global, image: &[u8], rows: &[Row]) {
    assert_in_pieces(rt, alloc, image, 1_000_000, rows);
}

/// What a file of rings begins with, before the place and the size of its metadata.
pub(crate) static OPENING: [u8; 16] = *b"tracerd rings 1\0";

/// The metadata of a trace of which nothing is declared.
pub(crate) fn metadata(rt: &impl Abort, alloc: Global, trace: u8) -> String {
    metadata_text(alloc, &uuid(trace)).expect(rt, "memory")
}

/// Lays what a file of rings begins with at a place of an image, with the metadata of a trace `behind` bytes farther.
pub(crate) fn open_at(
    rt: &impl Abort,
    alloc: Global,
    image: &mut [u8],
    place: usize,
    behind: usize,
    trace: u8,
) {
    let text = metadata(rt, alloc, trace);
    lay(rt, image, place, &OPENING);
    lay(
        rt,
        image,
        place.wrapping_add(16),
        &(behind as u64).to_le_bytes(),
    );
    lay(
        rt,
        image,
        place.wrapping_add(24),
        &(text.len() as u64).to_le_bytes(),
    );
    lay(rt, image, place.wrapping_add(behind), text.as_bytes());
}
