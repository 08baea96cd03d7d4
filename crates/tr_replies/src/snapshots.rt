//! The lines of a snapshot.

ghost use Rattle.std.specs.Prelude.{◌≡◌, ◌∷◌, ◌++◌, IfOk, OnOk};
ghost use Rattle.std.specs.String.{string_bytes};
ghost use Rattle.tr_replies.specs.Snapshots.{packet_line, packet_lines, snapshot_head, stream_line};

use std::alloc::{AllocError, Allocator};
use std::fmt::Write;
use tr_book::StreamSnap;
use tr_packet::PacketView;
use tr_snapshot::count;

/// The first line of a snapshot at this moment, without its newline.
pub fn snapshot_begun<A: Allocator + Copy>(alloc: A, moment: u64) -> Result<String<A>, AllocError>
    ensures { IfOk result (λ s. string_bytes s ≡ snapshot_head moment) }
{
    let text = format!(in alloc; "snapshot {moment}")?;
    Ok(text)
}

/// Adds the line of a packet.
fn push_packet<A: Allocator>(
    text: &mut String<A>,
    packet: &PacketView<'_>,
) -> Result<(), AllocError>
    ensures { OnOk result (string_bytes text.new ≡ string_bytes text.old ++ (10 ∷ packet_line packet.now)) }
{
    let seq = packet.head().seq;
    let count = packet.count();
    let Some(first) = packet.records().next() else {
        unreachable!()
    };
    let first = first.serial();
    let last = packet.last_serial();
    match write!(
        text,
        "\npacket {seq} records {count} first {first} last {last}"
    ) {
        Ok(()) => Ok(()),
        Err(_) => Err(AllocError),
    }
}

/// Adds the line of a stream without its packets.
fn push_head<A: Allocator, B: Allocator>(
    text: &mut String<A>,
    snap: &StreamSnap<B>,
) -> Result<(), AllocError>
    ensures { OnOk result (string_bytes text.new ≡ string_bytes text.old ++ (10 ∷ stream_line snap.now)) }
{
    let stream = snap.stream();
    let offered = snap.offered();
    let packets = snap.packets().len();
    let records = count(snap);
    match write!(
        text,
        "\nstream {stream} offered {offered} packets {packets} records {records}"
    ) {
        Ok(()) => Ok(()),
        Err(_) => Err(AllocError),
    }
}

/// Adds the line of a stream and those of its packets, a newline before each.
pub fn push_stream<A: Allocator, B: Allocator>(
    text: &mut String<A>,
    snap: &StreamSnap<B>,
) -> Result<(), AllocError>
    ensures { OnOk result (string_bytes text.new ≡ string_bytes text.old
        ++ (10 ∷ (stream_line snap.now ++ packet_lines snap.now.packets))) }
{
    push_head(text, snap)?;
    let packets = snap.packets();
    'packets: for packet in packets {
        push_packet(text, &packet)?;
    }
    Ok(())
}
