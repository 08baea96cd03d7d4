//! The packets of an image that are kept.

ghost use Rattle.std.specs.Prelude.{◌≡◌, OnOk, OnErr};
ghost use Rattle.tr_image.specs.Kept.{comes_before, placed};

use std::alloc::{AllocError, Allocator};
use tr_packet::PacketText;

/// Whether a packet comes before another one: by its stream, and then by its number.
fn comes_before<A: Allocator>(one: &PacketText<A>, other: &PacketText<A>) -> bool
    ensures { result ≡ comes_before one.now other.now }
{
    let (one, other) = (one.head(), other.head());
    one.stream < other.stream || (one.stream == other.stream && one.seq < other.seq)
}

/// Gives a packet its place among those that are kept, in the order of streams and numbers. If there is one of its stream and
/// number, the one with more records stays, or that one if they have as many.
///
/// # Errors
///
/// Only if an allocation fails: then the packet is lost, and the others are as they were.
pub(crate) fn place<A: Allocator>(
    kept: &mut Vec<PacketText<A>, A>,
    packet: PacketText<A>,
) -> Result<(), AllocError>
    ensures ok { OnOk result (kept.new.items ≡ placed packet kept.old.items) }
    ensures err { OnErr result (kept.new.items ≡ kept.old.items) }
{
    let mut at = 0;
    while at < kept.len() && comes_before(&kept[at], &packet) {
        at += 1;
    }
    match kept.get_mut(at) {
        Some(same) if !comes_before(&packet, same) => {
            if same.count() < packet.count() {
                *same = packet;
            }
            Ok(())
        }
        _ => {
            kept.insert(at, packet)?;
            Ok(())
        }
    }
}
