//! Which packets are of one stream.

ghost use Rattle.std.specs.Prelude.{◌≡◌};
ghost use Rattle.tr_recover.specs.Archive.{lead_count};

use std::alloc::Allocator;
use tr_packet::PacketText;

/// How many of the first packets are of the first one's stream.
pub(crate) fn lead_count<A: Allocator>(packets: &[PacketText<A>]) -> usize
    ensures { result ≡ lead_count packets.now }
{
    if packets.is_empty() {
        return 0;
    }
    let mut last = 0;
    while last + 1 < packets.len()
        && packets[last].head().stream == packets[last + 1].head().stream
    {
        last += 1;
    }
    last + 1
}
