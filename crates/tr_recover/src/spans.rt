//! When packets begin and end.

ghost use Rattle.std.specs.Prelude.{◌≡◌};
ghost use Rattle.tr_recover.specs.Archive.{earliest, latest};

use std::alloc::Allocator;
use tr_packet::PacketText;
use tr_terms::Moment;

/// The earliest moment at which one of the packets begins, or this one.
pub(crate) fn earliest<A: Allocator>(first: Moment, packets: &[PacketText<A>]) -> Moment
    ensures { result ≡ earliest first packets.now }
{
    let mut found = first;
    'packets: for packet in packets {
        let begin = packet.head().begin;
        if begin.get() < found.get() {
            found = begin;
        }
    }
    found
}

/// The latest moment at which one of the packets ends, or this one.
pub(crate) fn latest<A: Allocator>(first: Moment, packets: &[PacketText<A>]) -> Moment
    ensures { result ≡ latest first packets.now }
{
    let mut found = first;
    'packets: for packet in packets {
        let end = packet.head().end;
        if found.get() < end.get() {
            found = end;
        }
    }
    found
}
