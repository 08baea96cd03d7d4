//! How much an archive holds.

ghost use Rattle.std.specs.Prelude.{◌≡◌, ◌*◌, ◌<◌, ◌≤◌, ◌^◌};
ghost use Rattle.std.specs.Option.{option_map_or};
ghost use Rattle.tr_book.specs.Parts.{part_packets, part_records, part_bytes};
ghost use Rattle.tr_session.specs.Sizes.{archive_packets, archive_records, archive_bytes, archive_released, part_released};
ghost use Rattle.tr_stream.specs.Rules.{by_state};
ghost use Rattle.tr_terms.specs.declared.limits.TheConstants.{LARGEST_PACKET};

use crate::session::Session;
use std::alloc::Allocator;
use tr_stream::Stream;

/// How many packets an archive holds over all streams, how many records these have, and how many bytes. Parts that were
/// released count with what they had.
#[derive(Clone, Copy, Debug, PartialEq, Eq)]
pub struct ArchiveSize {
    /// How many packets the archive has.
    pub packets: u128,
    /// How many records the packets have.
    pub records: u128,
    /// How many bytes their texts have.
    pub bytes: u128,
    /// Of how many streams the part was released.
    pub released: u64,
}

/// How much a stream's part of a chunk holds.
fn part_size<A: Allocator>(stream: &Stream<A>, id: u64) -> ArchiveSize
    requires { stream.now.parts.forgotten ≡ 0 }
    ensures packets { result.packets ≡ option_map_or part_packets (by_state.part id stream.now) 0 }
    ensures records { result.records ≡ option_map_or part_records (by_state.part id stream.now) 0 }
    ensures bytes { result.bytes ≡ option_map_or part_bytes (by_state.part id stream.now) 0 }
    ensures released { result.released ≡ option_map_or part_released (by_state.part id stream.now) 0 }
    ensures few { (result.packets < 2 ^ 64) × (result.records < 2 ^ 64) × (result.bytes < LARGEST_PACKET * 2 ^ 64) × (result.released ≤ 1) }
{
    match stream.kept_part(id) {
        Some(part) => ArchiveSize {
            packets: u128::from(part.packet_count()),
            records: u128::from(part.records()),
            bytes: part.bytes(),
            released: u64::from(part.is_released()),
        },
        None => ArchiveSize {
            packets: 0,
            records: 0,
            bytes: 0,
            released: 0,
        },
    }
}

impl<A: Allocator> Session<A> {
    /// How much the archive of this number holds: the parts of that chunk, over all streams.
    pub fn archive_size(&self, id: u64) -> ArchiveSize
        ensures packets { result.packets ≡ archive_packets by_state id self.now }
        ensures records { result.records ≡ archive_records by_state id self.now }
        ensures bytes { result.bytes ≡ archive_bytes by_state id self.now }
        ensures released { result.released ≡ archive_released by_state id self.now }
    {
        let mut size = ArchiveSize {
            packets: 0,
            records: 0,
            bytes: 0,
            released: 0,
        };
        'streams: for i in 0..self.streams() {
            let Some(stream) = self.stream(i) else {
                unreachable!()
            };
            let part = part_size(stream, id);
            size.packets += part.packets;
            size.records += part.records;
            size.bytes += part.bytes;
            size.released += part.released;
        }
        size
    }
}
