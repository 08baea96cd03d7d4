//! Why bytes don't start with a packet.

ghost use Rattle.std.specs.Prelude.{◌≡◌};
ghost use Rattle.tr_packet.specs.Faults.{packet_fault_code, packet_fault_name};

use thiserror::Error;

/// Why bytes don't start with a packet. If several apply, a decoder answers the first one in its order.
#[derive(Clone, Copy, Debug, PartialEq, Eq, Error)]
#[error("{} {}", self.code(), self.name())]
pub enum PacketFault {
    /// There are fewer bytes than `PACKET_HEADER`, or fewer than packet_size says.
    Short,
    /// The first four bytes aren't the magic.
    BadMagic,
    /// The stream_id isn't 0.
    BadStreamId,
    /// content_size and packet_size aren't equal, or aren't a number of whole bytes from `SMALLEST_PACKET` to
    /// `LARGEST_PACKET`.
    BadSize,
    /// The bytes from the header's end to the packet's aren't whole records.
    BadRecord,
    /// The serials don't rise strictly.
    SerialOrder,
    /// The moments fall, begin isn't the first record's, end is before the last one's, or a moment is above the limit.
    MomentOrder,
}

impl PacketFault {
    /// The code that documents call it by.
    pub fn code(&self) -> &'static str
        ensures { result.now ≡ packet_fault_code self.now }
    {
        match self {
            PacketFault::Short => "P1",
            PacketFault::BadMagic => "P2",
            PacketFault::BadStreamId => "P3",
            PacketFault::BadSize => "P4",
            PacketFault::BadRecord => "P5",
            PacketFault::SerialOrder => "P6",
            PacketFault::MomentOrder => "P7",
        }
    }

    /// Its name in documents.
    pub fn name(&self) -> &'static str
        ensures { result.now ≡ packet_fault_name self.now }
    {
        match self {
            PacketFault::Short => "Short",
            PacketFault::BadMagic => "BadMagic",
            PacketFault::BadStreamId => "BadStreamId",
            PacketFault::BadSize => "BadSize",
            PacketFault::BadRecord => "BadRecord",
            PacketFault::SerialOrder => "SerialOrder",
            PacketFault::MomentOrder => "MomentOrder",
        }
    }
}
