//! The order of a packet's records, as they are read.

ghost use Rattle.std.specs.Prelude.{◌≡◌, ◌+◌, ◌<◌, ◌^◌, [], Some, length};
ghost use Rattle.tr_record.specs.Raw.{entry_of};
ghost use Rattle.tr_record.specs.Whole.{entries_at};
ghost use Rattle.tr_packet.specs.Seen.{seen_first, seen_next, verdict_after, verdict_on};

use crate::faults::PacketFault;
use tr_record::{RawRec, read_raw};

/// What is known of a packet's records, as far as they were read.
#[derive(Clone, Copy)]
pub(crate) struct Seen {
    /// How many were read.
    count: usize,
    /// The last one's serial.
    serial: u64,
    /// Whether the serials rose strictly.
    serials_rise: bool,
    /// The last one's moment.
    moment: u64,
    /// Whether the first moment was the packet's, and none fell.
    moments_hold: bool,
}

impl Seen {
    /// What is known after the first record of a packet that begins at this moment.
    fn first(begin: u64, raw: RawRec<'_>) -> Seen
        ensures { result ≡ seen_first begin (entry_of raw.entry) }
    {
        Seen {
            count: 1,
            serial: raw.serial,
            serials_rise: true,
            moment: raw.moment,
            moments_hold: raw.moment == begin,
        }
    }

    /// What is known after one more record.
    fn next(self, raw: RawRec<'_>) -> Seen
        requires { self.count + 1 < 2 ^ 64 }
        ensures { result ≡ seen_next self (entry_of raw.entry) }
    {
        Seen {
            count: self.count + 1,
            serial: raw.serial,
            serials_rise: self.serials_rise && self.serial < raw.serial,
            moment: raw.moment,
            moments_hold: self.moments_hold && self.moment <= raw.moment,
        }
    }

    /// The verdict after all records of a packet that ends at this moment: how many they are and the last one's serial, or
    /// the first fault of their order.
    fn judge(self, end: u64) -> Result<(usize, u64), PacketFault>
        ensures { result ≡ verdict_after self end (Some []) }
    {
        if !self.serials_rise {
            return Err(PacketFault::SerialOrder);
        }
        if !self.moments_hold || end < self.moment {
            return Err(PacketFault::MomentOrder);
        }
        Ok((self.count, self.serial))
    }
}

/// How many records the bytes are, and the last one's serial, if the serials rise, the first moment is `begin` and the
/// moments don't fall up to `end`. Otherwise the first fault. The limit of moments isn't tested.
pub(crate) fn judge_records(body: &[u8], begin: u64, end: u64) -> Result<(usize, u64), PacketFault>
    requires { 0 < length body.now }
    ensures { result ≡ verdict_on begin end (entries_at body.now) }
{
    let Some((first, after)) = read_raw(body) else {
        return Err(PacketFault::BadRecord);
    };
    let mut seen = Seen::first(begin, first);
    let mut rest = after;
    while !rest.is_empty() {
        let Some((raw, after)) = read_raw(rest) else {
            return Err(PacketFault::BadRecord);
        };
        seen = seen.next(raw);
        rest = after;
    }
    seen.judge(end)
}
