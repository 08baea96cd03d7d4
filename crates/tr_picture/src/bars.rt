//! The bars of a row.

ghost use Rattle.std.specs.Prelude.{◌≡◌};
ghost use Rattle.tr_packet.specs.Packets.{packet_size};
ghost use Rattle.tr_picture.specs.Bars.{bar_between, beyond, column_after, fault_bar, gap_bar, lost_bar, merged, packet_bar};

use crate::frame::{Frame, greater};
use tr_packet::PacketView;

/// What is drawn in the columns from one on and before another: packets, absent numbers, discarded records and faults, of some
/// archives and between some moments.
#[derive(Clone, Copy, Debug, PartialEq, Eq)]
pub(crate) struct Bar {
    pub(crate) from: u64,
    pub(crate) to: u64,
    /// When it begins and ends.
    pub(crate) begin: u64,
    pub(crate) end: u64,
    /// The numbers of the first archive and the last one.
    pub(crate) archive: u64,
    pub(crate) until: u64,
    /// The first number and the last one of packets, there or absent.
    pub(crate) first: u64,
    pub(crate) last: u64,
    pub(crate) packets: u64,
    pub(crate) records: u64,
    pub(crate) bytes: u64,
    /// How many numbers are absent.
    pub(crate) absent: u64,
    /// How many records were discarded.
    pub(crate) lost: u64,
    pub(crate) faults: u64,
}

/// The column after the last one between two.
fn column_after(from: u64, to: u64) -> u64
    ensures { result ≡ column_after from to }
{
    if from < to {
        to
    } else {
        from.saturating_add(1)
    }
}

impl Bar {
    /// Between two moments of an archive, of nothing yet.
    fn between(frame: &Frame, archive: u64, begin: u64, end: u64) -> Bar
        ensures { result ≡ bar_between frame.now archive begin end }
    {
        let from = frame.column_of(begin);
        Bar {
            from,
            to: column_after(from, frame.column_of(end)),
            begin,
            end,
            archive,
            until: archive,
            first: 0,
            last: 0,
            packets: 0,
            records: 0,
            bytes: 0,
            absent: 0,
            lost: 0,
            faults: 0,
        }
    }

    /// A packet of an archive, which has `size` bytes.
    pub(crate) fn of_packet(
        frame: &Frame,
        archive: u64,
        packet: &PacketView<'_>,
        size: usize,
    ) -> Bar
        requires { size ≡ packet_size packet.now }
        ensures { result ≡ packet_bar frame.now archive packet.now }
    {
        let head = packet.head();
        Bar {
            first: head.seq,
            last: head.seq,
            packets: 1,
            records: packet.count() as u64,
            bytes: size as u64,
            ..Bar::between(frame, archive, head.begin.get(), head.end.get())
        }
    }

    /// So many numbers from the first one on, which are absent.
    pub(crate) fn of_gap(
        frame: &Frame,
        archive: u64,
        begin: u64,
        end: u64,
        first: u64,
        count: u64,
    ) -> Bar
        ensures { result ≡ gap_bar frame.now archive begin end first count }
    {
        Bar {
            first,
            last: first.saturating_add(count).saturating_sub(1),
            absent: count,
            ..Bar::between(frame, archive, begin, end)
        }
    }

    /// So many records that were discarded.
    pub(crate) fn of_lost(frame: &Frame, archive: u64, begin: u64, end: u64, count: u64) -> Bar
        ensures { result ≡ lost_bar frame.now archive begin end count }
    {
        Bar {
            lost: count,
            ..Bar::between(frame, archive, begin, end)
        }
    }

    /// A fault.
    pub(crate) fn of_fault(frame: &Frame, archive: u64, moment: u64) -> Bar
        ensures { result ≡ fault_bar frame.now archive moment }
    {
        Bar {
            faults: 1,
            ..Bar::between(frame, archive, moment, moment)
        }
    }

    /// One bar for this and the next one, in this one's columns.
    pub(crate) fn merged(&self, next: &Bar) -> Bar
        ensures { result ≡ merged self.now next.now }
    {
        Bar {
            from: self.from,
            to: self.to,
            begin: self.begin,
            end: greater(self.end, next.end),
            archive: self.archive,
            until: next.until,
            first: self.first,
            last: next.last,
            packets: self.packets.saturating_add(next.packets),
            records: self.records.saturating_add(next.records),
            bytes: self.bytes.saturating_add(next.bytes),
            absent: self.absent.saturating_add(next.absent),
            lost: self.lost.saturating_add(next.lost),
            faults: self.faults.saturating_add(next.faults),
        }
    }

    /// The next one in those of its columns that are beyond this one's.
    pub(crate) fn beyond(&self, next: &Bar) -> Bar
        ensures { result ≡ beyond self.now next.now }
    {
        Bar {
            from: greater(self.to, next.from),
            ..*next
        }
    }
}
