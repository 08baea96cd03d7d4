//! A packet whose records lie in bytes.

ghost use Rattle.std.specs.Prelude.{◌≡◌, Some, None, IfSome, length};
ghost use Rattle.tr_record.specs.Whole.{AreWhole, entries_of};
ghost use Rattle.tr_packet.specs.Order.{last_serial_after};
ghost use Rattle.tr_packet.specs.Packets.{IsPacket, contents};

use crate::head::Head;
use std::marker::Model;
use tr_record::Records;

/// A packet that borrows the bytes of its records, and reads them on demand. It takes no memory. Contracts see it as
/// `Contents`.
#[derive(Drop, Debug)]
pub struct PacketView<'a> {
    head: Head,
    count: usize,
    last_serial: Option<u64>,
    body: &'a [u8],
}

impl<'a> Model for PacketView<'a> {
    ghost use Rattle.std.specs.Prelude.{◌≡◌, Some, None, IfSome, length};
    ghost use Rattle.tr_record.specs.Whole.{AreWhole, entries_of};
    ghost use Rattle.tr_packet.specs.Order.{last_serial_after};
    ghost use Rattle.tr_packet.specs.Packets.{Contents, IsPacket, contents};

    ghost Value = { Contents };

    ghost view = { λ p. contents p.head (entries_of p.body.now) };

    ghost invariant = { λ p. IsPacket (contents p.head (entries_of p.body.now)) × AreWhole p.body.now
        × (p.count ≡ length (entries_of p.body.now))
        × IfSome p.last_serial (λ last. last_serial_after None (entries_of p.body.now) ≡ Some last) };
}

impl<'a> PacketView<'a> {
    /// The packet of `count` records, whose texts these bytes are; with the last serial if that is known.
    pub(crate) fn new(
        head: Head,
        count: usize,
        last_serial: Option<u64>,
        body: &'a [u8],
    ) -> PacketView<'a>
        requires packet { IsPacket (contents head (entries_of body.now)) }
        requires whole { AreWhole body.now }
        requires count { count ≡ length (entries_of body.now) }
        requires last_serial { IfSome last_serial (λ last. last_serial_after None (entries_of body.now) ≡ Some last) }
        ensures { result ≡ contents head (entries_of body.entry.now) }
    {
        PacketView {
            head,
            count,
            last_serial,
            body,
        }
    }

    /// What it says beside its records.
    pub fn head(&self) -> Head
        ensures value { result ≡ self.now.head }
        ensures packet { IsPacket self.now }
    {
        self.head
    }

    /// How many records it has.
    pub fn count(&self) -> usize
        ensures value { result ≡ length self.now.records }
        ensures packet { IsPacket self.now }
    {
        self.count
    }

    /// The serial of its last record. It has at least one.
    pub fn last_serial(&self) -> u64
        ensures value { last_serial_after None self.now.records ≡ Some result }
        ensures packet { IsPacket self.now }
    {
        if let Some(last) = self.last_serial {
            return last;
        }
        match last_serial_of(self.records()) {
            Some(last) => last,
            None => unreachable!(),
        }
    }

    /// Its records, in order.
    pub fn records(&self) -> Records<'a>
        ensures value { result ≡ self.now.records }
        ensures packet { IsPacket self.now }
    {
        Records::new(self.body)
    }
}

/// The last record's serial, if there are records.
fn last_serial_of(records: Records<'_>) -> Option<u64>
    ensures { result ≡ last_serial_after None records.entry }
{
    let mut last = None;
    for r in records {
        last = Some(r.serial());
    }
    last
}
