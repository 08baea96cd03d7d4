//! The row of a stream.

ghost use Rattle.std.specs.Prelude.{◌≡◌, ℕ, List, OnOk};
ghost use Rattle.tr_packet.specs.Packets.{packet_size};
ghost use Rattle.tr_picture.specs.Rows.{faulty, no_row, row_after, with_fall, with_gap, with_loss, with_number};
ghost use Rattle.tr_survey.specs.Listing.{key_of};
ghost use Rattle.tr_survey.specs.Streams.{place};

use crate::bars::Bar;
use crate::frame::{Extent, Frame};
use crate::lanes::Lane;
use crate::losses::{add_discarded, since_end};
use crate::threads::Threads;
use std::alloc::{AllocError, Global};
use tr_packet::PacketView;
use tr_survey::{Last, Numbered, Tally, absent_before, falls, next_number};

/// What is drawn of a stream: its counts, the extent of its packets, a lane of packets and absent numbers, and a lane of
/// discarded records and faults, and the threads that had its producer.
#[derive(Drop)]
pub(crate) struct Row {
    pub(crate) tally: Tally,
    pub(crate) extent: Extent,
    pub(crate) packets: Lane,
    pub(crate) losses: Lane,
    pub(crate) threads: Threads,
}

/// Adds the numbers absent right before a packet.
fn add_gap(
    frame: &Frame,
    archive: u64,
    lane: &mut Lane,
    last: Option<Last>,
    packet: &PacketView<'_>,
) -> Result<(), AllocError>
    ensures { OnOk result (lane.new ≡ with_gap frame.now archive lane.old last packet.now) }
{
    let head = packet.head();
    let count = absent_before(last, head.seq);
    if count == 0 {
        return Ok(());
    }
    let begin = head.begin.get();
    let from = since_end(begin, last);
    lane.add(Bar::of_gap(frame, archive, from, begin, next_number(last), count))
}

/// Adds a packet, and what is absent before it, if it is known what was before.
fn add_number(
    frame: &Frame,
    archive: u64,
    is_broken: bool,
    lane: &mut Lane,
    last: Option<Last>,
    packet: &PacketView<'_>,
    size: usize,
) -> Result<(), AllocError>
    requires { size ≡ packet_size packet.now }
    ensures { OnOk result (lane.new ≡ with_number frame.now archive is_broken lane.old last packet.now) }
{
    if !is_broken {
        add_gap(frame, archive, lane, last, packet)?;
    }
    lane.add(Bar::of_packet(frame, archive, packet, size))
}

/// Adds a fault, if a packet says that fewer records were discarded than the one before says.
fn add_fall(
    frame: &Frame,
    archive: u64,
    lane: &mut Lane,
    last: Option<Last>,
    packet: &PacketView<'_>,
) -> Result<(), AllocError>
    ensures { OnOk result (lane.new ≡ with_fall frame.now archive lane.old last packet.now) }
{
    if !falls(last, packet) {
        return Ok(());
    }
    lane.add(Bar::of_fault(frame, archive, packet.head().end.get()))
}

/// Adds what was lost by a packet, if it is known what was before.
fn add_loss(
    frame: &Frame,
    archive: u64,
    is_broken: bool,
    lane: &mut Lane,
    last: Option<Last>,
    packet: &PacketView<'_>,
) -> Result<(), AllocError>
    ensures { OnOk result (lane.new ≡ with_loss frame.now archive is_broken lane.old last packet.now) }
{
    if is_broken {
        return Ok(());
    }
    add_discarded(frame, archive, lane, last, packet)?;
    add_fall(frame, archive, lane, last, packet)
}

impl Row {
    /// Nothing of a stream. It takes no memory.
    pub(crate) fn new(alloc: Global) -> Row
        ensures { result ≡ no_row }
    {
        Row {
            tally: Tally::new(0),
            extent: Extent::none(),
            packets: Lane::new(alloc),
            losses: Lane::new(alloc),
            threads: Threads::none(alloc),
        }
    }

    /// Adds a packet of an archive, which has `size` bytes.
    pub(crate) fn add_packet(
        &mut self,
        alloc: Global,
        frame: &Frame,
        archive: &Numbered,
        packet: &PacketView<'_>,
        size: usize,
    ) -> Result<(), AllocError>
        requires { size ≡ packet_size packet.now }
        ensures { OnOk result ((uuid : List ℕ) (stream : ℕ)
            → self.new ≡ row_after frame.now (place uuid stream (key_of archive.now)) self.old packet.now) }
    {
        let number = archive.number;
        let last = self.tally.last;
        let is_broken = self.tally.is_broken;
        add_number(
            frame,
            number,
            is_broken,
            &mut self.packets,
            last,
            packet,
            size,
        )?;
        add_loss(frame, number, is_broken, &mut self.losses, last, packet)?;
        self.threads.add_packet(alloc, packet)?;
        self.extent = self.extent.with_packet(packet, size);
        self.tally = self.tally.after(archive, packet, size);
        Ok(())
    }

    /// Adds a fault in an archive, at the end of the packet before.
    pub(crate) fn add_fault(&mut self, frame: &Frame, archive: &Numbered) -> Result<(), AllocError>
        ensures { OnOk result ((uuid : List ℕ) (stream : ℕ)
            → self.new ≡ faulty frame.now (place uuid stream (key_of archive.now)) self.old) }
    {
        let moment = since_end(frame.least, self.tally.last);
        self.losses
            .add(Bar::of_fault(frame, archive.number, moment))?;
        self.tally = self.tally.broken();
        Ok(())
    }
}
