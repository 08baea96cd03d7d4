//! The packets that sub-buffers become.

ghost use Rattle.std.specs.Prelude.{◌≡◌, ◌≢◌, ◌∷◌, [], ◌++◌, ◌+◌, ◌<◌, ◌≤◌, ◌^◌, ℕ, Some, map, length, slice_get, vec_capacity, vec_len, IfOk, OnOk, OnErr};
ghost use Rattle.tr_book.specs.Parts.{close_part, records_of, with_packet, with_packets};
ghost use Rattle.tr_packet.specs.Packets.{IsPacket};
ghost use Rattle.tr_ring.specs.ClosedBuffer.{ClosedBuffer};
ghost use Rattle.tr_ring.specs.Ring.{clear_ring, closed_current, drop_front};
ghost use Rattle.tr_stream.specs.Chunks.{buffer_runs, packet_of, ring_buffers};
ghost use Rattle.tr_ring.specs.Heads.{begin_of};
ghost use Rattle.tr_stream.specs.Gaps.{DiscardsShow};
ghost use Rattle.tr_stream.specs.Sound.{ArePackets};
ghost use Rattle.tr_terms.specs.declared.limits.TheConstants.{MOST_SUB_BUFFERS};

use crate::config::StreamConfig;
use crate::spares::Spares;
use std::alloc::{AllocError, Allocator};
use std::mem;
use tr_book::{Parts, Runs};
use tr_packet::{Head, PacketText};
use tr_record::Records;
use tr_ring::{ClosedSubBuf, Ring};
use tr_terms::Moment;

/// The moment of the first record.
fn begin(mut records: Records<'_>) -> Moment
    ensures { result ≡ begin_of records.entry }
{
    match records.next() {
        Some(first) => first.moment(),
        None => Moment::zero(),
    }
}

/// What the packet of a closed sub-buffer says beside its records.
pub fn head_of<A: Allocator>(config: &StreamConfig, buffer: &ClosedSubBuf<'_, A>) -> Head
    ensures { result ≡ (packet_of config.now buffer.now).head }
{
    Head {
        uuid: config.uuid,
        stream: config.number,
        begin: begin(buffer.records()),
        end: buffer.end(),
        seq: buffer.seq(),
        lost: buffer.discarded(),
    }
}

/// What the packet of the current sub-buffer says beside its records, if it is closed at this moment.
pub fn head_of_current<A: Allocator>(config: &StreamConfig, ring: &Ring<A>, end: Moment) -> Head
    ensures { result ≡ (packet_of config.now (closed_current end ring.now)).head }
{
    Head {
        uuid: config.uuid,
        stream: config.number,
        begin: begin(ring.current().records()),
        end,
        seq: ring.seq(),
        lost: ring.discarded(),
    }
}

/// A copy of the packet that the current sub-buffer would be, if it were closed at this moment.
fn copy_current<A: Allocator>(
    alloc: A,
    config: &StreamConfig,
    ring: &Ring<A>,
    end: Moment,
) -> Result<PacketText<A>, AllocError>
    requires { IsPacket (packet_of config.now (closed_current end ring.now)) }
    ensures { IfOk result (λ t. t ≡ packet_of config.now (closed_current end ring.now)) }
{
    let head = head_of_current(config, ring, end);
    ring.current().copied(alloc, head)
}

/// Takes the oldest sub-buffer out of the ring, as its packet. Its page becomes the packet's text, and a spare page is used in its
/// place; but a page that is mostly empty is copied, and stays. If an allocation fails, the ring is as it was.
fn take_oldest<A: Allocator + Copy>(
    alloc: A,
    config: &StreamConfig,
    ring: &mut Ring<A>,
    spares: &mut Spares<A>,
) -> Result<PacketText<A>, AllocError>
    requires some { 1 ≤ length ring.old.waiting }
    requires packet { (b : ClosedBuffer) → slice_get ring.old.waiting 0 ≡ Some b → IsPacket (packet_of config.now b) }
    ensures packet { IfOk result (λ t. (b : ClosedBuffer) → slice_get ring.old.waiting 0 ≡ Some b → t ≡ packet_of config.now b) }
    ensures ok { OnOk result (ring.new ≡ drop_front ring.old) }
    ensures err { OnErr result (ring.new ≡ ring.old) }
{
    let Some(oldest) = ring.front() else {
        unreachable!()
    };
    let head = head_of(config, &oldest);
    if oldest.is_mostly_empty() {
        let packet = oldest.copied(alloc, head)?;
        ring.drop_front();
        return Ok(packet);
    }
    let spare = spares.page(ring.size())?;
    Ok(ring.take_front(spare).into_packet(head))
}

/// Moves the oldest sub-buffer, as a packet, to the end of the current part. If an allocation fails, ring and parts are as they
/// were.
pub fn move_to_part<A: Allocator + Copy>(
    alloc: A,
    config: &StreamConfig,
    ring: &mut Ring<A>,
    spares: &mut Spares<A>,
    parts: &mut Parts<A>,
) -> Result<(), AllocError>
    requires some { 1 ≤ length ring.old.waiting }
    requires packet { (b : ClosedBuffer) → slice_get ring.old.waiting 0 ≡ Some b → IsPacket (packet_of config.now b) }
    requires few { (b : ClosedBuffer) → slice_get ring.old.waiting 0 ≡ Some b
        → records_of parts.old.current.packets + length b.records < 2 ^ 64 }
    ensures parts { OnOk result ((b : ClosedBuffer) → slice_get ring.old.waiting 0 ≡ Some b
        → parts.new ≡ with_packet (packet_of config.now b) parts.old) }
    ensures ring { OnOk result (ring.new ≡ drop_front ring.old) }
    ensures err { OnErr result ((ring.new ≡ ring.old) × (parts.new ≡ parts.old)) }
{
    let mut open = parts.take_current(1)?;
    match take_oldest(alloc, config, ring, spares) {
        Ok(packet) => {
            open.push(packet);
            parts.put_back(open);
            Ok(())
        }
        Err(fault) => {
            parts.put_back(open);
            Err(fault)
        }
    }
}

/// Takes the oldest sub-buffer out of the ring, and adds its packet to others.
fn take_next<A: Allocator + Copy>(
    config: &StreamConfig,
    ring: &mut Ring<A>,
    spares: &mut Spares<A>,
    packets: &mut Vec<PacketText<A>, A>,
)
    requires some { 1 ≤ length ring.old.waiting }
    requires packets { ArePackets config.now ring.old.waiting }
    requires spares { (spares.old.size ≡ ring.old.size) × (0 < spares.old.count) }
    requires room { vec_len packets.old < vec_capacity packets.old }
    ensures packets { packets.new.items ++ map (packet_of config.now) ring.new.waiting
        ≡ packets.old.items ++ map (packet_of config.now) ring.old.waiting }
    ensures len { (vec_len packets.new ≡ vec_len packets.old + 1) × (vec_capacity packets.new ≡ vec_capacity packets.old) }
    ensures ring { ring.new ≡ drop_front ring.old }
    ensures left { ArePackets config.now ring.new.waiting }
    ensures spares { (spares.new.size ≡ spares.old.size) × (spares.new.count + 1 ≡ spares.old.count) }
{
    let Some(oldest) = ring.front() else {
        unreachable!()
    };
    let head = head_of(config, &oldest);
    let page = ring.take_front(spares.pop());
    packets.push_reserved(page.into_packet(head));
}

/// Takes all sub-buffers that wait out of the ring, the oldest first, and adds their packets to others.
fn take_waiting<A: Allocator + Copy>(
    config: &StreamConfig,
    ring: &mut Ring<A>,
    spares: &mut Spares<A>,
    packets: &mut Vec<PacketText<A>, A>,
)
    requires packets { ArePackets config.now ring.old.waiting }
    requires spares { (spares.old.size ≡ ring.old.size) × (length ring.old.waiting ≤ spares.old.count) }
    requires room { vec_len packets.old + length ring.old.waiting ≤ vec_capacity packets.old }
    ensures packets { packets.new.items ≡ packets.old.items ++ map (packet_of config.now) ring.old.waiting }
    ensures len { (vec_len packets.new ≡ vec_len packets.old + length ring.old.waiting)
        × (vec_capacity packets.new ≡ vec_capacity packets.old) }
    ensures ring { ring.new ≡ record ring.old { waiting = [] } }
    ensures spares { (spares.new.size ≡ spares.old.size) × (spares.new.count + length ring.old.waiting ≡ spares.old.count) }
{
    for _ in 0..ring.waiting() {
        take_next(config, ring, spares, packets);
    }
}

/// The packets of a ring, the oldest first, as `ring_packets` has them, and the ring is empty. Pages become packets' texts; but a
/// current sub-buffer that is mostly empty is copied. If an allocation fails, the ring is as it was.
fn take_all<A: Allocator + Copy>(
    alloc: A,
    config: &StreamConfig,
    ring: &mut Ring<A>,
    spares: &mut Spares<A>,
    end: Moment,
) -> Result<Vec<PacketText<A>, A>, AllocError>
    requires waiting { ArePackets config.now ring.old.waiting }
    requires current { ring.old.current ≢ [] → IsPacket (packet_of config.now (closed_current end ring.old)) }
    requires numbers { ring.old.seq + 1 < 2 ^ 64 }
    requires count { ring.old.count ≤ MOST_SUB_BUFFERS }
    ensures packets { IfOk result (λ t. t.items ≡ map (packet_of config.now) (ring_buffers end ring.old)) }
    ensures ok { OnOk result (ring.new ≡ clear_ring ring.old) }
    ensures err { OnErr result (ring.new ≡ ring.old) }
{
    let waiting = ring.waiting();
    if ring.current().is_empty() {
        let mut packets = Vec::with_capacity(alloc, waiting)?;
        spares.make(ring.size(), waiting)?;
        take_waiting(config, ring, spares, &mut packets);
        return Ok(packets);
    }
    let mut packets = Vec::with_capacity(alloc, waiting + 1)?;
    if ring.current().is_mostly_empty() {
        let last = copy_current(alloc, config, ring, end)?;
        spares.make(ring.size(), waiting)?;
        take_waiting(config, ring, spares, &mut packets);
        packets.push_reserved(last);
        ring.clear();
        return Ok(packets);
    }
    let head = head_of_current(config, ring, end);
    spares.make(ring.size(), waiting + 1)?;
    take_waiting(config, ring, spares, &mut packets);
    let page = ring.take_current(spares.pop());
    packets.push_reserved(page.into_packet(head));
    Ok(packets)
}

/// Moves all that the ring holds, as packets, to the current part, closes that and begins the next one, at serial `next`. If an
/// allocation fails, ring and parts are as they were.
pub fn cut_into_part<A: Allocator + Copy>(
    alloc: A,
    config: &StreamConfig,
    ring: &mut Ring<A>,
    spares: &mut Spares<A>,
    parts: &mut Parts<A>,
    end: Moment,
    next: u64,
) -> Result<(), AllocError>
    requires waiting { ArePackets config.now ring.old.waiting }
    requires current { ring.old.current ≢ [] → IsPacket (packet_of config.now (closed_current end ring.old)) }
    requires numbers { ring.old.seq + 1 < 2 ^ 64 }
    requires count { ring.old.count ≤ MOST_SUB_BUFFERS }
    requires few { records_of parts.old.current.packets
        + records_of (map (packet_of config.now) (ring_buffers end ring.old)) < 2 ^ 64 }
    ensures parts { OnOk result (parts.new
        ≡ close_part next (with_packets (map (packet_of config.now) (ring_buffers end ring.old)) parts.old)) }
    ensures ring { OnOk result (ring.new ≡ clear_ring ring.old) }
    ensures err { OnErr result ((ring.new ≡ ring.old) × (parts.new ≡ parts.old)) }
{
    let count = used(ring) as usize;
    let ready = match mem::replace(parts, Parts::new(alloc)).ready(count) {
        Ok(ready) => ready,
        Err(same) => {
            *parts = same;
            return Err(AllocError);
        }
    };
    match take_all(alloc, config, ring, spares, end) {
        Ok(packets) => {
            *parts = ready.cut(packets, next);
            Ok(())
        }
        Err(fault) => {
            *parts = ready.into_parts();
            Err(fault)
        }
    }
}

/// Copies of the packets of the sub-buffers that wait, the oldest first.
fn waiting_packets<A: Allocator + Copy>(
    alloc: A,
    config: &StreamConfig,
    ring: &Ring<A>,
) -> Result<Vec<PacketText<A>, A>, AllocError>
    requires { ArePackets config.now ring.now.waiting }
    ensures { IfOk result (λ t. t.items ≡ map (packet_of config.now) ring.now.waiting) }
{
    let mut packets = Vec::new(alloc);
    for buffer in ring.items() {
        let head = head_of(config, &buffer);
        packets.push(buffer.copied(alloc, head)?)?;
    }
    Ok(packets)
}

/// Copies of the packets of a ring, the oldest first: those of the sub-buffers that wait, and that of the current one, as if it
/// were closed at this moment, if it has a record. It takes memory only if there are some.
pub fn ring_packets<A: Allocator + Copy>(
    alloc: A,
    config: StreamConfig,
    ring: &Ring<A>,
    end: Moment,
) -> Result<Vec<PacketText<A>, A>, AllocError>
    requires waiting { ArePackets config ring.now.waiting }
    requires current { ring.now.current ≢ [] → IsPacket (packet_of config (closed_current end ring.now)) }
    ensures packets { IfOk result (λ t. t.items ≡ map (packet_of config) (ring_buffers end ring.now)) }
    ensures memory { OnErr result (ring_buffers end ring.now ≢ []) }
{
    if ring.waiting() == 0 && ring.current().is_empty() {
        return Ok(Vec::new(alloc));
    }
    let mut packets = waiting_packets(alloc, &config, ring)?;
    if ring.current().is_empty() {
        return Ok(packets);
    }
    packets.push(copy_current(alloc, &config, ring, end)?)?;
    Ok(packets)
}

/// The runs of a ring, the oldest first: those of the sub-buffers that wait, and those of the current one. It looks at each
/// record only where more was discarded than before.
pub fn ring_runs<A: Allocator + Copy>(alloc: A, ring: &Ring<A>) -> Result<Runs<A>, AllocError>
    requires { DiscardsShow 0 (ring_buffers 0 ring.now) }
    ensures { IfOk result (λ r. (end : ℕ) → r ≡ buffer_runs (ring_buffers end ring.now)) }
{
    let mut runs = Runs::new(alloc);
    let mut discarded = 0;
    for buffer in ring.items() {
        let in_row = buffer.discarded() == discarded;
        runs.push_known(buffer.seq(), buffer.count(), buffer.records(), in_row)?;
        discarded = buffer.discarded();
    }
    let current = ring.current();
    let in_row = ring.discarded() == discarded;
    runs.push_known(ring.seq(), current.count(), current.records(), in_row)?;
    Ok(runs)
}

/// How many sub-buffers have a record.
pub fn used<A: Allocator>(ring: &Ring<A>) -> u64
    requires { ring.now.count ≤ MOST_SUB_BUFFERS }
    ensures value { (end : ℕ) → result ≡ length (ring_buffers end ring.now) }
    ensures few { result ≤ ring.now.count }
{
    ring.waiting() as u64 + u64::from(!ring.current().is_empty())
}
