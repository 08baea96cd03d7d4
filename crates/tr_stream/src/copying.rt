//! Copies of what a ring holds, made a piece at a time while offers go on.

ghost use Rattle.std.specs.Prelude.{◌≡◌, ◌≢◌, [], IfOk, OnErr, map};
ghost use Rattle.tr_packet.specs.Packets.{IsPacket};
ghost use Rattle.tr_ring.specs.Ring.{closed_current};
ghost use Rattle.tr_stream.specs.Calls.{History, StandsFor, history_snap, state_snap};
ghost use Rattle.tr_stream.specs.Chunks.{packet_of, ring_buffers};
ghost use Rattle.tr_stream.specs.Sound.{ArePackets};

use crate::config::StreamConfig;
use crate::packing::{head_of, head_of_current};
use crate::spares::Spares;
use crate::stream::Stream;
use std::alloc::{AllocError, Allocator};
use tr_book::StreamSnap;
use tr_packet::PacketText;
use tr_ring::Ring;
use tr_terms::{Moment, SessionMode};

/// Copies of the packets of the sub-buffers that wait, the oldest first: the rest of those that were begun, and else all.
fn waiting_out<A: Allocator + Copy>(
    alloc: A,
    config: &StreamConfig,
    ring: &mut Ring<A>,
) -> Result<Vec<PacketText<A>, A>, AllocError>
    requires { ArePackets config.now ring.old.waiting }
    ensures packets { IfOk result (λ t. t.items ≡ map (packet_of config.now) ring.old.waiting) }
    ensures same { ring.new ≡ ring.old }
{
    let mut packets = Vec::new(alloc);
    for i in 0..ring.waiting() {
        let Some(buffer) = ring.item(i) else {
            unreachable!()
        };
        let head = head_of(config, &buffer);
        packets.push(ring.copied_out(alloc, i, head)?)?;
    }
    Ok(packets)
}

/// Copies of the packets of a ring, as `ring_packets` has them: the rest of those that were begun, and else all.
fn packets_out<A: Allocator + Copy>(
    alloc: A,
    config: StreamConfig,
    ring: &mut Ring<A>,
    end: Moment,
) -> Result<Vec<PacketText<A>, A>, AllocError>
    requires waiting { ArePackets config ring.old.waiting }
    requires current { ring.old.current ≢ [] → IsPacket (packet_of config (closed_current end ring.old)) }
    ensures packets { IfOk result (λ t. t.items ≡ map (packet_of config) (ring_buffers end ring.old)) }
    ensures same { ring.new ≡ ring.old }
    ensures memory { OnErr result (ring_buffers end ring.old ≢ []) }
{
    if ring.waiting() == 0 && ring.current().is_empty() {
        return Ok(Vec::new(alloc));
    }
    let mut packets = waiting_out(alloc, &config, ring)?;
    if ring.current().is_empty() {
        return Ok(packets);
    }
    let head = head_of_current(&config, ring, end);
    packets.push(ring.current_copied_out(alloc, head)?)?;
    Ok(packets)
}

/// Begins copies of the packets of a ring in these pages, one in each, as far as they go and if they have its size.
fn begin_each<A: Allocator + Copy>(ring: &mut Ring<A>, pages: &mut Spares<A>)
    ensures { ring.new ≡ ring.old }
{
    for i in 0..=ring.waiting() {
        let is_fit = pages.have_size(ring.size()) && pages.len() > 0;
        if is_fit && ring.lacks_copy(i) {
            ring.begin_copy(i, pages.pop());
        }
    }
}

/// Copies the next bytes of the packets of which copies were begun, the oldest first, at most so many.
fn copy_next<A: Allocator + Copy>(ring: &mut Ring<A>, most: usize) -> usize
    ensures { ring.new ≡ ring.old }
{
    let mut left = most;
    for i in 0..=ring.waiting() {
        let next = ring.uncopied(i).min(left);
        ring.copy_more(i, next);
        left -= next;
    }
    most - left
}

impl<A: Allocator + Copy> Stream<A> {
    /// Reads the first bytes of the sub-buffers from number `from` to before number `to`, the oldest being 0: so a cut, a clear or a
    /// look soon after doesn't wait for memory at each of them. Answers with a sum of some of these bytes.
    pub fn warm(&self, from: usize, to: usize) -> u32 {
        let mut sum = 0u32;
        for i in from..to.min(self.ring.count()) {
            sum = sum.wrapping_add(self.ring.warm(i));
        }
        sum
    }

    /// How many pages `begin_copies` has a use for: one for each sub-buffer of which no copy was begun. None where there are no
    /// snapshots.
    pub fn lacking_copies(&self) -> usize {
        match self.config.session {
            SessionMode::Local => 0,
            SessionMode::Snapshot => self.ring.lacking_copies(),
        }
    }

    /// Begins copies of the packets that the ring holds in these pages, one in each, as far as they go and if they have its
    /// size. Nothing is copied yet, and what is shown doesn't change.
    pub fn begin_copies(&mut self, pages: &mut Spares<A>)
        ensures { self.new ≡ self.old }
    {
        begin_each(&mut self.ring, pages);
    }

    /// Copies the next bytes of the packets of which copies were begun, at most so many, and answers how many it copied. So a
    /// caller copies what the ring holds while offers go on, and waits with `peek_out` until little is left. What is shown
    /// doesn't change.
    pub fn copy_more(&mut self, most: usize) -> usize
        ensures { self.new ≡ self.old }
    {
        copy_next(&mut self.ring, most)
    }

    /// What `peek` has. Of a packet of which a copy was begun only the rest is copied, and that copy is handed out; the next
    /// snapshot begins another.
    pub fn peek_out(&mut self, moment: Moment) -> Result<StreamSnap<A>, AllocError>
        ensures value { IfOk result (λ snap. snap ≡ state_snap moment self.old) }
        ensures same { self.new ≡ self.old }
        ensures step { (h : History) → StandsFor self.old h
            → IfOk result (λ snap. snap ≡ history_snap self.old.config moment h) }
        ensures memory { OnErr result ((state_snap moment self.old).packets ≢ []) }
    {
        let end = self.counters.stored_moment(moment);
        let packets = packets_out(self.alloc, self.config, &mut self.ring, end)?;
        let stream = self.config.number;
        Ok(StreamSnap::new(
            stream,
            self.counters.offered(),
            self.ring.discarded(),
            packets,
        ))
    }
}
