//! One stream: a ring of sub-buffers, and the parts that it is consumed into.

ghost use Rattle.std.specs.Prelude.{◌≡◌, ◌≢◌, ◌+◌, ◌-◌, ◌≤◌, ◌<◌, [], Some, Ok, Err, IsOk, IfOk, OnOk, OnErr, length, option_copied, slice_get};
ghost use Rattle.tr_packet.specs.Decoding.{content_bits_in};
ghost use Rattle.tr_packet.specs.Packets.{Contents, IsPacket, packet_text};
ghost use Rattle.tr_stream.specs.Images.{packets_standing};
ghost use Rattle.tr_stream.specs.Spares.{spares_state};
ghost use Rattle.tr_stream.specs.Answers.{answer_of};
ghost use Rattle.tr_book.specs.Parts.{IsForgetful};
ghost use Rattle.tr_stream.specs.StateSteps.{is_part_released};
ghost use Rattle.tr_stream.specs.Calls.{known_from, part_known, part_known_in, state_forget_answer, state_after_forget, state_forget_refusal, history_forget_answer, history_after_forget, IsConsistent, history_fate, all_parts, fate_in_parts, state_fate, held_fate, History, IsKept, IsSound, StandsFor, in_ring, in_parts, new_state, overwrites, refusal_of, state_entry, state_with_offer, offered_as, state_offer_answer, state_after_offer, state_take_answer, state_after_take, cut_done, state_cut_answer, state_cut_ring, state_after_cut, ClearsSome, ReleasesSome, state_cleared, state_clear_answer, state_clear_ring, state_after_clear, state_release_answer, state_after_release, state_after_switch, state_snap, state_counts, new_history, history_offer_answer, history_after_offer, history_take_answer, history_after_take, history_cut_answer, history_after_cut, history_clear_answer, history_after_clear, history_release_answer, history_after_release, history_after_switch, history_snap, history_counts, part_at, push_answer, ring_records, history_ring};

use crate::answers::{
    ClearFault, Cleared, CutDone, CutFault, ForgetFault, OfferFault, Offered, ReleaseFault,
    Released, TakeFault, Taken,
};
use crate::config::StreamConfig;
use crate::fate::{Fate, loss};
use crate::packing::{cut_into_part, move_to_part, ring_packets, ring_runs, used};
use crate::removed::Removed;
use crate::search::seq_in_ring;
use crate::spares::Spares;
use std::alloc::{AllocError, Allocator, Global};
use std::marker::Model;
use tr_book::{Book, Counts, Part, Parts, StreamSnap};
use tr_record::RecView;
use tr_ring::{Origin, Pushed, Ring};
use tr_terms::limits::{MOST_OFFERS, SMALLEST_PACKET};
use tr_terms::{Geometry, Mode, Moment, SessionMode};
use uuid::Uuid;

/// Whether the oldest sub-buffer is overwritten.
fn gives_way(mode: Mode) -> bool
    ensures { result ≡ overwrites mode }
{
    match mode {
        Mode::Discard => false,
        Mode::Overwrite => true,
    }
}

/// One stream of records. Contracts see a `StreamState`.
#[derive(Drop)]
pub struct Stream<A: Allocator = Global> {
    pub(crate) alloc: A,
    pub(crate) config: StreamConfig,
    pub(crate) ring: Ring<A>,
    // empty pages, for the ring to use in the place of those that it gives away
    spares: Spares<A>,
    parts: Parts<A>,
    pub(crate) counters: Book,
    active: bool,
}

impl<A: Allocator> Model for Stream<A> {
    ghost use Rattle.tr_stream.specs.State.{StreamState, stream_state};

    ghost Value = { StreamState };

    ghost use Rattle.tr_stream.specs.Kept.{IsKept};

    ghost view = { λ a. stream_state a.config a.ring a.parts a.counters a.active };

    ghost invariant = { λ a. IsKept (stream_state a.config a.ring a.parts a.counters a.active) };
}

impl<A: Allocator + Copy> Stream<A> {
    /// A stream without records that takes no offers yet. The memory of its ring is taken here. Fails if an allocation fails.
    pub fn new(
        alloc: A,
        uuid: Uuid,
        number: u64,
        geometry: Geometry,
        mode: Mode,
        session: SessionMode,
    ) -> Result<Stream<A>, AllocError>
        ensures value { IfOk result
            (λ s. s ≡ new_state (record {
              uuid = uuid;
              number = number;
              geometry = geometry;
              mode = mode;
              session = session;
            })) }
        ensures starts { IfOk result (λ s. StandsFor s new_history) }
    {
        // (read for the proof, which learns that an identifier has 16 bytes)
        let _ = uuid.into_bytes();
        let origin = Origin {
            uuid,
            stream: number,
        };
        let ring = Ring::new(
            alloc,
            origin,
            geometry.size(),
            geometry.count(),
            gives_way(mode),
        )?;
        Ok(Stream {
            alloc,
            config: StreamConfig {
                uuid,
                number,
                geometry,
                mode,
                session,
            },
            ring,
            spares: Spares::new(alloc, geometry.size()),
            parts: Parts::new(alloc),
            counters: Book::new(),
            active: false,
        })
    }

    /// Offers a record: stores it, or discards it if a ring in discard mode has no room. An offer that is refused changes
    /// nothing. No offer takes memory.
    // Traced threads wait for this call, and few places make it.
    #[inline(always)]
    pub fn offer(&mut self, moment: Moment, id: u32, payload: &[u8]) -> Result<Offered, OfferFault>
        ensures value { (result ≡ state_offer_answer moment id payload.now self.old)
            × (self.new ≡ state_after_offer moment id payload.now self.old) }
        ensures step { (h : History) → StandsFor self.old h →
            (result ≡ history_offer_answer self.old.config payload.now h)
            × StandsFor self.new (history_after_offer self.old.config moment id payload.now h) }
        ensures config { self.new.config ≡ self.old.config }
    {
        if let Some(fault) = self.refusal(payload.len()) {
            return Err(fault);
        }
        Ok(self.accept(moment, id, payload))
    }

    /// Stores a record, or discards it.
    #[inline(always)]
    fn accept(&mut self, moment: Moment, id: u32, payload: &[u8]) -> Offered
        requires { refusal_of (length payload.now) self.old ≡ None }
        ensures answer { result ≡ offered_as self.old.counters.offered
            (push_answer (state_entry moment id payload.now self.old) self.old.ring) }
        ensures after { self.new ≡ state_with_offer (state_entry moment id payload.now self.old) self.old }
    {
        let moment = moment.later(self.counters.last());
        let serial = self.counters.offered();
        let pushed = self.ring.push(moment, id, serial, payload);
        self.counters.note_offer(moment);
        match pushed {
            Pushed::Stored { seq } => Offered::Stored { serial, seq },
            Pushed::StoredOver {
                seq,
                gone_seq,
                gone_count,
            } => {
                self.counters.note_overwritten(gone_count);
                Offered::StoredOver {
                    serial,
                    seq,
                    gone_seq,
                    gone_count,
                }
            }
            Pushed::Refused => Offered::Discarded { serial },
        }
    }

    /// Moves the oldest sub-buffer that waits, as a packet, to the end of the current part. A take that is refused, also
    /// because an allocation failed, changes nothing. In a snapshot session every take is refused.
    pub fn take(&mut self) -> Result<Taken, TakeFault>
        ensures value { result ≢ Err TakeFault.NoMemory
            → (result ≡ state_take_answer self.old) × (self.new ≡ state_after_take self.old) }
        ensures step { (h : History) → StandsFor self.old h → result ≢ Err TakeFault.NoMemory →
            (result ≡ history_take_answer self.old.config h)
            × StandsFor self.new (history_after_take self.old.config h) }
        ensures no_memory { result ≡ Err TakeFault.NoMemory → self.new ≡ self.old }
        ensures config { self.new.config ≡ self.old.config }
        ensures memory { result ≡ Err TakeFault.NoMemory → IsOk (state_take_answer self.old) }
    {
        match self.config.session {
            SessionMode::Snapshot => return Err(TakeFault::SnapshotMode),
            SessionMode::Local => {}
        }
        if self.ring.waiting() == 0 {
            return Err(TakeFault::Nothing);
        }
        Ok(self.move_oldest()?)
    }

    /// Moves the oldest sub-buffer that waits. All memory is taken before anything moves.
    fn move_oldest(&mut self) -> Result<Taken, AllocError>
        requires local { self.old.config.session ≡ SessionMode.Local }
        requires some { 0 < length self.old.ring.waiting }
        ensures answer { IfOk result (λ t. state_take_answer self.old ≡ Ok t) }
        ensures ok { OnOk result (self.new ≡ state_after_take self.old) }
        ensures err { OnErr result (self.new ≡ self.old) }
    {
        let Some(oldest) = self.ring.front() else {
            unreachable!()
        };
        let taken = Taken {
            seq: oldest.seq(),
            count: oldest.count() as u64,
            chunk: self.parts.current().id(),
        };
        move_to_part(
            self.alloc,
            &self.config,
            &mut self.ring,
            &mut self.spares,
            &mut self.parts,
        )?;
        self.counters.note_consumed(taken.count);
        Ok(taken)
    }

    /// Closes the current sub-buffer if it has a record, moves all that waits, as packets, to the current part, closes that
    /// part and begins the next one. A cut that is refused, also because an allocation failed, changes nothing. In a snapshot
    /// session every cut is refused.
    pub fn cut(&mut self, moment: Moment) -> Result<CutDone, CutFault>
        ensures value { result ≢ Err CutFault.NoMemory
            → (result ≡ state_cut_answer moment self.old) × (self.new ≡ state_after_cut moment self.old) }
        ensures step { (h : History) → StandsFor self.old h → result ≢ Err CutFault.NoMemory →
            (result ≡ history_cut_answer self.old.config moment h)
            × StandsFor self.new (history_after_cut self.old.config moment h) }
        ensures no_memory { result ≡ Err CutFault.NoMemory → self.new ≡ self.old }
        ensures config { self.new.config ≡ self.old.config }
        ensures memory { result ≡ Err CutFault.NoMemory → IsOk (state_cut_answer moment self.old) }
    {
        match self.config.session {
            SessionMode::Snapshot => return Err(CutFault::SnapshotMode),
            SessionMode::Local => {}
        }
        let end = self.counters.stored_moment(moment);
        Ok(self.cut_ring(end)?)
    }

    /// Moves all that the ring holds. All memory is taken before anything moves.
    fn cut_ring(&mut self, end: Moment) -> Result<CutDone, AllocError>
        requires local { self.old.config.session ≡ SessionMode.Local }
        requires later { self.old.counters.last ≤ end }
        ensures answer { IfOk result (λ d. d ≡ cut_done end self.old) }
        ensures ok { OnOk result (self.new ≡ state_cut_ring end self.old) }
        ensures err { OnErr result (self.new ≡ self.old) }
    {
        let done = CutDone {
            chunk: self.parts.current().id(),
            packets: used(&self.ring),
            records: self.in_ring(),
        };
        cut_into_part(
            self.alloc,
            &self.config,
            &mut self.ring,
            &mut self.spares,
            &mut self.parts,
            end,
            self.counters.offered(),
        )?;
        self.counters.note_consumed(done.records);
        self.counters.note_moment(end);
        Ok(done)
    }

    /// How many pages a take would have to make itself now: none or one.
    pub fn lacking_for_take(&self) -> usize {
        match self.ring.front() {
            Some(oldest) if self.takes() && self.spares.len() == 0 && !oldest.is_mostly_empty() =>
                1,
            _ => 0,
        }
    }

    /// How many pages a cut would have to make itself now, at most.
    pub fn lacking_for_cut(&self) -> usize {
        if !self.takes() {
            return 0;
        }
        let current = self.ring.current();
        let current = usize::from(!current.is_empty() && !current.is_mostly_empty());
        (self.ring.waiting() + current).saturating_sub(self.spares.len())
    }

    /// What is in the memory of the sub-buffer number `i` of those that wait, the oldest first, or of the current one after
    /// them: the text of a packet, or, as long as the current one has no record, bytes in which none is. A program that is
    /// killed leaves these.
    pub fn image(&self, i: usize) -> &[u8]
        ensures packet { (p : Contents) → slice_get (packets_standing self.now) i ≡ Some p → IsPacket p × (result.now ≡ packet_text p) }
        ensures none { length self.now.ring.waiting ≤ i → self.now.ring.current ≡ [] → content_bits_in result.now ≡ 0 }
    {
        self.ring.image(i)
    }

    /// Whether it is ever taken from or cut.
    fn takes(&self) -> bool {
        match self.config.session {
            SessionMode::Local => true,
            SessionMode::Snapshot => false,
        }
    }

    /// No pages yet, of the size of those in this stream's ring: to be made while nobody waits for the stream.
    pub fn no_spares(&self) -> Spares<A>
        ensures { result ≡ spares_state self.now.ring.size 0 }
    {
        Spares::new(self.alloc, self.ring.size())
    }

    /// Keeps pages for a take or a cut to put in the place of those that become packets, so that it takes no memory for them. What
    /// is shown doesn't change.
    pub fn keep_spares(&mut self, more: Spares<A>)
        ensures { self.new ≡ self.old }
    {
        self.spares.append(more);
    }

    /// Removes all records that the ring and the current part hold, and keeps the numbers and serials of their packets. What
    /// was discarded stays discarded, closed parts stay as they are, and no moment is stored. It takes memory only if there
    /// are packets. A clear that is refused, also because an allocation failed, changes nothing. In a snapshot session every
    /// clear is refused.
    pub fn clear(&mut self) -> Result<Cleared, ClearFault>
        ensures value { result ≢ Err ClearFault.NoMemory
            → (result ≡ state_clear_answer self.old) × (self.new ≡ state_after_clear self.old) }
        ensures step { (h : History) → StandsFor self.old h → result ≢ Err ClearFault.NoMemory →
            (result ≡ history_clear_answer self.old.config h)
            × StandsFor self.new (history_after_clear self.old.config h) }
        ensures no_memory { result ≡ Err ClearFault.NoMemory → self.new ≡ self.old }
        ensures config { self.new.config ≡ self.old.config }
        ensures memory { result ≡ Err ClearFault.NoMemory → ClearsSome (state_clear_answer self.old) }
    {
        let (cleared, _) = self.clear_out()?;
        Ok(cleared)
    }

    /// The same, and the packets come out, so that their memory is freed only when the caller drops them.
    pub fn clear_out(&mut self) -> Result<(Cleared, Removed<A>), ClearFault>
        ensures value { answer_of result ≢ Err ClearFault.NoMemory
            → (answer_of result ≡ state_clear_answer self.old) × (self.new ≡ state_after_clear self.old) }
        ensures step { (h : History) → StandsFor self.old h → answer_of result ≢ Err ClearFault.NoMemory →
            (answer_of result ≡ history_clear_answer self.old.config h)
            × StandsFor self.new (history_after_clear self.old.config h) }
        ensures no_memory { answer_of result ≡ Err ClearFault.NoMemory → self.new ≡ self.old }
        ensures config { self.new.config ≡ self.old.config }
        ensures memory { answer_of result ≡ Err ClearFault.NoMemory → ClearsSome (state_clear_answer self.old) }
    {
        match self.config.session {
            SessionMode::Snapshot => return Err(ClearFault::SnapshotMode),
            SessionMode::Local => {}
        }
        Ok(self.clear_ring()?)
    }

    /// Removes all that the ring and the current part hold. All memory is taken before anything moves, and none if there is
    /// nothing to remove.
    fn clear_ring(&mut self) -> Result<(Cleared, Removed<A>), AllocError>
        requires local { self.old.config.session ≡ SessionMode.Local }
        ensures answer { IfOk result (λ r. r.0 ≡ state_cleared self.old) }
        ensures ok { OnOk result (self.new ≡ state_clear_ring self.old) }
        ensures err { OnErr result (self.new ≡ self.old) }
        ensures memory { OnErr result ((state_cleared self.old).packets ≢ 0) }
    {
        let consumed = self.parts.current().records();
        let cleared = Cleared {
            packets: self.parts.current().packet_count() + used(&self.ring),
            records: consumed + self.in_ring(),
        };
        if cleared.packets == 0 {
            return Ok((cleared, Removed::new(Vec::new(self.alloc))));
        }
        let runs = ring_runs(self.alloc, &self.ring)?;
        let removed = Removed::new(self.parts.clear_out(runs)?);
        self.ring.clear();
        self.counters.note_cleared(cleared.records, consumed);
        Ok((cleared, removed))
    }

    /// Gives up the packets of closed part `k`, and keeps which serials each had: fates, counts and sizes are as before. The
    /// current part isn't closed. It takes memory only if the part has packets. A release that is refused, also because an
    /// allocation failed, changes nothing.
    pub fn release(&mut self, k: u64) -> Result<Released, ReleaseFault>
        ensures value { result ≢ Err ReleaseFault.NoMemory
            → (result ≡ state_release_answer k self.old) × (self.new ≡ state_after_release k self.old) }
        ensures step { (h : History) → StandsFor self.old h → result ≢ Err ReleaseFault.NoMemory →
            (result ≡ history_release_answer self.old.config k h)
            × StandsFor self.new (history_after_release k h) }
        ensures no_memory { result ≡ Err ReleaseFault.NoMemory → self.new ≡ self.old }
        ensures config { self.new.config ≡ self.old.config }
        ensures memory { result ≡ Err ReleaseFault.NoMemory → ReleasesSome (state_release_answer k self.old) }
    {
        let (released, _) = self.release_out(k)?;
        Ok(released)
    }

    /// The same, and the packets come out, so that their memory is freed only when the caller drops them.
    pub fn release_out(&mut self, k: u64) -> Result<(Released, Removed<A>), ReleaseFault>
        ensures value { answer_of result ≢ Err ReleaseFault.NoMemory
            → (answer_of result ≡ state_release_answer k self.old) × (self.new ≡ state_after_release k self.old) }
        ensures step { (h : History) → StandsFor self.old h → answer_of result ≢ Err ReleaseFault.NoMemory →
            (answer_of result ≡ history_release_answer self.old.config k h)
            × StandsFor self.new (history_after_release k h) }
        ensures no_memory { answer_of result ≡ Err ReleaseFault.NoMemory → self.new ≡ self.old }
        ensures config { self.new.config ≡ self.old.config }
        ensures memory { answer_of result ≡ Err ReleaseFault.NoMemory → ReleasesSome (state_release_answer k self.old) }
    {
        match self.releasable(k) {
            Ok(released) => Ok((released, self.release_closed(k, released)?)),
            Err(fault) => Err(fault),
        }
    }

    /// Gives up the packets of a closed part, which has these.
    fn release_closed(&mut self, k: u64, released: Released) -> Result<Removed<A>, AllocError>
        requires { state_release_answer k self.old ≡ Ok released }
        ensures ok { OnOk result (self.new ≡ state_after_release k self.old) }
        ensures err { OnErr result (self.new ≡ self.old) }
        ensures memory { OnErr result (released.packets ≢ 0) }
    {
        Ok(Removed::new(self.parts.release_out(k)?))
    }

    /// Forgets the closed parts below `k`, all of which were released: the runs of their packets go, and so does all that a part
    /// takes by itself. Counts stay as they are; of what was offered before part `k` began, a fate is only that it is forgotten.
    /// A forget that is refused, also because an allocation failed, changes nothing; but what it asks for has no bytes.
    pub fn forget(&mut self, k: u64) -> Result<(), ForgetFault>
        ensures value { result ≢ Err ForgetFault.NoMemory
            → (result ≡ state_forget_answer k self.old) × (self.new ≡ state_after_forget k self.old) }
        ensures step { (h : History) → StandsFor self.old h → result ≢ Err ForgetFault.NoMemory →
            (result ≡ history_forget_answer k h)
            × StandsFor self.new (history_after_forget k h) }
        ensures no_memory { result ≡ Err ForgetFault.NoMemory → self.new ≡ self.old }
        ensures memory { result ≡ Err ForgetFault.NoMemory → self.old.parts.forgotten < k }
        ensures config { self.new.config ≡ self.old.config }
    {
        match self.forget_refusal(k) {
            Some(fault) => Err(fault),
            None => Ok(self.forget_released(k)?),
        }
    }

    /// Forgets closed parts that were released.
    fn forget_released(&mut self, k: u64) -> Result<(), AllocError>
        requires { state_forget_refusal k self.old ≡ None }
        ensures ok { OnOk result (self.new ≡ state_after_forget k self.old) }
        ensures err { OnErr result (self.new ≡ self.old) }
        ensures memory { OnErr result (self.old.parts.forgotten < k) }
    {
        self.parts.forget(k)?;
        Ok(())
    }

    /// What the stream has now: how many offers it accepted, how many records it discarded, and copies of the packets that
    /// its ring holds, with the current sub-buffer's, as if it were closed at this moment, or at the last one if that is
    /// later. Nothing changes. It takes memory only if there are packets.
    pub fn peek(&self, moment: Moment) -> Result<StreamSnap<A>, AllocError>
        ensures value { IfOk result (λ snap. snap ≡ state_snap moment self.now) }
        ensures step { (h : History) → StandsFor self.now h
            → IfOk result (λ snap. snap ≡ history_snap self.now.config moment h) }
        ensures memory { OnErr result ((state_snap moment self.now).packets ≢ []) }
    {
        let end = self.counters.stored_moment(moment);
        let packets = ring_packets(self.alloc, self.config, &self.ring, end)?;
        let stream = self.config.number;
        Ok(StreamSnap::new(
            stream,
            self.counters.offered(),
            self.ring.discarded(),
            packets,
        ))
    }
}

impl<A: Allocator> Stream<A> {
    /// How many records the ring holds.
    fn in_ring(&self) -> u64
        ensures { result ≡ in_ring self.now.ring }
    {
        self.counters.offered()
            - self.ring.discarded()
            - self.counters.overwritten()
            - self.counters.cleared()
            - self.in_chunks()
    }

    /// How many records the parts hold.
    fn in_chunks(&self) -> u64
        ensures { result ≡ in_parts self.now.parts }
    {
        self.counters.consumed() - self.counters.withdrawn()
    }

    /// Why an offer of `len` bytes is refused, if it is.
    fn refusal(&self, len: usize) -> Option<OfferFault>
        ensures value { result ≡ refusal_of len self.now }
        ensures sound { IsSound self.now }
    {
        if !self.active {
            return Some(OfferFault::Inactive);
        }
        if len > self.config.geometry.size() - SMALLEST_PACKET {
            return Some(OfferFault::TooBig);
        }
        if self.counters.offered() >= MOST_OFFERS {
            return Some(OfferFault::Spent);
        }
        None
    }

    /// What closed part `k` would give up, or why it can't be released.
    fn releasable(&self, k: u64) -> Result<Released, ReleaseFault>
        ensures value { result ≡ state_release_answer k self.now }
        ensures reason { result ≢ Err ReleaseFault.NoMemory }
    {
        if k >= self.parts.cuts() {
            return Err(ReleaseFault::NoPart);
        }
        if k < self.parts.forgotten() {
            return Err(ReleaseFault::Released);
        }
        let Some(part) = self.part(k) else {
            unreachable!()
        };
        if part.is_released() {
            return Err(ReleaseFault::Released);
        }
        Ok(Released {
            packets: part.packet_count(),
            records: part.records(),
            bytes: part.bytes(),
        })
    }

    /// Why the parts below `k` can't be forgotten, if so.
    fn forget_refusal(&self, k: u64) -> Option<ForgetFault>
        ensures { result ≡ state_forget_refusal k self.now }
    {
        if k > self.parts.cuts() {
            return Some(ForgetFault::NoPart);
        }
        for at in self.parts.forgotten()..k {
            if !self.is_released(at) {
                return Some(ForgetFault::Held);
            }
        }
        None
    }

    /// Whether closed part `k`, which isn't forgotten, was released.
    fn is_released(&self, k: u64) -> bool
        requires closed { k < length self.now.parts.closed }
        requires known { self.now.parts.forgotten ≤ k }
        ensures { result ≡ is_part_released k self.now }
    {
        let Some(part) = self.part(k) else {
            unreachable!()
        };
        part.is_released()
    }

    /// Lets the stream take offers, or makes it refuse them.
    pub fn set_active(&mut self, active: bool)
        ensures value { self.new ≡ state_after_switch active self.old }
        ensures step { (h : History) → StandsFor self.old h → StandsFor self.new (history_after_switch active h) }
    {
        self.active = active;
    }

    /// How many records were offered, and where they are.
    pub fn counts(&self) -> Counts
        ensures value { result ≡ state_counts self.now }
        ensures step { (h : History) → StandsFor self.now h → result ≡ history_counts self.now.config h }
        ensures total { result.discarded + result.overwritten + result.cleared + result.in_ring + result.in_chunks ≡ result.offered }
        ensures consumed { result.in_chunks + result.withdrawn ≡ result.consumed }
        ensures withdrawn { result.withdrawn ≤ result.cleared }
        ensures snapshot_session { self.now.config.session ≡ SessionMode.Snapshot
            → (result.consumed ≡ 0) × (result.cleared ≡ 0) }
        ensures consistent { IsConsistent self.now }
    {
        Counts {
            offered: self.counters.offered(),
            discarded: self.ring.discarded(),
            overwritten: self.counters.overwritten(),
            overwritten_packets: self.counters.overwritten_packets(),
            in_ring: self.in_ring(),
            consumed: self.counters.consumed(),
            in_chunks: self.in_chunks(),
            cleared: self.counters.cleared(),
            withdrawn: self.counters.withdrawn(),
            cuts: self.parts.cuts(),
            current_bytes: u64::try_from(self.parts.current().bytes()).unwrap_or(u64::MAX),
        }
    }

    /// The part of trace chunk `k`: a closed one, or the current one after them. None if no such chunk was begun, or if the part is
    /// forgotten.
    pub fn part(&self, k: u64) -> Option<&Part<A>>
        ensures value { option_copied result ≡ part_known k self.now.parts }
        ensures step { (h : History) → StandsFor self.now h → option_copied result ≡ part_known_in self.now.config k h }
        ensures forgetful { IsForgetful self.now.parts }
    {
        // (read for the proof, which learns that what is forgotten was released)
        let _ = self.parts.forgotten();
        self.parts.part(k)
    }

    /// The same where no part of the stream is forgotten: none only if no such chunk was begun.
    pub fn kept_part(&self, chunk: u64) -> Option<&Part<A>>
        requires { self.now.parts.forgotten ≡ 0 }
        ensures { option_copied result ≡ part_at chunk self.now.parts }
    {
        self.part(chunk)
    }

    /// What became of the accepted offer with this serial. None if there was no such offer yet.
    pub fn fate_of(&self, serial: u64) -> Option<Fate>
        ensures value { result ≡ state_fate serial self.now }
        ensures step { (h : History) → StandsFor self.now h → result ≡ history_fate serial h }
    {
        if serial >= self.counters.offered() {
            return None;
        }
        if serial < self.parts.known_from() {
            return Some(Fate::Forgotten);
        }
        match self.held_fate(serial) {
            Some(fate) => Some(fate),
            None => Some(loss(self.config.mode)),
        }
    }

    /// The trace chunk that the record with this serial is in, if it is in one: only one part can have it, by where parts
    /// began.
    fn chunk_fate(&self, serial: u64) -> Option<Fate>
        requires { known_from self.now.parts ≤ serial }
        ensures { result ≡ fate_in_parts serial (all_parts self.now.parts) }
    {
        // (read for the proof, which learns that no more parts are forgotten than are closed)
        let _ = self.parts.forgotten();
        let Some(part) = self.parts.part(self.parts.place_of(serial)) else {
            unreachable!()
        };
        match part.search(serial) {
            Some(seq) => Some(Fate::InChunk {
                chunk: part.id(),
                seq,
            }),
            None => None,
        }
    }

    /// Where the record with this serial is held, or was cleared, if anywhere.
    fn held_fate(&self, serial: u64) -> Option<Fate>
        requires { known_from self.now.parts ≤ serial }
        ensures { result ≡ held_fate serial self.now }
    {
        if let Some(fate) = self.chunk_fate(serial) {
            return Some(fate);
        }
        if let Some(seq) = self.parts.seq_cleared(serial) {
            return Some(Fate::Cleared { seq });
        }
        match seq_in_ring(&self.ring, serial) {
            Some(seq) => Some(Fate::InRing { seq }),
            None => None,
        }
    }

    /// The record number `k` of those that the ring holds, the oldest first, from 0 on. None if it holds no more than `k`. It
    /// takes no memory.
    pub fn ring_at(&self, k: u64) -> Option<RecView<'_>>
        ensures value { result ≡ slice_get (ring_records self.now.ring) k }
        ensures step { (h : History) → StandsFor self.now h → result ≡ slice_get (history_ring h) k }
    {
        self.ring.record(k)
    }

    /// Does nothing, and shows what every stream keeps.
    pub fn shows_kept(&self)
        ensures kept { IsKept self.now }
        ensures consistent { IsConsistent self.now }
    {
        // an invariant is known where a field is used
        let _ = &self.config;
    }

    /// What the stream was made with.
    pub fn config(&self) -> StreamConfig
        ensures value { result ≡ self.now.config }
        ensures kept { IsKept self.now }
        ensures consistent { IsConsistent self.now }
    {
        self.config
    }
}
