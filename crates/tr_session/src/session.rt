//! A session, and its rules.

ghost use Rattle.std.specs.Prelude.{◌≡◌, ◌≢◌, ◌≤◌, ◌<◌, [], true, false, None, Some, Ok, Err, IsOk, IfSome, IfOk, OnOk, IfErr, OnErr, length, map, option_copied, slice_get};
ghost use Rattle.tr_session_book.specs.BookSteps.{channel_named, thread_place, book_start_answer, book_after_start, book_stop_answer, book_after_stop, book_switch_answer, book_rotate_begin_answer, cut_moment, book_rotate_finish_answer, book_snapshot_begin_answer, book_after_snapshot_begin, book_schedule_answer, book_after_schedule};
ghost use Rattle.tr_session.specs.Session.{HasArchivedParts, HasItsStreams, IsStreamOf, new_session, session_of};
ghost use Rattle.tr_session.specs.Steps.{session_add_channel, session_add_thread, session_declare, session_offer_answer, session_after_offer, stream_offer_answer, stream_after_offer, session_take_answer, session_after_take, session_cut_answer, session_after_cut, session_clear_answer, session_after_clear, ClearsPackets, session_release_answer, session_after_release, ReleasesPackets, session_snap_answer, ShowsPackets, session_after_switch, session_after_start, session_after_stop, session_after_rotate_begin, session_after_rotate_finish, current_sizes, session_fate_answer};
ghost use Rattle.tr_stream.specs.Rules.{by_state};
ghost use Rattle.tr_stream.specs.StateSteps.{state_snap};
ghost use Rattle.tr_terms.specs.declared.limits.TheConstants.{MOST_STREAMS};

use crate::faults::StepFault;
use crate::streams::{
    clear_at, cut_at, offer_at, release_at, sizes_of, snap_all, switch, switch_at, take_at,
};
use std::alloc::{AllocError, Allocator, Global};
use std::marker::Model;
use tr_book::StreamSnap;
use tr_events::Events;
use tr_schedule::Schedule;
use tr_session_book::{Archive, Channel, SessionBook, SessionFault};
use tr_stream::{
    Cleared, CutDone, CutFault, Fate, OfferFault, Offered, Released, Stream, TakeFault, Taken,
};
use tr_terms::{Mode, Moment, Name, OffsetMinutes, SessionMode};
use uuid::Uuid;

/// A session: its book, and its streams by number. Contracts see a `SessionOf StreamState`.
#[derive(Drop)]
pub struct Session<A: Allocator = Global> {
    alloc: A,
    book: SessionBook<A>,
    streams: Vec<Stream<A>, A>,
}

impl<A: Allocator> Model for Session<A> {
    ghost use Rattle.tr_session.specs.Session.{SessionOf, session_of};
    ghost use Rattle.tr_stream.specs.State.{StreamState};

    ghost Value = { SessionOf StreamState };

    ghost view = { λ s. session_of s.book s.streams.items };

    ghost use Rattle.tr_session.specs.Session.{HasItsStreams};

    // each thread of the book has its stream
    ghost invariant = { λ s. HasItsStreams (session_of s.book s.streams.items) };
}

impl<A: Allocator + Copy> Session<A> {
    /// A session without channels and streams. It takes no memory.
    pub fn new(alloc: A, uuid: Uuid, offset: OffsetMinutes, mode: SessionMode) -> Session<A>
        ensures { result ≡ new_session uuid offset mode }
    {
        Session {
            alloc,
            book: SessionBook::new(alloc, uuid, offset, mode),
            streams: Vec::new(alloc),
        }
    }

    /// A session of a book and its streams, in order of number. It takes no memory.
    pub fn from_parts(alloc: A, book: SessionBook<A>, streams: Vec<Stream<A>, A>) -> Session<A>
        requires { HasItsStreams (session_of book streams.items) }
        ensures { result ≡ session_of book streams.items }
    {
        Session {
            alloc,
            book,
            streams,
        }
    }

    /// Its book and its streams, in order of number. It takes no memory.
    pub fn into_parts(self) -> (SessionBook<A>, Vec<Stream<A>, A>)
        ensures value { session_of result.0 result.1.items ≡ self }
        ensures own { HasItsStreams self }
    {
        let Session {
            alloc: _,
            book,
            streams,
        } = self;
        (book, streams)
    }

    /// Adds a channel, whose streams have rings of `count` sub-buffers of `size` bytes each.
    ///
    /// # Errors
    ///
    /// `AlreadyStarted`, `NameTaken`, `TooMany`, `BadGeometry`, `DiscardInSnapshot`, `NoMemory`: nothing changed.
    pub fn add_channel(
        &mut self,
        name: &Name<'_>,
        size: u64,
        count: u64,
        mode: Mode,
    ) -> Result<(), SessionFault>
        ensures ok { OnOk result (session_add_channel name.now size count mode self.old ≡ Ok self.new) }
        ensures refused { IfErr result
            (λ fault. fault ≢ SessionFault.NoMemory
            → session_add_channel name.now size count mode self.old ≡ Err fault) }
        ensures memory { result ≡ Err SessionFault.NoMemory
            → IsOk (session_add_channel name.now size count mode self.old) }
        ensures unchanged { OnErr result (self.new ≡ self.old) }
    {
        self.book.add_channel(name, size, count, mode)
    }

    /// Declares a copy of these events, and no others: those that were declared before are gone. From now on an offer of a
    /// declared id is refused unless its payload fits.
    ///
    /// # Errors
    ///
    /// `AlreadyStarted`, `NoMemory`: nothing changed.
    pub fn declare<B: Allocator>(&mut self, events: &Events<B>) -> Result<(), SessionFault>
        ensures ok { OnOk result (session_declare events.now self.old ≡ Ok self.new) }
        ensures refused { IfErr result
            (λ fault. fault ≢ SessionFault.NoMemory → session_declare events.now self.old ≡ Err fault) }
        ensures memory { result ≡ Err SessionFault.NoMemory → IsOk (session_declare events.now self.old) }
        ensures unchanged { OnErr result (self.new ≡ self.old) }
    {
        self.book.declare(events)
    }

    /// Adds a thread to a channel, and answers with the number of its stream. Its ring takes all its memory here: for each
    /// sub-buffer its size less a packet's header.
    ///
    /// # Errors
    ///
    /// `AlreadyStarted`, `NoChannel`, `TooMany`, `NoMemory`: nothing changed.
    pub fn add_thread(&mut self, channel: &str) -> Result<u64, SessionFault>
        ensures number { IfOk result (λ number. number ≡ length self.old.streams) }
        ensures ok { OnOk result (session_add_thread by_state channel.now self.old ≡ Ok self.new) }
        ensures refused { IfErr result
            (λ fault. fault ≢ SessionFault.NoMemory → session_add_thread by_state channel.now self.old ≡ Err fault) }
        ensures memory { result ≡ Err SessionFault.NoMemory
            → IsOk (session_add_thread by_state channel.now self.old) }
        ensures unchanged { OnErr result (self.new ≡ self.old) }
    {
        let made = self.book.thread_channel(channel)?;
        self.keep_stream(channel, made)
    }

    /// Adds a thread to the channel of this name, which exists. All memory is taken before anything changes.
    fn keep_stream(&mut self, name: &str, channel: Channel) -> Result<u64, SessionFault>
        requires named { channel_named name.now self.old.book ≡ Some channel }
        requires placed { IsOk (thread_place name.now self.old.book) }
        requires bare { (self.old.book.pending ≡ None) × (self.old.book.archives ≡ []) }
        ensures number { IfOk result (λ number. number ≡ length self.old.streams) }
        ensures ok { OnOk result (session_add_thread by_state name.now self.old ≡ Ok self.new) }
        ensures reason { IfErr result (λ fault. fault ≡ SessionFault.NoMemory) }
        ensures able { IsOk (session_add_thread by_state name.now self.old) }
        ensures unchanged { OnErr result (self.new ≡ self.old) }
    {
        let stream = Stream::new(
            self.alloc,
            self.book.uuid(),
            self.streams.len() as u64,
            channel.geometry,
            channel.mode,
            self.book.mode(),
        )?;
        if let Err(fault) = self.streams.reserve(1) {
            drop(stream);
            return Err(SessionFault::from(fault));
        }
        match self.book.add_thread(name) {
            Ok(number) => {
                self.streams.push_reserved(stream);
                Ok(number)
            }
            Err(fault) => {
                drop(stream);
                Err(fault)
            }
        }
    }

    /// Offers a record to the stream of this number. It takes no memory.
    ///
    /// # Errors
    ///
    /// `Offer(OtherLayout)` if the record's id is declared and its payload doesn't fit, which is tried before the stream is looked
    /// for; `Session(NoStream)`, and those of the stream: nothing changed.
    pub fn offer(
        &mut self,
        i: u64,
        moment: Moment,
        id: u32,
        payload: &[u8],
    ) -> Result<Offered, StepFault>
        ensures answer { result ≡ session_offer_answer by_state i moment id payload.now self.old }
        ensures after { self.new ≡ session_after_offer by_state i moment id payload.now self.old }
    {
        if !self.book.fits(id, payload) {
            return Err(StepFault::Offer(OfferFault::OtherLayout));
        }
        self.offer_fitting(i, moment, id, payload)
    }

    /// Offers a record that fits as declared.
    #[inline(always)]
    fn offer_fitting(
        &mut self,
        i: u64,
        moment: Moment,
        id: u32,
        payload: &[u8],
    ) -> Result<Offered, StepFault>
        ensures answer { result ≡ stream_offer_answer by_state i moment id payload.now self.old }
        ensures after { self.new ≡ stream_after_offer by_state i moment id payload.now self.old }
    {
        offer_at(&mut self.streams, i, moment, id, payload)
    }

    /// Moves the oldest packet of the stream of this number to its current part.
    ///
    /// # Errors
    ///
    /// `Session(NoStream)`, and those of the stream: nothing changed.
    pub fn take(&mut self, i: u64) -> Result<Taken, StepFault>
        ensures value { result ≢ Err (StepFault.Take TakeFault.NoMemory) →
            (result ≡ session_take_answer by_state i self.old)
            × (self.new ≡ session_after_take by_state i self.old) }
        ensures no_memory { result ≡ Err (StepFault.Take TakeFault.NoMemory) → self.new ≡ self.old }
        ensures memory { result ≡ Err (StepFault.Take TakeFault.NoMemory)
            → IsOk (session_take_answer by_state i self.old) }
    {
        take_at(&mut self.streams, i)
    }

    /// Cuts the stream of this number in the pending rotation, at that rotation's end. Streams are cut in order of number.
    ///
    /// # Errors
    ///
    /// `Session(NoStream)`, `Session(NotPending)` if no rotation is pending or it has already cut the stream,
    /// `Session(CutMissing)` if a stream with a smaller number isn't cut, `Cut(NoMemory)`: the stream is uncut, the rotation
    /// pending.
    pub fn cut(&mut self, i: u64) -> Result<CutDone, StepFault>
        ensures value { result ≢ Err (StepFault.Cut CutFault.NoMemory) →
            (result ≡ session_cut_answer by_state i self.old) × (self.new ≡ session_after_cut by_state i self.old) }
        ensures no_memory { result ≡ Err (StepFault.Cut CutFault.NoMemory) → self.new ≡ self.old }
        ensures memory { result ≡ Err (StepFault.Cut CutFault.NoMemory)
            → IsOk (session_cut_answer by_state i self.old) }
    {
        match self.book.cut_moment(i) {
            Ok(moment) => self.cut_now(i, moment),
            Err(fault) => Err(StepFault::Session(fault)),
        }
    }

    /// Cuts a stream whose cut is due.
    fn cut_now(&mut self, i: u64, moment: Moment) -> Result<CutDone, StepFault>
        requires due { cut_moment i self.old.book ≡ Ok moment }
        requires local { self.old.book.mode ≡ SessionMode.Local }
        ensures value { result ≢ Err (StepFault.Cut CutFault.NoMemory) →
            (result ≡ session_cut_answer by_state i self.old) × (self.new ≡ session_after_cut by_state i self.old) }
        ensures no_memory { result ≡ Err (StepFault.Cut CutFault.NoMemory) → self.new ≡ self.old }
        ensures can { IsOk (session_cut_answer by_state i self.old) }
    {
        match cut_at(&mut self.streams, i, moment) {
            Ok(done) => {
                // The cut was due, so this isn't refused.
                let _ = self.book.note_cut(i);
                Ok(done)
            }
            Err(fault) => Err(StepFault::Cut(fault)),
        }
    }

    /// Clears the stream of this number: what its ring and its current part hold is removed. It takes memory only if these
    /// have packets.
    ///
    /// # Errors
    ///
    /// `NoStream`, `SnapshotMode`, `NeverStarted`, `RotationPending`, `NoMemory`: nothing changed.
    pub fn clear_stream(&mut self, i: u64) -> Result<Cleared, SessionFault>
        ensures value { result ≢ Err SessionFault.NoMemory →
            (result ≡ session_clear_answer by_state i self.old)
            × (self.new ≡ session_after_clear by_state i self.old) }
        ensures no_memory { result ≡ Err SessionFault.NoMemory → self.new ≡ self.old }
        ensures memory { result ≡ Err SessionFault.NoMemory
            → ClearsPackets (session_clear_answer by_state i self.old) }
    {
        if i >= self.streams() {
            return Err(SessionFault::NoStream);
        }
        match self.book.clear_allowed() {
            Ok(()) => clear_at(&mut self.streams, i),
            Err(fault) => Err(fault),
        }
    }

    /// Gives up the packets of a stream's part of an archive. What became of their records is answered as before. It takes
    /// memory only if the part has packets.
    ///
    /// # Errors
    ///
    /// `NoStream`, `NoArchive`, `Released`, `NoMemory`: nothing changed.
    pub fn release_stream(&mut self, i: u64, k: u64) -> Result<Released, SessionFault>
        ensures value { result ≢ Err SessionFault.NoMemory →
            (result ≡ session_release_answer by_state i k self.old)
            × (self.new ≡ session_after_release by_state i k self.old) }
        ensures no_memory { result ≡ Err SessionFault.NoMemory → self.new ≡ self.old }
        ensures memory { result ≡ Err SessionFault.NoMemory
            → ReleasesPackets (session_release_answer by_state i k self.old) }
    {
        if i >= self.streams() {
            return Err(SessionFault::NoStream);
        }
        match self.book.release_allowed(k) {
            Ok(()) => release_at(&mut self.streams, i, k),
            Err(fault) => Err(fault),
        }
    }

    /// The stream of this number as it is at this moment, or at its last one if that is later. Nothing changes.
    ///
    /// # Errors
    ///
    /// `NoStream`, `NotSnapshotMode`, `NeverStarted`; `NoMemory` only if there are packets to show.
    pub fn snap(&self, i: u64, moment: Moment) -> Result<StreamSnap<A>, SessionFault>
        ensures value { result ≢ Err SessionFault.NoMemory
            → result ≡ session_snap_answer by_state i moment self.now }
        ensures memory { result ≡ Err SessionFault.NoMemory
            → ShowsPackets (session_snap_answer by_state i moment self.now) }
    {
        if let Err(fault) = self.book.can_snap(i) {
            return Err(fault);
        }
        let Some(stream) = self.stream(i) else {
            return Err(SessionFault::NoStream);
        };
        Ok(stream.peek(moment)?)
    }

    /// Each stream as it is at this moment.
    pub(crate) fn snap_streams(&self, moment: Moment) -> Result<Vec<StreamSnap<A>, A>, AllocError>
        ensures { IfOk result (λ snaps. snaps.items ≡ map (state_snap moment) self.now.streams) }
    {
        snap_all(self.alloc, &self.streams, moment)
    }

    /// The bytes of each stream's current part, or the greatest u64 if they are more.
    pub(crate) fn current_sizes(&self) -> Result<Vec<u64, A>, AllocError>
        ensures { IfOk result (λ sizes. sizes.items ≡ current_sizes by_state self.now) }
    {
        sizes_of(self.alloc, &self.streams)
    }

    /// Begins a rotation at a moment, and answers with the number of the chunk that it archives.
    ///
    /// # Errors
    ///
    /// `SnapshotMode`, `NeverStarted`, `RotationPending`, `AlreadyRotated`, `NoMemory`: nothing changed.
    pub fn rotate_begin(&mut self, moment: Moment) -> Result<u64, SessionFault>
        ensures value { result ≢ Err SessionFault.NoMemory →
            (result ≡ book_rotate_begin_answer self.old.book)
            × (self.new ≡ session_after_rotate_begin moment self.old) }
        ensures no_memory { result ≡ Err SessionFault.NoMemory → self.new ≡ self.old }
        ensures memory { result ≡ Err SessionFault.NoMemory → IsOk (book_rotate_begin_answer self.old.book) }
    {
        self.book.rotate_begin(moment)
    }
}

impl<A: Allocator> Session<A> {
    /// Lets a stream of an active session take offers, or makes one of a stopped session refuse them. It takes no memory.
    ///
    /// # Errors
    ///
    /// `NoStream`; `NotActive` to switch it on, `AlreadyActive` to switch it off: nothing changed.
    pub fn switch_stream(&mut self, active: bool, i: u64) -> Result<(), SessionFault>
        ensures answer { result ≡ book_switch_answer active i self.old.book }
        ensures after { self.new ≡ session_after_switch by_state active i self.old }
    {
        match self.book.can_switch(active, i) {
            Ok(()) => {
                switch_at(&mut self.streams, active, i as usize);
                Ok(())
            }
            Err(fault) => Err(fault),
        }
    }

    /// Starts the session, but none of its streams yet.
    pub(crate) fn start_alone(&mut self, moment: Moment) -> Result<(), SessionFault>
        ensures answer { result ≡ book_start_answer self.old.book }
        ensures after { self.new ≡ record self.old { book = book_after_start moment self.old.book } }
    {
        self.book.start(moment)
    }

    /// Stops the session, but none of its streams yet.
    pub(crate) fn stop_alone(&mut self) -> Result<(), SessionFault>
        ensures answer { result ≡ book_stop_answer self.old.book }
        ensures after { self.new ≡ record self.old { book = book_after_stop self.old.book } }
    {
        self.book.stop()
    }

    /// Starts the session and then each of its streams: they take offers from now on. It takes no memory.
    ///
    /// # Errors
    ///
    /// `RotationPending`, `AlreadyActive`: nothing changed.
    pub fn start(&mut self, moment: Moment) -> Result<(), SessionFault>
        ensures answer { result ≡ book_start_answer self.old.book }
        ensures after { self.new ≡ session_after_start by_state moment self.old }
    {
        match self.book.start(moment) {
            Ok(()) => {
                switch(&mut self.streams, true);
                Ok(())
            }
            Err(fault) => Err(fault),
        }
    }

    /// Stops the session and then each of its streams: they take no offers from now on. It takes no memory.
    ///
    /// # Errors
    ///
    /// `RotationPending`, `NotActive`: nothing changed.
    pub fn stop(&mut self) -> Result<(), SessionFault>
        ensures answer { result ≡ book_stop_answer self.old.book }
        ensures after { self.new ≡ session_after_stop by_state self.old }
    {
        match self.book.stop() {
            Ok(()) => {
                switch(&mut self.streams, false);
                Ok(())
            }
            Err(fault) => Err(fault),
        }
    }

    /// Ends the pending rotation, and answers with the archive that it made. It takes no memory.
    ///
    /// # Errors
    ///
    /// `NotPending`, `CutMissing`: nothing changed.
    pub fn rotate_finish(&mut self) -> Result<Archive, SessionFault>
        ensures answer { result ≡ book_rotate_finish_answer self.old.book }
        ensures after { self.new ≡ session_after_rotate_finish self.old }
    {
        self.book.rotate_finish()
    }

    /// Begins a snapshot: stores its moment, or keeps the last one if that is later, and answers with what is stored. It
    /// takes no memory.
    ///
    /// # Errors
    ///
    /// `NotSnapshotMode`, `NeverStarted`: nothing changed.
    pub fn snapshot_begin(&mut self, moment: Moment) -> Result<Moment, SessionFault>
        ensures answer { result ≡ book_snapshot_begin_answer moment self.old.book }
        ensures after { self.new ≡ record self.old { book = book_after_snapshot_begin moment self.old.book } }
    {
        self.book.snapshot_begin(moment)
    }

    /// Sets when rotations are due: by this schedule, or never. It takes no memory.
    ///
    /// # Errors
    ///
    /// `SnapshotMode`: nothing changed.
    pub fn set_schedule(&mut self, schedule: Option<Schedule>) -> Result<(), SessionFault>
        ensures answer { result ≡ book_schedule_answer self.old.book }
        ensures after { self.new ≡ record self.old { book = book_after_schedule schedule self.old.book } }
    {
        self.book.set_schedule(schedule)
    }

    /// What became of the offer with this serial to the stream of this number. None if there was no such offer yet.
    ///
    /// # Errors
    ///
    /// `Session(NoStream)`. It takes no memory.
    pub fn fate_of(&self, i: u64, serial: u64) -> Result<Option<Fate>, StepFault>
        ensures { result ≡ session_fate_answer by_state i serial self.now }
    {
        match self.stream(i) {
            Some(stream) => Ok(stream.fate_of(serial)),
            None => Err(StepFault::Session(SessionFault::NoStream)),
        }
    }

    /// What the session keeps beside its streams.
    pub fn book(&self) -> &SessionBook<A>
        ensures { result.now ≡ self.now.book }
    {
        &self.book
    }

    /// How many streams there are.
    pub fn streams(&self) -> u64
        ensures value { result ≡ length self.now.streams }
        ensures threads { result ≡ length self.now.book.threads }
        ensures within { result ≤ MOST_STREAMS }
        ensures own { HasItsStreams self.now }
    {
        self.book.streams() as u64
    }

    /// The stream of this number, if any. It has a part for each archived chunk.
    pub fn stream(&self, i: u64) -> Option<&Stream<A>>
        ensures value { option_copied result ≡ slice_get self.now.streams i }
        ensures is { IfSome result (λ t. IsStreamOf self.now.book i t.now) }
        ensures archived { IfSome result (λ t. HasArchivedParts self.now.book t.now) }
    {
        self.streams.get(i as usize)
    }
}
