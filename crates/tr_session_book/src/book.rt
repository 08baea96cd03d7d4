//! The book of a session: what it keeps beside its streams.

ghost use Rattle.std.specs.Prelude.{◌≡◌, ◌≢◌, ◌+◌, ◌<◌, ◌^◌, [], false, None, Some, Ok, Err, IsOk, IfOk, OnOk, IfErr, OnErr, is_some, length};
ghost use Rattle.tr_session_book.specs.Book.{new_book};
ghost use Rattle.tr_session_book.specs.BookSteps.{is_new, channel_named, book_add_channel, with_channel, thread_place, book_add_thread, with_thread, book_start_answer, book_after_start, book_stop_answer, book_after_stop, book_switch_answer, book_rotate_begin_answer, with_pending, book_after_rotate_begin, cut_moment, with_cut, book_note_cut_answer, book_after_note_cut, book_rotate_finish_answer, book_after_rotate_finish, is_allowed};
ghost use Rattle.tr_terms.specs.declared.limits.TheConstants.{MOST_CHANNELS, MOST_STREAMS};

use crate::archive::{Archive, Pending};
use crate::channel::Channel;
use crate::faults::SessionFault;
use crate::state::State;
use indexmap::IndexMap;
use std::alloc::{AllocError, Allocator, Global};
use std::hash::{BuildHasherDefault, FoldHasher};
use std::marker::Model;
use tr_events::Events;
use tr_schedule::Schedule;
use tr_terms::limits::{MOST_CHANNELS, MOST_STREAMS};
use tr_terms::{Geometry, Mode, Moment, Name, OffsetMinutes, SessionMode};
use uuid::Uuid;

mod clears;
mod declaring;
mod readers;
mod releases;
mod schedules;
mod snapshots;

/// Whether a session of this mode may have a channel of that mode: in a snapshot session every ring overwrites.
fn is_allowed(session: SessionMode, mode: Mode) -> bool
    ensures { result ≡ is_allowed session mode }
{
    match (session, mode) {
        (SessionMode::Snapshot, Mode::Discard) => false,
        _ => true,
    }
}

/// What a session keeps beside its streams: its channels and the threads that were added to them, the events that it declares,
/// what it allows, its rotations and its archives. Contracts see a `SessionBookState`.
#[derive(Drop)]
pub struct SessionBook<A: Allocator = Global> {
    alloc: A,
    uuid: Uuid,
    offset: OffsetMinutes,
    mode: SessionMode,
    state: State,
    rotated: bool,
    last: Moment,
    begin: Moment,
    channels: IndexMap<String<A>, Channel, BuildHasherDefault<FoldHasher>, A>,
    threads: Vec<usize, A>,
    pending: Option<Pending>,
    archives: Vec<Archive, A>,
    schedule: Option<Schedule>,
    events: Events<A>,
}

impl<A: Allocator> Model for SessionBook<A> {
    ghost use Rattle.tr_session_book.specs.Book.{SessionBookState, session_book_state};
    ghost use Rattle.tr_session_book.specs.Names.{by_name};

    ghost Value = { SessionBookState };

    ghost view = { λ b. session_book_state b.uuid b.offset b.mode b.state b.rotated b.last b.begin
        (by_name b.channels.entries) b.threads.items b.pending b.archives.items b.schedule b.events };

    ghost use Rattle.std.specs.Prelude.{◌≡◌, ◌<◌, true, is_some, vec_capacity, vec_len};
    ghost use Rattle.tr_session_book.specs.BookSteps.{IsBook};

    // room for the pending archive is reserved
    ghost invariant = { λ b.
        (is_some b.pending ≡ true → vec_len b.archives < vec_capacity b.archives)
        × IsBook (session_book_state b.uuid b.offset b.mode b.state b.rotated b.last b.begin
        (by_name b.channels.entries) b.threads.items b.pending b.archives.items b.schedule b.events) };
}

impl<A: Allocator + Copy> SessionBook<A> {
    /// A book in which nothing is noted. It takes no memory.
    pub fn new(alloc: A, uuid: Uuid, offset: OffsetMinutes, mode: SessionMode) -> SessionBook<A>
        ensures { result ≡ new_book uuid offset mode }
    {
        SessionBook {
            alloc,
            uuid,
            offset,
            mode,
            state: State::New,
            rotated: false,
            last: Moment::zero(),
            begin: Moment::zero(),
            channels: IndexMap::new(alloc),
            threads: Vec::new(alloc),
            pending: None,
            archives: Vec::new(alloc),
            schedule: None,
            events: Events::none(alloc),
        }
    }

    /// Adds a channel, whose streams have rings of `count` sub-buffers of `size` bytes each.
    ///
    /// # Errors
    ///
    /// `AlreadyStarted`, `NameTaken`, `TooMany`, `BadGeometry`, `DiscardInSnapshot`, `NoMemory`: nothing changed.
    pub fn add_channel(
        &mut self,
        name: &Name<'_>,
        size: u64,
        count: u64,
        mode: Mode,
    ) -> Result<(), SessionFault>
        ensures ok { OnOk result (book_add_channel name.now size count mode self.old ≡ Ok self.new) }
        ensures refused { IfErr result
            (λ fault. fault ≢ SessionFault.NoMemory
            → book_add_channel name.now size count mode self.old ≡ Err fault) }
        ensures memory { result ≡ Err SessionFault.NoMemory
            → IsOk (book_add_channel name.now size count mode self.old) }
        ensures streams { self.new.threads ≡ self.old.threads }
        ensures mode { self.new.mode ≡ self.old.mode }
        ensures unchanged { OnErr result (self.new ≡ self.old) }
    {
        let channel = self.channel_for(name, size, count, mode)?;
        Ok(self.keep_channel(name, channel)?)
    }

    /// Adds a channel with a new name after the others.
    fn keep_channel(&mut self, name: &Name<'_>, channel: Channel) -> Result<(), AllocError>
        requires free { is_some (channel_named name.now self.old) ≡ false }
        requires room { length self.old.channels < MOST_CHANNELS }
        ensures ok { OnOk result (self.new ≡ with_channel name.now channel self.old) }
        ensures err { OnErr result (self.new ≡ self.old) }
    {
        let name = String::from_str(self.alloc, name.as_str())?;
        self.channels.insert(name, channel)?;
        Ok(())
    }

    /// Notes a thread of a channel, and answers with the number of its stream.
    ///
    /// # Errors
    ///
    /// `AlreadyStarted`, `NoChannel`, `TooMany`, `NoMemory`: nothing changed.
    pub fn add_thread(&mut self, channel: &str) -> Result<u64, SessionFault>
        ensures number { IfOk result (λ number. number ≡ length self.old.threads) }
        ensures ok { OnOk result (book_add_thread channel.now self.old ≡ Ok self.new) }
        ensures refused { IfErr result
            (λ fault. fault ≢ SessionFault.NoMemory → book_add_thread channel.now self.old ≡ Err fault) }
        ensures memory { result ≡ Err SessionFault.NoMemory → IsOk (book_add_thread channel.now self.old) }
        ensures unchanged { OnErr result (self.new ≡ self.old) }
    {
        let (place, _) = self.channel_at(channel)?;
        let number = self.threads.len() as u64;
        self.keep_thread(place)?;
        Ok(number)
    }

    /// Adds a thread of the channel at this place after the others.
    fn keep_thread(&mut self, place: usize) -> Result<(), AllocError>
        requires { length self.old.threads < MOST_STREAMS }
        ensures ok { OnOk result (self.new ≡ with_thread place self.old) }
        ensures err { OnErr result (self.new ≡ self.old) }
    {
        self.threads.push(place)?;
        Ok(())
    }

    /// Begins a rotation at a moment, and answers with the number of the chunk that it archives. Room for its archive is
    /// reserved.
    ///
    /// # Errors
    ///
    /// `SnapshotMode`, `NeverStarted`, `RotationPending`, `AlreadyRotated`, `NoMemory`: nothing changed.
    pub fn rotate_begin(&mut self, moment: Moment) -> Result<u64, SessionFault>
        ensures value { result ≢ Err SessionFault.NoMemory →
            (result ≡ book_rotate_begin_answer self.old) × (self.new ≡ book_after_rotate_begin moment self.old) }
        ensures no_memory { result ≡ Err SessionFault.NoMemory → self.new ≡ self.old }
        ensures memory { result ≡ Err SessionFault.NoMemory → IsOk (book_rotate_begin_answer self.old) }
        ensures streams { self.new.threads ≡ self.old.threads }
        ensures mode { self.new.mode ≡ self.old.mode }
    {
        let id = self.next_chunk()?;
        self.begin_rotation(id, moment)?;
        Ok(id)
    }

    /// Ends the current chunk, and begins the next one.
    fn begin_rotation(&mut self, id: u64, moment: Moment) -> Result<(), AllocError>
        requires id { id ≡ length self.old.archives }
        requires local { self.old.mode ≡ SessionMode.Local }
        requires started { is_new self.old.state ≡ false }
        requires none { self.old.pending ≡ None }
        ensures ok { OnOk result (self.new ≡ with_pending moment self.old) }
        ensures err { OnErr result (self.new ≡ self.old) }
    {
        self.archives.reserve(1)?;
        let end = moment.later(self.last);
        let archive = Archive {
            id,
            begin: self.begin,
            end,
        };
        self.pending = Some(Pending { archive, cut: 0 });
        self.rotated = true;
        self.last = end;
        self.begin = end;
        Ok(())
    }
}

impl<A: Allocator> SessionBook<A> {
    /// The channel to add, or why it can't be added.
    fn channel_for(
        &self,
        name: &Name<'_>,
        size: u64,
        count: u64,
        mode: Mode,
    ) -> Result<Channel, SessionFault>
        ensures ok { IfOk result
            (λ channel. book_add_channel name.now size count mode self.now
            ≡ Ok (with_channel name.now channel self.now)) }
        ensures free { OnOk result (is_some (channel_named name.now self.now) ≡ false) }
        ensures room { OnOk result (length self.now.channels < MOST_CHANNELS) }
        ensures err { IfErr result (λ fault. book_add_channel name.now size count mode self.now ≡ Err fault) }
        ensures reason { IfErr result (λ fault. fault ≢ SessionFault.NoMemory) }
    {
        if self.state != State::New {
            return Err(SessionFault::AlreadyStarted);
        }
        if self.channel(name.as_str()).is_some() {
            return Err(SessionFault::NameTaken);
        }
        if self.channels.len() >= MOST_CHANNELS {
            return Err(SessionFault::TooMany);
        }
        let Ok(geometry) = Geometry::new(size, count) else {
            return Err(SessionFault::BadGeometry);
        };
        if !is_allowed(self.mode, mode) {
            return Err(SessionFault::DiscardInSnapshot);
        }
        Ok(Channel { geometry, mode })
    }

    /// The channel to which a thread is to be added, with its place, or why the thread can't be added.
    fn channel_at(&self, name: &str) -> Result<(usize, Channel), SessionFault>
        ensures place { IfOk result (λ found. thread_place name.now self.now ≡ Ok found.0) }
        ensures channel { IfOk result (λ found. channel_named name.now self.now ≡ Some found.1) }
        ensures room { OnOk result (length self.now.threads < MOST_STREAMS) }
        ensures bare { OnOk result ((self.now.pending ≡ None) × (self.now.archives ≡ [])) }
        ensures err { IfErr result (λ fault. thread_place name.now self.now ≡ Err fault) }
    {
        if self.state != State::New {
            return Err(SessionFault::AlreadyStarted);
        }
        let Some((place, _, channel)) = self.channels.get_full(name) else {
            return Err(SessionFault::NoChannel);
        };
        if self.streams() >= MOST_STREAMS {
            return Err(SessionFault::TooMany);
        }
        Ok((place, *channel))
    }

    /// The channel of this name, to which a thread can be added.
    ///
    /// # Errors
    ///
    /// `AlreadyStarted`, `NoChannel`, `TooMany`.
    pub fn thread_channel(&self, name: &str) -> Result<Channel, SessionFault>
        ensures named { IfOk result (λ channel. channel_named name.now self.now ≡ Some channel) }
        ensures placed { OnOk result (IsOk (thread_place name.now self.now)) }
        ensures bare { OnOk result ((self.now.pending ≡ None) × (self.now.archives ≡ [])) }
        ensures err { IfErr result (λ fault. thread_place name.now self.now ≡ Err fault) }
    {
        let (_, channel) = self.channel_at(name)?;
        Ok(channel)
    }

    /// The number of the chunk that a rotation would archive, or why the session can't rotate.
    fn next_chunk(&self) -> Result<u64, SessionFault>
        ensures value { result ≡ book_rotate_begin_answer self.now }
        ensures local { OnOk result (self.now.mode ≡ SessionMode.Local) }
        ensures started { OnOk result (is_new self.now.state ≡ false) }
        ensures none { OnOk result (self.now.pending ≡ None) }
    {
        match self.mode {
            SessionMode::Snapshot => return Err(SessionFault::SnapshotMode),
            SessionMode::Local => {}
        }
        if self.state == State::New {
            return Err(SessionFault::NeverStarted);
        }
        if self.pending.is_some() {
            return Err(SessionFault::RotationPending);
        }
        if self.state == State::Inactive && self.rotated {
            return Err(SessionFault::AlreadyRotated);
        }
        Ok(self.archives.len() as u64)
    }

    /// Starts the session at a moment. Its first start begins the first chunk. It takes no memory.
    ///
    /// # Errors
    ///
    /// `RotationPending`, `AlreadyActive`: nothing changed.
    pub fn start(&mut self, moment: Moment) -> Result<(), SessionFault>
        ensures answer { result ≡ book_start_answer self.old }
        ensures after { self.new ≡ book_after_start moment self.old }
        ensures streams { self.new.threads ≡ self.old.threads }
        ensures mode { self.new.mode ≡ self.old.mode }
    {
        if self.pending.is_some() {
            return Err(SessionFault::RotationPending);
        }
        if self.state == State::Active {
            return Err(SessionFault::AlreadyActive);
        }
        self.last = moment.later(self.last);
        if self.state == State::New {
            self.begin = self.last;
        }
        self.state = State::Active;
        Ok(())
    }

    /// Stops the session. It takes no memory.
    ///
    /// # Errors
    ///
    /// `RotationPending`, `NotActive`: nothing changed.
    pub fn stop(&mut self) -> Result<(), SessionFault>
        ensures answer { result ≡ book_stop_answer self.old }
        ensures after { self.new ≡ book_after_stop self.old }
        ensures streams { self.new.threads ≡ self.old.threads }
        ensures mode { self.new.mode ≡ self.old.mode }
    {
        if self.pending.is_some() {
            return Err(SessionFault::RotationPending);
        }
        if self.state != State::Active {
            return Err(SessionFault::NotActive);
        }
        self.state = State::Inactive;
        self.rotated = false;
        Ok(())
    }

    /// Whether the stream of this number may be switched: on while the session is active, off while it is stopped.
    ///
    /// # Errors
    ///
    /// `NoStream`; `NotActive` to switch it on, `AlreadyActive` to switch it off.
    pub fn can_switch(&self, active: bool, i: u64) -> Result<(), SessionFault>
        ensures { result ≡ book_switch_answer active i self.now }
    {
        if i >= self.threads.len() as u64 {
            return Err(SessionFault::NoStream);
        }
        if active && self.state != State::Active {
            return Err(SessionFault::NotActive);
        }
        if !active && self.state != State::Inactive {
            return Err(SessionFault::AlreadyActive);
        }
        Ok(())
    }

    /// The moment at which the stream of this number is to be cut now: the end of the pending rotation. Streams are cut
    /// in order of number.
    ///
    /// # Errors
    ///
    /// `NoStream`, `NotPending` if no rotation is pending or it has already cut the stream, `CutMissing` if a stream with a
    /// smaller number isn't cut.
    pub fn cut_moment(&self, i: u64) -> Result<Moment, SessionFault>
        ensures value { result ≡ cut_moment i self.now }
        ensures local { OnOk result (self.now.mode ≡ SessionMode.Local) }
        ensures room { OnOk result (length self.now.archives + 1 < 2 ^ 63) }
    {
        if i >= self.threads.len() as u64 {
            return Err(SessionFault::NoStream);
        }
        let Some(pending) = self.pending else {
            return Err(SessionFault::NotPending);
        };
        if i < pending.cut {
            return Err(SessionFault::NotPending);
        }
        if pending.cut < i {
            return Err(SessionFault::CutMissing);
        }
        Ok(pending.archive.end)
    }

    /// Notes that the pending rotation has cut the stream of this number. It takes no memory.
    ///
    /// # Errors
    ///
    /// Those of `cut_moment`: nothing changed.
    pub fn note_cut(&mut self, i: u64) -> Result<(), SessionFault>
        ensures answer { result ≡ book_note_cut_answer i self.old }
        ensures after { self.new ≡ book_after_note_cut i self.old }
    {
        match self.cut_moment(i) {
            Ok(_) => {
                self.count_cut(i);
                Ok(())
            }
            Err(fault) => Err(fault),
        }
    }

    /// Counts the cut of the stream of this number.
    fn count_cut(&mut self, i: u64)
        requires { IsOk (cut_moment i self.old) }
        ensures { self.new ≡ with_cut self.old }
    {
        if let Some(pending) = &mut self.pending {
            pending.cut = i + 1;
        }
    }

    /// Ends the pending rotation, and answers with the archive that it made. It takes no memory.
    ///
    /// # Errors
    ///
    /// `NotPending`, `CutMissing`: nothing changed.
    pub fn rotate_finish(&mut self) -> Result<Archive, SessionFault>
        ensures answer { result ≡ book_rotate_finish_answer self.old }
        ensures local { self.old.mode ≡ SessionMode.Snapshot → result ≡ Err SessionFault.NotPending }
        ensures after { self.new ≡ book_after_rotate_finish self.old }
        ensures streams { self.new.threads ≡ self.old.threads }
        ensures mode { self.new.mode ≡ self.old.mode }
    {
        let Some(pending) = self.pending else {
            return Err(SessionFault::NotPending);
        };
        if pending.cut < self.threads.len() as u64 {
            return Err(SessionFault::CutMissing);
        }
        self.pending = None;
        self.archives.push_reserved(pending.archive);
        Ok(pending.archive)
    }
}
