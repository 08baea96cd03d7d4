//! Reading a session's book.

ghost use Rattle.std.specs.Prelude.{◌≡◌, ◌≤◌, ℕ, Some, None, IfSome, length, option_copied, slice_get};
ghost use Rattle.tr_session_book.specs.declared.archive.Archive as value;
ghost use Rattle.tr_session_book.specs.BookSteps.{IsBook, channel_named, channel_of};
ghost use Rattle.tr_terms.specs.declared.limits.TheConstants.{LAST_MOMENT, MOST_CHANNELS, MOST_STREAMS};

use super::SessionBook;
use crate::archive::{Archive, Pending};
use crate::channel::Channel;
use crate::state::State;
use std::alloc::Allocator;
use tr_terms::{Moment, Name, OffsetMinutes, SessionMode};
use uuid::Uuid;

impl<A: Allocator> SessionBook<A> {
    /// The identifier of the trace.
    pub fn uuid(&self) -> Uuid
        ensures { result ≡ self.now.uuid }
    {
        self.uuid
    }

    /// How many minutes the clock of archives' names is ahead of UTC.
    pub fn offset(&self) -> OffsetMinutes
        ensures { result ≡ self.now.offset }
    {
        self.offset
    }

    /// What becomes of packets.
    pub fn mode(&self) -> SessionMode
        ensures { result ≡ self.now.mode }
    {
        self.mode
    }

    /// What the session allows.
    pub fn state(&self) -> State
        ensures { result ≡ self.now.state }
    {
        self.state
    }

    /// The last stored moment; 0 before the first start.
    pub fn last(&self) -> Moment
        ensures { result ≡ self.now.last }
    {
        self.last
    }

    /// The moment at which the current chunk began; 0 before the first start.
    pub fn begin(&self) -> Moment
        ensures { result ≡ self.now.begin }
    {
        self.begin
    }

    /// How many channels there are.
    pub fn channels(&self) -> usize
        ensures value { result ≡ length self.now.channels }
        ensures within { result ≤ MOST_CHANNELS }
    {
        self.channels.len()
    }

    /// The channel of this name, if any.
    pub fn channel(&self, name: &str) -> Option<&Channel>
        ensures { option_copied result ≡ channel_named name.now self.now }
    {
        self.channels.get(name)
    }

    /// How many streams there are.
    pub fn streams(&self) -> usize
        ensures value { result ≡ length self.now.threads }
        ensures within { result ≤ MOST_STREAMS }
    {
        self.threads.len()
    }

    /// The name of the channel to which the stream of this number belongs.
    pub fn channel_of(&self, i: u64) -> Option<Name<'_>>
        ensures { result ≡ channel_of i self.now }
    {
        let place = self.threads.get(i as usize)?;
        let (name, _) = self.channels.get_index(*place)?;
        Name::new(name.as_str())
    }

    /// The archives, in order. Each one's number is its place.
    pub fn archives(&self) -> &[Archive]
        ensures value { result.now ≡ self.now.archives }
        ensures numbered { (k : ℕ) (archive : value.Archive) → slice_get result.now k ≡ Some archive
            → archive.id ≡ k }
    {
        self.archives.as_slice()
    }

    /// What every book obeys: its limits, its numbers, its channels' names, and that its archives follow each other in time, up
    /// to a moment within the limit. Does nothing.
    pub fn every_book_obeys(&self)
        ensures book { IsBook self.now }
        ensures within { self.now.begin ≤ LAST_MOMENT }
    {
        let _ = self.begin.get();
    }

    /// The rotation that has begun and isn't finished. Its archive's number is the number of archives.
    pub fn pending(&self) -> Option<Pending>
        ensures value { result ≡ self.now.pending }
        ensures local { self.now.mode ≡ SessionMode.Snapshot → result ≡ None }
        ensures numbered { IfSome result (λ pending. pending.archive.id ≡ length self.now.archives) }
    {
        self.pending
    }
}
