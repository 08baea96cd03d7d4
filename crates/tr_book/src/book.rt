//! A stream's counters and its last moment.

ghost use Rattle.std.specs.Prelude.{◌≡◌, ◌+◌, ◌<◌, ◌^◌, max};
ghost use Rattle.tr_book.specs.Counters.{new_counters, with_offer, with_overwritten, with_consumed, with_cleared, at_moment};

use std::marker::Model;
use tr_terms::Moment;

/// How many offers a stream accepted, how many of their records were overwritten, consumed or cleared, and its last stored
/// moment.
/// Contracts see a `CountersState`.
#[derive(Clone, Copy, Debug, PartialEq, Eq)]
pub struct Book {
    offered: u64,
    overwritten: u64,
    overwritten_packets: u64,
    consumed: u64,
    cleared: u64,
    withdrawn: u64,
    last: Moment,
}

impl Model for Book {
    ghost use Rattle.tr_book.specs.Counters.{CountersState, counters_state};

    ghost Value = { CountersState };

    ghost view = { λ b. counters_state b.offered b.overwritten b.overwritten_packets b.consumed b.cleared
        b.withdrawn b.last };

    ghost inverse = { λ s. record {
      offered = s.offered;
      overwritten = s.overwritten;
      overwritten_packets = s.overwritten_packets;
      consumed = s.consumed;
      cleared = s.cleared;
      withdrawn = s.withdrawn;
      last = s.last;
    } };
}

impl Book {
    /// A book in which nothing is noted.
    pub fn new() -> Book
        ensures { result ≡ new_counters }
    {
        Book {
            offered: 0,
            overwritten: 0,
            overwritten_packets: 0,
            consumed: 0,
            cleared: 0,
            withdrawn: 0,
            last: Moment::zero(),
        }
    }

    /// How many offers were accepted.
    pub fn offered(&self) -> u64
        ensures { result ≡ self.now.offered }
    {
        self.offered
    }

    /// How many records were overwritten by newer ones.
    pub fn overwritten(&self) -> u64
        ensures { result ≡ self.now.overwritten }
    {
        self.overwritten
    }

    /// How many packets were overwritten by newer records.
    pub fn overwritten_packets(&self) -> u64
        ensures { result ≡ self.now.overwritten_packets }
    {
        self.overwritten_packets
    }

    /// How many records were consumed.
    pub fn consumed(&self) -> u64
        ensures { result ≡ self.now.consumed }
    {
        self.consumed
    }

    /// How many records were cleared.
    pub fn cleared(&self) -> u64
        ensures { result ≡ self.now.cleared }
    {
        self.cleared
    }

    /// How many records were cleared after they had been consumed.
    pub fn withdrawn(&self) -> u64
        ensures { result ≡ self.now.withdrawn }
    {
        self.withdrawn
    }

    /// The last stored moment.
    pub fn last(&self) -> Moment
        ensures { result ≡ self.now.last }
    {
        self.last
    }

    /// The moment to store for what is done at this one: never earlier than the last.
    pub fn stored_moment(&self, moment: Moment) -> Moment
        ensures { result ≡ max moment self.now.last }
    {
        moment.later(self.last)
    }

    /// Notes an offer that is accepted, whether it is stored or not.
    pub fn note_offer(&mut self, moment: Moment)
        requires { self.old.offered + 1 < 2 ^ 64 }
        ensures { self.new ≡ with_offer moment self.old }
    {
        self.offered += 1;
        self.last = moment;
    }

    /// Notes that a packet of `count` records was overwritten.
    pub fn note_overwritten(&mut self, count: u64)
        requires records { self.old.overwritten + count < 2 ^ 64 }
        requires packets { self.old.overwritten_packets + 1 < 2 ^ 64 }
        ensures { self.new ≡ with_overwritten count self.old }
    {
        self.overwritten += count;
        self.overwritten_packets += 1;
    }

    /// Notes that `count` records were consumed.
    pub fn note_consumed(&mut self, count: u64)
        requires { self.old.consumed + count < 2 ^ 64 }
        ensures { self.new ≡ with_consumed count self.old }
    {
        self.consumed += count;
    }

    /// Notes that `count` records were cleared, and that `consumed` of them had been consumed.
    pub fn note_cleared(&mut self, count: u64, consumed: u64)
        requires cleared { self.old.cleared + count < 2 ^ 64 }
        requires withdrawn { self.old.withdrawn + consumed < 2 ^ 64 }
        ensures { self.new ≡ with_cleared count consumed self.old }
    {
        self.cleared += count;
        self.withdrawn += consumed;
    }

    /// Notes that something was done at this moment.
    pub fn note_moment(&mut self, moment: Moment)
        ensures { self.new ≡ at_moment moment self.old }
    {
        self.last = moment;
    }
}
