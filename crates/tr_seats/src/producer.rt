//! The seats of a stream's offers.

ghost use Rattle.std.specs.Prelude.{◌≡◌, ◌<◌, ◌≤◌, length, slice_index};
ghost use Rattle.tr_seats.specs.Slots.{with_all_published};
ghost use Rattle.tr_tally.specs.Tallies.{note_state};

use crate::names::Names;
use std::alloc::{Allocator, Global};
use std::marker::{Model, PhantomData};
use tr_accounts::StreamStep;
use tr_ledger::Seat;
use tr_tally::{Note, Teller, Watcher};

/// The producer of one stream: it alone moves the totals of that stream's offers, and publishes how many were accepted.
/// Contracts see a `ProducerState`, with all its offers.
#[derive(Drop)]
pub struct Producer<N: Names, A: Allocator = Global> {
    pub(crate) number: usize,
    pub(crate) offered: Seat,
    pub(crate) discarded: Seat,
    pub(crate) overwritten: Seat,
    pub(crate) overwritten_packets: Seat,
    pub(crate) teller: Teller<A>,
    pub(crate) account: tr_journal::Seat<StreamStep>,
    pub(crate) of: PhantomData<N>,
}

impl<N: Names, A: Allocator> Model for Producer<N, A> {
    ghost use Rattle.std.specs.Prelude.{◌≡◌, ◌<◌, length};
    ghost use Rattle.tr_accounts.specs.Seats.{producer_seat};
    ghost use Rattle.tr_seats.specs.Accounts.{IsSeatAt};
    ghost use Rattle.tr_seats.specs.Books.{books_at};
    ghost use Rattle.tr_seats.specs.Seats.{AreSeatsOfProducer, IsTellerOf};
    ghost use Rattle.tr_seats.specs.Slots.{ProducerState, producer_state};

    ghost Value = { ProducerState };

    ghost view = { λ p. producer_state p.number p.offered.amount p.discarded.amount p.overwritten.amount
        p.overwritten_packets.amount p.teller.count p.account.own };

    // it has the whole seats of its stream's books, the stream's teller, and its own seat in the stream's journal
    ghost invariant = { λ p. (p.number < length N.plan.books)
        × AreSeatsOfProducer (books_at N.plan.books p.number) p.offered p.discarded p.overwritten
        p.overwritten_packets
        × IsTellerOf N.plan.tally p.number p.offered.amount p.teller
        × IsSeatAt (books_at N.plan.books p.number).journal producer_seat p.account };
}

impl<N: Names, A: Allocator> Producer<N, A> {
    /// The number of its stream.
    pub fn stream(&self) -> usize
        ensures number { result ≡ self.now.number }
        ensures there { result < length N.plan.books }
    {
        self.number
    }

    /// How many of its offers were accepted.
    pub fn offered(&self) -> u64
        ensures { result ≡ self.now.offered }
    {
        self.offered.amount()
    }

    /// How many of these its stream's full ring discarded.
    pub fn discarded(&self) -> u64
        ensures { result ≡ self.now.discarded }
    {
        self.discarded.amount()
    }

    /// How many of these were overwritten.
    pub fn overwritten(&self) -> u64
        ensures { result ≡ self.now.overwritten }
    {
        self.overwritten.amount()
    }

    /// How many packets were overwritten.
    pub fn overwritten_packets(&self) -> u64
        ensures { result ≡ self.now.overwritten_packets }
    {
        self.overwritten_packets.amount()
    }

    /// Publishes how many of its offers were accepted, so that watchers read it. It waits for nobody. An offer by
    /// `Producer::offer` of a shared session has done so when it returns.
    #[inline(always)]
    pub fn publish(&mut self)
        ensures { self.new ≡ with_all_published self.old }
    {
        let offered = self.offered();
        self.teller.publish(offered);
    }

    /// A note of how many accepted offers it published last: a watcher that learns of it answers no less.
    pub fn note(&mut self) -> Note
        ensures producer { self.new ≡ self.old }
        ensures note { result ≡ note_state N.plan.tally.table self.old.number self.old.published }
    {
        self.teller.note()
    }

    /// Changes nothing, and shows that a watcher's last answer for this stream is no more than how many offers were accepted.
    pub fn audit(&mut self, watcher: &mut Watcher<A>)
        requires { watcher.old.table ≡ N.plan.tally.table }
        ensures same { (self.new ≡ self.old) × (watcher.new ≡ watcher.old) }
        ensures within { slice_index watcher.old.answers self.old.number ≤ self.old.offered }
    {
        watcher.audit(&mut self.teller);
    }
}
