//! The session under its locks.

ghost use Rattle.std.specs.Prelude.{◌≡◌, ◌+◌, ◌<◌, ◌≤◌, ◌↔◌, All, IfErr, IfOk, length, vec_capacity, vec_len};
ghost use Rattle.tr_seats.specs.Drainers.{new_drainer};
ghost use Rattle.tr_seats.specs.Slots.{AreNew};
ghost use Rattle.tr_shared.specs.Calls.{IsDrainerFault};
ghost use Rattle.tr_tally.specs.Tallies.{WatcherState, new_watchers};

use std::alloc::{Allocator, Global};
use std::sync::{Mutex, Wait};
use tr_events::Events;
use tr_seats::{Desk, Drainer, Names, Opened, Plan, Producer, Slot};
use tr_session_book::SessionFault;
use tr_stream::Stream;
use tr_tally::Watcher;

/// A session that threads share by reference: its desk, and each of its streams, under locks.
#[derive(Drop)]
pub struct Shared<N: Names, A: Allocator = Global> {
    pub(crate) alloc: A,
    pub(crate) desk: Mutex<Desk<N, A>>,
    pub(crate) slots: Vec<Mutex<Slot<N, A>>, A>,
    places: Mutex<Places<N, A>>,
    // what the session declares, beside the desk's lock
    pub(crate) events: Events<A>,
    ghost all_here: { vec_len slots ≡ length N.plan.books },
    ghost declared: { events ≡ N.plan.session.book.events },
}

/// Where the streams go when they leave their locks, and when they are settled: both are empty, with room for all. They lie
/// under a lock since no reference to them may be shared.
#[derive(Drop)]
struct Places<N: Names, A: Allocator = Global> {
    slots: Vec<Slot<N, A>, A>,
    room: Vec<Stream<A>, A>,
    ghost reserved: { (vec_len slots ≡ 0) × (length N.plan.books ≤ vec_capacity slots) × (vec_len room ≡ 0)
        × (length N.plan.books ≤ vec_capacity room) },
}

/// A shared session, the producers of its streams, and watchers.
type BuiltWatched<N, A> = (Shared<N, A>, Vec<Producer<N, A>, A>, Vec<Watcher<A>, A>);

impl<N: Names, A: Allocator + Copy> Shared<N, A> {
    /// The session that a `Names` names, to be shared, and the producer of each stream, in order of number, with nothing
    /// offered. All that settling needs is reserved.
    ///
    /// # Errors
    ///
    /// `NoMemory`: the plan is gone.
    pub fn build(plan: Plan<A>) -> Result<(Shared<N, A>, Vec<Producer<N, A>, A>), SessionFault>
        requires { plan ≡ N.plan }
        ensures producers { IfOk result (λ r. AreNew (length plan.books) r.1.items) }
        ensures memory { IfErr result (λ fault. fault ≡ SessionFault.NoMemory) }
    {
        let (shared, producers, _) = Shared::build_watched(plan)?;
        Ok((shared, producers))
    }

    /// The same, with the watchers that were planned: they read how many records each stream was offered while producers offer,
    /// wait for nobody, and may outlive the session.
    ///
    /// # Errors
    ///
    /// `NoMemory`: the plan is gone.
    pub fn build_watched(plan: Plan<A>) -> Result<BuiltWatched<N, A>, SessionFault>
        requires { plan ≡ N.plan }
        ensures producers { IfOk result (λ r. AreNew (length plan.books) r.1.items) }
        ensures watchers { IfOk result
            (λ r. r.2.items ≡ new_watchers plan.tally.table (length plan.books) plan.tally.watchers) }
        ensures tally { IfOk result (λ r. All (λ (w : WatcherState). w.table ≡ N.plan.tally.table) r.2.items) }
        ensures memory { IfErr result (λ fault. fault ≡ SessionFault.NoMemory) }
    {
        let (opened, producers, watchers) = plan.build_watched::<N>()?;
        let (alloc, desk, slots, room) = opened.into_parts();
        let locks = Vec::with_capacity(alloc, slots.len())?;
        let events = desk.book().events().copy(alloc)?;
        let shared = Shared::close(alloc, desk, slots, room, locks, events);
        Ok((shared, producers, watchers))
    }

    /// A drainer of this session, which took nothing yet.
    ///
    /// # Errors
    ///
    /// `TooMany`, `NoMemory`: nothing changed. `Misplaced` if a stream isn't where its number says: the drainer counts as
    /// made, and is missing when the session is settled.
    pub fn drainer(&self, rt: &impl Wait) -> Result<Drainer<N, A>, SessionFault>
        ensures new { IfOk result (λ drainer. drainer ≡ new_drainer (length N.plan.books)) }
        ensures refused { IfErr result IsDrainerFault }
    {
        let mut desk = self.desk.lock(rt);
        let mut begun = desk.begin_drainer(self.alloc)?;
        for i in 0..self.slots.len() {
            begun = begun.with(&mut self.slots[i].lock(rt))?;
        }
        Ok(begun.finish())
    }
}

impl<N: Names, A: Allocator> Shared<N, A> {
    /// Puts a session under its locks.
    pub(crate) fn close(
        alloc: A,
        desk: Desk<N, A>,
        mut slots: Vec<Slot<N, A>, A>,
        room: Vec<Stream<A>, A>,
        mut locks: Vec<Mutex<Slot<N, A>>, A>,
        events: Events<A>,
    ) -> Shared<N, A>
        requires slots { length slots.items ≡ length N.plan.books }
        requires room { (vec_len room ≡ 0) × (length N.plan.books ≤ vec_capacity room) }
        requires locks { (vec_len locks ≡ 0) × (length N.plan.books ≤ vec_capacity locks) }
        requires events { events ≡ N.plan.session.book.events }
    {
        while let Some(slot) = slots.pop() {
            locks.push_reserved(Mutex::new(slot));
        }
        locks.reverse();
        Shared {
            alloc,
            desk: Mutex::new(desk),
            slots: locks,
            places: Mutex::new(Places { slots, room }),
            events,
        }
    }

    /// How many streams there are: their numbers are those below.
    pub fn streams(&self) -> usize
        ensures { result ≡ length N.plan.books }
    {
        self.slots.len()
    }

    /// Answers what the closure answers, which runs while the lock of the stream of number `i` is held, and no other.
    /// A closure that takes that lock again waits for ever.
    pub fn hold_stream<R, F: FnOnce() -> R>(&self, rt: &impl Wait, i: usize, f: F) -> R
        requires stream { i < length N.plan.books }
        requires call { F.pre f }
        ensures { F.post f result }
    {
        let _held = self.slots[i].lock(rt);
        f()
    }

    /// The session out of its locks, the place for these, which is empty, and the events that it declares.
    pub(crate) fn open(self) -> (Opened<N, A>, Vec<Mutex<Slot<N, A>>, A>, Events<A>)
        ensures slots { length result.0.slots ≡ length N.plan.books }
        ensures locks { (vec_len result.1 ≡ 0) × (length N.plan.books ≤ vec_capacity result.1) }
        ensures events { result.2 ≡ N.plan.session.book.events }
    {
        let Shared {
            alloc,
            desk,
            slots: mut locks,
            places,
            events,
        } = self;
        let Places { mut slots, room } = places.into_inner();
        while let Some(lock) = locks.pop() {
            slots.push_reserved(lock.into_inner());
        }
        slots.reverse();
        let opened = Opened::from_parts(alloc, desk.into_inner(), slots, room);
        (opened, locks, events)
    }
}
