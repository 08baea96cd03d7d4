//! The producers that no thread has.

ghost use Rattle.std.specs.Prelude.{◌≡◌, ◌<◌, ◌==◌, [], IfErr, IfOk, MatchOption, count_by, length};
ghost use Rattle.tr_lends.specs.Free.{IsLent, IsPool, MayGive, after_give, free_state};
ghost use Rattle.tr_seats.specs.Settling.{IsOneEach};
ghost use Rattle.tr_seats.specs.Slots.{ProducerState};

use circular_buffer::HeapCircularBuffer;
use std::alloc::{AllocError, Allocator, Global};
use std::marker::Model;
use tr_seats::{Names, Producer};

/// The producers of a session that no thread has, the longest free first, and how many are away. Contracts see a `FreeState`.
#[derive(Drop)]
pub struct FreeProducers<N: Names, A: Allocator = Global> {
    free: HeapCircularBuffer<Producer<N, A>, A>,
    away: usize,
    // empty, with room for all
    room: Vec<Producer<N, A>, A>,
}

impl<N: Names, A: Allocator> Model for FreeProducers<N, A> {
    ghost use Rattle.std.specs.Prelude.{◌≡◌, ◌≤◌, length, vec_capacity, vec_len};
    ghost use Rattle.tr_lends.specs.Free.{FreeState, IsPool, free_state};

    ghost Value = { FreeState };

    ghost view = { λ p. free_state p.free.items p.away };

    ghost invariant = { λ p. IsPool (length N.plan.books) (free_state p.free.items p.away)
        × (p.free.capacity ≡ length N.plan.books) × (vec_len p.room ≡ 0) × (length N.plan.books ≤ vec_capacity p.room) };
}

/// How many of these are of a stream.
fn count_of<N: Names, A: Allocator>(free: &HeapCircularBuffer<Producer<N, A>, A>, i: usize) -> usize
    ensures { result ≡ count_by (λ (p : ProducerState). p.number == i) free.now.items }
{
    free.iter()
        .filter(|producer| producer.stream() == i)
        .count()
}

impl<N: Names, A: Allocator> FreeProducers<N, A> {
    /// Lends the one that has been free longest.
    pub fn lend(&mut self) -> Option<Producer<N, A>>
        ensures lent { MatchOption result
            ((self.old.free ≡ []) × (self.new ≡ self.old))
            (λ producer. IsLent producer self.old self.new) }
        ensures pool { IsPool (length N.plan.books) self.new }
    {
        let producer = self.free.pop_front()?;
        self.away += 1;
        Some(producer)
    }

    /// Takes a producer that was away.
    ///
    /// # Errors
    ///
    /// The producer, if none is away or one of its stream is free: nothing changed. There is no such one, since each stream has
    /// one producer.
    pub fn give(&mut self, producer: Producer<N, A>) -> Result<(), Producer<N, A>>
        ensures taken { IfOk result (λ _. (self.new ≡ after_give producer self.old) × MayGive producer self.old) }
        ensures refused { IfErr result (λ p. (p ≡ producer) × (self.new ≡ self.old) × (¬ MayGive producer self.old)) }
        ensures pool { IsPool (length N.plan.books) self.new }
    {
        if count_of(&self.free, producer.stream()) > 0 {
            return Err(producer);
        }
        self.free.try_push_back(producer)?;
        self.away -= 1;
        Ok(())
    }

    /// All of them, the longest free first. It takes no memory.
    ///
    /// # Errors
    ///
    /// Those that are free, as they were, if some are away.
    pub fn into_producers(self) -> Result<Vec<Producer<N, A>, A>, FreeProducers<N, A>>
        ensures all { IfOk result (λ v. free_state v.items 0 ≡ self) }
        ensures one_each { IfOk result (λ v. IsOneEach (length N.plan.books) v.items) }
        ensures away { IfErr result (λ p. (p ≡ self) × (0 < self.away)) }
    {
        if self.away > 0 {
            return Err(self);
        }
        let FreeProducers {
            mut free,
            mut room,
            ..
        } = self;
        while let Some(producer) = free.pop_front() {
            room.push_reserved(producer);
        }
        Ok(room)
    }
}

impl<N: Names, A: Allocator + Copy> FreeProducers<N, A> {
    /// None is free yet: as many are away as the session has streams.
    ///
    /// # Errors
    ///
    /// There is no memory.
    pub fn new(alloc: A, streams: usize) -> Result<FreeProducers<N, A>, AllocError>
        requires { streams ≡ length N.plan.books }
        ensures { IfOk result (λ p. p ≡ free_state [] streams) }
    {
        Ok(FreeProducers {
            free: HeapCircularBuffer::with_capacity(alloc, streams)?,
            away: streams,
            room: Vec::with_capacity(alloc, streams)?,
        })
    }
}
