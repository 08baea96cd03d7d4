//! The pool under its lock.

ghost use Rattle.std.specs.Prelude.{◌≡◌, IfErr, IfOk, length};
ghost use Rattle.tr_seats.specs.Settling.{IsOneEach};

use crate::free::FreeProducers;
use std::alloc::{AllocError, Allocator, Global};
use std::sync::{Mutex, Wait};
use tr_seats::{Names, Producer};
use tr_shared::Shared;

/// The producers of a session, lent to threads that come and go. Its lock is held while one is lent or given.
#[derive(Drop)]
pub struct ProducerPool<N: Names, A: Allocator = Global> {
    free: Mutex<FreeProducers<N, A>>,
}

impl<N: Names, A: Allocator + Copy> ProducerPool<N, A> {
    /// A pool of a session's producers, to which none was given yet.
    ///
    /// # Errors
    ///
    /// There is no memory.
    pub fn new(alloc: A, shared: &Shared<N, A>) -> Result<ProducerPool<N, A>, AllocError> {
        let free = Mutex::new(FreeProducers::new(alloc, shared.streams())?);
        Ok(ProducerPool { free })
    }
}

impl<N: Names, A: Allocator> ProducerPool<N, A> {
    /// Lends the producer that has been free longest, or none if none is free.
    pub fn lend(&self, rt: &impl Wait) -> Option<Producer<N, A>> {
        self.free.lock(rt).lend()
    }

    /// Gives it a producer: at first, and when a thread is done with it.
    ///
    /// # Errors
    ///
    /// The producer, as it was, if one of its stream is free. There is no such one, since each stream has one producer.
    pub fn give(&self, rt: &impl Wait, producer: Producer<N, A>) -> Result<(), Producer<N, A>>
        ensures { IfErr result (λ p. p ≡ producer) }
    {
        self.free.lock(rt).give(producer)
    }

    /// All producers, with which the session can be settled: one for each stream. It takes no memory.
    ///
    /// # Errors
    ///
    /// The pool, as it was, if not all are there.
    pub fn into_producers(self) -> Result<Vec<Producer<N, A>, A>, ProducerPool<N, A>>
        ensures one_each { IfOk result (λ v. IsOneEach (length N.plan.books) v.items) }
    {
        match self.free.into_inner().into_producers() {
            Ok(producers) => Ok(producers),
            Err(free) => Err(ProducerPool {
                free: Mutex::new(free),
            }),
        }
    }
}
