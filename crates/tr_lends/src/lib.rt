//! The producers of a shared session, lent to threads that come and go: one that begins has a producer lent, offers by it, and
//! gives it back. When all are back, the session is settled with them.
//!
//! # Example
//!
//! ```
//! let (shared, producers) = Shared::<N>::build(plan)?;
//! let pool = ProducerPool::new(alloc, &shared)?;
//! for producer in producers {
//!     let _ = pool.give(rt, producer);
//! }
//! // in each thread
//! if let Some(mut producer) = pool.lend(rt) {
//!     let answer = producer.offer(rt, &shared, moment, id, payload);
//!     let _ = pool.give(rt, producer);
//! }
//! // when all threads are done
//! let settled = shared.settle(pool.into_producers()?, drainers)?;
//! ```
//!
//! # What is proved
//!
//! A lent producer is its thread's alone, as its type has it: each offer is one thread's, and waits for its stream's lock alone.
//!
//! - What is lent is given back or away: those that are free and those that are away are together as many as the session has
//!   streams, and no two that are free are of one stream. The one is lent that has been free longest. One is taken if and only
//!   if one is away and none of its stream is free; it comes after all others, as it was given (`FreeProducers::new`; `lend`:
//!   `lent`, `pool` (`IsPool`); `give`: `taken`, `refused` (`MayGive`), `pool`; `ProducerPool::give`).
//! - What comes out of a pool is one producer for each stream, so that settling isn't refused for a missing one
//!   (`FreeProducers::into_producers`: `all`, `away`; `ProducerPool::into_producers`: `one_each` (`IsOneEach`)).
//!
//! # What is only tested
//!
//! Contracts can't name a value under a lock. `ProducerPool` holds its lock while it calls `FreeProducers`, which can be read in
//! its few lines. So these bodies meet its contracts: a `lend` that always answers `None`, a `give` that refuses each or lets it
//! go, and an `into_producers` that always answers the pool. Tests (tr_shared_tests): more threads than producers, whose records are all there
//! when the session is settled; the order of lends; a pool that lacks one, and after it was given.
#![tactic(auto)]

mod free;
mod pool;

pub use free::FreeProducers;
pub use pool::ProducerPool;
