//! A stream's calls as values.

use crate::answers::{
    ClearFault, Cleared, CutDone, CutFault, OfferFault, Offered, ReleaseFault, Released, TakeFault,
    Taken,
};
use crate::payload::Payload;
use std::alloc::{AllocError, Allocator, Global};
use tr_book::StreamSnap;
use tr_terms::Moment;

/// A call of a stream.
#[derive(Drop)]
pub enum StreamEvent<A: Allocator = Global> {
    /// An offer at a moment, with an id and a payload.
    Offer(Moment, u32, Payload<A>),
    /// A take of the oldest sub-buffer that waits.
    Take,
    /// A cut at a moment.
    Cut(Moment),
    /// A clear of the ring and of the current part.
    Clear,
    /// A release of a closed part, by its number.
    Release(u64),
    /// A peek at a moment.
    Peek(Moment),
    /// The stream takes offers from now on.
    Start,
    /// The stream takes no offers from now on.
    Stop,
}

/// What a call answered.
#[derive(Drop)]
pub enum StreamAnswer<A: Allocator = Global> {
    /// The answer to an offer.
    Offer(Result<Offered, OfferFault>),
    /// The answer to a take.
    Take(Result<Taken, TakeFault>),
    /// The answer to a cut.
    Cut(Result<CutDone, CutFault>),
    /// The answer to a clear.
    Clear(Result<Cleared, ClearFault>),
    /// The answer to a release.
    Release(Result<Released, ReleaseFault>),
    /// The answer to a peek.
    Peek(Result<StreamSnap<A>, AllocError>),
    /// The answer to a start, which is never refused.
    Start,
    /// The answer to a stop, which is never refused.
    Stop,
}
