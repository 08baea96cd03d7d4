//! The events of a session as values.

ghost use Rattle.std.specs.Prelude.{◌≡◌};
ghost use Rattle.tr_session.specs.Faults.{answer_wants_memory};

use crate::faults::StepFault;
use std::alloc::{Allocator, Global};
use tr_book::StreamSnap;
use tr_session_book::{Archive, SessionFault};
use tr_stream::{Cleared, CutDone, Offered, Payload, Released, Taken};
use tr_terms::Moment;

/// What is done to one stream of a session, by its number, or to the session itself.
#[derive(Drop)]
pub enum Event<A: Allocator = Global> {
    /// An offer to a stream at a moment, with an id and a payload.
    Offer(u64, Moment, u32, Payload<A>),
    /// A take from a stream.
    Take(u64),
    /// The pending rotation cuts a stream.
    Cut(u64),
    /// A stream is cleared.
    Clear(u64),
    /// A stream's part of an archive is released: the stream, and the archive.
    Release(u64, u64),
    /// A stream of a snapshot session is shown at a moment.
    Snap(u64, Moment),
    /// A stream of an active session takes offers from now on.
    Start(u64),
    /// A stream of a stopped session takes no offers from now on.
    Stop(u64),
    /// The session starts at a moment.
    SessionStart(Moment),
    /// The session stops.
    SessionStop,
    /// A rotation begins at a moment.
    RotateBegin(Moment),
    /// The pending rotation ends.
    RotateFinish,
}

/// What an event answered.
#[derive(Drop)]
pub enum Answer<A: Allocator = Global> {
    /// The answer to an offer.
    Offer(Result<Offered, StepFault>),
    /// The answer to a take.
    Take(Result<Taken, StepFault>),
    /// The answer to a cut.
    Cut(Result<CutDone, StepFault>),
    /// The answer to a clear of a stream.
    Clear(Result<Cleared, SessionFault>),
    /// The answer to a release of a stream's part.
    Release(Result<Released, SessionFault>),
    /// The answer to a snap of a stream.
    Snap(Result<StreamSnap<A>, SessionFault>),
    /// The answer to the start of a stream.
    Start(Result<(), SessionFault>),
    /// The answer to the stop of a stream.
    Stop(Result<(), SessionFault>),
    /// The answer to the start of the session.
    SessionStart(Result<(), SessionFault>),
    /// The answer to the stop of the session.
    SessionStop(Result<(), SessionFault>),
    /// The answer to the beginning of a rotation: the number of the chunk that it archives.
    RotateBegin(Result<u64, SessionFault>),
    /// The answer to the end of a rotation.
    RotateFinish(Result<Archive, SessionFault>),
}

impl<A: Allocator> Answer<A> {
    /// Whether an allocation failed.
    pub fn wants_memory(&self) -> bool
        ensures { result ≡ answer_wants_memory self.now }
    {
        match self {
            Answer::Offer(Err(fault)) => fault.wants_memory(),
            Answer::Take(Err(fault)) => fault.wants_memory(),
            Answer::Cut(Err(fault)) => fault.wants_memory(),
            Answer::Clear(Err(fault)) => fault.wants_memory(),
            Answer::Release(Err(fault)) => fault.wants_memory(),
            Answer::Snap(Err(fault)) => fault.wants_memory(),
            Answer::Start(Err(fault)) => fault.wants_memory(),
            Answer::Stop(Err(fault)) => fault.wants_memory(),
            Answer::SessionStart(Err(fault)) => fault.wants_memory(),
            Answer::SessionStop(Err(fault)) => fault.wants_memory(),
            Answer::RotateBegin(Err(fault)) => fault.wants_memory(),
            Answer::RotateFinish(Err(fault)) => fault.wants_memory(),
            _ => false,
        }
    }
}
