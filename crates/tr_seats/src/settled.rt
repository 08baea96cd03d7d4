//! A session that was settled.

ghost use Rattle.std.specs.Prelude.{◌≡◌};

use std::alloc::{Allocator, Global};
use std::marker::Model;
use tr_session::Session;

/// A session that was settled: no other thread has a part of it any more. Contracts see a `SessionOf StreamState`.
#[derive(Drop)]
pub struct Settled<A: Allocator = Global> {
    session: Session<A>,
}

impl<A: Allocator> Model for Settled<A> {
    ghost use Rattle.tr_session.specs.Session.{SessionOf};
    ghost use Rattle.tr_stream.specs.State.{StreamState};

    ghost Value = { SessionOf StreamState };

    ghost view = { λ s. s.session };
}

impl<A: Allocator> Settled<A> {
    /// A session whose seats were settled.
    pub(crate) fn of(session: Session<A>) -> Settled<A>
        ensures { result ≡ session }
    {
        Settled { session }
    }

    /// The session, to read.
    pub fn session(&self) -> &Session<A>
        ensures { result.now ≡ self.now }
    {
        &self.session
    }

    /// The session itself. It takes no memory.
    pub fn into_session(self) -> Session<A>
        ensures { result ≡ self }
    {
        let Settled { session } = self;
        session
    }
}
