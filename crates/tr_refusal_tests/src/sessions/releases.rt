//! Releases of an archive, each of whose requests for memory is refused in turn.

use super::alike::assert_same_session;
use super::{ARCHIVED, NO_MEMORY, make_steps, new_session};
use crate::turns::{Call, refuse_each_request};
use std::alloc::{Allocator, Global};
use std::process::Abort;
use tr_session::Session;
use tr_session_book::SessionFault;
use tr_terms::SessionMode;
use tr_testing::Rationed;

/// The release of an archive of three streams: the first one's part has four packets, whose runs fill their room, the second
/// one's has none, and the last one's has one. With its answer comes how many parts are released.
struct Whole;

impl<A: Allocator + Copy> Call<A> for Whole {
    type Object = Session<A>;

    type Answer = (Result<(), SessionFault>, u64);

    fn object(&self, rt: &impl Abort, alloc: A) -> Session<A> {
        let mut session = new_session(rt, alloc, SessionMode::Local);
        make_steps(rt, &mut session, &ARCHIVED);
        session
    }

    fn make(&self, _rt: &impl Abort, session: &mut Session<A>) -> Self::Answer {
        let answer = session.release(0);
        (answer, session.archive_size(0).released)
    }

    fn granted(&self, _rt: &impl Abort) -> Self::Answer {
        (Ok(()), 3)
    }

    /// The part without packets is released before the one that is refused memory.
    fn refusal(&self, number: usize) -> Option<Self::Answer> {
        match number {
            0 => Some((Err(NO_MEMORY), 0)),
            1 => Some((Err(NO_MEMORY), 2)),
            _ => None,
        }
    }

    /// The runs of each part are a request, and those of the last one are moved to less room.
    fn spares(&self, request: usize) -> bool {
        request == 2
    }

    fn assert_alike(&self, rt: &impl Abort, one: &Session<A>, other: &Session<A>) {
        assert_same_session(rt, one, other);
    }

    /// The parts before the one that was refused memory are released.
    fn leave(&self, _rt: &impl Abort, refusal: Self::Answer, session: &mut Session<A>) {
        for i in 0..refusal.1 {
            let _ = session.release_stream(i, 0);
        }
    }
}

#[test]
fn a_release_without_memory_stops_before_a_part(rt: HostRuntime) {
    let memory = Rationed::new(rt.alloc());
    let refused = refuse_each_request(&rt, &memory, &Whole);
    assert!(rt; refused >= 2, "{refused}");
}
