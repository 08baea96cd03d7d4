//! Clears of a session, each of whose requests for memory is refused in turn.

use super::alike::assert_same_session;
use super::{NO_MEMORY, THREE, make_steps, new_session};
use crate::turns::{Call, refuse_each_request};
use std::alloc::{Allocator, Global};
use std::process::Abort;
use tr_session::Session;
use tr_session_book::SessionFault;
use tr_terms::SessionMode;
use tr_testing::Rationed;

/// The three streams: the first has seven records in four packets, the last one in one.
fn three<A: Allocator + Copy>(rt: &impl Abort, alloc: A) -> Session<A> {
    let mut session = new_session(rt, alloc, SessionMode::Local);
    make_steps(rt, &mut session, &THREE);
    session
}

/// How many streams have something cleared.
fn streams_cleared<A: Allocator>(session: &Session<A>) -> usize {
    let mut cleared = 0usize;
    for i in 0..session.streams() {
        if session.stream(i).is_some_and(|s| s.counts().cleared > 0) {
            cleared = cleared.wrapping_add(1);
        }
    }
    cleared
}

/// The clear of all streams. With its answer comes how many streams are cleared.
struct Whole;

impl<A: Allocator + Copy> Call<A> for Whole {
    type Object = Session<A>;

    type Answer = (Result<u128, SessionFault>, usize);

    fn object(&self, rt: &impl Abort, alloc: A) -> Session<A> {
        three(rt, alloc)
    }

    fn make(&self, _rt: &impl Abort, session: &mut Session<A>) -> Self::Answer {
        let answer = session.clear();
        (answer, streams_cleared(session))
    }

    fn granted(&self, _rt: &impl Abort) -> Self::Answer {
        (Ok(8), 2)
    }

    fn refusal(&self, number: usize) -> Option<Self::Answer> {
        if number < 2 {
            Some((Err(NO_MEMORY), number))
        } else {
            None
        }
    }

    fn assert_alike(&self, rt: &impl Abort, one: &Session<A>, other: &Session<A>) {
        assert_same_session(rt, one, other);
    }

    /// The streams before the one that was refused memory are cleared.
    fn leave(&self, _rt: &impl Abort, refusal: Self::Answer, session: &mut Session<A>) {
        if refusal.1 == 1 {
            let _ = session.clear_stream(0);
        }
    }

    /// It answers the records that are left.
    fn make_again(
        &self,
        rt: &impl Abort,
        refusal: Self::Answer,
        session: &mut Session<A>,
    ) -> Self::Answer {
        let before = if refusal.1 == 1 { 7 } else { 0 };
        let (answer, cleared) = self.make(rt, session);
        (answer.map(|left| left.wrapping_add(before)), cleared)
    }
}

#[test]
fn a_clear_without_memory_stops_before_a_stream(rt: HostRuntime) {
    let memory = Rationed::new(rt.alloc());
    let refused = refuse_each_request(&rt, &memory, &Whole);
    assert!(rt; refused >= 6, "{refused}");
}
