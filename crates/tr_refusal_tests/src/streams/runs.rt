//! A stream over a list of calls.

use super::{assert_same_stream, size_of};
use crate::turns::{Call, assert_same, only, refuse_each_request};
use std::alloc::{AllocError, Allocator};
use std::process::Abort;
use tr_stream::{
    ClearFault, Cleared, CutDone, CutFault, OfferFault, Offered, Payload, ReleaseFault, Released,
    Stream, StreamAnswer, StreamConfig, StreamEvent, TakeFault, Taken, run_stream,
};
use tr_terms::{Geometry, Mode, SessionMode};
use tr_testing::{Rationed, moment};
use uuid::Uuid;

/// What a call of a list answered.
#[derive(Clone, Copy, Debug, PartialEq, Eq)]
enum Said {
    Offer(Result<Offered, OfferFault>),
    Take(Result<Taken, TakeFault>),
    Cut(Result<CutDone, CutFault>),
    Clear(Result<Cleared, ClearFault>),
    Release(Result<Released, ReleaseFault>),
    /// The bytes that a look shows.
    Peek(Option<usize>),
    Start,
    Stop,
}

/// What an answer says.
fn shown<A: Allocator>(answer: &StreamAnswer<A>) -> Said {
    match answer {
        StreamAnswer::Offer(answer) => Said::Offer(*answer),
        StreamAnswer::Take(answer) => Said::Take(*answer),
        StreamAnswer::Cut(answer) => Said::Cut(*answer),
        StreamAnswer::Clear(answer) => Said::Clear(*answer),
        StreamAnswer::Release(answer) => Said::Release(*answer),
        StreamAnswer::Peek(Ok(snap)) => Said::Peek(Some(size_of(snap.texts()))),
        StreamAnswer::Peek(Err(_)) => Said::Peek(None),
        StreamAnswer::Start => Said::Start,
        StreamAnswer::Stop => Said::Stop,
    }
}

/// What a run made: the stream, and what each call answered.
type Ran<A> = (Stream<A>, Vec<StreamAnswer<A>, A>);

/// Where memory comes from, the calls, and what a run of them made, if anything.
#[derive(Drop)]
struct Place<A: Allocator> {
    alloc: A,
    events: Vec<StreamEvent<A>, A>,
    ran: Option<Ran<A>>,
}

/// A call of a list.
#[derive(Clone, Copy)]
enum Asked {
    Start,
    /// An offer of 50 bytes. Two such records fill a sub-buffer.
    Offer,
    Take,
    Peek,
    Clear,
    Cut,
    /// A release of part 0.
    Release,
    Stop,
}

/// Each call, so that those which ask for memory have packets. The release's four runs fill their room.
static LIST: [Asked; 20] = [
    Asked::Start,
    Asked::Offer,
    Asked::Offer,
    Asked::Offer,
    Asked::Offer,
    Asked::Offer,
    Asked::Take,
    Asked::Peek,
    Asked::Clear,
    Asked::Offer,
    Asked::Offer,
    Asked::Offer,
    Asked::Offer,
    Asked::Offer,
    Asked::Offer,
    Asked::Offer,
    Asked::Offer,
    Asked::Cut,
    Asked::Release,
    Asked::Stop,
];

/// The call at moment 5, if it has one.
fn event<A: Allocator>(rt: &impl Abort, alloc: A, asked: Asked) -> StreamEvent<A> {
    match asked {
        Asked::Start => StreamEvent::Start,
        Asked::Offer => {
            let payload = Payload::copy_of(alloc, &[0x61; 50]).expect(rt, "memory");
            StreamEvent::Offer(moment(5), 7, payload)
        }
        Asked::Take => StreamEvent::Take,
        Asked::Peek => StreamEvent::Peek(moment(5)),
        Asked::Clear => StreamEvent::Clear,
        Asked::Cut => StreamEvent::Cut(moment(5)),
        Asked::Release => StreamEvent::Release(0),
        Asked::Stop => StreamEvent::Stop,
    }
}

/// A run of these calls on a new stream, whose ring has four sub-buffers of 256 bytes.
#[derive(Clone, Copy)]
struct Run;

impl<A: Allocator + Copy> Call<A> for Run {
    type Object = Place<A>;

    type Answer = Result<(), AllocError>;

    fn object(&self, rt: &impl Abort, alloc: A) -> Place<A> {
        let mut events = Vec::new(alloc);
        for asked in &LIST {
            events.push(event(rt, alloc, *asked)).expect(rt, "memory");
        }
        Place {
            alloc,
            events,
            ran: None,
        }
    }

    fn make(&self, rt: &impl Abort, object: &mut Place<A>) -> Result<(), AllocError> {
        let config = StreamConfig {
            uuid: Uuid::from_u128(1),
            number: 0,
            geometry: Geometry::new(256, 4).expect(rt, "a geometry"),
            mode: Mode::Discard,
            session: SessionMode::Local,
        };
        object.ran = Some(run_stream(object.alloc, config, object.events.as_slice())?);
        Ok(())
    }

    fn granted(&self, _rt: &impl Abort) -> Result<(), AllocError> {
        Ok(())
    }

    fn refusal(&self, number: usize) -> Option<Result<(), AllocError>> {
        only(number, Err(AllocError))
    }

    fn assert_alike(&self, rt: &impl Abort, one: &Place<A>, other: &Place<A>) {
        match (&one.ran, &other.ran) {
            (Some((stream, answers)), Some((like, expected))) => {
                assert_same_stream(rt, stream, like);
                assert_same(rt, answers.len(), expected.len());
                for (answer, wanted) in answers.iter().zip(expected.iter()) {
                    assert_same(rt, shown(answer), shown(wanted));
                }
            }
            (ran, like) => assert_same(rt, (ran.is_none(), like.is_none()), (true, true)),
        }
    }
}

#[test]
fn a_run_of_a_stream_without_memory_makes_nothing(rt: HostRuntime) {
    let memory = Rationed::new(rt.alloc());
    let refused = refuse_each_request(&rt, &memory, &Run);
    assert!(rt; refused >= 10, "{refused}");
}
