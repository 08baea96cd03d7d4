//! Events of a session, one at a time and in a list.

use super::alike::assert_same_session;
use super::{ARCHIVED, NO_MEMORY, Step, THREE, Told, make_steps, new_session, numbers};
use crate::sessions::single::BEGUN;
use crate::streams::size_of;
use crate::turns::{Call, assert_same, refuse_each_request};
use std::alloc::{Allocator, Global};
use std::process::Abort;
use tr_events::Events;
use tr_session::{Answer, ChannelConfig, Config, Event, Session, StepFault, run_session};
use tr_session_book::SessionFault;
use tr_stream::{Cleared, CutDone, CutFault, Payload, Released, TakeFault, Taken};
use tr_terms::{Mode, Name, OffsetMinutes, SessionMode};
use tr_testing::{Rationed, moment};
use uuid::Uuid;

/// An event at moment 100, if it has one.
#[derive(Clone, Copy)]
enum Happens {
    /// An offer of no bytes to stream 0.
    Offer,
    Take,
    Cut,
    Clear,
    /// A release of stream 0's part of archive 0.
    Release,
    Snap,
    Start,
    Stop,
    SessionStart,
    SessionStop,
    Begin,
    Finish,
}

/// The event, which takes no memory to make.
fn event<A: Allocator>(alloc: A, happens: Happens) -> Event<A> {
    match happens {
        Happens::Offer => Event::Offer(0, moment(100), 7, Payload::new(Vec::new(alloc))),
        Happens::Take => Event::Take(0),
        Happens::Cut => Event::Cut(0),
        Happens::Clear => Event::Clear(0),
        Happens::Release => Event::Release(0, 0),
        Happens::Snap => Event::Snap(0, moment(100)),
        Happens::Start => Event::Start(0),
        Happens::Stop => Event::Stop(0),
        Happens::SessionStart => Event::SessionStart(moment(100)),
        Happens::SessionStop => Event::SessionStop,
        Happens::Begin => Event::RotateBegin(moment(100)),
        Happens::Finish => Event::RotateFinish,
    }
}

/// What an event answered.
fn shown<A: Allocator>(answer: &Answer<A>) -> Told {
    match answer {
        Answer::Offer(answer) => Told::Offered(*answer),
        Answer::Take(answer) => Told::Taken(*answer),
        Answer::Cut(answer) => Told::Cut(*answer),
        Answer::Clear(answer) => Told::Cleared(*answer),
        Answer::Release(answer) => Told::Released(*answer),
        Answer::Snap(Ok(snap)) => {
            let (packets, bytes) = (snap.packets().len() as u64, size_of(snap.texts()) as u64);
            Told::Shown(Ok((100, packets, bytes)))
        }
        Answer::Snap(Err(fault)) => Told::Shown(Err(*fault)),
        Answer::Start(answer)
        | Answer::Stop(answer)
        | Answer::SessionStart(answer)
        | Answer::SessionStop(answer) => Told::Done(*answer),
        Answer::RotateBegin(answer) => Told::Number(*answer),
        Answer::RotateFinish(Ok(archive)) => Told::Archived(Ok(numbers(*archive)), None),
        Answer::RotateFinish(Err(fault)) => Told::Archived(Err(*fault), None),
    }
}

/// An event of a session after some steps, what it answers with memory, and its refusal if it takes any.
#[derive(Clone, Copy)]
struct Row {
    mode: SessionMode,
    steps: &'static [Step],
    happens: Happens,
    granted: Told,
    refused: Option<Told>,
}

/// A session, and where its memory comes from.
#[derive(Drop)]
struct Place<A: Allocator> {
    alloc: A,
    session: Session<A>,
}

impl<A: Allocator + Copy> Call<A> for Row {
    type Object = Place<A>;

    type Answer = Told;

    fn object(&self, rt: &impl Abort, alloc: A) -> Place<A> {
        let mut session = new_session(rt, alloc, self.mode);
        make_steps(rt, &mut session, self.steps);
        Place { alloc, session }
    }

    fn make(&self, _rt: &impl Abort, object: &mut Place<A>) -> Told {
        let answer = object.session.step(&event(object.alloc, self.happens));
        let told = shown(&answer);
        drop(answer);
        told
    }

    fn granted(&self, _rt: &impl Abort) -> Told {
        self.granted
    }

    fn refusal(&self, number: usize) -> Option<Told> {
        if number == 0 { self.refused } else { None }
    }

    fn assert_alike(&self, rt: &impl Abort, one: &Place<A>, other: &Place<A>) {
        assert_same_session(rt, &one.session, &other.session);
    }
}

/// The three streams, stopped.
const STOPPED: [Step; 6] = [
    Step::Channel("c"),
    Step::Threads("c", 3),
    Step::Start,
    Step::Offers(0, 7),
    Step::Offers(2, 1),
    Step::Stop,
];

/// A rotation that has cut all three streams.
const CUT: [Step; 9] = [
    Step::Channel("c"),
    Step::Threads("c", 3),
    Step::Start,
    Step::Offers(0, 7),
    Step::Offers(2, 1),
    Step::Begin(50),
    Step::Next,
    Step::Next,
    Step::Next,
];

static ROWS: [Row; 11] = [
    Row {
        mode: SessionMode::Local,
        steps: &THREE,
        happens: Happens::Clear,
        granted: Told::Cleared(Ok(Cleared {
            packets: 4,
            records: 7,
        })),
        refused: Some(Told::Cleared(Err(NO_MEMORY))),
    },
    Row {
        mode: SessionMode::Local,
        steps: &ARCHIVED,
        happens: Happens::Release,
        granted: Told::Released(Ok(Released {
            packets: 4,
            records: 7,
            bytes: 838,
        })),
        refused: Some(Told::Released(Err(NO_MEMORY))),
    },
    Row {
        mode: SessionMode::Local,
        steps: &THREE,
        happens: Happens::Take,
        granted: Told::Taken(Ok(Taken {
            seq: 0,
            count: 2,
            chunk: 0,
        })),
        refused: Some(Told::Taken(Err(StepFault::Take(TakeFault::NoMemory)))),
    },
    Row {
        mode: SessionMode::Local,
        steps: &BEGUN,
        happens: Happens::Cut,
        granted: Told::Cut(Ok(CutDone {
            chunk: 0,
            packets: 4,
            records: 7,
        })),
        refused: Some(Told::Cut(Err(StepFault::Cut(CutFault::NoMemory)))),
    },
    Row {
        mode: SessionMode::Snapshot,
        steps: &THREE,
        happens: Happens::Snap,
        granted: Told::Shown(Ok((100, 4, 838))),
        refused: Some(Told::Shown(Err(NO_MEMORY))),
    },
    Row {
        mode: SessionMode::Local,
        steps: &THREE,
        happens: Happens::Begin,
        granted: Told::Number(Ok(0)),
        refused: Some(Told::Number(Err(NO_MEMORY))),
    },
    // the others take no memory
    Row {
        mode: SessionMode::Local,
        steps: &CUT,
        happens: Happens::Finish,
        granted: Told::Archived(Ok((0, 0, 50)), None),
        refused: None,
    },
    Row {
        mode: SessionMode::Local,
        steps: &STOPPED,
        happens: Happens::SessionStart,
        granted: Told::Done(Ok(())),
        refused: None,
    },
    Row {
        mode: SessionMode::Local,
        steps: &THREE,
        happens: Happens::SessionStop,
        granted: Told::Done(Ok(())),
        refused: None,
    },
    Row {
        mode: SessionMode::Local,
        steps: &THREE,
        happens: Happens::Start,
        granted: Told::Done(Ok(())),
        refused: None,
    },
    Row {
        mode: SessionMode::Local,
        steps: &STOPPED,
        happens: Happens::Stop,
        granted: Told::Done(Ok(())),
        refused: None,
    },
];

#[test]
fn an_event_without_memory_changes_nothing(rt: HostRuntime) {
    let memory = Rationed::new(rt.alloc());
    let mut refused = 0usize;
    for row in &ROWS {
        refused = refused.wrapping_add(refuse_each_request(&rt, &memory, row));
    }
    assert!(rt; refused >= 8, "{refused}");
}

/// What a run made: the session, and what each event answered.
type Ran<A> = (Session<A>, Vec<Answer<A>, A>);

/// Where memory comes from, what a session is made with, its events, and what a run of them made, if anything.
#[derive(Drop)]
struct Listed<A: Allocator> {
    alloc: A,
    config: Config<'static, A>,
    events: Vec<Event<A>, A>,
    ran: Option<Ran<A>>,
}

/// A channel `c` with two threads.
fn config<A: Allocator + Copy>(rt: &impl Abort, alloc: A) -> Config<'static, A> {
    let mut channels = Vec::new(alloc);
    channels
        .push(ChannelConfig {
            name: Name::new("c").expect(rt, "a name"),
            size: 256,
            count: 4,
            mode: Mode::Discard,
            threads: 2,
        })
        .expect(rt, "memory");
    Config {
        uuid: Uuid::from_u128(1),
        offset: OffsetMinutes::new(60).expect(rt, "an offset"),
        mode: SessionMode::Local,
        events: Events::none(alloc),
        channels,
    }
}

/// A start, offers, a take, a clear, and a rotation up to its first cut. The end of the rotation is refused, since a stream isn't cut.
static LIST: [Happens; 10] = [
    Happens::SessionStart,
    Happens::Offer,
    Happens::Offer,
    Happens::Take,
    Happens::Clear,
    Happens::Begin,
    Happens::Cut,
    Happens::Finish,
    Happens::Snap,
    Happens::SessionStop,
];

/// A run of these events on a new session.
#[derive(Clone, Copy)]
struct Run;

impl<A: Allocator + Copy> Call<A> for Run {
    type Object = Listed<A>;

    type Answer = Result<(), SessionFault>;

    fn object(&self, rt: &impl Abort, alloc: A) -> Listed<A> {
        let mut events = Vec::new(alloc);
        for happens in &LIST {
            events.push(event(alloc, *happens)).expect(rt, "memory");
        }
        Listed {
            alloc,
            config: config(rt, alloc),
            events,
            ran: None,
        }
    }

    fn make(&self, _rt: &impl Abort, object: &mut Listed<A>) -> Result<(), SessionFault> {
        let ran = run_session(object.alloc, &object.config, object.events.as_slice())?;
        object.ran = Some(ran);
        Ok(())
    }

    fn granted(&self, _rt: &impl Abort) -> Result<(), SessionFault> {
        Ok(())
    }

    fn refusal(&self, number: usize) -> Option<Result<(), SessionFault>> {
        if number == 0 {
            Some(Err(NO_MEMORY))
        } else {
            None
        }
    }

    fn assert_alike(&self, rt: &impl Abort, one: &Listed<A>, other: &Listed<A>) {
        match (&one.ran, &other.ran) {
            (Some((session, answers)), Some((like, expected))) => {
                assert_same_session(rt, session, like);
                assert_same(rt, answers.len(), expected.len());
                for (answer, wanted) in answers.iter().zip(expected.iter()) {
                    assert_same(rt, shown(answer), shown(wanted));
                }
            }
            (ran, like) => assert_same(rt, (ran.is_none(), like.is_none()), (true, true)),
        }
    }
}

/// Runs the events with each request refused in turn. How many these are.
fn refuse_run(rt: &impl Abort, plain: Global) -> usize {
    let memory = Rationed::new(plain);
    refuse_each_request(rt, &memory, &Run)
}

#[test]
fn a_run_of_a_session_without_memory_makes_nothing(rt: HostRuntime) {
    let refused = refuse_run(&rt, rt.alloc());
    assert!(rt; refused >= 10, "{refused}");
}
