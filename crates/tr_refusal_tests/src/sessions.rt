//! Calls of a session.

mod alike;
mod clears;
mod events;
mod free;
mod releases;
mod rotations;
mod shared;
mod single;

use crate::scarce::{UNIT, new_heap};
use crate::streams::size_of;
use crate::turns::{Call, assert_same, refuse_each, refuse_each_request};
use alike::assert_same_session;
use std::alloc::{Allocator, Global};
use std::process::Abort;
use tr_schedule::{Cause, Schedule};
use tr_session::{Next, Session, StepFault, Ticked};
use tr_session_book::{Archive, SessionFault};
use tr_snapshot::Snapshot;
use tr_stream::{Cleared, CutDone, Offered, Released, Taken};
use tr_terms::{Mode, Moment, Name, OffsetMinutes, SessionMode};
use tr_testing::{Rationed, moment};
use uuid::Uuid;

/// What a session is set up by.
#[derive(Clone, Copy)]
enum Step {
    /// A new channel, whose rings have four sub-buffers of 256 bytes.
    Channel(&'static str),
    /// Threads of a channel, and how many.
    Threads(&'static str, u64),
    /// A start at moment 0.
    Start,
    Stop,
    /// Offers of 50 bytes to a stream, and how many, at the moments from 1 on. Two of them fill a sub-buffer.
    Offers(u64, u64),
    Take(u64),
    /// A schedule with this size.
    Schedule(u64),
    /// The begin of a rotation at this moment.
    Begin(u64),
    /// The next cut of the rotation.
    Next,
    /// The end of the rotation.
    Finish,
    /// A whole rotation at this moment.
    Rotate(u64),
}

/// A call of a session.
#[derive(Clone, Copy, Debug, PartialEq, Eq)]
enum Asked {
    /// A new channel of this name.
    Channel(&'static str),
    /// A thread of the channel `c`.
    Thread,
    Take(u64),
    /// A cut of a stream.
    Cut(u64),
    /// The begin of a rotation at moment 100.
    Begin,
    /// The next step of a rotation.
    Next,
    /// A whole rotation at moment 100.
    Rotate,
    /// A tick at moment 100.
    Tick,
    /// A snapshot at moment 100.
    Snapshot,
    /// A look at a stream at moment 100.
    Look(u64),
    /// A snapshot at moment 100, to which the producer of a stream is lent if threads share the session.
    SnapshotWith(u64),
    /// A drainer, if threads share the session.
    Drainer,
}

/// An archive's number, its beginning and its end.
type Chunk = (u64, u64, u64);

/// What such a call answers.
#[derive(Clone, Copy, Debug, PartialEq, Eq)]
enum Told {
    Done(Result<(), SessionFault>),
    Number(Result<u64, SessionFault>),
    Offered(Result<Offered, StepFault>),
    Taken(Result<Taken, StepFault>),
    Cut(Result<CutDone, StepFault>),
    Cleared(Result<Cleared, SessionFault>),
    Released(Result<Released, SessionFault>),
    Next(Result<Next, StepFault>),
    /// Also how many cuts the rotation that is held up has made.
    Archived(Result<Chunk, SessionFault>, Option<u64>),
    /// None of an idle tick. Also the cuts, as above.
    Ticked(Result<Option<(Cause, Chunk)>, SessionFault>, Option<u64>),
    /// The moment of a snapshot, and the packets and the bytes that it shows.
    Shown(Result<(u64, u64, u64), SessionFault>),
}

/// A call of a session after some steps.
#[derive(Clone, Copy)]
struct Row {
    mode: SessionMode,
    steps: &'static [Step],
    asked: Asked,
    granted: Told,
    /// Its refusals, as it gets more and more memory.
    refused: &'static [Told],
}

/// What a ring of a session of this mode does if it is full.
fn ring_mode(mode: SessionMode) -> Mode {
    match mode {
        SessionMode::Local => Mode::Discard,
        SessionMode::Snapshot => Mode::Overwrite,
    }
}

/// Adds a channel.
fn add_channel<A: Allocator + Copy>(
    rt: &impl Abort,
    session: &mut Session<A>,
    name: &str,
) -> Result<(), SessionFault> {
    let name = Name::new(name).expect(rt, "a name");
    let mode = ring_mode(session.book().mode());
    session.add_channel(&name, 256, 4, mode)
}

/// Adds `count` threads.
fn add_threads<A: Allocator + Copy>(
    rt: &impl Abort,
    session: &mut Session<A>,
    name: &str,
    count: u64,
) {
    for _ in 0..count {
        session.add_thread(name).expect(rt, "a thread");
    }
}

/// Offers `count` records.
fn make_offers<A: Allocator + Copy>(rt: &impl Abort, session: &mut Session<A>, i: u64, count: u64) {
    for at in 1..=count {
        session
            .offer(i, moment(at), 7, &[0x61; 50])
            .expect(rt, "an offer");
    }
}

/// The schedule with this size.
fn sized(rt: &impl Abort, size: u64) -> Schedule {
    Schedule::new(None, Some(size)).expect(rt, "a schedule")
}

/// A session without channels.
fn new_session<A: Allocator + Copy>(rt: &impl Abort, alloc: A, mode: SessionMode) -> Session<A> {
    let offset = OffsetMinutes::new(60).expect(rt, "an offset");
    Session::new(alloc, Uuid::from_u128(1), offset, mode)
}

/// Makes a step.
fn make_step<A: Allocator + Copy>(rt: &impl Abort, session: &mut Session<A>, step: Step) {
    match step {
        Step::Channel(name) => add_channel(rt, session, name).expect(rt, "a channel"),
        Step::Threads(name, count) => add_threads(rt, session, name, count),
        Step::Start => session.start(moment(0)).expect(rt, "a start"),
        Step::Stop => session.stop().expect(rt, "a stop"),
        Step::Offers(i, count) => make_offers(rt, session, i, count),
        Step::Take(i) => assert_same(rt, session.take(i).is_ok(), true),
        Step::Schedule(size) => assert_same(
            rt,
            session.set_schedule(Some(sized(rt, size))),
            Ok(()),
        ),
        Step::Begin(at) => assert_same(rt, session.rotate_begin(moment(at)).is_ok(), true),
        Step::Next => assert_same(rt, session.rotate_next().is_ok(), true),
        Step::Finish => assert_same(rt, session.rotate_finish().is_ok(), true),
        Step::Rotate(at) => assert_same(rt, session.rotate(moment(at)).is_ok(), true),
    }
}

/// Makes each step.
fn make_steps<A: Allocator + Copy>(rt: &impl Abort, session: &mut Session<A>, steps: &[Step]) {
    for step in steps {
        make_step(rt, session, *step);
    }
}

/// The moment of a snapshot, and the packets and the bytes that it shows.
fn snapshot_shown<A: Allocator>(snapshot: &Snapshot<A>) -> (u64, u64, u64) {
    let (mut packets, mut bytes) = (0u64, 0u64);
    for snap in snapshot.streams() {
        packets = packets.wrapping_add(snap.packets().len() as u64);
        bytes = bytes.wrapping_add(size_of(snap.texts()) as u64);
    }
    (snapshot.moment().get(), packets, bytes)
}

/// What a snapshot shows.
fn snapshot<A: Allocator + Copy>(
    session: &mut Session<A>,
    at: Moment,
) -> Result<(u64, u64, u64), SessionFault> {
    match session.snapshot(at) {
        Ok(snapshot) => Ok(snapshot_shown(&snapshot)),
        Err(fault) => Err(fault),
    }
}

/// What a look at a stream shows.
fn look<A: Allocator + Copy>(
    session: &Session<A>,
    i: u64,
    at: Moment,
) -> Result<(u64, u64, u64), SessionFault> {
    match session.snap(i, at) {
        Ok(snap) => Ok((
            at.get(),
            snap.packets().len() as u64,
            size_of(snap.texts()) as u64,
        )),
        Err(fault) => Err(fault),
    }
}

/// An archive's number, its beginning and its end.
fn numbers(archive: Archive) -> Chunk {
    (archive.id, archive.begin.get(), archive.end.get())
}

/// What a rotation answers.
fn rotate<A: Allocator + Copy>(session: &mut Session<A>) -> Result<Chunk, SessionFault> {
    match session.rotate(moment(100)) {
        Ok(archive) => Ok(numbers(archive)),
        Err(fault) => Err(fault),
    }
}

/// What a tick answers.
fn tick<A: Allocator + Copy>(
    session: &mut Session<A>,
) -> Result<Option<(Cause, Chunk)>, SessionFault> {
    match session.tick(moment(100)) {
        Ok(Ticked::Idle) => Ok(None),
        Ok(Ticked::Rotated { cause, archive }) => Ok(Some((cause, numbers(archive)))),
        Err(fault) => Err(fault),
    }
}

/// How many cuts the pending rotation has made, if there is one.
fn cuts_made<A: Allocator>(session: &Session<A>) -> Option<u64> {
    session.book().pending().map(|pending| pending.cut)
}

/// Makes a call.
fn ask<A: Allocator + Copy>(rt: &impl Abort, session: &mut Session<A>, asked: Asked) -> Told {
    match asked {
        Asked::Channel(name) => Told::Done(add_channel(rt, session, name)),
        Asked::Thread => Told::Number(session.add_thread("c")),
        Asked::Take(i) => Told::Taken(session.take(i)),
        Asked::Cut(i) => Told::Cut(session.cut(i)),
        Asked::Begin => Told::Number(session.rotate_begin(moment(100))),
        Asked::Next => Told::Next(session.rotate_next()),
        Asked::Rotate => Told::Archived(rotate(session), cuts_made(session)),
        Asked::Tick => Told::Ticked(tick(session), cuts_made(session)),
        Asked::Snapshot | Asked::SnapshotWith(_) => Told::Shown(snapshot(session, moment(100))),
        Asked::Drainer => Told::Done(Ok(())),
        Asked::Look(i) => Told::Shown(look(session, i, moment(100))),
    }
}

/// Goes on with the pending rotation, and ends it.
fn go_on<A: Allocator + Copy>(rt: &impl Abort, session: &mut Session<A>) -> Chunk {
    for _ in 0..=session.streams() {
        session.rotate_next().expect(rt, "a cut");
    }
    numbers(session.rotate_finish().expect(rt, "an archive"))
}

/// How many cuts a rotation that this refusal holds up has made. None if it hasn't begun.
fn held_after(refusal: Told) -> Option<u64> {
    match refusal {
        Told::Archived(_, cuts) | Told::Ticked(_, cuts) => cuts,
        _ => None,
    }
}

impl<A: Allocator + Copy> Call<A> for Row {
    type Object = Session<A>;

    type Answer = Told;

    fn object(&self, rt: &impl Abort, alloc: A) -> Session<A> {
        let mut session = new_session(rt, alloc, self.mode);
        make_steps(rt, &mut session, self.steps);
        session
    }

    fn make(&self, rt: &impl Abort, object: &mut Session<A>) -> Told {
        ask(rt, object, self.asked)
    }

    fn granted(&self, _rt: &impl Abort) -> Told {
        self.granted
    }

    fn refusal(&self, number: usize) -> Option<Told> {
        self.refused.get(number).copied()
    }

    fn assert_alike(&self, rt: &impl Abort, one: &Session<A>, other: &Session<A>) {
        assert_same_session(rt, one, other);
    }

    fn leave(&self, rt: &impl Abort, refusal: Told, object: &mut Session<A>) {
        if let Some(cuts) = held_after(refusal) {
            make_step(rt, object, Step::Begin(100));
            for _ in 0..cuts {
                make_step(rt, object, Step::Next);
            }
        }
    }

    fn make_again(&self, rt: &impl Abort, refusal: Told, object: &mut Session<A>) -> Told {
        let cuts = held_after(refusal);
        let again = ask(rt, object, self.asked);
        if cuts.is_none() {
            return again;
        }
        assert_same(rt, again, self.held_up(cuts));
        assert_same(rt, object.stop(), Err(SessionFault::RotationPending));
        self.gone_on(go_on(rt, object))
    }
}

impl Row {
    /// What the call answers while a rotation is pending.
    fn held_up(&self, cuts: Option<u64>) -> Told {
        match self.asked {
            Asked::Tick => Told::Ticked(Ok(None), cuts),
            _ => Told::Archived(Err(SessionFault::RotationPending), cuts),
        }
    }

    /// What the call would have answered if its rotation had gone on after all, and made this archive.
    fn gone_on(&self, chunk: Chunk) -> Told {
        match self.asked {
            Asked::Tick => Told::Ticked(Ok(Some((Cause::Size, chunk))), None),
            _ => Told::Archived(Ok(chunk), None),
        }
    }
}

/// Makes the calls of some rows with too little memory. How often, and how many requests were refused in turn.
fn refuse_rows(rt: &impl Abort, plain: Global, rows: &[Row]) -> (usize, usize) {
    let heap = new_heap(rt, plain);
    let memory = Rationed::new(plain);
    let (mut tried, mut refused) = (0usize, 0usize);
    for row in rows {
        tried = tried.wrapping_add(refuse_each(rt, plain, &heap, UNIT, row));
        refused = refused.wrapping_add(refuse_each_request(rt, &memory, row));
    }
    (tried, refused)
}

/// What a session answers if an allocation fails.
const NO_MEMORY: SessionFault = SessionFault::NoMemory;

/// Three streams: seven offers to the first one, which fill three sub-buffers and begin a fourth, and one offer to the third.
const THREE: [Step; 5] = [
    Step::Channel("c"),
    Step::Threads("c", 3),
    Step::Start,
    Step::Offers(0, 7),
    Step::Offers(2, 1),
];

/// The same, in an archive. The first one has three packets of 228 bytes there, and one of 154.
const ARCHIVED: [Step; 6] = [
    Step::Channel("c"),
    Step::Threads("c", 3),
    Step::Start,
    Step::Offers(0, 7),
    Step::Offers(2, 1),
    Step::Rotate(50),
];
