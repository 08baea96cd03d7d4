//! What all modules of these tests share: sessions as lists of steps.

mod audits;
mod channels;
mod clears;
mod declared;
mod releases;
mod rotations;
mod runs;
mod snapshots;
mod ticks;

use crate::asserting::{Place, assert_at, assert_same};
use snapshots::{Shown, assert_shown};
use std::alloc::{Allocator, Global};
use std::process::Abort;
use tr_schedule::{Cause, Schedule};
use tr_session::{Next, Session, StepFault, Ticked};
use tr_session_book::{Archive, SessionFault, State};
use tr_stream::{Cleared, CutDone, Fate, Offered, Released, Taken};
use tr_terms::{Mode, Name, OffsetMinutes, SessionMode};
use tr_testing::moment;
use uuid::Uuid;

/// An archive's number, its beginning and its end.
type Row = (u64, u64, u64);

/// A call of a session and what it answers, or something that can be seen of the session.
#[derive(Clone, Copy)]
enum Step {
    /// A new channel with this size of a sub-buffer, number of them and mode.
    Channel(&'static str, (u64, u64, Mode), Result<(), SessionFault>),
    /// Threads of a channel, which get the numbers from the first up to the second.
    Threads(&'static str, u64, u64),
    /// A thread of a channel that is refused.
    NoThread(&'static str, SessionFault),
    /// A start at this moment.
    Start(u64, Result<(), SessionFault>),
    Stop(Result<(), SessionFault>),
    /// A schedule's period and size.
    Schedule(Option<(u64, Option<u64>)>, Result<(), SessionFault>),
    /// An offer to a stream: its number, the moment, and the payload's bytes.
    Offer((u64, u64, usize), Result<Offered, StepFault>),
    /// Offers to stream 0 that are accepted: from the first moment up to the second, and how many bytes each payload has.
    Offers(u64, u64, usize),
    Take(u64, Result<Taken, StepFault>),
    /// A whole rotation at this moment.
    Rotate(u64, Result<Row, SessionFault>),
    /// The begin of a rotation at this moment.
    Begin(u64, Result<u64, SessionFault>),
    /// The next step of a rotation.
    Next(Result<Next, StepFault>),
    /// A cut of a stream.
    Cut(u64, Result<CutDone, StepFault>),
    /// The end of a rotation.
    Finish(Result<Row, SessionFault>),
    /// A clear of a stream.
    Clear(u64, Result<Cleared, SessionFault>),
    /// A clear of the session, and how many records it answers.
    ClearAll(Result<u128, SessionFault>),
    /// A release of a stream's part of an archive.
    Release(u64, u64, Result<Released, SessionFault>),
    /// A release of an archive.
    ReleaseAll(u64, Result<(), SessionFault>),
    /// How many of a stream's records are cleared, and how many are in its chunks.
    Kept(u64, (u64, u64)),
    /// A tick at this moment, and the rotation that it made.
    Tick(u64, Option<(Cause, Row)>),
    /// A snapshot at this moment.
    Show(u64, Shown),
    /// A snapshot at this moment that is refused.
    NoShow(u64, SessionFault),
    /// The fate of a stream's record with this serial.
    Fate(u64, u64, Result<Option<Fate>, StepFault>),
    /// The last moment that the session stored.
    Last(u64),
    /// The begin of the current chunk.
    ChunkBegin(u64),
    State(State),
    /// How many archives there are.
    Archives(usize),
    /// The packets, records and bytes of an archive without a released part.
    Size(u64, (u128, u128, u128)),
    /// The same of an archive, and how many streams' parts are released.
    Left(u64, (u128, u128, u128), u64),
}

static PAYLOAD: [u8; 153] = [0x61; 153];

/// A session of the nil identifier, at no offset.
fn new_session<A: Allocator + Copy>(rt: &impl Abort, alloc: A, mode: SessionMode) -> Session<A> {
    let offset = OffsetMinutes::new(0).expect(rt, "an offset");
    Session::new(alloc, Uuid::nil(), offset, mode)
}

/// A new session after these steps.
fn after(rt: &impl Abort, alloc: Global, mode: SessionMode, steps: &[Step]) -> Session {
    let mut session = new_session(rt, alloc, mode);
    assert_steps(rt, &mut session, 0, steps);
    session
}

/// Makes the first steps and then those of each list, which begins with a session of its own.
fn assert_lists(
    rt: &impl Abort,
    alloc: Global,
    mode: SessionMode,
    first: &[Step],
    lists: &[&[Step]],
) {
    for (list, steps) in lists.iter().enumerate() {
        let mut session = after(rt, alloc, mode, first);
        assert_steps(rt, &mut session, list + 1, steps);
        drop(session);
    }
}

/// Makes each step, and asserts what it answers.
fn assert_steps<A: Allocator + Copy>(
    rt: &impl Abort,
    session: &mut Session<A>,
    list: usize,
    steps: &[Step],
) {
    for (number, step) in steps.iter().enumerate() {
        assert_step(rt, session, (list, number), step);
    }
}

/// Makes a step before a session's rotations, and asserts what it answers.
fn assert_step<A: Allocator + Copy>(
    rt: &impl Abort,
    session: &mut Session<A>,
    place: Place,
    step: &Step,
) {
    match *step {
        Step::Channel(name, geometry, want) => assert_added(
            rt, session, place, name, geometry, want,
        ),
        Step::Threads(channel, from, to) => assert_threads(rt, session, place, channel, from, to),
        Step::NoThread(channel, fault) => {
            assert_at(rt, place, session.add_thread(channel), Err(fault));
        }
        Step::Start(at, want) => assert_at(rt, place, session.start(moment(at)), want),
        Step::Stop(want) => assert_at(rt, place, session.stop(), want),
        Step::Schedule(schedule, want) => assert_scheduled(rt, session, place, schedule, want),
        Step::Offer(row, want) => assert_at(rt, place, offer(rt, session, row), want),
        Step::Offers(from, to, len) => make_offers(rt, session, from, to, len),
        Step::Take(i, want) => assert_at(rt, place, session.take(i), want),
        Step::Show(at, shown) => assert_shown(rt, session, place, at, &shown),
        Step::NoShow(at, fault) => {
            assert_at(rt, place, session.snapshot(moment(at)).err(), Some(fault));
        }
        _ => assert_rotation_step(rt, session, place, step),
    }
}

/// Makes a step of a rotation, or looks at the session, and asserts what this answers.
fn assert_rotation_step<A: Allocator + Copy>(
    rt: &impl Abort,
    session: &mut Session<A>,
    place: Place,
    step: &Step,
) {
    match *step {
        Step::Rotate(at, want) => assert_at(rt, place, row(session.rotate(moment(at))), want),
        Step::Begin(at, want) => assert_at(rt, place, session.rotate_begin(moment(at)), want),
        Step::Next(want) => assert_at(rt, place, session.rotate_next(), want),
        Step::Cut(i, want) => assert_at(rt, place, session.cut(i), want),
        Step::Finish(want) => assert_at(rt, place, row(session.rotate_finish()), want),
        Step::Clear(i, want) => assert_at(rt, place, session.clear_stream(i), want),
        Step::ClearAll(want) => assert_at(rt, place, session.clear(), want),
        Step::Release(i, k, want) => assert_at(rt, place, session.release_stream(i, k), want),
        Step::ReleaseAll(k, want) => assert_at(rt, place, session.release(k), want),
        Step::Kept(i, want) => {
            let counts = session.stream(i).expect(rt, "a stream").counts();
            assert_at(rt, place, (counts.cleared, counts.in_chunks), want);
        }
        Step::Tick(at, want) => assert_at(rt, place, ticked(session.tick(moment(at))), Ok(want)),
        Step::Fate(i, serial, want) => assert_at(rt, place, session.fate_of(i, serial), want),
        Step::Last(at) => assert_at(rt, place, session.book().last().get(), at),
        Step::ChunkBegin(at) => assert_at(rt, place, session.book().begin().get(), at),
        Step::Archives(count) => assert_at(rt, place, session.book().archives().len(), count),
        Step::State(state) => assert_at(rt, place, session.book().state(), state),
        Step::Size(id, want) => assert_size(rt, session, place, id, (want, 0)),
        Step::Left(id, want, released) => assert_size(rt, session, place, id, (want, released)),
        _ => panic!(rt; "a step without a call, {place:?}"),
    }
}

/// Asserts how much an archive holds, and of how many streams the part is released.
fn assert_size<A: Allocator + Copy>(
    rt: &impl Abort,
    session: &Session<A>,
    place: Place,
    id: u64,
    want: ((u128, u128, u128), u64),
) {
    let size = session.archive_size(id);
    let found = ((size.packets, size.records, size.bytes), size.released);
    assert_at(rt, place, found, want);
}

fn assert_added<A: Allocator + Copy>(
    rt: &impl Abort,
    session: &mut Session<A>,
    place: Place,
    name: &str,
    (size, count, mode): (u64, u64, Mode),
    want: Result<(), SessionFault>,
) {
    let name = Name::new(name).expect(rt, "a name");
    assert_at(
        rt,
        place,
        session.add_channel(&name, size, count, mode),
        want,
    );
}

fn assert_threads<A: Allocator + Copy>(
    rt: &impl Abort,
    session: &mut Session<A>,
    place: Place,
    channel: &str,
    from: u64,
    to: u64,
) {
    for number in from..to {
        assert_at(rt, place, add_thread(session, channel), Ok(number));
    }
}

/// Adds a thread. As a call without clauses it keeps the proof of the loop short.
fn add_thread<A: Allocator + Copy>(
    session: &mut Session<A>,
    channel: &str,
) -> Result<u64, SessionFault> {
    session.add_thread(channel)
}

/// The schedule of this period and this size. None if there is to be none.
fn schedule_of(rt: &impl Abort, given: Option<(u64, Option<u64>)>) -> Option<Schedule> {
    let (period, size) = given?;
    Some(Schedule::new(Some(period), size).expect(rt, "a schedule"))
}

fn assert_scheduled<A: Allocator + Copy>(
    rt: &impl Abort,
    session: &mut Session<A>,
    place: Place,
    given: Option<(u64, Option<u64>)>,
    want: Result<(), SessionFault>,
) {
    let answer = session.set_schedule(schedule_of(rt, given));
    assert_at(rt, place, answer, want);
    if want.is_ok() {
        assert_at(rt, place, session.book().schedule(), schedule_of(rt, given));
    }
}

/// Offers a payload of `len` bytes with the id 7.
fn offer<A: Allocator + Copy>(
    rt: &impl Abort,
    session: &mut Session<A>,
    (i, at, len): (u64, u64, usize),
) -> Result<Offered, StepFault> {
    let payload = PAYLOAD.get(..len).expect(rt, "a short payload");
    session.offer(i, moment(at), 7, payload)
}

fn make_offers<A: Allocator + Copy>(
    rt: &impl Abort,
    session: &mut Session<A>,
    from: u64,
    to: u64,
    len: usize,
) {
    for at in from..to {
        offer(rt, session, (0, at, len)).expect(rt, "an offer");
    }
}

/// An archive as the steps write it.
fn numbers(archive: &Archive) -> Row {
    (archive.id, archive.begin.get(), archive.end.get())
}

/// The answer to a rotation as the steps write it.
fn row(answer: Result<Archive, SessionFault>) -> Result<Row, SessionFault> {
    match answer {
        Ok(archive) => Ok(numbers(&archive)),
        Err(fault) => Err(fault),
    }
}

/// Asserts the archives of a session.
fn assert_archives(rt: &impl Abort, archives: &[Archive], rows: &[Row]) {
    assert_same(rt, archives.len(), rows.len());
    for (place, archive) in archives.iter().enumerate() {
        assert_same(rt, Some(&numbers(archive)), rows.get(place));
    }
}

/// A tick as the steps write it.
fn ticked(answer: Result<Ticked, SessionFault>) -> Result<Option<(Cause, Row)>, SessionFault> {
    match answer {
        Ok(Ticked::Rotated { cause, archive }) => Ok(Some((cause, numbers(&archive)))),
        Ok(Ticked::Idle) => Ok(None),
        Err(fault) => Err(fault),
    }
}
