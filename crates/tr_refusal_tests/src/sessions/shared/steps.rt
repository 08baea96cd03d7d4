//! A shared session and its seats, and what is done to them.

ghost use Rattle.std.specs.Prelude.{◌≡◌};

use super::super::{
    Asked, Chunk, Row, Step, Told, held_after, numbers, ring_mode, sized, snapshot_shown,
};
use crate::turns::assert_same;
use std::alloc::Allocator;
use std::process::Abort;
use std::sync::Wait;
use tr_events::Events;
use tr_schedule::Cause;
use tr_session::{ChannelConfig, Config, Next, StepFault, Ticked};
use tr_session_book::{Archive, SessionFault};
use tr_shared::{Drainer, Names, Offers, Plan, Producer, Shared, Takes, plan};
use tr_snapshot::Snapshot;
use tr_stream::{TakeFault, Taken};
use tr_terms::{Moment, Name, OffsetMinutes, SessionMode};
use tr_testing::moment;
use uuid::Uuid;

/// A session that threads share, with all its producers and drainers.
#[derive(Drop)]
pub(super) struct Seated<N: Names, A: Allocator> {
    pub(super) shared: Shared<N, A>,
    pub(super) producers: Vec<Producer<N, A>, A>,
    /// There is one, and room for another.
    pub(super) drainers: Vec<Drainer<N, A>, A>,
}

/// How many threads the steps add to a channel.
fn threads_of(steps: &[Step], channel: &str) -> u64 {
    let mut threads = 0u64;
    for step in steps {
        if let Step::Threads(name, count) = step {
            if *name == channel {
                threads = threads.wrapping_add(*count);
            }
        }
    }
    threads
}

/// The configuration with the channels and the threads that the steps add.
pub(super) fn config_of<A: Allocator + Copy>(
    rt: &impl Abort,
    alloc: A,
    mode: SessionMode,
    steps: &[Step],
) -> Config<'static, A> {
    let mut channels = Vec::new(alloc);
    for step in steps {
        if let Step::Channel(name) = step {
            let channel = ChannelConfig {
                name: Name::new(*name).expect(rt, "a name"),
                size: 256,
                count: 4,
                mode: ring_mode(mode),
                threads: threads_of(steps, *name),
            };
            channels.push(channel).expect(rt, "memory");
        }
    }
    Config {
        uuid: Uuid::from_u128(1),
        offset: OffsetMinutes::new(60).expect(rt, "an offset"),
        mode,
        events: Events::none(alloc),
        channels,
    }
}

/// The plan of a session with these channels and threads.
pub(super) fn planned<A: Allocator + Copy>(
    rt: &impl Abort,
    alloc: A,
    mode: SessionMode,
    steps: &[Step],
) -> Plan<A> {
    plan(alloc, &config_of(rt, alloc, mode, steps)).expect(rt, "a plan")
}

/// The session that was planned, with one drainer.
pub(super) fn built<N: Names, A: Allocator + Copy>(
    rt: &(impl Abort + Wait),
    alloc: A,
    plan: Plan<A>,
) -> Seated<N, A>
    requires { plan ≡ N.plan }
{
    let (shared, producers) = Shared::<N, A>::build(plan).expect(rt, "memory");
    let mut drainers = Vec::with_capacity(alloc, 2).expect(rt, "memory");
    let drainer = shared.drainer(rt).expect(rt, "a drainer");
    drainers.push(drainer).expect(rt, "room");
    Seated {
        shared,
        producers,
        drainers,
    }
}

/// Offers `count` records of 50 bytes to a stream, at the moments from 1 on.
fn make_offers<N: Names, A: Allocator + Copy>(
    rt: &(impl Abort + Wait),
    seated: &mut Seated<N, A>,
    i: u64,
    count: u64,
) {
    let producer = seated
        .producers
        .get_mut(i as usize)
        .expect(rt, "a producer");
    for at in 1..=count {
        producer
            .offer(rt, &seated.shared, moment(at), 7, &[0x61; 50])
            .expect(rt, "an offer");
    }
}

/// Takes a packet from a stream.
fn take<N: Names, A: Allocator + Copy>(
    rt: &(impl Abort + Wait),
    seated: &mut Seated<N, A>,
    i: u64,
) -> Result<Taken, TakeFault> {
    let drainer = seated.drainers.first_mut().expect(rt, "a drainer");
    let i = i as usize;
    assert!(rt; i < seated.shared.streams());
    drainer.take(rt, &seated.shared, i)
}

/// Makes a step. Channels and threads are in the plan.
fn make_step<N: Names, A: Allocator + Copy>(
    rt: &(impl Abort + Wait),
    seated: &mut Seated<N, A>,
    step: Step,
) {
    match step {
        Step::Channel(_) | Step::Threads(_, _) => {}
        Step::Start => seated.shared.start(rt, moment(0)).expect(rt, "a start"),
        Step::Stop => seated.shared.stop(rt).expect(rt, "a stop"),
        Step::Offers(i, count) => make_offers(rt, seated, i, count),
        Step::Take(i) => assert_same(rt, take(rt, seated, i).is_ok(), true),
        Step::Schedule(size) => {
            let schedule = Some(sized(rt, size));
            assert_same(rt, seated.shared.set_schedule(rt, schedule), Ok(()))
        }
        Step::Begin(at) => assert_same(
            rt,
            seated.shared.rotate_begin(rt, moment(at)).is_ok(),
            true,
        ),
        Step::Next => assert_same(rt, seated.shared.rotate_next(rt).is_ok(), true),
        Step::Finish => assert_same(rt, seated.shared.rotate_finish(rt).is_ok(), true),
        Step::Rotate(at) => assert_same(rt, seated.shared.rotate(rt, moment(at)).is_ok(), true),
    }
}

/// Makes each step.
pub(super) fn make_steps<N: Names, A: Allocator + Copy>(
    rt: &(impl Abort + Wait),
    seated: &mut Seated<N, A>,
    steps: &[Step],
) {
    for step in steps {
        make_step(rt, seated, *step);
    }
}

/// What a rotation answered.
fn archived(answer: Result<Archive, SessionFault>) -> Told {
    match answer {
        Ok(archive) => Told::Archived(Ok(numbers(archive)), None),
        Err(fault) => Told::Archived(Err(fault), None),
    }
}

/// What a tick answered.
fn ticked(answer: Result<Ticked, SessionFault>) -> Told {
    match answer {
        Ok(Ticked::Idle) => Told::Ticked(Ok(None), None),
        Ok(Ticked::Rotated { cause, archive }) => {
            Told::Ticked(Ok(Some((cause, numbers(archive)))), None)
        }
        Err(fault) => Told::Ticked(Err(fault), None),
    }
}

/// What a step of a rotation answered.
fn went_on(answer: Result<Next, SessionFault>) -> Told {
    match answer {
        Ok(next) => Told::Next(Ok(next)),
        Err(fault) => Told::Next(Err(StepFault::Session(fault))),
    }
}

/// What a take answered.
fn taken(answer: Result<Taken, TakeFault>) -> Told {
    match answer {
        Ok(taken) => Told::Taken(Ok(taken)),
        Err(fault) => Told::Taken(Err(StepFault::Take(fault))),
    }
}

/// Asserts that the last packet of each stream, which is open, ends at the snapshot's moment.
fn assert_ends<A: Allocator>(rt: &impl Abort, snapshot: &Snapshot<A>) {
    for snap in snapshot.streams() {
        let mut end = snapshot.moment();
        for packet in snap.packets() {
            end = packet.head().end;
        }
        assert_same(rt, end, snapshot.moment());
    }
}

/// What a snapshot answered.
fn shown<A: Allocator>(rt: &impl Abort, answer: Result<Snapshot<A>, SessionFault>) -> Told {
    match answer {
        Ok(snapshot) => {
            assert_ends(rt, &snapshot);
            Told::Shown(Ok(snapshot_shown(&snapshot)))
        }
        Err(fault) => Told::Shown(Err(fault)),
    }
}

/// A snapshot, to which the producer of a stream is lent.
fn snapshot_with<N: Names, A: Allocator + Copy>(
    rt: &(impl Abort + Wait),
    seated: &mut Seated<N, A>,
    i: u64,
    at: Moment,
) -> Told {
    let producer = seated
        .producers
        .get_mut(i as usize)
        .expect(rt, "a producer");
    shown(rt, seated.shared.snapshot_with(rt, producer, at))
}

/// Makes another drainer, for which there is a place.
fn make_drainer<N: Names, A: Allocator + Copy>(
    rt: &(impl Abort + Wait),
    seated: &mut Seated<N, A>,
) -> Told {
    match seated.shared.drainer(rt) {
        Ok(drainer) => {
            seated.drainers.push(drainer).expect(rt, "room");
            Told::Done(Ok(()))
        }
        Err(fault) => Told::Done(Err(fault)),
    }
}

/// Makes a call at a moment.
pub(super) fn asked_of<N: Names, A: Allocator + Copy>(
    rt: &(impl Abort + Wait),
    seated: &mut Seated<N, A>,
    asked: Asked,
    at: Moment,
) -> Told {
    match asked {
        Asked::Take(i) => taken(take(rt, seated, i)),
        Asked::Begin => Told::Number(seated.shared.rotate_begin(rt, at)),
        Asked::Next => went_on(seated.shared.rotate_next(rt)),
        Asked::Rotate => archived(seated.shared.rotate(rt, at)),
        Asked::Tick => ticked(seated.shared.tick(rt, at)),
        Asked::Snapshot => shown(rt, seated.shared.snapshot(rt, at)),
        Asked::SnapshotWith(i) => snapshot_with(rt, seated, i, at),
        Asked::Drainer => make_drainer(rt, seated),
        _ => panic!(rt; "a shared session has no such call"),
    }
}

/// Goes on with the pending rotation, which has made `cuts` cuts, and ends it.
fn go_on<N: Names, A: Allocator + Copy>(
    rt: &(impl Abort + Wait),
    shared: &Shared<N, A>,
    cuts: u64,
) -> Chunk {
    for i in cuts..shared.streams() as u64 {
        match shared.rotate_next(rt) {
            Ok(Next::Cut { stream, .. }) => assert_same(rt, stream, i),
            other => panic!(rt; "no cut: {other:?}"),
        }
    }
    assert_same(rt, shared.rotate_next(rt), Ok(Next::AllCut));
    numbers(shared.rotate_finish(rt).expect(rt, "an archive"))
}

/// Makes the call of a row again after this refusal. A snapshot is asked for at an earlier moment than the refused one, which
/// has stored its own. A rotation that is pending refuses another one, at a later moment, and a stop, and goes on.
pub(super) fn again_with<N: Names, A: Allocator + Copy>(
    rt: &(impl Abort + Wait),
    seated: &mut Seated<N, A>,
    row: &Row,
    refusal: Told,
) -> Told {
    if let Told::Shown(_) = refusal {
        return asked_of(rt, seated, row.asked, moment(60));
    }
    let Some(cuts) = held_after(refusal) else {
        return asked_of(rt, seated, row.asked, moment(100));
    };
    let again = asked_of(rt, seated, row.asked, moment(200));
    assert_same(rt, again, row.held_up(None));
    assert_same(
        rt,
        seated.shared.stop(rt),
        Err(SessionFault::RotationPending),
    );
    row.gone_on(go_on(rt, &seated.shared, cuts))
}
