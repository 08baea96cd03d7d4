//! Plans, offers and takes, and what they do to the seats.

ghost use Rattle.std.specs.Prelude.{◌≡◌, length};

mod rotating;
mod settling;

use crate::plans::{PAYLOAD, assert_same, granted, last, plan_of, plan_with};
use std::alloc::Global;
use std::marker::Brand;
use std::process::Abort;
use std::test::*;
use tr_seats::{Desk, Drainer, Names, Opened, Plan, Producer, Settled, Slot, Totals};
use tr_session_book::{SessionFault, State};
use tr_stream::{OfferFault, Offered, TakeFault, Taken};
use tr_terms::{Mode, SessionMode};
use tr_testing::moment;

/// Lets the stream of number `i` take offers, if its desk has started.
fn activate<N: Names>(rt: &impl Abort, desk: &mut Desk<N>, slots: &mut Vec<Slot<N>>, i: usize)
    ensures { length slots.new.items ≡ length slots.old.items }
{
    assert!(rt; i < slots.len());
    slots[i].set_active(desk);
}

/// Asserts what an offer of `len` bytes to the slot at a place answers.
fn assert_offered<N: Names>(
    rt: &impl Abort,
    slots: &mut Vec<Slot<N>>,
    place: usize,
    producer: &mut Producer<N>,
    at: u64,
    len: usize,
    want: Result<Offered, OfferFault>,
)
    ensures { length slots.new.items ≡ length slots.old.items }
{
    assert!(rt; place < slots.len());
    let payload = PAYLOAD.get(..len).expect(rt, "a shorter payload");
    let answer = slots[place].offer(producer, moment(at), 7, payload);
    assert_same(rt, (place, at, answer), (place, at, want));
}

/// What is answered to a record that is stored with this serial, in the sub-buffer of this number.
fn stored(serial: u64, seq: u64) -> Result<Offered, OfferFault> {
    Ok(Offered::Stored { serial, seq })
}

/// Asserts what a take from the slot at a place, as from the stream of number `i`, answers.
fn assert_taken<N: Names>(
    rt: &impl Abort,
    slots: &mut Vec<Slot<N>>,
    place: usize,
    drainer: &mut Drainer<N>,
    i: usize,
    want: Result<Taken, TakeFault>,
)
    ensures { length slots.new.items ≡ length slots.old.items }
{
    assert!(rt; place < slots.len());
    let answer = slots[place].take(drainer, i);
    assert_same(rt, (place, i, answer), (place, i, want));
}

/// The session that was planned, and its producers.
fn built<N: Names>(rt: &impl Abort, plan: Plan) -> (Opened<N>, Vec<Producer<N>>)
    requires { plan ≡ N.plan }
{
    plan.build::<N>().expect(rt, "memory")
}

/// What the session is settled with, and the totals of its streams.
fn settled<N: Names>(
    rt: &impl Abort,
    opened: Opened<N>,
    producers: Vec<Producer<N>>,
    drainers: Vec<Drainer<N>>,
) -> (Settled, Totals) {
    granted(rt, opened.settle(producers, drainers), "settled session")
}

/// Asserts the numbers of a producer: offered, discarded, overwritten, overwritten packets.
fn assert_numbers<N: Names>(
    rt: &impl Abort,
    producer: &Producer<N>,
    numbers: (u64, u64, u64, u64),
) {
    let found = (
        producer.offered(),
        producer.discarded(),
        producer.overwritten(),
        producer.overwritten_packets(),
    );
    assert_same(rt, found, numbers);
}

/// How many bytes are offered, what that answers, and the producer's numbers then.
type Step = (usize, Result<Offered, OfferFault>, (u64, u64, u64, u64));

/// Offers until the ring is full and beyond, with what each offer answers and makes of the producer.
fn offers<N: Names>(rt: &impl Abort, plan: Plan, steps: &[Step])
    requires { plan ≡ N.plan }
{
    let (opened, mut producers) = built::<N>(rt, plan);
    let (_, mut desk, mut slots, _) = opened.into_parts();
    let mut producer = last(rt, &mut producers);
    assert_same(rt, producer.stream(), 0);
    assert_numbers(rt, &producer, (0, 0, 0, 0));
    let inactive = Err(OfferFault::Inactive);
    assert_offered(rt, &mut slots, 0, &mut producer, 1, 50, inactive);
    assert_started(rt, &mut desk, 0, Ok(()));
    activate(rt, &mut desk, &mut slots, 0);
    let mut at = 1;
    'steps: for (len, answer, numbers) in steps {
        assert_offered(rt, &mut slots, 0, &mut producer, at, *len, *answer);
        assert_numbers(rt, &producer, *numbers);
        at = 2;
    }
    assert_stopped(rt, &mut desk, (Ok(()), State::Inactive));
    activate(rt, &mut desk, &mut slots, 0);
    assert_offered(rt, &mut slots, 0, &mut producer, 2, 50, inactive);
    drop(producer);
    drop(slots);
    drop(desk);
    drop(producers);
}

static DISCARDING: [Step; 7] = [
    (50, Ok(Offered::Stored { serial: 0, seq: 0 }), (1, 0, 0, 0)),
    (50, Ok(Offered::Stored { serial: 1, seq: 0 }), (2, 0, 0, 0)),
    (153, Err(OfferFault::TooBig), (2, 0, 0, 0)),
    (50, Ok(Offered::Stored { serial: 2, seq: 1 }), (3, 0, 0, 0)),
    (50, Ok(Offered::Stored { serial: 3, seq: 1 }), (4, 0, 0, 0)),
    (50, Ok(Offered::Discarded { serial: 4 }), (5, 1, 0, 0)),
    (4, Ok(Offered::Stored { serial: 5, seq: 1 }), (6, 1, 0, 0)),
];

#[test]
fn a_full_ring_discards_and_its_producer_tells(rt: HostRuntime) {
    let plan = plan_of(&rt, rt.alloc(), Mode::Discard, 1);
    offers::<Brand>(&rt, plan, &DISCARDING);
}

static OVERWRITING: [Step; 6] = [
    (64, Ok(Offered::Stored { serial: 0, seq: 0 }), (1, 0, 0, 0)),
    (64, Ok(Offered::Stored { serial: 1, seq: 0 }), (2, 0, 0, 0)),
    (64, Ok(Offered::Stored { serial: 2, seq: 1 }), (3, 0, 0, 0)),
    (64, Ok(Offered::Stored { serial: 3, seq: 1 }), (4, 0, 0, 0)),
    (
        64,
        Ok(Offered::StoredOver {
            serial: 4,
            seq: 2,
            gone_seq: 0,
            gone_count: 2,
        }),
        (5, 0, 2, 1),
    ),
    (64, Ok(Offered::Stored { serial: 5, seq: 2 }), (6, 0, 2, 1)),
];

#[test]
fn an_overwriting_ring_loses_whole_packets_and_its_producer_tells(rt: HostRuntime) {
    let plan = plan_of(&rt, rt.alloc(), Mode::Overwrite, 1);
    offers::<Brand>(&rt, plan, &OVERWRITING);
}

/// A drainer with a seat of each stream, which was begun at the desk.
fn drainer_of<N: Names>(
    rt: &impl Abort,
    alloc: Global,
    desk: &mut Desk<N>,
    slots: &mut Vec<Slot<N>>,
) -> Drainer<N>
    requires { length slots.old.items ≡ length N.plan.books }
    ensures { length slots.new.items ≡ length slots.old.items }
{
    let mut begun = desk.begin_drainer(alloc).expect(rt, "a drainer");
    for i in 0..slots.len() {
        begun = begun.with(&mut slots[i]).expect(rt, "a seat");
    }
    begun.finish()
}

/// Asserts how many records a drainer took from each of two streams.
fn assert_consumed<N: Names>(
    rt: &impl Abort,
    slots: &[Slot<N>],
    drainer: &Drainer<N>,
    consumed: (u64, u64),
)
    requires { length slots.now ≡ length N.plan.books }
{
    assert!(rt; slots.len() == 2);
    assert_same(rt, (drainer.consumed(0), drainer.consumed(1)), consumed);
}

/// Takes from the second of two streams, and what is refused.
fn takes<N: Names>(rt: &impl Abort, alloc: Global, plan: Plan)
    requires { plan ≡ N.plan }
{
    let (opened, mut producers) = built::<N>(rt, plan);
    let (_, mut desk, mut slots, _) = opened.into_parts();
    let mut second = last(rt, &mut producers);
    let mut drainer = drainer_of(rt, alloc, &mut desk, &mut slots);
    assert_same(rt, desk.drainers(), 1);
    assert_started(rt, &mut desk, 0, Ok(()));
    activate(rt, &mut desk, &mut slots, 1);
    assert_offered(rt, &mut slots, 1, &mut second, 1, 64, stored(0, 0));
    assert_offered(rt, &mut slots, 1, &mut second, 1, 64, stored(1, 0));
    assert_offered(rt, &mut slots, 1, &mut second, 1, 64, stored(2, 1));
    let taken = Taken {
        seq: 0,
        count: 2,
        chunk: 0,
    };
    assert_taken(rt, &mut slots, 1, &mut drainer, 1, Ok(taken));
    assert_consumed(rt, &slots, &drainer, (0, 2));
    let nothing = Err(TakeFault::Nothing);
    assert_taken(rt, &mut slots, 1, &mut drainer, 1, nothing);
    let misplaced = Err(TakeFault::Misplaced);
    assert_taken(rt, &mut slots, 0, &mut drainer, 1, misplaced);
    assert_consumed(rt, &slots, &drainer, (0, 2));
    let misplaced = Err(OfferFault::Misplaced);
    assert_offered(rt, &mut slots, 0, &mut second, 1, 64, misplaced);
    assert_numbers(rt, &second, (3, 0, 0, 0));
    assert_slots(rt, &mut slots);
    drop(drainer);
    drop(second);
    drop(slots);
    drop(desk);
    drop(producers);
}

/// Asserts whether a slot gives a seat of the stream of number `i`, and how many it made then.
fn assert_split<N: Names>(rt: &impl Abort, slot: &mut Slot<N>, i: usize, wanted: (bool, u64)) {
    let gave = slot.split(i).is_ok();
    assert_same(rt, (gave, slot.made()), wanted);
}

/// Asserts what a slot counts and shows after three offers and one take.
fn assert_shown<N: Names>(rt: &impl Abort, slot: &Slot<N>) {
    let counts = slot.counts();
    let found = (counts.offered, counts.in_ring, counts.consumed);
    assert_same(rt, found, (3, 1, 2));
    let shown = slot.peek(moment(9)).expect(rt, "memory");
    assert_same(rt, (shown.offered(), shown.packets().len()), (3, 1));
}

/// Asserts what two slots show after three offers to the second and one take.
fn assert_slots<N: Names>(rt: &impl Abort, slots: &mut [Slot<N>]) {
    let [first, second] = slots else {
        panic!(rt; "two slots")
    };
    assert_same(rt, (first.number(), first.made()), (0, 1));
    assert_split(rt, first, 1, (false, 1));
    assert_split(rt, first, 0, (true, 2));
    assert_shown(rt, second);
}

#[test]
fn a_take_raises_the_seat_of_its_stream(rt: HostRuntime) {
    let plan = plan_of(&rt, rt.alloc(), Mode::Discard, 2);
    takes::<Brand>(&rt, rt.alloc(), plan);
}

/// Asserts what starting at a moment answers.
fn assert_started<N: Names>(
    rt: &impl Abort,
    desk: &mut Desk<N>,
    at: u64,
    want: Result<(), SessionFault>,
) {
    assert_same(rt, (at, desk.start(moment(at))), (at, want));
}

/// Asserts what stopping answers, and the state then.
fn assert_stopped<N: Names>(
    rt: &impl Abort,
    desk: &mut Desk<N>,
    wanted: (Result<(), SessionFault>, State),
) {
    let answer = desk.stop();
    assert_same(rt, (answer, desk.book().state()), wanted);
}

/// A desk starts and stops as its book does.
fn desks<N: Names>(rt: &impl Abort, plan: Plan)
    requires { plan ≡ N.plan }
{
    let (opened, producers) = built::<N>(rt, plan);
    let (alloc, mut desk, slots, _) = opened.into_parts();
    let not_active = Err(SessionFault::NotActive);
    assert_stopped(rt, &mut desk, (not_active, State::New));
    assert_started(rt, &mut desk, 3, Ok(()));
    assert_started(rt, &mut desk, 4, Err(SessionFault::AlreadyActive));
    assert_same(rt, desk.book().state(), State::Active);
    assert_stopped(rt, &mut desk, (Ok(()), State::Inactive));
    for _ in 0..3 {
        assert_same(rt, desk.begin_drainer(alloc).is_ok(), true);
    }
    assert_same(rt, desk.drainers(), 3);
    drop(slots);
    drop(desk);
    drop(producers);
}

#[test]
fn a_desk_starts_and_stops_its_session(rt: HostRuntime) {
    desks::<Brand>(&rt, plan_of(&rt, rt.alloc(), Mode::Discard, 1));
}

/// Modes of sessions, sizes of sub-buffers, numbers of threads, and why such a session is refused.
static REFUSED: [(SessionMode, u64, u64, SessionFault); 3] = [
    (SessionMode::Local, 255, 1, SessionFault::BadGeometry),
    (SessionMode::Local, 256, 1_025, SessionFault::TooMany),
    (
        SessionMode::Snapshot,
        256,
        1,
        SessionFault::DiscardInSnapshot,
    ),
];

#[test]
fn a_plan_is_refused_as_channels_and_threads_are(rt: HostRuntime) {
    for (session, size, threads, fault) in &REFUSED {
        let discard = Mode::Discard;
        let planned = plan_with(&rt, rt.alloc(), *session, discard, *size, *threads);
        assert_same(&rt, (*size, planned.err()), (*size, Some(*fault)));
    }
}
