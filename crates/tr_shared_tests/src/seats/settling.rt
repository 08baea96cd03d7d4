//! Sessions that are settled, and that are not.

ghost use Rattle.std.specs.Prelude.{◌≡◌, length};

use super::{
    activate, assert_offered, assert_started, assert_taken, built, drainer_of, settled, stored,
};
use crate::plans::{assert_same, last, plan_of, push};
use std::alloc::Global;
use std::marker::Brand;
use std::process::Abort;
use std::test::*;
use tr_seats::{
    Drainer, Names, Opened, Plan, Producer, SettleError, Settled, Slot, Totals, Unsettled,
};
use tr_stream::{Offered, Taken};
use tr_terms::Mode;

/// Asserts that a session isn't settled for this reason, and gives back all that came back.
fn unsettled<N: Names>(
    rt: &impl Abort,
    opened: Opened<N>,
    producers: Vec<Producer<N>>,
    drainers: Vec<Drainer<N>>,
    error: SettleError,
) -> Unsettled<N> {
    let counts = (producers.len(), drainers.len());
    match opened.settle(producers, drainers) {
        Ok(_) => panic!(rt; "it was settled"),
        Err(refused) => {
            assert_same(rt, refused.error, error);
            let back = (refused.producers.len(), refused.drainers.len());
            assert_same(rt, back, counts);
            refused
        }
    }
}

/// Two streams, the first with five offers of which one is discarded and two are taken, the second with two offers at
/// moments that fall. Settled without a producer, without a drainer, with the streams in each other's place, and at last.
fn settles<N: Names>(rt: &impl Abort, alloc: Global, plan: Plan)
    requires { plan ≡ N.plan }
{
    let (opened, mut producers) = built::<N>(rt, plan);
    let (_, mut desk, mut slots, room) = opened.into_parts();
    let mut second = last(rt, &mut producers);
    let mut first = last(rt, &mut producers);
    let mut drainer = drainer_of(rt, alloc, &mut desk, &mut slots);
    assert_started(rt, &mut desk, 0, Ok(()));
    activate(rt, &mut desk, &mut slots, 0);
    activate(rt, &mut desk, &mut slots, 1);
    offer_five(rt, &mut slots, &mut first);
    let taken = Taken {
        seq: 0,
        count: 2,
        chunk: 0,
    };
    assert_taken(rt, &mut slots, 0, &mut drainer, 0, Ok(taken));
    assert_offered(rt, &mut slots, 1, &mut second, 9, 0, stored(0, 0));
    assert_offered(rt, &mut slots, 1, &mut second, 5, 0, stored(1, 0));
    push(rt, &mut producers, second);
    let opened = Opened::from_parts(alloc, desk, slots, room);
    refuses(rt, alloc, opened, producers, first, drainer);
}

/// Five offers to the first stream.
fn offer_five<N: Names>(rt: &impl Abort, slots: &mut Vec<Slot<N>>, producer: &mut Producer<N>)
    ensures { length slots.new.items ≡ length slots.old.items }
{
    assert_offered(rt, slots, 0, producer, 1, 64, stored(0, 0));
    assert_offered(rt, slots, 0, producer, 1, 64, stored(1, 0));
    assert_offered(rt, slots, 0, producer, 1, 64, stored(2, 1));
    assert_offered(rt, slots, 0, producer, 1, 64, stored(3, 1));
    let discarded = Ok(Offered::Discarded { serial: 4 });
    assert_offered(rt, slots, 0, producer, 1, 64, discarded);
}

/// The session isn't settled until both producers and the drainer are there, and the streams are in their places.
fn refuses<N: Names>(
    rt: &impl Abort,
    alloc: Global,
    opened: Opened<N>,
    producers: Vec<Producer<N>>,
    first: Producer<N>,
    drainer: Drainer<N>,
) {
    let mut drainers = Vec::new(alloc);
    push(rt, &mut drainers, drainer);
    let without = SettleError::ProducerMissing;
    let Unsettled {
        opened,
        mut producers,
        mut drainers,
        ..
    } = unsettled(rt, opened, producers, drainers, without);
    push(rt, &mut producers, first);
    let drainer = last(rt, &mut drainers);
    let without = SettleError::DrainerMissing;
    let Unsettled {
        opened,
        producers,
        mut drainers,
        ..
    } = unsettled(rt, opened, producers, drainers, without);
    push(rt, &mut drainers, drainer);
    let swapped = reversed(alloc, opened);
    let misplaced = SettleError::Misplaced;
    let Unsettled {
        opened,
        producers,
        drainers,
        ..
    } = unsettled(rt, swapped, producers, drainers, misplaced);
    let opened = reversed(alloc, opened);
    let (settled, totals) = settled(rt, opened, producers, drainers);
    assert_settled(rt, &settled, totals);
    drop(settled);
}

/// The same session with its streams in reverse order.
fn reversed<N: Names>(alloc: Global, opened: Opened<N>) -> Opened<N> {
    let (_, desk, mut slots, room) = opened.into_parts();
    slots.reverse();
    Opened::from_parts(alloc, desk, slots, room)
}

/// Asserts what two streams count, and that both records of the second carry the greater moment.
fn assert_settled(rt: &impl Abort, settled: &Settled, totals: Totals) {
    let sums = Totals {
        offered: 7,
        discarded: 1,
        overwritten: 0,
        overwritten_packets: 0,
        consumed: 2,
        cuts: 0,
        cleared: 0,
    };
    assert_same(rt, totals, sums);
    let session = settled.session();
    assert_same(rt, session.streams(), 2);
    let first = session.stream(0).expect(rt, "a stream");
    assert_same(rt, first.counts().offered, 5);
    let second = session.stream(1).expect(rt, "a stream");
    for k in 0..2 {
        let record = second.ring_at(k).expect(rt, "a record");
        assert_same(rt, (record.serial(), record.moment().get()), (k, 9));
    }
    assert_same(rt, second.ring_at(2).is_none(), true);
}

#[test]
fn a_session_is_settled_when_all_seats_are_there(rt: HostRuntime) {
    let plan = plan_of(&rt, rt.alloc(), Mode::Discard, 2);
    settles::<Brand>(&rt, rt.alloc(), plan);
}
