//! Sessions under their locks.

ghost use Rattle.std.specs.Prelude.{◌≡◌, ◌<◌};

mod clearing;
mod contention;
mod declared;
mod lending;
mod operators;
mod rotating;
mod snapshots;
mod threads;
mod watching;

use crate::plans::{PAYLOAD, assert_same, granted, last, plan_of, plan_with, push};
use std::alloc::Global;
use std::marker::Brand;
use std::process::Abort;
use std::sync::Wait;
use std::test::*;
use tr_session_book::SessionFault;
use tr_shared::{
    Drainer, MOST_DRAINERS, Names, Offers, Plan, Producer, SettleError, SettleFault, Settled,
    Shared, Takes, Totals,
};
use tr_stream::{OfferFault, Offered, TakeFault, Taken};
use tr_terms::{Mode, SessionMode};
use tr_testing::moment;

/// The session that was planned, and its producers.
fn built<N: Names>(rt: &impl Abort, plan: Plan) -> (Shared<N>, Vec<Producer<N>>)
    requires { plan ≡ N.plan }
{
    Shared::<N>::build(plan).expect(rt, "memory")
}

/// A drainer of the session.
fn drainer_of<N: Names>(rt: &(impl Abort + Wait), shared: &Shared<N>) -> Drainer<N> {
    shared.drainer(rt).expect(rt, "a drainer")
}

/// Asserts what starting at a moment answers.
fn assert_started<N: Names>(
    rt: &(impl Abort + Wait),
    shared: &Shared<N>,
    at: u64,
    want: Result<(), SessionFault>,
) {
    assert_same(rt, (at, shared.start(rt, moment(at))), (at, want));
}

/// Asserts what stopping answers.
fn assert_stopped<N: Names>(
    rt: &(impl Abort + Wait),
    shared: &Shared<N>,
    want: Result<(), SessionFault>,
) {
    assert_same(rt, shared.stop(rt), want);
}

/// Asserts what an offer of `len` bytes at a moment answers.
fn assert_offered<N: Names>(
    rt: &(impl Abort + Wait),
    shared: &Shared<N>,
    producer: &mut Producer<N>,
    at: u64,
    len: usize,
    want: Result<Offered, OfferFault>,
) {
    let payload = PAYLOAD.get(..len).expect(rt, "a shorter payload");
    let answer = producer.offer(rt, shared, moment(at), 1, payload);
    assert_same(rt, (at, answer), (at, want));
}

/// What is answered to a record that is stored with this serial, in the sub-buffer of this number.
fn stored(serial: u64, seq: u64) -> Result<Offered, OfferFault> {
    Ok(Offered::Stored { serial, seq })
}

/// Asserts what a take from a stream answers.
fn assert_taken<N: Names>(
    rt: &(impl Abort + Wait),
    shared: &Shared<N>,
    drainer: &mut Drainer<N>,
    i: usize,
    want: Result<Taken, TakeFault>,
) {
    assert!(rt; i < shared.streams());
    assert_same(rt, (i, drainer.take(rt, shared, i)), (i, want));
}

/// What the session is settled with, and the totals of its streams.
fn settled<N: Names>(
    rt: &impl Abort,
    shared: Shared<N>,
    producers: Vec<Producer<N>>,
    drainers: Vec<Drainer<N>>,
) -> (Settled, Totals) {
    granted(rt, shared.settle(producers, drainers), "settled session")
}

/// Starts and stops, with what is refused before, between and after.
fn starts<N: Names>(rt: &(impl Abort + Wait), plan: Plan)
    requires { plan ≡ N.plan }
{
    let (shared, mut producers) = built::<N>(rt, plan);
    assert_same(rt, (shared.streams(), producers.len()), (2, 2));
    let mut second = last(rt, &mut producers);
    assert_same(rt, second.stream(), 1);
    let mut drainer = drainer_of(rt, &shared);
    let inactive = Err(OfferFault::Inactive);
    assert_offered(rt, &shared, &mut second, 1, 3, inactive);
    assert_stopped(rt, &shared, Err(SessionFault::NotActive));
    assert_started(rt, &shared, 1, Ok(()));
    assert_started(rt, &shared, 2, Err(SessionFault::AlreadyActive));
    let nothing = Err(TakeFault::Nothing);
    assert_taken(rt, &shared, &mut drainer, 0, nothing);
    assert_offered(rt, &shared, &mut second, 3, 3, stored(0, 0));
    let too_big = Err(OfferFault::TooBig);
    assert_offered(rt, &shared, &mut second, 3, 153, too_big);
    assert_stopped(rt, &shared, Ok(()));
    // one that is too long is refused for this first
    assert_offered(rt, &shared, &mut second, 4, 153, inactive);
    assert_same(rt, second.offered(), 1);
    drop(drainer);
    drop(second);
    drop(producers);
    drop(shared);
}

#[test]
fn a_session_takes_offers_from_its_start_to_its_stop(rt: HostRuntime) {
    starts::<Brand>(&rt, plan_of(&rt, rt.alloc(), Mode::Discard, 2));
}

/// Makes as many drainers as there may be, and one more.
fn makes_drainers<N: Names>(rt: &(impl Abort + Wait), plan: Plan)
    requires { plan ≡ N.plan }
{
    let (shared, _) = built::<N>(rt, plan);
    let mut made = true;
    for _ in 0..MOST_DRAINERS {
        made &= shared.drainer(rt).is_ok();
    }
    assert_same(rt, made, true);
    assert_same(rt, shared.drainer(rt).err(), Some(SessionFault::TooMany));
}

#[test]
fn a_session_makes_so_many_drainers_and_no_more(rt: HostRuntime) {
    makes_drainers::<Brand>(&rt, plan_of(&rt, rt.alloc(), Mode::Discard, 2));
}

/// Asserts that a session isn't settled for this reason, and gives back all that came back.
fn unsettled<N: Names>(
    rt: &impl Abort,
    shared: Shared<N>,
    producers: Vec<Producer<N>>,
    drainers: Vec<Drainer<N>>,
    error: SettleError,
) -> SettleFault<N> {
    let counts = (producers.len(), drainers.len());
    match shared.settle(producers, drainers) {
        Ok(_) => panic!(rt; "it was settled"),
        Err(refused) => {
            assert_same(rt, refused.fault, error);
            let back = (refused.producers.len(), refused.drainers.len());
            assert_same(rt, back, counts);
            refused
        }
    }
}

/// Three offers to the first of two streams, the second at a lesser moment than the first. The session isn't settled without
/// a producer, nor without the drainer, goes on, and is settled with all of them.
fn settles<N: Names>(rt: &(impl Abort + Wait), alloc: Global, plan: Plan)
    requires { plan ≡ N.plan }
{
    let (shared, mut producers) = built::<N>(rt, plan);
    let drainer = drainer_of(rt, &shared);
    assert_started(rt, &shared, 0, Ok(()));
    let second = last(rt, &mut producers);
    let mut first = last(rt, &mut producers);
    assert_offered(rt, &shared, &mut first, 9, 3, stored(0, 0));
    assert_offered(rt, &shared, &mut first, 5, 3, stored(1, 0));
    push(rt, &mut producers, second);
    let none = Vec::new(alloc);
    let without = SettleError::ProducerMissing;
    let SettleFault {
        shared,
        mut producers,
        drainers,
        ..
    } = unsettled(rt, shared, producers, none, without);
    assert_offered(
        rt,
        &shared,
        &mut first,
        9_000_000_000_000_000_000,
        3,
        stored(2, 0),
    );
    push(rt, &mut producers, first);
    let without = SettleError::DrainerMissing;
    let SettleFault {
        shared,
        producers,
        mut drainers,
        ..
    } = unsettled(rt, shared, producers, drainers, without);
    // it came back as it was, so it hasn't stopped
    assert_stopped(rt, &shared, Ok(()));
    push(rt, &mut drainers, drainer);
    let (settled, totals) = settled(rt, shared, producers, drainers);
    assert_same(rt, totals.offered, 3);
    assert_records(rt, &settled);
    drop(settled);
}

/// Asserts what the first stream's ring has: each record as it was offered, and no moment less than the one before.
fn assert_records(rt: &impl Abort, settled: &Settled) {
    let session = settled.session();
    let stream = session.stream(0).expect(rt, "a stream");
    let moments = [9, 9, 9_000_000_000_000_000_000];
    let mut serial = 0;
    'records: for at in moments {
        let record = stream.ring_at(serial).expect(rt, "a record");
        assert_same(rt, (record.serial(), record.moment().get()), (serial, at));
        assert_same(
            rt,
            (record.id(), record.payload() == &PAYLOAD[..3]),
            (1, true),
        );
        serial = serial.wrapping_add(1);
    }
    assert_same(rt, stream.ring_at(3).is_none(), true);
}

#[test]
fn a_session_that_was_not_settled_goes_on(rt: HostRuntime) {
    let plan = plan_of(&rt, rt.alloc(), Mode::Discard, 2);
    settles::<Brand>(&rt, rt.alloc(), plan);
}

/// An offer of the longest payload that a sub-buffer may have, with the least id, is read again whole after settling.
fn keeps_the_longest<N: Names>(rt: &(impl Abort + Wait), alloc: Global, plan: Plan)
    requires { plan ≡ N.plan }
{
    let (shared, mut producers) = built::<N>(rt, plan);
    assert_started(rt, &shared, 4, Ok(()));
    let mut longest = vec![in alloc; 0x62; 1_048_471].expect(rt, "memory");
    push(rt, &mut longest, 0x63);
    let mut producer = last(rt, &mut producers);
    let answer = producer.offer(rt, &shared, moment(5), 0, &longest);
    assert_same(rt, answer, stored(0, 0));
    push(rt, &mut producers, producer);
    let (settled, _) = settled(rt, shared, producers, Vec::new(alloc));
    let stream = settled.session().stream(0).expect(rt, "a stream");
    let record = stream.ring_at(0).expect(rt, "a record");
    assert_same(rt, (record.id(), record.moment().get()), (0, 5));
    assert_same(rt, record.payload() == longest.as_slice(), true);
    drop(settled);
}

#[test]
fn the_longest_payload_is_kept_whole(rt: HostRuntime) {
    let (local, discard) = (SessionMode::Local, Mode::Discard);
    let plan = plan_with(&rt, rt.alloc(), local, discard, 1_048_576, 1).expect(&rt, "a plan");
    keeps_the_longest::<Brand>(&rt, rt.alloc(), plan);
}
