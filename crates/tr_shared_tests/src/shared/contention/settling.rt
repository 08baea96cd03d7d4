//! The seats that settling needs.

ghost use Rattle.std.specs.Prelude.{◌≡◌};

use super::offer_one;
use crate::plans::{assert_same, last, plan_of, push};
use crate::shared::{assert_started, built, drainer_of, settled, unsettled};
use std::alloc::Global;
use std::marker::Brand;
use std::process::Abort;
use std::sync::Wait;
use std::test::*;
use tr_shared::{Names, Plan, SettleError, SettleFault};
use tr_terms::Mode;

/// Takes the last `count` items away, and gives them back.
fn hold_back<T: Drop>(rt: &impl Abort, alloc: Global, items: &mut Vec<T>, count: usize) -> Vec<T> {
    let mut held = Vec::new(alloc);
    for _ in 0..count {
        push(rt, &mut held, last(rt, items));
    }
    held
}

/// A session of four producers and two drainers isn't settled while so many of each are held back, and is settled with all.
fn settles<N: Names>(
    rt: &(impl Abort + Wait),
    alloc: Global,
    plan: Plan,
    held: (usize, usize),
    error: SettleError,
)
    requires { plan ≡ N.plan }
{
    let (shared, mut producers) = built::<N>(rt, plan);
    assert_started(rt, &shared, 0, Ok(()));
    'producers: for producer in &mut producers {
        offer_one(rt, &shared, producer, 1);
    }
    let mut drainers = Vec::new(alloc);
    for _ in 0..2 {
        push(rt, &mut drainers, drainer_of(rt, &shared));
    }
    let mut producers_back = hold_back(rt, alloc, &mut producers, held.0);
    let mut drainers_back = hold_back(rt, alloc, &mut drainers, held.1);
    let SettleFault {
        shared,
        mut producers,
        mut drainers,
        ..
    } = unsettled(rt, shared, producers, drainers, error);
    producers.append(&mut producers_back).expect(rt, "memory");
    drainers.append(&mut drainers_back).expect(rt, "memory");
    let (settled, totals) = settled(rt, shared, producers, drainers);
    assert_same(rt, totals.offered, 4);
    drop(settled);
    drop(producers_back);
    drop(drainers_back);
}

/// How many producers and how many drainers are held back, and why the session isn't settled then.
static HELD_BACK: [((usize, usize), SettleError); 3] = [
    ((1, 0), SettleError::ProducerMissing),
    ((1, 1), SettleError::ProducerMissing),
    ((0, 1), SettleError::DrainerMissing),
];

#[test]
fn a_session_is_settled_once_no_seat_is_held_back(rt: HostRuntime) {
    for (held, error) in &HELD_BACK {
        let plan = plan_of(&rt, rt.alloc(), Mode::Discard, 4);
        settles::<Brand>(&rt, rt.alloc(), plan, *held, *error);
    }
}
