//! Offers of a declared id to a shared session.

ghost use Rattle.std.specs.Prelude.{◌≡◌};

use super::{assert_offered, assert_started, built, settled, stored};
use crate::plans::{assert_same, last, plan_declaring, push};
use std::alloc::Global;
use std::marker::Brand;
use std::process::Abort;
use std::sync::Wait;
use std::test::*;
use tr_shared::{Names, OfferFault, Plan};

/// Offers of three and of four bytes, where the id has three, before the start and after it, and what is settled then.
fn refuses<N: Names>(rt: &(impl Abort + Wait), alloc: Global, plan: Plan)
    requires { plan ≡ N.plan }
{
    let (shared, mut producers) = built::<N>(rt, plan);
    let mut producer = last(rt, &mut producers);
    let other = Err(OfferFault::OtherLayout);
    // the stream isn't asked, which takes no offers yet
    assert_offered(rt, &shared, &mut producer, 1, 4, other);
    let inactive = Err(OfferFault::Inactive);
    assert_offered(rt, &shared, &mut producer, 1, 3, inactive);
    assert_started(rt, &shared, 0, Ok(()));
    assert_offered(rt, &shared, &mut producer, 1, 3, stored(0, 0));
    assert_offered(rt, &shared, &mut producer, 2, 4, other);
    assert_offered(rt, &shared, &mut producer, 2, 3, stored(1, 0));
    assert_same(rt, producer.offered(), 2);
    push(rt, &mut producers, producer);
    let (settled, totals) = settled(rt, shared, producers, Vec::new(alloc));
    assert_same(rt, totals.offered, 2);
    let book = settled.session().book();
    assert_same(rt, book.fits(1, &[0; 3]), true);
    assert_same(rt, book.fits(1, &[0; 4]), false);
}

#[test]
fn an_offer_of_another_layout(rt: HostRuntime) {
    let plan = plan_declaring(&rt, rt.alloc(), "three 1 bytes:u8[3]");
    refuses::<Brand>(&rt, rt.alloc(), plan);
}
