//! Clears of a shared session with too little memory. It is settled after each.

ghost use Rattle.std.specs.Prelude.{◌≡◌};

use super::super::{NO_MEMORY, THREE};
use super::settle;
use super::steps::{built, make_steps, planned};
use crate::scarce::{UNIT, fill_all_but, small_heap};
use crate::turns::{MOST, Turns, assert_same};
use linked_list_allocator::LocalHeap;
use std::alloc::{Allocator, Global};
use std::marker::Brand;
use std::process::Abort;
use std::sync::Wait;
use tr_session::Session;
use tr_session_book::SessionFault;
use tr_shared::{Names, Plan};
use tr_terms::SessionMode;

/// What a clear answers, and how many records are cleared of each of the three streams after it.
type Cleared = (Result<u128, SessionFault>, (u64, u64, u64));

/// The first stream has seven records, the last one one.
const GRANTED: Cleared = (Ok(8), (7, 0, 1));

static REFUSED: [Cleared; 2] = [(Err(NO_MEMORY), (0, 0, 0)), (Err(NO_MEMORY), (7, 0, 0))];

/// How many records are cleared of a stream.
fn cleared_of<A: Allocator>(rt: &impl Abort, session: &Session<A>, i: u64) -> u64 {
    let stream = session.stream(i).expect(rt, "a stream");
    stream.counts().cleared
}

/// Clears a session with so many free bytes, and once more with memory if that is wanted. What the last clear answered, and
/// what is cleared.
fn clear<'h, N: Names>(
    rt: &(impl Abort + Wait),
    plain: Global,
    heap: &'h LocalHeap,
    how: (usize, bool),
    plan: Plan<&'h LocalHeap>,
) -> Cleared
    requires { plan ≡ N.plan }
{
    let (bytes, again) = how;
    let mut seated = built::<N, &'h LocalHeap>(rt, heap, plan);
    make_steps(rt, &mut seated, &THREE);
    let blocks = fill_all_but(rt, plain, heap, bytes);
    let mut answer = seated.shared.clear(rt);
    drop(blocks);
    if again {
        answer = seated.shared.clear(rt);
    }
    let (session, totals) = settle(rt, plain, heap, seated);
    let first = cleared_of(rt, &session, 0);
    let second = cleared_of(rt, &session, 1);
    let third = cleared_of(rt, &session, 2);
    drop(session);
    let sum = first.wrapping_add(second).wrapping_add(third);
    assert_same(rt, totals.cleared, u128::from(sum));
    (answer, (first, second, third))
}

/// The same of a session that is planned for it.
fn clear_anew(
    rt: &(impl Abort + Wait),
    plain: Global,
    heap: &LocalHeap,
    how: (usize, bool),
) -> Cleared {
    let plan = planned(rt, heap, SessionMode::Local, &THREE);
    clear::<Brand>(rt, plain, heap, how, plan)
}

#[test]
fn a_shared_clear_without_memory_stops_before_a_stream(rt: HostRuntime) {
    let heap = small_heap(&rt, rt.alloc());
    let mut turns = Turns::new();
    for times in 0..MOST {
        let bytes = times.wrapping_mul(UNIT);
        let found = clear_anew(&rt, rt.alloc(), &heap, (bytes, false));
        if found != GRANTED {
            // the clear that is made again answers the records that were left
            let left = 8u128.wrapping_sub(u128::from(found.1.0));
            let again = clear_anew(&rt, rt.alloc(), &heap, (bytes, true));
            assert_same(&rt, again, (Ok(left), GRANTED.1));
        }
        let next = REFUSED.get(turns.seen()).copied();
        if turns.is_last(&rt, bytes, found, (GRANTED, next)) {
            assert_same(&rt, turns.seen(), REFUSED.len());
            return;
        }
    }
    panic!(&rt; "no end of refusals")
}
