//! Plans, and sessions that are built of them.

ghost use Rattle.std.specs.Prelude.{◌≡◌};

use super::super::{NO_MEMORY, Step};
use super::steps::config_of;
use crate::scarce::{UNIT, fill_all_but, small_heap};
use crate::turns::{MOST, Turns, assert_same, only};
use linked_list_allocator::LocalHeap;
use std::alloc::Global;
use std::marker::Brand;
use std::process::Abort;
use tr_session::Config;
use tr_session_book::SessionFault;
use tr_shared::{Names, Plan, Shared, plan};
use tr_terms::SessionMode;

/// How many streams and how many producers a session that was made has.
type Made = Result<(usize, usize), SessionFault>;

/// Builds a session with `bytes` free bytes.
fn build<'h, N: Names>(
    rt: &impl Abort,
    plain: Global,
    heap: &'h LocalHeap,
    plan: Plan<&'h LocalHeap>,
    bytes: usize,
) -> Made
    requires { plan ≡ N.plan }
{
    let blocks = fill_all_but(rt, plain, heap, bytes);
    let built = Shared::<N, &'h LocalHeap>::build(plan);
    drop(blocks);
    match built {
        Ok((shared, producers)) => Ok((shared.streams(), producers.len())),
        Err(fault) => Err(fault),
    }
}

/// What lacks memory: a plan, or what is built of it.
#[derive(Clone, Copy)]
enum Scarce {
    Plan,
    Shared,
}

/// Enough memory for either.
const ENOUGH: usize = 32_768;

/// Plans a session and builds it, with `bytes` free bytes for one of the two. All memory comes back.
fn make<'h>(
    rt: &impl Abort,
    plain: Global,
    heap: &'h LocalHeap,
    config: &Config<'_, &'h LocalHeap>,
    (scarce, bytes): (Scarce, usize),
) -> Made {
    let (for_plan, for_shared) = match scarce {
        Scarce::Plan => (bytes, ENOUGH),
        Scarce::Shared => (ENOUGH, bytes),
    };
    let blocks = fill_all_but(rt, plain, heap, for_plan);
    let planned = plan(heap, config);
    drop(blocks);
    match planned {
        Ok(plan) => build::<Brand>(rt, plain, heap, plan, for_shared),
        Err(fault) => Err(fault),
    }
}

/// A channel and four streams.
const FOUR: [Step; 2] = [Step::Channel("c"), Step::Threads("c", 4)];

/// Makes a session of four streams with more and more memory until it isn't refused, and each time with enough after that.
/// How often it was refused.
fn refuse_making(rt: &impl Abort, plain: Global, scarce: Scarce) -> usize {
    let heap = small_heap(rt, plain);
    let config = config_of(rt, &heap, SessionMode::Local, &FOUR);
    let used = heap.used();
    let granted = Ok((4, 4));
    let mut turns = Turns::new();
    for times in 0..MOST {
        let bytes = times.wrapping_mul(UNIT);
        let made = make(rt, plain, &heap, &config, (scarce, bytes));
        assert_same(rt, heap.used(), used);
        let next = only(turns.seen(), Err(NO_MEMORY));
        if turns.is_last(rt, bytes, made, (granted, next)) {
            return times;
        }
        let again = make(rt, plain, &heap, &config, (scarce, ENOUGH));
        assert_same(rt, (again, heap.used()), (granted, used));
    }
    panic!(rt; "no end of refusals")
}

#[test]
fn a_shared_session_without_memory_is_not_made(rt: HostRuntime) {
    let planned = refuse_making(&rt, rt.alloc(), Scarce::Plan);
    assert!(rt; planned >= 600, "{planned}");
    let built = refuse_making(&rt, rt.alloc(), Scarce::Shared);
    assert!(rt; built >= 300, "{built}");
}
