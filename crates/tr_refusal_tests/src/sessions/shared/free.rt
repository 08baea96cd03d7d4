//! Calls of a shared session that take no memory.

ghost use Rattle.std.specs.Prelude.{◌≡◌};

use super::super::Step;
use super::super::free::{FREE, assert_as_with_memory};
use super::settle;
use super::steps::{built, make_steps, planned};
use crate::scarce::{fill_all_but, new_heap};
use linked_list_allocator::LocalHeap;
use std::alloc::Global;
use std::marker::Brand;
use std::process::Abort;
use std::sync::Wait;
use tr_session::Session;
use tr_shared::{Names, Plan};
use tr_terms::SessionMode;

/// Makes the first steps with memory and the later ones without a free byte, and settles the session.
fn work_freely<'h, N: Names>(
    rt: &(impl Abort + Wait),
    plain: Global,
    heap: &'h LocalHeap,
    steps: (&[Step], &[Step]),
    plan: Plan<&'h LocalHeap>,
) -> Session<&'h LocalHeap>
    requires { plan ≡ N.plan }
{
    let (first, later) = steps;
    let mut seated = built::<N, &'h LocalHeap>(rt, heap, plan);
    make_steps(rt, &mut seated, first);
    let blocks = fill_all_but(rt, plain, heap, 0);
    make_steps(rt, &mut seated, later);
    drop(blocks);
    let (session, _) = settle(rt, plain, heap, seated);
    session
}

#[test]
fn calls_of_a_shared_session_that_take_no_memory_do_not_miss_it(rt: HostRuntime) {
    let heap = new_heap(&rt, rt.alloc());
    for steps in &FREE {
        let plan = planned(&rt, &heap, SessionMode::Local, steps.0);
        let session = work_freely::<Brand>(&rt, rt.alloc(), &heap, *steps, plan);
        assert_as_with_memory(&rt, rt.alloc(), &heap, *steps, &session);
        drop(session);
    }
}
