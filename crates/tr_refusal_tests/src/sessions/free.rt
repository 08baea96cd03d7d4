//! Calls that take no memory.

use super::alike::assert_same_session;
use super::{Step, make_steps, new_session};
use crate::scarce::{fill_all_but, new_heap};
use linked_list_allocator::LocalHeap;
use std::alloc::Global;
use std::process::Abort;
use tr_session::Session;
use tr_terms::SessionMode;

/// Steps with memory, and then some that take none.
pub(super) static FREE: [(&[Step], &[Step]); 3] = [
    (&[], &[Step::Schedule(1), Step::Start, Step::Stop]),
    (
        &[Step::Channel("c"), Step::Threads("c", 2)],
        &[
            Step::Start,
            Step::Offers(1, 100),
            Step::Stop,
            Step::Start,
            Step::Offers(0, 5),
        ],
    ),
    (
        &[
            Step::Channel("c"),
            Step::Threads("c", 1),
            Step::Start,
            Step::Offers(0, 3),
            Step::Begin(50),
            Step::Next,
        ],
        &[Step::Next, Step::Finish, Step::Offers(0, 3), Step::Stop],
    ),
];

/// A session that is made, and makes the later steps, with no free byte or with memory.
fn freely<'h>(
    rt: &impl Abort,
    plain: Global,
    heap: &'h LocalHeap,
    is_full: bool,
    (first, later): (&[Step], &[Step]),
) -> Session<&'h LocalHeap> {
    let free = if is_full { 0 } else { 32_768 };
    let blocks = fill_all_but(rt, plain, heap, free);
    let mut session = new_session(rt, heap, SessionMode::Local);
    drop(blocks);
    make_steps(rt, &mut session, first);
    let blocks = fill_all_but(rt, plain, heap, free);
    make_steps(rt, &mut session, later);
    drop(blocks);
    session
}

/// Asserts that nothing tells a session from one that makes the same steps with memory.
pub(super) fn assert_as_with_memory<'h>(
    rt: &impl Abort,
    plain: Global,
    heap: &'h LocalHeap,
    steps: (&[Step], &[Step]),
    session: &Session<&'h LocalHeap>,
) {
    let other = freely(rt, plain, heap, false, steps);
    assert_same_session(rt, session, &other);
    drop(other);
}

#[test]
fn calls_that_take_no_memory_do_not_miss_it(rt: HostRuntime) {
    let heap = new_heap(&rt, rt.alloc());
    for steps in &FREE {
        let session = freely(&rt, rt.alloc(), &heap, true, *steps);
        assert_as_with_memory(&rt, rt.alloc(), &heap, *steps, &session);
        drop(session);
    }
}
