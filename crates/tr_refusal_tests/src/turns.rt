//! Calls that are made with too little memory, and again with more: with a heap that is full but for some bytes, and with
//! memory that grants some requests.

use crate::scarce::fill_all_but;
use linked_list_allocator::LocalHeap;
use std::alloc::{Allocator, Global};
use std::fmt::Debug;
use std::process::Abort;
use tr_testing::Rationed;

/// No call of these tests is made more often.
pub(crate) const MOST: usize = 10_000;

/// Compares what a test found with what it expects. As a call without clauses it keeps the proofs of the tests short.
pub(crate) fn assert_same<T: PartialEq + Debug + Drop>(rt: &impl Abort, found: T, expected: T) {
    assert_eq!(rt; found, expected);
}

/// The same, with how much memory there was: how many bytes, or how many requests were granted.
fn assert_at<T: PartialEq + Debug + Drop>(rt: &impl Abort, much: usize, found: T, expected: T) {
    assert_eq!(rt; found, expected, "with {much} bytes or requests");
}

/// A call that asks for memory.
pub(crate) trait Call<A: Allocator + Copy> {
    /// What it is made on.
    type Object: Drop;
    /// What it answers.
    type Answer: PartialEq + Debug + Copy + Drop;

    /// What it is made on, set up with memory.
    fn object(&self, rt: &impl Abort, alloc: A) -> Self::Object;

    /// Makes the call.
    fn make(&self, rt: &impl Abort, object: &mut Self::Object) -> Self::Answer;

    /// What it answers with memory.
    fn granted(&self, rt: &impl Abort) -> Self::Answer;

    /// The refusal of this number among those that it answers in turn as it gets more and more memory. None if there are no
    /// more.
    fn refusal(&self, number: usize) -> Option<Self::Answer>;

    /// Whether the call can do without its request of this number, from 0 on, and without all after it: that is a move to
    /// less room. None can, if nothing else is said.
    fn spares(&self, _request: usize) -> bool {
        false
    }

    /// Asserts that two of its objects can't be told apart by what they show.
    fn assert_alike(&self, rt: &impl Abort, one: &Self::Object, other: &Self::Object);

    /// Does to an object what the call does if it answers this refusal: nothing, if nothing else is said.
    fn leave(&self, _rt: &impl Abort, _refusal: Self::Answer, _object: &mut Self::Object) {}

    /// Makes the call again after that: it is the same call, if nothing else is said.
    fn make_again(
        &self,
        rt: &impl Abort,
        _refusal: Self::Answer,
        object: &mut Self::Object,
    ) -> Self::Answer {
        self.make(rt, object)
    }
}

/// Makes a call with `bytes` free bytes, asserts that what it leaves is what its answer says, and makes it again with memory if
/// it was refused. Its first answer.
fn make_with<'h, C: Call<&'h LocalHeap>>(
    rt: &impl Abort,
    plain: Global,
    heap: &'h LocalHeap,
    call: &C,
    bytes: usize,
) -> C::Answer {
    let mut object = call.object(rt, heap);
    let mut other = call.object(rt, heap);
    let blocks = fill_all_but(rt, plain, heap, bytes);
    let answer = call.make(rt, &mut object);
    drop(blocks);
    assert_left(rt, call, answer, (&mut object, &mut other), bytes);
    answer
}

/// Asserts that what a call left is what its answer says, and what it leaves if it is made again with memory after a refusal.
/// The second object is set up as the first one was.
fn assert_left<A: Allocator + Copy, C: Call<A>>(
    rt: &impl Abort,
    call: &C,
    answer: C::Answer,
    (object, other): (&mut C::Object, &mut C::Object),
    much: usize,
) {
    let granted = call.granted(rt);
    if answer == granted {
        call.make(rt, other);
    } else {
        call.leave(rt, answer, other);
        call.assert_alike(rt, object, other);
        assert_at(rt, much, call.make_again(rt, answer, object), granted);
        call.make_again(rt, answer, other);
    }
    call.assert_alike(rt, object, other);
}

/// Makes a call whose first `requests` requests for memory are granted and the later ones refused. Asserts that it is refused
/// if and only if one of the refused requests is one that it can't do without, and what it leaves. Its first answer.
fn make_rationed<'h, C: Call<&'h Rationed>>(
    rt: &impl Abort,
    memory: &'h Rationed,
    call: &C,
    requests: usize,
) -> C::Answer {
    let mut object = call.object(rt, memory);
    let mut other = call.object(rt, memory);
    memory.limit(requests as u64);
    let answer = call.make(rt, &mut object);
    let refused = memory.lift();
    let (granted, spares) = (answer == call.granted(rt), call.spares(requests));
    assert_at(
        rt,
        requests,
        (granted, refused > 0 && granted),
        (refused == 0 || spares, spares),
    );
    assert_left(rt, call, answer, (&mut object, &mut other), requests);
    answer
}

/// The answers of a call that gets more and more memory: the last one, and how many refusals came so far.
#[derive(Drop)]
pub(crate) struct Turns<T: Drop> {
    last: Option<T>,
    seen: usize,
}

impl<T: PartialEq + Debug + Copy + Drop> Turns<T> {
    /// No answer yet.
    pub(crate) fn new() -> Turns<T> {
        Turns {
            last: None,
            seen: 0,
        }
    }

    /// The number of the next refusal.
    pub(crate) fn seen(&self) -> usize {
        self.seen
    }

    /// Asserts that an answer is as the one before it or the next refusal, or what is granted if there is no next refusal.
    /// Whether it is granted.
    pub(crate) fn is_last(
        &mut self,
        rt: &impl Abort,
        much: usize,
        answer: T,
        (granted, next): (T, Option<T>),
    ) -> bool {
        if answer == granted {
            assert_at(rt, much, None, next);
            return true;
        }
        if self.last != Some(answer) {
            assert_at(rt, much, Some(answer), next);
            self.last = Some(answer);
            self.seen = self.seen.wrapping_add(1);
        }
        false
    }
}

/// Makes a call with no free byte, and then with `step` bytes more each time, until it isn't refused. Asserts that its refusals
/// come in their order, and that none is missing. How often it was refused.
pub(crate) fn refuse_each<'h, C: Call<&'h LocalHeap>>(
    rt: &impl Abort,
    plain: Global,
    heap: &'h LocalHeap,
    step: usize,
    call: &C,
) -> usize {
    let granted = call.granted(rt);
    let mut turns = Turns::new();
    for times in 0..MOST {
        let bytes = times.wrapping_mul(step);
        let answer = make_with(rt, plain, heap, call, bytes);
        let next = call.refusal(turns.seen());
        if turns.is_last(rt, bytes, answer, (granted, next)) {
            return times;
        }
    }
    panic!(rt; "no end of refusals")
}

/// Makes a call with its first request for memory refused, then with its second one, and so on until none is. Asserts that its
/// refusals come in their order, and that none is missing. How many requests were refused, each of them once.
pub(crate) fn refuse_each_request<'h, C: Call<&'h Rationed>>(
    rt: &impl Abort,
    memory: &'h Rationed,
    call: &C,
) -> usize {
    let granted = call.granted(rt);
    let mut turns = Turns::new();
    for requests in 0..MOST {
        let answer = make_rationed(rt, memory, call, requests);
        let next = call.refusal(turns.seen());
        if turns.is_last(rt, requests, answer, (granted, next)) {
            return requests;
        }
    }
    panic!(rt; "no end of refusals")
}

/// The refusal of a call that has no other.
pub(crate) fn only<T: Drop>(number: usize, refusal: T) -> Option<T> {
    if number == 0 { Some(refusal) } else { None }
}
