//! What can be seen of sessions.

use crate::streams::assert_same_stream;
use crate::turns::assert_same;
use std::alloc::Allocator;
use std::process::Abort;
use tr_session::Session;
use tr_session_book::SessionBook;

/// Asserts that two books can't be told apart by what they show.
fn assert_same_book<A: Allocator>(rt: &impl Abort, one: &SessionBook<A>, other: &SessionBook<A>) {
    assert_same(rt, one.uuid(), other.uuid());
    assert_same(rt, one.offset(), other.offset());
    assert_same(rt, one.mode(), other.mode());
    assert_same(rt, one.state(), other.state());
    assert_same(rt, (one.last(), one.begin()), (other.last(), other.begin()));
    assert_same(rt, one.archives(), other.archives());
    assert_same(rt, one.pending(), other.pending());
    assert_same(rt, one.schedule(), other.schedule());
    assert_same(rt, one.schedule_in_force(), other.schedule_in_force());
    assert_same_channels(rt, one, other);
}

/// Asserts that two books have the same channels and threads.
fn assert_same_channels<A: Allocator>(
    rt: &impl Abort,
    one: &SessionBook<A>,
    other: &SessionBook<A>,
) {
    assert_same(rt, one.channels(), other.channels());
    for name in ["c", "d", "e"] {
        assert_same(rt, one.channel(name), other.channel(name));
    }
    assert_same(rt, one.streams(), other.streams());
    for i in 0..one.streams() as u64 {
        let (found, expected) = (one.channel_of(i), other.channel_of(i));
        assert_same(
            rt,
            found.map(|name| name.as_str()),
            expected.map(|name| name.as_str()),
        );
    }
}

/// Asserts that two sessions can't be told apart by what they show.
pub(super) fn assert_same_session<A: Allocator + Copy>(
    rt: &impl Abort,
    one: &Session<A>,
    other: &Session<A>,
) {
    assert_same_book(rt, one.book(), other.book());
    assert_same(rt, one.streams(), other.streams());
    for i in 0..=one.streams() {
        match (one.stream(i), other.stream(i)) {
            (Some(stream), Some(like)) => assert_same_stream(rt, stream, like),
            (stream, like) => assert_same(rt, (stream.is_none(), like.is_none()), (true, true)),
        }
    }
    for k in 0..=one.book().archives().len() as u64 {
        assert_same(rt, one.archive_size(k), other.archive_size(k));
    }
}
