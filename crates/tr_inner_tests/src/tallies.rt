//! Worked examples of tallies: what tellers publish, and what watchers read and learn.

ghost use Rattle.std.specs.Prelude.{◌≡◌};

use crate::asserting::assert_same;
use std::alloc::Global;
use std::process::Abort;
use std::test::*;
use tr_tally::{Tally, Teller, Watcher};

/// The tellers and the watcher of a tally of two streams.
fn two_streams(rt: &impl Abort, alloc: Global) -> (Teller, Teller, Watcher)
    ensures first { result.0.table ≡ result.2.table }
    ensures second { result.1.table ≡ result.2.table }
{
    let (tally, mut tellers, mut watchers) = Tally::new(alloc, 2, 1).expect(rt, "memory");
    let found = (tally.streams(), tellers.len(), watchers.len());
    assert_same(rt, found, (2, 2, 1));
    let second = tellers.pop().expect(rt, "the second teller");
    let first = tellers.pop().expect(rt, "the first teller");
    let watcher = watchers.pop().expect(rt, "a watcher");
    (first, second, watcher)
}

/// Publishes a count.
fn publish(rt: &impl Abort, teller: &mut Teller, n: u64)
    ensures { teller.new.table ≡ teller.old.table }
{
    assert!(rt; teller.count() <= n);
    teller.publish(n);
    assert_same(rt, teller.count(), n);
}

/// Asserts what a watcher reads of a stream.
fn assert_read(rt: &impl Abort, watcher: &mut Watcher, i: usize, count: u64)
    ensures { watcher.new.table ≡ watcher.old.table }
{
    assert!(rt; i < watcher.streams());
    assert_same(rt, (i, watcher.read(i)), (i, count));
}

#[test]
fn a_watcher_reads_and_learns_what_was_published(rt: HostRuntime) {
    let (mut first, mut second, mut watcher) = two_streams(&rt, rt.alloc());
    assert_read(&rt, &mut watcher, 1, 0);
    publish(&rt, &mut second, 3);
    let note = second.note();
    assert_same(&rt, (note.stream(), note.count()), (1, 3));
    assert_same(&rt, watcher.learn(note), 3);
    assert_read(&rt, &mut watcher, 1, 3);
    assert_read(&rt, &mut watcher, 0, 0);
    publish(&rt, &mut first, 2);
    assert_read(&rt, &mut watcher, 0, 2);
    // an audit publishes nothing and reads nothing
    publish(&rt, &mut first, 2);
    watcher.audit(&mut first);
    assert_same(&rt, first.count(), 2);
    assert_read(&rt, &mut watcher, 0, 2);
    // a note that is older than what was published since
    let note = first.note();
    publish(&rt, &mut first, 2);
    publish(&rt, &mut first, u64::MAX);
    drop(first);
    assert_same(&rt, (note.stream(), note.count()), (0, 2));
    assert_same(&rt, watcher.learn(note), u64::MAX);
    assert_read(&rt, &mut watcher, 1, 3);
}

/// How many streams and watchers a tally is made for, or more than memory can hold.
static ASKED: [(usize, usize, bool); 7] = [
    (0, 0, true),
    (0, 2, true),
    (3, 0, true),
    (3, 2, true),
    (usize::MAX, 0, false),
    (usize::MAX, 1, false),
    (0, usize::MAX, false),
];

#[test]
fn a_tally_has_the_tellers_and_watchers_that_were_asked_for(rt: HostRuntime) {
    for (streams, watchers, fits) in &ASKED {
        let answer = Tally::new(rt.alloc(), *streams, *watchers);
        assert_same(
            &rt,
            (*streams, *watchers, answer.is_ok()),
            (*streams, *watchers, *fits),
        );
        if let Ok((tally, tellers, watching)) = answer {
            let found = (tally.streams(), tellers.len(), watching.len());
            assert_same(&rt, found, (*streams, *streams, *watchers));
            'tellers: for (k, mut teller) in tellers.into_iter().enumerate() {
                assert_same(&rt, (teller.stream(), teller.count()), (k, 0));
                publish(&rt, &mut teller, 5);
                publish(&rt, &mut teller, 5);
                publish(&rt, &mut teller, 9);
                let note = teller.note();
                assert_same(&rt, (note.stream(), note.count()), (k, 9));
            }
            'watchers: for mut watcher in watching {
                assert_same(&rt, watcher.streams(), *streams);
                'streams: for i in 0..watcher.streams() {
                    assert_read(&rt, &mut watcher, i, 9);
                }
            }
        }
    }
}
