//! Tallies whose ends are in threads of their own.

ghost use Rattle.std.specs.Prelude.{◌≡◌};

use crate::plans::assert_same;
use std::alloc::Global;
use std::process::Abort;
use std::test::*;
use std::thread;
use std::thread::{Threads, join};
use tr_tally::{Note, Tally, Teller, Watcher};

/// How many counts a teller publishes: 1, 2 and so on.
const COUNTS: u64 = 100_000;

/// How often a watcher reads, if it doesn't see the last counts before.
const TRIES: u64 = 100_000_000;

/// The ends of a tally of two streams with two watchers, which is gone itself.
fn ends(rt: &impl Abort, alloc: Global) -> (Teller, Teller, Watcher, Watcher)
    ensures first { result.0.table ≡ result.2.table }
    ensures second { result.1.table ≡ result.2.table }
    ensures other { result.3.table ≡ result.2.table }
{
    let (tally, mut tellers, mut watchers) = Tally::new(alloc, 2, 2).expect(rt, "memory");
    drop(tally);
    let second = tellers.pop().expect(rt, "the second teller");
    let first = tellers.pop().expect(rt, "the first teller");
    let other = watchers.pop().expect(rt, "another watcher");
    let watcher = watchers.pop().expect(rt, "a watcher");
    (first, second, watcher, other)
}

/// Publishes all counts that are more than the last.
fn tell(rt: &impl Abort, mut teller: Teller) -> Teller
    ensures { result.table ≡ teller.table }
{
    'counts: for count in teller.count()..COUNTS {
        assert!(rt; teller.count() == count);
        teller.publish(count + 1);
    }
    teller
}

/// Learns of a note, and then reads two streams until it has seen the last count of each.
fn watch(rt: &impl Abort, mut watcher: Watcher, note: Note) -> Watcher
    requires { note.table ≡ watcher.table }
    ensures { result.table ≡ watcher.table }
{
    let (stream, noted) = (note.stream(), note.count());
    let mut seen = [0; 2];
    if let Some(last) = seen.get_mut(stream) {
        *last = watcher.learn(note);
        assert!(rt; noted <= *last && *last <= COUNTS);
    }
    'tries: for _ in 0..TRIES {
        'streams: for (i, last) in seen.iter_mut().enumerate() {
            assert!(rt; i < watcher.streams());
            let count = watcher.read(i);
            assert!(rt; *last <= count && count <= COUNTS, "{count} after {last}");
            *last = count;
        }
        if seen == [COUNTS; 2] {
            return watcher;
        }
        thread::yield_now();
    }
    panic!(rt; "the last counts aren't seen")
}

/// Two tellers publish in threads of their own while two watchers read in others: no answer falls, and each watcher sees what
/// was published last. Then a teller is dropped, and is read and learned of.
fn shares<R: Threads + Abort + Sync>(rt: &R, alloc: Global) {
    let (mut first, mut second, watcher, other) = ends(rt, alloc);
    assert!(rt; first.count() <= 7);
    first.publish(7);
    let note = first.note();
    let another = second.note();
    let ((mut first, second), (mut watcher, mut other)) = join(
        rt,
        || -> (Teller, Teller)
            ensures { result.0.table ≡ first.table }
        { join(rt, || tell(rt, first), || tell(rt, second)) },
        || -> (Watcher, Watcher)
            requires note { note.table ≡ watcher.table }
            requires another { another.table ≡ other.table }
            ensures watcher { result.0.table ≡ watcher.table }
            ensures other { result.1.table ≡ other.table }
        {
            join(
                rt,
                || watch(rt, watcher, note),
                || watch(rt, other, another),
            )
        },
    );
    drop(second);
    assert!(rt; first.count() <= COUNTS + 5);
    first.publish(COUNTS + 5);
    let note = first.note();
    first.publish(COUNTS + 6);
    drop(first);
    assert_same(rt, (note.stream(), note.count()), (0, COUNTS + 5));
    assert_same(rt, watcher.learn(note), COUNTS + 6);
    assert!(rt; watcher.streams() == 2 && other.streams() == 2);
    assert_same(rt, (watcher.read(0), watcher.read(1)), (COUNTS + 6, COUNTS));
    drop(watcher);
    assert_same(rt, (other.read(0), other.read(1)), (COUNTS + 6, COUNTS));
}

#[test]
fn watchers_read_while_tellers_publish(rt: HostRuntime) {
    shares(&rt, rt.alloc());
}
