//! A watcher of how many records a load has offered.

ghost use Rattle.std.specs.Prelude.{◌≡◌, ◌≤◌, ◌↔◌, IfSome, is_some};
ghost use Rattle.std.specs.List.{sum, sum_by};
ghost use Rattle.tr_load.specs.Watching.{IsOfTally};
ghost use Rattle.tr_seats.specs.Slots.{ProducerState};

use crate::progress::Progress;
use std::sync::atomic::{AtomicBool, Ordering};
use std::thread;
use std::time::{Clock, Duration};
use tr_shared::{Names, Producer, Watcher};

/// How many milliseconds lie between two looks whether a load has ended.
const REST: u64 = 50;

/// How many of these looks lie between two times that the load says how far it is: a second.
const LOOKS: u64 = 20;

/// The sum of what a watcher reads of all streams now.
fn read_all(watcher: &mut Watcher) -> u128
    ensures table { watcher.new.table ≡ watcher.old.table }
    ensures sum { result ≡ sum watcher.new.answers }
{
    let mut offered = 0;
    'streams: for i in 0..watcher.streams() {
        offered += u128::from(watcher.read(i));
    }
    offered
}

/// Shows how many records were offered, once a second, until the load has ended. It waits for no lock.
pub(crate) fn show_while<R: Clock, P: Progress>(
    clock: &R,
    progress: &P,
    mut watcher: Watcher,
    has_ended: &AtomicBool,
) -> Watcher
    ensures { result.table ≡ watcher.table }
{
    'looks: for look in 1..u64::MAX {
        if has_ended.load(Ordering::SeqCst) {
            break;
        }
        thread::sleep(clock, Duration::from_millis(REST));
        if look % LOOKS == 0 {
            progress.show(read_all(&mut watcher));
        }
    }
    watcher
}

/// What a watcher learns of a producer's note.
fn learn_of<N: Names>(watcher: &mut Watcher, producer: &mut Producer<N>) -> u64
    requires { watcher.old.table ≡ N.plan.tally.table }
    ensures watcher { watcher.new.table ≡ watcher.old.table }
    ensures producer { producer.new ≡ producer.old }
    ensures learned { producer.old.published ≤ result }
    ensures most { result ≤ producer.old.offered }
{
    let learned = watcher.learn(producer.note());
    producer.audit(watcher);
    learned
}

/// What a watcher learns of the producers' notes, together: what they have published at least, and no more than they offered.
fn learn_all<N: Names>(watcher: &mut Watcher, producers: &mut [Producer<N>]) -> u128
    requires { watcher.old.table ≡ N.plan.tally.table }
    ensures producers { producers.new ≡ producers.old }
    ensures learned { sum_by (λ (p : ProducerState). p.published) producers.old ≤ result }
    ensures most { result ≤ sum_by (λ (p : ProducerState). p.offered) producers.old }
{
    let mut offered = 0;
    'producers: for k in 0..producers.len() {
        offered += u128::from(learn_of(watcher, &mut producers[k]));
    }
    offered
}

/// What the watcher, if there is one, learns of the producers' notes.
pub(crate) fn learned<N: Names>(
    watcher: Option<Watcher>,
    producers: &mut [Producer<N>],
) -> Option<u128>
    requires { IfSome watcher (IsOfTally N.plan.tally) }
    ensures some { is_some result ≡ is_some watcher }
    ensures producers { producers.new ≡ producers.old }
    ensures learned { IfSome result (λ n. sum_by (λ (p : ProducerState). p.published) producers.old ≤ n) }
    ensures most { IfSome result (λ n. n ≤ sum_by (λ (p : ProducerState). p.offered) producers.old) }
{
    let mut watcher = watcher?;
    Some(learn_all(&mut watcher, producers))
}
