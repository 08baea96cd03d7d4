//! Feeders and workers side by side.

ghost use Rattle.std.specs.Prelude.{◌≡◌, IfOk, option_map, vec_len};
ghost use Rattle.tr_load.specs.Crews.{HasFed};

use crate::gate::Rounds;
use crate::loaded::LoadFault;
use crate::pace::Pace;
use crate::progress::Progress;
use crate::target::Paced;
use crate::watching::show_while;
use std::alloc::Global;
use std::sync::Wait;
use std::sync::atomic::{AtomicBool, AtomicUsize, Ordering};
use std::thread::{Threads, join};
use std::time::Clock;
use tr_pool::{Feeders, Item, LoggedProducer, Workers, feed_and_drain};
use tr_shared::{Drainer, Names, Producer, Shared, Watcher};

/// What the threads of a load begin with: the drainers of its workers, and the producers of its feeders, each with its work.
#[derive(Drop)]
pub(crate) struct Crew<N: Names> {
    pub(crate) drainers: Vec<Drainer<N>>,
    pub(crate) producers: Vec<Producer<N>>,
    pub(crate) works: Vec<Vec<Item>>,
    ghost each: { vec_len works ≡ vec_len producers },
}

/// The drainers, and the producers with what they logged.
type Done<N> = (Vec<Drainer<N>>, Vec<LoggedProducer<Producer<N>>>);

/// Feeds a session and drains it meanwhile, in threads of their own.
fn run_threads<'a, N: Names + Send + Sync, R: Threads + Wait + Clock + Sync>(
    rt: &'a R,
    alloc: Global,
    shared: &'a Shared<N>,
    crew: Crew<N>,
    paces: &'a [Pace],
) -> Result<Done<N>, LoadFault>
    ensures len { IfOk result (λ r. vec_len r.1 ≡ vec_len crew.producers) }
    ensures fed { IfOk result (λ r. HasFed crew.producers.items crew.works.items r.1.items) }
{
    let Crew {
        drainers,
        producers,
        works,
    } = crew;
    let left = AtomicUsize::new(producers.len());
    let target = Paced { shared, paces };
    let gate = Rounds {
        clock: rt,
        streams: shared.streams(),
        paces,
        left: &left,
    };
    let feeders = Feeders {
        intake: shared,
        producers,
        works,
        left: &left,
    };
    let workers = Workers {
        target: &target,
        gate: &gate,
        drainers,
    };
    match feed_and_drain(rt, alloc, feeders, workers) {
        Ok((fed, drainers)) => Ok((drainers, fed)),
        Err(_) => Err(LoadFault::NoMemory),
    }
}

/// The same, and lets a watcher know that all have ended.
fn run_to_end<'a, N: Names + Send + Sync, R: Threads + Wait + Clock + Sync>(
    rt: &'a R,
    alloc: Global,
    shared: &'a Shared<N>,
    crew: Crew<N>,
    paces: &'a [Pace],
    has_ended: &AtomicBool,
) -> Result<Done<N>, LoadFault>
    ensures len { IfOk result (λ r. vec_len r.1 ≡ vec_len crew.producers) }
    ensures fed { IfOk result (λ r. HasFed crew.producers.items crew.works.items r.1.items) }
{
    let ran = run_threads(rt, alloc, shared, crew, paces);
    has_ended.store(true, Ordering::SeqCst);
    ran
}

/// Feeds a session and drains it meanwhile, in threads of their own; where somebody looks, a watcher, if there is one, says
/// meanwhile how many records were offered. The watcher comes back.
pub(crate) fn run_watched<
    'a,
    N: Names + Send + Sync,
    R: Threads + Wait + Clock + Sync,
    P: Progress + Sync,
>(
    rt: &'a R,
    alloc: Global,
    shared: &'a Shared<N>,
    crew: Crew<N>,
    paces: &'a [Pace],
    watcher: Option<Watcher>,
    progress: &'a P,
) -> (Result<Done<N>, LoadFault>, Option<Watcher>)
    ensures len { IfOk result.0 (λ r. vec_len r.1 ≡ vec_len crew.producers) }
    ensures fed { IfOk result.0 (λ r. HasFed crew.producers.items crew.works.items r.1.items) }
    ensures watcher { option_map (λ w. w.table) result.1 ≡ option_map (λ w. w.table) watcher }
{
    let Some(watcher) = watcher else {
        return (run_threads(rt, alloc, shared, crew, paces), None);
    };
    if !progress.is_shown() {
        return (run_threads(rt, alloc, shared, crew, paces), Some(watcher));
    }
    let has_ended = AtomicBool::new(false);
    let (ran, watcher) = join(
        rt,
        || run_to_end(rt, alloc, shared, crew, paces, &has_ended),
        || show_while(rt, progress, watcher, &has_ended),
    );
    (ran, Some(watcher))
}
