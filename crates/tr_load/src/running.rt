//! A load from its beginning to its end.

ghost use Rattle.std.specs.Prelude.{◌≡◌, ◌≤◌, IfOk, Ok, is_some, nat_lt, vec_len};
ghost use Rattle.tr_load.specs.Loads.{IsLoaded};
ghost use Rattle.tr_load.specs.Plans.{load_session};
ghost use Rattle.tr_terms.specs.declared.limits.TheConstants.{MOST_FEEDERS, MOST_RECORDS, MOST_WORKERS};

use crate::ending::{parted, settled};
use crate::loaded::{LoadFault, Loaded};
use crate::pace::paces;
use crate::plan::load_plan;
use crate::progress::Progress;
use crate::sides::{Crew, run_watched};
use crate::watching::learned;
use crate::works::load_works;
use std::alloc::Global;
use std::marker::Brand;
use std::sync::Wait;
use std::thread::Threads;
use std::time::Clock;
use tr_session_book::SessionFault;
use tr_shared::{Drainer, Names, Plan, Shared};
use tr_terms::Moment;

/// As many drainers of a session as there are `workers`.
fn drainers<N: Names>(
    rt: &impl Wait,
    alloc: Global,
    shared: &Shared<N>,
    workers: usize,
) -> Result<Vec<Drainer<N>>, SessionFault>
    ensures { IfOk result (λ drainers. vec_len drainers ≡ workers) }
{
    let mut drainers = Vec::with_capacity(alloc, workers)?;
    'workers: for _ in 0..workers {
        drainers.push_reserved(shared.drainer(rt)?);
    }
    Ok(drainers)
}

/// A load on the session of a plan, with a watcher if one was planned.
fn run<N: Names + Send + Sync, R: Threads + Wait + Clock + Sync, P: Progress + Sync>(
    rt: &R,
    alloc: Global,
    plan: Plan,
    threads: usize,
    records: u64,
    workers: usize,
    progress: &P,
) -> Result<Loaded, LoadFault>
    requires plan { plan ≡ N.plan }
    requires session { load_session threads ≡ Ok plan.session }
    requires threads { threads ≤ MOST_FEEDERS }
    requires records { records ≤ MOST_RECORDS }
    ensures loaded { IfOk result (λ l. IsLoaded threads records l.settled l.outcome l.watched) }
    ensures watched { IfOk result (λ l. is_some l.watched ≡ nat_lt 0 plan.tally.watchers) }
{
    let (shared, producers, mut watchers) = Shared::<N>::build_watched(plan)?;
    let watcher = watchers.pop();
    if producers.len() != threads {
        return Err(LoadFault::Misplaced);
    }
    let drainers = drainers(rt, alloc, &shared, workers)?;
    let works = load_works(alloc, threads, records)?;
    let paces = paces(alloc, workers)?;
    shared.start(rt, Moment::zero())?;
    let crew = Crew {
        drainers,
        producers,
        works,
    };
    let (ran, watcher) = run_watched(
        rt,
        alloc,
        &shared,
        crew,
        paces.as_slice(),
        watcher,
        progress,
    );
    let (drainers, fed) = ran?;
    shared.stop(rt)?;
    shared.rotate(rt, Moment::within_limit(records))?;
    let (mut producers, logs) = parted(alloc, fed)?;
    let watched = learned(watcher, producers.as_mut_slice());
    settled(
        shared,
        producers,
        drainers,
        logs.as_slice(),
        records,
        watched,
    )
}

/// A load: on a session of its own, started at moment 0, `threads` feeders offer `records` records each, in threads of their
/// own, and `workers` workers drain them meanwhile, until each worker has made one more round since the feeders ended. Then the
/// session is stopped, rotated at the moment that is the number of records, settled, and compared with what the feeders logged.
///
/// The feeder of number `t` offers the items of `load_work`, and each of them is accepted. The logs and the session agree.
///
/// If it is to be watched, a watcher learns after the feeders have ended how many records each of them offered. While they
/// offer it reads that once a second, without a lock, and says so where somebody looks.
///
/// # Errors
///
/// `NoMemory`: memory or a thread was missing. `Misplaced`: a call was refused for another reason, even one offer. All that
/// was made is gone then.
pub fn load<R: Threads + Wait + Clock + Sync, P: Progress + Sync>(
    rt: &R,
    alloc: Global,
    threads: usize,
    records: u64,
    workers: usize,
    watch: bool,
    progress: &P,
) -> Result<Loaded, LoadFault>
    requires threads { threads ≤ MOST_FEEDERS }
    requires records { records ≤ MOST_RECORDS }
    requires workers { (1 ≤ workers) × (workers ≤ MOST_WORKERS) }
    ensures loaded { IfOk result (λ l. IsLoaded threads records l.settled l.outcome l.watched) }
    ensures watched { IfOk result (λ l. is_some l.watched ≡ watch) }
{
    let plan = load_plan(alloc, threads as u64, usize::from(watch))?;
    run::<Brand, R, P>(rt, alloc, plan, threads, records, workers, progress)
}
