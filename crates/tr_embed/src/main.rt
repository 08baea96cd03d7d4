//! How to record in a program of one's own. Four threads offer records to one session, a rotation closes what they recorded,
//! and once all seats are settled the session's totals are printed. `tr_embed DIR` also writes the archive below DIR.
#![tactic(auto)]

ghost use Rattle.std.specs.Prelude.{◌≡◌};

use std::alloc::Global;
use std::marker::Brand;
use std::process::ExitCode;
use std::sync::Wait;
use std::thread::{self, Threads};
use std::{env, io};
use tr_export::{HostFiles, SystemDisk, write_archives};
use tr_shared::{
    ChannelConfig, Config, Events, Mode, Moment, Name, Names, Offers, OffsetMinutes, Plan,
    Producer, SessionFault, SessionMode, Settled, Shared, Totals, plan,
};
use uuid::Uuid;

/// How many records each thread offers.
const RECORDS: u64 = 1_000;

/// A name for the session and for its channel.
fn name() -> Name<'static> {
    let Some(name) = Name::new("app") else {
        unreachable!()
    };
    name
}

/// A session with a channel of four streams: each has a ring of 4 sub-buffers of 16,384 bytes, and discards what finds it full.
fn session_plan(alloc: Global) -> Result<Plan, SessionFault> {
    let Some(offset) = OffsetMinutes::new(0) else {
        unreachable!()
    };
    let mut channels = Vec::with_capacity(alloc, 1)?;
    channels.push_reserved(ChannelConfig {
        name: name(),
        size: 16_384,
        count: 4,
        mode: Mode::Discard,
        threads: 4,
    });
    let config = Config {
        uuid: Uuid::from_bytes([1; 16]),
        offset,
        mode: SessionMode::Local,
        events: Events::none(alloc),
        channels,
    };
    plan(alloc, &config)
}

/// One thread's records. Each offer is answered: stored, stored in place of the oldest ones, discarded, or refused.
fn offer_all<N: Names>(
    rt: &impl Wait,
    shared: &Shared<N>,
    mut producer: Producer<N>,
) -> Producer<N> {
    for k in 0..RECORDS {
        let _ = producer.offer(rt, shared, Moment::within_limit(k), 7, &k.to_le_bytes());
    }
    producer
}

/// Records in four threads, and settles the session with the seats that come back.
fn record<N: Names + Send + Sync, R: Threads + Wait + Sync>(
    rt: &R,
    alloc: Global,
    plan: Plan,
) -> Result<(Settled, Totals), SessionFault>
    requires { plan ≡ N.plan }
{
    let (shared, producers) = Shared::<N>::build(plan)?;
    shared.start(rt, Moment::zero())?;
    let producers = thread::map_vec(rt, producers, &|producer| offer_all(rt, &shared, producer))?;
    shared.stop(rt)?;
    shared.rotate(rt, Moment::within_limit(RECORDS))?;
    match shared.settle(producers, Vec::new(alloc)) {
        Ok(settled) => Ok(settled),
        Err(_) => Err(SessionFault::Misplaced),
    }
}

/// Prints the totals, and writes the archive below the folder that the arguments name, if they name one.
fn report(
    rt: &HostRuntime,
    alloc: Global,
    settled: &Settled,
    totals: &Totals,
) -> io::Result<ExitCode> {
    println!(rt;
        "offered {} discarded {} consumed {}",
        totals.offered, totals.discarded, totals.consumed
    )?;
    let Some(dir) = env::args(rt)?.nth(1) else {
        return Ok(ExitCode::SUCCESS);
    };
    let mut disk = SystemDisk::new(HostFiles::new(rt));
    match write_archives(alloc, &mut disk, dir.as_str(), &name(), settled.session()) {
        Ok(()) => Ok(ExitCode::SUCCESS),
        Err(_) => Ok(ExitCode::FAILURE),
    }
}

fn main(rt: HostRuntime) -> io::Result<ExitCode> {
    let alloc: Global = rt.alloc();
    let Ok(plan) = session_plan(alloc) else {
        return Ok(ExitCode::FAILURE);
    };
    let Ok((settled, totals)) = record::<Brand, HostRuntime>(&rt, alloc, plan) else {
        return Ok(ExitCode::FAILURE);
    };
    let reported = report(&rt, alloc, &settled, &totals);
    drop(settled);
    reported
}
