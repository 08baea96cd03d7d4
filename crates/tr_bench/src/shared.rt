//! Offers to the streams of a shared session: to its one stream, by one thread; or to several, each by a thread of its own.

ghost use Rattle.std.specs.Prelude.{◌≡◌};

use crate::cases::Case;
use crate::offers::{OFFERS, Total, mix_answer, moment_of};
use std::alloc::{AllocFailed, Global};
use std::marker::Brand;
use std::sync::Wait;
use std::thread::{Threads, map_vec};
use tr_events::Events;
use tr_session::{ChannelConfig, Config};
use tr_session_book::SessionFault;
use tr_shared::{Names, Offers, Plan, Producer, SettleError, Settled, Shared, plan_watched};
use tr_stream::OfferFault;
use tr_terms::{Moment, Name, OffsetMinutes, SessionMode};
use uuid::Uuid;

/// Why the rounds stopped.
#[derive(Clone, Copy, Debug)]
pub enum SharedFault {
    /// No offset is 0.
    NoOffset,
    /// The channel's name isn't valid.
    NoName,
    /// The session has no stream.
    NoStream,
    /// The session refused.
    Refused(SessionFault),
    /// The stream refused an offer.
    NotOffered(OfferFault),
    /// The session was not settled.
    Unsettled(SettleError),
}

impl<T: Drop> From<AllocFailed<T>> for SharedFault {
    fn from(_: AllocFailed<T>) -> SharedFault {
        SharedFault::Refused(SessionFault::NoMemory)
    }
}

impl From<SessionFault> for SharedFault {
    fn from(fault: SessionFault) -> SharedFault {
        SharedFault::Refused(fault)
    }
}

impl From<OfferFault> for SharedFault {
    fn from(fault: OfferFault) -> SharedFault {
        SharedFault::NotOffered(fault)
    }
}

/// A session with one channel of so many threads, and so many watchers.
fn plan_of(alloc: Global, case: &Case, threads: u64, watchers: usize) -> Result<Plan, SharedFault> {
    let Some(offset) = OffsetMinutes::new(0) else {
        return Err(SharedFault::NoOffset);
    };
    let Some(name) = Name::new("c") else {
        return Err(SharedFault::NoName);
    };
    let channel = ChannelConfig {
        name,
        size: case.geometry.size() as u64,
        count: case.geometry.count() as u64,
        mode: case.mode,
        threads,
    };
    let config = Config {
        uuid: Uuid::nil(),
        offset,
        mode: SessionMode::Local,
        events: Events::none(alloc),
        channels: vec![in alloc; channel]?,
    };
    Ok(plan_watched(alloc, &config, watchers)?)
}

/// The sum with the answers to all offers of a round, each with 8 bytes, which the producer's thread makes.
fn feed<N: Names>(
    rt: &impl Wait,
    shared: &Shared<N>,
    producer: &mut Producer<N>,
    before: u64,
) -> Result<u64, OfferFault> {
    let mut sum = before;
    for k in 0..OFFERS {
        let answer = producer.offer(rt, shared, moment_of(k), 7, &k.to_le_bytes())?;
        sum = mix_answer(sum, answer);
    }
    Ok(sum)
}

/// Starts a session, and offers by its one producer. Gives its producers, and the sum with the answers.
fn offered<N: Names>(
    rt: &impl Wait,
    shared: &Shared<N>,
    mut producers: Vec<Producer<N>>,
    before: u64,
) -> Result<(Vec<Producer<N>>, u64), SharedFault> {
    shared.start(rt, Moment::zero())?;
    let Some(mut producer) = producers.pop() else {
        return Err(SharedFault::NoStream);
    };
    let sum = feed(rt, shared, &mut producer, before)?;
    producers.push(producer)?;
    Ok((producers, sum))
}

/// One round: the offers to a new session, which is then settled.
fn round<N: Names>(
    rt: &impl Wait,
    alloc: Global,
    plan: Plan,
    total: Total,
) -> Result<Total, SharedFault>
    requires { plan ≡ N.plan }
{
    let (shared, producers) = Shared::<N>::build(plan)?;
    let (producers, sum) = offered(rt, &shared, producers, total.sum)?;
    let settled = settled(alloc, shared, producers)?;
    match settled.session().stream(0) {
        Some(stream) => Ok(total.with(stream, sum)),
        None => Err(SharedFault::NoStream),
    }
}

/// The session, when all is offered.
fn settled<N: Names>(
    alloc: Global,
    shared: Shared<N>,
    producers: Vec<Producer<N>>,
) -> Result<Settled, SharedFault> {
    match shared.settle(producers, Vec::new(alloc)) {
        Ok((settled, _)) => Ok(settled),
        Err(unsettled) => Err(SharedFault::Unsettled(unsettled.fault)),
    }
}

/// Runs `rounds` rounds.
// Each table counts its own loop: inlined into one function, the loops of all tables would have to share its registers.
#[inline(never)]
pub fn all_rounds(
    rt: &impl Wait,
    alloc: Global,
    case: &Case,
    rounds: u64,
) -> Result<Total, SharedFault> {
    let mut total = Total::default();
    for _ in 0..rounds {
        let plan = plan_of(alloc, case, 1, 0)?;
        total = round::<Brand>(rt, alloc, plan, total)?;
    }
    Ok(total)
}

/// A producer whose thread has ended, and the sum with its answers.
#[derive(Drop)]
struct Fed<N: Names> {
    producer: Producer<N>,
    sum: Result<u64, OfferFault>,
}

/// Offers by a producer, in its thread.
fn offer_round<N: Names>(rt: &impl Wait, shared: &Shared<N>, mut producer: Producer<N>) -> Fed<N> {
    let sum = feed(rt, shared, &mut producer, 0);
    Fed { producer, sum }
}

/// The producers, when all their threads have ended, and the sum over all answers.
fn fed_together<N: Names + Send + Sync, R: Threads + Wait + Sync>(
    rt: &R,
    alloc: Global,
    shared: &Shared<N>,
    producers: Vec<Producer<N>>,
    before: u64,
) -> Result<(Vec<Producer<N>>, u64), SharedFault> {
    let Ok(all) = map_vec(rt, producers, &|producer| offer_round(rt, shared, producer)) else {
        return Err(SharedFault::Refused(SessionFault::NoMemory));
    };
    let mut back = Vec::new(alloc);
    let mut sum = before;
    for one in all {
        let Fed {
            producer,
            sum: answers,
        } = one;
        sum = sum.wrapping_add(answers?);
        back.push(producer)?;
    }
    Ok((back, sum))
}

/// One round: the offers to each stream of a new session, by a thread of its own. Its watchers don't read meanwhile.
fn round_of_threads<N: Names + Send + Sync, R: Threads + Wait + Sync>(
    rt: &R,
    alloc: Global,
    plan: Plan,
    total: Total,
) -> Result<Total, SharedFault>
    requires { plan ≡ N.plan }
{
    let (shared, producers, watchers) = Shared::<N>::build_watched(plan)?;
    shared.start(rt, Moment::zero())?;
    let (producers, sum) = fed_together(rt, alloc, &shared, producers, total.sum)?;
    drop(watchers);
    let streams = shared.streams();
    let settled = settled(alloc, shared, producers)?;
    let mut total = Total { sum, ..total };
    for k in 0..streams as u64 {
        if let Some(stream) = settled.session().stream(k) {
            total = total.with(stream, total.sum);
        }
    }
    Ok(total)
}

/// Runs `rounds` rounds with so many threads and watchers.
#[inline(never)]
pub fn all_rounds_of_threads<R: Threads + Wait + Sync>(
    rt: &R,
    alloc: Global,
    case: &Case,
    threads: u64,
    watchers: usize,
    rounds: u64,
) -> Result<Total, SharedFault> {
    let mut total = Total::default();
    for _ in 0..rounds {
        let plan = plan_of(alloc, case, threads, watchers)?;
        total = round_of_threads::<Brand, R>(rt, alloc, plan, total)?;
    }
    Ok(total)
}
