//! What is done with a load when its threads have ended.

ghost use Rattle.std.specs.Prelude.{◌≡◌, IfOk, IsOk, IsTrue, map};
ghost use Rattle.tr_load.specs.Loads.{AllHave, IsEnded, IsJudged, IsUncleared, log_in};
ghost use Rattle.tr_pool.specs.Fed.{AreLogsOf};
ghost use Rattle.tr_seats.specs.Settling.{IsSessionOf};

use crate::loaded::{LoadFault, Loaded};
use std::alloc::{AllocError, Global};
use tr_pool::{Log, Logged, LoggedProducer, Mismatch, Report, reconcile};
use tr_session::Session;
use tr_session_book::State;
use tr_shared::{Drainer, Names, Producer, Settled, Shared};

/// The producers, and their logs.
pub(crate) fn parted<N: Names>(
    alloc: Global,
    fed: Vec<LoggedProducer<Producer<N>>>,
) -> Result<(Vec<Producer<N>>, Vec<Log>), AllocError>
    ensures logs { IfOk result (λ r. r.1.items ≡ map (λ b. log_in b.producer.number b.log.items) fed.items) }
    ensures producers { IfOk result (λ r. r.0.items ≡ map (λ b. b.producer) fed.items) }
{
    let mut producers = Vec::with_capacity(alloc, fed.len())?;
    let mut logs = Vec::with_capacity(alloc, fed.len())?;
    'fed: for logged in fed {
        let (producer, log) = logged.into_parts();
        producers.push_reserved(producer);
        logs.push_reserved(log);
    }
    Ok((producers, logs))
}

/// Whether each log has as many items as its feeder had records to offer: no offer was refused.
fn are_whole(logs: &[Log], records: u64) -> bool
    ensures { IsTrue result → AllHave records logs.now }
{
    for i in 0..logs.len() {
        if logs[i].items.as_slice().len() as u64 != records {
            return false;
        }
    }
    true
}

/// Whether the session was stopped, and rotated once, at the moment of this number.
fn has_ended(session: &Session, moment: u64) -> bool
    ensures { IsTrue result → IsEnded moment session.now.book }
{
    let book = session.book();
    let [archive] = book.archives() else {
        return false;
    };
    if book.state() != State::Inactive || archive.id != 0 {
        return false;
    }
    archive.begin.get() == 0 && archive.end.get() == moment
}

/// Whether the logs and the session agree.
fn judged(settled: &Settled, logs: &[Log]) -> Result<Report, Mismatch>
    ensures { IsJudged logs.now settled.now.streams result }
{
    reconcile(settled, logs)
}

/// Whether nothing was cleared.
fn is_uncleared(outcome: &Result<Report, Mismatch>) -> bool
    ensures { IsTrue result → IsUncleared outcome.now }
{
    match outcome {
        Ok(report) => report.cleared == 0,
        Err(_) => true,
    }
}

/// Settles the session, and compares it with the logs.
///
/// # Errors
///
/// `Misplaced` if it isn't settled, wasn't stopped and rotated, an offer was refused, or a record cleared.
pub(crate) fn settled<N: Names>(
    shared: Shared<N>,
    producers: Vec<Producer<N>>,
    drainers: Vec<Drainer<N>>,
    logs: &[Log],
    records: u64,
    watched: Option<u128>,
) -> Result<Loaded, LoadFault>
    ensures judged { IfOk result (λ l. IsJudged logs.now l.settled.streams l.outcome × IsSessionOf N.plan l.settled
        × IsEnded records l.settled.book × AllHave records logs.now × IsUncleared l.outcome) }
    ensures agree { AreLogsOf producers.items logs.now → IfOk result (λ l. IsOk l.outcome) }
    ensures watched { IfOk result (λ l. l.watched ≡ watched) }
{
    let Ok((settled, _)) = shared.settle(producers, drainers) else {
        return Err(LoadFault::Misplaced);
    };
    if !are_whole(logs, records) || !has_ended(settled.session(), records) {
        return Err(LoadFault::Misplaced);
    }
    let outcome = judged(&settled, logs);
    if !is_uncleared(&outcome) {
        return Err(LoadFault::Misplaced);
    }
    Ok(Loaded {
        settled,
        outcome,
        watched,
    })
}
