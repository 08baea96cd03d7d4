//! Plans.

ghost use Rattle.std.specs.Prelude.{◌≡◌, ◌≢◌, Ok, Err, IfOk, IfErr, length};
ghost use Rattle.tr_seats.specs.Plans.{AreUnused, streams_in, tellers_in};
ghost use Rattle.tr_session.specs.Runs.{session_of_config};
ghost use Rattle.tr_stream.specs.Rules.{by_history, by_state};

use crate::planned::{Plan, PlannedStream};
use std::alloc::{AllocError, Allocator};
use tr_journal::Journal;
use tr_session::{Config, configure};
use tr_session_book::SessionFault;
use tr_stream::Stream;
use tr_tally::{Tally, Teller};

/// The session of a configuration, as `run_session` makes it, with the books of its streams. The memory of all
/// rings is taken here, and no offer takes any.
///
/// # Errors
///
/// Those of `add_channel` and `add_thread` for the first channel or thread of the configuration that is refused; `NoMemory`.
/// What was taken is given back.
pub fn plan<A: Allocator + Copy>(alloc: A, config: &Config<'_, A>) -> Result<Plan<A>, SessionFault>
    ensures session { IfOk result (λ p. session_of_config by_state config.now ≡ Ok p.session) }
    ensures books { IfOk result (λ p. length p.books ≡ length p.session.streams) }
    ensures unwatched { IfOk result (λ p. p.tally.watchers ≡ 0) }
    ensures refused { IfErr result
        (λ fault. fault ≢ SessionFault.NoMemory → session_of_config by_history config.now ≡ Err fault) }
{
    plan_watched(alloc, config, 0)
}

/// The same with so many watchers of how many records each stream is offered. Without watchers what producers publish goes
/// nowhere, and costs no locked instruction.
///
/// # Errors
///
/// Those of `plan`.
pub fn plan_watched<A: Allocator + Copy>(
    alloc: A,
    config: &Config<'_, A>,
    watchers: usize,
) -> Result<Plan<A>, SessionFault>
    ensures session { IfOk result (λ p. session_of_config by_state config.now ≡ Ok p.session) }
    ensures books { IfOk result (λ p. length p.books ≡ length p.session.streams) }
    ensures watched { IfOk result (λ p. p.tally.watchers ≡ watchers) }
    ensures refused { IfErr result
        (λ fault. fault ≢ SessionFault.NoMemory → session_of_config by_history config.now ≡ Err fault) }
{
    let (journal, _) = Journal::open(alloc)?;
    let (book, streams) = configure(alloc, config)?.into_parts();
    let (tally, tellers, watchers) = Tally::new(alloc, streams.len(), watchers)?;
    let streams = open_all(alloc, streams, tellers)?;
    Ok(Plan {
        alloc,
        book,
        streams,
        tally,
        watchers,
        journal,
    })
}

/// Opens the books of streams on which nothing was done, each beside its teller.
fn open_all<A: Allocator + Copy>(
    alloc: A,
    streams: Vec<Stream<A>, A>,
    tellers: Vec<Teller<A>, A>,
) -> Result<Vec<PlannedStream<A>, A>, AllocError>
    requires unused { AreUnused streams.items }
    requires each { length streams.items ≡ length tellers.items }
    ensures streams { IfOk result (λ planned. streams_in planned.items ≡ streams.items) }
    ensures tellers { IfOk result (λ planned. tellers_in planned.items ≡ tellers.items) }
{
    let mut planned = Vec::new(alloc);
    'streams: for (stream, teller) in streams.into_iter().zip(tellers) {
        planned.push(PlannedStream::open(alloc, stream, teller)?)?;
    }
    Ok(planned)
}
