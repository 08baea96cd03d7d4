//! A session over a configuration and a list of events.

ghost use Rattle.std.specs.Prelude.{◌≡◌, ◌≢◌, true, false, Ok, Err, IfOk, OnOk, IfErr};
ghost use Rattle.tr_session.specs.Events.{MayWantMemory, session_answer, session_after_event};
ghost use Rattle.tr_session.specs.Faults.{answer_wants_memory};
ghost use Rattle.tr_session.specs.Runs.{add_threads, configure_channel, session_of_config, HasRun};
ghost use Rattle.tr_stream.specs.Rules.{by_state, by_history};

use crate::config::{ChannelConfig, Config};
use crate::events::{Answer, Event};
use crate::session::Session;
use std::alloc::Allocator;
use tr_session_book::SessionFault;

impl<A: Allocator + Copy> Session<A> {
    /// One event, answered as its call answers. A refusal, also one for a failed allocation, changes nothing.
    pub fn step(&mut self, event: &Event<A>) -> Answer<A>
        ensures value { answer_wants_memory result ≡ false →
            (result ≡ session_answer by_state event.now self.old)
            × (self.new ≡ session_after_event by_state event.now self.old) }
        ensures no_memory { answer_wants_memory result ≡ true → self.new ≡ self.old }
        ensures memory { answer_wants_memory result ≡ true
            → MayWantMemory result (session_answer by_state event.now self.old) }
    {
        match event {
            Event::Offer(i, moment, id, payload) => {
                Answer::Offer(self.offer(*i, *moment, *id, payload.as_slice()))
            }
            Event::Take(i) => Answer::Take(self.take(*i)),
            Event::Cut(i) => Answer::Cut(self.cut(*i)),
            Event::Clear(i) => Answer::Clear(self.clear_stream(*i)),
            Event::Release(i, k) => Answer::Release(self.release_stream(*i, *k)),
            Event::Snap(i, moment) => Answer::Snap(self.snap(*i, *moment)),
            Event::Start(i) => Answer::Start(self.switch_stream(true, *i)),
            Event::Stop(i) => Answer::Stop(self.switch_stream(false, *i)),
            Event::SessionStart(moment) => Answer::SessionStart(self.start_alone(*moment)),
            Event::SessionStop => Answer::SessionStop(self.stop_alone()),
            Event::RotateBegin(moment) => Answer::RotateBegin(self.rotate_begin(*moment)),
            Event::RotateFinish => Answer::RotateFinish(self.rotate_finish()),
        }
    }
}

/// Adds `threads` threads to a channel.
fn add_threads<A: Allocator + Copy>(
    session: &mut Session<A>,
    channel: &str,
    threads: u64,
) -> Result<(), SessionFault>
    ensures ok { OnOk result (add_threads by_state channel.now threads session.old ≡ Ok session.new) }
    ensures refused { IfErr result
        (λ fault. fault ≢ SessionFault.NoMemory → add_threads by_state channel.now threads session.old ≡ Err fault) }
{
    'threads: for added in 0..threads {
        let _ = added;
        if let Err(fault) = session.add_thread(channel) {
            return Err(fault);
        }
    }
    Ok(())
}

/// Adds a channel, and then its threads.
fn add_configured<A: Allocator + Copy>(
    session: &mut Session<A>,
    channel: &ChannelConfig<'_>,
) -> Result<(), SessionFault>
    ensures ok { OnOk result (configure_channel by_state channel.now session.old ≡ Ok session.new) }
    ensures refused { IfErr result
        (λ fault. fault ≢ SessionFault.NoMemory → configure_channel by_state channel.now session.old ≡ Err fault) }
{
    let added = session.add_channel(&channel.name, channel.size, channel.count, channel.mode);
    if let Err(fault) = added {
        return Err(fault);
    }
    add_threads(session, channel.name.as_str(), channel.threads)
}

/// The session of a configuration, or why there is none.
///
/// # Errors
///
/// Those of `add_channel` and `add_thread` for the first channel or thread of the configuration that is refused; `NoMemory`.
pub fn configure<A: Allocator + Copy>(
    alloc: A,
    config: &Config<'_, A>,
) -> Result<Session<A>, SessionFault>
    ensures ok { IfOk result (λ s. session_of_config by_state config.now ≡ Ok s) }
    ensures refused { IfErr result
        (λ fault. fault ≢ SessionFault.NoMemory → session_of_config by_history config.now ≡ Err fault) }
{
    let mut session = Session::new(alloc, config.uuid, config.offset, config.mode);
    session.declare(&config.events)?;
    'channels: for channel in config.channels.iter() {
        if let Err(fault) = add_configured(&mut session, channel) {
            return Err(fault);
        }
    }
    Ok(session)
}

/// Runs a new session over a list of events: the session, and what each event answered.
///
/// # Errors
///
/// Those of `add_channel` and `add_thread` for the first channel or thread of the configuration that is refused;
/// `NoMemory` also if an event's allocation fails, which ends the run.
pub fn run_session<A: Allocator + Copy>(
    alloc: A,
    config: &Config<'_, A>,
    events: &[Event<A>],
) -> Result<(Session<A>, Vec<Answer<A>, A>), SessionFault>
    ensures ran { IfOk result (λ r. HasRun config.now events.now r.0 r.1.items) }
    ensures refused { IfErr result
        (λ fault. fault ≢ SessionFault.NoMemory → session_of_config by_history config.now ≡ Err fault) }
{
    let mut session = configure(alloc, config)?;
    let mut answers = Vec::new(alloc);
    'events: for event in events {
        let answer = session.step(event);
        if answer.wants_memory() {
            return Err(SessionFault::NoMemory);
        }
        if let Err(_) = answers.push(answer) {
            return Err(SessionFault::NoMemory);
        }
    }
    Ok((session, answers))
}
