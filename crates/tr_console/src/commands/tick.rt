//! `tick`

ghost use Rattle.std.specs.Prelude.{◌≡◌, ◌∷◌, ◌++◌, [], true, None, IfOk, IfErr, OnOk, OnErr, is_err, option_and_then};
ghost use Rattle.tr_replies.specs.LineFaults.{HasMemory, wants_memory};
ghost use Rattle.tr_console.specs.Replies.{Does, said};
ghost use Rattle.tr_console.specs.Steps.{line_of};
ghost use Rattle.tr_console.specs.World.{session_named};
ghost use Rattle.tr_console.specs.commands.Rotate.{IsHeldUpOrAfter};
ghost use Rattle.tr_console.specs.commands.Tick.{tick_step, tick_text, tick_told};
ghost use Rattle.tr_session.specs.Steps.{IsHeldUp, session_after_tick, session_tick_answer, tick_cause};
ghost use Rattle.tr_stream.specs.Rules.{by_state};

use crate::console::Console;
use crate::replies::{Reply, refusal};
use std::alloc::{AllocError, Allocator};
use tr_chunk::archive_name;
use tr_replies::{LineFault, NamedArchive, ReplyText};
use tr_schedule::Cause;
use tr_session::{Session, Ticked};
use tr_terms::Moment;

/// What a tick did, for its answer.
#[derive(Clone, Copy, Debug, PartialEq, Eq)]
pub(crate) enum TickTold {
    /// Nothing: no rotation was due.
    Idle,
    /// It rotated the session.
    Rotated {
        /// Why the rotation was due.
        cause: Cause,
        /// The archive that the rotation made.
        named: NamedArchive,
    },
}

/// Ticks a session.
fn tick<A: Allocator + Copy>(
    session: &mut Session<A>,
    moment: Moment,
) -> Result<TickTold, LineFault>
    ensures value { HasMemory result →
        (result ≡ tick_told session.old (session_tick_answer by_state moment session.old))
        × (session.new ≡ session_after_tick by_state moment session.old) }
    ensures no_memory { IfErr result
        (λ fault. wants_memory fault ≡ true → IsHeldUp by_state moment session.old session.new) }
    ensures idle { tick_cause by_state moment session.old ≡ None → session.new ≡ session.old }
{
    let offset = session.book().offset();
    match session.tick(moment) {
        Ok(Ticked::Idle) => Ok(TickTold::Idle),
        Ok(Ticked::Rotated { cause, archive }) => {
            let named = NamedArchive { archive, offset };
            Ok(TickTold::Rotated { cause, named })
        }
        Err(fault) => Err(LineFault::Session(fault)),
    }
}

/// The answer to a tick. If an allocation failed there is none.
fn tick_reply<A: Allocator + Copy>(
    alloc: A,
    answer: Result<TickTold, LineFault>,
) -> Result<Reply<A>, AllocError>
    ensures text { IfOk result (λ r. said r ≡ line_of tick_text answer ++ 10 ∷ []) }
    ensures refused { IfOk result (λ r. r.is_refused ≡ is_err answer) }
    ensures memory { OnOk result (HasMemory answer) }
{
    match answer {
        Ok(TickTold::Idle) => Ok(Reply::done(ReplyText::Constant("idle\n"))),
        Ok(TickTold::Rotated { cause, named }) => {
            let NamedArchive { archive, offset } = named;
            let id = archive.id;
            let name = archive_name(alloc, archive.begin, archive.end, offset, id)?;
            let cause = cause.word();
            let text = format!(in alloc; "rotated {cause} {id} {name}\n")?;
            Ok(Reply::done(ReplyText::Written(text)))
        }
        Err(fault) => refusal(alloc, fault),
    }
}

impl<A: Allocator + Copy> Console<A> {
    /// Ticks the session of this name: rotates it if its schedule says that a rotation is due at this moment.
    pub(crate) fn tick(&mut self, session: &str, moment: Moment) -> Result<Reply<A>, AllocError>
        ensures done { IfOk result (Does (tick_step by_state self.old session.now moment) self.new) }
        ensures failed { OnErr result
            (IsHeldUpOrAfter by_state session.now moment
            (tick_step by_state self.old session.now moment) self.old self.new) }
        ensures idle { option_and_then (tick_cause by_state moment) (session_named session.now self.old) ≡ None
            → self.new ≡ self.old }
    {
        let alloc = self.alloc();
        let Some(found) = self.find_mut(session) else {
            return refusal(alloc, LineFault::NoSession);
        };
        tick_reply(alloc, tick(found, moment))
    }
}
