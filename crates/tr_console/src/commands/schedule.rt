//! `schedule`

ghost use Rattle.std.specs.Prelude.{◌≡◌, ◌∷◌, ◌++◌, [], IfOk, OnOk, OnErr, is_err};
ghost use Rattle.tr_replies.specs.LineFaults.{HasMemory};
ghost use Rattle.tr_console.specs.Replies.{Does, said};
ghost use Rattle.tr_console.specs.Steps.{IsBeforeOrAfter, line_of};
ghost use Rattle.tr_console.specs.commands.Schedule.{after_schedule_asked, schedule_asked, schedule_set, schedule_step};
ghost use Rattle.tr_replies.specs.OneLine.{schedule_text};
ghost use Rattle.tr_session_book.specs.BookSteps.{book_schedule_answer};

use crate::console::Console;
use crate::replies::{Reply, refusal};
use std::alloc::{AllocError, Allocator};
use tr_replies::{LineFault, ReplyText};
use tr_schedule::{Schedule, ScheduleFault};
use tr_session::Session;

/// The schedule that a line asks for: none if it says neither.
fn schedule_for(every: Option<u64>, size: Option<u64>) -> Result<Option<Schedule>, ScheduleFault>
    ensures { result ≡ schedule_asked every size }
{
    if every.is_none() && size.is_none() {
        return Ok(None);
    }
    match Schedule::new(every, size) {
        Ok(schedule) => Ok(Some(schedule)),
        Err(fault) => Err(fault),
    }
}

/// Sets the schedule of a session. If there is no such schedule, the session may still refuse first.
fn set_schedule<A: Allocator>(
    session: &mut Session<A>,
    asked: Result<Option<Schedule>, ScheduleFault>,
) -> Result<Option<Schedule>, LineFault>
    ensures answer { result ≡ schedule_set (book_schedule_answer session.old.book) asked }
    ensures after { session.new ≡ after_schedule_asked asked session.old }
{
    match asked {
        Ok(schedule) => match session.set_schedule(schedule) {
            Ok(()) => Ok(session.book().schedule()),
            Err(fault) => Err(LineFault::Session(fault)),
        },
        Err(fault) => match session.book().can_schedule() {
            Ok(()) => Err(LineFault::Schedule(fault)),
            Err(refusal) => Err(LineFault::Session(refusal)),
        },
    }
}

/// The answer to a schedule. If an allocation failed there is none.
fn schedule_reply<A: Allocator + Copy>(
    alloc: A,
    answer: Result<Option<Schedule>, LineFault>,
) -> Result<Reply<A>, AllocError>
    ensures text { IfOk result (λ r. said r ≡ line_of schedule_text answer ++ 10 ∷ []) }
    ensures refused { IfOk result (λ r. r.is_refused ≡ is_err answer) }
    ensures memory { OnOk result (HasMemory answer) }
{
    let text = match answer {
        Ok(Some(_)) => "schedule set\n",
        Ok(None) => "schedule off\n",
        Err(fault) => return refusal(alloc, fault),
    };
    Ok(Reply::done(ReplyText::Constant(text)))
}

impl<A: Allocator + Copy> Console<A> {
    /// Sets the schedule of the session of this name, by a period in nanoseconds and a size limit in bytes, or none if
    /// neither is given.
    pub(crate) fn schedule(
        &mut self,
        session: &str,
        every: Option<u64>,
        size: Option<u64>,
    ) -> Result<Reply<A>, AllocError>
        ensures done { IfOk result (Does (schedule_step self.old session.now every size) self.new) }
        ensures failed { OnErr result
            (IsBeforeOrAfter (schedule_step self.old session.now every size) self.old self.new) }
    {
        let alloc = self.alloc();
        let asked = schedule_for(every, size);
        let Some(found) = self.find_mut(session) else {
            return refusal(alloc, LineFault::NoSession);
        };
        schedule_reply(alloc, set_schedule(found, asked))
    }
}
