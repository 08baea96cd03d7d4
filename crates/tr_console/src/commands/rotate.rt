//! `rotate`, and its steps `rotate-begin`, `rotate-next` and `rotate-finish`

ghost use Rattle.std.specs.Prelude.{◌≡◌, ◌∷◌, ◌++◌, [], IfOk, OnOk, OnErr, is_err};
ghost use Rattle.tr_replies.specs.LineFaults.{HasMemory};
ghost use Rattle.tr_console.specs.Replies.{Does, said};
ghost use Rattle.tr_console.specs.Steps.{IsBeforeOrAfter, line_of};
ghost use Rattle.tr_console.specs.commands.Rotate.{IsHeldUpOrAfter, archive_named, next_text, rotate_begin_step, rotate_finish_step, rotate_next_step, rotate_step, rotating_text};
ghost use Rattle.tr_replies.specs.OneLine.{archived_text};
ghost use Rattle.tr_stream.specs.Rules.{by_state};

use crate::console::Console;
use crate::replies::{Reply, refusal};
use std::alloc::{AllocError, Allocator};
use tr_replies::{LineFault, NamedArchive, ReplyText, archived_line, from_session, from_step};
use tr_session::Next;
use tr_session_book::{Archive, SessionFault};
use tr_terms::{Moment, OffsetMinutes};

/// The archive that a session made, with what its name needs.
fn archive_named(
    offset: OffsetMinutes,
    answer: Result<Archive, SessionFault>,
) -> Result<NamedArchive, LineFault>
    ensures { result ≡ archive_named offset answer }
{
    match answer {
        Ok(archive) => Ok(NamedArchive { archive, offset }),
        Err(fault) => Err(LineFault::Session(fault)),
    }
}

/// The answer to the beginning of a rotation. If an allocation failed there is none.
fn rotating_reply<A: Allocator + Copy>(
    alloc: A,
    answer: Result<u64, LineFault>,
) -> Result<Reply<A>, AllocError>
    ensures text { IfOk result (λ r. said r ≡ line_of rotating_text answer ++ 10 ∷ []) }
    ensures refused { IfOk result (λ r. r.is_refused ≡ is_err answer) }
    ensures memory { OnOk result (HasMemory answer) }
{
    match answer {
        Ok(id) => {
            let text = format!(in alloc; "rotating {id}\n")?;
            Ok(Reply::done(ReplyText::Written(text)))
        }
        Err(fault) => refusal(alloc, fault),
    }
}

/// The answer to a cut of a rotation. If an allocation failed there is none.
fn next_reply<A: Allocator + Copy>(
    alloc: A,
    answer: Result<Next, LineFault>,
) -> Result<Reply<A>, AllocError>
    ensures text { IfOk result (λ r. said r ≡ line_of next_text answer ++ 10 ∷ []) }
    ensures refused { IfOk result (λ r. r.is_refused ≡ is_err answer) }
    ensures memory { OnOk result (HasMemory answer) }
{
    let text = match answer {
        Ok(Next::Cut { stream, records }) => {
            ReplyText::Written(format!(in alloc; "cut {stream} records {records}\n")?)
        }
        Ok(Next::AllCut) => ReplyText::Constant("all cut\n"),
        Err(fault) => return refusal(alloc, fault),
    };
    Ok(Reply::done(text))
}

/// The answer to a rotation that made an archive. If an allocation failed there is none.
fn archived_reply<A: Allocator + Copy>(
    alloc: A,
    answer: Result<NamedArchive, LineFault>,
) -> Result<Reply<A>, AllocError>
    ensures text { IfOk result (λ r. said r ≡ line_of archived_text answer ++ 10 ∷ []) }
    ensures refused { IfOk result (λ r. r.is_refused ≡ is_err answer) }
    ensures memory { OnOk result (HasMemory answer) }
{
    match answer {
        Ok(named) => {
            let text = archived_line(alloc, named)?;
            Ok(Reply::done(ReplyText::Written(text)))
        }
        Err(fault) => refusal(alloc, fault),
    }
}

impl<A: Allocator + Copy> Console<A> {
    /// Begins a rotation of the session of this name.
    pub(crate) fn rotate_begin(
        &mut self,
        session: &str,
        moment: Moment,
    ) -> Result<Reply<A>, AllocError>
        ensures done { IfOk result (Does (rotate_begin_step self.old session.now moment) self.new) }
        ensures failed { OnErr result
            (IsBeforeOrAfter (rotate_begin_step self.old session.now moment) self.old self.new) }
    {
        let alloc = self.alloc();
        let Some(found) = self.find_mut(session) else {
            return refusal(alloc, LineFault::NoSession);
        };
        rotating_reply(alloc, from_session(found.rotate_begin(moment)))
    }

    /// Lets the pending rotation of the session of this name cut its next stream, if there is one.
    pub(crate) fn rotate_next(&mut self, session: &str) -> Result<Reply<A>, AllocError>
        ensures done { IfOk result (Does (rotate_next_step by_state self.old session.now) self.new) }
        ensures failed { OnErr result
            (IsBeforeOrAfter (rotate_next_step by_state self.old session.now) self.old self.new) }
    {
        let alloc = self.alloc();
        let Some(found) = self.find_mut(session) else {
            return refusal(alloc, LineFault::NoSession);
        };
        next_reply(alloc, from_step(found.rotate_next()))
    }

    /// Ends the pending rotation of the session of this name.
    pub(crate) fn rotate_finish(&mut self, session: &str) -> Result<Reply<A>, AllocError>
        ensures done { IfOk result (Does (rotate_finish_step self.old session.now) self.new) }
        ensures failed { OnErr result
            (IsBeforeOrAfter (rotate_finish_step self.old session.now) self.old self.new) }
    {
        let alloc = self.alloc();
        let Some(found) = self.find_mut(session) else {
            return refusal(alloc, LineFault::NoSession);
        };
        let offset = found.book().offset();
        archived_reply(alloc, archive_named(offset, found.rotate_finish()))
    }

    /// Rotates the session of this name.
    pub(crate) fn rotate(&mut self, session: &str, moment: Moment) -> Result<Reply<A>, AllocError>
        ensures done { IfOk result (Does (rotate_step by_state self.old session.now moment) self.new) }
        ensures failed { OnErr result
            (IsHeldUpOrAfter by_state session.now moment
            (rotate_step by_state self.old session.now moment) self.old self.new) }
    {
        let alloc = self.alloc();
        let Some(found) = self.find_mut(session) else {
            return refusal(alloc, LineFault::NoSession);
        };
        let offset = found.book().offset();
        archived_reply(alloc, archive_named(offset, found.rotate(moment)))
    }
}
