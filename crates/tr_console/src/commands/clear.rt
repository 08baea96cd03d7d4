//! `clear`

ghost use Rattle.std.specs.Prelude.{◌≡◌, ◌∷◌, ◌++◌, [], IfOk, OnOk, OnErr, is_err};
ghost use Rattle.tr_replies.specs.LineFaults.{HasMemory};
ghost use Rattle.tr_console.specs.Replies.{Does, said};
ghost use Rattle.tr_console.specs.Steps.{line_of};
ghost use Rattle.tr_console.specs.commands.Clear.{IsClearedSomeOrAfter, clear_step};
ghost use Rattle.tr_replies.specs.OneLine.{cleared_text};
ghost use Rattle.tr_stream.specs.Rules.{by_state};

use crate::console::Console;
use crate::replies::{Reply, refusal};
use std::alloc::{AllocError, Allocator};
use tr_replies::{LineFault, ReplyText, cleared_line, from_session};

/// The answer to a clear. If an allocation failed there is none.
fn cleared_reply<A: Allocator + Copy>(
    alloc: A,
    answer: Result<u128, LineFault>,
) -> Result<Reply<A>, AllocError>
    ensures text { IfOk result (λ r. said r ≡ line_of cleared_text answer ++ 10 ∷ []) }
    ensures refused { IfOk result (λ r. r.is_refused ≡ is_err answer) }
    ensures memory { OnOk result (HasMemory answer) }
{
    match answer {
        Ok(records) => {
            let text = cleared_line(alloc, records)?;
            Ok(Reply::done(ReplyText::Written(text)))
        }
        Err(fault) => refusal(alloc, fault),
    }
}

impl<A: Allocator + Copy> Console<A> {
    /// Clears each stream of the session of this name.
    pub(crate) fn clear(&mut self, session: &str) -> Result<Reply<A>, AllocError>
        ensures done { IfOk result (Does (clear_step by_state self.old session.now) self.new) }
        ensures failed { OnErr result
            (IsClearedSomeOrAfter by_state session.now (clear_step by_state self.old session.now) self.old self.new) }
    {
        let alloc = self.alloc();
        let Some(found) = self.find_mut(session) else {
            return refusal(alloc, LineFault::NoSession);
        };
        cleared_reply(alloc, from_session(found.clear()))
    }
}
