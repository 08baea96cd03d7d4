//! `consume`

ghost use Rattle.std.specs.Prelude.{◌≡◌, ◌∷◌, ◌++◌, [], IfOk, OnOk, OnErr, is_err};
ghost use Rattle.tr_replies.specs.LineFaults.{HasMemory};
ghost use Rattle.tr_console.specs.Replies.{Does, said};
ghost use Rattle.tr_console.specs.Steps.{IsBeforeOrAfter, line_of};
ghost use Rattle.tr_console.specs.commands.Consume.{consume_step, taken_text};
ghost use Rattle.tr_stream.specs.Rules.{by_state};

use crate::console::Console;
use crate::replies::{Reply, refusal};
use std::alloc::{AllocError, Allocator};
use tr_replies::{LineFault, ReplyText, from_step, words_and_numbers};
use tr_stream::Taken;

/// The answer to a take. If an allocation failed there is none.
fn taken_reply<A: Allocator + Copy>(
    alloc: A,
    answer: Result<Taken, LineFault>,
) -> Result<Reply<A>, AllocError>
    ensures text { IfOk result (λ r. said r ≡ line_of taken_text answer ++ 10 ∷ []) }
    ensures refused { IfOk result (λ r. r.is_refused ≡ is_err answer) }
    ensures memory { OnOk result (HasMemory answer) }
{
    match answer {
        Ok(Taken { seq, count, chunk }) => {
            let parts = [("taken ", seq), (" records ", count), (" chunk ", chunk)];
            let text = words_and_numbers(alloc, &parts)?;
            Ok(Reply::done(ReplyText::Written(text)))
        }
        Err(fault) => refusal(alloc, fault),
    }
}

impl<A: Allocator + Copy> Console<A> {
    /// Takes the oldest packet of a stream of the session of this name.
    pub(crate) fn consume(&mut self, session: &str, stream: u64) -> Result<Reply<A>, AllocError>
        ensures done { IfOk result (Does (consume_step by_state self.old session.now stream) self.new) }
        ensures failed { OnErr result
            (IsBeforeOrAfter (consume_step by_state self.old session.now stream) self.old self.new) }
    {
        let alloc = self.alloc();
        let Some(found) = self.find_mut(session) else {
            return refusal(alloc, LineFault::NoSession);
        };
        taken_reply(alloc, from_step(found.take(stream)))
    }
}
