//! `fate`

ghost use Rattle.std.specs.Prelude.{◌≡◌, ◌∷◌, ◌++◌, [], Some, IfOk, is_err};
ghost use Rattle.tr_console.specs.Replies.{Does, said};
ghost use Rattle.tr_console.specs.Steps.{line_of};
ghost use Rattle.tr_console.specs.commands.Fate.{fate_step};
ghost use Rattle.tr_replies.specs.OneLine.{fate_text};
ghost use Rattle.tr_stream.specs.Rules.{by_state};

use crate::console::Console;
use crate::replies::{Reply, refusal};
use std::alloc::{AllocError, Allocator};
use tr_replies::{LineFault, fate_line, from_step};
use tr_stream::Fate;

/// The answer to a question about a fate.
fn fate_reply<A: Allocator + Copy>(
    alloc: A,
    answer: Result<Option<Fate>, LineFault>,
) -> Result<Reply<A>, AllocError>
    ensures text { IfOk result (λ r. said r ≡ line_of fate_text answer ++ 10 ∷ []) }
    ensures refused { IfOk result (λ r. r.is_refused ≡ is_err answer) }
{
    let text = match answer {
        Ok(fate) => fate_line(alloc, fate)?,
        Err(fault) => return refusal(alloc, fault),
    };
    Ok(Reply::done(text))
}

impl<A: Allocator + Copy> Console<A> {
    /// Says what became of an offer to a stream of the session of this name.
    pub(crate) fn fate(
        &self,
        session: &str,
        stream: u64,
        serial: u64,
    ) -> Result<Reply<A>, AllocError>
        ensures { IfOk result (Does (fate_step by_state self.now session.now stream serial) self.now) }
    {
        let alloc = self.alloc();
        let Some(found) = self.find(session) else {
            return refusal(alloc, LineFault::NoSession);
        };
        fate_reply(alloc, from_step(found.fate_of(stream, serial)))
    }
}
