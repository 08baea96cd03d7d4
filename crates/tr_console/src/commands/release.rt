//! `release`

ghost use Rattle.std.specs.Prelude.{◌≡◌, ◌∷◌, ◌++◌, [], IfOk, OnOk, OnErr, is_err};
ghost use Rattle.tr_replies.specs.LineFaults.{HasMemory};
ghost use Rattle.tr_console.specs.Replies.{Does, said};
ghost use Rattle.tr_console.specs.Steps.{line_of};
ghost use Rattle.tr_console.specs.commands.Release.{IsReleasedSomeOrAfter, release_step};
ghost use Rattle.tr_replies.specs.OneLine.{released_text};
ghost use Rattle.tr_stream.specs.Rules.{by_state};

use crate::console::Console;
use crate::replies::{Reply, refusal};
use std::alloc::{AllocError, Allocator};
use tr_replies::{LineFault, ReplyText, from_session, released_line};

/// The answer to a release of the archive of this number. If an allocation failed there is none.
fn released_reply<A: Allocator + Copy>(
    alloc: A,
    archive: u64,
    answer: Result<(), LineFault>,
) -> Result<Reply<A>, AllocError>
    ensures text { IfOk result
        (λ r. said r ≡ line_of (released_text archive) answer ++ 10 ∷ []) }
    ensures refused { IfOk result (λ r. r.is_refused ≡ is_err answer) }
    ensures memory { OnOk result (HasMemory answer) }
{
    match answer {
        Ok(()) => {
            let text = released_line(alloc, archive)?;
            Ok(Reply::done(ReplyText::Written(text)))
        }
        Err(fault) => refusal(alloc, fault),
    }
}

impl<A: Allocator + Copy> Console<A> {
    /// Releases the archive of this number of the session of this name.
    pub(crate) fn release(&mut self, session: &str, archive: u64) -> Result<Reply<A>, AllocError>
        ensures done { IfOk result (Does (release_step by_state self.old session.now archive) self.new) }
        ensures failed { OnErr result
            (IsReleasedSomeOrAfter by_state session.now archive
            (release_step by_state self.old session.now archive) self.old self.new) }
    {
        let alloc = self.alloc();
        let Some(found) = self.find_mut(session) else {
            return refusal(alloc, LineFault::NoSession);
        };
        released_reply(alloc, archive, from_session(found.release(archive)))
    }
}
