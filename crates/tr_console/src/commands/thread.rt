//! `thread`

ghost use Rattle.std.specs.Prelude.{IfOk, OnErr};
ghost use Rattle.tr_console.specs.Replies.{Does};
ghost use Rattle.tr_console.specs.Steps.{IsBeforeOrAfter};
ghost use Rattle.tr_console.specs.commands.Thread.{thread_step};
ghost use Rattle.tr_stream.specs.Rules.{by_state};

use crate::console::Console;
use crate::replies::{Reply, refusal};
use std::alloc::{AllocError, Allocator};
use tr_replies::{LineFault, ReplyText};

impl<A: Allocator + Copy> Console<A> {
    /// Adds a thread to a channel of the session of this name.
    pub(crate) fn add_thread(
        &mut self,
        session: &str,
        channel: &str,
    ) -> Result<Reply<A>, AllocError>
        ensures done { IfOk result (Does (thread_step by_state self.old session.now channel.now) self.new) }
        ensures failed { OnErr result
            (IsBeforeOrAfter (thread_step by_state self.old session.now channel.now) self.old self.new) }
    {
        let alloc = self.alloc();
        let Some(found) = self.find_mut(session) else {
            return refusal(alloc, LineFault::NoSession);
        };
        match found.add_thread(channel) {
            Ok(stream) => {
                let text = format!(in alloc; "stream {stream}\n")?;
                Ok(Reply::done(ReplyText::Written(text)))
            }
            Err(fault) => refusal(alloc, LineFault::Session(fault)),
        }
    }
}
