//! `start` and `stop`

ghost use Rattle.std.specs.Prelude.{IfOk, OnErr};
ghost use Rattle.tr_console.specs.Replies.{Does};
ghost use Rattle.tr_console.specs.Steps.{IsBeforeOrAfter};
ghost use Rattle.tr_console.specs.commands.Start.{start_step, stop_step};
ghost use Rattle.tr_stream.specs.Rules.{by_state};

use crate::console::Console;
use crate::replies::{Reply, done_reply, refusal};
use std::alloc::{AllocError, Allocator};
use tr_replies::{LineFault, from_session};
use tr_terms::Moment;

impl<A: Allocator + Copy> Console<A> {
    /// Starts the session of this name and its streams.
    pub(crate) fn start(&mut self, session: &str, moment: Moment) -> Result<Reply<A>, AllocError>
        ensures done { IfOk result (Does (start_step by_state self.old session.now moment) self.new) }
        ensures failed { OnErr result
            (IsBeforeOrAfter (start_step by_state self.old session.now moment) self.old self.new) }
    {
        let alloc = self.alloc();
        let Some(found) = self.find_mut(session) else {
            return refusal(alloc, LineFault::NoSession);
        };
        done_reply(alloc, "started\n", from_session(found.start(moment)))
    }

    /// Stops the session of this name and its streams.
    pub(crate) fn stop(&mut self, session: &str) -> Result<Reply<A>, AllocError>
        ensures done { IfOk result (Does (stop_step by_state self.old session.now) self.new) }
        ensures failed { OnErr result
            (IsBeforeOrAfter (stop_step by_state self.old session.now) self.old self.new) }
    {
        let alloc = self.alloc();
        let Some(found) = self.find_mut(session) else {
            return refusal(alloc, LineFault::NoSession);
        };
        done_reply(alloc, "stopped\n", from_session(found.stop()))
    }
}
