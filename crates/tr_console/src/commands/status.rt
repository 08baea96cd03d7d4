//! `status`

ghost use Rattle.std.specs.Prelude.{◌≡◌, IfOk};
ghost use Rattle.std.specs.String.{string_bytes};
ghost use Rattle.tr_console.specs.Replies.{Does};
ghost use Rattle.tr_console.specs.commands.Status.{status_step, status_text};
ghost use Rattle.tr_stream.specs.Rules.{by_state};

use crate::console::Console;
use crate::replies::{Reply, refusal};
use std::alloc::{AllocError, Allocator};
use tr_replies::{LineFault, ReplyText, push_row, status_begun};
use tr_session::Session;

/// What `status` says of a session, without the last newline.
fn status_of<A: Allocator + Copy>(
    alloc: A,
    name: &str,
    session: &Session<A>,
) -> Result<String<A>, AllocError>
    ensures { IfOk result (λ s. string_bytes s ≡ status_text by_state name.now session.now) }
{
    let mut text = status_begun(alloc, name, session.book(), session.cleared())?;
    'rows: for i in 0..session.streams() {
        let Some(stream) = session.stream(i) else {
            unreachable!()
        };
        push_row(&mut text, i, &stream.counts())?;
    }
    Ok(text)
}

impl<A: Allocator + Copy> Console<A> {
    /// Shows the numbers of the session of this name.
    pub(crate) fn status(&self, session: &str) -> Result<Reply<A>, AllocError>
        ensures { IfOk result (Does (status_step by_state self.now session.now) self.now) }
    {
        let alloc = self.alloc();
        let Some(found) = self.find(session) else {
            return refusal(alloc, LineFault::NoSession);
        };
        let mut text = status_of(alloc, session, found)?;
        text.push_str("\n")?;
        Ok(Reply::done(ReplyText::Written(text)))
    }
}
