//! `snapshot`

ghost use Rattle.std.specs.Prelude.{◌≡◌, ◌∷◌, ◌++◌, [], IfOk, OnOk, OnErr, is_err};
ghost use Rattle.std.specs.String.{string_bytes};
ghost use Rattle.tr_replies.specs.LineFaults.{HasMemory};
ghost use Rattle.tr_console.specs.Replies.{Does, said};
ghost use Rattle.tr_console.specs.Steps.{IsBeforeOrAfter, line_of};
ghost use Rattle.tr_console.specs.commands.Snapshot.{snapshot_step, snapshot_text};
ghost use Rattle.tr_stream.specs.Rules.{by_state};

use crate::console::Console;
use crate::replies::{Reply, refusal};
use std::alloc::{AllocError, Allocator};
use tr_replies::{LineFault, ReplyText, from_session, push_stream, snapshot_begun};
use tr_snapshot::Snapshot;
use tr_terms::Moment;

/// What is said of a snapshot, without the last newline.
fn snapshot_of<A: Allocator + Copy, B: Allocator>(
    alloc: A,
    snapshot: &Snapshot<B>,
) -> Result<String<A>, AllocError>
    ensures { IfOk result (λ s. string_bytes s ≡ snapshot_text snapshot.now) }
{
    let moment = snapshot.moment().get();
    let mut text = snapshot_begun(alloc, moment)?;
    let streams = snapshot.streams();
    'streams: for snap in streams {
        push_stream(&mut text, snap)?;
    }
    Ok(text)
}

/// The answer to a snapshot. If an allocation failed there is none.
fn snapshot_reply<A: Allocator + Copy>(
    alloc: A,
    answer: Result<Snapshot<A>, LineFault>,
) -> Result<Reply<A>, AllocError>
    ensures text { IfOk result (λ r. said r ≡ line_of snapshot_text answer ++ 10 ∷ []) }
    ensures refused { IfOk result (λ r. r.is_refused ≡ is_err answer) }
    ensures memory { OnOk result (HasMemory answer) }
{
    match answer {
        Ok(snapshot) => {
            let mut text = snapshot_of(alloc, &snapshot)?;
            text.push_str("\n")?;
            Ok(Reply::done(ReplyText::Written(text)))
        }
        Err(fault) => refusal(alloc, fault),
    }
}

impl<A: Allocator + Copy> Console<A> {
    /// Takes a snapshot of the session of this name.
    pub(crate) fn snapshot(&mut self, session: &str, moment: Moment) -> Result<Reply<A>, AllocError>
        ensures done { IfOk result (Does (snapshot_step by_state self.old session.now moment) self.new) }
        ensures failed { OnErr result
            (IsBeforeOrAfter (snapshot_step by_state self.old session.now moment) self.old self.new) }
    {
        let alloc = self.alloc();
        let Some(found) = self.find_mut(session) else {
            return refusal(alloc, LineFault::NoSession);
        };
        snapshot_reply(alloc, from_session(found.snapshot(moment)))
    }
}
