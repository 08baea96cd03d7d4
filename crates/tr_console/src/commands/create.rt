//! `create`

ghost use Rattle.std.specs.Prelude.{◌≡◌, IfOk, OnErr};
ghost use Rattle.tr_console.specs.Replies.{Does};
ghost use Rattle.tr_console.specs.Steps.{IsBeforeOrAfter};
ghost use Rattle.tr_console.specs.commands.Create.{create_step, mode_asked};
ghost use Rattle.tr_terms.specs.Offsets.{IsOffset};

use crate::console::Console;
use crate::replies::{Reply, refusal};
use std::alloc::{AllocError, Allocator};
use tr_replies::{LineFault, ReplyText};
use tr_session::Session;
use tr_session_book::SessionFault;
use tr_terms::limits::MOST_SESSIONS;
use tr_terms::{Name, OffsetMinutes, SessionMode};
use uuid::Uuid;

/// The mode of a session that a command asks for.
pub(crate) fn mode_of(snapshot: bool) -> SessionMode
    ensures { result ≡ mode_asked snapshot }
{
    if snapshot {
        SessionMode::Snapshot
    } else {
        SessionMode::Local
    }
}

impl<A: Allocator + Copy> Console<A> {
    /// Creates a session.
    pub(crate) fn create(
        &mut self,
        session: &str,
        uuid: &str,
        offset: i32,
        mode: SessionMode,
    ) -> Result<Reply<A>, AllocError>
        requires { IsOffset offset }
        ensures done { IfOk result (Does (create_step self.old session.now uuid.now offset mode) self.new) }
        ensures failed { OnErr result
            (IsBeforeOrAfter (create_step self.old session.now uuid.now offset mode) self.old self.new) }
    {
        let alloc = self.alloc();
        let Some(offset) = OffsetMinutes::new(offset) else {
            unreachable!()
        };
        let Some(name) = Name::new(session) else {
            return refusal(alloc, LineFault::BadName);
        };
        let Ok(uuid) = Uuid::parse_str(uuid) else {
            return refusal(alloc, LineFault::BadUuid);
        };
        if self.find(session).is_some() {
            return refusal(alloc, LineFault::Session(SessionFault::NameTaken));
        }
        if self.sessions() >= MOST_SESSIONS {
            return refusal(alloc, LineFault::Session(SessionFault::TooMany));
        }
        let text = format!(in alloc; "created {session}\n")?;
        let mut made = Session::new(alloc, uuid, offset, mode);
        // (it wasn't started, so only a failed allocation refuses this)
        if let Err(_) = made.declare(self.events()) {
            return Err(AllocError);
        }
        self.add(&name, made)?;
        Ok(Reply::done(ReplyText::Written(text)))
    }
}
