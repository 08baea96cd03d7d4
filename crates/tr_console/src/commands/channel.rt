//! `channel`

ghost use Rattle.std.specs.Prelude.{◌≡◌, IfOk, OnErr};
ghost use Rattle.tr_console.specs.Replies.{Does};
ghost use Rattle.tr_console.specs.Steps.{IsBeforeOrAfter};
ghost use Rattle.tr_console.specs.commands.Channel.{channel_step};

use crate::console::Console;
use crate::replies::{Reply, refusal};
use std::alloc::{AllocError, Allocator};
use tr_replies::{LineFault, ReplyText};
use tr_terms::{Mode, Name};

/// How the streams of a channel that is asked for are made.
#[derive(Clone, Copy, Debug)]
pub(crate) struct ChannelShape {
    /// The size of a sub-buffer in bytes.
    pub(crate) size: u64,
    /// How many sub-buffers a ring has.
    pub(crate) count: u64,
    /// What a full ring does.
    pub(crate) mode: Mode,
}

/// The shape of a channel with the sizes that a command gave.
pub(crate) fn shape_of(size: u32, count: u32, mode: Mode) -> ChannelShape
    ensures { result ≡ record { size = size; count = count; mode = mode } }
{
    ChannelShape {
        size: u64::from(size),
        count: u64::from(count),
        mode,
    }
}

impl<A: Allocator + Copy> Console<A> {
    /// Adds a channel to the session of this name.
    pub(crate) fn add_channel(
        &mut self,
        session: &str,
        channel: &str,
        shape: ChannelShape,
    ) -> Result<Reply<A>, AllocError>
        ensures done { IfOk result
            (Does (channel_step self.old session.now channel.now shape.size shape.count shape.mode) self.new) }
        ensures failed { OnErr result
            (IsBeforeOrAfter
            (channel_step self.old session.now channel.now shape.size shape.count shape.mode) self.old self.new) }
    {
        let alloc = self.alloc();
        let Some(found) = self.find_mut(session) else {
            return refusal(alloc, LineFault::NoSession);
        };
        let Some(name) = Name::new(channel) else {
            return refusal(alloc, LineFault::BadName);
        };
        if let Err(fault) = found.add_channel(&name, shape.size, shape.count, shape.mode) {
            return refusal(alloc, LineFault::Session(fault));
        }
        let text = format!(in alloc; "channel {channel}\n")?;
        Ok(Reply::done(ReplyText::Written(text)))
    }
}
