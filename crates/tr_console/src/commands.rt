//! The commands: for each what it does with a session, and how that is answered.

ghost use Rattle.std.specs.Prelude.{◌≤◌, IfOk};
ghost use Rattle.tr_command.specs.Asked.{asked_by, moment_in, offset_in};
ghost use Rattle.tr_console.specs.Replies.{Does};
ghost use Rattle.tr_console.specs.commands.{request_step};
ghost use Rattle.tr_stream.specs.Rules.{by_state};
ghost use Rattle.tr_terms.specs.Offsets.{IsOffset};
ghost use Rattle.tr_terms.specs.declared.limits.TheConstants.{LAST_MOMENT};

mod archives;
mod channel;
mod clear;
mod consume;
mod create;
mod fate;
mod offer;
mod release;
mod rotate;
mod schedule;
mod snapshot;
mod start;
mod status;
mod thread;
mod tick;

use crate::commands::channel::shape_of;
use crate::commands::create::mode_of;
use crate::commands::offer::OfferTo;
use crate::console::Console;
use crate::replies::Reply;
use std::alloc::{AllocError, Allocator};
use tr_command::Request;
use tr_terms::Moment;

impl<A: Allocator + Copy> Console<A> {
    /// Answers a command.
    pub(crate) fn answer_request(&mut self, request: Request<'_>) -> Result<Reply<A>, AllocError>
        requires moment { moment_in (asked_by request) ≤ LAST_MOMENT }
        requires offset { IsOffset (offset_in (asked_by request)) }
        ensures { IfOk result (Does (request_step by_state self.old (asked_by request.entry)) self.new) }
    {
        match request {
            Request::Create {
                session,
                uuid,
                offset,
                snapshot,
            } => self.create(session, uuid, offset, mode_of(snapshot)),
            Request::Channel {
                session,
                channel,
                size,
                count,
                mode,
            } => self.add_channel(session, channel, shape_of(size, count, mode)),
            Request::Thread { session, channel } => self.add_thread(session, channel),
            Request::Start { session, moment } => self.start(session, Moment::within_limit(moment)),
            Request::Stop { session } => self.stop(session),
            Request::Offer {
                session,
                stream,
                moment,
                id,
                text,
                fill,
            } => {
                let moment = Moment::within_limit(moment);
                self.offer(session, OfferTo { stream, moment, id }, text, fill)
            }
            Request::Consume { session, stream } => self.consume(session, stream),
            Request::Clear { session } => self.clear(session),
            Request::RotateBegin { session, moment } => {
                self.rotate_begin(session, Moment::within_limit(moment))
            }
            Request::RotateNext { session } => self.rotate_next(session),
            Request::RotateFinish { session } => self.rotate_finish(session),
            Request::Rotate { session, moment } => {
                self.rotate(session, Moment::within_limit(moment))
            }
            Request::Snapshot { session, moment } => {
                self.snapshot(session, Moment::within_limit(moment))
            }
            Request::Schedule {
                session,
                every,
                size,
            } => self.schedule(session, every, size),
            Request::Tick { session, moment } => self.tick(session, Moment::within_limit(moment)),
            Request::Fate {
                session,
                stream,
                serial,
            } => self.fate(session, stream, serial),
            Request::Status { session } => self.status(session),
            Request::Archives { session } => self.archives(session),
            Request::Release { session, archive } => self.release(session, archive),
        }
    }
}
