//! `offer`

ghost use Rattle.std.specs.Prelude.{◌≡◌, ◌∷◌, ◌++◌, [], IfOk, OnOk, OnErr, is_err};
ghost use Rattle.std.specs.String.{string_bytes};
ghost use Rattle.tr_replies.specs.LineFaults.{HasMemory};
ghost use Rattle.tr_console.specs.Replies.{Does, said};
ghost use Rattle.tr_console.specs.Steps.{IsBeforeOrAfter, line_of};
ghost use Rattle.tr_console.specs.commands.Offer.{offer_step, offered_text, payload_of};
ghost use Rattle.tr_stream.specs.Rules.{by_state};

use crate::console::Console;
use crate::replies::{Reply, refusal};
use std::alloc::{AllocError, Allocator};
use tr_record::put_bytes;
use tr_replies::{LineFault, ReplyText, from_step, words_and_numbers};
use tr_stream::Offered;
use tr_terms::Moment;

/// What an offer gives beside its payload.
#[derive(Clone, Copy, Debug)]
pub(crate) struct OfferTo {
    /// The number of the stream that it is for.
    pub(crate) stream: u64,
    /// The moment of the record.
    pub(crate) moment: Moment,
    /// The id of the record.
    pub(crate) id: u32,
}

/// The payload of an offer: a text, and `fill` bytes `a` after it. It is made once, in memory for as many bytes.
fn payload<A: Allocator + Copy>(alloc: A, text: &str, fill: u32) -> Result<Vec<u8, A>, AllocError>
    ensures { IfOk result (λ v. v.items ≡ payload_of text.now fill) }
{
    let text = text.as_bytes();
    let len = text.len() + fill as usize;
    let mut bytes = Vec::with_capacity(alloc, len)?;
    put_bytes(&mut bytes, text);
    bytes.resize(len, b'a')?;
    Ok(bytes)
}

/// What an offer did, with a newline.
fn offered_line<A: Allocator + Copy>(alloc: A, offered: Offered) -> Result<String<A>, AllocError>
    ensures { IfOk result (λ t. string_bytes t ≡ offered_text offered ++ 10 ∷ []) }
{
    match offered {
        Offered::Stored { serial, seq } => {
            words_and_numbers(alloc, &[("stored ", serial), (" in ", seq)])
        }
        Offered::StoredOver {
            serial,
            seq,
            gone_seq,
            gone_count,
        } => words_and_numbers(
            alloc,
            &[
                ("stored ", serial),
                (" in ", seq),
                (" over ", gone_seq),
                (" ", gone_count),
            ],
        ),
        Offered::Discarded { serial } => words_and_numbers(alloc, &[("discarded ", serial)]),
    }
}

/// The answer to an offer. If an allocation failed there is none.
fn offered_reply<A: Allocator + Copy>(
    alloc: A,
    answer: Result<Offered, LineFault>,
) -> Result<Reply<A>, AllocError>
    ensures text { IfOk result (λ r. said r ≡ line_of offered_text answer ++ 10 ∷ []) }
    ensures refused { IfOk result (λ r. r.is_refused ≡ is_err answer) }
    ensures memory { OnOk result (HasMemory answer) }
{
    match answer {
        Ok(offered) => {
            let text = offered_line(alloc, offered)?;
            Ok(Reply::done(ReplyText::Written(text)))
        }
        Err(fault) => refusal(alloc, fault),
    }
}

impl<A: Allocator + Copy> Console<A> {
    /// Offers a record to a stream of the session of this name: a text, and `fill` bytes `a` after it.
    pub(crate) fn offer(
        &mut self,
        session: &str,
        offer: OfferTo,
        text: &str,
        fill: u32,
    ) -> Result<Reply<A>, AllocError>
        ensures done { IfOk result (Does
            (offer_step by_state self.old session.now offer.stream offer.moment offer.id text.now fill) self.new) }
        ensures failed { OnErr result
            (IsBeforeOrAfter
            (offer_step by_state self.old session.now offer.stream offer.moment offer.id text.now fill)
            self.old self.new) }
    {
        let alloc = self.alloc();
        let payload = payload(alloc, text, fill)?;
        let Some(found) = self.find_mut(session) else {
            return refusal(alloc, LineFault::NoSession);
        };
        let answer = found.offer(offer.stream, offer.moment, offer.id, payload.as_slice());
        offered_reply(alloc, from_step(answer))
    }
}
