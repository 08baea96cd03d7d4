//! Offers to one stream that declared events judge first, as they do a session's.

use crate::cases::Case;
use crate::offers::{OFFERS, OffersFault, Total, mix_answer, moment_of};
use std::alloc::Global;
use tr_events::Events;
use tr_stream::{OfferFault, Stream};
use tr_terms::SessionMode;
use uuid::Uuid;

/// Events whose payloads have 8 bytes, and one whose payloads have a text.
const EVENTS: &str = "push 6 worker:u32 depth:u32\npop 7 depth:u64\nsaid 8 text:str\n";

/// What judges the offers of a round, and by which ids.
#[derive(Clone, Copy, Debug)]
pub enum Judge {
    /// Nothing.
    Nobody,
    /// No event is declared.
    Nothing,
    /// Events of smaller ids are declared.
    Smaller,
    /// Events of greater ids are declared.
    Greater,
    /// Events of these ids are declared, with fields of but one size.
    Fixed,
}

impl Judge {
    /// The judge of this name, if any.
    pub fn named(name: &str) -> Option<Judge> {
        match name {
            "nobody" => Some(Judge::Nobody),
            "nothing" => Some(Judge::Nothing),
            "smaller" => Some(Judge::Smaller),
            "greater" => Some(Judge::Greater),
            "fixed" => Some(Judge::Fixed),
            _ => None,
        }
    }
}

/// The id of the offer that has `k` others before it: two ids take turns.
fn id_of(first: u32, k: u64) -> u32 {
    first ^ (k & 1) as u32
}

/// The sum with the answers to a round's offers, each with 8 bytes, which the events judge.
#[inline(always)]
fn feed_judged(
    stream: &mut Stream,
    events: &Events,
    first: u32,
    before: u64,
) -> Result<u64, OfferFault> {
    let mut sum = before;
    for k in 0..OFFERS {
        let id = id_of(first, k);
        let payload = k.to_le_bytes();
        if !events.fits(id, &payload) {
            return Err(OfferFault::OtherLayout);
        }
        let answer = stream.offer(moment_of(k), id, &payload)?;
        sum = mix_answer(sum, answer);
    }
    Ok(sum)
}

/// The same without a judge.
#[inline(always)]
fn feed(stream: &mut Stream, first: u32, before: u64) -> Result<u64, OfferFault> {
    let mut sum = before;
    for k in 0..OFFERS {
        let id = id_of(first, k);
        let answer = stream.offer(moment_of(k), id, &k.to_le_bytes())?;
        sum = mix_answer(sum, answer);
    }
    Ok(sum)
}

/// A new stream that takes offers.
fn begun(alloc: Global, case: &Case) -> Result<Stream, OffersFault> {
    let mut stream = Stream::new(
        alloc,
        Uuid::nil(),
        0,
        case.geometry,
        case.mode,
        SessionMode::Local,
    )?;
    stream.set_active(true);
    Ok(stream)
}

/// Rounds that are judged by what a text declares.
#[inline(never)]
fn judged(
    alloc: Global,
    case: &Case,
    text: &str,
    first: u32,
    rounds: u64,
) -> Result<Total, OffersFault> {
    let Ok(events) = Events::parse(alloc, text.as_bytes()) else {
        return Err(OffersFault::NoMemory);
    };
    let mut total = Total::default();
    for _ in 0..rounds {
        let mut stream = begun(alloc, case)?;
        let sum = feed_judged(&mut stream, &events, first, total.sum)?;
        total = total.with(&stream, sum);
    }
    Ok(total)
}

/// Rounds that nothing judges.
#[inline(never)]
fn unjudged(alloc: Global, case: &Case, first: u32, rounds: u64) -> Result<Total, OffersFault> {
    let mut total = Total::default();
    for _ in 0..rounds {
        let mut stream = begun(alloc, case)?;
        let sum = feed(&mut stream, first, total.sum)?;
        total = total.with(&stream, sum);
    }
    Ok(total)
}

/// Runs `rounds` rounds.
pub fn all_rounds(
    alloc: Global,
    judge: Judge,
    case: &Case,
    rounds: u64,
) -> Result<Total, OffersFault> {
    match judge {
        Judge::Nobody => unjudged(alloc, case, 6, rounds),
        Judge::Nothing => judged(alloc, case, "", 6, rounds),
        Judge::Smaller => judged(alloc, case, EVENTS, 10, rounds),
        Judge::Greater => judged(alloc, case, EVENTS, 4, rounds),
        Judge::Fixed => judged(alloc, case, EVENTS, 6, rounds),
    }
}
