//! Offers to one stream.

ghost use Rattle.std.specs.Prelude.{◌≤◌, ◌<◌};
ghost use Rattle.tr_bench.specs.declared.offers.TheConstants.{OFFERS};

use crate::cases::Case;
use crate::sums::mix;
use std::alloc::{AllocError, Global};
use std::ops::Range;
use tr_packet::PacketView;
use tr_stream::{OfferFault, Offered, Stream};
use tr_terms::{Moment, SessionMode};
use uuid::Uuid;

/// How many offers a round makes to a new stream.
pub const OFFERS: u64 = 100_000;

/// How many offers come between two takes.
const OFFERS_A_TAKE: u64 = 125;

/// Why there is no total.
#[derive(Clone, Copy, Debug, PartialEq, Eq)]
pub enum OffersFault {
    /// A stream could not be made.
    NoMemory,
    /// A stream refused an offer.
    Refused(OfferFault),
}

impl From<AllocError> for OffersFault {
    fn from(_: AllocError) -> OffersFault {
        OffersFault::NoMemory
    }
}

impl From<OfferFault> for OffersFault {
    fn from(fault: OfferFault) -> OffersFault {
        OffersFault::Refused(fault)
    }
}

/// The counts of all streams, and a sum over all answers.
#[derive(Clone, Copy, Debug, Default)]
pub struct Total {
    pub offered: u64,
    pub discarded: u64,
    pub overwritten: u64,
    pub overwritten_packets: u64,
    pub consumed: u64,
    pub sum: u64,
}

/// The moment of the offer that has `k` others before it. Every second moment is earlier than the last one.
pub fn moment_of(k: u64) -> Moment
    requires { k < OFFERS }
{
    Moment::within_limit(k ^ 1)
}

/// The sum with an offer's answer.
pub fn mix_answer(sum: u64, answer: Offered) -> u64 {
    match answer {
        Offered::Stored { serial, seq } => mix(mix(sum, serial), seq),
        Offered::StoredOver {
            serial,
            seq,
            gone_seq,
            gone_count,
        } => mix(mix(mix(mix(sum, serial), seq), gone_seq), gone_count),
        Offered::Discarded { serial } => mix(sum, serial),
    }
}

/// Takes a packet, if one waits.
fn take(stream: &mut Stream, sum: u64) -> u64 {
    match stream.take() {
        Ok(taken) => mix(mix(mix(sum, taken.seq), taken.count), taken.chunk),
        Err(_) => sum,
    }
}

/// The sum with a packet's head and its first record.
fn mix_packet(sum: u64, packet: &PacketView<'_>) -> u64 {
    let head = packet.head();
    let mut sum = mix(mix(sum, u64::from(head.uuid.into_bytes()[15])), head.stream);
    sum = mix(mix(sum, head.begin.get()), head.end.get());
    sum = mix(mix(sum, head.seq), head.lost);
    let Some(first) = packet.records().next() else {
        return sum;
    };
    sum = mix(
        mix(mix(sum, first.serial()), first.moment().get()),
        u64::from(first.id()),
    );
    for byte in first.payload() {
        sum = mix(sum, u64::from(*byte));
    }
    sum
}

impl Total {
    /// The total with what a stream counts. The sum before it has the stream's answers, and gets its packets.
    pub fn with(self, stream: &Stream, before: u64) -> Total {
        let mut sum = before;
        if let Some(part) = stream.part(0) {
            for packet in part.packets() {
                sum = mix_packet(sum, &packet);
            }
        }
        let counts = stream.counts();
        Total {
            offered: self.offered.wrapping_add(counts.offered),
            discarded: self.discarded.wrapping_add(counts.discarded),
            overwritten: self.overwritten.wrapping_add(counts.overwritten),
            overwritten_packets: self
                .overwritten_packets
                .wrapping_add(counts.overwritten_packets),
            consumed: self.consumed.wrapping_add(counts.consumed),
            sum: mix(sum, counts.current_bytes),
        }
    }
}

/// The sum with the answers to the offers of these numbers, each with 8 bytes.
#[inline(always)]
fn feed(stream: &mut Stream, numbers: Range<u64>, before: u64) -> Result<u64, OfferFault>
    requires { numbers.end ≤ OFFERS }
{
    let mut sum = before;
    for k in numbers {
        let answer = stream.offer(moment_of(k), 7, &k.to_le_bytes())?;
        sum = mix_answer(sum, answer);
    }
    Ok(sum)
}

/// The sum with the answers to all offers of a round, and to a take after each batch of them.
fn feed_and_take(stream: &mut Stream, before: u64) -> Result<u64, OfferFault> {
    let mut sum = before;
    for turn in 0..OFFERS / OFFERS_A_TAKE {
        let first = turn * OFFERS_A_TAKE;
        sum = feed(stream, first..first + OFFERS_A_TAKE, sum)?;
        sum = take(stream, sum);
    }
    Ok(sum)
}

/// One round: the offers to a new stream.
fn round(alloc: Global, case: &Case, total: Total) -> Result<Total, OffersFault> {
    let mut stream = Stream::new(
        alloc,
        Uuid::nil(),
        0,
        case.geometry,
        case.mode,
        SessionMode::Local,
    )?;
    stream.set_active(true);
    let sum = if case.takes {
        feed_and_take(&mut stream, total.sum)?
    } else {
        feed(&mut stream, 0..OFFERS, total.sum)?
    };
    Ok(total.with(&stream, sum))
}

/// Runs `rounds` rounds.
// Each table counts its own loop: inlined into one function, the loops of all tables would have to share its registers.
#[inline(never)]
pub fn all_rounds(alloc: Global, case: &Case, rounds: u64) -> Result<Total, OffersFault> {
    let mut total = Total::default();
    for _ in 0..rounds {
        total = round(alloc, case, total)?;
    }
    Ok(total)
}
