//! Rotations of a session whose rings are full.

use crate::sums::mix;
use std::alloc::Global;
use std::time::CpuClock;
use tr_packet::PacketView;
use tr_session::{Session, StepFault};
use tr_session_book::SessionFault;
use tr_terms::{Mode, Moment, Name, OffsetMinutes, SessionMode};
use uuid::Uuid;

/// How many streams the session has.
const STREAMS: u64 = 256;

/// The size of a sub-buffer in bytes, and how many a ring has.
const SIZE: u64 = 4_096;

const COUNT: u64 = 64;

/// What a sub-buffer has beside its packet's header, and what a record has beside its payload, in bytes.
const ROOM: u64 = 4_016;

const RECORD_FRONT: u64 = 24;

/// What the archives of all rounds hold.
#[derive(Clone, Copy, Debug)]
pub struct Rotated {
    pub packets: u128,
    pub records: u128,
    pub bytes: u128,
    /// A sum over each packet's head and its first record.
    pub sum: u64,
}

/// Why the rounds stopped.
#[derive(Clone, Copy, Debug)]
pub enum RotateFault {
    /// No clock gives the processor time.
    NoClock,
    /// No offset is 0.
    NoOffset,
    /// The channel's name isn't valid.
    NoName,
    /// The session refused.
    Refused(StepFault),
}

impl From<SessionFault> for RotateFault {
    fn from(fault: SessionFault) -> RotateFault {
        RotateFault::Refused(StepFault::Session(fault))
    }
}

impl From<StepFault> for RotateFault {
    fn from(fault: StepFault) -> RotateFault {
        RotateFault::Refused(fault)
    }
}

pub fn moment(nanoseconds: u64) -> Moment {
    Moment::new(nanoseconds).unwrap_or(Moment::zero())
}

/// How many records with this payload a ring takes.
fn records_of_ring(payload: &[u8]) -> u64 {
    let record = RECORD_FRONT.wrapping_add(payload.len() as u64);
    match ROOM.checked_div(record) {
        Some(records) => records.wrapping_mul(COUNT),
        None => 0,
    }
}

/// Adds the session's streams, and starts it at moment 0.
fn begin(session: &mut Session) -> Result<(), RotateFault> {
    let Some(name) = Name::new("c") else {
        return Err(RotateFault::NoName);
    };
    session.add_channel(&name, SIZE, COUNT, Mode::Discard)?;
    for _ in 0..STREAMS {
        session.add_thread("c")?;
    }
    Ok(session.start(moment(0))?)
}

/// Fills each of its rings with records with this payload.
fn fill(session: &mut Session, payload: &[u8]) -> Result<(), RotateFault> {
    let records = records_of_ring(payload);
    for stream in 0..STREAMS {
        for k in 0..records {
            session.offer(stream, moment(k), 7, payload)?;
        }
    }
    Ok(())
}

/// A session without channels.
pub fn new_session(alloc: Global) -> Result<Session, RotateFault> {
    let Some(offset) = OffsetMinutes::new(0) else {
        return Err(RotateFault::NoOffset);
    };
    Ok(Session::new(alloc, Uuid::from_u128(1), offset, SessionMode::Local))
}

/// A session that was started at moment 0; each of its rings is full of records with this payload.
fn full_session(alloc: Global, payload: &[u8]) -> Result<Session, RotateFault> {
    let mut session = new_session(alloc)?;
    begin(&mut session)?;
    fill(&mut session, payload)?;
    Ok(session)
}

/// The sum with a packet's head and its first record.
fn mix_packet(before: u64, packet: &PacketView<'_>) -> u64 {
    let head = packet.head();
    let mut sum = mix(mix(before, head.stream), head.seq);
    sum = mix(mix(mix(sum, head.begin.get()), head.end.get()), head.lost);
    let Some(first) = packet.records().next() else {
        return sum;
    };
    let byte = first.payload().last().copied().unwrap_or(0);
    sum = mix(mix(sum, first.serial()), first.moment().get());
    mix(mix(sum, u64::from(first.id())), u64::from(byte))
}

/// The counts with those of the first archive.
fn add_archive(session: &Session, total: Rotated) -> Rotated {
    let mut sum = total.sum;
    for i in 0..session.streams() {
        let Some(part) = session.stream(i).and_then(|s| s.part(0)) else {
            break;
        };
        for packet in part.packets() {
            sum = mix_packet(sum, &packet);
        }
    }
    let size = session.archive_size(0);
    Rotated {
        packets: total.packets.wrapping_add(size.packets),
        records: total.records.wrapping_add(size.records),
        bytes: total.bytes.wrapping_add(size.bytes),
        sum,
    }
}

/// The nanoseconds on a processor that a rotation takes.
fn rotate(clock: &impl CpuClock, session: &mut Session) -> Result<u128, RotateFault> {
    let Ok(before) = clock.process_cpu_time() else {
        return Err(RotateFault::NoClock);
    };
    session.rotate(moment(Moment::LAST))?;
    let Ok(after) = clock.process_cpu_time() else {
        return Err(RotateFault::NoClock);
    };
    match after.checked_sub(before) {
        Some(spent) => Ok(spent.as_nanos()),
        None => Err(RotateFault::NoClock),
    }
}

/// Runs `rounds` rounds: a new session is filled and rotated. The last number is the processor time of the quickest rotation,
/// in nanoseconds.
pub fn rotate_rounds(
    clock: &impl CpuClock,
    alloc: Global,
    payload: &[u8],
    rounds: u64,
) -> Result<(Rotated, u128), RotateFault> {
    let mut total = Rotated {
        packets: 0,
        records: 0,
        bytes: 0,
        sum: 0,
    };
    let mut quickest = u128::MAX;
    for _ in 0..rounds {
        let mut session = full_session(alloc, payload)?;
        let spent = rotate(clock, &mut session)?;
        quickest = quickest.min(spent);
        total = add_archive(&session, total);
    }
    Ok((total, quickest))
}

/// Runs `rounds` rounds without the rotation: how many records the rings of all the sessions have.
pub fn fill_rounds(alloc: Global, payload: &[u8], rounds: u64) -> Result<u64, RotateFault> {
    let mut records = 0_u64;
    for _ in 0..rounds {
        let session = full_session(alloc, payload)?;
        for i in 0..session.streams() {
            if let Some(stream) = session.stream(i) {
                records = records.wrapping_add(stream.counts().in_ring);
            }
        }
    }
    Ok(records)
}
