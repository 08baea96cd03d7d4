//! What results say, as C reads it.

ghost use Rattle.std.specs.Prelude.{◌≡◌, ◌-◌, ◌^◌, min, Option, Some};
ghost use Rattle.tr_border.specs.Outs.{about_out, archive_out, cause_out, cleared_out, counts_out, cut_out, fate_in, fate_out, offered_out, part_out, released_out, session_mode_out, shown_out, state_out, sum_out, taken_out};
ghost use Rattle.tr_stream.specs.declared.fate.Fate.{Fate};

use crate::texts::packets_len;
use std::alloc::Global;
use tr_book::{Counts, Part, StreamSnap};
use tr_schedule::Cause;
use tr_session_book::{Archive, SessionBook, State};
use tr_snapshot::{count, oldest_serial};
use tr_stream::{Cleared, CutDone, Fate, Offered, Released, Taken};
use tr_terms::SessionMode;

/// What became of an accepted offer.
#[repr(C)]
#[derive(Drop, Clone, Copy)]
pub struct OfferedOut {
    /// 0: stored; 1: stored over the oldest sub-buffer; 2: discarded.
    pub kind: u32,
    /// How many offers were accepted before it.
    pub serial: u64,
    /// The number of its sub-buffer, or 0.
    pub seq: u64,
    /// The number of the sub-buffer that was overwritten, or 0.
    pub gone_seq: u64,
    /// How many records that had, or 0.
    pub gone_count: u64,
}

/// A packet that a take moved.
#[repr(C)]
#[derive(Drop, Clone, Copy)]
pub struct TakenOut {
    /// The packet's number.
    pub seq: u64,
    /// How many records it has.
    pub count: u64,
    /// The trace chunk that it is in.
    pub chunk: u64,
}

/// What a cut added to the trace chunk that it closed.
#[repr(C)]
#[derive(Drop, Clone, Copy)]
pub struct CutOut {
    /// The chunk's number.
    pub chunk: u64,
    /// How many packets.
    pub packets: u64,
    /// How many records these have.
    pub records: u64,
}

/// What a clear took away.
#[repr(C)]
#[derive(Drop, Clone, Copy)]
pub struct ClearedOut {
    /// How many packets.
    pub packets: u64,
    /// How many records they had.
    pub records: u64,
}

/// What a release gave up.
#[repr(C)]
#[derive(Drop, Clone, Copy)]
pub struct ReleasedOut {
    /// How many packets.
    pub packets: u64,
    /// How many records they had.
    pub records: u64,
    /// How many bytes, or the greatest u64 if they are more.
    pub bytes: u64,
}

/// How many records were offered, and where they are.
#[repr(C)]
#[derive(Drop, Clone, Copy)]
pub struct CountsOut {
    /// How many offers were accepted.
    pub offered: u64,
    /// How many of their records were discarded.
    pub discarded: u64,
    /// How many were overwritten.
    pub overwritten: u64,
    /// How many packets those made up.
    pub overwritten_packets: u64,
    /// How many the ring has.
    pub in_ring: u64,
    /// How many were consumed, cleared ones too.
    pub consumed: u64,
    /// How many the parts have.
    pub in_chunks: u64,
    /// How many were cleared.
    pub cleared: u64,
    /// How many of those had been consumed.
    pub withdrawn: u64,
    /// How many parts are closed.
    pub cuts: u64,
    /// The bytes of the current part.
    pub current_bytes: u64,
}

/// Sums of several streams' counts, each the greatest u64 if it is more.
#[repr(C)]
#[derive(Drop, Clone, Copy)]
pub struct SumOut {
    /// How many offers were accepted.
    pub offered: u64,
    /// How many of their records were discarded.
    pub discarded: u64,
    /// How many were overwritten.
    pub overwritten: u64,
    /// How many were cleared.
    pub cleared: u64,
    /// How many the rings have.
    pub in_ring: u64,
    /// How many the parts have.
    pub in_chunks: u64,
}

/// What became of an offer.
#[repr(C)]
#[derive(Drop, Clone, Copy)]
pub struct FateOut {
    /// 0: not offered yet; 1: in the ring; 2: in a trace chunk; 3: discarded; 4: overwritten; 5: cleared.
    pub kind: u32,
    /// The number of its trace chunk, or 0.
    pub chunk: u64,
    /// The number of its sub-buffer or packet, or 0.
    pub seq: u64,
}

/// What a stream added to a trace chunk, or had added before that was released.
#[repr(C)]
#[derive(Drop, Clone, Copy)]
pub struct PartOut {
    /// How many packets.
    pub packets: u64,
    /// How many records these have.
    pub records: u64,
    /// How many bytes, or the greatest u64 if they are more.
    pub bytes: u64,
    /// Whether it was released.
    pub released: bool,
}

/// An archived trace chunk.
#[repr(C)]
#[derive(Drop, Clone, Copy)]
pub struct ArchiveOut {
    /// Its number.
    pub id: u64,
    /// When it begins, in nanoseconds since 1970.
    pub begin: u64,
    /// When it ends.
    pub end: u64,
}

/// What a book says of its session.
#[repr(C)]
#[derive(Drop, Clone, Copy)]
pub struct AboutOut {
    /// 0: local; 1: a snapshot session.
    pub mode: u32,
    /// 0: never started; 1: active; 2: stopped.
    pub state: u32,
    /// How many channels there are.
    pub channels: u64,
    /// How many streams.
    pub streams: u64,
    /// How many archives.
    pub archives: u64,
    /// When the current chunk began, in nanoseconds since 1970; 0 before the first start.
    pub begin: u64,
    /// The last stored moment; 0 before the first start.
    pub last: u64,
    /// Whether a rotation is pending.
    pub pending: bool,
}

/// What is shown of a stream.
#[repr(C)]
#[derive(Drop, Clone, Copy)]
pub struct ShownOut {
    /// The stream's number.
    pub stream: u64,
    /// How many offers it had accepted.
    pub offered: u64,
    /// How many of their records it had discarded.
    pub lost: u64,
    /// How many records are shown.
    pub records: u64,
    /// The bytes of their packets.
    pub bytes: u64,
    /// Whether a record is shown.
    pub any: bool,
    /// The serial of the first one, or 0.
    pub oldest: u64,
}

/// The greatest u64, if the number is more.
fn bounded(n: u128) -> u64
    ensures { result ≡ min n (2 ^ 64 - 1) }
{
    n.min(u128::from(u64::MAX)) as u64
}

/// The numbers of an accepted offer.
pub fn offered_out(offered: Offered) -> OfferedOut
    ensures { result ≡ offered_out offered }
{
    match offered {
        Offered::Stored { serial, seq } => OfferedOut {
            kind: 0,
            serial,
            seq,
            gone_seq: 0,
            gone_count: 0,
        },
        Offered::StoredOver {
            serial,
            seq,
            gone_seq,
            gone_count,
        } => OfferedOut {
            kind: 1,
            serial,
            seq,
            gone_seq,
            gone_count,
        },
        Offered::Discarded { serial } => OfferedOut {
            kind: 2,
            serial,
            seq: 0,
            gone_seq: 0,
            gone_count: 0,
        },
    }
}

/// The numbers of a taken packet.
pub fn taken_out(taken: Taken) -> TakenOut
    ensures { result ≡ taken_out taken }
{
    TakenOut {
        seq: taken.seq,
        count: taken.count,
        chunk: taken.chunk,
    }
}

/// The numbers of a cut.
pub fn cut_out(done: CutDone) -> CutOut
    ensures { result ≡ cut_out done }
{
    CutOut {
        chunk: done.chunk,
        packets: done.packets,
        records: done.records,
    }
}

/// The numbers of a clear.
pub fn cleared_out(cleared: Cleared) -> ClearedOut
    ensures { result ≡ cleared_out cleared }
{
    ClearedOut {
        packets: cleared.packets,
        records: cleared.records,
    }
}

/// The numbers of a release.
pub fn released_out(released: Released) -> ReleasedOut
    ensures { result ≡ released_out released }
{
    ReleasedOut {
        packets: released.packets,
        records: released.records,
        bytes: bounded(released.bytes),
    }
}

/// The counts, one by one.
pub fn counts_out(counts: Counts) -> CountsOut
    ensures { result ≡ counts_out counts }
{
    CountsOut {
        offered: counts.offered,
        discarded: counts.discarded,
        overwritten: counts.overwritten,
        overwritten_packets: counts.overwritten_packets,
        in_ring: counts.in_ring,
        consumed: counts.consumed,
        in_chunks: counts.in_chunks,
        cleared: counts.cleared,
        withdrawn: counts.withdrawn,
        cuts: counts.cuts,
        current_bytes: counts.current_bytes,
    }
}

/// The counts that these are.
pub fn counts_in(out: CountsOut) -> Counts
    ensures { counts_out result ≡ out }
{
    Counts {
        offered: out.offered,
        discarded: out.discarded,
        overwritten: out.overwritten,
        overwritten_packets: out.overwritten_packets,
        in_ring: out.in_ring,
        consumed: out.consumed,
        in_chunks: out.in_chunks,
        cleared: out.cleared,
        withdrawn: out.withdrawn,
        cuts: out.cuts,
        current_bytes: out.current_bytes,
    }
}

/// Sums with one stream's counts more.
pub fn sum_out(sum: SumOut, counts: Counts) -> SumOut
    ensures { result ≡ sum_out sum counts }
{
    SumOut {
        offered: sum.offered.saturating_add(counts.offered),
        discarded: sum.discarded.saturating_add(counts.discarded),
        overwritten: sum.overwritten.saturating_add(counts.overwritten),
        cleared: sum.cleared.saturating_add(counts.cleared),
        in_ring: sum.in_ring.saturating_add(counts.in_ring),
        in_chunks: sum.in_chunks.saturating_add(counts.in_chunks),
    }
}

/// The numbers of a fate.
pub fn fate_out(fate: Option<Fate>) -> FateOut
    ensures { result ≡ fate_out fate }
{
    let (kind, chunk, seq) = match fate {
        None => (0, 0, 0),
        Some(Fate::InRing { seq }) => (1, 0, seq),
        Some(Fate::InChunk { chunk, seq }) => (2, chunk, seq),
        Some(Fate::Discarded) => (3, 0, 0),
        Some(Fate::Overwritten) => (4, 0, 0),
        Some(Fate::Cleared { seq }) => (5, 0, seq),
        Some(Fate::Forgotten) => (6, 0, 0),
    };
    FateOut { kind, chunk, seq }
}

/// The fate that has these numbers, if one has.
pub fn fate_in(fate: FateOut) -> Option<Option<Fate>>
    ensures value { result ≡ fate_in fate }
    ensures told { (f : Option Fate) → fate_out f ≡ fate → result ≡ Some f }
{
    let FateOut { kind, chunk, seq } = fate;
    match kind {
        0 => Some(None),
        1 => Some(Some(Fate::InRing { seq })),
        2 => Some(Some(Fate::InChunk { chunk, seq })),
        3 => Some(Some(Fate::Discarded)),
        4 => Some(Some(Fate::Overwritten)),
        5 => Some(Some(Fate::Cleared { seq })),
        6 => Some(Some(Fate::Forgotten)),
        _ => None,
    }
}

/// The numbers of a part.
pub fn part_out(part: &Part<Global>) -> PartOut
    ensures { result ≡ part_out part.now }
{
    PartOut {
        packets: part.packet_count(),
        records: part.records(),
        bytes: bounded(part.bytes()),
        released: part.is_released(),
    }
}

/// The numbers of an archive.
pub fn archive_out(archive: Archive) -> ArchiveOut
    ensures { result ≡ archive_out archive }
{
    ArchiveOut {
        id: archive.id,
        begin: archive.begin.get(),
        end: archive.end.get(),
    }
}

/// What a book says of its session.
pub fn about_out(book: &SessionBook<Global>) -> AboutOut
    ensures { result ≡ about_out book.now }
{
    AboutOut {
        mode: session_mode_out(book.mode()),
        state: state_out(book.state()),
        channels: book.channels() as u64,
        streams: book.streams() as u64,
        archives: book.archives().len() as u64,
        begin: book.begin().get(),
        last: book.last().get(),
        pending: book.pending().is_some(),
    }
}

fn session_mode_out(mode: SessionMode) -> u32
    ensures { result ≡ session_mode_out mode }
{
    match mode {
        SessionMode::Local => 0,
        SessionMode::Snapshot => 1,
    }
}

fn state_out(state: State) -> u32
    ensures { result ≡ state_out state }
{
    match state {
        State::New => 0,
        State::Active => 1,
        State::Inactive => 2,
    }
}

/// The number of why a rotation is due.
pub fn cause_out(cause: Option<Cause>) -> u32
    ensures { result ≡ cause_out cause }
{
    match cause {
        None => 0,
        Some(Cause::Timer) => 1,
        Some(Cause::Size) => 2,
    }
}

/// The numbers of what is shown of a stream.
pub fn shown_out(snap: &StreamSnap<Global>) -> ShownOut
    ensures { result ≡ shown_out snap.now }
{
    let oldest = oldest_serial(snap);
    ShownOut {
        stream: snap.stream(),
        offered: snap.offered(),
        lost: snap.lost(),
        records: count(snap),
        bytes: packets_len(snap.texts()),
        any: oldest.is_some(),
        oldest: oldest.unwrap_or(0),
    }
}
