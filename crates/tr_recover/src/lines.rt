//! What is said of the packets of an archive.

ghost use Rattle.std.specs.Prelude.{◌≡◌, ◌++◌, IfOk, OnOk};
ghost use Rattle.std.specs.String.{string_bytes};
ghost use Rattle.tr_recover.specs.Lines.{counted, counts_line, gap_line, lines_after, no_counts, recovered_text, stream_lines};

use crate::parting::lead_count;
use std::alloc::{AllocError, Allocator};
use tr_packet::PacketText;

/// What was counted of the packets of a stream so far.
#[derive(Clone, Copy)]
struct Counts {
    packets: u64,
    records: u64,
    /// How many numbers are absent before one of them.
    absent: u64,
    /// How many records were discarded before the last one ended.
    lost: u64,
    /// The number that comes next.
    next: u64,
}

impl Counts {
    /// Before the first packet.
    fn new() -> Counts
        ensures { result ≡ no_counts }
    {
        Counts {
            packets: 0,
            records: 0,
            absent: 0,
            lost: 0,
            next: 0,
        }
    }

    /// With one packet more.
    fn and<A: Allocator>(&self, packet: &PacketText<A>) -> Counts
        ensures { result ≡ counted self.now packet.now }
    {
        let head = packet.head();
        let absent = head.seq.saturating_sub(self.next);
        Counts {
            packets: self.packets.saturating_add(1),
            records: self.records.saturating_add(packet.count() as u64),
            absent: self.absent.saturating_add(absent),
            lost: head.lost,
            next: head.seq.saturating_add(1),
        }
    }
}

/// The line of the numbers that are absent before a packet; empty if none are.
fn gap_line<A: Allocator, B: Allocator + Copy>(
    alloc: B,
    stream: u64,
    counts: &Counts,
    packet: &PacketText<A>,
) -> Result<String<B>, AllocError>
    ensures { IfOk result (λ s. string_bytes s ≡ gap_line stream counts.now packet.now) }
{
    let (first, seq) = (counts.next, packet.head().seq);
    if first >= seq {
        return Ok(String::new(alloc));
    }
    let count = seq - first;
    format!(in alloc; "gap {stream} {first} {count}\n")
}

/// The line of a stream's counts.
fn counts_line<B: Allocator + Copy>(
    alloc: B,
    stream: u64,
    counts: &Counts,
) -> Result<String<B>, AllocError>
    ensures { IfOk result (λ s. string_bytes s ≡ counts_line stream counts.now) }
{
    let (packets, records) = (counts.packets, counts.records);
    let (absent, lost) = (counts.absent, counts.lost);
    format!(in alloc;
        "stream {stream} packets {packets} records {records} absent {absent} lost {lost}\n"
    )
}

/// Appends the lines of a stream's packets.
fn push_stream<A: Allocator, B: Allocator + Copy>(
    alloc: B,
    text: &mut String<B>,
    packets: &[PacketText<A>],
) -> Result<(), AllocError>
    ensures { OnOk result (string_bytes text.new ≡ string_bytes text.old ++ stream_lines packets.now) }
{
    let [first, ..] = packets else {
        return Ok(());
    };
    let stream = first.head().stream;
    let mut counts = Counts::new();
    'packets: for packet in packets {
        let line = gap_line(alloc, stream, &counts, packet)?;
        text.push_str(line.as_str())?;
        counts = counts.and(packet);
    }
    let line = counts_line(alloc, stream, &counts)?;
    text.push_str(line.as_str())?;
    Ok(())
}

/// What is said of packets, those of a stream side by side: the numbers that are absent, and then its counts.
pub(crate) fn recovered_text<A: Allocator, B: Allocator + Copy>(
    alloc: B,
    packets: &[PacketText<A>],
) -> Result<String<B>, AllocError>
    ensures { IfOk result (λ s. string_bytes s ≡ recovered_text packets.now) }
{
    let mut text = String::new(alloc);
    let mut at = 0;
    while at < packets.len() {
        let (_, rest) = packets.split_at(at);
        let (own, _) = rest.split_at(lead_count(rest));
        push_stream(alloc, &mut text, own)?;
        at += own.len();
    }
    Ok(text)
}
