//! What an audit finds.

ghost use Rattle.std.specs.Prelude.{◌≡◌, ◌≢◌, ◌++◌, [], OnOk, OnErr};
ghost use Rattle.tr_chunk.specs.Audit.{audit_of, after_packet, gap_before};

use std::alloc::{AllocError, Allocator, Global};
use std::marker::Model;
use tr_packet::PacketView;

/// Runs of absent numbers, each as its first number and its length. Contracts see the list.
#[derive(Drop)]
pub struct Gaps<A: Allocator = Global> {
    runs: Vec<(u64, u64), A>,
}

impl<A: Allocator> Model for Gaps<A> {
    ghost use Rattle.std.specs.Prelude.{ℕ, List};

    ghost Value = { List (ℕ × ℕ) };

    ghost view = { λ g. g.runs.items };
}

impl<A: Allocator> From<Vec<(u64, u64), A>> for Gaps<A> {
    ghost use Rattle.std.specs.Prelude.{◌≡◌};

    ghost from_gives = { λ runs gaps. gaps ≡ runs.items };

    fn from(runs: Vec<(u64, u64), A>) -> Gaps<A> {
        Gaps { runs }
    }
}

impl<A: Allocator> From<Gaps<A>> for Vec<(u64, u64), A> {
    ghost use Rattle.std.specs.Prelude.{◌≡◌};

    ghost from_gives = { λ gaps runs. runs.items ≡ gaps };

    fn from(gaps: Gaps<A>) -> Vec<(u64, u64), A> {
        let Gaps { runs } = gaps;
        runs
    }
}

impl<A: Allocator> Gaps<A> {
    /// The runs, each as its first number and its length.
    pub fn as_slice(&self) -> &[(u64, u64)]
        ensures { result.now ≡ self.now }
    {
        self.runs.as_slice()
    }

    /// Adds the numbers that are absent between two numbers, or below the first one. It takes memory if there are some.
    fn add(&mut self, before: Option<u64>, number: u64) -> Result<(), AllocError>
        ensures ok { OnOk result (self.new ≡ self.old ++ gap_before before number) }
        ensures err { OnErr result (self.new ≡ self.old) }
        ensures some { OnErr result (gap_before before number ≢ []) }
    {
        let first = match before {
            None => 0,
            Some(u64::MAX) => return Ok(()),
            Some(before) => before + 1,
        };
        if first < number {
            self.runs.push((first, number - first))?;
        }
        Ok(())
    }
}

/// What an audit finds in the packets of a stream.
#[derive(Drop)]
pub struct StreamAudit<A: Allocator = Global> {
    /// How many packets there are; the count stops at the greatest u64.
    pub packets: u64,
    /// How many records they have; the count stops at the greatest u64.
    pub records: u64,
    /// The numbers below the last one that no packet has.
    pub gaps: Gaps<A>,
    /// The last packet's number.
    pub last_seq: Option<u64>,
    /// The last record's serial.
    pub last_serial: Option<u64>,
    /// How many records the stream had discarded by the last packet; 0 without packets.
    pub last_lost: u64,
}

impl<A: Allocator> StreamAudit<A> {
    /// The audit of no packet. It takes no memory.
    pub(crate) fn new(alloc: A) -> StreamAudit<A>
        ensures { result ≡ audit_of [] }
    {
        StreamAudit {
            packets: 0,
            records: 0,
            gaps: Gaps::from(Vec::new(alloc)),
            last_seq: None,
            last_serial: None,
            last_lost: 0,
        }
    }

    /// Adds a packet. If an allocation fails, nothing is added.
    pub(crate) fn add(&mut self, packet: &PacketView<'_>) -> Result<(), AllocError>
        ensures ok { OnOk result (self.new ≡ after_packet self.old packet.now) }
        ensures err { OnErr result (self.new ≡ self.old) }
        ensures some { OnErr result (gap_before self.old.last_seq packet.now.head.seq ≢ []) }
    {
        let head = packet.head();
        self.gaps.add(self.last_seq, head.seq)?;
        self.packets = self.packets.saturating_add(1);
        self.records = self.records.saturating_add(packet.count() as u64);
        self.last_seq = Some(head.seq);
        self.last_serial = Some(packet.last_serial());
        self.last_lost = head.lost;
        Ok(())
    }
}
