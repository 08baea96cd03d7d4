//! Runs: what is kept of packets whose records are gone.

ghost use Rattle.std.specs.Prelude.{◌≡◌, ◌≢◌, [], ◌++◌, IfOk, OnOk, OnErr, length, true};
ghost use Rattle.tr_record.specs.Records.{has_serial};
ghost use Rattle.tr_book.specs.Runs.{AreInRow, GapsShow, RunsRise, is_in_run, runs_of, seq_in_runs, packet_runs};

use std::alloc::{AllocError, Allocator, Global};
use std::marker::Model;
use tr_packet::Packets;
use tr_record::Records;

/// Serials that follow each other, of records of one packet.
#[derive(Clone, Copy, Debug, PartialEq, Eq)]
pub struct Run {
    /// The number of the packet.
    pub seq: u64,
    /// The first of the serials.
    pub first: u64,
    /// How many there are.
    pub count: u64,
}

impl Run {
    /// Whether one of its records has this serial.
    pub fn has(&self, serial: u64) -> bool
        ensures { result ≡ is_in_run serial self.now }
    {
        self.first <= serial && serial - self.first < self.count
    }
}

/// Whether one of `count` records has this serial, with a look at the first alone if their serials are known to follow each other.
pub fn has_known(serial: u64, count: usize, mut records: Records<'_>, in_row: bool) -> bool
    requires count { count ≡ length records }
    requires row { in_row ≡ true → AreInRow records }
    ensures { result ≡ has_serial serial records.entry }
{
    if !in_row {
        return records.has(serial);
    }
    match records.next() {
        Some(first) => {
            let first = first.serial();
            first <= serial && serial - first < count as u64
        }
        None => false,
    }
}

/// The runs of packets, in order. Contracts see their list.
#[derive(Drop)]
pub struct Runs<A: Allocator = Global> {
    list: Vec<Run, A>,
}

impl<A: Allocator> Model for Runs<A> {
    ghost use Rattle.std.specs.Prelude.{List};
    ghost use Rattle.tr_book.specs.declared.runs.Run.{Run};

    ghost Value = { List Run };

    ghost view = { λ r. r.list.items };
}

impl<A: Allocator> Runs<A> {
    /// No runs. It takes no memory.
    pub fn new(alloc: A) -> Runs<A>
    where
        A: Copy,
        ensures { result ≡ [] }
    {
        Runs {
            list: Vec::new(alloc),
        }
    }

    /// The runs of packets, with just the room for them if there is memory for a move. It takes memory only if there are
    /// packets.
    pub fn of_packets(alloc: A, packets: Packets<'_, A>) -> Result<Runs<A>, AllocError>
    where
        A: Copy,
        ensures value { IfOk result (λ runs. runs ≡ packet_runs packets.entry) }
        ensures memory { OnErr result (packets.entry ≢ []) }
    {
        let mut runs = Runs::new(alloc);
        if packets.len() > 0 {
            runs.push_packets(packets)?;
            runs.list.shrink_to_fit();
        }
        Ok(runs)
    }

    /// The same for packets of one stream in order. It looks at each record only where `lost` has grown.
    pub fn of_packets_by_lost(alloc: A, packets: Packets<'_, A>) -> Result<Runs<A>, AllocError>
    where
        A: Copy,
        requires { GapsShow 0 packets }
        ensures value { IfOk result (λ runs. runs ≡ packet_runs packets.entry) }
        ensures memory { OnErr result (packets.entry ≢ []) }
    {
        let mut kept = Runs::new(alloc);
        if packets.len() > 0 {
            kept.push_by_lost(packets)?;
            kept.list.shrink_to_fit();
        }
        Ok(kept)
    }

    /// The runs, in order.
    pub fn as_slice(&self) -> &[Run]
        ensures { result.now ≡ self.now }
    {
        self.list.as_slice()
    }

    /// The number of the packet that had the record of this serial. It looks at each run until then.
    pub fn seq_of(&self, serial: u64) -> Option<u64>
        ensures { result ≡ seq_in_runs serial self.now }
    {
        self.list
            .iter()
            .find(|run| run.has(serial))
            .map(|run| run.seq)
    }

    /// The same for runs that rise: it looks at few of them.
    pub fn search(&self, serial: u64) -> Option<u64>
        ensures { RunsRise 0 self.now → result ≡ seq_in_runs serial self.now }
    {
        let after = self.list.partition_point(|run| run.first <= serial);
        if after == 0 {
            return None;
        }
        let run = self.list[after - 1];
        if run.has(serial) { Some(run.seq) } else { None }
    }

    /// Adds the runs of the `count` records of a packet with this number at the end.
    pub fn push_records(
        &mut self,
        seq: u64,
        count: usize,
        mut records: Records<'_>,
    ) -> Result<(), AllocError>
        requires { count ≡ length records }
        ensures { OnOk result (self.new ≡ self.old ++ runs_of seq records.entry) }
    {
        let Some(first) = records.next() else {
            return Ok(());
        };
        let mut open = Run {
            seq,
            first: first.serial(),
            count: 1,
        };
        for record in records {
            let serial = record.serial();
            if serial >= open.first && serial - open.first == open.count {
                open.count += 1;
            } else {
                self.list.push(open)?;
                open = Run {
                    seq,
                    first: serial,
                    count: 1,
                };
            }
        }
        self.list.push(open)?;
        Ok(())
    }

    /// The same, with a look at the first record alone if their serials are known to follow each other.
    pub fn push_known(
        &mut self,
        seq: u64,
        count: usize,
        mut records: Records<'_>,
        in_row: bool,
    ) -> Result<(), AllocError>
        requires count { count ≡ length records }
        requires row { in_row ≡ true → AreInRow records }
        ensures { OnOk result (self.new ≡ self.old ++ runs_of seq records.entry) }
    {
        if !in_row {
            return self.push_records(seq, count, records);
        }
        let Some(first) = records.next() else {
            return Ok(());
        };
        self.list.push(Run {
            seq,
            first: first.serial(),
            count: count as u64,
        })?;
        Ok(())
    }

    /// Adds the runs of packets at the end, in order.
    pub fn push_packets(&mut self, packets: Packets<'_, A>) -> Result<(), AllocError>
        ensures { OnOk result (self.new ≡ self.old ++ packet_runs packets.entry) }
    {
        for packet in packets {
            self.push_records(packet.head().seq, packet.count(), packet.records())?;
        }
        Ok(())
    }

    /// The same for packets of one stream in order. It looks at each record only where `lost` has grown.
    pub fn push_by_lost(&mut self, packets: Packets<'_, A>) -> Result<(), AllocError>
        requires { GapsShow 0 packets }
        ensures { OnOk result (self.new ≡ self.old ++ packet_runs packets.entry) }
    {
        let mut lost = 0;
        for packet in packets {
            let head = packet.head();
            let in_row = head.lost == lost;
            self.push_known(head.seq, packet.count(), packet.records(), in_row)?;
            lost = head.lost;
        }
        Ok(())
    }

    /// Moves these runs after the others. If an allocation fails, all is as it was.
    pub fn append(&mut self, mut more: Runs<A>) -> Result<(), AllocError>
        ensures ok { OnOk result (self.new ≡ self.old ++ more) }
        ensures err { OnErr result (self.new ≡ self.old) }
    {
        self.list.append(&mut more.list)
    }
}
