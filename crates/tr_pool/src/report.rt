//! What reconciling answers.

ghost use Rattle.std.specs.Prelude.{◌≡◌};
ghost use Rattle.tr_pool.specs.Faults.{mismatch_code, mismatch_name};
ghost use Rattle.tr_pool.specs.Reports.{HasRoomFor, with_counts};

use thiserror::Error;
use tr_book::Counts;

/// Where all the records of a settled session are: sums over its streams.
#[derive(Clone, Copy, PartialEq, Eq, Debug)]
pub struct Report {
    /// How many offers were accepted.
    pub offered: u128,
    /// How many of their records were discarded.
    pub discarded: u128,
    /// How many were overwritten.
    pub overwritten: u128,
    /// How many are in rings.
    pub in_ring: u128,
    /// How many are in trace chunks.
    pub in_chunks: u128,
    /// How many were cleared.
    pub cleared: u128,
}

impl Report {
    /// The sums with one more stream.
    pub(crate) fn with(self, counts: &Counts) -> Report
        requires { HasRoomFor self counts.now }
        ensures { result ≡ with_counts self counts.now }
    {
        Report {
            offered: self.offered + u128::from(counts.offered),
            discarded: self.discarded + u128::from(counts.discarded),
            overwritten: self.overwritten + u128::from(counts.overwritten),
            in_ring: self.in_ring + u128::from(counts.in_ring),
            in_chunks: self.in_chunks + u128::from(counts.in_chunks),
            cleared: self.cleared + u128::from(counts.cleared),
        }
    }
}

/// What a log and its stream don't agree on.
#[derive(Clone, Copy, PartialEq, Eq, Debug, Error)]
#[error("{} {}", self.code(), self.name())]
pub enum Mismatch {
    /// A record isn't that of the item at its serial: another id or payload, or a lesser moment.
    WrongRecord {
        /// The number of its stream.
        stream: u64,
        /// Its serial.
        serial: u64,
    },
    /// A stream has no log, or its first log hasn't as many items as the stream has offers.
    LogLength {
        /// The number of the stream.
        stream: u64,
    },
}

impl Mismatch {
    /// The code that documents call it by.
    pub fn code(&self) -> &'static str
        ensures { result.now ≡ mismatch_code self.now }
    {
        match self {
            Mismatch::WrongRecord { .. } => "M1",
            Mismatch::LogLength { .. } => "M2",
        }
    }

    /// Its name.
    pub fn name(&self) -> &'static str
        ensures { result.now ≡ mismatch_name self.now }
    {
        match self {
            Mismatch::WrongRecord { .. } => "WrongRecord",
            Mismatch::LogLength { .. } => "LogLength",
        }
    }
}
