//! What the files of each archive add to the counts of their streams.

ghost use Rattle.std.specs.Prelude.{◌≡◌, ℕ, OnOk, OnErr, length, map};
ghost use Rattle.tr_record.specs.Bytes.{and_then_bytes};
ghost use Rattle.tr_survey.specs.Failures.{reads_after, writes_after};
ghost use Rattle.tr_survey.specs.Listing.{key_of};
ghost use Rattle.tr_survey.specs.Prefix.{IsPrefixOut};
ghost use Rattle.tr_survey.specs.Sums.{and_rise, lines_asked, no_sums, sums_lines, with_rises};

use crate::faults::SurveyFault;
use crate::lines::sums_line;
use crate::names::Numbered;
use crate::tally::{Tally, lost_by};
use crate::writing::put_line;
use std::alloc::Global;
use tr_record::ByteSink;

/// What the files of an archive add to the counts of their streams, each up to the greatest u64.
#[derive(Clone, Copy, Debug, PartialEq, Eq)]
pub(crate) struct Sums {
    pub(crate) packets: u64,
    pub(crate) records: u64,
    pub(crate) bytes: u64,
    pub(crate) absent: u64,
    pub(crate) lost: u64,
}

/// A sum, and how far a count rose.
fn and_rise(sum: u64, before: u64, after: u64) -> u64
    ensures { result ≡ and_rise sum before after }
{
    sum.saturating_add(after.saturating_sub(before))
}

impl Sums {
    /// Before the first file.
    pub(crate) fn new() -> Sums
        ensures { result ≡ no_sums }
    {
        Sums {
            packets: 0,
            records: 0,
            bytes: 0,
            absent: 0,
            lost: 0,
        }
    }

    /// With what was added to a stream's counts.
    pub(crate) fn with_rises(&self, before: &Tally, after: &Tally) -> Sums
        ensures { result ≡ with_rises self.now before.now after.now }
    {
        Sums {
            packets: and_rise(self.packets, before.packets, after.packets),
            records: and_rise(self.records, before.records, after.records),
            bytes: and_rise(self.bytes, before.bytes, after.bytes),
            absent: and_rise(self.absent, before.absent, after.absent),
            lost: and_rise(self.lost, lost_by(before.last), lost_by(after.last)),
        }
    }
}

/// Writes a line for each archive.
fn put_sums<K: ByteSink>(
    alloc: Global,
    sink: &mut K,
    archives: &[Numbered],
    sums: &[Sums],
) -> Result<(), SurveyFault>
    requires { length sums.now ≡ length archives.now }
    ensures ok { OnOk result (K.taken sink.new ≡ and_then_bytes (K.taken sink.old) (sums_lines (map key_of archives.now) sums.now)) }
    ensures err { OnErr result (IsPrefixOut (sums_lines (map key_of archives.now) sums.now) (K.taken sink.old) (K.taken sink.new)) }
    ensures writes { K.failures sink.new ≡ writes_after result (K.failures sink.old) }
    ensures reads { (n : ℕ) → reads_after result n ≡ n }
{
    for at in 0..archives.len() {
        let line = sums_line(alloc, &archives[at], &sums[at])?;
        put_line(sink, line.as_str())?;
    }
    Ok(())
}

/// Writes a line for each archive, if that is asked for.
pub(crate) fn put_sums_asked<K: ByteSink>(
    alloc: Global,
    sink: &mut K,
    archives: &[Numbered],
    sums: &[Sums],
    asked: bool,
) -> Result<(), SurveyFault>
    requires { length sums.now ≡ length archives.now }
    ensures ok { OnOk result (K.taken sink.new ≡ and_then_bytes (K.taken sink.old) (lines_asked asked (map key_of archives.now) sums.now)) }
    ensures err { OnErr result (IsPrefixOut (lines_asked asked (map key_of archives.now) sums.now) (K.taken sink.old) (K.taken sink.new)) }
    ensures writes { K.failures sink.new ≡ writes_after result (K.failures sink.old) }
    ensures reads { (n : ℕ) → reads_after result n ≡ n }
{
    if !asked {
        return Ok(());
    }
    put_sums(alloc, sink, archives, sums)
}
