//! What was logged beside what a settled session holds.

ghost use Rattle.std.specs.Prelude.{◌≡◌, IfOk, IfErr, OnOk, length, option_copied};
ghost use Rattle.tr_pool.specs.Logs.{AgreeBelow, Agrees, IsFirstWrong, IsWrong, log_of, report_of, stream_of_mismatch};

use crate::judging::least_wrong;
use crate::log::Log;
use crate::report::{Mismatch, Report};
use tr_shared::Settled;
use tr_stream::Stream;

/// The first log of the stream of number `i`.
fn find_log(logs: &[Log], i: u64) -> Option<&Log>
    ensures { option_copied result ≡ log_of logs.now i }
{
    logs.iter().find(|log| log.stream == i)
}

/// Judges the stream of number `i` by its first log.
fn reconcile_stream(logs: &[Log], i: u64, stream: &Stream) -> Result<(), Mismatch>
    requires { stream.now.parts.forgotten ≡ 0 }
    ensures ok { OnOk result (Agrees logs.now i stream.now) }
    ensures wrong { IfErr result (λ m. (stream_of_mismatch m ≡ i) × IsWrong logs.now stream.now m) }
{
    let Some(log) = find_log(logs, i) else {
        return Err(Mismatch::LogLength { stream: i });
    };
    let items = log.items.as_slice();
    if items.len() as u64 != stream.counts().offered {
        return Err(Mismatch::LogLength { stream: i });
    }
    match least_wrong(items, stream) {
        None => Ok(()),
        Some(serial) => Err(Mismatch::WrongRecord { stream: i, serial }),
    }
}

/// Whether what was logged and what the settled session holds agree: each stream's first log has an item for each of its
/// offers, and each record in its parts and its ring has the id and the payload of the item at its serial, and no lesser
/// moment. It takes no memory.
///
/// # Errors
///
/// What is wrong with the first stream that doesn't agree: `LogLength`, or else `WrongRecord` with the least serial that is
/// wrong.
pub fn reconcile(settled: &Settled, logs: &[Log]) -> Result<Report, Mismatch>
    ensures agree { OnOk result (AgreeBelow logs.now settled.now.streams (length settled.now.streams)) }
    ensures report { IfOk result (λ report. report ≡ report_of settled.now.streams) }
    ensures wrong { IfErr result (IsFirstWrong logs.now settled.now.streams) }
{
    let session = settled.session();
    let mut report = Report {
        offered: 0,
        discarded: 0,
        overwritten: 0,
        in_ring: 0,
        in_chunks: 0,
        cleared: 0,
    };
    'streams: for i in 0..session.streams() {
        let Some(stream) = session.stream(i) else {
            unreachable!()
        };
        reconcile_stream(logs, i, stream)?;
        report = report.with(&stream.counts());
    }
    Ok(report)
}
