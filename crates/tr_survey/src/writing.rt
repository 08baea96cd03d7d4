//! Writing the lines of a survey.

ghost use Rattle.std.specs.Prelude.{◌≡◌, ℕ, IfOk, OnOk, OnErr};
ghost use Rattle.tr_folders.specs.Tree.{by_text};
ghost use Rattle.tr_record.specs.Bytes.{and_then_bytes};
ghost use Rattle.tr_survey.specs.Failures.{reads_after, writes_after};
ghost use Rattle.tr_survey.specs.Prefix.{IsPrefixOut, IsTold};
ghost use Rattle.tr_survey.specs.Streams.{broken};
ghost use Rattle.tr_survey.specs.Told.{faults_told, text_of_lines, told};

use crate::faults::SurveyFault;
use crate::tally::Tally;
use tr_record::{ByteSink, put_all};

/// Writes a line.
pub(crate) fn put_bytes<K: ByteSink>(sink: &mut K, line: &[u8]) -> Result<(), SurveyFault>
    ensures ok { OnOk result (K.taken sink.new ≡ and_then_bytes (K.taken sink.old) line.now) }
    ensures err { OnErr result (IsPrefixOut line.now (K.taken sink.old) (K.taken sink.new)) }
    ensures writes { K.failures sink.new ≡ writes_after result (K.failures sink.old) }
    ensures reads { (n : ℕ) → reads_after result n ≡ n }
{
    match put_all(sink, line) {
        Ok(()) => Ok(()),
        Err(_) => Err(SurveyFault::Write),
    }
}

/// Writes a line that is text.
pub(crate) fn put_line<K: ByteSink>(sink: &mut K, line: &str) -> Result<(), SurveyFault>
    ensures ok { OnOk result (K.taken sink.new ≡ and_then_bytes (K.taken sink.old) line.now) }
    ensures err { OnErr result (IsPrefixOut line.now (K.taken sink.old) (K.taken sink.new)) }
    ensures writes { K.failures sink.new ≡ writes_after result (K.failures sink.old) }
    ensures reads { (n : ℕ) → reads_after result n ≡ n }
{
    put_bytes(sink, line.as_bytes())
}

/// Writes a line of a stream's fault, and counts it.
pub(crate) fn put_fault<K: ByteSink>(
    sink: &mut K,
    line: &str,
    tally: &mut Tally,
) -> Result<(), SurveyFault>
    ensures ok { OnOk result (IsTold (told line.now (broken tally.old)) (K.taken sink.old) (K.taken sink.new) tally.new) }
    ensures err { OnErr result (IsPrefixOut line.now (K.taken sink.old) (K.taken sink.new)) }
    ensures writes { K.failures sink.new ≡ writes_after result (K.failures sink.old) }
    ensures reads { (n : ℕ) → reads_after result n ≡ n }
{
    put_line(sink, line)?;
    *tally = tally.broken();
    Ok(())
}

/// Writes lines.
fn put_lines<K: ByteSink>(sink: &mut K, lines: &[String]) -> Result<(), SurveyFault>
    ensures ok { OnOk result (K.taken sink.new ≡ and_then_bytes (K.taken sink.old) (text_of_lines (by_text lines.now))) }
    ensures err { OnErr result (IsPrefixOut (text_of_lines (by_text lines.now)) (K.taken sink.old) (K.taken sink.new)) }
    ensures writes { K.failures sink.new ≡ writes_after result (K.failures sink.old) }
    ensures reads { (n : ℕ) → reads_after result n ≡ n }
{
    for line in lines {
        put_line(sink, line.as_str())?;
    }
    Ok(())
}

/// Writes lines, each of a fault, and counts them.
pub(crate) fn put_faults<K: ByteSink>(
    sink: &mut K,
    faults: u64,
    lines: &[String],
) -> Result<u64, SurveyFault>
    ensures ok { IfOk result (λ n. IsTold (faults_told faults (by_text lines.now)) (K.taken sink.old) (K.taken sink.new) n) }
    ensures err { OnErr result (IsPrefixOut (text_of_lines (by_text lines.now)) (K.taken sink.old) (K.taken sink.new)) }
    ensures writes { K.failures sink.new ≡ writes_after result (K.failures sink.old) }
    ensures reads { (n : ℕ) → reads_after result n ≡ n }
{
    put_lines(sink, lines)?;
    Ok(faults.saturating_add(lines.len() as u64))
}
