//! The picture of a folder.

ghost use Rattle.std.specs.Prelude.{◌≡◌, ℕ, Some, false, IfOk, OnOk, OnErr, map};
ghost use Rattle.tr_folders.specs.Tree.{Tree};
ghost use Rattle.tr_picture.specs.Picture.{drawn, frame_by, picture_of};
ghost use Rattle.tr_picture.specs.Sessions.{seen};
ghost use Rattle.tr_record.specs.Bytes.{and_then_bytes};
ghost use Rattle.tr_survey.specs.Failures.{reads_after, writes_after};
ghost use Rattle.tr_survey.specs.Prefix.{IsPrefixOut, IsTold};
ghost use Rattle.tr_survey.specs.Sessions.{survey_of};

use crate::drawing::{drawing, rows_in};
use crate::frame::Frame;
use crate::nowhere::Nowhere;
use crate::sessions::{Line, extent_of, lines_of, marks_of};
use std::alloc::Global;
use tr_folders::Folders;
use tr_record::{ByteSink, put_all};
use tr_survey::{SurveyFault, Surveyed, survey};

/// Writes a text.
fn put_text<K: ByteSink>(sink: &mut K, text: &[u8]) -> Result<(), SurveyFault>
    ensures ok { OnOk result (K.taken sink.new ≡ and_then_bytes (K.taken sink.old) text.now) }
    ensures err { OnErr result (IsPrefixOut text.now (K.taken sink.old) (K.taken sink.new)) }
    ensures writes { K.failures sink.new ≡ writes_after result (K.failures sink.old) }
    ensures reads { (n : ℕ) → reads_after result n ≡ n }
{
    match put_all(sink, text) {
        Ok(()) => Ok(()),
        Err(_) => Err(SurveyFault::Write),
    }
}

/// What a survey of a folder says: whether there is a session, and how many faults are reported.
fn surveyed<F: Folders>(alloc: Global, folders: &mut F, dir: &str) -> Result<Surveyed, SurveyFault>
    ensures said { IfOk result (λ said. (t : Tree) → F.tree folders.old ≡ Some t → said ≡ (survey_of false t dir.now).state) }
    ensures tree { F.tree folders.new ≡ F.tree folders.old }
    ensures failures { F.failures folders.new ≡ reads_after result (F.failures folders.old) }
    ensures writes { (n : ℕ) → writes_after result n ≡ n }
{
    let mut nowhere = Nowhere;
    survey(alloc, folders, &mut nowhere, dir, false)
}

/// The frame of rows, by what they are in one column.
fn frame_by(lines: &[Line]) -> Frame
    ensures { result ≡ frame_by (map seen lines.now) }
{
    let extent = extent_of(lines);
    Frame::of(&extent, marks_of(lines), rows_in(lines))
}

/// The text of the picture of a folder, with so many faults.
fn drawn<F: Folders>(
    alloc: Global,
    folders: &mut F,
    dir: &str,
    faults: u64,
) -> Result<Vec<u8>, SurveyFault>
    ensures text { IfOk result (λ text. (t : Tree) → F.tree folders.old ≡ Some t → text.items ≡ drawn t dir.now faults) }
    ensures tree { F.tree folders.new ≡ F.tree folders.old }
    ensures failures { F.failures folders.new ≡ reads_after result (F.failures folders.old) }
    ensures writes { (n : ℕ) → writes_after result n ≡ n }
{
    let rough = Frame::rough();
    let first = lines_of(alloc, folders, &rough, dir)?;
    let frame = frame_by(&first);
    let lines = lines_of(alloc, folders, &frame, dir)?;
    let text = drawing(alloc, &frame, faults, &lines)?;
    Ok(text)
}

/// Writes a picture of what is below a folder, as the crate's front page says, and answers what the survey of it answers. If the
/// folder can't be read, or has no session, nothing goes out. It reads all files three times. What it holds grows with the number
/// of streams, up to some 12,000 bars, and not with the files: a piece of one, and the packet that it reads.
///
/// # Errors
///
/// `TooMuch` once 2^62 bytes of files were read, `Write` if the text can't be written, `NoMemory` if an allocation fails. A front
/// of the text went out, and nothing else.
pub fn picture<F: Folders, K: ByteSink>(
    alloc: Global,
    folders: &mut F,
    sink: &mut K,
    dir: &str,
) -> Result<Surveyed, SurveyFault>
    ensures ok { IfOk result (λ said. (t : Tree) → F.tree folders.old ≡ Some t
        → IsTold (picture_of t dir.now) (K.taken sink.old) (K.taken sink.new) said) }
    ensures err { OnErr result ((t : Tree) → F.tree folders.old ≡ Some t
        → IsPrefixOut (picture_of t dir.now).text (K.taken sink.old) (K.taken sink.new)) }
    ensures tree { F.tree folders.new ≡ F.tree folders.old }
    ensures reads { F.failures folders.new ≡ reads_after result (F.failures folders.old) }
    ensures writes { K.failures sink.new ≡ writes_after result (K.failures sink.old) }
{
    let said = surveyed(alloc, folders, dir)?;
    match said {
        Surveyed::Unlisted => Ok(said),
        Surveyed::NoSession => Ok(said),
        Surveyed::Faults(faults) => {
            let text = drawn(alloc, folders, dir, faults)?;
            put_text(sink, &text)?;
            Ok(said)
        }
    }
}
