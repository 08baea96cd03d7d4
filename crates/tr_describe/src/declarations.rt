//! Reading a file of declarations.

ghost use Rattle.std.specs.Prelude.{◌≡◌, ℕ, Some, IfOk, length};
ghost use Rattle.tr_describe.specs.Files.{as_read, declaring, looked_at};
ghost use Rattle.tr_events.specs.Lines.{declared};
ghost use Rattle.tr_folders.specs.Tree.{File, Tree};
ghost use Rattle.tr_survey.specs.Failures.{reads_after, writes_after};

use std::alloc::{AllocError, Global};
use tr_events::{Events, LONGEST_DECLARATIONS, LineFault, ParseFault};
use tr_folders::{Folders, ReadFault, buffer_of, read_front};
use tr_survey::SurveyFault;

/// What a file of declarations holds.
#[derive(Debug, Drop)]
pub enum Declarations {
    /// It isn't there, or it can't be read.
    Unreadable,
    /// A line is refused.
    Refused(LineFault),
    /// These events.
    Declared(Events),
}

/// What these bytes declare.
fn declarations_in(alloc: Global, bytes: &[u8]) -> Result<Declarations, AllocError>
    ensures { IfOk result (λ d. as_read d ≡ Some (declared bytes.now)) }
{
    match Events::parse(alloc, bytes) {
        Ok(events) => Ok(Declarations::Declared(events)),
        Err(ParseFault::Line(fault)) => Ok(Declarations::Refused(fault)),
        Err(ParseFault::NoMemory) => Err(AllocError),
    }
}

/// What the open file declares, by as many bytes as the buffer holds.
fn declarations_read<F: Folders>(
    alloc: Global,
    folders: &mut F,
    buffer: &mut [u8],
) -> Result<Declarations, SurveyFault>
    requires { length buffer.old ≡ looked_at }
    ensures declares { IfOk result (λ d. (file : File) → F.left folders.old ≡ Some file → as_read d ≡ declaring (Some file)) }
    ensures tree { F.tree folders.new ≡ F.tree folders.old }
    ensures failures { F.failures folders.new ≡ reads_after result (F.failures folders.old) }
    ensures writes { (n : ℕ) → writes_after result n ≡ n }
{
    match read_front(folders, buffer) {
        Ok(count) => {
            let (bytes, _) = buffer.split_at(count);
            Ok(declarations_in(alloc, bytes)?)
        }
        Err(ReadFault::Unreadable) => Ok(Declarations::Unreadable),
        Err(ReadFault::TooMuch) => Err(SurveyFault::TooMuch),
        Err(ReadFault::NoMemory) => Err(SurveyFault::NoMemory),
    }
}

/// What the file at this path declares.
pub(crate) fn declarations_at<F: Folders>(
    alloc: Global,
    folders: &mut F,
    path: &str,
) -> Result<Declarations, SurveyFault>
    ensures declares { IfOk result (λ d. (t : Tree) → F.tree folders.old ≡ Some t → as_read d ≡ declaring (t.file path.now)) }
    ensures tree { F.tree folders.new ≡ F.tree folders.old }
    ensures failures { F.failures folders.new ≡ reads_after result (F.failures folders.old) }
    ensures writes { (n : ℕ) → writes_after result n ≡ n }
{
    let mut buffer = buffer_of(alloc, LONGEST_DECLARATIONS + 1)?;
    match folders.open(path) {
        Ok(true) => declarations_read(alloc, folders, buffer.as_mut_slice()),
        Ok(false) => Ok(Declarations::Unreadable),
        Err(ReadFault::Unreadable) => Ok(Declarations::Unreadable),
        Err(ReadFault::TooMuch) => Err(SurveyFault::TooMuch),
        Err(ReadFault::NoMemory) => Err(SurveyFault::NoMemory),
    }
}
