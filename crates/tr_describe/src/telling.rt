//! Describing archives by a file of declarations, with a line that says what it came to.

ghost use Rattle.std.specs.Prelude.{◌≡◌, ℕ, Some, Ok, IfOk, OnErr, OnOk};
ghost use Rattle.std.specs.String.{string_bytes};
ghost use Rattle.tr_describe.specs.Answers.{by_text, said_by_text};
ghost use Rattle.tr_describe.specs.Failures.{reads_after, writes_after};
ghost use Rattle.tr_describe.specs.Files.{as_read, declaring};
ghost use Rattle.tr_describe.specs.Telling.{FailedSo, TellsBy, TellsTree, outcome_said, declared_text, refused_text, said_text, wrong_text};
ghost use Rattle.tr_record.specs.Bytes.{and_then_bytes};
ghost use Rattle.tr_survey.specs.Prefix.{IsPrefixOut};
ghost use Rattle.tr_folders.specs.Tree.{Tree};

use crate::declarations::{Declarations, declarations_at};
use crate::described::{Described, Wrong};
use crate::describing::{describe, fault_of};
use crate::faults::DescribeFault;
use crate::texts::Texts;
use std::alloc::{AllocError, Global};
use tr_events::{Events, LineFault};
use tr_folders::Folders;
use tr_record::{ByteSink, put_all};

/// What describing archives by a file of declarations came to.
#[derive(Clone, Copy, Debug, PartialEq, Eq)]
pub enum Outcome {
    /// The file or the folder can't be read. No line says so.
    Unreadable,
    /// The folder has no session. No line says so.
    NoSession,
    /// A line of the file is refused: `line 3 V2 BadField`.
    Refused,
    /// Something is wrong with what is there, and nothing was written: `unfit SESSION ARCHIVE CHANNEL STREAM SERIAL`, say.
    Wrong,
    /// The archives are described: `described 3`.
    Done,
}

/// The line of a declaration that is refused.
fn refused_line(alloc: Global, at: &LineFault) -> Result<String, AllocError>
    ensures { IfOk result (λ s. string_bytes s ≡ refused_text at.now) }
{
    format!(in alloc;
        "line {} {} {}\n",
        at.line,
        at.fault.code(),
        at.fault.name()
    )
}

/// The line of what is wrong.
fn wrong_line(alloc: Global, wrong: &Wrong) -> Result<String, AllocError>
    ensures { IfOk result (λ s. string_bytes s ≡ wrong_text (by_text wrong.now)) }
{
    match wrong {
        Wrong::Closed { session } => format!(in alloc; "closed {session}\n"),
        Wrong::Foreign { session, archive } => format!(in alloc; "foreign {session} {archive}\n"),
        Wrong::Unsound {
            session,
            archive,
            channel,
            stream,
        } => format!(in alloc; "unsound {session} {archive} {channel} {stream}\n"),
        Wrong::Unfit {
            session,
            archive,
            channel,
            stream,
            serial,
        } => format!(in alloc; "unfit {session} {archive} {channel} {stream} {serial}\n"),
    }
}

/// The line of what describing came to, if it has one.
fn said_line(alloc: Global, said: &Described) -> Result<String, AllocError>
    ensures { IfOk result (λ s. string_bytes s ≡ said_text (said_by_text said.now)) }
{
    match said {
        Described::Unlisted | Described::NoSession => Ok(String::new(alloc)),
        Described::Wrong(wrong) => wrong_line(alloc, wrong),
        Described::Done { archives } => format!(in alloc; "described {archives}\n"),
    }
}

/// What describing came to.
fn outcome_said(said: &Described) -> Outcome
    ensures { result ≡ outcome_said (said_by_text said.now) }
{
    match said {
        Described::Unlisted => Outcome::Unreadable,
        Described::NoSession => Outcome::NoSession,
        Described::Wrong(_) => Outcome::Wrong,
        Described::Done { .. } => Outcome::Done,
    }
}

/// Puts a line to an output.
fn put_line<K: ByteSink>(out: &mut K, line: &str) -> Result<(), DescribeFault>
    ensures ok { OnOk result (K.taken out.new ≡ and_then_bytes (K.taken out.old) line.now) }
    ensures err { OnErr result (IsPrefixOut line.now (K.taken out.old) (K.taken out.new)) }
    ensures writes { K.failures out.new ≡ writes_after result (K.failures out.old) }
    ensures reads { (n : ℕ) → reads_after result n ≡ n }
{
    match put_all(out, line.as_bytes()) {
        Ok(()) => Ok(()),
        Err(_) => Err(DescribeFault::Write),
    }
}

/// Says which line is refused.
fn tell_refused<K: ByteSink>(
    alloc: Global,
    out: &mut K,
    at: &LineFault,
) -> Result<(), DescribeFault>
    ensures ok { OnOk result (K.taken out.new ≡ and_then_bytes (K.taken out.old) (refused_text at.now)) }
    ensures err { OnErr result (IsPrefixOut (refused_text at.now) (K.taken out.old) (K.taken out.new)) }
    ensures writes { K.failures out.new ≡ writes_after result (K.failures out.old) }
    ensures reads { (n : ℕ) → reads_after result n ≡ n }
{
    let line = refused_line(alloc, at)?;
    put_line(out, line.as_str())
}

/// Says what describing came to.
fn tell_said<K: ByteSink>(alloc: Global, out: &mut K, said: &Described) -> Result<(), DescribeFault>
    ensures ok { OnOk result (K.taken out.new ≡ and_then_bytes (K.taken out.old) (said_text (said_by_text said.now))) }
    ensures err { OnErr result (IsPrefixOut (said_text (said_by_text said.now)) (K.taken out.old) (K.taken out.new)) }
    ensures writes { K.failures out.new ≡ writes_after result (K.failures out.old) }
    ensures reads { (n : ℕ) → reads_after result n ≡ n }
{
    let line = said_line(alloc, said)?;
    put_line(out, line.as_str())
}

/// Describes the archives below a folder by these events, and says what it came to.
fn tell_described<F: Folders, T: Texts, K: ByteSink>(
    alloc: Global,
    folders: &mut F,
    texts: &mut T,
    out: &mut K,
    dir: &str,
    events: &Events,
) -> Result<Outcome, DescribeFault>
    ensures tells { (t : Tree) → F.tree folders.old ≡ Some t
        → TellsBy t dir.now (Some (Ok events.now)) result (T.written texts.old) (T.written texts.new) (K.taken out.old) (K.taken out.new) }
    ensures tree { F.tree folders.new ≡ F.tree folders.old }
    ensures reads { F.failures folders.new ≡ reads_after result (F.failures folders.old) }
    ensures failures { FailedSo result (T.failures texts.old) (T.failures texts.new) (K.failures out.old) (K.failures out.new) }
{
    let said = describe(alloc, folders, texts, dir, events)?;
    tell_said(alloc, out, &said)?;
    Ok(outcome_said(&said))
}

/// What the file at a path declares, with a line to an output if a line of it is refused: `line 3 V2 BadField`.
///
/// # Errors
///
/// `TooMuch` once 2^62 bytes of files were read, `NoMemory` if an allocation fails, `Write` if the line can't be written: a front of
/// it went out.
pub fn declarations_told<F: Folders, K: ByteSink>(
    alloc: Global,
    folders: &mut F,
    out: &mut K,
    file: &str,
) -> Result<Declarations, DescribeFault>
    ensures declares { IfOk result (λ d. (t : Tree) → F.tree folders.old ≡ Some t → as_read d ≡ declaring (t.file file.now)) }
    ensures tells { IfOk result (λ d. K.taken out.new ≡ and_then_bytes (K.taken out.old) (declared_text (as_read d))) }
    ensures fails { OnErr result ((t : Tree) → F.tree folders.old ≡ Some t
        → IsPrefixOut (declared_text (declaring (t.file file.now))) (K.taken out.old) (K.taken out.new)) }
    ensures tree { F.tree folders.new ≡ F.tree folders.old }
    ensures reads { F.failures folders.new ≡ reads_after result (F.failures folders.old) }
    ensures writes { K.failures out.new ≡ writes_after result (K.failures out.old) }
{
    match declarations_at(alloc, folders, file) {
        Ok(Declarations::Refused(at)) => {
            tell_refused(alloc, out, &at)?;
            Ok(Declarations::Refused(at))
        }
        Ok(declarations) => Ok(declarations),
        Err(fault) => Err(fault_of(fault)),
    }
}

/// Gives the archives below a folder the metadata of the events that the file at a path declares, as `describe` does, and puts a
/// line to an output that says what it came to, unless the file or the folder can't be read or has no session.
///
/// # Errors
///
/// `TooMuch` once 2^62 bytes of files were read, `NoMemory` if an allocation fails, `Write` if metadata or the line can't be
/// written: the archives before, in order, are described, and the others have what they had; of the line a front went out.
pub fn describe_by<F: Folders, T: Texts, K: ByteSink>(
    alloc: Global,
    folders: &mut F,
    texts: &mut T,
    out: &mut K,
    file: &str,
    dir: &str,
) -> Result<Outcome, DescribeFault>
    ensures tells { (t : Tree) → F.tree folders.old ≡ Some t
        → TellsTree t file.now dir.now result (T.written texts.old) (T.written texts.new) (K.taken out.old) (K.taken out.new) }
    ensures tree { F.tree folders.new ≡ F.tree folders.old }
    ensures reads { F.failures folders.new ≡ reads_after result (F.failures folders.old) }
    ensures failures { FailedSo result (T.failures texts.old) (T.failures texts.new) (K.failures out.old) (K.failures out.new) }
{
    match declarations_at(alloc, folders, file) {
        Ok(Declarations::Unreadable) => Ok(Outcome::Unreadable),
        Ok(Declarations::Refused(at)) => {
            tell_refused(alloc, out, &at)?;
            Ok(Outcome::Refused)
        }
        Ok(Declarations::Declared(events)) => {
            tell_described(alloc, folders, texts, out, dir, &events)
        }
        Err(fault) => Err(fault_of(fault)),
    }
}
