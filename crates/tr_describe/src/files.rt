//! What is wrong with a stream's file.

ghost use Rattle.std.specs.Prelude.{◌≡◌, ◌<◌, ℕ, Some, None, IfOk, length};
ghost use Rattle.tr_describe.specs.declared.flaws.Flaw.TheVariants.{Unsound};
ghost use Rattle.tr_describe.specs.Flaws.{file_flaw};
ghost use Rattle.tr_describe.specs.Steps.{IsHeld};
ghost use Rattle.tr_folders.specs.Tree.{File, Tree};
ghost use Rattle.tr_survey.specs.Failures.{reads_after, writes_after};

use crate::flaws::{Flaw, Rule, Step, judge_front};
use std::alloc::{AllocError, Global};
use tr_folders::{Folders, MOST_BYTES, ReadFault};
use tr_survey::SurveyFault;

/// The bytes, copied.
fn bytes_of(alloc: Global, bytes: &[u8]) -> Result<Vec<u8>, AllocError>
    ensures { IfOk result (λ copy. copy.items ≡ bytes.now) }
{
    bytes.to_vec(alloc)
}

/// Judges the packets that are held whole, and holds what comes after them.
fn judge_held(
    alloc: Global,
    rule: &Rule<'_>,
    held: &mut Vec<u8>,
) -> Result<Option<Flaw>, AllocError>
    ensures { IfOk result (λ flaw. IsHeld rule.now.events.now rule.now.uuid.now rule.now.stream held.old.items flaw held.new.items) }
{
    let mut at = 0;
    'packets: loop {
        let (_, bytes) = held.split_at(at);
        match judge_front(rule, bytes) {
            Step::Packet(size) => at += size,
            Step::Waits => break,
            Step::Wrong(flaw) => return Ok(Some(flaw)),
        }
    }
    let (_, left) = held.split_at(at);
    *held = bytes_of(alloc, left)?;
    Ok(None)
}

/// What is wrong with a file that ends after these bytes, which are too few for a packet.
fn end_flaw(held: &[u8]) -> Option<Flaw>
    ensures none { length held.now ≡ 0 → result ≡ None }
    ensures some { 0 < length held.now → result ≡ Some Unsound }
{
    match held {
        [] => None,
        [_, ..] => Some(Flaw::Unsound),
    }
}

/// Judges the open file. It holds a piece and the packet that it reads, however long the file is.
fn judge_file<F: Folders>(
    alloc: Global,
    folders: &mut F,
    rule: &Rule<'_>,
    buffer: &mut [u8],
) -> Result<Option<Flaw>, SurveyFault>
    requires { 0 < length buffer.old }
    ensures flaw { IfOk result (λ flaw. (file : File) → F.left folders.old ≡ Some file
        → flaw ≡ file_flaw rule.now.events.now rule.now.uuid.now rule.now.stream (Some file)) }
    ensures tree { F.tree folders.new ≡ F.tree folders.old }
    ensures failures { F.failures folders.new ≡ reads_after result (F.failures folders.old) }
    ensures writes { (n : ℕ) → writes_after result n ≡ n }
    ensures room { length buffer.new ≡ length buffer.old }
{
    let mut held = Vec::new(alloc);
    'pieces: for _ in 0..MOST_BYTES {
        match folders.read(buffer) {
            Ok(0) => return Ok(end_flaw(&held)),
            Ok(count) => {
                let (bytes, _) = buffer.split_at(count);
                held.extend_from_slice(bytes)?;
                match judge_held(alloc, rule, &mut held)? {
                    Some(flaw) => return Ok(Some(flaw)),
                    None => {}
                }
            }
            Err(ReadFault::Unreadable) => return Ok(Some(Flaw::Unsound)),
            Err(ReadFault::TooMuch) => return Err(SurveyFault::TooMuch),
            Err(ReadFault::NoMemory) => return Err(SurveyFault::NoMemory),
        }
    }
    unreachable!()
}

/// Judges the stream's file at this path.
pub(crate) fn judge_path<F: Folders>(
    alloc: Global,
    folders: &mut F,
    rule: &Rule<'_>,
    path: &str,
    buffer: &mut [u8],
) -> Result<Option<Flaw>, SurveyFault>
    requires { 0 < length buffer.old }
    ensures flaw { IfOk result (λ flaw. (t : Tree) → F.tree folders.old ≡ Some t
        → flaw ≡ file_flaw rule.now.events.now rule.now.uuid.now rule.now.stream (t.file path.now)) }
    ensures tree { F.tree folders.new ≡ F.tree folders.old }
    ensures failures { F.failures folders.new ≡ reads_after result (F.failures folders.old) }
    ensures writes { (n : ℕ) → writes_after result n ≡ n }
    ensures room { length buffer.new ≡ length buffer.old }
{
    match folders.open(path) {
        Ok(true) => judge_file(alloc, folders, rule, buffer),
        Ok(false) => Ok(Some(Flaw::Unsound)),
        Err(ReadFault::Unreadable) => Ok(Some(Flaw::Unsound)),
        Err(ReadFault::TooMuch) => Err(SurveyFault::TooMuch),
        Err(ReadFault::NoMemory) => Err(SurveyFault::NoMemory),
    }
}
