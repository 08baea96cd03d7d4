//! A run of a whole script: its lines are read, and all are answered before more is asked for.

ghost use Rattle.std.specs.Prelude.{◌≡◌, ◌≤◌, ◌<◌, ◌⊎◌, ◌++◌, [], Ok, Err, IfOk, OnOk, length};
ghost use Rattle.tr_console.specs.Gathering.{Gathers, WentInPart};
ghost use Rattle.tr_console.specs.Runs.{AnsweredSome, BrokeOff, Ran, WentTooFar, WroteSome, step_of_line};
ghost use Rattle.tr_console.specs.Script.{script_text};
ghost use Rattle.tr_events.specs.Events.{nothing};
ghost use Rattle.tr_lines.specs.Reading.{GoesTooFar, ReadsAll, ReadsLine, ReadsOn, TakesLine, budget};
ghost use Rattle.tr_terms.specs.declared.limits.TheConstants.{LONGEST_PIECE, LONGEST_SCRIPT};
ghost use Rattle.tr_record.specs.Bytes.{and_then_bytes, once_more};

use crate::console::Console;
use crate::outbox::Outbox;
use crate::script_fault::ScriptFault;
use std::alloc::{Allocator, Global};
use tr_events::Events;
use tr_lines::{Found, LineReader};
use tr_record::{ByteSink, ByteSource, MemorySink, MemorySource};
use tr_terms::limits::LONGEST_PIECE;

/// A run that came to the script's end.
#[derive(Drop)]
pub struct ScriptDone<A: Allocator = Global> {
    /// How many lines were refused, bad lines among them.
    pub refused: u64,
    /// The sessions as the script left them.
    pub console: Console<A>,
}

/// Takes the next line. If not the whole of it is held, all that is gathered goes out before more is read, or before the run
/// ends since an allocation failed.
fn next_line<A: Allocator, S: ByteSource, K: ByteSink>(
    reader: &mut LineReader<A>,
    source: &mut S,
    outbox: &mut Outbox<A>,
    sink: &mut K,
) -> Result<Found, ScriptFault>
    ensures whole { result ≡ Ok Found.Whole
        → ReadsLine (S.given source.old) (S.given source.new) reader.old reader.new }
    ensures shrinks { result ≡ Ok Found.Whole → budget reader.new < budget reader.old }
    ensures last { result ≡ Ok Found.Last
        → ReadsAll (S.given source.old) (S.given source.new) reader.old reader.new
        × (S.given source.new ≡ S.content source.new) }
    ensures gathered { OnOk result (Gathers (K.taken sink.old) (K.taken sink.new) outbox.old [] outbox.new) }
    ensures asked { OnOk result (TakesLine reader.old reader.new ⊎ (outbox.new ≡ [])) }
    ensures content { S.content source.new ≡ S.content source.old }
    ensures held { length reader.new.held ≤ LONGEST_PIECE }

    ensures read { result ≡ Err ScriptFault.Read
        → ReadsAll (S.given source.old) (S.given source.new) reader.old reader.new
        × (K.taken sink.new ≡ and_then_bytes (K.taken sink.old) outbox.old)
        × (S.failures source.new ≡ once_more (S.failures source.old)) }
    ensures too_long { result ≡ Err ScriptFault.TooLong
        → GoesTooFar (S.given source.old) (S.given source.new) reader.old reader.new
        × (K.taken sink.new ≡ and_then_bytes (K.taken sink.old) outbox.old) }
    ensures memory { result ≡ Err ScriptFault.NoMemory
        → ReadsOn (S.given source.old) (S.given source.new) reader.old reader.new
        × (K.taken sink.new ≡ and_then_bytes (K.taken sink.old) outbox.old) }
    ensures write { result ≡ Err ScriptFault.Write
        → (S.given source.new ≡ S.given source.old)
        × WentInPart (K.taken sink.old) (K.taken sink.new) outbox.old
        × (K.failures sink.new ≡ once_more (K.failures sink.old)) }
    ensures source_works { (result ≡ Err ScriptFault.Read → ⊥) → S.failures source.new ≡ S.failures source.old }
    ensures sink_works { (result ≡ Err ScriptFault.Write → ⊥) → K.failures sink.new ≡ K.failures sink.old }
{
    match reader.take_line() {
        Ok(true) => Ok(Found::Whole),
        Ok(false) => {
            outbox.put_out(sink)?;
            prove!(outbox.is_empty());
            Ok(reader.read_on(source)?)
        }
        Err(_) => {
            outbox.put_out(sink)?;
            Err(ScriptFault::NoMemory)
        }
    }
}

/// Runs a line, gathers its answer, and says whether it was refused. If an allocation fails, nothing of the answer is
/// gathered, and all that was gathered before goes out.
fn answer_line<A: Allocator + Copy, K: ByteSink>(
    console: &mut Console<A>,
    clap: Global,
    line: Option<&str>,
    outbox: &mut Outbox<A>,
    sink: &mut K,
) -> Result<bool, ScriptFault>
    ensures text { OnOk result
        (Gathers (K.taken sink.old) (K.taken sink.new) outbox.old (step_of_line console.old line.entry).text outbox.new) }
    ensures world { OnOk result (console.new ≡ (step_of_line console.old line.entry).world) }
    ensures refused { IfOk result (λ is_refused. is_refused ≡ (step_of_line console.old line.entry).is_refused) }

    ensures write { result ≡ Err ScriptFault.Write
        → WentInPart (K.taken sink.old) (K.taken sink.new)
        (outbox.old ++ (step_of_line console.old line.entry).text) }
    ensures memory { result ≡ Err ScriptFault.NoMemory
        → K.taken sink.new ≡ and_then_bytes (K.taken sink.old) outbox.old }
    ensures read { result ≡ Err ScriptFault.Read → ⊥ }
    ensures too_long { result ≡ Err ScriptFault.TooLong → ⊥ }

    ensures failed { result ≡ Err ScriptFault.Write → K.failures sink.new ≡ once_more (K.failures sink.old) }
    ensures no_failure { (result ≡ Err ScriptFault.Write → ⊥) → K.failures sink.new ≡ K.failures sink.old }
{
    let Ok(reply) = console.answer(clap, line) else {
        outbox.put_out(sink)?;
        return Err(ScriptFault::NoMemory);
    };
    outbox.gather(sink, reply.text().as_bytes())?;
    Ok(reply.is_refused())
}

/// Reads a script, whose sessions are created with these events, from its source and answers each line to the sink. Answers to
/// lines that came together may go out together, but all are out before the source is asked for more. The command line of a line
/// takes its memory from `clap`.
///
/// # Errors
///
/// `Read` and `Write` only if the source or the sink failed in this call, `TooLong` if a byte came after 16,777,216 others,
/// `NoMemory` if an allocation failed. Each variant of `ScriptFault` says what went out by then.
pub fn run_script_with<A: Allocator + Copy, S: ByteSource, K: ByteSink>(
    alloc: A,
    clap: Global,
    events: Events<A>,
    source: &mut S,
    sink: &mut K,
) -> Result<ScriptDone<A>, ScriptFault>
    ensures done { IfOk result
        (λ done. Ran events (S.given source.old) (S.given source.new) (K.taken sink.old) (K.taken sink.new) done.console
        done.refused) }
    ensures end { OnOk result (S.given source.new ≡ S.content source.old) }
    ensures content { S.content source.new ≡ S.content source.old }

    ensures read { result ≡ Err ScriptFault.Read
        → BrokeOff events (S.given source.old) (S.given source.new) (K.taken sink.old) (K.taken sink.new) }
    ensures too_long { result ≡ Err ScriptFault.TooLong
        → WentTooFar events (S.given source.old) (S.given source.new) (K.taken sink.old) (K.taken sink.new) }
    ensures write { result ≡ Err ScriptFault.Write
        → WroteSome events (S.given source.old) (S.given source.new) (K.taken sink.old) (K.taken sink.new)
        (S.content source.old) }
    ensures memory { result ≡ Err ScriptFault.NoMemory
        → AnsweredSome events (S.given source.old) (S.given source.new) (K.taken sink.old) (K.taken sink.new) }

    ensures source_failed { result ≡ Err ScriptFault.Read
        → S.failures source.new ≡ once_more (S.failures source.old) }
    ensures source_works { (result ≡ Err ScriptFault.Read → ⊥) → S.failures source.new ≡ S.failures source.old }
    ensures sink_failed { result ≡ Err ScriptFault.Write → K.failures sink.new ≡ once_more (K.failures sink.old) }
    ensures sink_works { (result ≡ Err ScriptFault.Write → ⊥) → K.failures sink.new ≡ K.failures sink.old }
{
    let mut reader = LineReader::new(alloc)?;
    let mut outbox = Outbox::new(alloc)?;
    let mut console = Console::new(alloc, events);
    let mut refused = 0;
    'lines: loop {
        let found = next_line(&mut reader, source, &mut outbox, sink)?;
        let is_refused = answer_line(&mut console, clap, reader.text(), &mut outbox, sink)?;
        refused += u64::from(is_refused);
        match found {
            Found::Whole => {}
            Found::Last => {
                outbox.put_out(sink)?;
                return Ok(ScriptDone { refused, console });
            }
        }
    }
}

/// The same, with sessions that declare no events.
///
/// # Errors
///
/// Those of `run_script_with`.
pub fn run_script<A: Allocator + Copy, S: ByteSource, K: ByteSink>(
    alloc: A,
    clap: Global,
    source: &mut S,
    sink: &mut K,
) -> Result<ScriptDone<A>, ScriptFault>
    ensures done { IfOk result
        (λ done. Ran nothing (S.given source.old) (S.given source.new) (K.taken sink.old) (K.taken sink.new) done.console
        done.refused) }
    ensures end { OnOk result (S.given source.new ≡ S.content source.old) }
    ensures content { S.content source.new ≡ S.content source.old }

    ensures read { result ≡ Err ScriptFault.Read
        → BrokeOff nothing (S.given source.old) (S.given source.new) (K.taken sink.old) (K.taken sink.new) }
    ensures too_long { result ≡ Err ScriptFault.TooLong
        → WentTooFar nothing (S.given source.old) (S.given source.new) (K.taken sink.old) (K.taken sink.new) }
    ensures write { result ≡ Err ScriptFault.Write
        → WroteSome nothing (S.given source.old) (S.given source.new) (K.taken sink.old) (K.taken sink.new)
        (S.content source.old) }
    ensures memory { result ≡ Err ScriptFault.NoMemory
        → AnsweredSome nothing (S.given source.old) (S.given source.new) (K.taken sink.old) (K.taken sink.new) }

    ensures source_failed { result ≡ Err ScriptFault.Read
        → S.failures source.new ≡ once_more (S.failures source.old) }
    ensures source_works { (result ≡ Err ScriptFault.Read → ⊥) → S.failures source.new ≡ S.failures source.old }
    ensures sink_failed { result ≡ Err ScriptFault.Write → K.failures sink.new ≡ once_more (K.failures sink.old) }
    ensures sink_works { (result ≡ Err ScriptFault.Write → ⊥) → K.failures sink.new ≡ K.failures sink.old }
{
    run_script_with(alloc, clap, Events::none(alloc), source, sink)
}

/// The answer to a script in memory.
///
/// # Errors
///
/// `TooLong` if the script has more than 16,777,216 bytes, `NoMemory` if an allocation failed.
pub fn run_text<A: Allocator + Copy>(
    alloc: A,
    clap: Global,
    script: &[u8],
) -> Result<Vec<u8, A>, ScriptFault>
    ensures text { IfOk result (λ text. text.items ≡ script_text script.now) }
    ensures fits { OnOk result (length script.now ≤ LONGEST_SCRIPT) }
    ensures too_long { result ≡ Err ScriptFault.TooLong → LONGEST_SCRIPT < length script.now }
    ensures read { result ≡ Err ScriptFault.Read → ⊥ }
    ensures write { result ≡ Err ScriptFault.Write → ⊥ }
{
    let mut source = MemorySource::new(script, LONGEST_PIECE);
    let mut sink = MemorySink::new(alloc, LONGEST_PIECE);
    match run_script(alloc, clap, &mut source, &mut sink) {
        Ok(_) => Ok(sink.into_bytes()),
        Err(ScriptFault::TooLong) => Err(ScriptFault::TooLong),
        // a sink in memory fails if an allocation fails
        Err(ScriptFault::Write | ScriptFault::NoMemory) => Err(ScriptFault::NoMemory),
        Err(ScriptFault::Read) => unreachable!(),
    }
}
