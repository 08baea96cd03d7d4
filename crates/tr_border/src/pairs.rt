//! Steps of a session's book with one of its streams.

ghost use Rattle.std.specs.Prelude.{◌≡◌, ◌≢◌, IfOk, IfErr, OnErr, IsOk, Ok, Err, Some, length, ℕ};
ghost use Rattle.tr_border.specs.Pairs.{after_clear, after_release, after_switch, book_after_cut, clear_answer, cut_answer, look_answer, number_in, release_answer, stream_after_cut, switch_answer, thread_config};
ghost use Rattle.tr_session.specs.Steps.{ClearsPackets, ReleasesPackets, ShowsPackets};
ghost use Rattle.tr_session.specs.declared.faults.StepFault.TheVariants as StepFault;
ghost use Rattle.tr_session_book.specs.BookSteps.{book_add_thread, channel_named};
ghost use Rattle.tr_session_book.specs.declared.channel.Channel.{Channel};
ghost use Rattle.tr_session_book.specs.declared.faults.SessionFault.TheVariants as SessionFault;
ghost use Rattle.tr_stream.specs.Answers.{answer_of};
ghost use Rattle.tr_stream.specs.StateSteps.{new_state};
ghost use Rattle.tr_stream.specs.declared.answers.CutFault.TheVariants as CutFault;

use std::alloc::{AllocError, Global};
use tr_book::StreamSnap;
use tr_session::{StepFault, clear_fault, release_fault};
use tr_session_book::{SessionBook, SessionFault};
use tr_stream::{Cleared, CutDone, Released, Removed, Stream, StreamConfig};
use tr_terms::Moment;

/// A stream on the heap that is made with this.
pub fn made(alloc: Global, config: StreamConfig) -> Result<Box<Stream<Global>>, AllocError>
    ensures { IfOk result (λ kept. kept.value ≡ new_state config) }
{
    let stream = Stream::new(
        alloc,
        config.uuid,
        config.number,
        config.geometry,
        config.mode,
        config.session,
    )?;
    match Box::new(alloc, stream) {
        Ok(kept) => Ok(kept),
        Err(_) => Err(AllocError),
    }
}

/// The number of a stream in its session.
fn number_in(book: &SessionBook<Global>, stream: &Stream<Global>) -> Result<u64, SessionFault>
    ensures { result ≡ number_in book.now stream.now }
{
    let config = stream.config();
    if config.uuid == book.uuid() {
        Ok(config.number)
    } else {
        Err(SessionFault::Misplaced)
    }
}

/// Switches a stream as its session allows.
pub fn switch_stream(
    book: &SessionBook<Global>,
    stream: &mut Stream<Global>,
    active: bool,
) -> Result<(), SessionFault>
    ensures answer { result ≡ switch_answer active book.now stream.old }
    ensures after { stream.new ≡ after_switch active book.now stream.old }
{
    let number = match number_in(book, stream) {
        Ok(number) => number,
        Err(fault) => return Err(fault),
    };
    match book.can_switch(active, number) {
        Ok(()) => {
            stream.set_active(active);
            Ok(())
        }
        Err(fault) => Err(fault),
    }
}

/// Cuts the stream that is the next of the pending rotation, and notes it.
pub fn cut_stream(
    book: &mut SessionBook<Global>,
    stream: &mut Stream<Global>,
) -> Result<CutDone, StepFault>
    ensures value { result ≢ Err (StepFault.Cut CutFault.NoMemory) → (result ≡ cut_answer book.old stream.old)
        × (stream.new ≡ stream_after_cut book.old stream.old) × (book.new ≡ book_after_cut book.old stream.old) }
    ensures no_memory { result ≡ Err (StepFault.Cut CutFault.NoMemory) → (stream.new ≡ stream.old) × (book.new ≡ book.old) }
    ensures memory { result ≡ Err (StepFault.Cut CutFault.NoMemory) → IsOk (cut_answer book.old stream.old) }
{
    let number = match number_in(book, stream) {
        Ok(number) => number,
        Err(fault) => return Err(StepFault::Session(fault)),
    };
    let moment = match book.cut_moment(number) {
        Ok(moment) => moment,
        Err(fault) => return Err(StepFault::Session(fault)),
    };
    match stream.cut(moment) {
        Ok(done) => {
            // The cut was due, so this isn't refused.
            let _ = book.note_cut(number);
            Ok(done)
        }
        Err(fault) => Err(StepFault::Cut(fault)),
    }
}

/// Clears a stream as its session allows. The packets come out, so that their memory is freed only when the caller drops them.
pub fn clear_stream(
    book: &SessionBook<Global>,
    stream: &mut Stream<Global>,
) -> Result<(Cleared, Removed<Global>), SessionFault>
    ensures value { answer_of result ≢ Err SessionFault.NoMemory → (answer_of result ≡ clear_answer book.now stream.old)
        × (stream.new ≡ after_clear book.now stream.old) }
    ensures no_memory { answer_of result ≡ Err SessionFault.NoMemory → stream.new ≡ stream.old }
    ensures memory { answer_of result ≡ Err SessionFault.NoMemory → ClearsPackets (clear_answer book.now stream.old) }
{
    let number = match number_in(book, stream) {
        Ok(number) => number,
        Err(fault) => return Err(fault),
    };
    if number >= book.streams() as u64 {
        return Err(SessionFault::NoStream);
    }
    if let Err(fault) = book.clear_allowed() {
        return Err(fault);
    }
    match stream.clear_out() {
        Ok(cleared) => Ok(cleared),
        Err(fault) => Err(clear_fault(fault)),
    }
}

/// Gives up a stream's part of an archive. The packets come out as of a clear.
pub fn release_stream(
    book: &SessionBook<Global>,
    stream: &mut Stream<Global>,
    archive: u64,
) -> Result<(Released, Removed<Global>), SessionFault>
    ensures value { answer_of result ≢ Err SessionFault.NoMemory → (answer_of result ≡ release_answer archive book.now stream.old)
        × (stream.new ≡ after_release archive book.now stream.old) }
    ensures no_memory { answer_of result ≡ Err SessionFault.NoMemory → stream.new ≡ stream.old }
    ensures memory { answer_of result ≡ Err SessionFault.NoMemory → ReleasesPackets (release_answer archive book.now stream.old) }
{
    let number = match number_in(book, stream) {
        Ok(number) => number,
        Err(fault) => return Err(fault),
    };
    if number >= book.streams() as u64 {
        return Err(SessionFault::NoStream);
    }
    if let Err(fault) = book.release_allowed(archive) {
        return Err(fault);
    }
    match stream.release_out(archive) {
        Ok(released) => Ok(released),
        Err(fault) => Err(release_fault(fault)),
    }
}

/// What a stream shows at a moment, as its session allows. Copies that were made ahead are handed out.
pub fn look_at(
    book: &SessionBook<Global>,
    stream: &mut Stream<Global>,
    moment: Moment,
) -> Result<StreamSnap<Global>, SessionFault>
    ensures value { result ≢ Err SessionFault.NoMemory → result ≡ look_answer moment book.now stream.old }
    ensures same { stream.new ≡ stream.old }
    ensures memory { result ≡ Err SessionFault.NoMemory → IsOk (look_answer moment book.now stream.old) }
{
    let number = match number_in(book, stream) {
        Ok(number) => number,
        Err(fault) => return Err(fault),
    };
    match book.can_snap(number) {
        Ok(()) => Ok(stream.peek_out(moment)?),
        Err(fault) => Err(fault),
    }
}

/// Adds a thread to a channel, and makes its stream; both or neither.
pub fn add_thread(
    alloc: Global,
    book: &mut SessionBook<Global>,
    channel: &str,
) -> Result<Box<Stream<Global>>, SessionFault>
    ensures ok { IfOk result (λ kept. (book_add_thread channel.now book.old ≡ Ok book.new)
        × (made : Channel) × (channel_named channel.now book.old ≡ Some made)
        × (kept.value ≡ new_state (thread_config book.old made))) }
    ensures refused { IfErr result (λ fault. fault ≢ SessionFault.NoMemory
        → book_add_thread channel.now book.old ≡ Err fault) }
    ensures memory { result ≡ Err SessionFault.NoMemory → IsOk (book_add_thread channel.now book.old) }
    ensures unchanged { OnErr result (book.new ≡ book.old) }
{
    let made_of = match book.thread_channel(channel) {
        Ok(made_of) => made_of,
        Err(fault) => return Err(fault),
    };
    let config = StreamConfig {
        uuid: book.uuid(),
        number: book.streams() as u64,
        geometry: made_of.geometry,
        mode: made_of.mode,
        session: book.mode(),
    };
    let Ok(stream) = made(alloc, config) else {
        return Err(SessionFault::NoMemory);
    };
    match book.add_thread(channel) {
        Ok(_) => Ok(stream),
        Err(fault) => {
            drop(stream);
            Err(fault)
        }
    }
}
