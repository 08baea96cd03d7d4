//! What a line of a shell asks for, as C reads it.

ghost use Rattle.std.specs.Prelude.{◌≡◌, IfOk, map, option_map};
ghost use Rattle.tr_border.specs.Asks.{asked_out, line_asked, plain_asked, words_asked};
ghost use Rattle.tr_command.specs.Asked.{asked_by};
ghost use Rattle.tr_command.specs.Language.{asked_of};

use crate::codes::{
    ASKS_ARCHIVES, ASKS_BADLY, ASKS_CLEAR, ASKS_FATE, ASKS_NOTHING, ASKS_OTHER, ASKS_RELEASE,
    ASKS_ROTATE, ASKS_SCHEDULE, ASKS_SNAPSHOT, ASKS_START, ASKS_STATUS, ASKS_STOP,
};
use std::alloc::{AllocError, Global};
use tr_command::{Request, parse};
use tr_lines::{Words, is_skipped_line, push_words, text_of_line};

/// What a line asks for. What it doesn't give is 0 or false.
#[repr(C)]
#[derive(Drop, Clone, Copy)]
pub struct AskedOut {
    /// What it asks for: a constant `ASKS_` of `codes`.
    pub kind: u32,
    /// Whether its session has the name that is meant.
    pub named: bool,
    /// Whether a period is given,
    pub timer: bool,
    /// and a size limit.
    pub by_size: bool,
    /// A moment, in nanoseconds since 1970.
    pub moment: u64,
    /// The number of a stream.
    pub stream: u64,
    /// The serial of an offer.
    pub serial: u64,
    /// The number of an archive.
    pub archive: u64,
    /// A period in nanoseconds.
    pub every: u64,
    /// A size limit in bytes.
    pub size: u64,
}

/// What asks for this without numbers.
fn plain_asked(kind: u32, named: bool) -> AskedOut
    ensures { result ≡ plain_asked kind named }
{
    AskedOut {
        kind,
        named,
        timer: false,
        by_size: false,
        moment: 0,
        stream: 0,
        serial: 0,
        archive: 0,
        every: 0,
        size: 0,
    }
}

/// What asks for this at a moment.
fn asked_at(kind: u32, named: bool, moment: u64) -> AskedOut
    ensures { result ≡ record (plain_asked kind named) { moment = moment } }
{
    AskedOut {
        kind,
        named,
        timer: false,
        by_size: false,
        moment,
        stream: 0,
        serial: 0,
        archive: 0,
        every: 0,
        size: 0,
    }
}

/// What a request asks for; `None` is a bad line. `name` is the session's that is meant.
pub fn asked_out(name: &[u8], asked: Option<Request<'_>>) -> AskedOut
    ensures { result ≡ asked_out name.now (option_map asked_by asked.entry) }
{
    let Some(request) = asked else {
        return plain_asked(ASKS_BADLY, false);
    };
    match request {
        Request::Status { session } => plain_asked(ASKS_STATUS, session.as_bytes() == name),
        Request::Archives { session } => plain_asked(ASKS_ARCHIVES, session.as_bytes() == name),
        Request::Stop { session } => plain_asked(ASKS_STOP, session.as_bytes() == name),
        Request::Clear { session } => plain_asked(ASKS_CLEAR, session.as_bytes() == name),
        Request::Start { session, moment } => {
            asked_at(ASKS_START, session.as_bytes() == name, moment)
        }
        Request::Rotate { session, moment } => {
            asked_at(ASKS_ROTATE, session.as_bytes() == name, moment)
        }
        Request::Snapshot { session, moment } => {
            asked_at(ASKS_SNAPSHOT, session.as_bytes() == name, moment)
        }
        Request::Release { session, archive } => AskedOut {
            kind: ASKS_RELEASE,
            named: session.as_bytes() == name,
            timer: false,
            by_size: false,
            moment: 0,
            stream: 0,
            serial: 0,
            archive,
            every: 0,
            size: 0,
        },
        Request::Fate {
            session,
            stream,
            serial,
        } => AskedOut {
            kind: ASKS_FATE,
            named: session.as_bytes() == name,
            timer: false,
            by_size: false,
            moment: 0,
            stream,
            serial,
            archive: 0,
            every: 0,
            size: 0,
        },
        Request::Schedule {
            session,
            every,
            size,
        } => AskedOut {
            kind: ASKS_SCHEDULE,
            named: session.as_bytes() == name,
            timer: every.is_some(),
            by_size: size.is_some(),
            moment: 0,
            stream: 0,
            serial: 0,
            archive: 0,
            every: every.unwrap_or(0),
            size: size.unwrap_or(0),
        },
        _ => plain_asked(ASKS_OTHER, false),
    }
}

/// What the words of a command ask for, with the program's name before them.
fn command_asked<'a>(
    alloc: Global,
    name: &[u8],
    words: &'a [&'a str],
) -> Result<AskedOut, AllocError>
    ensures { IfOk result (λ out. out ≡ asked_out name.now (asked_of (map (λ w. w.now) words.entry.now))) }
{
    let asked = parse(alloc, words)?;
    Ok(asked_out(name, asked))
}

/// What a line asks for, without its newline. `name` is the session's that is meant.
///
/// # Errors
///
/// Only if an allocation fails.
pub fn line_asked(alloc: Global, name: &[u8], line: &[u8]) -> Result<AskedOut, AllocError>
    ensures { IfOk result (λ out. out ≡ line_asked name.now line.now) }
{
    let Some(text) = text_of_line(line) else {
        return Ok(plain_asked(ASKS_BADLY, false));
    };
    if is_skipped_line(text) {
        return Ok(plain_asked(ASKS_NOTHING, false));
    }
    let mut words = Words::new(alloc);
    words.push("tracerd")?;
    push_words(&mut words, text)?;
    command_asked(alloc, name, words.as_slice())
}
