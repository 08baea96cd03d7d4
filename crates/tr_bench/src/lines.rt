//! The lines of a script, read and parsed as the console does it, but not carried out.

use crate::sums::mix;
use std::alloc::{AllocError, Global};
use tr_command::{Request, parse};
use tr_lines::{Found, LineReader, ReadFault, Words, is_skipped_line, push_words};
use tr_record::ByteSource;

/// How many lines were commands, how many were bad, and a sum over what the commands ask for.
#[derive(Clone, Copy, Debug)]
pub struct Parsed {
    pub commands: u64,
    pub bad: u64,
    pub sum: u64,
}

/// The sum with what a line asks for.
fn mix_request(sum: u64, request: Request<'_>) -> u64 {
    match request {
        Request::Offer {
            session,
            stream,
            moment,
            id,
            text,
            fill,
        } => {
            let lengths = mix(session.len() as u64, text.len() as u64);
            let numbers = mix(mix(stream, moment), mix(u64::from(id), u64::from(fill)));
            mix(mix(sum, lengths), numbers)
        }
        _ => mix(sum, 1),
    }
}

/// Parses a line. `None` is a bad one.
fn parse_line(alloc: Global, line: Option<&str>, parsed: &mut Parsed) -> Result<(), AllocError> {
    let Some(text) = line else {
        parsed.bad = parsed.bad.wrapping_add(1);
        return Ok(());
    };
    if is_skipped_line(text) {
        return Ok(());
    }
    let mut words = Words::new(alloc);
    words.push("tr_bench")?;
    push_words(&mut words, text)?;
    match parse(alloc, words.as_slice())? {
        Some(request) => {
            parsed.commands = parsed.commands.wrapping_add(1);
            parsed.sum = mix_request(parsed.sum, request);
        }
        None => parsed.bad = parsed.bad.wrapping_add(1),
    }
    Ok(())
}

/// Parses all lines of a script, one after another.
pub fn parse_all<S: ByteSource>(alloc: Global, source: &mut S) -> Result<Parsed, ReadFault> {
    let mut reader = LineReader::new(alloc)?;
    let mut parsed = Parsed {
        commands: 0,
        bad: 0,
        sum: 0,
    };
    for _ in 0..u64::MAX {
        let found = if reader.take_line()? {
            Found::Whole
        } else {
            reader.read_on(source)?
        };
        parse_line(alloc, reader.text(), &mut parsed)?;
        if found == Found::Last {
            break;
        }
    }
    Ok(parsed)
}
