//! From the words of a line to what they ask for.

ghost use Rattle.std.specs.Prelude.{◌≡◌, ◌≤◌, IfOk, IfSome, map, option_and_then, option_map};
ghost use Rattle.clap.specs.Words.{app_of, subcommand_rows_of};
ghost use Rattle.tr_terms.specs.declared.limits.TheConstants.{LAST_MOMENT};
ghost use Rattle.tr_command.specs.Asked.{asked_by, moment_in, offset_in};
ghost use Rattle.tr_terms.specs.Offsets.{IsOffset};
ghost use Rattle.tr_command.specs.Language.{IsSimple, asked_of, entered_by, script_app};

use crate::Request;
use crate::command_lines::{command_of, joined};
use crate::commands::{read, request_of, row_named, rows};
use crate::ordinary::{Uses, Verdict, is_plain, verdict_on};
use crate::values::Values;
use clap::error::ErrorKind;
use clap::{ArgMatches, Command};
use std::alloc::{AllocError, Global};

/// What clap reads of the words by this command line. `None` if they are at fault.
///
/// # Errors
///
/// Only if an allocation fails.
pub fn matches_of<'a>(
    command: Command<'a>,
    words: &'a [&'a str],
) -> Result<Option<ArgMatches<'a>>, AllocError>
    requires { IsSimple (app_of command) }
    ensures { IfOk result (λ m. option_and_then subcommand_rows_of m
        ≡ entered_by (app_of command.entry) (map (λ w. w.now) words.entry.now)) }
{
    match command.try_get_matches_from(words) {
        Ok(matches) => Ok(Some(matches)),
        Err(error) if error.kind() == ErrorKind::OutOfMemory => Err(AllocError),
        Err(_) => Ok(None),
    }
}

/// The command line of a script's line.
fn script_command<'a>(alloc: Global) -> Result<Command<'a>, AllocError>
    ensures { IfOk result (λ c. app_of c ≡ script_app) }
{
    let mut program = Ok(Command::new(alloc, "tracerd"));
    'commands: for row in rows() {
        program = joined(program, command_of(alloc, row.name, row.arguments));
    }
    program
}

/// What the words ask for, as clap reads them. `None` is a bad line.
///
/// # Errors
///
/// Only if an allocation fails.
pub fn parse_by_clap<'a>(
    alloc: Global,
    words: &'a [&'a str],
) -> Result<Option<Request<'a>>, AllocError>
    ensures { IfOk result (λ r. option_map asked_by r ≡ asked_of (map (λ w. w.now) words.entry.now)) }
{
    let Some(matches) = matches_of(script_command(alloc)?, words)? else {
        return Ok(None);
    };
    match matches.subcommand() {
        Some((name, inner)) => Ok(request_of(name, &Values::Matches(inner))),
        None => Ok(None),
    }
}

/// The same without clap, if the line is ordinary, has a word too many or a place without a word, or begins with a word that is
/// neither a command nor an option. `None` is any other line.
fn ordinary<'a>(words: &'a [&'a str]) -> Option<Option<Request<'a>>>
    ensures { IfSome result (λ r. option_map asked_by r ≡ asked_of (map (λ w. w.now) words.entry.now)) }
{
    let [_, name, words @ ..] = words else {
        return None;
    };
    match row_named(name) {
        Some(row) => {
            let mut uses = Uses::new();
            match verdict_on(row.arguments, words, &mut uses)? {
                Verdict::Taken => Some(read(row.reader, &Values::Uses(uses.as_slice()))),
                Verdict::Refused => Some(None),
            }
        }
        None if is_plain(name) => Some(None),
        None => None,
    }
}

/// What the words ask for; the first one is the program's name. `None` is a bad line.
///
/// # Errors
///
/// Only if an allocation fails.
pub fn parse<'a>(alloc: Global, words: &'a [&'a str]) -> Result<Option<Request<'a>>, AllocError>
    ensures asked { IfOk result (λ r. option_map asked_by r ≡ asked_of (map (λ w. w.now) words.entry.now)) }
    ensures moment { IfOk result (λ r. IfSome r (λ request. moment_in (asked_by request) ≤ LAST_MOMENT)) }
    ensures offset { IfOk result (λ r. IfSome r (λ request. IsOffset (offset_in (asked_by request)))) }
{
    match ordinary(words) {
        Some(asked) => Ok(asked),
        None => parse_by_clap(alloc, words),
    }
}
