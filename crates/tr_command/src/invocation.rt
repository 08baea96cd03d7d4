//! The program's own command line: what its words ask for.

ghost use Rattle.std.specs.Prelude.{◌≡◌, ◌≤◌, ◌∷◌, IfOk, IfSome, codes, false, map, option_map, string_bytes};
ghost use Rattle.std.specs.Vec.Iter.{into_iter_items};
ghost use Rattle.clap.specs.Words.{app_of, first_of};
ghost use Rattle.tr_command.specs.Ordinary.{rows_in};
ghost use Rattle.tr_command.specs.Invocation.{IsWithinLimits, audit_given, count_given, describe_given, folder_given, folder_named, job_named, job_of, load_given, picture_given, program_app, reading_app, recording_app, recover_given, script_given, task_of, words_of};

use crate::arguments::Argument::{self, Flag, Named, Placed};
use crate::command_lines::{command_of, joined};
use crate::parsing::matches_of;
use crate::values::{Values, has_flag, number_given, text_given};
use clap::Command;
use std::alloc::{AllocError, Global};
use std::env::Args;
use tr_terms::limits::{MOST_FEEDERS, MOST_RECORDS, MOST_WORKERS};

/// What the program is asked to do.
#[derive(Clone, Copy, Debug, PartialEq, Eq)]
pub enum Job<'a> {
    /// Runs the script from standard input, with the events that a file declares, if one is named, and then writes its archives
    /// below a folder, if one is named.
    Script {
        /// The file that declares events, if one is named.
        events: Option<&'a str>,
        /// The folder for the archives, if one is named.
        out: Option<&'a str>,
    },
    /// Runs a load, says what it came to, and then writes its archives below a folder, if one is named.
    Load {
        /// How many feeders there are, each in a thread of its own: 1 to `MOST_FEEDERS`.
        threads: u64,
        /// How many records each of them offers: at most `MOST_RECORDS`.
        records: u64,
        /// How many workers drain them meanwhile: 1 to `MOST_WORKERS`.
        workers: u64,
        /// Whether a watcher reads how many records are offered, and says so.
        watch: bool,
        /// The folder for the archives, if one is named.
        out: Option<&'a str>,
    },
    /// Audits the archives of the sessions below a folder.
    Audit {
        /// The folder.
        dir: &'a str,
        /// Whether each archive gets a line of its own.
        archives: bool,
    },
    /// Gives the archives of the sessions below a folder the metadata of declared events.
    Describe {
        /// The file that declares them.
        events: &'a str,
        /// The folder.
        dir: &'a str,
    },
    /// Draws what the archives of the sessions below a folder hold and lack.
    Picture {
        /// The folder.
        dir: &'a str,
    },
    /// Finds the packets of a trace in an image, and writes their archive below a folder.
    Recover {
        /// The identifier of the trace as a text, whatever that is, if one is named.
        uuid: Option<&'a str>,
        /// The file that is an image.
        image: &'a str,
        /// The folder.
        dir: &'a str,
    },
}

/// `script [--events FILE] [--out DIR]`.
static SCRIPT: [Argument; 2] = [Named("events"), Named("out")];

/// `load --threads T --records R --workers W [--watch] [--out DIR]`.
static LOAD: [Argument; 5] = [
    Named("threads"),
    Named("records"),
    Named("workers"),
    Flag("watch"),
    Named("out"),
];

/// `audit [--archives] DIR`.
static AUDIT: [Argument; 2] = [Flag("archives"), Placed("dir")];

/// `describe --events FILE DIR`.
static DESCRIBE: [Argument; 2] = [Named("events"), Placed("dir")];

/// `picture DIR`.
static PICTURE: [Argument; 1] = [Placed("dir")];

/// `recover [--uuid UUID] IMAGE DIR`.
static RECOVER: [Argument; 3] = [Named("uuid"), Placed("image"), Placed("dir")];

/// The commands that record: `tracerd script ..` and `tracerd load ..`.
fn recording_line<'a>(alloc: Global) -> Result<Command<'a>, AllocError>
    ensures { IfOk result (λ c. app_of c ≡ recording_app) }
{
    let command = joined(
        Ok(Command::new(alloc, "tracerd")),
        command_of(alloc, "script", &SCRIPT),
    );
    joined(command, command_of(alloc, "load", &LOAD))
}

/// These, and those that read what was recorded: `tracerd audit ..` and `tracerd describe ..`.
fn reading_line<'a>(alloc: Global) -> Result<Command<'a>, AllocError>
    ensures { IfOk result (λ c. app_of c ≡ reading_app) }
{
    let command = joined(recording_line(alloc), command_of(alloc, "audit", &AUDIT));
    joined(command, command_of(alloc, "describe", &DESCRIBE))
}

/// The whole command line: these, `tracerd picture ..` and `tracerd recover ..`.
fn command_line<'a>(alloc: Global) -> Result<Command<'a>, AllocError>
    ensures { IfOk result (λ c. app_of c ≡ program_app) }
{
    let command = joined(reading_line(alloc), command_of(alloc, "picture", &PICTURE));
    joined(command, command_of(alloc, "recover", &RECOVER))
}

/// The arguments as a list.
pub fn collected(alloc: Global, given: Args) -> Result<Vec<String>, AllocError>
    ensures { IfOk result (λ all. all.items ≡ into_iter_items given) }
{
    let mut left = given;
    let mut all = Vec::new(alloc);
    'arguments: while let Some(word) = left.next() {
        all.push(word)?;
    }
    Ok(all)
}

/// The texts of these strings.
fn texts_of<'a>(alloc: Global, strings: &'a [String]) -> Result<Vec<&'a str>, AllocError>
    ensures { IfOk result (λ texts. map (λ t. t.now) texts.items ≡ map string_bytes strings.now) }
{
    let mut texts = Vec::with_capacity(alloc, strings.len())?;
    'strings: for string in strings {
        texts.push(string.as_str())?;
    }
    Ok(texts)
}

/// The words after the program's name, which comes first.
pub fn words_after<'a>(alloc: Global, given: &'a [String]) -> Result<Vec<&'a str>, AllocError>
    ensures { IfOk result (λ words. map (λ w. w.now) words.items ≡ words_of given.now) }
{
    match given {
        [_, words @ ..] => texts_of(alloc, words),
        [] => Ok(Vec::new(alloc)),
    }
}

/// The program's name, and then these words.
pub fn with_program<'a>(alloc: Global, words: &[&'a str]) -> Result<Vec<&'a str>, AllocError>
    ensures { IfOk result (λ all. map (λ w. w.now) all.items ≡ codes "tracerd" ∷ map (λ w. w.now) words.now) }
{
    let mut all = Vec::new(alloc);
    all.push("tracerd")?;
    all.extend_from_slice(words)?;
    Ok(all)
}

/// What the words ask for, the program's name first. None if they are no command line of this program; that includes help,
/// a folder or a file with an empty name, and a load with a number that is missing, not a number, or not within its limits.
pub fn job_of<'a>(alloc: Global, words: &'a [&'a str]) -> Result<Option<Job<'a>>, AllocError>
    ensures value { IfOk result (λ job. option_map task_of job ≡ job_of (map (λ w. w.now) words.entry.now)) }
    ensures within { IfOk result (λ job. IfSome job IsWithinLimits) }
{
    let Some(matches) = matches_of(command_line(alloc)?, words)? else {
        return Ok(None);
    };
    match matches.subcommand() {
        Some((name, inner)) => Ok(job_named(name, &Values::Matches(inner))),
        None => Ok(None),
    }
}

/// What the command of this name asks for, if there is one.
fn job_named<'a>(name: &str, values: &Values<'_, 'a>) -> Option<Job<'a>>
    ensures value { option_map task_of result ≡ job_named name.now (rows_in values.now) }
    ensures within { IfSome result IsWithinLimits }
{
    match name {
        "script" => script_given(values),
        "load" => load_given(values),
        "audit" => audit_given(values),
        "describe" => describe_given(values),
        "picture" => picture_given(values),
        "recover" => recover_given(values),
        _ => None,
    }
}

/// A run of a script, with declared events, if a file is named, and its archives below a folder, if one is named. None if either
/// has an empty name.
fn script_given<'a>(values: &Values<'_, 'a>) -> Option<Job<'a>>
    ensures value { option_map task_of result ≡ script_given (rows_in values.now) }
    ensures within { IfSome result IsWithinLimits }
{
    let events = folder_given(values, "events")?;
    let out = folder_given(values, "out")?;
    Some(Job::Script { events, out })
}

/// A load of these numbers, watched if that is asked for, with its archives below a folder, if one is named.
fn load_given<'a>(values: &Values<'_, 'a>) -> Option<Job<'a>>
    ensures value { option_map task_of result ≡ load_given (rows_in values.now) }
    ensures within { IfSome result IsWithinLimits }
{
    let threads = count_given(values, "threads", 1, MOST_FEEDERS as u64)?;
    let records = count_given(values, "records", 0, MOST_RECORDS)?;
    let workers = count_given(values, "workers", 1, MOST_WORKERS as u64)?;
    let watch = has_flag(values, "watch");
    let out = folder_given(values, "out")?;
    Some(Job::Load {
        threads,
        records,
        workers,
        watch,
        out,
    })
}

/// An audit of a folder, archive by archive if that is asked for. None if the folder's name is empty.
fn audit_given<'a>(values: &Values<'_, 'a>) -> Option<Job<'a>>
    ensures value { option_map task_of result ≡ audit_given (rows_in values.now) }
    ensures within { IfSome result IsWithinLimits }
{
    let dir = folder_given(values, "dir")??;
    let archives = has_flag(values, "archives");
    Some(Job::Audit { dir, archives })
}

/// The file of declared events, and the folder whose archives get their metadata. None if either has an empty name.
fn describe_given<'a>(values: &Values<'_, 'a>) -> Option<Job<'a>>
    ensures value { option_map task_of result ≡ describe_given (rows_in values.now) }
    ensures within { IfSome result IsWithinLimits }
{
    let events = folder_given(values, "events")??;
    let dir = folder_given(values, "dir")??;
    Some(Job::Describe { events, dir })
}

/// The folder of which a picture is drawn. None if its name is empty.
fn picture_given<'a>(values: &Values<'_, 'a>) -> Option<Job<'a>>
    ensures value { option_map task_of result ≡ picture_given (rows_in values.now) }
    ensures within { IfSome result IsWithinLimits }
{
    let dir = folder_given(values, "dir")??;
    Some(Job::Picture { dir })
}

/// The image, the folder for the archive, and the trace's identifier, if one is named. None if one of them is empty.
fn recover_given<'a>(values: &Values<'_, 'a>) -> Option<Job<'a>>
    ensures value { option_map task_of result ≡ recover_given (rows_in values.now) }
    ensures within { IfSome result IsWithinLimits }
{
    let uuid = folder_given(values, "uuid")?;
    let image = folder_given(values, "image")??;
    let dir = folder_given(values, "dir")??;
    Some(Job::Recover { uuid, image, dir })
}

/// The number of an option, if one is given and lies within these limits.
fn count_given(values: &Values<'_, '_>, id: &str, least: u64, most: u64) -> Option<u64>
    ensures value { result ≡ count_given id.now least most (rows_in values.now) }
    ensures within { IfSome result (λ n. (least ≤ n) × (n ≤ most)) }
{
    match number_given(values, id, most) {
        Some(n) if n >= least => Some(n),
        _ => None,
    }
}

/// The folder or the file that is named, if one is; none if its name is empty.
fn folder_given<'a>(values: &Values<'_, 'a>, id: &str) -> Option<Option<&'a str>>
    ensures { option_map folder_named result ≡ folder_given (first_of id.now (rows_in values.now)) }
{
    match text_given(values, id) {
        Some("") => None,
        dir => Some(dir),
    }
}
