//! What `bench/run` measures of the daemon's own crates: parsing alone, offers to one stream, alone and under its lock,
//! reading packets again, rotations, and what released archives leave.
//!
//! `tr_bench parse` reads and parses the lines of a script from standard input, and carries none of them out.
//! `tr_bench offers CASE ROUNDS` makes 100,000 offers to a new stream, ROUNDS times.
//! `tr_bench shared CASE ROUNDS` makes the same offers to the stream of a new shared session, and settles it, ROUNDS times.
//! No packet is taken there, so CASE isn't `taken`.
//! `tr_bench judged JUDGE ROUNDS` makes offers that are all stored, each after declared events have judged it.
//! `tr_bench threads CASE THREADS WATCHERS ROUNDS` makes them to each of THREADS streams, each in a thread of its own, of a
//! session with WATCHERS watchers, which don't read.
//! `tr_bench decode ROUNDS`, `tr_bench audit ROUNDS` and `tr_bench feed ROUNDS` read packets from standard input, and then
//! decode or audit them ROUNDS times, the last in feeds of 64 KiB.
//! `tr_bench fill LENGTH ROUNDS` fills the rings of a new session with records with payloads of LENGTH bytes, ROUNDS times;
//! `tr_bench rotate LENGTH ROUNDS` rotates each of these sessions too, and also prints how long the quickest rotation took.
//! `tr_bench release LENGTH ROUNDS` rotates a session of one stream ROUNDS times, each time with one record with a payload of
//! LENGTH bytes, and releases each archive; `tr_bench keep LENGTH ROUNDS` does the same and releases none.
//! All print what they counted and, except for `fill`, `release` and `keep`, a sum over all answers that they got.
#![tactic(auto)]

mod cases;
mod judged;
mod lines;
mod offers;
mod packets;
mod releases;
mod rotations;
mod shared;
mod sums;

use cases::Case;
use judged::Judge;
use offers::Total;
use packets::Given;
use std::alloc::Global;
use std::fmt::Debug;
use std::process::ExitCode;
use std::sync::Wait;
use std::thread::Threads;
use std::time::CpuClock;
use std::{env, io};
use tr_command::number;
use tr_record::ReaderSource;
use tr_terms::limits::MOST_STREAMS;

/// Prints why the rounds stopped.
fn stopped(rt: &impl Print, fault: impl Debug + Drop) -> io::Result<ExitCode> {
    println!(rt; "stopped {fault:?}")?;
    Ok(ExitCode::FAILURE)
}

fn parse(rt: &impl Print, alloc: Global, input: impl io::Read + Drop) -> io::Result<ExitCode> {
    match lines::parse_all(alloc, &mut ReaderSource::new(input)) {
        Ok(parsed) => {
            println!(rt;
                "commands {} bad {} sum {}",
                parsed.commands, parsed.bad, parsed.sum
            )?;
            Ok(ExitCode::SUCCESS)
        }
        Err(fault) => stopped(rt, fault),
    }
}

/// Prints what was offered.
fn report<F: Debug + Drop>(rt: &impl Print, offered: Result<Total, F>) -> io::Result<ExitCode> {
    match offered {
        Ok(t) => {
            println!(rt;
                "offered {} discarded {} overwritten {} in {} consumed {} sum {}",
                t.offered, t.discarded, t.overwritten, t.overwritten_packets, t.consumed, t.sum
            )?;
            Ok(ExitCode::SUCCESS)
        }
        Err(fault) => stopped(rt, fault),
    }
}

fn offer(
    rt: &(impl Print + Wait),
    alloc: Global,
    what: &str,
    case: &Case,
    rounds: u64,
) -> io::Result<ExitCode> {
    match what {
        "offers" => report(rt, offers::all_rounds(alloc, case, rounds)),
        _ if case.takes => Ok(ExitCode::from(2)),
        _ => report(rt, shared::all_rounds(rt, alloc, case, rounds)),
    }
}

/// Makes offers that are all stored, after what this word names has judged them.
fn judge(rt: &impl Print, alloc: Global, word: &str, rounds: u64) -> io::Result<ExitCode> {
    let (Some(judge), Some(case)) = (Judge::named(word), Case::named("stored")) else {
        return Ok(ExitCode::from(2));
    };
    report(rt, judged::all_rounds(alloc, judge, &case, rounds))
}

/// All bytes of a reader.
fn bytes_of(alloc: Global, mut input: impl io::Read + Drop) -> io::Result<Vec<u8>> {
    let mut bytes = Vec::new(alloc);
    input.read_to_end(&mut bytes)?;
    Ok(bytes)
}

fn decode(rt: &impl Print, bytes: &[u8], rounds: u64) -> io::Result<ExitCode> {
    match packets::decode_rounds(bytes, rounds) {
        Ok(t) => {
            println!(rt; "packets {} records {} sum {}", t.packets, t.records, t.sum)?;
            Ok(ExitCode::SUCCESS)
        }
        Err(fault) => stopped(rt, fault),
    }
}

fn audit(
    rt: &impl Print,
    alloc: Global,
    bytes: &[u8],
    given: Given,
    rounds: u64,
) -> io::Result<ExitCode> {
    match packets::audit_rounds(alloc, bytes, given, rounds) {
        Ok(t) => {
            println!(rt;
                "packets {} records {} gaps {} absent {} sum {}",
                t.packets, t.records, t.gaps, t.absent, t.sum
            )?;
            Ok(ExitCode::SUCCESS)
        }
        Err(fault) => stopped(rt, fault),
    }
}

fn rotate(
    rt: &(impl Print + CpuClock),
    alloc: Global,
    length: u64,
    rounds: u64,
) -> io::Result<ExitCode> {
    let payload = vec![in alloc; 0x61; length as usize]?;
    match rotations::rotate_rounds(rt, alloc, &payload, rounds) {
        Ok((t, quickest)) => {
            println!(rt;
                "packets {} records {} bytes {} sum {}",
                t.packets, t.records, t.bytes, t.sum
            )?;
            println!(rt; "quickest {quickest}")?;
            Ok(ExitCode::SUCCESS)
        }
        Err(fault) => stopped(rt, fault),
    }
}

fn fill(rt: &impl Print, alloc: Global, length: u64, rounds: u64) -> io::Result<ExitCode> {
    let payload = vec![in alloc; 0x61; length as usize]?;
    match rotations::fill_rounds(alloc, &payload, rounds) {
        Ok(records) => {
            println!(rt; "records {records}")?;
            Ok(ExitCode::SUCCESS)
        }
        Err(fault) => stopped(rt, fault),
    }
}

fn archive(
    rt: &impl Print,
    alloc: Global,
    length: u64,
    rounds: u64,
    keeps: bool,
) -> io::Result<ExitCode> {
    let payload = vec![in alloc; 0x61; length as usize]?;
    match releases::rounds(alloc, &payload, rounds, keeps) {
        Ok(t) => {
            println!(rt;
                "archives {} packets {} records {} bytes {} released {}",
                t.archives, t.packets, t.records, t.bytes, t.released
            )?;
            Ok(ExitCode::SUCCESS)
        }
        Err(fault) => stopped(rt, fault),
    }
}

/// Reads packets from the input, and reads them again in `rounds` rounds.
fn read(
    rt: &impl Print,
    alloc: Global,
    input: impl io::Read + Drop,
    what: &str,
    rounds: u64,
) -> io::Result<ExitCode> {
    let bytes = bytes_of(alloc, input)?;
    match what {
        "decode" => decode(rt, &bytes, rounds),
        "audit" => audit(rt, alloc, &bytes, Given::Whole, rounds),
        _ => audit(rt, alloc, &bytes, Given::InFeeds, rounds),
    }
}

/// The most watchers.
const MOST_WATCHERS: u64 = 64;

/// The most rounds.
const MOST_ROUNDS: u64 = 1_000_000;

/// Does what two words ask for, which is to read packets from the input.
fn run_two(
    rt: &impl Print,
    alloc: Global,
    input: impl io::Read + Drop,
    (what, rounds): (&str, &str),
) -> io::Result<ExitCode> {
    match (what, number(rounds, MOST_ROUNDS)) {
        ("decode" | "audit" | "feed", Some(rounds)) => read(rt, alloc, input, what, rounds),
        _ => Ok(ExitCode::from(2)),
    }
}

/// Does what three words ask for, which is to make offers, to fill rings or to rotate.
fn run_three(
    rt: &(impl Print + Wait + CpuClock),
    alloc: Global,
    (what, detail, rounds): (&str, &str, &str),
) -> io::Result<ExitCode> {
    let Some(rounds) = number(rounds, MOST_ROUNDS) else {
        return Ok(ExitCode::from(2));
    };
    if what == "judged" {
        return judge(rt, alloc, detail, rounds);
    }
    match (what, Case::named(detail), number(detail, 4_000)) {
        ("offers" | "shared", Some(case), _) => offer(rt, alloc, what, &case, rounds),
        ("fill", _, Some(length)) => fill(rt, alloc, length, rounds),
        ("rotate", _, Some(length)) => rotate(rt, alloc, length, rounds),
        ("keep" | "release", _, Some(length)) => {
            archive(rt, alloc, length, rounds, what == "keep")
        }
        _ => Ok(ExitCode::from(2)),
    }
}

/// Makes offers in threads.
fn run_threads(
    rt: &(impl Print + Threads + Wait + Sync),
    alloc: Global,
    case: &str,
    (threads, watchers, rounds): (&str, &str, &str),
) -> io::Result<ExitCode> {
    let given = (
        Case::named(case),
        number(threads, MOST_STREAMS as u64),
        number(watchers, MOST_WATCHERS),
        number(rounds, MOST_ROUNDS),
    );
    let (Some(case), Some(threads), Some(watchers), Some(rounds)) = given else {
        return Ok(ExitCode::from(2));
    };
    if case.takes {
        return Ok(ExitCode::from(2));
    }
    let done = shared::all_rounds_of_threads(rt, alloc, &case, threads, watchers as usize, rounds);
    report(rt, done)
}

/// Does what the words after the program's name ask for.
fn run(
    rt: &(impl Print + Threads + Wait + CpuClock + Sync),
    alloc: Global,
    input: impl io::Read + Drop,
    words: &[&str],
) -> io::Result<ExitCode> {
    match words {
        ["parse"] => parse(rt, alloc, input),
        [what, rounds] => run_two(rt, alloc, input, (what, rounds)),
        [what, detail, rounds] => run_three(rt, alloc, (what, detail, rounds)),
        ["threads", case, threads, watchers, rounds] => {
            run_threads(rt, alloc, case, (threads, watchers, rounds))
        }
        _ => Ok(ExitCode::from(2)),
    }
}

fn main(rt: HostRuntime) -> io::Result<ExitCode> {
    let alloc: Global = rt.alloc();
    let mut given = Vec::new(alloc);
    for word in env::args(&rt)? {
        given.push(word)?;
    }
    let mut words = Vec::new(alloc);
    for word in given.iter().skip(1) {
        words.push(word.as_str())?;
    }
    run(&rt, alloc, rt.reader(), &words)
}
