//! Runs of scripts, however these are cut, and what is left of them. More scripts, with their answers, are in `examples`.

mod lines;
mod runs;
mod sessions;
mod snapshots;

use crate::asserting::assert_same;
use std::alloc::{Allocator, Global};
use std::process::Abort;
use tr_console::{ScriptFault, run_script, run_text};
use tr_record::{ByteSink, ByteSource, MemorySink, MemorySource};

/// A session with one stream, started.
const OPENING: &str = "create s 00000000-0000-0000-0000-000000000001
channel s c 256 2 discard
thread s c
start s 0
";

const OPENED: &str = "created s
channel c
stream 0
started
";

/// Six offers, one of them discarded, a take and the status.
const SIX_OFFERS: &str = "offer s 0 1 7 --fill 50
offer s 0 2 7 --fill 50
offer s 0 3 7 --fill 50
offer s 0 4 7 --fill 50
offer s 0 5 7 --fill 50
offer s 0 6 7 --fill 4
consume s 0
status s
";

const SIX_ANSWERS: &str = "stored 0 in 0
stored 1 in 0
stored 2 in 1
stored 3 in 1
discarded 4
stored 5 in 1
taken 0 records 2 chunk 0
session s local active channels 1 streams 1 archives 0
stream     offered   discarded overwritten     in-ring   in-chunks
     0           6           1           0           3           2
";

/// The texts, one after another.
fn joined(rt: &impl Abort, alloc: Global, texts: &[&str]) -> Vec<u8> {
    let mut all = Vec::new(alloc);
    for text in texts {
        all.extend_from_slice(text.as_bytes()).expect(rt, "memory");
    }
    all
}

/// Runs a script. Gives how many of its lines are refused.
fn run<A: Allocator + Copy, S: ByteSource, K: ByteSink>(
    alloc: A,
    clap: Global,
    source: &mut S,
    sink: &mut K,
) -> Result<u64, ScriptFault> {
    match run_script(alloc, clap, source, sink) {
        Ok(done) => Ok(done.refused),
        Err(fault) => Err(fault),
    }
}

/// What a script is about, its parts, the parts of its answer, and how many of its lines are refused.
type Case = (
    &'static str,
    &'static [&'static str],
    &'static [&'static str],
    u64,
);

/// Asserts that a script, read and written in pieces of this size, has this answer and so many refused lines.
fn assert_in_pieces(
    rt: &impl Abort,
    alloc: Global,
    (about, piece): (&str, usize),
    script: &[u8],
    (answer, refused): (&[u8], u64),
) {
    let mut source = MemorySource::new(script, piece);
    let mut sink = MemorySink::new(alloc, piece);
    let found = run(alloc, alloc, &mut source, &mut sink);
    let text = sink.into_bytes();
    assert_same(
        rt,
        (about, piece, found, text.as_slice()),
        (about, piece, Ok(refused), answer),
    );
}

/// Asserts that a script has this answer and so many refused lines, whatever pieces it is read and written in.
fn assert_answered(
    rt: &impl Abort,
    alloc: Global,
    about: &str,
    script: &[u8],
    (answer, refused): (&[u8], u64),
) {
    for piece in [1, 7, 65_536] {
        assert_in_pieces(rt, alloc, (about, piece), script, (answer, refused));
    }
    let text = run_text(alloc, alloc, script).expect(rt, "a run");
    assert_same(rt, (about, text.as_slice()), (about, answer));
}

/// The same for scripts and answers of several parts.
fn assert_all(rt: &impl Abort, alloc: Global, cases: &[Case]) {
    for &(about, scripts, answers, refused) in cases {
        let script = joined(rt, alloc, scripts);
        let answer = joined(rt, alloc, answers);
        assert_answered(rt, alloc, about, &script, (&answer, refused));
    }
}
