//! The program's own command line.

use super::words_of;
use crate::asserting::assert_same;
use std::alloc::Global;
use std::process::Abort;
use std::test::*;
use tr_command::{Job, job_of};

/// A line, and what it asks for.
type Asks<'a> = (&'a str, Job<'a>);

/// A line, and the run of a script that it asks for.
macro_rules! script {
    ($line:expr, $events:expr, $out:expr $(,)?) => {
        (
            $line,
            Job::Script {
                events: $events,
                out: $out,
            },
        )
    };
}

static SCRIPTS: [Asks<'static>; 6] = [
    script!("script", None, None),
    script!("script --events e", Some("e"), None),
    script!("script --events=e", Some("e"), None),
    script!("script --out d", None, Some("d")),
    script!("script --events e --out d", Some("e"), Some("d")),
    script!("script --out d --events e", Some("e"), Some("d")),
];

/// Lines that ask for nothing: an option without its text, with an empty one, twice, by another name, or of another command.
static BAD: [&str; 10] = [
    "script --events",
    "script --events --",
    "script --events=",
    "script --events e --events e",
    "script --event e",
    "script --events e f",
    "script e",
    "--events e script",
    "load --threads 1 --records 1 --workers 1 --events e",
    "audit --events e d",
];

/// Asserts what a line asks for, if it asks for anything.
fn assert_job(rt: &impl Abort, alloc: Global, line: &str, wanted: Option<Job<'_>>) {
    let words = words_of(rt, alloc, line);
    let job = job_of(alloc, words.as_slice()).expect(rt, "memory");
    assert_same(rt, (line, job), (line, wanted));
}

#[test]
fn a_script_has_declared_events_if_a_file_is_named(rt: HostRuntime) {
    for (line, job) in &SCRIPTS {
        assert_job(&rt, rt.alloc(), line, Some(*job));
    }
    for line in &BAD {
        assert_job(&rt, rt.alloc(), line, None);
    }
}
