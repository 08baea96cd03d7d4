//! Runs of a script.

use crate::turns::{Call, refuse_each_request};
use std::alloc::{Allocator, Global};
use std::process::Abort;
use tr_console::{ScriptFault, run_script};
use tr_record::{MemorySink, MemorySource};
use tr_testing::Rationed;

/// A line of a script with its answer.
type Line = (&'static str, &'static str);

/// A script, how many of its lines are refused, and how many have an answer that isn't empty.
#[derive(Clone, Copy)]
struct Script {
    lines: &'static [Line],
    refused: u64,
    answers: usize,
}

/// No line comes after the last one of a script, not even an empty one.
static SCRIPTS: [Script; 2] = [
    Script {
        lines: &[
            (
                "create s 00000000-0000-0000-0000-000000000001\n",
                "created s\n",
            ),
            ("channel s c 256 2 discard\n", "channel c\n"),
            ("thread s c\n", "stream 0\n"),
            ("thread s c\n", "stream 1\n"),
            ("start s 0\n", "started\n"),
            ("offer s 0 1 7 --fill 152\n", "stored 0 in 0\n"),
            ("offer s 0 2 7 --fill 152\n", "stored 1 in 1\n"),
            ("offer s 0 3 7 --fill 152\n", "discarded 2\n"),
            ("offer s 1 3 7 --text hello\n", "stored 0 in 0\n"),
            ("consume s 0\n", "taken 0 records 1 chunk 0\n"),
            ("# a comment\n", ""),
            (
                "status s\n",
                "session s local active channels 1 streams 2 archives 0
stream     offered   discarded overwritten     in-ring   in-chunks
     0           3           1           0           1           1
     1           1           0           0           1           0
",
            ),
            ("snapshot s 5\n", "refused S2 NotSnapshotMode\n"),
            (
                "rotate s 10\n",
                "archived 0 19700101T000000+0000-19700101T000000+0000-0\n",
            ),
            ("fate s 0 0\n", "in chunk 0 0\n"),
            ("schedule s --size 200\n", "schedule set\n"),
            ("offer s 1 11 7 --fill 152\n", "stored 1 in 1\n"),
            ("tick s 20\n", "idle\n"),
            ("rotate-begin s 30\n", "rotating 1\n"),
            ("rotate-next s\n", "cut 0 records 0\n"),
            ("rotate-next s\n", "cut 1 records 1\n"),
            ("rotate-next s\n", "all cut\n"),
            (
                "rotate-finish s\n",
                "archived 1 19700101T000000+0000-19700101T000000+0000-1\n",
            ),
            ("stop s\n", "stopped\n"),
            (
                "archives s",
                "0 19700101T000000+0000-19700101T000000+0000-0 packets 3 bytes 621
1 19700101T000000+0000-19700101T000000+0000-1 packets 1 bytes 256
",
            ),
        ],
        refused: 1,
        answers: 24,
    },
    Script {
        lines: &[
            (
                "create z 00000000-0000-0000-0000-000000000002 --snapshot\n",
                "created z\n",
            ),
            ("channel z c 256 2 overwrite\n", "channel c\n"),
            ("thread z c\n", "stream 0\n"),
            ("start z 0\n", "started\n"),
            ("offer z 0 1 7 --fill 152\n", "stored 0 in 0\n"),
            ("offer z 0 2 7 --fill 152\n", "stored 1 in 1\n"),
            (
                "snapshot z 10\n",
                "snapshot 10
stream 0 offered 2 packets 2 records 2
packet 0 records 1 first 0 last 0
packet 1 records 1 first 1 last 1
",
            ),
            ("rotate z 11", "refused S1 SnapshotMode\n"),
        ],
        refused: 1,
        answers: 8,
    },
];

/// A script with the commands that remove records and bytes.
static REMOVING: Script = Script {
    lines: &[
        (
            "create s 00000000-0000-0000-0000-000000000003\n",
            "created s\n",
        ),
        ("channel s c 256 2 discard\n", "channel c\n"),
        ("thread s c\n", "stream 0\n"),
        ("start s 0\n", "started\n"),
        ("offer s 0 1 7 --fill 152\n", "stored 0 in 0\n"),
        (
            "rotate s 10\n",
            "archived 0 19700101T000000+0000-19700101T000000+0000-0\n",
        ),
        ("offer s 0 11 7 --fill 152\n", "stored 1 in 1\n"),
        ("clear s\n", "cleared 1\n"),
        ("release s 0\n", "released 0\n"),
        (
            "archives s",
            "0 19700101T000000+0000-19700101T000000+0000-0 packets 1 bytes 256 released\n",
        ),
    ],
    refused: 0,
    answers: 10,
};

/// The answers of lines that take no memory. They are always the same, as a tick's `idle` is; but a tick asks for the sizes of
/// all streams.
static WITHOUT_MEMORY: [&str; 4] = ["started\n", "schedule set\n", "all cut\n", "stopped\n"];

/// What a run came to: how many lines it refused, or its fault; and how many answers went out, each whole and in order, those
/// that are empty not counted. None if anything else went out.
#[derive(Clone, Copy, Debug, PartialEq, Eq)]
struct Told {
    refused: Result<u64, ScriptFault>,
    answers: Option<usize>,
}

/// How many answers these bytes are, which are the first ones of a script, each whole.
fn answers_in(lines: &[Line], bytes: &[u8]) -> Option<usize> {
    let (mut left, mut count) = (bytes, 0usize);
    for (_, answer) in lines {
        match left.strip_prefix(answer.as_bytes()) {
            Some(rest) if !answer.is_empty() => {
                left = rest;
                count = count.wrapping_add(1);
            }
            Some(_) => {}
            None => break,
        }
    }
    if left.is_empty() { Some(count) } else { None }
}

/// Whether a line with this answer takes memory.
fn takes_memory(answer: &str) -> bool {
    for without in &WITHOUT_MEMORY {
        if *without == answer {
            return false;
        }
    }
    !answer.is_empty()
}

/// How many answers go out before the line of this number, from 0 on, among those that take memory. None if there are fewer.
fn answers_before(lines: &[Line], number: usize) -> Option<usize> {
    let (mut count, mut left) = (0usize, number);
    for (_, answer) in lines {
        if takes_memory(answer) {
            if left == 0 {
                return Some(count);
            }
            left = left.wrapping_sub(1);
        }
        count = count.wrapping_add(usize::from(!answer.is_empty()));
    }
    None
}

/// A run of a script.
#[derive(Clone, Copy)]
struct Run<'a> {
    /// What is never refused.
    plain: Global,
    script: Script,
    text: &'a [u8],
}

impl<'a, A: Allocator + Copy> Call<A> for Run<'a> {
    type Object = A;

    type Answer = Told;

    fn object(&self, _rt: &impl Abort, alloc: A) -> A {
        alloc
    }

    fn make(&self, _rt: &impl Abort, object: &mut A) -> Told {
        let mut source = MemorySource::new(self.text, 65_536);
        let mut sink = MemorySink::new(self.plain, 7);
        let refused = match run_script(*object, self.plain, &mut source, &mut sink) {
            Ok(done) => Ok(done.refused),
            Err(fault) => Err(fault),
        };
        Told {
            refused,
            answers: answers_in(self.script.lines, &sink.into_bytes()),
        }
    }

    fn granted(&self, _rt: &impl Abort) -> Told {
        Told {
            refused: Ok(self.script.refused),
            answers: Some(self.script.answers),
        }
    }

    /// A run ends before each line that takes memory.
    fn refusal(&self, number: usize) -> Option<Told> {
        let answers = answers_before(self.script.lines, number)?;
        Some(Told {
            refused: Err(ScriptFault::NoMemory),
            answers: Some(answers),
        })
    }

    fn assert_alike(&self, _rt: &impl Abort, _one: &A, _other: &A) {}
}

/// The text of a script.
fn text_of(rt: &impl Abort, alloc: Global, lines: &[Line]) -> Vec<u8> {
    let mut text = Vec::new(alloc);
    for (line, _) in lines {
        text.extend_from_slice(line.as_bytes()).expect(rt, "memory");
    }
    text
}

/// Runs a script with each of its requests refused in turn. How many these are.
fn refuse_script(rt: &impl Abort, plain: Global, script: Script) -> usize {
    let memory = Rationed::new(plain);
    let text = text_of(rt, plain, script.lines);
    let run = Run {
        plain,
        script,
        text: &text,
    };
    refuse_each_request(rt, &memory, &run)
}

#[test]
fn a_script_without_memory_ends_after_an_answer(rt: HostRuntime) {
    for script in &SCRIPTS {
        let refused = refuse_script(&rt, rt.alloc(), *script);
        assert!(rt; refused >= 2 * script.answers, "{refused}");
    }
}

#[test]
fn a_script_that_removes_without_memory_ends_after_an_answer(rt: HostRuntime) {
    let script = REMOVING;
    let refused = refuse_script(&rt, rt.alloc(), script);
    assert!(rt; refused >= 2 * script.answers, "{refused}");
}
