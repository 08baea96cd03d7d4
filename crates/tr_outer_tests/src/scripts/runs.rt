//! Sources and sinks that fail, scripts of the greatest length, and how the faults print.

use super::{OPENED, OPENING, SIX_ANSWERS, SIX_OFFERS, assert_same, joined, run};
use std::alloc::Global;
use std::cell::Cell;
use std::process::Abort;
use tr_console::{ScriptFault, run_text};
use tr_record::{ByteSink, ByteSource, Failed, MemorySink, MemorySource};
use tr_testing::{Breaking, Filling};

/// Asserts the answer to the first bytes of a script, where the source fails after that.
fn assert_broken(rt: &impl Abort, alloc: Global, given: usize, answer: &[u8]) {
    let mut source = Breaking {
        bytes: OPENING.as_bytes().get(..given).expect(rt, "bytes"),
        line: 0,
        failures: 0,
    };
    let mut sink = MemorySink::new(alloc, 1);
    let found = run(alloc, alloc, &mut source, &mut sink);
    assert_same(rt, (given, found), (given, Err(ScriptFault::Read)));
    let text = sink.into_bytes();
    assert_same(
        rt,
        (given, text.as_slice(), source.failures),
        (given, answer, 1),
    );
}

#[test]
fn answers_whole_lines_before_the_source_fails(rt: HostRuntime) {
    assert_broken(&rt, rt.alloc(), 0, b"");
    assert_broken(&rt, rt.alloc(), 45, b"");
    assert_broken(&rt, rt.alloc(), 46, b"created s\n");
}

/// How many newlines there are.
fn newlines_in(bytes: &[u8]) -> usize {
    let mut count = 0usize;
    for byte in bytes {
        if *byte == b'\n' {
            count = count.wrapping_add(1);
        }
    }
    count
}

/// Gives a piece at each call, and sees whether all whole lines that it gave before are answered by then.
#[derive(Drop)]
struct InTurn<'a> {
    pieces: &'a [&'a str],
    given: usize,
    answered: &'a Cell<usize>,
    is_late: bool,
}

impl ByteSource for InTurn<'_> {
    ghost use Rattle.std.specs.Prelude.{None};

    ghost given = { λ _. None };

    ghost content = { λ _. None };

    ghost failures = { λ _. 0 };

    fn get(&mut self, b: &mut [u8]) -> Result<usize, Failed> {
        self.is_late |= self.answered.get() < self.given;
        let [piece, rest @ ..] = self.pieces else {
            return Ok(0);
        };
        let count = piece.len().min(b.len());
        b[..count].copy_from_slice(&piece.as_bytes()[..count]);
        self.pieces = rest;
        self.given = self.given.wrapping_add(newlines_in(&b[..count]));
        Ok(count)
    }
}

/// Takes `room` puts, each whole, and then fails. It counts the newlines that it takes.
#[derive(Drop)]
struct Counting<'a> {
    answered: &'a Cell<usize>,
    puts: usize,
    room: usize,
    failures: u64,
}

impl ByteSink for Counting<'_> {
    ghost use Rattle.std.specs.Prelude.{None};

    ghost taken = { λ _. None };

    ghost failures = { λ s. s.failures };

    fn put(&mut self, b: &[u8]) -> Result<usize, Failed> {
        if self.puts >= self.room {
            self.failures = self.failures.wrapping_add(1);
            return Err(Failed);
        }
        self.puts += 1;
        self.answered
            .set(self.answered.get().wrapping_add(newlines_in(b)));
        Ok(b.len())
    }
}

/// Four lines, in pieces of one line.
const LINES: [&str; 4] = [
    "create s 00000000-0000-0000-0000-000000000001\n",
    "stop s\n",
    "nonsense\n",
    "channel s c 256 2 discard\n",
];

/// The same lines, in other pieces.
const PIECES: [&str; 3] = [
    "create s 00000000-0000-0000-0000-000000000001\n",
    "stop s\nnonsense\nchan",
    "nel s c 256 2 discard\n",
];

/// What a run came to, how many whole lines were given by then, how many answers and in how many puts these went out, how
/// often the sink failed, and whether the source was asked for more before all of them were out.
type Conversation = (Result<u64, ScriptFault>, usize, usize, usize, u64, bool);

/// Runs the lines of these pieces, with a sink that takes so many puts.
fn converse(alloc: Global, pieces: &[&str], room: usize) -> Conversation {
    let answered = Cell::new(0);
    let mut source = InTurn {
        pieces,
        given: 0,
        answered: &answered,
        is_late: false,
    };
    let mut sink = Counting {
        answered: &answered,
        puts: 0,
        room,
        failures: 0,
    };
    let found = run(alloc, alloc, &mut source, &mut sink);
    (
        found,
        source.given,
        answered.get(),
        sink.puts,
        sink.failures,
        source.is_late,
    )
}

#[test]
fn answers_all_lines_before_it_asks_for_more(rt: HostRuntime) {
    let alloc = rt.alloc();
    assert_same(&rt, converse(alloc, &LINES, 9), (Ok(2), 4, 4, 4, 0, false));
    assert_same(&rt, converse(alloc, &PIECES, 9), (Ok(2), 4, 4, 3, 0, false));
}

#[test]
fn asks_for_nothing_after_a_write_that_fails(rt: HostRuntime) {
    let failed = Err(ScriptFault::Write);
    for room in 0..4 {
        let found = converse(rt.alloc(), &LINES, room);
        assert_same(&rt, found, (failed, room + 1, room, room, 1, false));
    }
}

/// Asserts in how many puts the answers to so many bad lines go out, which are read together.
fn assert_put(rt: &impl Abort, alloc: Global, lines: usize, puts: usize) {
    let mut script = Vec::new(alloc);
    for _ in 0..lines {
        script.extend_from_slice(b"\x80\n").expect(rt, "memory");
    }
    let answered = Cell::new(0);
    let mut source = MemorySource::new(&script, 65_536);
    let mut sink = Counting {
        answered: &answered,
        puts: 0,
        room: 9,
        failures: 0,
    };
    let found = run(alloc, alloc, &mut source, &mut sink);
    assert_same(rt, found, Ok(lines as u64));
    assert_same(rt, (answered.get(), sink.puts), (lines, puts));
}

// 65,536 bytes have room for 7,281 answers of nine
#[test]
fn puts_at_most_65536_bytes_of_answers_together(rt: HostRuntime) {
    assert_put(&rt, rt.alloc(), 7_281, 1);
    assert_put(&rt, rt.alloc(), 7_282, 2);
}

/// Asserts that a script, read in pieces of this size, breaks off where the sink has taken `room` bytes of its answer.
fn assert_filled(
    rt: &impl Abort,
    alloc: Global,
    piece: usize,
    (script, answer): (&[u8], &[u8]),
    room: usize,
) {
    let mut source = MemorySource::new(script, piece);
    let mut sink = Filling {
        taken: Vec::new(alloc),
        room,
        failures: 0,
    };
    let found = run(alloc, alloc, &mut source, &mut sink);
    assert_same(rt, (room, found), (room, Err(ScriptFault::Write)));
    assert_same(
        rt,
        (room, Some(sink.taken.as_slice()), sink.failures),
        (room, answer.get(..room), 1),
    );
}

#[test]
fn writes_a_front_part_before_the_sink_fails(rt: HostRuntime) {
    let script = joined(&rt, rt.alloc(), &[OPENING, SIX_OFFERS]);
    let text = joined(&rt, rt.alloc(), &[OPENED, SIX_ANSWERS]);
    for room in 0..text.len() {
        assert_filled(&rt, rt.alloc(), 1, (&script, &text), room);
    }
}

// the lines come together, or the second one in two pieces
#[test]
fn writes_a_front_part_of_gathered_answers(rt: HostRuntime) {
    let answers = (OPENING.as_bytes(), OPENED.as_bytes());
    for room in 0..OPENED.len() {
        assert_filled(&rt, rt.alloc(), 65_536, answers, room);
        assert_filled(&rt, rt.alloc(), 60, answers, room);
    }
}

/// Gives newlines, one or many at a time, and counts the calls.
#[derive(Drop)]
struct Feeds {
    left: usize,
    piece: usize,
    calls: u64,
}

impl ByteSource for Feeds {
    ghost use Rattle.std.specs.Prelude.{None};

    ghost given = { λ _. None };

    ghost content = { λ _. None };

    ghost failures = { λ _. 0 };

    fn get(&mut self, b: &mut [u8]) -> Result<usize, Failed> {
        let count = self.left.min(b.len()).min(self.piece);
        b[..count].fill(b'\n');
        self.left -= count;
        self.calls = self.calls.wrapping_add(1);
        Ok(count)
    }
}

/// Asserts what a script of `left` newlines comes to, and after how many calls of its source.
fn assert_fed(
    rt: &impl Abort,
    alloc: Global,
    (left, piece): (usize, usize),
    wanted: Result<u64, ScriptFault>,
    calls: Option<u64>,
) {
    let mut source = Feeds {
        left,
        piece,
        calls: 0,
    };
    let mut sink = MemorySink::new(alloc, 1);
    let found = run(alloc, alloc, &mut source, &mut sink);
    assert_same(rt, found, wanted);
    assert_same(rt, sink.into_bytes().is_empty(), true);
    if calls.is_some() {
        assert_same(rt, Some(source.calls), calls);
    }
}

#[test]
fn takes_a_script_of_16777216_line_feeds(rt: HostRuntime) {
    assert_fed(&rt, rt.alloc(), (16_777_216, 65_536), Ok(0), None);
}

#[test]
fn reads_one_byte_too_many_and_no_more(rt: HostRuntime) {
    let alloc = rt.alloc();
    let wanted = Err(ScriptFault::TooLong);
    assert_fed(&rt, alloc, (20_000_000, 1), wanted, Some(16_777_217));
    let script = vec![in alloc; b'\n'; 16_777_217].expect(&rt, "memory");
    let text = run_text(alloc, alloc, script.as_slice());
    assert_same(&rt, text.err(), Some(ScriptFault::TooLong));
}

/// Asserts what a fault prints, and its code and its name.
fn assert_printed(rt: &impl Abort, alloc: Global, fault: ScriptFault, text: &str) {
    let printed = format!(in alloc; "{fault}").expect(rt, "memory");
    assert_same(rt, printed.as_str(), text);
    let parts = format!(in alloc; "{} {}", fault.code(), fault.name()).expect(rt, "memory");
    assert_same(rt, parts.as_str(), text);
}

#[test]
fn prints_faults_of_runs(rt: HostRuntime) {
    for (fault, text) in [
        (ScriptFault::Read, "Q1 Read"),
        (ScriptFault::TooLong, "Q2 TooLong"),
        (ScriptFault::Write, "Q3 Write"),
        (ScriptFault::NoMemory, "Q4 NoMemory"),
    ] {
        assert_printed(&rt, rt.alloc(), fault, text);
    }
}
