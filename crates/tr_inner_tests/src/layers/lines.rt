//! Scripts with the lines that the rules give, cut in several ways.

use super::assert_same;
use std::alloc::Global;
use std::process::Abort;
use tr_lines::{Found, LineReader, ReadFault, Words, is_skipped_line, push_words};
use tr_record::{ByteSource, Failed, MemorySource};

/// What a call of a reader answers: what it found with its text, or why nothing.
type Answer<'a> = Result<(Found, Option<&'a str>), ReadFault>;

static SCRIPTS: [(&[u8], &[Answer<'static>]); 4] = [
    (
        b"",
        &[Ok((Found::Last, Some(""))), Ok((Found::Last, Some("")))],
    ),
    (
        b"\n",
        &[Ok((Found::Whole, Some(""))), Ok((Found::Last, Some("")))],
    ),
    (
        b"a b\nc",
        &[
            Ok((Found::Whole, Some("a b"))),
            Ok((Found::Last, Some("c"))),
        ],
    ),
    (
        b"a\r\n# \t\n ~\n\x7f\n\x1f\n\xc3\xa9",
        &[
            Ok((Found::Whole, None)),
            Ok((Found::Whole, None)),
            Ok((Found::Whole, Some(" ~"))),
            Ok((Found::Whole, None)),
            Ok((Found::Whole, None)),
            Ok((Found::Last, None)),
        ],
    ),
];

/// Reads the next line, or what follows the last newline.
fn read_line<S: ByteSource>(reader: &mut LineReader, source: &mut S) -> Result<Found, ReadFault> {
    if reader.take_line()? {
        return Ok(Found::Whole);
    }
    reader.read_on(source)
}

/// Asserts what the calls of a reader answer one after another, whose source gives pieces of this size.
fn assert_reads<S: ByteSource>(
    rt: &impl Abort,
    alloc: Global,
    source: &mut S,
    piece: usize,
    answers: &[Answer<'_>],
) {
    let mut reader = LineReader::new(alloc).expect(rt, "memory");
    for want in answers {
        let answer = match read_line(&mut reader, source) {
            Ok(found) => Ok((found, reader.text())),
            Err(fault) => Err(fault),
        };
        assert_same(rt, (piece, answer), (piece, *want));
    }
}

/// Asserts what is read of a script, in pieces of each of these sizes.
fn assert_script(
    rt: &impl Abort,
    alloc: Global,
    script: &[u8],
    pieces: &[usize],
    answers: &[Answer<'_>],
) {
    for piece in pieces {
        let mut source = MemorySource::new(script, *piece);
        assert_reads(rt, alloc, &mut source, *piece, answers);
    }
}

#[test]
fn reads_lines_in_any_pieces(rt: HostRuntime) {
    for (script, answers) in &SCRIPTS {
        assert_script(&rt, rt.alloc(), script, &[1, 2, 3, 65_536], answers);
    }
}

/// `count` times one byte.
fn bytes(rt: &impl Abort, alloc: Global, byte: u8, count: usize) -> Vec<u8> {
    vec![in alloc; byte; count].expect(rt, "memory")
}

/// Appends bytes.
fn append(rt: &impl Abort, script: &mut Vec<u8>, bytes: &[u8]) {
    script.extend_from_slice(bytes).expect(rt, "memory");
}

// a line of 4,096 letters, one of 4,097, and one of one
#[test]
fn takes_lines_of_4096_bytes(rt: HostRuntime) {
    let longest = bytes(&rt, rt.alloc(), b'a', 4096);
    let mut script = Vec::new(rt.alloc());
    append(&rt, &mut script, &longest);
    append(&rt, &mut script, b"\n");
    append(&rt, &mut script, &bytes(&rt, rt.alloc(), b'b', 4097));
    append(&rt, &mut script, b"\nc");
    let text = str::from_utf8(&longest).expect(&rt, "a text");
    let answers = [
        Ok((Found::Whole, Some(text))),
        Ok((Found::Whole, None)),
        Ok((Found::Last, Some("c"))),
    ];
    let pieces = [1, 4096, 65_536];
    assert_script(&rt, rt.alloc(), &script, &pieces, &answers);
}

static FOUND: [Answer<'static>; 1] = [Ok((Found::Last, None))];

static REFUSED: [Answer<'static>; 1] = [Err(ReadFault::TooLong)];

#[test]
fn takes_scripts_of_16777216_bytes(rt: HostRuntime) {
    let mut script = bytes(&rt, rt.alloc(), b'#', 16_777_216);
    assert_script(&rt, rt.alloc(), &script, &[65_536], &FOUND);
    append(&rt, &mut script, b"\n");
    assert_script(&rt, rt.alloc(), &script, &[65_535], &REFUSED);
}

/// Gives `a`, a newline and `c`, and fails when it is asked for the fourth time.
#[derive(Drop)]
struct Failing {
    asked: u64,
    failures: u64,
}

impl ByteSource for Failing {
    ghost use Rattle.std.specs.Prelude.{None};

    ghost given = { λ _. None };

    ghost content = { λ _. None };

    ghost failures = { λ s. s.failures };

    fn get(&mut self, b: &mut [u8]) -> Result<usize, Failed> {
        self.asked = self.asked.wrapping_add(1);
        let byte = match self.asked {
            1 => b'a',
            2 => b'\n',
            3 => b'c',
            _ => {
                self.failures = self.failures.wrapping_add(1);
                return Err(Failed);
            }
        };
        b[0] = byte;
        Ok(1)
    }
}

static BROKEN_OFF: [Answer<'static>; 3] = [
    Ok((Found::Whole, Some("a"))),
    Err(ReadFault::Read),
    Err(ReadFault::Read),
];

#[test]
fn breaks_off_where_the_source_fails(rt: HostRuntime) {
    let mut source = Failing {
        asked: 0,
        failures: 0,
    };
    assert_reads(&rt, rt.alloc(), &mut source, 1, &BROKEN_OFF);
    assert_same(&rt, source.failures, 2);
}

/// Lines, and whether they are skipped.
static SKIPPED: [(&str, bool); 7] = [
    ("", true),
    ("   ", true),
    ("# s", true),
    ("  #create", true),
    ("s#", false),
    ("  create  s # ", false),
    ("\t#", false),
];

#[test]
fn skips_comments_and_lines_without_words(rt: HostRuntime) {
    for &(line, want) in &SKIPPED {
        assert_same(&rt, (line, is_skipped_line(line)), (line, want));
    }
}

/// Asserts that the words of these lines, one line after the other, are these.
fn assert_words(rt: &impl Abort, alloc: Global, lines: &[&str], expected: &[&str]) {
    let mut words = Words::new(alloc);
    for line in lines {
        push_words(&mut words, line).expect(rt, "memory");
    }
    assert_same(rt, words.as_slice(), expected);
}

// more than 16 words need memory
#[test]
fn splits_words(rt: HostRuntime) {
    assert_words(&rt, rt.alloc(), &["", "   "], &[]);
    let few = ["create", "s", "#", "x"];
    assert_words(&rt, rt.alloc(), &["  create  s # ", "x"], &few);
    let many = [
        "a", "b", "c", "d", "e", "f", "g", "h", "i", "j", "k", "l", "m", "n", "o", "p", "q", "r",
    ];
    assert_words(
        &rt,
        rt.alloc(),
        &["a b c d e f g h i", "j k l m n o p q r"],
        &many,
    );
}
