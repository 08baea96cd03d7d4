//! Runs in which the input, the output or the disk fails, or the script is too long, each with a folder for archives.

ghost use Rattle.std.specs.Prelude.{◌≡◌, OnOk, OnErr, option_map};
ghost use Rattle.tr_record.specs.Bytes.{once_more};

use super::{assert_same, no_folders};
use std::alloc::Global;
use std::sync::Wait;
use std::thread::Threads;
use std::time::Clock;
use tr_describe::MemoryTexts;
use tr_export::Disk;
use tr_load::NoProgress;
use tr_program::run;
use tr_record::{ByteSink, ByteSource, Failed, MemorySink, MemorySource};
use tr_testing::{Breaking, Filling};

/// A session with one stream and an archive without records: a folder and two files.
const SCRIPT: &[u8] = b"create s 00000000-0000-0000-0000-000000000001
channel s c 256 2 discard
thread s c
start s 0
rotate s 10
";

const ANSWER: &[u8] = b"created s
channel c
stream 0
started
archived 0 19700101T000000+0000-19700101T000000+0000-0
";

/// The same, with a refused line after it.
const REFUSED: &[u8] = b"create s 00000000-0000-0000-0000-000000000001
channel s c 256 2 discard
thread s c
start s 0
rotate s 10
nonsense
";

const REFUSED_ANSWER: &[u8] = b"created s
channel c
stream 0
started
archived 0 19700101T000000+0000-19700101T000000+0000-0
bad line
";

const FAULT: &[u8] = b"tracerd: read or write fault\n";

static WORDS: [&str; 3] = ["script", "--out", "d"];

/// A load of one thread and three records, and what is said of it.
static LOAD: [&str; 9] = [
    "load",
    "--threads",
    "1",
    "--records",
    "3",
    "--workers",
    "1",
    "--out",
    "d",
];

const REPORT: &[u8] =
    b"threads 1\noffered 3\ndiscarded 0\noverwritten 0\nin ring 0\nin chunks 3\nreconciled\n";

/// A file that takes all, and keeps nothing.
#[derive(Drop)]
struct Void {
    failures: u64,
}

impl ByteSink for Void {
    ghost use Rattle.std.specs.Prelude.{None};

    ghost taken = { λ _. None };

    ghost failures = { λ s. s.failures };

    fn put(&mut self, b: &[u8]) -> Result<usize, Failed> {
        Ok(b.len())
    }
}

/// Lets so many calls through, and fails at each later one.
#[derive(Drop)]
struct FailingDisk {
    left: usize,
    failures: Option<u64>,
}

impl FailingDisk {
    /// Counts one call, which fails if it is one too many.
    fn spend(&mut self) -> Result<(), Failed>
        ensures ok { OnOk result (self.new.failures ≡ self.old.failures) }
        ensures err { OnErr result (self.new.failures ≡ option_map once_more self.old.failures) }
    {
        if self.left == 0 {
            self.failures = match self.failures {
                Some(count) => Some(count.wrapping_add(1)),
                None => None,
            };
            return Err(Failed);
        }
        self.left -= 1;
        Ok(())
    }
}

impl Disk for FailingDisk {
    ghost use Rattle.std.specs.Prelude.{None};

    type File = Void;

    ghost made = { λ _. None };

    ghost failures = { λ s. s.failures };

    fn make_folder(&mut self, _path: &str) -> Result<(), Failed> {
        self.spend()
    }

    fn open_file(&mut self, _path: &str) -> Result<Void, Failed> {
        self.spend()?;
        let failures = self.failures.take().unwrap_or(0);
        Ok(Void { failures })
    }

    fn close_file(&mut self, file: Void) -> Result<(), Failed> {
        self.failures = Some(file.failures);
        self.spend()
    }

    fn give_up(&mut self, file: Void) {
        self.failures = Some(file.failures);
    }
}

/// What a run of these words came to: its status, how many of the disk's `calls` are left, and whether standard error got the
/// line of a read or write fault and nothing else.
fn ends<R: Threads + Wait + Clock + Sync, S: ByteSource, K: ByteSink>(
    rt: &R,
    alloc: Global,
    words: &[&str],
    input: &mut S,
    out: &mut K,
    calls: usize,
) -> (u8, usize, bool) {
    let mut err = MemorySink::new(alloc, 4096);
    let mut disk = FailingDisk {
        left: calls,
        failures: Some(0),
    };
    let mut folders = no_folders(alloc);
    let status = run(
        rt,
        alloc,
        words,
        input,
        out,
        &mut err,
        &mut disk,
        &mut folders,
        &mut MemoryTexts::new(alloc, 16),
        &NoProgress,
    );
    (status, disk.left, err.into_bytes().as_slice() == FAULT)
}

/// What a script with `--out d` came to if the input gives these bytes, then a line of `line` bytes, and then fails; and
/// whether this answer went out.
fn ends_broken<R: Threads + Wait + Clock + Sync>(
    rt: &R,
    alloc: Global,
    bytes: &[u8],
    line: usize,
    answer: &[u8],
) -> (u8, usize, bool, bool) {
    let mut input = Breaking {
        bytes,
        line,
        failures: 0,
    };
    let mut out = MemorySink::new(alloc, 4096);
    let (status, left, told) = ends(rt, alloc, &WORDS, &mut input, &mut out, 9);
    (status, left, told, out.into_bytes().as_slice() == answer)
}

/// The same if the disk lets `calls` calls through, and the script is given whole.
fn ends_on_disk<R: Threads + Wait + Clock + Sync>(
    rt: &R,
    alloc: Global,
    calls: usize,
    script: &[u8],
    answer: &[u8],
) -> (u8, usize, bool, bool) {
    let mut input = MemorySource::new(script, 4096);
    let mut out = MemorySink::new(alloc, 4096);
    let (status, left, told) = ends(rt, alloc, &WORDS, &mut input, &mut out, calls);
    (status, left, told, out.into_bytes().as_slice() == answer)
}

// all lines were whole, and one of them made an archive, but the disk isn't asked for anything
#[test]
fn after_a_source_that_failed_nothing_is_made(rt: HostRuntime) {
    let found = ends_broken(&rt, rt.alloc(), SCRIPT, 0, ANSWER);
    assert_same(&rt, found, (3, 9, true, true));
    let found = ends_broken(&rt, rt.alloc(), b"", 0, b"");
    assert_same(&rt, found, (3, 9, true, true));
}

// a script has at most 16,777,216 bytes; a refused line is among those before
#[test]
fn after_a_script_that_is_too_long_nothing_is_made(rt: HostRuntime) {
    let found = ends_broken(&rt, rt.alloc(), REFUSED, 16_777_216, REFUSED_ANSWER);
    assert_same(&rt, found, (3, 9, true, true));
}

#[test]
fn after_a_sink_that_failed_nothing_is_made(rt: HostRuntime) {
    for room in [0, 1, 10, ANSWER.len() - 1] {
        let mut input = MemorySource::new(SCRIPT, 4096);
        let mut out = Filling {
            taken: Vec::new(rt.alloc()),
            room,
            failures: 0,
        };
        let found = ends(&rt, rt.alloc(), &WORDS, &mut input, &mut out, 9);
        assert_same(&rt, (room, found), (room, (3, 9, true)));
        assert!(rt; Some(out.taken.as_slice()) == ANSWER.get(..room));
    }
}

// five calls: a folder, and the beginning and the end of two files
#[test]
fn a_disk_that_failed_is_told(rt: HostRuntime) {
    for calls in 0..5 {
        let found = ends_on_disk(&rt, rt.alloc(), calls, SCRIPT, ANSWER);
        assert_same(&rt, (calls, found), (calls, (3, 0, true, true)));
    }
    let found = ends_on_disk(&rt, rt.alloc(), 5, SCRIPT, ANSWER);
    assert_same(&rt, found, (0, 0, false, true));
}

// the status of a fault goes before that of a refused line
#[test]
fn a_fault_goes_before_a_refused_line(rt: HostRuntime) {
    let found = ends_broken(&rt, rt.alloc(), REFUSED, 0, REFUSED_ANSWER);
    assert_same(&rt, found, (3, 9, true, true));
    let found = ends_on_disk(&rt, rt.alloc(), 4, REFUSED, REFUSED_ANSWER);
    assert_same(&rt, found, (3, 0, true, true));
    let found = ends_on_disk(&rt, rt.alloc(), 5, REFUSED, REFUSED_ANSWER);
    assert_same(&rt, found, (1, 0, false, true));
}

// the disk isn't asked for anything
#[test]
fn after_a_load_that_cannot_be_told_nothing_is_made(rt: HostRuntime) {
    for room in [0, 10, REPORT.len() - 1] {
        let mut input = MemorySource::new(b"", 4096);
        let mut out = Filling {
            taken: Vec::new(rt.alloc()),
            room,
            failures: 0,
        };
        let found = ends(&rt, rt.alloc(), &LOAD, &mut input, &mut out, 9);
        assert_same(&rt, (room, found), (room, (3, 9, true)));
        assert!(rt; Some(out.taken.as_slice()) == REPORT.get(..room));
    }
}

// five calls here too; the report goes out before them
#[test]
fn a_disk_that_failed_a_load_is_told(rt: HostRuntime) {
    for (calls, expected) in [(0, (3, 0, true)), (4, (3, 0, true)), (5, (0, 0, false))] {
        let mut input = MemorySource::new(b"", 4096);
        let mut out = MemorySink::new(rt.alloc(), 4096);
        let found = ends(&rt, rt.alloc(), &LOAD, &mut input, &mut out, calls);
        assert_same(&rt, (calls, found), (calls, expected));
        assert!(rt; out.into_bytes().as_slice() == REPORT);
    }
}

// if standard error fails too, the status still says it
#[test]
fn a_fault_that_cannot_be_told_keeps_its_status(rt: HostRuntime) {
    let mut input = MemorySource::new(SCRIPT, 4096);
    let mut out = MemorySink::new(rt.alloc(), 4096);
    let mut err = Filling {
        taken: Vec::new(rt.alloc()),
        room: 7,
        failures: 0,
    };
    let mut disk = FailingDisk {
        left: 0,
        failures: Some(0),
    };
    let mut folders = no_folders(rt.alloc());
    let status = run(
        &rt,
        rt.alloc(),
        &WORDS,
        &mut input,
        &mut out,
        &mut err,
        &mut disk,
        &mut folders,
        &mut MemoryTexts::new(rt.alloc(), 16),
        &NoProgress,
    );
    assert_same(&rt, status, 3);
    assert!(rt; err.taken.as_slice() == b"tracerd".as_slice());
}
