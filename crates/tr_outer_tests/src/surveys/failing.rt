//! Folders that fail, at each of their calls, and sinks that fail, at each byte.

ghost use Rattle.std.specs.Prelude.{◌≡◌};
ghost use Rattle.tr_folders.specs.Failures.{after_reading, read_failures};

use super::{WORKED, assert_same, worked};
use std::alloc::Global;
use std::process::Abort;
use tr_folders::{Folders, MemoryFolders, ReadFault};
use tr_record::{ByteSink, Failed, MemorySink};
use tr_survey::{SurveyFault, Surveyed, survey};

/// Folders that fail after `calls` calls.
#[derive(Drop)]
pub(crate) struct FailingFolders {
    folders: MemoryFolders,
    calls: u64,
    failures: u64,
}

impl FailingFolders {
    pub(crate) fn new(folders: MemoryFolders, calls: u64) -> Self {
        FailingFolders {
            folders,
            calls,
            failures: 0,
        }
    }

    /// How many calls are left.
    pub(crate) fn calls(&self) -> u64 {
        self.calls
    }

    pub(crate) fn failures(&self) -> u64 {
        self.failures
    }

    /// Counts a fault, if it is a failure.
    fn counted(&mut self, fault: ReadFault) -> ReadFault
        ensures fault { result ≡ fault }
        ensures folders { self.new.folders ≡ self.old.folders }
        ensures failures { self.new.failures ≡ read_failures fault self.old.failures }
    {
        match fault {
            ReadFault::TooMuch => self.failures = self.failures.wrapping_add(1),
            ReadFault::Unreadable | ReadFault::NoMemory => {}
        }
        fault
    }

    /// Counts one call, which fails if it is one too many.
    fn spend(&mut self) -> Result<(), ReadFault>
        ensures folders { self.new.folders ≡ self.old.folders }
        ensures failures { self.new.failures ≡ after_reading result self.old.failures }
    {
        if self.calls == 0 {
            return Err(self.counted(ReadFault::TooMuch));
        }
        self.calls -= 1;
        Ok(())
    }
}

impl Folders for FailingFolders {
    ghost use Rattle.std.specs.Prelude.{None};

    ghost tree = { λ _. None };

    ghost left = { λ _. None };

    ghost given = { λ s. ⟦<MemoryFolders as Folders>⟧.given s.folders };

    ghost failures = { λ s. s.failures };

    fn names_in(&mut self, alloc: Global, path: &str) -> Result<Option<Vec<String>>, ReadFault> {
        self.spend()?;
        match self.folders.names_in(alloc, path) {
            Ok(found) => Ok(found),
            Err(fault) => Err(self.counted(fault)),
        }
    }

    fn open(&mut self, path: &str) -> Result<bool, ReadFault> {
        self.spend()?;
        match self.folders.open(path) {
            Ok(is_file) => Ok(is_file),
            Err(fault) => Err(self.counted(fault)),
        }
    }

    fn read(&mut self, buffer: &mut [u8]) -> Result<usize, ReadFault> {
        self.spend()?;
        match self.folders.read(buffer) {
            Ok(count) => Ok(count),
            Err(fault) => Err(self.counted(fault)),
        }
    }
}

/// A sink that has room for `room` more bytes, and then fails.
#[derive(Drop)]
pub(crate) struct ShortSink {
    sink: MemorySink,
    room: usize,
    failures: u64,
}

impl ShortSink {
    pub(crate) fn new(alloc: Global, room: usize) -> Self {
        ShortSink {
            sink: MemorySink::new(alloc, 7),
            room,
            failures: 0,
        }
    }

    pub(crate) fn failures(&self) -> u64 {
        self.failures
    }

    /// The bytes that it took.
    pub(crate) fn into_bytes(self) -> Vec<u8> {
        self.sink.into_bytes()
    }
}

impl ByteSink for ShortSink {
    ghost use Rattle.std.specs.Prelude.{None};

    ghost taken = { λ _. None };

    ghost failures = { λ s. s.failures };

    fn put(&mut self, b: &[u8]) -> Result<usize, Failed> {
        let count = b.len().min(self.room);
        if count == 0 {
            self.failures = self.failures.wrapping_add(1);
            return Err(Failed);
        }
        let Ok(count) = self.sink.put(&b[..count]) else {
            self.failures = self.failures.wrapping_add(1);
            return Err(Failed);
        };
        self.room -= count;
        Ok(count)
    }
}

/// Asserts that what went out is a front of the worked example's text.
fn assert_front(rt: &impl Abort, out: &[u8]) {
    let is_front = WORKED.as_bytes().starts_with(out);
    assert_same(rt, is_front, true);
}

/// How many lines there are, and whether the last one is whole.
fn lines_of(out: &[u8]) -> (usize, bool) {
    let lines = out.iter().filter(|byte| **byte == b'\n').count();
    (lines, out.is_empty() || out.ends_with(b"\n"))
}

/// How many lines are known once the folders have answered so many calls: 14 for what is there and the metadata, three for the
/// events that these declare, and then for each file one to open it, one for its bytes if it has some, and one for its end.
fn lines_known(calls: u64) -> usize {
    match calls {
        0..=13 => 0,
        14..=18 => 1,
        19..=22 => 3,
        23..=26 => 4,
        27..=29 => 5,
        30..=32 => 6,
        _ => 8,
    }
}

/// Whichever call of the folders fails, the survey says so, and all lines that were known before it went out.
#[test]
fn failing_folders(rt: HostRuntime) {
    let alloc = rt.alloc();
    for calls in 0..100 {
        let folders = worked(&rt, alloc).kept(70_000);
        let mut folders = FailingFolders {
            folders,
            calls,
            failures: 0,
        };
        let mut sink = MemorySink::new(alloc, 7);
        let answer = survey(alloc, &mut folders, &mut sink, "d", false);
        let out = sink.into_bytes();
        assert_front(&rt, &out);
        assert_same(&rt, lines_of(&out), (lines_known(calls), true));
        if let Ok(said) = answer {
            assert_same(&rt, (said, folders.calls), (Surveyed::Faults(1), 0));
            return;
        }
        assert_same(
            &rt,
            (answer, folders.failures),
            (Err(SurveyFault::TooMuch), 1),
        );
    }
    panic!(&rt; "no end");
}

/// Whichever byte the sink refuses, the survey says so, and all bytes before it went out.
#[test]
fn failing_sinks(rt: HostRuntime) {
    let alloc = rt.alloc();
    for room in 0..WORKED.len() {
        let mut folders = worked(&rt, alloc).kept(70_000);
        let mut sink = ShortSink::new(alloc, room);
        let answer = survey(alloc, &mut folders, &mut sink, "d", false);
        assert_same(&rt, (answer, sink.failures()), (Err(SurveyFault::Write), 1));
        let out = sink.into_bytes();
        assert_same(&rt, out.len(), room);
        assert_front(&rt, &out);
    }
}
