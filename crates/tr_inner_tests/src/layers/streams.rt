//! Bytes that go through memory and std's streams, and streams that fail.

use super::assert_same;
use std::io::{self, Read, Write};
use std::process::Abort;
use tr_record::{
    ByteSink, ByteSource, Failed, MemorySink, MemorySource, ReaderSource, WriterSink, put_all,
};
use tr_testing::FailsAfter;

/// Copies all that a source gives to a sink, at most three bytes at a time.
fn copied<S: ByteSource, K: ByteSink>(source: &mut S, sink: &mut K) -> Result<(), Failed> {
    let mut buffer = [0; 3];
    for _ in 0..1_000 {
        let count = source.get(&mut buffer)?;
        if count == 0 {
            return Ok(());
        }
        put_all(sink, &buffer[..count])?;
    }
    Err(Failed)
}

#[test]
fn bytes_go_through_memory_in_pieces_of_any_size(rt: HostRuntime) {
    for (from, to) in &[(0, 0), (1, 1), (1, 7), (7, 1), (100, 100)] {
        let mut source = MemorySource::new(b"some bytes", *from);
        let mut sink = MemorySink::new(rt.alloc(), *to);
        let answer = copied(&mut source, &mut sink);
        let bytes = sink.into_bytes();
        let found = (*from, *to, answer, bytes.as_slice());
        assert_same(&rt, found, (*from, *to, Ok(()), b"some bytes"));
    }
}

/// The size of pieces, and how many of four bytes are given and taken at once then.
static PIECES: [(usize, usize); 4] = [(0, 1), (1, 1), (3, 3), (9, 4)];

#[test]
fn a_piece_has_the_size_that_was_asked(rt: HostRuntime) {
    for (piece, want) in &PIECES {
        let mut source = MemorySource::new(b"four", *piece);
        let mut sink = MemorySink::new(rt.alloc(), *piece);
        let found = (*piece, source.get(&mut [0; 5]), sink.put(b"four"));
        assert_same(&rt, found, (*piece, Ok(*want), Ok(*want)));
    }
}

#[test]
fn std_streams_go_through(rt: HostRuntime) {
    let mut source = ReaderSource::new(b"some bytes".as_slice());
    let mut bytes = Vec::new(rt.alloc());
    let mut sink = WriterSink::new(&mut bytes);
    let answers = (copied(&mut source, &mut sink), sink.flush());
    assert_same(&rt, answers, (Ok(()), Ok(())));
    drop(sink);
    assert_same(&rt, bytes.as_slice(), b"some bytes".as_slice());
}

/// What is put into a sink that fails after two bytes, what that answers, and what its flush answers then.
static PUTS: [(&[u8], Result<(), Failed>, Result<(), Failed>); 3] = [
    (b"a", Ok(()), Ok(())),
    (b"b", Ok(()), Err(Failed)),
    (b"c", Err(Failed), Err(Failed)),
];

#[test]
fn std_streams_that_fail_are_told(rt: HostRuntime) {
    let mut memory = MemorySink::new(rt.alloc(), 100);
    let mut source = ReaderSource::new(FailsAfter::new(2));
    assert_same(&rt, copied(&mut source, &mut memory), Err(Failed));
    assert_same(&rt, memory.into_bytes().as_slice(), b"xx".as_slice());
    let mut broken = WriterSink::new(FailsAfter::new(2));
    for (bytes, put, flushed) in &PUTS {
        let answers = (put_all(&mut broken, bytes), broken.flush());
        assert_same(&rt, (*bytes, answers), (*bytes, (*put, *flushed)));
    }
}

/// Is interrupted at its first call, and gives and takes all from then on. It counts how often it is flushed.
#[derive(Drop)]
struct Interrupted {
    is_new: bool,
    flushes: u8,
}

impl Interrupted {
    fn new() -> Interrupted {
        Interrupted {
            is_new: true,
            flushes: 0,
        }
    }

    fn begin(&mut self) -> io::Result<()> {
        if self.is_new {
            self.is_new = false;
            return Err(io::Error::from(io::ErrorKind::Interrupted));
        }
        Ok(())
    }
}

impl Read for Interrupted {
    fn read(&mut self, buf: &mut [u8]) -> io::Result<usize> {
        self.begin()?;
        Ok(buf.len())
    }
}

impl Write for Interrupted {
    fn write(&mut self, buf: &[u8]) -> io::Result<usize> {
        self.begin()?;
        Ok(buf.len())
    }

    fn flush(&mut self) -> io::Result<()> {
        self.flushes = self.flushes.wrapping_add(1);
        Ok(())
    }
}

#[test]
fn an_interrupted_call_is_a_failure_and_not_tried_again(rt: HostRuntime) {
    let mut source = ReaderSource::new(Interrupted::new());
    let mut writer = Interrupted::new();
    let mut sink = WriterSink::new(&mut writer);
    for want in &[Err(Failed), Ok(4)] {
        let answers = (source.get(&mut [0; 4]), sink.put(b"four"));
        assert_same(&rt, answers, (*want, *want));
    }
    // each flush reaches the writer
    let answers = (sink.flush(), sink.flush());
    assert_same(&rt, answers, (Ok(()), Ok(())));
    drop(sink);
    assert_same(&rt, writer.flushes, 2);
}
