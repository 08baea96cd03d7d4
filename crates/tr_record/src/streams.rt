//! A reader of std as a source, and a writer as a sink. `given`, `content` and `taken` say nothing of them; the clauses of
//! their calls say what they did to the reader and to the writer.

ghost use Rattle.std.specs.Prelude.{◌≡◌, ◌≤◌, ◌<◌, None, IfOk, OnOk, OnErr, length};
ghost use Rattle.std.specs.Io.KnownBytes.{Keeps, ReadConsumes, WriteAppends};
ghost use Rattle.tr_record.specs.Bytes.{once_more};
ghost use Rattle.tr_record.specs.Streams.{reader_of, writer_of};

use crate::bytes::{ByteSink, ByteSource, Failed};
use std::io::{Read, Write};

/// A source that reads from a reader.
#[derive(Drop)]
pub struct ReaderSource<R: Read + Drop> {
    reader: R,
    failures: u64,
}

impl<R: Read + Drop> ReaderSource<R> {
    /// A source of what the reader reads.
    pub fn new(reader: R) -> Self
        ensures reader { reader_of result ≡ reader }
        ensures failures { ⟦<ReaderSource<R> as ByteSource>⟧.failures result ≡ 0 }
    {
        ReaderSource {
            reader,
            failures: 0,
        }
    }
}

impl<R: Read + Drop> ByteSource for ReaderSource<R> {
    ghost given = { λ _. None };

    ghost content = { λ _. None };

    ghost failures = { λ s. s.failures };

    // What is given was read; a failure read nothing.
    fn get(&mut self, b: &mut [u8]) -> Result<usize, Failed>
        ensures count { IfOk result (λ n. n ≤ length b.new) }
        ensures read { ReadConsumes (R.remaining (reader_of self.old)) (R.remaining (reader_of self.new)) result
            b.new }
        ensures ok { OnOk result
            (⟦<ReaderSource<R> as ByteSource>⟧.failures self.new
            ≡ ⟦<ReaderSource<R> as ByteSource>⟧.failures self.old) }
        ensures failed { OnErr result
            (⟦<ReaderSource<R> as ByteSource>⟧.failures self.new
            ≡ once_more (⟦<ReaderSource<R> as ByteSource>⟧.failures self.old)) }
    {
        match self.reader.read(b) {
            Ok(count) => Ok(count),
            Err(_) => {
                self.failures = self.failures.wrapping_add(1);
                Err(Failed)
            }
        }
    }
}

/// A sink that writes to a writer. A write of nothing is a failure.
#[derive(Drop)]
pub struct WriterSink<W: Write + Drop> {
    writer: W,
    failures: u64,
}

impl<W: Write + Drop> WriterSink<W> {
    /// A sink that writes to the writer.
    pub fn new(writer: W) -> Self
        ensures writer { writer_of result ≡ writer }
        ensures failures { ⟦<WriterSink<W> as ByteSink>⟧.failures result ≡ 0 }
    {
        WriterSink {
            writer,
            failures: 0,
        }
    }

    /// Flushes the writer, which may hold bytes back.
    ///
    /// # Errors
    ///
    /// `Failed` if the writer fails, which is counted.
    pub fn flush(&mut self) -> Result<(), Failed>
        ensures ok { OnOk result
            (⟦<WriterSink<W> as ByteSink>⟧.failures self.new ≡ ⟦<WriterSink<W> as ByteSink>⟧.failures self.old) }
        ensures failed { OnErr result
            (⟦<WriterSink<W> as ByteSink>⟧.failures self.new
            ≡ once_more (⟦<WriterSink<W> as ByteSink>⟧.failures self.old)) }
        ensures kept { Keeps (W.contents (writer_of self.old)) (W.contents (writer_of self.new)) }
    {
        match self.writer.flush() {
            Ok(()) => Ok(()),
            Err(_) => {
                self.failures = self.failures.wrapping_add(1);
                Err(Failed)
            }
        }
    }
}

impl<W: Write + Drop> ByteSink for WriterSink<W> {
    ghost taken = { λ _. None };

    ghost failures = { λ s. s.failures };

    // What is taken was written; a failure wrote nothing.
    fn put(&mut self, b: &[u8]) -> Result<usize, Failed>
        ensures some { IfOk result (λ n. 0 < n) }
        ensures count { IfOk result (λ n. n ≤ length b.now) }
        ensures written { WriteAppends (W.contents (writer_of self.old)) (W.contents (writer_of self.new)) result
            b.now }
        ensures ok { OnOk result
            (⟦<WriterSink<W> as ByteSink>⟧.failures self.new ≡ ⟦<WriterSink<W> as ByteSink>⟧.failures self.old) }
        ensures failed { OnErr result
            (⟦<WriterSink<W> as ByteSink>⟧.failures self.new
            ≡ once_more (⟦<WriterSink<W> as ByteSink>⟧.failures self.old)) }
    {
        match self.writer.write(b) {
            Ok(count) if count > 0 => Ok(count),
            _ => {
                self.failures = self.failures.wrapping_add(1);
                Err(Failed)
            }
        }
    }
}
