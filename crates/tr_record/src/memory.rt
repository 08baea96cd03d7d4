//! A source and a sink over memory.

ghost use Rattle.std.specs.Prelude.{◌≡◌, ◌≤◌, ◌<◌, [], Some, IfOk, length, max, take};

use crate::bytes::{ByteSink, ByteSource, Failed};
use std::alloc::{Allocator, Global};

/// Gives the bytes of a slice, at most `piece` at a time, and never fails. A `piece` of 0 counts as 1.
#[derive(Drop)]
pub struct MemorySource<'a> {
    bytes: &'a [u8],
    at: usize,
    piece: usize,
    ghost within: { at ≤ length bytes.now },
}

impl<'a> MemorySource<'a> {
    ghost use Rattle.tr_record.specs.Pieces.{piece_given};

    /// A source of these bytes.
    pub fn new(bytes: &'a [u8], piece: usize) -> Self
        ensures given { ⟦<MemorySource<'a> as ByteSource>⟧.given result ≡ Some [] }
        ensures content { ⟦<MemorySource<'a> as ByteSource>⟧.content result ≡ Some bytes.entry.now }
        ensures piece { piece_given result ≡ piece }
    {
        MemorySource {
            bytes,
            at: 0,
            piece,
        }
    }
}

impl<'a> ByteSource for MemorySource<'a> {
    ghost use Rattle.std.specs.Prelude.{Ok, OnOk, OnErr};
    ghost use Rattle.tr_record.specs.Bytes.{and_then_bytes, once_more};
    ghost use Rattle.tr_record.specs.Pieces.{piece_given};

    ghost given = { λ s. Some (take s.at s.bytes.now) };

    ghost content = { λ s. Some s.bytes.now };

    ghost failures = { λ _. 0 };

    fn get(&mut self, b: &mut [u8]) -> Result<usize, Failed>
        requires { 0 < length b.old }
        ensures count { IfOk result (λ n. n ≤ length b.new) }
        ensures piece { IfOk result (λ n. n ≤ max (piece_given self.old) 1) }
        ensures kept { piece_given self.new ≡ piece_given self.old }
        ensures given { IfOk result
            (λ n. ⟦<MemorySource<'a> as ByteSource>⟧.given self.new
            ≡ and_then_bytes (⟦<MemorySource<'a> as ByteSource>⟧.given self.old) (take n b.new)) }
        ensures content { ⟦<MemorySource<'a> as ByteSource>⟧.content self.new
            ≡ ⟦<MemorySource<'a> as ByteSource>⟧.content self.old }
        ensures end { result ≡ Ok 0
            → ⟦<MemorySource<'a> as ByteSource>⟧.given self.new
            ≡ ⟦<MemorySource<'a> as ByteSource>⟧.content self.new }
        ensures ok { OnOk result
            (⟦<MemorySource<'a> as ByteSource>⟧.failures self.new
            ≡ ⟦<MemorySource<'a> as ByteSource>⟧.failures self.old) }
        ensures err { OnErr result
            (⟦<MemorySource<'a> as ByteSource>⟧.given self.new ≡ ⟦<MemorySource<'a> as ByteSource>⟧.given self.old) }
        ensures failed { OnErr result
            (⟦<MemorySource<'a> as ByteSource>⟧.failures self.new
            ≡ once_more (⟦<MemorySource<'a> as ByteSource>⟧.failures self.old)) }
    {
        let left = &self.bytes[self.at..];
        let count = left.len().min(b.len()).min(self.piece.max(1));
        b[..count].copy_from_slice(&left[..count]);
        self.at += count;
        Ok(count)
    }
}

/// Keeps the bytes, at most `piece` at a time. It fails if an allocation fails. A `piece` of 0 counts as 1.
#[derive(Drop)]
pub struct MemorySink<A: Allocator = Global> {
    bytes: Vec<u8, A>,
    piece: usize,
    failures: u64,
}

impl<A: Allocator> MemorySink<A> {
    ghost use Rattle.tr_record.specs.Pieces.{piece_taken};

    /// A sink that has taken nothing yet.
    pub fn new(alloc: A, piece: usize) -> Self
        ensures taken { ⟦<MemorySink<A> as ByteSink>⟧.taken result ≡ Some [] }
        ensures failures { ⟦<MemorySink<A> as ByteSink>⟧.failures result ≡ 0 }
        ensures piece { piece_taken result ≡ piece }
    {
        MemorySink {
            bytes: Vec::new(alloc),
            piece,
            failures: 0,
        }
    }

    /// The bytes that it took.
    pub fn into_bytes(self) -> Vec<u8, A>
        ensures { ⟦<MemorySink<A> as ByteSink>⟧.taken self ≡ Some result.items }
    {
        self.bytes
    }
}

impl<A: Allocator> ByteSink for MemorySink<A> {
    ghost use Rattle.std.specs.Prelude.{OnOk, OnErr};
    ghost use Rattle.tr_record.specs.Bytes.{and_then_bytes, once_more};
    ghost use Rattle.tr_record.specs.Pieces.{piece_taken};

    ghost taken = { λ s. Some s.bytes.items };

    ghost failures = { λ s. s.failures };

    fn put(&mut self, b: &[u8]) -> Result<usize, Failed>
        requires { 0 < length b.now }
        ensures some { IfOk result (λ n. 0 < n) }
        ensures count { IfOk result (λ n. n ≤ length b.now) }
        ensures piece { IfOk result (λ n. n ≤ max (piece_taken self.old) 1) }
        ensures kept { piece_taken self.new ≡ piece_taken self.old }
        ensures taken { IfOk result
            (λ n. ⟦<MemorySink<A> as ByteSink>⟧.taken self.new
            ≡ and_then_bytes (⟦<MemorySink<A> as ByteSink>⟧.taken self.old) (take n b.now)) }
        ensures ok { OnOk result
            (⟦<MemorySink<A> as ByteSink>⟧.failures self.new ≡ ⟦<MemorySink<A> as ByteSink>⟧.failures self.old) }
        ensures err { OnErr result
            (⟦<MemorySink<A> as ByteSink>⟧.taken self.new ≡ ⟦<MemorySink<A> as ByteSink>⟧.taken self.old) }
        ensures failed { OnErr result
            (⟦<MemorySink<A> as ByteSink>⟧.failures self.new
            ≡ once_more (⟦<MemorySink<A> as ByteSink>⟧.failures self.old)) }
    {
        let count = b.len().min(self.piece.max(1));
        match self.bytes.extend_from_slice(&b[..count]) {
            Ok(()) => Ok(count),
            Err(_) => {
                self.failures = self.failures.wrapping_add(1);
                Err(Failed)
            }
        }
    }
}
