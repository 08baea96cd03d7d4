//! Sources and sinks that fail.

use tr_record::{ByteSink, ByteSource, Failed};

/// Gives bytes one at a time, then a line of `line` bytes, and then fails.
#[derive(Drop)]
pub struct Breaking<'a> {
    /// The bytes that are left.
    pub bytes: &'a [u8],
    /// How long the line still is.
    pub line: usize,
    /// How often it failed.
    pub failures: u64,
}

impl ByteSource for Breaking<'_> {
    ghost use Rattle.std.specs.Prelude.{None};

    ghost given = { λ _. None };

    ghost content = { λ _. None };

    ghost failures = { λ s. s.failures };

    fn get(&mut self, b: &mut [u8]) -> Result<usize, Failed> {
        if let [first, rest @ ..] = self.bytes {
            b[0] = *first;
            self.bytes = rest;
            return Ok(1);
        }
        let count = self.line.min(b.len());
        if count == 0 {
            self.failures = self.failures.wrapping_add(1);
            return Err(Failed);
        }
        b[..count].fill(b'a');
        self.line -= count;
        Ok(count)
    }
}

/// Takes bytes one at a time while it has room, and then fails.
#[derive(Drop)]
pub struct Filling {
    /// The bytes that it took.
    pub taken: Vec<u8>,
    /// How many it has room for.
    pub room: usize,
    /// How often it failed.
    pub failures: u64,
}

impl ByteSink for Filling {
    ghost use Rattle.std.specs.Prelude.{None};

    ghost taken = { λ _. None };

    ghost failures = { λ s. s.failures };

    fn put(&mut self, b: &[u8]) -> Result<usize, Failed> {
        if self.taken.len() < self.room && self.taken.push(b[0]).is_ok() {
            return Ok(1);
        }
        self.failures = self.failures.wrapping_add(1);
        Err(Failed)
    }
}
