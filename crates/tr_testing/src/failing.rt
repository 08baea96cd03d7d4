//! A stream that fails.

use std::io::{self, Read, Write};

/// Gives or takes one byte at a time, N in all, and fails after that. Its flush fails after that too.
#[derive(Drop)]
pub struct FailsAfter(u64);

impl FailsAfter {
    /// One that gives or takes `count` bytes.
    pub fn new(count: u64) -> FailsAfter {
        FailsAfter(count)
    }
}

impl Read for FailsAfter {
    fn read(&mut self, buf: &mut [u8]) -> io::Result<usize> {
        if self.0 == 0 || buf.is_empty() {
            return Err(io::Error::from(io::ErrorKind::TimedOut));
        }
        self.0 -= 1;
        buf[0] = b'x';
        Ok(1)
    }
}

impl Write for FailsAfter {
    fn write(&mut self, buf: &[u8]) -> io::Result<usize> {
        if self.0 == 0 || buf.is_empty() {
            return Err(io::Error::from(io::ErrorKind::TimedOut));
        }
        self.0 -= 1;
        Ok(1)
    }

    fn flush(&mut self) -> io::Result<()> {
        if self.0 == 0 {
            return Err(io::Error::from(io::ErrorKind::TimedOut));
        }
        Ok(())
    }
}
