//! Where a text goes that nobody reads.

use tr_record::{ByteSink, Failed};

/// Takes all bytes, keeps none, and never fails.
#[derive(Drop)]
pub(crate) struct Nowhere;

impl ByteSink for Nowhere {
    ghost use Rattle.std.specs.Prelude.{None};

    ghost taken = { λ _. None };

    ghost failures = { λ _. 0 };

    fn put(&mut self, b: &[u8]) -> Result<usize, Failed> {
        Ok(b.len())
    }
}
