//! Counting failures of a disk and of its files.

ghost use Rattle.std.specs.Prelude.{◌≡◌, option_map};
ghost use Rattle.tr_record.specs.Bytes.{once_more};

use tr_record::{ByteSink, Failed};

/// One more failure, if the count is known.
pub fn one_more(failures: Option<u64>) -> Option<u64>
    ensures { result ≡ option_map once_more failures }
{
    match failures {
        Some(count) => Some(count.wrapping_add(1)),
        None => None,
    }
}

/// An open file over a sink. It counts its failures on from those of its disk.
#[derive(Drop)]
pub struct CountingFile<K: ByteSink + Drop> {
    sink: K,
    failures: u64,
}

impl<K: ByteSink + Drop> CountingFile<K> {
    /// A file over this sink, after `failures` failures of its disk.
    pub(crate) fn new(sink: K, failures: u64) -> Self
        ensures taken { ⟦<CountingFile<K> as ByteSink>⟧.taken result ≡ K.taken sink }
        ensures failures { ⟦<CountingFile<K> as ByteSink>⟧.failures result ≡ failures }
    {
        CountingFile { sink, failures }
    }

    /// The failures of its disk and its own.
    pub(crate) fn failures(&self) -> u64
        ensures { result ≡ ⟦<CountingFile<K> as ByteSink>⟧.failures self.now }
    {
        self.failures
    }

    /// The sink, with what the file took.
    pub(crate) fn into_sink(self) -> K
        ensures { K.taken result ≡ ⟦<CountingFile<K> as ByteSink>⟧.taken self }
    {
        self.sink
    }
}

impl<K: ByteSink + Drop> ByteSink for CountingFile<K> {
    ghost taken = { λ s. K.taken s.sink };

    ghost failures = { λ s. s.failures };

    fn put(&mut self, b: &[u8]) -> Result<usize, Failed> {
        match self.sink.put(b) {
            Ok(count) => Ok(count),
            Err(failed) => {
                self.failures = self.failures.wrapping_add(1);
                Err(failed)
            }
        }
    }
}
