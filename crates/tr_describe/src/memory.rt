//! Texts in memory.

ghost use Rattle.std.specs.Prelude.{◌≡◌, [], Some, IfOk};
ghost use Rattle.std.specs.String.{string_bytes};
ghost use Rattle.tr_describe.specs.Kept.{put_by_text};

use crate::texts::Texts;
use std::alloc::{AllocError, Global};
use tr_record::Failed;

/// Keeps what is put, in order. It has room for so many texts, and then fails; it also fails if an allocation does.
#[derive(Drop)]
pub struct MemoryTexts {
    alloc: Global,
    put: Vec<(String, String)>,
    room: u64,
    failures: u64,
}

/// A path and a text, copied.
fn copied(alloc: Global, path: &str, text: &str) -> Result<(String, String), AllocError>
    ensures path { IfOk result (λ copy. string_bytes copy.0 ≡ path.now) }
    ensures text { IfOk result (λ copy. string_bytes copy.1 ≡ text.now) }
{
    let path = String::from_str(alloc, path)?;
    let text = String::from_str(alloc, text)?;
    Ok((path, text))
}

impl MemoryTexts {
    /// Nothing is put, and there is room for so many texts.
    pub fn new(alloc: Global, room: u64) -> Self
        ensures written { ⟦<MemoryTexts as Texts>⟧.written result ≡ Some [] }
        ensures failures { ⟦<MemoryTexts as Texts>⟧.failures result ≡ 0 }
    {
        MemoryTexts {
            alloc,
            put: Vec::new(alloc),
            room,
            failures: 0,
        }
    }

    /// What was put, in order: paths and texts.
    pub fn all(&self) -> &[(String, String)]
        ensures { ⟦<MemoryTexts as Texts>⟧.written self.now ≡ Some (put_by_text result.now) }
    {
        self.put.as_slice()
    }
}

impl Texts for MemoryTexts {
    ghost use Rattle.std.specs.Prelude.{Some};
    ghost use Rattle.tr_describe.specs.Kept.{put_by_text};

    ghost written = { λ s. Some (put_by_text s.put.items) };

    ghost failures = { λ s. s.failures };

    fn put(&mut self, path: &str, text: &str) -> Result<(), Failed> {
        if self.room == 0 {
            self.failures = self.failures.wrapping_add(1);
            return Err(Failed);
        }
        let Ok(copy) = copied(self.alloc, path, text) else {
            self.failures = self.failures.wrapping_add(1);
            return Err(Failed);
        };
        match self.put.push(copy) {
            Ok(()) => {
                self.room -= 1;
                Ok(())
            }
            Err(_) => {
                self.failures = self.failures.wrapping_add(1);
                Err(Failed)
            }
        }
    }
}
