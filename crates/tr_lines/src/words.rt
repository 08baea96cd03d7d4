//! The words of a line.

ghost use Rattle.std.specs.Prelude.{◌≡◌, ◌++◌, ℕ, OnErr, OnOk, map, take};
ghost use Rattle.std.specs.Str.{IsUtf8};
ghost use Rattle.tr_lines.specs.Words.{is_skipped, part_words, words_of};

use smallvec::SmallVec;
use std::alloc::AllocError;

/// A list of words. Up to 16 take no memory of the allocator, and few lines have more.
pub type Words<'a> = SmallVec<&'a str, 16>;

/// Adds the text of these bytes to a list of words, if there are any bytes. They are a text already, so it isn't tested again.
fn push_part<'a>(words: &mut Words<'a>, part: &'a [u8]) -> Result<(), AllocError>
    requires { IsUtf8 part.now }
    ensures ok { OnOk result (map (λ w. w.now) words.new.items
        ≡ map (λ w. w.now) words.old.items ++ part_words part.entry.now) }
    ensures err { OnErr result (words.new ≡ words.old) }
{
    if part.is_empty() {
        return Ok(());
    }
    let word = unsafe { std::str::from_utf8_unchecked(part) };
    Ok(words.push(word)?)
}

/// Adds the words of a text to a list. Spaces separate them.
///
/// # Errors
///
/// An allocation failed. A prefix of the words is added then.
pub fn push_words<'a>(words: &mut Words<'a>, text: &'a str) -> Result<(), AllocError>
    ensures ok { OnOk result (map (λ w. w.now) words.new.items
        ≡ map (λ w. w.now) words.old.items ++ words_of text.entry.now) }
    ensures err { OnErr result
        ((count : ℕ) × (map (λ w. w.now) words.new.items ≡ map (λ w. w.now) words.old.items
        ++ take count (words_of text.entry.now))) }
{
    let bytes = text.as_bytes();
    let mut start = 0;
    'bytes: for at in 0..bytes.len() {
        if bytes[at] == b' ' {
            push_part(words, &bytes[start..at])?;
            start = at + 1;
        }
    }
    push_part(words, &bytes[start..])
}

/// Whether a line with this text is skipped: it has no word, or the first one begins a comment.
pub fn is_skipped_line(text: &str) -> bool
    ensures { result ≡ is_skipped (words_of text.now) }
{
    'bytes: for byte in text.as_bytes() {
        if *byte != b' ' {
            return *byte == b'#';
        }
    }
    true
}
