//! A line as it comes in parts, and one that is there as a whole.

ghost use Rattle.std.specs.Prelude.{◌≡◌, Some, [], OnOk, OnErr, option_map};
ghost use Rattle.std.specs.List.{list_all};
ghost use Rattle.tr_lines.specs.Lines.{is_printable, keep_more, text_of_line};

use std::alloc::{AllocError, Allocator, Global};
use std::marker::Model;
use tr_terms::limits::LONGEST_LINE;

/// Whether all bytes are printable. It goes on after one that isn't, so that many bytes are compared at once.
pub fn has_only_printable(part: &[u8]) -> bool
    ensures { result ≡ list_all is_printable part.now }
{
    let mut is_printable = true;
    'bytes: for byte in part {
        is_printable = is_printable & (*byte >= 0x20) & (*byte <= 0x7e);
    }
    is_printable
}

/// The text of a line, if it isn't too long and all of its bytes are printable.
#[tactic(auto, using(crate::proofs::LineLemmas::printable_is_text))]
pub fn text_of_line(line: &[u8]) -> Option<&str>
    ensures { option_map (λ t. t.now) result ≡ text_of_line line.now }
{
    if line.len() > LONGEST_LINE || !has_only_printable(line) {
        return None;
    }
    let Ok(text) = str::from_utf8(line) else {
        return None;
    };
    Some(text)
}

/// The text of a line, as far as it came. Nothing more is kept of a bad line. Contracts see the text, or none for a bad
/// line.
#[derive(Drop)]
pub struct Line<A: Allocator = Global> {
    text: Vec<u8, A>,
    is_bad: bool,
}

impl<A: Allocator> Model for Line<A> {
    ghost use Rattle.std.specs.Prelude.{◌≡◌, ◌≤◌, ℕ, List, Option, None, Some, true, vec_len, if◌then◌else◌};
    ghost use Rattle.std.specs.List.{list_all};
    ghost use Rattle.tr_lines.specs.Lines.{is_printable};
    ghost use Rattle.tr_terms.specs.declared.limits.TheConstants.{LONGEST_LINE};

    ghost Value = { Option (List ℕ) };

    ghost view = { λ l. if l.is_bad then None else Some l.text.items };

    ghost invariant = { λ l. (list_all is_printable l.text.items ≡ true) × (vec_len l.text ≤ LONGEST_LINE) };
}

impl<A: Allocator> Line<A> {
    /// An empty line.
    pub fn new(alloc: A) -> Self
        ensures { result ≡ Some [] }
    {
        Line {
            text: Vec::new(alloc),
            is_bad: false,
        }
    }

    /// Starts a line anew.
    pub fn clear(&mut self)
        ensures { self.new ≡ Some [] }
    {
        self.text.clear();
        self.is_bad = false;
    }

    /// Adds a part. If an allocation fails, the line is as it was.
    pub fn keep(&mut self, part: &[u8]) -> Result<(), AllocError>
        ensures ok { OnOk result (self.new ≡ keep_more self.old part.now) }
        ensures err { OnErr result (self.new ≡ self.old) }
    {
        if self.is_bad {
            return Ok(());
        }
        if part.len() > LONGEST_LINE - self.text.len() || !has_only_printable(part) {
            self.is_bad = true;
            return Ok(());
        }
        self.text.extend_from_slice(part)
    }

    /// The text, if the line is good.
    pub fn text(&self) -> Option<&str>
        ensures { option_map (λ t. t.now) result ≡ self.now }
    {
        if self.is_bad {
            return None;
        }
        Some(unsafe { std::str::from_utf8_unchecked(self.text.as_slice()) })
    }
}
