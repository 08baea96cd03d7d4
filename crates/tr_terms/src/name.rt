//! Names of sessions and channels.

ghost use Rattle.std.specs.Prelude.{◌≡◌, ◌↔◌, IsSome, IsTrue, IfSome};
ghost use Rattle.std.specs.List.{list_all};
ghost use Rattle.tr_terms.specs.Names.{is_letter, is_name, is_of_name, is_plain};

use crate::limits::LONGEST_NAME;
use std::marker::Model;

/// A name of a session or a channel: 1 to 64 letters, digits and underscores, a letter first. As the name of a file or a
/// folder it leads to no other place. Contracts see its text.
#[derive(Drop, Debug)]
pub struct Name<'a> {
    text: &'a str,
}

impl<'a> Model for Name<'a> {
    ghost use Rattle.std.specs.Prelude.{ℕ, IsTrue, List};
    ghost use Rattle.tr_terms.specs.Names.{is_name};

    ghost Value = { List ℕ };

    ghost view = { λ n. n.text.now };

    ghost invariant = { λ n. IsTrue (is_name n.text.now) };
}

fn is_letter_byte(b: u8) -> bool
    ensures { result ≡ is_letter b }
{
    b.is_ascii_alphabetic()
}

fn has_name_bytes(bytes: &[u8]) -> bool
    ensures { result ≡ list_all is_of_name bytes.now }
{
    bytes
        .iter()
        .all(|b| b.is_ascii_alphanumeric() || *b == b'_')
}

/// Whether a text is a name.
fn is_valid_name(name: &str) -> bool
    ensures { result ≡ is_name name.now }
{
    match name.as_bytes() {
        [] => false,
        [first, rest @ ..] => {
            is_letter_byte(*first) && has_name_bytes(rest) && rest.len() < LONGEST_NAME
        }
    }
}

impl<'a> Name<'a> {
    /// The name with this text. None if the text is no name.
    pub fn new(text: &'a str) -> Option<Name<'a>>
        ensures succeeds { IsSome result ↔ IsTrue (is_name text.entry.now) }
        ensures value { IfSome result (λ n. n ≡ text.entry.now) }
    {
        if is_valid_name(text) {
            Some(Name { text })
        } else {
            None
        }
    }

    /// Its text. No byte of it is a slash or a dot.
    pub fn as_str(&self) -> &'a str
        ensures value { result.now ≡ self.now }
        ensures name { IsTrue (is_name self.now) }
        ensures plain { IsTrue (list_all is_plain self.now) }
    {
        self.text
    }
}
