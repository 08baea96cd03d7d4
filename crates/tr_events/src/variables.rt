//! Variables of a trace's environment: what a program says of itself.

ghost use Rattle.std.specs.Prelude.{◌≡◌, IfOk};
ghost use Rattle.std.specs.List.{list_all, list_any};
ghost use Rattle.std.specs.Str.{bytes_eq};
ghost use Rattle.std.specs.String.{string_bytes};
ghost use Rattle.tr_events.specs.Variables.{begins_with, ends_comment, is_number, is_of_number, is_of_text, is_told_as_number, is_unquoted, is_value, is_variable_name, may_be, reserved, variable};

use crate::numbers::integer_in;
use std::alloc::{AllocError, Allocator, Global};
use std::marker::Model;
use tr_terms::Name;

/// The most variables that a session declares.
pub const MOST_VARIABLES: usize = 32;

/// The bytes of the longest value of a variable.
pub const LONGEST_VALUE: usize = 255;

/// Whether a name is a word of the language of metadata.
fn is_reserved(name: &str) -> bool
    ensures { result ≡ list_any (bytes_eq name.now) reserved }
{
    match name {
        "align"
        | "callsite"
        | "char"
        | "clock"
        | "const"
        | "double"
        | "enum"
        | "env"
        | "event"
        | "float"
        | "floating_point"
        | "int"
        | "integer"
        | "long"
        | "short"
        | "signed"
        | "stream"
        | "string"
        | "struct"
        | "trace"
        | "typealias"
        | "typedef"
        | "unsigned"
        | "variant"
        | "void" => true,
        _ => false,
    }
}

/// Whether a variable may have this name.
pub(crate) fn is_variable_name(name: &str) -> bool
    ensures { result ≡ is_variable_name name.now }
{
    Name::new(name).is_some() && !is_reserved(name)
}

/// Whether readers take only a text of a variable.
fn is_of_text(name: &str) -> bool
    ensures { result ≡ is_of_text name.now }
{
    name == "hostname" || name == "procname" || name == "domain"
}

/// Whether a value is a whole number that readers show as it is.
fn is_number(value: &str) -> bool
    ensures { result ≡ is_number value.now }
{
    integer_in(value.as_bytes()).is_some()
}

/// Whether no byte ends a quoted text.
fn are_unquoted(bytes: &[u8]) -> bool
    ensures { result ≡ list_all is_unquoted bytes.now }
{
    bytes.iter().all(|b| !(*b == b'"' || *b == b'\\'))
}

/// Whether the first of the bytes is this one.
fn begins_with(byte: u8, bytes: &[u8]) -> bool
    ensures { result ≡ begins_with byte bytes.now }
{
    match bytes {
        [] => false,
        [first, ..] => *first == byte,
    }
}

/// Whether a comment would end in these bytes.
fn ends_comment(bytes: &[u8]) -> bool
    ensures { result ≡ ends_comment bytes.now }
{
    let mut rest = bytes;
    while let [first, others @ ..] = rest {
        if *first == b'*' && begins_with(b'/', others) {
            return true;
        }
        rest = others;
    }
    false
}

/// Whether a text can stand between quotes, and in a comment.
fn is_value(value: &str) -> bool
    ensures { result ≡ is_value value.now }
{
    let bytes = value.as_bytes();
    bytes.len() > 0 && bytes.len() <= LONGEST_VALUE && are_unquoted(bytes) && !ends_comment(bytes)
}

/// Whether a variable of this name may have this value.
pub(crate) fn may_be(name: &str, value: &str) -> bool
    ensures { result ≡ may_be name.now value.now }
{
    is_value(value) && (name != "vpid" || is_number(value))
}

/// A variable of the environment. Contracts see it as a `Variable`.
#[derive(Drop, Debug)]
pub struct Variable<A: Allocator = Global> {
    text: String<A>,
    value: String<A>,
}

impl<A: Allocator> Model for Variable<A> {
    ghost use Rattle.std.specs.String.{string_bytes};
    ghost use Rattle.tr_events.specs.Variables.{Variable, variable};

    ghost Value = { Variable };

    ghost view = { λ v. variable (string_bytes v.text) (string_bytes v.value) };
}

impl<A: Allocator> Variable<A> {
    /// A variable of this name and value. It takes no memory.
    pub(crate) fn new(text: String<A>, value: String<A>) -> Variable<A>
        ensures { result ≡ variable (string_bytes text) (string_bytes value) }
    {
        Variable { text, value }
    }

    /// The name.
    pub fn name(&self) -> &str
        ensures { result.now ≡ self.now.name }
    {
        self.text.as_str()
    }

    /// The value as it was declared, with one space between its words.
    pub fn value(&self) -> &str
        ensures { result.now ≡ self.now.value }
    {
        self.value.as_str()
    }

    /// Whether readers are told a number, and not a text.
    pub fn is_told_as_number(&self) -> bool
        ensures { result ≡ is_told_as_number self.now }
    {
        is_number(self.value()) && !is_of_text(self.name())
    }

    /// The same in other memory.
    pub(crate) fn copy<B: Allocator + Copy>(&self, alloc: B) -> Result<Variable<B>, AllocError>
        ensures { IfOk result (λ variable. variable ≡ self.now) }
    {
        let value = String::from_str(alloc, &self.value)?;
        Ok(Variable::new(String::from_str(alloc, &self.text)?, value))
    }
}
