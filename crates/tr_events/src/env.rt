//! The lines that declare variables.

ghost use Rattle.std.specs.Prelude.{◌≡◌, IfOk, OnOk, Ok, map};
ghost use Rattle.std.specs.List.{join_with_byte};
ghost use Rattle.std.specs.String.{string_bytes};
ghost use Rattle.tr_events.specs.Lines.{begins_with_digit, env_in, given, is_env, is_given, unless, variable_in, variable_of};

use crate::faults::EventFault;
use crate::variables::{MOST_VARIABLES, Variable, is_variable_name, may_be};
use std::alloc::{AllocError, Global};

/// Whether the first byte is a digit.
fn begins_with_digit(word: &str) -> bool
    ensures { result ≡ begins_with_digit word.now }
{
    match word.as_bytes() {
        [] => false,
        [first, ..] => first.is_ascii_digit(),
    }
}

/// Whether the words of a line are to declare a variable: `env`, and then no id.
pub(crate) fn is_env(words: &[&str]) -> bool
    ensures { result ≡ is_env (map (λ w. w.now) words.now) }
{
    match words {
        [] | [_] => false,
        [word, next, ..] => *word == "env" && !begins_with_digit(next),
    }
}

/// The words of a value, one space apart.
#[tactic(auto, using(crate::proofs::ListLemmas::spaces))]
fn spaced(alloc: Global, words: &[&str]) -> Result<String, AllocError>
    ensures { IfOk result (λ text. string_bytes text ≡ join_with_byte 32 (map (λ w. w.now) words.now)) }
{
    words.join(alloc, " ")
}

/// The variable of this name and value.
fn variable_of(
    alloc: Global,
    name: &str,
    value: String,
) -> Result<Result<Variable, EventFault>, AllocError>
    ensures { IfOk result (λ v. v ≡ variable_of name.now (string_bytes value)) }
{
    if !is_variable_name(name) {
        return Ok(Err(EventFault::BadVariable));
    }
    if !may_be(name, &value) {
        return Ok(Err(EventFault::BadValue));
    }
    Ok(Ok(Variable::new(String::from_str(alloc, name)?, value)))
}

/// The variable that a name and the words of a value declare.
fn variable_in(alloc: Global, words: &[&str]) -> Result<Result<Variable, EventFault>, AllocError>
    ensures { IfOk result (λ v. v ≡ variable_in (map (λ w. w.now) words.now)) }
{
    match words {
        [] => Ok(Err(EventFault::BadVariable)),
        [name, value @ ..] => variable_of(alloc, name, spaced(alloc, value)?),
    }
}

/// The variable that the words of a line declare, after the first one.
pub(crate) fn env_in(
    alloc: Global,
    words: &[&str],
) -> Result<Result<Variable, EventFault>, AllocError>
    ensures { IfOk result (λ v. v ≡ env_in (map (λ w. w.now) words.now)) }
{
    match words {
        [] => Ok(Err(EventFault::BadVariable)),
        [_, rest @ ..] => variable_in(alloc, rest),
    }
}

/// Whether one of the variables has this one's name.
fn is_given(variable: &Variable, env: &[Variable]) -> bool
    ensures { result ≡ is_given variable.now env.now }
{
    env.iter().any(|other| other.name() == variable.name())
}

/// Adds a variable, unless it can't be added.
pub(crate) fn give(
    variable: Variable,
    env: &mut Vec<Variable>,
) -> Result<Option<EventFault>, AllocError>
    ensures { IfOk result (λ fault. unless fault env.new.items ≡ given env.old.items (Ok variable)) }
{
    if is_given(&variable, env) {
        return Ok(Some(EventFault::VariableTaken));
    }
    if env.len() >= MOST_VARIABLES {
        return Ok(Some(EventFault::TooManyVariables));
    }
    env.push(variable)?;
    Ok(None)
}
