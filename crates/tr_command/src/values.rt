//! The values of a command's arguments.

ghost use Rattle.std.specs.Prelude.{◌≡◌, ◌≤◌, IfSome, option_map};
ghost use Rattle.clap.specs.Words.{first_of};
ghost use Rattle.tr_terms.specs.declared.limits.TheConstants.{LAST_MOMENT};
ghost use Rattle.tr_command.specs.Ordinary.{rows_in};
ghost use Rattle.tr_command.specs.Reading.{has_flag, mode_given, mode_named, number_given, number_if_given, number_or_0, offset_given, text_or_empty};

use crate::numbers::{number, number_u32};
use crate::uses::{Use, is_true, text_of};
use clap::ArgMatches;
use tr_terms::Mode;
use tr_terms::limits::{LAST_MOMENT, MOST_MINUTES};

/// The values of a command's arguments.
#[derive(Clone, Copy)]
pub enum Values<'m, 'a> {
    /// Those that clap read.
    Matches(&'m ArgMatches<'a>),
    /// Those of an ordinary line.
    Uses(&'m [Use<'a>]),
}

/// The text of an argument, if it is given.
#[inline(always)]
pub fn text_given<'a>(values: &Values<'_, 'a>, id: &str) -> Option<&'a str>
    ensures { option_map (λ t. t.now) result ≡ first_of id.now (rows_in values.now) }
{
    match *values {
        Values::Matches(matches) => matches.get_str(id),
        Values::Uses(uses) => text_of(uses, id),
    }
}

/// The text of an option, empty if it is left out.
#[inline(always)]
pub fn text_or_empty<'a>(values: &Values<'_, 'a>, id: &str) -> &'a str
    ensures { result.now ≡ text_or_empty id.now (rows_in values.now) }
{
    text_given(values, id).unwrap_or("")
}

/// Whether a flag is given.
pub fn has_flag(values: &Values<'_, '_>, id: &str) -> bool
    ensures { result ≡ has_flag id.now (rows_in values.now) }
{
    match *values {
        Values::Matches(matches) => matches.get_one::<bool>(id).unwrap_or(false),
        Values::Uses(uses) => is_true(uses, id),
    }
}

/// The number of an argument, if it is a number and at most `most`.
#[inline(always)]
pub fn number_given(values: &Values<'_, '_>, id: &str, most: u64) -> Option<u64>
    ensures value { result ≡ number_given id.now most (rows_in values.now) }
    ensures within { IfSome result (λ n. n ≤ most) }
{
    number(text_given(values, id)?, most)
}

/// The same for a number that fits 32 bits.
#[inline(always)]
pub fn number_u32_given(values: &Values<'_, '_>, id: &str, most: u32) -> Option<u32>
    ensures { result ≡ number_given id.now most (rows_in values.now) }
{
    number_u32(text_given(values, id)?, most)
}

/// The moment of an argument, in nanoseconds.
#[inline(always)]
pub fn moment_given(values: &Values<'_, '_>, id: &str) -> Option<u64>
    ensures { result ≡ number_given id.now LAST_MOMENT (rows_in values.now) }
{
    number_given(values, id, LAST_MOMENT)
}

/// The number of an option, 0 if it is left out.
#[inline(always)]
pub fn number_u32_or_zero(values: &Values<'_, '_>, id: &str, most: u32) -> Option<u32>
    ensures { result ≡ number_or_0 id.now most (rows_in values.now) }
{
    match text_given(values, id) {
        Some(text) => number_u32(text, most),
        None => Some(0),
    }
}

/// The number of an option, which is none if the option is left out.
#[inline(always)]
pub fn number_if_given(values: &Values<'_, '_>, id: &str, most: u64) -> Option<Option<u64>>
    ensures { result ≡ number_if_given id.now most (rows_in values.now) }
{
    match text_given(values, id) {
        Some(text) => Some(Some(number(text, most)?)),
        None => Some(None),
    }
}

/// How many minutes the clock is ahead of UTC: those of `--east`, less those of `--west`.
pub fn offset_given(values: &Values<'_, '_>) -> Option<i32>
    ensures { result ≡ offset_given (rows_in values.now) }
{
    let east = number_u32_or_zero(values, "east", MOST_MINUTES)?;
    let west = number_u32_or_zero(values, "west", MOST_MINUTES)?;
    Some(east as i32 - west as i32)
}

/// The mode of this name, if any.
fn mode_named(text: &str) -> Option<Mode>
    ensures { result ≡ mode_named text.now }
{
    match text {
        "discard" => Some(Mode::Discard),
        "overwrite" => Some(Mode::Overwrite),
        _ => None,
    }
}

/// The mode that an argument names.
pub fn mode_given(values: &Values<'_, '_>, id: &str) -> Option<Mode>
    ensures { result ≡ mode_given id.now (rows_in values.now) }
{
    mode_named(text_given(values, id)?)
}
