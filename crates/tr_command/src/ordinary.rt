//! Ordinary lines, which are read without building clap's command line.
//!
//! On an ordinary line each argument is used at most once, an option is `--name` and then its text, and no text begins with a
//! hyphen. What is read of it is just what clap reads (`proofs/OrdinaryLemmas.antt`). A line with a word too many, or with a
//! place that has no word, is one that clap refuses (`proofs/RefusedLemmas.antt`). Any other line is left to clap.

ghost use Rattle.std.specs.Prelude.{◌≡◌, ◌<◌, ◌≤◌, ◌∷◌, [], ℕ, IfSome, IsTrue, List, drop, false, find, fold, length, map, true};
ghost use Rattle.std.specs.List.{list_any};
ghost use Rattle.tr_command.specs.CommandLine.{rule};
ghost use Rattle.tr_command.specs.Ordinary.{IsVerdict, is_called, is_place, is_plain, is_well_named, left_out, row_of_use, shape_of};
ghost use Rattle.tr_command.specs.Progress.{IsNext, IsWanted};
ghost use Rattle.tr_command.specs.declared.arguments.Argument.TheVariants.{Placed as placed};

use crate::arguments::Argument;
use crate::uses::{Use, is_used};
use arrayvec::ArrayVec;

/// The most uses of an ordinary line, with the flags that are left out: more than any command has arguments.
const MOST_USES: usize = 8;

/// The uses of a line, in its order, and then the flags that are left out.
pub type Uses<'a> = ArrayVec<Use<'a>, MOST_USES>;

/// What clap makes of the words after a command.
#[derive(Clone, Copy)]
pub enum Verdict {
    /// It takes them, with the uses of the command's arguments that were found.
    Taken,
    /// It refuses them.
    Refused,
}

/// Whether the word begins with no hyphen.
pub fn is_plain(word: &str) -> bool
    ensures { result ≡ is_plain word.now }
{
    match word.as_bytes() {
        [first, ..] => *first != b'-',
        [] => true,
    }
}

/// The name in `--name`.
fn long_name<'a>(word: &'a str) -> Option<&'a [u8]>
    ensures { IfSome result (λ name. word.entry.now ≡ 45 ∷ 45 ∷ name.now) }
{
    let [first, second, name @ ..] = word.as_bytes() else {
        return None;
    };
    if *first == b'-' && *second == b'-' {
        Some(name)
    } else {
        None
    }
}

/// The option or flag of this name.
fn called(arguments: &'static [Argument], name: &[u8]) -> Option<Argument>
    ensures { result ≡ find (is_called name.now) arguments.now }
{
    'arguments: for argument in arguments {
        if argument.is_called(name) {
            return Some(*argument);
        }
    }
    None
}

/// The name of the place that comes first, and the arguments after it. `None` if an option, a flag or nothing comes first.
fn first_place(arguments: &'static [Argument]) -> Option<(&'static str, &'static [Argument])>
    ensures { IfSome result (λ p. arguments.entry.now ≡ placed p.0 ∷ p.1.now) }
{
    let [argument, after @ ..] = arguments else {
        return None;
    };
    match *argument {
        Argument::Placed(name) => Some((name, after)),
        Argument::Named(_) | Argument::Flag(_) => None,
    }
}

/// The first of these words, if it begins with no hyphen.
fn first_plain<'a>(words: &[&'a str]) -> Option<&'a str>
    ensures { IfSome result (λ word. (is_plain word.now ≡ true)
        × (map (λ w. w.now) words.now ≡ word.now ∷ map (λ w. w.now) (drop 1 words.now))) }
{
    match words {
        [word, ..] if is_plain(word) => Some(*word),
        _ => None,
    }
}

/// A use that words begin with, how many of them it takes, and the places that are left after it.
#[derive(Clone, Copy)]
struct Next<'a> {
    used: Use<'a>,
    count: usize,
    places: &'static [Argument],
}

/// The use that the words begin with. `None` if they begin with none of an ordinary line.
fn next_use<'a>(
    arguments: &'static [Argument],
    places: &'static [Argument],
    words: &[&'a str],
) -> Option<Next<'a>>
    ensures some { IfSome result (λ n. (0 < n.count) × (n.count ≤ length words.now)) }
    ensures next { IfSome result (λ n. IsNext arguments.entry.now places.entry.now (map (λ w. w.now) words.now)
        (row_of_use n.used) n.places.now (map (λ w. w.now) (drop n.count words.now))) }
{
    let [word, rest @ ..] = words else {
        return None;
    };
    if is_plain(word) {
        let (name, places) = first_place(places)?;
        let used = Use::Text { name, text: *word };
        return Some(Next {
            used,
            count: 1,
            places,
        });
    }
    match called(arguments, long_name(word)?)? {
        Argument::Placed(_) => None,
        Argument::Flag(name) => {
            let used = Use::Given(name);
            Some(Next {
                used,
                count: 1,
                places,
            })
        }
        Argument::Named(name) => {
            let text = first_plain(rest)?;
            let used = Use::Text { name, text };
            Some(Next {
                used,
                count: 2,
                places,
            })
        }
    }
}

/// Adds each flag of these arguments that is left out. `false` if there is no room, or one of them is a place.
fn add_left_out<'a>(uses: &mut Uses<'a>, arguments: &'static [Argument]) -> bool
    ensures { IsTrue result → (list_any is_place arguments.entry.now ≡ false)
        × (fold left_out (map row_of_use uses.old.items) arguments.entry.now ≡ map row_of_use uses.new.items) }
{
    'arguments: for argument in arguments {
        match *argument {
            Argument::Placed(_) => return false,
            Argument::Named(_) => {}
            Argument::Flag(name) => {
                if !is_used(uses.as_slice(), name) {
                    if uses.is_full() {
                        return false;
                    }
                    uses.push(Use::LeftOut(name));
                }
            }
        }
    }
    true
}

/// Whether one of the arguments is a place.
fn has_place(arguments: &'static [Argument]) -> bool
    ensures { result ≡ list_any is_place arguments.now }
{
    'arguments: for argument in arguments {
        if argument.is_place() {
            return true;
        }
    }
    false
}

/// Whether the word begins with no hyphen, and none of these arguments is a place for it.
fn is_stray(arguments: &'static [Argument], word: &str) -> bool
    ensures { IsTrue result → (is_plain word.now ≡ true) × (list_any is_place arguments.entry.now ≡ false) }
{
    is_plain(word) && !has_place(arguments)
}

/// Whether the first of these arguments is a place that isn't used.
fn wants_place(uses: &[Use<'_>], arguments: &'static [Argument]) -> bool
    ensures { IsTrue result → IsWanted (map row_of_use uses.now) arguments.entry.now }
{
    match first_place(arguments) {
        Some((name, _)) => !is_used(uses, name),
        None => false,
    }
}

/// What clap makes of these words after a command with these arguments, and the uses that it finds in them. `None` if the line
/// isn't ordinary, and has neither a word too many nor a place without a word.
pub fn verdict_on<'a>(
    arguments: &'static [Argument],
    words: &[&'a str],
    uses: &mut Uses<'a>,
) -> Option<Verdict>
    requires named { is_well_named (map rule arguments.now) ≡ true }
    requires empty { uses.old.items ≡ [] }
    ensures { IfSome result (λ verdict. (name : List ℕ)
        → IsVerdict (shape_of name arguments.entry.now) (map (λ w. w.now) words.entry.now) uses.new.items verdict) }
{
    let mut places = arguments;
    let mut at = 0;
    'words: while at < words.len() {
        if is_stray(places, words[at]) {
            return Some(Verdict::Refused);
        }
        let next = next_use(arguments, places, &words[at..])?;
        if uses.is_full() || is_used(uses.as_slice(), next.used.name()) {
            return None;
        }
        uses.push(next.used);
        places = next.places;
        at += next.count;
    }
    if wants_place(uses.as_slice(), places) {
        return Some(Verdict::Refused);
    }
    if !add_left_out(uses, places) {
        return None;
    }
    Some(Verdict::Taken)
}
