//! Words that no line has, and none, and bad lines of each kind that is refused without clap. More bad lines are in
//! `examples`.

use super::assert_bad;
use std::alloc::Global;
use std::process::Abort;
use tr_command::parse;

/// An empty word is no number, and is one word more.
static BAD: [&str; 6] = [
    "fate s 0 ",
    "snapshot s ",
    "consume s ",
    "tick s ",
    "clear s ",
    "release s ",
];

/// The first word is no command.
static STRAY: [&str; 6] = [
    "offfer s 0 1 7",
    "Offer s 0 1 7",
    "stat s",
    "statuss s",
    "help",
    "help offer",
];

/// A word has no place.
static TOO_MANY: [&str; 8] = [
    "status s t",
    "stop s 5",
    "offer s 0 1 7 8",
    "offer s 0 1 7 --text a 8",
    "offer --fill 4 s 0 1 7 8",
    "create s u v",
    "create s u --snapshot v",
    "schedule s 10 --every 10",
];

/// A place has no word.
static TOO_FEW: [&str; 8] = [
    "status",
    "start s",
    "offer s 0 1",
    "offer s 0 1 --text a",
    "offer --text a --fill 4",
    "create s --snapshot",
    "channel s c 256 2",
    "schedule --size 100",
];

/// Asserts that these words ask for nothing.
fn assert_none(rt: &impl Abort, alloc: Global, words: &[&str]) {
    let asked = parse(alloc, words).expect(rt, "memory");
    assert!(rt; asked.is_none());
}

#[test]
fn refuses_empty_words_and_none(rt: HostRuntime) {
    assert_bad(&rt, rt.alloc(), &BAD);
    assert_none(&rt, rt.alloc(), &["tracerd"]);
    assert_none(&rt, rt.alloc(), &[]);
}

#[test]
fn refuses_words_that_are_no_command_too_many_or_too_few(rt: HostRuntime) {
    assert_bad(&rt, rt.alloc(), &STRAY);
    assert_bad(&rt, rt.alloc(), &TOO_MANY);
    assert_bad(&rt, rt.alloc(), &TOO_FEW);
}
