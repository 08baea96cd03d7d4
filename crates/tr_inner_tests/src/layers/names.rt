//! Which texts are names.

use super::assert_same;
use std::process::Abort;
use tr_terms::Name;

/// The longest name.
const LONGEST: &str = "abcdefghijklmnopqrstuvwxyz_ABCDEFGHIJKLMNOPQRSTUVWXYZ_0123456789";

/// One letter too many.
const TOO_LONG: &str = "abcdefghijklmnopqrstuvwxyz_ABCDEFGHIJKLMNOPQRSTUVWXYZ_0123456789x";

/// Texts, and whether they are names.
static TEXTS: [(&str, bool); 23] = [
    ("", false),
    (".", false),
    ("..", false),
    ("../x", false),
    ("a/b", false),
    ("/", false),
    ("/etc", false),
    ("a/", false),
    ("a.b", false),
    ("a\\b", false),
    ("a b", false),
    ("a-b", false),
    ("a\0", false),
    ("\u{e4}", false),
    ("1a", false),
    ("_a", false),
    ("9", false),
    (TOO_LONG, false),
    ("a", true),
    ("Z", true),
    ("Net_4", true),
    ("z_9_", true),
    (LONGEST, true),
];

/// Asserts whether a text is a name, which is that text then.
fn assert_is_name(rt: &impl Abort, text: &str, want: bool) {
    match Name::new(text) {
        Some(name) => assert_same(rt, (name.as_str(), true), (text, want)),
        None => assert_same(rt, (text, false), (text, want)),
    }
}

// a name makes one folder or one file, and leads to no other
#[test]
fn no_name_leads_out(rt: HostRuntime) {
    for (text, want) in &TEXTS {
        assert_is_name(&rt, text, *want);
    }
}
