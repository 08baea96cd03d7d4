//! Lines, however a script is cut, and which are skipped.

use super::{Case, OPENED, OPENING, SIX_ANSWERS, SIX_OFFERS, assert_all, assert_answered};

static CASES: [Case; 4] = [
    (
        "offers, a take and a status",
        &[OPENING, SIX_OFFERS],
        &[OPENED, SIX_ANSWERS],
        0,
    ),
    (
        "a refused last line",
        &["offer nobody 0 1 1"],
        &["refused K1 NoSession\n"],
        1,
    ),
    ("no line", &[], &[], 0),
    ("a comment and an empty line", &["# x\n\n"], &[], 0),
];

#[test]
fn answers_a_script_however_it_is_cut(rt: HostRuntime) {
    assert_all(&rt, rt.alloc(), &CASES);
}

// a comment has at most 4,096 bytes, and is text
#[test]
fn skips_comments_up_to_the_longest_line(rt: HostRuntime) {
    let bad = (b"bad line\n".as_slice(), 1);
    assert_answered(&rt, rt.alloc(), "no text", b"# \x80\n#\n", bad);
    let mut comment = vec![in rt.alloc(); b'#'; 4096].expect(&rt, "memory");
    assert_answered(&rt, rt.alloc(), "4,096 bytes", &comment, (b"", 0));
    comment.push(b'#').expect(&rt, "memory");
    assert_answered(&rt, rt.alloc(), "4,097 bytes", &comment, bad);
}
