//! What a range lets through.

use super::assert_same;
use tr_command::number;

const MOST: u64 = 18_446_744_073_709_551_615;

/// Texts, the most that is let through, and the number.
static NUMBERS: [(&str, u64, Option<u64>); 11] = [
    ("0", 0, Some(0)),
    ("1", 0, None),
    ("000000000000000000000000000000000000000003", 3, Some(3)),
    ("18446744073709551615", MOST, Some(MOST)),
    ("18446744073709551614", MOST - 2, None),
    ("18446744073709551616", MOST, None),
    ("99999999999999999999999999", MOST, None),
    ("+3", MOST, None),
    ("-0", MOST, None),
    ("", MOST, None),
    ("1 2", MOST, None),
];

#[test]
fn reads_numbers(rt: HostRuntime) {
    for &(text, most, value) in &NUMBERS {
        assert_same(&rt, (text, number(text, most)), (text, value));
    }
}
