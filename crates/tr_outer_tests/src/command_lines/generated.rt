//! Lines with mistakes, as a generator makes them: [`parse`] says of each what clap says.

use super::assert_same;
use std::alloc::Global;
use std::process::Abort;
use tr_command::{parse, parse_by_clap};

/// How many lines are made. About half of them ask for something.
const COUNT: u32 = 2_000;

/// Right lines.
static RIGHT: [&str; 16] = [
    "create s u --east 60 --snapshot",
    "create s u --west=300",
    "channel s c 256 2 overwrite",
    "thread s c",
    "start s 5",
    "stop s",
    "offer s 0 1 7",
    "offer s 0 1 7 --text abc --fill 4",
    "offer --fill=50 s 0 1 7",
    "consume s 0",
    "rotate s 5",
    "schedule s --every 10 --size 100",
    "schedule s --size 100",
    "fate s 0 5",
    "status s",
    "release -- s 5",
];

/// Words that are put before, after or in place of a right one.
static ODD: [&str; 24] = [
    "",
    "-",
    "--",
    "---",
    "-h",
    "--help",
    "help",
    "-x",
    "-1",
    "7",
    "a=b",
    "--text",
    "--text=",
    "--text=-x",
    "--fill",
    "--fill=4",
    "--every",
    "--east",
    "--east=1",
    "--snapshot",
    "--snapshot=true",
    "--sna",
    "offer",
    "status",
];

/// The next number, by a linear congruential generator.
fn next(numbers: &mut u64) -> usize {
    *numbers = numbers
        .wrapping_mul(6_364_136_223_846_793_005)
        .wrapping_add(1_442_695_040_888_963_407);
    (*numbers >> 40) as usize
}

/// One of these words.
fn one_of(numbers: &mut u64, words: &[&'static str]) -> &'static str {
    match words.get(next(numbers) % words.len().max(1)) {
        Some(word) => *word,
        None => "",
    }
}

/// Adds words.
fn push_all(rt: &impl Abort, words: &mut Vec<&'static str>, more: &[&'static str]) {
    for word in more {
        words.push(*word).expect(rt, "memory");
    }
}

/// Adds a word of a right line as it is, or not at all, twice, or with an odd word before it, after it or in its place.
fn push_word(
    rt: &impl Abort,
    numbers: &mut u64,
    words: &mut Vec<&'static str>,
    word: &'static str,
) {
    let odd = one_of(numbers, &ODD);
    match next(numbers) % 32 {
        0 => {}
        1 => push_all(rt, words, &[word, word]),
        2 => push_all(rt, words, &[odd, word]),
        3 => push_all(rt, words, &[word, odd]),
        4 => push_all(rt, words, &[odd]),
        _ => push_all(rt, words, &[word]),
    }
}

/// The words of a line.
fn generated(rt: &impl Abort, alloc: Global, numbers: &mut u64) -> Vec<&'static str> {
    let mut words = Vec::new(alloc);
    words.push("tracerd").expect(rt, "memory");
    for word in one_of(numbers, &RIGHT).split(' ') {
        push_word(rt, numbers, &mut words, word);
    }
    words
}

/// Asserts that both readings of these words are the same, and answers whether they ask for something.
fn assert_agree<'a>(rt: &impl Abort, alloc: Global, words: &'a [&'a str]) -> bool {
    let asked = parse(alloc, words).expect(rt, "memory");
    let by_clap = parse_by_clap(alloc, words).expect(rt, "memory");
    assert_same(rt, (words, asked.as_ref()), (words, by_clap.as_ref()));
    asked.is_some()
}

#[test]
fn reads_lines_with_mistakes_as_clap_does(rt: HostRuntime) {
    let mut numbers = 1;
    let mut asking = 0_u64;
    for _ in 0..COUNT {
        let words = generated(&rt, rt.alloc(), &mut numbers);
        let asks = assert_agree(&rt, rt.alloc(), words.as_slice());
        asking = asking.wrapping_add(u64::from(asks));
    }
    assert!(rt; asking > u64::from(COUNT / 4) && asking < u64::from(COUNT - COUNT / 4));
}
