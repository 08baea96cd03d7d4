//! Lines with what clap's rules say that they ask for, and what a range lets through.

mod asking;
mod generated;
mod layout;
mod numbers;
mod others;
mod program;
mod rotation;
mod running;
mod schedules;

use crate::asserting::assert_same;
use std::alloc::Global;
use std::process::Abort;
use tr_command::{Request, parse};

/// The program's name and the words of the line.
fn words_of<'a>(rt: &impl Abort, alloc: Global, line: &'a str) -> Vec<&'a str> {
    let mut words = Vec::new(alloc);
    words.push("tracerd").expect(rt, "memory");
    for word in line.split(' ') {
        words.push(word).expect(rt, "memory");
    }
    words
}

/// Asserts what the line asks for. A bad line asks for nothing.
fn assert_asks(rt: &impl Abort, alloc: Global, line: &str, request: Option<&Request<'_>>) {
    let words = words_of(rt, alloc, line);
    let asked = parse(alloc, words.as_slice()).expect(rt, "memory");
    assert_same(rt, (line, asked.as_ref()), (line, request));
}

/// A line, and what it asks for.
type Asks<'a> = (&'a str, Request<'a>);

/// Asserts what each of the lines asks for.
fn assert_each_asks(rt: &impl Abort, alloc: Global, rows: &[Asks<'_>]) {
    for (line, request) in rows {
        assert_asks(rt, alloc, line, Some(request));
    }
}

/// Asserts that each of the lines is a bad one.
fn assert_bad(rt: &impl Abort, alloc: Global, lines: &[&str]) {
    for line in lines {
        assert_asks(rt, alloc, line, None);
    }
}
