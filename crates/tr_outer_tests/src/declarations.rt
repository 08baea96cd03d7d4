//! Declarations: what each line is refused as, and what comes of those that declare an event or a variable.

use crate::asserting::assert_same;
use linked_list_allocator::LocalHeap;
use std::alloc::{AllocError, Allocator, Global};
use std::process::Abort;
use std::test::*;
use tr_events::{EventFault, Events, LineFault, ParseFault, push_declarations};
use tr_metadata::{declared_in, is_text_of, metadata_text};
use tr_testing::Rationed;
use uuid::Uuid;

/// Lines of every type, as they are written.
const EVERY: &str = "\
push 3 worker:u32 depth:u64
request 5 fd:i32 verb:u8{GET=0,PUT=1} path:str status:u16 took:f64 kept:flag
state 6 at:x64 parts:u16[] cpu:u8[4] sign:i8{LOW=-128,HIGH=127} far:i64{LOW=-9223372036854775808}
log 7 text:text
blob 8 data:bytes
end 4294967295
";

/// What a program says of itself, before an event.
const OWN: &str = "\
env hostname web1
env procname my server
env vpid 4711
env build 0042
env least -9223372036854775808
env beyond 9223372036854775808
push 3 worker:u32
";

/// The same in the text of its metadata: numbers of 64 bits with a sign as such, all else between quotes.
const OWN_BLOCK: &str = "\
env {
  hostname = \"web1\";
  procname = \"my server\";
  vpid = 4711;
  build = \"0042\";
  least = -9223372036854775808;
  beyond = \"9223372036854775808\";
};
";

/// The first line of a text that is refused, and why.
fn refused(alloc: Global, text: &str) -> Option<LineFault> {
    match Events::parse(alloc, text.as_bytes()) {
        Err(ParseFault::Line(at)) => Some(at),
        _ => None,
    }
}

#[test]
fn each_line_is_refused_as_what_it_is(rt: HostRuntime) {
    for (text, line, fault) in [
        ("push", 1, EventFault::BadEvent),
        ("# none\n\npush 0", 3, EventFault::BadEvent),
        ("record 3", 1, EventFault::BadEvent),
        ("push 03", 1, EventFault::BadEvent),
        ("push 3 a\u{e9}:u8", 1, EventFault::BadEvent),
        ("push 3 a", 1, EventFault::BadField),
        ("push 3 len:u8", 1, EventFault::BadField),
        ("push 3 a:u9", 1, EventFault::BadType),
        ("push 3 a:u8{A=256}", 1, EventFault::BadType),
        ("push 3 a:u8{A=1,B=1}", 1, EventFault::BadType),
        ("push 3 a:u8[0]", 1, EventFault::BadType),
        ("push 3 a:text b:u8", 1, EventFault::NotAlone),
        ("push 3 a:u8[] a_length:u8", 1, EventFault::FieldTwice),
        ("push 3\npop 3", 2, EventFault::EventTaken),
        ("push 3\npush 4", 2, EventFault::EventTaken),
        ("push 3 a:u8[1048473]", 1, EventFault::TooMany),
        ("env", 1, EventFault::BadEvent),
        ("env 0", 1, EventFault::BadEvent),
        ("push 3\nenv a-b 1", 2, EventFault::BadVariable),
        ("env struct 1", 1, EventFault::BadVariable),
        ("env host", 1, EventFault::BadValue),
        ("env host a\"b", 1, EventFault::BadValue),
        ("env host a\\b", 1, EventFault::BadValue),
        ("env host a*/b", 1, EventFault::BadValue),
        ("env vpid web1", 1, EventFault::BadValue),
        ("env vpid 012", 1, EventFault::BadValue),
        (
            "env host a\nenv port 1\nenv host a",
            3,
            EventFault::VariableTaken,
        ),
    ] {
        assert_same(
            &rt,
            refused(rt.alloc(), text),
            Some(LineFault { line, fault }),
        );
    }
}

/// The lines that are written of what a text declares.
fn written(alloc: Global, text: &str) -> Result<String, ParseFault> {
    let events = Events::parse(alloc, text.as_bytes())?;
    let mut lines = String::new(alloc);
    push_declarations(&mut lines, &events)?;
    Ok(lines)
}

#[test]
fn what_is_read_is_written(rt: HostRuntime) {
    for (text, wanted) in [
        (EVERY, EVERY),
        // in the order of ids, with a space between
        ("b  2   a:u8\n# none\na 1", "a 1\nb 2 a:u8\n"),
        (OWN, OWN),
        // variables first, in the order of their lines; with an id, `env` is an event
        (
            "a 1\n env  y  p   q\nenv 7 b:u8\nenv x * /",
            "env y p q\nenv x * /\na 1\nenv 7 b:u8\n",
        ),
        ("", ""),
    ] {
        let Ok(lines) = written(rt.alloc(), text) else {
            assert!(rt; false);
            return;
        };
        assert_same(&rt, lines.as_str(), wanted);
    }
}

/// Whether the metadata of a text's events are told from others, and have these events.
fn is_its_own(alloc: Global, text: &str) -> Result<bool, AllocError> {
    let Ok(events) = Events::parse(alloc, text.as_bytes()) else {
        return Ok(false);
    };
    let uuid = Uuid::from_u128(1);
    let metadata = metadata_text(alloc, &events, &uuid)?;
    let Some(again) = declared_in(alloc, metadata.as_bytes())? else {
        return Ok(false);
    };
    let mut lines = String::new(alloc);
    push_declarations(&mut lines, &again)?;
    let own = is_text_of(alloc, &uuid, metadata.as_bytes())?;
    let other = is_text_of(alloc, &Uuid::from_u128(2), metadata.as_bytes())?;
    Ok(lines.as_str() == text && own && !other)
}

#[test]
fn metadata_have_their_declarations(rt: HostRuntime) {
    for text in [EVERY, OWN, "push 3 worker:u32\n", "env hostname web1\n", ""] {
        assert_same(&rt, is_its_own(rt.alloc(), text), Ok(true));
    }
}

/// The metadata text of what a text declares.
fn described(rt: &impl Abort, alloc: Global, text: &str) -> String {
    let events = Events::parse(alloc, text.as_bytes()).expect(rt, "events");
    metadata_text(alloc, &events, &Uuid::from_u128(1)).expect(rt, "memory")
}

#[test]
fn metadata_have_their_environment(rt: HostRuntime) {
    let text = described(&rt, rt.alloc(), OWN);
    assert!(rt; text.as_str().contains(OWN_BLOCK));
    let without = described(&rt, rt.alloc(), EVERY);
    assert!(rt; !without.as_str().contains("env"));
}

/// A text of so many lines, each with a variable of its own and a value of so many letters.
fn given(rt: &impl Abort, alloc: Global, count: u32, letters: usize) -> String {
    let mut text = String::new(alloc);
    for n in 0..count {
        write!(text, "env v{n} ").expect(rt, "memory");
        for _ in 0..letters {
            text.push_str("a").expect(rt, "memory");
        }
        text.push_str("\n").expect(rt, "memory");
    }
    text
}

#[test]
fn so_many_variables_so_long(rt: HostRuntime) {
    for (count, letters, wanted) in [
        (32, 255, None),
        (33, 1, Some((33, EventFault::TooManyVariables))),
        (1, 256, Some((1, EventFault::BadValue))),
    ] {
        let text = given(&rt, rt.alloc(), count, letters);
        let wanted = wanted.map(|(line, fault)| LineFault { line, fault });
        assert_same(&rt, refused(rt.alloc(), text.as_str()), wanted);
    }
}

/// Asserts that events, copied back, are those that these lines declare.
fn assert_lines<A: Allocator>(rt: &impl Abort, alloc: Global, events: &Events<A>, wanted: &str) {
    let copy = events.copy(alloc).expect(rt, "memory");
    let mut lines = String::new(alloc);
    push_declarations(&mut lines, &copy).expect(rt, "memory");
    assert_same(rt, lines.as_str(), wanted);
}

/// Copies events with so many requests granted. Whether it was made: if not, the request that was refused was its last.
fn is_copied_with(
    rt: &impl Abort,
    alloc: Global,
    events: &Events,
    requests: u64,
    wanted: &str,
) -> bool {
    let memory = Rationed::new(alloc);
    memory.limit(requests);
    match events.copy(&memory) {
        Ok(copy) => {
            assert_same(rt, memory.lift(), 0);
            assert_lines(rt, alloc, &copy, wanted);
            true
        }
        Err(AllocError) => {
            assert_same(rt, memory.lift(), 1);
            false
        }
    }
}

/// How many requests a copy of events makes, if fewer than a hundred.
fn requests_of_copy(rt: &impl Abort, alloc: Global, events: &Events, text: &str) -> Option<u64> {
    for requests in 0..100 {
        if is_copied_with(rt, alloc, events, requests, text) {
            return Some(requests);
        }
    }
    None
}

/// Copies events into a heap of so many bytes, where nothing is left of it afterwards. Whether there was room.
fn has_room(rt: &impl Abort, alloc: Global, events: &Events, bytes: usize) -> bool {
    let heap = LocalHeap::new(alloc, bytes).expect(rt, "a heap");
    let empty = heap.used();
    let fits = match events.copy(&heap) {
        Ok(copy) => {
            assert_lines(rt, alloc, &copy, EVERY);
            true
        }
        Err(AllocError) => false,
    };
    assert_same(rt, heap.used(), empty);
    fits
}

#[test]
fn a_copy_is_whole_or_leaves_nothing(rt: HostRuntime) {
    let alloc = rt.alloc();
    let events = Events::parse(alloc, EVERY.as_bytes()).expect(&rt, "events");
    // the list and the table of ids; six names; five lists of fields, and their 15 names; three lists of labels, and their five names
    assert_same(&rt, requests_of_copy(&rt, alloc, &events, EVERY), Some(36));
    for blocks in 4..512 {
        has_room(&rt, alloc, &events, 16 * blocks);
    }
    assert_same(&rt, has_room(&rt, alloc, &events, 64), false);
    assert_same(&rt, has_room(&rt, alloc, &events, 8_192), true);
}

#[test]
fn a_copy_has_the_environment(rt: HostRuntime) {
    let alloc = rt.alloc();
    let own = Events::parse(alloc, OWN.as_bytes()).expect(&rt, "events");
    // the lists of variables and of events, and the table of ids; six names and six values; an event's name, its list of
    // fields, and a field's name
    assert_same(&rt, requests_of_copy(&rt, alloc, &own, OWN), Some(18));
}

#[test]
fn no_events_take_no_memory(rt: HostRuntime) {
    let memory = Rationed::new(rt.alloc());
    memory.limit(0);
    assert_lines(&rt, rt.alloc(), &Events::none(&memory), "");
    assert_same(&rt, memory.lift(), 0);
}
