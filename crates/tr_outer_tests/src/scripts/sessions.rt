//! The sessions that a run leaves.

use super::assert_same;
use std::process::Abort;
use tr_console::{Console, run_script};
use tr_record::{MemorySink, MemorySource};

/// Two sessions; the second one has a stream.
const TWO: &str = "create b 00000000-0000-0000-0000-000000000001
create a 00000000-0000-0000-0000-000000000001
channel a c 256 2 discard
thread a c
";

/// Asserts the name of the session at this place, and how many streams it has.
fn assert_session(rt: &impl Abort, console: &Console, place: usize, name: &str, streams: u64) {
    let (found, session) = console.session(place).expect(rt, "a session");
    assert_same(rt, (found.as_str(), session.streams()), (name, streams));
}

#[test]
fn gives_sessions_in_the_order_of_their_creation(rt: HostRuntime) {
    let alloc = rt.alloc();
    let mut source = MemorySource::new(TWO.as_bytes(), 4096);
    let mut sink = MemorySink::new(alloc, 4096);
    let done = run_script(alloc, alloc, &mut source, &mut sink).expect(&rt, "a run");
    assert_session(&rt, &done.console, 0, "b", 0);
    assert_session(&rt, &done.console, 1, "a", 1);
    assert_same(&rt, done.console.session(2).is_none(), true);
}
