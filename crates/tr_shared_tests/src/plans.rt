//! Plans that tests begin with, and what all modules of these tests share.

use std::alloc::Global;
use std::fmt::Debug;
use std::process::Abort;
use std::test::*;
use tr_events::Events;
use tr_seats::{Plan, plan, plan_watched};
use tr_session::{ChannelConfig, Config};
use tr_session_book::SessionFault;
use tr_terms::{Mode, Name, OffsetMinutes, SessionMode};
use uuid::Uuid;

/// Compares what a test found with what it expects. As a call without clauses it keeps the proofs of the tests short.
pub(crate) fn assert_same<T: PartialEq + Debug + Drop>(rt: &impl Abort, found: T, expected: T) {
    assert_eq!(rt; found, expected);
}

/// What was granted, where a refusal can't be printed. As a call of any types it lets go what a refusal holds in one step,
/// which keeps the proofs of the tests short.
pub(crate) fn granted<T: Drop, E: Drop>(rt: &impl Abort, answer: Result<T, E>, wanted: &str) -> T {
    match answer {
        Ok(value) => value,
        Err(_) => panic!(rt; "no {wanted}"),
    }
}

/// Appends.
pub(crate) fn push<T: Drop>(rt: &impl Abort, items: &mut Vec<T>, item: T) {
    items.push(item).expect(rt, "memory");
}

/// Takes the last one away.
pub(crate) fn last<T: Drop>(rt: &impl Abort, items: &mut Vec<T>) -> T {
    items.pop().expect(rt, "one more")
}

/// The longest payload. All others are a front of it.
pub(crate) static PAYLOAD: [u8; 153] = [0x61; 153];

/// A session of one channel `c` with so many threads, of two sub-buffers of so many bytes each.
fn config_with(
    rt: &impl Abort,
    alloc: Global,
    session: SessionMode,
    mode: Mode,
    size: u64,
    threads: u64,
) -> Config<'static> {
    let offset = OffsetMinutes::new(0).expect(rt, "an offset");
    let name = Name::new("c").expect(rt, "a name");
    let channel = ChannelConfig {
        name,
        size,
        count: 2,
        mode,
        threads,
    };
    let channels = vec![in alloc; channel].expect(rt, "memory");
    Config {
        uuid: Uuid::nil(),
        offset,
        mode: session,
        events: Events::none(alloc),
        channels,
    }
}

/// What planning a session answers: one channel `c` with `threads` threads, of two sub-buffers of `size` bytes each.
pub(crate) fn plan_with(
    rt: &impl Abort,
    alloc: Global,
    session: SessionMode,
    mode: Mode,
    size: u64,
    threads: u64,
) -> Result<Plan, SessionFault> {
    plan(alloc, &config_with(rt, alloc, session, mode, size, threads))
}

/// A plan of two overwriting streams with so many watchers.
pub(crate) fn plan_of_watched(rt: &impl Abort, alloc: Global, watchers: usize) -> Plan {
    let config = config_with(rt, alloc, SessionMode::Local, Mode::Overwrite, 256, 2);
    plan_watched(alloc, &config, watchers).expect(rt, "a plan")
}

/// A plan of one stream that declares what a text does.
pub(crate) fn plan_declaring(rt: &impl Abort, alloc: Global, text: &str) -> Plan {
    let mut config = config_with(rt, alloc, SessionMode::Local, Mode::Discard, 256, 1);
    config.events = Events::parse(alloc, text.as_bytes()).expect(rt, "events");
    plan(alloc, &config).expect(rt, "a plan")
}

/// A plan of `threads` streams with two sub-buffers of 256 bytes each.
pub(crate) fn plan_of(rt: &impl Abort, alloc: Global, mode: Mode, threads: u64) -> Plan {
    plan_with(rt, alloc, SessionMode::Local, mode, 256, threads).expect(rt, "a plan")
}
