//! Worked examples of schedules.

use super::assert_same;
use std::process::Abort;
use tr_schedule::{Cause, Schedule, ScheduleFault};
use tr_terms::Moment;
use tr_testing::moment;

/// A period and a size.
type Words = (Option<u64>, Option<u64>);

const BOTH: Words = (Some(100), Some(200));

/// Schedules, when a chunk began and when it is looked at, how much of it there is, and why its rotation is due then.
static DUE: [(Words, (u64, u64), &[u64], Option<Cause>); 16] = [
    // a period and a size
    (BOTH, (0, 99), &[], None),
    (BOTH, (0, 100), &[], Some(Cause::Timer)),
    (BOTH, (100, 150), &[228], Some(Cause::Size)),
    (BOTH, (100, 150), &[100, 100], Some(Cause::Size)),
    (BOTH, (100, 150), &[100, 99], None),
    (BOTH, (100, 200), &[228], Some(Cause::Timer)),
    (BOTH, (100, 99), &[199], None),
    (BOTH, (Moment::LAST, 0), &[], None),
    // one of them or none
    ((None, None), (0, Moment::LAST), &[u64::MAX], None),
    ((Some(1), None), (5, 5), &[u64::MAX], None),
    ((Some(1), None), (5, 6), &[], Some(Cause::Timer)),
    ((None, Some(1)), (0, Moment::LAST), &[0, 0], None),
    ((None, Some(1)), (0, 0), &[0, 1], Some(Cause::Size)),
    // a sum stops at the greatest number
    (
        (None, Some(u64::MAX)),
        (0, 0),
        &[u64::MAX, 1],
        Some(Cause::Size),
    ),
    (
        (None, Some(u64::MAX)),
        (0, 0),
        &[1, u64::MAX, 7],
        Some(Cause::Size),
    ),
    ((None, Some(u64::MAX)), (0, 0), &[u64::MAX - 1], None),
];

/// Asserts why a rotation of a chunk that began at `begin` is due at `now`.
fn assert_due(
    rt: &impl Abort,
    (every, size): Words,
    (begin, now): (u64, u64),
    sizes: &[u64],
    want: Option<Cause>,
) {
    let schedule = Schedule::new(every, size).expect(rt, "a schedule");
    let answer = schedule.due(moment(begin), moment(now), sizes);
    assert_same(rt, (begin, now, sizes, answer), (begin, now, sizes, want));
}

#[test]
fn a_rotation_is_due_by_its_period_or_its_size(rt: HostRuntime) {
    for (schedule, moments, sizes, want) in &DUE {
        assert_due(&rt, *schedule, *moments, sizes, *want);
    }
}

/// Periods and sizes, and why they are no schedule.
static SCHEDULES: [(Words, Option<ScheduleFault>); 7] = [
    ((Some(0), None), Some(ScheduleFault::ZeroPeriod)),
    ((Some(0), Some(0)), Some(ScheduleFault::ZeroPeriod)),
    ((None, Some(0)), Some(ScheduleFault::ZeroSize)),
    ((Some(1), Some(0)), Some(ScheduleFault::ZeroSize)),
    ((Some(1), Some(1)), None),
    ((None, None), None),
    (BOTH, None),
];

/// Asserts that a schedule gives back what it is made of, or why it isn't made.
fn assert_made(rt: &impl Abort, words: Words, want: Option<ScheduleFault>) {
    let found = match Schedule::new(words.0, words.1) {
        Ok(schedule) => ((schedule.every(), schedule.size()), None),
        Err(fault) => (words, Some(fault)),
    };
    assert_same(rt, found, (words, want));
}

#[test]
fn zeros_are_refused(rt: HostRuntime) {
    for (words, want) in &SCHEDULES {
        assert_made(&rt, *words, *want);
    }
}
