//! The words for faults and causes.

use super::assert_same;
use std::alloc::Global;
use std::fmt::Display;
use std::process::Abort;
use tr_schedule::{Cause, ScheduleFault};
use tr_terms::GeometryFault;

static GEOMETRY: [(GeometryFault, (&str, &str, &str)); 2] = [
    (GeometryFault::BadSize, ("G1", "BadSize", "G1 BadSize")),
    (GeometryFault::BadCount, ("G2", "BadCount", "G2 BadCount")),
];

static SCHEDULE: [(ScheduleFault, (&str, &str, &str)); 2] = [
    (
        ScheduleFault::ZeroPeriod,
        ("D1", "ZeroPeriod", "D1 ZeroPeriod"),
    ),
    (ScheduleFault::ZeroSize, ("D2", "ZeroSize", "D2 ZeroSize")),
];

/// Asserts a code, a name, and what a fault prints.
fn assert_words<F: Display>(
    rt: &impl Abort,
    alloc: Global,
    (code, name): (&str, &str),
    fault: &F,
    wanted: (&str, &str, &str),
) {
    let printed = format!(in alloc; "{fault}").expect(rt, "memory");
    assert_same(rt, (code, name, printed.as_str()), wanted);
}

/// The same for a fault of a geometry.
fn assert_geometry(
    rt: &impl Abort,
    alloc: Global,
    fault: GeometryFault,
    wanted: (&str, &str, &str),
) {
    assert_words(rt, alloc, (fault.code(), fault.name()), &fault, wanted);
}

/// The same for a fault of a schedule.
fn assert_schedule(
    rt: &impl Abort,
    alloc: Global,
    fault: ScheduleFault,
    wanted: (&str, &str, &str),
) {
    assert_words(rt, alloc, (fault.code(), fault.name()), &fault, wanted);
}

/// Asserts the word of a cause.
fn assert_word(rt: &impl Abort, cause: Cause, wanted: &str) {
    assert_same(rt, cause.word(), wanted);
}

#[test]
fn faults_and_causes_have_words(rt: HostRuntime) {
    for (fault, wanted) in &GEOMETRY {
        assert_geometry(&rt, rt.alloc(), *fault, *wanted);
    }
    for (fault, wanted) in &SCHEDULE {
        assert_schedule(&rt, rt.alloc(), *fault, *wanted);
    }
    assert_word(&rt, Cause::Timer, "timer");
    assert_word(&rt, Cause::Size, "size");
}
