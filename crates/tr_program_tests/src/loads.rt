//! Loads, what is said of them, and their logs beside what their sessions hold.

use crate::asserting::assert_same;
use std::alloc::Global;
use std::fmt::Display;
use std::process::Abort;
use std::sync::Wait;
use std::test::*;
use std::thread::Threads;
use std::time::Clock;
use tr_load::{LoadFault, Loaded, NoProgress, load, load_work, outcome_text};
use tr_pool::{Items, Log, Mismatch, PoolError, Report, reconcile};
use tr_terms::limits::{MOST_FEEDERS, MOST_RECORDS, MOST_WORKERS};

/// A load of `threads` threads with `records` records each, and of so many workers.
fn loaded<R: Threads + Wait + Clock + Abort + Sync>(
    rt: &R,
    alloc: Global,
    threads: usize,
    records: u64,
    workers: usize,
) -> Loaded {
    assert!(rt; threads <= MOST_FEEDERS && records <= MOST_RECORDS);
    assert!(rt; 1 <= workers && workers <= MOST_WORKERS);
    load(rt, alloc, threads, records, workers, false, &NoProgress).expect(rt, "a load")
}

/// How many records of a load two rings hold: each has two sub-buffers of 65,536 bytes, with a head of 80 and records of 32. The
/// rotation leaves what one ring holds in chunks, and a worker that makes one round a packet more.
const TWO_RINGS: u128 = 8180;

/// How often a load is run until its worker took enough. One run may not do, since a worker that no processor runs takes nothing.
const RUNS: u64 = 20;

/// What came of a load of 100,000 records whose worker took packets while they were offered.
fn drained_report<R: Threads + Wait + Clock + Abort + Sync>(rt: &R, alloc: Global) -> Report {
    'runs: for _ in 0..RUNS {
        let loaded = loaded(rt, alloc, 1, 100_000, 1);
        let report = loaded.outcome.expect(rt, "agreement");
        if report.in_chunks > TWO_RINGS {
            return report;
        }
    }
    panic!(rt; "the worker takes nothing while records are offered")
}

#[test]
fn a_worker_takes_while_records_are_offered(rt: HostRuntime) {
    let report = drained_report(&rt, rt.alloc());
    assert_same(&rt, report.offered, 100_000);
    let told = report.discarded.checked_add(report.in_chunks);
    assert_same(&rt, told, Some(100_000));
}

/// The log of a feeder that offered `records` records of a load, the second of them with this id.
fn log_with(rt: &impl Abort, alloc: Global, records: u64, id: u32) -> Vec<Log> {
    assert!(rt; records <= MOST_RECORDS);
    let mut items = load_work(alloc, 0, records).expect(rt, "memory");
    items.get_mut(1).expect(rt, "an item").id = id;
    let log = Log {
        stream: 0,
        items: Items::new(items),
    };
    vec![in alloc; log].expect(rt, "memory")
}

/// The second record of a load has the id 1. All three fit the ring.
#[test]
fn logs_are_reconciled(rt: HostRuntime) {
    let loaded = loaded(&rt, rt.alloc(), 1, 3, 1);
    let report = Report {
        offered: 3,
        discarded: 0,
        overwritten: 0,
        in_ring: 0,
        in_chunks: 3,
        cleared: 0,
    };
    let wrong = Mismatch::WrongRecord {
        stream: 0,
        serial: 1,
    };
    let none = Mismatch::LogLength { stream: 0 };
    for (records, id, wanted) in [(3, 1, Ok(report)), (3, 7, Err(wrong)), (2, 1, Err(none))] {
        let logs = log_with(&rt, rt.alloc(), records, id);
        assert_same(&rt, reconcile(&loaded.settled, logs.as_slice()), wanted);
        drop(logs);
    }
    assert_same(&rt, reconcile(&loaded.settled, &[]), Err(none));
    drop(loaded);
}

/// Numbers of threads, mismatches, and what is said of them.
static MISMATCHES: [(u64, Result<Report, Mismatch>, &str); 2] = [
    (
        4,
        Err(Mismatch::WrongRecord {
            stream: 3,
            serial: 17,
        }),
        "mismatch stream 3 serial 17\n",
    ),
    (
        256,
        Err(Mismatch::LogLength { stream: 255 }),
        "mismatch stream 255 log\n",
    ),
];

#[test]
fn mismatches_are_told_in_a_line(rt: HostRuntime) {
    for (threads, outcome, expected) in &MISMATCHES {
        let text = outcome_text(rt.alloc(), *threads, outcome, Some(7)).expect(&rt, "memory");
        assert_same(&rt, text.as_str(), expected);
    }
}

/// Asserts what a fault prints, and its code and its name.
fn assert_named(
    rt: &impl Abort,
    alloc: Global,
    fault: &impl Display,
    (code, name): (&str, &str),
    text: &str,
) {
    let printed = format!(in alloc; "{fault}").expect(rt, "memory");
    assert_same(rt, printed.as_str(), text);
    let words = format!(in alloc; "{code} {name}").expect(rt, "memory");
    assert_same(rt, words.as_str(), text);
}

fn assert_pool(rt: &impl Abort, alloc: Global, fault: PoolError, text: &str) {
    assert_named(rt, alloc, &fault, (fault.code(), fault.name()), text);
}

fn assert_load(rt: &impl Abort, alloc: Global, fault: LoadFault, text: &str) {
    let printed = format!(in alloc; "{fault}").expect(rt, "memory");
    assert_same(rt, printed.as_str(), text);
}

fn assert_mismatch(rt: &impl Abort, alloc: Global, fault: Mismatch, text: &str) {
    assert_named(rt, alloc, &fault, (fault.code(), fault.name()), text);
}

#[test]
fn faults_have_their_codes_and_names(rt: HostRuntime) {
    let alloc = rt.alloc();
    assert_pool(&rt, alloc, PoolError::NoThread, "U1 NoThread");
    assert_pool(&rt, alloc, PoolError::NoMemory, "U2 NoMemory");
    let wrong = Mismatch::WrongRecord {
        stream: 3,
        serial: 17,
    };
    assert_mismatch(&rt, alloc, wrong, "M1 WrongRecord");
    let none = Mismatch::LogLength { stream: 3 };
    assert_mismatch(&rt, alloc, none, "M2 LogLength");
    assert_load(&rt, alloc, LoadFault::NoMemory, "no memory");
    let misplaced = "something isn't in its place";
    assert_load(&rt, alloc, LoadFault::Misplaced, misplaced);
}
