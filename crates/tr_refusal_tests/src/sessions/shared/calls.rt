//! The calls that ask for memory.

use super::super::rotations::ROTATIONS;
use super::super::single::BEGUN;
use super::super::{Asked, NO_MEMORY, Row, Step, THREE, Told};
use super::{Sums, refuse_cases};
use tr_session::{Next, StepFault};
use tr_stream::{TakeFault, Taken};
use tr_terms::SessionMode;

static CALLS: [Row; 6] = [
    Row {
        mode: SessionMode::Local,
        steps: &THREE,
        asked: Asked::Take(0),
        granted: Told::Taken(Ok(Taken {
            seq: 0,
            count: 2,
            chunk: 0,
        })),
        refused: &[Told::Taken(Err(StepFault::Take(TakeFault::NoMemory)))],
    },
    Row {
        mode: SessionMode::Local,
        steps: &THREE,
        asked: Asked::Begin,
        granted: Told::Number(Ok(0)),
        refused: &[Told::Number(Err(NO_MEMORY))],
    },
    Row {
        mode: SessionMode::Local,
        steps: &BEGUN,
        asked: Asked::Next,
        granted: Told::Next(Ok(Next::Cut {
            stream: 0,
            records: 7,
        })),
        refused: &[Told::Next(Err(StepFault::Session(NO_MEMORY)))],
    },
    Row {
        mode: SessionMode::Snapshot,
        steps: &THREE,
        asked: Asked::Snapshot,
        granted: Told::Shown(Ok((100, 5, 992))),
        refused: &[Told::Shown(Err(NO_MEMORY))],
    },
    Row {
        mode: SessionMode::Snapshot,
        steps: &THREE,
        asked: Asked::SnapshotWith(2),
        granted: Told::Shown(Ok((100, 5, 992))),
        refused: &[Told::Shown(Err(NO_MEMORY))],
    },
    Row {
        mode: SessionMode::Local,
        steps: &THREE,
        asked: Asked::Drainer,
        granted: Told::Done(Ok(())),
        refused: &[Told::Done(Err(NO_MEMORY))],
    },
];

/// A take moves two records to a chunk, and the first stream's cut all seven that it has. Nothing else does.
static CALL_SUMS: [&[Sums]; 6] = [
    &[(8, 0, &[0, 0, 0]), (8, 2, &[0, 0, 0])],
    &[(8, 0, &[0, 0, 0]), (8, 0, &[0, 0, 0])],
    &[(8, 0, &[0, 0, 0]), (8, 7, &[1, 0, 0])],
    &[(8, 0, &[0, 0, 0]), (8, 0, &[0, 0, 0])],
    &[(8, 0, &[0, 0, 0]), (8, 0, &[0, 0, 0])],
    &[(8, 0, &[0, 0, 0]), (8, 0, &[0, 0, 0])],
];

#[test]
fn a_call_of_a_shared_session_without_memory_changes_nothing_else(rt: HostRuntime) {
    let tried = refuse_cases(&rt, rt.alloc(), &CALLS, &CALL_SUMS);
    assert!(rt; tried >= 400, "{tried}");
}

/// What whole rotations leave: the cuts that were made are of the first streams, and moved all that these had.
static ROTATION_SUMS: [&[Sums]; 4] = [
    &[
        (16, 0, &[0, 0, 0, 0]),
        (16, 0, &[0, 0, 0, 0]),
        (16, 1, &[1, 0, 0, 0]),
        (16, 4, &[1, 1, 0, 0]),
        (16, 9, &[1, 1, 1, 0]),
        (16, 16, &[1, 1, 1, 1]),
    ],
    &[(10, 9, &[2, 1, 1]), (10, 10, &[2, 2, 2])],
    &[
        (17, 2, &[0, 0, 0, 0]),
        (17, 2, &[0, 0, 0, 0]),
        (17, 3, &[1, 0, 0, 0]),
        (17, 6, &[1, 1, 0, 0]),
        (17, 11, &[1, 1, 1, 0]),
        (17, 17, &[1, 1, 1, 1]),
    ],
    &[(10, 9, &[1, 1, 1]), (10, 9, &[1, 1, 1])],
];

#[test]
fn a_shared_rotation_without_memory_is_held_up_where_it_is(rt: HostRuntime) {
    let tried = refuse_cases(&rt, rt.alloc(), &ROTATIONS, &ROTATION_SUMS);
    assert!(rt; tried >= 800, "{tried}");
}
