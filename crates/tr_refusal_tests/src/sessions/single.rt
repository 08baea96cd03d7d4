//! Calls that change nothing if they are refused.

use super::{Asked, NO_MEMORY, Row, Step, THREE, Told, refuse_rows};
use tr_session::{Next, StepFault};
use tr_stream::{CutDone, CutFault, TakeFault, Taken};
use tr_terms::SessionMode;

const NO_TAKE: Told = Told::Taken(Err(StepFault::Take(TakeFault::NoMemory)));

const NO_CUT: StepFault = StepFault::Cut(CutFault::NoMemory);

static ADDING: [Row; 5] = [
    Row {
        mode: SessionMode::Local,
        steps: &[],
        asked: Asked::Channel("c"),
        granted: Told::Done(Ok(())),
        refused: &[Told::Done(Err(NO_MEMORY))],
    },
    Row {
        mode: SessionMode::Snapshot,
        steps: &[Step::Channel("c")],
        asked: Asked::Channel("d"),
        granted: Told::Done(Ok(())),
        refused: &[Told::Done(Err(NO_MEMORY))],
    },
    Row {
        mode: SessionMode::Local,
        steps: &[Step::Channel("c")],
        asked: Asked::Thread,
        granted: Told::Number(Ok(0)),
        refused: &[Told::Number(Err(NO_MEMORY))],
    },
    Row {
        mode: SessionMode::Local,
        steps: &[Step::Channel("c"), Step::Threads("c", 4)],
        asked: Asked::Thread,
        granted: Told::Number(Ok(4)),
        refused: &[Told::Number(Err(NO_MEMORY))],
    },
    Row {
        mode: SessionMode::Snapshot,
        steps: &[
            Step::Channel("d"),
            Step::Channel("c"),
            Step::Threads("d", 1),
        ],
        asked: Asked::Thread,
        granted: Told::Number(Ok(1)),
        refused: &[Told::Number(Err(NO_MEMORY))],
    },
];

/// The same, with a rotation that has begun.
pub(super) const BEGUN: [Step; 6] = [
    Step::Channel("c"),
    Step::Threads("c", 3),
    Step::Start,
    Step::Offers(0, 7),
    Step::Offers(2, 1),
    Step::Begin(50),
];

static STEPS: [Row; 6] = [
    Row {
        mode: SessionMode::Local,
        steps: &THREE,
        asked: Asked::Take(0),
        granted: Told::Taken(Ok(Taken {
            seq: 0,
            count: 2,
            chunk: 0,
        })),
        refused: &[NO_TAKE],
    },
    Row {
        mode: SessionMode::Local,
        steps: &THREE,
        asked: Asked::Begin,
        granted: Told::Number(Ok(0)),
        refused: &[Told::Number(Err(NO_MEMORY))],
    },
    Row {
        mode: SessionMode::Local,
        steps: &BEGUN,
        asked: Asked::Cut(0),
        granted: Told::Cut(Ok(CutDone {
            chunk: 0,
            packets: 4,
            records: 7,
        })),
        refused: &[Told::Cut(Err(NO_CUT))],
    },
    Row {
        mode: SessionMode::Local,
        steps: &BEGUN,
        asked: Asked::Next,
        granted: Told::Next(Ok(Next::Cut {
            stream: 0,
            records: 7,
        })),
        refused: &[Told::Next(Err(NO_CUT))],
    },
    Row {
        mode: SessionMode::Snapshot,
        steps: &THREE,
        asked: Asked::Snapshot,
        granted: Told::Shown(Ok((100, 5, 992))),
        refused: &[Told::Shown(Err(NO_MEMORY))],
    },
    Row {
        mode: SessionMode::Snapshot,
        steps: &THREE,
        asked: Asked::Look(0),
        granted: Told::Shown(Ok((100, 4, 838))),
        refused: &[Told::Shown(Err(NO_MEMORY))],
    },
];

#[test]
fn a_call_of_a_session_without_memory_changes_nothing(rt: HostRuntime) {
    let (added, adding) = refuse_rows(&rt, rt.alloc(), &ADDING);
    assert!(rt; added >= 250, "{added}");
    assert!(rt; adding >= 15, "{adding}");
    let (stepped, stepping) = refuse_rows(&rt, rt.alloc(), &STEPS);
    assert!(rt; stepped >= 500, "{stepped}");
    assert!(rt; stepping >= 10, "{stepping}");
}
