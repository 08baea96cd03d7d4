//! Whole rotations, which a refusal holds up.

use super::{Asked, NO_MEMORY, Row, Step, Told, refuse_rows};
use tr_schedule::Cause;
use tr_terms::SessionMode;

/// Four streams, each of which holds a packet more than the one before it: so its cut asks for more memory.
const FOUR: [Step; 7] = [
    Step::Channel("c"),
    Step::Threads("c", 4),
    Step::Start,
    Step::Offers(0, 1),
    Step::Offers(1, 3),
    Step::Offers(2, 5),
    Step::Offers(3, 7),
];

/// The same streams, with a packet of 228 bytes taken from the last one, and a schedule at 200 bytes.
const DUE: [Step; 9] = [
    Step::Channel("c"),
    Step::Threads("c", 4),
    Step::Start,
    Step::Offers(0, 1),
    Step::Offers(1, 3),
    Step::Offers(2, 5),
    Step::Offers(3, 8),
    Step::Take(3),
    Step::Schedule(200),
];

/// Three streams after a rotation, with a packet taken from the second one, and a schedule at 1000 bytes.
const ROTATED: [Step; 8] = [
    Step::Channel("c"),
    Step::Threads("c", 3),
    Step::Start,
    Step::Offers(0, 7),
    Step::Rotate(50),
    Step::Offers(1, 3),
    Step::Schedule(1000),
    Step::Take(1),
];

/// A rotation asks for its archive's place before it begins, and a tick for the streams' sizes before that. A cut of an empty
/// ring that had one before asks for nothing.
pub(super) static ROTATIONS: [Row; 4] = [
    Row {
        mode: SessionMode::Local,
        steps: &FOUR,
        asked: Asked::Rotate,
        granted: Told::Archived(Ok((0, 0, 100)), None),
        refused: &[
            Told::Archived(Err(NO_MEMORY), None),
            Told::Archived(Err(NO_MEMORY), Some(0)),
            Told::Archived(Err(NO_MEMORY), Some(1)),
            Told::Archived(Err(NO_MEMORY), Some(2)),
            Told::Archived(Err(NO_MEMORY), Some(3)),
        ],
    },
    Row {
        mode: SessionMode::Local,
        steps: &ROTATED,
        asked: Asked::Rotate,
        granted: Told::Archived(Ok((1, 50, 100)), None),
        refused: &[Told::Archived(Err(NO_MEMORY), Some(1))],
    },
    Row {
        mode: SessionMode::Local,
        steps: &DUE,
        asked: Asked::Tick,
        granted: Told::Ticked(Ok(Some((Cause::Size, (0, 0, 100)))), None),
        refused: &[
            Told::Ticked(Err(NO_MEMORY), None),
            Told::Ticked(Err(NO_MEMORY), Some(0)),
            Told::Ticked(Err(NO_MEMORY), Some(1)),
            Told::Ticked(Err(NO_MEMORY), Some(2)),
            Told::Ticked(Err(NO_MEMORY), Some(3)),
        ],
    },
    // it isn't due: the sizes alone
    Row {
        mode: SessionMode::Local,
        steps: &ROTATED,
        asked: Asked::Tick,
        granted: Told::Ticked(Ok(None), None),
        refused: &[Told::Ticked(Err(NO_MEMORY), None)],
    },
];

#[test]
fn a_rotation_without_memory_is_held_up_where_it_is(rt: HostRuntime) {
    let (tried, refused) = refuse_rows(&rt, rt.alloc(), &ROTATIONS);
    assert!(rt; tried >= 700, "{tried}");
    assert!(rt; refused >= 20, "{refused}");
}
