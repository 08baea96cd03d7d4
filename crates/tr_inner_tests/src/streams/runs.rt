//! A list of calls and its answers, worked by hand: sub-buffers of 256 bytes, two to a ring, in discard mode.

use super::Step::{self, Clear, Cut, Offer, Peek, Release, Start, Stop, Take};
use super::{PAYLOAD, PacketRow, Place, assert_at, assert_lists, assert_look, assert_same, small};
use std::alloc::Global;
use std::process::Abort;
use tr_stream::{
    Cleared, CutDone, Offered, Payload, ReleaseFault, Released, Stream, StreamAnswer, StreamEvent,
    TakeFault, Taken, run_stream,
};
use tr_terms::{Mode, SessionMode};
use tr_testing::moment;

/// The offer at 3 closes the first packet, and record 4 is discarded. Record 6 fills a sub-buffer.
static CALLS: [Step; 22] = [
    Start,
    Offer(1, 50, Ok(Offered::Stored { serial: 0, seq: 0 })),
    Offer(2, 50, Ok(Offered::Stored { serial: 1, seq: 0 })),
    Offer(3, 50, Ok(Offered::Stored { serial: 2, seq: 1 })),
    Offer(4, 50, Ok(Offered::Stored { serial: 3, seq: 1 })),
    Offer(5, 50, Ok(Offered::Discarded { serial: 4 })),
    Offer(6, 4, Ok(Offered::Stored { serial: 5, seq: 1 })),
    Peek(
        9,
        (6, 1),
        &[
            PacketRow {
                seq: 0,
                discarded: 0,
                begin: 1,
                end: 3,
                records: &[(0, 1, 50), (1, 2, 50)],
            },
            PacketRow {
                seq: 1,
                discarded: 1,
                begin: 3,
                end: 9,
                records: &[(2, 3, 50), (3, 4, 50), (5, 6, 4)],
            },
        ],
    ),
    Take(Ok(Taken {
        seq: 0,
        count: 2,
        chunk: 0,
    })),
    Take(Err(TakeFault::Nothing)),
    Cut(
        10,
        Ok(CutDone {
            chunk: 0,
            packets: 1,
            records: 3,
        }),
    ),
    Release(
        0,
        Ok(Released {
            packets: 2,
            records: 5,
            bytes: 484,
        }),
    ),
    Release(0, Err(ReleaseFault::Released)),
    Release(1, Err(ReleaseFault::NoPart)),
    Peek(12, (6, 1), &[]),
    Offer(13, 152, Ok(Offered::Stored { serial: 6, seq: 2 })),
    Offer(14, 50, Ok(Offered::Stored { serial: 7, seq: 3 })),
    Take(Ok(Taken {
        seq: 2,
        count: 1,
        chunk: 1,
    })),
    Clear(Ok(Cleared {
        packets: 2,
        records: 2,
    })),
    Clear(Ok(Cleared {
        packets: 0,
        records: 0,
    })),
    Peek(16, (8, 1), &[]),
    Stop,
];

/// The event of a call.
fn event(rt: &impl Abort, alloc: Global, call: &Step) -> StreamEvent {
    match *call {
        Start => StreamEvent::Start,
        Stop => StreamEvent::Stop,
        Offer(at, len, _) => {
            let bytes = PAYLOAD.get(..len).expect(rt, "a short payload");
            let payload = Payload::copy_of(alloc, bytes).expect(rt, "memory");
            StreamEvent::Offer(moment(at), 7, payload)
        }
        Take(_) => StreamEvent::Take,
        Cut(at, _) => StreamEvent::Cut(moment(at)),
        Clear(_) => StreamEvent::Clear,
        Release(k, _) => StreamEvent::Release(k),
        Peek(at, _, _) => StreamEvent::Peek(moment(at)),
        _ => panic!(rt; "a step that is no call"),
    }
}

/// Asserts the answer to a call, in all that it says.
fn assert_answer(rt: &impl Abort, place: Place, answer: &StreamAnswer, call: &Step) {
    match (answer, *call) {
        (StreamAnswer::Offer(found), Offer(_, _, want)) => assert_at(rt, place, *found, want),
        (StreamAnswer::Take(found), Take(want)) => assert_at(rt, place, *found, want),
        (StreamAnswer::Cut(found), Cut(_, want)) => assert_at(rt, place, *found, want),
        (StreamAnswer::Clear(found), Clear(want)) => assert_at(rt, place, *found, want),
        (StreamAnswer::Release(found), Release(_, want)) => assert_at(rt, place, *found, want),
        (StreamAnswer::Peek(Ok(snap)), Peek(_, counts, rows)) => {
            assert_look(rt, place, snap, counts, rows);
        }
        (StreamAnswer::Start, Start) => {}
        (StreamAnswer::Stop, Stop) => {}
        _ => panic!(rt; "an answer of another kind, {place:?}"),
    }
}

/// Runs a stream over these calls, and asserts what each answers.
fn run(rt: &impl Abort, alloc: Global, calls: &[Step]) -> Stream {
    let mut events = Vec::new(alloc);
    for call in calls {
        events.push(event(rt, alloc, call)).expect(rt, "memory");
    }
    let config = small(rt, Mode::Discard, SessionMode::Local);
    let (stream, answers) = run_stream(alloc, config, &events).expect(rt, "a run");
    assert_same(rt, answers.len(), calls.len());
    for (number, call) in calls.iter().enumerate() {
        let answer = answers.get(number).expect(rt, "an answer");
        assert_answer(rt, (0, number), answer, call);
    }
    stream
}

#[test]
fn a_run_answers_each_call(rt: HostRuntime) {
    let counts = run(&rt, rt.alloc(), &CALLS).counts();
    assert_same(&rt, (counts.in_ring, counts.consumed), (0, 6));
    assert_same(&rt, (counts.cleared, counts.withdrawn), (2, 1));
    // the calls themselves answer the same
    let lists: [(Mode, &[Step]); 1] = [(Mode::Discard, &CALLS)];
    assert_lists(&rt, rt.alloc(), SessionMode::Local, &lists);
}
