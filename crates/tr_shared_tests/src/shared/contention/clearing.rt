//! A clear, beside which a rotation would begin.

ghost use Rattle.std.specs.Prelude.{◌≡◌};

use super::{TURNS, offer_one, raise, reached};
use crate::plans::{assert_same, last, plan_of, push};
use crate::shared::{assert_started, built};
use std::alloc::Global;
use std::marker::Brand;
use std::process::Abort;
use std::sync::Wait;
use std::sync::atomic::AtomicU64;
use std::test::*;
use std::thread;
use std::thread::Threads;
use tr_session_book::SessionFault;
use tr_shared::{Names, Offers, Plan, Producer, Shared};
use tr_stream::Offered;
use tr_terms::Mode;
use tr_testing::moment;

/// How many turns a call is left to be answered while the last stream is held.
const UNANSWERED_TURNS: u64 = 10_000;

/// What threads tell each other, each by a count.
#[derive(Drop)]
struct Meeting {
    /// The last stream is held.
    held: AtomicU64,
    /// The clear came to the last stream, and a rotation is to begin.
    begun: AtomicU64,
    /// The clear or the rotation's beginning was answered.
    answered: AtomicU64,
}

/// What is done while the last stream is held: the clear waits for it, and the rotation's beginning for the desk.
fn wait_unanswered(rt: &impl Abort, meeting: &Meeting) {
    raise(&meeting.held);
    assert!(rt;
        reached(&meeting.begun, 1, TURNS),
        "no rotation is to begin"
    );
    let answered = reached(&meeting.answered, 1, UNANSWERED_TURNS);
    assert!(rt; !answered, "a clear lets a rotation begin in between");
}

/// Holds the second stream, which is the last one.
fn hold_last<N: Names>(rt: &(impl Abort + Wait), shared: &Shared<N>, meeting: &Meeting) {
    assert!(rt; 1 < shared.streams());
    shared.hold_stream(rt, 1, || wait_unanswered(rt, meeting))
}

/// Clears the session once its last stream is held.
fn clear_held<N: Names>(
    rt: &(impl Abort + Wait),
    shared: &Shared<N>,
    meeting: &Meeting,
) -> Result<u128, SessionFault> {
    assert!(rt; reached(&meeting.held, 1, TURNS), "the hold doesn't begin");
    let answer = shared.clear(rt);
    raise(&meeting.answered);
    answer
}

/// Offers to a full ring until a record is stored, since the ring was cleared. Says whether one was.
fn is_cleared<N: Names>(
    rt: &(impl Abort + Wait),
    shared: &Shared<N>,
    producer: &mut Producer<N>,
) -> bool {
    for _ in 0..TURNS {
        let answer = producer.offer(rt, shared, moment(8), 1, b"");
        if let Ok(Offered::Stored { .. }) = answer {
            return true;
        }
        thread::yield_now();
    }
    false
}

/// Begins a rotation once the first stream is cleared.
fn begin_held<N: Names>(
    rt: &(impl Abort + Wait),
    shared: &Shared<N>,
    meeting: &Meeting,
    first: &mut Producer<N>,
) -> Result<u64, SessionFault> {
    assert!(rt; reached(&meeting.held, 1, TURNS), "the hold doesn't begin");
    assert!(rt;
        is_cleared(rt, shared, first),
        "no clear of the first stream"
    );
    raise(&meeting.begun);
    let answer = shared.rotate_begin(rt, moment(9));
    raise(&meeting.answered);
    answer
}

/// What a thread does while the last stream is held.
#[derive(Drop)]
enum Call<N: Names> {
    /// To clear the session.
    Clear,
    /// To begin a rotation, once the stream of this producer is cleared.
    Begin(Producer<N>),
}

/// What it was answered.
#[derive(Clone, Copy, Debug, PartialEq, Drop)]
enum Answer {
    Cleared(Result<u128, SessionFault>),
    Begun(Result<u64, SessionFault>),
}

/// What a call is answered.
fn answer_to<N: Names>(
    rt: &(impl Abort + Wait),
    shared: &Shared<N>,
    meeting: &Meeting,
    call: Call<N>,
) -> Answer {
    match call {
        Call::Clear => Answer::Cleared(clear_held(rt, shared, meeting)),
        Call::Begin(mut first) => Answer::Begun(begin_held(rt, shared, meeting, &mut first)),
    }
}

/// The calls' answers. A thread holds the last stream meanwhile.
fn answers_to<N: Names + Send + Sync, R: Threads + Wait + Abort + Sync>(
    rt: &R,
    shared: &Shared<N>,
    calls: Vec<Call<N>>,
) -> Vec<Answer> {
    let meeting = Meeting {
        held: AtomicU64::new(0),
        begun: AtomicU64::new(0),
        answered: AtomicU64::new(0),
    };
    let (_, answers) = thread::join(
        rt,
        || hold_last(rt, shared, &meeting),
        || thread::map_vec(rt, calls, &|call| answer_to(rt, shared, &meeting, call)),
    );
    answers.expect(rt, "memory")
}

/// A clear holds the desk until all streams are cleared: a rotation that begins meanwhile comes after it.
fn clears<N: Names + Send + Sync, R: Threads + Wait + Abort + Sync>(
    rt: &R,
    alloc: Global,
    plan: Plan,
)
    requires { plan ≡ N.plan }
{
    let (shared, mut producers) = built::<N>(rt, plan);
    assert_started(rt, &shared, 0, Ok(()));
    let second = last(rt, &mut producers);
    let mut first = last(rt, &mut producers);
    // both sub-buffers are full: of two records of 50 bytes, the second of one of 4 bytes more
    for k in 0..4 {
        offer_one(rt, &shared, &mut first, k);
    }
    let answer = first.offer(rt, &shared, moment(4), 1, b"1234");
    assert_same(rt, answer, Ok(Offered::Stored { serial: 4, seq: 1 }));
    let mut calls = Vec::new(alloc);
    push(rt, &mut calls, Call::Clear);
    push(rt, &mut calls, Call::Begin(first));
    let answers = answers_to(rt, &shared, calls);
    assert_same(rt, answers.contains(&Answer::Cleared(Ok(5))), true);
    assert_same(rt, answers.contains(&Answer::Begun(Ok(0))), true);
    drop(answers);
    drop(second);
    drop(producers);
}

#[test]
fn a_clear_lets_no_rotation_begin_in_between(rt: HostRuntime) {
    let plan = plan_of(&rt, rt.alloc(), Mode::Discard, 2);
    clears::<Brand, HostRuntime>(&rt, rt.alloc(), plan);
}
