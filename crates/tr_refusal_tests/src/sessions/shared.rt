//! Calls of a session that threads share. It is settled after each, and what it was settled with is compared with a session of
//! one owner that did the same with memory.

ghost use Rattle.std.specs.Prelude.{◌≡◌};

mod calls;
mod clearing;
mod free;
mod making;
mod steps;

use super::alike::assert_same_session;
use super::{Row, Told, ask, cuts_made, held_after};
use crate::scarce::{UNIT, fill_all_but, small_heap};
use crate::turns::{Call, MOST, Turns, assert_same};
use linked_list_allocator::LocalHeap;
use std::alloc::{Allocator, Global};
use std::marker::Brand;
use std::process::Abort;
use std::sync::Wait;
use steps::{Seated, again_with, asked_of, built, make_steps, planned};
use tr_session::Session;
use tr_shared::{Names, Plan, Totals};
use tr_testing::moment;

/// What a session is settled with: how many records were offered and how many are in chunks, over all streams, and how many
/// parts of each stream are closed.
type Sums = (u128, u128, &'static [u64]);

/// A call of a shared session, with what it is settled with after each of its refusals, and at last after its ordinary answer.
#[derive(Clone, Copy)]
struct Case<'a> {
    row: &'a Row,
    sums: &'a [Sums],
}

/// The outcome of a call of a shared session: its answer, and what the session was settled with after it.
#[derive(Drop)]
struct Worked<A: Allocator> {
    told: Told,
    session: Session<A>,
    totals: Totals,
}

/// Settles a session without a free byte.
fn settle<'h, N: Names>(
    rt: &impl Abort,
    plain: Global,
    heap: &'h LocalHeap,
    seated: Seated<N, &'h LocalHeap>,
) -> (Session<&'h LocalHeap>, Totals) {
    let Seated {
        shared,
        producers,
        drainers,
    } = seated;
    let blocks = fill_all_but(rt, plain, heap, 0);
    let answer = shared.settle(producers, drainers);
    drop(blocks);
    match answer {
        Ok((settled, totals)) => (settled.into_session(), totals),
        Err(_) => panic!(rt; "not settled"),
    }
}

/// How many free bytes a call has, and the refusal after which it is made again with memory, if it is.
type Memory = (usize, Option<Told>);

/// Makes the steps of a row, then its call with so many free bytes, and settles the session.
fn work<'h, N: Names>(
    rt: &(impl Abort + Wait),
    plain: Global,
    heap: &'h LocalHeap,
    row: &Row,
    memory: Memory,
    plan: Plan<&'h LocalHeap>,
) -> Worked<&'h LocalHeap>
    requires { plan ≡ N.plan }
{
    let (bytes, refusal) = memory;
    let mut seated = built::<N, &'h LocalHeap>(rt, heap, plan);
    make_steps(rt, &mut seated, row.steps);
    let blocks = fill_all_but(rt, plain, heap, bytes);
    let mut told = asked_of(rt, &mut seated, row.asked, moment(100));
    drop(blocks);
    if let Some(refusal) = refusal {
        assert_same(rt, with_cuts(told, held_after(refusal)), refusal);
        told = again_with(rt, &mut seated, row, refusal);
    }
    let (session, totals) = settle(rt, plain, heap, seated);
    Worked {
        told: with_cuts(told, cuts_made(&session)),
        session,
        totals,
    }
}

/// The same of a session that is planned for it.
fn work_anew<'h>(
    rt: &(impl Abort + Wait),
    plain: Global,
    heap: &'h LocalHeap,
    row: &Row,
    memory: Memory,
) -> Worked<&'h LocalHeap> {
    let plan = planned(rt, heap, row.mode, row.steps);
    work::<Brand>(rt, plain, heap, row, memory, plan)
}

/// The same answer, with the cuts that a rotation that is held up has made.
fn with_cuts(told: Told, cuts: Option<u64>) -> Told {
    match told {
        Told::Archived(answer, _) => Told::Archived(answer, cuts),
        Told::Ticked(answer, _) => Told::Ticked(answer, cuts),
        _ => told,
    }
}

/// Does to a session of one owner what the call with this answer did.
fn follow<A: Allocator + Copy>(rt: &impl Abort, row: &Row, told: Told, session: &mut Session<A>) {
    if told == row.granted {
        assert_same(rt, ask(rt, session, row.asked), row.granted);
    } else {
        leave(rt, row, told, session);
    }
}

/// Does to a session of one owner what the refused call did: a snapshot has stored its moment.
fn leave<A: Allocator + Copy>(rt: &impl Abort, row: &Row, refusal: Told, session: &mut Session<A>) {
    match refusal {
        Told::Shown(_) => {
            let stored = session.snapshot_begin(moment(100));
            assert_same(rt, stored, Ok(moment(100)));
        }
        _ => row.leave(rt, refusal, session),
    }
}

/// Asserts what a session was settled with.
fn assert_sums<A: Allocator>(rt: &impl Abort, worked: &Worked<A>, sums: Sums) {
    let (offered, consumed, parts) = sums;
    let mut cuts = 0u128;
    for i in 0..worked.session.streams() {
        let closed = worked.session.stream(i).map(|stream| stream.counts().cuts);
        assert_same(rt, closed, parts.get(i as usize).copied());
        cuts = cuts.wrapping_add(u128::from(closed.unwrap_or(0)));
    }
    let totals = Totals {
        offered,
        discarded: 0,
        overwritten: 0,
        overwritten_packets: 0,
        consumed,
        cuts,
        cleared: 0,
    };
    assert_same(rt, worked.totals, totals);
}

impl<'a> Case<'a> {
    /// Asserts what a call with this answer left: what the session was settled with, and that nothing tells it from another.
    fn assert_stands<A: Allocator + Copy>(
        &self,
        rt: &impl Abort,
        worked: &Worked<A>,
        like: &Session<A>,
    ) {
        let refused = self.row.refused;
        let number = if worked.told == self.row.granted {
            refused.len()
        } else {
            let number = refused.iter().position(|told| *told == worked.told);
            number.expect(rt, "a refusal of the row")
        };
        assert_sums(rt, worked, *self.sums.get(number).expect(rt, "sums"));
        assert_same_session(rt, &worked.session, like);
    }
}

/// Makes a call with `bytes` free bytes, and settles the session. If it was refused, all is done once more, and the call made
/// again with memory before that. Its first answer.
fn make_case<'h>(
    rt: &(impl Abort + Wait),
    plain: Global,
    heap: &'h LocalHeap,
    case: &Case<'_>,
    bytes: usize,
) -> Told {
    let row = case.row;
    let worked = work_anew(rt, plain, heap, row, (bytes, None));
    let told = worked.told;
    let mut like = row.object(rt, heap);
    follow(rt, row, told, &mut like);
    case.assert_stands(rt, &worked, &like);
    drop(worked);
    if told != row.granted {
        let worked = work_anew(rt, plain, heap, row, (bytes, Some(told)));
        assert_same(rt, worked.told, row.granted);
        assert_same(rt, row.make_again(rt, told, &mut like), row.granted);
        case.assert_stands(rt, &worked, &like);
        drop(worked);
    }
    drop(like);
    told
}

/// Makes the call of a case with more and more memory until it isn't refused. How often it was.
fn refuse_case(
    rt: &(impl Abort + Wait),
    plain: Global,
    heap: &LocalHeap,
    case: &Case<'_>,
) -> usize {
    let mut turns = Turns::new();
    for times in 0..MOST {
        let bytes = times.wrapping_mul(UNIT);
        let told = make_case(rt, plain, heap, case, bytes);
        let next = case.row.refused.get(turns.seen()).copied();
        if turns.is_last(rt, bytes, told, (case.row.granted, next)) {
            return times;
        }
    }
    panic!(rt; "no end of refusals")
}

/// Makes the calls of some rows, each with its sums. How often they were refused.
fn refuse_cases(rt: &(impl Abort + Wait), plain: Global, rows: &[Row], sums: &[&[Sums]]) -> usize {
    let heap = small_heap(rt, plain);
    assert_same(rt, rows.len(), sums.len());
    let mut tried = 0usize;
    for (row, sums) in rows.iter().zip(sums.iter()) {
        let case = Case { row, sums: *sums };
        tried = tried.wrapping_add(refuse_case(rt, plain, &heap, &case));
    }
    tried
}
