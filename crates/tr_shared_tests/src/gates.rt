//! What a pool's workers ask their gate and tell it.

use crate::plans::{assert_same, granted};
use std::sync::Wait;
use std::sync::atomic::{AtomicU64, Ordering};
use std::test::*;
use tr_pool::{Gate, Target, drain_all};
use tr_stream::{TakeFault, Taken};

/// A target of two streams and its gate, which note each worker's calls, a digit each. A seat is the number of its worker.
#[derive(Drop)]
struct Noting {
    calls: [AtomicU64; 3],
}

impl Noting {
    /// Notes a worker's call.
    fn note(&self, worker: usize, digit: u64) {
        if let Some(calls) = self.calls.get(worker) {
            let before = calls.load(Ordering::SeqCst);
            calls.store(
                before.wrapping_mul(10).wrapping_add(digit),
                Ordering::SeqCst,
            );
        }
    }
}

impl Target for Noting {
    ghost use Rattle.std.specs.Prelude.{⊤};

    type Seat = usize;

    ghost stream_count = { λ _. 2 };

    ghost takes = { λ _ _ _ _ _. ⊤ };

    fn streams(&self) -> usize {
        2
    }

    fn take_at<R: Wait>(&self, _rt: &R, seat: &mut usize, i: usize) -> Result<Taken, TakeFault> {
        self.note(*seat, (i as u64).wrapping_add(8));
        Err(TakeFault::Nothing)
    }
}

impl Gate for Noting {
    ghost use Rattle.std.specs.Prelude.{⊤};

    ghost lets = { λ _ _ _ _. ⊤ };

    fn before(&self, worker: usize, turn: u64) -> bool {
        self.note(worker, turn.wrapping_mul(2).wrapping_add(1));
        turn < 2
    }

    fn after(&self, worker: usize, turn: u64) {
        self.note(worker, turn.wrapping_mul(2).wrapping_add(2));
    }
}

/// How many workers there are, and what each calls: 1 before turn 0 and 2 after it, 3 and 4 with turn 1, 5 before turn 2, and
/// 8 or 9 for a take from stream 0 or 1. A worker without a stream calls nothing.
static RUNS: [(usize, [u64; 3]); 3] = [
    (0, [0, 0, 0]),
    (1, [1_823_945, 0, 0]),
    (3, [1_823_845, 1_923_945, 0]),
];

#[test]
fn a_gate_is_asked_before_each_turn_and_told_after_it(rt: HostRuntime) {
    let alloc = rt.alloc();
    for (workers, expected) in &RUNS {
        let noting = Noting {
            calls: [AtomicU64::new(0), AtomicU64::new(0), AtomicU64::new(0)],
        };
        let mut seats = vec![in alloc; 0, 1, 2].expect(&rt, "memory");
        seats.truncate(*workers);
        let answer = drain_all(&rt, alloc, &noting, seats, &noting);
        let seats = granted(&rt, answer, "workers");
        assert_same(&rt, seats.len(), *workers);
        'workers: for (worker, calls) in noting.calls.iter().enumerate() {
            if let Some(seat) = seats.get(worker) {
                assert_same(&rt, *seat, worker);
            }
            assert_same(
                &rt,
                Some(&calls.load(Ordering::SeqCst)),
                expected.get(worker),
            );
        }
    }
}
