//! Worked examples of ledgers and their seats.

use super::assert_same;
use std::process::Abort;
use tr_ledger::{Ledger, Seat};

/// Asserts the total of a ledger, how many seats were made, and the amount of a seat.
fn assert_ledger(rt: &impl Abort, ledger: &Ledger, seat: &Seat, wanted: (u64, u64, u64)) {
    let found = (ledger.total(), ledger.made(), seat.amount());
    assert_same(rt, found, wanted);
}

#[test]
fn seats_share_a_total(rt: HostRuntime) {
    let (mut ledger, mut first) = Ledger::open(rt.alloc()).expect(&rt, "memory");
    assert_ledger(&rt, &ledger, &first, (0, 0, 0));
    ledger.raise_by_one(&mut first);
    let mut second = ledger.split();
    ledger.raise(&mut second, 40);
    ledger.raise_by_one(&mut second);
    ledger.raise(&mut first, 0);
    ledger.audit(&mut first);
    assert_ledger(&rt, &ledger, &first, (42, 1, 1));
    assert_ledger(&rt, &ledger, &second, (42, 1, 41));
    ledger.join(&mut first, second);
    ledger.audit(&mut first);
    assert_ledger(&rt, &ledger, &first, (42, 1, 42));
}

#[test]
fn a_dropped_seat_keeps_its_share(rt: HostRuntime) {
    let (mut ledger, mut first) = Ledger::open(rt.alloc()).expect(&rt, "memory");
    let mut second = ledger.split();
    ledger.raise(&mut second, u64::MAX - 1);
    drop(second);
    ledger.raise_by_one(&mut first);
    ledger.audit(&mut first);
    assert_ledger(&rt, &ledger, &first, (u64::MAX, 1, 1));
}
