//! Who operates a session, in a name of one's own.

ghost use Rattle.std.specs.List.{AllByRecursion};
ghost use Rattle.std.specs.Prelude.{◌≡◌, ◌<◌, ◌↔◌, IsTrue};
ghost use Rattle.tr_seats.specs.Operators.{AreAllOperators, AreOperators, DidAll, HasItsOwn, IsNumber, operators_of};

use crate::names::Names;
use std::alloc::Allocator;
use std::marker::{Model, PhantomData};
use tr_journal::{Journal, Seat};
use tr_operations::DeskStep;

/// The right to operate at a session's desk in a name of one's own. Contracts see an `OperatorState`: its number among all that
/// were made, and what its holder did there, in order, with what was answered. Settling doesn't ask for it.
#[derive(Drop)]
pub struct Operator<N: Names> {
    // how many were made when it was, or the largest number
    pub(crate) number: u128,
    pub(crate) seat: Seat<DeskStep>,
    pub(crate) of: PhantomData<N>,
}

impl<N: Names> Model for Operator<N> {
    ghost use Rattle.tr_seats.specs.Operators.{IsOperatorSeat, OperatorState, operator_state};

    ghost Value = { OperatorState };

    ghost view = { λ o. operator_state o.seat.who o.seat.own };

    ghost invariant = { λ o. IsOperatorSeat N.plan.desk o.number o.seat };
}

/// Changes nothing, and shows that what an operator did is all that is noted in its seat's name. Answers its number.
fn audit_operator<N: Names, A: Allocator>(
    journal: &mut Journal<DeskStep, A>,
    operator: &mut Operator<N>,
) -> u128
    requires { journal.old.table ≡ N.plan.desk }
    ensures same { (journal.new ≡ journal.old) × (operator.new ≡ operator.old) }
    ensures own { HasItsOwn journal.old.lines operator.old }
    ensures number { IsNumber result operator.old.number }
{
    journal.audit(&mut operator.seat);
    operator.number
}

/// Changes nothing, and shows that what each of these operators did is all that is noted in its seat's name. Answers whether
/// these are all operators that were made, in that order: then each step that is noted is one of theirs.
pub(crate) fn audit_operators<N: Names, A: Allocator>(
    journal: &mut Journal<DeskStep, A>,
    operators: &mut [Operator<N>],
    made: u128,
) -> bool
    requires table { journal.old.table ≡ N.plan.desk }
    requires theirs { AreOperators journal.old.made journal.old.lines }
    requires first { 0 < journal.old.made }
    requires made { IsNumber made (operators_of journal.old.made) }
    ensures same { (journal.new ≡ journal.old) × (operators.new ≡ operators.old) }
    ensures own { AllByRecursion (HasItsOwn journal.old.lines) operators.old }
    ensures lent { IsTrue result ↔ AreAllOperators (operators_of journal.old.made) operators.old }
    ensures none_missing { IsTrue result → DidAll operators.old journal.old.lines }
{
    let mut in_order = true;
    for k in 0..operators.len() {
        let number = audit_operator(journal, &mut operators[k]);
        if number != (k + 1) as u128 {
            in_order = false;
        }
    }
    in_order && operators.len() as u128 == made
}
