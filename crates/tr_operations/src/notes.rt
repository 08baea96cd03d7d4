//! How a step at a desk is noted: as it is given.

ghost use Rattle.std.specs.Prelude.{◌≡◌};
ghost use Rattle.tr_journal.specs.Journals.{IsSeatOf, journal_after, seat_after};

use crate::step::DeskStep;
use std::alloc::Allocator;
use std::marker::Brand;
use tr_journal::{Journal, Noted, Seat};

impl Noted<DeskStep> for Brand {
    ghost use Rattle.std.specs.Prelude.{false};
    ghost use Rattle.tr_operations.specs.declared.step.DeskStep.TheVariants.{Switch};

    ghost done = { Switch 0 false };
}

/// The seat's holder did this at the desk.
pub fn note<A: Allocator>(
    journal: &mut Journal<DeskStep, A>,
    seat: &mut Seat<DeskStep>,
    step: DeskStep,
)
    requires { seat.old.table ≡ journal.old.table }
    ensures journal { journal.new ≡ journal_after seat.old.who step journal.old }
    ensures seat { seat.new ≡ seat_after step seat.old }
    ensures own { IsSeatOf journal.old seat.old }
{
    note_as::<A, Brand>(journal, seat, step);
}

/// The same, by a type whose ghost is the step.
fn note_as<A: Allocator, K: Noted<DeskStep>>(
    journal: &mut Journal<DeskStep, A>,
    seat: &mut Seat<DeskStep>,
    step: DeskStep,
)
    requires seat { seat.old.table ≡ journal.old.table }
    requires done { K.done ≡ step }
    ensures journal { journal.new ≡ journal_after seat.old.who step journal.old }
    ensures seat { seat.new ≡ seat_after step seat.old }
    ensures own { IsSeatOf journal.old seat.old }
{
    journal.note::<K>(seat);
}
