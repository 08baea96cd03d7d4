//! Worked examples of journals and their seats.

ghost use Rattle.std.specs.Prelude.{◌≡◌, ◌∷◌, ◌++◌, []};
ghost use Rattle.tr_journal.specs.Journals.{IsSeatOf, IsWhole, journal_after, new_seat, seat_after, parts_of};
ghost use Rattle.tr_journal.specs.Views.{line};
ghost use Rattle.tr_journal.specs.declared.rule.Part.{Part};

use std::marker::Brand;
use tr_journal::{Journal, Noted, Seat};

/// What is done in the examples.
enum Visit {
    /// Somebody rang.
    Rang,
    /// So many guests came in.
    Entered { guests: u64 },
}

/// Somebody rang.
struct Rings;

impl Noted<Visit> for Rings {
    ghost use Rattle.tr_inner_tests.specs.declared.layers.journals.Visit.TheVariants.{Rang};

    ghost done = { Rang };
}

impl Noted<Visit> for Brand {
    ghost use Rattle.tr_inner_tests.specs.declared.layers.journals.Visit.TheVariants.{Rang};

    ghost done = { Rang };
}

/// So many guests came in.
fn enter(journal: &mut Journal<Visit>, seat: &mut Seat<Visit>, guests: u64)
    requires { seat.old.table ≡ journal.old.table }
    ensures journal { journal.new ≡ journal_after seat.old.who (Visit.Entered guests) journal.old }
    ensures seat { seat.new ≡ seat_after (Visit.Entered guests) seat.old }
{
    enter_as::<Brand>(journal, seat, guests);
}

/// So many guests came in.
fn enter_as<K: Noted<Visit>>(journal: &mut Journal<Visit>, seat: &mut Seat<Visit>, guests: u64)
    requires seat { seat.old.table ≡ journal.old.table }
    requires done { K.done ≡ Visit.Entered guests }
    ensures journal { journal.new ≡ journal_after seat.old.who (Visit.Entered guests) journal.old }
    ensures seat { seat.new ≡ seat_after (Visit.Entered guests) seat.old }
{
    journal.note::<K>(seat);
}

/// Three guests come in at the first door and four at the second, and somebody rings at the first: each door has its own
/// visits, and both have all.
fn two_doors(journal: &mut Journal<Visit>, first: &mut Seat<Visit>, mut second: Seat<Visit>)
    requires journal { (journal.old.lines ≡ []) × (journal.old.made ≡ 2) }
    requires doors { (first.old ≡ new_seat journal.old.table 0) × (second ≡ new_seat journal.old.table 1) }
    ensures lines { journal.new.lines
        ≡ line 0 (Visit.Entered 3) ∷ line 1 (Visit.Entered 4) ∷ line 0 Visit.Rang ∷ [] }
    ensures parts { parts_of first.new ≡ record { who = 0; own = Visit.Entered 3 ∷ Visit.Rang ∷ [] }
        ∷ record { who = 1; own = Visit.Entered 4 ∷ [] } ∷ [] }
    ensures whole { IsSeatOf journal.new first.new × IsWhole journal.new first.new }
{
    enter(journal, first, 3);
    enter(journal, &mut second, 4);
    journal.note::<Rings>(first);
    journal.join(first, second);
    journal.audit(first);
}

#[test]
fn two_doors_have_all_visits(rt: HostRuntime) {
    let (mut journal, mut first) = Journal::open(rt.alloc()).expect(&rt, "memory");
    let second = journal.split();
    two_doors(&mut journal, &mut first, second);
}
