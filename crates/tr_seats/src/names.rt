//! What names a plan in contracts.

use std::marker::Brand;

/// Names a plan for contracts: the session that it made, and the tables of its books. It has no code. Write
/// what uses a shared session as functions that are generic over a `Names`, and call them with `Brand`.
pub trait Names {
    ghost use Rattle.tr_seats.specs.Books.{PlanState};

    ghost plan: { PlanState };
}

impl Names for Brand {
    ghost use Rattle.tr_seats.specs.Books.{no_plan};

    ghost plan = { no_plan };
}
