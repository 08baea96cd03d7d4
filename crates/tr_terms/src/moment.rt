//! Moments in time.

ghost use Rattle.std.specs.Prelude.{◌≡◌, ◌≤◌, ◌↔◌, max, IsSome, IfSome};

use crate::limits::LAST_MOMENT;
use std::marker::Model;

/// Nanoseconds since 1970, from 0 to 9,000,000,000,000,000,000. Contracts see the number.
#[derive(Clone, Copy, Debug, PartialEq, Eq, PartialOrd, Ord)]
pub struct Moment {
    nanoseconds: u64,
}

impl Model for Moment {
    ghost use Rattle.std.specs.Prelude.{ℕ, ◌≤◌};
    ghost use Rattle.tr_terms.specs.declared.limits.TheConstants.{LAST_MOMENT};

    ghost Value = { ℕ };

    ghost view = { λ m. m.nanoseconds };

    ghost invariant = { λ m. m.nanoseconds ≤ LAST_MOMENT };

    ghost inverse = { λ n. record { nanoseconds = n } };
}

impl Moment {
    /// The greatest moment, in nanoseconds since 1970.
    pub const LAST: u64 = LAST_MOMENT;

    /// The moment of this number of nanoseconds since 1970. None if the number is above the limit.
    pub fn new(nanoseconds: u64) -> Option<Moment>
        ensures succeeds { IsSome result ↔ (nanoseconds ≤ LAST_MOMENT) }
        ensures value { IfSome result (λ m. m ≡ nanoseconds) }
    {
        if nanoseconds <= LAST_MOMENT {
            Some(Moment { nanoseconds })
        } else {
            None
        }
    }

    /// The moment of this number of nanoseconds since 1970, which is within the limit.
    pub fn within_limit(nanoseconds: u64) -> Moment
        requires { nanoseconds ≤ LAST_MOMENT }
        ensures { result ≡ nanoseconds }
    {
        Moment { nanoseconds }
    }

    /// The first moment.
    pub fn zero() -> Moment
        ensures { result ≡ 0 }
    {
        Moment { nanoseconds: 0 }
    }

    /// The nanoseconds since 1970.
    pub fn get(self) -> u64
        ensures value { result ≡ self }
        ensures within { result ≤ LAST_MOMENT }
    {
        self.nanoseconds
    }

    /// The later of two moments.
    pub fn later(self, other: Moment) -> Moment
        ensures value { result ≡ max self other }
        ensures within { result ≤ LAST_MOMENT }
    {
        if self.get() < other.get() {
            other
        } else {
            self
        }
    }
}
