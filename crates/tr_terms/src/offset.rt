//! The offset of a session's clock.

ghost use Rattle.std.specs.Prelude.{◌≡◌, ◌↔◌, IsSome, IfSome};
ghost use Rattle.tr_terms.specs.Offsets.{IsOffset};

use crate::limits::MOST_MINUTES;
use std::marker::Model;

/// How many whole minutes a clock is ahead of UTC, from -1,439 to 1,439. Contracts see the number.
#[derive(Clone, Copy, Debug, PartialEq, Eq)]
pub struct OffsetMinutes {
    minutes: i32,
}

impl Model for OffsetMinutes {
    ghost use Rattle.std.specs.Prelude.{ℤ};
    ghost use Rattle.tr_terms.specs.Offsets.{IsOffset};

    ghost Value = { ℤ };

    ghost view = { λ o. o.minutes };

    ghost invariant = { λ o. IsOffset o.minutes };

    ghost inverse = { λ z. record { minutes = z } };
}

impl OffsetMinutes {
    /// The offset of this number of minutes. None if the number is outside the range.
    pub fn new(minutes: i32) -> Option<OffsetMinutes>
        ensures succeeds { IsSome result ↔ IsOffset minutes }
        ensures value { IfSome result (λ o. o ≡ minutes) }
    {
        if minutes.unsigned_abs() <= MOST_MINUTES {
            Some(OffsetMinutes { minutes })
        } else {
            None
        }
    }

    /// The minutes ahead of UTC.
    pub fn get(self) -> i32
        ensures value { result ≡ self }
        ensures within { IsOffset result }
    {
        self.minutes
    }
}
