//! What the tests of several crates share. No crate of the program uses it.
#![tactic(auto)]

mod breaking;
mod failing;
mod full;
mod rationed;

pub use breaking::{Breaking, Filling};
pub use failing::FailsAfter;
pub use full::fill;
pub use rationed::Rationed;
use tr_terms::Moment;

/// The moment of so many nanoseconds, and zero if that is beyond the limit.
pub fn moment(nanoseconds: u64) -> Moment {
    Moment::new(nanoseconds).unwrap_or(Moment::zero())
}
