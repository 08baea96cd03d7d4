//! Why a shared session was not settled.

use crate::shared::Shared;
use std::alloc::{Allocator, Global};
use tr_seats::{Drainer, Names, Producer, SettleError};

/// Why a shared session was not settled, and all that was to be settled, as it was: it can go on, and be settled again.
#[derive(Drop)]
pub struct SettleFault<N: Names, A: Allocator = Global> {
    /// What is missing, or not in its place.
    pub fault: SettleError,
    /// The session, with its streams in order of number.
    pub shared: Shared<N, A>,
    /// The producers that were given.
    pub producers: Vec<Producer<N, A>, A>,
    /// The drainers that were given.
    pub drainers: Vec<Drainer<N, A>, A>,
}
