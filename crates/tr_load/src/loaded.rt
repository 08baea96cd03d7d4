//! What a load comes to.

use std::alloc::AllocError;
use thiserror::Error;
use tr_pool::{Mismatch, Report};
use tr_session_book::SessionFault;
use tr_shared::Settled;

/// A load that was settled.
#[derive(Drop)]
pub struct Loaded {
    /// The session of the load.
    pub settled: Settled,
    /// Where its records are, or what is wrong with its first stream that doesn't agree with its feeder's log.
    pub outcome: Result<Report, Mismatch>,
    /// What a watcher learned of how many records were offered, if there was one.
    pub watched: Option<u128>,
}

/// Why a load was not settled.
#[derive(Clone, Copy, Debug, PartialEq, Eq, Error)]
pub enum LoadFault {
    /// A call was refused for another reason than memory: something isn't in its place.
    #[error("something isn't in its place")]
    Misplaced,
    /// Memory or a thread was missing.
    #[error("no memory")]
    NoMemory,
}

impl From<SessionFault> for LoadFault {
    ghost use Rattle.std.specs.Prelude.{◌≡◌, ◌↔◌};
    ghost use Rattle.tr_load.specs.declared.loaded.LoadFault.TheVariants.{NoMemory};
    ghost use Rattle.tr_session_book.specs.declared.faults.SessionFault.TheVariants as session_fault;

    ghost from_gives = { λ given fault. fault ≡ NoMemory ↔ given ≡ session_fault.NoMemory };

    fn from(fault: SessionFault) -> LoadFault {
        match fault {
            SessionFault::NoMemory => LoadFault::NoMemory,
            _ => LoadFault::Misplaced,
        }
    }
}

impl From<AllocError> for LoadFault {
    ghost use Rattle.std.specs.Prelude.{◌≡◌};
    ghost use Rattle.tr_load.specs.declared.loaded.LoadFault.TheVariants.{NoMemory};

    ghost from_gives = { λ _ fault. fault ≡ NoMemory };

    fn from(_: AllocError) -> LoadFault {
        LoadFault::NoMemory
    }
}
