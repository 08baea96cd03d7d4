//! What a stream's calls answer.

ghost use Rattle.std.specs.Prelude.{◌≡◌};
ghost use Rattle.tr_stream.specs.Faults.{clear_fault_code, clear_fault_name, cut_fault_code, cut_fault_name, forget_fault_code, forget_fault_name, offer_fault_code, offer_fault_name, release_fault_code, release_fault_name, take_fault_code, take_fault_name};

use std::alloc::AllocError;
use thiserror::Error;

/// What became of an accepted offer.
#[derive(Clone, Copy, Debug, PartialEq, Eq)]
pub enum Offered {
    /// Stored in the sub-buffer with this number.
    Stored {
        /// How many offers were accepted before it.
        serial: u64,
        /// The number of its sub-buffer.
        seq: u64,
    },
    /// Stored in the sub-buffer with this number; the oldest one that waited was overwritten, with all its records.
    StoredOver {
        /// How many offers were accepted before it.
        serial: u64,
        /// The number of its sub-buffer.
        seq: u64,
        /// The number of the overwritten sub-buffer.
        gone_seq: u64,
        /// How many records that sub-buffer had.
        gone_count: u64,
    },
    /// The ring was full and discarded it.
    Discarded {
        /// How many offers were accepted before it.
        serial: u64,
    },
}

/// Why an offer was refused. The stream is as it was. An offer takes no memory; O4 once said that an allocation failed, and
/// isn't used again.
#[derive(Clone, Copy, Debug, PartialEq, Eq, Error)]
#[error("{} {}", self.code(), self.name())]
pub enum OfferFault {
    /// The stream takes no offers now.
    Inactive,
    /// The payload fits no sub-buffer of this stream.
    TooBig,
    /// The stream has accepted 2^62 offers.
    Spent,
    /// Another stream is in this one's place. No call of this crate answers it: it is for those who keep streams by number.
    Misplaced,
    /// The record's id is declared with another layout. A stream has no declarations, and doesn't answer it: it is for those who
    /// keep streams with what is declared.
    OtherLayout,
}

impl OfferFault {
    /// The code that answers and documents call it by.
    pub fn code(&self) -> &'static str
        ensures { result.now ≡ offer_fault_code self.now }
    {
        match self {
            OfferFault::Inactive => "O1",
            OfferFault::TooBig => "O2",
            OfferFault::Spent => "O3",
            OfferFault::Misplaced => "O5",
            OfferFault::OtherLayout => "O6",
        }
    }

    /// Its name, as answers print it.
    pub fn name(&self) -> &'static str
        ensures { result.now ≡ offer_fault_name self.now }
    {
        match self {
            OfferFault::Inactive => "Inactive",
            OfferFault::TooBig => "TooBig",
            OfferFault::Spent => "Spent",
            OfferFault::Misplaced => "Misplaced",
            OfferFault::OtherLayout => "OtherLayout",
        }
    }
}

/// The packet that a take moved.
#[derive(Clone, Copy, Debug, PartialEq, Eq)]
pub struct Taken {
    /// The packet's number.
    pub seq: u64,
    /// How many records the packet has.
    pub count: u64,
    /// The trace chunk that it is in.
    pub chunk: u64,
}

/// Why a take was refused. The stream is as it was.
#[derive(Clone, Copy, Debug, PartialEq, Eq, Error)]
#[error("{} {}", self.code(), self.name())]
pub enum TakeFault {
    /// No sub-buffer waits.
    Nothing,
    /// In a snapshot session nothing is taken.
    SnapshotMode,
    /// An allocation failed.
    NoMemory,
    /// Another stream is in this one's place. No call of this crate answers it: it is for those who keep streams by number.
    Misplaced,
}

impl TakeFault {
    /// The code that answers and documents call it by.
    pub fn code(&self) -> &'static str
        ensures { result.now ≡ take_fault_code self.now }
    {
        match self {
            TakeFault::Nothing => "T1",
            TakeFault::SnapshotMode => "T2",
            TakeFault::NoMemory => "T3",
            TakeFault::Misplaced => "T4",
        }
    }

    /// Its name, as answers print it.
    pub fn name(&self) -> &'static str
        ensures { result.now ≡ take_fault_name self.now }
    {
        match self {
            TakeFault::Nothing => "Nothing",
            TakeFault::SnapshotMode => "SnapshotMode",
            TakeFault::NoMemory => "NoMemory",
            TakeFault::Misplaced => "Misplaced",
        }
    }
}

impl From<AllocError> for TakeFault {
    ghost use Rattle.std.specs.Prelude.{◌≡◌};
    ghost use Rattle.tr_stream.specs.declared.answers.TakeFault.TheVariants.{NoMemory};

    ghost from_gives = { λ _ fault. fault ≡ NoMemory };

    fn from(_error: AllocError) -> TakeFault {
        TakeFault::NoMemory
    }
}

/// The trace chunk that a cut closed, and what the cut added to it.
#[derive(Clone, Copy, Debug, PartialEq, Eq)]
pub struct CutDone {
    /// The chunk's number.
    pub chunk: u64,
    /// How many packets the cut added.
    pub packets: u64,
    /// How many records these packets have.
    pub records: u64,
}

/// Why a cut was refused. The stream is as it was.
#[derive(Clone, Copy, Debug, PartialEq, Eq, Error)]
#[error("{} {}", self.code(), self.name())]
pub enum CutFault {
    /// In a snapshot session nothing is cut.
    SnapshotMode,
    /// An allocation failed.
    NoMemory,
}

impl CutFault {
    /// The code that answers and documents call it by.
    pub fn code(&self) -> &'static str
        ensures { result.now ≡ cut_fault_code self.now }
    {
        match self {
            CutFault::SnapshotMode => "C1",
            CutFault::NoMemory => "C2",
        }
    }

    /// Its name, as answers print it.
    pub fn name(&self) -> &'static str
        ensures { result.now ≡ cut_fault_name self.now }
    {
        match self {
            CutFault::SnapshotMode => "SnapshotMode",
            CutFault::NoMemory => "NoMemory",
        }
    }
}

impl From<AllocError> for CutFault {
    ghost use Rattle.std.specs.Prelude.{◌≡◌};
    ghost use Rattle.tr_stream.specs.declared.answers.CutFault.TheVariants.{NoMemory};

    ghost from_gives = { λ _ fault. fault ≡ NoMemory };

    fn from(_error: AllocError) -> CutFault {
        CutFault::NoMemory
    }
}

/// What a clear took away.
#[derive(Clone, Copy, Debug, PartialEq, Eq)]
pub struct Cleared {
    /// How many packets, those that sub-buffers would have become among them.
    pub packets: u64,
    /// How many records they had.
    pub records: u64,
}

/// Why a clear was refused. The stream is as it was.
#[derive(Clone, Copy, Debug, PartialEq, Eq, Error)]
#[error("{} {}", self.code(), self.name())]
pub enum ClearFault {
    /// In a snapshot session nothing is cleared.
    SnapshotMode,
    /// An allocation failed.
    NoMemory,
}

impl ClearFault {
    /// The code that answers and documents call it by.
    pub fn code(&self) -> &'static str
        ensures { result.now ≡ clear_fault_code self.now }
    {
        match self {
            ClearFault::SnapshotMode => "X1",
            ClearFault::NoMemory => "X2",
        }
    }

    /// Its name, as answers print it.
    pub fn name(&self) -> &'static str
        ensures { result.now ≡ clear_fault_name self.now }
    {
        match self {
            ClearFault::SnapshotMode => "SnapshotMode",
            ClearFault::NoMemory => "NoMemory",
        }
    }
}

impl From<AllocError> for ClearFault {
    ghost use Rattle.std.specs.Prelude.{◌≡◌};
    ghost use Rattle.tr_stream.specs.declared.answers.ClearFault.TheVariants.{NoMemory};

    ghost from_gives = { λ _ fault. fault ≡ NoMemory };

    fn from(_error: AllocError) -> ClearFault {
        ClearFault::NoMemory
    }
}

/// What a release gave up.
#[derive(Clone, Copy, Debug, PartialEq, Eq)]
pub struct Released {
    /// How many packets.
    pub packets: u64,
    /// How many records they had.
    pub records: u64,
    /// How many bytes their texts had.
    pub bytes: u128,
}

/// Why a release was refused. The stream is as it was.
#[derive(Clone, Copy, Debug, PartialEq, Eq, Error)]
#[error("{} {}", self.code(), self.name())]
pub enum ReleaseFault {
    /// No closed part has this number.
    NoPart,
    /// The part was released before.
    Released,
    /// An allocation failed.
    NoMemory,
}

impl ReleaseFault {
    /// The code that answers and documents call it by.
    pub fn code(&self) -> &'static str
        ensures { result.now ≡ release_fault_code self.now }
    {
        match self {
            ReleaseFault::NoPart => "Y1",
            ReleaseFault::Released => "Y2",
            ReleaseFault::NoMemory => "Y3",
        }
    }

    /// Its name, as answers print it.
    pub fn name(&self) -> &'static str
        ensures { result.now ≡ release_fault_name self.now }
    {
        match self {
            ReleaseFault::NoPart => "NoPart",
            ReleaseFault::Released => "Released",
            ReleaseFault::NoMemory => "NoMemory",
        }
    }
}

impl From<AllocError> for ReleaseFault {
    ghost use Rattle.std.specs.Prelude.{◌≡◌};
    ghost use Rattle.tr_stream.specs.declared.answers.ReleaseFault.TheVariants.{NoMemory};

    ghost from_gives = { λ _ fault. fault ≡ NoMemory };

    fn from(_error: AllocError) -> ReleaseFault {
        ReleaseFault::NoMemory
    }
}

/// Why parts aren't forgotten. The stream is as it was.
#[derive(Clone, Copy, Debug, PartialEq, Eq, Error)]
#[error("{} {}", self.code(), self.name())]
pub enum ForgetFault {
    /// Not so many parts are closed.
    NoPart,
    /// A part below this number isn't released.
    Held,
    /// An allocation failed.
    NoMemory,
}

impl ForgetFault {
    /// The code that answers and documents call it by.
    pub fn code(&self) -> &'static str
        ensures { result.now ≡ forget_fault_code self.now }
    {
        match self {
            ForgetFault::NoPart => "Z1",
            ForgetFault::Held => "Z2",
            ForgetFault::NoMemory => "Z3",
        }
    }

    /// Its name, as answers print it.
    pub fn name(&self) -> &'static str
        ensures { result.now ≡ forget_fault_name self.now }
    {
        match self {
            ForgetFault::NoPart => "NoPart",
            ForgetFault::Held => "Held",
            ForgetFault::NoMemory => "NoMemory",
        }
    }
}

impl From<AllocError> for ForgetFault {
    ghost use Rattle.std.specs.Prelude.{◌≡◌};
    ghost use Rattle.tr_stream.specs.declared.answers.ForgetFault.TheVariants.{NoMemory};

    ghost from_gives = { λ _ fault. fault ≡ NoMemory };

    fn from(_error: AllocError) -> ForgetFault {
        ForgetFault::NoMemory
    }
}
