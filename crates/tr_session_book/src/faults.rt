//! Why calls of a session are refused.

ghost use Rattle.std.specs.Prelude.{◌≡◌};
ghost use Rattle.tr_session_book.specs.Faults.{session_fault_code, session_fault_name, session_wants_memory};

use std::alloc::AllocError;
use thiserror::Error;

/// Why a call was refused. The book and a `Session` are as they were, except that after `NoMemory` a `rotate` or a `tick` may
/// leave a rotation pending, a `clear` some streams cleared, and a `release` some parts released. What a call of a shared
/// session leaves is said at that call.
#[derive(Clone, Copy, Debug, PartialEq, Eq, Error)]
#[error("{} {}", self.code(), self.name())]
pub enum SessionFault {
    /// A snapshot session isn't rotated.
    SnapshotMode,
    /// Only a snapshot session has snapshots.
    NotSnapshotMode,
    /// The session was never started.
    NeverStarted,
    /// A rotation is pending.
    RotationPending,
    /// The session was already rotated since its last stop.
    AlreadyRotated,
    /// The session is active already.
    AlreadyActive,
    /// The session isn't active.
    NotActive,
    /// There is no stream of this number.
    NoStream,
    /// In a snapshot session every ring overwrites.
    DiscardInSnapshot,
    /// The session was started, so nothing can be added.
    AlreadyStarted,
    /// No ring can have such sub-buffers.
    BadGeometry,
    /// There are as many as are allowed.
    TooMany,
    /// No rotation is pending, or it has already cut this stream.
    NotPending,
    /// A stream that must be cut first isn't cut.
    CutMissing,
    /// The name is taken.
    NameTaken,
    /// An allocation failed.
    NoMemory,
    /// There is no channel of this name.
    NoChannel,
    /// There is no archive of this number. The chunk of a pending rotation is none yet.
    NoArchive,
    /// The parts of the archive were already released.
    Released,
    /// Another stream is in the place of one of the session's. No call of a book or of a `Session` answers it: it is for those
    /// who keep streams by number.
    Misplaced,
}

impl SessionFault {
    /// The code that answers and documents call it by.
    pub fn code(&self) -> &'static str
        ensures { result.now ≡ session_fault_code self.now }
    {
        match self {
            SessionFault::SnapshotMode => "S1",
            SessionFault::NotSnapshotMode => "S2",
            SessionFault::NeverStarted => "S3",
            SessionFault::RotationPending => "S4",
            SessionFault::AlreadyRotated => "S5",
            SessionFault::AlreadyActive => "S6",
            SessionFault::NotActive => "S7",
            SessionFault::NoStream => "S8",
            SessionFault::DiscardInSnapshot => "S9",
            SessionFault::AlreadyStarted => "S10",
            SessionFault::BadGeometry => "S11",
            SessionFault::TooMany => "S12",
            SessionFault::NotPending => "S13",
            SessionFault::CutMissing => "S14",
            SessionFault::NameTaken => "S15",
            SessionFault::NoMemory => "S16",
            SessionFault::NoChannel => "S17",
            SessionFault::NoArchive => "S18",
            SessionFault::Released => "S19",
            SessionFault::Misplaced => "S20",
        }
    }

    /// Its name, as answers print it.
    pub fn name(&self) -> &'static str
        ensures { result.now ≡ session_fault_name self.now }
    {
        match self {
            SessionFault::SnapshotMode => "SnapshotMode",
            SessionFault::NotSnapshotMode => "NotSnapshotMode",
            SessionFault::NeverStarted => "NeverStarted",
            SessionFault::RotationPending => "RotationPending",
            SessionFault::AlreadyRotated => "AlreadyRotated",
            SessionFault::AlreadyActive => "AlreadyActive",
            SessionFault::NotActive => "NotActive",
            SessionFault::NoStream => "NoStream",
            SessionFault::DiscardInSnapshot => "DiscardInSnapshot",
            SessionFault::AlreadyStarted => "AlreadyStarted",
            SessionFault::BadGeometry => "BadGeometry",
            SessionFault::TooMany => "TooMany",
            SessionFault::NotPending => "NotPending",
            SessionFault::CutMissing => "CutMissing",
            SessionFault::NameTaken => "NameTaken",
            SessionFault::NoMemory => "NoMemory",
            SessionFault::NoChannel => "NoChannel",
            SessionFault::NoArchive => "NoArchive",
            SessionFault::Released => "Released",
            SessionFault::Misplaced => "Misplaced",
        }
    }
}

impl SessionFault {
    /// Whether an allocation failed.
    pub fn wants_memory(&self) -> bool
        ensures { result ≡ session_wants_memory self.now }
    {
        *self == SessionFault::NoMemory
    }
}

impl From<AllocError> for SessionFault {
    ghost use Rattle.std.specs.Prelude.{◌≡◌};
    ghost use Rattle.tr_session_book.specs.declared.faults.SessionFault.TheVariants.{NoMemory};

    ghost from_gives = { λ _ fault. fault ≡ NoMemory };

    fn from(_error: AllocError) -> SessionFault {
        SessionFault::NoMemory
    }
}
