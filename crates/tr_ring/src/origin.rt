//! Whose packets a ring's pages become.

use uuid::Uuid;

/// Whose packets a ring's pages become.
#[derive(Clone, Copy, Debug, PartialEq, Eq)]
pub struct Origin {
    /// The identifier of the session's trace.
    pub uuid: Uuid,
    /// The number of the stream in its session.
    pub stream: u64,
}
