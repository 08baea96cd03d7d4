//! What a session allows.

/// What a session allows.
#[derive(Clone, Copy, Debug, PartialEq, Eq)]
pub enum State {
    /// It was never started: channels and streams can be added.
    New,
    /// Its streams can take offers.
    Active,
    /// It was stopped, and can be started again.
    Inactive,
}
