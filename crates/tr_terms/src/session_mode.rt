//! What a session is for.

/// What becomes of the packets of a session's streams.
#[derive(Clone, Copy, Debug, PartialEq, Eq)]
pub enum SessionMode {
    /// They are consumed into trace chunks.
    Local,
    /// They stay in the rings, which snapshots copy. Nothing is consumed.
    Snapshot,
}
