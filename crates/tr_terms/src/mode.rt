//! What a full ring does.

/// What a full ring does with an offer that has no room.
#[derive(Clone, Copy, Debug, PartialEq, Eq)]
pub enum Mode {
    /// The newest record is discarded.
    Discard,
    /// The oldest closed sub-buffer is overwritten as a whole.
    Overwrite,
}
