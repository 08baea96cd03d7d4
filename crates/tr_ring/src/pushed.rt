//! What became of a record.

/// What became of a record that was pushed.
#[derive(Clone, Copy, Debug, PartialEq, Eq)]
pub enum Pushed {
    /// Stored in the current sub-buffer, which has this number.
    Stored {
        seq: u64,
    },
    /// Stored as above; the oldest closed sub-buffer was overwritten, with all its records.
    StoredOver {
        seq: u64,
        gone_seq: u64,
        gone_count: u64,
    },
    /// The ring is full, and it was refused: it is discarded.
    Refused,
}
