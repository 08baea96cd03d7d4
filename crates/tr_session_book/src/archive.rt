//! Archives, and the rotation that makes one.

use tr_terms::Moment;

/// An archived trace chunk: its number, its beginning and its end.
#[derive(Clone, Copy, Debug, PartialEq, Eq)]
pub struct Archive {
    /// How many chunks were archived before it.
    pub id: u64,
    /// The moment of the first start, or of the previous rotation.
    pub begin: Moment,
    /// The moment of the rotation that made it.
    pub end: Moment,
}

/// A rotation that has begun and isn't finished: its streams are cut in order of number.
#[derive(Clone, Copy, Debug, PartialEq, Eq)]
pub struct Pending {
    /// The archive that it makes.
    pub archive: Archive,
    /// How many streams it has cut.
    pub cut: u64,
}
