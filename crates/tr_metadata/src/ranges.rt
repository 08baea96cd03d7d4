//! The ids that are declared, and the others.

/// Ids from `low` to `high`, which are declared or not.
#[derive(Clone, Copy, Debug)]
pub struct Range {
    pub declared: bool,
    pub low: u64,
    pub high: u64,
}
