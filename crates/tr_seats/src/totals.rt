//! What all threads did together.

/// The sums over all streams of a session.
#[derive(Clone, Copy, Debug, PartialEq, Eq)]
pub struct Totals {
    /// How many records were offered.
    pub offered: u128,
    /// How many of them full rings discarded.
    pub discarded: u128,
    /// How many were overwritten.
    pub overwritten: u128,
    /// How many packets were overwritten.
    pub overwritten_packets: u128,
    /// How many records were consumed.
    pub consumed: u128,
    /// How many parts were closed.
    pub cuts: u128,
    /// How many records were cleared.
    pub cleared: u128,
}
