//! A stream's counts.

/// How many records were offered, and where they are: `offered` is the sum of `discarded`, `overwritten`, `cleared`,
/// `in_ring` and `in_chunks`, and `consumed` is that of `in_chunks` and `withdrawn`.
#[derive(Clone, Copy, Debug, PartialEq, Eq)]
pub struct Counts {
    /// How many offers were accepted.
    pub offered: u64,
    /// How many of their records found no room and were discarded.
    pub discarded: u64,
    /// How many records were overwritten by newer ones.
    pub overwritten: u64,
    /// How many packets those records made up.
    pub overwritten_packets: u64,
    /// How many records the ring has.
    pub in_ring: u64,
    /// How many records were consumed, cleared ones too.
    pub consumed: u64,
    /// How many records the parts have.
    pub in_chunks: u64,
    /// How many records were cleared.
    pub cleared: u64,
    /// How many records were cleared after they had been consumed.
    pub withdrawn: u64,
    /// How many parts are closed.
    pub cuts: u64,
    /// The bytes of the packets in the current part, or 2^64 - 1 if they are more.
    pub current_bytes: u64,
}
