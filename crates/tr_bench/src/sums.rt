//! Sums over answers.

/// The sum with one more value.
pub fn mix(sum: u64, value: u64) -> u64 {
    sum.wrapping_mul(31).wrapping_add(value)
}
