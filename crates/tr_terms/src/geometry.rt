//! Sizes and counts of sub-buffers.

ghost use Rattle.std.specs.Prelude.{◌≡◌};
ghost use Rattle.tr_terms.specs.Geometry.{is_power_within};

use crate::limits::{FEWEST_SUB_BUFFERS, LARGEST_PACKET, MOST_SUB_BUFFERS, SMALLEST_SUB_BUFFER};
use std::marker::Model;
use thiserror::Error;

/// The size and the number of a ring's sub-buffers. Contracts see a `GeometryState`.
#[derive(Clone, Copy, Debug, PartialEq, Eq)]
pub struct Geometry {
    size: usize,
    count: usize,
}

impl Model for Geometry {
    ghost use Rattle.std.specs.Prelude.{IsTrue};
    ghost use Rattle.tr_terms.specs.Geometry.{GeometryState, is_size, is_count, geometry_state};

    ghost Value = { GeometryState };

    ghost view = { λ g. geometry_state g.size g.count };

    ghost invariant = { λ g. IsTrue (is_size g.size) × IsTrue (is_count g.count) };

    ghost inverse = { λ s. record { size = s.size; count = s.count } };
}

/// Why a size and a count make no geometry.
#[derive(Clone, Copy, Debug, PartialEq, Eq, Error)]
#[error("{} {}", self.code(), self.name())]
pub enum GeometryFault {
    /// The size isn't a power of two from `SMALLEST_SUB_BUFFER` to `LARGEST_PACKET`.
    BadSize,
    /// The count isn't a power of two from `FEWEST_SUB_BUFFERS` to `MOST_SUB_BUFFERS`.
    BadCount,
}

/// Whether n is a power of two that lies within these bounds.
fn is_power_within(n: u64, least: u64, most: u64) -> bool
    ensures { result ≡ is_power_within least most n }
{
    n.is_power_of_two() && least <= n && n <= most
}

impl Geometry {
    ghost use Rattle.std.specs.Prelude.{◌≡◌, ◌≤◌};
    ghost use Rattle.tr_terms.specs.Geometry.{geometry_of};
    ghost use Rattle.tr_terms.specs.declared.limits.TheConstants.{FEWEST_SUB_BUFFERS, LARGEST_PACKET, MOST_SUB_BUFFERS, SMALLEST_SUB_BUFFER};

    /// The geometry of a ring with `count` sub-buffers of `size` bytes each. The size is judged first.
    pub fn new(size: u64, count: u64) -> Result<Geometry, GeometryFault>
        ensures { result ≡ geometry_of size count }
    {
        if !is_power_within(size, SMALLEST_SUB_BUFFER as u64, LARGEST_PACKET as u64) {
            return Err(GeometryFault::BadSize);
        }
        if !is_power_within(count, FEWEST_SUB_BUFFERS as u64, MOST_SUB_BUFFERS as u64) {
            return Err(GeometryFault::BadCount);
        }
        Ok(Geometry {
            size: size as usize,
            count: count as usize,
        })
    }

    /// The bytes of a sub-buffer: a power of two from `SMALLEST_SUB_BUFFER` to `LARGEST_PACKET`.
    pub fn size(self) -> usize
        ensures value { result ≡ self.size }
        ensures within { (SMALLEST_SUB_BUFFER ≤ result) × (result ≤ LARGEST_PACKET) }
    {
        self.size
    }

    /// How many sub-buffers a ring has: a power of two from `FEWEST_SUB_BUFFERS` to `MOST_SUB_BUFFERS`.
    pub fn count(self) -> usize
        ensures value { result ≡ self.count }
        ensures within { (FEWEST_SUB_BUFFERS ≤ result) × (result ≤ MOST_SUB_BUFFERS) }
    {
        self.count
    }
}

impl GeometryFault {
    ghost use Rattle.std.specs.Prelude.{◌≡◌};
    ghost use Rattle.tr_terms.specs.Geometry.{geometry_fault_code, geometry_fault_name};

    /// The code that documents call it by: `G1` or `G2`.
    pub fn code(self) -> &'static str
        ensures { result.now ≡ geometry_fault_code self }
    {
        match self {
            GeometryFault::BadSize => "G1",
            GeometryFault::BadCount => "G2",
        }
    }

    /// Its name: `BadSize` or `BadCount`.
    pub fn name(self) -> &'static str
        ensures { result.now ≡ geometry_fault_name self }
    {
        match self {
            GeometryFault::BadSize => "BadSize",
            GeometryFault::BadCount => "BadCount",
        }
    }
}
