//! A channel: how the streams that are added to it are made.

use tr_terms::{Geometry, Mode};

/// How the streams of a channel are made.
#[derive(Clone, Copy, Debug, PartialEq, Eq)]
pub struct Channel {
    /// The size of a sub-buffer in bytes, and how many a ring has.
    pub geometry: Geometry,
    /// What a full ring does.
    pub mode: Mode,
}
