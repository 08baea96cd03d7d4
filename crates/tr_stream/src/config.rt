//! What a stream is made with.

use tr_terms::{Geometry, Mode, SessionMode};
use uuid::Uuid;

/// What a stream is made with.
#[derive(Clone, Copy, Debug)]
pub struct StreamConfig {
    /// The identifier of the trace.
    pub uuid: Uuid,
    /// The number of the stream in its session.
    pub number: u64,
    /// The size of a sub-buffer in bytes, and how many the ring has.
    pub geometry: Geometry,
    /// What a full ring does.
    pub mode: Mode,
    /// What becomes of the packets.
    pub session: SessionMode,
}
