//! What a packet says beside its records.

use tr_terms::Moment;
use uuid::Uuid;

/// What a packet says beside its records.
#[derive(Clone, Copy, Debug, PartialEq, Eq)]
pub struct Head {
    /// The identifier of the session's trace.
    pub uuid: Uuid,
    /// The number of the stream in its session.
    pub stream: u64,
    /// The moment of the first record.
    pub begin: Moment,
    /// When the packet was closed or copied.
    pub end: Moment,
    /// The number of the packet in its stream.
    pub seq: u64,
    /// How many records the stream had discarded by then.
    pub lost: u64,
}
