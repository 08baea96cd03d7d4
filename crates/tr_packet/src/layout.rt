//! Where the fields of a packet's header and context begin.

/// The magic number.
pub const MAGIC_AT: usize = 0;

/// The trace's identifier.
pub const UUID_AT: usize = MAGIC_AT + 4;

/// The stream_id.
pub const STREAM_ID_AT: usize = UUID_AT + 16;

/// The stream_instance_id.
pub const STREAM_AT: usize = STREAM_ID_AT + 4;

/// The timestamp_begin.
pub const BEGIN_AT: usize = STREAM_AT + 8;

/// The timestamp_end.
pub const END_AT: usize = BEGIN_AT + 8;

/// The content_size.
pub const CONTENT_SIZE_AT: usize = END_AT + 8;

/// The packet_size.
pub const PACKET_SIZE_AT: usize = CONTENT_SIZE_AT + 8;

/// The packet_seq_num.
pub const SEQ_AT: usize = PACKET_SIZE_AT + 8;

/// The events_discarded.
pub const LOST_AT: usize = SEQ_AT + 8;
