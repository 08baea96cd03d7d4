//! The limits of the product, and the sizes of headers.
//! Three numbers that look like limits are defined where they are used: `MANY_RECORDS` of tr_command only says before which
//! loads the program prints a line at a terminal, `FIRST_ROOM` of tr_chunk how much memory an audit takes at once, and
//! `MOST_BYTES` of tr_folders belongs to the interface that reads folders, and keeps its counts within a u64.

/// The greatest moment, in nanoseconds since 1970.
pub const LAST_MOMENT: u64 = 9_000_000_000_000_000_000;

/// The most minutes that a clock is ahead of UTC or behind it.
pub const MOST_MINUTES: u32 = 1_439;

/// The bytes of a record before its payload.
pub const RECORD_HEADER: usize = 24;

/// The bytes of a packet before its records.
pub const PACKET_HEADER: usize = 80;

/// The bytes of the smallest packet: one record without payload.
pub const SMALLEST_PACKET: usize = PACKET_HEADER + RECORD_HEADER;

/// The bytes of the largest packet, and of the largest sub-buffer.
pub const LARGEST_PACKET: usize = 1_048_576;

/// The bytes of the smallest sub-buffer.
pub const SMALLEST_SUB_BUFFER: usize = 256;

/// The smallest number of sub-buffers in a ring.
pub const FEWEST_SUB_BUFFERS: usize = 2;

/// The greatest number of sub-buffers in a ring.
pub const MOST_SUB_BUFFERS: usize = 64;

/// The most offers that a stream accepts in all.
pub const MOST_OFFERS: u64 = 1 << 62;

/// The bytes of the longest name of a session or a channel.
pub const LONGEST_NAME: usize = 64;

/// The greatest number of sessions.
pub const MOST_SESSIONS: usize = 16;

/// The most channels that a session has.
pub const MOST_CHANNELS: usize = 8;

/// The most streams that a session has.
pub const MOST_STREAMS: usize = 1_024;

/// The most drainers that a session makes.
pub const MOST_DRAINERS: u64 = 65_536;

/// The most turns that a worker makes.
pub const MOST_TURNS: u64 = 1 << 62;

/// The bytes of the longest line of a script, without its newline.
pub const LONGEST_LINE: usize = 4_096;

/// The bytes of the longest script.
pub const LONGEST_SCRIPT: usize = 16_777_216;

/// The bytes that are asked of a source of a script at a time.
pub const LONGEST_PIECE: usize = 65_536;

/// The most bytes that the line `offer` fills a payload with.
pub const MOST_FILL: u32 = 1_048_576;

/// The most feeders of a load, each in a thread of its own.
pub const MOST_FEEDERS: usize = 256;

/// The most records that each feeder of a load offers.
pub const MOST_RECORDS: u64 = 1_000_000;

/// The most workers of a load.
pub const MOST_WORKERS: usize = 64;
