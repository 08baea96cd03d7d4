//! Lines that lay a session out.

use super::{Asks, assert_each_asks};
use tr_command::Request;
use tr_terms::Mode;

const LONG: &str = "00000000-0000-0000-0000-000000000001";

/// A line, and the session, its identifier, its offset, and whether it is to be a snapshot session.
macro_rules! create {
    ($line:expr, $session:expr, $uuid:expr, $offset:expr, $snapshot:expr $(,)?) => {
        (
            $line,
            Request::Create {
                session: $session,
                uuid: $uuid,
                offset: $offset,
                snapshot: $snapshot,
            },
        )
    };
}

static SESSIONS: [Asks<'static>; 24] = [
    create!(
        "create s 00000000-0000-0000-0000-000000000001",
        "s",
        LONG,
        0,
        false,
    ),
    create!(
        "create s 00000000-0000-0000-0000-000000000001 --east 60",
        "s",
        LONG,
        60,
        false,
    ),
    create!("create snapshot snapshot", "snapshot", "snapshot", 0, false),
    // offsets
    create!("create s u", "s", "u", 0, false),
    create!("create s u --east=3", "s", "u", 3, false),
    create!("create s u --east 1439", "s", "u", 1_439, false),
    create!("create s u --west 1439", "s", "u", -1_439, false),
    create!("create s u --west=300", "s", "u", -300, false),
    create!("create s u --east 0", "s", "u", 0, false),
    create!("create s u --east 0060", "s", "u", 60, false),
    create!("create s u --east 10 --west 20", "s", "u", -10, false),
    create!("create s u --west 20 --east 30", "s", "u", 10, false),
    create!("create s u --east 1439 --west 1439", "s", "u", 0, false),
    // options anywhere
    create!("create --east 60 s u", "s", "u", 60, false),
    create!("create s --west 300 u", "s", "u", -300, false),
    create!("create --west=1 s --east=5 u", "s", "u", 4, false),
    create!("create --east 5 -- s u", "s", "u", 5, false),
    create!("create -- s u", "s", "u", 0, false),
    // snapshot sessions
    create!("create s u --snapshot", "s", "u", 0, true),
    create!("create --snapshot s u", "s", "u", 0, true),
    create!("create s --snapshot u", "s", "u", 0, true),
    create!("create --snapshot -- s u", "s", "u", 0, true),
    create!("create s u --snapshot --east 60", "s", "u", 60, true),
    create!("create --west=5 s --snapshot u", "s", "u", -5, true),
];

/// A line, and the count and the mode of the channel `c` of `s`.
macro_rules! channel {
    ($line:expr, $count:expr, $mode:expr $(,)?) => {
        (
            $line,
            Request::Channel {
                session: "s",
                channel: "c",
                size: 256,
                count: $count,
                mode: $mode,
            },
        )
    };
}

static CHANNELS: [Asks<'static>; 4] = [
    channel!(
        "channel s c 256 4294967295 discard",
        4_294_967_295,
        Mode::Discard,
    ),
    channel!("channel s c 256 2 discard", 2, Mode::Discard),
    channel!("channel s c 256 2 overwrite", 2, Mode::Overwrite),
    channel!("channel -- s c 256 2 overwrite", 2, Mode::Overwrite),
];

static THREADS: [Asks<'static>; 1] = [(
    "thread s 1x",
    Request::Thread {
        session: "s",
        channel: "1x",
    },
)];

#[test]
fn reads_sessions_channels_and_threads(rt: HostRuntime) {
    assert_each_asks(&rt, rt.alloc(), &SESSIONS);
    assert_each_asks(&rt, rt.alloc(), &CHANNELS);
    assert_each_asks(&rt, rt.alloc(), &THREADS);
}
