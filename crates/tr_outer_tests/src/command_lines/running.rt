//! Lines that start and stop a session, and those for its streams while it runs.

use super::{Asks, assert_each_asks};
use tr_command::Request;

const LAST: u64 = 9_000_000_000_000_000_000;

const MOST: u64 = 18_446_744_073_709_551_615;

/// A line, and the session that it stops.
macro_rules! stop {
    ($line:expr, $session:expr $(,)?) => {
        (
            $line,
            Request::Stop {
                session: $session,
            },
        )
    };
}

static STOPS: [Asks<'static>; 3] = [
    stop!("stop s", "s"),
    stop!("stop stop", "stop"),
    stop!("stop -- -x", "-x"),
];

/// A line, and the stream of `s` from which it takes.
macro_rules! consume {
    ($line:expr, $stream:expr $(,)?) => {
        (
            $line,
            Request::Consume {
                session: "s",
                stream: $stream,
            },
        )
    };
}

static CONSUMES: [Asks<'static>; 2] = [consume!("consume s 3", 3), consume!("consume -- s 0", 0)];

/// A line, and the session that it clears.
macro_rules! clear {
    ($line:expr, $session:expr $(,)?) => {
        (
            $line,
            Request::Clear {
                session: $session,
            },
        )
    };
}

static CLEARS: [Asks<'static>; 3] = [
    clear!("clear s", "s"),
    clear!("clear clear", "clear"),
    clear!("clear -- -x", "-x"),
];

/// A line, and the session and the number of the archive that it releases.
macro_rules! release {
    ($line:expr, $session:expr, $archive:expr $(,)?) => {
        (
            $line,
            Request::Release {
                session: $session,
                archive: $archive,
            },
        )
    };
}

static RELEASES: [Asks<'static>; 4] = [
    release!("release s 0", "s", 0),
    release!("release s 18446744073709551615", "s", MOST),
    release!("release release 007", "release", 7),
    release!("release -- -x 1", "-x", 1),
];

static STARTS: [Asks<'static>; 1] = [(
    "start s 9000000000000000000",
    Request::Start {
        session: "s",
        moment: LAST,
    },
)];

#[test]
fn reads_starts_stops_consumes_clears_and_releases(rt: HostRuntime) {
    assert_each_asks(&rt, rt.alloc(), &STARTS);
    assert_each_asks(&rt, rt.alloc(), &STOPS);
    assert_each_asks(&rt, rt.alloc(), &CONSUMES);
    assert_each_asks(&rt, rt.alloc(), &CLEARS);
    assert_each_asks(&rt, rt.alloc(), &RELEASES);
}

/// A line, and the session, the text and the fill of an offer of the record 7 to stream 0 at moment 1.
macro_rules! offer {
    ($line:expr, $session:expr, $text:expr, $fill:expr $(,)?) => {
        (
            $line,
            Request::Offer {
                session: $session,
                stream: 0,
                moment: 1,
                id: 7,
                text: $text,
                fill: $fill,
            },
        )
    };
}

static OFFERS: [Asks<'static>; 14] = [
    offer!("offer s 0 1 7", "s", "", 0),
    offer!("offer s 000 01 007 --fill 000003", "s", "", 3),
    offer!("offer help 0 1 7", "help", "", 0),
    offer!("offer -- -s 0 1 7", "-s", "", 0),
    // options anywhere
    offer!("offer s 0 1 7 --fill=3", "s", "", 3),
    offer!("offer --fill 3 s 0 1 7", "s", "", 3),
    offer!("offer s --text a 0 1 --fill=3 7", "s", "a", 3),
    offer!("offer s 0 1 7 --fill 3 --text a", "s", "a", 3),
    offer!("offer --text a -- s 0 1 7", "s", "a", 0),
    // odd texts
    offer!("offer s 0 1 7 --text=", "s", "", 0),
    offer!("offer s 0 1 7 --text=-x", "s", "-x", 0),
    offer!("offer s 0 1 7 --text=--fill", "s", "--fill", 0),
    offer!("offer s 0 1 7 --text -", "s", "-", 0),
    offer!("offer s 0 1 7 --text #", "s", "#", 0),
];

/// An offer with the largest numbers.
static LARGEST: [Asks<'static>; 1] = [(
    "offer s 18446744073709551615 1 4294967295 --text hello --fill 1048576",
    Request::Offer {
        session: "s",
        stream: MOST,
        moment: 1,
        id: 4_294_967_295,
        text: "hello",
        fill: 1_048_576,
    },
)];

#[test]
fn reads_offers(rt: HostRuntime) {
    assert_each_asks(&rt, rt.alloc(), &LARGEST);
    assert_each_asks(&rt, rt.alloc(), &OFFERS);
}
