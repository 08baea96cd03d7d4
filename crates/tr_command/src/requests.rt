//! What a line asks for.

use tr_terms::Mode;

/// What the words of a line ask for. Its texts are those of the words.
///
/// A moment is in nanoseconds since 1970 and at most `Moment::LAST`, and an offset within -1,439..=1,439, as
/// [`parse`](crate::parse) ensures: they are plain numbers here, since the check covers no value that holds both a
/// reference and a type with an invariant.
///
/// To add a command: a variant here; its row and its reader in `commands`; the same in `specs/Asked.antt`; and what
/// its reader keeps within the limits in `proofs/LimitLemmas.antt`.
#[derive(Clone, Copy, Debug, PartialEq, Eq)]
pub enum Request<'a> {
    /// `create SESSION UUID [--east MIN] [--west MIN] [--snapshot]`, the offset in minutes ahead of UTC;
    /// `snapshot` if it is to be a snapshot session
    Create {
        session: &'a str,
        uuid: &'a str,
        offset: i32,
        snapshot: bool,
    },
    /// `channel SESSION CHANNEL SIZE COUNT MODE`, the size in bytes
    Channel {
        session: &'a str,
        channel: &'a str,
        size: u32,
        count: u32,
        mode: Mode,
    },
    /// `thread SESSION CHANNEL`
    Thread {
        session: &'a str,
        channel: &'a str,
    },
    /// `start SESSION MOMENT`
    Start {
        session: &'a str,
        moment: u64,
    },
    /// `stop SESSION`
    Stop {
        session: &'a str,
    },
    /// `offer SESSION STREAM MOMENT ID [--text TEXT] [--fill LEN]`
    Offer {
        session: &'a str,
        stream: u64,
        moment: u64,
        id: u32,
        text: &'a str,
        fill: u32,
    },
    /// `consume SESSION STREAM`
    Consume {
        session: &'a str,
        stream: u64,
    },
    /// `clear SESSION`
    Clear {
        session: &'a str,
    },
    /// `rotate-begin SESSION MOMENT`
    RotateBegin {
        session: &'a str,
        moment: u64,
    },
    /// `rotate-next SESSION`
    RotateNext {
        session: &'a str,
    },
    /// `rotate-finish SESSION`
    RotateFinish {
        session: &'a str,
    },
    /// `rotate SESSION MOMENT`
    Rotate {
        session: &'a str,
        moment: u64,
    },
    /// `snapshot SESSION MOMENT`
    Snapshot {
        session: &'a str,
        moment: u64,
    },
    /// `fate SESSION STREAM SERIAL`
    Fate {
        session: &'a str,
        stream: u64,
        serial: u64,
    },
    /// `schedule SESSION [--every NS] [--size BYTES]`, the period in nanoseconds; `None` is what was left out
    Schedule {
        session: &'a str,
        every: Option<u64>,
        size: Option<u64>,
    },
    /// `tick SESSION MOMENT`
    Tick {
        session: &'a str,
        moment: u64,
    },
    /// `status SESSION`
    Status {
        session: &'a str,
    },
    /// `archives SESSION`
    Archives {
        session: &'a str,
    },
    /// `release SESSION ARCHIVE`, the number of the archive
    Release {
        session: &'a str,
        archive: u64,
    },
}
