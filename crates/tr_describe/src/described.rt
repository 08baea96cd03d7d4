//! What describing archives answers.

/// What describing the archives below a folder came to.
#[derive(Debug, PartialEq, Eq, Drop)]
pub enum Described<S = String> {
    /// The folder can't be read.
    Unlisted,
    /// It has no session.
    NoSession,
    /// This is wrong, before anything else, and nothing was written.
    Wrong(Wrong<S>),
    /// So many archives have the metadata of the declared events now.
    Done { archives: u64 },
}

/// What is wrong with what is there.
#[derive(Debug, PartialEq, Eq, Drop)]
pub enum Wrong<S = String> {
    /// The folder of a session's archives can't be read.
    Closed {
        session: S,
    },
    /// An archive's metadata aren't the recorder's: they are missing, can't be read, name no identifier, or have another text.
    Foreign {
        session: S,
        archive: S,
    },
    /// The file of a channel's stream of this number can't be read, or isn't packets of that stream and of the archive's
    /// identifier, end to end.
    Unsound {
        session: S,
        archive: S,
        channel: S,
        stream: u64,
    },
    /// The record of this serial in such a file has a declared id, and doesn't fit as declared.
    Unfit {
        session: S,
        archive: S,
        channel: S,
        stream: u64,
        serial: u64,
    },
}
