//! What a desk's journal has.

use tr_schedule::Schedule;
use tr_session::StepFault;
use tr_session_book::{Archive, SessionFault};
use tr_stream::{Cleared, CutDone};
use tr_terms::Moment;

/// A step at a session's desk, and what it answered.
#[derive(Clone, Copy, Debug, PartialEq, Eq)]
pub enum DeskStep {
    /// The session was to start at a moment.
    Start {
        /// When.
        moment: Moment,
        /// What the book answered.
        answer: Result<(), SessionFault>,
    },
    /// The session was to stop.
    Stop {
        /// What the book answered.
        answer: Result<(), SessionFault>,
    },
    /// A stream was let take offers, or made refuse them, as the session does.
    Switch {
        /// The stream's number.
        stream: usize,
        /// Whether it takes offers now.
        active: bool,
    },
    /// A schedule was to be set, or none.
    SetSchedule {
        /// The schedule.
        schedule: Option<Schedule>,
        /// What the book answered.
        answer: Result<(), SessionFault>,
    },
    /// A rotation was to begin at a moment.
    RotateBegin {
        /// When.
        moment: Moment,
        /// The number of the chunk that it archives.
        answer: Result<u64, SessionFault>,
    },
    /// The pending rotation was to cut a stream.
    Cut {
        /// The stream's number.
        stream: usize,
        /// What the cut moved.
        answer: Result<CutDone, StepFault>,
    },
    /// The pending rotation was to end.
    RotateFinish {
        /// The archive that it made.
        answer: Result<Archive, SessionFault>,
    },
    /// A stream was to be cleared.
    Clear {
        /// The stream's number.
        stream: usize,
        /// What was removed.
        answer: Result<Cleared, SessionFault>,
    },
    /// A snapshot was to begin at a moment.
    SnapshotBegin {
        /// When.
        moment: Moment,
        /// The moment that is stored.
        answer: Result<Moment, SessionFault>,
    },
}
