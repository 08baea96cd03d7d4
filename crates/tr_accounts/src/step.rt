//! What a stream's journal has.

use tr_stream::{StreamAnswer, StreamEvent};

/// A call of a stream, and what it answered. No value of it is ever made.
pub struct StreamStep {
    pub call: StreamEvent,
    pub answer: StreamAnswer,
}
