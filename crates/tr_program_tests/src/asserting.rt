//! What tests assert.

use std::fmt::Debug;
use std::process::Abort;

/// Compares what a test found with what it expects. As a call without clauses it keeps the proofs of the tests short.
pub(crate) fn assert_same<T: PartialEq + Debug + Drop>(rt: &impl Abort, found: T, expected: T) {
    assert_eq!(rt; found, expected);
}
