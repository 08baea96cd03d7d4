//! What tests assert.

use std::fmt::Debug;
use std::process::Abort;

/// Compares what a test found with what it expects. As a call without clauses it keeps the proofs of the tests short.
pub(crate) fn assert_same<T: PartialEq + Debug + Drop>(rt: &impl Abort, found: T, expected: T) {
    assert_eq!(rt; found, expected);
}

/// Which step of a test this is: the number of its list, and its place there.
pub(crate) type Place = (usize, usize);

/// The same, with the step that it is about.
pub(crate) fn assert_at<T: PartialEq + Debug + Drop>(
    rt: &impl Abort,
    place: Place,
    found: T,
    expected: T,
) {
    assert_eq!(rt; found, expected, "list and step {place:?}");
}
