//! Images of more than one window: they are read by 2 MiB, of which the second half is looked at again.

use super::laying::{Row, assert_found, image};
use std::alloc::Global;
use std::process::Abort;
use tr_terms::limits::LARGEST_PACKET;

/// A packet of 154 bytes.
const ONE: Row = (3, 4, 5, &[50]);

/// A packet of 1,048,576 bytes, the most that one has.
const LARGEST: Row = (3, 5, 5, &[1_048_472]);

/// A packet at the end of an image of so many bytes.
fn assert_at_end(rt: &impl Abort, alloc: Global, size: usize) {
    let laid = [(size.saturating_sub(154), ONE)];
    assert_found(rt, alloc, &image(rt, alloc, size, &laid), &[ONE]);
}

#[test]
fn at_the_end_of_a_window(rt: HostRuntime) {
    assert_at_end(&rt, rt.alloc(), 1_048_576);
    assert_at_end(&rt, rt.alloc(), 2_097_152);
}

#[test]
fn at_an_end_behind_a_window(rt: HostRuntime) {
    assert_at_end(&rt, rt.alloc(), 2_097_153);
}

#[test]
fn at_the_end_of_three_halves(rt: HostRuntime) {
    assert_at_end(&rt, rt.alloc(), 3_145_728);
}

/// The largest packet from a place on, in an image that ends as it does.
fn largest_at(rt: &impl Abort, alloc: Global, place: usize) -> Vec<u8> {
    let size = place.saturating_add(LARGEST_PACKET);
    image(rt, alloc, size, &[(place, LARGEST)])
}

/// It begins at the last place of the window's first half.
#[test]
fn the_largest_that_ends_before_the_window(rt: HostRuntime) {
    let image = largest_at(&rt, rt.alloc(), 1_048_575);
    assert_found(&rt, rt.alloc(), &image, &[LARGEST]);
}

#[test]
fn the_largest_that_ends_with_the_window(rt: HostRuntime) {
    let image = largest_at(&rt, rt.alloc(), 1_048_576);
    assert_found(&rt, rt.alloc(), &image, &[LARGEST]);
}

/// It ends a byte behind the window. If the image ends with the window, it is none.
#[test]
fn the_largest_that_ends_behind_the_window(rt: HostRuntime) {
    let image = largest_at(&rt, rt.alloc(), 1_048_577);
    assert_found(&rt, rt.alloc(), &image, &[LARGEST]);
    let cut = image.get(..2_097_152).expect(&rt, "a shorter image");
    assert_found(&rt, rt.alloc(), cut, &[]);
}

/// Packets of 154 bytes that begin and end with halves of windows, and across them, by their places.
static LAID: [(usize, Row); 9] = [
    (1_048_422, (0, 0, 0, &[50])),
    (1_048_576, (0, 1, 0, &[50])),
    (2_096_998, (0, 2, 0, &[50])),
    (2_097_152, (0, 3, 0, &[50])),
    (3_145_651, (0, 4, 0, &[50])),
    // of one number, in several windows
    (500_000, (1, 0, 0, &[50])),
    (1_500_000, (1, 0, 1, &[1, 1, 1])),
    (2_500_000, (1, 0, 2, &[1, 1])),
    (3_000_000, (1, 0, 3, &[1, 1, 1])),
];

static FOUND: [Row; 6] = [
    (0, 0, 0, &[50]),
    (0, 1, 0, &[50]),
    (0, 2, 0, &[50]),
    (0, 3, 0, &[50]),
    (0, 4, 0, &[50]),
    (1, 0, 1, &[1, 1, 1]),
];

#[test]
fn in_many_windows(rt: HostRuntime) {
    let image = image(&rt, rt.alloc(), 3_145_805, &LAID);
    assert_found(&rt, rt.alloc(), &image, &FOUND);
}

/// The same, a byte before or behind.
static ASIDE: [(usize, Row); 6] = [
    (1_048_421, (0, 5, 0, &[50])),
    (1_048_575, (0, 4, 0, &[50])),
    (2_096_999, (0, 3, 0, &[50])),
    (2_097_153, (0, 2, 0, &[50])),
    (3_145_573, (0, 1, 0, &[50])),
    (3_145_727, (0, 0, 0, &[50])),
];

static IN_ORDER: [Row; 6] = [
    (0, 0, 0, &[50]),
    (0, 1, 0, &[50]),
    (0, 2, 0, &[50]),
    (0, 3, 0, &[50]),
    (0, 4, 0, &[50]),
    (0, 5, 0, &[50]),
];

#[test]
fn beside_the_halves_of_windows(rt: HostRuntime) {
    let image = image(&rt, rt.alloc(), 3_145_881, &ASIDE);
    assert_found(&rt, rt.alloc(), &image, &IN_ORDER);
}
