//! New rings and new streams.

use crate::scarce::{UNIT, new_heap};
use crate::streams::{assert_same_stream, try_stream};
use crate::turns::{Call, assert_same, only, refuse_each, refuse_each_request};
use std::alloc::{AllocError, Allocator};
use std::process::Abort;
use tr_ring::{Origin, Ring};
use tr_stream::Stream;
use tr_terms::{Geometry, Mode};
use tr_testing::Rationed;
use uuid::Uuid;

/// What is made.
#[derive(Clone, Copy, Debug, PartialEq, Eq)]
enum What {
    Ring,
    Stream,
}

/// A ring or a stream to be made, with `count` sub-buffers of 256 bytes.
#[derive(Clone, Copy)]
struct Row {
    what: What,
    count: u64,
}

/// What was made, if anything.
#[derive(Drop)]
enum Made<A: Allocator> {
    Nothing,
    Ring(Ring<A>),
    Stream(Stream<A>),
}

/// Where memory comes from, and what was made of it.
#[derive(Drop)]
struct Place<A: Allocator> {
    alloc: A,
    made: Made<A>,
}

/// Makes a ring.
fn try_ring<A: Allocator + Copy>(
    rt: &impl Abort,
    alloc: A,
    count: u64,
) -> Result<Ring<A>, AllocError> {
    let geometry = Geometry::new(256, count).expect(rt, "a geometry");
    let origin = Origin {
        uuid: Uuid::from_bytes([7; 16]),
        stream: 0,
    };
    Ring::new(alloc, origin, geometry.size(), geometry.count(), true)
}

/// Makes what a row says.
fn try_made<A: Allocator + Copy>(
    rt: &impl Abort,
    alloc: A,
    row: Row,
) -> Result<Made<A>, AllocError> {
    match row.what {
        What::Ring => Ok(Made::Ring(try_ring(rt, alloc, row.count)?)),
        What::Stream => Ok(Made::Stream(try_stream(rt, alloc, (row.count, Mode::Discard))?)),
    }
}

/// Asserts that two rings are empty, and have the same sub-buffers.
fn assert_same_ring<A: Allocator>(rt: &impl Abort, one: &Ring<A>, other: &Ring<A>) {
    assert_same(rt, (one.size(), one.count()), (other.size(), other.count()));
    for ring in [one, other] {
        assert_same(
            rt,
            (ring.seq(), ring.discarded(), ring.waiting()),
            (0, 0, 0),
        );
        assert_same(rt, ring.current().count(), 0);
        assert_same(rt, ring.overwrites(), true);
        assert_same(rt, ring.record(0).is_none(), true);
    }
}

impl<A: Allocator + Copy> Call<A> for Row {
    type Object = Place<A>;

    type Answer = Result<(), AllocError>;

    fn object(&self, _rt: &impl Abort, alloc: A) -> Place<A> {
        Place {
            alloc,
            made: Made::Nothing,
        }
    }

    fn make(&self, rt: &impl Abort, object: &mut Place<A>) -> Result<(), AllocError> {
        object.made = try_made(rt, object.alloc, *self)?;
        Ok(())
    }

    fn granted(&self, _rt: &impl Abort) -> Result<(), AllocError> {
        Ok(())
    }

    fn refusal(&self, number: usize) -> Option<Result<(), AllocError>> {
        only(number, Err(AllocError))
    }

    fn assert_alike(&self, rt: &impl Abort, one: &Place<A>, other: &Place<A>) {
        match (&one.made, &other.made) {
            (Made::Nothing, Made::Nothing) => {}
            (Made::Ring(ring), Made::Ring(like)) => assert_same_ring(rt, ring, like),
            (Made::Stream(stream), Made::Stream(like)) => assert_same_stream(rt, stream, like),
            _ => panic!(rt; "one was made, and the other not"),
        }
    }
}

#[test]
fn a_ring_and_a_stream_without_memory_are_not_made(rt: HostRuntime) {
    let heap = new_heap(&rt, rt.alloc());
    let memory = Rationed::new(rt.alloc());
    let (mut tried, mut refused) = (0usize, 0usize);
    for count in [2, 4, 16] {
        for what in [What::Ring, What::Stream] {
            let row = Row { what, count };
            tried = tried.wrapping_add(refuse_each(&rt, rt.alloc(), &heap, UNIT, &row));
            refused = refused.wrapping_add(refuse_each_request(&rt, &memory, &row));
        }
    }
    assert!(rt; tried >= 700, "{tried}");
    assert!(rt; refused >= 44, "{refused}");
}
