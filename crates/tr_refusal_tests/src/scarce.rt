//! A heap with little memory left.

use linked_list_allocator::LocalHeap;
use std::alloc::Global;
use std::process::Abort;
use tr_testing::fill;

/// How many bytes a heap's blocks come in.
pub(crate) const UNIT: usize = 16;

/// A heap for what the tests make.
pub(crate) fn new_heap(rt: &impl Abort, plain: Global) -> LocalHeap {
    LocalHeap::new(plain, 262_144).expect(rt, "a heap")
}

/// A heap for two sessions of four streams, which is filled in a quarter of the time.
pub(crate) fn small_heap(rt: &impl Abort, plain: Global) -> LocalHeap {
    LocalHeap::new(plain, 65_536).expect(rt, "a heap")
}

/// Blocks that fill a heap, until they are dropped, but for `bytes` bytes in one piece.
pub(crate) fn fill_all_but<'h>(
    rt: &impl Abort,
    plain: Global,
    heap: &'h LocalHeap,
    bytes: usize,
) -> Vec<Vec<u8, &'h LocalHeap>> {
    let kept = Vec::<u8, &'h LocalHeap>::with_capacity(heap, bytes).expect(rt, "room");
    let blocks = fill(plain, heap).expect(rt, "room for blocks");
    drop(kept);
    blocks
}
