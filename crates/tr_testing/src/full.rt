//! A heap that is full.

use linked_list_allocator::LocalHeap;
use std::alloc::{AllocError, Global};

/// Blocks that leave no free bytes in a heap of at most 256 KiB, until they are dropped.
pub fn fill<'a>(
    alloc: Global,
    heap: &'a LocalHeap,
) -> Result<Vec<Vec<u8, &'a LocalHeap>>, AllocError> {
    let mut blocks = Vec::new(alloc);
    for size in [1024, 64, 16] {
        for _ in 0..1024 {
            let Ok(block) = Vec::with_capacity(heap, size) else {
                break;
            };
            blocks.push(block)?;
        }
    }
    Ok(blocks)
}
