//! An allocator that runs out.

ghost use Rattle.std.specs.contracts.impls.GlobalAllocator.TheImpl.{ghosts};

use std::alloc::{AllocError, Allocator, Global};
use std::cell::Cell;

/// How many requests are still granted, and how many were refused.
#[derive(Drop)]
struct Ration {
    /// Every request is granted if it is none.
    left: Cell<Option<u64>>,
    refused: Cell<u64>,
}

impl Ration {
    /// Whether the next request is granted. It is counted.
    fn admits(&self) -> bool {
        match self.left.get() {
            None => true,
            Some(0) => {
                self.refused.set(self.refused.get().wrapping_add(1));
                false
            }
            Some(left) => {
                self.left.set(Some(left.wrapping_sub(1)));
                true
            }
        }
    }
}

/// Memory of the C library that runs out: a test says how many requests are still granted, and every later one is refused.
/// What was granted can be given back at any time.
#[derive(Drop)]
pub struct Rationed {
    source: Global,
    ration: Ration,
}

impl Rationed {
    /// One that grants every request.
    pub fn new(source: Global) -> Rationed {
        Rationed {
            source,
            ration: Ration {
                left: Cell::new(None),
                refused: Cell::new(0),
            },
        }
    }

    /// Grants so many requests from now on, and refuses all later ones.
    pub fn limit(&self, requests: u64) {
        self.ration.left.set(Some(requests));
        self.ration.refused.set(0);
    }

    /// Grants every request again. How many were refused since the limit was set.
    pub fn lift(&self) -> u64 {
        self.ration.left.set(None);
        self.ration.refused.get()
    }
}

unsafe impl Allocator for Rationed {
    ghost dealloc_token = { λ rationed. ghosts.dealloc_token rationed.source };

    fn allocate(&self, size: usize, align: usize) -> Result<*mut u8, AllocError> {
        if self.ration.admits() {
            return self.source.allocate(size, align);
        }
        Err(AllocError)
    }

    unsafe fn deallocate(&self, ptr: *mut u8, size: usize, align: usize) {
        self.source.deallocate(ptr, size, align);
    }
}
