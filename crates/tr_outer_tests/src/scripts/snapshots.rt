//! A snapshot without memory.

use super::{assert_same, run};
use linked_list_allocator::LocalHeap;
use tr_console::ScriptFault;
use tr_record::{MemorySink, MemorySource};

/// Records that fill a ring of four sub-buffers, and a snapshot.
const LARGE: &str = "create z 00000000-0000-0000-0000-000000000001 --snapshot
channel z c 16384 4 overwrite
thread z c
start z 0
offer z 0 1 7 --fill 16000
offer z 0 2 7 --fill 16000
offer z 0 3 7 --fill 16000
offer z 0 4 7 --fill 16000
snapshot z 5
";

const LARGE_ANSWERS: &str = "created z
channel c
stream 0
started
stored 0 in 0
stored 1 in 1
stored 2 in 2
stored 3 in 3
";

#[test]
fn answers_the_lines_before_a_snapshot_without_memory(rt: HostRuntime) {
    // enough for what is read and gathered, for the ring and for one payload, and too little for copies of four
    let heap = LocalHeap::new(rt.alloc(), 245_760).expect(&rt, "memory");
    let mut source = MemorySource::new(LARGE.as_bytes(), 4096);
    let mut sink = MemorySink::new(rt.alloc(), 4096);
    let found = run(&heap, rt.alloc(), &mut source, &mut sink);
    assert_same(&rt, found, Err(ScriptFault::NoMemory));
    let text = sink.into_bytes();
    assert_same(&rt, text.as_slice(), LARGE_ANSWERS.as_bytes());
}
