//! Folders that fail at each of their calls, and texts that can't be put.

use super::{assert_put, assert_same, declared, describe, expected, worked};
use crate::surveys::failing::FailingFolders;
use tr_describe::{DescribeFault, Described, MemoryTexts, Texts};

/// Whichever call of the folders fails, nothing is put.
#[test]
fn failing_folders(rt: HostRuntime) {
    let alloc = rt.alloc();
    for calls in 0..100 {
        let mut folders = FailingFolders::new(worked(&rt, alloc).kept(70_000), calls);
        let mut texts = MemoryTexts::new(alloc, 9);
        let answer = describe(alloc, &mut folders, &mut texts, "d", &declared(&rt, alloc));
        if answer == Ok(Described::Done { archives: 2 }) {
            assert_same(&rt, folders.calls(), 0);
            return;
        }
        assert_same(
            &rt,
            (answer, folders.failures()),
            (Err(DescribeFault::TooMuch), 1),
        );
        assert_put(&rt, &texts, &[]);
    }
    panic!(&rt; "no end");
}

/// Whichever text can't be put, those before it were.
#[test]
fn failing_texts(rt: HostRuntime) {
    let alloc = rt.alloc();
    for room in 0..2 {
        let mut folders = worked(&rt, alloc).kept(70_000);
        let mut texts = MemoryTexts::new(alloc, room);
        let answer = describe(alloc, &mut folders, &mut texts, "d", &declared(&rt, alloc));
        assert_same(&rt, answer, Err(DescribeFault::Write));
        let all = expected(&rt, alloc, &[1, 1]);
        let put = all.get(..room as usize).expect(&rt, "two texts");
        assert_put(&rt, &texts, put);
    }
}
