//! Images that are read in pieces, that break off, or whose reading fails.

use super::TWO;
use super::laying::{Row, assert_in_pieces, image, kept, recovered};
use crate::asserting::assert_same;
use crate::surveys::failing::FailingFolders;
use crate::surveys::room::uuid;
use std::alloc::Global;
use std::process::Abort;
use tr_folders::{MemoryFolders, ReadFault};
use tr_image::recovered_packets;

/// Packets in a small image, and in one of more than a window.
static SMALL: [(usize, Row); 2] = [(13, (1, 1, 0, &[50, 9])), (700, (0, 2, 0, &[50]))];

static LARGE: [(usize, Row); 2] = [
    (1_048_575, (1, 1, 0, &[50, 9])),
    (2_096_999, (0, 2, 0, &[50])),
];

static FOUND: [Row; 2] = [(0, 2, 0, &[50]), (1, 1, 0, &[50, 9])];

/// Whatever number of bytes is read at a time.
#[test]
fn in_pieces(rt: HostRuntime) {
    let image = image(&rt, rt.alloc(), 1000, &SMALL);
    for piece in [1, 7, 65_536] {
        assert_in_pieces(&rt, rt.alloc(), &image, piece, &FOUND);
    }
}

#[test]
fn windows_in_large_pieces(rt: HostRuntime) {
    let image = image(&rt, rt.alloc(), 2_097_153, &LARGE);
    assert_in_pieces(&rt, rt.alloc(), &image, 65_536, &FOUND);
}

#[test]
fn windows_in_pieces_of_seven(rt: HostRuntime) {
    let image = image(&rt, rt.alloc(), 2_097_153, &LARGE);
    assert_in_pieces(&rt, rt.alloc(), &image, 7, &FOUND);
}

#[test]
fn windows_byte_by_byte(rt: HostRuntime) {
    let image = image(&rt, rt.alloc(), 2_097_153, &LARGE);
    assert_in_pieces(&rt, rt.alloc(), &image, 1, &FOUND);
}

/// The same folder, where the file breaks off behind these bytes.
fn broken(rt: &impl Abort, alloc: Global, image: Vec<u8>) -> MemoryFolders {
    let path = String::from_str(alloc, "ring").expect(rt, "memory");
    let mut files = Vec::new(alloc);
    files.push((path, image)).expect(rt, "memory");
    let path = String::from_str(alloc, "ring").expect(rt, "memory");
    let mut hidden = Vec::new(alloc);
    hidden.push(path).expect(rt, "memory");
    MemoryFolders::with_hidden(alloc, Vec::new(alloc), files, hidden, 1_000_000)
}

/// A file that breaks off, where it begins, in its first window, at the window's end or later, isn't read.
#[test]
fn a_file_that_breaks_off(rt: HostRuntime) {
    let alloc = rt.alloc();
    for size in [0, 300, 1_048_576, 2_097_152, 2_097_153, 3_145_728] {
        let laid: &[(usize, Row)] = if size < 300 { &[] } else { &[(0, TWO)] };
        let mut folders = broken(&rt, alloc, image(&rt, alloc, size, laid));
        let fault = recovered(alloc, 1, &mut folders).err();
        assert_same(&rt, (size, fault), (size, Some(ReadFault::Unreadable)));
    }
}

/// The call that opens the file, one for each of its three pieces, and one for its end: whichever fails, that is the answer.
#[test]
fn a_call_that_fails(rt: HostRuntime) {
    let alloc = rt.alloc();
    let image = image(&rt, alloc, 1000, &SMALL);
    for calls in 0..6 {
        let mut folders = FailingFolders::new(kept(&rt, alloc, &image, 400), calls);
        let fault = recovered_packets(alloc, &uuid(1), &mut folders, "ring").err();
        let (wanted, failures) = match calls {
            0..=4 => (Some(ReadFault::TooMuch), 1),
            _ => (None, 0),
        };
        assert_same(&rt, (calls, fault), (calls, wanted));
        assert_same(&rt, (folders.failures(), folders.calls()), (failures, 0));
    }
}
