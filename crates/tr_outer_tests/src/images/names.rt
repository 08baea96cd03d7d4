//! Which trace an image names.

use super::laying::{OPENING, kept, lay, metadata, open_at, zeros};
use crate::asserting::assert_same;
use crate::surveys::failing::FailingFolders;
use crate::surveys::room::uuid;
use std::alloc::Global;
use std::process::Abort;
use tr_folders::{MemoryFolders, ReadFault};
use tr_image::{Trace, named_trace};

/// An image of so many bytes with such a beginning.
fn opened(rt: &impl Abort, alloc: Global, size: usize, place: usize, behind: usize) -> Vec<u8> {
    let mut image = zeros(rt, alloc, size);
    open_at(rt, alloc, &mut image, place, behind, 1);
    image
}

/// The trace that folders name by the file `ring`, as the tests have it: the last byte of its identifier, and whether its metadata is
/// the one of that identifier.
type Named = Result<Option<(u8, bool)>, ReadFault>;

fn seen(rt: &impl Abort, alloc: Global, trace: Trace) -> (u8, bool) {
    let last = trace.uuid().as_bytes().last().copied().expect(rt, "a byte");
    let text = metadata(rt, alloc, last);
    (last, trace.into_metadata().as_slice() == text.as_bytes())
}

fn named(rt: &impl Abort, alloc: Global, wanted: Option<u8>, folders: &mut MemoryFolders) -> Named {
    let wanted = match wanted {
        Some(last) => Some(uuid(last)),
        None => None,
    };
    match named_trace(alloc, wanted.as_ref(), folders, "ring") {
        Ok(Some(trace)) => Ok(Some(seen(rt, alloc, trace))),
        Ok(None) => Ok(None),
        Err(fault) => Err(fault),
    }
}

fn assert_named(rt: &impl Abort, alloc: Global, image: &[u8], piece: usize, trace: Option<u8>) {
    let found = named(rt, alloc, None, &mut kept(rt, alloc, image, piece));
    let wanted = match trace {
        Some(last) => Some((last, true)),
        None => None,
    };
    assert_same(rt, found, Ok(wanted));
}

/// Where the beginning is in 4,000 bytes, and how far behind it the metadata.
static PLACES: [(usize, usize); 4] = [(0, 32), (1, 32), (777, 32), (60, 500)];

#[test]
fn wherever_rings_begin(rt: HostRuntime) {
    let alloc = rt.alloc();
    for (place, behind) in &PLACES {
        let image = opened(&rt, alloc, 4_000, *place, *behind);
        assert_named(&rt, alloc, &image, 64, Some(1));
    }
}

/// The metadata's last byte is the image's; one byte less, and it isn't whole.
#[test]
fn up_to_the_end(rt: HostRuntime) {
    let alloc = rt.alloc();
    let size = metadata(&rt, alloc, 1).len().wrapping_add(32);
    let image = opened(&rt, alloc, size, 0, 32);
    assert_named(&rt, alloc, &image, 64, Some(1));
    let cut = image.get(..size.wrapping_sub(1)).expect(&rt, "a byte less");
    assert_named(&rt, alloc, cut, 64, None);
}

/// A byte that is another one: of what rings begin with, of the metadata's place and size, and of the text.
static DAMAGE: [usize; 8] = [0, 14, 15, 16, 23, 24, 31, 40];

#[test]
fn a_damaged_beginning(rt: HostRuntime) {
    let alloc = rt.alloc();
    for place in &DAMAGE {
        let mut image = opened(&rt, alloc, 4_000, 0, 32);
        lay(&rt, &mut image, *place, &[0x55]);
        assert_named(&rt, alloc, &image, 64, None);
    }
}

#[test]
fn nothing_that_is_named(rt: HostRuntime) {
    let alloc = rt.alloc();
    for size in [0, 15, 16, 31, 32, 1_000] {
        let mut image = zeros(&rt, alloc, size);
        assert_named(&rt, alloc, &image, 64, None);
        if size >= 16 {
            lay(&rt, &mut image, 0, &OPENING);
            assert_named(&rt, alloc, &image, 64, None);
        }
    }
}

/// Of several traces the first one counts, or the one that is wanted.
#[test]
fn of_several_traces(rt: HostRuntime) {
    let alloc = rt.alloc();
    let mut image = zeros(&rt, alloc, 8_000);
    open_at(&rt, alloc, &mut image, 100, 32, 2);
    open_at(&rt, alloc, &mut image, 4_000, 32, 1);
    for (wanted, trace) in [
        (None, Some((2, true))),
        (Some(1), Some((1, true))),
        (Some(2), Some((2, true))),
        (Some(3), None),
    ] {
        let found = named(&rt, alloc, wanted, &mut kept(&rt, alloc, &image, 64));
        assert_same(&rt, (wanted, found), (wanted, Ok(trace)));
    }
}

/// A window has 8,388,672 bytes, and half of them is how far a beginning and its metadata reach.
#[test]
fn windows(rt: HostRuntime) {
    let alloc = rt.alloc();
    for place in [4_194_335, 4_194_336, 8_388_656, 8_388_672] {
        let image = opened(&rt, alloc, 8_400_000, place, 32);
        assert_named(&rt, alloc, &image, 65_536, Some(1));
    }
}

/// The metadata ends where a beginning's reach does, or one byte later.
#[test]
fn out_of_reach(rt: HostRuntime) {
    let alloc = rt.alloc();
    let size = metadata(&rt, alloc, 1).len();
    let farthest = 4_194_336_usize.wrapping_sub(size);
    let image = opened(&rt, alloc, 4_200_000, 0, farthest);
    assert_named(&rt, alloc, &image, 65_536, Some(1));
    let image = opened(&rt, alloc, 4_200_000, 0, farthest.wrapping_add(1));
    assert_named(&rt, alloc, &image, 65_536, None);
}

/// A folder where the file breaks off behind these bytes.
fn broken(rt: &impl Abort, alloc: Global, image: Vec<u8>) -> MemoryFolders {
    let path = String::from_str(alloc, "ring").expect(rt, "memory");
    let mut files = Vec::new(alloc);
    files.push((path, image)).expect(rt, "memory");
    let path = String::from_str(alloc, "ring").expect(rt, "memory");
    let mut hidden = Vec::new(alloc);
    hidden.push(path).expect(rt, "memory");
    MemoryFolders::with_hidden(alloc, Vec::new(alloc), files, hidden, 1_000_000)
}

#[test]
fn what_cannot_be_read(rt: HostRuntime) {
    let alloc = rt.alloc();
    let mut none = MemoryFolders::new(alloc, Vec::new(alloc), Vec::new(alloc), 64);
    let unreadable = Err(ReadFault::Unreadable);
    assert_same(&rt, named(&rt, alloc, None, &mut none), unreadable);
    for size in [0, 4_000] {
        let mut folders = broken(&rt, alloc, zeros(&rt, alloc, size));
        assert_same(&rt, named(&rt, alloc, None, &mut folders), unreadable);
    }
}

/// The call that opens the file, one for each of its three pieces, and one for its end: whichever fails, that is the answer.
#[test]
fn a_call_that_fails(rt: HostRuntime) {
    let alloc = rt.alloc();
    let image = zeros(&rt, alloc, 1_000);
    for calls in 0..6 {
        let mut folders = FailingFolders::new(kept(&rt, alloc, &image, 400), calls);
        let fault = named_trace(alloc, None, &mut folders, "ring").err();
        let wanted = if calls < 5 {
            Some(ReadFault::TooMuch)
        } else {
            None
        };
        assert_same(&rt, (calls, fault), (calls, wanted));
    }
}

/// A trace of which the image names nothing has the metadata of a session without declared events.
#[test]
fn a_trace_without_an_image(rt: HostRuntime) {
    let alloc = rt.alloc();
    let trace = Trace::untyped(alloc, &uuid(7)).expect(&rt, "memory");
    assert_same(&rt, seen(&rt, alloc, trace), (7, true));
}
