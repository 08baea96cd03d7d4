//! Pages for the rings of streams, made while nobody waits for a stream.

ghost use Rattle.std.specs.Prelude.{◌≡◌, ◌≢◌, Some, None, MatchOption, IfSome};
ghost use Rattle.tr_border.specs.declared.codes.TheConstants.{CLOSED, DONE, IN_USE, NO_MEMORY};

use std::alloc::Global;
use tr_border::codes::{CLOSED, DONE, IN_USE, NO_MEMORY};
use tr_held::{SparesCell, StreamCell};
use tr_stream::Spares;

/// How many pages a take would have to make itself now, none or one, and of which size.
#[unsafe(no_mangle)]
pub extern "C" fn trc_stream_lacking_for_take(
    alloc: Global,
    handle: &mut StreamCell,
    size: &mut u64,
    count: &mut u64,
) -> u32
    ensures value { MatchOption handle.old.value ((result ≡ CLOSED) × (size.new ≡ size.old) × (count.new ≡ count.old))
        (λ s. (result ≡ DONE) × (size.new ≡ s.config.geometry.size)) }
    ensures same { handle.new.value ≡ handle.old.value }
{
    let Some(stream) = handle.take(alloc) else {
        return CLOSED;
    };
    *size = stream.config().geometry.size() as u64;
    *count = stream.lacking_for_take() as u64;
    handle.put(stream);
    DONE
}

/// The same for a cut, which may have to make one for each that has records.
#[unsafe(no_mangle)]
pub extern "C" fn trc_stream_lacking_for_cut(
    alloc: Global,
    handle: &mut StreamCell,
    size: &mut u64,
    count: &mut u64,
) -> u32
    ensures value { MatchOption handle.old.value ((result ≡ CLOSED) × (size.new ≡ size.old) × (count.new ≡ count.old))
        (λ s. (result ≡ DONE) × (size.new ≡ s.config.geometry.size)) }
    ensures same { handle.new.value ≡ handle.old.value }
{
    let Some(stream) = handle.take(alloc) else {
        return CLOSED;
    };
    *size = stream.config().geometry.size() as u64;
    *count = stream.lacking_for_cut() as u64;
    handle.put(stream);
    DONE
}

/// The same for copies of what the ring holds, ahead of a look.
#[unsafe(no_mangle)]
pub extern "C" fn trc_stream_lacking_copies(
    alloc: Global,
    handle: &mut StreamCell,
    size: &mut u64,
    count: &mut u64,
) -> u32
    ensures value { MatchOption handle.old.value ((result ≡ CLOSED) × (size.new ≡ size.old) × (count.new ≡ count.old))
        (λ s. (result ≡ DONE) × (size.new ≡ s.config.geometry.size)) }
    ensures same { handle.new.value ≡ handle.old.value }
{
    let Some(stream) = handle.take(alloc) else {
        return CLOSED;
    };
    *size = stream.config().geometry.size() as u64;
    *count = stream.lacking_copies() as u64;
    handle.put(stream);
    DONE
}

/// Reads the first bytes of the sub-buffers from number `from` to before number `to`, the oldest being 0, so that a cut, a clear or
/// a look soon after doesn't wait for memory at each of them. `sum` is one of some of these bytes.
#[unsafe(no_mangle)]
pub extern "C" fn trc_stream_warm(
    alloc: Global,
    handle: &mut StreamCell,
    from: u64,
    to: u64,
    sum: &mut u32,
) -> u32
    ensures value { MatchOption handle.old.value ((result ≡ CLOSED) × (sum.new ≡ sum.old)) (λ _. result ≡ DONE) }
    ensures same { handle.new.value ≡ handle.old.value }
{
    let Some(stream) = handle.take(alloc) else {
        return CLOSED;
    };
    *sum = stream.warm(from as usize, to as usize);
    handle.put(stream);
    DONE
}

/// Makes pages of this size, as many as are asked for or as there is memory for, and writes to all of it.
#[unsafe(no_mangle)]
pub extern "C" fn trc_spares_make(
    alloc: Global,
    handle: &mut SparesCell,
    size: u64,
    count: u64,
) -> u32
    ensures in_use { handle.old.value ≢ None → (result ≡ IN_USE) × (handle.new.value ≡ handle.old.value) }
    ensures value { handle.old.value ≡ None → result ≢ NO_MEMORY
        → (result ≡ DONE) × (handle.new.value ≢ None) × IfSome handle.new.value (λ pages. pages.size ≡ size) }
    ensures no_memory { result ≡ NO_MEMORY → handle.new.value ≡ None }
{
    if let Some(pages) = handle.take(alloc) {
        handle.put(pages);
        return IN_USE;
    }
    let mut pages = Spares::new(alloc, size as usize);
    pages.make_touched(count as usize);
    match Box::new(alloc, pages) {
        Ok(kept) => {
            handle.put(kept);
            DONE
        }
        Err(_) => NO_MEMORY,
    }
}

/// Gives the stream pages, for a take or a cut to put in the place of those that become packets. Pages of another size than its
/// ring's are dropped. What is shown of the stream doesn't change.
#[unsafe(no_mangle)]
pub extern "C" fn trc_stream_keep_spares(
    alloc: Global,
    handle: &mut StreamCell,
    spares: &mut SparesCell,
) -> u32
    ensures closed { handle.old.value ≡ None → (result ≡ CLOSED) × (spares.new.value ≡ spares.old.value) }
    ensures value { handle.old.value ≢ None → MatchOption spares.old.value (result ≡ CLOSED) (λ _. result ≡ DONE) }
    ensures given { result ≡ DONE → spares.new.value ≡ None }
    ensures same { handle.new.value ≡ handle.old.value }
{
    let Some(mut stream) = handle.take(alloc) else {
        return CLOSED;
    };
    let Some(pages) = spares.take(alloc) else {
        handle.put(stream);
        return CLOSED;
    };
    stream.keep_spares(Box::into_inner(pages));
    handle.put(stream);
    DONE
}

/// Begins copies of what the stream's ring holds in these pages, as far as they go; what is left of them stays with the caller.
/// What is shown of the stream doesn't change.
#[unsafe(no_mangle)]
pub extern "C" fn trc_stream_begin_copies(
    alloc: Global,
    handle: &mut StreamCell,
    spares: &mut SparesCell,
) -> u32
    ensures value { MatchOption handle.old.value (result ≡ CLOSED)
        (λ _. MatchOption spares.old.value (result ≡ CLOSED) (λ _. result ≡ DONE)) }
    ensures same { handle.new.value ≡ handle.old.value }
{
    let Some(mut stream) = handle.take(alloc) else {
        return CLOSED;
    };
    let Some(mut pages) = spares.take(alloc) else {
        handle.put(stream);
        return CLOSED;
    };
    stream.begin_copies(&mut pages);
    spares.put(pages);
    handle.put(stream);
    DONE
}

/// Copies the next bytes of what the stream's ring holds, at most so many, for the next look at it. What is shown of the stream
/// doesn't change.
#[unsafe(no_mangle)]
pub extern "C" fn trc_stream_copy_more(
    alloc: Global,
    handle: &mut StreamCell,
    most: u64,
    copied: &mut u64,
) -> u32
    ensures value { MatchOption handle.old.value ((result ≡ CLOSED) × (copied.new ≡ copied.old)) (λ _. result ≡ DONE) }
    ensures same { handle.new.value ≡ handle.old.value }
{
    let Some(mut stream) = handle.take(alloc) else {
        return CLOSED;
    };
    *copied = stream.copy_more(most as usize) as u64;
    handle.put(stream);
    DONE
}

/// Lets pages go.
#[unsafe(no_mangle)]
pub extern "C" fn trc_spares_free(alloc: Global, handle: &mut SparesCell)
    ensures { handle.new.value ≡ None }
{
    *handle = SparesCell::closed(alloc);
}
