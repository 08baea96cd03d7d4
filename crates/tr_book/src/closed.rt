//! The parts that a stream has closed.

ghost use Rattle.std.specs.Prelude.{◌≡◌, ◌≢◌, ◌+◌, ◌≤◌, ◌<◌, ◌^◌, ◌++◌, ◌∷◌, [], None, Some, OnOk, OnErr, IfOk, drop, length, max, option_copied, slice_get, take, vec_capacity, vec_len};
ghost use Rattle.std.specs.List.Sorted.{IsNonDecreasing};
ghost use Rattle.tr_book.specs.Closed.{HasRoom, IsClosed, closed_of, forgotten_of, gone_parts, gone_starts, starts_of};
ghost use Rattle.tr_book.specs.Parts.{AreReleased, PartState, begun_at, change_at, closed_at, place_in, release};
ghost use Rattle.tr_book.specs.Runs.{GapsShow};

use crate::part::Part;
use crate::seen::Seen;
use std::alloc::{AllocError, Allocator};
use tr_packet::PacketText;

/// More parts than this are refused, as are more than there is memory for.
const MOST_PARTS: u64 = 1 << 62;

/// A part that is forgotten, and the serial at which the next one began, as contracts see them. It has no bytes.
#[derive(Drop)]
pub(crate) struct Gone<A: Allocator> {
    part: Seen<Part<A>>,
    next: Seen<u64>,
}

/// The closed parts in order. Of the first ones, if they are forgotten, nothing is kept but how many they are.
#[derive(Drop)]
pub(crate) struct ClosedParts<A: Allocator> {
    gone: Vec<Gone<A>, A>,
    // the serial at which the part after those began
    begin: u64,
    parts: Vec<Part<A>, A>,
    // the serials at which the parts after each of these began
    starts: Vec<u64, A>,
}

/// Takes the first items away, so many.
fn drop_first<T: Drop, A: Allocator>(items: &mut Vec<T, A>, count: usize)
    requires { count ≤ length items.old.items }
    ensures { items.new.items ≡ drop count items.old.items }
{
    let left = items.len() - count;
    items.rotate_left(count);
    items.truncate(left);
}

/// Notes the first parts, so many, as forgotten. It takes no memory.
fn note_gone<A: Allocator>(
    gone: &mut Vec<Gone<A>, A>,
    parts: &[Part<A>],
    starts: &[u64],
    count: usize,
)
    requires room { vec_len gone.old + count ≤ vec_capacity gone.old }
    requires parts { count ≤ length parts.now }
    requires starts { count ≤ length starts.now }
    ensures parts { gone_parts gone.new.items ≡ gone_parts gone.old.items ++ take count parts.now }
    ensures starts { gone_starts gone.new.items ≡ gone_starts gone.old.items ++ take count starts.now }
{
    for at in 0..count {
        gone.push_reserved(Gone {
            part: Seen::new(&parts[at]),
            next: Seen::new(&starts[at]),
        });
    }
}

impl<A: Allocator> ClosedParts<A> {
    /// None yet. It takes no memory.
    pub(crate) fn new(alloc: A) -> ClosedParts<A>
    where
        A: Copy,
        ensures value { (closed_of result ≡ []) × (starts_of result ≡ []) × (forgotten_of result ≡ 0) }
        ensures closed { IsClosed result }
    {
        ClosedParts {
            gone: Vec::new(alloc),
            begin: 0,
            parts: Vec::new(alloc),
            starts: Vec::new(alloc),
        }
    }

    /// How many parts are closed.
    pub(crate) fn count(&self) -> u64
        requires { IsClosed self.now }
        ensures { result ≡ length (closed_of self.now) }
    {
        self.gone.len() as u64 + self.parts.len() as u64
    }

    /// How many of them are forgotten.
    pub(crate) fn forgotten(&self) -> u64
        ensures { result ≡ forgotten_of self.now }
    {
        self.gone.len() as u64
    }

    /// The serial at which the first part that isn't forgotten began.
    pub(crate) fn begin(&self) -> u64
        requires { IsClosed self.now }
        ensures { result ≡ begun_at (forgotten_of self.now) (starts_of self.now) }
    {
        self.begin
    }

    /// The closed part number `k`, if it isn't forgotten.
    pub(crate) fn part(&self, k: u64) -> Option<&Part<A>>
        ensures { option_copied result ≡ closed_at k (forgotten_of self.now) (closed_of self.now) }
    {
        if k < self.forgotten() {
            return None;
        }
        self.parts.get((k - self.forgotten()) as usize)
    }

    /// The place of part number `k`, which isn't released, among those that aren't forgotten.
    fn place(&self, k: u64) -> usize
        requires closed { IsClosed self.now }
        requires within { k < length (closed_of self.now) }
        requires held { (part : PartState) → slice_get (closed_of self.now) k ≡ Some part → part.released ≡ None }
        ensures place { k ≡ forgotten_of self.now + result }
        ensures within { result < length self.now.parts.items }
    {
        (k - self.forgotten()) as usize
    }

    /// How many parts began at this serial or before, but for the first one. It looks at few of them.
    pub(crate) fn place_of(&self, serial: u64) -> u64
        requires { IsClosed self.now }
        ensures { IsNonDecreasing (starts_of self.now) → begun_at (forgotten_of self.now) (starts_of self.now) ≤ serial
            → result ≡ place_in serial (starts_of self.now) }
    {
        self.forgotten() + self.starts.partition_point(|start| *start <= serial) as u64
    }

    /// Takes care that there is room for one more, and for its end.
    pub(crate) fn reserve(&mut self) -> Result<(), AllocError>
        requires { IsClosed self.old }
        ensures closed { IsClosed self.new }
        ensures same { (closed_of self.new ≡ closed_of self.old) × (starts_of self.new ≡ starts_of self.old)
            × (forgotten_of self.new ≡ forgotten_of self.old) }
        ensures room { OnOk result (HasRoom self.new) }
    {
        if self.count() >= MOST_PARTS {
            return Err(AllocError);
        }
        self.parts.reserve(1)?;
        self.starts.reserve(1)?;
        Ok(())
    }

    /// Adds a part at the end; the next one begins at this serial. It takes no memory.
    pub(crate) fn push_reserved(&mut self, part: Part<A>, next: u64)
        requires closed { IsClosed self.old }
        requires room { HasRoom self.old }
        ensures closed { IsClosed self.new }
        ensures parts { closed_of self.new ≡ closed_of self.old ++ part ∷ [] }
        ensures starts { starts_of self.new ≡ starts_of self.old ++ next ∷ [] }
        ensures forgotten { forgotten_of self.new ≡ forgotten_of self.old }
    {
        self.parts.push_reserved(part);
        self.starts.push_reserved(next);
    }
}

/// Releases the part at this place.
fn release_at<A: Allocator + Copy>(
    parts: &mut Vec<Part<A>, A>,
    alloc: A,
    k: usize,
) -> Result<(), AllocError>
    requires within { k < length parts.old.items }
    requires held { (part : PartState) → slice_get parts.old.items k ≡ Some part → part.released ≡ None }
    ensures ok { OnOk result (parts.new.items ≡ change_at k release parts.old.items) }
    ensures err { OnErr result (parts.new.items ≡ parts.old.items) }
    ensures memory { OnErr result ((part : PartState) → slice_get parts.old.items k ≡ Some part → part.packets ≢ []) }
{
    parts[k].release(alloc)?;
    Ok(())
}

/// The same for packets of one stream in order, which come out.
fn release_out_at<A: Allocator + Copy>(
    parts: &mut Vec<Part<A>, A>,
    alloc: A,
    k: usize,
) -> Result<Vec<PacketText<A>, A>, AllocError>
    requires within { k < length parts.old.items }
    requires held { (part : PartState) → slice_get parts.old.items k ≡ Some part → part.released ≡ None }
    requires gaps { (part : PartState) → slice_get parts.old.items k ≡ Some part → GapsShow 0 part.packets }
    ensures packets { IfOk result (λ t. (part : PartState) → slice_get parts.old.items k ≡ Some part → t.items ≡ part.packets) }
    ensures ok { OnOk result (parts.new.items ≡ change_at k release parts.old.items) }
    ensures err { OnErr result (parts.new.items ≡ parts.old.items) }
    ensures memory { OnErr result ((part : PartState) → slice_get parts.old.items k ≡ Some part → part.packets ≢ []) }
{
    let texts = parts[k].release_out(alloc)?;
    Ok(texts)
}

impl<A: Allocator + Copy> ClosedParts<A> {
    /// Releases the part number `k`.
    pub(crate) fn release(&mut self, alloc: A, k: u64) -> Result<(), AllocError>
        requires closed { IsClosed self.old }
        requires within { k < length (closed_of self.old) }
        requires held { (part : PartState) → slice_get (closed_of self.old) k ≡ Some part → part.released ≡ None }
        ensures closed { IsClosed self.new }
        ensures same { (starts_of self.new ≡ starts_of self.old) × (forgotten_of self.new ≡ forgotten_of self.old) }
        ensures ok { OnOk result (closed_of self.new ≡ change_at k release (closed_of self.old)) }
        ensures err { OnErr result (closed_of self.new ≡ closed_of self.old) }
        ensures memory { OnErr result ((part : PartState) → slice_get (closed_of self.old) k ≡ Some part → part.packets ≢ []) }
    {
        let at = self.place(k);
        release_at(&mut self.parts, alloc, at)?;
        Ok(())
    }

    /// The same for packets of one stream in order, which come out.
    pub(crate) fn release_out(
        &mut self,
        alloc: A,
        k: u64,
    ) -> Result<Vec<PacketText<A>, A>, AllocError>
        requires closed { IsClosed self.old }
        requires within { k < length (closed_of self.old) }
        requires held { (part : PartState) → slice_get (closed_of self.old) k ≡ Some part → part.released ≡ None }
        requires gaps { (part : PartState) → slice_get (closed_of self.old) k ≡ Some part → GapsShow 0 part.packets }
        ensures closed { IsClosed self.new }
        ensures same { (starts_of self.new ≡ starts_of self.old) × (forgotten_of self.new ≡ forgotten_of self.old) }
        ensures packets { IfOk result (λ t. (part : PartState) → slice_get (closed_of self.old) k ≡ Some part
            → t.items ≡ part.packets) }
        ensures ok { OnOk result (closed_of self.new ≡ change_at k release (closed_of self.old)) }
        ensures err { OnErr result (closed_of self.new ≡ closed_of self.old) }
        ensures memory { OnErr result ((part : PartState) → slice_get (closed_of self.old) k ≡ Some part → part.packets ≢ []) }
    {
        let at = self.place(k);
        let texts = release_out_at(&mut self.parts, alloc, at)?;
        Ok(texts)
    }

    /// Forgets the parts below `k`: their runs go, and the list of them takes no bytes. If an allocation fails, nothing changes.
    pub(crate) fn forget(&mut self, k: u64) -> Result<(), AllocError>
        requires closed { IsClosed self.old }
        requires within { k ≤ length (closed_of self.old) }
        requires released { AreReleased (take k (closed_of self.old)) }
        ensures closed { IsClosed self.new }
        ensures same { (closed_of self.new ≡ closed_of self.old) × (starts_of self.new ≡ starts_of self.old) }
        ensures ok { OnOk result (forgotten_of self.new ≡ max k (forgotten_of self.old)) }
        ensures err { OnErr result (forgotten_of self.new ≡ forgotten_of self.old) }
        ensures memory { OnErr result (forgotten_of self.old < k) }
    {
        if k <= self.forgotten() {
            return Ok(());
        }
        let count = (k - self.forgotten()) as usize;
        self.gone.reserve(count)?;
        self.begin = self.starts[count - 1];
        note_gone(&mut self.gone, &self.parts, &self.starts, count);
        drop_first(&mut self.parts, count);
        drop_first(&mut self.starts, count);
        Ok(())
    }
}
