//! Pages in reserve.

ghost use Rattle.std.specs.Prelude.{◌≡◌, ◌==◌, ◌≤◌, ◌<◌, ◌+◌, IfOk, OnErr, OnOk};
ghost use Rattle.tr_stream.specs.Spares.{spares_state};
ghost use Rattle.tr_subbuf.specs.SubBuffer.{empty_buffer};

use std::alloc::{AllocError, Allocator, Global};
use std::marker::Model;
use tr_subbuf::SubBuf;

/// Empty pages of one size, which a ring is given in the place of those that it gives away. Contracts see a `SparesState`.
#[derive(Drop)]
pub struct Spares<A: Allocator = Global> {
    alloc: A,
    size: usize,
    pages: Vec<SubBuf<A>, A>,
}

impl<A: Allocator> Model for Spares<A> {
    ghost use Rattle.std.specs.Prelude.{length};
    ghost use Rattle.std.specs.List.{AllByRecursion};
    ghost use Rattle.tr_ring.specs.Pages.{IsFree};
    ghost use Rattle.tr_stream.specs.Spares.{SparesState, spares_state};

    ghost Value = { SparesState };

    ghost view = { λ s. spares_state s.size (length s.pages.items) };

    ghost invariant = { λ s. AllByRecursion (IsFree s.size) s.pages.items };
}

impl<A: Allocator + Copy> Spares<A> {
    /// No pages yet, of this size. It takes no memory.
    pub fn new(alloc: A, size: usize) -> Spares<A>
        ensures { result ≡ spares_state size 0 }
    {
        Spares {
            alloc,
            size,
            pages: Vec::new(alloc),
        }
    }

    /// How many there are.
    pub fn len(&self) -> usize
        ensures { result ≡ self.now.count }
    {
        self.pages.len()
    }

    /// Whether they have this size.
    pub fn have_size(&self, size: usize) -> bool
        ensures { result ≡ (self.now.size == size) }
    {
        self.size == size
    }

    /// Makes pages until there are so many of this size. Those of another size are dropped. If an allocation fails, some may have
    /// been made.
    pub fn make(&mut self, size: usize, count: usize) -> Result<(), AllocError>
        ensures ok { OnOk result (count ≤ self.new.count) }
        ensures size { OnOk result (self.new.size ≡ size) }
    {
        self.fit(size);
        for _ in self.len()..count {
            self.add(SubBuf::new(self.alloc, size)?)?;
        }
        Ok(())
    }

    /// Drops all pages, unless they have this size.
    fn fit(&mut self, size: usize)
        ensures { self.new.size ≡ size }
    {
        if self.size != size {
            *self = Spares::new(self.alloc, size);
        }
    }

    /// Adds a page.
    fn add(&mut self, page: SubBuf<A>) -> Result<(), AllocError>
        requires { page ≡ empty_buffer self.old.size }
        ensures ok { OnOk result (self.new ≡ spares_state self.old.size (self.old.count + 1)) }
        ensures err { OnErr result (self.new ≡ self.old) }
    {
        self.pages.push(page)?;
        Ok(())
    }

    /// The same with pages that were written to, as far as there is memory.
    pub fn make_touched(&mut self, count: usize)
        ensures size { self.new.size ≡ self.old.size }
    {
        for _ in self.len()..count {
            let Ok(page) = SubBuf::touched(self.alloc, self.size) else {
                return;
            };
            let _ = self.add(page);
        }
    }

    /// Takes one away.
    pub fn pop(&mut self) -> SubBuf<A>
        requires { 0 < self.old.count }
        ensures page { result ≡ empty_buffer self.old.size }
        ensures left { self.new.count + 1 ≡ self.old.count }
        ensures size { self.new.size ≡ self.old.size }
    {
        self.pages.take_last()
    }

    /// Takes one away if there is one of this size, and else makes one.
    pub(crate) fn page(&mut self, size: usize) -> Result<SubBuf<A>, AllocError>
        ensures { IfOk result (λ page. page ≡ empty_buffer size) }
    {
        if self.len() == 0 || self.size != size {
            return SubBuf::new(self.alloc, size);
        }
        Ok(self.pop())
    }

    /// Adds those, if they have the same size. Without memory for the list they are dropped.
    pub fn append(&mut self, mut more: Spares<A>)
        ensures size { self.new.size ≡ self.old.size }
    {
        if more.size == self.size {
            let _ = self.pages.append(&mut more.pages);
        }
    }
}
