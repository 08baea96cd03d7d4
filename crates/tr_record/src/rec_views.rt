//! The records that lie in memory, one view at a time.

ghost use Rattle.std.specs.Prelude.{◌≡◌, ◌-◌, length, slice_get};
ghost use Rattle.std.specs.Iterator.{YieldsFirst, item_count};
ghost use Rattle.tr_record.specs.Records.{has_serial};

use crate::record::Rec;
use crate::view::RecView;
use std::alloc::{Allocator, Global};
use std::marker::Model;

/// Records in order, each shown by a view. Contracts see the list of those that are left.
#[derive(Drop)]
pub struct RecViews<'a, A: Allocator = Global> {
    rest: &'a [Rec<A>],
}

impl<'a, A: Allocator> Model for RecViews<'a, A> {
    ghost use Rattle.std.specs.Prelude.{List};
    ghost use Rattle.tr_record.specs.Records.{Entry};

    ghost Value = { List Entry };

    ghost view = { λ r. r.rest.now };
}

impl<'a, A: Allocator> RecViews<'a, A> {
    /// The views of these records. It takes no memory.
    pub fn new(records: &'a [Rec<A>]) -> RecViews<'a, A>
        ensures { result ≡ records.entry.now }
    {
        RecViews { rest: records }
    }

    /// How many records are left.
    pub fn len(&self) -> usize
        ensures { result ≡ length self.now }
    {
        self.rest.len()
    }

    /// The first record that is left, if any.
    pub fn first(&self) -> Option<RecView<'a>>
        ensures { result ≡ slice_get self.now 0 }
    {
        self.rest.first().map(|r| r.view())
    }

    /// The last record, if any is left, without a look at those before it.
    pub fn last(self) -> Option<RecView<'a>>
        ensures { result ≡ slice_get self.entry (length self.entry - 1) }
    {
        self.rest.last().map(|r| r.view())
    }

    /// The record number `i` of those that are left, from 0 on.
    pub fn at(&self, i: usize) -> Option<RecView<'a>>
        ensures { result ≡ slice_get self.now i }
    {
        self.rest.get(i).map(|r| r.view())
    }

    /// Whether one of the records that are left has this serial.
    pub fn has(&self, serial: u64) -> bool
        ensures { result ≡ has_serial serial self.now }
    {
        self.rest.iter().any(|r| r.serial() == serial)
    }
}

impl<'a, A: Allocator> Iterator for RecViews<'a, A> {
    type Item = RecView<'a>;

    ghost next_gives = { YieldsFirst (λ left. left) };

    ghost remaining = { item_count (λ left. left) };

    fn next(&mut self) -> Option<RecView<'a>> {
        let (first, rest) = self.rest.split_first()?;
        self.rest = rest;
        Some(first.view())
    }
}
