//! The lanes of a row.

ghost use Rattle.std.specs.Prelude.{◌≡◌, OnOk};
ghost use Rattle.tr_picture.specs.Lanes.{add, no_lane};

use crate::bars::Bar;
use std::alloc::{AllocError, Global};
use std::marker::Model;

/// Bars from the left, of which no two share a column, and how many were added to become them. Contracts see the bars that are
/// done, the one that may still become more, and that number.
#[derive(Drop)]
pub(crate) struct Lane {
    done: Vec<Bar>,
    pending: Option<Bar>,
    added: u64,
}

impl Model for Lane {
    ghost use Rattle.tr_picture.specs.Lanes.{Lane, lane};

    ghost Value = { Lane };

    ghost view = { λ l. lane l.done.items l.pending l.added };
}

impl Lane {
    /// No bars. It takes no memory.
    pub(crate) fn new(alloc: Global) -> Lane
        ensures { result ≡ no_lane }
    {
        Lane {
            done: Vec::new(alloc),
            pending: None,
            added: 0,
        }
    }

    /// Adds a bar: to the last one, if none of its columns is beyond that.
    pub(crate) fn add(&mut self, bar: Bar) -> Result<(), AllocError>
        ensures { OnOk result (self.new ≡ add self.old bar) }
    {
        self.added = self.added.saturating_add(1);
        let Some(before) = self.pending else {
            self.pending = Some(bar);
            return Ok(());
        };
        if bar.to <= before.to {
            self.pending = Some(before.merged(&bar));
            return Ok(());
        }
        self.done.push(before)?;
        self.pending = Some(before.beyond(&bar));
        Ok(())
    }

    /// How many bars were added.
    pub(crate) fn added(&self) -> u64
        ensures { result ≡ self.now.added }
    {
        self.added
    }

    /// The bars that are done.
    pub(crate) fn done(&self) -> &[Bar]
        ensures { result.now ≡ self.now.done }
    {
        self.done.as_slice()
    }

    /// The last one.
    pub(crate) fn pending(&self) -> Option<Bar>
        ensures { result ≡ self.now.pending }
    {
        self.pending
    }
}
