//! The handle of an audit.

ghost use Rattle.std.specs.Prelude.{◌≡◌, Some, None, MatchOption, Option};
ghost use Rattle.std.specs.Coded.{coded_option};
ghost use Rattle.std.specs.contracts.impls.GlobalAllocator.TheImpl.{ghosts};
ghost use Rattle.tr_held.specs.Holding.{holds};
ghost use Rattle.tr_held.specs.Kept.{audit_row};

use crate::held::Held;
use std::alloc::Global;
use std::marker::Model;
use std::mem::replace;
use tr_chunk::AuditReader;

/// An audit that C holds, or nothing. All zeros are a handle of nothing.
#[repr(C)]
pub struct AuditCell {
    at: *mut u8,
    live: bool,
    alloc: Global,
    pub ghost value: { Option audit_row.Denot } by { coded_option audit_row.coded },
}

impl Model for AuditCell {
    ghost also_owns = { λ h. holds audit_row (ghosts.dealloc_token h.alloc) h.at h.live h.value };
}

unsafe impl Send for AuditCell {}

impl Drop for AuditCell {
    fn drop(self) {
        if let Ok(kept) = self.into_held().into_box() {
            drop(kept);
        }
    }
}

impl AuditCell {
    /// What C holds of this.
    fn from_held(held: Held<AuditReader<Global>, Global>) -> AuditCell
        ensures { result.value ≡ held.value }
    {
        let Held { at, live, alloc } = held;
        AuditCell {
            at: at as *mut u8,
            live,
            alloc,
        }
    }

    /// What C held.
    fn into_held(self) -> Held<AuditReader<Global>, Global>
        ensures { result.value ≡ self.value }
    {
        let AuditCell { at, live, alloc } = self;
        Held {
            at: at as *mut AuditReader<Global>,
            live,
            alloc,
        }
    }

    /// A handle of nothing.
    pub fn closed(alloc: Global) -> AuditCell
        ensures { result.value ≡ None }
    {
        AuditCell::from_held(Held::nothing(alloc))
    }

    /// What the handle had, which has nothing now.
    pub fn take(&mut self, alloc: Global) -> Option<Box<AuditReader<Global>>>
        ensures value { MatchOption result (self.old.value ≡ None) (λ kept. self.old.value ≡ Some kept.value) }
        ensures closed { self.new.value ≡ None }
    {
        let whole = replace(self, AuditCell::closed(alloc));
        match whole.into_held().into_box() {
            Ok(kept) => Some(kept),
            Err(_) => None,
        }
    }

    /// Gives the handle an audit. What it had is gone.
    pub fn put(&mut self, kept: Box<AuditReader<Global>>)
        ensures { self.new.value ≡ Some kept.value }
    {
        *self = AuditCell::from_held(Held::of(kept));
    }
}
