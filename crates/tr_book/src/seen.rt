//! What contracts alone see.

ghost use Rattle.std.specs.Prelude.{◌≡◌};
ghost use base.Fml.{ftrue};

use std::marker::{Model, PhantomData, Send, Sync};

/// What contracts see of a value. It has no bytes, so it may pass between threads, and they may share it, whatever it shows.
pub(crate) struct Seen<T> {
    marker: PhantomData<T>,
    pub(crate) ghost of: { T },
}

impl<T> Model for Seen<T> {
    ghost also_owns = { λ _. ftrue };
}

unsafe impl<T> Send for Seen<T> {}

unsafe impl<T> Sync for Seen<T> {}

impl<T> Seen<T> {
    /// What is seen of a value now.
    pub(crate) fn new(of: &T) -> Seen<T>
        ensures { result.of ≡ of.now }
    {
        let _ = of;
        Seen {
            marker: PhantomData,
        }
    }
}

impl<T> Drop for Seen<T> {
    fn drop(self) {
        let Self { marker: _ } = self;
    }
}
