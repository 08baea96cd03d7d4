//! The bytes of an offer that is to be made.

ghost use Rattle.std.specs.Prelude.{◌≡◌, IfOk};

use std::alloc::{AllocError, Allocator, Global};
use std::marker::Model;

/// Bytes of the caller's choice. Contracts see their list.
#[derive(Drop)]
pub struct Payload<A: Allocator = Global> {
    bytes: Vec<u8, A>,
}

impl<A: Allocator> Model for Payload<A> {
    ghost use Rattle.std.specs.Prelude.{ℕ, List};

    ghost Value = { List ℕ };

    ghost view = { λ p. p.bytes.items };
}

impl<A: Allocator> Payload<A> {
    /// A payload that keeps these bytes. It takes no memory.
    pub fn new(bytes: Vec<u8, A>) -> Payload<A>
        ensures { result ≡ bytes.items }
    {
        Payload { bytes }
    }

    /// A payload with a copy of these bytes. Fails if an allocation fails.
    pub fn copy_of(alloc: A, bytes: &[u8]) -> Result<Payload<A>, AllocError>
        ensures { IfOk result (λ p. p ≡ bytes.now) }
    {
        Ok(Payload {
            bytes: Vec::from_slice(alloc, bytes)?,
        })
    }

    /// The payload's bytes.
    pub fn as_slice(&self) -> &[u8]
        ensures { result.now ≡ self.now }
    {
        self.bytes.as_slice()
    }

    /// The payload's bytes, moved out.
    pub fn into_bytes(self) -> Vec<u8, A>
        ensures { result.items ≡ self }
    {
        self.bytes
    }
}
