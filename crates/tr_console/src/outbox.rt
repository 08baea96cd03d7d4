//! Answers that are gathered, and go out together.

ghost use Rattle.std.specs.Prelude.{◌≡◌, ◌≤◌, ◌+◌, ◌++◌, [], IfOk, OnOk, OnErr, length, nat_eq};
ghost use Rattle.tr_console.specs.Gathering.{Gathers, WentInPart};
ghost use Rattle.tr_record.specs.Bytes.{and_then_bytes, once_more};
ghost use Rattle.tr_terms.specs.declared.limits.TheConstants.{LONGEST_PIECE};

use std::alloc::{AllocError, Allocator, Global};
use std::marker::Model;
use tr_record::{ByteSink, Failed, put_all};
use tr_terms::limits::LONGEST_PIECE;

/// Answers that are to go out together, at most `LONGEST_PIECE` bytes of them. It takes all its memory when it is made.
/// Contracts see the bytes.
#[derive(Drop)]
pub(crate) struct Outbox<A: Allocator = Global> {
    room: Vec<u8, A>,
    filled: usize,
}

impl<A: Allocator> Model for Outbox<A> {
    ghost use Rattle.std.specs.Prelude.{◌≡◌, ◌≤◌, take, vec_len};
    ghost use Rattle.tr_replies.specs.Text.{Text};
    ghost use Rattle.tr_terms.specs.declared.limits.TheConstants.{LONGEST_PIECE};

    ghost Value = { Text };

    ghost view = { λ o. take o.filled o.room.items };

    ghost invariant = { λ o. (o.filled ≤ vec_len o.room) × (vec_len o.room ≡ LONGEST_PIECE) };
}

impl<A: Allocator> Outbox<A> {
    /// Whether nothing is gathered.
    pub(crate) fn is_empty(&self) -> bool
        ensures { result ≡ nat_eq (length self.now) 0 }
    {
        self.filled == 0
    }

    /// Puts out all that is gathered. After a failure a prefix of it went out, and the rest is lost.
    pub(crate) fn put_out<K: ByteSink>(&mut self, sink: &mut K) -> Result<(), Failed>
        ensures ok { OnOk result (K.taken sink.new ≡ and_then_bytes (K.taken sink.old) self.old) }
        ensures err { OnErr result (WentInPart (K.taken sink.old) (K.taken sink.new) self.old) }
        ensures empty { self.new ≡ [] }
        ensures no_failure { OnOk result (K.failures sink.new ≡ K.failures sink.old) }
        ensures failed { OnErr result (K.failures sink.new ≡ once_more (K.failures sink.old)) }
    {
        let gathered = &self.room[..self.filled];
        let answer = put_all(sink, gathered);
        self.filled = 0;
        answer
    }

    /// Gathers bytes that there is room for.
    fn keep(&mut self, more: &[u8])
        requires { length self.old + length more.now ≤ LONGEST_PIECE }
        ensures { self.new ≡ self.old ++ more.now }
    {
        let end = self.filled + more.len();
        self.room[self.filled..end].copy_from_slice(more);
        self.filled = end;
    }

    /// Gathers more bytes. If there is no room for them, what is gathered goes out before; if there never is, so do they. After
    /// a failure a prefix of all that went out, and the rest is lost.
    pub(crate) fn gather<K: ByteSink>(&mut self, sink: &mut K, more: &[u8]) -> Result<(), Failed>
        ensures ok { OnOk result (Gathers (K.taken sink.old) (K.taken sink.new) self.old more.now self.new) }
        ensures err { OnErr result (WentInPart (K.taken sink.old) (K.taken sink.new) (self.old ++ more.now)) }
        ensures empty { OnErr result (self.new ≡ []) }
        ensures no_failure { OnOk result (K.failures sink.new ≡ K.failures sink.old) }
        ensures failed { OnErr result (K.failures sink.new ≡ once_more (K.failures sink.old)) }
    {
        if more.len() <= self.room.len() - self.filled {
            self.keep(more);
            return Ok(());
        }
        self.put_out(sink)?;
        if more.len() > self.room.len() {
            return put_all(sink, more);
        }
        self.keep(more);
        Ok(())
    }
}

impl<A: Allocator + Copy> Outbox<A> {
    /// One in which nothing is gathered. Fails if an allocation fails.
    pub(crate) fn new(alloc: A) -> Result<Self, AllocError>
        ensures { IfOk result (λ o. o ≡ []) }
    {
        Ok(Outbox {
            room: vec![in alloc; 0; LONGEST_PIECE]?,
            filled: 0,
        })
    }
}
