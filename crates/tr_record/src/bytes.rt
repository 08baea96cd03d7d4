//! Sources and sinks of bytes, for code that must not know whether they are files.

ghost use Rattle.std.specs.Prelude.{◌≡◌, ◌+◌, ◌<◌, ◌≤◌, ℕ, List, Option, Ok, IfOk, OnOk, OnErr, take, length};
ghost use Rattle.tr_record.specs.Bytes.{and_then_bytes, once_more};

/// A source or a sink failed.
#[derive(Clone, Copy, Debug, PartialEq, Eq)]
pub struct Failed;

/// Gives bytes, in pieces of its own choice.
pub trait ByteSource {
    /// The bytes that it gave so far, if the type says.
    ghost given: { Self → Option (List ℕ) };
    /// All its bytes, with those to come, if the type says.
    ghost content: { Self → Option (List ℕ) };
    /// How often it failed, modulo 2^64.
    ghost failures: { Self → ℕ };

    /// Puts its next bytes at the front of `b` and returns how many. 0 is the end. A failure gives no bytes.
    fn get(&mut self, b: &mut [u8]) -> Result<usize, Failed>
        requires { 0 < length b.old }
        ensures count { IfOk result (λ n. n ≤ length b.new) }
        ensures given { IfOk result (λ n. given self.new ≡ and_then_bytes (given self.old) (take n b.new)) }
        ensures content { content self.new ≡ content self.old }
        ensures end { result ≡ Ok 0 → given self.new ≡ content self.new }
        ensures ok { OnOk result (failures self.new ≡ failures self.old) }
        ensures err { OnErr result (given self.new ≡ given self.old) }
        ensures failed { OnErr result (failures self.new ≡ once_more (failures self.old)) };
}

/// Takes bytes, as many at a time as it chooses.
pub trait ByteSink {
    /// The bytes that it took so far, if the type says.
    ghost taken: { Self → Option (List ℕ) };
    /// How often it failed, modulo 2^64.
    ghost failures: { Self → ℕ };

    /// Takes bytes from the front of `b`, at least one, and returns how many. A failure takes none.
    fn put(&mut self, b: &[u8]) -> Result<usize, Failed>
        requires { 0 < length b.now }
        ensures some { IfOk result (λ n. 0 < n) }
        ensures count { IfOk result (λ n. n ≤ length b.now) }
        ensures taken { IfOk result (λ n. taken self.new ≡ and_then_bytes (taken self.old) (take n b.now)) }
        ensures ok { OnOk result (failures self.new ≡ failures self.old) }
        ensures err { OnErr result (taken self.new ≡ taken self.old) }
        ensures failed { OnErr result (failures self.new ≡ once_more (failures self.old)) };
}

/// Puts all the bytes, however few the sink takes at a time. After a failure, a prefix of them went out.
pub fn put_all<K: ByteSink>(sink: &mut K, b: &[u8]) -> Result<(), Failed>
    ensures ok { OnOk result (K.taken sink.new ≡ and_then_bytes (K.taken sink.old) b.now) }
    ensures no_failure { OnOk result (K.failures sink.new ≡ K.failures sink.old) }
    ensures err { OnErr result
        ((k : ℕ) × (k ≤ length b.now) × (K.taken sink.new ≡ and_then_bytes (K.taken sink.old) (take k b.now))) }
    ensures failed { OnErr result (K.failures sink.new ≡ once_more (K.failures sink.old)) }
{
    let mut at = 0;
    while at < b.len() {
        at += sink.put(&b[at..])?;
    }
    Ok(())
}
