//! Appending records to bytes, into room that is reserved.

ghost use Rattle.std.specs.Prelude.{◌≡◌, ◌+◌, ◌≤◌, ◌<◌, ◌^◌, ◌++◌, length, vec_len, vec_capacity};
ghost use Rattle.tr_record.specs.Records.{header_text, record_text, Fits};
ghost use Rattle.tr_record.specs.Weight.{record_weight};
ghost use Rattle.tr_terms.specs.declared.limits.TheConstants.{RECORD_HEADER};

use crate::view::RecView;
use std::alloc::Allocator;
use tr_terms::limits::RECORD_HEADER;

/// The bytes of the text of a record with a payload of this length.
pub fn rec_size(len: usize) -> usize
    requires { RECORD_HEADER + len < 2 ^ 64 }
    ensures { result ≡ RECORD_HEADER + len }
{
    RECORD_HEADER + len
}

/// Appends these bytes, into room that is reserved.
pub fn put_bytes<A: Allocator>(out: &mut Vec<u8, A>, bytes: &[u8])
    requires { vec_len out.old + length bytes.now ≤ vec_capacity out.old }
    ensures items { out.new.items ≡ out.old.items ++ bytes.now }
    ensures len { vec_len out.new ≡ vec_len out.old + length bytes.now }
    ensures capacity { vec_capacity out.old ≤ vec_capacity out.new }
{
    // Callers prove this. A branch that ends here lets the compiler leave out what the vector does to grow; that of an `if` it drops.
    let Some(_) = (out.capacity() - out.len()).checked_sub(bytes.len()) else {
        unreachable!()
    };
    let _ = out.extend_from_slice(bytes);
}

/// The text of a record before its payload.
#[inline(always)]
fn header_of(r: &RecView<'_>) -> [u8; RECORD_HEADER]
    ensures { result ≡ header_text r.now }
{
    let id = r.id().to_le_bytes();
    let moment = r.moment().get().to_le_bytes();
    let serial = r.serial().to_le_bytes();
    let len = (r.payload().len() as u32).to_le_bytes();
    [
        id[0], id[1], id[2], id[3], moment[0], moment[1], moment[2], moment[3], moment[4],
        moment[5], moment[6], moment[7], serial[0], serial[1], serial[2], serial[3], serial[4],
        serial[5], serial[6], serial[7], len[0], len[1], len[2], len[3],
    ]
}

/// Appends a record's text, into room that is reserved. It takes no memory and can't fail.
pub fn put_rec<A: Allocator>(out: &mut Vec<u8, A>, r: &RecView<'_>)
    requires { vec_len out.old + record_weight r.now ≤ vec_capacity out.old }
    ensures items { out.new.items ≡ out.old.items ++ record_text r.now }
    ensures len { vec_len out.new ≡ vec_len out.old + record_weight r.now }
    ensures capacity { vec_capacity out.old ≤ vec_capacity out.new }
    ensures fits { Fits r.now }
{
    put_bytes(out, &header_of(r));
    put_bytes(out, r.payload());
}
