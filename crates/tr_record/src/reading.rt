//! Reading a record from the front of bytes.

ghost use Rattle.std.specs.Prelude.{◌≡◌, ℕ, List, Some, IfSome, IsSomeAnd};
ghost use Rattle.std.specs.Int.{w32, w64};
ghost use Rattle.tr_record.specs.Records.{Entry, Stands};
ghost use Rattle.tr_record.specs.Reading.{Gives, Begins, number_at, payload_at, entry_at};
ghost use Rattle.tr_record.specs.Raw.{entry_of};

use crate::raw::RawRec;
use crate::view::RecView;
use tr_terms::Moment;
use tr_terms::limits::RECORD_HEADER;

/// The number in the first four bytes, lowest byte first, and the bytes after it. None if there are fewer bytes.
pub fn u32_at(bytes: &[u8]) -> Option<(u32, &[u8])>
    ensures { Gives (λ x. (x.0, x.1.now)) result (number_at w32 bytes.now) }
{
    let (front, rest) = bytes.split_first_chunk::<4>()?;
    Some((u32::from_le_bytes(*front), rest))
}

/// The number in the first eight bytes, lowest byte first, and the bytes after it. None if there are fewer bytes.
pub fn u64_at(bytes: &[u8]) -> Option<(u64, &[u8])>
    ensures { Gives (λ x. (x.0, x.1.now)) result (number_at w64 bytes.now) }
{
    let (front, rest) = bytes.split_first_chunk::<8>()?;
    Some((u64::from_le_bytes(*front), rest))
}

#[tactic(auto, unfolding(crate::specs::Reading::payload_at))]
fn payload_of(bytes: &[u8]) -> Option<(&[u8], &[u8])>
    ensures { Gives (λ x. (x.0.now, x.1.now)) result (payload_at bytes.now) }
{
    let (len, rest) = u32_at(bytes)?;
    rest.split_at_checked(len as usize)
}

#[tactic(auto, unfolding(crate::specs::Reading::entry_at))]
fn fields_of(bytes: &[u8]) -> Option<(RawRec<'_>, &[u8])>
    ensures { Gives (λ x. (entry_of x.0, x.1.now)) result (entry_at bytes.now) }
{
    // One test for all of the fields, so that no field needs one of its own.
    if bytes.len() < RECORD_HEADER {
        return None;
    }
    let (id, rest) = u32_at(bytes)?;
    let (moment, rest) = u64_at(rest)?;
    let (serial, rest) = u64_at(rest)?;
    let (payload, rest) = payload_of(rest)?;
    let raw = RawRec {
        serial,
        moment,
        id,
        payload,
    };
    Some((raw, rest))
}

/// The record that the bytes start with, whatever its moment, and the bytes after it. None if there are fewer than 24
/// bytes, or the payload is cut.
pub fn read_raw(bytes: &[u8]) -> Option<(RawRec<'_>, &[u8])>
    ensures found { IfSome result (λ x. Begins (entry_of x.0) x.1.now bytes.now) }
    ensures only { (e : Entry) (rest : List ℕ) → Begins e rest bytes.now
        → IsSomeAnd result (λ x. (entry_of x.0 ≡ e) × (x.1.now ≡ rest)) }

    // What is read, field by field.
    ensures exact { Gives (λ x. (entry_of x.0, x.1.now)) result (entry_at bytes.now) }
{
    fields_of(bytes)
}

/// The record that the bytes start with, and how many bytes its text has. None if there are fewer than 24 bytes, the
/// payload is cut, or the moment is above the limit.
pub fn read_rec(bytes: &[u8]) -> Option<(RecView<'_>, usize)>
    ensures found { IfSome result (λ x. Stands x.0 x.1 bytes.now) }
    ensures only { (e : Entry) (n : ℕ) → Stands e n bytes.now → result ≡ Some (e, n) }
{
    let (raw, _) = read_raw(bytes)?;
    let moment = Moment::new(raw.moment)?;
    let size = RECORD_HEADER + raw.payload.len();
    Some((RecView::new(raw.serial, moment, raw.id, raw.payload), size))
}
