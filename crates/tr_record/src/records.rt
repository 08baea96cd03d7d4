//! The records in bytes that are whole records, one at a time.

ghost use Rattle.std.specs.Prelude.{◌≡◌, ◌↔◌, IsTrue, IsSome, IfSome};
ghost use Rattle.std.specs.Iterator.{YieldsFirst, item_count};
ghost use Rattle.tr_record.specs.Records.{has_serial, records_text};
ghost use Rattle.tr_record.specs.Whole.{AreWhole, entries_of};

use crate::reading::{read_raw, read_rec};
use crate::view::RecView;
use std::marker::Model;
use tr_terms::Moment;

/// The records whose texts lie end to end in bytes, read one at a time. Contracts see the list of those that are left.
#[derive(Drop, Debug)]
pub struct Records<'a> {
    rest: &'a [u8],
}

impl<'a> Model for Records<'a> {
    ghost use Rattle.std.specs.Prelude.{List};
    ghost use Rattle.tr_record.specs.Records.{Entry};
    ghost use Rattle.tr_record.specs.Whole.{AreWhole, entries_of};

    ghost Value = { List Entry };

    ghost view = { λ r. entries_of r.rest.now };

    ghost invariant = { λ r. AreWhole r.rest.now };
}

impl<'a> Records<'a> {
    /// The records in bytes that are whole records.
    pub fn new(bytes: &'a [u8]) -> Records<'a>
        requires { AreWhole bytes.now }
        ensures { result ≡ entries_of bytes.entry.now }
    {
        Records { rest: bytes }
    }

    /// The records in bytes. None unless the bytes are whole records, each with a moment within the limit.
    pub fn checked(bytes: &'a [u8]) -> Option<Records<'a>>
        ensures exact { IsSome result ↔ AreWhole bytes.entry.now }
        ensures value { IfSome result (λ r. r ≡ entries_of bytes.entry.now) }
    {
        if !are_whole(bytes) {
            return None;
        }
        Some(Records::new(bytes))
    }

    /// The texts of the records that are left, end to end.
    pub fn text(&self) -> &'a [u8]
        ensures text { result.now ≡ records_text self.now }
        ensures whole { AreWhole result.now }
        ensures records { entries_of result.now ≡ self.now }
    {
        self.rest
    }

    /// Whether one of the records that are left has this serial.
    pub fn has(&self, serial: u64) -> bool
        ensures { result ≡ has_serial serial self.now }
    {
        for r in Records::new(self.rest) {
            if r.serial() == serial {
                return true;
            }
        }
        false
    }
}

/// Whether the bytes are whole records, each with a moment within the limit.
fn are_whole(bytes: &[u8]) -> bool
    ensures { IsTrue result ↔ AreWhole bytes.now }
{
    let mut rest = bytes;
    while !rest.is_empty() {
        let Some((_, size)) = read_rec(rest) else {
            return false;
        };
        let (_, after) = rest.split_at(size);
        rest = after;
    }
    true
}

impl<'a> Iterator for Records<'a> {
    type Item = RecView<'a>;

    ghost next_gives = { YieldsFirst (λ left. left) };

    ghost remaining = { item_count (λ left. left) };

    fn next(&mut self) -> Option<RecView<'a>> {
        let Some((raw, rest)) = read_raw(self.rest) else {
            return None;
        };
        self.rest = rest;
        let moment = Moment::within_limit(raw.moment);
        Some(RecView::new(raw.serial, moment, raw.id, raw.payload))
    }
}
