//! A record whose payload lies elsewhere.

ghost use Rattle.std.specs.Prelude.{◌≡◌, ◌<◌, ◌^◌, length};
ghost use Rattle.tr_record.specs.Records.{Fits, entry};
ghost use Rattle.tr_record.specs.Weight.{record_weight};

use std::marker::Model;
use tr_terms::Moment;
use tr_terms::limits::RECORD_HEADER;

/// A record that borrows its payload, of fewer than 2^32 bytes. Contracts see it as an `Entry`.
#[derive(Drop, Debug)]
pub struct RecView<'a> {
    serial: u64,
    moment: Moment,
    id: u32,
    payload: &'a [u8],
}

impl<'a> Model for RecView<'a> {
    ghost use Rattle.tr_record.specs.Records.{Entry, Fits, entry};

    ghost Value = { Entry };

    ghost view = { λ r. entry r.serial r.moment r.id r.payload.now };

    ghost invariant = { λ r. Fits (entry r.serial r.moment r.id r.payload.now) };
}

impl<'a> RecView<'a> {
    /// A record with this payload, of fewer than 2^32 bytes.
    pub fn new(serial: u64, moment: Moment, id: u32, payload: &'a [u8]) -> RecView<'a>
        requires { length payload.now < 2 ^ 32 }
        ensures value { result ≡ entry serial moment id payload.entry.now }
        ensures fits { Fits result }
    {
        // The moment is within its limit.
        let _ = moment.get();
        RecView {
            serial,
            moment,
            id,
            payload,
        }
    }

    /// How many offers its stream accepted before this one.
    pub fn serial(&self) -> u64
        ensures value { result ≡ self.now.serial }
        ensures fits { Fits self.now }
    {
        self.serial
    }

    /// The moment with which its stream stored it: the later of the offered one and the stream's last.
    pub fn moment(&self) -> Moment
        ensures value { result ≡ self.now.moment }
        ensures fits { Fits self.now }
    {
        self.moment
    }

    /// The kind of event that it records.
    pub fn id(&self) -> u32
        ensures value { result ≡ self.now.id }
        ensures fits { Fits self.now }
    {
        self.id
    }

    /// The bytes of its payload.
    pub fn payload(&self) -> &'a [u8]
        ensures value { result.now ≡ self.now.payload }
        ensures fits { Fits self.now }
    {
        self.payload
    }

    /// The bytes of its text: 24, and the payload's.
    pub fn size(&self) -> usize
        ensures value { result ≡ record_weight self.now }
        ensures fits { Fits self.now }
    {
        RECORD_HEADER + self.payload.len()
    }
}
