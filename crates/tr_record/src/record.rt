//! A record with its payload.

ghost use Rattle.std.specs.Prelude.{◌≡◌, ◌<◌, ◌^◌, IfOk, length, vec_len};
ghost use Rattle.tr_record.specs.Records.{Fits, entry};
ghost use Rattle.tr_record.specs.Weight.{record_weight};

use crate::view::RecView;
use std::alloc::{AllocError, Allocator, Global};
use std::marker::Model;
use tr_terms::Moment;
use tr_terms::limits::RECORD_HEADER;

/// An accepted offer: its serial, moment, id and payload, of fewer than 2^32 bytes. Contracts see it as an `Entry`.
#[derive(Drop, Debug)]
pub struct Rec<A: Allocator = Global> {
    serial: u64,
    moment: Moment,
    id: u32,
    payload: Vec<u8, A>,
}

impl<A: Allocator> Model for Rec<A> {
    ghost use Rattle.tr_record.specs.Records.{Entry, Fits, entry};

    ghost Value = { Entry };

    ghost view = { λ r. entry r.serial r.moment r.id r.payload.items };

    ghost invariant = { λ r. Fits (entry r.serial r.moment r.id r.payload.items) };
}

impl<A: Allocator> Rec<A> {
    /// A record that keeps this payload, of fewer than 2^32 bytes. It takes no memory.
    pub fn new(serial: u64, moment: Moment, id: u32, payload: Vec<u8, A>) -> Rec<A>
        requires { vec_len payload < 2 ^ 32 }
        ensures value { result ≡ entry serial moment id payload.items }
        ensures fits { Fits result }
    {
        // The moment is within its limit.
        let _ = moment.get();
        Rec {
            serial,
            moment,
            id,
            payload,
        }
    }

    /// A record with a copy of this payload, of fewer than 2^32 bytes. Fails if an allocation fails.
    pub fn copy_of(
        alloc: A,
        serial: u64,
        moment: Moment,
        id: u32,
        payload: &[u8],
    ) -> Result<Rec<A>, AllocError>
        requires { length payload.now < 2 ^ 32 }
        ensures value { IfOk result (λ r. r ≡ entry serial moment id payload.now) }
        ensures fits { IfOk result (λ r. Fits r) }
    {
        let payload = Vec::from_slice(alloc, payload)?;
        Ok(Rec::new(serial, moment, id, payload))
    }

    /// How many offers its stream accepted before this one.
    pub fn serial(&self) -> u64
        ensures value { result ≡ self.now.serial }
        ensures fits { Fits self.now }
    {
        self.serial
    }

    /// The moment with which its stream stored it: the later of the offered one and the stream's last.
    pub fn moment(&self) -> Moment
        ensures value { result ≡ self.now.moment }
        ensures fits { Fits self.now }
    {
        self.moment
    }

    /// The kind of event that it records.
    pub fn id(&self) -> u32
        ensures value { result ≡ self.now.id }
        ensures fits { Fits self.now }
    {
        self.id
    }

    /// The bytes of its payload.
    pub fn payload(&self) -> &[u8]
        ensures value { result.now ≡ self.now.payload }
        ensures fits { Fits self.now }
    {
        self.payload.as_slice()
    }

    /// The bytes of its text: 24, and the payload's.
    pub fn size(&self) -> usize
        ensures value { result ≡ record_weight self.now }
        ensures fits { Fits self.now }
    {
        RECORD_HEADER + self.payload.len()
    }

    /// The same record, with its payload borrowed.
    pub fn view(&self) -> RecView<'_>
        ensures value { result ≡ self.now }
        ensures fits { Fits self.now }
    {
        RecView::new(self.serial, self.moment, self.id, self.payload.as_slice())
    }

    /// Its payload, moved out.
    pub fn into_payload(self) -> Vec<u8, A>
        ensures { result.items ≡ self.payload }
    {
        self.payload
    }
}
