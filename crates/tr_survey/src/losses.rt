//! Between which records others were discarded, as missing serials tell.

ghost use Rattle.std.specs.Prelude.{◌≡◌};
ghost use Rattle.tr_survey.specs.Losses.{and_more, kept_in, no_taken, starts_from, taken_after, taken_with, unplaced};

use tr_packet::PacketView;
use tr_record::RecView;

/// A record that is there: the number of its archive, its moment, and its id.
#[derive(Clone, Copy, Debug, PartialEq, Eq)]
pub struct Kept {
    pub archive: u64,
    pub moment: u64,
    pub id: u32,
}

/// The serials that a stream's offers took: those below the next one; and the last record that is there.
#[derive(Clone, Copy, Debug, PartialEq, Eq)]
pub struct Taken {
    pub next: u64,
    pub last: Option<Kept>,
}

impl Taken {
    /// No serial.
    pub(crate) fn none() -> Taken
        ensures { result ≡ no_taken }
    {
        Taken {
            next: 0,
            last: None,
        }
    }

    /// So many more.
    pub(crate) fn and_more(&self, count: u64) -> Taken
        ensures { result ≡ and_more self.now count }
    {
        Taken {
            next: self.next.saturating_add(count),
            last: self.last,
        }
    }
}

/// The record, in an archive of this number.
pub(crate) fn kept_in(archive: u64, event: &RecView<'_>) -> Kept
    ensures { result ≡ kept_in archive event.now }
{
    Kept {
        archive,
        moment: event.moment().get(),
        id: event.id(),
    }
}

/// The serials up to this record's, which is in an archive of this number.
pub fn taken_with(archive: u64, event: &RecView<'_>) -> Taken
    ensures { result ≡ taken_with archive event.now }
{
    Taken {
        next: event.serial().saturating_add(1),
        last: Some(kept_in(archive, event)),
    }
}

/// The serials up to the last record's of a packet in an archive of this number, after these.
pub fn taken_after(archive: u64, before: Taken, packet: &PacketView<'_>) -> Taken
    ensures { result ≡ taken_after archive before packet.now.records }
{
    let mut taken = before;
    for event in packet.records() {
        taken = taken_with(archive, &event);
    }
    taken
}

/// Whether a packet's first serial isn't below the next one.
fn starts_from(next: u64, packet: &PacketView<'_>) -> bool
    ensures { result ≡ starts_from next packet.now.records }
{
    match packet.records().next() {
        None => true,
        Some(event) => next <= event.serial(),
    }
}

/// Of so many discarded records, how many took none of the serials from the next one on that are missing before and among a
/// packet's records. None if these don't fit.
pub fn unplaced(count: u64, next: u64, packet: &PacketView<'_>) -> Option<u64>
    ensures { result ≡ unplaced count next packet.now.records }
{
    if !starts_from(next, packet) {
        return None;
    }
    let mut left = count;
    let mut from = next;
    for event in packet.records() {
        let serial = event.serial();
        left = left.checked_sub(serial.saturating_sub(from))?;
        from = serial.saturating_add(1);
    }
    Some(left)
}
