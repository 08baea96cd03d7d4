//! Which moments a picture shows, and in how many columns.

ghost use Rattle.std.specs.Prelude.{◌≡◌, ◌≤◌};
ghost use Rattle.tr_packet.specs.Packets.{packet_size};
ghost use Rattle.tr_picture.specs.Frame.{both, column_of, columns_for, frame_of, greater, last_moment, lesser, no_extent, pixel_of, rough, with_packet};

use tr_packet::PacketView;

/// The most marks that are drawn in columns as narrow as pixels.
const MOST_MARKS: u64 = 10000;

/// The columns of a row that are as narrow as pixels.
pub(crate) const MOST_COLUMNS: u64 = 800;

/// The columns of all rows together, if there are more marks.
const ALL_COLUMNS: u64 = 6000;

/// When the first of some packets begins, when the last one ends, and how many bytes the largest has.
#[derive(Clone, Copy, Debug, PartialEq, Eq)]
pub(crate) struct Extent {
    pub(crate) least: u64,
    pub(crate) greatest: u64,
    pub(crate) largest: u64,
}

/// What rows show: the moments from the least one on, as many as the span has, in so many columns; and how many bytes a full
/// packet has.
#[derive(Clone, Copy, Debug, PartialEq, Eq)]
pub(crate) struct Frame {
    pub(crate) least: u64,
    pub(crate) span: u64,
    pub(crate) columns: u64,
    pub(crate) largest: u64,
}

pub(crate) fn lesser(a: u64, b: u64) -> u64
    ensures { result ≡ lesser a b }
{
    if b < a { b } else { a }
}

pub(crate) fn greater(a: u64, b: u64) -> u64
    ensures { result ≡ greater a b }
{
    if a < b { b } else { a }
}

impl Extent {
    /// That of no packets.
    pub(crate) fn none() -> Extent
        ensures { result ≡ no_extent }
    {
        Extent {
            least: 18_446_744_073_709_551_615,
            greatest: 0,
            largest: 0,
        }
    }

    /// With one packet more, which has `size` bytes.
    pub(crate) fn with_packet(&self, packet: &PacketView<'_>, size: usize) -> Extent
        requires { size ≡ packet_size packet.now }
        ensures { result ≡ with_packet self.now packet.now }
    {
        let head = packet.head();
        Extent {
            least: lesser(self.least, head.begin.get()),
            greatest: greater(self.greatest, head.end.get()),
            largest: greater(self.largest, size as u64),
        }
    }

    /// That of these packets and those.
    pub(crate) fn both(&self, other: &Extent) -> Extent
        ensures { result ≡ both self.now other.now }
    {
        Extent {
            least: lesser(self.least, other.least),
            greatest: greater(self.greatest, other.greatest),
            largest: greater(self.largest, other.largest),
        }
    }
}

/// How many columns each of so many rows has, if there are so many marks.
fn columns_for(marks: u64, rows: u64) -> u64
    ensures { result ≡ columns_for marks rows }
{
    if marks <= MOST_MARKS {
        return MOST_COLUMNS;
    }
    let rows = greater(1, rows);
    lesser(MOST_COLUMNS, greater(1, ALL_COLUMNS / rows))
}

impl Frame {
    /// One column, for all moments.
    pub(crate) fn rough() -> Frame
        ensures { result ≡ rough }
    {
        Frame {
            least: 0,
            span: 1,
            columns: 0,
            largest: 0,
        }
    }

    /// The frame of packets of this extent in so many rows, and of so many marks.
    pub(crate) fn of(extent: &Extent, marks: u64, rows: u64) -> Frame
        ensures { result ≡ frame_of extent.now marks rows }
    {
        Frame {
            least: extent.least,
            span: extent
                .greatest
                .saturating_sub(extent.least)
                .saturating_add(1),
            columns: columns_for(marks, rows),
            largest: extent.largest,
        }
    }

    /// The column of a moment.
    pub(crate) fn column_of(&self, moment: u64) -> u64
        ensures { result ≡ column_of self.now moment }
    {
        let after = moment.saturating_sub(self.least) as u128;
        let column = after * self.columns as u128 / greater(1, self.span) as u128;
        if column < self.columns as u128 {
            column as u64
        } else {
            self.columns
        }
    }

    /// How many pixels a column is from the left.
    pub(crate) fn pixel_of(&self, column: u64) -> u64
        ensures is { result ≡ pixel_of self.now column }
        ensures most { result ≤ 800 }
    {
        let columns = greater(1, self.columns);
        lesser(MOST_COLUMNS, column.saturating_mul(MOST_COLUMNS) / columns)
    }

    /// The last moment of the span.
    pub(crate) fn last_moment(&self) -> u64
        ensures { result ≡ last_moment self.now }
    {
        self.least.saturating_add(self.span).saturating_sub(1)
    }
}
