//! The fields of a record's text.

/// The fields that a record's text has. The moment may be above the limit.
#[derive(Clone, Copy, Debug)]
pub struct RawRec<'a> {
    pub serial: u64,
    pub moment: u64,
    pub id: u32,
    pub payload: &'a [u8],
}
