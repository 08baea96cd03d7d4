//! How fields are laid out.

/// The greatest id of an event.
pub const MOST_ID: u32 = 4_294_967_295;

/// The most events that a session declares.
pub const MOST_EVENTS: usize = 1_024;

/// The most fields of an event.
pub const MOST_FIELDS: usize = 32;

/// The most numbers of an array.
pub const MOST_COUNT: u32 = 4_294_967_295;

/// The bytes of the largest payload: those of the largest packet, without the headers of the packet and of a record.
pub const MOST_PAYLOAD: u64 = 1_048_472;

/// The bytes of the longest text of declarations.
pub const LONGEST_DECLARATIONS: usize = 524_288;

/// How the bytes of a number are understood.
#[derive(Clone, Copy, Debug)]
pub enum Sort {
    /// `u8` to `u64`.
    Unsigned,
    /// `i8` to `i64`: two's complement.
    Signed,
    /// `x8` to `x64`: unsigned, shown in hexadecimal.
    Hexadecimal,
    /// `f32` and `f64`: IEEE 754.
    Floating,
    /// `flag`: 0 is no, 1 is yes.
    Flag,
}

/// How many bits a number has.
#[derive(Clone, Copy, Debug)]
pub enum Size {
    Bits8,
    Bits16,
    Bits32,
    Bits64,
}

/// A number's type.
#[derive(Clone, Copy, Debug)]
pub struct Number {
    pub sort: Sort,
    pub size: Size,
}

/// How readers show all of a payload.
#[derive(Clone, Copy, Debug)]
pub enum Form {
    /// `text`: UTF-8.
    AsText,
    /// `bytes`: numbers in hexadecimal.
    AsBytes,
}

/// How a field is laid out.
#[derive(Clone, Copy, Debug)]
pub enum Layout {
    /// A number.
    One(Number),
    /// `T[4]`: as many numbers as stated.
    Array(Number, u32),
    /// `T[]`: as many numbers as a `u32` before them says.
    Sequence(Number),
    /// `str`: bytes up to a zero byte.
    Text,
    /// All of the payload.
    All(Form),
}
