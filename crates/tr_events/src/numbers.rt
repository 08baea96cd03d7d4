//! Numbers as the product writes them.

ghost use Rattle.std.specs.Prelude.{◌≡◌, ℤ};
ghost use Rattle.std.specs.List.{list_all};
ghost use Rattle.tr_events.specs.Numbers.{below_zero, has_spare_zero, integer_from, integer_of, is_digit, number_of};

/// Whether the bytes are digits alone.
fn are_digits(bytes: &[u8]) -> bool
    ensures { result ≡ list_all is_digit bytes.now }
{
    bytes.iter().all(|b| b.is_ascii_digit())
}

/// Whether a digit follows a zero at the front.
fn has_zero_in_front(bytes: &[u8]) -> bool
    ensures { result ≡ has_spare_zero bytes.now }
{
    matches!(bytes, [b'0', _, ..])
}

/// The number that a text writes in digits, without a zero in front, if it fits 64 bits.
pub fn number_in(bytes: &[u8]) -> Option<u64>
    ensures { result ≡ number_of bytes.now }
{
    if !are_digits(bytes) || has_zero_in_front(bytes) {
        return None;
    }
    let Ok(text) = str::from_utf8(bytes) else {
        return None;
    };
    match text.parse::<u64>() {
        Ok(number) => Some(number),
        Err(_) => None,
    }
}

/// The number itself, if it is below 2^63.
fn integer_from(number: u64) -> Option<i64>
    ensures { result ≡ integer_from number }
{
    if number < 1 << 63 {
        Some(number as i64)
    } else {
        None
    }
}

/// The number less than zero by this much, if that isn't nothing, and at most 2^63.
fn below_zero(number: u64) -> Option<i64>
    ensures { result ≡ below_zero number }
{
    if number == 0 || number > 1 << 63 {
        return None;
    }
    Some(-1 - (number - 1) as i64)
}

/// The number that a text writes in digits, after a minus if it is below zero, if it fits 64 bits with a sign.
pub fn integer_in(bytes: &[u8]) -> Option<i64>
    ensures { result ≡ integer_of bytes.now }
{
    match bytes {
        [] => None,
        [b'-', digits @ ..] => below_zero(number_in(digits)?),
        _ => integer_from(number_in(bytes)?),
    }
}
