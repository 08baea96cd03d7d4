//! Numbers as a script writes them.

ghost use Rattle.std.specs.Prelude.{◌≡◌, ◌≤◌, IfSome};
ghost use Rattle.tr_command.specs.Number.{begins_with_plus, number_of};

/// Whether the text begins with a plus.
fn begins_with_plus(text: &str) -> bool
    ensures { result ≡ begins_with_plus text.now }
{
    match text.as_bytes() {
        [first, ..] => *first == b'+',
        [] => false,
    }
}

/// The number that the text writes in one or more digits `0` to `9` alone, if it is at most `most`.
/// Leading zeros are fine, a sign is not.
pub fn number(text: &str, most: u64) -> Option<u64>
    ensures value { result ≡ number_of most text.now }
    ensures within { IfSome result (λ n. n ≤ most) }
{
    // std reads one plus before the digits, and no other sign
    if begins_with_plus(text) {
        return None;
    }
    match text.parse::<u64>() {
        Ok(n) if n <= most => Some(n),
        _ => None,
    }
}

/// The same for a number that fits 32 bits.
pub fn number_u32(text: &str, most: u32) -> Option<u32>
    ensures { result ≡ number_of most text.now }
{
    let n = number(text, u64::from(most))?;
    u32::try_from(n).ok()
}
