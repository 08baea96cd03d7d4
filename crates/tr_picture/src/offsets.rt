//! How far the clock of a session is from UTC.

ghost use Rattle.std.specs.Prelude.{◌≡◌, ◌<◌, ◌≤◌, length, map, pos};
ghost use Rattle.tr_picture.specs.Offsets.{ahead, digit_at, minutes_in, offset_in, offset_of};
ghost use Rattle.tr_survey.specs.Listing.{key_of};
ghost use Rattle.tr_terms.specs.declared.limits.TheConstants.{MOST_MINUTES};

use tr_survey::Numbered;
use tr_terms::OffsetMinutes;
use tr_terms::limits::MOST_MINUTES;

/// The bytes of a stamp: it ends with a sign, hours and minutes.
const STAMP: usize = 20;

/// The digit at a place.
fn digit_at(name: &[u8], i: usize) -> u32
    requires { i < length name.now }
    ensures is { result ≡ digit_at name.now i }
    ensures few { result < 256 }
{
    u32::from(name[i].saturating_sub(b'0'))
}

/// The hours and minutes that end the first stamp, as minutes.
fn minutes_in(name: &[u8]) -> u32
    requires { 20 ≤ length name.now }
    ensures { result ≡ minutes_in name.now }
{
    600 * digit_at(name, 16)
        + 60 * digit_at(name, 17)
        + 10 * digit_at(name, 18)
        + digit_at(name, 19)
}

/// So many minutes ahead of UTC, or behind it.
fn ahead(is_behind: bool, minutes: u32) -> OffsetMinutes
    requires { minutes ≤ MOST_MINUTES }
    ensures { result ≡ ahead is_behind minutes }
{
    let minutes = minutes as i32;
    let signed = if is_behind { -minutes } else { minutes };
    let Some(offset) = OffsetMinutes::new(signed) else {
        unreachable!()
    };
    offset
}

/// That of UTC.
pub(crate) fn utc() -> OffsetMinutes
    ensures { result ≡ pos 0 }
{
    ahead(false, 0)
}

/// That of an archive's name.
fn offset_in(name: &[u8]) -> OffsetMinutes
    ensures { result ≡ offset_in name.now }
{
    if name.len() < STAMP {
        return utc();
    }
    let minutes = minutes_in(name);
    if minutes > MOST_MINUTES {
        return utc();
    }
    ahead(name[15] == b'-', minutes)
}

/// That of a session with these archives.
pub(crate) fn offset_of(archives: &[Numbered]) -> OffsetMinutes
    ensures { result ≡ offset_of (map key_of archives.now) }
{
    match archives {
        [] => utc(),
        [first, ..] => offset_in(first.name.as_bytes()),
    }
}
