//! The names of archives' folders and of streams' files.

ghost use Rattle.std.specs.Prelude.{◌≡◌, List, length};
ghost use Rattle.std.specs.List.{list_all, zip};
ghost use Rattle.std.specs.Option.{option_map};
ghost use Rattle.tr_survey.specs.Names.{archive_number, fits, form_of_stamps, of_parts, stream_named};

use tr_events::number_in;
use tr_terms::Name;

/// The bytes of an archive's name before its number.
const STAMPS: usize = 42;

/// The form of these bytes: 0 is any digit, and + a sign.
const FORM: &[u8; STAMPS] = b"00000000T000000+0000-00000000T000000+0000-";

/// A number and a name: those of an archive's folder, whose name ends with the number, or a stream's number and its channel's
/// name. They are in order of their numbers, and of their names where numbers are the same.
#[derive(PartialEq, Eq, PartialOrd, Ord, Debug, Drop)]
pub struct Numbered {
    pub number: u64,
    pub name: String,
}

/// Whether a byte of an archive's name fits the form.
fn fits(form: u8, byte: u8) -> bool
    ensures { result ≡ fits form byte }
{
    match form {
        b'0' => byte.is_ascii_digit(),
        b'+' => byte == b'+' || byte == b'-',
        _ => byte == form,
    }
}

/// Whether these bytes are those of two moments, as they are before an archive's number.
fn are_stamps(bytes: &[u8]) -> bool
    requires { length bytes.now ≡ STAMPS }
    ensures { result ≡ list_all (λ p. fits p.0 p.1) (zip form_of_stamps bytes.now) }
{
    FORM.iter()
        .zip(bytes)
        .all(|(form, byte)| fits(*form, *byte))
}

/// The number that ends the name of an archive's folder. None if the name is no archive's.
pub fn archive_number(name: &[u8]) -> Option<u64>
    ensures { result ≡ archive_number name.now }
{
    if name.len() < STAMPS {
        return None;
    }
    let (stamps, number) = name.split_at(STAMPS);
    if !are_stamps(stamps) {
        return None;
    }
    number_in(number)
}

/// The channel and the number that name a stream's file. None if the name is no such file's.
pub(crate) fn stream_parts(name: &str) -> Option<(&str, u64)>
    ensures { option_map (λ parts. of_parts parts.0.now parts.1) result ≡ stream_named name.entry.now }
{
    let Some((channel, digits)) = name.rsplit_once('_') else {
        return None;
    };
    if Name::new(channel).is_none() {
        return None;
    }
    match number_in(digits.as_bytes()) {
        None => None,
        Some(number) => Some((channel, number)),
    }
}
