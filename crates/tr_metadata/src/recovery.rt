//! The declarations that come out of a metadata text again.

ghost use Rattle.std.specs.Prelude.{◌≡◌, IfOk, length, map, not, option_map};
ghost use Rattle.std.specs.List.{take_while};
ghost use Rattle.tr_metadata.specs.Recovery.{behind_front, declared_before_end, declared_in, is_end, is_text_of};

use crate::metadata::{PREFACE, metadata_text};
use std::alloc::{AllocError, Global};
use tr_events::{Events, lines_of};
use uuid::Uuid;

/// What begins the comment that has the declarations.
pub(crate) const COMMENT: &str = "/* tracerd events\n";

/// The line that ends them.
const END: &[u8] = b"*/";

/// How many lines are before the one that ends the declarations.
fn lines_before_end(lines: &[&[u8]]) -> usize
    ensures { result ≡ length (take_while (λ line. not (is_end line)) (map (λ l. l.now) lines.now)) }
{
    let mut count = 0;
    for line in lines {
        if *line == END {
            break;
        }
        count += 1;
    }
    count
}

/// What lines declare before the one that ends them.
fn declared_before_end(alloc: Global, lines: &[&[u8]]) -> Result<Option<Events>, AllocError>
    ensures { IfOk result (λ events. events ≡ declared_before_end (map (λ l. l.now) lines.now)) }
{
    let (lines, _) = lines.split_at(lines_before_end(lines));
    Ok(Events::of_lines(alloc, lines)?.ok())
}

/// What is behind this front of a text.
fn behind_front<'a>(front: &str, text: &'a [u8]) -> Option<&'a [u8]>
    ensures { option_map (λ rest. rest.now) result ≡ behind_front front.now text.entry.now }
{
    text.strip_prefix(front.as_bytes())
}

/// What a metadata text declares. None if it isn't laid out as such a text, or a line of its declarations is refused.
#[tactic(auto, unfolding(crate::specs::Recovery::declared_in))]
pub fn declared_in(alloc: Global, text: &[u8]) -> Result<Option<Events>, AllocError>
    ensures { IfOk result (λ events. events ≡ declared_in text.now) }
{
    let Some(rest) = behind_front(PREFACE, text) else {
        return Ok(None);
    };
    let Some(comment) = behind_front(COMMENT, rest) else {
        return Ok(Some(Events::none(alloc)));
    };
    let lines = lines_of(alloc, comment)?;
    declared_before_end(alloc, &lines)
}

/// Whether a text is the metadata of this identifier and of what it declares itself.
pub fn is_text_of(alloc: Global, uuid: &Uuid, text: &[u8]) -> Result<bool, AllocError>
    ensures { IfOk result (λ is. is ≡ is_text_of uuid.now text.now) }
{
    let Some(events) = declared_in(alloc, text)? else {
        return Ok(false);
    };
    let own = metadata_text(alloc, &events, uuid)?;
    Ok(text == own.as_bytes())
}
