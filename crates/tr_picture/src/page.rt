//! What texts are put together of.

ghost use Rattle.std.specs.Prelude.{◌≡◌, ◌++◌, List, ℕ, OnOk, map};
ghost use Rattle.std.specs.List.{AllByRecursion};
ghost use Rattle.tr_picture.specs.Escape.{IsPart, escaped, escaped_byte};

use std::alloc::AllocError;

/// Adds a text.
pub(crate) fn push(page: &mut Vec<u8>, text: &str) -> Result<(), AllocError>
    ensures { OnOk result (page.new.items ≡ page.old.items ++ text.now) }
{
    page.extend_from_slice(text.as_bytes())
}

/// Adds a byte as XML has it.
fn push_escaped_byte(page: &mut Vec<u8>, byte: u8) -> Result<(), AllocError>
    ensures { OnOk result (page.new.items ≡ page.old.items ++ escaped_byte byte) }
{
    match byte {
        b'&' => push(page, "&amp;"),
        b'<' => push(page, "&lt;"),
        b'>' => push(page, "&gt;"),
        b'"' => push(page, "&quot;"),
        b'\'' => push(page, "&apos;"),
        _ => {
            let shown = if byte < 32 || byte > 126 { b'?' } else { byte };
            page.push(shown)?;
            Ok(())
        }
    }
}

/// Adds bytes as XML has them: nothing of them leaves their text.
pub(crate) fn push_escaped_bytes(page: &mut Vec<u8>, bytes: &[u8]) -> Result<(), AllocError>
    ensures { OnOk result (page.new.items ≡ page.old.items ++ escaped bytes.now) }
{
    for byte in bytes {
        push_escaped_byte(page, *byte)?;
    }
    Ok(())
}

/// Adds a name as XML has it.
pub(crate) fn push_escaped(page: &mut Vec<u8>, name: &str) -> Result<(), AllocError>
    ensures { OnOk result (page.new.items ≡ page.old.items ++ escaped name.now) }
{
    push_escaped_bytes(page, name.as_bytes())
}

/// A name that is escaped is printable ASCII without a mark of XML, and entities that XML has of itself, one after another.
/// Does nothing.
pub fn an_escaped_name_stays_in_its_text()
    ensures { (name : List ℕ) → AllByRecursion IsPart (map escaped_byte name) }
{}
