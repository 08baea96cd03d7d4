//! Texts of words and numbers, and a refusal's.

ghost use Rattle.std.specs.Prelude.{◌≡◌, ◌∷◌, ◌++◌, [], IfOk, OnOk};
ghost use Rattle.std.specs.Fmt.{decimal};
ghost use Rattle.std.specs.String.{string_bytes};
ghost use Rattle.tr_replies.specs.OneLine.{refusal_text};
ghost use Rattle.tr_replies.specs.Words.{words_and_numbers};

use crate::LineFault;
use itoa::Buffer;
use std::alloc::{AllocError, Allocator};

/// How many bytes most answers with numbers have at most.
const USUAL_LENGTH: usize = 64;

/// Adds a number in decimal.
fn push_number<A: Allocator>(text: &mut String<A>, number: u64) -> Result<(), AllocError>
    ensures { OnOk result (string_bytes text.new ≡ string_bytes text.old ++ decimal number) }
{
    let mut digits = Buffer::new();
    text.push_str(digits.format(number))
}

/// A line of words, with a number after each of them. Few are longer than what is asked for at first.
pub fn words_and_numbers<A: Allocator>(
    alloc: A,
    parts: &[(&str, u64)],
) -> Result<String<A>, AllocError>
    ensures { IfOk result (λ t. string_bytes t ≡ words_and_numbers parts.now ++ 10 ∷ []) }
{
    let mut text = String::with_capacity(alloc, USUAL_LENGTH)?;
    'parts: for part in parts {
        let (words, number) = *part;
        text.push_str(words)?;
        push_number(&mut text, number)?;
    }
    text.push('\n')?;
    Ok(text)
}

/// The line of a refusal.
pub fn refusal_line<A: Allocator + Copy>(
    alloc: A,
    fault: LineFault,
) -> Result<String<A>, AllocError>
    ensures { IfOk result (λ t. string_bytes t ≡ refusal_text fault ++ 10 ∷ []) }
{
    let code = fault.code();
    let name = fault.name();
    let text = format!(in alloc; "refused {code} {name}\n")?;
    Ok(text)
}
