//! The answers to lines, as texts.

ghost use Rattle.std.specs.Prelude.{◌≡◌, ◌∷◌, ◌++◌, [], true, false, Ok, Err, IfOk, OnOk, codes, is_err};
ghost use Rattle.tr_replies.specs.LineFaults.{HasMemory, wants_memory};
ghost use Rattle.tr_console.specs.Replies.{said, text_or_refusal};
ghost use Rattle.tr_replies.specs.Words.{text_bytes};
ghost use Rattle.tr_replies.specs.OneLine.{refusal_text};

use std::alloc::{AllocError, Allocator, Global};
use tr_replies::{LineFault, ReplyText, refusal_line};

/// The answer to a line: its text, with its newlines, and whether it says that the line was refused.
#[derive(Drop)]
pub(crate) struct Reply<A: Allocator = Global> {
    /// The text, with its newlines. It is empty for a line that gets no answer.
    pub(crate) text: ReplyText<A>,
    /// Whether the line was refused, or was a bad one.
    pub(crate) is_refused: bool,
}

impl<A: Allocator> Reply<A> {
    /// The text, with its newlines. It is empty for a line that gets no answer.
    pub(crate) fn text(&self) -> &str
        ensures { result.now ≡ said self.now }
    {
        self.text.as_str()
    }

    /// Whether the line was refused, or was a bad one.
    pub(crate) fn is_refused(&self) -> bool
        ensures { result ≡ self.now.is_refused }
    {
        self.is_refused
    }

    /// An answer that is no refusal.
    pub(crate) fn done(text: ReplyText<A>) -> Reply<A>
        ensures text { said result ≡ text_bytes text }
        ensures done { result.is_refused ≡ false }
    {
        Reply {
            text,
            is_refused: false,
        }
    }

    /// An answer that is a refusal.
    pub(crate) fn refused(text: ReplyText<A>) -> Reply<A>
        ensures text { said result ≡ text_bytes text }
        ensures refused { result.is_refused ≡ true }
    {
        Reply {
            text,
            is_refused: true,
        }
    }
}

/// The answer to a line that was refused. If an allocation failed there is none.
pub(crate) fn refusal<A: Allocator + Copy>(
    alloc: A,
    fault: LineFault,
) -> Result<Reply<A>, AllocError>
    ensures text { IfOk result (λ r. said r ≡ refusal_text fault ++ 10 ∷ []) }
    ensures refused { IfOk result (λ r. r.is_refused ≡ true) }
    ensures memory { OnOk result (wants_memory fault ≡ false) }
{
    if fault.wants_memory() {
        return Err(AllocError);
    }
    let text = refusal_line(alloc, fault)?;
    Ok(Reply::refused(ReplyText::Written(text)))
}

/// The answer to a line that is no command.
pub(crate) fn bad_line<A: Allocator>() -> Reply<A>
    ensures text { said result ≡ codes "bad line" ++ 10 ∷ [] }
    ensures refused { result.is_refused ≡ true }
{
    Reply::refused(ReplyText::Constant("bad line\n"))
}

/// The empty answer to a line that gets none.
pub(crate) fn skipped<A: Allocator>() -> Reply<A>
    ensures text { said result ≡ [] }
    ensures done { result.is_refused ≡ false }
{
    Reply::done(ReplyText::Constant(""))
}

/// The answer, with this text and its newline, to a call that only says that it is done. If an allocation failed there is
/// none.
pub(crate) fn done_reply<A: Allocator + Copy>(
    alloc: A,
    text: &'static str,
    answer: Result<(), LineFault>,
) -> Result<Reply<A>, AllocError>
    ensures text { IfOk result (λ r. said r ≡ text_or_refusal text.now answer) }
    ensures refused { IfOk result (λ r. r.is_refused ≡ is_err answer) }
    ensures memory { OnOk result (HasMemory answer) }
{
    match answer {
        Ok(()) => Ok(Reply::done(ReplyText::Constant(text))),
        Err(fault) => refusal(alloc, fault),
    }
}
