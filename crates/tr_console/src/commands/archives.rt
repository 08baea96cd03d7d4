//! `archives`

ghost use Rattle.std.specs.Prelude.{◌≡◌, ◌∷◌, ◌++◌, [], IfOk, OnOk};
ghost use Rattle.std.specs.String.{string_bytes};
ghost use Rattle.tr_console.specs.Replies.{Does};
ghost use Rattle.tr_replies.specs.Words.{text_bytes};
ghost use Rattle.tr_console.specs.commands.Archives.{archive_line, archives_step, archives_text};
ghost use Rattle.tr_stream.specs.Rules.{by_state};

use crate::console::Console;
use crate::replies::{Reply, refusal};
use std::alloc::{AllocError, Allocator};
use tr_replies::{LineFault, NamedArchive, ReplyText, push_archive};
use tr_session::Session;
use tr_session_book::Archive;

/// Adds the line of an archive.
fn push_archive_of<A: Allocator + Copy>(
    text: &mut String<A>,
    alloc: A,
    session: &Session<A>,
    archive: &Archive,
) -> Result<(), AllocError>
    ensures { OnOk result (string_bytes text.new ≡ string_bytes text.old
        ++ (archive_line by_state session.now archive.now ++ 10 ∷ [])) }
{
    let named = NamedArchive {
        archive: *archive,
        offset: session.book().offset(),
    };
    let size = session.archive_size(archive.id);
    push_archive(text, alloc, named, size, session.streams())
}

/// A line for each archive of a session, with its newline, or one that says that there is none.
fn archives_of<A: Allocator + Copy>(
    alloc: A,
    session: &Session<A>,
) -> Result<ReplyText<A>, AllocError>
    ensures { IfOk result (λ t. text_bytes t ≡ archives_text by_state session.now) }
{
    let archives = session.book().archives();
    if archives.is_empty() {
        return Ok(ReplyText::Constant("none\n"));
    }
    let mut text = String::new(alloc);
    'archives: for archive in archives {
        push_archive_of(&mut text, alloc, session, archive)?;
    }
    Ok(ReplyText::Written(text))
}

impl<A: Allocator + Copy> Console<A> {
    /// Lists the archives of the session of this name.
    pub(crate) fn archives(&self, session: &str) -> Result<Reply<A>, AllocError>
        ensures { IfOk result (Does (archives_step by_state self.now session.now) self.now) }
    {
        let alloc = self.alloc();
        let Some(found) = self.find(session) else {
            return refusal(alloc, LineFault::NoSession);
        };
        let text = archives_of(alloc, found)?;
        Ok(Reply::done(text))
    }
}
