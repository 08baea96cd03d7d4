//! Notes.

ghost use Rattle.std.specs.Prelude.{◌≡◌};

use crate::words::Token;
use std::marker::Model;

/// What a teller had published last when it gave this note: a watcher that learns of it answers no less. Contracts see a
/// `NoteState`.
#[derive(Drop)]
pub struct Note {
    pub(crate) token: Token,
    pub(crate) stream: usize,
    pub(crate) count: u64,
}

impl Model for Note {
    ghost use Rattle.std.specs.Prelude.{◌≡◌, []};
    ghost use Rattle.tr_tally.specs.Tallies.{NoteState, note_state};
    ghost use Rattle.tr_tally.specs.Views.{HasWord, note_view};

    ghost Value = { NoteState };

    ghost view = { λ n. note_state n.token.table_id n.stream n.count };

    ghost invariant = { λ n. (n.token.me ≡ (note_view n.stream n.count, []))
        × HasWord n.token.table_id.words n.stream };
}

impl Note {
    /// The number of its stream.
    pub fn stream(&self) -> usize
        ensures { result ≡ self.now.stream }
    {
        self.stream
    }

    /// The count that its teller had published last.
    pub fn count(&self) -> u64
        ensures { result ≡ self.now.count }
    {
        self.count
    }
}
