//! Watchers.

ghost use Rattle.std.specs.Prelude.{◌≡◌, ◌<◌, ◌≤◌, [], length, max, slice_index, slice_set};
ghost use Rattle.tr_tally.specs.Tallies.{watcher_state};
ghost use Rattle.tr_tally.specs.Views.{note_view};

use crate::note::Note;
use crate::rule::{Answers, Count, Notes, Reads, WORDS_APART};
use crate::teller::Teller;
use crate::words::{Token, Words};
use std::alloc::{Allocator, Global};
use std::marker::{Brand, Model};
use std::sync::Arc;

/// Reads the counts of all streams, while they are published and when their tellers are gone. Contracts see a `WatcherState`.
#[derive(Drop)]
pub struct Watcher<A: Allocator = Global> {
    pub(crate) words: Arc<Words<A>, A>,
    pub(crate) token: Token,
}

impl<A: Allocator> Model for Watcher<A> {
    ghost use Rattle.std.specs.Arc.{arc_value};
    ghost use Rattle.std.specs.Prelude.{◌≡◌, ◌<◌, [], length};
    ghost use Rattle.tr_tally.specs.Tallies.{WatcherState, watcher_state};
    ghost use Rattle.tr_tally.specs.Views.{answers_in, watcher_view};

    ghost Value = { WatcherState };

    ghost view = { λ w. watcher_state w.token.table_id (answers_in w.token.me.0) };

    ghost invariant = { λ w. (w.token.me ≡ (watcher_view (answers_in w.token.me.0), []))
        × (length (answers_in w.token.me.0) ≡ (arc_value w.words).streams) × (0 < (arc_value w.words).watchers)
        × (w.token.table_id ≡ (arc_value w.words).table) };
}

impl<A: Allocator> Watcher<A> {
    /// How many streams its tally was made for.
    pub fn streams(&self) -> usize
        ensures { result ≡ length self.now.answers }
    {
        let words: &Words<A> = &self.words;
        words.asked.streams
    }

    /// The count that the teller of stream `i` published last, or 0: no less than the last answer for that stream.
    pub fn read(&mut self, i: usize) -> u64
        requires { i < length self.old.answers }
        ensures rises { slice_index self.old.answers i ≤ result }
        ensures kept { self.new ≡ watcher_state self.old.table (slice_set self.old.answers i result) }
    {
        let words: &Words<A> = &self.words;
        words
            .table
            .shared
            .load::<Reads>(&mut self.token, WORDS_APART * i)
    }

    /// Reads the count of a note's stream, which is then no less than the note's. The note is of the same tally.
    pub fn learn(&mut self, note: Note) -> u64
        requires { note.table ≡ self.old.table }
        ensures stream { note.stream < length self.old.answers }
        ensures rises { slice_index self.old.answers note.stream ≤ result }
        ensures noted { note.count ≤ result }
        ensures kept { self.new ≡ watcher_state self.old.table (slice_set self.old.answers note.stream result) }
    {
        let stream = note.stream;
        self.join(note);
        self.read(stream)
    }

    /// Changes nothing, and shows that the last answer for a teller's stream is no more than the teller's count.
    pub fn audit(&mut self, teller: &mut Teller<A>)
        requires { teller.old.table ≡ self.old.table }
        ensures same { (self.new ≡ self.old) × (teller.new ≡ teller.old) }
        ensures within { slice_index self.old.answers teller.old.stream ≤ teller.old.count }
    {
        let answer = self.answer_known::<Brand>(teller.stream);
        teller.compare(answer);
    }

    /// A token that knows the last answer for a stream, whose number contracts know by a type too.
    fn answer_known<K: Count>(&mut self, _stream: usize) -> Token
        requires { _stream ≡ K.count }
        ensures watcher { self.new ≡ self.old }
        ensures token { (result.table_id ≡ self.old.table)
            × (result.me ≡ (note_view K.count (slice_index self.old.answers K.count), [])) }
    {
        let words: &Words<A> = &self.words;
        words.table.shared.split_seat::<Answers<K>>(&mut self.token)
    }

    /// Joins a note: its count is the last answer for its stream, if that was less.
    fn join(&mut self, note: Note)
        requires { note.table ≡ self.old.table }
        ensures stream { note.stream < length self.old.answers }
        ensures joined { self.new ≡ watcher_state self.old.table (slice_set self.old.answers note.stream
            (max (slice_index self.old.answers note.stream) note.count)) }
    {
        let Note { token, .. } = note;
        let words: &Words<A> = &self.words;
        words
            .table
            .shared
            .join_seat::<Notes>(&mut self.token, token);
    }
}
