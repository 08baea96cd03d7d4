//! Tellers.

ghost use Rattle.std.specs.Prelude.{◌≡◌, ◌≤◌, []};
ghost use Rattle.tr_tally.specs.Tallies.{note_state, teller_state};
ghost use Rattle.tr_tally.specs.Views.{count_in, note_view};

use crate::note::Note;
use crate::rule::{Compares, Count, Notes, Publishes, WORDS_APART};
use crate::words::{Token, Words};
use std::alloc::{Allocator, Global};
use std::marker::{Brand, Model};
use std::sync::Arc;

/// Publishes the counts of one stream, which never fall. Contracts see a `TellerState`.
#[derive(Drop)]
pub struct Teller<A: Allocator = Global> {
    pub(crate) words: Arc<Words<A>, A>,
    pub(crate) token: Token,
    pub(crate) stream: usize,
    pub(crate) count: u64,
    /// Whether there are watchers.
    pub(crate) is_watched: bool,
}

impl<A: Allocator> Model for Teller<A> {
    ghost use Rattle.std.specs.Arc.{arc_value};
    ghost use Rattle.std.specs.Prelude.{◌≡◌, ◌<◌, []};
    ghost use Rattle.tr_tally.specs.Tallies.{TellerState, teller_state};
    ghost use Rattle.tr_tally.specs.Views.{AreWatchers, IsListed, counts_in, teller_view};

    ghost Value = { TellerState };

    ghost view = { λ t. teller_state t.token.table_id t.stream t.count };

    ghost invariant = { λ t. (t.token.me ≡ (teller_view t.stream (counts_in t.token.me.0), []))
        × IsListed t.is_watched (counts_in t.token.me.0) t.count × AreWatchers t.is_watched (arc_value t.words).watchers
        × (t.stream < (arc_value t.words).streams)
        × (t.token.table_id ≡ (arc_value t.words).table) };
}

impl<A: Allocator> Teller<A> {
    /// The number of its stream.
    pub fn stream(&self) -> usize
        ensures { result ≡ self.now.stream }
    {
        self.stream
    }

    /// The count that it published last, or 0.
    pub fn count(&self) -> u64
        ensures { result ≡ self.now.count }
    {
        self.count
    }

    /// Publishes a count, no less than the last: from now on watchers read it. It costs one locked instruction, and none if it
    /// is the last one again, or in a tally that was made for no watchers.
    #[inline(always)]
    pub fn publish(&mut self, n: u64)
        requires { self.old.count ≤ n }
        ensures { self.new ≡ teller_state self.old.table self.old.stream n }
    {
        self.publish_known::<Brand>(n);
    }

    /// Publishes a count that contracts know by a type too.
    #[inline(always)]
    fn publish_known<K: Count>(&mut self, n: u64)
        requires rises { self.old.count ≤ n }
        requires count { n ≡ K.count }
        ensures { self.new ≡ teller_state self.old.table self.old.stream n }
    {
        if self.is_watched {
            if self.count != n {
                let words: &Words<A> = &self.words;
                let shared = &words.table.shared;
                shared.store::<Publishes<K>>(&mut self.token, WORDS_APART * self.stream, n);
                self.count = n;
            }
        } else {
            // nobody can read it: it is listed when a note is asked for
            self.count = n;
        }
    }

    /// A note of its last published count.
    pub fn note(&mut self) -> Note
        ensures teller { self.new ≡ self.old }
        ensures note { result ≡ note_state self.old.table self.old.stream self.old.count }
    {
        self.note_known::<Brand>()
    }

    /// A note of its last published count, which contracts know by a type too.
    fn note_known<K: Count>(&mut self) -> Note
        requires { self.old.count ≡ K.count }
        ensures teller { self.new ≡ self.old }
        ensures note { result ≡ note_state self.old.table self.old.stream self.old.count }
    {
        let words: &Words<A> = &self.words;
        let shared = &words.table.shared;
        // where nobody watches, the count is listed only now
        shared.load::<Publishes<K>>(&mut self.token, 0);
        let token = shared.split_seat::<Notes>(&mut self.token);
        Note {
            token,
            stream: self.stream,
            count: self.count,
        }
    }

    /// Changes nothing, and shows that an answer for its stream is no more than its count.
    pub(crate) fn compare(&mut self, answer: Token)
        requires table { answer.table_id ≡ self.old.table }
        requires stream { answer.me ≡ (note_view self.old.stream (count_in answer.me.0), []) }
        ensures same { self.new ≡ self.old }
        ensures within { count_in answer.me.0 ≤ self.old.count }
    {
        let words: &Words<A> = &self.words;
        let shared = &words.table.shared;
        shared.join_seat::<Compares>(&mut self.token, answer);
        shared.load::<Compares>(&mut self.token, 0);
    }
}
