//! The rule of a tally's table, and the kinds of step that keep it.
//!
//! A tally is a table of `atomic_table` without a slot. What is known of it is in the views of its tokens: one in each
//! teller, each watcher and each note, and one in the opener, from which tellers and watchers are split. No value of a view
//! is ever made.

use atomic_table::{Join, Play, Split, TableRule};
use std::collections::LinkedList;
use std::marker::{Brand, PhantomData};

/// How many words of the table lie from the word of one stream to that of the next: 64 bytes, so that no two of them are in
/// one line of a processor's cache.
pub const WORDS_APART: usize = 8;

/// How many streams and how many watchers a tally is made for.
#[derive(Clone, Copy)]
pub struct Asked {
    pub streams: usize,
    pub watchers: usize,
}

/// What a token knows.
pub enum View {
    /// How many streams have their tellers, and how many there are.
    Opener {
        made: u64,
        streams: u64,
    },
    /// A stream, and the counts that were published on it, in order.
    Teller {
        stream: u64,
        counts: LinkedList<u64>,
    },
    /// The last answer for each stream.
    Watcher {
        answers: LinkedList<u64>,
    },
    /// A stream, and a count of it.
    Note {
        stream: u64,
        count: u64,
    },
    /// A stream, the counts that were published on it, and an answer that is to be compared with them.
    Compared {
        stream: u64,
        counts: LinkedList<u64>,
        answer: u64,
    },
    /// Nothing: a note that was joined to a watcher, or an answer that was compared.
    Spent,
}

/// What words, watchers and notes tell was published.
pub struct Tells;

impl TableRule<(), View, Asked> for Tells {
    ghost use Rattle.tr_tally.specs.Views.{IsTold, opener_view};

    ghost holds = { λ asked s. IsTold asked s.words s.views };

    ghost first = { λ asked. opener_view 0 asked.streams };
}

/// A count that contracts alone know. It has no code.
pub trait Count {
    ghost use Rattle.std.specs.Prelude.{ℕ};

    ghost count: { ℕ };
}

impl Count for Brand {
    ghost count = { 0 };
}

/// A teller publishes a count in a type, so that a load is enough where no word is stored.
pub struct Publishes<K: Count> {
    pub of: PhantomData<K>,
}

impl<K: Count> Play<(), View> for Publishes<K> {
    ghost use Rattle.std.specs.Prelude.{◌≡◌};
    ghost use Rattle.tr_tally.specs.Views.{with_count};

    ghost then = { λ _ me _ after. after ≡ (with_count K.count me.0, me.1) };
}

/// A watcher reads the word of a stream.
pub struct Reads;

impl Play<(), View> for Reads {
    ghost use Rattle.std.specs.Prelude.{◌≡◌, ◌≤◌, slice_index};
    ghost use Rattle.tr_tally.specs.Views.{answers_in, stream_at, with_answer};

    ghost then = { λ step me found after. (after ≡ (with_answer (stream_at step.word) found me.0, me.1))
        × (slice_index (answers_in me.0) (stream_at step.word) ≤ found) };
}

/// The next stream gets its teller.
pub struct Tellers;

impl Split<View> for Tellers {
    ghost use Rattle.tr_tally.specs.Views.{next_teller, with_teller};

    ghost left = { with_teller };

    ghost right = { next_teller };
}

/// A new watcher, which read nothing yet.
pub struct Watchers;

impl Split<View> for Watchers {
    ghost use Rattle.tr_tally.specs.Views.{new_watcher};

    ghost left = { λ v. v };

    ghost right = { new_watcher };
}

/// Of a teller a note of its last count is made, and joined to a watcher.
pub struct Notes;

impl Split<View> for Notes {
    ghost use Rattle.tr_tally.specs.Views.{note_of};

    ghost left = { λ v. v };

    ghost right = { note_of };
}

impl Join<View> for Notes {
    ghost use Rattle.tr_tally.specs.Views.{with_note};
    ghost use Rattle.tr_tally.specs.declared.rule.View.TheVariants.{Spent};

    ghost both = { with_note };

    ghost spent = { Spent };
}

/// Of a watcher its last answer for the stream of this number parts.
pub struct Answers<K: Count> {
    pub of: PhantomData<K>,
}

impl<K: Count> Split<View> for Answers<K> {
    ghost use Rattle.tr_tally.specs.Views.{answer_of};

    ghost left = { λ v. v };

    ghost right = { answer_of K.count };
}

/// An answer comes to its stream's teller, to be compared with what that published.
pub struct Compares;

impl Join<View> for Compares {
    ghost use Rattle.tr_tally.specs.Views.{with_answer_beside};
    ghost use Rattle.tr_tally.specs.declared.rule.View.TheVariants.{Spent};

    ghost both = { with_answer_beside };

    ghost spent = { Spent };
}

impl Play<(), View> for Compares {
    ghost use Rattle.std.specs.Prelude.{◌≡◌};
    ghost use Rattle.tr_tally.specs.Views.{IsPublished, without_answer};

    ghost then = { λ _ me _ after. (after ≡ (without_answer me.0, me.1)) × IsPublished me.0 };
}
