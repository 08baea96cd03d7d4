//! A tally as a whole.

ghost use Rattle.std.specs.Prelude.{◌≡◌, IfOk};
ghost use Rattle.tr_tally.specs.Tallies.{new_tellers, new_watchers, tally_state};

use crate::opener::Opener;
use crate::rule::Asked;
use crate::teller::Teller;
use crate::watcher::Watcher;
use crate::words::Words;
use std::alloc::{AllocError, Allocator, Global};
use std::marker::Model;
use std::sync::Arc;

/// The counts of streams, which tellers publish and watchers read. It names them, and they outlive it. Contracts see a
/// `TallyState`.
#[derive(Drop)]
pub struct Tally<A: Allocator = Global> {
    words: Arc<Words<A>, A>,
}

impl<A: Allocator> Model for Tally<A> {
    ghost use Rattle.std.specs.Arc.{arc_value};
    ghost use Rattle.tr_tally.specs.Tallies.{TallyState};

    ghost Value = { TallyState };

    ghost view = { λ t. arc_value t.words };
}

impl<A: Allocator + Copy> Tally<A> {
    /// A tally, a teller for each of so many streams, in order, each at 0, and so many watchers, which have read nothing yet.
    /// Only this call takes memory. If watchers are asked for, each stream has a word, 64 bytes from the next one's. If none
    /// are, nobody can ever read what is published, and no stream has a word.
    ///
    /// # Errors
    ///
    /// `AllocError`: an allocation failed, or there would be more words than can be counted. Nothing is left.
    pub fn new(
        alloc: A,
        streams: usize,
        watchers: usize,
    ) -> Result<(Tally<A>, Vec<Teller<A>, A>, Vec<Watcher<A>, A>), AllocError>
        ensures tally { IfOk result (λ r. r.0 ≡ tally_state r.0.table streams watchers) }
        ensures tellers { IfOk result (λ r. r.1.items ≡ new_tellers r.0.table streams) }
        ensures watchers { IfOk result (λ r. r.2.items ≡ new_watchers r.0.table streams watchers) }
    {
        let mut opener = Opener::open(alloc, Asked { streams, watchers })?;
        let tellers = opener.tellers(alloc, streams)?;
        let watchers = opener.watchers(alloc, watchers)?;
        let words = opener.into_words();
        Ok((Tally { words }, tellers, watchers))
    }
}

impl<A: Allocator> Tally<A> {
    /// How many streams it was made for.
    pub fn streams(&self) -> usize
        ensures { result ≡ self.now.streams }
    {
        let words: &Words<A> = &self.words;
        words.asked.streams
    }
}
