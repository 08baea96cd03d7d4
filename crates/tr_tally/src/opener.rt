//! How tellers and watchers are made.

ghost use Rattle.std.specs.Arc.{arc_value};
ghost use Rattle.std.specs.Prelude.{◌≡◌, ◌<◌, ◌+◌, IfOk, replicate};
ghost use Rattle.tr_tally.specs.Tallies.{new_tellers, new_watchers, opener_state, tally_state, teller_state, watcher_state};

use crate::rule::{Asked, Tellers, Watchers};
use crate::teller::Teller;
use crate::watcher::Watcher;
use crate::words::{Token, Words};
use std::alloc::{AllocError, Allocator, Global};
use std::marker::Model;
use std::sync::Arc;

/// Makes the tellers, one for each stream in order, and watchers. Contracts see an `OpenerState`.
#[derive(Drop)]
pub(crate) struct Opener<A: Allocator = Global> {
    words: Arc<Words<A>, A>,
    token: Token,
}

impl<A: Allocator> Model for Opener<A> {
    ghost use Rattle.std.specs.Arc.{arc_value};
    ghost use Rattle.std.specs.Prelude.{◌≡◌, []};
    ghost use Rattle.tr_tally.specs.Tallies.{OpenerState, opener_state};
    ghost use Rattle.tr_tally.specs.Views.{opener_view, made_in};

    ghost Value = { OpenerState };

    ghost view = { λ o. opener_state (arc_value o.words) (made_in o.token.me.0) };

    ghost invariant = { λ o. (o.token.me ≡ (opener_view (made_in o.token.me.0) (arc_value o.words).streams, []))
        × (o.token.table_id ≡ (arc_value o.words).table) };
}

impl<A: Allocator + Copy> Opener<A> {
    /// No stream has its teller yet.
    pub(crate) fn open(alloc: A, asked: Asked) -> Result<Opener<A>, AllocError>
        ensures { IfOk result
            (λ o. o ≡ opener_state (tally_state o.tally.table asked.streams asked.watchers) 0) }
    {
        let (words, token) = Words::open(alloc, asked)?;
        let words = Arc::new(alloc, words)?;
        Ok(Opener { words, token })
    }

    /// The teller of the next stream, at 0.
    fn teller(&mut self, stream: usize) -> Result<Teller<A>, AllocError>
        requires next { stream ≡ self.old.made }
        requires within { stream < self.old.tally.streams }
        ensures opener { IfOk result (λ _. self.new ≡ opener_state self.old.tally (stream + 1)) }
        ensures teller { IfOk result (λ t. t ≡ teller_state self.old.tally.table stream 0) }
    {
        let shared = Arc::try_clone(&self.words)?;
        let words: &Words<A> = &shared;
        let is_watched = words.asked.watchers > 0;
        let token = words.table.shared.split_seat::<Tellers>(&mut self.token);
        Ok(Teller {
            words: shared,
            token,
            stream,
            count: 0,
            is_watched,
        })
    }

    /// A watcher that has answered nothing but 0.
    fn watcher(&mut self) -> Result<Watcher<A>, AllocError>
        requires { 0 < self.old.tally.watchers }
        ensures opener { IfOk result (λ _. self.new ≡ self.old) }
        ensures watcher { IfOk result
            (λ w. w ≡ watcher_state self.old.tally.table (replicate self.old.tally.streams 0)) }
    {
        let shared = Arc::try_clone(&self.words)?;
        let words: &Words<A> = &shared;
        let token = words.table.shared.split_seat::<Watchers>(&mut self.token);
        Ok(Watcher {
            words: shared,
            token,
        })
    }

    /// The tellers of all streams.
    pub(crate) fn tellers(
        &mut self,
        alloc: A,
        streams: usize,
    ) -> Result<Vec<Teller<A>, A>, AllocError>
        requires { self.old ≡ opener_state (tally_state self.old.tally.table streams self.old.tally.watchers) 0 }
        ensures opener { IfOk result (λ _. self.new.tally ≡ self.old.tally) }
        ensures tellers { IfOk result (λ r. r.items ≡ new_tellers self.old.tally.table streams) }
    {
        let mut tellers = Vec::with_capacity(alloc, streams)?;
        'streams: for stream in 0..streams {
            tellers.push_reserved(self.teller(stream)?);
        }
        Ok(tellers)
    }

    /// The watchers that were asked for.
    pub(crate) fn watchers(
        &mut self,
        alloc: A,
        watchers: usize,
    ) -> Result<Vec<Watcher<A>, A>, AllocError>
        requires { self.old.tally.watchers ≡ watchers }
        ensures opener { IfOk result (λ _. self.new ≡ self.old) }
        ensures watchers { IfOk result
            (λ r. r.items ≡ new_watchers self.old.tally.table self.old.tally.streams watchers) }
    {
        let mut made = Vec::with_capacity(alloc, watchers)?;
        'watchers: for _ in 0..watchers {
            made.push_reserved(self.watcher()?);
        }
        Ok(made)
    }

    /// The words, if all ends are made.
    pub(crate) fn into_words(self) -> Arc<Words<A>, A>
        ensures { arc_value result ≡ self.tally }
    {
        let Opener { words, token: _ } = self;
        words
    }
}
