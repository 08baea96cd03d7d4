//! The words of a tally.

ghost use Rattle.std.specs.Prelude.{◌≡◌, ◌≤◌, ◌^◌, [], IfNone, IfOk, IfSome};
ghost use Rattle.tr_tally.specs.Tallies.{tally_state};
ghost use Rattle.tr_tally.specs.Views.{opener_view, words_for};

use crate::rule::{Asked, Tells, View, WORDS_APART};
use atomic_table::Table;
use std::alloc::{AllocError, Allocator, Global};
use std::marker::Model;

/// What tellers, watchers and notes step with.
pub(crate) type Token = atomic_table::Seat<(), View>;

/// The words of a tally, which its tellers and watchers share. Contracts see a `TallyState`.
#[derive(Drop)]
pub(crate) struct Words<A: Allocator = Global> {
    pub(crate) asked: Asked,
    pub(crate) table: Table<(), View, Asked, Tells, A>,
}

impl<A: Allocator> Model for Words<A> {
    ghost use Rattle.std.specs.Prelude.{◌≡◌, ◌<◌, ◌^◌};
    ghost use Rattle.tr_tally.specs.Tallies.{TallyState, tally_state};
    ghost use Rattle.tr_tally.specs.Views.{words_for};

    ghost Value = { TallyState };

    ghost view = { λ w. tally_state w.table.shared.table_id w.asked.streams w.asked.watchers };

    ghost invariant = { λ w. (w.table.shared.key ≡ w.asked)
        × (w.table.shared.table_id.words ≡ words_for w.asked) × (words_for w.asked < 2 ^ 64) };
}

/// How many words there are, if they can be counted.
fn count_words(asked: Asked) -> Option<usize>
    ensures count { IfSome result (λ n. n ≡ words_for asked) }
    ensures none { IfNone result (2 ^ 64 ≤ words_for asked) }
{
    if asked.watchers == 0 {
        return Some(1);
    }
    asked.streams.checked_add(1)?.checked_mul(WORDS_APART)
}

impl<A: Allocator + Copy> Words<A> {
    /// The words, and the token from which all others are split.
    pub(crate) fn open(alloc: A, asked: Asked) -> Result<(Words<A>, Token), AllocError>
        ensures words { IfOk result (λ r. r.0 ≡ tally_state r.0.table asked.streams asked.watchers) }
        ensures token { IfOk result (λ r. (r.1.table_id ≡ r.0.table) × (r.1.me ≡ (opener_view 0 asked.streams, []))) }
    {
        let zeros = vec![in alloc; 0; count_words(asked).ok_or(AllocError)?]?;
        let (table, token) = Table::of_words(alloc, &zeros, &asked)?;
        Ok((Words { asked, table }, token))
    }
}
