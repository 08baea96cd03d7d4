//! How a stream's calls are noted. Nothing of what is noted is read when it runs: a note is three plain loads.

ghost use Rattle.std.specs.Prelude.{◌≡◌};
ghost use Rattle.tr_accounts.specs.StreamSteps.{clear_step, cut_step, offer_step, switch_step, take_step};
ghost use Rattle.tr_journal.specs.Journals.{IsSeatOf, journal_after, seat_after};

use crate::step::StreamStep;
use std::alloc::Allocator;
use std::marker::Brand;
use tr_journal::{Journal, Noted, Seat};
use tr_stream::{ClearFault, Cleared, CutDone, CutFault, OfferFault, Offered, TakeFault, Taken};
use tr_terms::Moment;

impl Noted<StreamStep> for Brand {
    ghost use Rattle.std.specs.Prelude.{false};
    ghost use Rattle.tr_accounts.specs.StreamSteps.{switch_step};

    ghost done = { switch_step false };
}

/// The seat's holder offered a record, and this was answered.
#[inline(always)]
pub fn note_offer<A: Allocator>(
    journal: &mut Journal<StreamStep, A>,
    seat: &mut Seat<StreamStep>,
    moment: Moment,
    id: u32,
    payload: &[u8],
    answer: Result<Offered, OfferFault>,
)
    requires { seat.old.table ≡ journal.old.table }
    ensures journal { journal.new ≡ journal_after seat.old.who (offer_step moment id payload.now answer) journal.old }
    ensures seat { seat.new ≡ seat_after (offer_step moment id payload.now answer) seat.old }
    ensures own { IsSeatOf journal.old seat.old }
{
    note_offer_as::<A, Brand>(journal, seat, moment, id, payload, answer);
}

/// The seat's holder offered a record, and this was answered.
#[inline(always)]
fn note_offer_as<A: Allocator, K: Noted<StreamStep>>(
    journal: &mut Journal<StreamStep, A>,
    seat: &mut Seat<StreamStep>,
    moment: Moment,
    id: u32,
    payload: &[u8],
    answer: Result<Offered, OfferFault>,
)
    requires seat { seat.old.table ≡ journal.old.table }
    requires done { K.done ≡ offer_step moment id payload.now answer }
    ensures journal { journal.new ≡ journal_after seat.old.who (offer_step moment id payload.now answer) journal.old }
    ensures seat { seat.new ≡ seat_after (offer_step moment id payload.now answer) seat.old }
    ensures own { IsSeatOf journal.old seat.old }
{
    journal.note::<K>(seat);
}

/// The seat's holder took a packet, or this was answered.
#[inline(always)]
pub fn note_take<A: Allocator>(
    journal: &mut Journal<StreamStep, A>,
    seat: &mut Seat<StreamStep>,
    answer: Result<Taken, TakeFault>,
)
    requires { seat.old.table ≡ journal.old.table }
    ensures journal { journal.new ≡ journal_after seat.old.who (take_step answer) journal.old }
    ensures seat { seat.new ≡ seat_after (take_step answer) seat.old }
    ensures own { IsSeatOf journal.old seat.old }
{
    note_take_as::<A, Brand>(journal, seat, answer);
}

/// The seat's holder took a packet, or this was answered.
#[inline(always)]
fn note_take_as<A: Allocator, K: Noted<StreamStep>>(
    journal: &mut Journal<StreamStep, A>,
    seat: &mut Seat<StreamStep>,
    answer: Result<Taken, TakeFault>,
)
    requires seat { seat.old.table ≡ journal.old.table }
    requires done { K.done ≡ take_step answer }
    ensures journal { journal.new ≡ journal_after seat.old.who (take_step answer) journal.old }
    ensures seat { seat.new ≡ seat_after (take_step answer) seat.old }
    ensures own { IsSeatOf journal.old seat.old }
{
    journal.note::<K>(seat);
}

/// The seat's holder cut the stream, and this was answered.
#[inline(always)]
pub fn note_cut<A: Allocator>(
    journal: &mut Journal<StreamStep, A>,
    seat: &mut Seat<StreamStep>,
    moment: Moment,
    answer: Result<CutDone, CutFault>,
)
    requires { seat.old.table ≡ journal.old.table }
    ensures journal { journal.new ≡ journal_after seat.old.who (cut_step moment answer) journal.old }
    ensures seat { seat.new ≡ seat_after (cut_step moment answer) seat.old }
    ensures own { IsSeatOf journal.old seat.old }
{
    note_cut_as::<A, Brand>(journal, seat, moment, answer);
}

/// The seat's holder cut the stream, and this was answered.
#[inline(always)]
fn note_cut_as<A: Allocator, K: Noted<StreamStep>>(
    journal: &mut Journal<StreamStep, A>,
    seat: &mut Seat<StreamStep>,
    moment: Moment,
    answer: Result<CutDone, CutFault>,
)
    requires seat { seat.old.table ≡ journal.old.table }
    requires done { K.done ≡ cut_step moment answer }
    ensures journal { journal.new ≡ journal_after seat.old.who (cut_step moment answer) journal.old }
    ensures seat { seat.new ≡ seat_after (cut_step moment answer) seat.old }
    ensures own { IsSeatOf journal.old seat.old }
{
    journal.note::<K>(seat);
}

/// The seat's holder cleared the stream, and this was answered.
#[inline(always)]
pub fn note_clear<A: Allocator>(
    journal: &mut Journal<StreamStep, A>,
    seat: &mut Seat<StreamStep>,
    answer: Result<Cleared, ClearFault>,
)
    requires { seat.old.table ≡ journal.old.table }
    ensures journal { journal.new ≡ journal_after seat.old.who (clear_step answer) journal.old }
    ensures seat { seat.new ≡ seat_after (clear_step answer) seat.old }
    ensures own { IsSeatOf journal.old seat.old }
{
    note_clear_as::<A, Brand>(journal, seat, answer);
}

/// The seat's holder cleared the stream, and this was answered.
#[inline(always)]
fn note_clear_as<A: Allocator, K: Noted<StreamStep>>(
    journal: &mut Journal<StreamStep, A>,
    seat: &mut Seat<StreamStep>,
    answer: Result<Cleared, ClearFault>,
)
    requires seat { seat.old.table ≡ journal.old.table }
    requires done { K.done ≡ clear_step answer }
    ensures journal { journal.new ≡ journal_after seat.old.who (clear_step answer) journal.old }
    ensures seat { seat.new ≡ seat_after (clear_step answer) seat.old }
    ensures own { IsSeatOf journal.old seat.old }
{
    journal.note::<K>(seat);
}

/// The seat's holder let the stream take offers, or made it refuse them.
#[inline(always)]
pub fn note_switch<A: Allocator>(
    journal: &mut Journal<StreamStep, A>,
    seat: &mut Seat<StreamStep>,
    active: bool,
)
    requires { seat.old.table ≡ journal.old.table }
    ensures journal { journal.new ≡ journal_after seat.old.who (switch_step active) journal.old }
    ensures seat { seat.new ≡ seat_after (switch_step active) seat.old }
    ensures own { IsSeatOf journal.old seat.old }
{
    note_switch_as::<A, Brand>(journal, seat, active);
}

/// The seat's holder let the stream take offers, or made it refuse them.
#[inline(always)]
fn note_switch_as<A: Allocator, K: Noted<StreamStep>>(
    journal: &mut Journal<StreamStep, A>,
    seat: &mut Seat<StreamStep>,
    active: bool,
)
    requires seat { seat.old.table ≡ journal.old.table }
    requires done { K.done ≡ switch_step active }
    ensures journal { journal.new ≡ journal_after seat.old.who (switch_step active) journal.old }
    ensures seat { seat.new ≡ seat_after (switch_step active) seat.old }
    ensures own { IsSeatOf journal.old seat.old }
{
    journal.note::<K>(seat);
}
