//! A session that many threads share. Its desk and each of its streams lie under a lock of their own: the desk's is taken
//! first, and then at most one stream's. Producers and drainers are seats that their threads own, so that an offer or a take
//! waits for its stream alone.
//!
//! # Example
//!
//! `crates/tr_embed/src/main.rt` is a whole program.
//!
//! ```
//! let (shared, producers) = Shared::<N>::build(plan(alloc, &config)?)?;
//! let answer = producer.offer(rt, &shared, moment, id, payload);  // by the thread that owns this producer
//! let (settled, totals) = shared.settle(producers, drainers)?;    // once all threads are done
//! ```
//!
//! # What is proved
//!
//! Nothing can be said of a value under a lock but its type's invariant. So what a call does exactly is proved of the call of
//! tr_seats that is lent the values. Each call here takes the locks and makes that call, and its own contract speaks of what
//! its caller keeps: the answer and the seats.
//!
//! - What a producer offered is what its stream has: an offer adds just itself, with its answer, to the producer's list. Once
//!   settled, the stream represents a history whose offers are that list, each answered as it was, and each record that it
//!   holds has the id and the payload that were offered at its serial, and no lesser moment
//!   (`Producer::offer` (`IsOfferTo.seats`); `Shared::settle`, `settle_with`: `accounts` (`AreAccountsOf`), `own`).
//! - What a drainer took is what the streams have: a take adds just its packet's number, count and chunk to the drainer's list
//!   of that stream. Once settled, these are takes of a history that the stream represents, and each packet is kept in that
//!   chunk or was cleared since
//!   (`Drainer::take` (`IsTakeFrom.seats`); `Shared::settle`, `settle_with`: `packets` (`ArePacketsOf`, `IsTakenFrom`)).
//! - Once settled, one history of each stream has the offers of its producer, the takes of all drainers, and what the desk's
//!   steps did to it, and nothing else: each take is one drainer's, and none is missing; a cut is at the end of its rotation. So
//!   each record has the greatest moment that was given up to it
//!   (`Shared::settle`, `settle_with`: `histories` (`HaveOneHistory`, `IsHistoryOf`)).
//! - What an operator did is what the desk has: a call in its name adds just its steps to its list, each at the moment that was
//!   given and with its answer. A start or a stop that succeeds has switched every stream, a rotation has begun at its moment,
//!   cut streams and ended one with the archive that is answered, a clear has cleared every stream, and a snapshot shows the
//!   moment that was stored.
//!   If operators are lent to settling, each one's steps are all that the desk has of its number, in that one history. If it
//!   answers that they are all that were made, their numbers are those from 1 on, in order, and each step at the desk is one of
//!   theirs: no other start, stop, schedule, rotation, clear or snapshot was asked for
//!   (`Shared::operator`: `new`, `numbered`; `start_by`, `stop_by`, `set_schedule_by`, `rotate_begin_by`, `rotate_next_by`,
//!   `rotate_finish_by`, `rotate_by`, `tick_by`, `clear_by`, `snapshot_by`: `steps`; `settle_with`: `same`, `lent`
//!   (`AreAllOperators`), `histories` (`HaveOneHistory.done`)).
//! - An offer moves its producer's seats by what was answered, and a take the drainer's seat of that stream, whatever other
//!   threads do meanwhile
//!   (`Offers::offer`, `Producer::offer` (`IsOfferTo.seats`, `IsOfferTo.serial`, `IsOfferTo.too_big`, `IsOfferTo.spent`),
//!   `Takes::take`, `Drainer::take` (`IsTakeFrom.seats`, `IsTakeFrom.some`)).
//! - When an offer returns, its producer has published how many of its offers were accepted, also if this one was refused.
//!   Watchers, if any were planned, read that while producers offer: a count that was published, and never less than before;
//!   no less than a note's once they learned of it. They wait for no lock, and outlive the session
//!   (`Producer::offer` (`IsOfferTo.seats`); `tr_tally::Watcher::read`: `rises`, `kept`; `tr_tally::Watcher::learn`: `noted`).
//! - Just an offer that doesn't fit as declared is refused for its layout (`Producer::offer` (`IsOfferTo.other`,
//!   `IsOfferTo.fits`)).
//! - An operator starts, stops, schedules, rotates, clears and ticks the session while its threads run, one hold of the
//!   desk's lock after another. Each call is refused only by the codes that it names
//!   (`Shared::start`, `stop`; `set_schedule`: `answer`, `refused`; `clear`, `rotate`, `rotate_begin`, `rotate_finish`, `tick`:
//!   `refused`; `rotate_next`: `refused`, `cut`; `start_by`, `stop_by`, `set_schedule_by`, `clear_by`, `rotate_by`,
//!   `rotate_begin_by`, `rotate_next_by`, `rotate_finish_by`, `tick_by`, `snapshot_by`: `refused`).
//! - A snapshot shows at the place of each number what some sound stream of the plan has at the snapshot's own moment:
//!   serials that follow each other up to the last offered one. Of a producer that is lent to it, it shows a stream with just
//!   that producer's counts, and each record as it was offered
//!   (`Shared::snapshot`, `snapshot_by`, `snapshot_with`: `moment`, `all`, `shown` (`IsShown`, `IsLookAt`), `refused`;
//!   `snapshot_with`: `own` (`IsShownWith.records`), `there`, `same`).
//! - For its mode a snapshot session refuses schedules, clears, rotations and the beginning of one, and a local one
//!   snapshots; neither is so refused in the other kind of session. In a snapshot session, too, a tick is idle, no rotation
//!   goes on or ends, and nothing is taken
//!   (`Shared::set_schedule`: `answer`; `clear`, `rotate`, `rotate_begin`, `rotate_next`, `rotate_finish`, `tick`, `snapshot`,
//!   `snapshot_with`: `mode`; `Drainer::take` (`IsTakeFrom.mode`)).
//! - Only its sole owner can settle it, and no lock is taken. It is refused for a missing producer if and only if there isn't
//!   one for each stream. Each stream has just what its producer offered, and at least what the drainers took of it, and holds
//!   all packets of its chunks: none was released. The totals are the sums over its streams
//!   (`Shared::settle`, `settle_with`: `missing` (`IsOneEach`), `all`, `planned` (`IsSessionOf.held`), `totals`, `seats`,
//!   `taken`, `places` (`AddUp`), `consumed` (`WereConsumed`), `snapshot_session`).
//! - If it isn't settled, producers and drainers come back as they were, and the session is shared again,
//!   as `SettleFault` has it by its type (`Shared::settle`, `settle_with`: `back`).
//! - Built, it has one producer for each stream, with nothing offered or published, and the planned watchers. It is refused
//!   only out of memory (`Shared::build`: `producers`, `memory`; `build_watched`: `producers`, `watchers`, `tally`, `memory`;
//!   `streams`).
//! - A new drainer has taken nothing (`Shared::drainer`: `new`, `refused`).
//! - A pool's takes and offers move seats as they answer. A feeder's producer offered, and published, as many records more as
//!   its log has; a new one's log is just its accepted offers (`Shared::offer_with` (`IsOffered`), `take_at` (`IsTaken`);
//!   `every_feed`: `offers` (`HasOffered`), `logs` (`IsLogOf`)).
//! - A rotation's cuts, with nothing between them, are those of a session of one thread, if each stream is in its place and
//!   local (`every_rotation` (`AreLocal`)).
//!
//! Within the crate the same is proved of what is lent to operators: which stream the pending rotation cuts next, its cut, a
//! rotation that begins if it is due, and the beginning of a snapshot are each equal to a definition (`next_of`, `cut_next`,
//! `begin_if_due`, `begin_snapshot`), and what is shown of a slot is `state_snap` (`look`). When E2 and E3 come, and that the
//! totals, and what was consumed of each stream, are the sums over all seats, the desk's too, is proved of `Opened::settle`,
//! which `Shared::settle` calls with the values out of their locks. So is it of `Opened::settle_with` that it answers that all
//! operators are lent if and only if they are all that the desk made, in that order.
//!
//! # What is only tested
//!
//! Contracts can't name a value under a lock: what a call did there shows in its caller's seats alone. Which locks a call
//! holds, and from when to when, can be read in its few lines of code, and is in no contract: an offer and a take hold one
//! stream's lock and no other; an operator holds the desk's, and then one stream's at most. Only tests show that a call that is
//! lent no `Operator` makes the `_by` call with one of its own, and that no call adds refusals. That a wait ends isn't claimed.
//! So these bodies meet the contracts:
//!
//! - an offer that is always `Misplaced`, and a take that is always refused: when a take has `Nothing`, and that nothing is
//!   `Misplaced`, isn't promised;
//! - if no operator is lent: a start, a stop, a schedule, a clear or a step of a rotation that only answers, and a start at
//!   another moment;
//! - any call that does something more at the desk in another operator's name, or takes in another drainer's, if these aren't
//!   lent to settling; a `settle_with` that says that not all operators are lent where `Opened::settle_with`, which it calls,
//!   answered that they are;
//! - a `rotate_next_by` that answers `AllCut` without looking, or is always refused as `NotPending`, and so a `rotate_by` that
//!   begins and is refused then; a `tick_by` or a `clear_by` that is always refused by one of its codes;
//! - a drainer, a `build` or a snapshot that is always refused, or a call with an operator that is refused for a stream that
//!   isn't in its place or out of memory;
//! - a tick that is always idle: when a local session's rotates, and why, isn't promised, nor how many streams a rotation cuts
//!   itself, since another operator may have cut some of them;
//! - a snapshot that shows of other streams than its producer's no packets, or others' ids and payloads, or whose moment is
//!   much later than the one given, or isn't stored if no operator is lent;
//! - a `hold_stream` that holds nothing, another stream, or the desk too;
//! - a `settle` that is always refused by E2 or E3 once all producers are there, and gives the streams back in any order;
//! - a `build` or a `settle` that does something more at the desk or to the slots, as to set a schedule or to stop the session.
//!
//! Tests (tr_shared_tests) show for these: a session's offers, and what is refused, from start to stop; that a start and a stop
//! which are refused switch no stream; the records of a ring after settling; the most drainers, and one more; a session that
//! isn't settled without a producer and without a drainer, and is then; watchers beside offers, beside a held lock, and after
//! settling; four producers' threads, two drainers' and two operators', in both modes, settled with what the threads counted,
//! each archive once and each file's gaps just the overwritten packets; rotations and ticks with the answers of the same
//! script; and snapshots of three streams, packet by packet, with a producer and without one, whose open packets end at the
//! moment that is stored, or at their stream's last if that is later.
//!
//! Threads that meet at one session (`contention`): two operators rotate 100 times each, and each archive is there once; two
//! cut each rotation's streams, once each; while the last stream is held, a start and a stop aren't answered; while stream 0 is
//! held, 100 offers and takes of stream 1 are. Nothing but these tests shows that a hold of a stream leaves the other streams
//! and the desk free, and that a start and a stop hold the desk until the last stream is switched. No test can show that a
//! snapshot holds the desk until all streams are shown, that a tick asks and begins under one hold, or that a whole rotation
//! lets it go between its steps: one that waits looks like one that isn't there yet.
#![tactic(auto)]

mod clearing;
mod faults;
mod laws;
mod looking;
mod operating;
mod pooled;
mod rotating;
mod seats;
mod settling;
mod shared;
mod snapshots;
mod stocking;
mod switching;

pub use faults::SettleFault;
pub use laws::{every_feed, every_rotation};
pub use seats::{Offers, Takes};
pub use shared::Shared;
// What a shared session is made of, and what a program that records names.
pub use tr_events::Events;
pub use tr_schedule::{Cause, Schedule, ScheduleFault};
pub use tr_seats::{
    Desk, Drainer, MOST_DRAINERS, Names, Operator, Plan, Producer, SettleError, Settled, Slot,
    Totals, plan, plan_watched,
};
pub use tr_session::{ChannelConfig, Config, Next, StepFault, Ticked};
pub use tr_session_book::{Archive, Pending, SessionFault, State};
pub use tr_stream::{OfferFault, Offered, TakeFault, Taken};
pub use tr_tally::{Note, Watcher};
pub use tr_terms::{Geometry, GeometryFault, Mode, Moment, Name, OffsetMinutes, SessionMode};
