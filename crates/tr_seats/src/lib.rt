//! A session apart, as its locks guard it: streams with their ledgers, the producers and drainers that share these, the
//! operators at its desk, and the settling of all seats. Nothing here waits: each call is lent the values that it changes.
//!
//! The desk has the session's book, and a slot for each stream has the stream and its seven ledgers. A producer has the whole
//! seats of the offers to its stream, and a drainer a seat of what is consumed of each.
//!
//! # Example
//!
//! ```
//! let (mut opened, producers) = plan(alloc, &config)?.build::<N>()?;
//! let offered = slot.offer(&mut producer, moment, id, payload)?;  // moves the stream and the producer's seats
//! ```
//!
//! # What is proved
//!
//! - Whenever a slot is at rest, its stream is sound and is the one that was planned for its number, none of its parts was
//!   released, and the totals of its seven ledgers are what the stream counts. This is shown of four of them with the producer
//!   at hand, of the consumed and the cleared records of each stream once the session is settled, and of the cuts with the
//!   desk at hand
//!   (`Slot::stream`: `value`, `planned`, `held`; `shows_planned`: `kept`, `consistent`, `planned`; `Slot`: invariant
//!   (`AreBooksOf`, `IsPlanned`); `Slot::audit`: `own`; `Desk::audit`: `operator`; `Opened::settle`: `taken`, `cleared`).
//! - For any history that a stream represents, a call on its slot or the desk answers what the history's step answers, and
//!   the stream then represents the next history. If an allocation fails, nothing changed
//!   (`every_step`: `offer`, `take`, `cut`, `clear`, `switch`, `look`).
//! - An offer answers and steps as the stream's does, and moves its producer's seats by what was answered; its serial is what
//!   the producer had offered. Only a payload that fits no sub-buffer is too big, and a stream is spent only if its producer
//!   has offered 2^62 records
//!   (`Slot::offer`: `value`, `seats` (`producer_after`), `serial`, `too_big`, `spent`).
//! - An offer is noted in the stream's journal with its answer, refused ones too, and is the last of its producer's list. The
//!   stream represents a history of calls, each answered as in that history, among which the offers are just that list; it
//!   holds the accepted ones, each at its serial, and nothing else (`IsAccountOf`)
//!   (`Slot::offer`: `seats`; `audit`: `accounts`, `same`).
//! - A take answers and steps as the stream's does, adds the number of records taken, at least one, to the drainer's seat of
//!   that stream, and is the last of the drainer's list
//!   (`Slot::take`: `value`, `no_memory`, `memory`, `seats` (`drainer_after`), `some`).
//! - A look and a switch are the stream's, also a look at what was copied ahead, and so are its counts (`Slot::peek`: `value`,
//!   `memory`; `peek_out`: `value`, `same`, `memory`; `set_active`: `value`, `after`; `counts`: `value`, `total`, `consumed`,
//!   `withdrawn`, `snapshot_session`).
//! - Pages in reserve, what is copied ahead, and what is taken away of a clear change nothing that a slot shows
//!   (`Slot::keep_spares`, `begin_copies`, `copy_more`, `take_removed`).
//! - A new seat is empty, and counted, up to `MOST_DRAINERS`. A drainer, counted when it is begun, gets one of each stream
//!   (`Slot::split`: `answer`, `after`; `Desk::begin_drainer`: `value`, `no_memory`, `memory`; `DrainerBegun::with`: `ok`,
//!   `refused`, `slot`; `finish`).
//! - A producer publishes what it offered, never more, and its note has what it published last (`Producer::publish`; `note`:
//!   `note`, `producer`; `audit`: `same`, `within`; `Producer`: invariant (`IsTellerOf`)).
//! - A step at the desk is noted with its answer, and is the last of its operator's list. The session's book is what all noted
//!   steps lead to from the one that was planned, each answered there as the book answers it, or a cut or a clear that it lets
//!   through as the stream does, if no allocation failed (`IsOperatorOf`). A stream is switched to what the book is
//!   (`Desk::start_by`, `stop_by`, `set_schedule_by`, `snapshot_begin_by`, `rotate_begin_by`, `rotate_finish_by`, `cut_by`,
//!   `clear_by`: `steps`; `switch_by`: `answer`, `slot`, `same`, `steps`; `audit_operators`: `own`, `same`; `every_operator`:
//!   `book`; `NotedBook`: invariant (`IsDeskJournal`)).
//! - Operators are numbered from 1 on, as they are made; a call that is lent none makes one. Of a list of operators each one's
//!   steps are all that the desk has of its number. These are answered to be all operators if and only if they are all that were
//!   made, in that order; then each step at the desk is one of theirs, and none is missing (`Desk::operator`: `new`, `after`;
//!   `Desk::audit_operators`, `Opened::audit_operators`: `lent` (`AreAllOperators`), `own` (`AreOperatorsOf`), `same`;
//!   `Opened::settle_with`: `lent`, `same`, `histories` (`HaveDone.own`, `HaveDone.none_missing`)).
//! - What is done to a stream at the desk is noted in the stream's journal too. So all that was done to it but offers and takes
//!   is what the desk's steps did: its switches, its clears, and its cuts, each at the end of its rotation (`HasOperated`)
//!   (`Opened::audit_operators`: `streams` (`HaveOperated`), `own`, `same`; `every_operator`: `book`, `operated`, `streams`).
//! - The desk's other calls are the book's, and count an operator more. No rotation of a snapshot session ends (`Desk::start`,
//!   `stop`, `set_schedule`, `snapshot_begin`: `answer`, `after`; `rotate_finish`: `answer`, `after`, `mode`; `rotate_begin`:
//!   `value`, `no_memory`, `memory`).
//! - A cut is the session's rule on its desk and one slot: at the pending rotation's end, in order of stream. What it moves
//!   goes to the desk's seats. Each stream has as many closed chunks as there are archives, and one more if the pending
//!   rotation has cut it
//!   (`Desk::cut`: `value` (`slot_after_cut`), `no_memory`, `memory`, `seats` (`desk_after_cut`); `audit`: `operator`, `same`;
//!   `every_cut`: `answer`, `after`; `Desk`: invariant (`IsDesk.operator`)).
//! - A clear is the session's rule on its desk and one slot, if the desk's book allows it, and adds the records that it
//!   removed to the desk's count of cleared ones
//!   (`Desk::clear`: `value` (`slot_after_clear`), `no_memory`, `memory`, `seats` (`desk_after_clear`), `mode`;
//!   `clear_allowed`; `every_clear`: `answer`, `after`).
//! - A call for another stream than the slot's is refused as `Misplaced`; no call but `Slot::audit` assumes that it isn't
//!   (`Slot::offer`, `take`: `value`; `Desk::cut`, `clear`: `value`; `switch_by`: `answer`).
//! - A plan is refused as a session's channels and threads are. What is built of it has one producer for each stream, in
//!   order, with nothing offered
//!   (`plan`: `session`, `books`, `refused`, `unwatched`; `plan_watched`: `session`, `books`, `refused`, `watched`;
//!   `Plan::build`: `opened`, `producers`, `memory`; `build_watched`: `opened`, `producers`, `watchers`, `memory`;
//!   `Desk::book`: `value`, `planned` (`IsPlan.overwriting`)).
//! - A session is settled if and only if there is one producer for each stream, every drainer that was begun, each stream in
//!   its place, and no stream gave a seat to another number of drainers. Otherwise all comes back as it was, with the first
//!   of these that is missing. It takes no memory
//!   (`Opened::settle`: `may` (`CanSettle`), `why` (`IsWhy`), `back`).
//! - A session is parted into its desk and slots, and made of them; a producer and a slot know their stream's number
//!   (`Opened::from_parts`; `into_parts`: `value`, `slots`, `room`; `Producer::stream`, `Slot::number`: `number`, `there`).
//! - What is settled is a session again, the one that was planned. Each producer's numbers are those of its own stream, and its
//!   offers what that stream has. The packets that a drainer took are takes of a history that the stream represents, and each is
//!   kept in the chunk that was answered or was cleared since. One history of each stream has the offers of its producer, the
//!   takes of all drainers and what the desk did to it, and nothing else: each take is one drainer's, and none is missing. What
//!   was consumed of a stream is what the desk's and the drainers' seats of it have, and what was cleared of it what another
//!   seat of the desk has. The totals are the sums over its streams, and the sums over all seats. What was offered is discarded,
//!   overwritten, cleared, in a ring or in a part, and what was consumed is in a part or was cleared since (`Opened::settle`,
//!   `settle_with`: `session`, `planned`, `own` (`AreTheirs`), `accounts` (`AreAccountsOf`), `packets` (`ArePacketsOf`),
//!   `histories` (`HaveOneHistory`), `taken` (`HaveConsumed`), `cleared`, `totals`, `seats`, `places` (`AddUp`), `consumed`
//!   (`WereConsumed`), `snapshot_session`).
//!
//! No call has to refuse a slot and a seat of two plans: both have the plan as a parameter of their type (`Names`), so a seat
//! of another session isn't accepted.
//!
//! # What is only tested
//!
//! That a call at the desk notes nothing in another operator's name, if that leaves the book as the call's clause says. Tests
//! add the answers and the producer's numbers of a ring that fills, in both modes; a take, and what is `Misplaced`; a session
//! that isn't settled without a producer, without a drainer, and with its streams in each other's place, and is settled after
//! that, with its totals; a rotation of two streams at the desk, what is refused on its way, and the settling of what it moved.
#![tactic(auto)]

mod account;
mod both;
mod clearing;
mod desk;
mod drainer;
mod histories;
mod laws;
mod making;
mod names;
mod naming;
mod noted_book;
mod opened;
mod operating;
mod operator;
mod pages;
mod planned;
mod producer;
mod settled;
mod settling;
mod slot;
mod totals;

pub use desk::Desk;
pub use drainer::{Drainer, DrainerBegun};
pub use laws::{every_clear, every_cut, every_operator, every_step};
pub use making::{plan, plan_watched};
pub use names::Names;
pub use opened::{Opened, Unsettled};
pub use operator::Operator;
pub use planned::Plan;
pub use producer::Producer;
pub use settled::Settled;
pub use settling::SettleError;
pub use slot::Slot;
pub use totals::Totals;
pub use tr_terms::limits::MOST_DRAINERS;
