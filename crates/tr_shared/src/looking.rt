//! What is shown of a stream that lies in its slot.

ghost use Rattle.std.specs.Prelude.{◌≡◌, ◌≢◌, ◌≤◌, ◌⊎◌, ◌↔◌, Err, IfErr, IfOk, OnOk};
ghost use Rattle.tr_operations.specs.declared.step.DeskStep.TheVariants as step;
ghost use Rattle.tr_seats.specs.Books.{IsPlan};
ghost use Rattle.tr_seats.specs.Operators.{with_step};
ghost use Rattle.tr_session_book.specs.BookSteps.{book_after_snapshot_begin, book_snapshot_begin_answer};
ghost use Rattle.tr_shared.specs.Operating.{IsLookFault};
ghost use Rattle.tr_shared.specs.Shown.{IsLookAt, IsShown, IsShownFrom, IsShownWith};
ghost use Rattle.tr_ring.specs.Ring.{ring_records};
ghost use Rattle.tr_snapshot.specs.Snapshots.{entries_shown};
ghost use Rattle.tr_stream.specs.StateSteps.{state_snap};

use std::alloc::Allocator;
use tr_book::StreamSnap;
use tr_seats::{Desk, Names, Operator, Producer, Slot};
use tr_session_book::SessionFault;
use tr_terms::{Moment, SessionMode};

/// Begins a snapshot at a desk, in an operator's name: answers with the moment that is stored.
pub(crate) fn begin_snapshot<N: Names, A: Allocator>(
    desk: &mut Desk<N, A>,
    operator: &mut Operator<N>,
    moment: Moment,
) -> Result<Moment, SessionFault>
    ensures answer { result ≡ book_snapshot_begin_answer moment desk.old.book }
    ensures after { desk.new ≡ record desk.old { book = book_after_snapshot_begin moment desk.old.book } }
    ensures later { IfOk result (λ stored. moment ≤ stored) }
    ensures planned { OnOk result (IsPlan N.plan × (N.plan.session.book.mode ≡ SessionMode.Snapshot)) }
    ensures mode { (result ≡ Err SessionFault.NotSnapshotMode) ↔ (N.plan.session.book.mode ≡ SessionMode.Local) }
    ensures refused { IfErr result
        (λ fault. (fault ≡ SessionFault.NotSnapshotMode) ⊎ (fault ≡ SessionFault.NeverStarted)) }
    ensures steps { operator.new ≡ with_step (step.SnapshotBegin moment result) operator.old }
{
    desk.shows_plan();
    desk.snapshot_begin_by(operator, moment)
}

/// What a snapshot shows at a moment of the stream in a slot, which is to be that of number `i`.
///
/// # Errors
///
/// `Misplaced` if another stream is in the slot, `NoMemory`.
pub(crate) fn look<N: Names, A: Allocator + Copy>(
    slot: &mut Slot<N, A>,
    i: usize,
    moment: Moment,
) -> Result<StreamSnap<A>, SessionFault>
    requires plan { IsPlan N.plan }
    requires mode { N.plan.session.book.mode ≡ SessionMode.Snapshot }
    ensures same { slot.new ≡ slot.old }
    ensures here { OnOk result (i ≡ slot.old.number) }
    ensures value { IfOk result (λ snap. snap ≡ state_snap moment slot.old.stream) }
    ensures number { IfOk result (λ snap. snap.stream ≡ i) }
    ensures from { IfOk result (IsShownFrom slot.old.stream.counters.overwritten) }
    ensures records { IfOk result (λ snap. entries_shown snap ≡ ring_records slot.old.stream.ring) }
    ensures look { IfOk result (IsLookAt N.plan i moment slot.old.stream) }
    ensures misplaced { i ≢ slot.old.number → result ≡ Err SessionFault.Misplaced }
    ensures refused { IfErr result IsLookFault }
{
    if slot.number() != i {
        return Err(SessionFault::Misplaced);
    }
    slot.shows_planned();
    Ok(slot.peek_out(moment)?)
}

/// The same of the stream of a producer, which shows just what the producer offered and wasn't overwritten, as it was offered.
///
/// # Errors
///
/// Those of `look`.
pub(crate) fn look_with<N: Names, A: Allocator + Copy>(
    slot: &mut Slot<N, A>,
    producer: &mut Producer<N, A>,
    moment: Moment,
) -> Result<StreamSnap<A>, SessionFault>
    requires plan { IsPlan N.plan }
    requires mode { N.plan.session.book.mode ≡ SessionMode.Snapshot }
    ensures same { (slot.new ≡ slot.old) × (producer.new ≡ producer.old) }
    ensures shown { IfOk result (IsShown N.plan moment producer.old.number) }
    ensures own { IfOk result (IsShownWith N.plan moment producer.old) }
    ensures refused { IfErr result IsLookFault }
{
    let snap = look(slot, producer.stream(), moment)?;
    slot.audit(producer);
    Ok(snap)
}
