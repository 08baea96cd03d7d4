//! What operators do at a desk, in the order of a session's own rotation.

ghost use Rattle.std.specs.Prelude.{◌≡◌, ◌≢◌, ◌<◌, true, Ok, Err, Some, IfErr, IfOk, IfSome, is_some, length};
ghost use Rattle.tr_seats.specs.Cuts.{desk_after_cut, desk_cut_answer, slot_after_cut};
ghost use Rattle.tr_session_book.specs.BookSteps.{due_now};
ghost use Rattle.tr_shared.specs.Operating.{IsNextFault, as_next, desk_if_due, next_stream};
ghost use Rattle.tr_shared.specs.Operators.{IsDueOf, IsNextOf};

use std::alloc::Allocator;
use tr_schedule::Cause;
use tr_seats::{Desk, Names, Operator, Slot};
use tr_session::{Next, StepFault};
use tr_session_book::SessionFault;
use tr_terms::{Moment, SessionMode};

/// The stream that the pending rotation cuts next; none if it has cut every stream.
///
/// # Errors
///
/// `NotPending`.
pub(crate) fn next_of<N: Names, A: Allocator>(
    desk: &Desk<N, A>,
) -> Result<Option<usize>, SessionFault>
    ensures value { result ≡ next_stream desk.now.book }
    ensures there { IfOk result (λ next. IfSome next (λ i. i < length N.plan.books)) }
    ensures mode { N.plan.session.book.mode ≡ SessionMode.Snapshot → result ≡ Err SessionFault.NotPending }
    ensures refused { IfErr result (λ fault. fault ≡ SessionFault.NotPending) }
{
    let book = desk.book();
    let Some(pending) = book.pending() else {
        return Err(SessionFault::NotPending);
    };
    if pending.cut >= book.streams() as u64 {
        return Ok(None);
    }
    Ok(Some(pending.cut as usize))
}

/// Cuts the stream in a slot, which is to be that of number `i` and the pending rotation's next, in an operator's name.
///
/// # Errors
///
/// `Misplaced` if another stream is in the slot, `NoMemory`: nothing changed.
pub(crate) fn cut_next<N: Names, A: Allocator + Copy>(
    desk: &mut Desk<N, A>,
    operator: &mut Operator<N>,
    slot: &mut Slot<N, A>,
    i: usize,
) -> Result<Next, SessionFault>
    requires { next_stream desk.old.book ≡ Ok (Some i) }
    ensures value { result ≢ Err SessionFault.NoMemory →
        (result ≡ as_next i (desk_cut_answer i desk.old slot.old)) × (slot.new ≡ slot_after_cut i desk.old slot.old)
        × (desk.new ≡ desk_after_cut (desk_cut_answer i desk.old slot.old) i desk.old) }
    ensures no_memory { result ≡ Err SessionFault.NoMemory → (slot.new ≡ slot.old) × (desk.new ≡ desk.old) }
    ensures refused { IfErr result IsNextFault }
    ensures steps { IsNextOf operator.old result operator.new }
{
    match desk.cut_by(operator, slot, i) {
        Ok(done) => Ok(Next::Cut {
            stream: i as u64,
            records: done.records,
        }),
        Err(StepFault::Session(fault)) => Err(fault),
        Err(_) => Err(SessionFault::NoMemory),
    }
}

/// Begins a rotation if the schedule in force says that one is due for streams of these sizes, in an operator's name.
///
/// # Errors
///
/// `NoMemory`: nothing changed.
pub(crate) fn begin_if_due<N: Names, A: Allocator + Copy>(
    desk: &mut Desk<N, A>,
    operator: &mut Operator<N>,
    now: Moment,
    sizes: &[u64],
) -> Result<Option<Cause>, SessionFault>
    ensures value { result ≢ Err SessionFault.NoMemory →
        (result ≡ Ok (due_now now sizes.now desk.old.book))
        × (desk.new ≡ desk_if_due (due_now now sizes.now desk.old.book) now desk.old) }
    ensures no_memory { result ≡ Err SessionFault.NoMemory → desk.new ≡ desk.old }
    ensures memory { result ≡ Err SessionFault.NoMemory → is_some (due_now now sizes.now desk.old.book) ≡ true }
    ensures refused { IfErr result (λ fault. fault ≡ SessionFault.NoMemory) }
    ensures steps { IsDueOf now operator.old result operator.new }
{
    let Some(schedule) = desk.book().schedule_in_force() else {
        return Ok(None);
    };
    let Some(cause) = schedule.due(desk.book().begin(), now, sizes) else {
        return Ok(None);
    };
    match desk.rotate_begin_by(operator, now) {
        Ok(_) => Ok(Some(cause)),
        Err(fault) => Err(fault),
    }
}
