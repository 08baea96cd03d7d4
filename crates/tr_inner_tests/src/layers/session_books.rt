use super::assert_same;
use std::alloc::Global;
use std::process::Abort;
use tr_schedule::Schedule;
use tr_session_book::{Archive, SessionBook, SessionFault};
use tr_terms::{Mode, Moment, Name, OffsetMinutes, SessionMode};
use tr_testing::moment;
use uuid::Uuid;

/// A book of this mode with one channel, whose rings are of a mode too, and one thread.
fn book(
    rt: &impl Abort,
    alloc: Global,
    mode: SessionMode,
    offset: i32,
    rings: Mode,
) -> SessionBook {
    let offset = OffsetMinutes::new(offset).expect(rt, "an offset");
    let mut book = SessionBook::new(alloc, Uuid::nil(), offset, mode);
    let name = Name::new("c").expect(rt, "a name");
    book.add_channel(&name, 256, 2, rings)
        .expect(rt, "a channel");
    assert_same(rt, book.add_thread("c"), Ok(0));
    book
}

/// Starts a book at this moment.
fn start(rt: &impl Abort, book: &mut SessionBook, at: u64) {
    book.start(moment(at)).expect(rt, "a start");
}

/// Asserts whether a stream can be seen, or why not.
fn assert_seen(rt: &impl Abort, book: &SessionBook, i: u64, want: Result<(), SessionFault>) {
    assert_same(rt, (i, book.can_snap(i)), (i, want));
}

/// Asserts the moment of a snapshot that begins at this one.
fn assert_begun(
    rt: &impl Abort,
    book: &mut SessionBook,
    at: u64,
    want: Result<Moment, SessionFault>,
) {
    let answer = book.snapshot_begin(moment(at));
    assert_same(rt, (at, answer), (at, want));
}

// the first reason against a snap counts: no such stream, then the mode, then no start
#[test]
fn a_book_alone_notes_snapshots(rt: HostRuntime) {
    let mut book = book(&rt, rt.alloc(), SessionMode::Snapshot, 0, Mode::Overwrite);
    assert_seen(&rt, &book, 1, Err(SessionFault::NoStream));
    assert_seen(&rt, &book, 0, Err(SessionFault::NeverStarted));
    assert_begun(&rt, &mut book, 5, Err(SessionFault::NeverStarted));
    start(&rt, &mut book, 7);
    assert_seen(&rt, &book, 0, Ok(()));
    assert_same(&rt, book.snapshot_moment(moment(10)), Ok(moment(10)));
    assert_begun(&rt, &mut book, 3, Ok(moment(7)));
    assert_begun(&rt, &mut book, 10, Ok(moment(10)));
    assert_same(&rt, book.last().get(), 10);
    drop(book);
}

/// Asserts whether a book's streams can be cleared, or why not.
fn assert_clearable(rt: &impl Abort, book: &SessionBook, want: Result<(), SessionFault>) {
    assert_same(rt, book.clear_allowed(), want);
}

// the mode goes before the start
#[test]
fn a_book_alone_allows_clears(rt: HostRuntime) {
    let mut shown = book(&rt, rt.alloc(), SessionMode::Snapshot, 0, Mode::Overwrite);
    assert_clearable(&rt, &shown, Err(SessionFault::SnapshotMode));
    start(&rt, &mut shown, 1);
    assert_clearable(&rt, &shown, Err(SessionFault::SnapshotMode));
    drop(shown);
    let mut book = book(&rt, rt.alloc(), SessionMode::Local, 0, Mode::Discard);
    assert_clearable(&rt, &book, Err(SessionFault::NeverStarted));
    start(&rt, &mut book, 1);
    assert_clearable(&rt, &book, Ok(()));
    begin_rotation(&rt, &mut book, 2);
    assert_clearable(&rt, &book, Err(SessionFault::RotationPending));
    drop(book);
}

/// Asserts which schedule is in force.
fn assert_in_force(rt: &impl Abort, book: &SessionBook, want: Option<Schedule>) {
    assert_same(rt, book.schedule_in_force(), want);
}

/// Begins the first rotation.
fn begin_rotation(rt: &impl Abort, book: &mut SessionBook, at: u64) {
    assert_same(rt, book.rotate_begin(moment(at)), Ok(0));
}

#[test]
fn a_book_alone_keeps_a_schedule(rt: HostRuntime) {
    let mut book = book(&rt, rt.alloc(), SessionMode::Local, 0, Mode::Overwrite);
    assert_seen(&rt, &book, 0, Err(SessionFault::NotSnapshotMode));
    let early = book.snapshot_moment(moment(5));
    assert_same(&rt, early, Err(SessionFault::NotSnapshotMode));
    let schedule = Schedule::new(Some(100), None).expect(&rt, "a schedule");
    book.set_schedule(Some(schedule)).expect(&rt, "a schedule");
    assert_same(&rt, book.schedule(), Some(schedule));
    assert_in_force(&rt, &book, None);
    start(&rt, &mut book, 0);
    assert_in_force(&rt, &book, Some(schedule));
    begin_rotation(&rt, &mut book, 1);
    assert_in_force(&rt, &book, None);
    drop(book);
}

/// Asserts the answer to the note of the first stream's cut.
fn assert_noted(rt: &impl Abort, book: &mut SessionBook, want: Result<(), SessionFault>) {
    assert_same(rt, book.note_cut(0), want);
}

#[test]
fn a_book_alone_notes_a_rotation(rt: HostRuntime) {
    let mut book = book(&rt, rt.alloc(), SessionMode::Local, 60, Mode::Discard);
    start(&rt, &mut book, 1);
    begin_rotation(&rt, &mut book, 2);
    assert_noted(&rt, &mut book, Ok(()));
    assert_noted(&rt, &mut book, Err(SessionFault::NotPending));
    let archive = Archive {
        id: 0,
        begin: moment(1),
        end: moment(2),
    };
    assert_same(&rt, book.rotate_finish(), Ok(archive));
    drop(book);
}
