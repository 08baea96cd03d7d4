//! A run of the program, over any input, output, disk, folders and texts.

ghost use Rattle.std.specs.Prelude.{◌≡◌, ◌⊎◌, Err, OnOk, OnErr, IfErr, IfOk, map, option_and_then, option_map};
ghost use Rattle.std.specs.IoError.{error_kind};
ghost use Rattle.std.specs.Result.{result_ok};
ghost use Rattle.std.specs.Vec.Iter.{into_iter_items};
ghost use Rattle.tr_chunk.specs.Files.{sunk_of};
ghost use Rattle.tr_export.specs.Failures.{FailedByWrite, HasFailed, HasNotFailed};
ghost use Rattle.tr_export.specs.Making.{MadePrefix, and_then_made};
ghost use Rattle.tr_command.specs.Invocation.{job_asked, words_of};
ghost use Rattle.tr_load.specs.Telling.{disk_of};
ghost use Rattle.tr_program.specs.Endings.{ending_of_arguments, status_of};
ghost use Rattle.tr_program.specs.Exports.{all_made};
ghost use Rattle.tr_program.specs.Runs.{Declares, EndsAs, EndsSo, EndsUndeclared, LacksDeclarations, EndsTold, FailedNowhere, HasAudited, HasCause, HasDescribed, HasEnded, HasFault, HasNoFault, HasPictured, HasRecovered, IsTold, folders_of, host_of, outside_of, texts_state, wanted_by};
ghost use Rattle.tr_record.specs.Bytes.{once_more};

use crate::ending::Ending;
use std::alloc::Global;
use std::env::Args;
use std::io;
use std::sync::Wait;
use std::thread::Threads;
use std::time::Clock;
use tr_command::{Job, collected, job_of, with_program, words_after};
use tr_console::{Console, run_script_with};
use tr_describe::{Declarations, DescribeFault, Texts, declarations_told, describe_by};
use tr_events::Events;
use tr_export::{Disk, ExportFault, write_archives};
use tr_folders::Folders;
use tr_load::{Loaded, Progress, load, tell_load};
use tr_picture::picture;
use tr_record::{ByteSink, ByteSource, put_all};
use tr_recover::recover;
use tr_survey::survey;
use uuid::Uuid;

/// Writes the archives of every session below a folder, in order of creation.
fn write_all<D: Disk>(
    alloc: Global,
    disk: &mut D,
    dir: &str,
    console: &Console,
) -> Result<(), ExportFault>
    ensures ok { OnOk result (D.made disk.new ≡ and_then_made (D.made disk.old) (all_made dir.now console.now)) }
    ensures err { OnErr result (MadePrefix (D.made disk.old) (D.made disk.new) (all_made dir.now console.now)) }
    ensures failures { FailedByWrite (D.failures disk.old) (D.failures disk.new) result }
{
    'sessions: for k in 0..console.sessions() {
        let Some((name, session)) = console.session(k) else {
            unreachable!()
        };
        write_archives(alloc, disk, dir, &name, session)?;
    }
    Ok(())
}

/// What a file declares, if one is named, with a line to the output if a line of it is refused; or how the run ends without
/// it.
fn declared<F: Folders, K: ByteSink>(
    alloc: Global,
    folders: &mut F,
    out: &mut K,
    file: Option<&str>,
) -> Result<Events, Ending>
    ensures declares { IfOk result (λ events. Declares (option_map (λ f. f.now) file.entry) events (F.tree folders.old)
        × (K.taken out.new ≡ K.taken out.old)) }
    ensures ends { IfErr result (λ ending. EndsUndeclared (option_map (λ f. f.now) file.entry) (F.tree folders.old) (K.taken out.old)
        (K.taken out.new) ending) }
    ensures fault { result ≡ Err Ending.ReadOrWrite → (K.failures out.new ≡ once_more (K.failures out.old))
        ⊎ LacksDeclarations (option_map (λ f. f.now) file.entry) (folders_of F.Folders folders.old) (folders_of F.Folders folders.new) }
    ensures no_fault { (result ≡ Err Ending.ReadOrWrite → ⊥)
        → (K.failures out.new ≡ K.failures out.old) × (F.failures folders.new ≡ F.failures folders.old) }
{
    let Some(file) = file else {
        return Ok(Events::none(alloc));
    };
    match declarations_told(alloc, folders, out, file) {
        Ok(Declarations::Declared(events)) => Ok(events),
        Ok(Declarations::Refused(_)) => Err(Ending::Refused),
        Ok(Declarations::Unreadable) => Err(Ending::ReadOrWrite),
        Err(DescribeFault::TooMuch | DescribeFault::Write) => Err(Ending::ReadOrWrite),
        Err(DescribeFault::NoMemory) => Err(Ending::NoMemory),
    }
}

/// Runs a script, whose sessions are created with these events, and writes its archives if it came to its end.
fn end_script<S: ByteSource, K: ByteSink, D: Disk>(
    alloc: Global,
    input: &mut S,
    out: &mut K,
    disk: &mut D,
    events: Events,
    dir: Option<&str>,
) -> Ending
    ensures ends { EndsAs (host_of S.ByteSource K.ByteSink D.Disk input.old out.old disk.old)
        (host_of S.ByteSource K.ByteSink D.Disk input.new out.new disk.new) events (option_map (λ d. d.now) dir.entry)
        result }
    ensures fault { result ≡ Ending.ReadOrWrite
        → HasCause (host_of S.ByteSource K.ByteSink D.Disk input.old out.old disk.old)
        (host_of S.ByteSource K.ByteSink D.Disk input.new out.new disk.new) }
    ensures no_fault { (result ≡ Ending.ReadOrWrite → ⊥)
        → HasNoFault (host_of S.ByteSource K.ByteSink D.Disk input.old out.old disk.old)
        (host_of S.ByteSource K.ByteSink D.Disk input.new out.new disk.new) }
{
    let done = match run_script_with(alloc, alloc, events, input, out) {
        Ok(done) => done,
        Err(fault) => return Ending::of_script(fault),
    };
    if let Some(dir) = dir {
        if let Err(fault) = write_all(alloc, disk, dir, &done.console) {
            return Ending::of_export(fault);
        }
    }
    Ending::of_refused(done.refused)
}

/// Says what a load of `threads` threads came to, and writes its archives.
fn end_load<K: ByteSink, D: Disk>(
    alloc: Global,
    out: &mut K,
    disk: &mut D,
    dir: Option<&str>,
    threads: u64,
    loaded: &Loaded,
) -> Ending
    ensures ends { EndsTold (option_map (λ d. d.now) dir.entry) threads loaded.now.settled loaded.now.outcome loaded.now.watched
        (sunk_of K.ByteSink out.old) (sunk_of K.ByteSink out.new) (disk_of D.Disk disk.old) (disk_of D.Disk disk.new)
        result }
    ensures fault { result ≡ Ending.ReadOrWrite
        → (K.ByteSink.failures out.new ≡ once_more (K.ByteSink.failures out.old))
        ⊎ HasFailed (D.Disk.failures disk.old) (D.Disk.failures disk.new) }
    ensures no_fault { (result ≡ Ending.ReadOrWrite → ⊥)
        → (K.ByteSink.failures out.new ≡ K.ByteSink.failures out.old)
        × HasNotFailed (D.Disk.failures disk.old) (D.Disk.failures disk.new) }
{
    match tell_load(alloc, out, disk, dir, threads, loaded) {
        Ok(()) => Ending::of_outcome(&loaded.outcome),
        Err(fault) => Ending::of_export(fault),
    }
}

/// Audits the archives below a folder.
fn end_audit<K: ByteSink, F: Folders>(
    alloc: Global,
    out: &mut K,
    folders: &mut F,
    dir: &str,
    archives: bool,
) -> Ending
    ensures { HasAudited dir.now archives (folders_of F.Folders folders.old) (folders_of F.Folders folders.new)
        (sunk_of K.ByteSink out.old) (sunk_of K.ByteSink out.new) result }
{
    Ending::of_survey(survey(alloc, folders, out, dir, archives))
}

/// Gives the archives below a folder the metadata of the events that a file declares.
fn end_describe<K: ByteSink, F: Folders, T: Texts>(
    alloc: Global,
    out: &mut K,
    folders: &mut F,
    texts: &mut T,
    file: &str,
    dir: &str,
) -> Ending
    ensures { HasDescribed file.now dir.now (folders_of F.Folders folders.old) (folders_of F.Folders folders.new)
        (texts_state T.Texts texts.old) (texts_state T.Texts texts.new) (sunk_of K.ByteSink out.old) (sunk_of K.ByteSink out.new) result }
{
    Ending::of_describe(describe_by(alloc, folders, texts, out, file, dir))
}

/// Draws what the archives below a folder hold and lack.
fn end_picture<K: ByteSink, F: Folders>(
    alloc: Global,
    out: &mut K,
    folders: &mut F,
    dir: &str,
) -> Ending
    ensures { HasPictured dir.now (folders_of F.Folders folders.old) (folders_of F.Folders folders.new)
        (sunk_of K.ByteSink out.old) (sunk_of K.ByteSink out.new) result }
{
    Ending::of_survey(picture(alloc, folders, out, dir))
}

/// The trace that is wanted, if one is named; or that what is named is no identifier.
fn wanted_by(uuid: Option<&str>) -> Option<Option<Uuid>>
    ensures { result ≡ wanted_by (option_map (λ u. u.now) uuid.entry) }
{
    let Some(text) = uuid else {
        return Some(None);
    };
    match Uuid::parse_str(text) {
        Ok(uuid) => Some(Some(uuid)),
        Err(_) => None,
    }
}

/// Writes what is in an image as an archive below a folder.
fn end_recover<K: ByteSink, D: Disk, F: Folders>(
    alloc: Global,
    out: &mut K,
    disk: &mut D,
    folders: &mut F,
    wanted: Option<&Uuid>,
    image: &str,
    dir: &str,
) -> Ending
    ensures { HasRecovered (option_map (λ u. u.now) wanted.entry) image.now dir.now (folders_of F.Folders folders.old)
        (folders_of F.Folders folders.new) (sunk_of K.ByteSink out.old) (sunk_of K.ByteSink out.new) (disk_of D.Disk disk.old)
        (disk_of D.Disk disk.new) result }
{
    Ending::of_recover(recover(alloc, folders, disk, out, wanted, image, dir))
}

/// Does what the words ask for.
fn end<
    R: Threads + Wait + Clock + Sync,
    S: ByteSource,
    K: ByteSink,
    D: Disk,
    F: Folders,
    T: Texts,
    P: Progress + Sync,
>(
    rt: &R,
    alloc: Global,
    words: &[&str],
    input: &mut S,
    out: &mut K,
    disk: &mut D,
    folders: &mut F,
    texts: &mut T,
    progress: &P,
) -> Ending
    ensures ends { EndsSo (outside_of S.ByteSource K.ByteSink D.Disk F.Folders T.Texts input.old out.old disk.old folders.old texts.old)
        (outside_of S.ByteSource K.ByteSink D.Disk F.Folders T.Texts input.new out.new disk.new folders.new texts.new)
        (job_asked (map (λ w. w.now) words.now)) result }
    ensures fault { result ≡ Ending.ReadOrWrite
        → HasFault (job_asked (map (λ w. w.now) words.now))
        (outside_of S.ByteSource K.ByteSink D.Disk F.Folders T.Texts input.old out.old disk.old folders.old texts.old)
        (outside_of S.ByteSource K.ByteSink D.Disk F.Folders T.Texts input.new out.new disk.new folders.new texts.new) }
    ensures no_session { result ≡ Ending.NoSession
        → HasFault (job_asked (map (λ w. w.now) words.now))
        (outside_of S.ByteSource K.ByteSink D.Disk F.Folders T.Texts input.old out.old disk.old folders.old texts.old)
        (outside_of S.ByteSource K.ByteSink D.Disk F.Folders T.Texts input.new out.new disk.new folders.new texts.new) }
    ensures no_fault { (result ≡ Ending.ReadOrWrite → ⊥)
        → FailedNowhere
        (outside_of S.ByteSource K.ByteSink D.Disk F.Folders T.Texts input.old out.old disk.old folders.old texts.old)
        (outside_of S.ByteSource K.ByteSink D.Disk F.Folders T.Texts input.new out.new disk.new folders.new texts.new) }
{
    let Ok(words) = with_program(alloc, words) else {
        return Ending::NoMemory;
    };
    match job_of(alloc, words.as_slice()) {
        Ok(Some(Job::Script { events, out: dir })) => match declared(alloc, folders, out, events) {
            Ok(events) => end_script(alloc, input, out, disk, events, dir),
            Err(ending) => ending,
        },
        Ok(
            Some(
                Job::Load {
                    threads,
                    records,
                    workers,
                    watch,
                    out: dir,
                },
            ),
        ) => match load(
            rt,
            alloc,
            threads as usize,
            records,
            workers as usize,
            watch,
            progress,
        ) {
            Ok(loaded) => end_load(alloc, out, disk, dir, threads, &loaded),
            Err(fault) => Ending::of_load(fault),
        },
        Ok(Some(Job::Audit { dir, archives })) => end_audit(alloc, out, folders, dir, archives),
        Ok(Some(Job::Describe { events, dir })) => {
            end_describe(alloc, out, folders, texts, events, dir)
        }
        Ok(Some(Job::Picture { dir })) => end_picture(alloc, out, folders, dir),
        Ok(Some(Job::Recover { uuid, image, dir })) => match wanted_by(uuid) {
            Some(wanted) => end_recover(alloc, out, disk, folders, wanted.as_ref(), image, dir),
            None => Ending::BadCommandLine,
        },
        Ok(None) => Ending::BadCommandLine,
        Err(_) => Ending::NoMemory,
    }
}

/// Writes why the run failed, if it did, to standard error, and answers the exit status.
fn tell<E: ByteSink>(ending: Ending, err: &mut E) -> u8
    ensures status { result ≡ status_of ending }
    ensures told { IsTold ending (sunk_of E.ByteSink err.old) (sunk_of E.ByteSink err.new) }
{
    if let Some(message) = ending.message() {
        // If this can't be written either, the status still says it.
        let _ = put_all(err, message.as_bytes());
    }
    ending.status()
}

/// Runs the program with the words after its name, and answers the exit status:
///
/// - 0: all was done;
/// - 1: a line was refused, or a line of declarations; a load's logs don't agree with its session, or one of its calls was
///   refused; an audit found something wrong; archives can't be described because of what is there;
/// - 2: a bad command line;
/// - 3: a fault of input, output, a folder or a file; a script that is too long; no session to audit or to describe; an image
///   without a packet of the trace;
/// - 4: a failed allocation, or a thread that can't be made.
///
/// From 2 on `err` gets one line. Archives are made only once the input was read to its end and answered whole, or a load was
/// reported whole; if one can't be made, those before it stay, and a prefix of its own folder and files.
///
/// Only a load starts threads and waits for them. If it is watched, it says by `progress` how far it is.
pub fn run<
    R: Threads + Wait + Clock + Sync,
    S: ByteSource,
    K: ByteSink,
    E: ByteSink,
    D: Disk,
    F: Folders,
    T: Texts,
    P: Progress + Sync,
>(
    rt: &R,
    alloc: Global,
    words: &[&str],
    input: &mut S,
    out: &mut K,
    err: &mut E,
    disk: &mut D,
    folders: &mut F,
    texts: &mut T,
    progress: &P,
) -> u8
    ensures ends { HasEnded (job_asked (map (λ w. w.now) words.now))
        (outside_of S.ByteSource K.ByteSink D.Disk F.Folders T.Texts input.old out.old disk.old folders.old texts.old)
        (outside_of S.ByteSource K.ByteSink D.Disk F.Folders T.Texts input.new out.new disk.new folders.new texts.new)
        (sunk_of E.ByteSink err.old) (sunk_of E.ByteSink err.new) result }
    ensures fault { result ≡ 3
        → HasFault (job_asked (map (λ w. w.now) words.now))
        (outside_of S.ByteSource K.ByteSink D.Disk F.Folders T.Texts input.old out.old disk.old folders.old texts.old)
        (outside_of S.ByteSource K.ByteSink D.Disk F.Folders T.Texts input.new out.new disk.new folders.new texts.new) }
    ensures no_fault { (result ≡ 3 → ⊥)
        → FailedNowhere
        (outside_of S.ByteSource K.ByteSink D.Disk F.Folders T.Texts input.old out.old disk.old folders.old texts.old)
        (outside_of S.ByteSource K.ByteSink D.Disk F.Folders T.Texts input.new out.new disk.new folders.new texts.new) }
{
    let ending = end(rt, alloc, words, input, out, disk, folders, texts, progress);
    tell(ending, err)
}

/// Runs the program with its arguments, its name first.
fn run_arguments<
    R: Threads + Wait + Clock + Sync,
    S: ByteSource,
    K: ByteSink,
    E: ByteSink,
    D: Disk,
    F: Folders,
    T: Texts,
    P: Progress + Sync,
>(
    rt: &R,
    alloc: Global,
    given: Args,
    input: &mut S,
    out: &mut K,
    err: &mut E,
    disk: &mut D,
    folders: &mut F,
    texts: &mut T,
    progress: &P,
) -> u8
    ensures ends { HasEnded (job_asked (words_of (into_iter_items given)))
        (outside_of S.ByteSource K.ByteSink D.Disk F.Folders T.Texts input.old out.old disk.old folders.old texts.old)
        (outside_of S.ByteSource K.ByteSink D.Disk F.Folders T.Texts input.new out.new disk.new folders.new texts.new)
        (sunk_of E.ByteSink err.old) (sunk_of E.ByteSink err.new) result }
    ensures fault { result ≡ 3
        → HasFault (job_asked (words_of (into_iter_items given)))
        (outside_of S.ByteSource K.ByteSink D.Disk F.Folders T.Texts input.old out.old disk.old folders.old texts.old)
        (outside_of S.ByteSource K.ByteSink D.Disk F.Folders T.Texts input.new out.new disk.new folders.new texts.new) }
    ensures no_fault { (result ≡ 3 → ⊥)
        → FailedNowhere
        (outside_of S.ByteSource K.ByteSink D.Disk F.Folders T.Texts input.old out.old disk.old folders.old texts.old)
        (outside_of S.ByteSource K.ByteSink D.Disk F.Folders T.Texts input.new out.new disk.new folders.new texts.new) }
{
    let Ok(given) = collected(alloc, given) else {
        return tell(Ending::NoMemory, err);
    };
    match words_after(alloc, given.as_slice()) {
        Ok(words) => run(
            rt,
            alloc,
            words.as_slice(),
            input,
            out,
            err,
            disk,
            folders,
            texts,
            progress,
        ),
        Err(_) => tell(Ending::NoMemory, err),
    }
}

/// Runs the program with the arguments that it got, its name first: `run` with the words after the name. An argument that
/// isn't UTF-8 makes a bad command line.
pub fn run_given<
    R: Threads + Wait + Clock + Sync,
    S: ByteSource,
    K: ByteSink,
    E: ByteSink,
    D: Disk,
    F: Folders,
    T: Texts,
    P: Progress + Sync,
>(
    rt: &R,
    alloc: Global,
    given: io::Result<Args>,
    input: &mut S,
    out: &mut K,
    err: &mut E,
    disk: &mut D,
    folders: &mut F,
    texts: &mut T,
    progress: &P,
) -> u8
    ensures ends { HasEnded (option_and_then (λ arguments. job_asked (words_of (into_iter_items arguments))) (result_ok given))
        (outside_of S.ByteSource K.ByteSink D.Disk F.Folders T.Texts input.old out.old disk.old folders.old texts.old)
        (outside_of S.ByteSource K.ByteSink D.Disk F.Folders T.Texts input.new out.new disk.new folders.new texts.new)
        (sunk_of E.ByteSink err.old) (sunk_of E.ByteSink err.new) result }
    ensures arguments { IfErr given (λ error. result ≡ status_of (ending_of_arguments (error_kind error))) }
    ensures fault { result ≡ 3
        → HasFault (option_and_then (λ arguments. job_asked (words_of (into_iter_items arguments))) (result_ok given))
        (outside_of S.ByteSource K.ByteSink D.Disk F.Folders T.Texts input.old out.old disk.old folders.old texts.old)
        (outside_of S.ByteSource K.ByteSink D.Disk F.Folders T.Texts input.new out.new disk.new folders.new texts.new) }
    ensures no_fault { (result ≡ 3 → ⊥)
        → FailedNowhere
        (outside_of S.ByteSource K.ByteSink D.Disk F.Folders T.Texts input.old out.old disk.old folders.old texts.old)
        (outside_of S.ByteSource K.ByteSink D.Disk F.Folders T.Texts input.new out.new disk.new folders.new texts.new) }
{
    match given {
        Ok(given) => run_arguments(
            rt, alloc, given, input, out, err, disk, folders, texts, progress,
        ),
        Err(error) => tell(Ending::of_arguments(error.kind()), err),
    }
}
