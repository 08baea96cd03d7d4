//! A load that is reported to an output, and its archives on a disk.

ghost use Rattle.std.specs.Prelude.{option_map};
ghost use Rattle.tr_chunk.specs.Files.{sunk_of};
ghost use Rattle.tr_load.specs.Telling.{TellsLoad, WritesLoad, disk_of};

use crate::loaded::Loaded;
use crate::texts::outcome_text;
use std::alloc::Global;
use tr_export::{Disk, ExportFault, write_archives};
use tr_record::{ByteSink, put_all};
use tr_session::Session;
use tr_terms::Name;

/// Writes a load's archives below a folder, if one is named.
fn write_load<D: Disk>(
    alloc: Global,
    disk: &mut D,
    dir: Option<&str>,
    session: &Session,
) -> Result<(), ExportFault>
    ensures { WritesLoad (option_map (λ d. d.now) dir.entry) session.now (disk_of D.Disk disk.old)
        (disk_of D.Disk disk.new) result }
{
    let Some(dir) = dir else {
        return Ok(());
    };
    let Some(name) = Name::new("load") else {
        unreachable!()
    };
    write_archives(alloc, disk, dir, &name, session)
}

/// Puts what is said of a load of `threads` threads to an output, and then writes the archives of its session below a folder if
/// one is named: `DIR/load/archives/NAME`. It does so whether the load's logs agree or not.
///
/// # Errors
///
/// `Write`: the output failed, after a prefix of the text, and nothing was made; or the disk failed, after a prefix of the
/// archives. `NoMemory`: nothing was put out or made, or a prefix of the archives was made.
pub fn tell_load<K: ByteSink, D: Disk>(
    alloc: Global,
    out: &mut K,
    disk: &mut D,
    dir: Option<&str>,
    threads: u64,
    loaded: &Loaded,
) -> Result<(), ExportFault>
    ensures { TellsLoad (option_map (λ d. d.now) dir.entry) threads loaded.now.settled loaded.now.outcome
        loaded.now.watched
        (sunk_of K.ByteSink out.old) (sunk_of K.ByteSink out.new) (disk_of D.Disk disk.old) (disk_of D.Disk disk.new)
        result }
{
    let Ok(text) = outcome_text(alloc, threads, &loaded.outcome, loaded.watched) else {
        return Err(ExportFault::NoMemory);
    };
    if put_all(out, text.as_bytes()).is_err() {
        return Err(ExportFault::Write);
    }
    write_load(alloc, disk, dir, loaded.settled.session())
}
