//! A session that is rotated again and again, and gives up each archive at once, or keeps it.

use crate::rotations::{RotateFault, moment, new_session};
use std::alloc::Global;
use tr_session::Session;
use tr_terms::{Mode, Name};

/// The size of a sub-buffer in bytes, and how many a ring has.
const SIZE: u64 = 4_096;

const COUNT: u64 = 2;

/// What all archives of a session hold, or held before they were released.
#[derive(Clone, Copy, Debug)]
pub struct Archived {
    pub archives: u64,
    pub packets: u128,
    pub records: u128,
    pub bytes: u128,
    /// How many streams' parts have given up their packets.
    pub released: u64,
}

/// A session of one stream that was started at moment 0.
fn started(alloc: Global) -> Result<Session, RotateFault> {
    let mut session = new_session(alloc)?;
    let Some(name) = Name::new("c") else {
        return Err(RotateFault::NoName);
    };
    session.add_channel(&name, SIZE, COUNT, Mode::Discard)?;
    session.add_thread("c")?;
    session.start(moment(0))?;
    Ok(session)
}

/// Offers a record, rotates the session, and releases the archive that comes of it if it isn't to be kept.
fn turn(session: &mut Session, payload: &[u8], at: u64, keeps: bool) -> Result<(), RotateFault> {
    session.offer(0, moment(at), 7, payload)?;
    let archive = session.rotate(moment(at))?;
    if !keeps {
        session.release(archive.id)?;
    }
    Ok(())
}

/// What all archives of a session hold.
fn held_by(session: &Session) -> Archived {
    let mut all = Archived {
        archives: 0,
        packets: 0,
        records: 0,
        bytes: 0,
        released: 0,
    };
    for archive in session.book().archives() {
        let size = session.archive_size(archive.id);
        all = Archived {
            archives: all.archives.wrapping_add(1),
            packets: all.packets.wrapping_add(size.packets),
            records: all.records.wrapping_add(size.records),
            bytes: all.bytes.wrapping_add(size.bytes),
            released: all.released.wrapping_add(size.released),
        };
    }
    all
}

/// Rotates a session of one stream `rounds` times, each time with one record with this payload. What its archives hold then.
pub fn rounds(
    alloc: Global,
    payload: &[u8],
    rounds: u64,
    keeps: bool,
) -> Result<Archived, RotateFault> {
    let mut session = started(alloc)?;
    for at in 0..rounds {
        turn(&mut session, payload, at, keeps)?;
    }
    Ok(held_by(&session))
}
