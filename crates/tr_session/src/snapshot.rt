//! A whole snapshot of a session.

ghost use Rattle.std.specs.Prelude.{◌≡◌, ◌≢◌, Err, IsOk};
ghost use Rattle.tr_session.specs.Steps.{session_snapshot_answer, session_after_snapshot};
ghost use Rattle.tr_stream.specs.Rules.{by_state};

use crate::session::Session;
use std::alloc::Allocator;
use tr_session_book::SessionFault;
use tr_snapshot::Snapshot;
use tr_terms::Moment;

impl<A: Allocator + Copy> Session<A> {
    /// A snapshot of the session: each of its streams as it is at this moment, or at the last one if that is later. The
    /// moment is stored, and nothing else changes.
    ///
    /// # Errors
    ///
    /// `NotSnapshotMode`, `NeverStarted`, `NoMemory`: nothing changed.
    pub fn snapshot(&mut self, moment: Moment) -> Result<Snapshot<A>, SessionFault>
        ensures value { result ≢ Err SessionFault.NoMemory →
            (result ≡ session_snapshot_answer by_state moment self.old)
            × (self.new ≡ session_after_snapshot moment self.old) }
        ensures no_memory { result ≡ Err SessionFault.NoMemory → self.new ≡ self.old }
        ensures memory { result ≡ Err SessionFault.NoMemory
            → IsOk (session_snapshot_answer by_state moment self.old) }
    {
        let stored = match self.book().snapshot_moment(moment) {
            Ok(stored) => stored,
            Err(fault) => return Err(fault),
        };
        let Ok(streams) = self.snap_streams(stored) else {
            return Err(SessionFault::NoMemory);
        };
        match self.snapshot_begin(moment) {
            Ok(moment) => Ok(Snapshot::new(moment, streams)),
            Err(fault) => Err(fault),
        }
    }
}
