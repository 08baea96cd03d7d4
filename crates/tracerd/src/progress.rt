//! How far a load is, as somebody at a terminal sees it.

use std::io::IsTerminal;
use tr_load::{Progress, progress_text};
use tr_record::{WriterSink, put_all};

/// Shows on standard error how many records a load has offered so far, if that is a terminal.
#[derive(Drop)]
pub(crate) struct OnStandardError<'a> {
    pub(crate) rt: &'a HostRuntime,
}

impl<'a> Progress for OnStandardError<'a> {
    fn is_shown(&self) -> bool {
        self.rt.stderr().is_terminal()
    }

    fn show(&self, offered: u128) {
        // the load goes on if this can't be shown
        if let Ok(text) = progress_text(self.rt.alloc(), offered) {
            let _ = put_all(&mut WriterSink::new(self.rt.stderr()), text.as_bytes());
        }
    }
}
