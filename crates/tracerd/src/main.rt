//! The daemon's program: answers a script of commands, runs a load, audits archives, or gives archives their types.
#![tactic(auto)]

mod progress;

use crate::progress::OnStandardError;
use std::alloc::Global;
use std::io::IsTerminal;
use std::process::ExitCode;
use std::{env, io};
use tr_command::notice_given;
use tr_describe::HostTexts;
use tr_export::{HostFiles, SystemDisk};
use tr_folders::HostFolders;
use tr_program::run_given;
use tr_record::{ReaderSource, WriterSink, put_all};

fn main(rt: HostRuntime) -> ExitCode {
    let alloc: Global = rt.alloc();
    let mut err = WriterSink::new(rt.stderr());
    if rt.stderr().is_terminal() {
        if let Ok(given) = env::args(&rt) {
            if let Ok(Some(notice)) = notice_given(alloc, given) {
                let _ = put_all(&mut err, notice.as_bytes());
            }
        }
    }
    let given = env::args(&rt);
    let mut input = ReaderSource::new(rt.reader());
    let mut out = WriterSink::new(io::writer(&rt));
    let mut disk = SystemDisk::new(HostFiles::new(&rt));
    let mut folders = HostFolders::new(&rt);
    let mut texts = HostTexts::new(alloc, &rt);
    let status = run_given(
        &rt,
        alloc,
        given,
        &mut input,
        &mut out,
        &mut err,
        &mut disk,
        &mut folders,
        &mut texts,
        &OnStandardError { rt: &rt },
    );
    ExitCode::from(status)
}
