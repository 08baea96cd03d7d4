//! Files in memory: declarations, of descriptions of archives and of scripts whose sessions are created with declared events, and
//! images. What these come to with real archives is shown by `examples/events`, and with packets by `examples/recover`.

use super::assert_same;
use std::alloc::{AllocError, Global};
use std::sync::Wait;
use std::thread::Threads;
use std::time::Clock;
use tr_describe::MemoryTexts;
use tr_export::MemoryDisk;
use tr_folders::MemoryFolders;
use tr_load::NoProgress;
use tr_program::run;
use tr_record::{MemorySink, MemorySource};

/// Offers of three and of four bytes, before the session is started.
const SCRIPT: &str = "\
create s 00000000-0000-0000-0000-000000000001
channel s c 256 2 discard
thread s c
offer s 0 0 3 --fill 3
offer s 0 0 3 --fill 4
";

/// Folders with the file `e`, which has this text, and an empty folder `d`.
fn with_declarations(alloc: Global, text: &str) -> Result<MemoryFolders, AllocError> {
    let mut folders = Vec::new(alloc);
    folders.push((String::from_str(alloc, "d")?, Vec::new(alloc)))?;
    let mut files = Vec::new(alloc);
    files.push((
        String::from_str(alloc, "e")?,
        Vec::from_slice(alloc, text.as_bytes())?,
    ))?;
    Ok(MemoryFolders::new(alloc, folders, files, 1 << 20))
}

/// The status of a run with these words where the file `e` has this text, and whether these went to the output and to standard
/// error.
fn ran<R: Threads + Wait + Clock + Sync>(
    rt: &R,
    alloc: Global,
    words: &[&str],
    text: &str,
    out: &str,
    err: &str,
) -> (u8, bool, bool) {
    let mut taken = MemorySink::new(alloc, 4096);
    let mut told = MemorySink::new(alloc, 4096);
    let Ok(mut folders) = with_declarations(alloc, text) else {
        return (255, false, false);
    };
    let status = run(
        rt,
        alloc,
        words,
        &mut MemorySource::new(SCRIPT.as_bytes(), 4096),
        &mut taken,
        &mut told,
        &mut MemoryDisk::new(alloc, 4096),
        &mut folders,
        &mut MemoryTexts::new(alloc, 16),
        &NoProgress,
    );
    (
        status,
        taken.into_bytes().as_slice() == out.as_bytes(),
        told.into_bytes().as_slice() == err.as_bytes(),
    )
}

#[test]
fn what_a_description_lacks_is_told(rt: HostRuntime) {
    for (file, text, status, out, err) in [
        // no such file
        ("f", "", 3, "", "tracerd: read or write fault\n"),
        // a line that declares nothing
        (
            "e",
            "push 3 n:u32\npop 4 n:u33\n",
            1,
            "line 2 V3 BadType\n",
            "",
        ),
        // no session
        ("e", "push 3 n:u32\n", 3, "", "tracerd: no session\n"),
    ] {
        let words = ["describe", "--events", file, "d"];
        let found = ran(&rt, rt.alloc(), &words, text, out, err);
        assert_same(&rt, found, (status, true, true));
    }
}

#[test]
fn a_script_has_the_events_of_its_file(rt: HostRuntime) {
    for (file, text, status, out, err) in [
        (
            "e",
            "push 3 n:u32\n",
            1,
            "created s\nchannel c\nstream 0\nrefused O6 OtherLayout\nrefused O1 Inactive\n",
            "",
        ),
        (
            "e",
            "# none\n",
            1,
            "created s\nchannel c\nstream 0\nrefused O1 Inactive\nrefused O1 Inactive\n",
            "",
        ),
        // nothing of the script is read
        ("e", "push 3 n:u33\n", 1, "line 1 V3 BadType\n", ""),
        ("f", "", 3, "", "tracerd: read or write fault\n"),
    ] {
        let words = ["script", "--events", file];
        let found = ran(&rt, rt.alloc(), &words, text, out, err);
        assert_same(&rt, found, (status, true, true));
    }
}

#[test]
fn an_image_without_a_packet_is_told(rt: HostRuntime) {
    let uuid = "00000000-0000-0000-0000-000000000001";
    for (words, status, line) in [
        (&["recover", "e", "d"], 3, "tracerd: no session\n"),
        (&["recover", "f", "d"], 3, "tracerd: read or write fault\n"),
    ] {
        let found = ran(&rt, rt.alloc(), words, "no rings", "", line);
        assert_same(&rt, found, (status, true, true));
    }
    for (text, status, line) in [
        (uuid, 3, "tracerd: no session\n"),
        ("1", 2, "tracerd: bad command line\n"),
    ] {
        let words = ["recover", "--uuid", text, "e", "d"];
        let found = ran(&rt, rt.alloc(), &words, "no rings", "", line);
        assert_same(&rt, found, (status, true, true));
    }
}
