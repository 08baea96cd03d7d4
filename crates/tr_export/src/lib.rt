//! A session's archives on disk: the folder of each that has all its parts, with the metadata text and a file for each
//! stream.
//!
//! # Example
//!
//! ```
//! let mut disk = SystemDisk::new(HostFiles::new(&rt));
//! write_archives(alloc, &mut disk, "DIR", &name, &session)?;  // DIR/NAME/archives/..
//! ```
//!
//! # What is proved
//!
//! For every disk that reports what it makes:
//!
//! - For each archive, in order, that has no released part, its folder, a file for each stream and its metadata, with the
//!   session's events, are made, with exactly the texts of that stream's packets; and no other file is opened
//!   (`write_archives`: `ok`; `write_file`: `ok`; `laws::every_stream_has_its_file`).
//! - If the disk fails or an allocation fails, a prefix of this is made, and then at most one broken file: the one that comes
//!   next (`write_archives`, `write_file`: `err` (`MadePrefix`)).
//! - Paths are made of names, so none leads out of the folder (`archive_folder`, `file_path`, `tr_chunk::stream_file_name`,
//!   `tr_session_book::SessionBook::channel_of`).
//!
//! And for every disk:
//!
//! - A write fault is answered if and only if the disk or one of its files failed in that call (`write_archives`, `write_file`:
//!   `failures`).
//! - The program's disk is proved over every file system that reports what it makes, and a disk in memory says what was made:
//!   these paths, files that are flushed, failures counted (`SystemDisk::new`, `MemoryDisk::new`: `made`, `failures`;
//!   `Disk::make_folder`, `close_file`: `ok`, `err`, `no_failure`, `failed`; `open_file`: `ok`, `err`, `empty`, `failed`;
//!   `give_up`: `made`, `failures`; `FileSystem::create`, `end`: `ok`, `err`).
//!
//! # What is only tested
//!
//! The three lines that reach the real file system (`HostFiles`): another path, a missing folder or a missing flush there would
//! pass. Runs of the program show paths and folders (`examples/exports`, `.ci/under-fire`). None can show a flush, since std's
//! files keep nothing back. Another piece size of `MemoryDisk::new` would pass too: how bytes are cut is no part of the
//! meaning.
#![tactic(auto)]

mod content;
mod counting;
mod disk;
mod faults;
mod files;
mod host;
pub mod laws;
mod made;
mod memory;
mod paths;
mod system;
mod writing;

pub use content::Content;
pub use counting::CountingFile;
pub use disk::Disk;
pub use faults::ExportFault;
pub use files::FileSystem;
pub use host::HostFiles;
pub use made::Made;
pub use memory::MemoryDisk;
pub use paths::{archive_folder, file_path};
pub use system::SystemDisk;
pub use writing::{write_archives, write_file};
