//! Where folders and files are read: the interface, the runtime's file system, and folders in memory.
//!
//! # Example
//!
//! ```
//! let mut folders = MemoryFolders::new(alloc, folders, files, 7);  // gives its bytes in pieces of 7
//! let count = read_front(&mut folders, &mut buffer)?;              // until the buffer is full or the file ends
//! ```
//!
//! # What is proved
//!
//! - Folders that report what is in them give its names, files and bytes, and say what can't be read; reading changes none of
//!   it. A failure is counted, and a failed allocation, or what can't be read, isn't one (`Folders::names_in`: `names`, `seen`,
//!   `hidden`, `tree`, `failures`; `open`: `opens`, `known`, `tree`, `failures`; `read`: `reads`, `broken`, `tree`,
//!   `failures`).
//! - A file is read until the buffer is full or it ends (`read_front`: `front`, `left`, `given`, `count`, `whole`, `broken`,
//!   `tree`, `failures`).
//! - Folders in memory have the first folder and file of each path, and what can't be read of them (`MemoryFolders::new`,
//!   `with_hidden`: `tree`, `left`, `given`, `failures`; `HostFolders::new`: `given`, `failures`).
//!
//! # What is only tested
//!
//! Of the runtime's file system (`HostFolders`) nothing is known: another path, another of its answers, or calls that find or
//! give nothing would pass. Runs of the program show its names, files, links, a file that fails as it is read, and what is
//! neither folder nor file (`examples/audit/run`, `.ci/under-fire`). Calls of `MemoryFolders` that fail would pass too, since
//! `Folders` says what an answer means and not when there is one.
#![tactic(auto)]

mod faults;
mod folders;
mod host;
mod memory;
mod reading;

pub use faults::ReadFault;
pub use folders::{Folders, MOST_BYTES};
pub use host::HostFolders;
pub use memory::MemoryFolders;
pub use reading::{buffer_of, read_front};
