//! The tests in which calls are refused memory. The answer names the refusal, what is left after it is what the call's
//! documentation says, and the same call made again with memory gives the ordinary answer. There are two ways:
//!
//! - each request of a call for memory is refused in turn: none is granted, then one, then two, until none is refused: more
//!   than 380 allocations in all. A call is refused if and only if a refused request is one that it can't do without. Only a
//!   release has one that it can do without: what it keeps stays where it is if less room is refused;
//! - the call is made with no free memory, with 16 bytes, with 32, until it has enough. Shared sessions are tested this way
//!   alone.
//!
//! The calls are those of rings, streams, sessions, packets, names, metadata and audits, runs of a stream's and a session's
//! calls, two archives written to a disk, and three scripts that between them have each command. A rotation and a tick are held
//! up before they begin and at each cut, refuse a stop, and go on. The script has answered whole lines only. Of the archives
//! the first folders and files are made, and the last file may be broken. Calls that take no memory ask for none.
//!
//! Of a shared session the calls are its plan, its building, its drainers, takes, rotations, ticks and snapshots. It is settled
//! after each refusal, without a free byte. Then nothing tells it from a session of one owner that did the same: only the cuts
//! that were made are in its totals and its closed parts, a snapshot that was refused has stored its moment, and a drainer that
//! was refused isn't counted. A plan and a session that are refused while they are made give all their memory back.
//!
//! Workers and the program take their memory from the C library; `.ci/under-fire` runs the program with too little. Some
//! functions drop by name what they hold at their end, which is proved in less time.
#![tactic(auto)]

#[cfg(test)]
mod archives;
#[cfg(test)]
mod files;
#[cfg(test)]
mod readers;
#[cfg(test)]
mod rings;
#[cfg(test)]
mod scarce;
#[cfg(test)]
mod scripts;
#[cfg(test)]
mod sessions;
#[cfg(test)]
mod streams;
#[cfg(test)]
mod turns;
