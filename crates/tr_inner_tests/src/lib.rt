//! The tests of what is inside a session of one thread: a module for each of the crates below streams, and of others that are
//! cheap to prove, in `layers`; packets, the metadata, and the files of trace chunks; worked examples of a stream's calls, and
//! of sessions, their rotations, snapshots, ticks, runs and audits.
#![tactic(auto)]

#[cfg(test)]
mod asserting;
#[cfg(test)]
mod files;
#[cfg(test)]
mod layers;
#[cfg(test)]
mod metadata;
#[cfg(test)]
mod packets;
#[cfg(test)]
mod packing;
#[cfg(test)]
mod sessions;
#[cfg(test)]
mod streams;
#[cfg(test)]
mod tallies;
