//! The tests of what uses everything else: loads, their logs and what they show meanwhile (tr_load), and runs of the program in
//! which its surroundings fail it (tr_program). Whole runs are in `examples`.
#![tactic(auto)]

#[cfg(test)]
mod asserting;
#[cfg(test)]
mod loads;
#[cfg(test)]
mod progress;
#[cfg(test)]
mod runs;
