//! The tests of tr_seats, of tr_shared, and of tr_lends and tr_pool on it (`seats`, `shared`, `feeding`, `gates`, `intakes`): offers
//! and takes that move seats, drainers, desks, sessions that are settled, the threads that share one, producers that are lent, and
//! feeders and workers in threads.
//!
//! Some functions drop by name what they hold at their end, which is proved in less time.
#![tactic(auto)]

#[cfg(test)]
mod feeding;
#[cfg(test)]
mod gates;
#[cfg(test)]
mod intakes;
#[cfg(test)]
mod plans;
#[cfg(test)]
mod seats;
#[cfg(test)]
mod shared;
#[cfg(test)]
mod tallies;
