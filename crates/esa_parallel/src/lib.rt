//! A run of the shuffle by a crew: running workers distribute each attempt, whatever the schedule.
//!
//! The floor of the run is the value of a turnstile. Its owner has a pass, and so has each worker. The owner loads the batch,
//! begins each attempt, lets the crew work, and goes on alone: it drains the stash and compresses. So a run is what it is on
//! one thread, with the turns that were stored. This crate stands on running workers, esa_workers, and on what esa_shuffle
//! says of an attempt and of the end of a run. All memory is taken before the first access.
#![tactic(auto)]

mod attempt;
mod attempts;
mod crew;
mod parallel;
mod runs;
#[cfg(test)]
mod tests;
mod tools;

pub use crew::run_crew;
