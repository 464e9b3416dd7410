//! A run of the shuffle on one thread: the load, the attempts with the turns that were handed in, and its end.
//!
//! Each attempt is begun, takes its turns, drains its stash and compresses. One that fails is followed by the next one, with
//! draws of its own, until an attempt succeeds or each of the plan has failed. Where the device or the batch fails, or a
//! block doesn't open, the run ends there. This crate stands on the crew of a floor, esa_crew, on the press, esa_press, and
//! on the load, esa_load. What is said of an end is said in the records of esa_ending. All memory is taken before the first
//! access.
#![tactic(auto)]

mod attempt;
mod failures;
mod loads;
mod outputs;
mod rest;
mod runs;
mod shuffle;
mod tools;

pub use failures::Failures;
pub use loads::load;
pub use outputs::scans_are_given_the_batch;
pub use rest::finish;
pub use runs::{Ran, is_good, outcome_by};
pub use shuffle::{NoRun, run_turns};

#[cfg(test)]
mod tests;
