//! The commands run and shuffle: what they take in, their shuffle, and the work that they owe by how that ended.
#![tactic(auto)]

mod ending;
mod forwarding;
mod handed_in;
mod outlet;
mod outputs;
mod purpose;
mod replays;
mod run_command;
mod shuffle_crew;
mod shuffle_mode;
mod threaded;
mod well_ended;
mod working;

pub use handed_in::{crews_are_replayed, turns_can_be_handed_in_again};
pub use purpose::Purpose;
pub use replays::{crews_output_is_replayed, crews_turns_are_read};
pub use run_command::{Ended, run};
pub use threaded::run_threaded;
pub use well_ended::runs_without_faults_end_well;
