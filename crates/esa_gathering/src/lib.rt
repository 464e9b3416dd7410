//! The command `intake`: several files of submissions become one batch. The batch is that of all lines of all files, as
//! `batch` makes it of the lines of one. Where threads can be started, each takes in the lines of a file.
#![tactic(auto)]

mod crew;
mod gathers;
mod intake_command;
mod merging;
mod taking;
mod together;

pub use intake_command::{intake, intake_crew};
