//! The commands of the role that shuffles: `batch`, by which submissions become a batch, and `plan`, which foretells
//! what a shuffle will do.
#![tactic(auto)]

mod batch_command;
mod plan_command;
mod taking;

pub use batch_command::{batch, work_batch};
pub use plan_command::plan;
pub use taking::{plan_of, take_coins, take_turns};
