//! The commands of the role that encodes: `gen`, which makes up reports, and `encode`, by which reports become
//! submissions.
#![tactic(auto)]

mod encode_command;
mod generate_command;

pub use encode_command::encode;
pub use generate_command::generate;
