//! Every command by its word: from the words of a command line to the files and lines that it writes and prints.
#![tactic(auto)]

mod call;
mod dispatch;
mod performs;
mod top;

pub use esa_command::tell;
pub use esa_refusal::{End, Refusal, Status};
pub use top::{Ended, esa, esa_plain};
