//! How a command ends, and the lines that say so.
//!
//! A `Refusal` is the first thing that is wrong with what a command was given, a `Stop` says why a command took nothing in, and
//! a `Status` how it ended. Each has its text, which is put together on the stack: no line takes memory. The crate stands
//! on the crates whose readers refuse files.
#![tactic(auto)]

mod failures;
mod line;
mod refusal;
mod source;
mod status;
mod stop;
mod words;

pub use failures::{Failures, verdict_line};
pub use line::{LONGEST_LINE, Line};
pub use refusal::{Refusal, add_numbered};
pub use source::{Sink, Source};
pub use status::{DeviceAt, End, Status, line_of};
pub use stop::Stop;
