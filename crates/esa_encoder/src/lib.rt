//! Seals reports: lines of reports become lines of submissions.
//!
//! A report is sealed for the analyser, and that, with its crowd's id, for the shuffler. Line by line, what is written
//! is a definition over the line that was read, and a refusal is that of the first bad line, with its first cause. The
//! crate stands on `esa_bytes`, `esa_envelope`, `esa_line`, `esa_params`, `esa_report`, `hex` and `sha2`.
#![tactic(auto)]

mod nonces;
mod report;
mod seal;
mod shape;
mod submission;

pub use nonces::nonces_are_distinct;
pub use shape::Shaper;
pub use submission::{EncodeRefused, Meta, encode, encode_by, encode_line, encode_line_with};
