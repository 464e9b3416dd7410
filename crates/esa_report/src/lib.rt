//! What is sealed: reports, crowd ids, and the items that travel through a shuffler's memory.
//!
//! Each value has one spelling as a report and each item one as bytes, and what is read is exactly
//! what was spelled. No call takes memory. The crate stands on `esa_bytes` and `sha2`.
#![tactic(auto)]

mod crowd;
mod item;
mod report;
mod zero;

pub use crowd::crowd_of;
pub use item::{Item, Kind, item_at, kind_at};
pub use report::{TooLong, code, value_of};
